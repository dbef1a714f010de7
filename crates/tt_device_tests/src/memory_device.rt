//! A device in memory.
ghost use Rattle.std.specs.Prelude.{◌≡◌, true, List, ℕ, ◌++◌, ◌∷◌, [], IfOk, OnOk, OnErr};
ghost use Rattle.tt_log.specs.Device.{CountsFailure, Only};
ghost use Rattle.tt_device_tests.specs.Outcomes.{outcomes, may_leave_of};
ghost use Rattle.tt_device_tests.specs.declared.event.Event.TheVariants.{Placed, NameSynced};

use crate::event::{Bytes, Event};
use crate::failures::Failures;
use std::alloc::{AllocError, Global};
use std::sync::Wait;
use tt_log::DeviceError;

/// What there is of a new file beside the file.
#[derive(Clone, Copy)]
pub(crate) enum NewState {
    /// There is none.
    None,
    /// No call on it has failed.
    Unsynced,
    /// No call on it has failed, and its bytes are on the disk.
    Synced,
    /// A call on it has failed.
    Failed,
}

/// A file in memory, and what a crash may leave of it, by all that has happened to it. It has a
/// disk as the operating system has it: what isn't synced may be there in part, and a sync that
/// fails forgets what was to be synced, so that the next one succeeds without it.
///
/// It fails where memory runs out, and where it is told to. A call that would fail for the 2^64th time never returns.
#[derive(Drop)]
pub struct MemoryDevice<'a, R: Wait> {
    pub(crate) alloc: Global,
    pub(crate) failures: Failures<'a, R>,
    /// What has happened, the oldest first.
    pub(crate) events: Vec<Event>,
    /// The bytes that are read.
    pub(crate) file: Vec<u8>,
    /// Whether the name of the file is on the disk.
    pub(crate) is_named: bool,
    pub(crate) new_file: Vec<u8>,
    pub(crate) new_state: NewState,
    ghost seen_left: { ∥ (outcomes events.items).once_synced file.items ∥₁ },
    ghost one_name: { is_named ≡ true → (c : List ℕ) → (outcomes events.items).other c → ⊥ },
}

impl<'a, R: Wait> MemoryDevice<'a, R> {
    /// A file with these bytes, all of them on the disk. The call behind so many others fails,
    /// once, if a number is told; reads aren't counted.
    pub fn on_disk(
        rt: &'a R,
        alloc: Global,
        bytes: &[u8],
        calls_left: Option<u64>,
    ) -> Result<MemoryDevice<'a, R>, AllocError>
        ensures file { IfOk result (λ d. d.file.items ≡ bytes.now) }
        ensures left { IfOk result (λ d. Only bytes.now (may_leave_of d.events.items)) }
        ensures once_synced { IfOk result (λ d.
            Only bytes.now (outcomes d.events.items).once_synced) }
        ensures shown { IfOk result (λ d. (outcomes d.events.items).shown ≡ []) }
        ensures failures { IfOk result (λ d. d.failures.count ≡ 0) }
    {
        MemoryDevice::placed(rt, alloc, bytes, calls_left, true)
    }

    /// A file with these bytes as a process leaves it that is killed, or whose sync has failed:
    /// nobody knows what of it is on the disk. The call behind so many others fails, once, if a
    /// number is told; reads aren't counted.
    pub fn left_behind(
        rt: &'a R,
        alloc: Global,
        bytes: &[u8],
        calls_left: Option<u64>,
    ) -> Result<MemoryDevice<'a, R>, AllocError>
        ensures file { IfOk result (λ d. d.file.items ≡ bytes.now) }
        ensures shown { IfOk result (λ d. (outcomes d.events.items).shown ≡ []) }
        ensures failures { IfOk result (λ d. d.failures.count ≡ 0) }
    {
        MemoryDevice::placed(rt, alloc, bytes, calls_left, false)
    }

    /// A file with these bytes, which are on the disk or may not be there.
    fn placed(
        rt: &'a R,
        alloc: Global,
        bytes: &[u8],
        calls_left: Option<u64>,
        is_on_disk: bool,
    ) -> Result<MemoryDevice<'a, R>, AllocError>
        ensures file { IfOk result (λ d. d.file.items ≡ bytes.now) }
        ensures events { IfOk result (λ d. d.events.items
            ≡ Placed is_on_disk bytes.now ∷ NameSynced ∷ []) }
        ensures failures { IfOk result (λ d. d.failures.count ≡ 0) }
    {
        let mut events = Vec::new(alloc);
        let bytes_placed = Bytes::copy_of(alloc, bytes)?;
        events.push(Event::Placed {
            is_on_disk,
            bytes: bytes_placed,
        })?;
        events.push(Event::NameSynced)?;
        Ok(MemoryDevice {
            alloc,
            failures: Failures::new(rt, calls_left),
            events,
            file: bytes.to_vec(alloc)?,
            is_named: true,
            new_file: Vec::new(alloc),
            new_state: NewState::None,
        })
    }

    /// The bytes of the file.
    pub fn file(&self) -> &[u8]
        ensures { result.now ≡ self.now.file.items }
    {
        &self.file
    }
}

/// Adds an event to those that have happened.
pub(crate) fn record<R: Wait>(
    events: &mut Vec<Event>,
    event: Event,
    failures: &mut Failures<'_, R>,
) -> Result<(), DeviceError>
    ensures ok { OnOk result (events.new.items ≡ events.old.items ++ event ∷ []) }
    ensures err { OnErr result (events.new.items ≡ events.old.items) }
    ensures failed { CountsFailure failures.old.count failures.new.count result }
{
    match events.push(event) {
        Ok(()) => Ok(()),
        Err(_) => Err(failures.add()),
    }
}
