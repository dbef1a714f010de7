//! What a device in memory tells.
ghost use Rattle.std.specs.Prelude.{◌≡◌, ◌≤◌, ◌-◌, ◌++◌, true, length, replicate, OnOk, OnErr};
ghost use Rattle.tt_log.specs.Device.{CountsFailure};
ghost use Rattle.tt_device_tests.specs.Outcomes.{outcomes, may_leave_of, LeftSince};
ghost use Rattle.tt_device_tests.specs.Device.{is_there, leaves_new};
ghost use Rattle.tt_device_tests.specs.Laws.{now_counts, now_only, seen_is_left_of, synced_is_left_of};

use crate::event::{Bytes, Event};
use crate::failures::Failures;
use crate::memory_device::{MemoryDevice, NewState, record};
use std::alloc::AllocError;
use std::mem;
use std::sync::Wait;
use tt_log::{Device, DeviceError, RenewError};

impl<'a, R: Wait> Device for MemoryDevice<'a, R> {
    ghost tells = { λ d. Unit {0} };

    ghost seen = { λ d. d.file.items };

    ghost shown = { λ d. (outcomes d.events.items).shown };

    ghost may_leave = { λ d. may_leave_of d.events.items };

    ghost once_synced = { λ d. (outcomes d.events.items).once_synced };

    ghost new_file = { λ d. d.new_file.items };

    ghost may_leave_new = { λ d. leaves_new d.new_state d.new_file.items };

    ghost may_leave_named = { λ d. (outcomes d.events.items).named };

    ghost has_new_file = { λ d. is_there d.new_state };

    ghost rename_count = { λ d. (outcomes d.events.items).rename_count };

    ghost cannot_read = { λ d. ⊥ };

    ghost moment = { λ d. length d.events.items };

    ghost left_since = { λ d. LeftSince d.events.items };

    ghost failures = { λ d. d.failures.count };

    ghost counts_now = { λ d. now_counts d.events.items };

    ghost synced_is_left = { λ d told. synced_is_left_of d.events.items };

    ghost seen_is_left = { λ d told. seen_is_left_of d.events.items d.file.items d.seen_left };

    ghost only_now = { λ d. now_only d.events.items };

    fn length(&self) -> Result<u64, DeviceError> {
        Ok(self.file.len() as u64)
    }

    fn read_at(&self, at: u64, buffer: &mut [u8]) -> Result<(), DeviceError> {
        let from = at as usize;
        buffer.copy_from_slice(&self.file[from..from + buffer.len()]);
        Ok(())
    }

    fn write_at(&mut self, at: u64, bytes: &[u8]) -> Result<(), DeviceError> {
        self.failures.call()?;
        let written = self
            .failures
            .with_memory(Bytes::copy_of(self.alloc, bytes))?;
        let event = Event::Written { at, bytes: written };
        record(&mut self.events, event, &mut self.failures)?;
        let from = at as usize;
        self.file[from..from + bytes.len()].copy_from_slice(bytes);
        Ok(())
    }

    fn grow(&mut self, len: u64) -> Result<(), DeviceError> {
        self.failures.call()?;
        let old_len = self.file.len();
        match grow_to(&mut self.file, len) {
            Ok(()) => {}
            Err(_) => return Err(self.failures.add()),
        }
        match record(&mut self.events, Event::Grown { len }, &mut self.failures) {
            Ok(()) => Ok(()),
            Err(error) => {
                self.file.truncate(old_len);
                Err(error)
            }
        }
    }

    fn cut(&mut self, len: u64) -> Result<(), DeviceError> {
        self.failures.call()?;
        record(&mut self.events, Event::Cut { len }, &mut self.failures)?;
        self.file.truncate(len as usize);
        Ok(())
    }

    fn sync(&mut self) -> Result<(), DeviceError> {
        if !self.is_named {
            return Err(self.failures.add());
        }
        if let Err(error) = self.failures.call() {
            record(&mut self.events, Event::SyncFailed, &mut self.failures)?;
            return Err(error);
        }
        record(&mut self.events, Event::Synced, &mut self.failures)?;
        Ok(())
    }

    fn hand_over(&mut self, bytes: &[u8]) -> Result<(), DeviceError> {
        self.failures.call()?;
        let bytes = self
            .failures
            .with_memory(Bytes::copy_of(self.alloc, bytes))?;
        record(&mut self.events, Event::Shown { bytes }, &mut self.failures)?;
        Ok(())
    }

    fn create_new(&mut self) -> Result<(), DeviceError> {
        self.failures.call()?;
        if !matches!(self.new_state, NewState::None) {
            return Err(self.failures.add());
        }
        self.new_file.clear();
        self.new_state = NewState::Unsynced;
        Ok(())
    }

    fn append_new(&mut self, bytes: &[u8]) -> Result<(), DeviceError> {
        begin_on_new(&mut self.new_state, &mut self.failures)?;
        self.failures
            .with_memory(self.new_file.extend_from_slice(bytes))?;
        self.new_state = NewState::Unsynced;
        Ok(())
    }

    fn grow_new(&mut self, len: u64) -> Result<(), DeviceError> {
        begin_on_new(&mut self.new_state, &mut self.failures)?;
        let grown = grow_to(&mut self.new_file, len);
        self.failures.with_memory(grown)?;
        self.new_state = NewState::Unsynced;
        Ok(())
    }

    fn sync_new(&mut self) -> Result<(), DeviceError> {
        begin_on_new(&mut self.new_state, &mut self.failures)?;
        self.new_state = NewState::Synced;
        Ok(())
    }

    fn rename_new(&mut self) -> Result<(), RenewError> {
        if !is_usable(self.new_state) {
            self.failures.add();
            return Err(RenewError::Kept);
        }
        let is_on_disk = is_synced(self.new_state);
        let bytes = self
            .failures
            .with_memory(Bytes::copy_of(self.alloc, &self.new_file))?;
        let event = Event::Placed { is_on_disk, bytes };
        record(&mut self.events, event, &mut self.failures)?;
        self.file = mem::replace(&mut self.new_file, Vec::new(self.alloc));
        self.is_named = false;
        self.new_state = NewState::None;
        match self.failures.call() {
            Ok(()) => Ok(()),
            Err(_) => Err(RenewError::Lost),
        }
    }

    fn sync_folder(&mut self) -> Result<(), DeviceError> {
        self.failures.call()?;
        record(&mut self.events, Event::NameSynced, &mut self.failures)?;
        self.is_named = true;
        Ok(())
    }

    fn remove_new(&mut self) {
        self.new_file.clear();
        self.new_state = NewState::None;
    }
}

/// Counts a call on the new file, which is given up unless the call ends well. It fails where there
/// is none, or where it was given up.
fn begin_on_new<R: Wait>(
    state: &mut NewState,
    failures: &mut Failures<'_, R>,
) -> Result<(), DeviceError>
    ensures failed { CountsFailure failures.old.count failures.new.count result }
    ensures there { OnOk result (is_there state.old) }
    ensures there_err { OnErr result (is_there state.new → is_there state.old) }
{
    if !is_usable(*state) {
        return Err(failures.add());
    }
    *state = NewState::Failed;
    failures.call()
}

/// Makes bytes longer by bytes 0, up to a length.
fn grow_to(bytes: &mut Vec<u8>, len: u64) -> Result<(), AllocError>
    ensures ok { length bytes.old.items ≤ len → OnOk result (bytes.new.items
        ≡ bytes.old.items ++ replicate (len - length bytes.old.items) 0) }
    ensures err { OnErr result (bytes.new.items ≡ bytes.old.items) }
{
    bytes.resize(len as usize, 0)
}

/// Whether there is a new file on which no call has failed.
fn is_usable(state: NewState) -> bool
    ensures { result ≡ true → is_there state }
{
    matches!(state, NewState::Unsynced | NewState::Synced)
}

/// Whether there is a new file whose bytes are on the disk.
fn is_synced(state: NewState) -> bool
    ensures { state ≡ NewState.Synced → result ≡ true }
{
    matches!(state, NewState::Synced)
}
