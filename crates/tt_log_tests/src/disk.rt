//! A file in memory that a crash tears, and what was handed over.
ghost use Rattle.std.specs.Prelude.{◌≡◌, []};

use std::alloc::Global;
use std::mem;
use std::process::Abort;
use tt_log::{Device, DeviceError, RenewError};

/// Which of its calls fail, counted from 0. Reads aren't counted.
#[derive(Clone, Copy)]
pub(crate) enum Failing {
    Never,
    Once(usize),
    From(usize),
}

/// A file that hasn't the name yet, or not any more.
#[derive(Drop)]
struct Unnamed {
    synced: Vec<u8>,
    latest: Vec<u8>,
    written: usize,
}

/// A file whose latest bytes are on the disk after a sync, unless one has failed: then the next ones
/// succeed, and put nothing on the disk. A call that fails is done by half.
#[derive(Drop)]
pub(crate) struct Disk {
    alloc: Global,
    synced: Vec<u8>,
    pub(crate) latest: Vec<u8>,
    pub(crate) shown: Vec<u8>,
    pub(crate) failing: Failing,
    /// Whether nobody knows after a naming that fails which file has the name.
    pub(crate) is_unsure: bool,
    /// Reads behind this place fail. Where it is 0, the length can't be told.
    pub(crate) readable: usize,
    /// Where the last write ended, of those that went furthest.
    written: usize,
    /// Whether a sync of the file has failed.
    is_forgetful: bool,
    /// The new file that is being made.
    new_file: Option<Unnamed>,
    /// The file that has the name on the disk, where that isn't this one.
    old_file: Option<Unnamed>,
    pub(crate) calls: usize,
    pub(crate) writes: usize,
    pub(crate) grows: usize,
    pub(crate) cuts: usize,
    pub(crate) syncs: usize,
    pub(crate) renames: usize,
}

impl Disk {
    /// A file with these bytes, which are on the disk.
    pub(crate) fn new(rt: &impl Abort, alloc: Global, bytes: &[u8]) -> Self {
        Disk {
            alloc,
            synced: bytes.to_vec(alloc).expect(rt, "memory"),
            latest: bytes.to_vec(alloc).expect(rt, "memory"),
            shown: Vec::new(alloc),
            failing: Failing::Never,
            is_unsure: false,
            readable: usize::MAX,
            written: 0,
            is_forgetful: false,
            new_file: None,
            old_file: None,
            calls: 0,
            writes: 0,
            grows: 0,
            cuts: 0,
            syncs: 0,
            renames: 0,
        }
    }

    /// What a crash leaves: of each byte that differs, by the next choice, the latest or the synced
    /// one, which it is also behind the last choice. The file has this length, if it may.
    pub(crate) fn after_crash(
        &self,
        rt: &impl Abort,
        alloc: Global,
        choices: &[bool],
        len: usize,
    ) -> Disk {
        let bytes = torn(
            rt,
            alloc,
            [&self.synced, &self.latest],
            self.written,
            choices,
            len,
        );
        Disk::new(rt, alloc, bytes.as_slice())
    }

    /// The same, where a crash may find that another file has the name.
    pub(crate) fn after_crash_unnamed(
        &self,
        rt: &impl Abort,
        alloc: Global,
        choices: &[bool],
        len: usize,
    ) -> Option<Disk> {
        let old = self.old_file.as_ref()?;
        let bytes = torn(
            rt,
            alloc,
            [&old.synced, &old.latest],
            old.written,
            choices,
            len,
        );
        Some(Disk::new(rt, alloc, bytes.as_slice()))
    }

    /// Gives a file the name, which isn't on the disk then.
    fn place(&mut self, file: Unnamed) {
        let Unnamed {
            synced,
            latest,
            written,
        } = file;
        self.old_file = Some(Unnamed {
            synced: mem::replace(&mut self.synced, synced),
            latest: mem::replace(&mut self.latest, latest),
            written: mem::replace(&mut self.written, written),
        });
        self.is_forgetful = false;
    }

    fn fails(&mut self) -> bool {
        let call = self.calls;
        self.calls = call.saturating_add(1);
        match self.failing {
            Failing::Never => false,
            Failing::Once(at) => call == at,
            Failing::From(at) => call >= at,
        }
    }
}

/// What a crash leaves of synced and latest bytes that were written up to a place.
fn torn(
    rt: &impl Abort,
    alloc: Global,
    [synced, latest]: [&[u8]; 2],
    written: usize,
    choices: &[bool],
    len: usize,
) -> Vec<u8> {
    let longer = if synced.len() < latest.len() {
        latest
    } else {
        synced
    };
    let mut file = longer.to_vec(alloc).expect(rt, "memory");
    file.truncate(len.max(synced.len().min(latest.len())));
    let kept = file.len().min(latest.len());
    file[..kept].copy_from_slice(&latest[..kept]);
    let mut choices = choices.iter();
    for (i, byte) in file.iter_mut().enumerate().take(written) {
        let old = synced.get(i).copied().unwrap_or(0);
        if *byte != old && !choices.next().copied().unwrap_or(false) {
            *byte = old;
        }
    }
    file
}

impl Device for Disk {
    ghost tells = { λ d. ⊥ };

    ghost seen = { λ d. [] };

    ghost shown = { λ d. [] };

    ghost may_leave = { λ d c. ⊥ };

    ghost once_synced = { λ d c. ⊥ };

    ghost new_file = { λ d. [] };

    ghost may_leave_new = { λ d c. ⊥ };

    ghost may_leave_named = { λ d c. ⊥ };

    ghost has_new_file = { λ d. ⊥ };

    ghost rename_count = { λ d. 0 };

    ghost cannot_read = { λ d. ⊥ };

    ghost moment = { λ d. 0 };

    ghost left_since = { λ d t left. ⊥ };

    ghost failures = { λ d. 0 };

    ghost counts_now = { λ d t left le now. absurd now.0 };

    ghost synced_is_left = { λ d told. absurd told };

    ghost seen_is_left = { λ d told. absurd told };

    ghost only_now = { λ d left was. absurd was };

    fn length(&self) -> Result<u64, DeviceError> {
        if self.readable == 0 {
            return Err(DeviceError);
        }
        Ok(self.latest.len() as u64)
    }

    fn read_at(&self, at: u64, buffer: &mut [u8]) -> Result<(), DeviceError> {
        let from = at as usize;
        let to = from.saturating_add(buffer.len());
        if to > self.readable {
            return Err(DeviceError);
        }
        let Some(bytes) = self.latest.get(from..to) else {
            return Err(DeviceError);
        };
        buffer.copy_from_slice(bytes);
        Ok(())
    }

    fn write_at(&mut self, at: u64, bytes: &[u8]) -> Result<(), DeviceError> {
        self.writes = self.writes.saturating_add(1);
        let fails = self.fails();
        let done = if fails { bytes.len() / 2 } else { bytes.len() };
        let from = at as usize;
        let Some(to) = from.checked_add(done) else {
            return Err(DeviceError);
        };
        if to > self.latest.len() {
            return Err(DeviceError);
        }
        self.latest[from..to].copy_from_slice(&bytes[..done]);
        self.written = self.written.max(to);
        if fails { Err(DeviceError) } else { Ok(()) }
    }

    fn grow(&mut self, len: u64) -> Result<(), DeviceError> {
        self.grows = self.grows.saturating_add(1);
        let fails = self.fails();
        let more = (len as usize).saturating_sub(self.latest.len());
        let done = if fails { more / 2 } else { more };
        let new_len = self.latest.len().saturating_add(done);
        let Ok(()) = self.latest.resize(new_len, 0) else {
            return Err(DeviceError);
        };
        if fails { Err(DeviceError) } else { Ok(()) }
    }

    fn cut(&mut self, len: u64) -> Result<(), DeviceError> {
        self.cuts = self.cuts.saturating_add(1);
        let fails = self.fails();
        let less = self.latest.len().saturating_sub(len as usize);
        let done = if fails { less / 2 } else { less };
        let len = self.latest.len().saturating_sub(done);
        self.latest.truncate(len);
        if fails { Err(DeviceError) } else { Ok(()) }
    }

    fn sync(&mut self) -> Result<(), DeviceError> {
        self.syncs = self.syncs.saturating_add(1);
        if self.fails() {
            self.is_forgetful = true;
            return Err(DeviceError);
        }
        if self.old_file.is_some() {
            return Err(DeviceError);
        }
        if self.is_forgetful {
            return Ok(());
        }
        self.synced.clear();
        match self.synced.extend_from_slice(&self.latest) {
            Ok(()) => Ok(()),
            Err(_) => Err(DeviceError),
        }
    }

    fn hand_over(&mut self, bytes: &[u8]) -> Result<(), DeviceError> {
        let fails = self.fails();
        let done = if fails { bytes.len() / 2 } else { bytes.len() };
        let Ok(()) = self.shown.extend_from_slice(&bytes[..done]) else {
            return Err(DeviceError);
        };
        if fails { Err(DeviceError) } else { Ok(()) }
    }

    fn create_new(&mut self) -> Result<(), DeviceError> {
        if self.fails() || self.new_file.is_some() {
            return Err(DeviceError);
        }
        self.new_file = Some(Unnamed {
            synced: Vec::new(self.alloc),
            latest: Vec::new(self.alloc),
            written: 0,
        });
        Ok(())
    }

    fn append_new(&mut self, bytes: &[u8]) -> Result<(), DeviceError> {
        let fails = self.fails();
        let done = if fails { bytes.len() / 2 } else { bytes.len() };
        let Some(file) = &mut self.new_file else {
            return Err(DeviceError);
        };
        let Ok(()) = file.latest.extend_from_slice(&bytes[..done]) else {
            return Err(DeviceError);
        };
        file.written = file.latest.len();
        if fails { Err(DeviceError) } else { Ok(()) }
    }

    fn grow_new(&mut self, len: u64) -> Result<(), DeviceError> {
        let fails = self.fails();
        let Some(file) = &mut self.new_file else {
            return Err(DeviceError);
        };
        let Ok(()) = file.latest.resize(len as usize, 0) else {
            return Err(DeviceError);
        };
        if fails { Err(DeviceError) } else { Ok(()) }
    }

    fn sync_new(&mut self) -> Result<(), DeviceError> {
        let fails = self.fails();
        let Some(file) = &mut self.new_file else {
            return Err(DeviceError);
        };
        file.synced.clear();
        let half = file.latest.len() / 2;
        let done = if fails {
            &file.latest[..half]
        } else {
            &file.latest
        };
        let Ok(()) = file.synced.extend_from_slice(done) else {
            return Err(DeviceError);
        };
        if fails { Err(DeviceError) } else { Ok(()) }
    }

    fn rename_new(&mut self) -> Result<(), RenewError> {
        let fails = self.fails();
        if self.old_file.is_some() || fails && !self.is_unsure {
            return Err(RenewError::Kept);
        }
        let Some(file) = self.new_file.take() else {
            return Err(RenewError::Kept);
        };
        self.renames = self.renames.saturating_add(1);
        self.place(file);
        if fails { Err(RenewError::Lost) } else { Ok(()) }
    }

    fn sync_folder(&mut self) -> Result<(), DeviceError> {
        if self.fails() {
            return Err(DeviceError);
        }
        self.old_file = None;
        Ok(())
    }

    fn remove_new(&mut self) {
        self.new_file = None;
    }
}
