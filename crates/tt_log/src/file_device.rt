//! A real file.
ghost use Rattle.std.specs.Prelude.{◌≡◌, []};

use crate::{Device, DeviceError, FilePlace, RenewError};
use std::cell::Cell;
use std::fs::{File, Files};
use std::io::Write;
use std::os::unix::fs::FileExt;
use std::{io, mem};
use tt_streams::{MAX_RETRIES, write_text};

/// The new file that is made beside the file.
#[derive(Drop)]
enum NewFile {
    /// There is none.
    None,
    /// No call on it has failed.
    Usable(File),
    /// A call on it has failed: what it has on the disk is unknown, also after a sync.
    Failed,
}

/// Why the last call on a file has failed, if it has.
#[derive(Drop)]
struct Reason {
    error: Cell<Option<io::Error>>,
}

impl Reason {
    /// Keeps why a call has failed, or that it hasn't.
    fn keep<T>(&self, outcome: io::Result<T>) -> Result<T, DeviceError> {
        match outcome {
            Ok(value) => {
                self.error.set(None);
                Ok(value)
            }
            Err(error) => {
                self.error.set(Some(error));
                Err(DeviceError)
            }
        }
    }
}

/// A file of the operating system, and a writer that answers are handed over to.
///
/// It tells nothing: that a file, its kernel and its disk keep what the clauses of [`Device`] say
/// is trusted, and no proof shows it.
#[derive(Drop)]
pub struct FileDevice<'a, F: Files<File = File> + Eprint, W: Write> {
    files: &'a F,
    /// Where the file is, if a new one may be made beside it.
    place: Option<FilePlace>,
    file: File,
    /// Whether the length may not be on the disk yet.
    has_new_length: bool,
    /// Whether the name may not be on the disk yet, so that no sync of the file tells what a crash
    /// leaves.
    has_new_name: bool,
    new_file: NewFile,
    reason: Reason,
    /// Whether a log has begun on the file: a sync has succeeded.
    is_begun: bool,
    /// What names the file on standard error, if anything is told there.
    told_path: Option<&'a str>,
    output: W,
}

impl<'a, F: Files<File = File> + Eprint, W: Write> FileDevice<'a, F, W> {
    /// A file that is open for reading and, unless it is only looked at, for writing; then no other
    /// process may write it. A new file is made beside it only where its place is told.
    pub fn new(
        files: &'a F,
        place: Option<FilePlace>,
        file: File,
        output: W,
    ) -> FileDevice<'a, F, W> {
        FileDevice {
            files,
            place,
            file,
            has_new_length: true,
            has_new_name: false,
            new_file: NewFile::None,
            reason: Reason {
                error: Cell::new(None),
            },
            is_begun: false,
            told_path: None,
            output,
        }
    }

    /// Tells on standard error, from the beginning of the log on, where a new file can't be made:
    /// by a line with this path, if one is given, and the system's reason.
    pub fn telling(self, path: Option<&'a str>) -> FileDevice<'a, F, W> {
        let mut device = self;
        device.told_path = path;
        device
    }

    /// Why the last call on a file has failed, if it has, and if the system has told it.
    pub fn error(&self) -> Option<io::Error> {
        self.reason.error.get()
    }
}

impl<'a, F: Files<File = File> + Eprint, W: Write> FileDevice<'a, F, W> {
    /// The new file, unless there is none or a call on it has failed.
    fn usable_new_file(&mut self) -> Result<&mut File, DeviceError> {
        match &mut self.new_file {
            NewFile::Usable(new_file) => Ok(new_file),
            NewFile::None | NewFile::Failed => Err(DeviceError),
        }
    }

    /// Keeps the new file after a call on it, which was carried out or has failed.
    fn keep_new_file(&mut self, outcome: io::Result<()>) -> Result<(), DeviceError> {
        if self.reason.keep(outcome).is_ok() {
            return Ok(());
        }
        self.new_file = NewFile::Failed;
        self.tell_refusal();
        Err(DeviceError)
    }

    /// Tells that a new file can't be made, with the system's reason, if there is one.
    fn tell_refusal(&self) {
        let (true, Some(path)) = (self.is_begun, self.told_path) else {
            return;
        };
        let _ = match self.error() {
            Some(error) => eprintln!(self.files;
                "timetravel: cannot make the log anew: {path}: {error}"
            ),
            None => eprintln!(self.files; "timetravel: cannot make the log anew: {path}"),
        };
    }
}

impl<'a, F: Files<File = File> + Eprint, W: Write> Device for FileDevice<'a, F, W> {
    ghost tells = { λ d. ⊥ };

    ghost seen = { λ d. [] };

    ghost shown = { λ d. [] };

    ghost may_leave = { λ d c. ⊥ };

    ghost once_synced = { λ d c. ⊥ };

    ghost new_file = { λ d. [] };

    ghost may_leave_new = { λ d c. ⊥ };

    ghost may_leave_named = { λ d c. ⊥ };

    ghost has_new_file = { λ d. ⊥ };

    ghost rename_count = { λ d. 0 };

    ghost cannot_read = { λ d. ⊥ };

    ghost moment = { λ d. 0 };

    ghost left_since = { λ d t left. ⊥ };

    ghost failures = { λ d. 0 };

    ghost counts_now = { λ d t left le now. absurd now.0 };

    ghost synced_is_left = { λ d told. absurd told };

    ghost seen_is_left = { λ d told. absurd told };

    ghost only_now = { λ d left was. absurd was };

    fn length(&self) -> Result<u64, DeviceError> {
        let metadata = self.reason.keep(self.file.metadata())?;
        Ok(metadata.len())
    }

    fn read_at(&self, at: u64, buffer: &mut [u8]) -> Result<(), DeviceError> {
        self.reason.keep(self.file.read_exact_at(buffer, at))
    }

    fn write_at(&mut self, at: u64, bytes: &[u8]) -> Result<(), DeviceError> {
        self.reason.keep(self.file.write_all_at(bytes, at))
    }

    fn grow(&mut self, len: u64) -> Result<(), DeviceError> {
        self.has_new_length = true;
        self.reason.keep(self.file.set_len(len))
    }

    fn cut(&mut self, len: u64) -> Result<(), DeviceError> {
        self.has_new_length = true;
        self.reason.keep(self.file.set_len(len))
    }

    fn sync(&mut self) -> Result<(), DeviceError> {
        if self.has_new_name {
            return Err(DeviceError);
        }
        let result = if self.has_new_length {
            self.file.sync_all()
        } else {
            self.file.sync_data()
        };
        self.reason.keep(result)?;
        self.has_new_length = false;
        self.is_begun = true;
        Ok(())
    }

    fn hand_over(&mut self, bytes: &[u8]) -> Result<(), DeviceError> {
        let mut retries = MAX_RETRIES;
        match write_text(&mut self.output, bytes, &mut retries) {
            Ok(()) => Ok(()),
            Err(_) => Err(DeviceError),
        }
    }

    fn create_new(&mut self) -> Result<(), DeviceError> {
        let Some(place) = &self.place else {
            return Err(DeviceError);
        };
        match self.reason.keep(place.create_new(self.files, &self.file)) {
            Ok(new_file) => {
                self.new_file = NewFile::Usable(new_file);
                Ok(())
            }
            Err(error) => {
                self.tell_refusal();
                Err(error)
            }
        }
    }

    fn append_new(&mut self, bytes: &[u8]) -> Result<(), DeviceError> {
        let new_file = self.usable_new_file()?;
        let result = new_file.write_all(bytes);
        self.keep_new_file(result)
    }

    fn grow_new(&mut self, len: u64) -> Result<(), DeviceError> {
        let result = self.usable_new_file()?.set_len(len);
        self.keep_new_file(result)
    }

    fn sync_new(&mut self) -> Result<(), DeviceError> {
        let result = self.usable_new_file()?.sync_all();
        self.keep_new_file(result)
    }

    fn rename_new(&mut self) -> Result<(), RenewError> {
        let Some(place) = &self.place else {
            return Err(RenewError::Kept);
        };
        let Ok(true) = self.reason.keep(place.is_of(self.files, &self.file)) else {
            self.tell_refusal();
            return Err(RenewError::Kept);
        };
        let NewFile::Usable(new_file) = mem::replace(&mut self.new_file, NewFile::Failed) else {
            return Err(RenewError::Kept);
        };
        if self.reason.keep(place.rename_new(self.files)).is_err() {
            return match place.is_surely_of(self.files, &self.file) {
                true => {
                    self.tell_refusal();
                    Err(RenewError::Kept)
                }
                false => Err(RenewError::Lost),
            };
        }
        self.file = new_file;
        self.new_file = NewFile::None;
        self.has_new_length = false;
        self.has_new_name = true;
        Ok(())
    }

    fn sync_folder(&mut self) -> Result<(), DeviceError> {
        let Some(place) = &self.place else {
            return Err(DeviceError);
        };
        self.reason.keep(place.sync_folder(self.files))?;
        self.has_new_name = false;
        self.is_begun = true;
        Ok(())
    }

    fn remove_new(&mut self) {
        let is_none = matches!(&self.new_file, NewFile::None);
        self.new_file = NewFile::None;
        if is_none {
            return;
        }
        if let Some(place) = &self.place {
            let _ = place.remove_new(self.files);
        }
    }
}
