//! The file of a log: opened, or made, and locked against a second session.
ghost use Rattle.std.specs.Prelude.{◌≡◌, IfErr};

use crate::log_fault::{LogFailure, LogFault};
use std::fs::{File, Files, OpenOptions, TryLockError};
use std::io;
use std::io::ErrorKind;
use tt_log::FilePlace;

/// A file is opened at most this often, where other sessions keep putting a new one in its place.
const MOST_TRIES: usize = 100;

/// Opens a file to read it. It is `Unreadable` if it can't be.
pub fn open_to_read(rt: &impl Files<File = File>, path: &str) -> Result<File, LogFailure>
    ensures { IfErr result (λ failure. failure.fault ≡ LogFault.Unreadable) }
{
    let file = OpenOptions::new().read(true).open(rt, path)?;
    Ok(file)
}

/// Opens a file for reading and writing, locks it until it is closed, and puts its name on the
/// disk. Where there is none, it is made, unless it must exist; then it is `Missing`. What an
/// earlier session has left of a new file beside it is removed. It is `InUse` if another process
/// has its lock, and `Unreadable` if any of this fails; what it has stays as it is.
pub fn open_to_go_on(
    rt: &(impl Files<File = File> + AllocGlobal),
    path: &str,
    must_exist: bool,
) -> Result<(File, FilePlace), LogFailure> {
    for _ in 0..MOST_TRIES {
        let file = open_locked(rt, path, must_exist)?;
        if let Some(place) = place_of(rt, path, &file)? {
            place.sync_folder(rt)?;
            let _ = place.remove_left(rt);
            return Ok((file, place));
        }
    }
    Err(LogFailure::from(LogFault::Unreadable))
}

/// Opens a file for reading and writing, or makes it, unless it must exist, and locks it.
fn open_locked(
    rt: &impl Files<File = File>,
    path: &str,
    must_exist: bool,
) -> Result<File, LogFailure> {
    let opened = OpenOptions::new()
        .read(true)
        .write(true)
        .create(!must_exist)
        .open(rt, path);
    let file = match opened {
        Err(error) if must_exist && error.kind() == ErrorKind::NotFound => {
            return Err(LogFailure::from(LogFault::Missing));
        }
        opened => opened?,
    };
    match file.try_lock() {
        Ok(()) => Ok(file),
        Err(TryLockError::WouldBlock) => Err(LogFailure::from(LogFault::InUse)),
        Err(TryLockError::Error(error)) => Err(LogFailure::from(error)),
    }
}

/// The place of a file that was opened and locked, unless another one is there by now, or none.
fn place_of(
    rt: &(impl Files<File = File> + AllocGlobal),
    path: &str,
    file: &File,
) -> io::Result<Option<FilePlace>> {
    match find_place(rt, path, file) {
        Err(error) if error.kind() == ErrorKind::NotFound => Ok(None),
        found => found,
    }
}

/// The same, where there is a file.
fn find_place(
    rt: &(impl Files<File = File> + AllocGlobal),
    path: &str,
    file: &File,
) -> io::Result<Option<FilePlace>> {
    let place = FilePlace::of(rt, rt.alloc(), path)?;
    let is_there = place.is_of(rt, file)?;
    Ok(is_there.then_some(place))
}
