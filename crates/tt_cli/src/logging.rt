//! What the commands on a log do: a session, and a look at what is logged.
ghost use Rattle.std.specs.Prelude.{◌≡◌, ◌≢◌, ◌⊎◌, ◌<◌, ◌++◌, [], IfErr, IsErrOf, OnOk};
ghost use Rattle.tt_log.specs.Device.{ShowsFirst};
ghost use Rattle.tt_log.specs.Lines.{logged, joined};
ghost use Rattle.tt_log.specs.Log.{IsAsLeft};
ghost use Rattle.tt_cli.specs.Ending.{IsEndingOfLogged};
ghost use Rattle.tt_cli.specs.Logging.{IsEndingOfSession, IsEndingOfLook, EndsOnLog};

use crate::ending::Ending;
use crate::log_fault::{LogFailure, LogFault, printed_path};
use crate::log_file::{open_to_go_on, open_to_read};
use crate::messages::{print_fault, print_log_failure, print_summary};
use crate::running::leak;
use std::fs::{File, Files};
use std::io;
use std::io::{Read, Write};
use tt_durable::{LoggedFault, run_logged_session};
use tt_log::{Device, FileDevice, LogError, has_lines, show_log};
use tt_workload::RunFault;

/// As many bytes of a log are read at once to be printed.
const PIECE_BYTES: usize = 16_384;

/// What tells why its last call has failed, where it has, and where the system has told it.
pub trait TellsReason {
    /// The system's reason.
    fn reason(&self) -> Option<io::Error>;
}

impl<'a, F: Files<File = File> + Eprint, W: Write> TellsReason for FileDevice<'a, F, W> {
    fn reason(&self) -> Option<io::Error> {
        self.error()
    }
}

/// Goes on with the session whose log is in a file: answers the lines of a reader until its end.
/// Where the log must exist, and there is none, nothing is read, and no file is made. Nothing is
/// said here of what is read and written, since a real file tells nothing.
pub fn answer_on_file<R: Read, W: Write>(
    rt: &(impl Files<File = File> + Eprint + AllocGlobal),
    path: &str,
    must_exist: bool,
    reader: &mut R,
    writer: &mut W,
) -> Ending
    ensures { IsEndingOfSession result }
{
    let (file, place) = match open_to_go_on(rt, path, must_exist) {
        Ok(opened) => opened,
        Err(failure) => return print_log_failure(rt, path, failure),
    };
    let told = printed_path(rt.alloc(), path);
    let told_path = match &told {
        Ok(text) => Some(text.as_str()),
        Err(_) => None,
    };
    let device = FileDevice::new(rt, Some(place), file, writer).telling(told_path);
    if must_exist {
        if let Err(fault) = find_log(&device) {
            let reason = device.reason();
            return print_log_failure(rt, path, LogFailure { fault, reason });
        }
    }
    answer_on_log(rt, path, reader, device)
}

/// Looks whether a device has a log, with a line. It is `Missing` if it has none, and `Unreadable`
/// if its file can't be read.
pub fn find_log<D: Device>(device: &D) -> Result<(), LogFault>
    ensures found { D.tells device.now → OnOk result (logged (D.seen device.now) ≢ []) }
    ensures missing { D.tells device.now → IsErrOf result LogFault.Missing
        → logged (D.seen device.now) ≡ [] }
    ensures unreadable { D.tells device.now → IsErrOf result LogFault.Unreadable
        → D.cannot_read device.now }
    ensures err { IfErr result (λ e. (e ≡ LogFault.Missing) ⊎ (e ≡ LogFault.Unreadable)) }
{
    let mut buffer = [0; PIECE_BYTES];
    match has_lines(device, &mut buffer) {
        Ok(true) => Ok(()),
        Ok(false) => Err(LogFault::Missing),
        Err(_) => Err(LogFault::Unreadable),
    }
}

/// Goes on with the session whose log, with this path, a device has: answers the lines of a reader
/// until its end, and prints the line of its fault, if it has one.
pub fn answer_on_log<R: Read, D: Device + TellsReason + Drop>(
    rt: &(impl Eprint + AllocGlobal),
    path: &str,
    reader: &mut R,
    device: D,
) -> Ending
    requires left { D.tells device → IsAsLeft (D.seen device) (D.once_synced device) }
    ensures told { D.tells device → EndsOnLog (R.remaining reader.old) (R.remaining reader.new)
        D.Device device result }
    ensures kind { IsEndingOfSession result }
{
    match run_logged_session(rt.alloc(), reader, device) {
        Ok((end, _)) => {
            leak(rt.alloc(), end);
            Ending::Done
        }
        Err((fault, device)) => print_logged_fault(rt, path, fault, device.reason()),
    }
}

/// Prints the line of the fault of a session on the log with this path, with the system's reason.
pub fn print_logged_fault(
    rt: &(impl Eprint + AllocGlobal),
    path: &str,
    fault: LoggedFault,
    reason: Option<io::Error>,
) -> Ending
    ensures ending { IsEndingOfLogged fault result }
    ensures kind { IsEndingOfSession result }
{
    let fault = match fault {
        LoggedFault::Read => return print_fault(rt, RunFault::Read),
        LoggedFault::Write => return print_fault(rt, RunFault::Write),
        LoggedFault::Memory => return print_fault(rt, RunFault::Memory),
        LoggedFault::LogRead => LogFault::Unreadable,
        LoggedFault::LogLine(number) => LogFault::Line(number),
        LoggedFault::LogWrite => LogFault::Unwritable,
    };
    print_log_failure(rt, path, LogFailure { fault, reason })
}

/// Prints the lines of the log in a file, and what it has on standard error. The file stays as it
/// is.
pub fn print_log<W: Write>(
    rt: &(impl Files<File = File> + Eprint + AllocGlobal),
    path: &str,
    writer: &mut W,
) -> Ending
    ensures { IsEndingOfLook result }
{
    let file = match open_to_read(rt, path) {
        Ok(file) => file,
        Err(failure) => return print_log_failure(rt, path, failure),
    };
    let mut device = FileDevice::new(rt, None, file, writer);
    print_lines(rt, path, &mut device)
}

/// Hands over the lines of the log, with this path, that a device has to its output, and prints on
/// standard error what there is. The file stays as it is.
pub fn print_lines<D: Device + TellsReason>(
    rt: &(impl Eprint + AllocGlobal),
    path: &str,
    device: &mut D,
) -> Ending
    ensures seen { D.tells device.old → D.seen device.new ≡ D.seen device.old }
    ensures shown { D.tells device.old → result ≡ Ending.Done → D.shown device.new
        ≡ D.shown device.old ++ joined (logged (D.seen device.old)) }

    // At another ending the first bytes of the lines may be handed over, and nothing else.
    ensures first { D.tells device.old → ShowsFirst (D.shown device.old) (D.shown device.new)
        (joined (logged (D.seen device.old))) }

    // Another ending comes only where the device can't read, or its output has failed.
    ensures unreadable { D.tells device.old → result ≡ Ending.LogFault LogFault.Unreadable
        → D.cannot_read device.new }
    ensures undone { D.tells device.old → result ≢ Ending.Done
        → D.cannot_read device.new ⊎ (D.failures device.old < D.failures device.new) }

    ensures kind { IsEndingOfLook result }
{
    let mut buffer = [0; PIECE_BYTES];
    match show_log(device, &mut buffer) {
        Ok(summary) => {
            print_summary(rt, &summary);
            Ending::Done
        }
        Err(LogError::HandOver) => print_fault(rt, RunFault::Write),
        Err(_) => {
            let fault = LogFault::Unreadable;
            let reason = device.reason();
            print_log_failure(rt, path, LogFailure { fault, reason })
        }
    }
}
