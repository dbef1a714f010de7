//! A session whose lines are logged.
ghost use Rattle.std.specs.Prelude.{◌≡◌, ◌⊎◌, ◌+◌, ◌-◌, ◌^◌, ◌<◌, ◌≤◌, length, IfOk, IfErr};
ghost use Rattle.tt_log.specs.Log.{IsAsLeft, IsSettled};
ghost use Rattle.tt_session.specs.Run.{calls_of};
ghost use Rattle.tt_lines.specs.Ends.{HandsOverAll, Fails};
ghost use Rattle.tt_durable.specs.OnLog.{HandedOnLog, StoppedOnLog};
ghost use Rattle.tt_durable.specs.LoggedSession.{GoesOnLog, BeginsOnLog, FailsAtStart, FailsOnLog};
ghost use Rattle.tt_durable.specs.LoggedSession.{IsEnded};
ghost use Rattle.tt_durable.specs.LoggedFaults.{fault_at_start, fault_of};

use crate::log_outlet::LogOutlet;
use crate::restoring::{RestoreFault, restore};
use std::alloc::Global;
use std::io::Read;
use tt_lines::{BUFFER_BYTES, SessionEnd, SessionFault, serve_session};
use tt_log::{Device, Log, LogError, UnreadLog};
use tt_session::Session;

/// Why a session with a log has ended before its input.
#[derive(Clone, Copy, Debug, PartialEq, Eq)]
pub enum LoggedFault {
    /// The reader failed, or was interrupted too often. The lines that were read to their ends are
    /// answered.
    Read,
    /// Not all answers could be handed over. The log is the one after the lines that they answer.
    Write,
    /// There was no memory to begin with, or to read the log back. Nothing was read but the log,
    /// and the file is as it was.
    Memory,
    /// The log can't be read. Nothing else was read, and the file is as it was.
    LogRead,
    /// This line of the log, counted from 1, is none that a session logs, or isn't there while rows
    /// of the log's ground are still to come: the file is no log, or one of a session with other
    /// limits. The file is as it was.
    LogLine(u64),
    /// The log can't be written, or would be longer than 2^60 bytes; or it was made anew, and
    /// nobody knows whether the new file has its name on the disk. The lines that weren't answered
    /// may be logged or not; the next session on the log tells.
    LogWrite,
}

/// A session on a log: reads back what the log has, and then answers the lines of a reader, one
/// after another, until its end. Before an answer is handed over, what the line changes is on the
/// disk; so after a crash at any moment the next session on the log has all that was answered.
/// Where the log has lines, the session is open from the start.
///
/// A line that opens the session or changes its database is written behind those that the log has.
/// One that forgets makes the log anew: the lines of what the database then has take the place of
/// those before, and a crash on the way leaves the one log or the other, whole. Where the new one
/// can't be made, the request is refused, and the log goes on as it was.
///
/// A file that is its lines and nothing else was ended well, and is gone on with. Any other file is
/// as a process has left it that was killed, or whose disk failed: nobody knows how much of it is
/// on the disk, so the same lines are written to a new file, which takes its place before anything
/// is answered. At the end of the reader the file is cut to its lines.
///
/// Returns the device, which isn't to be used again after a fault of the log.
pub fn run_logged_session<R: Read, D: Device>(
    alloc: Global,
    reader: &mut R,
    device: D,
) -> Result<(SessionEnd, D), (LoggedFault, D)>
    requires left { D.tells device → IsAsLeft (D.seen device) (D.once_synced device) }
    ensures ok { IfOk result (λ end. D.tells device → HandsOverAll (R.remaining reader.old)
        (R.remaining reader.new) (GoesOnLog D.Device device end.1)) }
    ensures ended { IfOk result (λ end. D.tells device → IsEnded D.seen D.may_leave end.1) }
    ensures err { IfErr result (λ e. D.tells device → FailsOnLog e.0 (R.remaining reader.old)
        (R.remaining reader.new) D.Device device e.1) }
{
    let mut zeros = match vec![in alloc; 0; BUFFER_BYTES] {
        Ok(zeros) => zeros,
        Err(_) => return Err((LoggedFault::Memory, device)),
    };
    let (session, log) = match begin(alloc, device, zeros.as_mut_slice()) {
        Ok(begun) => begun,
        Err(fault) => return Err(fault),
    };
    let (end, log) = match serve_on_log(alloc, session, reader, log, zeros.as_mut_slice()) {
        Ok(served) => served,
        Err((fault, error, log)) => return Err((fault_of(fault, error), log.into_device())),
    };
    match log.close() {
        Ok(device) => Ok((end, device)),
        Err((_, device)) => Err((LoggedFault::LogWrite, device)),
    }
}

/// Opens a log, and reads the session back whose log this is.
fn begin<D: Device>(
    alloc: Global,
    device: D,
    buffer: &mut [u8],
) -> Result<(Session, Log<D>), (LoggedFault, D)>
    requires some { 0 < length buffer.old }
    requires few { length buffer.old ≤ 65536 }
    requires left { D.tells device → IsAsLeft (D.seen device) (D.once_synced device) }
    ensures ok { IfOk result (λ begun. D.tells device
        → BeginsOnLog D.Device device begun.0 begun.1) }
    ensures calls { IfOk result (λ begun. calls_of begun.0 < 2 ^ 64 - 65537) }
    ensures settled { IfOk result (λ begun. D.tells begun.1.device
        → IsSettled D.seen D.may_leave begun.1) }
    ensures err { IfErr result (λ e. D.tells device → FailsAtStart e.0 D.Device device e.1) }
{
    let mut log = match UnreadLog::open(device) {
        Ok(log) => log,
        Err((error, device)) => return Err((fault_at_start(error), device)),
    };
    let session = match restore(alloc, &mut log, buffer) {
        Ok(session) => session,
        Err(fault) => return Err((LoggedFault::from(fault), log.into_device())),
    };
    match log.settle(buffer) {
        Ok(log) => Ok((session, log)),
        Err((error, device)) => Err((fault_at_start(error), device)),
    }
}

impl From<RestoreFault> for LoggedFault {
    ghost use Rattle.tt_durable.specs.LoggedFaults.{fault_of_restore};

    ghost from_gives = { λ fault e. e ≡ fault_of_restore fault };

    fn from(fault: RestoreFault) -> LoggedFault {
        match fault {
            RestoreFault::Read => LoggedFault::LogRead,
            RestoreFault::Line(number) => LoggedFault::LogLine(number),
            RestoreFault::Memory => LoggedFault::Memory,
        }
    }
}

/// Why a session doesn't begin, where a log can't be opened or settled.
fn fault_at_start(error: LogError) -> LoggedFault
    ensures { result ≡ fault_at_start error }
{
    match error {
        LogError::Read => LoggedFault::LogRead,
        _ => LoggedFault::LogWrite,
    }
}

/// Why a session has ended on a log that has failed in this way, if it has.
fn fault_of(fault: SessionFault, error: Option<LogError>) -> LoggedFault
    ensures { result ≡ fault_of fault error }
{
    match fault {
        SessionFault::Read => LoggedFault::Read,
        SessionFault::Memory => LoggedFault::Memory,
        SessionFault::Write => match error {
            Some(LogError::HandOver) => LoggedFault::Write,
            _ => LoggedFault::LogWrite,
        },
    }
}

/// Goes on with a session whose log this is: answers the lines of a reader until its end.
fn serve_on_log<R: Read, D: Device>(
    alloc: Global,
    session: Session,
    reader: &mut R,
    log: Log<D>,
    buffer: &mut [u8],
) -> Result<(SessionEnd, Log<D>), (SessionFault, Option<LogError>, Log<D>)>
    requires some { 0 < length buffer.old }
    requires few { length buffer.old ≤ 65536 }
    requires calls { calls_of session < 2 ^ 64 - 65537 }
    requires settled { D.tells log.device → IsSettled D.seen D.may_leave log }
    ensures ok { IfOk result (λ end. D.tells log.device → HandsOverAll (R.remaining reader.old)
        (R.remaining reader.new) (HandedOnLog D.Device log.device end.1.device session)) }
    ensures settled { IfOk result (λ end. D.tells end.1.device
        → IsSettled D.seen D.may_leave end.1) }
    ensures err { IfErr result (λ e. D.tells log.device → Fails e.0 (R.remaining reader.old)
        (R.remaining reader.new) (HandedOnLog D.Device log.device e.2.device session) (StoppedOnLog
        e.1 D.Device log.device e.2.device session)) }
{
    let mut outlet = LogOutlet::new(log);
    match serve_session(alloc, session, true, reader, &mut outlet, buffer) {
        Ok(end) => {
            let (log, _) = outlet.into_parts();
            Ok((end, log))
        }
        Err(fault) => {
            let (log, error) = outlet.into_parts();
            Err((fault, error, log))
        }
    }
}
