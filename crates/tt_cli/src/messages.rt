//! What the program prints when it ends otherwise than done.
ghost use Rattle.std.specs.Prelude.{◌≡◌, OnOk, OnErr, IfErr};
ghost use Rattle.std.specs.IoError.{error_kind};
ghost use Rattle.clap.specs.Values.{kind_of};
ghost use Rattle.tt_cli.specs.Ending.{IsEndingOfFault, IsEndingOfLog, IsEndingOfUsage, ending_of_words};

use crate::ending::Ending;
use crate::log_fault::{LogFailure, LogFault};
use crate::status::fault_line;
use std::alloc::{AllocError, Global};
use std::borrow::CowStr;
use std::io;
use tt_log::LogSummary;
use tt_workload::RunFault;

/// Prints the line of the fault of a run or a session, if it had one.
pub fn print_outcome(rt: &(impl Eprint + AllocGlobal), outcome: Result<(), RunFault>) -> Ending
    ensures done { OnOk outcome (result ≡ Ending.Done) }
    ensures fault { IfErr outcome (λ fault. IsEndingOfFault fault result) }
{
    match outcome {
        Ok(()) => Ending::Done,
        Err(fault) => print_fault(rt, fault),
    }
}

/// Prints the line of a fault.
pub fn print_fault(rt: &(impl Eprint + AllocGlobal), fault: RunFault) -> Ending
    ensures { IsEndingOfFault fault result }
{
    let line = fault_line(rt.alloc(), &fault);
    print_line(rt, Ending::Fault(fault), line)
}

/// Prints the line of the fault of the log with a path. It tells the path and the system's reason,
/// but where there is no log, or no memory for them.
pub fn print_log_failure(
    rt: &(impl Eprint + AllocGlobal),
    path: &str,
    failure: LogFailure,
) -> Ending
    ensures { IsEndingOfLog failure.fault result }
{
    let fault = failure.fault;
    if fault == LogFault::Missing {
        return print_log_fault(rt, fault);
    }
    match line_of_failure(rt.alloc(), path, failure) {
        Ok(line) => print_line(rt, Ending::LogFault(fault), Ok(CowStr::Owned(line))),
        Err(AllocError) => print_log_fault(rt, fault),
    }
}

/// The line of the fault of the log with a path, with the system's reason.
fn line_of_failure(alloc: Global, path: &str, failure: LogFailure) -> Result<String, AllocError> {
    let LogFailure { fault, reason } = failure;
    match reason {
        Some(error) => {
            let reason = format!(in alloc; "{error}")?;
            fault.line_with_path(alloc, path, Some(reason.as_str()))
        }
        None => fault.line_with_path(alloc, path, None),
    }
}

/// Prints the line that tells the fault of a log alone.
fn print_log_fault(rt: &(impl Eprint + AllocGlobal), fault: LogFault) -> Ending
    ensures { IsEndingOfLog fault result }
{
    print_line(rt, Ending::LogFault(fault), fault.line(rt.alloc()))
}

/// Prints the line of an ending where there was memory for it.
pub fn print_line(
    rt: &impl Eprint,
    ending: Ending,
    line: Result<CowStr<'static>, AllocError>,
) -> Ending
    ensures printed { OnOk line.entry (result ≡ ending) }
    ensures out_of_memory { OnErr line.entry (result ≡ Ending.OutOfMemory) }
{
    match line {
        Ok(line) => {
            let _ = eprint!(rt; "{line}");
            ending
        }
        Err(AllocError) => print_out_of_memory(rt),
    }
}

/// Prints what a log has.
pub fn print_summary(rt: &impl Eprint, summary: &LogSummary) {
    let LogSummary {
        lines,
        bytes,
        is_torn,
    } = summary;
    let rest = match is_torn {
        true => ", and a torn rest that counts for nothing",
        false => "",
    };
    let _ = eprintln!(rt; "timetravel: lines: {lines}, bytes: {bytes}{rest}");
}

fn print_out_of_memory(rt: &impl Eprint) -> Ending
    ensures { result ≡ Ending.OutOfMemory }
{
    let _ = eprintln!(rt; "timetravel: want of memory");
    Ending::OutOfMemory
}

/// Prints why the words of the command line can't be read.
pub fn print_words_fault(rt: &impl Eprint, error: &io::Error) -> Ending
    ensures { result ≡ ending_of_words (error_kind error.now) }
{
    match Ending::of_words(error) {
        Ending::OutOfMemory => print_out_of_memory(rt),
        ending => {
            let _ = eprintln!(rt; "error: an argument is not text in UTF-8");
            ending
        }
    }
}

/// Prints a fault of usage on standard error, or help on standard output.
pub fn print_usage(rt: &(impl Print + Eprint + AllocGlobal), error: &clap::Error) -> Ending
    ensures { IsEndingOfUsage (kind_of error.now) result }
{
    match Ending::of_usage(error) {
        Ending::OutOfMemory => print_out_of_memory(rt),
        Ending::Help => end_help(rt, error.print(rt)),
        ending => {
            let _ = error.print(rt);
            ending
        }
    }
}

/// The ending where help was asked for: it was printed, or it couldn't be, which is a fault of
/// writing.
pub fn end_help(rt: &(impl Eprint + AllocGlobal), printed: io::Result<()>) -> Ending
    ensures printed { OnOk printed (result ≡ Ending.Help) }
    ensures not_printed { OnErr printed (result ≡ Ending.Fault RunFault.Write) }
{
    match printed {
        Ok(()) => Ending::Help,
        Err(_) => print_fault(rt, RunFault::Write),
    }
}
