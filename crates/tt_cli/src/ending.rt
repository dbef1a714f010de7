//! The ending of the program, and its status.

use crate::log_fault::LogFault;
use crate::status::status_of;
use clap::error::ErrorKind;
use std::io;
use std::process::{ExitCode, Termination};
use tt_workload::RunFault;

/// How the program ends.
#[derive(Drop)]
pub enum Ending {
    /// The report is printed, or all lines of the input are answered.
    Done,
    /// Help was asked for, and is printed.
    Help,
    /// The command line is faulty.
    Usage,
    /// A word of the command line isn't UTF-8.
    WordNotText,
    /// The run or the session failed.
    Fault(RunFault),
    /// The log of a session can't be used.
    LogFault(LogFault),
    /// No memory was left to read the command line or to build the line of a fault.
    OutOfMemory,
}

impl Ending {
    ghost use Rattle.std.specs.Prelude.{◌≡◌};
    ghost use Rattle.std.specs.IoError.{error_kind};
    ghost use Rattle.clap.specs.Values.{kind_of};
    ghost use Rattle.tt_cli.specs.Ending.{exit_status, ending_of_words, ending_of_usage};

    /// The status that the program ends with.
    pub fn exit_status(&self) -> u8
        ensures { result ≡ exit_status self.now }
    {
        match self {
            Ending::Done | Ending::Help => 0,
            Ending::Usage | Ending::WordNotText => 2,
            Ending::Fault(fault) => status_of(fault),
            Ending::LogFault(fault) => fault.status(),
            Ending::OutOfMemory => 3,
        }
    }

    /// The ending where the words of the command line can't be read.
    pub fn of_words(error: &io::Error) -> Ending
        ensures { result ≡ ending_of_words (error_kind error.now) }
    {
        match error.kind() {
            io::ErrorKind::OutOfMemory => Ending::OutOfMemory,
            _ => Ending::WordNotText,
        }
    }

    /// The ending where the command line gives no command.
    pub fn of_usage(error: &clap::Error) -> Ending
        ensures { result ≡ ending_of_usage (kind_of error.now) }
    {
        match error.kind() {
            ErrorKind::OutOfMemory => Ending::OutOfMemory,
            ErrorKind::DisplayHelp | ErrorKind::DisplayVersion => Ending::Help,
            _ => Ending::Usage,
        }
    }
}

/// An ending is what `main` returns: its status is the program's.
impl Termination for Ending {
    ghost use Rattle.std.specs.Prelude.{◌≡◌};
    ghost use Rattle.std.specs.Process.{exit_status as status_of_code};
    ghost use Rattle.tt_cli.specs.Ending.{exit_status};

    fn report<R: Eprint>(self, _rt: &R) -> ExitCode
        ensures { status_of_code result ≡ exit_status self }
    {
        ExitCode::from(self.exit_status())
    }
}
