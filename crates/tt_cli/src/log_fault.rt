//! Why the log of a session can't be used.
ghost use Rattle.std.specs.Prelude.{◌≡◌, ◌++◌, ◌<◌, IfOk, IsOk, OnOk, false, option_map, string_bytes};
ghost use Rattle.std.specs.Cow.{cow_str_bytes};
ghost use Rattle.tt_grammar.specs.Quoting.{escape, hex_digit};
ghost use Rattle.tt_cli.specs.Status.{printed_path};

use std::alloc::{AllocError, Global};
use std::borrow::CowStr;
use std::io;

/// Why the log of a session can't be used.
#[derive(Clone, Copy, Debug, PartialEq, Eq)]
pub enum LogFault {
    /// The file can't be opened, made or read.
    Unreadable,
    /// Another process has its lock.
    InUse,
    /// There must be a log, but there is no file, or no line in it.
    Missing,
    /// This line of it, counted from 1, is none that a session logs.
    Line(u64),
    /// The file can't be written.
    Unwritable,
}

impl LogFault {
    ghost use Rattle.tt_cli.specs.Status.{status_of_log, log_fault_text, log_fault_line};
    ghost use Rattle.tt_cli.specs.Status.{log_path_line, has_number};

    /// The status that the program ends with after this fault.
    pub fn status(&self) -> u8
        ensures { result ≡ status_of_log self.now }
    {
        match self {
            LogFault::Unreadable | LogFault::InUse | LogFault::Missing | LogFault::Line(_) => 1,
            LogFault::Unwritable => 4,
        }
    }

    /// The line that tells this fault alone, with its line feed. It takes memory only for a fault
    /// with a number.
    pub fn line(&self, alloc: Global) -> Result<CowStr<'static>, AllocError>
        ensures line { IfOk result (λ line. cow_str_bytes line ≡ log_fault_line self.now) }
        ensures constant { has_number self.now ≡ false → IsOk result }
    {
        match self {
            LogFault::Unreadable => Ok(CowStr::Borrowed("timetravel: cannot read the log\n")),
            LogFault::InUse => Ok(CowStr::Borrowed("timetravel: the log is in use\n")),
            LogFault::Missing => Ok(CowStr::Borrowed("timetravel: there is no log\n")),
            LogFault::Line(number) => {
                let line = format!(in alloc; "timetravel: log: line {number}\n")?;
                Ok(CowStr::Owned(line))
            }
            LogFault::Unwritable => Ok(CowStr::Borrowed("timetravel: cannot write the log\n")),
        }
    }

    /// The line that tells the path of the log, too, and the system's reason, where there is one.
    pub fn line_with_path(
        &self,
        alloc: Global,
        path: &str,
        reason: Option<&str>,
    ) -> Result<String, AllocError>
        ensures { IfOk result (λ line. string_bytes line
            ≡ log_path_line self.now path.now (option_map (λ text. text.now) reason.entry)) }
    {
        let text = self.text(alloc)?;
        let text = text.as_str();
        let path = printed_path(alloc, path)?;
        let path = path.as_str();
        match reason {
            Some(reason) => format!(in alloc; "timetravel: {text}: {path}: {reason}\n"),
            None => format!(in alloc; "timetravel: {text}: {path}\n"),
        }
    }

    /// What is wrong, in words.
    fn text(&self, alloc: Global) -> Result<CowStr<'static>, AllocError>
        ensures { IfOk result (λ text. cow_str_bytes text ≡ log_fault_text self.now) }
    {
        match self {
            LogFault::Unreadable => Ok(CowStr::Borrowed("cannot read the log")),
            LogFault::InUse => Ok(CowStr::Borrowed("the log is in use")),
            LogFault::Missing => Ok(CowStr::Borrowed("there is no log")),
            LogFault::Line(number) => {
                let text = format!(in alloc; "log: line {number}")?;
                Ok(CowStr::Owned(text))
            }
            LogFault::Unwritable => Ok(CowStr::Borrowed("cannot write the log")),
        }
    }
}

/// Why a log can't be used, and the system's reason, where it has told one.
#[derive(Clone, Copy)]
pub struct LogFailure {
    pub fault: LogFault,
    pub reason: Option<io::Error>,
}

impl From<LogFault> for LogFailure {
    ghost from_gives = { λ fault failure. failure.fault ≡ fault };

    fn from(fault: LogFault) -> LogFailure {
        LogFailure {
            fault,
            reason: None,
        }
    }
}

// A file that the system refuses can't be read.
impl From<io::Error> for LogFailure {
    ghost use Rattle.tt_cli.specs.declared.log_fault.LogFault.TheVariants.{Unreadable};

    ghost from_gives = { λ _ failure. failure.fault ≡ Unreadable };

    fn from(error: io::Error) -> LogFailure {
        LogFailure {
            fault: LogFault::Unreadable,
            reason: Some(error),
        }
    }
}

/// A path as it is printed, in one line.
pub(crate) fn printed_path(alloc: Global, path: &str) -> Result<String, AllocError>
    ensures { IfOk result (λ text. string_bytes text ≡ printed_path path.now) }
{
    let mut text = String::new(alloc);
    for c in path.chars() {
        if c < ' ' {
            push_control(&mut text, c as u8)?;
        } else {
            text.push(c)?;
        }
    }
    Ok(text)
}

/// Adds a control character, by its letter, or by two hexadecimal digits.
fn push_control(text: &mut String, control: u8) -> Result<(), AllocError>
    requires { control < 32 }
    ensures { OnOk result (string_bytes text.new ≡ string_bytes text.old ++ escape control) }
{
    match control {
        8 => text.push_str("\\b"),
        9 => text.push_str("\\t"),
        10 => text.push_str("\\n"),
        12 => text.push_str("\\f"),
        13 => text.push_str("\\r"),
        _ => {
            text.push_str("\\u00")?;
            text.push(hex_digit(control / 16))?;
            text.push(hex_digit(control % 16))
        }
    }
}

/// A digit in hexadecimal.
fn hex_digit(digit: u8) -> char
    requires { digit < 16 }
    ensures { result ≡ hex_digit digit }
{
    if digit < 10 {
        (b'0' + digit) as char
    } else {
        (b'a' - 10 + digit) as char
    }
}
