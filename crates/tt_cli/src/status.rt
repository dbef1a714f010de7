//! The status and the line of a fault.
ghost use Rattle.std.specs.Prelude.{◌≡◌, IfOk, IsOk, false};
ghost use Rattle.std.specs.Cow.{cow_str_bytes};
ghost use Rattle.tt_cli.specs.Status.{status_of, fault_line, has_text};

use std::alloc::{AllocError, Global};
use std::borrow::CowStr;
use tt_workload::{DocFault, RunFault};

/// The status that the program ends with after a fault.
pub fn status_of(fault: &RunFault) -> u8
    ensures { result ≡ status_of fault.now }
{
    match fault {
        RunFault::Read => 1,
        RunFault::Document(DocFault::At { .. }) => 1,
        RunFault::Document(DocFault::Memory) | RunFault::Memory => 3,
        RunFault::Store(_) | RunFault::Write => 4,
    }
}

/// The line that a fault leaves on standard error, with its line feed. It takes memory only for a
/// fault with a text of its own.
pub fn fault_line(alloc: Global, fault: &RunFault) -> Result<CowStr<'static>, AllocError>
    ensures line { IfOk result (λ line. cow_str_bytes line ≡ fault_line fault.now) }
    ensures constant { has_text fault.now ≡ false → IsOk result }
{
    match fault {
        RunFault::Read => Ok(CowStr::Borrowed("timetravel: cannot read standard input\n")),
        RunFault::Document(DocFault::At { path, cause }) => {
            let path = path.as_str();
            let cause = cause.as_str();
            let line = format!(in alloc; "timetravel: {path}: {cause}\n")?;
            Ok(CowStr::Owned(line))
        }
        RunFault::Document(DocFault::Memory) | RunFault::Memory => {
            Ok(CowStr::Borrowed("timetravel: want of memory\n"))
        }
        RunFault::Store(text) => {
            let text = text.as_str();
            let line = format!(in alloc; "timetravel: store: {text}\n")?;
            Ok(CowStr::Owned(line))
        }
        RunFault::Write => Ok(CowStr::Borrowed("timetravel: cannot write standard output\n")),
    }
}
