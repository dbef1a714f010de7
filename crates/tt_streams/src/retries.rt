//! Calls that are made again where they were interrupted.
ghost use Rattle.std.specs.Prelude.{◌≡◌, ◌-◌, ◌<◌, ◌↔◌, IsTrue, if◌then◌else◌};
ghost use Rattle.std.specs.IoError.{error_kind};

use std::io::{Error, ErrorKind};

/// The largest number of interrupted reads, or writes, that are tried again with one count.
pub const MAX_RETRIES: u32 = 1_000;

/// Whether a failed call is made again: it was interrupted, and there are retries left, of which
/// this uses one.
pub(crate) fn use_retry(error: &Error, retries: &mut u32) -> bool
    ensures retried { IsTrue result
        ↔ (error_kind error.now ≡ ErrorKind.Interrupted) × (0 < retries.old) }
    ensures counted { retries.new ≡ (if result then retries.old - 1 else retries.old) }
{
    if error.kind() != ErrorKind::Interrupted || *retries == 0 {
        return false;
    }
    *retries -= 1;
    true
}
