//! Laws of the definitions that the contracts of this crate speak by. Each is the contract of a
//! function with an empty body.
ghost use Rattle.std.specs.Prelude.{◌≡◌};
ghost use Rattle.tt_store.specs.Opening.{max_workers};

use crate::opening::MAX_WORKERS;

/// A store is opened with `MAX_WORKERS` workers at most, and with as many as that.
pub fn opening_allows_max_workers()
    ensures { MAX_WORKERS ≡ max_workers }
{}
