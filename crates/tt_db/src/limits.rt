ghost use Rattle.std.specs.Prelude.{◌≡◌, ◌≤◌, ◌↔◌, IsTrue};

use crate::{MAX_EDITS, MAX_EVENTS, MAX_KEEP, MAX_SLOTS};

/// How many closed generations are usually kept.
const USUAL_KEEP: u32 = 4;

/// How large a history may become, and how many closed generations are kept. Fixed when the
/// database is created.
#[derive(Clone, Copy, Debug, PartialEq, Eq)]
pub struct Limits {
    /// How many slots there may be, so how many accepted actions.
    pub slots: u64,
    /// How many entries the history may have.
    pub events: u64,
    /// How many edits one repair may have.
    pub edits: u32,
    /// How many closed generations are kept, so that they stay readable.
    pub keep: u32,
}

impl Limits {
    ghost use Rattle.tt_db.specs.Limits.{usual_limits, Fits};

    /// The usual limits: 1,000,000 slots, 4,000,000 entries and 10,000 edits, which are also the
    /// largest, and 4 closed generations, of which there may be up to 16.
    pub const fn usual() -> Limits
        ensures { result ≡ usual_limits }
    {
        Limits {
            slots: MAX_SLOTS,
            events: MAX_EVENTS,
            edits: MAX_EDITS,
            keep: USUAL_KEEP,
        }
    }

    /// Whether each limit is at most the largest.
    pub fn fits(&self) -> bool
        ensures { IsTrue result ↔ Fits self.now }
    {
        self.slots <= MAX_SLOTS
            && self.events <= MAX_EVENTS
            && self.edits <= MAX_EDITS
            && self.keep <= MAX_KEEP
    }
}
