ghost use Rattle.std.specs.Prelude.{◌≡◌};

use tt_values::Action;

/// An edit of a slot. Slots go by number, from 1.
#[derive(Clone, Debug, PartialEq, Drop)]
pub enum Edit {
    /// The slot writes nothing.
    Cancel(u64),
    /// The slot has this action in place of its own.
    Replace(u64, Action),
}

impl Edit {
    ghost use Rattle.tt_repair_laws.specs.Edits.{slot_number};

    /// The number of the slot that the edit is for.
    pub fn number(&self) -> u64
        ensures { result ≡ slot_number self.now }
    {
        match self {
            Edit::Cancel(number) => *number,
            Edit::Replace(number, _) => *number,
        }
    }
}
