use thiserror::Error;
use tt_store::StoreError;

/// A phase of a repair.
#[derive(Clone, Copy, Debug, PartialEq, Eq)]
pub enum Phase {
    /// Begins the repair.
    Begin,
    /// Makes steps for the slots that were there at the beginning.
    Steps,
    /// Makes steps for the slots that were written meanwhile.
    CatchUp,
    /// Makes the last steps, and switches.
    Finish,
}

/// Why a repair isn't made: a call of the store was refused.
#[derive(Clone, Copy, Debug, PartialEq, Eq, Error)]
#[error("the repair failed: {cause}")]
pub struct RepairFault {
    /// The phase of the call that was refused.
    pub phase: Phase,
    /// Whether the repair may still be open: it was begun, and the cause isn't that none is under
    /// way. Another worker may have ended it unseen.
    pub still_open: bool,
    /// Why the call was refused.
    pub cause: StoreError,
}
