use thiserror::Error;
use tt_values::CheckError;

/// Why an event isn't accepted. The first that applies, in this order, is returned; the database
/// stays as it was.
#[derive(Clone, Copy, Debug, PartialEq, Eq, Error)]
pub enum DbError {
    /// The action, or that of an edit, has a fault.
    #[error("{0}")]
    Statement(CheckError),
    /// A repair is under way already.
    #[error("a repair is under way")]
    Repairing,
    /// No repair is under way.
    #[error("no repair is under way")]
    NotRepairing,
    /// The repair has this many slots left to do.
    #[error("{left} slots are left to do")]
    NotCaughtUp { left: u64 },
    /// The repair has done all slots.
    #[error("no slot is left to do")]
    NothingLeft,
    /// An edit is for slot t, which isn't there.
    #[error("no slot {t}")]
    NoSlot { t: u64 },
    /// Two edits are for slot t.
    #[error("slot {t} is edited twice")]
    EditTwice { t: u64 },
    /// The repair has more edits than the limit allows.
    #[error("too many edits")]
    TooManyEdits,
    /// The history has as many slots as the limit allows, or as many entries.
    #[error("full at {limit}")]
    Full { limit: u64 },
    /// Out of memory.
    #[error("out of memory")]
    Memory,
}

/// Why a read isn't answered.
#[derive(Clone, Copy, Debug, PartialEq, Eq, Error)]
pub enum ReadError {
    /// The select has a fault: it can't be answered on the catalog.
    #[error("{0}")]
    Statement(CheckError),
    /// A worker of a shared store has no reading of what is published. A database itself never
    /// returns this.
    #[error("no reading")]
    NoReading,
    /// No repair is under way, so there is no next generation to read.
    #[error("no repair is under way")]
    NotRepairing,
    /// The generation can't be read: only those from `oldest` to `newest`, the current one, can.
    #[error("no such generation: {oldest} to {newest} can be read")]
    NoGeneration { oldest: u64, newest: u64 },
    /// The time is later than `now`, the last time of the generation that is read; of the next one
    /// that is the last slot that the repair has done.
    #[error("later than {now}")]
    Later { now: u64 },
    /// Out of memory.
    #[error("out of memory")]
    Memory,
}
