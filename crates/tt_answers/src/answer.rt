//! What is answered, before it is printed.
ghost use Rattle.std.specs.Prelude.{◌≡◌, IfOk};

use std::alloc::AllocError;
use tt_db::{DbError, Progress, ReadError, Slot};
use tt_generations::{Cause, RowChange};
use tt_grammar::DocFault;
use tt_records::{Changed, What};
use tt_requests::ToldTime;
use tt_values::{Action, Items, Reply, Row, RowId, Select, Value};

/// Why a request is refused.
#[derive(Clone, Copy, Debug, PartialEq, Eq)]
pub enum Refusal {
    /// The request expects another current time than this one.
    Moved { now: u64 },
    /// The database refuses its event.
    Event(DbError),
    /// The database refuses its read.
    Read(ReadError),
    /// An edit names a slot that isn't there; the number is the one that it is told by.
    NoSlot { slot: ToldTime },
    /// The repair under way was begun by this worker, and not by the one that was asked for.
    RepairOfAnother { worker: u32 },
    /// What lies before the horizon is asked for.
    Forgotten,
    /// The log couldn't be made anew.
    Log,
    /// An opening asks for other tables than a log has, or for another number of closed
    /// generations.
    AnotherOpening,
}

/// How a repair that is under way stands.
#[derive(Clone, Copy, Debug, PartialEq, Eq)]
pub struct RepairStatus {
    /// How far it is.
    pub progress: Progress,
    /// The worker that began it.
    pub worker: u32,
}

/// How a database stands.
#[derive(Clone, Copy, Debug, PartialEq, Eq)]
pub struct Status {
    /// The current time.
    pub time: u64,
    /// The number of the current generation.
    pub generation: u64,
    /// The number of the oldest generation that can be read.
    pub oldest: u64,
    /// The number of entries of the history.
    pub entries: u64,
    /// The repair, if one is under way.
    pub repair: Option<RepairStatus>,
}

/// Rows that are read.
#[derive(Debug, PartialEq, Drop)]
pub struct RowPage {
    pub rows: Items<Row>,
    /// Whether more rows follow, if a page was asked for.
    pub more: Option<bool>,
}

/// What is told of a slot.
#[derive(Debug, PartialEq, Drop)]
pub struct SlotEntry {
    /// The number of the slot.
    pub number: u64,
    /// The worker that took it.
    pub worker: u32,
    /// Its stamp, if it has one.
    pub stamp: Option<u64>,
    /// What it is in the current generation.
    pub slot: Slot,
    /// The action that was asked for, if that is another.
    pub asked: Option<Action>,
}

/// Where a call stands whose answer can change.
#[derive(Clone, Copy, Debug, PartialEq, Eq)]
pub enum Place {
    /// The slot that an action took.
    Slot(u64),
    /// The time that a select was answered at.
    Time(u64),
}

/// What is told of a changed reply.
#[derive(Debug, PartialEq, Drop)]
pub struct ChangeEntry {
    /// The worker that made the call, if that is told.
    pub worker: Option<u32>,
    pub place: Place,
    pub change: Changed,
    /// What the call asked for, if that is told.
    pub asked: Option<AskedFor>,
}

/// What a call asked for whose answer can change.
#[derive(Debug, PartialEq, Drop)]
pub enum AskedFor {
    Action(Action),
    Select(Select),
}

/// Why a slot was re-executed. All but the first name what got dirty, and the slot that it got
/// dirty with. Tables and columns go by position, from 0.
#[derive(Debug, PartialEq, Drop)]
pub enum SlotCause {
    /// The repair edits the slot.
    Edited,
    /// The slot touched this row.
    Wrote {
        row: RowId,
        since: u64,
    },
    /// One of its writes inserts the key of this row, or has an equality with it.
    Names {
        row: RowId,
        since: u64,
    },
    /// One of its writes reads the rows that have this value in the column.
    Reads {
        table: u16,
        column: u16,
        value: Value,
        since: u64,
    },
    /// One of its writes reads all of this table.
    Scans {
        table: u16,
        since: u64,
    },
}

/// What is told of a re-executed slot.
#[derive(Debug, PartialEq, Drop)]
pub struct CauseEntry {
    /// The number of the slot.
    pub slot: u64,
    pub cause: SlotCause,
}

/// What is told of a row that differs between the generations.
#[derive(Debug, PartialEq, Drop)]
pub struct DiffEntry {
    /// The position of its table, from 0.
    pub table: u16,
    pub change: RowChange,
}

/// An answer. What it holds is shared with the database, and not copied. Its slots, times and
/// generations are the database's own numbers, and its text tells them by a numbering.
#[derive(Debug, PartialEq, Drop)]
pub enum Answer {
    /// How the database stands.
    Standing(Status),
    /// The slot that an action took, and the replies to its writes.
    Written {
        slot: u64,
        replies: Items<Reply>,
    },
    /// The rows of a time.
    Selected {
        time: u64,
        page: RowPage,
    },
    /// The rows of the next generation, with this number of slots done.
    Previewed {
        done: u64,
        page: RowPage,
    },
    /// How far the repair is.
    Repairing(Progress),
    /// The generation that is now current, how many slots it has, and how many of them were
    /// re-executed.
    Finished {
        generation: u64,
        slots: u64,
        rerun: u64,
    },
    /// The current time, and slots.
    Slots {
        time: u64,
        slots: Items<SlotEntry>,
    },
    /// The call of the first record that is kept, and changed replies.
    Changes {
        from: u64,
        changes: Items<ChangeEntry>,
        /// Whether more follow, if a page was asked for.
        more: Option<bool>,
    },
    /// How many slots the repair has done, and those of them that it re-executed.
    Causes {
        done: u64,
        redone: Items<CauseEntry>,
        /// Whether more follow, if a page was asked for.
        more: Option<bool>,
    },
    /// How many slots the repair has done, and the rows that differ between the generations then.
    Differences {
        done: u64,
        diff: Items<DiffEntry>,
        /// Whether more follow, if a page was asked for.
        more: Option<bool>,
    },
    /// What a repair would come to, once it had done all slots.
    Trial {
        /// How many slots there are.
        slots: u64,
        /// How many of them it would re-execute.
        rerun: u64,
        /// Those that it would re-execute.
        redone: Items<CauseEntry>,
        /// The replies that it would change.
        changed: Items<ChangeEntry>,
        /// The rows that would differ between the generations.
        diff: Items<DiffEntry>,
    },
    /// The tables of the database, how many closed generations it keeps, and how many records are
    /// kept.
    Declared {
        keep: u32,
        records: u32,
    },
    /// The first fault of the line.
    Faulty(DocFault),
    /// Why the request is refused.
    Refused(Refusal),
    /// There was no memory for the line.
    OutOfMemory,
}

impl Place {
    ghost use Rattle.tt_answers.specs.AnswerText.{place_of};

    /// Where a recorded call stands. Previews and what was refused never change.
    pub fn of(what: &What) -> Option<Place>
        ensures { result ≡ place_of what.now }
    {
        match what {
            What::Write { slot, .. } => Some(Place::Slot(*slot)),
            What::Read { time, .. } => Some(Place::Time(*time)),
            What::Preview { .. } | What::Later { .. } | What::NotRepairing => None,
        }
    }
}

impl SlotCause {
    ghost use Rattle.tt_generations.specs.SlotCauses.{cause_told};
    ghost use Rattle.tt_answers.specs.CauseText.{slot_cause};

    /// A cause that is lent, with a copy of its value, which shares its text.
    pub fn of(cause: Cause<'_>) -> Result<SlotCause, AllocError>
        ensures { IfOk result (λ copy. copy ≡ slot_cause (cause_told cause.entry)) }
    {
        match cause {
            Cause::Edited => Ok(SlotCause::Edited),
            Cause::Wrote { table, key, since } => {
                let row = RowId { table, key };
                Ok(SlotCause::Wrote { row, since })
            }
            Cause::Names { table, key, since } => {
                let row = RowId { table, key };
                Ok(SlotCause::Names { row, since })
            }
            Cause::Reads {
                table,
                column,
                value,
                since,
            } => {
                let value = value.copy()?;
                Ok(SlotCause::Reads {
                    table,
                    column,
                    value,
                    since,
                })
            }
            Cause::Scans { table, since } => Ok(SlotCause::Scans { table, since }),
        }
    }
}
