//! Requests: what a line of an open session asks for.
ghost use Rattle.std.specs.Prelude.{Ok};
ghost use Rattle.tt_json.specs.Tape.{IsValue, value_at};
ghost use Rattle.tt_grammar.specs.Fault.{Gives};
ghost use Rattle.tt_requests.specs.Requests.{members_of_request, request_of};

use crate::commands::command;
use crate::questions::WORKER;
use crate::told::{ToldGeneration, ToldTime, ToldTimeDecoder};
use json::Tape;
use std::alloc::Global;
use tt_grammar::DocFault;
use tt_grammar::decoding::{Version, object, optional};
use tt_json::root;
use tt_repair_laws::Edit;
use tt_values::{Action, Catalog, Items, RowId, Select};

const USUAL_WORKER: u32 = 1;

/// A request of a session.
#[derive(Debug, Drop)]
pub struct Request {
    /// The number of the worker that asks, from 1.
    pub worker: u32,
    /// The current time for which the request is meant, if it is meant for one alone.
    pub expected: Option<ToldTime>,
    pub command: Command,
}

/// What a request asks for.
#[derive(Debug, Drop)]
pub enum Command {
    /// An action: at most [`MAX_WRITES`](tt_values::MAX_WRITES) writes, carried out in order as
    /// one slot, wholly or not at all if it is whole.
    Write {
        action: Action,
        /// What the service counts by, most often the milliseconds of its clock, where it is given.
        stamp: Option<u64>,
    },
    /// Rows of a table, in the current generation or an older one.
    Read {
        select: Select,
        /// The time, or the last one of the generation where none is given.
        at: Option<ToldTime>,
        /// The number of the generation, or the current one where none is given.
        generation: Option<ToldGeneration>,
        page: Page,
    },
    /// Rows of a table in the next generation, at the last slot that the repair has done.
    Preview {
        select: Select,
        page: Page,
    },
    /// A repair begins, with at most [`MAX_EDITS`](tt_grammar::MAX_EDITS) edits.
    Begin(ToldEdits),
    /// The repair does slots.
    Step {
        /// At most this many, from 1 to [`MAX_STEPS`](crate::MAX_STEPS).
        most: u32,
        /// The worker that has to have begun the repair, where one is given.
        of: Option<u32>,
    },
    /// The repair does all slots that are left, and the next generation becomes the current one.
    Finish {
        /// The worker that has to have begun the repair, where one is given.
        of: Option<u32>,
    },
    /// The repair is given up.
    Abort {
        /// The worker that has to have begun the repair, where one is given.
        of: Option<u32>,
    },
    /// How the database stands.
    Status,
    /// The slots from one number to another, at most [`MAX_SPAN`](crate::MAX_SPAN) behind it.
    Slots {
        from: ToldTime,
        to: ToldTime,
        filter: SlotFilter,
    },
    /// The calls that are answered differently now.
    Changes(ChangePage),
    /// The calls that are answered differently in the next generation, as far as the repair is.
    NextChanges(ChangePage),
    /// The tables, and how much is kept.
    Tables,
    /// Why slots were re-executed.
    Why {
        /// By the repair that closed this generation, or by the one under way where none is given.
        generation: Option<ToldGeneration>,
        page: SlotPage,
    },
    /// Which rows differ between the generations.
    Diff {
        /// Those of the repair that closed this generation, or of the one under way where none is
        /// given.
        generation: Option<ToldGeneration>,
        page: DiffPage,
    },
    /// What a repair with at most [`MAX_EDITS`](tt_grammar::MAX_EDITS) edits would come to.
    Would(ToldEdits),
    /// What lies before a time is forgotten.
    Forget(ToldTime),
}

impl Command {
    ghost use Rattle.std.specs.Prelude.{◌≡◌};
    ghost use Rattle.tt_requests.specs.Asked.{is_read_only, is_forget, repair_worker_told};

    /// Whether it leaves the database as it is.
    pub fn is_read_only(&self) -> bool
        ensures { result ≡ is_read_only self.now }
    {
        match self {
            Command::Write { .. } => false,
            Command::Begin(_) => false,
            Command::Step { .. } => false,
            Command::Finish { .. } => false,
            Command::Abort { .. } => false,
            Command::Forget(_) => false,
            Command::Read { .. } => true,
            Command::Preview { .. } => true,
            Command::Status => true,
            Command::Slots { .. } => true,
            Command::Changes(_) => true,
            Command::NextChanges(_) => true,
            Command::Tables => true,
            Command::Why { .. } => true,
            Command::Diff { .. } => true,
            Command::Would(_) => true,
        }
    }

    /// Whether it is to forget what lies before a time.
    pub(crate) fn is_forget(&self) -> bool
        ensures { result ≡ is_forget self.now }
    {
        match self {
            Command::Forget(_) => true,
            _ => false,
        }
    }

    /// The worker for whose repair it is, if it tells one.
    pub fn repair_worker_told(&self) -> Option<u32>
        ensures { result ≡ repair_worker_told self.now }
    {
        match self {
            Command::Step { of, .. } => *of,
            Command::Finish { of } => *of,
            Command::Abort { of } => *of,
            _ => None,
        }
    }
}

/// Edits whose slots are numbered as they are told.
#[derive(Debug, Drop)]
pub struct ToldEdits {
    pub edits: Items<Edit>,
}

/// Which of the rows of a select or a preview are asked for.
#[derive(Clone, Copy, Debug, PartialEq, Eq)]
pub struct Page {
    /// The rows with greater keys than this, where it is given.
    pub after: Option<i64>,
    /// The first rows, this many, from 1 to [`MAX_PAGE`](crate::MAX_PAGE), where it is given.
    pub most: Option<u32>,
}

/// Which slots are asked for.
#[derive(Clone, Copy, Debug, PartialEq, Eq)]
pub struct SlotFilter {
    /// Those of one worker, where it is given.
    pub worker: Option<u32>,
    /// Those that changed a row, where it is given.
    pub row: Option<RowId>,
    /// Those with a stamp in a range, where it is given.
    pub stamps: Option<StampRange>,
}

/// The stamps from one to another, both among them; none where the low one is higher.
#[derive(Clone, Copy, Debug, PartialEq, Eq)]
pub struct StampRange {
    pub low: u64,
    pub high: u64,
}

/// Which of the re-executed slots are asked for.
#[derive(Clone, Copy, Debug, PartialEq, Eq)]
pub struct SlotPage {
    /// The slots behind this one, where it is given.
    pub after: Option<ToldTime>,
    /// The first slots, this many, from 1 to [`MAX_PAGE`](crate::MAX_PAGE), where it is given.
    pub most: Option<u32>,
}

/// Which of the changed replies are asked for, and whether their calls are told in full.
#[derive(Clone, Copy, Debug, PartialEq, Eq)]
pub struct ChangePage {
    /// Those of calls of one worker, where it is given.
    pub worker: Option<u32>,
    /// Those of calls of one kind, where it is given.
    pub only: Option<CallKind>,
    /// Those of calls behind this one, where it is given.
    pub after: Option<u64>,
    /// The first ones, this many, from 1 to [`MAX_PAGE`](crate::MAX_PAGE), where it is given.
    pub most: Option<u32>,
    /// Whether each is told with its worker and with what was asked for.
    pub asked: bool,
}

impl ChangePage {
    ghost use Rattle.std.specs.Prelude.{◌≡◌};
    ghost use Rattle.tt_requests.specs.Questions.{every_change};

    /// All changed replies, told without what was asked for.
    pub const fn every() -> ChangePage
        ensures { result ≡ every_change }
    {
        ChangePage {
            worker: None,
            only: None,
            after: None,
            most: None,
            asked: false,
        }
    }
}

/// A kind of call whose answer can change.
#[derive(Clone, Copy, Debug, PartialEq, Eq)]
pub enum CallKind {
    Writes,
    Reads,
}

/// Which of the rows that differ are asked for.
#[derive(Clone, Copy, Debug, PartialEq, Eq)]
pub struct DiffPage {
    /// The rows behind this one, by table and then by key, where it is given.
    pub after: Option<RowId>,
    /// The first rows, this many, from 1 to [`MAX_PAGE`](crate::MAX_PAGE), where it is given.
    pub most: Option<u32>,
}

/// The request that the JSON value on a tape spells, by a version of the grammar and with these
/// tables, or its first fault. Memory can run out before the fault is met.
pub(crate) fn request_from_tape(
    alloc: Global,
    version: Version,
    catalog: &Catalog,
    tape: &Tape<'_>,
) -> Result<Request, DocFault>
    requires { IsValue tape.now }
    ensures { Gives result (request_of version catalog.now (Ok (value_at tape.now))) }
{
    match from_members(alloc, version, catalog, tape) {
        Ok(request) => Ok(request),
        Err(fault) => Err(fault.in_document(alloc)),
    }
}

/// The request of an object. Paths begin at the object.
#[tactic(auto, unfolding(crate::specs::Requests::members_of_request))]
fn from_members(
    alloc: Global,
    version: Version,
    catalog: &Catalog,
    tape: &Tape<'_>,
) -> Result<Request, DocFault>
    requires { IsValue tape.now }
    ensures { Gives result (members_of_request version catalog.now (value_at tape.now)) }
{
    let value = root(tape);
    object(alloc, &value)?;
    let worker = optional(alloc, &value, "worker", &WORKER)?;
    let expected = optional(alloc, &value, "if", &ToldTimeDecoder)?;
    let command = command(alloc, version, catalog, tape)?;
    Ok(Request {
        worker: worker.unwrap_or(USUAL_WORKER),
        expected,
        command,
    })
}
