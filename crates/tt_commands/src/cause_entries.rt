//! Why a repair re-executed its slots.
ghost use Rattle.std.specs.Prelude.{◌≡◌, IfOk};
ghost use Rattle.tt_commands.specs.Answers.{Becomes};
ghost use Rattle.tt_commands.specs.CauseEntries.{slot_before, is_full, cause_entries, first_entries, more_follow, causes_answer, why};

use crate::asked_repair::AskedRepair;
use crate::failure::Failure;
use crate::open_session::OpenSession;
use crate::response::Response;
use std::alloc::{AllocError, Global};
use tt_answers::{Answer, CauseEntry, SlotCause};
use tt_db::Db;
use tt_requests::{Numbering, SlotPage, ToldGeneration, ToldTime};
use tt_values::Items;

/// The last slot before those that are asked for, by the numbers of the database. Slots up to the
/// horizon aren't told.
pub(crate) fn slot_before(numbering: Numbering, after: Option<ToldTime>) -> u64
    ensures { result ≡ slot_before numbering after }
{
    let ground_slots = numbering.ground_slots();
    match after {
        Some(after) => numbering.own_time(after).max(ground_slots),
        None => ground_slots,
    }
}

/// Whether so many entries are as many as are asked for.
pub(crate) fn is_full(most: Option<u32>, count: usize) -> bool
    ensures { result ≡ is_full most count }
{
    match most {
        Some(most) => count == most as usize,
        None => false,
    }
}

/// The re-executed slots of a page.
#[derive(Drop)]
pub(crate) struct FirstCauses {
    pub(crate) entries: Vec<CauseEntry>,
    /// Whether more follow.
    pub(crate) more: bool,
}

/// The re-executed slots behind one, by the numbers of the database: the first ones, at most this
/// many, where that is given. Takes memory for them alone.
pub(crate) fn first_causes(
    alloc: Global,
    db: &Db,
    repair: AskedRepair,
    before: u64,
    most: Option<u32>,
) -> Result<FirstCauses, AllocError>
    ensures entries { IfOk result (λ first. first.entries.items
        ≡ first_entries most (cause_entries db.now repair before)) }
    ensures more { IfOk result (λ first. first.more
        ≡ more_follow most (cause_entries db.now repair before)) }
{
    let mut entries = Vec::new(alloc);
    let mut told = before;
    while let Some(slot) = repair.next_redone(db, told) {
        if is_full(most, entries.len()) {
            return Ok(FirstCauses {
                entries,
                more: true,
            });
        }
        let Some(cause) = repair.cause(db, slot) else {
            unreachable!()
        };
        let cause = SlotCause::of(cause)?;
        entries.push(CauseEntry { slot, cause })?;
        told = slot;
    }
    Ok(FirstCauses {
        entries,
        more: false,
    })
}

/// How many slots a repair has done, and the page that is asked for of those that it re-executed.
fn causes_answer(
    session: &OpenSession,
    page: SlotPage,
    repair: AskedRepair,
) -> Result<Answer, AllocError>
    ensures { IfOk result (λ answer. answer ≡ causes_answer session.now page repair) }
{
    let alloc = session.alloc();
    let db = session.db();
    let before = slot_before(session.numbering(), page.after);
    let FirstCauses { entries, more } = first_causes(alloc, db, repair, before, page.most)?;
    let redone = Items::new(alloc, entries)?;
    Ok(Answer::Causes {
        done: repair.done(db),
        redone,
        more: page.most.is_some().then_some(more),
    })
}

/// Why slots were re-executed by the repair under way, or by the one that closed a generation, if
/// one is told.
pub(crate) fn why(
    session: &OpenSession,
    generation: Option<ToldGeneration>,
    page: SlotPage,
) -> Result<Response, Failure>
    ensures { Becomes session.now result (why session.now generation page) }
{
    match AskedRepair::of(session, generation) {
        Ok(repair) => {
            let answer = causes_answer(session, page, repair)?;
            Ok(Response::unrecorded(answer))
        }
        Err(refusal) => Err(Failure::Refused(refusal)),
    }
}
