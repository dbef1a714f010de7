//! The replies that a repair will have changed, while it is under way.
ghost use Rattle.std.specs.Prelude.{◌≡◌, true, ◌∷◌, [], None, option_map, option_and_then, IfOk, IfErr, OnOk, if◌then◌else◌};
ghost use Rattle.tt_values.specs.Check.{select_fault};
ghost use Rattle.tt_generations.specs.TwoGenerations.{is_repairing, next_slot_at};
ghost use Rattle.tt_db.specs.Database.{state_of};
ghost use Rattle.tt_records.specs.Changes.{after_of_slot, answer_next, change_to, next_change_of, next_changes_of};

use crate::changed::Changed;
use crate::comparison::{change_of_slot, change_to_reply, no_answer};
use crate::record::{Record, What};
use std::alloc::{AllocError, Global};
use tt_db::{Db, ReadError};
use tt_values::{Items, Reply, Select};

/// The calls of these records whose answers the repair under way will have changed, as far as it
/// is, in the order of the records: a write by the replies of its slot as edited, a read by the
/// rows of the next generation at its time. A record of a slot or a time that the repair hasn't
/// done yet isn't listed. Once it has done all slots, these are the
/// [`changes`](crate::changes) right after the switch. Without a repair, `NotRepairing`.
pub fn changes_next(alloc: Global, db: &Db, records: &[Record]) -> Result<Vec<Changed>, ReadError>
    ensures repairing { OnOk result (is_repairing (state_of db.now).phase ≡ true) }
    ensures listed { IfOk result (λ list.
        list.items ≡ next_changes_of db.now.catalog (state_of db.now) records.now) }
    ensures refused { IfErr result (λ e. e ≡ (if is_repairing (state_of db.now).phase
        then ReadError.Memory else ReadError.NotRepairing)) }
{
    if db.repair().is_none() {
        return Err(ReadError::NotRepairing);
    }
    match next_changes(alloc, db, records) {
        Ok(changes) => Ok(changes),
        Err(AllocError) => Err(ReadError::Memory),
    }
}

/// The changes by the repair under way.
fn next_changes(alloc: Global, db: &Db, records: &[Record]) -> Result<Vec<Changed>, AllocError>
    requires { is_repairing (state_of db.now).phase ≡ true }
    ensures { IfOk result (λ list.
        list.items ≡ next_changes_of db.now.catalog (state_of db.now) records.now) }
{
    let mut changes = Vec::new(alloc);
    for record in records {
        if let Some(change) = next_change_of(alloc, db, record)? {
            changes.push(change)?;
        }
    }
    Ok(changes)
}

/// The change of one record, if its call is answered differently in the next generation: as
/// [`changes_next`] tells it, for records that come one by one while a repair is under way.
pub fn next_change_of(
    alloc: Global,
    db: &Db,
    earlier: &Record,
) -> Result<Option<Changed>, AllocError>
    requires { is_repairing (state_of db.now).phase ≡ true }
    ensures { IfOk result
        (λ c. c ≡ next_change_of db.now.catalog (state_of db.now) earlier.now) }
{
    match &earlier.what {
        What::Write { slot, replies } => next_change_of_write(db, earlier.call, *slot, replies),
        What::Read {
            select,
            time,
            reply,
        } => next_change_of_read(alloc, db, earlier.call, select, *time, reply),
        What::Preview { .. } => Ok(None),
        What::Later { .. } => Ok(None),
        What::NotRepairing => Ok(None),
    }
}

/// The change of a write, if the repair has done its slot, and this has other replies, or none.
fn next_change_of_write(
    db: &Db,
    call: u64,
    slot: u64,
    before: &Items<Reply>,
) -> Result<Option<Changed>, AllocError>
    ensures { IfOk result (λ c. c ≡ option_and_then (change_to call before.now) (option_map
        after_of_slot (next_slot_at (state_of db.now).phase (state_of db.now).slots slot))) }
{
    match db.next_slot(slot) {
        Some(slot) => change_of_slot(call, before, slot),
        None => Ok(None),
    }
}

/// The change of a read, if its select finds other rows in the next generation at its time. A
/// select that has a fault, or a time later than the slots done, has no answer.
fn next_change_of_read(
    alloc: Global,
    db: &Db,
    call: u64,
    select: &Select,
    time: u64,
    before: &Reply,
) -> Result<Option<Changed>, AllocError>
    requires { is_repairing (state_of db.now).phase ≡ true }
    ensures { IfOk result (λ c. c ≡ option_and_then (change_to call (before.now ∷ []))
        (answer_next (state_of db.now) select.now time (select_fault db.now.catalog select.now))) }
{
    match db.preview_at(select, time) {
        Ok(after) => change_to_reply(alloc, call, before, after),
        Err(error) => no_answer(error),
    }
}
