//! The changed replies of calls.
ghost use Rattle.std.specs.Prelude.{◌≡◌, ◌≢◌, ◌∷◌, [], None, option_map, option_and_then, IfOk, OnOk};
ghost use Rattle.tt_values.specs.Check.{select_fault};
ghost use Rattle.tt_generations.specs.KeptSlots.{slot_at};
ghost use Rattle.tt_db.specs.Database.{state_of};
ghost use Rattle.tt_records.specs.Changes.{after_of_slot, answer_now, change_to, change_of, changes_of};

use crate::changed::{After, Changed};
use crate::record::{Record, What};
use crate::slots_in_order::SlotsInOrder;
use std::alloc::{AllocError, Global};
use tt_db::{Db, ReadError, Slot};
use tt_values::{Items, Reply, Same, Select, are_same};

/// The calls of these records whose answers have changed, in the order of the records: a write by
/// the replies that its slot has now, a read by the rows that its select finds now at its time.
/// Refused reads and previews are never listed, nor is a record of a slot or a time that isn't
/// there.
pub fn changes(alloc: Global, db: &Db, records: &[Record]) -> Result<Vec<Changed>, AllocError>
    ensures { IfOk result (λ list.
        list.items ≡ changes_of db.now.catalog (state_of db.now) records.now) }
{
    let mut changes = Vec::new(alloc);
    let mut slots = SlotsInOrder::new(db);
    for record in records {
        if let Some(change) = change_of(alloc, &mut slots, record)? {
            changes.push(change)?;
        }
    }
    Ok(changes)
}

/// The change of one record, if its call is answered differently now: as [`changes`] tells it, for
/// records that come one by one.
pub fn change_of(
    alloc: Global,
    slots: &mut SlotsInOrder<'_>,
    earlier: &Record,
) -> Result<Option<Changed>, AllocError>
    ensures change { IfOk result
        (λ c. c ≡ change_of slots.old.catalog (state_of slots.old) earlier.now) }
    ensures database { slots.new ≡ slots.old }
{
    match &earlier.what {
        What::Write { slot, replies } => change_of_write(slots, earlier.call, *slot, replies),
        What::Read {
            select,
            time,
            reply,
        } => change_of_read(alloc, slots.db(), earlier.call, select, *time, reply),
        What::Preview { .. } => Ok(None),
        What::Later { .. } => Ok(None),
        What::NotRepairing => Ok(None),
    }
}

/// The change of a write, if its slot is there and has other replies now, or none.
fn change_of_write(
    slots: &mut SlotsInOrder<'_>,
    call: u64,
    slot: u64,
    before: &Items<Reply>,
) -> Result<Option<Changed>, AllocError>
    ensures change { IfOk result (λ c. c ≡ option_and_then (change_to call before.now)
        (option_map after_of_slot (slot_at (state_of slots.old).slots slot))) }
    ensures database { slots.new ≡ slots.old }
{
    match slots.slot(slot) {
        Some(slot) => change_of_slot(call, before, slot),
        None => Ok(None),
    }
}

/// The change of a write, if its slot has other replies, or none.
pub(crate) fn change_of_slot(
    call: u64,
    before: &Items<Reply>,
    slot: &Slot,
) -> Result<Option<Changed>, AllocError>
    ensures { IfOk result (λ c. c ≡ change_to call before.now (after_of_slot slot.now)) }
{
    match &slot.replies {
        Some(replies) => change_to_replies(call, before, replies),
        None => {
            let before = before.clone()?;
            Ok(Some(Changed {
                call,
                before,
                after: After::Cancelled,
            }))
        }
    }
}

/// A change to other replies, unless they are the same.
fn change_to_replies(
    call: u64,
    before: &Items<Reply>,
    after: &Items<Reply>,
) -> Result<Option<Changed>, AllocError>
    ensures { IfOk result (λ c. c ≡ change_to call before.now (After.Replies after.now)) }
{
    if are_same(before.as_slice(), after.as_slice()) {
        return Ok(None);
    }
    let before = before.clone()?;
    let after = after.clone()?;
    Ok(Some(Changed {
        call,
        before,
        after: After::Replies(after),
    }))
}

/// The change of a read, if its select finds other rows now at its time. A select that has a fault,
/// or a time later than now, has no answer.
fn change_of_read(
    alloc: Global,
    db: &Db,
    call: u64,
    select: &Select,
    time: u64,
    before: &Reply,
) -> Result<Option<Changed>, AllocError>
    ensures { IfOk result (λ c. c ≡ option_and_then (change_to call (before.now ∷ []))
        (answer_now (state_of db.now) select.now time (select_fault db.now.catalog select.now))) }
{
    match db.select_at(select, time) {
        Ok(after) => change_to_reply(alloc, call, before, after),
        Err(error) => no_answer(error),
    }
}

/// A change to another reply, unless it is the same.
pub(crate) fn change_to_reply(
    alloc: Global,
    call: u64,
    before: &Reply,
    after: Reply,
) -> Result<Option<Changed>, AllocError>
    ensures { IfOk result (λ c. c
        ≡ change_to call (before.now ∷ []) (After.Replies (after ∷ []))) }
{
    if before.is_same(&after) {
        return Ok(None);
    }
    let before = list_of_one(alloc, before.clone()?)?;
    let after = list_of_one(alloc, after)?;
    Ok(Some(Changed {
        call,
        before,
        after: After::Replies(after),
    }))
}

/// No change without an answer, or no memory for one.
pub(crate) fn no_answer(error: ReadError) -> Result<Option<Changed>, AllocError>
    ensures nothing { IfOk result (λ c. c ≡ None) }
    ensures memory { OnOk result (error ≢ ReadError.Memory) }
{
    match error {
        ReadError::Memory => Err(AllocError),
        _ => Ok(None),
    }
}

fn list_of_one(alloc: Global, reply: Reply) -> Result<Items<Reply>, AllocError>
    ensures { IfOk result (λ list. list ≡ reply ∷ []) }
{
    Items::of(alloc, [reply])
}
