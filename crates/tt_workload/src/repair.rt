//! The repair of a document: its edits, and its steps beside further calls.
ghost use Rattle.std.specs.Prelude.{◌≡◌, ◌+◌, ◌++◌, ◌∷◌, ◌≤◌, true, [], length, map, min, OnOk, IfOk, IfErr, None};
ghost use Rattle.tt_generations.specs.TwoGenerations.{is_repairing};
ghost use Rattle.tt_db.specs.State.{slots_left};
ghost use Rattle.tt_db.specs.Database.{state_of, with_entry, refusal_of};
ghost use Rattle.tt_workload.specs.Records.{lines_of_records};
ghost use Rattle.tt_workload.specs.History.{with_entries, slot_in, slot_of_call, edit_of_slot, repair_entry, steps, with_batch, with_steps_left, with_meanwhile, records_meanwhile};
ghost use Rattle.tt_workload.specs.Room.{AreAccepted, IsUnderWay};

use crate::calls::{carry_out, make_call};
use crate::run_fault::RunFault;
use std::alloc::{AllocError, Global};
use tt_db::{Db, Edit, Entry, Event};
use tt_document::Call;
use tt_records::{Record, What};
use tt_values::Items;

/// Who makes the repair of a document, and how.
#[derive(Clone, Copy)]
pub(crate) struct Administrator {
    /// The number of this worker.
    pub(crate) worker: u32,
    /// The largest number of steps that are made before each call.
    pub(crate) batch: u32,
}

/// The slot that the call of a number took, by its record: 0 where it took none.
fn slot_of_call(records: &[Record], number: u64) -> u64
    ensures { result ≡ slot_of_call records.now number }
{
    let position = number.saturating_sub(1);
    match records.get(position as usize) {
        Some(record) => slot_in(&record.what),
        None => 0,
    }
}

/// The slot that an answer names: 0 where it names none.
fn slot_in(what: &What) -> u64
    ensures { result ≡ slot_in what.now }
{
    match what {
        What::Write { slot, .. } => *slot,
        What::Read { .. } => 0,
        What::Preview { .. } => 0,
        What::Later { .. } => 0,
        What::NotRepairing => 0,
    }
}

/// An edit of a call, as one of the slot that it took.
fn edit_of_slot(records: &[Record], edit: &Edit) -> Result<Edit, AllocError>
    ensures { IfOk result (λ e. e ≡ edit_of_slot records.now edit.now) }
{
    match edit {
        Edit::Cancel(number) => Ok(Edit::Cancel(slot_of_call(records, *number))),
        Edit::Replace(number, action) => {
            let slot = slot_of_call(records, *number);
            let action = action.clone()?;
            Ok(Edit::Replace(slot, action))
        }
    }
}

/// The edits of calls, as edits of the slots that these records name.
pub fn edits_of_slots(
    alloc: Global,
    records: &[Record],
    edits: &[Edit],
) -> Result<Items<Edit>, AllocError>
    ensures { IfOk result (λ list. list ≡ map (edit_of_slot records.now) edits.now) }
{
    let mut list = Vec::with_capacity(alloc, edits.len())?;
    for edit in edits {
        list.push(edit_of_slot(records, edit)?)?;
    }
    Items::new(alloc, list)
}

/// Begins the repair with these edits of slots.
pub(crate) fn begin(db: &mut Db, worker: u32, edits: Items<Edit>) -> Result<(), RunFault>
    requires { refusal_of db.old (Event.Begin edits) ≡ None }
    ensures state { OnOk result
        (db.new ≡ with_entry db.old (repair_entry worker (Event.Begin edits))) }
    ensures err { IfErr result (λ e. e ≡ RunFault.Memory) }
{
    let event = Event::Begin(edits);
    carry_out(db, Entry { worker, event })?;
    Ok(())
}

/// How many slots the repair has left: 0 where none is under way.
fn slots_left(db: &Db) -> u64
    ensures { result ≡ slots_left (state_of db.now) }
{
    match db.repair() {
        Some(progress) => progress.left,
        None => 0,
    }
}

/// Makes `count` steps of the repair, which has at least as many left.
fn make_steps(db: &mut Db, worker: u32, count: u64, calls: u64) -> Result<(), RunFault>
    requires under_way { IsUnderWay calls db.old }
    requires few { calls ≤ 200000 }
    requires left { count ≤ slots_left (state_of db.old) }
    ensures state { OnOk result (db.new ≡ with_entries db.old (steps worker count)) }
    ensures under_way { OnOk result (IsUnderWay calls db.new) }
    ensures left { OnOk result
        (slots_left (state_of db.new) + count ≡ slots_left (state_of db.old)) }
    ensures err { IfErr result (λ e. e ≡ RunFault.Memory) }
{
    // None of them is refused, so that as many are made.
    let _ = db.advance_steps(worker, count)?;
    Ok(())
}

/// Makes a batch of steps, or as many as are left.
fn make_batch(db: &mut Db, administrator: Administrator, calls: u64) -> Result<(), RunFault>
    requires under_way { IsUnderWay calls db.old }
    requires few { calls ≤ 200000 }
    ensures state { OnOk result
        (db.new ≡ with_batch administrator.worker administrator.batch db.old) }
    ensures under_way { OnOk result (IsUnderWay calls db.new) }
    ensures err { IfErr result (λ e. e ≡ RunFault.Memory) }
{
    let count = u64::from(administrator.batch).min(slots_left(db));
    make_steps(db, administrator.worker, count, calls)
}

/// Makes the calls of a document that are made while its repair is under way, with a batch of steps
/// before each of them. Pushes their lines and their records.
pub(crate) fn make_meanwhile(
    alloc: Global,
    out: &mut Vec<u8>,
    records: &mut Vec<Record>,
    db: &mut Db,
    administrator: Administrator,
    calls: Vec<Call>,
    json: bool,
) -> Result<(), RunFault>
    requires under_way { IsUnderWay (length records.old.items) db.old }
    requires accepted { AreAccepted db.old.catalog calls.items }
    requires few { length records.old.items + length calls.items ≤ 200000 }
    ensures lines { OnOk result (out.new.items ≡ out.old.items
        ++ lines_of_records json db.old.catalog
        (records_meanwhile administrator.worker administrator.batch
        (length records.old.items + 1) db.old calls.items)) }
    ensures records { OnOk result (records.new.items ≡ records.old.items
        ++ records_meanwhile administrator.worker administrator.batch
        (length records.old.items + 1) db.old calls.items) }
    ensures state { OnOk result
        (db.new ≡ with_meanwhile administrator.worker administrator.batch db.old calls.items) }
    ensures under_way { OnOk result
        (IsUnderWay (length records.old.items + length calls.items) db.new) }
    ensures err { IfErr result (λ e. e ≡ RunFault.Memory) }
{
    let mut number = records.len() as u64;
    for call in calls {
        make_batch(db, administrator, number)?;
        number += 1;
        let record = make_call(alloc, out, db, number, call, json)?;
        records.push(record)?;
    }
    Ok(())
}

/// Makes the steps that are left.
pub(crate) fn catch_up(db: &mut Db, worker: u32, calls: u64) -> Result<(), RunFault>
    requires under_way { IsUnderWay calls db.old }
    requires few { calls ≤ 200000 }
    ensures state { OnOk result (db.new ≡ with_steps_left worker db.old) }
    ensures under_way { OnOk result (IsUnderWay calls db.new) }
    ensures none_left { OnOk result (slots_left (state_of db.new) ≡ 0) }
    ensures err { IfErr result (λ e. e ≡ RunFault.Memory) }
{
    let count = slots_left(db);
    make_steps(db, worker, count, calls)
}
