//! The end of the repair of a document, and the lines of the repair: it switches, or is given up
//! where a run is dry.
ghost use Rattle.std.specs.Prelude.{◌≡◌, ◌++◌, ◌≤◌, true, OnOk, IfOk, IfErr, None};
ghost use Rattle.tt_generations.specs.TwoGenerations.{is_repairing, reexecuted_of};
ghost use Rattle.tt_db.specs.Database.{state_of, with_entry, refusal_of, outcome_for};
ghost use Rattle.tt_workload.specs.History.{repair_entry, end_of_repair, with_steps_left};
ghost use Rattle.tt_workload.specs.Report.{repair_text, line_of_repair, outcome_line, changed_lines, closed_by_switch, lines_after_switch, lines_of_switch, would_rerun_text, line_of_trial, would_change_lines, lines_of_trial, lines_of_end};
ghost use Rattle.tt_workload.specs.Room.{IsUnderWay};

use crate::calls::carry_out;
use crate::causes::push_redone_if;
use crate::differences::push_diff_if;
use crate::json_report::{push_json_repair, push_json_trial};
use crate::options::Options;
use crate::record_text::{push_changes, push_would_be_changes};
use crate::repair::catch_up;
use crate::run_fault::RunFault;
use crate::told_repair::ToldRepair;
use std::alloc::{AllocError, Global};
use tt_db::{Db, Entry, Event, Outcome};
use tt_grammar::push_labelled;
use tt_records::{Record, changes, changes_next};

/// Makes the steps that are left, and ends the repair: switches to the repaired generation, or
/// gives the repair up where the run is dry. Pushes the lines of the repair.
pub(crate) fn finish(
    alloc: Global,
    out: &mut Vec<u8>,
    db: &mut Db,
    worker: u32,
    calls: u64,
    records: &[Record],
    options: &Options,
) -> Result<(), RunFault>
    requires under_way { IsUnderWay calls db.old }
    requires few { calls ≤ 200000 }
    ensures lines { OnOk result (out.new.items ≡ out.old.items
        ++ lines_of_end options.now worker (with_steps_left worker db.old) records.now) }
    ensures state { OnOk result (db.new ≡ with_entry (with_steps_left worker db.old)
        (repair_entry worker (end_of_repair options.now.dry))) }
    ensures err { IfErr result (λ e. e ≡ RunFault.Memory) }
{
    catch_up(db, worker, calls)?;
    if options.dry {
        give_up(alloc, out, db, worker, records, options)
    } else {
        switch_over(alloc, out, db, worker, records, options)
    }
}

/// Switches to the repaired generation, and pushes the lines of the repair.
fn switch_over(
    alloc: Global,
    out: &mut Vec<u8>,
    db: &mut Db,
    worker: u32,
    records: &[Record],
    options: &Options,
) -> Result<(), RunFault>
    requires { refusal_of db.old Event.Switch ≡ None }
    ensures lines { OnOk result (out.new.items ≡ out.old.items ++ lines_of_switch options.now
        db.old (with_entry db.old (repair_entry worker Event.Switch)) records.now) }
    ensures state { OnOk result (db.new ≡ with_entry db.old (repair_entry worker Event.Switch)) }
    ensures err { IfErr result (λ e. e ≡ RunFault.Memory) }
{
    let outcome = switch(db, worker)?;
    push_outcome(out, &outcome, options.json)?;
    push_after_switch(alloc, out, db, records, options)
}

/// Switches to the repaired generation, and returns the outcome.
fn switch(db: &mut Db, worker: u32) -> Result<Outcome, RunFault>
    requires { refusal_of db.old Event.Switch ≡ None }
    ensures state { OnOk result (db.new ≡ with_entry db.old (repair_entry worker Event.Switch)) }
    ensures outcome { IfOk result (λ outcome. outcome ≡ outcome_for db.old Event.Switch) }
    ensures err { IfErr result (λ e. e ≡ RunFault.Memory) }
{
    let entry = Entry {
        worker,
        event: Event::Switch,
    };
    carry_out(db, entry)
}

/// Pushes the line of a repair, if the outcome is that of a switch.
fn push_outcome(out: &mut Vec<u8>, outcome: &Outcome, json: bool) -> Result<(), AllocError>
    ensures { OnOk result (out.new.items ≡ out.old.items ++ outcome_line json outcome.now) }
{
    if let Outcome::Switched {
        generation,
        slots,
        rerun,
    } = outcome
    {
        push_repair(out, *generation, *slots, *rerun, json)?;
    }
    Ok(())
}

/// Pushes the line of a repair, with its line feed, as JSON or as text.
pub fn push_repair(
    out: &mut Vec<u8>,
    generation: u64,
    slots: u64,
    rerun: u64,
    json: bool,
) -> Result<(), AllocError>
    ensures { OnOk result (out.new.items
        ≡ out.old.items ++ line_of_repair json generation slots rerun) }
{
    if json {
        push_json_repair(out, generation, slots, rerun)
    } else {
        push_repair_text(out, generation, slots, rerun)
    }
}

/// Pushes the line of a repair as text.
fn push_repair_text(
    out: &mut Vec<u8>,
    generation: u64,
    slots: u64,
    rerun: u64,
) -> Result<(), AllocError>
    ensures { OnOk result (out.new.items
        ≡ out.old.items ++ repair_text generation slots rerun) }
{
    push_labelled(out, b"repair generation ", generation)?;
    push_labelled(out, b" slots ", slots)?;
    push_labelled(out, b" rerun ", rerun)?;
    out.push(b'\n')?;
    Ok(())
}

/// Pushes the lines behind that of a repair, after its switch: one for each slot that it has
/// re-executed, if these are asked for, one for each record whose call is answered differently now,
/// and one for each row that differs, if these are asked for.
fn push_after_switch(
    alloc: Global,
    out: &mut Vec<u8>,
    db: &Db,
    records: &[Record],
    options: &Options,
) -> Result<(), RunFault>
    ensures text { OnOk result (out.new.items
        ≡ out.old.items ++ lines_after_switch options.now db.now records.now) }
    ensures err { IfErr result (λ e. e ≡ RunFault.Memory) }
{
    let repair = ToldRepair::ThatClosed(closed_by_switch(db));
    push_redone_if(out, db, repair, options)?;
    push_changed(alloc, out, db, records, options.json)?;
    push_diff_if(alloc, out, db, repair, options)?;
    Ok(())
}

/// The generation that the last switch closed.
fn closed_by_switch(db: &Db) -> u64
    ensures { result ≡ closed_by_switch db.now }
{
    db.generation().saturating_sub(1)
}

/// Pushes a line for each record whose call is answered differently now.
fn push_changed(
    alloc: Global,
    out: &mut Vec<u8>,
    db: &Db,
    records: &[Record],
    json: bool,
) -> Result<(), RunFault>
    ensures text { OnOk result (out.new.items ≡ out.old.items
        ++ changed_lines json db.now records.now) }
    ensures err { IfErr result (λ e. e ≡ RunFault.Memory) }
{
    let changes = changes(alloc, db, records)?;
    push_changes(out, db.catalog(), records, &changes, json)?;
    Ok(())
}

/// Pushes what a repair that has done all slots would do, and gives it up.
fn give_up(
    alloc: Global,
    out: &mut Vec<u8>,
    db: &mut Db,
    worker: u32,
    records: &[Record],
    options: &Options,
) -> Result<(), RunFault>
    requires repairing { is_repairing (state_of db.old).phase ≡ true }
    requires accepted { refusal_of db.old Event.Abort ≡ None }
    ensures lines { OnOk result (out.new.items
        ≡ out.old.items ++ lines_of_trial options.now db.old records.now) }
    ensures state { OnOk result (db.new ≡ with_entry db.old (repair_entry worker Event.Abort)) }
    ensures err { IfErr result (λ e. e ≡ RunFault.Memory) }
{
    push_trial(alloc, out, db, records, options)?;
    abort(db, worker)
}

/// Gives the repair up.
fn abort(db: &mut Db, worker: u32) -> Result<(), RunFault>
    requires { refusal_of db.old Event.Abort ≡ None }
    ensures state { OnOk result (db.new ≡ with_entry db.old (repair_entry worker Event.Abort)) }
    ensures err { IfErr result (λ e. e ≡ RunFault.Memory) }
{
    let entry = Entry {
        worker,
        event: Event::Abort,
    };
    carry_out(db, entry)?;
    Ok(())
}

/// Pushes what a repair that has done all slots would do: how many of them it would re-execute, one
/// line for each of these, if they are asked for, one for each record whose call would be answered
/// differently, and one for each row that would differ, if these are asked for.
fn push_trial(
    alloc: Global,
    out: &mut Vec<u8>,
    db: &Db,
    records: &[Record],
    options: &Options,
) -> Result<(), RunFault>
    requires { is_repairing (state_of db.now).phase ≡ true }
    ensures text { OnOk result (out.new.items
        ≡ out.old.items ++ lines_of_trial options.now db.now records.now) }
    ensures err { IfErr result (λ e. e ≡ RunFault.Memory) }
{
    let rerun = rerun_under_way(db);
    let slots = db.now();
    push_would_rerun(out, rerun, slots, options.json)?;
    push_redone_if(out, db, ToldRepair::UnderWay, options)?;
    push_would_change(alloc, out, db, records, options.json)?;
    push_diff_if(alloc, out, db, ToldRepair::UnderWay, options)?;
    Ok(())
}

/// How many slots the repair under way has re-executed: 0 where none is under way.
fn rerun_under_way(db: &Db) -> u64
    ensures { result
        ≡ reexecuted_of db.now.catalog (state_of db.now).phase (state_of db.now).slots }
{
    match db.repair() {
        Some(progress) => progress.rerun,
        None => 0,
    }
}

/// Pushes the line of a repair that is tried: how many slots it would re-execute, and of how many.
fn push_would_rerun(out: &mut Vec<u8>, rerun: u64, slots: u64, json: bool) -> Result<(), AllocError>
    ensures { OnOk result (out.new.items
        ≡ out.old.items ++ line_of_trial json rerun slots) }
{
    if json {
        push_json_trial(out, rerun, slots)
    } else {
        push_would_rerun_text(out, rerun, slots)
    }
}

/// Pushes the line of a repair that is tried as text.
fn push_would_rerun_text(out: &mut Vec<u8>, rerun: u64, slots: u64) -> Result<(), AllocError>
    ensures { OnOk result (out.new.items ≡ out.old.items ++ would_rerun_text rerun slots) }
{
    push_labelled(out, b"would rerun ", rerun)?;
    push_labelled(out, b" of ", slots)?;
    out.extend_from_slice(b" slots\n")?;
    Ok(())
}

/// Pushes a line for each record whose call the repair under way would have answered differently.
fn push_would_change(
    alloc: Global,
    out: &mut Vec<u8>,
    db: &Db,
    records: &[Record],
    json: bool,
) -> Result<(), RunFault>
    requires { is_repairing (state_of db.now).phase ≡ true }
    ensures text { OnOk result (out.new.items ≡ out.old.items
        ++ would_change_lines json db.now records.now) }
    ensures err { IfErr result (λ e. e ≡ RunFault.Memory) }
{
    match changes_next(alloc, db, records) {
        Ok(changes) => {
            push_would_be_changes(out, db.catalog(), records, &changes, json)?;
            Ok(())
        }
        // A repair is under way, so there is no memory.
        Err(_) => Err(RunFault::Memory),
    }
}
