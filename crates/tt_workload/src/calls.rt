//! Calls that are made one after another: their answers, their lines and their records.
ghost use Rattle.std.specs.Prelude.{◌≡◌, ◌++◌, ◌∷◌, ◌≤◌, [], length, OnOk, IfOk, IfErr, None, Some};
ghost use Rattle.tt_values.specs.Check.{action_fault, select_fault};
ghost use Rattle.tt_generations.specs.TwoGenerations.{done_of};
ghost use Rattle.tt_db.specs.Limits.{usual_limits};
ghost use Rattle.tt_db.specs.Database.{state_of, with_entry, refusal_of, outcome_for};
ghost use Rattle.tt_document.specs.Document.{ask_fault};
ghost use Rattle.tt_workload.specs.Records.{read_in, preview_in, answer_in, record_in, kept, line_of_record, lines_of_records};
ghost use Rattle.tt_workload.specs.History.{with_entries, entries_of_ask, entries_of, history_of, records_of};
ghost use Rattle.tt_workload.specs.Room.{HasRoom, AreAccepted, IsBefore};

use crate::record_text::push_record;
use crate::run_fault::RunFault;
use std::alloc::{AllocError, Global};
use tt_db::{Db, Entry, Event, Outcome, ReadError, WriteOutcome};
use tt_document::{Ask, Call};
use tt_records::{Record, What};
use tt_values::{Action, Select};

/// Carries out an event that isn't refused, and returns its outcome.
pub(crate) fn carry_out(db: &mut Db, entry: Entry) -> Result<Outcome, RunFault>
    requires { refusal_of db.old entry.event ≡ None }
    ensures state { OnOk result (db.new ≡ with_entry db.old entry) }
    ensures outcome { IfOk result (λ outcome. outcome ≡ outcome_for db.old entry.event) }
    ensures err { IfErr result (λ e. e ≡ RunFault.Memory) }
{
    match db.advance(entry) {
        Ok(outcome) => Ok(outcome),
        // It isn't refused, so there is no memory.
        Err(_) => Err(RunFault::Memory),
    }
}

/// Carries out an action that isn't refused, and returns its outcome.
fn write(db: &mut Db, worker: u32, action: Action) -> Result<WriteOutcome, RunFault>
    requires { refusal_of db.old (Event.Write action) ≡ None }
    ensures state { OnOk result (db.new
        ≡ with_entry db.old (record { worker = worker; event = Event.Write action })) }
    ensures outcome { IfOk result (λ outcome. Outcome.Written outcome.slot outcome.replies
        ≡ outcome_for db.old (Event.Write action)) }
    ensures err { IfErr result (λ e. e ≡ RunFault.Memory) }
{
    match db.write(worker, action) {
        Ok(outcome) => Ok(outcome),
        // It isn't refused, so there is no memory.
        Err(_) => Err(RunFault::Memory),
    }
}

/// Carries out an action. Returns the slot with the replies.
fn make_action(db: &mut Db, worker: u32, action: Action) -> Result<What, RunFault>
    requires accepted { action_fault db.old.catalog action.writes ≡ None }
    requires room { HasRoom db.old }
    ensures state { OnOk result
        (db.new ≡ with_entries db.old (entries_of_ask worker (Ask.Write action))) }
    ensures answer { IfOk result (λ what.
        what ≡ answer_in (state_of db.old) (Ask.Write action)) }
    ensures err { IfErr result (λ e. e ≡ RunFault.Memory) }
{
    let WriteOutcome { slot, replies } = write(db, worker, action)?;
    Ok(What::Write { slot, replies })
}

/// Reads what a select asks for: at a time, or now where none is given.
fn read(alloc: Global, db: &Db, select: Select, at: Option<u64>) -> Result<What, RunFault>
    requires accepted { select_fault db.now.catalog select ≡ None }
    ensures answer { IfOk result (λ what. what ≡ read_in (state_of db.now) select at) }
    ensures err { IfErr result (λ e. e ≡ RunFault.Memory) }
{
    match at {
        None => read_now(alloc, db, select),
        Some(time) => read_at(alloc, db, select, time),
    }
}

/// Reads rows as they are now.
fn read_now(alloc: Global, db: &Db, select: Select) -> Result<What, RunFault>
    requires accepted { select_fault db.now.catalog select ≡ None }
    ensures answer { IfOk result (λ what. what ≡ read_in (state_of db.now) select None) }
    ensures err { IfErr result (λ e. e ≡ RunFault.Memory) }
{
    match db.select(&select) {
        Ok(reply) => Ok(What::Read {
            select,
            time: db.now(),
            reply,
        }),
        Err(error) => Err(RunFault::of_read(alloc, error)),
    }
}

/// Reads rows as they were at a time, which may still be to come.
fn read_at(alloc: Global, db: &Db, select: Select, time: u64) -> Result<What, RunFault>
    requires accepted { select_fault db.now.catalog select ≡ None }
    ensures answer { IfOk result (λ what. what ≡ read_in (state_of db.now) select (Some time)) }
    ensures err { IfErr result (λ e. e ≡ RunFault.Memory) }
{
    match db.select_at(&select, time) {
        Ok(reply) => Ok(What::Read {
            select,
            time,
            reply,
        }),
        Err(error) => match error {
            ReadError::Later { now } => Ok(What::Later { now }),
            error => Err(RunFault::of_read(alloc, error)),
        },
    }
}

/// Reads rows as they are in the next generation, which may not be there.
fn preview(alloc: Global, db: &Db, select: &Select) -> Result<What, RunFault>
    requires accepted { select_fault db.now.catalog select.now ≡ None }
    ensures answer { IfOk result (λ what. what ≡ preview_in (state_of db.now) select.now) }
    ensures err { IfErr result (λ e. e ≡ RunFault.Memory) }
{
    match db.preview(select) {
        Ok(reply) => Ok(What::Preview {
            done: slots_done(db),
            reply,
        }),
        Err(error) => match error {
            ReadError::NotRepairing => Ok(What::NotRepairing),
            error => Err(RunFault::of_read(alloc, error)),
        },
    }
}

/// How many slots the repair has done: 0 where none is under way.
fn slots_done(db: &Db) -> u64
    ensures { result ≡ done_of (state_of db.now).phase }
{
    match db.repair() {
        Some(progress) => progress.done,
        None => 0,
    }
}

/// Carries out what a call asks for, and returns its answer.
fn answer(alloc: Global, db: &mut Db, worker: u32, ask: Ask) -> Result<What, RunFault>
    requires accepted { ask_fault db.old.catalog ask ≡ None }
    requires room { HasRoom db.old }
    ensures state { OnOk result (db.new ≡ with_entries db.old (entries_of_ask worker ask)) }
    ensures answer { IfOk result (λ what. what ≡ answer_in (state_of db.old) ask) }
    ensures err { IfErr result (λ e. e ≡ RunFault.Memory) }
{
    match ask {
        Ask::Write(action) => make_action(db, worker, action),
        Ask::Read { select, at } => read(alloc, db, select, at),
        Ask::Preview(select) => preview(alloc, db, &select),
    }
}

/// Makes a call, pushes its line, and returns its record.
pub(crate) fn make_call(
    alloc: Global,
    out: &mut Vec<u8>,
    db: &mut Db,
    number: u64,
    call: Call,
    json: bool,
) -> Result<Record, RunFault>
    requires accepted { ask_fault db.old.catalog call.ask ≡ None }
    requires room { HasRoom db.old }
    ensures line { OnOk result (out.new.items ≡ out.old.items
        ++ line_of_record json db.old.catalog (record_in number (state_of db.old) call)) }
    ensures state { OnOk result (db.new ≡ with_entries db.old (entries_of call)) }
    ensures answer { IfOk result (λ made. made ≡ record_in number (state_of db.old) call) }
    ensures err { IfErr result (λ e. e ≡ RunFault.Memory) }
{
    let Call { worker, ask } = call;
    let record = Record {
        call: number,
        worker,
        what: answer(alloc, db, worker, ask)?,
    };
    push_record(alloc, out, db.catalog(), &record, json)?;
    Ok(record)
}

/// Keeps a record, if records are kept.
fn keep(records: &mut Vec<Record>, are_kept: bool, latest: Record) -> Result<(), AllocError>
    ensures { OnOk result (records.new.items
        ≡ records.old.items ++ kept are_kept (latest ∷ [])) }
{
    if are_kept {
        records.push(latest)?;
    }
    Ok(())
}

/// Makes the calls of a document, in order, pushes their lines, and keeps their records if these
/// are wanted. Returns the last database.
pub(crate) fn make_calls(
    alloc: Global,
    out: &mut Vec<u8>,
    records: &mut Vec<Record>,
    are_kept: bool,
    db: Db,
    calls: Vec<Call>,
    json: bool,
) -> Result<Db, RunFault>
    requires empty { db.history ≡ [] }
    requires limits { db.limits ≡ usual_limits }
    requires accepted { AreAccepted db.catalog calls.items }
    requires few { length calls.items ≤ 100000 }
    ensures lines { OnOk result (out.new.items ≡ out.old.items
        ++ lines_of_records json db.catalog (records_of 1 db calls.items)) }
    ensures records { OnOk result (records.new.items
        ≡ records.old.items ++ kept are_kept (records_of 1 db calls.items)) }
    ensures state { IfOk result (λ last.
        last ≡ with_entries db (history_of calls.items)) }
    ensures room { IfOk result (IsBefore (length calls.items)) }
    ensures err { IfErr result (λ e. e ≡ RunFault.Memory) }
{
    let mut db = db;
    let mut number: u64 = 0;
    for call in calls {
        number += 1;
        let record = make_call(alloc, out, &mut db, number, call, json)?;
        keep(records, are_kept, record)?;
    }
    Ok(db)
}
