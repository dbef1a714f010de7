//! The report of a document: the lines of its calls, of its repair and of its tables.
ghost use Rattle.std.specs.Prelude.{◌≡◌, ◌+◌, ◌≤◌, ◌++◌, ◌∷◌, [], length, map, OnOk, IfOk, IfErr, None, Some};
ghost use Rattle.tt_values.specs.Check.{select_fault};
ghost use Rattle.tt_db.specs.Limits.{usual_limits};
ghost use Rattle.tt_db.specs.Database.{state_of, refusal_of};
ghost use Rattle.tt_document.specs.Document.{IsValidCall, IsValidPlan, IsValidDocument};
ghost use Rattle.tt_workload.specs.Records.{lines_of_records};
ghost use Rattle.tt_workload.specs.History.{edit_of_slot, after_begin, after_repair, records_meanwhile, records_if};
ghost use Rattle.tt_workload.specs.Room.{AreAccepted, IsBefore};
ghost use Rattle.tt_workload.specs.Report.{all_rows, table_text, line_of_table, table_line, table_lines, end_text, end_line, repair_lines, repair_lines_if, closed_lines_if, last_lines, report_of, database_after};

use crate::calls::make_calls;
use crate::closed::push_closed_if;
use crate::json_report::{push_json_end, push_json_table};
use crate::options::Options;
use crate::printing::push_reply;
use crate::repair::{Administrator, begin, edits_of_slots, make_meanwhile};
use crate::repair_end::finish;
use crate::run_fault::RunFault;
use std::alloc::{AllocError, Global};
use tt_db::{Db, Event, Limits};
use tt_document::{Document, Plan};
use tt_grammar::{push_decimal, push_labelled};
use tt_records::Record;
use tt_values::{Items, Reply, Select};

/// Pushes the line of a table.
fn push_table(
    alloc: Global,
    out: &mut Vec<u8>,
    db: &Db,
    table: u16,
    name: &str,
    json: bool,
) -> Result<(), RunFault>
    requires accepted { select_fault db.now.catalog (all_rows table) ≡ None }
    ensures text { OnOk result (out.new.items
        ≡ out.old.items ++ table_line json (state_of db.now) table name.now) }
    ensures err { IfErr result (λ e. e ≡ RunFault.Memory) }
{
    let all = Select {
        table,
        equals: Items::new(alloc, Vec::new(alloc))?,
    };
    let reply = match db.select(&all) {
        Ok(reply) => reply,
        Err(error) => return Err(RunFault::of_read(alloc, error)),
    };
    push_named(out, name, &reply, json)?;
    Ok(())
}

/// Pushes the name and the rows of a table, as JSON or as text.
fn push_named(out: &mut Vec<u8>, name: &str, reply: &Reply, json: bool) -> Result<(), AllocError>
    ensures { OnOk result (out.new.items
        ≡ out.old.items ++ line_of_table json name.now reply.now) }
{
    if json {
        push_json_table(out, name, reply)
    } else {
        push_table_text(out, name, reply)
    }
}

/// Pushes the name and the rows of a table as text.
pub(crate) fn push_table_text(
    out: &mut Vec<u8>,
    name: &str,
    reply: &Reply,
) -> Result<(), AllocError>
    ensures { OnOk result (out.new.items ≡ out.old.items ++ table_text name.now reply.now) }
{
    out.extend_from_slice(b"table ")?;
    out.extend_from_slice(name.as_bytes())?;
    out.push(b' ')?;
    push_reply(out, reply)?;
    out.push(b'\n')?;
    Ok(())
}

/// Pushes the lines of all tables.
fn push_tables(alloc: Global, out: &mut Vec<u8>, db: &Db, json: bool) -> Result<(), RunFault>
    ensures text { OnOk result (out.new.items
        ≡ out.old.items ++ table_lines json (state_of db.now) 0 db.now.catalog) }
    ensures err { IfErr result (λ e. e ≡ RunFault.Memory) }
{
    let catalog = db.catalog();
    for table in 0..catalog.len() as u16 {
        let Some(name) = catalog.name(table) else {
            unreachable!()
        };
        push_table(alloc, out, db, table, name, json)?;
    }
    Ok(())
}

/// Pushes the last line.
fn push_end(out: &mut Vec<u8>, db: &Db, json: bool) -> Result<(), AllocError>
    ensures { OnOk result (out.new.items ≡ out.old.items ++ end_line json (state_of db.now)) }
{
    let generation = db.generation();
    let time = db.now();
    if json {
        push_json_end(out, generation, time)
    } else {
        push_last(out, generation, time)
    }
}

fn push_last(out: &mut Vec<u8>, generation: u64, time: u64) -> Result<(), AllocError>
    ensures { OnOk result (out.new.items ≡ out.old.items ++ end_text generation time) }
{
    push_labelled(out, b"end generation ", generation)?;
    push_labelled(out, b" time ", time)?;
    out.push(b'\n')?;
    Ok(())
}

/// Pushes the lines of all tables, and the last line.
fn push_state(alloc: Global, out: &mut Vec<u8>, db: &Db, json: bool) -> Result<(), RunFault>
    ensures text { OnOk result (out.new.items ≡ out.old.items ++ last_lines json db.now) }
    ensures err { IfErr result (λ e. e ≡ RunFault.Memory) }
{
    push_tables(alloc, out, db, json)?;
    push_end(out, db, json)?;
    Ok(())
}

/// Carries out the repair of a document, and pushes the lines of the calls that are made meanwhile
/// and those of the repair. Returns the database after its end.
fn run_repair(
    alloc: Global,
    out: &mut Vec<u8>,
    records: Vec<Record>,
    db: Db,
    administrator: Administrator,
    plan: Plan,
    options: &Options,
) -> Result<Db, RunFault>
    requires begins { refusal_of db (Event.Begin (map (edit_of_slot records.items) plan.edits))
        ≡ None }
    requires before { IsBefore (length records.items) db }
    requires accepted { AreAccepted db.catalog plan.meanwhile }
    requires few { length records.items ≤ 100000 }
    requires few_meanwhile { length plan.meanwhile ≤ 100000 }
    ensures lines { OnOk result (out.new.items ≡ out.old.items
        ++ (lines_of_records options.now.json db.catalog
        (records_meanwhile administrator.worker administrator.batch
        (length records.items + 1) (after_begin administrator.worker records.items db plan)
        plan.meanwhile)
        ++ repair_lines options.now administrator.worker administrator.batch
        records.items db plan)) }
    ensures state { IfOk result (λ last. last ≡ after_repair options.now.dry
        administrator.worker administrator.batch records.items db plan) }
    ensures err { IfErr result (λ e. e ≡ RunFault.Memory) }
{
    let mut records = records;
    let Plan { edits, meanwhile } = plan;
    let calls = meanwhile.into_vec();
    let all = records.len() as u64 + calls.len() as u64;
    let edits = edits_of_slots(alloc, &records, edits.as_slice())?;
    let mut db = db;
    begin(&mut db, administrator.worker, edits)?;
    let json = options.json;
    make_meanwhile(
        alloc,
        out,
        &mut records,
        &mut db,
        administrator,
        calls,
        json,
    )?;
    let worker = administrator.worker;
    finish(alloc, out, &mut db, worker, all, &records, options)?;
    Ok(db)
}

/// Makes the calls of a document and its repair, and pushes their lines. Returns the last
/// database.
fn run_document(
    alloc: Global,
    out: &mut Vec<u8>,
    document: Document,
    options: &Options,
) -> Result<Db, RunFault>
    requires { IsValidDocument document }
    ensures lines { OnOk result (out.new.items ≡ out.old.items
        ++ (lines_of_records options.now.json document.catalog
        (records_if options.now.batch document document.repair)
        ++ repair_lines_if options.now document document.repair)) }
    ensures database { IfOk result (λ db. db ≡ database_after options.now document) }
    ensures err { IfErr result (λ e. e ≡ RunFault.Memory) }
{
    let Document {
        catalog,
        workers,
        calls,
        repair,
    } = document;
    let db = Db::new(alloc, catalog.into_arc(), Limits::usual());
    let mut records = Vec::new(alloc);
    let are_kept = repair.is_some();
    let calls = calls.into_vec();
    let db = make_calls(alloc, out, &mut records, are_kept, db, calls, options.json)?;
    match repair {
        Some(plan) => {
            let administrator = Administrator {
                worker: workers + 1,
                batch: options.batch,
            };
            run_repair(alloc, out, records, db, administrator, plan, options)
        }
        None => Ok(db),
    }
}

/// The report of a document, and the database that its calls leave.
pub(crate) fn report_of(
    alloc: Global,
    document: Document,
    options: &Options,
) -> Result<(Vec<u8>, Db), RunFault>
    requires { IsValidDocument document }
    ensures report { IfOk result (λ r. r.0.items ≡ report_of options.now document) }
    ensures database { IfOk result (λ r. r.1 ≡ database_after options.now document) }
    ensures err { IfErr result (λ e. e ≡ RunFault.Memory) }
{
    let mut out = Vec::new(alloc);
    let db = run_document(alloc, &mut out, document, options)?;
    push_end_of_run(alloc, &mut out, &db, options)?;
    Ok((out, db))
}

/// Pushes the lines of the closed generations if these are asked for, those of all tables, and the
/// last line.
pub fn push_end_of_run(
    alloc: Global,
    out: &mut Vec<u8>,
    db: &Db,
    options: &Options,
) -> Result<(), RunFault>
    ensures text { OnOk result (out.new.items ≡ out.old.items
        ++ (closed_lines_if options.now db.now ++ last_lines options.now.json db.now)) }
    ensures err { IfErr result (λ e. e ≡ RunFault.Memory) }
{
    push_closed_if(alloc, out, db, options)?;
    push_state(alloc, out, db, options.json)?;
    Ok(())
}
