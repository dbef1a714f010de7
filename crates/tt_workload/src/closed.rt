//! The lines of closed generations.
ghost use Rattle.std.specs.Prelude.{◌≡◌, ◌++◌, OnOk, IfOk, IfErr, IsSome, None, Some, length};
ghost use Rattle.std.specs.Option.{option_map};
ghost use Rattle.tt_values.specs.Check.{select_fault};
ghost use Rattle.tt_values.specs.Effect.{answer_of};
ghost use Rattle.tt_values.specs.RowWrites.{content_of};
ghost use Rattle.tt_db.specs.State.{slots_in};
ghost use Rattle.tt_db.specs.Database.{state_of};
ghost use Rattle.tt_workload.specs.Report.{all_rows, slots_or_none, closed_text, line_of_closed, closed_table_line, closed_table_lines, closed_lines, closed_lines_if};

use crate::json_report::push_json_closed;
use crate::options::Options;
use crate::report::push_table_text;
use crate::run_fault::RunFault;
use std::alloc::{AllocError, Global};
use tt_db::Db;
use tt_db::laws::last_generations_are_kept;
use tt_grammar::push_labelled;
use tt_values::{Items, Reply, Select};

/// Pushes the lines of the closed generations that are kept, if these are asked for.
pub(crate) fn push_closed_if(
    alloc: Global,
    out: &mut Vec<u8>,
    db: &Db,
    options: &Options,
) -> Result<(), RunFault>
    ensures text { OnOk result (out.new.items
        ≡ out.old.items ++ closed_lines_if options.now db.now) }
    ensures err { IfErr result (λ e. e ≡ RunFault.Memory) }
{
    if options.closed {
        push_closed(alloc, out, db, options.json)?;
    }
    Ok(())
}

/// Pushes the lines of the closed generations that are kept, the oldest first.
fn push_closed(alloc: Global, out: &mut Vec<u8>, db: &Db, json: bool) -> Result<(), RunFault>
    ensures text { OnOk result (out.new.items
        ≡ out.old.items ++ closed_lines json db.now.catalog (state_of db.now).closed) }
    ensures err { IfErr result (λ e. e ≡ RunFault.Memory) }
{
    last_generations_are_kept();
    for generation in db.oldest()..db.generation() {
        push_generation(alloc, out, db, generation, json)?;
    }
    Ok(())
}

/// Pushes the lines of the tables of a generation that can be read.
fn push_generation(
    alloc: Global,
    out: &mut Vec<u8>,
    db: &Db,
    generation: u64,
    json: bool,
) -> Result<(), RunFault>
    requires kept { IsSome (slots_in (state_of db.now) generation) }
    ensures text { OnOk result (out.new.items ≡ out.old.items
        ++ closed_table_lines json generation
        (slots_or_none (slots_in (state_of db.now) generation)) 0 db.now.catalog) }
    ensures err { IfErr result (λ e. e ≡ RunFault.Memory) }
{
    let catalog = db.catalog();
    for table in 0..catalog.len() as u16 {
        let Some(name) = catalog.name(table) else {
            unreachable!()
        };
        push_closed_table(alloc, out, db, generation, table, name, json)?;
    }
    Ok(())
}

/// Pushes the line of a table of a generation that can be read.
fn push_closed_table(
    alloc: Global,
    out: &mut Vec<u8>,
    db: &Db,
    generation: u64,
    table: u16,
    name: &str,
    json: bool,
) -> Result<(), RunFault>
    requires kept { IsSome (slots_in (state_of db.now) generation) }
    requires accepted { select_fault db.now.catalog (all_rows table) ≡ None }
    ensures text { OnOk result (out.new.items ≡ out.old.items
        ++ closed_table_line json generation
        (slots_or_none (slots_in (state_of db.now) generation)) table name.now) }
    ensures err { IfErr result (λ e. e ≡ RunFault.Memory) }
{
    let Some(time) = db.last_time(generation) else {
        unreachable!()
    };
    let rows = last_rows(alloc, db, generation, time, table)?;
    push_closed_line(out, generation, time, name, &rows, json)?;
    Ok(())
}

/// All rows of a table at the last time of a generation that can be read.
fn last_rows(
    alloc: Global,
    db: &Db,
    generation: u64,
    time: u64,
    table: u16,
) -> Result<Reply, RunFault>
    requires last { option_map length (slots_in (state_of db.now) generation) ≡ Some time }
    requires accepted { select_fault db.now.catalog (all_rows table) ≡ None }
    ensures rows { IfOk result (λ rows. rows ≡ answer_of (all_rows table)
        (content_of (slots_or_none (slots_in (state_of db.now) generation)) time)) }
    ensures err { IfErr result (λ e. e ≡ RunFault.Memory) }
{
    let all = Select {
        table,
        equals: Items::new(alloc, Vec::new(alloc))?,
    };
    match db.select_in(generation, &all, time) {
        Ok(rows) => Ok(rows),
        Err(error) => Err(RunFault::of_read(alloc, error)),
    }
}

/// Pushes the line of a table of a closed generation.
fn push_closed_line(
    out: &mut Vec<u8>,
    generation: u64,
    time: u64,
    name: &str,
    rows: &Reply,
    json: bool,
) -> Result<(), AllocError>
    ensures { OnOk result (out.new.items
        ≡ out.old.items ++ line_of_closed json generation time name.now rows.now) }
{
    if json {
        push_json_closed(out, generation, time, name, rows)
    } else {
        push_closed_text(out, generation, time, name, rows)
    }
}

/// Pushes the line of a table of a closed generation as text.
fn push_closed_text(
    out: &mut Vec<u8>,
    generation: u64,
    time: u64,
    name: &str,
    rows: &Reply,
) -> Result<(), AllocError>
    ensures { OnOk result (out.new.items
        ≡ out.old.items ++ closed_text generation time name.now rows.now) }
{
    push_labelled(out, b"closed generation ", generation)?;
    push_labelled(out, b" time ", time)?;
    out.push(b' ')?;
    push_table_text(out, name, rows)?;
    Ok(())
}
