//! The text of a report, which may be lines of JSON.
ghost use Rattle.std.specs.Prelude.{◌≡◌, ◌++◌, OnOk, IfOk, IfErr};
ghost use Rattle.tt_workers.specs.Report.{told_repair, repair_lines_if, diff_of_repair_if, text_of_report};

use crate::report::Report;
use std::alloc::{AllocError, Global};
use tt_db::Db;
use tt_repair::Repaired;
use tt_workload::{
    Options, RunFault, ToldRepair, push_changes, push_diff_if, push_end_of_run, push_records,
    push_redone_if, push_repair,
};

/// All lines of a report: one for each call, those of the repair, with its causes if these are
/// asked for, one for each changed reply and for each row that differs by the repair if these are,
/// those of the closed generations that are kept if these are, those of all tables, and the last
/// line.
pub fn text_of_report(
    alloc: Global,
    report: &Report,
    options: &Options,
) -> Result<Vec<u8>, RunFault>
    ensures text { IfOk result (λ text. text.items ≡ text_of_report options.now report.now) }
    ensures fault { IfErr result (λ e. e ≡ RunFault.Memory) }
{
    let mut out = Vec::new(alloc);
    let db = report.db.get();
    let catalog = db.catalog();
    let records = &report.records;
    push_records(alloc, &mut out, catalog, records, options.json)?;
    push_repair_if(&mut out, db, report.repaired, options)?;
    push_changes(&mut out, catalog, records, &report.changes, options.json)?;
    push_diff_of_repair_if(alloc, &mut out, db, report.repaired, options)?;
    push_end_of_run(alloc, &mut out, db, options)?;
    Ok(out)
}

/// Pushes the line of a repair, if there was one, and one for each slot that it re-executed, if
/// these are asked for.
fn push_repair_if(
    out: &mut Vec<u8>,
    db: &Db,
    repaired: Option<Repaired>,
    options: &Options,
) -> Result<(), AllocError>
    ensures { OnOk result (out.new.items
        ≡ out.old.items ++ repair_lines_if options.now db.now repaired) }
{
    if let Some(repaired) = repaired {
        push_repair(
            out,
            repaired.generation,
            repaired.slots,
            repaired.rerun,
            options.json,
        )?;
        push_redone_if(out, db, told_repair(repaired), options)?;
    }
    Ok(())
}

/// Pushes a line for each row that differs by a repair, if there was one, and these are asked for.
fn push_diff_of_repair_if(
    alloc: Global,
    out: &mut Vec<u8>,
    db: &Db,
    repaired: Option<Repaired>,
    options: &Options,
) -> Result<(), AllocError>
    ensures { OnOk result (out.new.items
        ≡ out.old.items ++ diff_of_repair_if options.now db.now repaired) }
{
    if let Some(repaired) = repaired {
        push_diff_if(alloc, out, db, told_repair(repaired), options)?;
    }
    Ok(())
}

/// A repair that has switched, as lines tell of it: it closed the generation before its own.
fn told_repair(repaired: Repaired) -> ToldRepair
    ensures { result ≡ told_repair repaired }
{
    ToldRepair::ThatClosed(repaired.generation.saturating_sub(1))
}
