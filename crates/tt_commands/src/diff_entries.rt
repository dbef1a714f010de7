//! Which rows differ between the generations of a repair.
ghost use Rattle.std.specs.Prelude.{◌≡◌, ◌-◌, ◌++◌, map, option_map, IfOk, OnOk};
ghost use Rattle.tt_versions.specs.Pages.{is_after};
ghost use Rattle.tt_generations.specs.RowChanges.{change_told, changes_after};
ghost use Rattle.tt_commands.specs.Answers.{Becomes};
ghost use Rattle.tt_commands.specs.CauseEntries.{first_entries, more_follow};
ghost use Rattle.tt_commands.specs.DiffEntries.{entry_in, entries_behind, differences_answer, diff};
ghost use Rattle.tt_commands.specs.DiffPages.{first_table, low_key, entries_after};

use crate::asked_repair::AskedRepair;
use crate::failure::Failure;
use crate::open_session::OpenSession;
use crate::response::Response;
use std::alloc::{AllocError, Global};
use tt_answers::{Answer, DiffEntry};
use tt_db::{Db, RowChange};
use tt_requests::{DiffPage, ToldGeneration};
use tt_values::{Items, Row, RowId};

/// The rows that differ of a page.
#[derive(Drop)]
pub(crate) struct FirstDifferences {
    pub(crate) entries: Vec<DiffEntry>,
    /// Whether more follow.
    pub(crate) more: bool,
}

/// A copy of a row, if there is one.
fn copy_of(row: &Option<Row>) -> Result<Option<Row>, AllocError>
    ensures { IfOk result (λ copy. copy ≡ row.now) }
{
    match row {
        Some(row) => Ok(Some(row.copy()?)),
        None => Ok(None),
    }
}

/// A row of a table that differs, which shares what it holds.
fn entry_in(table: u16, change: &RowChange) -> Result<DiffEntry, AllocError>
    ensures { IfOk result (λ entry. entry ≡ entry_in table (change_told change.now)) }
{
    let before = copy_of(&change.before)?;
    let after = copy_of(&change.after)?;
    let change = RowChange {
        key: change.key,
        before,
        after,
    };
    Ok(DiffEntry { table, change })
}

/// Whether a key is greater than this one, if one is given.
fn is_after(low: Option<i64>, key: i64) -> bool
    ensures { result ≡ is_after low key }
{
    match low {
        Some(low) => low < key,
        None => true,
    }
}

/// Pushes those of the rows of a table that have greater keys than this one, if one is given.
fn push_changes(
    entries: &mut Vec<DiffEntry>,
    table: u16,
    low: Option<i64>,
    changes: &[RowChange],
) -> Result<(), AllocError>
    ensures { OnOk result (entries.new.items ≡ entries.old.items
        ++ map (entry_in table) (changes_after low (map change_told changes.now))) }
{
    for change in changes {
        if is_after(low, change.key) {
            entries.push(entry_in(table, change)?)?;
        }
    }
    Ok(())
}

/// Pushes the rows of a table that differ and have greater keys than this one, if one is given: the
/// first ones, at most this many, where that is given. Returns whether more follow in the table.
fn push_table(
    entries: &mut Vec<DiffEntry>,
    db: &Db,
    repair: AskedRepair,
    table: u16,
    low: Option<i64>,
    most: Option<u32>,
) -> Result<bool, AllocError>
    ensures entries { OnOk result (entries.new.items ≡ entries.old.items
        ++ first_entries most (entries_after db.now repair table low)) }
    ensures more { IfOk result (λ more. more
        ≡ more_follow most (entries_after db.now repair table low)) }
{
    let Some(most) = most else {
        let changes = repair.diff(db, table)?;
        push_changes(entries, table, low, changes.as_slice())?;
        return Ok(false);
    };
    let page = repair.diff_page(db, table, low, most)?;
    push_changes(entries, table, None, page.changes.as_slice())?;
    Ok(page.more)
}

/// How many entries are still asked for, where so many are asked for in all.
fn left_of(most: Option<u32>, count: usize) -> Option<u32>
    ensures { result ≡ option_map (λ most. most - count) most }
{
    match most {
        Some(most) => Some((most as usize).saturating_sub(count) as u32),
        None => None,
    }
}

/// The first table with rows behind this one, if one is given.
fn first_table(after: Option<RowId>) -> u16
    ensures { result ≡ first_table after }
{
    match after {
        Some(row) => row.table,
        None => 0,
    }
}

/// The key behind which the rows of a table are behind this one, if one is given.
fn low_key(after: Option<RowId>, table: u16) -> Option<i64>
    ensures { result ≡ low_key after table }
{
    match after {
        Some(row) if row.table == table => Some(row.key),
        _ => None,
    }
}

/// The rows that differ, of a page: the first ones, at most as many as are asked for. Takes memory
/// for them alone.
pub(crate) fn first_differences(
    alloc: Global,
    db: &Db,
    repair: AskedRepair,
    page: DiffPage,
) -> Result<FirstDifferences, AllocError>
    ensures entries { IfOk result (λ first. first.entries.items
        ≡ first_entries page.most (entries_behind db.now repair page.after)) }
    ensures more { IfOk result (λ first. first.more
        ≡ more_follow page.most (entries_behind db.now repair page.after)) }
{
    let mut entries = Vec::new(alloc);
    let tables = db.catalog().len() as u16;
    for table in first_table(page.after)..tables {
        let low = low_key(page.after, table);
        let left = left_of(page.most, entries.len());
        if push_table(&mut entries, db, repair, table, low, left)? {
            return Ok(FirstDifferences {
                entries,
                more: true,
            });
        }
    }
    Ok(FirstDifferences {
        entries,
        more: false,
    })
}

/// How many slots a repair has done, and the page that is asked for of the rows that differ.
fn differences_answer(
    session: &OpenSession,
    page: DiffPage,
    repair: AskedRepair,
) -> Result<Answer, AllocError>
    ensures { IfOk result (λ answer. answer ≡ differences_answer session.now page repair) }
{
    let alloc = session.alloc();
    let db = session.db();
    let FirstDifferences { entries, more } = first_differences(alloc, db, repair, page)?;
    let diff = Items::new(alloc, entries)?;
    Ok(Answer::Differences {
        done: repair.done(db),
        diff,
        more: page.most.is_some().then_some(more),
    })
}

/// Which rows differ between the generations of the repair under way, or of the one that closed a
/// generation, if one is told.
pub(crate) fn diff(
    session: &OpenSession,
    generation: Option<ToldGeneration>,
    page: DiffPage,
) -> Result<Response, Failure>
    ensures { Becomes session.now result (diff session.now generation page) }
{
    match AskedRepair::of(session, generation) {
        Ok(repair) => {
            let answer = differences_answer(session, page, repair)?;
            Ok(Response::unrecorded(answer))
        }
        Err(refusal) => Err(Failure::Refused(refusal)),
    }
}
