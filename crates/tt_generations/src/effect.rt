//! The effect of a write on a side of its table, the rows it writes and matches, and its reply.
ghost use Rattle.std.specs.Prelude.{◌≡◌, ◌<◌, ◌^◌, ◌++◌, map, length, IsSome, IfOk, OnOk};
ghost use Rattle.tt_values.specs.Row.{first_int};
ghost use Rattle.tt_values.specs.Check.{HasKey};
ghost use Rattle.tt_values.specs.Content.{RowsByKey};
ghost use Rattle.tt_values.specs.Effect.{effect_on, reply_on};
ghost use Rattle.tt_versions.specs.Sides.{side_of, rows_behind};
ghost use Rattle.tt_generations.specs.Effect.{IsEffect, insert_effect, update_effect, delete_effect, rows_of_effect, matched_rows};

use std::alloc::{AllocError, Global};
use tt_values::{Change, Few, Reply, Row, RowId, Write, changed};
use tt_versions::{Side, Table};

/// The effect of a write on a side of its table at a time: keys with the rows that they get, or
/// with none where the row is deleted, by rising key.
pub(crate) fn effect_of(
    alloc: Global,
    table: &Table,
    write: &Write,
    time: u64,
    side: Side,
) -> Result<Few<(i64, Option<Row>)>, AllocError>
    requires { HasKey write.now }
    ensures { IfOk result (λ e. IsEffect e write.now (side_of table.now side) time) }
{
    match write {
        Write::Insert { row, .. } => {
            let live = table.at(row.key(), time, side);
            let effect = effect_of_insert(alloc, live.is_some(), row)?;
            Ok(effect)
        }
        Write::Update {
            changes,
            equals,
            ..
        } => {
            let rows = table.rows_matching(equals.as_slice(), time, side)?;
            let effect = effect_of_update(alloc, &rows, changes.as_slice())?;
            Ok(effect)
        }
        Write::Delete { equals, .. } => {
            let rows = table.rows_matching(equals.as_slice(), time, side)?;
            let effect = effect_of_delete(alloc, &rows)?;
            Ok(effect)
        }
    }
}

/// The effect of an insert, which has none where its key is live.
fn effect_of_insert(
    alloc: Global,
    is_live: bool,
    row: &Row,
) -> Result<Few<(i64, Option<Row>)>, AllocError>
    requires { IsSome (first_int row.now.values) }
    ensures { IfOk result (λ e. e ≡ insert_effect is_live row.now) }
{
    let mut effect = Few::new(alloc);
    if !is_live {
        effect.push((row.key(), Some(row.copy()?)))?;
    }
    Ok(effect)
}

/// The effect of an update on the rows that match: each of them, changed.
fn effect_of_update(
    alloc: Global,
    rows: &Vec<(i64, &Row)>,
    changes: &[Change],
) -> Result<Few<(i64, Option<Row>)>, AllocError>
    ensures { IfOk result (λ r. r
        ≡ update_effect changes.now (rows_behind rows.now.items)) }
{
    let mut effect = Few::new(alloc);
    effect.reserve(rows.len())?;
    for (key, old) in rows {
        effect.push((*key, Some(changed(alloc, old, changes)?)))?;
    }
    Ok(effect)
}

/// The effect of a delete on the rows that match: the key of each, without a row.
fn effect_of_delete(
    alloc: Global,
    rows: &Vec<(i64, &Row)>,
) -> Result<Few<(i64, Option<Row>)>, AllocError>
    ensures { IfOk result (λ r. r
        ≡ delete_effect (rows_behind rows.now.items)) }
{
    let mut effect = Few::new(alloc);
    effect.reserve(rows.len())?;
    for (key, _) in rows {
        effect.push((*key, None))?;
    }
    Ok(effect)
}

/// Adds the rows that an effect on a table writes.
pub(crate) fn add_rows(
    rows: &mut Few<RowId>,
    table: u16,
    effect: &[(i64, Option<Row>)],
) -> Result<(), AllocError>
    ensures { OnOk result (rows.new ≡ rows.old ++ rows_of_effect table effect.now) }
{
    // An action seldom has further writes, so no more room is taken than this one needs.
    rows.reserve(effect.len())?;
    for (key, _) in effect {
        rows.push(RowId { table, key: *key })?;
    }
    Ok(())
}

/// The rows that a write with that effect matches.
pub(crate) fn matched_rows(
    alloc: Global,
    write: &Write,
    effect: &[(i64, Option<Row>)],
) -> Result<Few<RowId>, AllocError>
    requires { HasKey write.now }
    ensures { IfOk result (λ rows. rows ≡ matched_rows write.now effect.now) }
{
    let mut rows = Few::new(alloc);
    match write {
        Write::Insert { table, row } => rows.push(RowId {
            table: *table,
            key: row.key(),
        })?,
        Write::Update { table, .. } | Write::Delete { table, .. } => {
            add_rows(&mut rows, *table, effect)?;
        }
    }
    Ok(rows)
}

/// Copies of the rows, in their order.
pub(crate) fn copies_of(alloc: Global, rows: &Vec<(i64, &Row)>) -> Result<Vec<Row>, AllocError>
    ensures { IfOk result (λ r. r.items ≡ map (λ e. e.1) (rows_behind rows.now.items)) }
{
    let mut copies = Vec::with_capacity(alloc, rows.len())?;
    for (_, row) in rows {
        copies.push(row.copy()?)?;
    }
    Ok(copies)
}

/// The reply to a write with that effect.
pub(crate) fn reply_to(write: &Write, effect: &[(i64, Option<Row>)]) -> Reply
    requires { length effect.now < 2 ^ 32 }
    ensures { (rows : RowsByKey) → effect.now ≡ effect_on write.now rows
        → result ≡ reply_on write.now rows }
{
    match write {
        Write::Insert { .. } => {
            if effect.is_empty() {
                Reply::Duplicate
            } else {
                Reply::Inserted
            }
        }
        Write::Update { .. } => Reply::Updated(effect.len() as u32),
        Write::Delete { .. } => Reply::Deleted(effect.len() as u32),
    }
}
