//! One page of the rows that a select or a preview has.
ghost use Rattle.std.specs.Prelude.{◌≡◌, Some, IfOk};
ghost use Rattle.tt_values.specs.Row.{key_of};
ghost use Rattle.tt_db.specs.Pages.{rows_after};
ghost use Rattle.tt_commands.specs.Pages.{page_after, page_of_reply};

use std::alloc::{AllocError, Global};
use tt_answers::RowPage;
use tt_db::FirstRows;
use tt_values::{Items, Reply, Row, Value};

/// The key of a row: 0 where its first value isn't an Int.
fn key_of(row: &Row) -> i64
    ensures { result ≡ key_of row.now }
{
    match row.values.as_slice() {
        [Value::Int(key), ..] => *key,
        _ => 0,
    }
}

/// Copies of the rows with greater keys than this one.
fn copies_after(alloc: Global, key: i64, rows: &[Row]) -> Result<Vec<Row>, AllocError>
    ensures { IfOk result (λ copies. copies.items ≡ rows_after (Some key) rows.now) }
{
    let mut copies = Vec::new(alloc);
    for row in rows {
        if key < key_of(row) {
            copies.push(row.copy()?)?;
        }
    }
    Ok(copies)
}

/// The rows with greater keys than this one. Where none is given, they are shared.
#[tactic(auto, using(crate::proofs::PageLemmas::all_pass))]
fn all_after(alloc: Global, key: Option<i64>, rows: &Items<Row>) -> Result<Items<Row>, AllocError>
    ensures { IfOk result (λ list. list ≡ rows_after key rows.now) }
{
    let Some(key) = key else {
        let shared = rows.clone()?;
        return Ok(shared);
    };
    let copies = copies_after(alloc, key, rows.as_slice())?;
    let rows = Items::new(alloc, copies)?;
    Ok(rows)
}

/// The page of all rows of a reply with greater keys than this one, if one is given.
pub(crate) fn page_after(
    alloc: Global,
    key: Option<i64>,
    reply: &Reply,
) -> Result<RowPage, AllocError>
    ensures { IfOk result (λ p. p ≡ page_of_reply (page_after key) reply.now) }
{
    let rows = match reply {
        Reply::Rows(rows) => all_after(alloc, key, rows)?,
        _ => Items::new(alloc, Vec::new(alloc))?,
    };
    Ok(RowPage { rows, more: None })
}

/// The first rows of a select or a preview, as a page.
pub(crate) fn first_page(first: FirstRows) -> RowPage
    ensures { result ≡ record { rows = first.rows; more = Some first.more } }
{
    RowPage {
        rows: first.rows,
        more: Some(first.more),
    }
}
