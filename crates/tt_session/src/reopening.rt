//! How a session that is open answers an opening.
ghost use Rattle.std.specs.Prelude.{◌≡◌, ◌≤◌, ◌++◌, Ok, OnOk, OnErr};
ghost use Rattle.std.specs.List.{list_all, zip};
ghost use Rattle.tt_values.specs.Same.{are_same_by};
ghost use Rattle.tt_values.specs.Tables.{is_int};
ghost use Rattle.tt_requests.specs.LineValue.{value_of_line};
ghost use Rattle.tt_requests.specs.Opening.{opening_of, max_records};
ghost use Rattle.tt_session.specs.declared.session.Session.TheVariants.{Open};
ghost use Rattle.tt_session.specs.Reopening.{is_same_column, is_same_table, asks_for};
ghost use Rattle.tt_session.specs.Run.{turn_by_reopening};

use crate::session::push_opening_answer;
use std::alloc::AllocError;
use tt_answers::{Answer, Refusal};
use tt_commands::{OpenSession, status_of};
use tt_db::Db;
use tt_grammar::DocFault;
use tt_requests::Opening;
use tt_values::{Catalog, Column, Kind, TableDef};

/// Answers a line that is an opening: adds the text of the answer, which is none of a call.
/// Where memory runs out, the session and the text are as before.
pub(crate) fn reopen(
    session: &mut OpenSession,
    out: &mut Vec<u8>,
    line: &[u8],
) -> Result<(), AllocError>
    ensures text { OnOk result (out.new.items ≡ out.old.items
        ++ (turn_by_reopening session.old (opening_of (value_of_line line.now))).text) }
    ensures session { OnOk result (Open session.new
        ≡ (turn_by_reopening session.old (opening_of (value_of_line line.now))).session) }
    ensures calls { session.new.calls ≡ session.old.calls }
    ensures text_stays { OnErr result (out.new.items ≡ out.old.items) }
    ensures session_stays { OnErr result (session.new ≡ session.old) }
{
    match Opening::from_line(session.alloc(), line) {
        Ok(opening) => answer_opening(session, out, &opening),
        Err(DocFault::Memory) => Err(AllocError),
        Err(fault) => {
            push_opening_answer(
                session.alloc(),
                out,
                session.numbering(),
                &Answer::Faulty(fault),
            )
        }
    }
}

/// Answers an opening: how the session stands, if the opening asks for what it has; else the
/// opening is refused.
fn answer_opening(
    session: &mut OpenSession,
    out: &mut Vec<u8>,
    opening: &Opening,
) -> Result<(), AllocError>
    requires { opening.now.records ≤ max_records }
    ensures text { OnOk result (out.new.items
        ≡ out.old.items ++ (turn_by_reopening session.old (Ok opening.now)).text) }
    ensures session { OnOk result
        (Open session.new ≡ (turn_by_reopening session.old (Ok opening.now)).session) }
    ensures calls { session.new.calls ≡ session.old.calls }
    ensures text_stays { OnErr result (out.new.items ≡ out.old.items) }
    ensures session_stays { OnErr result (session.new ≡ session.old) }
{
    if !asks_for(opening, session.db()) {
        let refusal = Answer::Refused(Refusal::AnotherOpening);
        return push_opening_answer(session.alloc(), out, session.numbering(), &refusal);
    }
    let status = status_of(session.db());
    push_opening_answer(
        session.alloc(),
        out,
        session.numbering(),
        &Answer::Standing(status),
    )?;
    session.take_opening(opening);
    Ok(())
}

/// Whether an opening asks for a database: for the same tables in the same order, and for as many
/// closed generations.
fn asks_for(opening: &Opening, db: &Db) -> bool
    ensures { result ≡ asks_for opening.now db.now }
{
    has_same_tables(opening.catalog.get(), db.catalog()) && opening.keep == db.limits().keep
}

/// Whether two catalogs have the same tables in the same order.
fn has_same_tables(first: &Catalog, second: &Catalog) -> bool
    ensures { result ≡ are_same_by is_same_table first.now second.now }
{
    if first.len() != second.len() {
        return false;
    }
    for table in 0..first.len() as u16 {
        let Some(name) = first.name(table) else {
            unreachable!()
        };
        let Some(def) = first.table(table) else {
            unreachable!()
        };
        let Some(other_name) = second.name(table) else {
            unreachable!()
        };
        let Some(other) = second.table(table) else {
            unreachable!()
        };
        if !is_same_table(name, def, other_name, other) {
            return false;
        }
    }
    true
}

/// Whether two tables have the same name and the same columns.
fn is_same_table(name: &str, def: &TableDef, other_name: &str, other: &TableDef) -> bool
    ensures { result ≡ is_same_table (name.now, def.now) (other_name.now, other.now) }
{
    if name != other_name {
        return false;
    }
    are_same_columns(def.columns.as_slice(), other.columns.as_slice())
}

/// Whether two lists have the same columns.
fn are_same_columns(first: &[Column], second: &[Column]) -> bool
    ensures { result ≡ are_same_by is_same_column first.now second.now }
{
    if first.len() != second.len() {
        return false;
    }
    are_same_pairwise(first, second)
}

fn are_same_pairwise(first: &[Column], second: &[Column]) -> bool
    ensures { result ≡ list_all (λ p. is_same_column p.0 p.1) (zip first.now second.now) }
{
    first
        .iter()
        .zip(second)
        .all(|(one, other)| is_same_column(one, other))
}

/// Whether two columns are the same.
fn is_same_column(one: &Column, other: &Column) -> bool
    ensures { result ≡ is_same_column one.now other.now }
{
    one.name == other.name
        && is_int(one.kind) == is_int(other.kind)
        && one.partition == other.partition
}

/// Whether a kind is that of integers.
fn is_int(kind: Kind) -> bool
    ensures { result ≡ is_int kind }
{
    match kind {
        Kind::Int => true,
        Kind::Text => false,
    }
}
