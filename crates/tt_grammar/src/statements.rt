//! Reading of statements.
ghost use Rattle.std.specs.Prelude.{◌≡◌, [], ◌∷◌, ◌++◌, codes, false, map, option_map};
ghost use Rattle.tt_values.specs.Check.{write_fault, select_fault};
ghost use Rattle.tt_grammar.specs.Fault.{Gives};
ghost use Rattle.std.specs.Option.{option_copied};
ghost use Rattle.std.specs.Str.{bytes_eq};
ghost use Rattle.serde_json.specs.Find.{get};
ghost use Rattle.tt_grammar.specs.Decoder.{read_member};
ghost use Rattle.tt_grammar.specs.Members.{is_one_of, refuse_member};
ghost use Rattle.tt_grammar.specs.Arrays.{array_of};
ghost use Rattle.tt_grammar.specs.Conditions.{condition};
ghost use Rattle.tt_grammar.specs.Statements.{checked_statement, members_at, conditions, stamp, no_members_at, no_members_but_at, insert, update, delete};

use crate::arrays::ArrayDecoder;
use crate::causes::cause_of_check;
use crate::changes::ChangeDecoder;
use crate::conditions::{ConditionDecoder, TableNameDecoder, ValueDecoder};
use crate::decoder::{AnyCountDecoder, found_member, member, optional};
use crate::fault::DocFault;
use crate::members::{no_members_but, no_unknown_member};
use crate::version::Version;
use std::alloc::Global;
use tt_json::{Found, JsonValue};
use tt_values::{Catalog, Equal, Items, Row, Select, Write, check, check_select};

/// Where a write or an action stands: in a call, which has a worker; in a request of a session,
/// which may have a worker and a time that it expects, and a stamp if it writes; or nested in an
/// action or an edit, which have none of these.
#[derive(Clone, Copy)]
pub enum Context {
    Call,
    Request,
    WriteRequest,
    Nested,
}

/// The stamp of a request that writes, which may be left out.
pub fn stamp<V: JsonValue>(alloc: Global, value: &V) -> Result<Option<u64>, DocFault>
    ensures { Gives result (stamp (V.json value.now)) }
{
    optional(alloc, value, "stamp", &AnyCountDecoder)
}

/// The insert of an object.
#[tactic(auto, unfolding(crate::specs::Statements::insert))]
pub fn insert<V: JsonValue>(
    alloc: Global,
    catalog: &Catalog,
    context: Context,
    value: &V,
) -> Result<Write, DocFault>
    ensures { Gives result (insert catalog.now context (V.json value.now)) }
{
    let found = find_in(context, value, "insert", "row");
    let table = found_member(alloc, found.first, "insert", &TableNameDecoder { catalog })?;
    let decoder = ArrayDecoder {
        decoder: ValueDecoder,
    };
    let values = found_member(alloc, found.second, "row", &decoder)?;
    no_other_member(alloc, context, value, "insert", "row", found.unknown)?;
    let row = Row { values };
    checked_write(alloc, catalog, Write::Insert { table, row })
}

/// The update of an object.
#[tactic(auto, unfolding(crate::specs::Statements::update))]
pub fn update<V: JsonValue>(
    alloc: Global,
    version: Version,
    catalog: &Catalog,
    context: Context,
    value: &V,
) -> Result<Write, DocFault>
    ensures { Gives result (update version catalog.now context (V.json value.now)) }
{
    let found = find_in_update(context, value);
    let table = found_member(alloc, found.first, "update", &TableNameDecoder { catalog })?;
    let decoder = ArrayDecoder {
        decoder: ChangeDecoder { catalog, table },
    };
    let changes = member(alloc, value, "change", &decoder)?;
    let equals = found_conditions(alloc, version, catalog, table, found.second)?;
    no_other_in_update(alloc, context, value, found.unknown)?;
    let write = Write::Update {
        table,
        changes,
        equals,
    };
    checked_write(alloc, catalog, write)
}

/// The delete of an object.
#[tactic(auto, unfolding(crate::specs::Statements::delete))]
pub fn delete<V: JsonValue>(
    alloc: Global,
    version: Version,
    catalog: &Catalog,
    context: Context,
    value: &V,
) -> Result<Write, DocFault>
    ensures { Gives result (delete version catalog.now context (V.json value.now)) }
{
    let found = find_in(context, value, "delete", "where");
    let table = found_member(alloc, found.first, "delete", &TableNameDecoder { catalog })?;
    let equals = found_conditions(alloc, version, catalog, table, found.second)?;
    no_other_member(alloc, context, value, "delete", "where", found.unknown)?;
    checked_write(alloc, catalog, Write::Delete { table, equals })
}

/// The two members of an insert or a delete, and the least name of another member that it may not
/// have in its context, a stamp aside.
#[inline(always)]
#[tactic(auto, using(crate::proofs::StatementLemmas::unknown_in))]
fn find_in<'v, V: JsonValue>(
    context: Context,
    value: &'v V,
    first: &str,
    second: &str,
) -> Found<'v, V>
    requires { bytes_eq first.now second.now ≡ false }
    ensures first { option_map V.json result.first ≡ get first.now (V.json value.now) }
    ensures second { option_map V.json result.second ≡ get second.now (V.json value.now) }
    ensures unknown { refuse_member (option_copied result.unknown)
        ≡ no_members_but_at context (first.now ∷ second.now ∷ []) (V.json value.now) }
{
    value.find_two(first, second, members_at(context))
}

/// Refuses an insert or a delete for its stamp, or else for its least unknown member, where its
/// context has it so. The least member that isn't known beside a stamp has been looked for.
#[tactic(auto, using(crate::proofs::StatementLemmas::without_stamp, crate::proofs::StatementLemmas::in_nested))]
fn no_other_member<V: JsonValue>(
    alloc: Global,
    context: Context,
    value: &V,
    first: &str,
    second: &str,
    unknown: Option<&str>,
) -> Result<(), DocFault>
    requires no_stamp { is_one_of (first.now ∷ second.now ∷ []) (codes "stamp") ≡ false }
    requires unknown { refuse_member (option_copied unknown)
        ≡ no_members_but_at context (first.now ∷ second.now ∷ []) (V.json value.now) }
    ensures { Gives result
        (no_members_at context (first.now ∷ second.now ∷ []) (V.json value.now)) }
{
    match (context, unknown) {
        (Context::Call, unknown) => no_unknown_member(alloc, unknown),
        (Context::Request, unknown) => no_unknown_member(alloc, unknown),
        (Context::Nested, unknown) => no_unknown_member(alloc, unknown),
        (Context::WriteRequest, None) => Ok(()),
        (Context::WriteRequest, Some(_)) => {
            let _ = stamp(alloc, value)?;
            no_members_but(alloc, value, &["if", "worker", "stamp", first, second])
        }
    }
}

/// The members that an object of a write may have beside those of the write and its stamp.
fn members_at(context: Context) -> &'static [&'static str]
    ensures { map (λ name. name.now) result.now ≡ members_at context }
{
    match context {
        Context::Call => &["worker"],
        Context::Request | Context::WriteRequest => &["if", "worker"],
        Context::Nested => &[],
    }
}

/// The members `update` and `where` of an update, and the least name of another member that it may
/// not have in its context, a stamp aside.
#[inline(always)]
fn find_in_update<V: JsonValue>(context: Context, value: &V) -> Found<'_, V>
    ensures first { option_map V.json result.first ≡ get (codes "update") (V.json value.now) }
    ensures second { option_map V.json result.second ≡ get (codes "where") (V.json value.now) }
    ensures unknown { refuse_member (option_copied result.unknown)
        ≡ no_members_but_at context (codes "change" ∷ codes "update" ∷ codes "where" ∷ [])
        (V.json value.now) }
{
    value.find_two("update", "where", members_with_change_at(context))
}

/// The member `change`, and those that an object of a write may have beside those of the write and
/// its stamp.
fn members_with_change_at(context: Context) -> &'static [&'static str]
    ensures { map (λ name. name.now) result.now ≡ members_at context ++ codes "change" ∷ [] }
{
    match context {
        Context::Call => &["worker", "change"],
        Context::Request | Context::WriteRequest => &["if", "worker", "change"],
        Context::Nested => &["change"],
    }
}

/// As [`no_other_member`], for an update.
#[tactic(auto, using(crate::proofs::StatementLemmas::without_stamp, crate::proofs::StatementLemmas::in_nested))]
fn no_other_in_update<V: JsonValue>(
    alloc: Global,
    context: Context,
    value: &V,
    unknown: Option<&str>,
) -> Result<(), DocFault>
    requires { refuse_member (option_copied unknown) ≡ no_members_but_at context
        (codes "change" ∷ codes "update" ∷ codes "where" ∷ []) (V.json value.now) }
    ensures { Gives result (no_members_at context
        (codes "change" ∷ codes "update" ∷ codes "where" ∷ []) (V.json value.now)) }
{
    match (context, unknown) {
        (Context::Call, unknown) => no_unknown_member(alloc, unknown),
        (Context::Request, unknown) => no_unknown_member(alloc, unknown),
        (Context::Nested, unknown) => no_unknown_member(alloc, unknown),
        (Context::WriteRequest, None) => Ok(()),
        (Context::WriteRequest, Some(_)) => {
            let _ = stamp(alloc, value)?;
            let known = ["if", "worker", "stamp", "change", "update", "where"];
            no_members_but(alloc, value, &known)
        }
    }
}

/// The conditions of a statement on a table, from its member `where`.
pub fn conditions<V: JsonValue>(
    alloc: Global,
    version: Version,
    catalog: &Catalog,
    table: u16,
    statement: &V,
) -> Result<Items<Equal>, DocFault>
    ensures { Gives result (conditions version catalog.now table (V.json statement.now)) }
{
    found_conditions(alloc, version, catalog, table, statement.get("where"))
}

/// As [`conditions`], once the member has been looked for.
fn found_conditions<V: JsonValue>(
    alloc: Global,
    version: Version,
    catalog: &Catalog,
    table: u16,
    found: Option<V>,
) -> Result<Items<Equal>, DocFault>
    ensures { Gives result
        (read_member (codes "where") (array_of (condition version catalog.now table))
        (option_map V.json found)) }
{
    let decoder = ArrayDecoder {
        decoder: ConditionDecoder {
            version,
            catalog,
            table,
        },
    };
    let equals = found_member(alloc, found, "where", &decoder)?;
    Ok(equals)
}

fn checked_write(alloc: Global, catalog: &Catalog, write: Write) -> Result<Write, DocFault>
    ensures { Gives result (checked_statement write (write_fault catalog.now write)) }
{
    match check(catalog, &write) {
        Ok(()) => Ok(write),
        Err(error) => Err(DocFault::here(alloc, cause_of_check(error))),
    }
}

/// A select that the tables accept.
pub fn checked_select(alloc: Global, catalog: &Catalog, select: Select) -> Result<Select, DocFault>
    ensures { Gives result (checked_statement select (select_fault catalog.now select)) }
{
    match check_select(catalog, &select) {
        Ok(()) => Ok(select),
        Err(error) => Err(DocFault::here(alloc, cause_of_check(error))),
    }
}
