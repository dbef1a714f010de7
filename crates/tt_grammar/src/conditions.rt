//! Reading of what statements name: tables, columns, values, and conditions on a table.
ghost use Rattle.std.specs.Prelude.{◌≡◌, option_map};
ghost use Rattle.tt_grammar.specs.Fault.{Gives, GivesViewed};
ghost use Rattle.tt_grammar.specs.Conditions.{value, table_named, column_with, column_named, two, pair, has_comparisons, parts_of_condition, condition_on, condition};

use crate::comparisons::ComparisonDecoder;
use crate::decoder::{Decoder, WRONG_TYPE, array, item, text};
use crate::fault::DocFault;
use crate::version::Version;
use std::alloc::Global;
use tt_json::JsonValue;
use tt_values::{Catalog, Comparison, Equal, Text};

const NO_TABLE: &str = "no such table";

const NO_COLUMN: &str = "no such column";

/// A table of the catalog, by its name: its position.
#[derive(Drop)]
pub struct TableNameDecoder<'a> {
    /// The tables.
    pub catalog: &'a Catalog,
}

impl Decoder for TableNameDecoder<'_> {
    type Output = u16;

    ghost meaning = { λ r. table_named r.catalog.now };

    fn decode<V: JsonValue>(&self, alloc: Global, value: &V) -> Result<u16, DocFault> {
        let name = text(alloc, value)?;
        match self.catalog.find(name) {
            Some(table) => Ok(table),
            None => Err(DocFault::here(alloc, NO_TABLE)),
        }
    }
}

/// A column of a table, by its name.
#[derive(Drop)]
pub(crate) struct ColumnNameDecoder<'a> {
    pub(crate) catalog: &'a Catalog,
    pub(crate) table: u16,
}

impl Decoder for ColumnNameDecoder<'_> {
    type Output = u16;

    ghost meaning = { λ r. column_named r.catalog.now r.table };

    fn decode<V: JsonValue>(&self, alloc: Global, value: &V) -> Result<u16, DocFault> {
        let name = text(alloc, value)?;
        match column_with(self.catalog, self.table, name) {
            Some(column) => Ok(column),
            None => Err(DocFault::here(alloc, NO_COLUMN)),
        }
    }
}

fn column_with(catalog: &Catalog, table: u16, name: &str) -> Option<u16>
    ensures { result ≡ column_with catalog.now table name.now }
{
    let def = catalog.table(table)?;
    def.find(name)
}

/// A condition on a table: a column, in version 3 how it compares if that is told, and a value.
#[derive(Drop)]
pub(crate) struct ConditionDecoder<'a> {
    pub(crate) version: Version,
    pub(crate) catalog: &'a Catalog,
    pub(crate) table: u16,
}

impl Decoder for ConditionDecoder<'_> {
    type Output = Equal;

    ghost meaning = { λ r. condition r.version r.catalog.now r.table };

    #[tactic(auto, unfolding(crate::specs::Conditions::condition))]
    fn decode<V: JsonValue>(&self, alloc: Global, value: &V) -> Result<Equal, DocFault> {
        let mut items = array(alloc, value)?;
        let Some((first, how, last)) = parts::<V>(self.version, &mut items) else {
            return Err(DocFault::here(alloc, WRONG_TYPE));
        };
        let column = ColumnNameDecoder {
            catalog: self.catalog,
            table: self.table,
        };
        let column = item(alloc, 0, &first, &column)?;
        condition_on(alloc, column, how, &last)
    }
}

/// The column of a condition, how it compares where that is told, and its value.
fn parts<V: JsonValue>(version: Version, items: &mut V::Items) -> Option<(V, Option<V>, V)>
    ensures { option_map (λ p. (V.json p.0, option_map V.json p.1, V.json p.2)) result
        ≡ parts_of_condition version (V.left items.old) }
{
    let first = V::next_item(items)?;
    let second = V::next_item(items)?;
    let Some(third) = V::next_item(items) else {
        return Some((first, None, second));
    };
    match V::next_item(items) {
        None if has_comparisons(version) => Some((first, Some(second), third)),
        _ => None,
    }
}

fn has_comparisons(version: Version) -> bool
    ensures { result ≡ has_comparisons version }
{
    match version {
        Version::One | Version::Two => false,
        Version::Three => true,
    }
}

/// A condition on a column: an equality where it isn't told how it compares.
fn condition_on<V: JsonValue>(
    alloc: Global,
    column: u16,
    how: Option<V>,
    value: &V,
) -> Result<Equal, DocFault>
    ensures { Gives result (condition_on column (option_map V.json how) (V.json value.now)) }
{
    let Some(how) = how else {
        let value = item(alloc, 1, value, &ValueDecoder)?;
        let how = Comparison::Is;
        return Ok(Equal { column, how, value });
    };
    let how = item(alloc, 1, &how, &ComparisonDecoder)?;
    let value = item(alloc, 2, value, &ValueDecoder)?;
    Ok(Equal { column, how, value })
}

/// The items of an array of two.
pub fn pair<V: JsonValue>(alloc: Global, value: &V) -> Result<(V, V), DocFault>
    ensures { GivesViewed (λ p. (V.json p.0, V.json p.1)) result (pair (V.json value.now)) }
{
    let mut items = array(alloc, value)?;
    match two::<V>(&mut items) {
        Some(pair) => Ok(pair),
        None => Err(DocFault::here(alloc, WRONG_TYPE)),
    }
}

fn two<V: JsonValue>(items: &mut V::Items) -> Option<(V, V)>
    ensures { option_map (λ p. (V.json p.0, V.json p.1)) result ≡ two (V.left items.old) }
{
    let first = V::next_item(items)?;
    let second = V::next_item(items)?;
    match V::next_item(items) {
        Some(_) => None,
        None => Some((first, second)),
    }
}

/// A text or an Int.
#[derive(Drop)]
pub(crate) struct ValueDecoder;

impl Decoder for ValueDecoder {
    type Output = tt_values::Value;

    ghost meaning = { λ _. value };

    fn decode<V: JsonValue>(&self, alloc: Global, value: &V) -> Result<tt_values::Value, DocFault> {
        if let Some(text) = value.as_str() {
            let text = Text::copied(alloc, text)?;
            return Ok(tt_values::Value::Text(text));
        }
        match value.as_i64() {
            Some(number) => Ok(tt_values::Value::Int(number)),
            None => Err(DocFault::here(alloc, WRONG_TYPE)),
        }
    }
}
