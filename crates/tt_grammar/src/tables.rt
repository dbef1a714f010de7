//! Reading of tables.
ghost use Rattle.std.specs.Prelude.{◌≡◌};
ghost use Rattle.tt_grammar.specs.Fault.{Gives};
ghost use Rattle.tt_grammar.specs.Tables.{kind_named, kind, column, with_table, table_after, catalog};

use crate::arrays::{ArrayDecoder, Fold, fold_items};
use crate::causes::cause_of_catalog;
use crate::decoder::{
    Decoder, FlagDecoder, OUT_OF_RANGE, TextDecoder, array, member, object, optional, text,
};
use crate::fault::DocFault;
use crate::members::no_members_but;
use std::alloc::Global;
use tt_json::JsonValue;
use tt_values::{Catalog, CatalogError, Column, Kind, TableDef};

/// Tables, in order of declaration.
#[derive(Drop)]
pub struct TablesDecoder;

impl Decoder for TablesDecoder {
    type Output = Catalog;

    ghost meaning = { λ _. catalog };

    fn decode<V: JsonValue>(&self, alloc: Global, value: &V) -> Result<Catalog, DocFault> {
        let items = array(alloc, value)?;
        fold_items::<_, V>(alloc, &TablesFold, Catalog::new(alloc), items)
    }
}

/// Adds one table after another to the catalog.
struct TablesFold;

impl Fold for TablesFold {
    type State = Catalog;

    ghost after = { λ _. table_after };

    #[tactic(auto, unfolding(crate::specs::Tables::table_after))]
    fn step<V: JsonValue>(
        &self,
        alloc: Global,
        state: Catalog,
        item: &V,
    ) -> Result<Catalog, DocFault> {
        object(alloc, item)?;
        let name = member(alloc, item, "name", &TextDecoder)?;
        let decoder = ArrayDecoder {
            decoder: ColumnDecoder,
        };
        let columns = member(alloc, item, "columns", &decoder)?;
        no_members_but(alloc, item, &["columns", "name"])?;
        with_table(alloc, state, name.as_str(), TableDef { columns })
    }
}

/// The catalog with one more table at its end.
fn with_table(
    alloc: Global,
    catalog: Catalog,
    name: &str,
    def: TableDef,
) -> Result<Catalog, DocFault>
    ensures { Gives result (with_table catalog name.now def) }
{
    let mut catalog = catalog;
    match catalog.add(name, def) {
        Ok(()) => Ok(catalog),
        Err(CatalogError::Memory) => Err(DocFault::Memory),
        Err(error) => Err(DocFault::here(alloc, cause_of_catalog(error))),
    }
}

#[derive(Drop)]
struct ColumnDecoder;

impl Decoder for ColumnDecoder {
    type Output = Column;

    ghost meaning = { λ _. column };

    #[tactic(auto, unfolding(crate::specs::Tables::column))]
    fn decode<V: JsonValue>(&self, alloc: Global, value: &V) -> Result<Column, DocFault> {
        object(alloc, value)?;
        let name = member(alloc, value, "name", &TextDecoder)?;
        let kind = member(alloc, value, "kind", &KindDecoder)?;
        let partition = optional(alloc, value, "partition", &FlagDecoder)?;
        no_members_but(alloc, value, &["kind", "name", "partition"])?;
        Ok(Column {
            name,
            kind,
            partition: partition.unwrap_or(false),
        })
    }
}

#[derive(Drop)]
struct KindDecoder;

impl Decoder for KindDecoder {
    type Output = Kind;

    ghost meaning = { λ _. kind };

    fn decode<V: JsonValue>(&self, alloc: Global, value: &V) -> Result<Kind, DocFault> {
        let name = text(alloc, value)?;
        match kind_named(name) {
            Some(kind) => Ok(kind),
            None => Err(DocFault::here(alloc, OUT_OF_RANGE)),
        }
    }
}

fn kind_named(name: &str) -> Option<Kind>
    ensures { result ≡ kind_named name.now }
{
    match name {
        "int" => Some(Kind::Int),
        "text" => Some(Kind::Text),
        _ => None,
    }
}
