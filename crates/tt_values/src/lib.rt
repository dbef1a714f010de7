//! Values, rows, statements and the catalog of a small time-travel database.
//!
//! A statement is one line, and so is an action, which has a list of writes:
//! `let write = Write::insert(alloc, 0, [Value::Int(1), Value::text(alloc, "ann")?])?;`
//! `let action = Action::of(Items::of(alloc, [write])?);`
#![tactic(auto)]

mod action;
mod catalog;
mod changing;
mod checking;
mod comparison;
mod digests;
mod few;
mod items;
pub mod laws;
mod matching;
mod measured;
mod naming;
mod reply;
mod row;
mod row_id;
mod same;
mod shared;
mod statement;
mod table;
mod text;
mod value;

pub use action::Action;
pub use catalog::{Catalog, CatalogError};
pub use changing::changed;
pub use checking::{CheckError, check, check_action, check_select};
pub use comparison::Comparison;
pub use digests::digest;
pub use few::Few;
pub use items::Items;
pub use matching::matches;
pub use reply::Reply;
pub use row::Row;
pub use row_id::RowId;
pub use same::{Same, are_same};
pub use shared::Shared;
pub use statement::{Change, Equal, Select, Write};
pub use table::{Column, TableDef};
pub use text::Text;
pub use value::{Kind, Value};

/// The maximal number of tables in a catalog.
pub const MAX_TABLES: usize = 64;

/// The maximal number of columns of a table.
pub const MAX_COLUMNS: usize = 32;

/// The maximal length of the name of a table or a column, in bytes.
pub const MAX_NAME_BYTES: usize = 64;

/// The maximal length of a text in a statement, in bytes.
pub const MAX_TEXT_BYTES: usize = 1024;

/// The maximal number of conditions of a statement.
pub const MAX_EQUALS: usize = 32;

/// The maximal number of writes of an action.
pub const MAX_WRITES: usize = 16;
