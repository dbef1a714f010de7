ghost use Rattle.std.specs.Prelude.{◌≡◌, ◌≤◌, ◌^◌, true, false, length, IfOk};
ghost use Rattle.tt_values.specs.Tables.{column_position, position_as_u16};

use crate::items::Items;
use crate::text::Text;
use crate::value::Kind;
use std::alloc::{AllocError, Global};

/// A column of a table.
#[derive(Clone, Debug, PartialEq, Drop)]
pub struct Column {
    pub name: Text,
    pub kind: Kind,
    /// Whether this is a partition column: repair then tracks which of its values are dirty. It
    /// always does for the first column.
    pub partition: bool,
}

/// The columns of a table, in order. The first holds the key.
#[derive(Clone, Debug, PartialEq, Drop)]
pub struct TableDef {
    pub columns: Items<Column>,
}

impl Column {
    /// A column of kind Int, which is no partition column.
    pub fn int(alloc: Global, name: &str) -> Result<Column, AllocError>
        ensures { IfOk result (λ column.
            column ≡ record { name = name.now; kind = Kind.Int; partition = false }) }
    {
        Column::of_kind(alloc, name, Kind::Int)
    }

    /// A column of kind Text, which is no partition column.
    pub fn text(alloc: Global, name: &str) -> Result<Column, AllocError>
        ensures { IfOk result (λ column.
            column ≡ record { name = name.now; kind = Kind.Text; partition = false }) }
    {
        Column::of_kind(alloc, name, Kind::Text)
    }

    fn of_kind(alloc: Global, name: &str, kind: Kind) -> Result<Column, AllocError>
        ensures { IfOk result (λ column.
            column ≡ record { name = name.now; kind = kind; partition = false }) }
    {
        let name = Text::copied(alloc, name)?;
        Ok(Column {
            name,
            kind,
            partition: false,
        })
    }

    /// The column as a partition column: `Column::text(alloc, "owner")?.partition()`.
    pub fn partition(self) -> Column
        ensures { result ≡ record { name = self.name; kind = self.kind; partition = true } }
    {
        Column {
            name: self.name,
            kind: self.kind,
            partition: true,
        }
    }
}

impl TableDef {
    /// The definition of a table with these columns. `Catalog::add` checks them.
    pub fn of<const N: usize>(alloc: Global, columns: [Column; N]) -> Result<TableDef, AllocError>
        ensures { IfOk result (λ def. def.columns ≡ columns.entry) }
    {
        let columns = Items::of(alloc, columns)?;
        Ok(TableDef { columns })
    }

    /// The position of the first column with this name. `None` too if it's past 65,535, which
    /// doesn't happen in a table of a catalog.
    pub fn find(&self, name: &str) -> Option<u16>
        ensures position { result ≡ position_as_u16 (column_position self.now.columns name.now) }
        ensures few_columns { length self.now.columns ≤ 2 ^ 16 →
            result ≡ column_position self.now.columns name.now }
    {
        let position = position_of(self.columns.as_slice(), name)?;
        u16::try_from(position).ok()
    }
}

fn position_of(columns: &[Column], name: &str) -> Option<usize>
    ensures { result ≡ column_position columns.now name.now }
{
    columns
        .iter()
        .position(|column| name == column.name.as_str())
}
