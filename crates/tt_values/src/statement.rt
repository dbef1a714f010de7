//! Statements. They name tables and columns by their positions, counted from 0.
ghost use Rattle.std.specs.Prelude.{◌≡◌, [], IfOk};

use crate::comparison::Comparison;
use crate::items::Items;
use crate::row::Row;
use crate::value::Value;
use std::alloc::{AllocError, Global};

/// The condition that the value of a column compares so with this value.
#[derive(Clone, Debug, PartialEq, Drop)]
pub struct Equal {
    pub column: u16,
    pub how: Comparison,
    pub value: Value,
}

/// A change of one column by an update.
#[derive(Clone, Debug, PartialEq, Drop)]
pub enum Change {
    /// Sets the column to the value.
    Set { column: u16, value: Value },
    /// Adds to the column, of kind Int. The sum saturates at the bounds of an `i64`.
    Add { column: u16, by: i64 },
}

/// A statement that writes to a table.
#[derive(Clone, Debug, PartialEq, Drop)]
pub enum Write {
    /// Adds a row, unless the table has one with its key.
    Insert {
        table: u16,
        row: Row,
    },
    /// Changes the rows that match all conditions. Each of them is written and counted, even if
    /// no value of it changes.
    Update {
        table: u16,
        changes: Items<Change>,
        equals: Items<Equal>,
    },
    /// Removes the rows that match all conditions.
    Delete {
        table: u16,
        equals: Items<Equal>,
    },
}

/// A statement that reads the rows that match all conditions.
#[derive(Clone, Debug, PartialEq, Drop)]
pub struct Select {
    pub table: u16,
    pub equals: Items<Equal>,
}

impl Equal {
    ghost use Rattle.tt_values.specs.Matches.{equates};
    ghost use Rattle.tt_values.specs.declared.comparison.Comparison.TheVariants.{Is};

    /// The condition that a column of kind Int has this value. Allocates nothing.
    pub fn int(column: u16, value: i64) -> Equal
        ensures { result ≡ record { column = column; how = Is; value = Value.Int value } }
    {
        Equal {
            column,
            how: Comparison::Is,
            value: Value::Int(value),
        }
    }

    /// The condition that a column of kind Text has this value.
    pub fn text(alloc: Global, column: u16, value: &str) -> Result<Equal, AllocError>
        ensures { IfOk result (λ equal.
            equal ≡ record { column = column; how = Is; value = Value.Text value.now }) }
    {
        let value = Value::text(alloc, value)?;
        Ok(Equal {
            column,
            how: Comparison::Is,
            value,
        })
    }

    /// The same column and value, compared in this way. Allocates nothing.
    pub fn with(self, how: Comparison) -> Equal
        ensures { result ≡ record { column = self.column; how = how; value = self.value } }
    {
        Equal { how, ..self }
    }

    /// Whether it is an equality, which fixes the value of its column. Allocates nothing.
    pub fn equates(&self) -> bool
        ensures { result ≡ equates self.now }
    {
        self.how.is_equality()
    }

    /// An equal condition, which shares its text with this one.
    pub fn copy(&self) -> Result<Equal, AllocError>
        ensures { IfOk result (λ copy. copy ≡ self.now) }
    {
        self.clone()
    }
}

impl Change {
    /// An equal change, which shares its text with this one.
    pub fn copy(&self) -> Result<Change, AllocError>
        ensures { IfOk result (λ copy. copy ≡ self.now) }
    {
        self.clone()
    }
}

impl Write {
    ghost use Rattle.tt_values.specs.Effect.{table_of};

    /// The insert of a row with these values.
    pub fn insert<const N: usize>(
        alloc: Global,
        table: u16,
        values: [Value; N],
    ) -> Result<Write, AllocError>
        ensures { IfOk result (λ write.
            write ≡ Write.Insert table (record { values = values.entry })) }
    {
        let row = Row::of(alloc, values)?;
        Ok(Write::Insert { table, row })
    }

    /// The update that makes these changes to the rows that match all conditions. Without
    /// conditions it changes all rows of the table.
    pub fn update<const M: usize, const N: usize>(
        alloc: Global,
        table: u16,
        changes: [Change; M],
        equals: [Equal; N],
    ) -> Result<Write, AllocError>
        ensures { IfOk result (λ write. write ≡ Write.Update table changes.entry equals.entry) }
    {
        let changes = Items::of(alloc, changes)?;
        let equals = Items::of(alloc, equals)?;
        Ok(Write::Update {
            table,
            changes,
            equals,
        })
    }

    /// The delete of the rows that match all conditions. Without conditions it deletes all rows
    /// of the table.
    pub fn delete<const N: usize>(
        alloc: Global,
        table: u16,
        equals: [Equal; N],
    ) -> Result<Write, AllocError>
        ensures { IfOk result (λ write. write ≡ Write.Delete table equals.entry) }
    {
        let equals = Items::of(alloc, equals)?;
        Ok(Write::Delete { table, equals })
    }

    /// The position of the table that the statement writes to. Allocates nothing.
    pub fn table(&self) -> u16
        ensures { result ≡ table_of self.now }
    {
        match self {
            Write::Insert { table, .. }
            | Write::Update { table, .. }
            | Write::Delete { table, .. } => *table,
        }
    }

    /// An equal statement, which shares its lists with this one.
    pub fn copy(&self) -> Result<Write, AllocError>
        ensures { IfOk result (λ copy. copy ≡ self.now) }
    {
        self.clone()
    }
}

impl Select {
    /// The select of all rows of a table.
    pub fn all(alloc: Global, table: u16) -> Result<Select, AllocError>
        ensures { IfOk result (λ select. select ≡ record { table = table; equals = [] }) }
    {
        Select::matching(alloc, table, [])
    }

    /// The select of the rows that match all conditions.
    pub fn matching<const N: usize>(
        alloc: Global,
        table: u16,
        equals: [Equal; N],
    ) -> Result<Select, AllocError>
        ensures { IfOk result (λ select.
            select ≡ record { table = table; equals = equals.entry }) }
    {
        let equals = Items::of(alloc, equals)?;
        Ok(Select { table, equals })
    }

    /// An equal statement, which shares its lists with this one.
    pub fn copy(&self) -> Result<Select, AllocError>
        ensures { IfOk result (λ copy. copy ≡ self.now) }
    {
        self.clone()
    }
}
