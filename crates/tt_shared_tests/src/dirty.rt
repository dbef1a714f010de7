//! What is dirty in a repair, as plain lists, and which slots are due by it.
use crate::rows::{Effect, Key, Rows, key_of};
use std::alloc::{AllocError, Global};
use tt_values::{Catalog, Comparison, Equal, Row, Value, Write};

/// The rows of a table that have this value in this column.
#[derive(Drop)]
struct Partition {
    table: u16,
    column: usize,
    value: Value,
}

/// The rows and the partitions that are dirty.
#[derive(Drop)]
pub struct Dirty {
    rows: Vec<Key>,
    partitions: Vec<Partition>,
}

/// Whether the values of a column are partitions.
fn is_partition(catalog: &Catalog, table: u16, column: usize) -> bool {
    match catalog.table(table) {
        Some(def) => match def.columns.get(column) {
            Some(def) => column == 0 || def.partition,
            None => false,
        },
        None => false,
    }
}

impl Dirty {
    /// Nothing is dirty.
    pub fn new(alloc: Global) -> Dirty {
        Dirty {
            rows: Vec::new(alloc),
            partitions: Vec::new(alloc),
        }
    }

    /// Whether the row of a key is dirty.
    pub fn has_row(&self, key: Key) -> bool {
        self.rows.as_slice().contains(&key)
    }

    /// Whether a row of this table is dirty.
    fn has_row_of(&self, table: u16) -> bool {
        for row in &self.rows {
            if row.0 == table {
                return true;
            }
        }
        false
    }

    fn has_partition(&self, table: u16, column: usize, value: &Value) -> bool {
        for partition in &self.partitions {
            let is_column = partition.table == table && partition.column == column;
            if is_column && partition.value == *value {
                return true;
            }
        }
        false
    }

    fn add_row(&mut self, key: Key) -> Result<(), AllocError> {
        if !self.has_row(key) {
            self.rows.push(key)?;
        }
        self.add_partition(key.0, 0, Value::Int(key.1))
    }

    fn add_partition(&mut self, table: u16, column: usize, value: Value) -> Result<(), AllocError> {
        if !self.has_partition(table, column, &value) {
            let partition = Partition {
                table,
                column,
                value,
            };
            self.partitions.push(partition)?;
        }
        Ok(())
    }

    /// Adds the partitions in which a row lies.
    fn add_partitions_of(
        &mut self,
        catalog: &Catalog,
        table: u16,
        row: &Row,
    ) -> Result<(), AllocError> {
        for (column, value) in row.values.as_slice().iter().enumerate() {
            if is_partition(catalog, table, column) {
                let value = value.copy()?;
                self.add_partition(table, column, value)?;
            }
        }
        Ok(())
    }

    /// Adds the rows that a slot which is due touched, and those that it matches now, with the
    /// partitions in which they lie just before it and after it. After an `Err` some may be missing.
    pub fn add(
        &mut self,
        catalog: &Catalog,
        (old, new): (&Effect, &Effect),
        (before, after): (&Rows, &Rows),
    ) -> Result<(), AllocError> {
        for keys in [&old.touched, &new.matched] {
            for key in keys {
                self.add_row(*key)?;
                for rows in [before, after] {
                    if let Some(row) = rows.row(*key) {
                        self.add_partitions_of(catalog, key.0, row)?;
                    }
                }
            }
        }
        Ok(())
    }

    /// Whether a slot that has no edit is due: it touched a dirty row, or has a write that names one
    /// by its key, or that isn't clear.
    pub fn affects(&self, catalog: &Catalog, writes: &[Write], old: &Effect) -> bool {
        for key in &old.touched {
            if self.has_row(*key) {
                return true;
            }
        }
        for write in writes {
            if self.affects_write(catalog, write) {
                return true;
            }
        }
        false
    }

    fn affects_write(&self, catalog: &Catalog, write: &Write) -> bool {
        match write {
            Write::Insert { table, row } => self.has_row((*table, key_of(row))),
            Write::Update { table, equals, .. } => {
                self.affects_equals(catalog, *table, equals.as_slice())
            }
            Write::Delete { table, equals } => {
                self.affects_equals(catalog, *table, equals.as_slice())
            }
        }
    }

    fn affects_equals(&self, catalog: &Catalog, table: u16, equals: &[Equal]) -> bool {
        let mut has_partitions = false;
        let mut is_clear = false;
        for equal in equals {
            let column = usize::from(equal.column);
            let is_equality = equal.how == Comparison::Is;
            if is_equality && self.is_dirty_key(table, column, &equal.value) {
                return true;
            }
            if is_equality && is_partition(catalog, table, column) {
                has_partitions = true;
                is_clear = is_clear || !self.has_partition(table, column, &equal.value);
            }
        }
        if has_partitions {
            !is_clear
        } else {
            self.has_row_of(table)
        }
    }

    /// Whether an equality of this column with this value names a dirty row by its key.
    fn is_dirty_key(&self, table: u16, column: usize, value: &Value) -> bool {
        match value {
            Value::Int(key) => column == 0 && self.has_row((table, *key)),
            Value::Text(_) => false,
        }
    }
}
