ghost use Rattle.std.specs.Prelude.{◌≡◌, ◌==◌, [], ◌∷◌, ◌++◌, length, slice_get, None, IfSome, OnOk, OnErr, IfErr, ◌≤◌};
ghost use Rattle.std.specs.List.{list_any};
ghost use Rattle.std.specs.Str.{bytes_eq};
ghost use Rattle.std.specs.Option.{option_copied, option_map};

use crate::naming::{has_same_name, has_valid_names, is_key_int};
use crate::table::TableDef;
use crate::{MAX_COLUMNS, MAX_TABLES};
use indexmap::IndexMap;
use std::alloc::{AllocError, Global};
use std::marker::Model;
use thiserror::Error;

/// Why a table can't be added to a catalog.
#[derive(Clone, Copy, Debug, PartialEq, Eq, Error)]
pub enum CatalogError {
    /// The name of the table or of a column isn't 1 to 64 ASCII letters, digits and underscores.
    #[error("a name is not 1 to 64 ASCII letters, digits or underscores")]
    BadName,
    /// The catalog has a table of that name.
    #[error("the catalog has a table of that name")]
    SameTable,
    /// The table has no columns.
    #[error("the table has no columns")]
    NoColumns,
    /// The first column isn't of kind Int.
    #[error("the first column is not of kind Int")]
    KeyNotInt,
    /// Two columns have the same name.
    #[error("two columns have the same name")]
    SameColumn,
    /// The catalog has 64 tables already, or the table has more than 32 columns.
    #[error("more than 64 tables, or more than 32 columns")]
    TooMany,
    /// Out of memory.
    #[error("out of memory")]
    Memory,
}

/// The tables of a database, in order of declaration, with their names.
#[derive(Debug)]
pub struct Catalog {
    tables: IndexMap<String, TableDef>,
}

// Written by hand, so that every place that drops a catalog calls one function.
impl Drop for Catalog {
    fn drop(self) {
        let Catalog { tables: _ } = self;
    }
}

impl Model for Catalog {
    ghost use Rattle.std.specs.Prelude.{map};
    ghost use Rattle.std.specs.String.{string_bytes};
    ghost use Rattle.tt_values.specs.Tables.{Tables, IsCatalog};

    ghost Value = { Tables };

    ghost view = { λ c. map (λ t. (string_bytes t.0, t.1)) c.tables.entries };

    ghost invariant = { λ c. IsCatalog (map (λ t. (string_bytes t.0, t.1)) c.tables.entries) };
}

impl Catalog {
    ghost use Rattle.tt_values.specs.Tables.{Tables, table_position, IsTable, IsCatalog};
    ghost use Rattle.tt_values.specs.Catalog.{table_fault, fault_of_error, has_no_room};

    /// A catalog without tables. Allocates nothing; `add` uses the allocator.
    pub fn new(alloc: Global) -> Self
        ensures { result ≡ [] }
    {
        Catalog {
            tables: IndexMap::new(alloc),
        }
    }

    /// The number of tables.
    pub fn len(&self) -> usize
        ensures count { result ≡ length self.now }
        ensures sound { IsCatalog self.now }
    {
        self.tables.len()
    }

    pub fn is_empty(&self) -> bool
        ensures { result ≡ (length self.now == 0) }
    {
        self.tables.is_empty()
    }

    /// The position of the table with this name.
    pub fn find(&self, name: &str) -> Option<u16>
        ensures { result ≡ table_position self.now name.now }
    {
        let position = self.tables.get_index_of(name)?;
        Some(position as u16)
    }

    /// The table at a position, counted from 0.
    pub fn table(&self, table: u16) -> Option<&TableDef>
        ensures def { option_copied result ≡ option_map (λ t. t.1) (slice_get self.now table) }
        ensures sound { IfSome result (λ def. IsTable def.now) }
    {
        let (_, def) = self.tables.get_index(usize::from(table))?;
        Some(def)
    }

    /// The name of the table at a position.
    pub fn name(&self, table: u16) -> Option<&str>
        ensures { option_copied result ≡ option_map (λ t. t.0) (slice_get self.now table) }
    {
        let (name, _) = self.tables.get_index(usize::from(table))?;
        Some(name.as_str())
    }

    /// Adds a table at the end. Of several errors, the first in the order of `CatalogError` is
    /// reported. The catalog is unchanged after any of them.
    pub fn add(&mut self, name: &str, def: TableDef) -> Result<(), CatalogError>
        ensures ok { OnOk result (self.new ≡ self.old ++ (name.now, def) ∷ []) }
        ensures no_fault { OnOk result (table_fault self.old name.now def ≡ None) }
        ensures fault { IfErr result
            (λ e. table_fault self.old name.now def ≡ fault_of_error e) }
        ensures err { OnErr result (self.new ≡ self.old) }
    {
        if let Some(fault) = self.fault(name, &def) {
            return Err(fault);
        }
        match self.put(name, def) {
            Ok(()) => Ok(()),
            Err(AllocError) => Err(CatalogError::Memory),
        }
    }

    fn has_table(&self, name: &str) -> bool
        ensures { result ≡ list_any (λ t. bytes_eq name.now t.0) self.now }
    {
        self.tables.contains_key(name)
    }

    fn has_no_room(&self, def: &TableDef) -> bool
        ensures { result ≡ has_no_room self.now def.now }
    {
        self.len() >= MAX_TABLES || def.columns.len() > MAX_COLUMNS
    }

    /// The first fault of a table that is added.
    fn fault(&self, name: &str, def: &TableDef) -> Option<CatalogError>
        ensures { result ≡ table_fault self.now name.now def.now }
    {
        if !has_valid_names(name, def) {
            return Some(CatalogError::BadName);
        }
        if self.has_table(name) {
            return Some(CatalogError::SameTable);
        }
        if def.columns.is_empty() {
            return Some(CatalogError::NoColumns);
        }
        if !is_key_int(def.columns.as_slice()) {
            return Some(CatalogError::KeyNotInt);
        }
        if has_same_name(def.columns.as_slice()) {
            return Some(CatalogError::SameColumn);
        }
        if self.has_no_room(def) {
            return Some(CatalogError::TooMany);
        }
        None
    }

    fn put(&mut self, name: &str, def: TableDef) -> Result<(), AllocError>
        requires { table_fault self.old name.now def ≡ None }
        ensures ok { OnOk result (self.new ≡ self.old ++ (name.now, def) ∷ []) }
        ensures err { OnErr result (self.new ≡ self.old) }
    {
        let name = String::from_str(*self.tables.allocator(), name)?;
        self.tables.insert(name, def)?;
        Ok(())
    }
}
