//! A table of accounts, and the calls of each library on it.
mod advancing;
mod database;
mod differences;
mod looks;
mod marks;
mod pages;
mod parts;
mod refusals;
mod row_pages;
mod sharing;
mod values;
mod versions;

use std::alloc::Global;
use std::fmt::Debug;
use std::process::Abort;
use std::sync::Arc;
use tt_db::{Db, Limits};
use tt_values::{Catalog, Change, Column, Equal, Items, Row, Select, TableDef, Value, Write};

/// Asserts that two values are equal. An `assert_eq!` in a test makes the test longer to prove.
fn same<T: PartialEq + Debug>(rt: &impl Abort, got: &T, want: &T) {
    assert_eq!(rt; *got, *want);
}

fn items<T: Drop, const N: usize>(rt: &impl Abort, alloc: Global, items: [T; N]) -> Items<T> {
    Items::of(alloc, items).expect(rt, "memory")
}

fn account_columns(rt: &impl Abort, alloc: Global) -> TableDef {
    let id = Column::int(alloc, "id").expect(rt, "memory");
    let owner = Column::text(alloc, "owner").expect(rt, "memory");
    let balance = Column::int(alloc, "bal").expect(rt, "memory");
    let columns = [id, owner.partition(), balance];
    TableDef::of(alloc, columns).expect(rt, "memory")
}

/// A catalog with the table `acct`.
fn accounts(rt: &impl Abort, alloc: Global) -> Arc<Catalog> {
    let mut catalog = Catalog::new(alloc);
    let added = catalog.add("acct", account_columns(rt, alloc));
    added.expect(rt, "a table");
    Arc::new(alloc, catalog).expect(rt, "memory")
}

/// A new database of accounts.
fn new_db(rt: &impl Abort, alloc: Global) -> Db {
    Db::new(alloc, accounts(rt, alloc), Limits::usual())
}

fn row(rt: &impl Abort, alloc: Global, id: i64, owner: &str, balance: i64) -> Row {
    let owner = Value::text(alloc, owner).expect(rt, "memory");
    let values = [Value::Int(id), owner, Value::Int(balance)];
    Row::of(alloc, values).expect(rt, "memory")
}

fn insert(rt: &impl Abort, alloc: Global, id: i64, owner: &str, balance: i64) -> Write {
    let row = row(rt, alloc, id, owner, balance);
    Write::Insert { table: 0, row }
}

fn owned_by(rt: &impl Abort, alloc: Global, owner: &str) -> Equal {
    Equal::text(alloc, 1, owner).expect(rt, "memory")
}

fn delete(rt: &impl Abort, alloc: Global, owner: &str) -> Write {
    let owned = owned_by(rt, alloc, owner);
    Write::delete(alloc, 0, [owned]).expect(rt, "memory")
}

fn add_to_all(rt: &impl Abort, alloc: Global, by: i64) -> Write {
    let add = Change::Add { column: 2, by };
    Write::update(alloc, 0, [add], []).expect(rt, "memory")
}

fn everything(rt: &impl Abort, alloc: Global) -> Select {
    Select::all(alloc, 0).expect(rt, "memory")
}
