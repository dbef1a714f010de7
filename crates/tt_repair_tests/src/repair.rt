//! The accounts of a bank, and five slots of which the fourth is repaired.
mod alone;
mod beside;
mod full;
mod held;
mod next;
mod printed;
mod refused;

use std::alloc::Global;
use std::fmt::Debug;
use std::process::Abort;
use std::sync::{Arc, Wait};
use tt_db::Edit;
use tt_store::{Gate, Naming, Store, Worker};
use tt_values::{
    Action, Catalog, Change, Column, Equal, Items, Reply, Row, Select, TableDef, Value, Write,
};

/// Asserts that two values are equal. An `assert_eq!` in a test makes the test longer to prove.
fn same<T: PartialEq + Debug>(rt: &impl Abort, got: &T, want: &T) {
    assert_eq!(rt; *got, *want);
}

/// An account: its id, its owner and its balance.
type Account = (i64, &'static str, i64);

/// A catalog with the table `acct`.
fn bank(rt: &impl Abort, alloc: Global) -> Arc<Catalog> {
    let id = Column::int(alloc, "id").expect(rt, "memory");
    let owner = Column::text(alloc, "owner").expect(rt, "memory");
    let balance = Column::int(alloc, "bal").expect(rt, "memory");
    let columns = [id, owner.partition(), balance];
    let def = TableDef::of(alloc, columns).expect(rt, "memory");
    let mut catalog = Catalog::new(alloc);
    catalog.add("acct", def).expect(rt, "a table");
    Arc::new(alloc, catalog).expect(rt, "memory")
}

fn row(rt: &impl Abort, alloc: Global, account: Account) -> Row {
    let (id, owner, balance) = account;
    let owner = Value::text(alloc, owner).expect(rt, "memory");
    let values = [Value::Int(id), owner, Value::Int(balance)];
    Row::of(alloc, values).expect(rt, "memory")
}

/// An action of one write.
fn action(rt: &impl Abort, alloc: Global, write: Write) -> Action {
    Action::of(Items::of(alloc, [write]).expect(rt, "memory"))
}

fn insert(rt: &impl Abort, alloc: Global, account: Account) -> Action {
    let row = row(rt, alloc, account);
    action(rt, alloc, Write::Insert { table: 0, row })
}

fn delete(rt: &impl Abort, alloc: Global, owner: &str) -> Action {
    let equal = Equal::text(alloc, 1, owner).expect(rt, "memory");
    let delete = Write::delete(alloc, 0, [equal]).expect(rt, "memory");
    action(rt, alloc, delete)
}

fn add_to_all(rt: &impl Abort, alloc: Global, by: i64) -> Action {
    let add = Change::Add { column: 2, by };
    let update = Write::update(alloc, 0, [add], []).expect(rt, "memory");
    action(rt, alloc, update)
}

fn all(rt: &impl Abort, alloc: Global) -> Select {
    Select::all(alloc, 0).expect(rt, "memory")
}

/// The reply with these rows, in this order.
fn rows(rt: &impl Abort, alloc: Global, accounts: &[Account]) -> Reply {
    let mut rows = Vec::new(alloc);
    for account in accounts {
        rows.push(row(rt, alloc, *account)).expect(rt, "memory");
    }
    Reply::Rows(Items::new(alloc, rows).expect(rt, "memory"))
}

/// A list of one reply.
fn one(rt: &impl Abort, alloc: Global, reply: Reply) -> Items<Reply> {
    Items::of(alloc, [reply]).expect(rt, "memory")
}

/// The edit that replaces slot 4 by another delete.
fn delete_bob(rt: &impl Abort, alloc: Global) -> Items<Edit> {
    let edit = Edit::Replace(4, delete(rt, alloc, "bob"));
    Items::of(alloc, [edit]).expect(rt, "memory")
}

/// Inserts three accounts, deletes those of ann, and adds 1 to all that are left.
fn writes_five_slots<L: Naming, G: Gate + Drop, T: Wait + Abort>(
    rt: &T,
    alloc: Global,
    store: &Store<L, G, &T>,
    worker: &mut Worker<L>,
) {
    let writes = [
        insert(rt, alloc, (1, "ann", 5)),
        insert(rt, alloc, (2, "ann", 6)),
        insert(rt, alloc, (3, "bob", 7)),
        delete(rt, alloc, "ann"),
        add_to_all(rt, alloc, 1),
    ];
    for write in writes {
        store.write(rt, worker, write).expect(rt, "a write");
    }
}

/// The end of a test's use of a store.
fn done<L: Naming, G: Gate + Drop, R: Wait + Drop>(_store: Store<L, G, R>) {}
