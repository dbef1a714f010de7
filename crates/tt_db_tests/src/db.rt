//! What no clause says: that ample memory is enough for each call, that earlier databases stay
//! usable, limits at small numbers, and what repairs lead to.
mod calls;
mod closed;
mod faulty_actions;
mod history;
mod incident;
mod limits;
mod model;
mod pages;
mod printed;
mod random;
mod random_repairs;
mod repair_refusals;
mod repairs;
mod repeated_repairs;
mod runs;
mod sharing;
mod steps_together;
mod unfinished_repairs;
mod versions;
mod whole_actions;

use std::alloc::Global;
use std::fmt::Debug;
use std::process::Abort;
use std::sync::Arc;
use tt_db::{Db, DbError, Entry, Event, Limits, MAX_EDITS, MAX_KEEP, Outcome};
use tt_values::{
    Action, Catalog, Change, Column, Equal, Items, Reply, Row, Select, TableDef, Value, Write,
};

/// An account: its id, its owner and its balance.
type Account = (i64, &'static str, i64);

const ANN: Account = (1, "ann", 10);

const BOB: Account = (2, "bob", 20);

/// An account under the key of `ANN`.
const SAME_KEY: Account = (1, "bob", 20);

/// The positions of the tables `acct` and, where there is one, `loan`.
const ACCT: u16 = 0;

const LOAN: u16 = 1;

fn accounts_table(rt: &impl Abort, alloc: Global) -> TableDef {
    let id = Column::int(alloc, "id").expect(rt, "memory");
    let owner = Column::text(alloc, "owner").expect(rt, "memory");
    let balance = Column::int(alloc, "bal").expect(rt, "memory");
    let columns = [id, owner.partition(), balance];
    TableDef::of(alloc, columns).expect(rt, "memory")
}

/// A catalog with tables of these names, each with the columns of `acct`.
fn bank(rt: &impl Abort, alloc: Global, names: &[&str]) -> Arc<Catalog> {
    let mut catalog = Catalog::new(alloc);
    for name in names {
        let added = catalog.add(name, accounts_table(rt, alloc));
        added.expect(rt, "a table");
    }
    Arc::new(alloc, catalog).expect(rt, "memory")
}

/// A new database with the table `acct` and the usual limits.
fn new_db(rt: &impl Abort, alloc: Global) -> Db {
    Db::new(alloc, bank(rt, alloc, &["acct"]), Limits::usual())
}

/// A new database with the table `acct` and these limits of slots and entries.
fn small_db(rt: &impl Abort, alloc: Global, slots: u64, events: u64) -> Db {
    let limits = Limits {
        slots,
        events,
        edits: MAX_EDITS,
        keep: MAX_KEEP,
    };
    assert!(rt; limits.fits());
    Db::new(alloc, bank(rt, alloc, &["acct"]), limits)
}

fn row(rt: &impl Abort, alloc: Global, account: Account) -> Row {
    let (id, owner, balance) = account;
    let owner = Value::text(alloc, owner).expect(rt, "memory");
    let values = [Value::Int(id), owner, Value::Int(balance)];
    Row::of(alloc, values).expect(rt, "memory")
}

fn insert(rt: &impl Abort, alloc: Global, table: u16, account: Account) -> Write {
    let row = row(rt, alloc, account);
    Write::Insert { table, row }
}

/// The condition that an account has this id.
fn id_is(rt: &impl Abort, alloc: Global, id: i64) -> Items<Equal> {
    Items::of(alloc, [Equal::int(0, id)]).expect(rt, "memory")
}

/// The condition that an account has this owner.
fn owner_is(rt: &impl Abort, alloc: Global, owner: &str) -> Items<Equal> {
    let equal = Equal::text(alloc, 1, owner).expect(rt, "memory");
    Items::of(alloc, [equal]).expect(rt, "memory")
}

/// The condition that every account meets.
fn any_account(rt: &impl Abort, alloc: Global) -> Items<Equal> {
    Items::of(alloc, []).expect(rt, "memory")
}

fn set_owner(rt: &impl Abort, alloc: Global, owner: &str) -> Change {
    Change::Set {
        column: 1,
        value: Value::text(alloc, owner).expect(rt, "memory"),
    }
}

fn set_balance(balance: i64) -> Change {
    Change::Set {
        column: 2,
        value: Value::Int(balance),
    }
}

fn add(by: i64) -> Change {
    Change::Add { column: 2, by }
}

/// An update of the accounts that meet a condition, by one change.
fn update(rt: &impl Abort, alloc: Global, change: Change, equals: Items<Equal>) -> Write {
    Write::Update {
        table: ACCT,
        changes: Items::of(alloc, [change]).expect(rt, "memory"),
        equals,
    }
}

/// A delete of the accounts that meet a condition.
fn delete(equals: Items<Equal>) -> Write {
    Write::Delete {
        table: ACCT,
        equals,
    }
}

/// An update of the balance of the account with this id.
fn add_to_balance(rt: &impl Abort, alloc: Global, id: i64, by: i64) -> Write {
    update(rt, alloc, add(by), id_is(rt, alloc, id))
}

/// An action of these writes.
fn action<const N: usize>(rt: &impl Abort, alloc: Global, writes: [Write; N]) -> Action {
    Action::of(Items::of(alloc, writes).expect(rt, "memory"))
}

fn replies<const N: usize>(rt: &impl Abort, alloc: Global, replies: [Reply; N]) -> Items<Reply> {
    Items::of(alloc, replies).expect(rt, "memory")
}

fn entry(rt: &impl Abort, alloc: Global, worker: u32, account: Account) -> Entry {
    Entry {
        worker,
        event: Event::Write(action(rt, alloc, [insert(rt, alloc, ACCT, account)])),
    }
}

/// An insert into a table that isn't there.
fn bad_entry(rt: &impl Abort, alloc: Global) -> Entry {
    Entry {
        worker: 1,
        event: Event::Write(action(rt, alloc, [insert(rt, alloc, LOAN, ANN)])),
    }
}

/// The database after an entry with this reply.
fn after(rt: &impl Abort, alloc: Global, db: &Db, entry: Entry, reply: Reply) -> Db {
    let slot = db.now().saturating_add(1);
    let replies = replies(rt, alloc, [reply]);
    let (next, outcome) = db.apply(entry).expect(rt, "an accepted entry");
    same(rt, &outcome, &Outcome::Written { slot, replies });
    next
}

/// Applies an event in place, and returns what comes of it.
fn answer_to(db: &mut Db, event: Event) -> Result<Outcome, DbError> {
    db.advance(Entry { worker: 1, event })
}

/// Applies an event that is accepted.
fn made(rt: &impl Abort, db: &mut Db, event: Event) -> Outcome {
    answer_to(db, event).expect(rt, "an accepted event")
}

/// Applies an action of these writes, with these replies.
fn write<const N: usize>(
    rt: &impl Abort,
    alloc: Global,
    db: &mut Db,
    writes: [Write; N],
    wants: [Reply; N],
) {
    let slot = db.now().saturating_add(1);
    let replies = replies(rt, alloc, wants);
    let outcome = made(rt, db, Event::Write(action(rt, alloc, writes)));
    same(rt, &outcome, &Outcome::Written { slot, replies });
}

/// Inserts an account that isn't there.
fn open(rt: &impl Abort, alloc: Global, db: &mut Db, account: Account) {
    let insert = insert(rt, alloc, ACCT, account);
    write(rt, alloc, db, [insert], [Reply::Inserted]);
}

fn select_all(rt: &impl Abort, alloc: Global, table: u16) -> Select {
    Select::all(alloc, table).expect(rt, "memory")
}

/// The reply with these rows, in this order.
fn rows(rt: &impl Abort, alloc: Global, accounts: &[Account]) -> Reply {
    let mut rows = Vec::new(alloc);
    for account in accounts {
        rows.push(row(rt, alloc, *account)).expect(rt, "memory");
    }
    Reply::Rows(Items::new(alloc, rows).expect(rt, "memory"))
}

/// Asserts that two values are equal. An `assert_eq!` in a test makes the test longer to prove.
fn same<T: PartialEq + Debug>(rt: &impl Abort, got: &T, want: &T) {
    assert_eq!(rt; *got, *want);
}

/// The end of a test's use of a database. A test that drops one itself takes longer to prove.
fn done(_db: Db) {}

/// Asserts that these are the accounts now, in this order.
fn has(rt: &impl Abort, alloc: Global, db: &Db, accounts: &[Account]) {
    let reply = db
        .select(&select_all(rt, alloc, ACCT))
        .expect(rt, "a reply");
    same(rt, &reply, &rows(rt, alloc, accounts));
}

/// Asserts that these were the accounts at a time, in this order.
fn had(rt: &impl Abort, alloc: Global, db: &Db, time: u64, accounts: &[Account]) {
    let reply = db
        .select_at(&select_all(rt, alloc, ACCT), time)
        .expect(rt, "a reply");
    same(rt, &(time, reply), &(time, rows(rt, alloc, accounts)));
}

/// Asserts that these are the accounts of the next generation, in this order.
fn previews(rt: &impl Abort, alloc: Global, db: &Db, accounts: &[Account]) {
    let reply = db
        .preview(&select_all(rt, alloc, ACCT))
        .expect(rt, "a reply");
    same(rt, &reply, &rows(rt, alloc, accounts));
}
