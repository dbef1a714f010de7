//! The accounts of a bank, and what tests do with a store of them that was just opened.
ghost use Rattle.std.specs.Prelude.{◌≡◌};
ghost use Rattle.std.specs.Arc.{arc_value};
ghost use Rattle.tt_db.specs.Limits.{usual_limits};
ghost use Rattle.tt_store.specs.Published.{RuleIsMembership};

mod changes;
mod closing;
mod documents;
mod looks;
mod opening;
mod quiet;
mod reads;
mod repairs;
mod runs;
mod sessions;
mod whole_repairs;
mod writes;

use closing::closes;
use quiet::tells;
use reads::reads;
use repairs::{finishes, gives_up};
use std::alloc::Global;
use std::fmt::Debug;
use std::marker::Brand;
use std::process::Abort;
use std::sync::{Arc, Wait};
use tt_db::{Edit, Limits};
use tt_shared_tests::{Tally, mark};
use tt_store::{Naming, NoGate, OpenError, Opened, Store, Worker};
use tt_values::{
    Action, Catalog, Change, Column, Equal, Items, Reply, Row, Select, TableDef, Value, Write,
};
use whole_repairs::repairs_at_once;
use writes::writes_five;

/// What a test does with a store that was just opened, and with its two workers.
#[derive(Clone, Copy)]
enum Scenario {
    Closes,
    Finishes,
    GivesUp,
    Nothing,
    Reads,
    RepairsAtOnce,
    Tells,
    Writes,
}

/// Where a scenario is played: a store that was just opened, and its workers.
#[derive(Drop)]
struct Scene<'a, L: Naming, T: Wait> {
    rt: &'a T,
    alloc: Global,
    store: Store<L, NoGate, &'a T>,
    first: Worker<L>,
    second: Worker<L>,
}

/// Plays a scenario on a store of its own, which is opened again where the first call finds no
/// memory. All that was taken is given back.
fn plays<T: Wait + Abort>(rt: &T, alloc: Global, scenario: Scenario) {
    let _tally = Tally::new(alloc);
    let tried = tries(rt, alloc, Opened::new(2), bank(rt, alloc), scenario);
    let Err(error) = tried else {
        return;
    };
    assert!(rt; error == OpenError::Memory || error == OpenError::Place);
    let again = tries(rt, alloc, Opened::new(2), bank(rt, alloc), scenario);
    same(rt, &again, &Ok(()));
}

/// Plays a scenario, if the store can be opened.
fn tries<T: Wait + Abort>(
    rt: &T,
    alloc: Global,
    opened: Opened,
    catalog: Arc<Catalog>,
    scenario: Scenario,
) -> Result<(), OpenError> {
    plays_named::<Brand, T>(rt, alloc, opened, catalog, scenario)
}

/// The same, where the store has a name.
fn plays_named<L: Naming, T: Wait + Abort>(
    rt: &T,
    alloc: Global,
    opened: Opened,
    catalog: Arc<Catalog>,
    scenario: Scenario,
) -> Result<(), OpenError>
    requires book { opened.front.book ≡ L.book }
    requires tables { arc_value catalog ≡ L.tables }
    requires limits { usual_limits ≡ L.limits }
    requires tied { RuleIsMembership L.holds L.book L.tables L.limits }
    requires name { opened.blank.name ≡ L.name }
    requires parts { opened.blank.parts ≡ L.parts }
{
    mark(alloc);
    let opened = opened.named::<L, NoGate, &T>(rt, alloc, catalog, Limits::usual(), NoGate);
    mark(alloc);
    match opened {
        Ok((store, mut workers)) => {
            let second = last_of(rt, &mut workers);
            let first = last_of(rt, &mut workers);
            let scene = Scene {
                rt,
                alloc,
                store,
                first,
                second,
            };
            play(scene, scenario);
            Ok(())
        }
        Err(error) => Err(error),
    }
}

fn play<L: Naming, T: Wait + Abort>(scene: Scene<'_, L, T>, scenario: Scenario) {
    match scenario {
        Scenario::Closes => closes(scene),
        Scenario::Finishes => finishes(scene),
        Scenario::GivesUp => gives_up(scene),
        Scenario::Nothing => {}
        Scenario::Reads => reads(scene),
        Scenario::RepairsAtOnce => repairs_at_once(scene),
        Scenario::Tells => tells(scene),
        Scenario::Writes => writes_five(scene),
    }
}

/// The last of the workers.
fn last_of<L: Naming>(rt: &impl Abort, workers: &mut Vec<Worker<L>>) -> Worker<L> {
    workers.pop().expect(rt, "a worker")
}

/// Asserts that two values are equal. An `assert_eq!` in a test makes the test longer to prove.
fn same<T: PartialEq + Debug>(rt: &impl Abort, got: &T, want: &T) {
    assert_eq!(rt; *got, *want);
}

/// An account: its id, its owner and its balance.
type Account = (i64, &'static str, i64);

fn items<T: Drop, const N: usize>(rt: &impl Abort, alloc: Global, items: [T; N]) -> Items<T> {
    Items::of(alloc, items).expect(rt, "memory")
}

/// A catalog with the table `acct`.
fn bank(rt: &impl Abort, alloc: Global) -> Arc<Catalog> {
    let id = Column::int(alloc, "id").expect(rt, "memory");
    let owner = Column::text(alloc, "owner").expect(rt, "memory");
    let balance = Column::int(alloc, "bal").expect(rt, "memory");
    let columns = [id, owner.partition(), balance];
    let def = TableDef::of(alloc, columns).expect(rt, "memory");
    let mut catalog = Catalog::new(alloc);
    catalog.add("acct", def).expect(rt, "a table");
    Arc::new(alloc, catalog).expect(rt, "memory")
}

fn row(rt: &impl Abort, alloc: Global, account: Account) -> Row {
    let (id, owner, balance) = account;
    let owner = Value::text(alloc, owner).expect(rt, "memory");
    let values = [Value::Int(id), owner, Value::Int(balance)];
    Row::of(alloc, values).expect(rt, "memory")
}

/// An action of one write.
fn action(rt: &impl Abort, alloc: Global, write: Write) -> Action {
    Action::of(items(rt, alloc, [write]))
}

fn insert(rt: &impl Abort, alloc: Global, account: Account) -> Action {
    let row = row(rt, alloc, account);
    action(rt, alloc, Write::Insert { table: 0, row })
}

fn delete(rt: &impl Abort, alloc: Global, owner: &str) -> Action {
    let equal = Equal::text(alloc, 1, owner).expect(rt, "memory");
    let delete = Write::delete(alloc, 0, [equal]).expect(rt, "memory");
    action(rt, alloc, delete)
}

fn add_to_all(rt: &impl Abort, alloc: Global, by: i64) -> Action {
    let add = Change::Add { column: 2, by };
    let update = Write::update(alloc, 0, [add], []).expect(rt, "memory");
    action(rt, alloc, update)
}

fn all(rt: &impl Abort, alloc: Global) -> Select {
    Select::all(alloc, 0).expect(rt, "memory")
}

/// The reply with these rows, in this order.
fn rows(rt: &impl Abort, alloc: Global, accounts: &[Account]) -> Reply {
    let mut rows = Vec::new(alloc);
    for account in accounts {
        rows.push(row(rt, alloc, *account)).expect(rt, "memory");
    }
    Reply::Rows(Items::new(alloc, rows).expect(rt, "memory"))
}

/// Three inserts, a delete of two rows, and an update of the row that is left.
fn five_actions(rt: &impl Abort, alloc: Global) -> [Action; 5] {
    [
        insert(rt, alloc, (1, "ann", 5)),
        insert(rt, alloc, (2, "ann", 6)),
        insert(rt, alloc, (3, "bob", 7)),
        delete(rt, alloc, "ann"),
        add_to_all(rt, alloc, 1),
    ]
}

/// The edit that replaces the delete of slot 4.
fn delete_bob(rt: &impl Abort, alloc: Global) -> Items<Edit> {
    let edit = Edit::Replace(4, delete(rt, alloc, "bob"));
    items(rt, alloc, [edit])
}

/// Writes five slots, with ample memory.
fn has_five_slots<L: Naming, T: Wait + Abort>(
    rt: &T,
    alloc: Global,
    store: &Store<L, NoGate, &T>,
    worker: &mut Worker<L>,
) {
    for action in five_actions(rt, alloc) {
        store.write(rt, worker, action).expect(rt, "a write");
    }
}

/// The same, and begins a repair of the fourth.
fn has_begun<L: Naming, T: Wait + Abort>(
    rt: &T,
    alloc: Global,
    store: &Store<L, NoGate, &T>,
    worker: &mut Worker<L>,
) {
    has_five_slots(rt, alloc, store, worker);
    let begun = store.begin(rt, worker, delete_bob(rt, alloc));
    same(rt, &begun, &Ok(6));
}

/// Asserts that these are the accounts now, in this order.
fn has<L: Naming>(rt: &impl Abort, alloc: Global, worker: &mut Worker<L>, accounts: &[Account]) {
    let answer = worker.read(&all(rt, alloc)).expect(rt, "a read");
    same(rt, &answer.reply, &rows(rt, alloc, accounts));
}
