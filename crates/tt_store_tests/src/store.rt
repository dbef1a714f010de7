//! What no clause says: that ample memory is enough for each call, what repairs in steps lead to,
//! what is answered while another call is under way, and what threads see of one another.
ghost use Rattle.std.specs.Prelude.{◌≡◌};
ghost use Rattle.std.specs.Arc.{arc_value};
ghost use Rattle.tt_db.specs.Limits.{Fits};
ghost use Rattle.tt_store.specs.Published.{RuleIsMembership};

mod closing;
mod crowd;
mod given_up;
mod held;
mod limits;
mod printed;
mod repairs;
mod writes;

use closing::{closes_backwards, closes_later};
use crowd::sixteen_work;
use given_up::{gives_up, gives_up_the_second};
use limits::{fills_two_slots, has_workers};
use repairs::{fills_history, finishes_for_another, repairs_in_steps};
use std::alloc::Global;
use std::fmt::Debug;
use std::marker::Brand;
use std::process::Abort;
use std::sync::{Arc, Wait};
use std::thread::Threads;
use tt_db::{Edit, Limits};
use tt_store::{Closed, Gate, Naming, NoGate, OpenError, Opened, Store, Worker, Written};
use tt_values::{
    Action, Catalog, Change, Column, Equal, Items, Reply, Row, Select, TableDef, Value, Write,
};
use writes::{reads_beside, refreshes_idle, writes_behind, writes_in_threads};

/// What a test does with a store that was just opened, and with its workers.
#[derive(Clone, Copy)]
enum Scenario {
    ClosesBackwards,
    ClosesLater,
    FillsHistory,
    FillsTwoSlots,
    FinishesForAnother,
    GivesUp { steps: u32 },
    GivesUpTheSecond { steps: u32 },
    HasWorkers(u32),
    ReadsBeside,
    RefreshesIdle,
    RepairsInSteps,
    SixteenWork,
    WritesBehind,
    WritesInThreads,
}

/// Plays a scenario on a store of its own, with this number of workers and the usual limits.
fn plays<T: Threads + Wait + Abort + Sync>(
    rt: &T,
    alloc: Global,
    workers: u32,
    scenario: Scenario,
) {
    let played = tries(rt, alloc, workers, Limits::usual(), scenario);
    same(rt, &played, &Ok(()));
}

/// Plays a scenario, if the store can be opened.
fn tries<T: Threads + Wait + Abort + Sync>(
    rt: &T,
    alloc: Global,
    workers: u32,
    limits: Limits,
    scenario: Scenario,
) -> Result<(), OpenError> {
    assert!(rt; limits.fits());
    let catalog = bank(rt, alloc);
    let opened = Opened::new(workers);
    plays_named::<Brand, T>(rt, alloc, opened, catalog, limits, scenario)
}

/// The same, where the store has a name.
fn plays_named<L: Naming + Send + Sync, T: Threads + Wait + Abort + Sync>(
    rt: &T,
    alloc: Global,
    opened: Opened,
    catalog: Arc<Catalog>,
    limits: Limits,
    scenario: Scenario,
) -> Result<(), OpenError>
    requires fits { Fits limits }
    requires book { opened.front.book ≡ L.book }
    requires tables { arc_value catalog ≡ L.tables }
    requires limits { limits ≡ L.limits }
    requires tied { RuleIsMembership L.holds L.book L.tables L.limits }
    requires name { opened.blank.name ≡ L.name }
    requires parts { opened.blank.parts ≡ L.parts }
{
    let opened = opened.named::<L, NoGate, &T>(rt, alloc, catalog, limits, NoGate);
    match opened {
        Ok((store, workers)) => {
            let scene = Scene {
                rt,
                alloc,
                store,
                workers,
            };
            play(scene, scenario);
            Ok(())
        }
        Err(error) => Err(error),
    }
}

/// Where a scenario is played: a store that was just opened, and its workers.
#[derive(Drop)]
struct Scene<'a, L: Naming, T: Wait> {
    rt: &'a T,
    alloc: Global,
    store: Store<L, NoGate, &'a T>,
    workers: Vec<Worker<L>>,
}

fn play<L: Naming + Send + Sync, T: Threads + Wait + Abort + Sync>(
    scene: Scene<'_, L, T>,
    scenario: Scenario,
) {
    match scenario {
        Scenario::ClosesBackwards => closes_backwards(scene),
        Scenario::ClosesLater => closes_later(scene),
        Scenario::FillsHistory => fills_history(scene),
        Scenario::FillsTwoSlots => fills_two_slots(scene),
        Scenario::FinishesForAnother => finishes_for_another(scene),
        Scenario::GivesUp { steps } => gives_up(scene, steps),
        Scenario::GivesUpTheSecond { steps } => gives_up_the_second(scene, steps),
        Scenario::HasWorkers(count) => has_workers(scene, count),
        Scenario::ReadsBeside => reads_beside(scene),
        Scenario::RefreshesIdle => refreshes_idle(scene),
        Scenario::RepairsInSteps => repairs_in_steps(scene),
        Scenario::SixteenWork => sixteen_work(scene),
        Scenario::WritesBehind => writes_behind(scene),
        Scenario::WritesInThreads => writes_in_threads(scene),
    }
}

/// Asserts that two values are equal. An `assert_eq!` in a test makes the test longer to prove.
fn same<T: PartialEq + Debug>(rt: &impl Abort, got: &T, want: &T) {
    assert_eq!(rt; *got, *want);
}

/// An account: its id, its owner and its balance.
type Account = (i64, &'static str, i64);

/// A catalog with the table `acct`.
fn bank(rt: &impl Abort, alloc: Global) -> Arc<Catalog> {
    let id = Column::int(alloc, "id").expect(rt, "memory");
    let owner = Column::text(alloc, "owner").expect(rt, "memory");
    let balance = Column::int(alloc, "bal").expect(rt, "memory");
    let columns = [id, owner.partition(), balance];
    let def = TableDef::of(alloc, columns).expect(rt, "memory");
    let mut catalog = Catalog::new(alloc);
    catalog.add("acct", def).expect(rt, "a table");
    Arc::new(alloc, catalog).expect(rt, "memory")
}

fn row(rt: &impl Abort, alloc: Global, account: Account) -> Row {
    let (id, owner, balance) = account;
    let owner = Value::text(alloc, owner).expect(rt, "memory");
    let values = [Value::Int(id), owner, Value::Int(balance)];
    Row::of(alloc, values).expect(rt, "memory")
}

/// An action of one write.
fn action(rt: &impl Abort, alloc: Global, write: Write) -> Action {
    Action::of(Items::of(alloc, [write]).expect(rt, "memory"))
}

fn insert(rt: &impl Abort, alloc: Global, account: Account) -> Action {
    let row = row(rt, alloc, account);
    action(rt, alloc, Write::Insert { table: 0, row })
}

fn delete(rt: &impl Abort, alloc: Global, owner: &str) -> Action {
    let equal = Equal::text(alloc, 1, owner).expect(rt, "memory");
    let delete = Write::delete(alloc, 0, [equal]).expect(rt, "memory");
    action(rt, alloc, delete)
}

fn add_to_all(rt: &impl Abort, alloc: Global, by: i64) -> Action {
    let add = Change::Add { column: 2, by };
    let update = Write::update(alloc, 0, [add], []).expect(rt, "memory");
    action(rt, alloc, update)
}

fn all(rt: &impl Abort, alloc: Global) -> Select {
    Select::all(alloc, 0).expect(rt, "memory")
}

/// The reply with these rows, in this order.
fn rows(rt: &impl Abort, alloc: Global, accounts: &[Account]) -> Reply {
    let mut rows = Vec::new(alloc);
    for account in accounts {
        rows.push(row(rt, alloc, *account)).expect(rt, "memory");
    }
    Reply::Rows(Items::new(alloc, rows).expect(rt, "memory"))
}

/// The edit that replaces slot 4 by another delete.
fn delete_bob(rt: &impl Abort, alloc: Global) -> Items<Edit> {
    let edit = Edit::Replace(4, delete(rt, alloc, "bob"));
    Items::of(alloc, [edit]).expect(rt, "memory")
}

/// The last of the workers.
fn last_of<L: Naming>(rt: &impl Abort, workers: &mut Vec<Worker<L>>) -> Worker<L> {
    workers.pop().expect(rt, "a worker")
}

/// Inserts an account, which takes this place and this slot.
fn inserts<L: Naming, G: Gate + Drop, T: Wait + Abort>(
    rt: &T,
    alloc: Global,
    store: &Store<L, G, &T>,
    worker: &mut Worker<L>,
    account: Account,
    (place, slot): (u64, u64),
) {
    let written = store.write(rt, worker, insert(rt, alloc, account));
    let replies = Items::of(alloc, [Reply::Inserted]).expect(rt, "memory");
    let want = Written {
        place,
        slot,
        replies,
    };
    same(rt, &written.expect(rt, "a write"), &want);
}

/// Writes five slots, and begins a repair of the fourth.
fn begins_after_five_slots<L: Naming, G: Gate + Drop, T: Wait + Abort>(
    rt: &T,
    alloc: Global,
    store: &Store<L, G, &T>,
    worker: &mut Worker<L>,
) {
    let writes = [
        insert(rt, alloc, (1, "ann", 5)),
        insert(rt, alloc, (2, "ann", 6)),
        insert(rt, alloc, (3, "bob", 7)),
        delete(rt, alloc, "ann"),
        add_to_all(rt, alloc, 1),
    ];
    for write in writes {
        store.write(rt, worker, write).expect(rt, "a write");
    }
    let begun = store.begin(rt, worker, delete_bob(rt, alloc));
    same(rt, &begun, &Ok(6));
}

/// Asserts that these are the accounts now, in this order.
fn has<L: Naming>(rt: &impl Abort, alloc: Global, worker: &mut Worker<L>, accounts: &[Account]) {
    let answer = worker.read(&all(rt, alloc)).expect(rt, "a read");
    same(rt, &answer.reply, &rows(rt, alloc, accounts));
}

/// Closes a store.
fn closed<L: Naming, G: Gate + Drop, T: Wait + Abort>(
    rt: &T,
    store: Store<L, G, &T>,
    workers: Vec<Worker<L>>,
) -> Closed {
    match store.close(rt, workers) {
        Ok(closed) => closed,
        Err(_) => panic!(rt; "not closed"),
    }
}

/// Closes a store of two workers. Asserts that their entries have these places, and that there are
/// no others.
fn closes<L: Naming, G: Gate + Drop, T: Wait + Abort>(
    rt: &T,
    alloc: Global,
    store: Store<L, G, &T>,
    workers: [Worker<L>; 2],
    first: &[u64],
    second: &[u64],
) {
    let workers = Vec::from_array(alloc, workers).expect(rt, "memory");
    let closed = closed(rt, store, workers);
    assert!(rt; has_places(&closed.places, first, second));
    let places = first.len().saturating_add(second.len());
    same(rt, &closed.db.get().events(), &(places as u64));
}

/// Whether there are two lists of places, and these.
fn has_places(places: &[Vec<u64>], first: &[u64], second: &[u64]) -> bool {
    match places {
        [one, two] => one.as_slice() == first && two.as_slice() == second,
        _ => false,
    }
}
