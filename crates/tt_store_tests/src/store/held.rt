//! Calls of worker 1 that are held at some of their points until a call of worker 2 has returned.
ghost use Rattle.std.specs.Prelude.{◌≡◌};
ghost use Rattle.std.specs.Arc.{arc_value};
ghost use Rattle.tt_db.specs.Limits.{usual_limits};
ghost use Rattle.tt_store.specs.Published.{RuleIsMembership};

use super::{
    Account, all, bank, begins_after_five_slots, closes, has, inserts, last_of, rows, same,
};
use std::alloc::Global;
use std::marker::Brand;
use std::process::Abort;
use std::sync::atomic::{AtomicU64, Ordering};
use std::sync::{Arc, Wait};
use std::test::*;
use std::thread::{Threads, join, yield_now};
use tt_db::{Limits, Progress};
use tt_store::{Answer, Gate, Naming, Opened, Point, Store, Worker};
use tt_values::Catalog;

/// The most turns for which a thread waits for another thread.
const TURNS: u64 = 10_000_000;

/// For how many turns a thread that holds the lock looks whether another thread gets it.
const LOCKED_TURNS: u64 = 10_000;

/// What a call that is held and the thread beside it tell each other.
#[derive(Drop)]
struct Marks {
    /// At how many of its points the call was held.
    held: AtomicU64,
    /// From how many of them it was released.
    released: AtomicU64,
    /// How often a state was built.
    built: AtomicU64,
    /// How often something was published.
    published: AtomicU64,
    /// How often the thread beside it has built a state.
    built_beside: AtomicU64,
    /// How often that thread was given the lock.
    locked_beside: AtomicU64,
    /// How often one of the two waited in vain.
    missed: AtomicU64,
}

impl Marks {
    fn new() -> Marks {
        Marks {
            held: AtomicU64::new(0),
            released: AtomicU64::new(0),
            built: AtomicU64::new(0),
            published: AtomicU64::new(0),
            built_beside: AtomicU64::new(0),
            locked_beside: AtomicU64::new(0),
            missed: AtomicU64::new(0),
        }
    }

    /// Waits until a mark is past a number.
    fn wait_until_past(&self, mark: &AtomicU64, number: u64) {
        for _ in 0..TURNS {
            if mark.load(Ordering::SeqCst) > number {
                return;
            }
            yield_now();
        }
        self.missed.fetch_add(1, Ordering::SeqCst);
    }

    /// Waits until the call is held at the point after this number of points.
    fn wait_until_held(&self, points: u64) {
        self.wait_until_past(&self.held, points);
    }

    /// Waits until the thread beside has built a state once more, and looks whether it is given the
    /// lock then.
    fn watch_the_lock(&self) {
        let locked = self.locked_beside.load(Ordering::SeqCst);
        self.wait_until_past(&self.built_beside, locked);
        for _ in 0..LOCKED_TURNS {
            if self.locked_beside.load(Ordering::SeqCst) > locked {
                self.missed.fetch_add(1, Ordering::SeqCst);
                return;
            }
            yield_now();
        }
    }

    /// Releases the call from the point where it is held.
    fn release(&self) {
        self.released.fetch_add(1, Ordering::SeqCst);
    }

    /// Counts a point of the thread beside.
    fn count_beside(&self, point: Point) {
        match point {
            Point::Building => count(&self.built_beside),
            Point::Locked => count(&self.locked_beside),
            _ => (),
        }
    }

    /// Asserts that nobody waited in vain, and how often worker 1 has built a state and published.
    fn check(&self, rt: &impl Abort, end: &End<'_>) {
        same(rt, &self.missed.load(Ordering::SeqCst), &0);
        same(rt, &self.built.load(Ordering::SeqCst), &end.built);
        same(rt, &self.published.load(Ordering::SeqCst), &end.published);
    }
}

/// Holds worker 1 at these points, one after another, from the state of this number on that it
/// builds. In the try of this number, if there is one, it watches the lock, and so it does at each
/// of the points that are watched.
#[derive(Clone, Copy)]
struct Held<'a> {
    marks: &'a Marks,
    from: u64,
    points: &'a [Point],
    locked_try: Option<u64>,
    watched: &'a [Point],
}

impl Gate for Held<'_> {
    fn at(&self, worker: u32, point: Point) {
        if worker != 1 {
            self.marks.count_beside(point);
            return;
        }
        let marks = self.marks;
        match point {
            Point::Building => self.build(),
            Point::Published => count(&marks.published),
            _ => (),
        }
        if marks.built.load(Ordering::SeqCst) < self.from {
            return;
        }
        let held = marks.held.load(Ordering::SeqCst);
        if self.points.get(held as usize) == Some(&point) {
            marks.held.fetch_add(1, Ordering::SeqCst);
            marks.wait_until_past(&marks.released, held);
        }
        if self.watched.contains(&point) {
            marks.watch_the_lock();
        }
    }
}

impl Held<'_> {
    /// Counts a state that is built, and watches the lock where it is held.
    fn build(&self) {
        count(&self.marks.built);
        if self.locked_try == Some(self.marks.built.load(Ordering::SeqCst)) {
            self.marks.watch_the_lock();
        }
    }
}

/// Counts one more.
fn count(mark: &AtomicU64) {
    mark.fetch_add(1, Ordering::SeqCst);
}

/// What worker 2 does while worker 1 is held.
#[derive(Clone, Copy)]
enum Beside {
    Reads,
    Writes,
    WritesBeforeEachTry,
    WritesBehind,
    WritesBesideOwnSteps,
}

/// What there is when both workers are done: how many states worker 1 has built and how many it
/// has published, the places of the entries of each, and the accounts.
#[derive(Clone, Copy)]
struct End<'a> {
    built: u64,
    published: u64,
    first: &'a [u64],
    second: &'a [u64],
    accounts: &'a [Account],
}

/// Where worker 1 is held, what the other one does meanwhile, and what there is in the end.
#[derive(Clone, Copy)]
struct Scene<'a> {
    gate: Held<'a>,
    beside: Beside,
    end: End<'a>,
}

/// Opens a store, and plays a scene in it.
fn holds<T: Threads + Wait + Abort + Sync>(rt: &T, alloc: Global, scene: Scene<'_>) {
    let catalog = bank(rt, alloc);
    holds_named::<Brand, T>(rt, alloc, Opened::new(2), catalog, &scene);
    scene.gate.marks.check(rt, &scene.end);
}

/// The same, where the store has a name.
fn holds_named<L: Naming + Send + Sync, T: Threads + Wait + Abort + Sync>(
    rt: &T,
    alloc: Global,
    opened: Opened,
    catalog: Arc<Catalog>,
    scene: &Scene<'_>,
)
    requires book { opened.front.book ≡ L.book }
    requires tables { arc_value catalog ≡ L.tables }
    requires limits { usual_limits ≡ L.limits }
    requires tied { RuleIsMembership L.holds L.book L.tables L.limits }
    requires name { opened.blank.name ≡ L.name }
    requires parts { opened.blank.parts ≡ L.parts }
{
    let Scene { gate, beside, end } = scene;
    let opened = opened.named::<L, Held<'_>, &T>(rt, alloc, catalog, Limits::usual(), *gate);
    let (store, mut workers) = opened.expect(rt, "a store");
    let second = last_of(rt, &mut workers);
    let first = last_of(rt, &mut workers);
    let pair = beside_held(rt, alloc, &store, (first, second), gate.marks, *beside);
    ends(rt, alloc, store, pair, end);
}

/// Lets worker 1 be held while the other one does this. Returns the two.
fn beside_held<L: Naming + Send + Sync, T: Threads + Wait + Abort + Sync>(
    rt: &T,
    alloc: Global,
    store: &Store<L, Held<'_>, &T>,
    pair: (Worker<L>, Worker<L>),
    marks: &Marks,
    beside: Beside,
) -> (Worker<L>, Worker<L>) {
    let (first, second) = pair;
    match beside {
        Beside::Reads => reads_beside_a_write(rt, alloc, store, first, second, marks),
        Beside::Writes => writes_beside_steps(rt, alloc, store, first, second, marks),
        Beside::WritesBeforeEachTry => {
            writes_beside_writes(rt, alloc, store, first, second, marks)
        }
        Beside::WritesBehind => writes_behind_a_write(rt, alloc, store, first, second, marks),
        Beside::WritesBesideOwnSteps => {
            writes_beside_own_steps(rt, alloc, store, first, second, marks)
        }
    }
}

/// Asserts that both workers read the accounts of an end once they are refreshed, and closes the
/// store, in which their entries have its places.
fn ends<L: Naming, T: Wait + Abort>(
    rt: &T,
    alloc: Global,
    store: Store<L, Held<'_>, &T>,
    pair: (Worker<L>, Worker<L>),
    end: &End<'_>,
) {
    let (mut first, mut second) = pair;
    store.refresh(rt, &mut first).expect(rt, "a refresh");
    store.refresh(rt, &mut second).expect(rt, "a refresh");
    has(rt, alloc, &mut first, end.accounts);
    has(rt, alloc, &mut second, end.accounts);
    closes(rt, alloc, store, [first, second], end.first, end.second);
}

/// Asserts that a read is of this time, and has these accounts.
fn reads<L: Naming>(
    rt: &impl Abort,
    alloc: Global,
    worker: &mut Worker<L>,
    time: u64,
    accounts: &[Account],
) {
    let want = Answer {
        time,
        reply: rows(rt, alloc, accounts),
    };
    same(rt, &worker.read(&all(rt, alloc)), &Ok(want));
}

#[test]
fn a_read_takes_no_lock(rt: HostRuntime) {
    let marks = Marks::new();
    let gate = Held {
        marks: &marks,
        from: 1,
        points: &[Point::Locked, Point::Published],
        locked_try: None,
        watched: &[],
    };
    let end = End {
        built: 1,
        published: 1,
        first: &[1],
        second: &[],
        accounts: &[(1, "ann", 10)],
    };
    let scene = Scene {
        gate,
        beside: Beside::Reads,
        end,
    };
    holds(&rt, rt.alloc(), scene);
}

/// Lets a worker read while a write of the other one is held.
fn reads_beside_a_write<L: Naming + Send + Sync, T: Threads + Wait + Abort + Sync>(
    rt: &T,
    alloc: Global,
    store: &Store<L, Held<'_>, &T>,
    first: Worker<L>,
    second: Worker<L>,
    marks: &Marks,
) -> (Worker<L>, Worker<L>) {
    join(
        rt,
        || writes_one(rt, alloc, store, first, (1, 1)),
        || reads_under_the_lock(rt, alloc, second, marks),
    )
}

/// Inserts an account, which takes this place and this slot.
fn writes_one<L: Naming, T: Wait + Abort>(
    rt: &T,
    alloc: Global,
    store: &Store<L, Held<'_>, &T>,
    mut worker: Worker<L>,
    at: (u64, u64),
) -> Worker<L> {
    inserts(rt, alloc, store, &mut worker, (1, "ann", 10), at);
    worker
}

/// Reads before a write that is held is published, and behind that.
fn reads_under_the_lock<L: Naming>(
    rt: &impl Abort,
    alloc: Global,
    mut worker: Worker<L>,
    marks: &Marks,
) -> Worker<L> {
    marks.wait_until_held(0);
    reads(rt, alloc, &mut worker, 0, &[]);
    marks.release();
    marks.wait_until_held(1);
    reads(rt, alloc, &mut worker, 1, &[(1, "ann", 10)]);
    marks.release();
    worker
}

#[test]
fn steps_go_behind_a_write_made_meanwhile(rt: HostRuntime) {
    let marks = Marks::new();
    let gate = Held {
        marks: &marks,
        from: 1,
        points: &[Point::Building],
        locked_try: None,
        watched: &[],
    };
    let end = End {
        built: 2,
        published: 1,
        first: &[8, 9],
        second: &[1, 2, 3, 4, 5, 6, 7],
        accounts: &[(3, "bob", 8), (4, "dan", 1)],
    };
    let scene = Scene {
        gate,
        beside: Beside::Writes,
        end,
    };
    holds(&rt, rt.alloc(), scene);
}

/// Begins a repair, and lets a worker write while steps of the other one are held.
fn writes_beside_steps<L: Naming + Send + Sync, T: Threads + Wait + Abort + Sync>(
    rt: &T,
    alloc: Global,
    store: &Store<L, Held<'_>, &T>,
    first: Worker<L>,
    mut second: Worker<L>,
    marks: &Marks,
) -> (Worker<L>, Worker<L>) {
    begins_after_five_slots(rt, alloc, store, &mut second);
    join(
        rt,
        || steps(rt, alloc, store, first),
        || writes_meanwhile(rt, alloc, store, second, marks),
    )
}

/// Worker 1 makes all of the history but the write meanwhile: it builds a state for each of its
/// first six entries, and two for its steps.
#[test]
fn own_steps_go_behind_a_write_made_meanwhile(rt: HostRuntime) {
    let marks = Marks::new();
    let gate = Held {
        marks: &marks,
        from: 7,
        points: &[Point::Building],
        locked_try: None,
        watched: &[],
    };
    let end = End {
        built: 8,
        published: 7,
        first: &[1, 2, 3, 4, 5, 6, 8, 9],
        second: &[7],
        accounts: &[(3, "bob", 8), (4, "dan", 1)],
    };
    let scene = Scene {
        gate,
        beside: Beside::WritesBesideOwnSteps,
        end,
    };
    holds(&rt, rt.alloc(), scene);
}

/// Lets a worker write while steps of the other one are held, in a repair that this has begun.
fn writes_beside_own_steps<L: Naming + Send + Sync, T: Threads + Wait + Abort + Sync>(
    rt: &T,
    alloc: Global,
    store: &Store<L, Held<'_>, &T>,
    mut first: Worker<L>,
    second: Worker<L>,
    marks: &Marks,
) -> (Worker<L>, Worker<L>) {
    begins_after_five_slots(rt, alloc, store, &mut first);
    join(
        rt,
        || steps(rt, alloc, store, first),
        || writes_meanwhile(rt, alloc, store, second, marks),
    )
}

/// Makes two steps, behind a write that is made meanwhile.
fn steps<L: Naming, T: Wait + Abort>(
    rt: &T,
    alloc: Global,
    store: &Store<L, Held<'_>, &T>,
    mut worker: Worker<L>,
) -> Worker<L> {
    let progress = Progress {
        done: 2,
        left: 4,
        rerun: 0,
    };
    same(rt, &store.step(rt, &mut worker, 2), &Ok(progress));
    same(rt, &worker.seen(), &9);
    reads(rt, alloc, &mut worker, 6, &[(3, "bob", 8), (4, "dan", 1)]);
    previews_two(rt, alloc, &mut worker);
    worker
}

/// Asserts that the next generation has the first two accounts, when its first two slots are done.
fn previews_two<L: Naming>(rt: &impl Abort, alloc: Global, worker: &mut Worker<L>) {
    let want = Answer {
        time: 2,
        reply: rows(rt, alloc, &[(1, "ann", 5), (2, "ann", 6)]),
    };
    same(rt, &worker.preview(&all(rt, alloc)), &Ok(want));
}

/// Inserts an account while the steps are held, and reads it.
fn writes_meanwhile<L: Naming, T: Wait + Abort>(
    rt: &T,
    alloc: Global,
    store: &Store<L, Held<'_>, &T>,
    mut worker: Worker<L>,
    marks: &Marks,
) -> Worker<L> {
    marks.wait_until_held(0);
    inserts(rt, alloc, store, &mut worker, (4, "dan", 1), (7, 6));
    same(rt, &worker.seen(), &7);
    reads(rt, alloc, &mut worker, 6, &[(3, "bob", 8), (4, "dan", 1)]);
    marks.release();
    worker
}

#[test]
fn the_fifth_try_is_made_under_the_lock(rt: HostRuntime) {
    let marks = Marks::new();
    let gate = Held {
        marks: &marks,
        from: 1,
        points: &[Point::Building; 4],
        locked_try: Some(5),
        watched: &[],
    };
    let end = End {
        built: 5,
        published: 1,
        first: &[5],
        second: &[1, 2, 3, 4, 6],
        accounts: &[
            (1, "ann", 10),
            (2, "bob", 20),
            (3, "bob", 20),
            (4, "bob", 20),
            (5, "bob", 20),
            (6, "eve", 30),
        ],
    };
    let scene = Scene {
        gate,
        beside: Beside::WritesBeforeEachTry,
        end,
    };
    holds(&rt, rt.alloc(), scene);
}

/// Lets a worker write before each of four tries of the other one.
fn writes_beside_writes<L: Naming + Send + Sync, T: Threads + Wait + Abort + Sync>(
    rt: &T,
    alloc: Global,
    store: &Store<L, Held<'_>, &T>,
    first: Worker<L>,
    second: Worker<L>,
    marks: &Marks,
) -> (Worker<L>, Worker<L>) {
    join(
        rt,
        || writes_one(rt, alloc, store, first, (5, 5)),
        || writes_before_each_try(rt, alloc, store, second, marks),
    )
}

/// Inserts an account each time before a held write tries to publish, and reads what there is
/// then; and inserts one more while it holds the lock, which goes behind it.
fn writes_before_each_try<L: Naming, T: Wait + Abort>(
    rt: &T,
    alloc: Global,
    store: &Store<L, Held<'_>, &T>,
    mut worker: Worker<L>,
    marks: &Marks,
) -> Worker<L> {
    let mut there: Vec<Account> = Vec::new(alloc);
    for tries in 0..4u32 {
        let place = u64::from(tries) + 1;
        let account = (i64::from(tries) + 2, "bob", 20);
        marks.wait_until_held(u64::from(tries));
        inserts(rt, alloc, store, &mut worker, account, (place, place));
        there.push(account).expect(rt, "memory");
        reads(rt, alloc, &mut worker, place, &there);
        marks.release();
    }
    marks.wait_until_past(&marks.built, 4);
    inserts(rt, alloc, store, &mut worker, (6, "eve", 30), (6, 6));
    worker
}

#[test]
fn a_write_has_the_lock_until_it_is_published(rt: HostRuntime) {
    let marks = Marks::new();
    let gate = Held {
        marks: &marks,
        from: 1,
        points: &[Point::Locked],
        locked_try: None,
        watched: &[Point::Locked, Point::Published],
    };
    let end = End {
        built: 1,
        published: 1,
        first: &[1],
        second: &[2],
        accounts: &[(1, "ann", 10), (2, "bob", 20)],
    };
    let scene = Scene {
        gate,
        beside: Beside::WritesBehind,
        end,
    };
    holds(&rt, rt.alloc(), scene);
}

/// Lets a worker write while a write of the other one has the lock.
fn writes_behind_a_write<L: Naming + Send + Sync, T: Threads + Wait + Abort + Sync>(
    rt: &T,
    alloc: Global,
    store: &Store<L, Held<'_>, &T>,
    first: Worker<L>,
    second: Worker<L>,
    marks: &Marks,
) -> (Worker<L>, Worker<L>) {
    join(
        rt,
        || writes_one(rt, alloc, store, first, (1, 1)),
        || goes_behind(rt, alloc, store, second, marks),
    )
}

/// Inserts an account once the other write has the lock, and goes behind it.
fn goes_behind<L: Naming, T: Wait + Abort>(
    rt: &T,
    alloc: Global,
    store: &Store<L, Held<'_>, &T>,
    mut worker: Worker<L>,
    marks: &Marks,
) -> Worker<L> {
    marks.wait_until_held(0);
    marks.release();
    inserts(rt, alloc, store, &mut worker, (2, "bob", 20), (2, 2));
    reads(rt, alloc, &mut worker, 2, &[(1, "ann", 10), (2, "bob", 20)]);
    worker
}
