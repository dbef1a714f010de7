//! Repairs of worker 1 that are held before their first step, until the calls of worker 2 have
//! returned.
ghost use Rattle.std.specs.Prelude.{◌≡◌, ◌≤◌};
ghost use Rattle.std.specs.Arc.{arc_value};
ghost use Rattle.tt_db.specs.Limits.{usual_limits};
ghost use Rattle.tt_store.specs.Published.{RuleIsMembership};

use super::held::{Held, Marks};
use super::{bank, delete_bob, done, insert, same, writes_five_slots};
use std::alloc::Global;
use std::marker::Brand;
use std::process::Abort;
use std::sync::{Arc, Wait};
use std::test::*;
use std::thread::{Threads, join};
use tt_db::{DbError, Limits};
use tt_repair::{Phase, RepairFault, Repaired, repair};
use tt_store::{Naming, Opened, Store, StoreError, Worker};
use tt_values::Catalog;

/// How a repair goes.
#[derive(Clone, Copy)]
enum Pace {
    /// Steps by two, in no round.
    ByTwo,
    /// Steps by five, in no round.
    ByFive,
    /// Steps by five, and a round.
    ByFiveInARound,
}

impl Pace {
    /// How many steps are made in one publish.
    fn batch(self) -> u32
        ensures some { 1 ≤ result }
        ensures few { result ≤ 5 }
    {
        match self {
            Pace::ByTwo => 2,
            Pace::ByFive | Pace::ByFiveInARound => 5,
        }
    }

    /// How many rounds are gone at most.
    fn rounds(self) -> u32
        ensures { result ≤ 1 }
    {
        match self {
            Pace::ByTwo | Pace::ByFive => 0,
            Pace::ByFiveInARound => 1,
        }
    }
}

#[test]
fn a_repair_catches_up_with_an_insert(rt: HostRuntime) {
    catches_up(&rt, rt.alloc(), Pace::ByTwo, 5);
    catches_up(&rt, rt.alloc(), Pace::ByFive, 3);
    catches_up(&rt, rt.alloc(), Pace::ByFiveInARound, 4);
}

/// Asserts in how many publishes a repair is made, while a slot is added.
fn catches_up<T: Threads + Wait + Abort + Sync>(rt: &T, alloc: Global, pace: Pace, publishes: u64) {
    let catalog = bank(rt, alloc);
    let marks = Marks::new();
    let gate = Held { marks: &marks };
    repairs_beside_an_insert::<Brand, _>(rt, alloc, Opened::new(2), catalog, gate, pace);
    marks.check(rt, publishes);
}

fn repairs_beside_an_insert<L: Naming + Send + Sync, T: Threads + Wait + Abort + Sync>(
    rt: &T,
    alloc: Global,
    opened: Opened,
    catalog: Arc<Catalog>,
    gate: Held<'_>,
    pace: Pace,
)
    requires book { opened.front.book ≡ L.book }
    requires tables { arc_value catalog ≡ L.tables }
    requires limits { usual_limits ≡ L.limits }
    requires tied { RuleIsMembership L.holds L.book L.tables L.limits }
    requires name { opened.blank.name ≡ L.name }
    requires parts { opened.blank.parts ≡ L.parts }
{
    let opened = opened.named::<L, Held<'_>, &T>(rt, alloc, catalog, Limits::usual(), gate);
    let (store, mut workers) = opened.expect(rt, "a store");
    let second = workers.pop().expect(rt, "a second worker");
    let mut first = workers.pop().expect(rt, "a first worker");
    writes_five_slots(rt, alloc, &store, &mut first);
    join(
        rt,
        || repairs_six_slots(rt, alloc, &store, first, pace),
        || inserts_meanwhile(rt, alloc, &store, second, gate.marks),
    );
    done(store);
}

/// Asserts what a repair returns during which a slot is added.
fn repairs_six_slots<L: Naming, T: Wait + Abort>(
    rt: &T,
    alloc: Global,
    store: &Store<L, Held<'_>, &T>,
    mut worker: Worker<L>,
    pace: Pace,
) -> Worker<L> {
    let edits = delete_bob(rt, alloc);
    let repaired = repair(rt, store, &mut worker, edits, pace.batch(), pace.rounds());
    let want = Repaired {
        generation: 1,
        place: 14,
        slots: 6,
        rerun: 2,
    };
    same(rt, &repaired, &Ok(want));
    worker
}

/// Inserts an account while the repair is held.
fn inserts_meanwhile<L: Naming, T: Wait + Abort>(
    rt: &T,
    alloc: Global,
    store: &Store<L, Held<'_>, &T>,
    mut worker: Worker<L>,
    marks: &Marks,
) -> Worker<L> {
    marks.wait_until_held();
    let written = store.write(rt, &mut worker, insert(rt, alloc, (4, "dan", 1)));
    let written = written.expect(rt, "a write");
    same(rt, &(written.place, written.slot), &(7, 6));
    marks.release();
    worker
}

#[test]
fn a_repair_that_is_given_up_stops(rt: HostRuntime) {
    let alloc = rt.alloc();
    let catalog = bank(&rt, alloc);
    let marks = Marks::new();
    let gate = Held { marks: &marks };
    repairs_beside_an_abort::<Brand, _>(&rt, alloc, Opened::new(2), catalog, gate);
    marks.check(&rt, 1);
}

fn repairs_beside_an_abort<L: Naming + Send + Sync, T: Threads + Wait + Abort + Sync>(
    rt: &T,
    alloc: Global,
    opened: Opened,
    catalog: Arc<Catalog>,
    gate: Held<'_>,
)
    requires book { opened.front.book ≡ L.book }
    requires tables { arc_value catalog ≡ L.tables }
    requires limits { usual_limits ≡ L.limits }
    requires tied { RuleIsMembership L.holds L.book L.tables L.limits }
    requires name { opened.blank.name ≡ L.name }
    requires parts { opened.blank.parts ≡ L.parts }
{
    let opened = opened.named::<L, Held<'_>, &T>(rt, alloc, catalog, Limits::usual(), gate);
    let (store, mut workers) = opened.expect(rt, "a store");
    let second = workers.pop().expect(rt, "a second worker");
    let mut first = workers.pop().expect(rt, "a first worker");
    writes_five_slots(rt, alloc, &store, &mut first);
    join(
        rt,
        || is_stopped(rt, alloc, &store, first),
        || gives_up(rt, &store, second, gate.marks),
    );
    done(store);
}

/// Asserts that a repair is stopped in its first step.
fn is_stopped<L: Naming, T: Wait + Abort>(
    rt: &T,
    alloc: Global,
    store: &Store<L, Held<'_>, &T>,
    mut worker: Worker<L>,
) -> Worker<L> {
    let repaired = repair(rt, store, &mut worker, delete_bob(rt, alloc), 2, 0);
    let fault = RepairFault {
        phase: Phase::Steps,
        still_open: false,
        cause: StoreError::Db(DbError::NotRepairing),
    };
    same(rt, &repaired, &Err(fault));
    worker
}

/// Gives up the repair while it is held.
fn gives_up<L: Naming, T: Wait + Abort>(
    rt: &T,
    store: &Store<L, Held<'_>, &T>,
    mut worker: Worker<L>,
    marks: &Marks,
) -> Worker<L> {
    marks.wait_until_held();
    same(rt, &store.refresh(rt, &mut worker), &Ok(6));
    same(rt, &store.abort(rt, &mut worker), &Ok(7));
    marks.release();
    worker
}
