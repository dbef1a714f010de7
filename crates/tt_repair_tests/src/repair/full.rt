//! Repairs that stop because the history is full: in the steps, while catching up, at the switch.
ghost use Rattle.std.specs.Prelude.{◌≡◌};
ghost use Rattle.std.specs.Arc.{arc_value};
ghost use Rattle.tt_db.specs.Limits.{Fits};
ghost use Rattle.tt_store.specs.Published.{RuleIsMembership};

use super::held::{Held, Marks};
use super::{bank, delete_bob, done, insert, same, writes_five_slots};
use std::alloc::Global;
use std::marker::Brand;
use std::process::Abort;
use std::sync::{Arc, Wait};
use std::test::*;
use std::thread::{Threads, join};
use tt_db::{DbError, Limits};
use tt_repair::{Phase, RepairFault, repair};
use tt_store::{Naming, NoGate, Opened, Store, StoreError, Worker};
use tt_values::Catalog;

/// The usual limits, with room for this many entries.
fn room_for(events: u64) -> Limits {
    Limits {
        events,
        ..Limits::usual()
    }
}

/// What a repair returns that stops in this phase, since there is no room for another entry.
fn stopped(phase: Phase, limit: u64) -> RepairFault {
    RepairFault {
        phase,
        still_open: true,
        cause: StoreError::Db(DbError::Full { limit }),
    }
}

#[test]
fn a_full_history_stops_a_repair(rt: HostRuntime) {
    stops(&rt, rt.alloc(), 8, Phase::Steps);
    stops(&rt, rt.alloc(), 11, Phase::Finish);
}

/// Asserts in which phase a repair stops where there is room for this many entries.
fn stops<T: Wait + Abort>(rt: &T, alloc: Global, events: u64, phase: Phase) {
    let limits = room_for(events);
    assert!(rt; limits.fits());
    let catalog = bank(rt, alloc);
    fills::<Brand, T>(rt, alloc, Opened::new(1), catalog, limits, phase);
}

/// Five slots are written, and a repair begins, which stops in a phase.
fn fills<L: Naming, T: Wait + Abort>(
    rt: &T,
    alloc: Global,
    opened: Opened,
    catalog: Arc<Catalog>,
    limits: Limits,
    phase: Phase,
)
    requires fits { Fits limits }
    requires book { opened.front.book ≡ L.book }
    requires tables { arc_value catalog ≡ L.tables }
    requires limits { limits ≡ L.limits }
    requires tied { RuleIsMembership L.holds L.book L.tables L.limits }
    requires name { opened.blank.name ≡ L.name }
    requires parts { opened.blank.parts ≡ L.parts }
{
    let events = limits.events;
    let opened = opened.named::<L, NoGate, &T>(rt, alloc, catalog, limits, NoGate);
    let (store, mut workers) = opened.expect(rt, "a store");
    let mut worker = workers.pop().expect(rt, "a worker");
    writes_five_slots(rt, alloc, &store, &mut worker);
    is_stopped(rt, alloc, &store, &mut worker, stopped(phase, events));
    same(rt, &worker.seen(), &events);
    done(store);
}

/// Asserts what a repair returns that steps by two, in no round.
fn is_stopped<L: Naming, T: Wait + Abort>(
    rt: &T,
    alloc: Global,
    store: &Store<L, NoGate, &T>,
    worker: &mut Worker<L>,
    fault: RepairFault,
) {
    let repaired = repair(rt, store, worker, delete_bob(rt, alloc), 2, 0);
    same(rt, &repaired, &Err(fault));
}

#[test]
fn a_full_history_stops_catching_up(rt: HostRuntime) {
    stops_catching_up(&rt, rt.alloc(), room_for(12));
}

/// Asserts that a repair does all slots that there are at first, and stops behind them.
fn stops_catching_up<T: Threads + Wait + Abort + Sync>(rt: &T, alloc: Global, limits: Limits) {
    assert!(rt; limits.fits());
    let catalog = bank(rt, alloc);
    let marks = Marks::new();
    let gate = Held { marks: &marks };
    fills_beside_an_insert::<Brand, T>(rt, alloc, Opened::new(2), catalog, limits, gate);
    marks.check(rt, 2);
}

fn fills_beside_an_insert<L: Naming + Send + Sync, T: Threads + Wait + Abort + Sync>(
    rt: &T,
    alloc: Global,
    opened: Opened,
    catalog: Arc<Catalog>,
    limits: Limits,
    gate: Held<'_>,
)
    requires fits { Fits limits }
    requires book { opened.front.book ≡ L.book }
    requires tables { arc_value catalog ≡ L.tables }
    requires limits { limits ≡ L.limits }
    requires tied { RuleIsMembership L.holds L.book L.tables L.limits }
    requires name { opened.blank.name ≡ L.name }
    requires parts { opened.blank.parts ≡ L.parts }
{
    let opened = opened.named::<L, Held<'_>, &T>(rt, alloc, catalog, limits, gate);
    let (store, mut workers) = opened.expect(rt, "a store");
    let second = workers.pop().expect(rt, "a second worker");
    let mut first = workers.pop().expect(rt, "a first worker");
    writes_five_slots(rt, alloc, &store, &mut first);
    join(
        rt,
        || is_stopped_in_a_round(rt, alloc, &store, first),
        || inserts_meanwhile(rt, alloc, &store, second, gate.marks),
    );
    done(store);
}

/// Asserts that a repair does the five slots of its beginning, and stops at the slot behind them.
fn is_stopped_in_a_round<L: Naming, T: Wait + Abort>(
    rt: &T,
    alloc: Global,
    store: &Store<L, Held<'_>, &T>,
    mut worker: Worker<L>,
) -> Worker<L> {
    let repaired = repair(rt, store, &mut worker, delete_bob(rt, alloc), 5, 1);
    same(rt, &repaired, &Err(stopped(Phase::CatchUp, 12)));
    worker
}

/// Inserts an account while the repair is held.
fn inserts_meanwhile<L: Naming, T: Wait + Abort>(
    rt: &T,
    alloc: Global,
    store: &Store<L, Held<'_>, &T>,
    mut worker: Worker<L>,
    marks: &Marks,
) -> Worker<L> {
    marks.wait_until_held();
    let written = store.write(rt, &mut worker, insert(rt, alloc, (4, "dan", 1)));
    assert!(rt; written.is_ok());
    marks.release();
    worker
}
