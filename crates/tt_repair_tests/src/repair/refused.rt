//! Repairs that are refused at their beginning.
ghost use Rattle.std.specs.Prelude.{◌≡◌};
ghost use Rattle.std.specs.Arc.{arc_value};
ghost use Rattle.tt_db.specs.Limits.{usual_limits};
ghost use Rattle.tt_store.specs.Published.{RuleIsMembership};

use super::{bank, delete_bob, done, same, writes_five_slots};
use std::alloc::Global;
use std::marker::Brand;
use std::process::Abort;
use std::sync::{Arc, Wait};
use std::test::*;
use tt_db::{DbError, Limits};
use tt_repair::{Phase, RepairFault, repair};
use tt_store::{Naming, NoGate, Opened, Store, StoreError, Worker};
use tt_values::Catalog;

#[test]
fn a_second_repair_is_refused(rt: HostRuntime) {
    let alloc = rt.alloc();
    let catalog = bank(&rt, alloc);
    begins_twice::<Brand, _>(&rt, alloc, Opened::new(2), catalog);
}

fn begins_twice<L: Naming, T: Wait + Abort>(
    rt: &T,
    alloc: Global,
    opened: Opened,
    catalog: Arc<Catalog>,
)
    requires book { opened.front.book ≡ L.book }
    requires tables { arc_value catalog ≡ L.tables }
    requires limits { usual_limits ≡ L.limits }
    requires tied { RuleIsMembership L.holds L.book L.tables L.limits }
    requires name { opened.blank.name ≡ L.name }
    requires parts { opened.blank.parts ≡ L.parts }
{
    let opened = opened.named::<L, NoGate, &T>(rt, alloc, catalog, Limits::usual(), NoGate);
    let (store, mut workers) = opened.expect(rt, "a store");
    let mut second = workers.pop().expect(rt, "a second worker");
    let mut first = workers.pop().expect(rt, "a first worker");
    writes_five_slots(rt, alloc, &store, &mut first);
    begins(rt, alloc, &store, &mut first);
    is_refused(rt, alloc, &store, &mut second);
    done(store);
}

/// Begins a repair of the fourth slot.
fn begins<L: Naming, T: Wait + Abort>(
    rt: &T,
    alloc: Global,
    store: &Store<L, NoGate, &T>,
    worker: &mut Worker<L>,
) {
    let begun = store.begin(rt, worker, delete_bob(rt, alloc));
    same(rt, &begun, &Ok(6));
}

/// Asserts that a worker that has seen all can't begin another repair, nor make one.
fn is_refused<L: Naming, T: Wait + Abort>(
    rt: &T,
    alloc: Global,
    store: &Store<L, NoGate, &T>,
    worker: &mut Worker<L>,
) {
    same(rt, &store.refresh(rt, worker), &Ok(6));
    let cause = StoreError::Db(DbError::Repairing);
    let begun = store.begin(rt, worker, delete_bob(rt, alloc));
    same(rt, &begun, &Err(cause));
    let repaired = repair(rt, store, worker, delete_bob(rt, alloc), 2, 0);
    let fault = RepairFault {
        phase: Phase::Begin,
        still_open: false,
        cause,
    };
    same(rt, &repaired, &Err(fault));
}
