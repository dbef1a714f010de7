use super::{Scenario, Scene, has, insert, inserts, last_of, plays, same, tries};
use std::alloc::Global;
use std::process::Abort;
use std::sync::Wait;
use std::test::*;
use tt_db::{DbError, Limits};
use tt_store::{Naming, NoGate, OpenError, Store, StoreError, Worker};

#[test]
fn a_store_has_one_to_sixteen_workers(rt: HostRuntime) {
    let alloc = rt.alloc();
    plays(&rt, alloc, 1, Scenario::HasWorkers(1));
    plays(&rt, alloc, 16, Scenario::HasWorkers(16));
    for workers in [0, 17] {
        let scenario = Scenario::HasWorkers(workers);
        let tried = tries(&rt, alloc, workers, Limits::usual(), scenario);
        same(&rt, &tried, &Err(OpenError::Workers));
    }
}

/// The store has this number of workers, numbered from 1.
pub(super) fn has_workers<L: Naming, T: Wait + Abort>(scene: Scene<'_, L, T>, count: u32) {
    let rt = scene.rt;
    let workers = &scene.workers;
    same(rt, &workers.len(), &(count as usize));
    for (position, worker) in workers.iter().enumerate() {
        same(rt, &(worker.number() as usize), &position.saturating_add(1));
    }
}

#[test]
fn a_third_slot_of_two_is_refused(rt: HostRuntime) {
    let limits = Limits {
        slots: 2,
        ..Limits::usual()
    };
    let tried = tries(&rt, rt.alloc(), 1, limits, Scenario::FillsTwoSlots);
    same(&rt, &tried, &Ok(()));
}

/// There is room for two slots.
pub(super) fn fills_two_slots<L: Naming, T: Wait + Abort>(scene: Scene<'_, L, T>) {
    let Scene {
        rt,
        alloc,
        store,
        mut workers,
    } = scene;
    let mut worker = last_of(rt, &mut workers);
    inserts(rt, alloc, &store, &mut worker, (1, "ann", 10), (1, 1));
    inserts(rt, alloc, &store, &mut worker, (2, "bob", 20), (2, 2));
    let third = store.write(rt, &mut worker, insert(rt, alloc, (3, "eve", 30)));
    let full = StoreError::Db(DbError::Full { limit: 2 });
    same(rt, &third.err(), &Some(full));
    has(rt, alloc, &mut worker, &[(1, "ann", 10), (2, "bob", 20)]);
}
