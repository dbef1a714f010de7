//! The service: a store, and its workers in threads of their own.
ghost use Rattle.std.specs.Arc.{arc_value};
ghost use Rattle.tt_db.specs.Limits.{usual_limits};
ghost use Rattle.tt_store.specs.Naming.{IsNameOf};

use crate::accounts::{open_account, pay};
use crate::administrator::repair_fee;
use crate::clerk::book_payments;
use crate::error::ServiceError;
use crate::summary::Summary;
use std::alloc::{AllocError, Global};
use std::sync::{Arc, Wait};
use std::thread::{Threads, join, map_vec};
use tt_db::Limits;
use tt_store::{Naming, NoGate, Opened, Store, Worker};
use tt_values::Catalog;

/// What a thread leaves: its worker, and whether its work was done.
#[derive(Drop)]
struct Shift<L: Naming> {
    worker: Worker<L>,
    done: Result<(), ServiceError>,
}

/// Opens the store, charges a fee by mistake, lets all work, and closes the store. `L` is the name
/// of the store, which the caller picks.
pub(crate) fn serve<L: Naming + Send + Sync, R: Threads + Wait + Sync>(
    rt: &R,
    alloc: Global,
    opened: Opened,
    catalog: Arc<Catalog>,
) -> Result<Summary, ServiceError>
    requires named { IsNameOf opened (arc_value catalog) usual_limits
        L.holds L.book L.tables L.limits L.name L.parts }
{
    let limits = Limits::usual();
    let (store, mut workers) = opened.named::<L, NoGate, &R>(rt, alloc, catalog, limits, NoGate)?;
    let mut administrator = workers.pop().ok_or(ServiceError::Close)?;
    let fee = charge_all(rt, alloc, &store, &mut administrator)?;
    let workers = work(rt, alloc, &store, workers, administrator, fee)?;
    match store.close(rt, workers) {
        Ok(closed) => Summary::of(alloc, &closed, fee),
        Err(_fault) => Err(ServiceError::Close),
    }
}

/// Opens three accounts, and charges a fee of 5 to all of them, though it was meant for the third.
/// Returns the slot of that.
fn charge_all<L: Naming, R: Wait>(
    rt: &R,
    alloc: Global,
    store: &Store<L, NoGate, &R>,
    worker: &mut Worker<L>,
) -> Result<u64, ServiceError> {
    store.write(rt, worker, open_account(alloc, 1, "ann")?)?;
    store.write(rt, worker, open_account(alloc, 2, "bob")?)?;
    store.write(rt, worker, open_account(alloc, 3, "eve")?)?;
    let written = store.write(rt, worker, pay(alloc, -5, None)?)?;
    Ok(written.slot)
}

/// Lets the administrator repair the fee while the clerks book payments. Returns all workers.
fn work<L: Naming + Send + Sync, R: Threads + Wait + Sync>(
    rt: &R,
    alloc: Global,
    store: &Store<L, NoGate, &R>,
    clerks: Vec<Worker<L>>,
    administrator: Worker<L>,
    fee: u64,
) -> Result<Vec<Worker<L>>, ServiceError> {
    let (repaired, booked) = join(
        rt,
        || administer(rt, alloc, store, administrator, fee),
        || book_all(rt, alloc, store, clerks),
    );
    let mut workers = Vec::new(alloc);
    for shift in booked? {
        workers.push(ended(shift)?)?;
    }
    workers.push(ended(repaired)?)?;
    Ok(workers)
}

/// Lets each clerk book its payments, in a thread of its own.
fn book_all<L: Naming + Send + Sync, R: Threads + Wait + Sync>(
    rt: &R,
    alloc: Global,
    store: &Store<L, NoGate, &R>,
    clerks: Vec<Worker<L>>,
) -> Result<Vec<Shift<L>>, AllocError> {
    map_vec(rt, clerks, &|worker| book(rt, alloc, store, worker))
}

/// The thread of a clerk.
fn book<L: Naming, R: Wait>(
    rt: &R,
    alloc: Global,
    store: &Store<L, NoGate, &R>,
    mut worker: Worker<L>,
) -> Shift<L> {
    let done = book_payments(rt, alloc, store, &mut worker);
    Shift { worker, done }
}

/// The thread of the administrator.
fn administer<L: Naming, R: Wait>(
    rt: &R,
    alloc: Global,
    store: &Store<L, NoGate, &R>,
    mut worker: Worker<L>,
    fee: u64,
) -> Shift<L> {
    let done = repair_fee(rt, alloc, store, &mut worker, fee);
    Shift { worker, done }
}

/// The worker of a shift whose work was done.
fn ended<L: Naming>(shift: Shift<L>) -> Result<Worker<L>, ServiceError> {
    let Shift { worker, done } = shift;
    done?;
    Ok(worker)
}
