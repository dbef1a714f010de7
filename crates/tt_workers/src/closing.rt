//! The end of a run: the store is closed.
ghost use Rattle.std.specs.Prelude.{◌≡◌, IfOk, IfErr, All};
ghost use Rattle.tt_store.specs.History.{places_of};
ghost use Rattle.tt_store.specs.Workers.{IsAmong};
ghost use Rattle.tt_store.specs.Closing.{IsPartOf, IsOfWorker};
ghost use Rattle.tt_workers.specs.Faults.{IsStoreFault};

use crate::faults::fault_of_close;
use std::alloc::Global;
use std::sync::Wait;
use tt_db::Db;
use tt_store::{Closed, Gate, Naming, Store, Worker};
use tt_values::Shared;
use tt_workload::RunFault;

/// Closes a store with all of its workers. Returns the last database.
pub(crate) fn close<L: Naming, G: Gate + Drop, R: Wait + Drop>(
    rt: &impl Wait,
    alloc: Global,
    store: Store<L, G, R>,
    workers: Vec<Worker<L>>,
) -> Result<Shared<Db>, RunFault>
    ensures catalog { IfOk result (λ db. db.catalog ≡ L.tables) }
    ensures limits { IfOk result (λ db. db.limits ≡ L.limits) }
    ensures made { IfOk result (λ db.
        All (λ w. IsAmong w.own (places_of w.number w.seen)) workers.items) }
    ensures parts { IfOk result (λ db. All (IsPartOf db.history) workers.items) }
    ensures entries { IfOk result (λ db. All (IsOfWorker L.parts) db.history) }
    ensures fault { IfErr result IsStoreFault }
{
    see_made(&workers);
    match store.close(rt, workers) {
        Ok(closed) => Ok(last_db(closed)),
        Err(fault) => Err(fault_of_close(alloc, fault)),
    }
}

/// The database that a closed store leaves.
fn last_db(closed: Closed) -> Shared<Db>
    ensures { result ≡ closed.db }
{
    let Closed { db, .. } = closed;
    db
}

/// What workers have made lies in what they have seen.
fn see_made<L: Naming>(workers: &[Worker<L>])
    ensures { All (λ w. IsAmong w.own (places_of w.number w.seen)) workers.now }
{
    for worker in workers {
        worker.made();
    }
}
