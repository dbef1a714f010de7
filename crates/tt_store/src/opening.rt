ghost use Rattle.std.specs.Prelude.{◌≡◌, ◌<◌, ◌≤◌, ◌⊎◌, ◌↔◌, [], IfOk, IfErr, OnOk, ◌≢◌};
ghost use Rattle.std.specs.Arc.{arc_value};
ghost use Rattle.tt_db.specs.Limits.{Fits};
ghost use Rattle.tt_store.specs.Published.{RuleIsMembership, IsOf};
ghost use Rattle.tt_store.specs.Opening.{max_workers, new_workers, new_worker};

use crate::errors::OpenError;
use crate::front::{Front, Head};
use crate::gate::Gate;
use crate::locked::Core;
use crate::snapshot::{Naming, Publisher, Snapshot};
use crate::store::Store;
use crate::worker::Worker;
use std::alloc::{AllocError, Global};
use std::sync::ledger::{Blank, Share};
use std::sync::{Arc, Wait};
use tt_db::{Db, Limits};
use tt_values::{Catalog, Shared};

/// The largest number of workers of a store.
pub const MAX_WORKERS: u32 = 16;

/// What a store is opened from: a history without entries, and the number of its workers. `named`
/// makes the store.
#[derive(Drop)]
pub struct Opened {
    head: Head,
    front: Front,
    blank: Blank,
    workers: u32,
    pub ghost empty: { front.entries ≡ [] },
    pub ghost head_is: { head ≡ front.book },
    pub ghost parts: { blank.parts ≡ workers },
}

impl Opened {
    /// For this number of workers, 1 to 16; `named` refuses any other. Takes no memory.
    pub fn new(workers: u32) -> Opened
        ensures { result.workers ≡ workers }
    {
        let (head, front) = Front::open();
        Opened {
            head,
            front,
            blank: Blank::new(u64::from(workers)),
            workers,
        }
    }

    /// Opens the store on these tables and within these limits, which must fit. Its workers are
    /// numbered from 1 in the order of the list. L names the store: a function that is generic in L
    /// calls this, and its caller gives it `Brand` for L. Such a function requires `IsNameOf` of
    /// its L, which is all that is required of L here. The store keeps `rt`, to wait for readers at
    /// its end, and passes `gate` at the points of its calls. A refusal hands nothing back.
    pub fn named<L: Naming, G: Gate + Drop, R: Wait + Drop>(
        self,
        rt: R,
        alloc: Global,
        catalog: Arc<Catalog>,
        limits: Limits,
        gate: G,
    ) -> Result<(Store<L, G, R>, Vec<Worker<L>>), OpenError>
        requires fits { Fits limits }
        requires book { self.front.book ≡ L.book }
        requires tables { arc_value catalog ≡ L.tables }
        requires limits { limits ≡ L.limits }
        requires tied { RuleIsMembership L.holds L.book L.tables L.limits }
        requires name { self.blank.name ≡ L.name }
        requires parts { self.blank.parts ≡ L.parts }
        ensures workers { IfOk result (λ r. r.1.items ≡ new_workers self.workers) }
        ensures within { OnOk result ((0 < self.workers) × (self.workers ≤ max_workers)) }
        ensures number { IfErr result (λ e. (e ≡ OpenError.Workers)
            ↔ ((self.workers ≡ 0) ⊎ (max_workers < self.workers))) }
    {
        let Opened {
            head,
            front,
            blank,
            workers,
        } = self;
        if workers == 0 || workers > MAX_WORKERS {
            return Err(OpenError::Workers);
        }
        let snapshot = match first_snapshot(alloc, catalog, limits, front) {
            Ok(snapshot) => snapshot,
            Err(error) => return Err(error),
        };
        let publisher = match Publisher::open(rt, alloc, &snapshot, workers) {
            Ok(publisher) => publisher,
            Err(error) => return Err(error),
        };
        let (ledger, mut whole) = blank.open::<L>();
        let empty = whole.empty();
        let list = match new_workers(alloc, &publisher, &snapshot, whole, workers) {
            Ok(list) => list,
            Err(error) => return Err(error),
        };
        let core = Core::new(publisher, head, snapshot, ledger, workers, empty);
        Ok((Store::over(alloc, core, gate), list))
    }
}

/// New workers, numbered from 1 to `count`, each with one part of the ledger.
fn new_workers<L: Naming, R: Wait + Drop>(
    alloc: Global,
    publisher: &Publisher<L, R>,
    snapshot: &Snapshot,
    mut whole: Share<L>,
    count: u32,
) -> Result<Vec<Worker<L>>, OpenError>
    requires tied { RuleIsMembership L.holds L.book L.tables L.limits }
    requires of { IsOf L.book L.tables L.limits snapshot.now }
    requires empty { snapshot.now.db.history ≡ [] }
    requires parts { whole.parts ≡ count }
    requires amount { whole.amount ≡ 0 }
    ensures workers { IfOk result (λ list. list.items ≡ new_workers count) }
    ensures error { IfErr result (λ e. e ≢ OpenError.Workers) }
{
    let mut list = match Vec::with_capacity(alloc, count as usize) {
        Ok(list) => list,
        Err(AllocError) => return Err(OpenError::Memory),
    };
    for index in 0..count {
        let share = whole.split_off(1, 0);
        match new_worker(alloc, publisher, snapshot, share, index + 1) {
            Ok(worker) => list.push_reserved(worker),
            Err(error) => return Err(error),
        }
    }
    Ok(list)
}

/// A new worker.
fn new_worker<L: Naming, R: Wait + Drop>(
    alloc: Global,
    publisher: &Publisher<L, R>,
    snapshot: &Snapshot,
    share: Share<L>,
    number: u32,
) -> Result<Worker<L>, OpenError>
    requires tied { RuleIsMembership L.holds L.book L.tables L.limits }
    requires of { IsOf L.book L.tables L.limits snapshot.now }
    requires empty { snapshot.now.db.history ≡ [] }
    requires parts { share.parts ≡ 1 }
    requires amount { share.amount ≡ 0 }
    ensures worker { IfOk result (λ w. w ≡ new_worker number) }
    ensures error { IfErr result (λ e. e ≢ OpenError.Workers) }
{
    let Ok(seen) = snapshot.share() else {
        return Err(OpenError::Memory);
    };
    match publisher.reader() {
        Ok(reader) => Ok(Worker::new(alloc, number, reader, seen, share)),
        Err(AllocError) => Err(OpenError::Place),
    }
}

/// The snapshot of a database without events.
fn first_snapshot(
    alloc: Global,
    catalog: Arc<Catalog>,
    limits: Limits,
    front: Front,
) -> Result<Snapshot, OpenError>
    requires fits { Fits limits }
    requires empty { front.entries ≡ [] }
    ensures book { IfOk result (λ s. s.book ≡ front.book) }
    ensures db { IfOk result (λ s. s.db ≡ record {
      catalog = arc_value catalog;
      limits = limits;
      history = [];
    }) }
    ensures error { IfErr result (λ e. e ≢ OpenError.Workers) }
{
    match Shared::new(alloc, Db::new(alloc, catalog, limits)) {
        Ok(db) => Ok(Snapshot::new(db, front)),
        Err(AllocError) => Err(OpenError::Memory),
    }
}
