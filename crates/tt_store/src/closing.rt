//! The end of a store.
ghost use Rattle.std.specs.Prelude.{◌≡◌, ◌+◌, ◌<◌, [], length, replicate, vec_len, All, IfOk, IfErr, IsTrue, MatchBool};
ghost use Rattle.tt_store.specs.Closing.{EachOnce, IsBehind, IsNumbered, IsUnclosed, lists_of, with_places, places_made, bearers};
ghost use Rattle.tt_store.specs.Closed.{Closes, HandsBack};

use crate::gate::Gate;
use crate::locked::Core;
use crate::snapshot::Naming;
use crate::store::Store;
use crate::worker::Worker;
use std::alloc::{AllocError, Global};
use std::sync::Wait;
use std::sync::ledger::Share;
use tt_db::Db;
use tt_values::Shared;

/// What a closed store leaves: the database with its whole history, and the places of each worker's
/// entries there; those of worker n stand at position n - 1.
#[derive(Drop)]
pub struct Closed {
    pub db: Shared<Db>,
    pub places: Vec<Vec<u64>>,
}

/// Why a store isn't closed. The store and its workers are handed back as they were.
#[derive(Drop)]
pub enum CloseFault<L: Naming, G: Gate + Drop, R: Wait + Drop> {
    /// The workers aren't those that came with the store, each once.
    Missing {
        store: Store<L, G, R>,
        workers: Vec<Worker<L>>,
    },
    /// A worker has seen more than the store has under its lock, or there is no reading.
    NoReading {
        store: Store<L, G, R>,
        workers: Vec<Worker<L>>,
    },
    /// Out of memory.
    Memory {
        store: Store<L, G, R>,
        workers: Vec<Worker<L>>,
    },
}

/// Why workers don't close a store.
#[derive(Clone, Copy)]
pub(crate) enum Unclosed {
    Missing,
    NoReading,
    Memory,
}

/// An empty list of places for each worker, where these are all workers of the store, and none has
/// seen more than the store has under its lock.
pub(crate) fn room_for<L: Naming, R: Wait + Drop>(
    alloc: Global,
    core: &Core<L, R>,
    workers: &[Worker<L>],
) -> Result<Vec<Vec<u64>>, Unclosed>
    ensures each_once { IfOk result (λ _. EachOnce L.parts workers.now) }
    ensures behind { IfOk result (λ _. All (IsBehind core.now) workers.now) }
    ensures room { IfOk result (λ places. lists_of places.items ≡ replicate L.parts []) }
    ensures unclosed { IfErr result (λ unclosed. IsUnclosed L.parts workers.now unclosed) }
{
    if !are_each_once(workers, core.workers()) {
        return Err(Unclosed::Missing);
    }
    if !are_behind(core, workers) {
        return Err(Unclosed::NoReading);
    }
    match empty_lists(alloc, core.workers()) {
        Ok(places) => Ok(places),
        Err(AllocError) => Err(Unclosed::Memory),
    }
}

/// Whether all workers have seen beginnings of the history.
fn are_behind<L: Naming, R: Wait + Drop>(core: &Core<L, R>, workers: &[Worker<L>]) -> bool
    ensures { IsTrue result → All (IsBehind core.now) workers.now }
{
    for worker in workers {
        if !core.is_ahead_of(worker) {
            return false;
        }
    }
    true
}

/// As many empty lists as `count` says.
fn empty_lists(alloc: Global, count: u32) -> Result<Vec<Vec<u64>>, AllocError>
    ensures { IfOk result (λ lists. lists_of lists.items ≡ replicate count []) }
{
    let mut lists = Vec::with_capacity(alloc, count as usize)?;
    for _ in 0..count {
        lists.push_reserved(Vec::new(alloc));
    }
    Ok(lists)
}

/// What a store and its workers leave, once they were looked at.
pub(crate) fn closed_of<L: Naming, R: Wait + Drop>(
    core: Core<L, R>,
    workers: Vec<Worker<L>>,
    mut places: Vec<Vec<u64>>,
) -> Closed
    requires each_once { EachOnce L.parts workers.items }
    requires behind { All (IsBehind core) workers.items }
    requires room { lists_of places.items ≡ replicate L.parts [] }
    ensures { Closes L.tables L.limits L.parts workers.items result }
{
    let (latest, mut ledger, mut whole) = core.into_parts();
    take_in(workers, &mut places, &mut whole);
    ledger.audit(&mut whole);
    Closed {
        db: latest.into_db(),
        places,
    }
}

/// Puts the places of each worker where its number says, and its part of the ledger to the others.
fn take_in<L: Naming>(workers: Vec<Worker<L>>, places: &mut Vec<Vec<u64>>, whole: &mut Share<L>)
    requires { All (IsNumbered (vec_len places.old)) workers.items }
    ensures places { lists_of places.new.items
        ≡ with_places (lists_of places.old.items) workers.items }
    ensures parts { whole.new.parts ≡ whole.old.parts + length workers.items }
    ensures amount { whole.new.amount ≡ whole.old.amount + places_made workers.items }
{
    for worker in workers {
        let position = worker.number() as usize - 1;
        let (own, share) = worker.into_parts();
        places[position] = own;
        whole.merge(share);
    }
}

/// The store and its workers, handed back.
pub(crate) fn fault_of<L: Naming, G: Gate + Drop, R: Wait + Drop>(
    unclosed: Unclosed,
    store: Store<L, G, R>,
    workers: Vec<Worker<L>>,
) -> CloseFault<L, G, R>
    requires { IsUnclosed L.parts workers.items unclosed }
    ensures { HandsBack L.parts workers.items result }
{
    match unclosed {
        Unclosed::Missing => CloseFault::Missing { store, workers },
        Unclosed::NoReading => CloseFault::NoReading { store, workers },
        Unclosed::Memory => CloseFault::Memory { store, workers },
    }
}

/// Whether the workers bear the numbers from 1 to `count`, each once.
fn are_each_once<L: Naming>(workers: &[Worker<L>], count: u32) -> bool
    ensures { MatchBool result (EachOnce count workers.now) (EachOnce count workers.now → ⊥) }
{
    if workers.len() != count as usize {
        return false;
    }
    for before in 0..count {
        if bearers(workers, before + 1) != 1 {
            return false;
        }
    }
    true
}

/// How many workers bear a number.
fn bearers<L: Naming>(workers: &[Worker<L>], number: u32) -> usize
    ensures { result ≡ bearers number workers.now }
{
    let mut count = 0;
    for worker in workers {
        if number == worker.number() {
            count += 1;
        }
    }
    count
}
