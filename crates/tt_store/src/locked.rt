//! What lies under the lock of a store.
ghost use Rattle.std.specs.Prelude.{◌≡◌, [], length, IfErr, OnOk, IsSome, IsTrue};
ghost use mathlib.Core.List.{IsPrefix};
ghost use Rattle.tt_store.specs.Published.{IsOf, RuleIsMembership};
ghost use Rattle.tt_store.specs.Workers.{Looks};
ghost use Rattle.tt_store.specs.Drafts.{IsMadeBy, Commits, PublishesOrRefuses, IsMissed, race, answer_of};
ghost use Rattle.tt_store.specs.Closing.{IsBehind};

use crate::call::{Call, Draft};
use crate::errors::{StoreError, error_of, error_of_read};
use crate::front::Head;
use crate::gate::{Gate, Point};
use crate::snapshot::{Naming, Publisher, Snapshot};
use crate::worker::Worker;
use std::alloc::{AllocError, Global};
use std::marker::Model;
use std::sync::Wait;
use std::sync::ledger::{Book, Share};
use tt_db::Outcome;

/// The latest state, the word that counts the history, and the sum of what the workers made, with
/// how many workers there are and a share of the ledger without parts. Contracts see its history.
pub(crate) struct Core<L: Naming, R: Wait + Drop> {
    publisher: Option<Publisher<L, R>>,
    head: Head,
    latest: Snapshot,
    ledger: Book<L>,
    workers: u32,
    empty: Share<L>,
}

// Written out, so that each place that lets one go calls one function.
impl<L: Naming, R: Wait + Drop> Drop for Core<L, R> {
    fn drop(self) {
        let Core {
            publisher: _,
            head: _,
            latest: _,
            ledger: _,
            workers: _,
            empty: _,
        } = self;
    }
}

impl<L: Naming, R: Wait + Drop> Model for Core<L, R> {
    ghost use Rattle.std.specs.Prelude.{◌≡◌, length, List, IsSome};
    ghost use Rattle.tt_db.specs.declared.event.Entry.{Entry};
    ghost use Rattle.tt_store.specs.Published.{RuleIsMembership, IsOf};

    ghost Value = { List Entry };

    ghost view = { λ c. c.latest.db.history };

    ghost invariant = { λ c. IsSome c.publisher
        × RuleIsMembership L.holds L.book L.tables L.limits
        × IsOf L.book L.tables L.limits c.latest
        × (c.head ≡ L.book)
        × (c.ledger.total ≡ length c.latest.db.history)
        × (c.workers ≡ L.parts)
        × (c.empty.parts ≡ 0)
        × (c.empty.amount ≡ 0) };
}

impl<L: Naming, R: Wait + Drop> Core<L, R> {
    /// The core of a new store.
    pub(crate) fn new(
        publisher: Publisher<L, R>,
        head: Head,
        latest: Snapshot,
        ledger: Book<L>,
        workers: u32,
        empty: Share<L>,
    ) -> Core<L, R>
        requires tied { RuleIsMembership L.holds L.book L.tables L.limits }
        requires of { IsOf L.book L.tables L.limits latest }
        requires head { head ≡ L.book }
        requires empty { latest.db.history ≡ [] }
        requires total { ledger.total ≡ 0 }
        requires workers { workers ≡ L.parts }
        requires parts { empty.parts ≡ 0 }
        requires amount { empty.amount ≡ 0 }
        ensures { result ≡ [] }
    {
        Core {
            publisher: Some(publisher),
            head,
            latest,
            ledger,
            workers,
            empty,
        }
    }

    /// How many workers the store was opened with.
    pub(crate) fn workers(&self) -> u32
        ensures { result ≡ L.parts }
    {
        self.workers
    }

    /// Whether a worker has seen a beginning of the history.
    pub(crate) fn is_ahead_of(&self, worker: &Worker<L>) -> bool
        ensures { IsTrue result → IsBehind self.now worker.now }
    {
        worker.is_behind(&self.latest)
    }

    /// Whether a worker has seen just the history.
    pub(crate) fn is_seen_by(&self, worker: &Worker<L>) -> bool
        ensures { IsTrue result → self.now ≡ worker.now.seen }
    {
        worker.is_at(&self.latest)
    }

    /// The latest state, the sum of what the workers made, and the share without parts.
    pub(crate) fn into_parts(self) -> (Snapshot, Book<L>, Share<L>)
        ensures of { IsOf L.book L.tables L.limits result.0 }
        ensures history { result.0.db.history ≡ self }
        ensures total { result.1.total ≡ length self }
        ensures parts { result.2.parts ≡ 0 }
        ensures amount { result.2.amount ≡ 0 }
    {
        let Self {
            publisher: _,
            head: _,
            latest,
            ledger,
            workers: _,
            empty,
        } = self;
        (latest, ledger, empty)
    }

    /// Lets a worker see the whole history.
    pub(crate) fn bring_up_to_date(&self, worker: &mut Worker<L>) -> Result<(), AllocError>
        ensures looks { Looks worker.old worker.new }
        ensures up_to_date { OnOk result (IsPrefix self.now worker.new.seen) }
    {
        let latest = self.latest.share()?;
        worker.keep(latest);
        Ok(())
    }

    /// Publishes a draft whole, if its worker has seen all of the history: returns its outcome, or
    /// None if it hasn't. Without memory nothing changes either.
    pub(crate) fn commit<G: Gate>(
        &mut self,
        gate: &G,
        worker: &mut Worker<L>,
        draft: Draft,
    ) -> Result<Option<Outcome>, AllocError>
        requires tables { draft.for_worker.catalog ≡ L.tables }
        requires limits { draft.for_worker.limits ≡ L.limits }
        requires made { IsMadeBy worker.old draft.for_worker.history }
        ensures { Commits worker.old worker.new self.old self.new draft.for_worker
            draft.outcome result }
    {
        if !worker.is_at(&self.latest) {
            return Ok(None);
        }
        gate.at(worker.number(), Point::Locked);
        let Draft {
            for_worker,
            for_store,
            for_readers,
            outcome,
        } = draft;
        if !worker.add(&self.head, &mut self.ledger, for_worker)? {
            return Ok(None);
        }
        self.latest = Snapshot::new(for_store, worker.front().share());
        let snapshot = Snapshot::new(for_readers, worker.front().share());
        self.publisher = publish_by(self.publisher.take(), snapshot);
        gate.at(worker.number(), Point::Published);
        Ok(Some(outcome))
    }

    /// Publishes the events of a call, at all that was published before.
    #[tactic(auto, using(crate::proofs::RaceLemmas::refused_missed))]
    pub(crate) fn publish<G: Gate>(
        &mut self,
        gate: &G,
        worker: &mut Worker<L>,
        alloc: Global,
        call: &Call,
    ) -> Result<Option<Outcome>, StoreError>
        ensures { PublishesOrRefuses L.tables L.limits call.now worker.old worker.new result }
    {
        if let Err(error) = self.catch_up(worker) {
            return Err(error);
        }
        gate.at(worker.number(), Point::Building);
        match worker.draft(alloc, call) {
            Ok(Some(draft)) => answer_of(self.commit(gate, worker, draft)),
            Ok(None) => Ok(None),
            Err(unreached) => Err(error_of(unreached)),
        }
    }

    /// Lets a worker see all of the history, so that the next entries go behind it.
    #[tactic(auto, using(crate::proofs::RaceLemmas::missed_by_race, crate::proofs::RaceLemmas::missed_unread))]
    fn catch_up(&self, worker: &mut Worker<L>) -> Result<(), StoreError>
        ensures looks { Looks worker.old worker.new }
        ensures up_to_date { OnOk result (IsPrefix self.now worker.new.seen) }
        ensures missed { IfErr result (IsMissed self.now worker.old.seen worker.new.seen) }
    {
        let before = worker.seen();
        if let Err(unread) = worker.look() {
            return Err(error_of_read(unread));
        }
        if !worker.front().begins(self.latest.front()) {
            return Err(raced(before, worker.seen(), self.latest.len()));
        }
        match self.bring_up_to_date(worker) {
            Ok(()) => Ok(()),
            Err(AllocError) => Err(StoreError::Memory),
        }
    }
}

/// Publishes a snapshot to readers, where there is a publisher.
fn publish_by<L: Naming, R: Wait + Drop>(
    publisher: Option<Publisher<L, R>>,
    snapshot: Snapshot,
) -> Option<Publisher<L, R>>
    requires tied { RuleIsMembership L.holds L.book L.tables L.limits }
    requires of { IsOf L.book L.tables L.limits snapshot }
    ensures { IsSome publisher → IsSome result }
{
    match publisher {
        Some(publisher) => Some(publisher.publish(snapshot).0),
        None => None,
    }
}

/// What a call returns after its last try, under the lock.
fn answer_of(committed: Result<Option<Outcome>, AllocError>) -> Result<Option<Outcome>, StoreError>
    ensures { result ≡ answer_of committed }
{
    match committed {
        Ok(Some(outcome)) => Ok(Some(outcome)),
        Ok(None) => Err(StoreError::NoReading),
        Err(AllocError) => Err(StoreError::Memory),
    }
}

/// Why a worker can't publish that had seen `before` entries and has read `read`, where the store
/// has `latest` under its lock.
fn raced(before: u64, read: u64, latest: u64) -> StoreError
    ensures { result ≡ race before read latest }
{
    if before <= latest && latest < read {
        StoreError::Raced { read, told: latest }
    } else {
        StoreError::NoReading
    }
}
