ghost use Rattle.std.specs.Prelude.{◌≡◌, length, IfOk, IfErr};
ghost use Rattle.tt_store.specs.Workers.{Looks, IsRefused};
ghost use Rattle.tt_store.specs.Drafts.{Tries, PublishesOrRefuses, CommitsOrRetries, IsMadeBy, attempt_of};
ghost use Rattle.tt_store.specs.Store.{Wrote, Placed, Stepped, HasFinished};
ghost use Rattle.tt_store.specs.Closed.{Closes, HandsBack};

use crate::answer::{Finished, Written, finished_of, progress_of, written_of};
use crate::call::{Call, Draft};
use crate::closing::{CloseFault, Closed, closed_of, fault_of, room_for};
use crate::errors::{StoreError, error_of, error_of_read};
use crate::gate::{Gate, Point};
use crate::locked::Core;
use crate::snapshot::Naming;
use crate::worker::Worker;
use std::alloc::{AllocError, Global};
use std::sync::{Mutex, Wait};
use tt_db::{Edit, Event, Outcome, Progress};
use tt_values::{Action, Items};

/// How often a call that publishes builds its state without the lock, before it does so under it.
const TRIES: u32 = 4;

/// The result of a try to publish.
#[derive(Drop)]
enum Attempt {
    /// It was published, and this is the outcome of the last event, if there was one.
    Done(Option<Outcome>),
    /// Another worker was faster.
    Again,
}

/// A database that several threads share: one history, to which workers add by calls of the store,
/// and which they read without it.
pub struct Store<L: Naming, G: Gate + Drop, R: Wait + Drop> {
    alloc: Global,
    core: Mutex<Core<L, R>>,
    gate: G,
}

// Written out, so that each place that lets one go calls one function.
impl<L: Naming, G: Gate + Drop, R: Wait + Drop> Drop for Store<L, G, R> {
    fn drop(self) {
        let Store {
            alloc: _,
            core: _,
            gate: _,
        } = self;
    }
}

impl<L: Naming, G: Gate + Drop, R: Wait + Drop> Store<L, G, R> {
    /// The store over this core.
    pub(crate) fn over(alloc: Global, core: Core<L, R>, gate: G) -> Store<L, G, R> {
        Store {
            alloc,
            core: Mutex::new(core),
            gate,
        }
    }

    /// What it is made of.
    pub(crate) fn into_parts(self) -> (Global, Core<L, R>, G) {
        let Self { alloc, core, gate } = self;
        (alloc, core.into_inner(), gate)
    }

    /// Carries out an action, as one slot: its writes in order. Returns the place of its entry, its
    /// slot and the replies to its writes, of a whole action up to the first without an effect.
    #[tactic(auto, using(crate::proofs::PublicLemmas::wrote, crate::proofs::PublicLemmas::outcome_of_action))]
    pub fn write(
        &self,
        rt: &impl Wait,
        worker: &mut Worker<L>,
        action: Action,
    ) -> Result<Written, StoreError>
        ensures wrote { IfOk result (λ w.
            Wrote L.tables L.limits action worker.old worker.new w) }
        ensures refused { IfErr result (λ e. IsRefused L.tables L.limits
            (Call.One (Event.Write action)) worker.old worker.new e) }
    {
        let call = Call::One(Event::Write(action));
        match self.publish(rt, worker, &call) {
            Ok(outcome) => Ok(written_of(worker.seen(), outcome)),
            Err(error) => Err(error),
        }
    }

    /// Begins a repair with these edits of slots. Returns the place of its entry. No current answer
    /// changes.
    #[tactic(auto, using(crate::proofs::PublicLemmas::placed_begin))]
    pub fn begin(
        &self,
        rt: &impl Wait,
        worker: &mut Worker<L>,
        edits: Items<Edit>,
    ) -> Result<u64, StoreError>
        ensures begun { IfOk result (λ place. Placed L.tables L.limits (Event.Begin edits)
            worker.old worker.new place) }
        ensures refused { IfErr result (λ e. IsRefused L.tables L.limits
            (Call.One (Event.Begin edits)) worker.old worker.new e) }
    {
        let call = Call::One(Event::Begin(edits));
        match self.publish(rt, worker, &call) {
            Ok(_) => Ok(worker.seen()),
            Err(error) => Err(error),
        }
    }

    /// Gives up the repair that is under way, whoever began it. Returns the place of its entry. No
    /// current answer changes.
    #[tactic(auto, using(crate::proofs::PublicLemmas::placed_abort))]
    pub fn abort(&self, rt: &impl Wait, worker: &mut Worker<L>) -> Result<u64, StoreError>
        ensures aborted { IfOk result (λ place. Placed L.tables L.limits Event.Abort
            worker.old worker.new place) }
        ensures refused { IfErr result (λ e. IsRefused L.tables L.limits
            (Call.One Event.Abort) worker.old worker.new e) }
    {
        match self.publish(rt, worker, &Call::One(Event::Abort)) {
            Ok(_) => Ok(worker.seen()),
            Err(error) => Err(error),
        }
    }

    /// Makes steps of the repair that is under way: `most` of them, or as many as it has slots left
    /// if these are fewer. They are published together, and none publishes nothing. Returns how far
    /// the repair is then. No current answer changes.
    #[tactic(auto, using(crate::proofs::PublicLemmas::stepped, crate::proofs::PublicLemmas::progress_known))]
    pub fn step(
        &self,
        rt: &impl Wait,
        worker: &mut Worker<L>,
        most: u32,
    ) -> Result<Progress, StoreError>
        ensures stepped { IfOk result (λ p.
            Stepped L.tables L.limits most worker.old worker.new p) }
        ensures refused { IfErr result (λ e. IsRefused L.tables L.limits
            (Call.Steps most) worker.old worker.new e) }
    {
        match self.publish(rt, worker, &Call::Steps(most)) {
            Ok(_) => Ok(progress_of(worker.progress())),
            Err(error) => Err(error),
        }
    }

    /// Makes all steps that the repair has left, and switches to the next generation. These are
    /// published together, or none of them is. Afterwards the current answers are those of the
    /// slots as edited, with each action that was carried out during the repair.
    #[tactic(auto, using(crate::proofs::PublicLemmas::finished, crate::proofs::PublicLemmas::outcome_of_switch))]
    pub fn finish(&self, rt: &impl Wait, worker: &mut Worker<L>) -> Result<Finished, StoreError>
        ensures finished { IfOk result (λ f.
            HasFinished L.tables L.limits worker.old worker.new f) }
        ensures refused { IfErr result (λ e. IsRefused L.tables L.limits
            Call.Finish worker.old worker.new e) }
    {
        match self.publish(rt, worker, &Call::Finish) {
            Ok(outcome) => Ok(finished_of(worker.seen(), outcome)),
            Err(error) => Err(error),
        }
    }

    /// Lets a worker see all that was published when it held the lock. Returns how many entries it
    /// has seen then. The one refusal is `Memory`.
    pub fn refresh(&self, rt: &impl Wait, worker: &mut Worker<L>) -> Result<u64, StoreError>
        ensures looks { Looks worker.old worker.new }
        ensures seen { IfOk result (λ n. n ≡ length worker.new.seen) }
        ensures memory { IfErr result (λ e. e ≡ StoreError.Memory) }
    {
        match self.core.lock(rt).bring_up_to_date(worker) {
            Ok(()) => Ok(worker.seen()),
            Err(AllocError) => Err(StoreError::Memory),
        }
    }

    /// Closes the store with all of its workers, handed in in any order. Returns the database that
    /// has the whole history, and for each worker the places of its entries. A refusal hands the
    /// store and the workers back as they were.
    pub fn close(
        self,
        _rt: &impl Wait,
        workers: Vec<Worker<L>>,
    ) -> Result<Closed, CloseFault<L, G, R>>
        ensures closed { IfOk result (λ closed.
            Closes L.tables L.limits L.parts workers.items closed) }
        ensures fault { IfErr result (λ fault. HandsBack L.parts workers.items fault) }
    {
        let (alloc, core, gate) = self.into_parts();
        match room_for(alloc, &core, &workers) {
            Ok(places) => Ok(closed_of(core, workers, places)),
            Err(unclosed) => {
                let store = Store::over(alloc, core, gate);
                Err(fault_of(unclosed, store, workers))
            }
        }
    }

    /// Publishes the events of a call: up to four tries without the lock, and then one under it.
    #[tactic(auto, using(crate::proofs::DraftLemmas::publishes_later, crate::proofs::DraftLemmas::refused_later))]
    fn publish(
        &self,
        rt: &impl Wait,
        worker: &mut Worker<L>,
        call: &Call,
    ) -> Result<Option<Outcome>, StoreError>
        ensures { PublishesOrRefuses L.tables L.limits call.now worker.old worker.new result }
    {
        for _ in 0..TRIES {
            match self.attempt(rt, worker, call) {
                Ok(Attempt::Done(outcome)) => return Ok(outcome),
                Ok(Attempt::Again) => {}
                Err(error) => return Err(error),
            }
        }
        self.core
            .lock(rt)
            .publish(&self.gate, worker, self.alloc, call)
    }

    /// One try: the new state is built without the lock, and published where nobody was faster.
    #[tactic(auto, using(crate::proofs::DraftLemmas::tries_committed, crate::proofs::DraftLemmas::refused_draft))]
    fn attempt(
        &self,
        rt: &impl Wait,
        worker: &mut Worker<L>,
        call: &Call,
    ) -> Result<Attempt, StoreError>
        ensures { Tries L.tables L.limits call.now worker.old worker.new result }
    {
        if let Err(unread) = worker.look() {
            return Err(error_of_read(unread));
        }
        self.gate.at(worker.number(), Point::Building);
        match worker.draft(self.alloc, call) {
            Ok(Some(draft)) => self.commit(rt, worker, draft),
            Ok(None) => Ok(Attempt::Done(None)),
            Err(unreached) => Err(error_of(unreached)),
        }
    }

    /// Publishes a draft, where nobody was faster. A draft that comes too late is released without
    /// the lock.
    fn commit(
        &self,
        rt: &impl Wait,
        worker: &mut Worker<L>,
        draft: Draft,
    ) -> Result<Attempt, StoreError>
        requires tables { draft.for_worker.catalog ≡ L.tables }
        requires limits { draft.for_worker.limits ≡ L.limits }
        requires made { IsMadeBy worker.old draft.for_worker.history }
        ensures { CommitsOrRetries worker.old worker.new draft.for_worker draft.outcome result }
    {
        let mut core = self.core.lock(rt);
        if !core.is_seen_by(worker) {
            return Ok(Attempt::Again);
        }
        attempt_of(core.commit(&self.gate, worker, draft))
    }
}

/// The result of a try without the lock.
fn attempt_of(committed: Result<Option<Outcome>, AllocError>) -> Result<Attempt, StoreError>
    ensures { result ≡ attempt_of committed }
{
    match committed {
        Ok(Some(outcome)) => Ok(Attempt::Done(Some(outcome))),
        Ok(None) => Ok(Attempt::Again),
        Err(AllocError) => Err(StoreError::Memory),
    }
}
