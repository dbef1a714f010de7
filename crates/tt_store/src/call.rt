//! The calls that publish: their events, and the databases that these lead to.
ghost use Rattle.std.specs.Prelude.{◌≡◌, [], IfOk, IsTrue, ◌∷◌, IfErr};
ghost use Rattle.tt_db.specs.Database.{state_of};
ghost use Rattle.tt_db.specs.State.{slots_left};
ghost use Rattle.tt_store.specs.Calls.{events_of, planned, steps_wanted, steps, Reaches, IsInWay};
ghost use Rattle.tt_store.specs.Reaching.{HasReached, IsOneMore, IsInWayOfMore, IsPlanned, IsInWayOfPlan};

use crate::errors::Unreached;
use std::alloc::{AllocError, Global};
use std::marker::Model;
use tt_db::{Db, DbError, Entry, Event, Outcome};
use tt_values::Shared;

/// A call that publishes.
#[derive(Drop)]
pub(crate) enum Call {
    /// One event.
    One(Event),
    /// Steps of a repair: at most this number, and no more than it has slots left.
    Steps(u32),
    /// All steps that a repair has left, and the switch.
    Finish,
}

/// The events of a call at a state: steps, and at most one event behind them.
#[derive(Drop)]
pub(crate) struct Plan {
    steps: u64,
    last: Option<Event>,
}

impl Model for Plan {
    ghost use Rattle.std.specs.Prelude.{List};
    ghost use Rattle.tt_db.specs.declared.event.Event.{Event};
    ghost use Rattle.tt_store.specs.Calls.{planned};

    ghost Value = { List Event };

    ghost view = { λ p. planned p.steps p.last };
}

impl Plan {
    pub(crate) fn of(call: &Call, db: &Db) -> Result<Plan, AllocError>
        ensures { IfOk result (λ plan. plan ≡ events_of call.now (state_of db.now)) }
    {
        match call {
            Call::One(event) => {
                let event = event.clone()?;
                Ok(Plan {
                    steps: 0,
                    last: Some(event),
                })
            }
            Call::Steps(most) => Ok(Plan {
                steps: steps_wanted(*most, db),
                last: None,
            }),
            Call::Finish => Ok(Plan {
                steps: slots_left(db),
                last: Some(Event::Switch),
            }),
        }
    }

    /// Whether there are none.
    pub(crate) fn is_empty(&self) -> bool
        ensures { IsTrue result → self.now ≡ [] }
    {
        self.steps == 0 && self.last.is_none()
    }

    /// The number of steps, and the event behind them.
    pub(crate) fn into_parts(self) -> (u64, Option<Event>)
        ensures { self ≡ planned result.0 result.1 }
    {
        (self.steps, self.last)
    }
}

/// How many steps a call makes that asks for at most `most` of them.
fn steps_wanted(most: u32, db: &Db) -> u64
    ensures { result ≡ steps_wanted most (state_of db.now) }
{
    match db.repair() {
        Some(progress) => progress.left.min(u64::from(most)),
        None => 1,
    }
}

/// How many slots the repair has left.
fn slots_left(db: &Db) -> u64
    ensures { result ≡ slots_left (state_of db.now) }
{
    match db.repair() {
        Some(progress) => progress.left,
        None => 0,
    }
}

/// The database that events lead to, and the outcome of the last.
#[derive(Drop)]
pub(crate) struct Reached {
    pub(crate) db: Db,
    pub(crate) outcome: Outcome,
}

/// A database that is ready to be published: an owner for each who keeps it, and the outcome of the
/// last event that led to it. So to publish it takes no memory.
#[derive(Drop)]
pub(crate) struct Draft {
    pub(crate) for_worker: Shared<Db>,
    pub(crate) for_store: Shared<Db>,
    pub(crate) for_readers: Shared<Db>,
    pub(crate) outcome: Outcome,
    ghost store: { for_store ≡ for_worker },
    ghost readers: { for_readers ≡ for_worker },
}

impl Draft {
    pub(crate) fn new(alloc: Global, reached: Reached) -> Result<Draft, AllocError>
        ensures db { IfOk result (λ d. d.for_worker ≡ reached.db) }
        ensures outcome { IfOk result (λ d. d.outcome ≡ reached.outcome) }
    {
        let for_worker = Shared::new(alloc, reached.db)?;
        let for_store = for_worker.clone()?;
        let for_readers = for_worker.clone()?;
        Ok(Draft {
            for_worker,
            for_store,
            for_readers,
            outcome: reached.outcome,
        })
    }
}

/// The database that events of a worker lead to from this one, which stays as it is. None where
/// there are no events.
#[tactic(auto, using(crate::proofs::CallLemmas::in_way_planned))]
pub(crate) fn by_plan(db: &Db, worker: u32, plan: Plan) -> Result<Option<Reached>, Unreached>
    ensures reached { IfOk result (λ r. HasReached db.now worker plan r) }
    ensures in_way { IfErr result (λ e. IsInWay db.now plan e) }
{
    let (count, last) = plan.into_parts();
    match by_steps(db, worker, count) {
        Ok(stepped) => with_last(db, stepped, worker, last),
        Err(e) => Err(e),
    }
}

/// The event behind the steps that have led from a database to another, if there is one.
#[tactic(auto, using(crate::proofs::CallLemmas::one_more_planned, crate::proofs::CallLemmas::in_way_of_last))]
fn with_last(
    db: &Db,
    stepped: Option<Reached>,
    worker: u32,
    last: Option<Event>,
) -> Result<Option<Reached>, Unreached>
    ensures reached { IfOk result (λ r. IsPlanned db.now worker stepped last r) }
    ensures in_way { IfErr result (λ e. IsInWayOfPlan db.now worker stepped last e) }
{
    match last {
        Some(event) => match with_event(db, stepped, worker, event) {
            Ok(reached) => Ok(Some(reached)),
            Err(e) => Err(e),
        },
        None => Ok(stepped),
    }
}

/// The database that `count` steps lead to.
fn by_steps(db: &Db, worker: u32, count: u64) -> Result<Option<Reached>, Unreached>
    ensures reached { IfOk result (λ r. HasReached db.now worker (steps count) r) }
    ensures in_way { IfErr result (λ e. IsInWay db.now (steps count) e) }
{
    if count == 0 {
        return Ok(None);
    }
    match db.share() {
        Ok(db) => steps_from(db, worker, count),
        Err(AllocError) => Err(Unreached::Memory),
    }
}

/// The database that `count` steps lead to from this one, in its place.
fn steps_from(db: Db, worker: u32, count: u64) -> Result<Option<Reached>, Unreached>
    ensures reached { IfOk result (λ r. HasReached db worker (steps count) r) }
    ensures in_way { IfErr result (λ e. IsInWay db (steps count) e) }
{
    let mut db = db;
    match db.advance_steps(worker, count) {
        Ok(made) => match made.refusal {
            Some(refusal) => Err(Unreached::Db(refusal)),
            None => match made.last {
                Some(outcome) => Ok(Some(Reached { db, outcome })),
                None => Ok(None),
            },
        },
        Err(AllocError) => Err(Unreached::Memory),
    }
}

/// One event more than those that have led from a database to another.
fn with_event(
    db: &Db,
    reached: Option<Reached>,
    worker: u32,
    event: Event,
) -> Result<Reached, Unreached>
    ensures reached { IfOk result (λ r. IsOneMore db.now worker reached event r) }
    ensures in_way { IfErr result (λ e. IsInWayOfMore db.now worker reached event e) }
{
    match reached {
        Some(reached) => next_of(reached.db, worker, event),
        None => first_of(db, worker, event),
    }
}

/// The database after one event.
fn first_of(db: &Db, worker: u32, event: Event) -> Result<Reached, Unreached>
    ensures reached { IfOk result (λ r. Reaches db.now worker (event ∷ []) r.db r.outcome) }
    ensures in_way { IfErr result (λ e. IsInWay db.now (event ∷ []) e) }
{
    match db.apply(Entry { worker, event }) {
        Ok((db, outcome)) => Ok(Reached { db, outcome }),
        Err(DbError::Memory) => Err(Unreached::Memory),
        Err(refusal) => Err(Unreached::Db(refusal)),
    }
}

/// The database after one event, in place of the one before it.
fn next_of(db: Db, worker: u32, event: Event) -> Result<Reached, Unreached>
    ensures reached { IfOk result (λ r. Reaches db worker (event ∷ []) r.db r.outcome) }
    ensures in_way { IfErr result (λ e. IsInWay db (event ∷ []) e) }
{
    match db.advanced(Entry { worker, event }) {
        Ok((db, answer)) => match answer {
            Ok(outcome) => Ok(Reached { db, outcome }),
            Err(refusal) => Err(Unreached::Db(refusal)),
        },
        Err(AllocError) => Err(Unreached::Memory),
    }
}
