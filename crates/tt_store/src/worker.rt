ghost use Rattle.std.specs.Prelude.{◌≡◌, ◌+◌, ◌-◌, [], length, None, Ok, IfOk, IfErr, IfSome, OnOk, OnErr, IsTrue, IsFalse, ◌≤◌, ◌++◌, vec_len, vec_capacity};
ghost use Rattle.std.specs.Option.{option_copied, option_map};
ghost use mathlib.Core.List.{IsPrefix};
ghost use Rattle.tt_generations.specs.TwoGenerations.{done_of};
ghost use Rattle.tt_generations.specs.SlotCauses.{cause_told};
ghost use Rattle.tt_db.specs.Database.{state_of, now_in, nth_item, repair_of, right_answer, right_answer_at, right_answer_in, right_preview_of};
ghost use Rattle.tt_db.specs.Causes.{cause_of, cause_in_of};
ghost use Rattle.tt_db.specs.Differences.{right_diff, right_diff_in, TellsDiff, TellsDiffPage};
ghost use Rattle.tt_db.specs.Errors.{refusal_of_error};
ghost use Rattle.tt_db.specs.Trials.{tried_database, tried_refusal};
ghost use Rattle.tt_db.specs.State.{after, IsLegal};
ghost use Rattle.tt_store.specs.History.{places_of};
ghost use Rattle.tt_store.specs.Calls.{events_of, IsInWay, numbers_from};
ghost use Rattle.tt_store.specs.Drafts.{IsDraft, IsMadeBy, AddsCounted, AddsNothing};
ghost use Rattle.tt_store.specs.Own.{RisesAbove};
ghost use Rattle.tt_store.specs.Published.{IsOf, RuleIsMembership};
ghost use Rattle.tt_store.specs.Closing.{IsBehind};
ghost use Rattle.tt_store.specs.Workers.{Looks, IsAmong, AnswersRightly, IsUnreached, database_at, timed};

use crate::answer::Answer;
use crate::call::{Call, Draft, Plan, by_plan};
use crate::errors::{Unreached, Unread};
use crate::front::{Front, Head};
use crate::snapshot::{Naming, Sees, Snapshot};
use left_right::reader::Reader;
use std::alloc::{AllocError, Global};
use std::marker::Model;
use std::sync::ledger::{Book, Share};
use tt_db::{Cause, Db, DbError, Edit, Entry, FirstChanges, Progress, ReadError, RowChange};
use tt_values::{Items, Reply, Select, Shared, check_select};

/// A worker of a store. It has seen a front, which is a beginning of the one history and only
/// grows, and has made some of its entries. Its reads take no lock and wait for nobody. It keeps
/// the last state that it has seen, so one that is idle keeps that in memory.
///
/// Keep each worker until the store is closed. `Store::close` takes all of them, and without one
/// that was dropped it is refused as `Missing` for ever: the store hands its database out by no
/// other way.
pub struct Worker<L: Naming> {
    number: u32,
    reader: Option<Reader<Snapshot, (), L>>,
    seen: Snapshot,
    own: Vec<u64>,
    share: Share<L>,
}

// Written out, so that each place that lets one go calls one function.
impl<L: Naming> Drop for Worker<L> {
    fn drop(self) {
        let Worker {
            number: _,
            reader: _,
            seen: _,
            own: _,
            share: _,
        } = self;
    }
}

impl<L: Naming> Model for Worker<L> {
    ghost use Rattle.std.specs.Prelude.{IsSome};
    ghost use Rattle.tt_store.specs.Published.{RuleIsMembership};
    ghost use Rattle.tt_store.specs.Workers.{WorkerState, IsWorker};

    ghost Value = { WorkerState };

    ghost view = { λ w. record {
      number = w.number;
      seen = w.seen.db.history;
      own = w.own.items;
    } };

    ghost invariant = { λ w. IsSome w.reader
        × RuleIsMembership L.holds L.book L.tables L.limits
        × IsWorker L.book L.tables L.limits w.number w.seen w.own.items
        w.share.parts w.share.amount };
}

impl<L: Naming> Worker<L> {
    /// A worker that has seen this snapshot, and made nothing.
    pub(crate) fn new(
        alloc: Global,
        number: u32,
        reader: Reader<Snapshot, (), L>,
        seen: Snapshot,
        share: Share<L>,
    ) -> Worker<L>
        requires tied { RuleIsMembership L.holds L.book L.tables L.limits }
        requires of { IsOf L.book L.tables L.limits seen }
        requires parts { share.parts ≡ 1 }
        requires amount { share.amount ≡ 0 }
        ensures { result ≡ record { number = number; seen = seen.db.history; own = [] } }
    {
        Worker {
            number,
            reader: Some(reader),
            seen,
            own: Vec::new(alloc),
            share,
        }
    }

    /// Its number: workers are numbered from 1 in the order of the list that came with their store.
    pub fn number(&self) -> u32
        ensures { result ≡ self.now.number }
    {
        self.number
    }

    /// How many entries of the history it has seen: the length of its front. No event of it is
    /// refused where it stands.
    pub fn seen(&self) -> u64
        ensures count { result ≡ length self.now.seen }
        ensures legal { IsLegal L.tables L.limits self.now.seen }
    {
        self.seen.db().events()
    }

    /// The entry at a place of the history, counted from 1, if it has seen it.
    pub fn seen_entry(&self, place: u64) -> Option<&Entry>
        ensures { option_copied result ≡ nth_item self.now.seen place }
    {
        self.seen.db().entry(place)
    }

    /// How many entries of the history it has made. Their places rise.
    #[tactic(auto, using(crate::proofs::OwnLemmas::own_rises))]
    pub fn made(&self) -> u64
        ensures count { result ≡ length self.now.own }
        ensures own { IsAmong self.now.own (places_of self.now.number self.now.seen) }
        ensures rises { RisesAbove 0 self.now.own }
    {
        self.own.len() as u64
    }

    /// The place in the history of its entry of this number; both count from 1. None for 0 and past
    /// the last.
    pub fn place(&self, number: u64) -> Option<u64>
        ensures { result ≡ nth_item self.now.own number }
    {
        let position = number.checked_sub(1)?;
        self.own.get(position as usize).copied()
    }

    /// How far the repair is, in the last state that it has seen; None where none is under way.
    pub fn progress(&self) -> Option<Progress>
        ensures { result ≡ repair_of (database_at L.tables L.limits self.now.seen) }
    {
        self.seen.db().repair()
    }

    /// Of the slots that the repair has done, why it re-executed the one of a number, counted from
    /// 1, in the last state that it has seen. None where it didn't, and where none is under way.
    pub fn cause(&self, number: u64) -> Option<Cause<'_>>
        ensures { option_map cause_told result
            ≡ cause_of (database_at L.tables L.limits self.now.seen) number }
    {
        self.seen.db().cause(number)
    }

    /// Why the repair that closed a generation re-executed the slot of a number, counted from 1, in
    /// the last state that it has seen; for the current generation as [`cause`](Worker::cause).
    /// None where it didn't, where there is no such slot, and for a generation that can't be read.
    pub fn cause_in(&self, generation: u64, number: u64) -> Option<Cause<'_>>
        ensures { option_map cause_told result
            ≡ cause_in_of (database_at L.tables L.limits self.now.seen) generation number }
    {
        self.seen.db().cause_in(generation, number)
    }

    /// The rows of a table that differ between the current generation and the next one, by rising
    /// key, at the last slot that the repair has done, in the last state that it has seen. Refused,
    /// in this order, as `Statement(NoTable)`, `NotRepairing` and `Memory`.
    pub fn diff(&self, table: u16) -> Result<Items<RowChange>, ReadError>
        ensures { TellsDiff
            (right_diff (database_at L.tables L.limits self.now.seen) table) result }
    {
        self.seen.db().diff(table)
    }

    /// As [`diff`](Worker::diff), of the repair that closed a generation, at its last slot. Refused
    /// as `NoGeneration` in place of `NotRepairing`, where the generation isn't kept or is the
    /// current one.
    pub fn diff_in(&self, generation: u64, table: u16) -> Result<Items<RowChange>, ReadError>
        ensures { TellsDiff
            (right_diff_in (database_at L.tables L.limits self.now.seen) generation table)
            result }
    {
        self.seen.db().diff_in(generation, table)
    }

    /// Of the rows that [`diff`](Worker::diff) returns, those with greater keys than `after`, if
    /// that is given: the first `most` of them, and whether more follow. Refuses what that refuses.
    pub fn diff_page(
        &self,
        table: u16,
        after: Option<i64>,
        most: u32,
    ) -> Result<FirstChanges, ReadError>
        ensures { TellsDiffPage after most
            (right_diff (database_at L.tables L.limits self.now.seen) table) result }
    {
        self.seen.db().diff_page(table, after, most)
    }

    /// Of the rows that [`diff_in`](Worker::diff_in) returns, those with greater keys than `after`,
    /// if that is given: the first `most` of them, and whether more follow. Refuses what that
    /// refuses.
    pub fn diff_page_in(
        &self,
        generation: u64,
        table: u16,
        after: Option<i64>,
        most: u32,
    ) -> Result<FirstChanges, ReadError>
        ensures { TellsDiffPage after most
            (right_diff_in (database_at L.tables L.limits self.now.seen) generation table)
            result }
    {
        self.seen.db().diff_page_in(generation, table, after, most)
    }

    /// What a repair with these edits would come to: the last state that it has seen, after the
    /// repair has begun and has done all slots. Nothing of it is published. Refused as
    /// [`Db::tried`].
    pub fn tried(&self, edits: Items<Edit>) -> Result<Db, DbError>
        ensures state { IfOk result (λ tried. tried
            ≡ tried_database (database_at L.tables L.limits self.now.seen) edits) }
        ensures accepted { OnOk result
            (tried_refusal (database_at L.tables L.limits self.now.seen) edits ≡ None) }
        ensures refused { IfErr result (λ e.
            tried_refusal (database_at L.tables L.limits self.now.seen) edits
            ≡ refusal_of_error e) }
    {
        self.seen.db().tried(edits)
    }

    /// The rows that match now, by rising key, and the current time. They are right at a front that
    /// begins with what it had seen, and it has then seen this front. `NoReading` leaves what it
    /// had seen; with `Memory` that may have grown.
    pub fn read(&mut self, select: &Select) -> Result<Answer, ReadError>
        ensures looks { Looks self.old self.new }
        ensures right { AnswersRightly L.tables select.now
            (right_answer (database_at L.tables L.limits self.new.seen) select.now)
            (now_in (database_at L.tables L.limits self.new.seen)) self.old self.new result }
    {
        self.look_for(select)?;
        let db = self.seen.db();
        timed(db.now(), db.select(select))
    }

    /// The rows that match at a time, by rising key: a point-in-time read. Time 0 is before the
    /// first action; past the current time it is refused as `Later`.
    pub fn read_at(&mut self, select: &Select, time: u64) -> Result<Answer, ReadError>
        ensures looks { Looks self.old self.new }
        ensures right { AnswersRightly L.tables select.now
            (right_answer_at (database_at L.tables L.limits self.new.seen) select.now time)
            time self.old self.new result }
    {
        self.look_for(select)?;
        timed(time, self.seen.db().select_at(select, time))
    }

    /// The rows that match at a time in a generation, by rising key: in the current one, or in a
    /// closed one that is kept, as it was at the switch. Any other generation is refused as
    /// `NoGeneration`, and a time past its last one as `Later`.
    pub fn read_in(
        &mut self,
        generation: u64,
        select: &Select,
        time: u64,
    ) -> Result<Answer, ReadError>
        ensures looks { Looks self.old self.new }
        ensures right { AnswersRightly L.tables select.now
            (right_answer_in (database_at L.tables L.limits self.new.seen)
            generation select.now time)
            time self.old self.new result }
    {
        self.look_for(select)?;
        timed(time, self.seen.db().select_in(generation, select, time))
    }

    /// The rows that match in the next generation, at the last slot that the repair has done, whose
    /// number is the answer's time. Refused as `NotRepairing` where no repair is under way.
    pub fn preview(&mut self, select: &Select) -> Result<Answer, ReadError>
        ensures looks { Looks self.old self.new }
        ensures right { AnswersRightly L.tables select.now
            (right_preview_of (database_at L.tables L.limits self.new.seen) select.now)
            (done_of (state_of (database_at L.tables L.limits self.new.seen)).phase)
            self.old self.new result }
    {
        self.look_for(select)?;
        let db = self.seen.db();
        timed(done(db), db.preview(select))
    }

    /// Sees what is published, so that a select can be judged on it.
    fn look_for(&mut self, select: &Select) -> Result<(), ReadError>
        ensures looks { Looks self.old self.new }
        ensures unreached { IfErr result (λ e. IsUnreached L.tables select.now e) }
        ensures unchanged { OnErr result (self.new ≡ self.old) }
    {
        match self.look() {
            Ok(()) => Ok(()),
            Err(unread) => Err(self.unanswered(select, unread)),
        }
    }

    /// Why a select fails for which nothing could be read. A fault of the select comes first, since
    /// it needs no reading.
    fn unanswered(&self, select: &Select, unread: Unread) -> ReadError
        ensures { IsUnreached L.tables select.now result }
    {
        if let Err(fault) = check_select(self.seen.db().catalog(), select) {
            return ReadError::Statement(fault);
        }
        match unread {
            Unread::NoReading => ReadError::NoReading,
            Unread::Memory => ReadError::Memory,
        }
    }

    /// Sees what is published.
    pub(crate) fn look(&mut self) -> Result<(), Unread>
        ensures looks { Looks self.old self.new }
        ensures unchanged { OnErr result (self.new ≡ self.old) }
    {
        let Some(reader) = self.reader.take() else {
            unreachable!()
        };
        let (reader, newer) = newer(reader, self.seen.len());
        self.reader = Some(reader);
        match newer {
            Ok(Some(snapshot)) => {
                self.keep(snapshot);
                Ok(())
            }
            Ok(None) => Ok(()),
            Err(unread) => Err(unread),
        }
    }

    /// Sees the history of this snapshot, unless it has seen more.
    pub(crate) fn keep(&mut self, snapshot: Snapshot)
        requires { IsOf L.book L.tables L.limits snapshot }
        ensures looks { Looks self.old self.new }
        ensures reached { IsPrefix snapshot.db.history self.new.seen }
    {
        if self.seen.front().begins(snapshot.front()) {
            self.seen = snapshot;
        }
    }

    /// What it has seen, as a beginning of the history.
    pub(crate) fn front(&self) -> &Front
        ensures book { result.now.book ≡ L.book }
        ensures entries { result.now.entries ≡ self.now.seen }
    {
        self.seen.front()
    }

    /// Whether what it has seen is the history of this snapshot.
    pub(crate) fn is_at(&self, snapshot: &Snapshot) -> bool
        requires { IsOf L.book L.tables L.limits snapshot.now }
        ensures { IsTrue result → snapshot.now.db.history ≡ self.now.seen }
    {
        self.seen.len() == snapshot.len() && self.seen.front().begins(snapshot.front())
    }

    /// Whether what it has seen begins the history of this snapshot.
    pub(crate) fn is_behind(&self, snapshot: &Snapshot) -> bool
        requires { IsOf L.book L.tables L.limits snapshot.now }
        ensures { IsTrue result → IsBehind snapshot.now.db.history self.now }
    {
        self.seen.front().begins(snapshot.front())
    }

    /// Its places, and its part of the ledger.
    pub(crate) fn into_parts(self) -> (Vec<u64>, Share<L>)
        ensures places { result.0.items ≡ self.own }
        ensures parts { result.1.parts ≡ 1 }
        ensures amount { result.1.amount ≡ length self.own }
    {
        let Self {
            number: _,
            reader: _,
            seen: _,
            own,
            share,
        } = self;
        (own, share)
    }

    /// What the events of a call lead to, from what it has seen; None where there are no events.
    pub(crate) fn draft(&self, alloc: Global, call: &Call) -> Result<Option<Draft>, Unreached>
        ensures drafted { IfOk result (λ d. IsDraft L.tables L.limits call.now self.now d) }
        ensures in_way { IfErr result (λ e. IsInWay (database_at L.tables L.limits self.now.seen)
            (events_of call.now (after L.limits self.now.seen)) e) }
    {
        let plan = match Plan::of(call, self.seen.db()) {
            Ok(plan) => plan,
            Err(AllocError) => return Err(Unreached::Memory),
        };
        let Some(reached) = by_plan(self.seen.db(), self.number, plan)? else {
            return Ok(None);
        };
        match Draft::new(alloc, reached) {
            Ok(draft) => Ok(Some(draft)),
            Err(AllocError) => Err(Unreached::Memory),
        }
    }

    /// Makes the history that of a database which it has led to, where it has seen all of the
    /// history, and says whether it did. If not, or without memory, nothing changes.
    pub(crate) fn add(
        &mut self,
        head: &Head,
        ledger: &mut Book<L>,
        db: Shared<Db>,
    ) -> Result<bool, AllocError>
        requires head { head.now ≡ L.book }
        requires tables { db.catalog ≡ L.tables }
        requires limits { db.limits ≡ L.limits }
        requires made { IsMadeBy self.old db.history }
        ensures added { IfOk result (λ done. IsTrue done
            → AddsCounted self.old self.new db.history ledger.old.total ledger.new.total) }
        ensures not_added { IfOk result (λ done. IsFalse done → AddsNothing self.old self.new
            ledger.old.total ledger.new.total) }
        ensures err { OnErr result (AddsNothing self.old self.new
            ledger.old.total ledger.new.total) }
    {
        let seen = self.seen.len();
        let events = db.get().events();
        self.own.reserve((events - seen) as usize)?;
        let mut front = self.seen.front().share();
        if !front.grow(head, db.get()) {
            return Ok(false);
        }
        ledger.add(&mut self.share, events - seen);
        push_places(&mut self.own, seen, events);
        self.seen = Snapshot::new(db, front);
        Ok(true)
    }
}

/// Another owner of what is published, where its history has more entries than were seen. Where it
/// has no more, the counter of owners, which all workers share, stays untouched.
fn newer<L: Naming>(
    reader: Reader<Snapshot, (), L>,
    seen: u64,
) -> (Reader<Snapshot, (), L>, Result<Option<Snapshot>, Unread>)
    requires { RuleIsMembership L.holds L.book L.tables L.limits }
    ensures { IfOk result.1 (λ newer. IfSome newer (IsOf L.book L.tables L.limits)) }
{
    match reader.enter_as::<Sees<L>>() {
        Ok(reading) => {
            let newer = owner_of_newer(reading.get(), seen);
            (reading.leave(), newer)
        }
        Err(reader) => (reader, Err(Unread::NoReading)),
    }
}

/// Another owner of a snapshot, where its history has more entries than were seen.
fn owner_of_newer(snapshot: &Snapshot, seen: u64) -> Result<Option<Snapshot>, Unread>
    ensures { IfOk result (λ newer. IfSome newer (λ s. s ≡ snapshot.now)) }
{
    if snapshot.len() <= seen {
        return Ok(None);
    }
    match snapshot.share() {
        Ok(snapshot) => Ok(Some(snapshot)),
        Err(AllocError) => Err(Unread::Memory),
    }
}

/// How many slots the repair has done.
fn done(db: &Db) -> u64
    ensures { result ≡ done_of (state_of db.now).phase }
{
    match db.repair() {
        Some(progress) => progress.done,
        None => 0,
    }
}

/// An answer with its time.
fn timed(time: u64, reply: Result<Reply, ReadError>) -> Result<Answer, ReadError>
    ensures { result ≡ timed time reply }
{
    match reply {
        Ok(reply) => Ok(Answer { time, reply }),
        Err(error) => Err(error),
    }
}

/// Adds the places after the first `from` ones, up to `to`.
#[tactic(auto, using(crate::proofs::DraftLemmas::numbers_next, crate::proofs::DraftLemmas::numbers_end))]
pub(crate) fn push_places(places: &mut Vec<u64>, from: u64, to: u64)
    requires order { from ≤ to }
    requires room { vec_len places.old + (to - from) ≤ vec_capacity places.old }
    ensures { places.new.items ≡ places.old.items ++ numbers_from (from + 1) (to - from) }
{
    for place in from..to {
        places.push_reserved(place + 1);
    }
}
