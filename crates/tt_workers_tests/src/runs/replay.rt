//! The answers of a run in threads, beside those of a model that carries out the same history in
//! one thread, over plain lists of rows.
use super::answers::{fits, time_of};
use super::generations::Generations;
use super::history::History;
use super::repaired::has_repaired;
use super::same;
use std::alloc::Global;
use std::process::Abort;
use tt_db::{Db, Limits, Outcome};
use tt_document::{Ask, Call, Document};
use tt_repair::{Changed, Record, Repaired, What};
use tt_values::Select;
use tt_workers::Report;

/// One more than the number of the last worker of all.
const NUMBERS: usize = 17;

/// What is judged: the calls of a document and the records of these, with their fronts and changes.
#[derive(Drop)]
struct Judged<'a> {
    history: History<'a>,
    calls: Vec<&'a Call>,
    records: &'a [Record],
    fronts: &'a [u64],
    /// The change of each record that has one.
    changes: Vec<Option<&'a Changed>>,
    /// For each time, the positions of the records that have its rows or replies.
    by_time: Vec<Vec<usize>>,
}

/// Asserts that each answer of a report is the one of the model at as many entries of the history
/// as the front of the answer has, that its changes and the slots that its repair re-executed are
/// those of the model, that nothing else is in the history but the repair of the document, and that
/// this begins behind all of `calls`.
pub(super) fn is_right(rt: &impl Abort, alloc: Global, document: &Document, report: &Report) {
    let calls = all_calls(rt, alloc, document);
    has_records(rt, &calls, &report.records);
    has_rising_fronts(rt, alloc, report);
    has_repaired(rt, document, report);
    let history = History::of(rt, alloc, report.db.get());
    begins_behind(rt, document, report, &history);
    let judged = Judged {
        history,
        calls,
        records: report.records.as_slice(),
        fronts: report.fronts.as_slice(),
        changes: changes_by_record(rt, alloc, report),
        by_time: Vec::new(alloc),
    };
    let judged = judged.placed(rt, alloc);
    let rerun = reexecuted(rt, alloc, document, report);
    let generations = judged.carried_out(rt, alloc, document, &rerun);
    ends_alike(rt, alloc, &judged.history, &generations, report);
}

/// The calls of a document, and behind these those that are made beside its repair.
fn all_calls<'a>(rt: &impl Abort, alloc: Global, document: &'a Document) -> Vec<&'a Call> {
    let mut calls = Vec::new(alloc);
    for call in document.calls.as_slice() {
        calls.push(call).expect(rt, "memory");
    }
    if let Some(plan) = &document.repair {
        for call in plan.meanwhile.as_slice() {
            calls.push(call).expect(rt, "memory");
        }
    }
    calls
}

/// Asserts that each call has its record.
fn has_records(rt: &impl Abort, calls: &[&Call], records: &[Record]) {
    same(rt, &records.len(), &calls.len());
    let mut number = 0u64;
    for (call, record) in calls.iter().zip(records) {
        number = number.saturating_add(1);
        same(rt, &(record.call, record.worker), &(number, call.worker));
    }
}

/// Asserts that each record has a front, and that no call is right at a front before that of its
/// worker's previous call, nor before the entry that the previous call has added.
fn has_rising_fronts(rt: &impl Abort, alloc: Global, report: &Report) {
    same(rt, &report.fronts.len(), &report.records.len());
    let mut seen = vec![in alloc; 0u64; NUMBERS].expect(rt, "memory");
    for (record, front) in report.records.iter().zip(report.fronts.as_slice()) {
        let seen = seen.get_mut(record.worker as usize).expect(rt, "a worker");
        assert!(rt; *front >= *seen);
        *seen = seen_after(record, *front);
    }
}

/// How many entries the worker of a record that is right at a front has seen behind its call.
fn seen_after(record: &Record, front: u64) -> u64 {
    match record.what {
        What::Write { .. } => front.saturating_add(1),
        _ => front,
    }
}

/// Asserts that no call of `calls` has seen the beginning of the repair, or has its entry behind
/// that.
fn begins_behind(rt: &impl Abort, document: &Document, report: &Report, history: &History<'_>) {
    let answered = report.records.iter().zip(report.fronts.as_slice());
    for (_, (record, front)) in document.calls.as_slice().iter().zip(answered) {
        let call = record.call;
        let seen = seen_after(record, *front);
        assert!(rt; seen < history.begin, "call {call}");
    }
}

/// The change of each record of a report that has one. Asserts that they stand by rising call.
fn changes_by_record<'a>(
    rt: &impl Abort,
    alloc: Global,
    report: &'a Report,
) -> Vec<Option<&'a Changed>> {
    let mut changes = Vec::new(alloc);
    for _ in report.records.as_slice() {
        changes.push(None).expect(rt, "memory");
    }
    let mut last = 0u64;
    for change in report.changes.as_slice() {
        assert!(rt; change.call > last);
        last = change.call;
        let position = last.saturating_sub(1) as usize;
        let there = changes.get_mut(position).expect(rt, "a record");
        *there = Some(change);
    }
    changes
}

/// For each step of the repair in turn, whether a database in one thread that is given the history
/// re-executes the slot.
fn reexecuted(rt: &impl Abort, alloc: Global, document: &Document, report: &Report) -> Vec<bool> {
    let catalog = document.catalog.clone().expect(rt, "memory");
    let mut db = Db::new(alloc, catalog.into_arc(), Limits::usual());
    let mut all = Vec::new(alloc);
    for before in 0..report.db.get().events() {
        let entry = report.db.get().entry(before.saturating_add(1));
        let entry = entry.expect(rt, "an entry").clone().expect(rt, "memory");
        let (next, outcome) = db.apply(entry).expect(rt, "an outcome");
        db = next;
        if let Outcome::Stepped { slot: _, rerun } = outcome {
            all.push(rerun).expect(rt, "memory");
        }
    }
    all
}

/// The select of a call that reads.
fn select_of(call: &Call) -> Option<&Select> {
    match &call.ask {
        Ask::Write(_) => None,
        Ask::Read { select, .. } => Some(select),
        Ask::Preview(select) => Some(select),
    }
}

impl<'a> Judged<'a> {
    /// The same, with its records placed at their times. Asserts that each fits its front, and that
    /// none has changed that has no time.
    fn placed(self, rt: &impl Abort, alloc: Global) -> Judged<'a> {
        let mut judged = self;
        for _ in 0..=judged.history.slots() {
            judged.by_time.push(Vec::new(alloc)).expect(rt, "memory");
        }
        for position in 0..judged.records.len() {
            judged.place(rt, position);
        }
        judged
    }

    fn place(&mut self, rt: &impl Abort, position: usize) {
        let (call, record, front) = self.parts(rt, position);
        let number = record.call;
        let at = self.history.at(rt, front);
        let next = self.history.next(front);
        assert!(rt; fits(at, next, call, &record.what), "call {number}");
        match time_of(&record.what) {
            Some(time) => {
                let there = self.by_time.get_mut(time as usize).expect(rt, "a time");
                there.push(position).expect(rt, "memory");
            }
            None => assert!(rt; self.change(position).is_none(), "call {number}"),
        }
    }

    /// The call, the record and the front at a position.
    fn parts(&self, rt: &impl Abort, position: usize) -> (&'a Call, &'a Record, u64) {
        let call = *self.calls.get(position).expect(rt, "a call");
        let record = self.records.get(position).expect(rt, "a record");
        let front = *self.fronts.get(position).expect(rt, "a front");
        (call, record, front)
    }

    fn change(&self, position: usize) -> Option<&'a Changed> {
        *self.changes.get(position)?
    }

    /// Both generations at the end of the history. Asserts that each record is right at its time,
    /// and that each step re-executes its slot where it is due.
    fn carried_out(
        &self,
        rt: &impl Abort,
        alloc: Global,
        document: &Document,
        rerun: &[bool],
    ) -> Generations {
        let mut generations = Generations::new(rt, alloc);
        self.are_right(rt, &generations, 0);
        for before in 0..self.history.slots() {
            let slot = before.saturating_add(1);
            let catalog = document.catalog.get();
            let is_due = generations.carry_out(rt, alloc, catalog, &self.history, slot as u64);
            let stepped = rerun.get(before).copied().unwrap_or(false);
            assert!(rt; is_due == stepped, "slot {slot}");
            self.are_right(rt, &generations, slot);
        }
        same(rt, &(rerun.len() as u64), &self.history.switch.slots);
        generations
    }

    /// Asserts that the records of a time are right.
    fn are_right(&self, rt: &impl Abort, generations: &Generations, time: usize) {
        for position in self.by_time.get(time).expect(rt, "a time") {
            let (call, record, front) = self.parts(rt, *position);
            let number = record.call;
            let is_switched = self.history.at(rt, front).is_switched;
            let has_told = generations.has_told(is_switched, select_of(call), &record.what);
            assert!(rt; has_told, "call {number}");
            let has_change = generations.has_change(&record.what, self.change(*position));
            assert!(rt; has_change, "change of call {number}");
        }
    }
}

/// Asserts that the repair is told as it was made, and that the database of a report has the rows
/// of the edited slots.
fn ends_alike(
    rt: &impl Abort,
    alloc: Global,
    history: &History<'_>,
    generations: &Generations,
    report: &Report,
) {
    let want = Repaired {
        generation: 1,
        place: history.switch.place,
        slots: history.switch.slots,
        rerun: generations.rerun,
    };
    same(rt, &report.repaired, &Some(want));
    let db = report.db.get();
    same(rt, &db.now(), &(history.slots() as u64));
    same(rt, &db.generation(), &1);
    for table in 0..64u16 {
        if db.catalog().table(table).is_none() {
            break;
        }
        let select = Select::all(alloc, table).expect(rt, "memory");
        let reply = db.select(&select).expect(rt, "a select");
        assert!(rt; generations.is_current(&select, &reply), "table {table}");
    }
}
