//! What a history and a report tell of the repair of a document.
use super::same;
use std::process::Abort;
use tt_db::{Db, Edit, Event};
use tt_document::{Document, Plan};
use tt_repair::{Record, What};
use tt_workers::Report;

/// How many entries of a history are of each kind.
#[derive(Clone, Copy, Debug, PartialEq, Eq)]
struct Counts {
    writes: u64,
    begun: u64,
    steps: u64,
    switches: u64,
    aborts: u64,
}

/// Asserts that the history has one repair with the edits of the document, made by the
/// administrator, and a write for each record of one.
pub(super) fn has_repaired(rt: &impl Abort, document: &Document, report: &Report) {
    let plan = document.repair.as_ref().expect(rt, "a plan");
    let repaired = report.repaired.expect(rt, "a repair");
    let want = Counts {
        writes: written(&report.records),
        begun: 1,
        steps: repaired.slots,
        switches: 1,
        aborts: 0,
    };
    same(rt, &kinds(report.db.get()), &want);
    for place in 0..report.db.get().events() {
        let entry = report
            .db
            .get()
            .entry(place.saturating_add(1))
            .expect(rt, "an entry");
        let is_own = entry.worker == document.workers.saturating_add(1);
        assert!(rt; is_own != matches!(entry.event, Event::Write(_)));
        assert!(rt; is_planned(&entry.event, plan, &report.records));
    }
}

/// How many records are of writes.
fn written(records: &[Record]) -> u64 {
    let mut count = 0u64;
    for record in records {
        if let What::Write { .. } = record.what {
            count = count.saturating_add(1);
        }
    }
    count
}

/// How many entries of a history are of each kind.
fn kinds(db: &Db) -> Counts {
    let mut counts = Counts {
        writes: 0,
        begun: 0,
        steps: 0,
        switches: 0,
        aborts: 0,
    };
    for place in 0..db.events() {
        if let Some(entry) = db.entry(place.saturating_add(1)) {
            count(&mut counts, &entry.event);
        }
    }
    counts
}

fn count(counts: &mut Counts, event: &Event) {
    let number = match event {
        Event::Write(_) => &mut counts.writes,
        Event::Begin(_) => &mut counts.begun,
        Event::Step => &mut counts.steps,
        Event::Switch => &mut counts.switches,
        Event::Abort => &mut counts.aborts,
    };
    *number = number.saturating_add(1);
}

/// Whether an event that begins a repair has the edits of a plan, of the slots of these records.
fn is_planned(event: &Event, plan: &Plan, records: &[Record]) -> bool {
    match event {
        Event::Begin(edits) => are_planned(edits.as_slice(), plan.edits.as_slice(), records),
        _ => true,
    }
}

fn are_planned(edits: &[Edit], plan: &[Edit], records: &[Record]) -> bool {
    for (edit, planned) in edits.iter().zip(plan) {
        if !is_edit_of(edit, planned, records) {
            return false;
        }
    }
    edits.len() == plan.len()
}

fn is_edit_of(edit: &Edit, planned: &Edit, records: &[Record]) -> bool {
    match (edit, planned) {
        (Edit::Cancel(slot), Edit::Cancel(call)) => has_slot(records, *call, *slot),
        (Edit::Replace(slot, action), Edit::Replace(call, by)) => {
            has_slot(records, *call, *slot) && action == by
        }
        _ => false,
    }
}

/// Whether the record of a call tells of this slot.
fn has_slot(records: &[Record], call: u64, slot: u64) -> bool {
    let position = call.saturating_sub(1) as usize;
    match records.get(position) {
        Some(record) => match &record.what {
            What::Write { slot: told, .. } => *told == slot,
            _ => false,
        },
        None => false,
    }
}
