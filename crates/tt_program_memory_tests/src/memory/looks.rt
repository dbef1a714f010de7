//! What can be seen of a worker and of its store at little cost.
use super::{all, same};
use std::alloc::Global;
use std::process::Abort;
use std::sync::Wait;
use tt_db::{Entry, Progress, ReadError};
use tt_store::{Answer, Naming, NoGate, Store, Worker};

/// What a worker tells of itself, and what it answers.
#[derive(Debug, PartialEq, Drop)]
pub(super) struct Looks {
    number: u32,
    seen: u64,
    made: u64,
    progress: Option<Progress>,
    last_place: Option<u64>,
    last_entry: Option<Entry>,
    /// All rows now, at time 1, at time 1 in the first generation, and in the next generation.
    answers: [Result<Answer, ReadError>; 4],
}

impl Looks {
    pub(super) fn of<L: Naming>(rt: &impl Abort, alloc: Global, worker: &mut Worker<L>) -> Looks {
        let all = all(rt, alloc);
        let answers = [
            worker.read(&all),
            worker.read_at(&all, 1),
            worker.read_in(0, &all, 1),
            worker.preview(&all),
        ];
        Looks {
            number: worker.number(),
            seen: worker.seen(),
            made: worker.made(),
            progress: worker.progress(),
            last_place: worker.place(worker.made()),
            last_entry: last_entry(rt, worker),
            answers,
        }
    }
}

/// A copy of the last entry that a worker has seen.
fn last_entry<L: Naming>(rt: &impl Abort, worker: &Worker<L>) -> Option<Entry> {
    match worker.seen_entry(worker.seen()) {
        Some(entry) => Some(entry.clone().expect(rt, "memory")),
        None => None,
    }
}

/// Asserts that a worker looks as it did, and that nobody has added an entry to its store.
pub(super) fn looks_as_before<L: Naming, T: Wait + Abort>(
    rt: &T,
    alloc: Global,
    store: &Store<L, NoGate, &T>,
    worker: &mut Worker<L>,
    before: &Looks,
) {
    same(rt, &store.refresh(rt, worker), &Ok(before.seen));
    same(rt, &Looks::of(rt, alloc, worker), before);
}
