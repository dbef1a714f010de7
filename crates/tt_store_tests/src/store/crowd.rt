//! Sixteen workers in threads: five write and ten read, while one repairs. What they are answered
//! is compared with a database of one thread that is given the same history.
use super::{
    Scenario, Scene, add_to_all, all, bank, begins_after_five_slots, closed, delete, insert,
    last_of, plays, same,
};
use std::alloc::Global;
use std::process::Abort;
use std::sync::Wait;
use std::test::*;
use std::thread::{Threads, map_vec};
use tt_db::{Db, Edit, Limits, Outcome};
use tt_store::{Answer, Naming, NoGate, Store, Worker, Written};
use tt_values::Items;

/// The worker that repairs.
const ADMINISTRATOR: u32 = 16;

/// The workers from 1 to this one write.
const WRITERS: u32 = 5;

/// How often each of them writes.
const WRITES: u32 = 300;

/// How often each of the others reads.
const READS: u32 = 10_000;

/// After how many entries a worker that reads keeps another answer.
const KEPT_EVERY: u64 = 100;

/// A read that was answered when its worker had seen so many entries.
#[derive(Drop)]
struct KeptRead {
    seen: u64,
    answer: Answer,
}

/// A worker that has done its work, what it was told of its writes, and some of its reads.
#[derive(Drop)]
struct Shift<L: Naming> {
    worker: Worker<L>,
    written: Vec<Written>,
    kept_reads: Vec<KeptRead>,
}

#[test]
fn sixteen_workers_work_in_threads(rt: HostRuntime) {
    plays(&rt, rt.alloc(), 16, Scenario::SixteenWork);
}

/// Sixteen workers do their work in threads.
pub(super) fn sixteen_work<L: Naming + Send + Sync, T: Threads + Wait + Abort + Sync>(
    scene: Scene<'_, L, T>,
) {
    let Scene {
        rt,
        alloc,
        store,
        mut workers,
    } = scene;
    let mut administrator = last_of(rt, &mut workers);
    begins_after_five_slots(rt, alloc, &store, &mut administrator);
    workers.push(administrator).expect(rt, "memory");
    let shifts = in_threads(rt, alloc, &store, workers);
    let (workers, written, kept_reads) = handed_in(rt, alloc, shifts);
    let closed = closed(rt, store, workers);
    let answers = answers_by_seen(rt, alloc, closed.db.get(), kept_reads);
    is_as_told(rt, alloc, closed.db.get(), &written, answers);
}

/// Lets all workers do their work, each in a thread.
fn in_threads<L: Naming + Send + Sync, T: Threads + Wait + Abort + Sync>(
    rt: &T,
    alloc: Global,
    store: &Store<L, NoGate, &T>,
    workers: Vec<Worker<L>>,
) -> Vec<Shift<L>> {
    let shifts = map_vec(rt, workers, &|worker| works(rt, alloc, store, worker));
    shifts.expect(rt, "memory")
}

/// The work of a worker, by its number.
fn works<L: Naming, T: Wait + Abort>(
    rt: &T,
    alloc: Global,
    store: &Store<L, NoGate, &T>,
    mut worker: Worker<L>,
) -> Shift<L> {
    let mut written = Vec::new(alloc);
    let mut kept_reads = Vec::new(alloc);
    match worker.number() {
        ADMINISTRATOR => repairs(rt, alloc, store, &mut worker),
        1..=WRITERS => writes(rt, alloc, store, &mut worker, &mut written),
        _ => reads(rt, alloc, &mut worker, &mut kept_reads),
    }
    Shift {
        worker,
        written,
        kept_reads,
    }
}

/// Finishes the repair that is under way, and three more.
fn repairs<L: Naming, T: Wait + Abort>(
    rt: &T,
    alloc: Global,
    store: &Store<L, NoGate, &T>,
    worker: &mut Worker<L>,
) {
    finishes(rt, store, worker, 1);
    for slot in 1..4u64 {
        let edits = Items::of(alloc, [Edit::Cancel(slot)]).expect(rt, "memory");
        store.begin(rt, worker, edits).expect(rt, "a repair");
        finishes(rt, store, worker, slot.saturating_add(1));
    }
}

/// Makes a repair in ten batches at most, and switches to this generation.
fn finishes<L: Naming, T: Wait + Abort>(
    rt: &T,
    store: &Store<L, NoGate, &T>,
    worker: &mut Worker<L>,
    generation: u64,
) {
    for _ in 0..10 {
        let progress = store.step(rt, worker, 32).expect(rt, "steps");
        if progress.left == 0 {
            break;
        }
    }
    let finished = store.finish(rt, worker).expect(rt, "a switch");
    same(rt, &finished.generation, &generation);
}

/// Writes, and keeps what it is told.
fn writes<L: Naming, T: Wait + Abort>(
    rt: &T,
    alloc: Global,
    store: &Store<L, NoGate, &T>,
    worker: &mut Worker<L>,
    written: &mut Vec<Written>,
) {
    let first = i64::from(worker.number()).saturating_mul(1000);
    for turn in 0..WRITES {
        let id = first.saturating_add(i64::from(turn));
        let action = match turn % 4 {
            0 => insert(rt, alloc, (id, "ann", 1)),
            1 => insert(rt, alloc, (id, "bob", 2)),
            2 => add_to_all(rt, alloc, 3),
            _ => delete(rt, alloc, "ann"),
        };
        let told = store.write(rt, worker, action).expect(rt, "a write");
        written.push(told).expect(rt, "memory");
    }
}

/// Asserts that no read goes back behind an earlier one, and keeps some of them: the first, and
/// each that is answered `KEPT_EVERY` entries or more behind the one that was kept last.
fn reads<L: Naming>(
    rt: &impl Abort,
    alloc: Global,
    worker: &mut Worker<L>,
    kept_reads: &mut Vec<KeptRead>,
) {
    let all = all(rt, alloc);
    let mut time = 0;
    let mut seen = 0;
    let mut next = 0;
    for _ in 0..READS {
        let answer = worker.read(&all).expect(rt, "a read");
        assert!(rt; answer.time >= time && worker.seen() >= seen);
        time = answer.time;
        seen = worker.seen();
        if seen >= next {
            next = seen.saturating_add(KEPT_EVERY);
            let read = KeptRead { seen, answer };
            kept_reads.push(read).expect(rt, "memory");
        }
    }
}

/// The workers of all shifts, what they were told of their writes, and their kept reads.
fn handed_in<L: Naming>(
    rt: &impl Abort,
    alloc: Global,
    shifts: Vec<Shift<L>>,
) -> (Vec<Worker<L>>, Vec<Written>, Vec<KeptRead>) {
    let mut workers = Vec::new(alloc);
    let mut all = Vec::new(alloc);
    let mut all_reads = Vec::new(alloc);
    for shift in shifts {
        let Shift {
            worker,
            written,
            kept_reads,
        } = shift;
        workers.push(worker).expect(rt, "memory");
        for told in written {
            all.push(told).expect(rt, "memory");
        }
        for read in kept_reads {
            all_reads.push(read).expect(rt, "memory");
        }
    }
    (workers, all, all_reads)
}

/// Asserts that a database of one thread gives each write of the history the outcome that its
/// worker was told, gives the answers after as many entries as their workers had seen, and ends
/// with the same rows.
fn is_as_told(
    rt: &impl Abort,
    alloc: Global,
    closed: &Db,
    written: &[Written],
    answers: Vec<Vec<Answer>>,
) {
    let (db, outcomes) = replayed(rt, alloc, closed, answers);
    for told in written {
        has_outcome(rt, &outcomes, told);
    }
    let writes = u64::from(WRITERS) * u64::from(WRITES);
    same(rt, &(written.len() as u64), &writes);
    same(rt, &(db.now(), db.generation()), &(5 + writes, 4));
    let all = all(rt, alloc);
    let rows = db.select(&all).expect(rt, "a select");
    same(rt, &closed.select(&all).expect(rt, "a select"), &rows);
}

/// The answers of kept reads, by how many entries of the history their workers had seen.
fn answers_by_seen(
    rt: &impl Abort,
    alloc: Global,
    history: &Db,
    kept_reads: Vec<KeptRead>,
) -> Vec<Vec<Answer>> {
    let mut answers: Vec<Vec<Answer>> = Vec::new(alloc);
    for _ in 0..history.events().saturating_add(1) {
        answers.push(Vec::new(alloc)).expect(rt, "memory");
    }
    for read in kept_reads {
        let KeptRead { seen, answer } = read;
        let there = answers.get_mut(seen as usize).expect(rt, "entries");
        there.push(answer).expect(rt, "memory");
    }
    answers
}

/// A database of one thread that is given a history, and the outcomes of its entries. Asserts that
/// it gives these answers, each list of them after one more entry.
fn replayed(
    rt: &impl Abort,
    alloc: Global,
    history: &Db,
    answers: Vec<Vec<Answer>>,
) -> (Db, Vec<Outcome>) {
    let mut db = Db::new(alloc, bank(rt, alloc), Limits::usual());
    let mut outcomes = Vec::new(alloc);
    let all = all(rt, alloc);
    let mut place = 0u64;
    for there in answers {
        for answer in there {
            let reply = db.select(&all).expect(rt, "a select");
            same(rt, &(answer.time, answer.reply), &(db.now(), reply));
        }
        place = place.saturating_add(1);
        if let Some(entry) = history.entry(place) {
            let entry = entry.clone().expect(rt, "memory");
            let (next, outcome) = db.apply(entry).expect(rt, "an outcome");
            outcomes.push(outcome).expect(rt, "memory");
            db = next;
        }
    }
    (db, outcomes)
}

/// Asserts that the entry of a write has the outcome that its worker was told.
fn has_outcome(rt: &impl Abort, outcomes: &[Outcome], told: &Written) {
    let position = told.place.saturating_sub(1) as usize;
    let outcome = outcomes.get(position).expect(rt, "an outcome");
    let replies = told.replies.clone().expect(rt, "memory");
    let want = Outcome::Written {
        slot: told.slot,
        replies,
    };
    same(rt, outcome, &want);
}
