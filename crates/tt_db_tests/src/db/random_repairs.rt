//! Long runs of all events, beside a model that carries out each generation from nothing.
use super::model::Model;
use super::random::Random;
use super::{ACCT, answer_to, bank, done, new_db, same, select_all};
use std::alloc::Global;
use std::process::Abort;
use tt_db::{Db, Event, Outcome};
use tt_values::Shared;

/// A database, and the model that is given the same events. Also how many slots all its finished
/// repairs re-executed.
#[derive(Drop)]
struct Run {
    db: Db,
    model: Model,
    rerun: u64,
}

/// Asserts that the current generation is as in the model, at each time and in each slot.
fn is_current(rt: &impl Abort, alloc: Global, run: &Run) {
    let all = select_all(rt, alloc, ACCT);
    let now = run.model.now();
    same(rt, &run.db.now(), &now);
    same(rt, &run.db.generation(), &run.model.generation());
    for time in 0..now.saturating_add(1) {
        let accounts = run.db.select_at(&all, time).expect(rt, "a reply");
        let want = run.model.select_at(rt, alloc, &all, time);
        assert_eq!(rt; accounts, want, "at {time}");
        let slot = run.model.slot(rt, time);
        assert_eq!(rt; run.db.slot(time), slot.as_ref(), "slot {time}");
    }
}

/// Asserts that the next generation is as in the model, at each time that is done.
fn is_next(rt: &impl Abort, alloc: Global, run: &Run) {
    let all = select_all(rt, alloc, ACCT);
    let progress = run.model.progress();
    same(rt, &run.db.repair(), &progress);
    let Some(progress) = progress else {
        return;
    };
    let preview = run.db.preview(&all).ok();
    let want = run.model.preview_at(rt, alloc, &all, progress.done);
    same(rt, &preview, &want);
    for time in 0..progress.done {
        let accounts = run.db.preview_at(&all, time).ok();
        let want = run.model.preview_at(rt, alloc, &all, time);
        assert_eq!(rt; accounts, want, "at {time}");
    }
}

/// Asserts that the split rows are those that are dirty in the model.
fn are_split(rt: &impl Abort, run: &Run) {
    for id in 1..6i64 {
        let is_split = match run.db.versions(ACCT) {
            Some(table) => table.is_split(id),
            None => false,
        };
        assert_eq!(rt; is_split, run.model.is_dirty(ACCT, id), "account {id}");
    }
}

/// Gives an event to both. Asserts that it has the same outcome, or is refused by both, and that
/// the current generation is as in the model before and after the end of a repair.
fn advance(rt: &impl Abort, alloc: Global, run: &mut Run, event: Event) {
    let ends = matches!(&event, Event::Switch | Event::Abort);
    if ends {
        is_current(rt, alloc, run);
    }
    let want = run.model.answer(rt, alloc, &event);
    same(rt, &answer_to(&mut run.db, event).ok(), &want);
    are_split(rt, run);
    if ends {
        is_current(rt, alloc, run);
    }
    if let Some(Outcome::Switched { rerun, .. }) = want {
        run.rerun = run.rerun.saturating_add(rerun);
    }
}

/// A run of this number of events.
fn ran(rt: &impl Abort, alloc: Global, seed: u64, events: u32) -> Run {
    let mut random = Random { state: seed };
    let mut run = Run {
        db: new_db(rt, alloc),
        model: Model::new(alloc, Shared::from_arc(bank(rt, alloc, &["acct"]))),
        rerun: 0,
    };
    for number in 0..events {
        let slots = u32::try_from(run.db.now()).unwrap_or(0);
        let event = random.event(rt, alloc, slots);
        advance(rt, alloc, &mut run, event);
        if number % 4 == 0 {
            is_next(rt, alloc, &run);
        }
        if number % 25 == 0 {
            is_current(rt, alloc, &run);
        }
    }
    is_current(rt, alloc, &run);
    run
}

/// Two long runs and many short ones, in which little is dirty. The seeds are such that a repair
/// is caught that overlooks the rows which a slot wrote. Each outcome is the model's, so each step
/// tells whether its slot is due, and each switch how many were.
#[test]
fn repairs_lead_to_the_edited_slots(rt: HostRuntime) {
    let alloc = rt.alloc();
    let mut switches: u64 = 0;
    let mut rerun: u64 = 0;
    for seed in 41..104 {
        let events = if seed < 43 { 400 } else { 60 };
        let run = ran(&rt, alloc, seed, events);
        switches = switches.saturating_add(run.db.generation());
        rerun = rerun.saturating_add(run.rerun);
        done(run.db);
    }
    assert!(rt; switches >= 100, "only {switches} switches");
    assert!(rt; rerun >= 150, "only {rerun} slots re-executed");
}
