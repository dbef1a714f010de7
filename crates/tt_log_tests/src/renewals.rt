//! Logs that are made anew: each call of a device fails in turn, and a crash finds the old lines or
//! the new ones.
use crate::disk::{Disk, Failing};
use crate::logs::{ROOM_UNIT, ended, holds, is_at_rest, lines_of, log_of, started};
use crate::random::Random;
use crate::same::same;
use std::alloc::Global;
use std::process::Abort;
use tt_log::{Log, RenewError};

const OLD: &str = "old\nlines\n";

const NEW: &str = "new\nones\n\nhere\n";

/// Before this call the new file is created, twice appended to, made longer, synced and renamed.
const FOLDER_SYNC: usize = 6;

/// Makes a log anew, whose lines are pushed in two steps.
fn renews(rt: &impl Abort, alloc: Global, log: &mut Log<Disk>) -> Result<(), RenewError> {
    let first = lines_of(rt, alloc, &["new", "ones"]);
    let second = lines_of(rt, alloc, &["", "here"]);
    let is_pushed = log.begin_new().is_ok()
        && log.push_new(&first).is_ok()
        && log.push_new(&second).is_ok();
    if !is_pushed {
        return Err(RenewError::Kept);
    }
    log.take_new()
}

/// Makes a log with old lines anew, where this call fails, if it comes. Before it the start makes the
/// file longer and syncs it.
fn renewed(
    rt: &impl Abort,
    alloc: Global,
    call: usize,
    is_unsure: bool,
) -> (Result<(), RenewError>, Log<Disk>) {
    let mut file = ended(rt, log_of(rt, alloc, OLD, 20));
    let started_by = file.calls.saturating_add(2);
    file.failing = Failing::Once(started_by.saturating_add(call));
    file.is_unsure = is_unsure;
    let (_, mut log) = started(rt, alloc, file, 64);
    let outcome = renews(rt, alloc, &mut log);
    (outcome, log)
}

/// Asserts that so many crashes leave these lines.
fn leaves(rt: &impl Abort, alloc: Global, file: &Disk, crashes: u64, text: &str) {
    let mut random = Random::new(5);
    for _ in 0..crashes {
        let choices = random.choices(rt, alloc, 40);
        let len = random.below(file.latest.len().saturating_add(1));
        let left = file.after_crash(rt, alloc, choices.as_slice(), len);
        holds(rt, alloc, left, text);
    }
}

/// Appends a line, and then a crash leaves these lines.
fn goes_on(rt: &impl Abort, alloc: Global, log: &mut Log<Disk>, text: &str) {
    let more = lines_of(rt, alloc, &["more"]);
    assert!(rt; log.append(&more).is_ok());
    leaves(rt, alloc, log.device(), 1, text);
}

/// The lines of the new file are those of the log, and further ones are appended to them.
#[test]
fn a_log_is_made_anew(rt: HostRuntime) {
    let alloc = rt.alloc();
    let (outcome, mut log) = renewed(&rt, alloc, usize::MAX, false);
    assert!(rt; outcome.is_ok());
    let file = log.device();
    same(&rt, &file.latest.len(), &ROOM_UNIT);
    is_at_rest(&rt, file, NEW.as_bytes());
    assert!(rt; file.after_crash_unnamed(&rt, alloc, &[], 0).is_none());
    leaves(&rt, alloc, file, 1, NEW);
    goes_on(&rt, alloc, &mut log, "new\nones\n\nhere\nmore\n");
}

/// This call fails, before the renaming: a crash leaves the old lines, and the log goes on with them.
fn is_kept(rt: &impl Abort, alloc: Global, call: usize) {
    let (outcome, mut log) = renewed(rt, alloc, call, false);
    assert!(rt; outcome == Err(RenewError::Kept), "call {call}");
    leaves(rt, alloc, log.device(), 1, OLD);
    log.remove_new();
    goes_on(rt, alloc, &mut log, "old\nlines\nmore\n");
}

#[test]
fn an_old_log_is_kept(rt: HostRuntime) {
    for call in 0..FOLDER_SYNC / 2 {
        is_kept(&rt, rt.alloc(), call);
    }
}

#[test]
fn an_old_log_is_kept_behind_a_new_one(rt: HostRuntime) {
    for call in FOLDER_SYNC / 2..FOLDER_SYNC {
        is_kept(&rt, rt.alloc(), call);
    }
}

/// Asserts that a crash leaves all the old lines or all the new ones, and that no further line is
/// taken for written.
fn is_lost(rt: &impl Abort, alloc: Global, log: &mut Log<Disk>) {
    leaves(rt, alloc, log.device(), 1, NEW);
    let old = log.device().after_crash_unnamed(rt, alloc, &[], 0);
    holds(rt, alloc, old.expect(rt, "an old file"), OLD);
    let more = lines_of(rt, alloc, &["more"]);
    assert!(rt; log.append(&more).is_err());
}

#[test]
fn a_name_is_not_on_the_disk(rt: HostRuntime) {
    let alloc = rt.alloc();
    let (outcome, mut log) = renewed(&rt, alloc, FOLDER_SYNC, false);
    assert!(rt; outcome == Err(RenewError::Lost));
    is_lost(&rt, alloc, &mut log);
}

/// A naming that fails is no reason to go on in the old file, unless it surely has its name.
#[test]
fn a_name_is_unknown(rt: HostRuntime) {
    let alloc = rt.alloc();
    let (outcome, mut log) = renewed(&rt, alloc, FOLDER_SYNC - 1, true);
    assert!(rt; outcome == Err(RenewError::Lost));
    is_lost(&rt, alloc, &mut log);
}
