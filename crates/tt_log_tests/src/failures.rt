//! Calls of a device that fail, each in turn: the error, what was handed over, and what a crash
//! leaves then.
use crate::disk::{Disk, Failing};
use crate::logs::{begins, file_of, holds, lines_of, rest_of};
use crate::random::Random;
use crate::same::same;
use std::alloc::Global;
use std::process::Abort;
use tt_log::{Log, LogError, UnreadLog};

/// The lines of the file, and those that are logged after them in two steps.
const ALL: &str = "old\nlines\none\ntwo\nthree\n";

/// Logs lines in two steps, each with answers.
fn logs_lines(rt: &impl Abort, alloc: Global, log: &mut Log<Disk>) -> Result<(), LogError> {
    let first = lines_of(rt, alloc, &["one", "two"]);
    log.hand_over(&first, b"answers\n")?;
    let second = lines_of(rt, alloc, &["three"]);
    log.hand_over(&second, b"again\n")?;
    Ok(())
}

/// Opens a file, settles it, and logs lines. Returns the error, too, if there is one.
fn runs(rt: &impl Abort, alloc: Global, file: Disk) -> (Result<(), LogError>, Disk) {
    let mut log = match UnreadLog::open(file) {
        Ok(log) => log,
        Err((error, file)) => return (Err(error), file),
    };
    rest_of(rt, alloc, &mut log, 5);
    let mut buffer = [0; 64];
    match log.settle(&mut buffer) {
        Ok(log) => {
            let mut log = log;
            let outcome = logs_lines(rt, alloc, &mut log);
            (outcome, log.into_device())
        }
        Err((error, file)) => (Err(error), file),
    }
}

/// What a file has at first, and which calls hand answers over. The last call is one.
#[derive(Clone, Copy)]
struct Course {
    text: &'static str,
    room: usize,
    hand_overs: [usize; 2],
}

/// The start makes the file anew: it creates a new one, writes, grows, syncs and renames it, and
/// syncs the folder. Then a step writes, syncs, and hands over.
const UNCLEAN: Course = Course {
    text: "old\nlines\ntorn",
    room: 40,
    hand_overs: [8, 11],
};

/// The start makes the file longer, and syncs it.
const CLEAN: Course = Course {
    text: "old\nlines\n",
    room: 0,
    hand_overs: [4, 7],
};

/// The call that renames, where the file is made anew, and the one behind it that syncs the folder.
const RENAME: usize = 4;

const FOLDER_SYNC: usize = 5;

/// Runs on a file whose calls fail.
fn runs_on(
    rt: &impl Abort,
    alloc: Global,
    course: Course,
    failing: Failing,
) -> (Result<(), LogError>, Disk) {
    let mut file = file_of(rt, alloc, course.text, course.room);
    file.failing = failing;
    runs(rt, alloc, file)
}

#[test]
fn no_call_fails(rt: HostRuntime) {
    let alloc = rt.alloc();
    for course in [UNCLEAN, CLEAN] {
        let (outcome, file) = runs_on(&rt, alloc, course, Failing::Never);
        assert!(rt; outcome.is_ok());
        same(&rt, &file.calls, &(course.hand_overs[1] + 1));
        assert!(rt; file.shown.as_slice() == b"answers\nagain\n".as_slice());
        holds(&rt, alloc, file, ALL);
    }
}

/// How many bytes of answers were handed over when this call failed by half.
fn shown_by(call: usize, hand_overs: [usize; 2]) -> usize {
    if call < hand_overs[0] {
        0
    } else if call == hand_overs[0] {
        4
    } else if call < hand_overs[1] {
        8
    } else {
        11
    }
}

/// Asserts that a call that fails ends it all, with the right error.
fn fails(rt: &impl Abort, alloc: Global, course: Course, call: usize, failing: Failing) -> Disk {
    let (outcome, file) = runs_on(rt, alloc, course, failing);
    let error = if course.hand_overs.contains(&call) {
        LogError::HandOver
    } else {
        LogError::Write
    };
    assert!(rt; outcome == Err(error), "call {call}");
    same(rt, &file.calls, &call.saturating_add(1));
    same(rt, &file.shown.len(), &shown_by(call, course.hand_overs));
    assert!(rt; b"answers\nagain\n".as_slice().starts_with(&file.shown));
    file
}

/// How many bytes of lines a file has at least, by what was handed over.
fn answered(shown: usize) -> usize {
    if shown > 8 {
        24
    } else if shown > 0 {
        18
    } else {
        10
    }
}

/// What crashes leave of a file has each line that was answered.
fn survives(rt: &impl Abort, alloc: Global, file: &Disk, crashes: u64, random: &mut Random) {
    let least = answered(file.shown.len());
    for _ in 0..crashes {
        let choices = random.choices(rt, alloc, 40);
        let len = random.below(file.latest.len().saturating_add(1));
        let left = file.after_crash(rt, alloc, choices.as_slice(), len);
        begins(rt, alloc, left, ALL, least);
    }
}

/// Each call fails in turn, in a file that is made anew.
#[test]
fn a_call_fails(rt: HostRuntime) {
    let alloc = rt.alloc();
    let mut random = Random::new(2);
    for call in 0..=UNCLEAN.hand_overs[1] {
        let file = fails(&rt, alloc, UNCLEAN, call, Failing::Once(call));
        survives(&rt, alloc, &file, 1, &mut random);
    }
}

/// Each call fails in turn, in a file that is made anew, and so do those after it.
#[test]
fn further_calls_fail(rt: HostRuntime) {
    let alloc = rt.alloc();
    let mut random = Random::new(4);
    for call in 0..=UNCLEAN.hand_overs[1] {
        let file = fails(&rt, alloc, UNCLEAN, call, Failing::From(call));
        survives(&rt, alloc, &file, 1, &mut random);
    }
}

/// Each call fails in turn, in a file that was ended well.
#[test]
fn a_call_fails_in_place(rt: HostRuntime) {
    let alloc = rt.alloc();
    let mut random = Random::new(3);
    for call in 0..=CLEAN.hand_overs[1] {
        let file = fails(&rt, alloc, CLEAN, call, Failing::Once(call));
        survives(&rt, alloc, &file, 2, &mut random);
    }
}

/// A file that is made longer has any length behind its old one after a crash, and each line.
#[test]
fn a_file_grows_by_half(rt: HostRuntime) {
    let alloc = rt.alloc();
    let mut random = Random::new(4);
    for call in [0, 1] {
        let file = fails(&rt, alloc, CLEAN, call, Failing::From(call));
        for _ in 0..20 {
            let len = random.below(300);
            let left = file.after_crash(&rt, alloc, &[], len);
            begins(&rt, alloc, left, ALL, 10);
        }
    }
}

/// Until the naming is done, a start that fails leaves the file as it was.
#[test]
fn a_start_keeps_the_file(rt: HostRuntime) {
    let alloc = rt.alloc();
    for call in 0..=RENAME {
        let file = fails(&rt, alloc, UNCLEAN, call, Failing::Once(call));
        let was = file_of(&rt, alloc, UNCLEAN.text, UNCLEAN.room);
        assert!(rt; file.latest.as_slice() == was.latest.as_slice());
        holds(&rt, alloc, file, "old\nlines\n");
    }
}

/// A file that may have been made anew: a crash leaves the old one or the new one.
fn is_either(rt: &impl Abort, alloc: Global, file: &Disk) {
    let new = file.after_crash(rt, alloc, &[], 0);
    holds(rt, alloc, new, "old\nlines\n");
    let old = file.after_crash_unnamed(rt, alloc, &[], 0);
    let old = old.expect(rt, "an old file");
    let was = file_of(rt, alloc, UNCLEAN.text, UNCLEAN.room);
    assert!(rt; old.latest.as_slice() == was.latest.as_slice());
}

#[test]
fn a_folder_is_not_synced(rt: HostRuntime) {
    let alloc = rt.alloc();
    let file = fails(&rt, alloc, UNCLEAN, FOLDER_SYNC, Failing::Once(FOLDER_SYNC));
    is_either(&rt, alloc, &file);
}

/// Where nobody knows which file has the name, the start has failed.
#[test]
fn a_name_is_unknown(rt: HostRuntime) {
    let alloc = rt.alloc();
    let mut file = file_of(&rt, alloc, UNCLEAN.text, UNCLEAN.room);
    file.failing = Failing::Once(RENAME);
    file.is_unsure = true;
    let (outcome, file) = runs(&rt, alloc, file);
    assert!(rt; outcome == Err(LogError::Write));
    same(&rt, &file.calls, &(RENAME + 1));
    is_either(&rt, alloc, &file);
}
