//! What a crash leaves of lines that are being written, and that the file starts from it again.
use crate::disk::{Disk, Failing};
use crate::logs::{begins, ended, holds, lines_of, log_of, started};
use crate::random::Random;
use std::alloc::Global;
use std::process::Abort;

const OLD: &str = "the first\n\nthe third\n";

/// Lines that are written together.
const TEXTS: [&str; 4] = ["one", "", "three three three", "4"];

/// All of them.
const ALL: &str = "the first\n\nthe third\none\n\nthree three three\n4\n";

/// How many bytes of these were not in the file before.
const NEW: usize = ALL.len() - OLD.len();

/// Asserts that a file holds the old lines and the first few of the new ones.
fn keeps(rt: &impl Abort, alloc: Global, file: Disk) {
    begins(rt, alloc, file, ALL, OLD.len());
}

/// Asserts the same, and that the log which has begun goes on with these lines.
fn goes_on_with_these(rt: &impl Abort, alloc: Global, file: Disk) {
    let (end, log) = begins(rt, alloc, file, ALL, OLD.len());
    let Some(text) = ALL.get(..end) else {
        panic!(rt; "no text");
    };
    holds(rt, alloc, log.into_device(), text);
}

/// A file with old lines, whose sync fails once the new lines were written. The start makes it longer
/// and syncs it before.
fn unsynced(rt: &impl Abort, alloc: Global) -> Disk {
    let mut file = ended(rt, log_of(rt, alloc, OLD, 60));
    file.failing = Failing::Once(file.calls.saturating_add(3));
    let (_, mut log) = started(rt, alloc, file, 64);
    let lines = lines_of(rt, alloc, &TEXTS);
    assert!(rt; log.hand_over(&lines, b"answers").is_err());
    assert!(rt; log.device().shown.is_empty());
    log.into_device()
}

/// The first bytes of the new lines are on the disk, and no others.
#[test]
fn a_write_is_cut_off(rt: HostRuntime) {
    let alloc = rt.alloc();
    let file = unsynced(&rt, alloc);
    for count in 0..=NEW {
        let choices = vec![in alloc; true; count].expect(&rt, "memory");
        let left = file.after_crash(&rt, alloc, choices.as_slice(), 0);
        if count % 16 == 0 {
            goes_on_with_these(&rt, alloc, left);
        } else {
            keeps(&rt, alloc, left);
        }
    }
}

/// One byte of the new lines is on the disk, or all but one.
fn lacks_a_byte(rt: &impl Abort, alloc: Global, is_there: bool) {
    let file = unsynced(rt, alloc);
    for at in 0..NEW {
        let left = file.after_crash(rt, alloc, &choices_but(rt, alloc, at, is_there), 0);
        keeps(rt, alloc, left);
    }
}

#[test]
fn a_write_lacks_a_byte(rt: HostRuntime) {
    lacks_a_byte(&rt, rt.alloc(), false);
}

#[test]
fn a_write_is_one_byte(rt: HostRuntime) {
    lacks_a_byte(&rt, rt.alloc(), true);
}

/// Choices that are the same, but for one.
fn choices_but(rt: &impl Abort, alloc: Global, at: usize, one: bool) -> Vec<bool> {
    let mut choices = Vec::new(alloc);
    for i in 0..NEW {
        choices.push((i == at) == one).expect(rt, "memory");
    }
    choices
}

/// Any bytes of the new lines are on the disk.
#[test]
fn a_write_is_torn(rt: HostRuntime) {
    let alloc = rt.alloc();
    let file = unsynced(&rt, alloc);
    let mut random = Random::new(1);
    for _ in 0..20 {
        let choices = random.choices(&rt, alloc, NEW);
        let left = file.after_crash(&rt, alloc, choices.as_slice(), 0);
        keeps(&rt, alloc, left);
    }
}

/// A start on a file whose sync has failed, and which reads well, puts its lines on the disk: a crash
/// behind the start leaves them all.
#[test]
fn what_is_read_is_not_trusted(rt: HostRuntime) {
    let alloc = rt.alloc();
    let (bytes, log) = started(&rt, alloc, unsynced(&rt, alloc), 64);
    assert!(rt; bytes.as_slice() == ALL.as_bytes());
    let file = log.device();
    assert!(rt; file.after_crash_unnamed(&rt, alloc, &[], 0).is_none());
    holds(&rt, alloc, file.after_crash(&rt, alloc, &[], 0), ALL);
}

/// Where a file is cut at its end and that isn't synced, a crash leaves its lines, at any length.
#[test]
fn an_end_is_torn(rt: HostRuntime) {
    let alloc = rt.alloc();
    let mut file = ended(&rt, log_of(&rt, alloc, OLD, 60));
    file.failing = Failing::Once(file.calls.saturating_add(3));
    let (_, log) = started(&rt, alloc, file, 64);
    let file = match log.close() {
        Ok(_) => panic!(rt; "ended"),
        Err((_, file)) => file,
    };
    for more in [0, 1, 64, 5_000] {
        let len = OLD.len().saturating_add(more);
        let left = file.after_crash(&rt, alloc, &[], len);
        assert!(rt; left.latest.len() == len);
        holds(&rt, alloc, left, OLD);
    }
}
