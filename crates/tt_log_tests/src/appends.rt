//! Lines that are appended, and what a file is made to do for that.
use crate::disk::Disk;
use crate::logs::{ROOM_UNIT, file_of, holds, is_at_rest, lines_of, log_of, started};
use crate::same::same;
use std::alloc::Global;
use std::process::Abort;
use tt_log::{Lines, Log};

/// Lines are read again in their order when the file is opened anew.
#[test]
fn lines_are_read_again(rt: HostRuntime) {
    let alloc = rt.alloc();
    let mut log = log_of(&rt, alloc, "", 0);
    let first = lines_of(&rt, alloc, &["one", "", "three"]);
    assert!(rt; log.append(&first).is_ok());
    let second = lines_of(&rt, alloc, &["four"]);
    assert!(rt; log.append(&second).is_ok());
    let (bytes, log) = started(&rt, alloc, log.into_device(), 64);
    assert!(rt; bytes.as_slice() == b"one\n\nthree\nfour\n".as_slice());
    is_at_rest(&rt, log.device(), bytes.as_slice());
}

/// A log that was opened anew goes on behind its lines.
#[test]
fn a_log_goes_on(rt: HostRuntime) {
    let alloc = rt.alloc();
    let mut log = log_of(&rt, alloc, "one\ntwo\nto", 10);
    let more = lines_of(&rt, alloc, &["three"]);
    assert!(rt; log.append(&more).is_ok());
    holds(&rt, alloc, log.into_device(), "one\ntwo\nthree\n");
}

/// Asserts how often a file was written, made longer and synced.
fn was_called(rt: &impl Abort, disk: &Disk, writes: usize, grows: usize, syncs: usize) {
    same(rt, &disk.writes, &writes);
    same(rt, &disk.grows, &grows);
    same(rt, &disk.syncs, &syncs);
}

/// A file has room from its start on, and a length of whole MiB. Each step is one write and one sync.
#[test]
fn a_file_has_room(rt: HostRuntime) {
    let alloc = rt.alloc();
    let mut log = log_of(&rt, alloc, "", 0);
    was_called(&rt, log.device(), 0, 1, 1);
    same(&rt, &log.device().latest.len(), &ROOM_UNIT);
    let lines = lines_of(&rt, alloc, &["one"]);
    assert!(rt; log.append(&lines).is_ok());
    was_called(&rt, log.device(), 1, 1, 2);
    assert!(rt; log.append(&lines).is_ok());
    was_called(&rt, log.device(), 2, 1, 3);
    same(&rt, &log.device().latest.len(), &ROOM_UNIT);
}

/// A line of so many bytes, with its line feed.
fn long_line(rt: &impl Abort, alloc: Global, byte_len: usize) -> Lines {
    let text = "x".repeat(alloc, byte_len.saturating_sub(1));
    let text = text.expect(rt, "memory");
    lines_of(rt, alloc, &[text.as_str()])
}

/// Appends a line of so many bytes. The file has this length behind it.
fn grows_to(rt: &impl Abort, alloc: Global, log: &mut Log<Disk>, byte_len: usize, len: usize) {
    let line = long_line(rt, alloc, byte_len);
    assert!(rt; log.append(&line).is_ok());
    same(rt, &log.device().latest.len(), &len);
}

/// A file keeps a byte 0 behind its lines: one that they would fill is made longer, as far as they
/// need.
#[test]
fn a_file_is_never_full(rt: HostRuntime) {
    let alloc = rt.alloc();
    let mut log = log_of(&rt, alloc, "", 0);
    grows_to(&rt, alloc, &mut log, ROOM_UNIT - 1, ROOM_UNIT);
    grows_to(&rt, alloc, &mut log, 1, 2 * ROOM_UNIT);
    grows_to(&rt, alloc, &mut log, ROOM_UNIT - 1, 2 * ROOM_UNIT);
    grows_to(&rt, alloc, &mut log, ROOM_UNIT + 1, 4 * ROOM_UNIT);
    was_called(&rt, log.device(), 4, 3, 7);
    let (bytes, _) = started(&rt, alloc, log.into_device(), 4_096);
    same(&rt, &bytes.len(), &(3 * ROOM_UNIT));
}

/// Where there are no lines, nothing is done, and answers are handed over without a sync.
#[test]
fn no_lines(rt: HostRuntime) {
    let alloc = rt.alloc();
    let mut log = log_of(&rt, alloc, "one\n", 0);
    let calls = log.device().calls;
    let none = Lines::new(alloc);
    assert!(rt; log.append(&none).is_ok());
    same(&rt, &log.device().calls, &calls);
    assert!(rt; log.hand_over(&none, b"answer").is_ok());
    was_called(&rt, log.device(), 0, 1, 1);
    assert!(rt; log.device().shown.as_slice() == b"answer".as_slice());
    holds(&rt, alloc, log.into_device(), "one\n");
}

/// Answers are handed over behind those that were.
#[test]
fn answers_are_handed_over(rt: HostRuntime) {
    let alloc = rt.alloc();
    let mut log = log_of(&rt, alloc, "one\n", 100);
    let lines = lines_of(&rt, alloc, &["two"]);
    assert!(rt; log.hand_over(&lines, b"2\n").is_ok());
    assert!(rt; log.hand_over(&lines, b"").is_ok());
    assert!(rt; log.hand_over(&lines, b"3\n").is_ok());
    assert!(rt; log.device().shown.as_slice() == b"2\n3\n".as_slice());
    was_called(&rt, log.device(), 3, 0, 3);
    holds(&rt, alloc, log.into_device(), "one\ntwo\ntwo\ntwo\n");
}
