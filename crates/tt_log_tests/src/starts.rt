//! Files as a crash, or anything else, may have left them: what is read of them, and what a settled
//! log has in its file.
use crate::logs::{ROOM_UNIT, ended, file_of, holds, is_at_rest, opened, rest_of, started};
use crate::same::same;
use std::alloc::Global;
use std::process::Abort;
use tt_log::{LogError, UnreadLog};

/// Files, and the lines that each logs.
const FILES: [(&str, &str); 14] = [
    ("", ""),
    ("\0", ""),
    ("\n", "\n"),
    ("one", ""),
    ("one\n", "one\n"),
    ("one\ntwo\n", "one\ntwo\n"),
    ("one\ntwo", "one\n"),
    ("one\n\n\ntwo", "one\n\n\n"),
    ("one\nt\0o\n", "one\n"),
    ("one\n\0two\n", "one\n"),
    ("one\n\0\0\0two\nthree\n", "one\n"),
    ("\0one\ntwo\n", ""),
    ("garbage\0one\n", ""),
    ("one\ntwo\0\n\0\n", "one\n"),
];

/// A file is read as the lines that end before its first byte 0, and settled.
#[test]
fn a_file_is_read(rt: HostRuntime) {
    let alloc = rt.alloc();
    for (text, lines) in FILES {
        holds(&rt, alloc, file_of(&rt, alloc, text, 0), lines);
    }
}

/// The lines of a file are the same, however many bytes are read at once.
fn is_read_in_pieces(rt: &impl Abort, alloc: Global, text: &str, lines: &str) {
    for at_once in [1, 3] {
        let file = file_of(rt, alloc, text, 5);
        let (bytes, log) = started(rt, alloc, file, at_once);
        assert!(rt; bytes.as_slice() == lines.as_bytes(), "{at_once} at once");
        is_at_rest(rt, log.device(), lines.as_bytes());
    }
}

#[test]
fn a_file_is_read_in_pieces(rt: HostRuntime) {
    let alloc = rt.alloc();
    for (text, lines) in FILES {
        is_read_in_pieces(&rt, alloc, text, lines);
    }
}

/// Behind the last byte of lines, and with no room for any, a read gives no byte.
#[test]
fn a_read_gives_no_byte(rt: HostRuntime) {
    let alloc = rt.alloc();
    let mut log = opened(&rt, file_of(&rt, alloc, "one\n", 3));
    assert!(rt; log.read(&mut []) == Ok(0));
    let bytes = rest_of(&rt, alloc, &mut log, 3);
    assert!(rt; bytes.as_slice() == b"one\n".as_slice());
    assert!(rt; log.read(&mut [0; 8]) == Ok(0));
    assert!(rt; log.read(&mut []) == Ok(0));
}

/// A file that was ended well is made longer and synced, and stays the file that it is.
#[test]
fn a_clean_file_is_made_longer(rt: HostRuntime) {
    let alloc = rt.alloc();
    for text in ["", "\n", "one\n"] {
        let log = opened(&rt, file_of(&rt, alloc, text, 0));
        same(&rt, &log.device().calls, &0);
        let (_, log) = started(&rt, alloc, log.into_device(), 64);
        same(&rt, &log.device().grows, &1);
        same(&rt, &log.device().syncs, &1);
        same(&rt, &log.device().calls, &2);
        same(&rt, &log.device().latest.len(), &ROOM_UNIT);
    }
}

/// Any other file is made anew: a new one is created, written once for each piece, grown, synced and
/// named, and the folder is synced.
#[test]
fn an_unclean_file_is_made_anew(rt: HostRuntime) {
    let alloc = rt.alloc();
    for (text, room) in [("one\ntwo", 100), ("one\n", 1), ("one", 0), ("\0", 0)] {
        let (bytes, log) = started(&rt, alloc, file_of(&rt, alloc, text, room), 64);
        let file = log.device();
        let pieces = if bytes.is_empty() { 0 } else { 1 };
        same(&rt, &file.calls, &5_usize.saturating_add(pieces));
        same(&rt, &file.renames, &1);
        same(&rt, &file.writes, &0);
        same(&rt, &file.latest.len(), &ROOM_UNIT);
        assert!(rt; file.after_crash_unnamed(&rt, alloc, &[], 0).is_none());
    }
}

/// A log that is ended is cut behind its lines and synced.
#[test]
fn a_file_is_ended(rt: HostRuntime) {
    let alloc = rt.alloc();
    let (_, log) = started(&rt, alloc, file_of(&rt, alloc, "one\n", 0), 64);
    let file = ended(&rt, log);
    same(&rt, &file.cuts, &1);
    same(&rt, &file.syncs, &2);
    assert!(rt; file.latest.as_slice() == b"one\n".as_slice());
    let left = file.after_crash(&rt, alloc, &[], usize::MAX);
    assert!(rt; left.latest.as_slice() == b"one\n".as_slice());
}

/// A file whose length can't be told isn't opened, and the device is given back.
#[test]
fn a_file_has_no_length(rt: HostRuntime) {
    let mut file = file_of(&rt, rt.alloc(), "one\n", 3);
    file.readable = 0;
    match UnreadLog::open(file) {
        Ok(_) => panic!(rt; "opened"),
        Err((error, file)) => {
            assert!(rt; error == LogError::Read);
            same(&rt, &file.calls, &0);
        }
    }
}

/// A read that fails leaves the log as it was.
#[test]
fn a_read_fails(rt: HostRuntime) {
    let alloc = rt.alloc();
    let mut file = file_of(&rt, alloc, "one\ntwo\n", 3);
    file.readable = 8;
    let mut log = opened(&rt, file);
    let mut buffer = [0; 6];
    assert!(rt; log.read(&mut buffer) == Ok(6));
    assert!(rt; log.read(&mut buffer).is_err());
    let mut buffer = [0; 2];
    assert!(rt; log.read(&mut buffer) == Ok(2));
    assert!(rt; &buffer[..] == b"o\n".as_slice());
}
