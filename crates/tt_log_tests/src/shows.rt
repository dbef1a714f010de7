//! Logs that are looked at.
use crate::disk::{Disk, Failing};
use std::alloc::Global;
use std::process::Abort;
use tt_log::{LogError, LogSummary, has_lines, show_log};

/// Looks at a file, in pieces of at most this many bytes, one at least. Nothing is written to it.
fn looks(
    rt: &impl Abort,
    alloc: Global,
    file: Disk,
    at_once: usize,
) -> (Result<LogSummary, LogError>, Disk) {
    assert!(rt; at_once > 0);
    let mut file = file;
    let mut buffer = vec![in alloc; 0; at_once].expect(rt, "memory");
    let outcome = show_log(&mut file, &mut buffer);
    assert!(rt; file.writes == 0 && file.grows == 0 && file.syncs == 0);
    (outcome, file)
}

/// Asserts what is shown and told of a file with these bytes.
fn shows(rt: &impl Abort, alloc: Global, bytes: &[u8], lines: u64, text: &str, is_torn: bool) {
    for at_once in [1, 2, 3, 5, 64] {
        let file = Disk::new(rt, alloc, bytes);
        let (outcome, file) = looks(rt, alloc, file, at_once);
        let summary = outcome.expect(rt, "a log");
        let bytes = text.len() as u64;
        assert!(rt;
            summary
                == LogSummary {
                    lines,
                    bytes,
                    is_torn
                }
        );
        assert!(rt; file.shown.as_slice() == text.as_bytes());
        let mut buffer = [0; 3];
        assert!(rt; has_lines(&file, &mut buffer) == Ok(lines > 0));
    }
}

#[test]
fn the_lines_before_the_first_zero_are_shown(rt: HostRuntime) {
    let alloc = rt.alloc();
    shows(&rt, alloc, b"", 0, "", false);
    shows(&rt, alloc, b"\0\0\0", 0, "", false);
    shows(&rt, alloc, b"one\ntwo\n", 2, "one\ntwo\n", false);
    shows(&rt, alloc, b"one\ntwo\n\0\0\0\0", 2, "one\ntwo\n", false);
    shows(&rt, alloc, b"\n\none\n\0", 3, "\n\none\n", false);
}

#[test]
fn a_torn_rest_is_told_and_not_shown(rt: HostRuntime) {
    let alloc = rt.alloc();
    shows(&rt, alloc, b"torn", 0, "", true);
    shows(&rt, alloc, b"one\ntorn", 1, "one\n", true);
    shows(&rt, alloc, b"one\nt\0rn\n\0", 1, "one\n", true);
    shows(&rt, alloc, b"one\n\0\0\0\0\0\0x", 1, "one\n", true);
    shows(&rt, alloc, b"\0one\n", 0, "", true);
}

#[test]
fn a_file_that_cannot_be_read_is_told(rt: HostRuntime) {
    let alloc = rt.alloc();
    for readable in [0, 2, 6] {
        let mut file = Disk::new(&rt, alloc, b"one\ntwo\n\0\0");
        file.readable = readable;
        let (outcome, file) = looks(&rt, alloc, file, 4);
        assert!(rt; outcome == Err(LogError::Read));
        assert!(rt; file.shown.is_empty());
    }
}

#[test]
fn an_output_that_fails_is_told(rt: HostRuntime) {
    let alloc = rt.alloc();
    for first in [0, 1] {
        let mut file = Disk::new(&rt, alloc, b"one\ntwo\n\0\0");
        file.failing = Failing::From(first);
        let (outcome, file) = looks(&rt, alloc, file, 4);
        assert!(rt; outcome == Err(LogError::HandOver));
        assert!(rt; file.shown.len() < 8);
    }
}
