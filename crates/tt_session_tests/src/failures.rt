//! Sessions whose reader or writer fails.
use crate::conversation::{
    ANSWERS, LINES, OPENED, OPENING, STATUS, answers_to, joined, lines_with_long_answers,
};
use crate::devices::{FailingOnce, Sink, Source};
use crate::same::same;
use std::alloc::Global;
use std::io::ErrorKind;
use std::process::Abort;
use tt_lines::{SessionFault, run_session};

/// Errors that end a session, though some of them look like an end of the input or a pause.
const KINDS: [ErrorKind; 4] = [
    ErrorKind::UnexpectedEof,
    ErrorKind::WouldBlock,
    ErrorKind::BrokenPipe,
    ErrorKind::Other,
];

/// What was written is a beginning of the answers to the lines that were read, and lacks at most
/// the answers to those that were read last.
fn is_cut_off(rt: &impl Abort, alloc: Global, reader: &Source<'_, '_>, writer: &Sink) {
    let written = writer.written.as_slice();
    let due = answers_to(rt, alloc, reader.bytes_read);
    assert!(rt; due.as_bytes().starts_with(written));
    let earlier = reader.bytes_read.saturating_sub(reader.last_bytes);
    let handed_over = answers_to(rt, alloc, earlier);
    assert!(rt; written.starts_with(handed_over.as_bytes()));
}

/// A session that nothing disturbs: returns how often it reads, and how often it writes or flushes.
fn calls_of(
    rt: &impl Abort,
    alloc: Global,
    pieces: &[&str],
    read_at_once: usize,
    write_at_once: usize,
) -> (usize, usize) {
    let answers = joined(rt, alloc, &ANSWERS);
    let mut reader = Source::new(pieces, read_at_once);
    let mut writer = Sink::new(alloc, write_at_once);
    let outcome = run_session(alloc, &mut reader, &mut writer);
    assert!(rt; outcome.is_ok());
    assert!(rt; writer.written.as_slice() == answers.as_bytes());
    same(rt, &writer.flushed, &answers.len());
    (reader.reads, writer.calls)
}

/// A session that nothing disturbs is answered wholly, also where its bytes come and go one by one,
/// and where it is read from a slice.
#[test]
fn a_whole_session(rt: HostRuntime) {
    let alloc = rt.alloc();
    calls_of(&rt, alloc, &LINES, 1, 1);
    let lines = joined(&rt, alloc, &LINES);
    calls_of(&rt, alloc, &[lines.as_str()], usize::MAX, usize::MAX);
    let answers = joined(&rt, alloc, &ANSWERS);
    let mut reader = lines.as_bytes();
    let mut writer = Sink::new(alloc, usize::MAX);
    let outcome = run_session(alloc, &mut reader, &mut writer);
    assert!(rt; outcome.is_ok());
    assert!(rt; reader.is_empty());
    assert!(rt; writer.written.as_slice() == answers.as_bytes());
}

/// A reader that fails after some reads ends a session, and the lines are answered that have been
/// read to their ends by then. Returns how many bytes were read.
fn fails_to_read(
    rt: &impl Abort,
    alloc: Global,
    source: Source<'_, '_>,
    kind: ErrorKind,
    reads: usize,
) -> usize {
    let mut reader = FailingOnce::new(source, kind, reads);
    let mut writer = Sink::new(alloc, usize::MAX);
    let outcome = run_session(alloc, &mut reader, &mut writer);
    assert!(rt; outcome == Err(SessionFault::Read), "after {reads} reads");
    same(rt, &reader.inner.reads, &reads);
    let answers = answers_to(rt, alloc, reader.inner.bytes_read);
    assert!(rt;
        writer.written.as_slice() == answers.as_bytes(),
        "after {reads} reads"
    );
    same(rt, &writer.flushed, &answers.len());
    reader.inner.bytes_read
}

/// A session is ended by a fault of each of its reads, where each gives so many bytes at most.
fn fails_at_each_read(rt: &impl Abort, alloc: Global, at_once: usize) {
    let lines = joined(rt, alloc, &LINES);
    let pieces = [lines.as_str()];
    let (all, _) = calls_of(rt, alloc, &pieces, at_once, usize::MAX);
    for reads in 0..all {
        let source = Source::new(&pieces, at_once);
        let bytes_read = fails_to_read(rt, alloc, source, ErrorKind::Other, reads);
        same(
            rt,
            &bytes_read,
            &reads.saturating_mul(at_once).min(lines.len()),
        );
    }
}

/// A reader fails at once, at each byte of a line, between two lines, and behind the last one.
#[test]
fn a_reader_fails(rt: HostRuntime) {
    for at_once in [1, 30, 250, usize::MAX] {
        fails_at_each_read(&rt, rt.alloc(), at_once);
    }
}

/// A reader fails between two lines, with any error that isn't an interruption.
#[test]
fn a_reader_fails_between_lines(rt: HostRuntime) {
    let alloc = rt.alloc();
    for kind in KINDS {
        for reads in 0..=LINES.len() {
            let source = Source::new(&LINES, usize::MAX);
            let bytes_read = fails_to_read(&rt, alloc, source, kind, reads);
            let lines = joined(&rt, alloc, &LINES[..reads]);
            same(&rt, &bytes_read, &lines.len());
        }
    }
}

/// A line that lacks its line feed is answered at the end of the input, but not where the reader
/// fails behind it.
#[test]
fn a_reader_fails_behind_an_unfinished_line(rt: HostRuntime) {
    let alloc = rt.alloc();
    let unfinished = [OPENING, r#"{"status":true}"#];
    let mut reader = Source::new(&unfinished, usize::MAX);
    let mut writer = Sink::new(alloc, usize::MAX);
    assert!(rt; run_session(alloc, &mut reader, &mut writer).is_ok());
    let answers = joined(&rt, alloc, &[OPENED, STATUS]);
    assert!(rt; writer.written.as_slice() == answers.as_bytes());
    let source = Source::new(&unfinished, usize::MAX);
    let mut reader = FailingOnce::new(source, ErrorKind::UnexpectedEof, 2);
    let mut writer = Sink::new(alloc, usize::MAX);
    let outcome = run_session(alloc, &mut reader, &mut writer);
    assert!(rt; outcome == Err(SessionFault::Read));
    assert!(rt; writer.written.as_slice() == OPENED.as_bytes());
}

/// A writer that fails after some calls ends a session, whose lines come one a read.
fn fails_to_write(rt: &impl Abort, alloc: Global, at_once: usize, kind: ErrorKind, calls: usize) {
    let mut reader = Source::new(&LINES, usize::MAX);
    let mut writer = FailingOnce::new(Sink::new(alloc, at_once), kind, calls);
    let outcome = run_session(alloc, &mut reader, &mut writer);
    assert!(rt; outcome == Err(SessionFault::Write), "after {calls} calls");
    same(rt, &writer.inner.calls, &calls);
    is_cut_off(rt, alloc, &reader, &writer.inner);
}

/// A writer fails at its first byte, within an answer, between two answers, or when it is flushed:
/// at each of its calls.
#[test]
fn a_writer_fails(rt: HostRuntime) {
    let alloc = rt.alloc();
    for at_once in [1, 20, usize::MAX] {
        let (_, all) = calls_of(&rt, alloc, &LINES, usize::MAX, at_once);
        for calls in 0..all {
            fails_to_write(&rt, alloc, at_once, ErrorKind::Other, calls);
        }
    }
}

/// A writer fails with any error that isn't an interruption.
#[test]
fn a_writer_fails_with_any_error(rt: HostRuntime) {
    let alloc = rt.alloc();
    let (_, all) = calls_of(&rt, alloc, &LINES, usize::MAX, usize::MAX);
    for kind in KINDS {
        for calls in 0..all {
            fails_to_write(&rt, alloc, usize::MAX, kind, calls);
        }
    }
}

/// A writer that takes no byte in one write ends a session, wherever in the answers that is.
#[test]
fn a_writer_takes_no_byte(rt: HostRuntime) {
    let alloc = rt.alloc();
    let answers = joined(&rt, alloc, &ANSWERS);
    for written in 0..answers.len() {
        let mut reader = Source::new(&LINES, usize::MAX);
        let mut writer = Sink::full_at(alloc, usize::MAX, written);
        let outcome = run_session(alloc, &mut reader, &mut writer);
        assert!(rt;
            outcome == Err(SessionFault::Write),
            "after {written} bytes"
        );
        same(&rt, &writer.written.len(), &written);
        is_cut_off(&rt, alloc, &reader, &writer);
    }
}

/// A session whose answers are long is ended by a writer that fails after some calls. Returns what
/// was written.
fn cuts_long_answers_off(rt: &impl Abort, alloc: Global, lines: &str, calls: usize) -> Sink {
    let pieces = [lines];
    let mut reader = Source::new(&pieces, usize::MAX);
    let sink = Sink::new(alloc, usize::MAX);
    let mut writer = FailingOnce::new(sink, ErrorKind::Other, calls);
    let outcome = run_session(alloc, &mut reader, &mut writer);
    assert!(rt; outcome == Err(SessionFault::Write), "after {calls} calls");
    same(rt, &reader.reads, &1);
    writer.inner
}

/// Where the answers to lines that came together are handed over in two parts, a writer may fail
/// when the first one is flushed, and at the second one.
#[test]
fn a_writer_fails_at_the_second_part(rt: HostRuntime) {
    let alloc = rt.alloc();
    let lines = lines_with_long_answers(&rt, alloc);
    let unflushed = cuts_long_answers_off(&rt, alloc, lines.as_str(), 1);
    let first = unflushed.written.len();
    assert!(rt; first >= 1_048_576);
    same(&rt, &unflushed.flushed, &0);
    let cut_off = cuts_long_answers_off(&rt, alloc, lines.as_str(), 2);
    same(&rt, &cut_off.written.len(), &first);
    same(&rt, &cut_off.flushed, &first);
    let unflushed = cuts_long_answers_off(&rt, alloc, lines.as_str(), 3);
    assert!(rt; unflushed.written.len() > first);
    same(&rt, &unflushed.flushed, &first);
}
