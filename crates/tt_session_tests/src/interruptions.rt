//! Sessions whose reads or writes are interrupted: each line, and each handing over of answers, has
//! a count of its own of interruptions that are tried again.
use crate::conversation::{
    ANSWERS, LINES, OPENED, OPENING, STATUS, answers_to, joined, lines_with_long_answers,
};
use crate::devices::{FailingOnce, Faltering, Sink, Source};
use crate::same::same;
use std::alloc::Global;
use std::io::ErrorKind;
use std::process::Abort;
use tt_lines::{SessionFault, run_session};

/// Two lines in three pieces: the second one begins with the piece in which the first one ends.
const HALVES: [&str; 3] = [
    r#"{"version":2,"#,
    r#""tables":[]}
{"status""#,
    ":true}\n",
];

/// Holds a session whose reader is interrupted so often before each read. These answers, and no
/// others, are written and flushed. Returns how it has ended, and how many bytes were read.
fn read_with(
    rt: &impl Abort,
    alloc: Global,
    pieces: &[&str],
    before: &[u32],
    answers: &[&str],
) -> (Result<(), SessionFault>, usize) {
    let mut reader = Faltering::new(Source::new(pieces, usize::MAX), before);
    let mut writer = Sink::new(alloc, usize::MAX);
    let outcome = run_session(alloc, &mut reader, &mut writer);
    let answers = joined(rt, alloc, answers);
    assert!(rt; writer.written.as_slice() == answers.as_bytes());
    same(rt, &writer.flushed, &answers.len());
    (outcome, reader.inner.bytes_read)
}

/// A session with these interruptions has these answers, and ends with its input.
fn survives(rt: &impl Abort, alloc: Global, pieces: &[&str], before: &[u32], answers: &[&str]) {
    let (outcome, _) = read_with(rt, alloc, pieces, before, answers);
    assert!(rt; outcome.is_ok());
}

/// A session with these interruptions has these answers, and ends by one interruption too many.
/// Returns how many bytes were read.
fn is_ended(
    rt: &impl Abort,
    alloc: Global,
    pieces: &[&str],
    before: &[u32],
    answers: &[&str],
) -> usize {
    let (outcome, bytes_read) = read_with(rt, alloc, pieces, before, answers);
    assert!(rt; outcome == Err(SessionFault::Read));
    bytes_read
}

/// Each line survives 1,000 interrupted reads, a blank one, too, and so does the end of the input.
#[test]
fn a_line_survives_a_thousand_interrupted_reads(rt: HostRuntime) {
    let alloc = rt.alloc();
    survives(&rt, alloc, &LINES, &[1_000; 10], &ANSWERS);
    for line in 0..=LINES.len() {
        let mut before = [1_000; 10];
        before[line] = 1_001;
        let bytes_read = is_ended(&rt, alloc, &LINES, &before, &ANSWERS[..line]);
        let lines = joined(&rt, alloc, &LINES[..line]);
        same(&rt, &bytes_read, &lines.len());
    }
}

/// The reads of one line have one count, whichever of them is interrupted, and the next line has a
/// new one, even if it has begun with the read that ended the line before it.
#[test]
fn the_reads_of_a_line_have_one_count(rt: HostRuntime) {
    let alloc = rt.alloc();
    let answers = [OPENED, STATUS];
    survives(&rt, alloc, &HALVES, &[600, 400, 1_000, 1_000], &answers);
    is_ended(&rt, alloc, &HALVES, &[600, 401], &[]);
    is_ended(&rt, alloc, &HALVES, &[0, 0, 1_001], &[OPENED]);
    is_ended(&rt, alloc, &HALVES, &[0, 0, 0, 1_001], &answers);
}

/// Bytes that come one by one share the count of their line.
#[test]
fn bytes_share_the_count_of_their_line(rt: HostRuntime) {
    let alloc = rt.alloc();
    let mut before = [0; 50];
    before[0] = 300;
    before[7] = 300;
    before[40] = 400;
    let mut reader = Faltering::new(Source::new(&[OPENING], 1), &before);
    let mut writer = Sink::new(alloc, usize::MAX);
    assert!(rt; run_session(alloc, &mut reader, &mut writer).is_ok());
    before[41] = 1;
    let mut reader = Faltering::new(Source::new(&[OPENING], 1), &before);
    let mut writer = Sink::new(alloc, usize::MAX);
    let outcome = run_session(alloc, &mut reader, &mut writer);
    assert!(rt; outcome == Err(SessionFault::Read));
    same(&rt, &reader.inner.bytes_read, &41);
    assert!(rt; writer.written.is_empty());
}

/// A session survives an interruption of any read.
#[test]
fn any_read_may_be_interrupted(rt: HostRuntime) {
    let alloc = rt.alloc();
    let answers = joined(&rt, alloc, &ANSWERS);
    for reads in 0..=LINES.len() {
        let source = Source::new(&LINES, usize::MAX);
        let mut reader = FailingOnce::new(source, ErrorKind::Interrupted, reads);
        let mut writer = Sink::new(alloc, usize::MAX);
        let outcome = run_session(alloc, &mut reader, &mut writer);
        assert!(rt; outcome.is_ok(), "read {reads}");
        assert!(rt; writer.written.as_slice() == answers.as_bytes());
    }
}

/// Holds a session whose writer is interrupted so often before each write. Returns how it has
/// ended, and what was written.
fn write_with(
    alloc: Global,
    pieces: &[&str],
    at_once: usize,
    before: &[u32],
) -> (Result<(), SessionFault>, Sink) {
    let mut reader = Source::new(pieces, usize::MAX);
    let mut writer = Faltering::new(Sink::new(alloc, at_once), before);
    let outcome = run_session(alloc, &mut reader, &mut writer);
    (outcome, writer.inner)
}

/// Each handing over of answers survives 1,000 interrupted writes. Seven of the nine lines have an
/// answer.
#[test]
fn a_handing_over_survives_a_thousand_interrupted_writes(rt: HostRuntime) {
    let alloc = rt.alloc();
    let answers = joined(&rt, alloc, &ANSWERS);
    let (outcome, sink) = write_with(alloc, &LINES, usize::MAX, &[1_000; 7]);
    assert!(rt; outcome.is_ok());
    assert!(rt; sink.written.as_slice() == answers.as_bytes());
    for write in 0..7 {
        let mut before = [1_000; 7];
        before[write] = 1_001;
        let (outcome, sink) = write_with(alloc, &LINES, usize::MAX, &before);
        assert!(rt; outcome == Err(SessionFault::Write), "write {write}");
        assert!(rt; answers.as_bytes().starts_with(&sink.written));
        same(&rt, &sink.flushed, &sink.written.len());
        let lines = sink.written.iter().filter(|&&byte| byte == b'\n').count();
        same(&rt, &lines, &write);
    }
}

/// Asserts that the first three writes of answers to these lines have one count.
fn have_one_count(rt: &impl Abort, alloc: Global, pieces: &[&str]) {
    let (outcome, _) = write_with(alloc, pieces, 20, &[500, 0, 500]);
    assert!(rt; outcome.is_ok());
    let (outcome, sink) = write_with(alloc, pieces, 20, &[500, 0, 501]);
    assert!(rt; outcome == Err(SessionFault::Write));
    assert!(rt; OPENED.as_bytes().starts_with(&sink.written));
    same(rt, &sink.written.len(), &40);
}

/// The writes of one handing over have one count, whichever of them is interrupted: those of one
/// answer, and those of all answers to lines that came together.
#[test]
fn the_writes_of_a_handing_over_have_one_count(rt: HostRuntime) {
    let alloc = rt.alloc();
    let lines = joined(&rt, alloc, &LINES);
    let together = [lines.as_str()];
    have_one_count(&rt, alloc, &[OPENING]);
    have_one_count(&rt, alloc, &together);
    // The fifth write is the first one of the second answer.
    let before = [500, 0, 500, 0, 1_000];
    let (outcome, _) = write_with(alloc, &LINES, 20, &before);
    assert!(rt; outcome.is_ok());
    let (outcome, _) = write_with(alloc, &together, 20, &before);
    assert!(rt; outcome == Err(SessionFault::Write));
}

/// The counts of a line that is read and of answers that are handed over are apart.
#[test]
fn reads_and_writes_have_counts_of_their_own(rt: HostRuntime) {
    let alloc = rt.alloc();
    let answers = joined(&rt, alloc, &ANSWERS);
    let mut reader = Faltering::new(Source::new(&LINES, usize::MAX), &[1_000; 10]);
    let mut writer = Faltering::new(Sink::new(alloc, usize::MAX), &[1_000; 7]);
    assert!(rt; run_session(alloc, &mut reader, &mut writer).is_ok());
    assert!(rt; writer.inner.written.as_slice() == answers.as_bytes());
}

/// Answers that are handed over in two parts have a count for each part.
#[test]
fn each_part_of_long_answers_has_a_count(rt: HostRuntime) {
    let alloc = rt.alloc();
    let lines = lines_with_long_answers(&rt, alloc);
    let pieces = [lines.as_str()];
    let (outcome, whole) = write_with(alloc, &pieces, usize::MAX, &[1_000, 1_000]);
    assert!(rt; outcome.is_ok());
    let (outcome, sink) = write_with(alloc, &pieces, usize::MAX, &[1_000, 1_001]);
    assert!(rt; outcome == Err(SessionFault::Write));
    assert!(rt; whole.written.starts_with(&sink.written));
    assert!(rt; sink.written.len() >= 1_048_576);
    same(&rt, &sink.flushed, &sink.written.len());
}

/// Whether a session, whose writer takes one byte at a time, survives an interruption after so many
/// calls of the writer. Where it doesn't, the answers to all lines that were read are written.
fn survives_interruption(rt: &impl Abort, alloc: Global, calls: usize) -> bool {
    let mut reader = Source::new(&LINES, usize::MAX);
    let sink = Sink::new(alloc, 1);
    let mut writer = FailingOnce::new(sink, ErrorKind::Interrupted, calls);
    let outcome = run_session(alloc, &mut reader, &mut writer);
    let answers = answers_to(rt, alloc, reader.bytes_read);
    assert!(rt; writer.inner.written.as_slice() == answers.as_bytes());
    assert!(rt; outcome.is_ok() || outcome == Err(SessionFault::Write));
    outcome.is_ok()
}

/// A session survives an interruption of any write, and of no flush: a flush isn't tried again.
#[test]
fn any_write_may_be_interrupted(rt: HostRuntime) {
    let alloc = rt.alloc();
    let mut whole = Sink::new(alloc, 1);
    let mut reader = Source::new(&LINES, usize::MAX);
    assert!(rt; run_session(alloc, &mut reader, &mut whole).is_ok());
    let mut survivals: usize = 0;
    for calls in 0..whole.calls {
        if survives_interruption(&rt, alloc, calls) {
            survivals = survivals.saturating_add(1);
        }
    }
    same(&rt, &survivals, &whole.written.len());
}
