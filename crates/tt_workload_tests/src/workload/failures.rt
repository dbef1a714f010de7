//! Runs whose reader or writer fails or is interrupted, at each of its calls. These read or write
//! one byte each; the last call of a writer is its flush.
use super::devices::{FailingOnce, Faltering, Sink, Source};
use super::{REPORT, STORED};
use crate::same::same;
use std::alloc::Global;
use std::io::ErrorKind;
use std::process::Abort;
use tt_workload::{Options, RunFault, run_alone};

/// Errors that end a run, though some of them look like an end of the input or a pause.
const KINDS: [ErrorKind; 3] = [
    ErrorKind::UnexpectedEof,
    ErrorKind::WouldBlock,
    ErrorKind::Other,
];

fn document() -> Source<'static> {
    Source::slow(STORED.as_bytes(), usize::MAX)
}

/// A reader that fails once, after some reads, ends a run: no more is read, and nothing is written.
fn fails_to_read(rt: &impl Abort, alloc: Global, kind: ErrorKind, reads: usize) {
    let mut reader = FailingOnce::new(document(), kind, reads);
    let mut writer = Sink::new(alloc, 1, usize::MAX);
    let outcome = run_alone(alloc, &mut reader, &mut writer, &Options::usual());
    assert!(rt; outcome == Err(RunFault::Read), "after {reads} reads");
    let left = STORED.len().saturating_sub(reads);
    same(rt, &reader.inner.bytes.len(), &left);
    assert!(rt; writer.written.is_empty());
}

/// A run is ended by a reader that fails, whatever the error is and whenever it comes.
#[test]
fn a_reader_fails_at_any_call(rt: HostRuntime) {
    for kind in KINDS {
        for reads in 0..=STORED.len() {
            fails_to_read(&rt, rt.alloc(), kind, reads);
        }
    }
}

/// A run whose writer fails once, after some calls. Returns how it has ended, and what was written.
fn run_with_writer(alloc: Global, kind: ErrorKind, calls: usize) -> (Result<(), RunFault>, Sink) {
    let mut reader = STORED.as_bytes();
    let mut writer = FailingOnce::new(Sink::new(alloc, 1, usize::MAX), kind, calls);
    let outcome = run_alone(alloc, &mut reader, &mut writer, &Options::usual());
    (outcome, writer.inner)
}

/// A run is ended by a writer that fails, whatever the error is and whenever it comes. What was
/// written is a beginning of the report.
#[test]
fn a_writer_fails_at_any_call(rt: HostRuntime) {
    let report = REPORT.as_bytes();
    for kind in KINDS {
        for calls in 0..=report.len() {
            let (outcome, sink) = run_with_writer(rt.alloc(), kind, calls);
            assert!(rt; outcome == Err(RunFault::Write), "after {calls} calls");
            assert!(rt; sink.written.as_slice() == &report[..calls]);
            same(&rt, &sink.flushed, &0);
        }
    }
}

/// A run is ended by a writer that takes no byte.
#[test]
fn a_writer_takes_no_byte(rt: HostRuntime) {
    let mut reader = STORED.as_bytes();
    let mut writer = Sink::new(rt.alloc(), 0, usize::MAX);
    let outcome = run_alone(rt.alloc(), &mut reader, &mut writer, &Options::usual());
    assert!(rt; outcome == Err(RunFault::Write));
    assert!(rt; writer.written.is_empty());
}

/// A run survives an interruption of any read.
#[test]
fn any_read_may_be_interrupted(rt: HostRuntime) {
    for reads in 0..=STORED.len() {
        let mut reader = FailingOnce::new(document(), ErrorKind::Interrupted, reads);
        let mut writer = Sink::new(rt.alloc(), usize::MAX, usize::MAX);
        let outcome = run_alone(rt.alloc(), &mut reader, &mut writer, &Options::usual());
        assert!(rt; outcome.is_ok(), "read {reads}");
        assert!(rt; writer.written.as_slice() == REPORT.as_bytes());
    }
}

/// A run survives an interruption of any write, but not of the flush, which isn't tried again.
#[test]
fn any_write_may_be_interrupted(rt: HostRuntime) {
    let report = REPORT.as_bytes();
    for calls in 0..=report.len() {
        let (outcome, sink) = run_with_writer(rt.alloc(), ErrorKind::Interrupted, calls);
        assert!(rt; sink.written.as_slice() == report);
        if calls < report.len() {
            assert!(rt; outcome.is_ok(), "write {calls}");
        } else {
            assert!(rt; outcome == Err(RunFault::Write));
        }
    }
}

/// All reads of a run together survive 1,000 interruptions, and not one more.
#[test]
fn a_run_survives_a_thousand_interrupted_reads(rt: HostRuntime) {
    let mut reader = Faltering::new(document(), 1_000, 7);
    let mut writer = Sink::new(rt.alloc(), usize::MAX, usize::MAX);
    let outcome = run_alone(rt.alloc(), &mut reader, &mut writer, &Options::usual());
    assert!(rt; outcome.is_ok());
    assert!(rt; writer.written.as_slice() == REPORT.as_bytes());
    let mut reader = Faltering::new(document(), 1_001, 7);
    let mut writer = Sink::new(rt.alloc(), usize::MAX, usize::MAX);
    let outcome = run_alone(rt.alloc(), &mut reader, &mut writer, &Options::usual());
    assert!(rt; outcome == Err(RunFault::Read));
    // Seven interruptions before each of 142 reads, and then seven more.
    same(&rt, &reader.inner.bytes.len(), &(STORED.len() - 142));
    assert!(rt; writer.written.is_empty());
}

/// The reads and the writes of one run survive 1,000 interruptions each.
#[test]
fn a_run_survives_a_thousand_interruptions_at_each_end(rt: HostRuntime) {
    let mut reader = Faltering::new(document(), 1_000, 7);
    let mut writer = Faltering::new(Sink::new(rt.alloc(), 1, usize::MAX), 1_000, 100);
    let outcome = run_alone(rt.alloc(), &mut reader, &mut writer, &Options::usual());
    assert!(rt; outcome.is_ok());
    assert!(rt; writer.inner.written.as_slice() == REPORT.as_bytes());
}

/// All writes of a report together survive 1,000 interruptions, and not one more.
#[test]
fn a_report_survives_a_thousand_interrupted_writes(rt: HostRuntime) {
    let options = Options::usual();
    let mut reader = STORED.as_bytes();
    let mut writer = Faltering::new(Sink::new(rt.alloc(), 1, usize::MAX), 1_000, 100);
    let outcome = run_alone(rt.alloc(), &mut reader, &mut writer, &options);
    assert!(rt; outcome.is_ok());
    assert!(rt; writer.inner.written.as_slice() == REPORT.as_bytes());
    same(&rt, &writer.inner.flushed, &REPORT.len());
    let mut reader = STORED.as_bytes();
    let mut writer = Faltering::new(Sink::new(rt.alloc(), 1, usize::MAX), 1_001, 100);
    let outcome = run_alone(rt.alloc(), &mut reader, &mut writer, &options);
    assert!(rt; outcome == Err(RunFault::Write));
    assert!(rt; writer.inner.written.as_slice() == &REPORT.as_bytes()[..10]);
    same(&rt, &writer.inner.flushed, &0);
}
