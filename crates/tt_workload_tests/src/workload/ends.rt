use super::devices::{FailingOnce, Faltering, Sink, Source};
use super::{EMPTY, STORED};
use crate::same::same;
use std::alloc::Global;
use std::io::ErrorKind;
use std::process::Abort;
use tt_workload::{DocFault, Document, RunFault, read_document, write_text};

const LONG: usize = 400_000;

/// Errors that are no interruption.
const KINDS: [ErrorKind; 16] = [
    ErrorKind::NotFound,
    ErrorKind::PermissionDenied,
    ErrorKind::ConnectionReset,
    ErrorKind::NotConnected,
    ErrorKind::BrokenPipe,
    ErrorKind::WouldBlock,
    ErrorKind::IsADirectory,
    ErrorKind::InvalidInput,
    ErrorKind::InvalidData,
    ErrorKind::TimedOut,
    ErrorKind::WriteZero,
    ErrorKind::StorageFull,
    ErrorKind::ResourceBusy,
    ErrorKind::UnexpectedEof,
    ErrorKind::OutOfMemory,
    ErrorKind::Other,
];

fn refuses(rt: &impl Abort, outcome: Result<Document, RunFault>, because: &str) {
    match outcome {
        Err(RunFault::Document(DocFault::At { path, cause })) => {
            same(rt, &path.as_str(), &"$");
            same(rt, &cause.as_str(), &because);
        }
        _ => assert!(rt; false, "no fault of the document"),
    }
}

fn is_read_fault(outcome: &Result<Document, RunFault>) -> bool {
    matches!(outcome, Err(RunFault::Read))
}

/// Text of many pieces, with no two pieces alike.
fn long_text(rt: &impl Abort, alloc: Global) -> Vec<u8> {
    let mut text = Vec::new(alloc);
    for i in 0..LONG {
        text.push((i % 251) as u8).expect(rt, "memory");
    }
    text
}

#[test]
fn a_document_is_read(rt: HostRuntime) {
    let mut bytes = STORED.as_bytes();
    let whole = read_document(rt.alloc(), &mut bytes).expect(&rt, "a document");
    same(&rt, &whole.workers, &1);
    same(&rt, &whole.calls.len(), &2);
    same(&rt, &whole.catalog.get().name(0), &Some("acct"));
    assert!(rt; bytes.is_empty());
    let mut source = Source::slow(STORED.as_bytes(), usize::MAX);
    let slow = read_document(rt.alloc(), &mut source).expect(&rt, "a document");
    assert!(rt; slow.calls.as_slice() == whole.calls.as_slice());
    same(&rt, &slow.catalog.get().len(), &1);
}

#[test]
fn a_reader_fails(rt: HostRuntime) {
    for reads in 0..=EMPTY.len() {
        let mut source = Source::slow(EMPTY.as_bytes(), reads);
        let outcome = read_document(rt.alloc(), &mut source);
        assert!(rt; is_read_fault(&outcome), "after {reads} reads");
    }
}

/// A document isn't read by a reader that fails once, at any of its calls.
fn gives_up_reading(rt: &impl Abort, alloc: Global, kind: ErrorKind) {
    for reads in 0..=EMPTY.len() {
        let source = Source::slow(EMPTY.as_bytes(), usize::MAX);
        let outcome = read_document(alloc, &mut FailingOnce::new(source, kind, reads));
        assert!(rt; is_read_fault(&outcome), "after {reads} reads");
    }
}

#[test]
fn a_reader_fails_once(rt: HostRuntime) {
    for kind in KINDS {
        gives_up_reading(&rt, rt.alloc(), kind);
    }
}

#[test]
fn interrupted_reads(rt: HostRuntime) {
    let mut source = Faltering::new(Source::padded(LONG), 1_000, 250);
    assert!(rt; read_document(rt.alloc(), &mut source).is_ok());
    let mut source = Faltering::new(Source::padded(LONG), 1_001, 250);
    let outcome = read_document(rt.alloc(), &mut source);
    assert!(rt; is_read_fault(&outcome));
}

#[test]
fn a_text_is_written_and_flushed(rt: HostRuntime) {
    let text = long_text(&rt, rt.alloc());
    let mut sink = Sink::new(rt.alloc(), 65_536, usize::MAX);
    assert!(rt; write_text(&mut sink, &text).is_ok());
    assert!(rt; sink.written.as_slice() == text.as_slice());
    same(&rt, &sink.flushed, &LONG);
}

#[test]
fn a_writer_fails(rt: HostRuntime) {
    let text = EMPTY.as_bytes();
    for writes in 0..=text.len() {
        let mut sink = Sink::new(rt.alloc(), 1, writes);
        assert!(rt; write_text(&mut sink, text) == Err(RunFault::Write));
        assert!(rt; sink.written.as_slice() == &text[..writes]);
    }
    let mut full = Sink::new(rt.alloc(), 0, usize::MAX);
    assert!(rt; write_text(&mut full, text) == Err(RunFault::Write));
}

/// A text isn't written by a writer that fails once, at any of its calls; the flush is the last.
fn gives_up_writing(rt: &impl Abort, alloc: Global, kind: ErrorKind) {
    let text = EMPTY.as_bytes();
    for writes in 0..=text.len() {
        let mut sink = FailingOnce::new(Sink::new(alloc, 1, usize::MAX), kind, writes);
        assert!(rt; write_text(&mut sink, text) == Err(RunFault::Write));
        assert!(rt; sink.inner.written.as_slice() == &text[..writes]);
    }
}

#[test]
fn a_writer_fails_once(rt: HostRuntime) {
    for kind in KINDS {
        gives_up_writing(&rt, rt.alloc(), kind);
    }
}

#[test]
fn interrupted_writes(rt: HostRuntime) {
    let text = long_text(&rt, rt.alloc());
    let sink = Sink::new(rt.alloc(), 65_536, usize::MAX);
    let mut writer = Faltering::new(sink, 1_000, 250);
    assert!(rt; write_text(&mut writer, &text).is_ok());
    assert!(rt; writer.inner.written.as_slice() == text.as_slice());
    let sink = Sink::new(rt.alloc(), 65_536, usize::MAX);
    let mut writer = Faltering::new(sink, 1_001, 250);
    assert!(rt; write_text(&mut writer, &text) == Err(RunFault::Write));
}

#[test]
fn bytes_that_are_no_document(rt: HostRuntime) {
    let mut part = &STORED.as_bytes()[..100];
    refuses(&rt, read_document(rt.alloc(), &mut part), "not JSON");
    let mut other = b"[\"\xFF\"]".as_slice();
    refuses(&rt, read_document(rt.alloc(), &mut other), "not JSON");
}

#[test]
fn the_longest_document(rt: HostRuntime) {
    let mut source = Source::padded(16_777_216);
    assert!(rt; read_document(rt.alloc(), &mut source).is_ok());
    let mut source = Source::padded(40_000_000);
    let outcome = read_document(rt.alloc(), &mut source);
    refuses(&rt, outcome, "longer than 16777216 bytes");
    same(&rt, &source.spaces, &(40_000_000 - 16_777_217));
}
