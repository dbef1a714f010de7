//! Reads and writes by themselves: what they take from the count of retries.
use crate::devices::{FailingOnce, Faltering, Sink, Source};
use crate::same::same;
use std::io::ErrorKind;
use tt_streams::{StreamError, read_once, write_piece, write_text};

const TEXT: &str = "ten bytes.";

/// Each interrupted read that is tried again takes one retry, and one too many ends the read.
#[test]
fn a_read_takes_retries(rt: HostRuntime) {
    let mut buffer = [0; 20];
    for interruptions in 0..=5 {
        let before = [interruptions];
        let mut reader = Faltering::new(Source::new(&[TEXT], usize::MAX), &before);
        let mut retries = 5;
        let outcome = read_once(&mut reader, &mut buffer, &mut retries);
        assert!(rt; outcome == Ok(10));
        assert!(rt; &buffer[..10] == TEXT.as_bytes());
        same(&rt, &retries, &(5 - interruptions));
    }
    let mut reader = Faltering::new(Source::new(&[TEXT], usize::MAX), &[6]);
    let mut retries = 5;
    let outcome = read_once(&mut reader, &mut buffer, &mut retries);
    assert!(rt; outcome == Err(StreamError::Read));
    same(&rt, &retries, &0);
    same(&rt, &reader.inner.reads, &0);
}

/// A read that fails otherwise isn't tried again, and takes no retry.
#[test]
fn a_read_fails(rt: HostRuntime) {
    let mut buffer = [0; 20];
    let source = Source::new(&[TEXT], usize::MAX);
    let mut reader = FailingOnce::new(source, ErrorKind::WouldBlock, 0);
    let mut retries = 5;
    let outcome = read_once(&mut reader, &mut buffer, &mut retries);
    assert!(rt; outcome == Err(StreamError::Read));
    same(&rt, &retries, &5);
    same(&rt, &reader.inner.reads, &0);
    let outcome = read_once(&mut reader, &mut buffer, &mut retries);
    assert!(rt; outcome == Ok(10));
    let outcome = read_once(&mut reader, &mut buffer, &mut retries);
    assert!(rt; outcome == Ok(0));
}

/// All writes of a text take from one count, as each interruption comes. A text is flushed at its
/// end, and a piece isn't.
#[test]
fn writes_take_retries(rt: HostRuntime) {
    let mut writer = Faltering::new(Sink::new(rt.alloc(), 3), &[2, 0, 1, 1]);
    let mut retries = 5;
    let outcome = write_text(&mut writer, TEXT.as_bytes(), &mut retries);
    assert!(rt; outcome.is_ok());
    same(&rt, &retries, &1);
    assert!(rt; writer.inner.written.as_slice() == TEXT.as_bytes());
    same(&rt, &writer.inner.flushed, &10);
    let mut writer = Faltering::new(Sink::new(rt.alloc(), 3), &[2, 0, 1, 2]);
    let mut retries = 5;
    let outcome = write_piece(&mut writer, TEXT.as_bytes(), &mut retries);
    assert!(rt; outcome.is_ok());
    same(&rt, &retries, &0);
    same(&rt, &writer.inner.flushed, &0);
    let mut writer = Faltering::new(Sink::new(rt.alloc(), 3), &[2, 0, 1, 3]);
    let mut retries = 5;
    let outcome = write_piece(&mut writer, TEXT.as_bytes(), &mut retries);
    assert!(rt; outcome == Err(StreamError::Write));
    same(&rt, &retries, &0);
    assert!(rt; writer.inner.written.as_slice() == &TEXT.as_bytes()[..9]);
}

/// A write that takes no byte isn't tried again, and takes no retry.
#[test]
fn a_write_takes_no_byte(rt: HostRuntime) {
    for written in 0..10 {
        let mut writer = Sink::full_at(rt.alloc(), usize::MAX, written);
        let mut retries = 5;
        let outcome = write_text(&mut writer, TEXT.as_bytes(), &mut retries);
        assert!(rt; outcome == Err(StreamError::Write));
        same(&rt, &retries, &5);
        same(&rt, &writer.written.len(), &written);
    }
}

/// A flush that is interrupted isn't tried again, and takes no retry.
#[test]
fn a_flush_is_interrupted(rt: HostRuntime) {
    let sink = Sink::new(rt.alloc(), usize::MAX);
    let mut writer = FailingOnce::new(sink, ErrorKind::Interrupted, 1);
    let mut retries = 5;
    let outcome = write_text(&mut writer, TEXT.as_bytes(), &mut retries);
    assert!(rt; outcome == Err(StreamError::Write));
    same(&rt, &retries, &5);
    assert!(rt; writer.inner.written.as_slice() == TEXT.as_bytes());
    same(&rt, &writer.inner.flushed, &0);
}

/// The texts of the errors.
#[test]
fn texts_of_errors(rt: HostRuntime) {
    let alloc = rt.alloc();
    for (error, text) in [
        (StreamError::Read, "cannot read"),
        (StreamError::Write, "cannot write"),
    ] {
        let printed = format!(in alloc; "{error}").expect(&rt, "memory");
        same(&rt, &printed.as_str(), &text);
    }
}
