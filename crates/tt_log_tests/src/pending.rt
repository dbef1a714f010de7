//! Lines that are to be logged, and the texts of errors.
use crate::logs::lines_of;
use crate::same::same;
use std::alloc::Global;
use std::fmt::Display;
use std::process::Abort;
use tt_log::{DeviceError, LineError, Lines, LogError, RenewError};

/// Asserts that lines have these bytes.
fn are(rt: &impl Abort, lines: &Lines, bytes: &[u8]) {
    assert!(rt; lines.as_bytes() == bytes);
    same(rt, &lines.byte_len(), &bytes.len());
}

/// A line has no byte 0 and no line feed, wherever it is, and lines stay as they were.
#[test]
fn a_line_is_refused(rt: HostRuntime) {
    let mut lines = lines_of(&rt, rt.alloc(), &["one"]);
    for line in [
        "\0", "\n", "\0two", "two\n", "t\0wo", "t\nwo", "two\0", "two\r\n",
    ] {
        let outcome = lines.push(line.as_bytes());
        assert!(rt; outcome == Err(LineError::NotALine));
        are(&rt, &lines, b"one\n");
    }
}

/// Any other byte may stand in a line.
#[test]
fn a_line_is_added(rt: HostRuntime) {
    let mut lines = Lines::new(rt.alloc());
    are(&rt, &lines, b"");
    assert!(rt; lines.push(b"\x01\t\r \xff").is_ok());
    assert!(rt; lines.push(b"").is_ok());
    are(&rt, &lines, b"\x01\t\r \xff\n\n");
}

/// Lines are added to others, and let go.
#[test]
fn lines_are_changed(rt: HostRuntime) {
    let alloc = rt.alloc();
    let mut lines = lines_of(&rt, alloc, &["one"]);
    let more = lines_of(&rt, alloc, &["two", "three"]);
    let none = Lines::new(alloc);
    assert!(rt; lines.append(&more).is_ok());
    assert!(rt; lines.append(&none).is_ok());
    are(&rt, &lines, b"one\ntwo\nthree\n");
    are(&rt, &more, b"two\nthree\n");
    lines.clear();
    are(&rt, &lines, b"");
    assert!(rt; lines.append(&more).is_ok());
    are(&rt, &lines, b"two\nthree\n");
}

/// Asserts what is printed of a value.
fn prints<T: Display>(rt: &impl Abort, alloc: Global, value: &T, text: &str) {
    let printed = format!(in alloc; "{value}").expect(rt, "memory");
    same(rt, &printed.as_str(), &text);
}

/// The texts of the errors.
#[test]
fn texts_of_errors(rt: HostRuntime) {
    let alloc = rt.alloc();
    prints(&rt, alloc, &LogError::Read, "cannot read the log");
    prints(&rt, alloc, &LogError::Write, "cannot write the log");
    prints(&rt, alloc, &LogError::Full, "the log is full");
    prints(&rt, alloc, &LogError::HandOver, "cannot write");
    prints(&rt, alloc, &RenewError::Kept, "cannot make the log anew");
    let lost = "cannot keep the log that was made anew";
    prints(&rt, alloc, &RenewError::Lost, lost);
    prints(&rt, alloc, &LineError::NotALine, "not a line of a log");
    prints(&rt, alloc, &LineError::Memory, "out of memory");
    prints(&rt, alloc, &DeviceError, "the device has failed");
}
