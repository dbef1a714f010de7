//! Interruptions around answers that take no memory.
use crate::conversation::{OPENED, OPENING, joined};
use crate::devices::{Faltering, Sink};
use crate::same::same;
use std::alloc::Global;
use std::io;
use std::io::Read;
use std::process::Abort;
use tt_lines::{SessionFault, run_session};
use tt_session::ShortAnswer;
use tt_streams::StreamError;

/// As many bytes as a session reads at once. A line has at most 256 times as many.
const PIECE: usize = 65_536;

const ASK_STATUS: &str = r#"{"status":true}
"#;

const TOO_LONG: &str = r#"{"call":1,"fault":{"path":"$","cause":"longer than 16777216 bytes"}}
"#;

const OPENING_TOO_LONG: &str = r#"{"fault":{"path":"$","cause":"longer than 16777216 bytes"}}
"#;

const STATUS: &str = r#"{"call":2,"time":0,"generation":0,"oldest":0,"entries":0,"repair":null}
"#;

/// Gives an opening, a line that is one byte too long, in 257 reads, its line feed, and a request.
#[derive(Drop)]
struct LongLine {
    reads: usize,
}

impl Read for LongLine {
    fn read(&mut self, buf: &mut [u8]) -> io::Result<usize> {
        let read = self.reads;
        self.reads = read.saturating_add(1);
        let piece = match read {
            0 => OPENING,
            1..=256 => {
                let count = buf.len().min(PIECE);
                buf[..count].fill(b'x');
                return Ok(count);
            }
            257 => "x",
            258 => "\n",
            259 => ASK_STATUS,
            _ => "",
        };
        let count = buf.len().min(piece.len());
        buf[..count].copy_from_slice(&piece.as_bytes()[..count]);
        Ok(count)
    }
}

/// Holds a session whose second line is too long. Its reader and its writer are interrupted so often
/// before each read and write. These answers, and no others, are written. Returns how it has ended.
fn hold_with_long_line(
    rt: &impl Abort,
    alloc: Global,
    before_reads: &[u32],
    before_writes: &[u32],
    answers: &[&str],
) -> Result<(), SessionFault> {
    let mut reader = Faltering::new(LongLine { reads: 0 }, before_reads);
    let mut writer = Faltering::new(Sink::new(alloc, usize::MAX), before_writes);
    let outcome = run_session(alloc, &mut reader, &mut writer);
    let answers = joined(rt, alloc, answers);
    assert!(rt; writer.inner.written.as_slice() == answers.as_bytes());
    outcome
}

/// The reads of a line that is too long have one count, its answer has one, and the lines before and
/// behind it have counts of their own.
#[test]
fn a_long_line_survives_a_thousand_interruptions(rt: HostRuntime) {
    let mut before_reads = [0; 260];
    before_reads[0] = 1_000;
    before_reads[1] = 300;
    before_reads[130] = 300;
    before_reads[258] = 400;
    before_reads[259] = 1_000;
    let before_writes = [1_000, 1_000, 1_000];
    let answers = [OPENED, TOO_LONG, STATUS];
    let outcome = hold_with_long_line(&rt, rt.alloc(), &before_reads, &before_writes, &answers);
    assert!(rt; outcome.is_ok());
}

/// A line that is too long doesn't survive one interrupted read more, even that of its line feed.
#[test]
fn a_long_line_is_read_with_one_count(rt: HostRuntime) {
    let mut before = [0; 260];
    before[1] = 300;
    before[130] = 300;
    before[258] = 401;
    let outcome = hold_with_long_line(&rt, rt.alloc(), &before, &[], &[OPENED]);
    assert!(rt; outcome == Err(SessionFault::Read));
}

/// The answer to a line that is too long doesn't survive one interrupted write more.
#[test]
fn a_short_answer_is_written_with_one_count(rt: HostRuntime) {
    let before = [0, 1_001];
    let outcome = hold_with_long_line(&rt, rt.alloc(), &[], &before, &[OPENED]);
    assert!(rt; outcome == Err(SessionFault::Write));
}

/// An answer is written as this text, seven bytes at a time, and all its writes take from the
/// caller's count.
fn takes_retries(rt: &impl Abort, alloc: Global, answer: ShortAnswer, text: &str) {
    let mut writer = Faltering::new(Sink::new(alloc, 7), &[1, 2, 2]);
    let mut retries = 5;
    assert!(rt; answer.write_to(&mut writer, &mut retries).is_ok());
    same(rt, &retries, &0);
    assert!(rt; writer.inner.written.as_slice() == text.as_bytes());
    same(rt, &writer.inner.flushed, &text.len());
    let mut writer = Faltering::new(Sink::new(alloc, 7), &[1, 2, 3]);
    let mut retries = 5;
    let outcome = answer.write_to(&mut writer, &mut retries);
    assert!(rt; outcome == Err(StreamError::Write));
    same(rt, &retries, &0);
    assert!(rt; text.as_bytes().starts_with(&writer.inner.written));
}

/// Each answer that takes no memory has one count of interrupted writes, the caller's.
#[test]
fn short_answers_take_retries(rt: HostRuntime) {
    let opening_without_memory = "{\"refused\":\"memory\"}\n";
    let call_without_memory = "{\"call\":1,\"refused\":\"memory\"}\n";
    for (answer, text) in [
        (ShortAnswer::OpeningOutOfMemory, opening_without_memory),
        (ShortAnswer::OpeningTooLong, OPENING_TOO_LONG),
        (ShortAnswer::CallOutOfMemory(1), call_without_memory),
        (ShortAnswer::CallTooLong(1), TOO_LONG),
    ] {
        takes_retries(&rt, rt.alloc(), answer, text);
    }
}
