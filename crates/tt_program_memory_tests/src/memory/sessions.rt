//! Lines that a session answers, and calls of it that take no memory.
ghost use Rattle.std.specs.Prelude.{◌+◌, ◌<◌, ◌≤◌};
ghost use Rattle.tt_session.specs.Run.{calls_of};

use super::same;
use std::alloc::Global;
use std::io::Cursor;
use std::process::Abort;
use tt_requests::{is_blank, is_passed_over};
use tt_session::{LostLine, Session, ShortAnswer};
use tt_shared_tests::{Tally, mark, quiet};
use tt_streams::{MAX_RETRIES, StreamError, write_piece};

const OPENING: &str =
    r#"{"version":2,"tables":[{"name":"acct","columns":[{"name":"id","kind":"int"}]}]}"#;

/// The answer to the opening.
const OPENED: &str = r#"{"time":0,"generation":0,"oldest":0,"entries":0,"repair":null}
"#;

const INSERT: &str = r#"{"insert":"acct","row":[1]}"#;

/// A session answers a line as this text, behind what was answered before. If the first call finds
/// no memory, the text is as before, and the call is made again.
fn answers(rt: &impl Abort, alloc: Global, session: &mut Session, line: &str, want: &str)
    requires { calls_of session.old < 100 }
    ensures { calls_of session.new ≤ calls_of session.old + 2 }
{
    let mut text = Vec::new(alloc);
    text.push(b'#').expect(rt, "memory");
    mark(alloc);
    let answered = session.answer(alloc, &mut text, line.as_bytes());
    mark(alloc);
    if answered.is_err() {
        same(rt, &text.as_slice(), &b"#".as_slice());
        let again = session.answer(alloc, &mut text, line.as_bytes());
        again.expect(rt, "a second call");
    }
    same(rt, &&text[1..], &want.as_bytes());
}

/// A short answer is written as this text, without memory, or as much of it as there is room for.
fn writes(rt: &impl Abort, alloc: Global, answer: ShortAnswer, want: &str) {
    let mut wide = Cursor::new([0u8; 80]);
    let mut narrow = Cursor::new([0u8; 9]);
    let mut retries = MAX_RETRIES;
    quiet(alloc);
    let written = answer.write_to(&mut wide, &mut retries);
    let cut_off = answer.write_to(&mut narrow, &mut retries);
    quiet(alloc);
    assert!(rt; written.is_ok());
    same(rt, &wide.position(), &(want.len() as u64));
    assert!(rt; wide.get_ref().starts_with(want.as_bytes()));
    same(rt, &cut_off, &Err(StreamError::Write));
    assert!(rt; want.as_bytes().starts_with(narrow.get_ref()));
}

/// The short answers to a line for which there is no memory, and to one that is too long.
fn short_answers(alloc: Global, session: &mut Session) -> (ShortAnswer, ShortAnswer)
    requires { calls_of session.old < 100 }
    ensures { calls_of session.new ≤ calls_of session.old + 2 }
{
    quiet(alloc);
    let without_memory = session.answer_without_memory(LostLine::Request);
    let too_long = session.answer_too_long();
    quiet(alloc);
    (without_memory, too_long)
}

#[test]
fn a_session_that_is_not_open(rt: HostRuntime) {
    let alloc = rt.alloc();
    let _tally = Tally::new(alloc);
    let mut session = Session::NotOpen;
    let (without_memory, too_long) = short_answers(alloc, &mut session);
    writes(&rt, alloc, without_memory, "{\"refused\":\"memory\"}\n");
    let fault = "{\"fault\":{\"path\":\"$\",\"cause\":\"longer than 16777216 bytes\"}}\n";
    writes(&rt, alloc, too_long, fault);
    answers(&rt, alloc, &mut session, OPENING, OPENED);
}

#[test]
fn a_session_that_is_open(rt: HostRuntime) {
    let alloc = rt.alloc();
    let _tally = Tally::new(alloc);
    let mut session = Session::NotOpen;
    answers(&rt, alloc, &mut session, OPENING, OPENED);
    let (without_memory, too_long) = short_answers(alloc, &mut session);
    writes(
        &rt,
        alloc,
        without_memory,
        "{\"call\":1,\"refused\":\"memory\"}\n",
    );
    let fault =
        "{\"call\":2,\"fault\":{\"path\":\"$\",\"cause\":\"longer than 16777216 bytes\"}}\n";
    writes(&rt, alloc, too_long, fault);
    let inserted = "{\"call\":3,\"slot\":1,\"replies\":[\"inserted\"]}\n";
    answers(&rt, alloc, &mut session, INSERT, inserted);
    let duplicate = "{\"call\":4,\"slot\":2,\"replies\":[\"duplicate\"]}\n";
    answers(&rt, alloc, &mut session, INSERT, duplicate);
}

/// An opening in a session that is open isn't counted, whether there is memory for it or not.
#[test]
fn a_further_opening(rt: HostRuntime) {
    let alloc = rt.alloc();
    let _tally = Tally::new(alloc);
    let mut session = Session::NotOpen;
    answers(&rt, alloc, &mut session, OPENING, OPENED);
    answers(&rt, alloc, &mut session, OPENING, OPENED);
    quiet(alloc);
    let without_memory = session.answer_without_memory(LostLine::Opening);
    quiet(alloc);
    writes(&rt, alloc, without_memory, "{\"refused\":\"memory\"}\n");
    let inserted = "{\"call\":1,\"slot\":1,\"replies\":[\"inserted\"]}\n";
    answers(&rt, alloc, &mut session, INSERT, inserted);
}

/// Lines are judged, and pieces written, without memory.
#[test]
fn lines_and_pieces(rt: HostRuntime) {
    let alloc = rt.alloc();
    let _tally = Tally::new(alloc);
    let mut writer = Cursor::new([0u8; 6]);
    let mut retries = 0;
    quiet(alloc);
    assert!(rt; is_blank(b"\t \r") && !is_blank(b"\t \n") && is_passed_over(b" "));
    assert!(rt; !is_passed_over(INSERT.as_bytes()));
    let first = write_piece(&mut writer, b"line", &mut retries);
    let second = write_piece(&mut writer, b"line", &mut retries);
    quiet(alloc);
    same(&rt, &(first, second), &(Ok(()), Err(StreamError::Write)));
    assert!(rt; writer.get_ref() == b"lineli");
}
