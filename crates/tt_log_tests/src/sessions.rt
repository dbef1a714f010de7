//! Sessions on a file in memory: what they log, and how they begin again after a crash.
use crate::disk::{Disk, Failing};
use crate::random::Random;
use crate::same::same;
use std::alloc::Global;
use std::process::Abort;
use tt_durable::{LoggedFault, run_logged_session};
use tt_lines::run_session;

const OPENING: &str =
    r#"{"version":2,"tables":[{"name":"acct","columns":[{"name":"id","kind":"int"},{"name":"owner","kind":"text","partition":true}]}]}
"#;

/// The same opening of version 3.
const NEWER: &str =
    r#"{"version":3,"tables":[{"name":"acct","columns":[{"name":"id","kind":"int"},{"name":"owner","kind":"text","partition":true}]}]}
"#;

/// The same opening without its end.
const DECLARED: &str =
    r#"{"version":2,"tables":[{"name":"acct","columns":[{"name":"id","kind":"int"},{"name":"owner","kind":"text","partition":true}]}]"#;

/// Lines that change the database, the opening first.
const LOGGED: [&str; 7] = [
    OPENING,
    "{\"do\":[{\"insert\":\"acct\",\"row\":[1,\"ann\"]},{\"insert\":\"acct\",\"row\":[2,\"bob\"]}]}\n",
    "{\"insert\":\"acct\",\"row\":[2,\"eve\"]}\n",
    "{\"worker\":2,\"delete\":\"acct\",\"where\":[[\"owner\",\"bob\"]]}\n",
    "{\"begin\":[{\"cancel\":1}]}\n",
    "{\"step\":2}\n",
    "{\"finish\":true}\n",
];

/// Lines that make none: blank, faulty, refused, reads, and a step with nothing left to do.
const OTHERS: [&str; 7] = [
    " \r\n",
    "{\"insert\":\"acct\",\"row\":[3]}\n",
    "{\"if\":9,\"insert\":\"acct\",\"row\":[3,\"ann\"]}\n",
    "{\"select\":\"acct\",\"where\":[]}\n",
    "{\"status\":true}\n",
    "{\"abort\":true}\n",
    "\0{\"insert\":\"acct\",\"row\":[3,\"ann\"]}\n",
];

/// What is asked of a session that has begun again.
const QUESTIONS: [&str; 4] = [
    "{\"slots\":[1,9]}\n",
    "{\"changes\":\"now\"}\n",
    "{\"insert\":\"acct\",\"row\":[7,\"zoe\"]}\n",
    "{\"select\":\"acct\",\"where\":[]}\n",
];

fn joined(rt: &impl Abort, alloc: Global, texts: &[&str]) -> String {
    texts.concat(alloc).expect(rt, "memory")
}

/// The lines of a file, which end before its first byte 0.
fn lines_in(rt: &impl Abort, alloc: Global, file: &Disk) -> String {
    let mut bytes = Vec::new(alloc);
    for byte in file.latest.iter() {
        if *byte == 0 {
            break;
        }
        bytes.push(*byte).expect(rt, "memory");
    }
    String::from_utf8(bytes).expect(rt, "text")
}

/// The answers of a session without a log.
fn answers_of(rt: &impl Abort, alloc: Global, lines: &str) -> String {
    let mut written = Vec::new(alloc);
    let mut reader = lines.as_bytes();
    assert!(rt; run_session(alloc, &mut reader, &mut written).is_ok());
    String::from_utf8(written).expect(rt, "text")
}

/// Holds a session on a file until the end of its lines. Returns the file.
fn hold(rt: &impl Abort, alloc: Global, file: Disk, lines: &str) -> Disk {
    let mut reader = lines.as_bytes();
    match run_logged_session(alloc, &mut reader, file) {
        Ok((_, file)) => file,
        Err(_) => panic!(rt; "the session has failed"),
    }
}

/// Holds a session that can't begin. Returns why, and the file.
fn refused(rt: &impl Abort, alloc: Global, file: Disk, lines: &str) -> (LoggedFault, Disk) {
    let mut reader = lines.as_bytes();
    match run_logged_session(alloc, &mut reader, file) {
        Ok(_) => panic!(rt; "the session has begun"),
        Err(ended) => ended,
    }
}

/// Where so many lines end.
fn end_of(bytes: &[u8], lines: usize) -> usize {
    let mut left = lines;
    for (i, byte) in bytes.iter().enumerate() {
        if left == 0 {
            return i;
        }
        if *byte == b'\n' {
            left -= 1;
        }
    }
    bytes.len()
}

/// The first so many lines of the log.
fn front_of_log(rt: &impl Abort, alloc: Global, count: usize) -> String {
    let mut lines = String::new(alloc);
    for line in LOGGED.iter().take(count) {
        lines.push_str(line).expect(rt, "memory");
    }
    lines
}

/// Asserts that a session on a file has what the first so many lines of the log make: its questions
/// are answered as those of a session that was given these lines.
fn goes_on(rt: &impl Abort, alloc: Global, file: Disk, count: usize) {
    let questions = joined(rt, alloc, &QUESTIONS);
    let earlier = front_of_log(rt, alloc, count);
    let lines = joined(rt, alloc, &[earlier.as_str(), questions.as_str()]);
    let want = answers_of(rt, alloc, lines.as_str());
    let given = joined(rt, alloc, &[OPENING, questions.as_str()]);
    let file = hold(rt, alloc, file, given.as_str());
    let shown = file.shown.as_slice();
    let (Some(want), Some(shown)) = (
        want.as_bytes().get(end_of(want.as_bytes(), count)..),
        shown.get(end_of(shown, 1)..),
    ) else {
        panic!(rt; "no answers");
    };
    assert!(rt; want == shown);
}

/// All lines, those that make no entry before each of the others but the opening.
fn all_lines(rt: &impl Abort, alloc: Global) -> String {
    let mut lines = String::from_str(alloc, OPENING).expect(rt, "memory");
    for line in LOGGED.iter().skip(1) {
        for other in OTHERS {
            lines.push_str(other).expect(rt, "memory");
        }
        lines.push_str(line).expect(rt, "memory");
    }
    lines
}

/// The lines that change the database are logged, and no others; the answers are those without a log.
#[test]
fn lines_that_make_an_entry_are_logged(rt: HostRuntime) {
    let alloc = rt.alloc();
    let lines = joined(&rt, alloc, &LOGGED);
    let file = hold(&rt, alloc, Disk::new(&rt, alloc, b""), lines.as_str());
    assert!(&rt; lines_in(&rt, alloc, &file).as_str() == lines.as_str());
    let all = all_lines(&rt, alloc);
    let file = hold(&rt, alloc, Disk::new(&rt, alloc, b""), all.as_str());
    let answers = answers_of(&rt, alloc, all.as_str());
    assert!(&rt; file.shown.as_slice() == answers.as_bytes());
}

/// A session begins again with what each front of a log makes.
#[test]
fn each_front_of_a_log_is_read_back(rt: HostRuntime) {
    let alloc = rt.alloc();
    for count in 1..=LOGGED.len() {
        let lines = front_of_log(&rt, alloc, count);
        goes_on(&rt, alloc, Disk::new(&rt, alloc, lines.as_bytes()), count);
    }
}

/// Asserts that a file has the first lines of the log, at least so many of them, and begins a
/// session with these. A second start changes nothing.
fn begins_again(rt: &impl Abort, alloc: Global, file: Disk, answered: usize) {
    let lines = lines_in(rt, alloc, &file);
    let count = lines
        .as_bytes()
        .iter()
        .filter(|byte| **byte == b'\n')
        .count();
    let whole = front_of_log(rt, alloc, count);
    assert!(rt; answered <= count);
    assert!(rt; lines.as_bytes().starts_with(whole.as_bytes()));
    let settled = hold(rt, alloc, file, "");
    assert!(rt; lines_in(rt, alloc, &settled).as_str() == whole.as_str());
    let again = Disk::new(rt, alloc, settled.latest.as_slice());
    let again = hold(rt, alloc, again, "");
    assert!(rt; again.latest.as_slice() == settled.latest.as_slice());
    assert!(rt; again.writes == 0);
    if count > 0 {
        goes_on(rt, alloc, again, count);
    }
}

/// Where a call of the device fails, and then a crash tears what wasn't synced, each line that was
/// answered is there.
#[test]
fn a_crash_loses_no_answered_line(rt: HostRuntime) {
    let alloc = rt.alloc();
    let all = joined(&rt, alloc, &LOGGED);
    let mut random = Random::new(7);
    for at in 0..7 {
        let mut file = Disk::new(&rt, alloc, b"");
        file.failing = Failing::From(at);
        let (fault, file) = refused_late(&rt, alloc, file, all.as_str());
        let is_output = fault == LoggedFault::Write;
        assert!(&rt; is_output || fault == LoggedFault::LogWrite);
        let answered = file.shown.iter().filter(|byte| **byte == b'\n').count();
        let choices = random.choices(&rt, alloc, all.len());
        let len = random.below(file.latest.len().saturating_add(1));
        let left = file.after_crash(&rt, alloc, choices.as_slice(), len);
        begins_again(&rt, alloc, left, answered);
    }
}

/// Holds a session whose device fails on the way. Returns why it ended, and the file.
fn refused_late(rt: &impl Abort, alloc: Global, file: Disk, lines: &str) -> (LoggedFault, Disk) {
    let mut reader = lines.as_bytes();
    match run_logged_session(alloc, &mut reader, file) {
        Ok((_, file)) => (LoggedFault::Write, file),
        Err(ended) => ended,
    }
}

/// Lines that come together are synced together, and are logged in one write.
#[test]
fn lines_are_synced_together(rt: HostRuntime) {
    let alloc = rt.alloc();
    let lines = joined(&rt, alloc, &LOGGED);
    let file = hold(&rt, alloc, Disk::new(&rt, alloc, b""), lines.as_str());
    same(&rt, &file.writes, &1);
    same(&rt, &file.syncs, &3);
    let reads = "{\"status\":true}\n"
        .repeat(alloc, 100)
        .expect(&rt, "memory");
    let asked = joined(&rt, alloc, &[OPENING, reads.as_str()]);
    let again = Disk::new(&rt, alloc, file.latest.as_slice());
    let again = hold(&rt, alloc, again, asked.as_str());
    same(&rt, &again.writes, &0);
    same(&rt, &again.syncs, &2);
}

/// A session that was read back is open. It takes openings with the tables that it has, and no
/// others, and counts none of them.
#[test]
fn another_opening_is_refused(rt: HostRuntime) {
    let alloc = rt.alloc();
    let all = joined(&rt, alloc, &LOGGED);
    let others = [
        "{\"version\":2,\"tables\":[]}\n",
        "{\"version\":2,\"keep\":3,\"tables\":[{\"name\":\"acct\",\"columns\":[{\"name\":\"id\",\"kind\":\"int\"},{\"name\":\"owner\",\"kind\":\"text\",\"partition\":true}]}]}\n",
        "{\"version\":2,\"tables\":[{\"name\":\"acct\",\"columns\":[{\"name\":\"id\",\"kind\":\"int\"},{\"name\":\"owner\",\"kind\":\"text\"}]}]}\n",
        "{\"version\":2,\"tables\":[{\"name\":\"acct\",\"columns\":[{\"name\":\"id\",\"kind\":\"int\"},{\"name\":\"owner\",\"kind\":\"int\",\"partition\":true}]}]}\n",
        "{\"version\":2,\"tables\":[{\"name\":\"acct\",\"columns\":[{\"name\":\"id\",\"kind\":\"int\"},{\"name\":\"own\",\"kind\":\"text\",\"partition\":true}]}]}\n",
        "{\"version\":2,\"tables\":[{\"name\":\"act\",\"columns\":[{\"name\":\"id\",\"kind\":\"int\"},{\"name\":\"owner\",\"kind\":\"text\",\"partition\":true}]}]}\n",
    ];
    let given = joined(&rt, alloc, &others);
    let given = joined(&rt, alloc, &[given.as_str(), "{\"tables\":1}\n", OPENING]);
    let file = hold(
        &rt,
        alloc,
        Disk::new(&rt, alloc, all.as_bytes()),
        given.as_str(),
    );
    let refusals = "{\"refused\":\"another opening\"}\n"
        .repeat(alloc, 6)
        .expect(&rt, "memory");
    let want = joined(
        &rt,
        alloc,
        &[
            refusals.as_str(),
            "{\"call\":7,\"fault\":{\"path\":\"$.tables\",\"cause\":\"wrong type\"}}\n",
            "{\"time\":3,\"generation\":1,\"oldest\":0,\"entries\":8,\"repair\":null}\n",
        ],
    );
    let shown = std::str::from_utf8(file.shown.as_slice()).expect(&rt, "text");
    same(&rt, &shown, &want.as_str());
    assert!(&rt; lines_in(&rt, alloc, &file).as_str() == all.as_str());
}

/// An update by a comparison, and a select by one.
const COMPARED: &str =
    "{\"update\":\"acct\",\"change\":[[\"set\",\"owner\",\"eve\"]],\"where\":[[\"id\",\">\",1]]}\n";

const SELECTED: &str = "{\"select\":\"acct\",\"where\":[[\"owner\",\"!=\",\"ann\"]]}\n";

/// What a session answers on a log of four lines, whatever the version of its opening.
const ANSWERED: &str =
    "{\"time\":3,\"generation\":0,\"oldest\":0,\"entries\":3,\"repair\":null}\n{\"call\":4,\"time\":3,\"rows\":[[2,\"eve\"]]}\n";

/// A log goes on with a session that is opened by another version than the one before. Each line of
/// it, and of either session, is read as of the newest.
#[test]
fn a_log_is_opened_by_openings_of_each_version(rt: HostRuntime) {
    let alloc = rt.alloc();
    for first in [OPENING, NEWER] {
        let begun = joined(&rt, alloc, &[first, LOGGED[1], LOGGED[2], COMPARED]);
        let file = hold(&rt, alloc, Disk::new(&rt, alloc, b""), begun.as_str());
        for opening in [NEWER, OPENING] {
            let given = joined(&rt, alloc, &[opening, SELECTED]);
            let again = Disk::new(&rt, alloc, file.latest.as_slice());
            let again = hold(&rt, alloc, again, given.as_str());
            let shown = std::str::from_utf8(again.shown.as_slice()).expect(&rt, "text");
            same(&rt, &shown, &ANSWERED);
            assert!(&rt; lines_in(&rt, alloc, &again).as_str() == begun.as_str());
        }
    }
}

/// A session that was read back keeps as many records as the first opening asks for, and no later
/// one changes that.
#[test]
fn the_first_opening_behind_a_log_tells_its_records(rt: HostRuntime) {
    let alloc = rt.alloc();
    let begun = joined(&rt, alloc, &LOGGED[..3]);
    let five = joined(&rt, alloc, &[DECLARED, ",\"records\":5}\n"]);
    let six = joined(&rt, alloc, &[DECLARED, ",\"records\":6}\n"]);
    let tables = "{\"tables\":true}\n";
    let given = joined(
        &rt,
        alloc,
        &[tables, five.as_str(), tables, six.as_str(), tables],
    );
    let file = hold(
        &rt,
        alloc,
        Disk::new(&rt, alloc, begun.as_bytes()),
        given.as_str(),
    );
    let shown = std::str::from_utf8(file.shown.as_slice()).expect(&rt, "text");
    let mut lines = shown.lines();
    for (call, records) in [
        ("{\"call\":3,\"version\":4,", "\"records\":100000}"),
        ("{\"time\":2,", "\"repair\":null}"),
        ("{\"call\":4,\"version\":4,", "\"records\":5}"),
        ("{\"time\":2,", "\"repair\":null}"),
        ("{\"call\":5,\"version\":4,", "\"records\":5}"),
    ] {
        let Some(line) = lines.next() else {
            panic!(&rt; "too few answers");
        };
        assert!(&rt; line.starts_with(call), "{line}");
        assert!(&rt; line.ends_with(records), "{line}");
    }
}

const BEHIND_THE_GROUND: &str =
    "{\"worker\":1,\"do\":[{\"update\":\"acct\",\"change\":[[\"set\",\"owner\",\"eve\"]],\"where\":[[\"id\",\">\",1]]}]}\n";

/// A log that is made anew tells the newest version of sessions, and keeps comparisons.
#[test]
fn a_log_that_is_made_anew_tells_the_newest_version(rt: HostRuntime) {
    let alloc = rt.alloc();
    let begun = joined(&rt, alloc, &[NEWER, LOGGED[1], LOGGED[2], COMPARED]);
    for opening in [NEWER, OPENING] {
        let given = joined(&rt, alloc, &[opening, "{\"forget\":2}\n"]);
        let file = Disk::new(&rt, alloc, begun.as_bytes());
        let file = hold(&rt, alloc, file, given.as_str());
        let lines = lines_in(&rt, alloc, &file);
        let first = "{\"version\":4,\"tables\":";
        assert!(&rt; lines.as_bytes().starts_with(first.as_bytes()), "{lines}");
        assert!(&rt;
            lines.as_bytes().ends_with(BEHIND_THE_GROUND.as_bytes()),
            "{lines}"
        );
        for again in [NEWER, OPENING] {
            let file = Disk::new(&rt, alloc, file.latest.as_slice());
            let file = hold(&rt, alloc, file, again);
            let shown = std::str::from_utf8(file.shown.as_slice()).expect(&rt, "text");
            let want =
                "{\"time\":3,\"generation\":0,\"oldest\":0,\"entries\":2,\"repair\":null,\"horizon\":2}\n";
            same(&rt, &shown, &want);
        }
    }
}

/// A file that is no log, or whose line makes no entry, is refused and stays as it was.
#[test]
fn other_files_are_refused(rt: HostRuntime) {
    let alloc = rt.alloc();
    let first = LOGGED[1];
    let files = [
        (1, joined(&rt, alloc, &["{\"version\":2}\n"])),
        (1, joined(&rt, alloc, &["\n", OPENING])),
        (1, joined(&rt, alloc, &["{\"version\":1,\"tables\":[]}\n"])),
        (1, joined(&rt, alloc, &["{\"version\":5,\"tables\":[]}\n"])),
        (2, joined(&rt, alloc, &[OPENING, "\n", first])),
        (2, joined(&rt, alloc, &[OPENING, OPENING])),
        (
            3,
            joined(&rt, alloc, &[OPENING, first, "{\"status\":true}\n", "torn"]),
        ),
        (
            3,
            joined(&rt, alloc, &[OPENING, first, "{\"step\":1}\n", first]),
        ),
    ];
    for (number, text) in files.iter() {
        let disk = Disk::new(&rt, alloc, text.as_bytes());
        let (fault, disk) = refused(&rt, alloc, disk, OPENING);
        assert!(&rt; fault == LoggedFault::LogLine(*number));
        assert!(&rt; disk.latest.as_slice() == text.as_bytes());
        assert!(&rt; disk.writes == 0 && disk.shown.is_empty());
    }
}

/// A file that can't be read, or made longer, ends the session before it begins.
#[test]
fn a_broken_file_is_told(rt: HostRuntime) {
    let alloc = rt.alloc();
    let all = joined(&rt, alloc, &LOGGED);
    let mut file = Disk::new(&rt, alloc, all.as_bytes());
    file.readable = 20;
    let (fault, file) = refused(&rt, alloc, file, OPENING);
    assert!(&rt; fault == LoggedFault::LogRead);
    let mut file = Disk::new(&rt, alloc, file.latest.as_slice());
    file.failing = Failing::Once(0);
    let (fault, file) = refused(&rt, alloc, file, OPENING);
    assert!(&rt; fault == LoggedFault::LogWrite);
    same(&rt, &file.grows, &1);
    same(&rt, &file.syncs, &0);
    assert!(&rt; file.shown.is_empty());
}
