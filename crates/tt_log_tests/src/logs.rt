//! Logs that are opened, read and settled.
use crate::disk::Disk;
use std::alloc::Global;
use std::process::Abort;
use tt_log::{Lines, Log, UnreadLog};

/// What the length of a file is a multiple of, once a log is started in it.
pub(crate) const ROOM_UNIT: usize = 1_048_576;

/// Lines, of texts with no line feeds.
pub(crate) fn lines_of(rt: &impl Abort, alloc: Global, texts: &[&str]) -> Lines {
    let mut lines = Lines::new(alloc);
    for text in texts {
        lines.push(text.as_bytes()).expect(rt, "memory");
    }
    lines
}

/// A file with this text, and so many bytes 0 behind it.
pub(crate) fn file_of(rt: &impl Abort, alloc: Global, text: &str, room: usize) -> Disk {
    let mut bytes = text.as_bytes().to_vec(alloc).expect(rt, "memory");
    let len = bytes.len().saturating_add(room);
    bytes.resize(len, 0).expect(rt, "memory");
    Disk::new(rt, alloc, bytes.as_slice())
}

pub(crate) fn opened(rt: &impl Abort, disk: Disk) -> UnreadLog<Disk> {
    match UnreadLog::open(disk) {
        Ok(log) => log,
        Err((error, _)) => panic!(rt; "not opened: {error}"),
    }
}

/// Reads what is left of a log, in pieces of one length.
pub(crate) fn rest_of(
    rt: &impl Abort,
    alloc: Global,
    log: &mut UnreadLog<Disk>,
    at_once: usize,
) -> Vec<u8> {
    let mut bytes = Vec::new(alloc);
    let mut buffer = vec![in alloc; 0; at_once].expect(rt, "memory");
    for _ in 0..u64::MAX {
        let count = log.read(&mut buffer).expect(rt, "a read");
        if count == 0 {
            break;
        }
        let piece = &buffer[..count];
        bytes.extend_from_slice(piece).expect(rt, "memory");
    }
    bytes
}

/// How many bytes stand before the last line feed, and with it.
fn end_of(bytes: &[u8]) -> usize {
    let mut end = 0;
    for (i, byte) in bytes.iter().enumerate() {
        if *byte == b'\n' {
            end = i + 1;
        }
    }
    end
}

/// The lines of a log, with a line feed behind each, and the log. It is read in pieces.
pub(crate) fn started(
    rt: &impl Abort,
    alloc: Global,
    disk: Disk,
    at_once: usize,
) -> (Vec<u8>, Log<Disk>) {
    let mut log = opened(rt, disk);
    let mut bytes = rest_of(rt, alloc, &mut log, at_once);
    bytes.truncate(end_of(bytes.as_slice()));
    let mut buffer = [0; 64];
    match log.settle(&mut buffer) {
        Ok(log) => (bytes, log),
        Err((error, _)) => panic!(rt; "not settled: {error}"),
    }
}

/// Opens a file anew: its lines are the first few of these, and end there at least. Returns where
/// they end, and the log.
pub(crate) fn begins(
    rt: &impl Abort,
    alloc: Global,
    file: Disk,
    lines: &str,
    least: usize,
) -> (usize, Log<Disk>) {
    let (bytes, log) = started(rt, alloc, file, 7);
    assert!(rt; lines.as_bytes().starts_with(bytes.as_slice()));
    assert!(rt; bytes.len() >= least);
    (bytes.len(), log)
}

/// A log in a file that has this text, and so many bytes 0 behind it.
pub(crate) fn log_of(rt: &impl Abort, alloc: Global, text: &str, room: usize) -> Log<Disk> {
    started(rt, alloc, file_of(rt, alloc, text, room), 64).1
}

/// Ends a log. Its file is its lines and nothing else.
pub(crate) fn ended(rt: &impl Abort, log: Log<Disk>) -> Disk {
    match log.close() {
        Ok(file) => file,
        Err((error, _)) => panic!(rt; "not ended: {error}"),
    }
}

/// Asserts that a file is this text, and bytes 0 behind it, at least one.
pub(crate) fn is_at_rest(rt: &impl Abort, disk: &Disk, text: &[u8]) {
    let file = disk.latest.as_slice();
    assert!(rt; file.starts_with(text));
    assert!(rt; file.len() > text.len());
    let room = &file[text.len()..];
    assert!(rt; room[0] == 0);
    assert!(rt; room[1..] == room[..room.len() - 1]);
}

/// Opens a file anew and settles it: its lines are these, and behind them there are bytes 0. Once it
/// is ended it is its lines alone.
pub(crate) fn holds(rt: &impl Abort, alloc: Global, disk: Disk, text: &str) {
    let (bytes, log) = started(rt, alloc, disk, 64);
    assert!(rt; bytes.as_slice() == text.as_bytes());
    is_at_rest(rt, log.device(), text.as_bytes());
    let file = ended(rt, log);
    assert!(rt; file.latest.as_slice() == text.as_bytes());
    goes_on_in_place(rt, alloc, file, text);
}

/// A file that was ended well isn't made anew at the next start.
fn goes_on_in_place(rt: &impl Abort, alloc: Global, file: Disk, text: &str) {
    let renames = file.renames;
    let (bytes, log) = started(rt, alloc, file, 64);
    assert!(rt; bytes.as_slice() == text.as_bytes());
    is_at_rest(rt, log.device(), text.as_bytes());
    assert!(rt; log.device().renames == renames);
}
