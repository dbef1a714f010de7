//! Readers and writers that are slow, interrupted or broken.
ghost use Rattle.std.specs.Prelude.{◌≤◌, length};

use std::alloc::Global;
use std::io;
use std::io::{ErrorKind, Read, Write};

/// Gives pieces, one after another, and of each at most so many bytes in a read.
#[derive(Drop)]
pub(crate) struct Source<'a, 'b> {
    pieces: &'a [&'b str],
    /// How many pieces have ended.
    pieces_read: usize,
    /// How many bytes of the next piece were given.
    given: usize,
    at_once: usize,
    /// How many reads there were, also at the end.
    pub(crate) reads: usize,
    /// How many bytes they gave.
    pub(crate) bytes_read: usize,
    /// How many of these the last one gave.
    pub(crate) last_bytes: usize,
}

impl<'a, 'b> Source<'a, 'b> {
    pub(crate) fn new(pieces: &'a [&'b str], at_once: usize) -> Self {
        Source {
            pieces,
            pieces_read: 0,
            given: 0,
            at_once,
            reads: 0,
            bytes_read: 0,
            last_bytes: 0,
        }
    }

    /// What is left of the piece that is being given.
    fn rest_of_piece(&self) -> &[u8] {
        match self.pieces.get(self.pieces_read) {
            Some(piece) => {
                let bytes = piece.as_bytes();
                &bytes[self.given.min(bytes.len())..]
            }
            None => b"",
        }
    }

    /// Puts the next bytes at the front of these. Returns how many.
    fn give(&self, buf: &mut [u8]) -> usize
        ensures { result ≤ length buf.old }
    {
        let rest = self.rest_of_piece();
        let count = buf.len().min(self.at_once).min(rest.len());
        buf[..count].copy_from_slice(&rest[..count]);
        count
    }

    /// Begins the next piece where one has ended.
    fn begin_piece(&mut self) {
        if self.pieces_read < self.pieces.len() && self.rest_of_piece().is_empty() {
            self.pieces_read += 1;
            self.given = 0;
        }
    }
}

impl Read for Source<'_, '_> {
    fn read(&mut self, buf: &mut [u8]) -> io::Result<usize> {
        self.begin_piece();
        let count = self.give(buf);
        self.given = self.given.saturating_add(count);
        self.reads = self.reads.saturating_add(1);
        self.bytes_read = self.bytes_read.saturating_add(count);
        self.last_bytes = count;
        Ok(count)
    }
}

/// Writes some bytes at a time, and in one write none: the first one after so many bytes.
#[derive(Drop)]
pub(crate) struct Sink {
    pub(crate) written: Vec<u8>,
    /// How many bytes were written at the last flush.
    pub(crate) flushed: usize,
    /// How many writes and flushes there were.
    pub(crate) calls: usize,
    at_once: usize,
    full_at: usize,
}

impl Sink {
    pub(crate) fn new(alloc: Global, at_once: usize) -> Self {
        Sink::full_at(alloc, at_once, usize::MAX)
    }

    pub(crate) fn full_at(alloc: Global, at_once: usize, full_at: usize) -> Self {
        Sink {
            written: Vec::new(alloc),
            flushed: 0,
            calls: 0,
            at_once,
            full_at,
        }
    }
}

impl Write for Sink {
    fn write(&mut self, buf: &[u8]) -> io::Result<usize> {
        self.calls = self.calls.saturating_add(1);
        let room = self.full_at.saturating_sub(self.written.len());
        if room == 0 {
            self.full_at = usize::MAX;
            return Ok(0);
        }
        let count = buf.len().min(self.at_once).min(room);
        self.written.extend_from_slice(&buf[..count])?;
        Ok(count)
    }

    fn flush(&mut self) -> io::Result<()> {
        self.calls = self.calls.saturating_add(1);
        self.flushed = self.written.len();
        Ok(())
    }
}

/// Is interrupted before reads or writes: before each of them as often as a list says, and not
/// beyond its end. A flush isn't interrupted.
#[derive(Drop)]
pub(crate) struct Faltering<'a, T> {
    pub(crate) inner: T,
    /// How often before each of the calls to come.
    before: &'a [u32],
    /// How often before the next one so far.
    interruptions: u32,
}

impl<'a, T> Faltering<'a, T> {
    pub(crate) fn new(inner: T, before: &'a [u32]) -> Self {
        Faltering {
            inner,
            before,
            interruptions: 0,
        }
    }

    fn is_interrupted(&mut self) -> bool {
        let Some((most, behind)) = self.before.split_first() else {
            return false;
        };
        if self.interruptions < *most {
            self.interruptions += 1;
            return true;
        }
        self.interruptions = 0;
        self.before = behind;
        false
    }
}

impl<T: Read> Read for Faltering<'_, T> {
    fn read(&mut self, buf: &mut [u8]) -> io::Result<usize> {
        if self.is_interrupted() {
            return Err(io::Error::from(ErrorKind::Interrupted));
        }
        let count = self.inner.read(buf)?;
        Ok(count.min(buf.len()))
    }
}

impl<T: Write> Write for Faltering<'_, T> {
    fn write(&mut self, buf: &[u8]) -> io::Result<usize> {
        if self.is_interrupted() {
            return Err(io::Error::from(ErrorKind::Interrupted));
        }
        self.inner.write(buf)
    }

    fn flush(&mut self) -> io::Result<()> {
        self.inner.flush()
    }
}

/// Fails once, after some calls, and then goes on.
#[derive(Drop)]
pub(crate) struct FailingOnce<T> {
    pub(crate) inner: T,
    kind: ErrorKind,
    calls: usize,
    has_failed: bool,
}

impl<T> FailingOnce<T> {
    pub(crate) fn new(inner: T, kind: ErrorKind, calls: usize) -> Self {
        FailingOnce {
            inner,
            kind,
            calls,
            has_failed: false,
        }
    }

    fn fails(&mut self) -> bool {
        if self.has_failed {
            return false;
        }
        self.has_failed = self.calls == 0;
        self.calls = self.calls.saturating_sub(1);
        self.has_failed
    }
}

impl<T: Read> Read for FailingOnce<T> {
    fn read(&mut self, buf: &mut [u8]) -> io::Result<usize> {
        if self.fails() {
            return Err(io::Error::from(self.kind));
        }
        let count = self.inner.read(buf)?;
        Ok(count.min(buf.len()))
    }
}

impl<T: Write> Write for FailingOnce<T> {
    fn write(&mut self, buf: &[u8]) -> io::Result<usize> {
        if self.fails() {
            return Err(io::Error::from(self.kind));
        }
        self.inner.write(buf)
    }

    fn flush(&mut self) -> io::Result<()> {
        if self.fails() {
            return Err(io::Error::from(self.kind));
        }
        self.inner.flush()
    }
}
