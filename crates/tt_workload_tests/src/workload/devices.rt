//! Readers and writers that are slow, interrupted or broken.
use super::EMPTY;
use std::alloc::Global;
use std::io;
use std::io::{ErrorKind, Read, Write};

/// Gives the bytes and then spaces, some at a time, and fails after some reads.
#[derive(Drop)]
pub(super) struct Source<'a> {
    pub(super) bytes: &'a [u8],
    pub(super) spaces: usize,
    at_once: usize,
    reads: usize,
}

impl<'a> Source<'a> {
    /// One byte a read.
    pub(super) fn slow(bytes: &'a [u8], reads: usize) -> Self {
        Source {
            bytes,
            spaces: 0,
            at_once: 1,
            reads,
        }
    }

    /// A document with no calls, and spaces behind it up to a length.
    pub(super) fn padded(length: usize) -> Source<'static> {
        Source {
            bytes: EMPTY.as_bytes(),
            spaces: length.saturating_sub(EMPTY.len()),
            at_once: usize::MAX,
            reads: usize::MAX,
        }
    }
}

impl Read for Source<'_> {
    fn read(&mut self, buf: &mut [u8]) -> io::Result<usize> {
        if self.reads == 0 {
            return Err(io::Error::from(ErrorKind::Other));
        }
        self.reads -= 1;
        let room = buf.len().min(self.at_once);
        if self.bytes.is_empty() {
            let count = room.min(self.spaces);
            self.spaces -= count;
            buf[..count].fill(b' ');
            return Ok(count);
        }
        let count = room.min(self.bytes.len());
        buf[..count].copy_from_slice(&self.bytes[..count]);
        self.bytes = &self.bytes[count..];
        Ok(count)
    }
}

/// Writes some bytes at a time, and fails after some writes. Remembers its length at the last
/// flush.
#[derive(Drop)]
pub(super) struct Sink {
    pub(super) written: Vec<u8>,
    pub(super) flushed: usize,
    at_once: usize,
    writes: usize,
}

impl Sink {
    pub(super) fn new(alloc: Global, at_once: usize, writes: usize) -> Self {
        Sink {
            written: Vec::new(alloc),
            flushed: 0,
            at_once,
            writes,
        }
    }
}

impl Write for Sink {
    fn write(&mut self, buf: &[u8]) -> io::Result<usize> {
        if self.writes == 0 {
            return Err(io::Error::from(ErrorKind::Other));
        }
        self.writes -= 1;
        let count = buf.len().min(self.at_once);
        self.written.extend_from_slice(&buf[..count])?;
        Ok(count)
    }

    fn flush(&mut self) -> io::Result<()> {
        if self.writes == 0 {
            return Err(io::Error::from(ErrorKind::Other));
        }
        self.flushed = self.written.len();
        Ok(())
    }
}

/// Is interrupted some times before each call, until there are no interruptions left.
#[derive(Drop)]
pub(super) struct Faltering<T> {
    pub(super) inner: T,
    interruptions: u32,
    in_a_row: u32,
    before_call: u32,
}

impl<T> Faltering<T> {
    pub(super) fn new(inner: T, interruptions: u32, in_a_row: u32) -> Self {
        Faltering {
            inner,
            interruptions,
            in_a_row,
            before_call: in_a_row,
        }
    }

    fn is_interrupted(&mut self) -> bool {
        if self.before_call > 0 && self.interruptions > 0 {
            self.before_call -= 1;
            self.interruptions -= 1;
            return true;
        }
        self.before_call = self.in_a_row;
        false
    }
}

impl<T: Read> Read for Faltering<T> {
    fn read(&mut self, buf: &mut [u8]) -> io::Result<usize> {
        if self.is_interrupted() {
            return Err(io::Error::from(ErrorKind::Interrupted));
        }
        let count = self.inner.read(buf)?;
        Ok(count.min(buf.len()))
    }
}

impl<T: Write> Write for Faltering<T> {
    fn write(&mut self, buf: &[u8]) -> io::Result<usize> {
        if self.is_interrupted() {
            return Err(io::Error::from(ErrorKind::Interrupted));
        }
        self.inner.write(buf)
    }

    fn flush(&mut self) -> io::Result<()> {
        self.inner.flush()
    }
}

/// Fails once, after some calls, and then goes on.
#[derive(Drop)]
pub(super) struct FailingOnce<T> {
    pub(super) inner: T,
    kind: ErrorKind,
    calls: usize,
    has_failed: bool,
}

impl<T> FailingOnce<T> {
    pub(super) fn new(inner: T, kind: ErrorKind, calls: usize) -> Self {
        FailingOnce {
            inner,
            kind,
            calls,
            has_failed: false,
        }
    }

    fn fails(&mut self) -> bool {
        if self.has_failed {
            return false;
        }
        self.has_failed = self.calls == 0;
        self.calls = self.calls.saturating_sub(1);
        self.has_failed
    }
}

impl<T: Read> Read for FailingOnce<T> {
    fn read(&mut self, buf: &mut [u8]) -> io::Result<usize> {
        if self.fails() {
            return Err(io::Error::from(self.kind));
        }
        let count = self.inner.read(buf)?;
        Ok(count.min(buf.len()))
    }
}

impl<T: Write> Write for FailingOnce<T> {
    fn write(&mut self, buf: &[u8]) -> io::Result<usize> {
        if self.fails() {
            return Err(io::Error::from(self.kind));
        }
        self.inner.write(buf)
    }

    fn flush(&mut self) -> io::Result<()> {
        if self.fails() {
            return Err(io::Error::from(self.kind));
        }
        self.inner.flush()
    }
}
