//! Lines that are to be logged.
ghost use Rattle.std.specs.Prelude.{◌≡◌, ◌≢◌, ◌↔◌, ◌++◌, ◌∷◌, [], List, ℕ, length, IsTrue, IsErrOf, OnOk, OnErr, EachIndex, slice_index};
ghost use Rattle.tt_log.specs.Lines.{logged, joined, IsLine, AreLines, IsJoined};

use std::alloc::{AllocError, Global};
use std::marker::Model;
use thiserror::Error;

/// Why a line isn't added to lines.
#[derive(Clone, Copy, Debug, PartialEq, Eq, Error)]
pub enum LineError {
    /// It has a byte 0 or a line feed.
    #[error("not a line of a log")]
    NotALine,
    /// There is no memory for it.
    #[error("out of memory")]
    Memory,
}

impl From<AllocError> for LineError {
    ghost use Rattle.tt_log.specs.declared.lines.LineError.TheVariants.{Memory};

    ghost from_gives = { λ _ e. e ≡ Memory };

    fn from(_error: AllocError) -> LineError {
        LineError::Memory
    }
}

/// Lines that are to be logged. None has a byte 0 or a line feed.
#[derive(Drop)]
pub struct Lines {
    /// The lines, with a line feed behind each.
    bytes: Vec<u8>,
}

impl Model for Lines {
    ghost Value = { List (List ℕ) };

    ghost view = { λ lines. logged lines.bytes.items };

    ghost invariant = { λ lines. IsJoined lines.bytes.items };
}

impl Lines {
    /// No lines. Takes no memory.
    pub fn new(alloc: Global) -> Lines
        ensures { result ≡ [] }
    {
        Lines {
            bytes: Vec::new(alloc),
        }
    }

    /// The lines, with a line feed behind each.
    pub fn as_bytes(&self) -> &[u8]
        ensures bytes { result.now ≡ joined self.now }
        ensures lines { AreLines self.now }
    {
        &self.bytes
    }

    /// How many bytes they have, with a line feed behind each.
    pub fn byte_len(&self) -> usize
        ensures { result ≡ length (joined self.now) }
    {
        self.bytes.len()
    }

    /// Adds a line at the end. After an error they are as before.
    pub fn push(&mut self, line: &[u8]) -> Result<(), LineError>
        ensures ok { OnOk result (self.new ≡ self.old ++ line.now ∷ []) }
        ensures line { OnOk result (IsLine line.now) }
        ensures err { OnErr result (self.new ≡ self.old) }
        ensures not_a_line { IsErrOf result LineError.NotALine → IsLine line.now → ⊥ }
    {
        if !is_line(line) {
            return Err(LineError::NotALine);
        }
        let kept = self.bytes.len();
        self.bytes.extend_from_slice(line)?;
        match self.bytes.push(b'\n') {
            Ok(()) => Ok(()),
            Err(_) => {
                self.bytes.truncate(kept);
                Err(LineError::Memory)
            }
        }
    }

    /// Adds further lines at the end. Where memory runs out, they are as before.
    pub fn append(&mut self, more: &Lines) -> Result<(), AllocError>
        ensures ok { OnOk result (self.new ≡ self.old ++ more.now) }
        ensures err { OnErr result (self.new ≡ self.old) }
    {
        self.bytes.extend_from_slice(&more.bytes)?;
        Ok(())
    }

    /// Keeps the first lines, those that take this many bytes with a line feed behind each.
    pub fn truncate(&mut self, byte_len: usize)
        requires { (kept : List (List ℕ)) × (more : List (List ℕ))
            × (self.old ≡ kept ++ more) × (byte_len ≡ length (joined kept)) }
        ensures { (kept more : List (List ℕ)) → self.old ≡ kept ++ more
            → byte_len ≡ length (joined kept) → self.new ≡ kept }
    {
        self.bytes.truncate(byte_len);
    }

    /// Lets all lines go, and keeps the memory for others.
    pub fn clear(&mut self)
        ensures { self.new ≡ [] }
    {
        self.bytes.clear();
    }
}

/// Whether a line has no byte 0 and no line feed.
fn is_line(line: &[u8]) -> bool
    ensures { IsTrue result ↔ EachIndex line.now (λ k.
        (slice_index line.now k ≢ 0) × (slice_index line.now k ≢ 10)) }
{
    line.iter().all(|b| *b != 0 && *b != b'\n')
}
