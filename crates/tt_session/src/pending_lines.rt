//! Lines that are to be logged with the next answers.
ghost use Rattle.std.specs.Prelude.{◌≡◌, ◌∷◌, [], Option, None, Some, List, ℕ, if◌then◌else◌, is_some, OnOk, OnErr};
ghost use Rattle.tt_session.specs.Logged.{with_lines};
ghost use Rattle.tt_session.specs.PendingLines.{bytes_of, no_lines};

use std::alloc::{AllocError, Global};
use std::marker::Model;
use tt_log::Lines;

/// Lines that are to be logged with the next answers, where there is a log.
#[derive(Drop)]
pub struct PendingLines {
    lines: Lines,
    has_log: bool,
}

impl Model for PendingLines {
    ghost use Rattle.std.specs.Prelude.{Option, List, ℕ, Some, None, if◌then◌else◌};

    ghost Value = { Option (List (List ℕ)) };

    ghost view = { λ p. if p.has_log then Some p.lines else None };
}

impl PendingLines {
    /// No lines, where there is a log or there is none. Takes no memory.
    pub fn new(alloc: Global, has_log: bool) -> PendingLines
        ensures { result ≡ (if has_log then Some [] else None) }
    {
        PendingLines {
            lines: Lines::new(alloc),
            has_log,
        }
    }

    /// The lines; none where there is no log.
    pub fn lines(&self) -> &Lines
        ensures { (lines : List (List ℕ)) → self.now ≡ Some lines → result.now ≡ lines }
    {
        &self.lines
    }

    /// Whether there is a log.
    pub(crate) fn has_log(&self) -> bool
        ensures { result ≡ is_some self.now }
    {
        self.has_log
    }

    /// How many bytes the lines have in a log.
    pub fn byte_len(&self) -> usize
        ensures { result ≡ bytes_of self.now }
    {
        if !self.has_log {
            return 0;
        }
        self.lines.byte_len()
    }

    /// Adds a line, where there is a log. Where it can't be kept, the lines are as before.
    pub fn push(&mut self, line: &[u8]) -> Result<(), AllocError>
        ensures ok { OnOk result (self.new ≡ with_lines self.old (line.now ∷ [])) }
        ensures err { OnErr result (self.new ≡ self.old) }
    {
        if !self.has_log {
            return Ok(());
        }
        match self.lines.push(line) {
            Ok(()) => Ok(()),
            // No line has a byte 0 or a line feed that changes the database.
            Err(_) => Err(AllocError),
        }
    }

    /// Keeps the first lines, those that take this many bytes in a log.
    pub(crate) fn truncate(&mut self, byte_len: usize)
        requires { (kept : Option (List (List ℕ))) × (more : List (List ℕ))
            × (self.old ≡ with_lines kept more) × (byte_len ≡ bytes_of kept) }
        ensures { (kept : Option (List (List ℕ))) (more : List (List ℕ))
            → self.old ≡ with_lines kept more → byte_len ≡ bytes_of kept
            → self.new ≡ kept }
    {
        if self.has_log {
            self.lines.truncate(byte_len);
        }
    }

    /// Lets all lines go.
    pub fn clear(&mut self)
        ensures { self.new ≡ no_lines self.old }
    {
        self.lines.clear();
    }
}
