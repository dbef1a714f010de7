//! The line that is being read.
ghost use Rattle.std.specs.Prelude.{◌≡◌, ◌<◌, ◌↔◌, ◌++◌, [], ℕ, List, length, IfSome, IsTrue, false};
ghost use Rattle.tt_requests.specs.Lines.{is_too_long, is_passed_over};
ghost use Rattle.tt_lines.specs.Lines.{HasBytes, IsToldBy};

use std::alloc::Global;
use tt_requests::{MAX_LINE_BYTES, is_blank};

/// The most bytes of a line that are kept: one more than a line may have.
const MAX_BYTES_KEPT: usize = MAX_LINE_BYTES + 1;

/// The line that is being read.
#[derive(Drop)]
pub struct Line {
    /// Its first bytes, unless they are lost.
    kept: Vec<u8>,
    /// Whether there was no memory for one of them.
    is_lost: bool,
    /// How many first bytes there are, also where they are lost.
    len: usize,
    /// Whether each byte so far is a tab, a carriage return or a space.
    is_blank: bool,
}

impl Line {
    /// A line without bytes. Takes no memory.
    pub fn new(alloc: Global) -> Line
        ensures { HasBytes result [] }
    {
        Line {
            kept: Vec::new(alloc),
            is_lost: false,
            len: 0,
            is_blank: true,
        }
    }

    /// Begins the next line.
    pub fn clear(&mut self)
        ensures { HasBytes self.new [] }
    {
        self.kept.clear();
        self.is_lost = false;
        self.len = 0;
        self.is_blank = true;
    }

    /// Whether the line has no bytes so far.
    pub fn is_empty(&self) -> bool
        ensures none { IsTrue result → (bytes : List ℕ) → HasBytes self.now bytes
            → bytes ≡ [] }
        ensures some { result ≡ false → (bytes : List ℕ) → HasBytes self.now bytes
            → 0 < length bytes }
    {
        self.len == 0
    }

    /// Adds further bytes of the line.
    pub fn extend(&mut self, more: &[u8])
        ensures { (bytes : List ℕ) → HasBytes self.old bytes
            → HasBytes self.new (bytes ++ more.now) }
    {
        self.is_blank &= is_blank(more);
        let count = more.len().min(MAX_BYTES_KEPT.saturating_sub(self.len));
        self.len += count;
        self.keep(&more[..count]);
    }

    /// Keeps further first bytes, unless there is no memory for them.
    fn keep(&mut self, more: &[u8])
        ensures kept { self.new.is_lost ≡ false → (self.old.is_lost ≡ false)
            × (self.new.kept.items ≡ self.old.kept.items ++ more.now) }
        ensures len { self.new.len ≡ self.old.len }
        ensures blank { self.new.is_blank ≡ self.old.is_blank }
    {
        if !self.is_lost && self.kept.extend_from_slice(more).is_err() {
            self.is_lost = true;
        }
    }

    /// Whether the line is longer than a line may be.
    pub fn is_too_long(&self) -> bool
        ensures { IsToldBy is_too_long self.now result }
    {
        self.len > MAX_LINE_BYTES
    }

    /// Whether the line gets no answer.
    pub fn is_passed_over(&self) -> bool
        ensures { IsToldBy is_passed_over self.now result }
    {
        !self.is_too_long() && self.is_blank
    }

    /// The line, unless some of it is lost.
    pub fn bytes(&self) -> Option<&[u8]>
        ensures { (bytes : List ℕ) → HasBytes self.now bytes → is_too_long bytes ≡ false
            → IfSome result (λ line. line.now ≡ bytes) }
    {
        if self.is_lost {
            return None;
        }
        Some(self.kept.as_slice())
    }
}
