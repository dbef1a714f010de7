//! What answering lines needs.
ghost use Rattle.std.specs.Prelude.{◌≡◌, ◌++◌, [], Some, None, if◌then◌else◌, OnOk, OnErr};
ghost use Rattle.tt_session.specs.PendingLines.{is_much};

use crate::pending_lines::PendingLines;
use std::alloc::{AllocError, Global};
use std::mem;
use tt_json::Scratch;

/// As many bytes of answers, and of lines to log with them, are handed over before a further line
/// is answered.
pub const MANY_BYTES: usize = 1_048_576;

/// Whether enough bytes of answers and of lines to log are kept to hand them over.
pub fn is_much(answers: usize, lines: &PendingLines) -> bool
    ensures { result ≡ is_much answers lines.now }
{
    answers.saturating_add(lines.byte_len()) >= MANY_BYTES
}

/// What answering lines needs, and keeps from line to line.
#[derive(Drop)]
pub struct Workspace {
    /// Where lines are read.
    pub scratch: Scratch,
    /// Where answers are made, before they are added to those that are to be handed over.
    pub text: Vec<u8>,
    /// Lines that are to be logged before the answers are handed over.
    pub lines: PendingLines,
}

impl Workspace {
    /// A workspace that holds nothing yet, where there is a log or there is none.
    pub fn new(alloc: Global, has_log: bool) -> Workspace
        ensures { result.lines ≡ (if has_log then Some [] else None) }
    {
        Workspace {
            scratch: Scratch::new(alloc),
            text: Vec::new(alloc),
            lines: PendingLines::new(alloc, has_log),
        }
    }

    /// Gives memory back. The lines that are to be logged stay.
    pub fn release(&mut self, alloc: Global)
        ensures { self.new.lines ≡ self.old.lines }
    {
        self.scratch = Scratch::new(alloc);
        self.text = Vec::new(alloc);
    }
}

/// Adds a text to another one. Where that is empty, they are exchanged, so that nothing is copied.
/// Nothing is promised of `text` afterwards. Where memory runs out, the other one is as before.
pub(crate) fn append(out: &mut Vec<u8>, text: &mut Vec<u8>) -> Result<(), AllocError>
    ensures text { OnOk result (out.new.items ≡ out.old.items ++ text.old.items) }
    ensures stays { OnErr result (out.new.items ≡ out.old.items) }
{
    if out.is_empty() {
        mem::swap(out, text);
        return Ok(());
    }
    out.extend_from_slice(text)
}
