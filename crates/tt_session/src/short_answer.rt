//! Answers that are written without taking memory.
ghost use Rattle.std.specs.Prelude.{◌≡◌, ◌≤◌, ◌++◌, length, codes, decimal, OnOk, IfErr};
ghost use Rattle.std.specs.Io.KnownBytes.{Appends};
ghost use Rattle.tt_streams.specs.Writing.{AppendsPrefix};
ghost use Rattle.tt_session.specs.ShortAnswers.{short_text};

use arrayvec::ArrayString;
use itoa::Buffer;
use std::io::Write;
use tt_streams::{StreamError, write_text};

/// An answer to a line for which there is no memory, or of which nothing is kept.
#[derive(Clone, Copy, Debug, PartialEq, Eq)]
pub enum ShortAnswer {
    /// There is no memory for an opening.
    OpeningOutOfMemory,
    /// An opening is longer than lines may be.
    OpeningTooLong,
    /// There is no memory for the call of this number.
    CallOutOfMemory(u64),
    /// The call of this number is longer than lines may be.
    CallTooLong(u64),
    /// The log couldn't be made anew for the call of this number.
    CallWithoutLog(u64),
}

/// As many bytes hold the line of each short answer.
pub const MAX_BYTES: usize = 128;

impl ShortAnswer {
    /// The line of the answer. Takes no memory.
    pub fn text(&self) -> ArrayString<MAX_BYTES>
        ensures { result.bytes ≡ short_text self.now }
    {
        match self {
            ShortAnswer::OpeningOutOfMemory => text_of("{\"refused\":\"memory\"}\n"),
            ShortAnswer::OpeningTooLong => {
                text_of("{\"fault\":{\"path\":\"$\",\"cause\":\"longer than 16777216 bytes\"}}\n")
            }
            ShortAnswer::CallOutOfMemory(call) => {
                text_of_call(*call, ",\"refused\":\"memory\"}\n")
            }
            ShortAnswer::CallWithoutLog(call) => { text_of_call(*call, ",\"refused\":\"log\"}\n") }
            ShortAnswer::CallTooLong(call) => text_of_call(
                *call,
                ",\"fault\":{\"path\":\"$\",\"cause\":\"longer than 16777216 bytes\"}}\n",
            ),
        }
    }

    /// Writes the line of the answer, and flushes the writer. After a fault a prefix of the line is
    /// written. An interrupted write is tried again, as long as there are retries. Takes no memory.
    pub fn write_to<W: Write>(&self, writer: &mut W, retries: &mut u32) -> Result<(), StreamError>
        ensures ok { OnOk result
            (Appends (W.contents writer.old) (W.contents writer.new) (short_text self.now)) }
        ensures prefix { AppendsPrefix
            (W.contents writer.old) (W.contents writer.new) (short_text self.now) }
        ensures fault { IfErr result (λ e. e ≡ StreamError.Write) }
        ensures retries { retries.new ≤ retries.old }
    {
        let text = self.text();
        write_text(writer, text.as_str().as_bytes(), retries)
    }
}

/// A short text.
fn text_of(text: &str) -> ArrayString<MAX_BYTES>
    requires { length text.now ≤ 64 }
    ensures { result.bytes ≡ text.now }
{
    let mut line = ArrayString::new();
    line.push_str(text);
    line
}

/// The line of an answer to a call, which ends like this.
fn text_of_call(call: u64, end: &str) -> ArrayString<MAX_BYTES>
    requires { length end.now ≤ 64 }
    ensures { result.bytes ≡ codes "{\"call\":" ++ (decimal call ++ end.now) }
{
    let mut digits = Buffer::new();
    let mut line = ArrayString::new();
    line.push_str("{\"call\":");
    line.push_str(digits.format(call));
    line.push_str(end);
    line
}
