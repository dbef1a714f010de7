//! The lines of a session's input.
ghost use Rattle.std.specs.Prelude.{◌≡◌};
ghost use Rattle.tt_requests.specs.Lines.{is_too_long, is_blank_byte, is_blank, is_passed_over};

use crate::MAX_LINE_BYTES;

/// Whether a line gets no answer: it has no byte but tabs, carriage returns and spaces, and isn't
/// longer than [`MAX_LINE_BYTES`].
pub fn is_passed_over(line: &[u8]) -> bool
    ensures { result ≡ is_passed_over line.now }
{
    !is_too_long(line) && is_blank(line)
}

pub(crate) fn is_too_long(line: &[u8]) -> bool
    ensures { result ≡ is_too_long line.now }
{
    line.len() > MAX_LINE_BYTES
}

/// Whether a line has no byte but tabs, carriage returns and spaces.
pub fn is_blank(line: &[u8]) -> bool
    ensures { result ≡ is_blank line.now }
{
    line.iter().all(|byte| is_blank_byte(*byte))
}

fn is_blank_byte(byte: u8) -> bool
    ensures { result ≡ is_blank_byte byte }
{
    byte == b'\t' || byte == b'\r' || byte == b' '
}
