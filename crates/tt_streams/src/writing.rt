//! Writing to a stream. Needs no memory.
ghost use Rattle.std.specs.Prelude.{◌≡◌, ◌<◌, ◌≤◌, IfOk, IfErr, OnOk, OnErr, take};
ghost use Rattle.std.specs.Io.{WritesAtMost};
ghost use Rattle.std.specs.Io.KnownBytes.{Keeps, Appends};
ghost use Rattle.tt_streams.specs.Writing.{AppendsPrefix};

use crate::retries::use_retry;
use crate::stream_error::StreamError;
use std::io::Write;

/// Writes a text, and flushes the writer. After a fault a prefix of the text is written. An
/// interrupted write is tried again, as long as there are retries.
pub fn write_text<W: Write>(
    writer: &mut W,
    text: &[u8],
    retries: &mut u32,
) -> Result<(), StreamError>
    // Of a writer whose bytes are known.
    ensures ok { OnOk result (Appends (W.contents writer.old) (W.contents writer.new) text.now) }
    ensures prefix { AppendsPrefix (W.contents writer.old) (W.contents writer.new) text.now }

    // Of any writer.
    ensures err { IfErr result (λ e. e ≡ StreamError.Write) }
    ensures retries { retries.new ≤ retries.old }
{
    write_piece(writer, text, retries)?;
    flush(writer)
}

/// As [`write_text`], but doesn't flush the writer: the text is a piece of a longer one.
pub fn write_piece<W: Write>(
    writer: &mut W,
    text: &[u8],
    retries: &mut u32,
) -> Result<(), StreamError>
    // Of a writer whose bytes are known.
    ensures ok { OnOk result (Appends (W.contents writer.old) (W.contents writer.new) text.now) }
    ensures prefix { AppendsPrefix (W.contents writer.old) (W.contents writer.new) text.now }

    // Of any writer.
    ensures err { IfErr result (λ e. e ≡ StreamError.Write) }
    ensures retries { retries.new ≤ retries.old }
{
    let mut written = 0;
    while written < text.len() {
        written += write_once(writer, &text[written..], retries)?;
    }
    Ok(())
}

/// One write of at least one byte, tried again where it's interrupted, as long as there are
/// retries.
fn write_once<W: Write>(
    writer: &mut W,
    text: &[u8],
    retries: &mut u32,
) -> Result<usize, StreamError>
    ensures bound { WritesAtMost result text.now }
    ensures some { IfOk result (λ n. 0 < n) }
    ensures ok { IfOk result (λ n.
        Appends (W.contents writer.old) (W.contents writer.new) (take n text.now)) }
    ensures unchanged { OnErr result (Keeps (W.contents writer.old) (W.contents writer.new)) }
    ensures fault { IfErr result (λ e. e ≡ StreamError.Write) }
    ensures retries { retries.new ≤ retries.old }
{
    loop {
        match writer.write(text) {
            Ok(0) => return Err(StreamError::Write),
            Ok(count) => return Ok(count),
            Err(error) => {
                if !use_retry(&error, retries) {
                    return Err(StreamError::Write);
                }
            }
        }
    }
}

fn flush<W: Write>(writer: &mut W) -> Result<(), StreamError>
    ensures unchanged { Keeps (W.contents writer.old) (W.contents writer.new) }
    ensures fault { IfErr result (λ e. e ≡ StreamError.Write) }
{
    match writer.flush() {
        Ok(()) => Ok(()),
        Err(_) => Err(StreamError::Write),
    }
}
