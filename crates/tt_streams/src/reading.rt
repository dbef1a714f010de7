//! Reading from a stream.
ghost use Rattle.std.specs.Prelude.{◌≡◌, ◌<◌, ◌≤◌, IfOk, IfErr, OnErr, length, take};
ghost use Rattle.std.specs.Io.{ReadsAtMost};
ghost use Rattle.std.specs.Io.KnownBytes.{Keeps, Consumes, IsAtEnd};

use crate::retries::use_retry;
use crate::stream_error::StreamError;
use std::io::Read;

/// One read, tried again where it's interrupted, as long as there are retries. Returns how many
/// bytes it has put at the front of the buffer: none at the end of the input.
pub fn read_once<R: Read>(
    reader: &mut R,
    buffer: &mut [u8],
    retries: &mut u32,
) -> Result<usize, StreamError>
    ensures bound { ReadsAtMost result buffer.new }
    ensures consumed { IfOk result (λ n.
        Consumes (R.remaining reader.old) (R.remaining reader.new) (take n buffer.new)) }
    ensures end { IfOk result (λ n.
        n ≡ 0 → 0 < length buffer.old → IsAtEnd (R.remaining reader.new)) }
    ensures unchanged { OnErr result (Keeps (R.remaining reader.old) (R.remaining reader.new)) }
    ensures fault { IfErr result (λ e. e ≡ StreamError.Read) }
    ensures retries { retries.new ≤ retries.old }
{
    loop {
        match reader.read(buffer) {
            Ok(count) => return Ok(count),
            Err(error) => {
                if !use_retry(&error, retries) {
                    return Err(StreamError::Read);
                }
            }
        }
    }
}
