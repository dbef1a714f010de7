//! What stands behind the lines of a file.
ghost use Rattle.std.specs.Prelude.{◌≡◌, ◌-◌, ◌<◌, ◌≤◌, length, min, IfOk, IfErr, OnErr, IsTrue, false};
ghost use Rattle.tt_log.specs.Crash.{written_over};
ghost use Rattle.tt_log.specs.Lines.{zeros};

use crate::{Device, LogError};

/// Whether each byte of a file from a place on is 0. The file has this length.
pub(crate) fn is_clear<D: Device>(
    device: &D,
    from: u64,
    len: u64,
    buffer: &mut [u8],
) -> Result<bool, LogError>
    requires some { 0 < length buffer.old }
    requires within { from ≤ len }
    requires len { D.tells device.now → len ≡ length (D.seen device.now) }
    ensures clear { D.tells device.now → IfOk result (λ b. IsTrue b
        → D.seen device.now ≡ written_over (D.seen device.now) from (zeros (len - from))) }
    ensures other { D.tells device.now → IfOk result (λ b. b ≡ false
        → D.seen device.now ≡ written_over (D.seen device.now) from (zeros (len - from))
        → ⊥) }
    ensures some { 0 < length buffer.new }
    ensures read { IfErr result (λ e. e ≡ LogError.Read) }
    ensures cannot_read { D.tells device.now → OnErr result (D.cannot_read device.now) }
{
    let mut at = from;
    while at < len {
        let count = piece_len(buffer.len(), len - at);
        let piece = &mut buffer[..count];
        let Ok(()) = device.read_at(at, piece) else {
            return Err(LogError::Read);
        };
        if !is_zeros(piece) {
            return Ok(false);
        }
        at += count as u64;
    }
    Ok(true)
}

/// How many bytes fit both a buffer of this length and what is left of a file.
pub(crate) fn piece_len(most: usize, left: u64) -> usize
    ensures { result ≡ min most left }
{
    (most as u64).min(left) as usize
}

/// Whether each byte is 0.
fn is_zeros(bytes: &[u8]) -> bool
    ensures zeros { IsTrue result → bytes.now ≡ zeros (length bytes.now) }
    ensures other { result ≡ false → bytes.now ≡ zeros (length bytes.now) → ⊥ }
{
    bytes.iter().all(|b| *b == 0)
}
