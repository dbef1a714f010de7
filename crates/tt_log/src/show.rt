//! Looking at a log, without writing to it.
ghost use Rattle.std.specs.Prelude.{◌≡◌, ◌≢◌, ◌⊎◌, ◌↔◌, ◌+◌, ◌^◌, ◌<◌, ◌≤◌, ◌++◌, [], length, take, false, IfOk, IfErr, IsTrue, OnOk, OnErr, IsErrOf};
ghost use Rattle.tt_log.specs.Device.{NothingNew, ShowsFirst};
ghost use Rattle.tt_log.specs.Lines.{logged, joined, whole_lines_of};
ghost use Rattle.tt_log.specs.Show.{IsSummaryOf};

use crate::rest::{is_clear, piece_len};
use crate::unread_log::extent_of;
use crate::{Device, LogError};

/// What a log has.
#[derive(Clone, Copy, Debug, PartialEq, Eq)]
pub struct LogSummary {
    /// How many lines.
    pub lines: u64,
    /// How many bytes these have, with a line feed behind each.
    pub bytes: u64,
    /// Whether bytes other than 0 stand behind them, as a crash leaves them of lines that were
    /// being written. They count for nothing.
    pub is_torn: bool,
}

/// Hands over the lines of a log to the output of its device, a line feed behind each, and leaves
/// its file as it is. The buffer is used on the way. It is `Read` if the file can't be read, and
/// `HandOver` if the output fails; the first bytes of the lines may be handed over then.
pub fn show_log<D: Device>(device: &mut D, buffer: &mut [u8]) -> Result<LogSummary, LogError>
    requires some { 0 < length buffer.old }
    ensures tells { D.tells device.old ↔ D.tells device.new }
    ensures seen { D.tells device.old → D.seen device.new ≡ D.seen device.old }
    ensures crash { D.tells device.old
        → NothingNew (D.may_leave device.old) (D.may_leave device.new) }
    ensures shown { D.tells device.old → OnOk result (D.shown device.new
        ≡ D.shown device.old ++ joined (logged (D.seen device.old))) }

    // After an error the first bytes of the lines may be handed over, and nothing else.
    ensures first { D.tells device.old → ShowsFirst (D.shown device.old) (D.shown device.new)
        (joined (logged (D.seen device.old))) }

    ensures summary { D.tells device.old → IfOk result (IsSummaryOf (D.seen device.old)) }
    ensures err { IfErr result (λ e. (e ≡ LogError.Read) ⊎ (e ≡ LogError.HandOver)) }
    ensures read { D.tells device.old → IsErrOf result LogError.Read
        → D.cannot_read device.new }
    ensures hand_over { D.tells device.old → IsErrOf result LogError.HandOver
        → D.failures device.old < D.failures device.new }
{
    let Ok(len) = device.length() else {
        return Err(LogError::Read);
    };
    let bytes = end_of_lines(device, len, buffer)?;
    let is_clear = is_clear(device, bytes, len, buffer)?;
    let lines = show_first(device, bytes, buffer)?;
    Ok(LogSummary {
        lines,
        bytes,
        is_torn: !is_clear,
    })
}

/// Whether a log has a line. Its file is read up to its first line feed or its first byte 0, and
/// stays as it is. The buffer is used on the way. It is `Read` if the file can't be read.
pub fn has_lines<D: Device>(device: &D, buffer: &mut [u8]) -> Result<bool, LogError>
    requires some { 0 < length buffer.old }
    ensures some { D.tells device.now → IfOk result (λ b. IsTrue b
        → logged (D.seen device.now) ≢ []) }
    ensures none { D.tells device.now → IfOk result (λ b. b ≡ false
        → logged (D.seen device.now) ≡ []) }
    ensures read { IfErr result (λ e. e ≡ LogError.Read) }
    ensures cannot_read { D.tells device.now → OnErr result (D.cannot_read device.now) }
{
    let Ok(len) = device.length() else {
        return Err(LogError::Read);
    };
    let mut at = 0;
    while at < len {
        let count = piece_len(buffer.len(), len - at);
        let piece = &mut buffer[..count];
        let Ok(()) = device.read_at(at, piece) else {
            return Err(LogError::Read);
        };
        let extent = extent_of(piece);
        if extent.end > 0 {
            return Ok(true);
        }
        if extent.taken < count {
            return Ok(false);
        }
        at += count as u64;
    }
    Ok(false)
}

/// Where the last line of a file ends. The file has this length.
fn end_of_lines<D: Device>(device: &D, len: u64, buffer: &mut [u8]) -> Result<u64, LogError>
    requires some { 0 < length buffer.old }
    requires len { D.tells device.now → len ≡ length (D.seen device.now) }
    ensures some { 0 < length buffer.new }
    ensures end { D.tells device.now → IfOk result (λ end.
        end ≡ length (joined (logged (D.seen device.now)))) }
    ensures within { IfOk result (λ end. end ≤ len) }
    ensures read { IfErr result (λ e. e ≡ LogError.Read) }
    ensures cannot_read { D.tells device.now → OnErr result (D.cannot_read device.now) }
{
    let mut at = 0;
    let mut end = 0;
    while at < len {
        let count = piece_len(buffer.len(), len - at);
        let piece = &mut buffer[..count];
        let Ok(()) = device.read_at(at, piece) else {
            return Err(LogError::Read);
        };
        let extent = extent_of(piece);
        end = end_after(end, at, extent.end);
        if extent.taken < count {
            return Ok(end);
        }
        at += count as u64;
    }
    Ok(end)
}

/// Where the last line ends once a piece of a file is read that begins at `at`: behind the first
/// `bytes` bytes of the piece, or where it ended before if these are none.
fn end_after(earlier: u64, at: u64, bytes: usize) -> u64
    requires { at + bytes < 2 ^ 64 }
    ensures none { bytes ≡ 0 → result ≡ earlier }
    ensures some { 0 < bytes → result ≡ at + bytes }
{
    match bytes {
        0 => earlier,
        _ => at + bytes as u64,
    }
}

/// Hands over the first bytes of a file, and returns how many lines end in them.
fn show_first<D: Device>(device: &mut D, end: u64, buffer: &mut [u8]) -> Result<u64, LogError>
    requires some { 0 < length buffer.old }
    requires within { D.tells device.old → end ≤ length (D.seen device.old) }
    ensures tells { D.tells device.old ↔ D.tells device.new }
    ensures seen { D.tells device.old → D.seen device.new ≡ D.seen device.old }
    ensures crash { D.tells device.old
        → NothingNew (D.may_leave device.old) (D.may_leave device.new) }
    ensures shown { D.tells device.old → OnOk result (D.shown device.new
        ≡ D.shown device.old ++ take end (D.seen device.old)) }
    ensures first { D.tells device.old → ShowsFirst (D.shown device.old) (D.shown device.new)
        (take end (D.seen device.old)) }
    ensures lines { D.tells device.old → IfOk result (λ n.
        n ≡ length (whole_lines_of (take end (D.seen device.old)))) }
    ensures err { IfErr result (λ e. (e ≡ LogError.Read) ⊎ (e ≡ LogError.HandOver)) }
    ensures read { D.tells device.old → IsErrOf result LogError.Read
        → D.cannot_read device.new }
    ensures hand_over { D.tells device.old → IsErrOf result LogError.HandOver
        → D.failures device.old < D.failures device.new }
{
    let mut at = 0;
    let mut lines = 0;
    while at < end {
        let count = piece_len(buffer.len(), end - at);
        let piece = &mut buffer[..count];
        let Ok(()) = device.read_at(at, piece) else {
            return Err(LogError::Read);
        };
        let Ok(()) = device.hand_over(piece) else {
            return Err(LogError::HandOver);
        };
        lines += line_count(piece) as u64;
        at += count as u64;
    }
    Ok(lines)
}

/// How many lines end in some bytes.
fn line_count(bytes: &[u8]) -> usize
    ensures lines { result ≡ length (whole_lines_of bytes.now) }
    ensures few { result ≤ length bytes.now }
{
    let mut count = 0;
    for byte in bytes.iter() {
        if *byte == b'\n' {
            count += 1;
        }
    }
    count
}
