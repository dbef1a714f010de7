//! How a log begins on a file that another process has left.
ghost use Rattle.std.specs.Prelude.{◌≡◌, ◌⊎◌, ◌↔◌, ◌^◌, ◌+◌, ◌<◌, ◌≤◌, [], length, take, IfOk, IfErr, OnOk, OnErr, IsErrOf};
ghost use Rattle.tt_log.specs.Device.{Only, LeavesOnly, StaysOnDisk, LeavesNoNewFile};
ghost use Rattle.tt_log.specs.Lines.{logged, joined, IsJoined};
ghost use Rattle.tt_log.specs.Log.{IsAtRest, KeepsOnceSynced};

use crate::placing::{ROOM_UNIT, put_in_place};
use crate::rest::piece_len;
use crate::{Device, DeviceError, LogError, RenewError};

/// Makes a file that is its lines, with this many bytes, and nothing else longer by room for
/// further ones, and syncs it. Returns its length. It is `Write` if that fails.
pub(crate) fn add_room<D: Device>(device: &mut D, end: u64) -> Result<u64, LogError>
    requires few { end < 2 ^ 60 }
    requires end { D.tells device.old → end ≡ length (D.seen device.old) }
    requires lines { D.tells device.old → IsJoined (D.seen device.old) }
    requires left { D.tells device.old
        → Only (D.seen device.old) (D.once_synced device.old) }
    ensures tells { D.tells device.old ↔ D.tells device.new }
    ensures within { IfOk result (λ len. end < len) }
    ensures len { D.tells device.old → IfOk result (λ len. len ≡ length (D.seen device.new)) }
    ensures at_rest { D.tells device.old → OnOk result (IsAtRest (D.seen device.new)) }
    ensures logged { D.tells device.old → OnOk result
        (logged (D.seen device.new) ≡ logged (D.seen device.old)) }
    ensures durable { D.tells device.old → OnOk result
        (Only (D.seen device.new) (D.may_leave device.new)) }
    ensures shown { D.tells device.old → D.shown device.new ≡ D.shown device.old }
    ensures any_moment { D.tells device.old → LeavesOnly D.moment D.left_since
        device.old device.new (KeepsOnceSynced (D.may_leave device.old)
        (logged (D.seen device.old)) (D.shown device.old)) }
    ensures no_new { D.tells device.old
        → D.has_new_file device.new → D.has_new_file device.old }
    ensures failures { D.tells device.old → D.failures device.old ≤ D.failures device.new }
    ensures write { IfErr result (λ e. e ≡ LogError.Write) }
    ensures failed { D.tells device.old → OnErr result
        (D.failures device.old < D.failures device.new) }
{
    let len = (end + 1).next_multiple_of(ROOM_UNIT);
    device.grow(len)?;
    device.sync()?;
    Ok(len)
}

/// Puts a new file in the place of a file that wasn't ended well: its lines, which have this many
/// bytes, and room for further ones. Returns its length. It is `Read` if the file can't be read,
/// which is as it was then, and else `Write`. The buffer is used on the way.
pub(crate) fn make_anew<D: Device>(
    device: &mut D,
    end: u64,
    buffer: &mut [u8],
) -> Result<u64, LogError>
    requires some { 0 < length buffer.old }
    requires few { end < 2 ^ 60 }
    requires end { D.tells device.old → end ≡ length (joined (logged (D.seen device.old))) }
    ensures tells { D.tells device.old ↔ D.tells device.new }
    ensures within { IfOk result (λ len. end < len) }
    ensures len { D.tells device.old → IfOk result (λ len. len ≡ length (D.seen device.new)) }
    ensures at_rest { D.tells device.old → OnOk result (IsAtRest (D.seen device.new)) }
    ensures logged { D.tells device.old → OnOk result
        (logged (D.seen device.new) ≡ logged (D.seen device.old)) }
    ensures durable { D.tells device.old → OnOk result
        (Only (D.seen device.new) (D.may_leave device.new)) }
    ensures shown { D.tells device.old → D.shown device.new ≡ D.shown device.old }
    ensures any_moment { D.tells device.old → LeavesOnly D.moment D.left_since
        device.old device.new (KeepsOnceSynced (D.may_leave device.old)
        (logged (D.seen device.old)) (D.shown device.old)) }

    // Where an error leaves a new file that wasn't there, the device has failed: at least once
    // where it is `Read`, and at least twice where it is `Write`.
    ensures no_new { D.tells device.old → OnOk result (D.has_new_file device.new → ⊥) }
    ensures no_new_read { D.tells device.old → IsErrOf result LogError.Read
        → LeavesNoNewFile D.has_new_file D.failures 0 device.old device.new }
    ensures no_new_write { D.tells device.old → IsErrOf result LogError.Write
        → LeavesNoNewFile D.has_new_file D.failures 1 device.old device.new }

    ensures failures { D.tells device.old → D.failures device.old ≤ D.failures device.new }
    ensures err { IfErr result (λ e. (e ≡ LogError.Read) ⊎ (e ≡ LogError.Write)) }
    ensures write { D.tells device.old → IsErrOf result LogError.Write
        → D.failures device.old < D.failures device.new }
    ensures read { D.tells device.old → IsErrOf result LogError.Read
        → D.seen device.new ≡ D.seen device.old }
    ensures cannot_read { D.tells device.old → IsErrOf result LogError.Read
        → D.cannot_read device.new }
{
    device.create_new()?;
    match copy_lines(device, end, buffer) {
        Ok(()) => take_place(device, end),
        Err(error) => {
            device.remove_new();
            Err(error)
        }
    }
}

/// Puts the new file, lines of this many bytes, in the place of the file, or removes it where that
/// fails and the file has its name.
fn take_place<D: Device>(device: &mut D, end: u64) -> Result<u64, LogError>
    requires few { end < 2 ^ 60 }
    requires end { D.tells device.old → end ≡ length (D.new_file device.old) }
    requires lines { D.tells device.old → IsJoined (D.new_file device.old) }
    ensures tells { D.tells device.old ↔ D.tells device.new }
    ensures within { IfOk result (λ len. end < len) }
    ensures len { D.tells device.old → IfOk result (λ len. len ≡ length (D.seen device.new)) }
    ensures at_rest { D.tells device.old → OnOk result (IsAtRest (D.seen device.new)) }
    ensures logged { D.tells device.old → OnOk result
        (logged (D.seen device.new) ≡ logged (D.new_file device.old)) }
    ensures durable { D.tells device.old → OnOk result
        (Only (D.seen device.new) (D.may_leave device.new)) }
    ensures shown { D.tells device.old → D.shown device.new ≡ D.shown device.old }
    ensures any_moment { D.tells device.old → LeavesOnly D.moment D.left_since
        device.old device.new (KeepsOnceSynced (D.may_leave device.old)
        (logged (D.new_file device.old)) (D.shown device.old)) }
    ensures no_new { D.tells device.old → OnOk result (D.has_new_file device.new → ⊥) }
    ensures no_new_err { D.tells device.old → OnErr result (D.has_new_file device.new
        → D.failures device.old + 1 < D.failures device.new) }
    ensures failures { D.tells device.old → D.failures device.old ≤ D.failures device.new }
    ensures write { IfErr result (λ e. e ≡ LogError.Write) }
    ensures failed { D.tells device.old → OnErr result
        (D.failures device.old < D.failures device.new) }
{
    match put_in_place(device, end) {
        Ok(len) => Ok(len),
        Err(RenewError::Kept) => {
            device.remove_new();
            Err(LogError::Write)
        }
        Err(RenewError::Lost) => Err(LogError::Write),
    }
}

/// Writes the first bytes of a file into the new file, which is empty. It is `Read` if these can't
/// be read, and `Write` if they can't be written.
fn copy_lines<D: Device>(device: &mut D, end: u64, buffer: &mut [u8]) -> Result<(), LogError>
    requires some { 0 < length buffer.old }
    requires within { D.tells device.old → end ≤ length (D.seen device.old) }
    requires empty { D.tells device.old → D.new_file device.old ≡ [] }
    ensures tells { D.tells device.old ↔ D.tells device.new }
    ensures copied { D.tells device.old → OnOk result
        (D.new_file device.new ≡ take end (D.seen device.old)) }
    ensures stays { D.tells device.old → StaysOnDisk D.seen D.shown D.may_leave D.moment
        D.left_since D.failures device.old device.new }
    ensures err { IfErr result (λ e. (e ≡ LogError.Read) ⊎ (e ≡ LogError.Write)) }
    ensures write { D.tells device.old → IsErrOf result LogError.Write
        → D.failures device.old < D.failures device.new }
    ensures cannot_read { D.tells device.old → IsErrOf result LogError.Read
        → D.cannot_read device.new }
{
    let mut at = 0;
    while at < end {
        let count = piece_len(buffer.len(), end - at);
        let piece = &mut buffer[..count];
        let Ok(()) = device.read_at(at, piece) else {
            return Err(LogError::Read);
        };
        device.append_new(piece)?;
        at += count as u64;
    }
    Ok(())
}
