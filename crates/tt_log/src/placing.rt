//! A new file that takes the place of a file.
ghost use Rattle.std.specs.Prelude.{◌≡◌, ◌↔◌, ◌^◌, ◌+◌, ◌<◌, ◌≤◌, length, IfOk, OnOk, OnErr, IsErrOf};
ghost use Rattle.tt_log.specs.Device.{Left, Only, Now, LeavesOnly, StaysOnDisk};
ghost use Rattle.tt_log.specs.Lines.{logged, IsJoined};
ghost use Rattle.tt_log.specs.Log.{AllUnclean, IsAtRest, KeepsOnceSynced, LeavesUnclean, length_with_room};

use crate::{Device, RenewError};

/// The length of a file is a multiple of this, so that writing lines seldom changes it.
pub(crate) const ROOM_UNIT: u64 = 1 << 20;

/// Makes the new file, lines of this many bytes, longer by room for further ones, puts it on the
/// disk, and gives it the name of the file, which is put on the disk, too. Returns its length.
/// After `Kept` the file is as it was; after `Lost` a crash leaves the one or the other.
pub(crate) fn put_in_place<D: Device>(device: &mut D, end: u64) -> Result<u64, RenewError>
    requires few { end < 2 ^ 60 }
    requires end { D.tells device.old → end ≡ length (D.new_file device.old) }
    requires lines { D.tells device.old → IsJoined (D.new_file device.old) }
    ensures tells { D.tells device.old ↔ D.tells device.new }
    ensures room { IfOk result (λ len. len ≡ length_with_room end) }
    ensures within { IfOk result (λ len. end < len) }
    ensures len { D.tells device.old → IfOk result (λ len. len ≡ length (D.seen device.new)) }
    ensures at_rest { D.tells device.old → OnOk result (IsAtRest (D.seen device.new)) }
    ensures logged { D.tells device.old → OnOk result
        (logged (D.seen device.new) ≡ logged (D.new_file device.old)) }
    ensures durable { D.tells device.old → OnOk result
        (Only (D.seen device.new) (D.may_leave device.new)) }
    ensures shown { D.tells device.old → D.shown device.new ≡ D.shown device.old }

    // A crash at any moment leaves what it might have left before, or the new lines.
    ensures any_moment { D.tells device.old → LeavesOnly D.moment D.left_since
        device.old device.new (KeepsOnceSynced (D.may_leave device.old)
        (logged (D.new_file device.old)) (D.shown device.old)) }

    // Where it wouldn't have left a file that looks ended before, it leaves none.
    ensures unclean { D.tells device.old → AllUnclean (D.may_leave device.old)
        → LeavesOnly D.moment D.left_since device.old device.new LeavesUnclean }

    ensures kept { D.tells device.old → IsErrOf result RenewError.Kept
        → StaysOnDisk D.seen D.shown D.may_leave D.moment D.left_since D.failures
        device.old device.new }
    ensures no_new { D.tells device.old → OnOk result (D.has_new_file device.new → ⊥) }
    ensures no_new_kept { D.tells device.old → IsErrOf result RenewError.Kept
        → D.has_new_file device.new → D.has_new_file device.old }
    ensures no_new_lost { D.tells device.old → IsErrOf result RenewError.Lost
        → D.has_new_file device.new → D.failures device.old + 1 < D.failures device.new }
    ensures renames_kept { D.tells device.old → IsErrOf result RenewError.Kept
        → D.rename_count device.new ≡ D.rename_count device.old }
    ensures renames_lost { D.tells device.old → IsErrOf result RenewError.Lost
        → D.rename_count device.old < D.rename_count device.new }
    ensures failures { D.tells device.old → D.failures device.old ≤ D.failures device.new }
    ensures failed { D.tells device.old → OnErr result
        (D.failures device.old < D.failures device.new) }
{
    let len = (end + 1).next_multiple_of(ROOM_UNIT);
    name_new(device, len)?;
    let Ok(()) = device.sync_folder() else {
        return Err(RenewError::Lost);
    };
    Ok(len)
}

/// Makes the new file longer by bytes 0, syncs it, and gives it the name of the file.
fn name_new<D: Device>(device: &mut D, len: u64) -> Result<(), RenewError>
    requires len { D.tells device.old → length (D.new_file device.old) < len }
    requires lines { D.tells device.old → IsJoined (D.new_file device.old) }
    ensures tells { D.tells device.old ↔ D.tells device.new }
    ensures len { D.tells device.old → OnOk result (length (D.seen device.new) ≡ len) }
    ensures at_rest { D.tells device.old → OnOk result (IsAtRest (D.seen device.new)) }
    ensures logged { D.tells device.old → OnOk result
        (logged (D.seen device.new) ≡ logged (D.new_file device.old)) }
    ensures once_named { D.tells device.old → OnOk result
        (Only (D.seen device.new) (D.may_leave_named device.new)) }
    ensures shown { D.tells device.old → D.shown device.new ≡ D.shown device.old }
    ensures crash { D.tells device.old → (left : Left)
        → Now (D.may_leave device.new) (D.shown device.old) left
        → KeepsOnceSynced (D.may_leave device.old) (logged (D.new_file device.old))
        (D.shown device.old) left }
    ensures any_moment { D.tells device.old → LeavesOnly D.moment D.left_since
        device.old device.new (KeepsOnceSynced (D.may_leave device.old)
        (logged (D.new_file device.old)) (D.shown device.old)) }
    ensures unclean { D.tells device.old → AllUnclean (D.may_leave device.old)
        → LeavesOnly D.moment D.left_since device.old device.new LeavesUnclean }
    ensures kept { D.tells device.old → IsErrOf result RenewError.Kept
        → StaysOnDisk D.seen D.shown D.may_leave D.moment D.left_since D.failures
        device.old device.new }
    ensures renames { D.tells device.old
        → OnOk result (D.rename_count device.old < D.rename_count device.new) }
    ensures no_new { D.tells device.old → OnOk result (D.has_new_file device.new → ⊥) }
    ensures no_new_kept { D.tells device.old → IsErrOf result RenewError.Kept
        → D.has_new_file device.new → D.has_new_file device.old }
    ensures no_new_lost { D.tells device.old → IsErrOf result RenewError.Lost
        → D.has_new_file device.new → D.failures device.old + 1 < D.failures device.new }
    ensures renames_kept { D.tells device.old → IsErrOf result RenewError.Kept
        → D.rename_count device.new ≡ D.rename_count device.old }
    ensures renames_lost { D.tells device.old → IsErrOf result RenewError.Lost
        → D.rename_count device.old < D.rename_count device.new }
    ensures failures { D.tells device.old → D.failures device.old ≤ D.failures device.new }
    ensures failed { D.tells device.old → OnErr result
        (D.failures device.old < D.failures device.new) }
{
    device.grow_new(len)?;
    device.sync_new()?;
    device.rename_new()?;
    Ok(())
}
