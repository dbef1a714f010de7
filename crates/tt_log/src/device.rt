//! What a log is kept on.
ghost use Rattle.std.specs.Prelude.{◌≡◌, ◌⊎◌, ◌↔◌, ◌<◌, ◌≤◌, ◌+◌, ◌-◌, ◌++◌, [], List, ℕ, length, take, drop, IfOk, OnOk, OnErr, IsErrOf};
ghost use Rattle.tt_log.specs.Crash.{written_over, MayBeWritten, MayBeLonger, MayBeCut, IsWritten, IsLonger, IsCut};
ghost use Rattle.tt_log.specs.Device.{Left, Only, AllAsLong, NothingNew, Follows, Now, NowShowing, Elapses, CountsFailure, ShowsFirst, LeavesNoNewFile};
ghost use Rattle.tt_log.specs.Lines.{zeros};

use crate::RenewError;
use thiserror::Error;

/// A call of a device has failed. What it has done is unknown.
#[derive(Clone, Copy, Debug, PartialEq, Eq, Error)]
#[error("the device has failed")]
pub struct DeviceError;

/// A file, and an output that answers are handed over to, under one clock: a crash leaves the file
/// as it may be at that moment, and what had been handed over by then.
///
/// A sync that fails leaves nobody knowing what is on the disk, and a later one may succeed without
/// it. So what a sync puts on the disk is said by `once_synced`: after an error nothing is known of
/// it, and of a file that another process has left nothing is known at first.
///
/// The clauses speak of devices that tell what a crash may leave. A real file can't, and implements
/// this trait with `tells` never true: of it nothing is proved.
pub trait Device {
    /// That it tells what its file holds, what has been handed over, and what a crash may leave.
    ghost tells: { Self → Type 0 };

    /// The bytes of the file that are read.
    ghost seen: { Self → List ℕ };

    /// What has been handed over.
    ghost shown: { Self → List ℕ };

    /// The files that a crash at this moment may leave.
    ghost may_leave: { Self → List ℕ → Type 0 };

    /// What a crash might leave after a sync that succeeds now.
    ghost once_synced: { Self → List ℕ → Type 0 };

    /// The bytes of the new file that is being made beside the file.
    ghost new_file: { Self → List ℕ };

    /// What a crash at this moment may leave of the new file.
    ghost may_leave_new: { Self → List ℕ → Type 0 };

    /// What a crash at this moment may leave of the file that has the name now, were its name on
    /// the disk.
    ghost may_leave_named: { Self → List ℕ → Type 0 };

    /// That a new file which the device has made is there, beside the file.
    ghost has_new_file: { Self → Type 0 };

    /// How often a new file may have been given the name of the file.
    ghost rename_count: { Self → ℕ };

    /// That the file can't be read, or its length can't be told.
    ghost cannot_read: { Self → Type 0 };

    /// The moment, as a number that doesn't fall.
    ghost moment: { Self → ℕ };

    /// What a crash at some moment from that one on might have left, within a call or between two.
    ghost left_since: { Self → ℕ → Left → Type 0 };

    /// How often the device has failed.
    ghost failures: { Self → ℕ };

    /// The length of the file, in bytes. An error changes nothing.
    fn length(&self) -> Result<u64, DeviceError>
        ensures length { tells self.now → IfOk result (λ n. n ≡ length (seen self.now)) }
        ensures failed { tells self.now → OnErr result (cannot_read self.now) };

    /// Fills a buffer with the bytes of the file from a place on. After an error nothing is known
    /// of the buffer, and the file is as before.
    fn read_at(&self, at: u64, buffer: &mut [u8]) -> Result<(), DeviceError>
        requires { tells self.now → at + length buffer.old ≤ length (seen self.now) }
        ensures read { tells self.now → OnOk result
            (buffer.new ≡ take (length buffer.old) (drop at (seen self.now))) }
        ensures failed { tells self.now → OnErr result (cannot_read self.now) };

    /// Writes over bytes that are there. Until the next sync, and after an error, a crash may leave
    /// the old byte or the new one at each place.
    fn write_at(&mut self, at: u64, bytes: &[u8]) -> Result<(), DeviceError>
        requires within { tells self.old → at + length bytes.now ≤ length (seen self.old) }

        // Its length has been synced.
        requires length { tells self.old → AllAsLong (seen self.old) (may_leave self.old) }
        ensures tells { tells self.old ↔ tells self.new }
        ensures written { tells self.old → OnOk result
            (seen self.new ≡ written_over (seen self.old) at bytes.now) }
        ensures shown { tells self.old → shown self.new ≡ shown self.old }
        ensures crash { tells self.old → Follows (MayBeWritten at bytes.now)
            (may_leave self.old) (may_leave self.new) }
        ensures synced { tells self.old → OnOk result (Follows (IsWritten at bytes.now)
            (once_synced self.old) (once_synced self.new)) }
        ensures no_new { tells self.old → has_new_file self.new → has_new_file self.old }
        ensures renames { tells self.old → rename_count self.new ≡ rename_count self.old }
        ensures time { tells self.old → Elapses (moment self.old) (moment self.new)
            (left_since self.old) (left_since self.new)
            (Now (may_leave self.new) (shown self.old)) }
        ensures failed { tells self.old
            → CountsFailure (failures self.old) (failures self.new) result };

    /// Makes the file longer by bytes 0, up to a length. Until the next sync, and after an error, a
    /// crash may leave any length from the old one on up to the new one.
    fn grow(&mut self, len: u64) -> Result<(), DeviceError>
        requires { tells self.old → length (seen self.old) ≤ len }
        ensures tells { tells self.old ↔ tells self.new }
        ensures grown { tells self.old → OnOk result
            (IsLonger len (seen self.old) (seen self.new)) }
        ensures len { tells self.old → OnOk result (length (seen self.new) ≡ len) }
        ensures shown { tells self.old → shown self.new ≡ shown self.old }
        ensures crash { tells self.old → Follows (MayBeLonger len)
            (may_leave self.old) (may_leave self.new) }
        ensures synced { tells self.old → OnOk result (Follows (IsLonger len)
            (once_synced self.old) (once_synced self.new)) }
        ensures no_new { tells self.old → has_new_file self.new → has_new_file self.old }
        ensures renames { tells self.old → rename_count self.new ≡ rename_count self.old }
        ensures time { tells self.old → Elapses (moment self.old) (moment self.new)
            (left_since self.old) (left_since self.new)
            (Now (may_leave self.new) (shown self.old)) }
        ensures failed { tells self.old
            → CountsFailure (failures self.old) (failures self.new) result };

    /// Makes the file shorter: it keeps its first bytes, so many. Until the next sync, and after an
    /// error, a crash may leave any length from the new one on up to the old one.
    fn cut(&mut self, len: u64) -> Result<(), DeviceError>
        requires { tells self.old → len ≤ length (seen self.old) }
        ensures tells { tells self.old ↔ tells self.new }
        ensures cut { tells self.old → OnOk result (seen self.new ≡ take len (seen self.old)) }
        ensures shown { tells self.old → shown self.new ≡ shown self.old }
        ensures crash { tells self.old → Follows (MayBeCut len)
            (may_leave self.old) (may_leave self.new) }
        ensures synced { tells self.old → OnOk result (Follows (IsCut len)
            (once_synced self.old) (once_synced self.new)) }
        ensures no_new { tells self.old → has_new_file self.new → has_new_file self.old }
        ensures renames { tells self.old → rename_count self.new ≡ rename_count self.old }
        ensures time { tells self.old → Elapses (moment self.old) (moment self.new)
            (left_since self.old) (left_since self.new)
            (Now (may_leave self.new) (shown self.old)) }
        ensures failed { tells self.old
            → CountsFailure (failures self.old) (failures self.new) result };

    /// Puts the bytes of the file on the disk, and its length, as far as nothing has failed since
    /// the sync before. It fails where the file has a new name that isn't on the disk
    /// (`rename_new`). After an error what it has done is unknown, and a later sync that succeeds
    /// tells nothing of it.
    fn sync(&mut self) -> Result<(), DeviceError>
        ensures tells { tells self.old ↔ tells self.new }
        ensures durable { tells self.old → OnOk result
            (NothingNew (once_synced self.old) (may_leave self.new)) }
        ensures seen { tells self.old → OnOk result (seen self.new ≡ seen self.old) }
        ensures shown { tells self.old → shown self.new ≡ shown self.old }
        ensures crash { tells self.old → NothingNew (may_leave self.old) (may_leave self.new) }
        ensures no_new { tells self.old → has_new_file self.new → has_new_file self.old }
        ensures renames { tells self.old → rename_count self.new ≡ rename_count self.old }
        ensures time { tells self.old → Elapses (moment self.old) (moment self.new)
            (left_since self.old) (left_since self.new)
            (Now (may_leave self.new) (shown self.old)) }
        ensures failed { tells self.old
            → CountsFailure (failures self.old) (failures self.new) result };

    /// Hands bytes over to the output, from the first on. After an error the first ones may be
    /// handed over.
    fn hand_over(&mut self, bytes: &[u8]) -> Result<(), DeviceError>
        ensures tells { tells self.old ↔ tells self.new }
        ensures shown { tells self.old → OnOk result
            (shown self.new ≡ shown self.old ++ bytes.now) }
        ensures first { tells self.old → ShowsFirst (shown self.old) (shown self.new) bytes.now }
        ensures seen { tells self.old → seen self.new ≡ seen self.old }
        ensures crash { tells self.old → NothingNew (may_leave self.old) (may_leave self.new) }
        ensures no_new { tells self.old → has_new_file self.new → has_new_file self.old }
        ensures renames { tells self.old → rename_count self.new ≡ rename_count self.old }
        ensures time { tells self.old → Elapses (moment self.old) (moment self.new)
            (left_since self.old) (left_since self.new)
            (NowShowing (may_leave self.new) (shown self.old) bytes.now) }
        ensures failed { tells self.old
            → CountsFailure (failures self.old) (failures self.new) result };

    /// Makes an empty new file beside the file, to be filled and then put in its place. Fails where
    /// there is one. Where an error leaves a new file that wasn't there, the device has failed at
    /// least twice. Whatever comes of it, the file stays as it is. After an error of a call on the
    /// new file each further one fails, until it is removed and made again.
    fn create_new(&mut self) -> Result<(), DeviceError>
        ensures tells { tells self.old ↔ tells self.new }
        ensures created { tells self.old → OnOk result (new_file self.new ≡ []) }
        ensures there { tells self.old → OnOk result (has_new_file self.new) }
        ensures seen { tells self.old → seen self.new ≡ seen self.old }
        ensures shown { tells self.old → shown self.new ≡ shown self.old }
        ensures crash { tells self.old → NothingNew (may_leave self.old) (may_leave self.new) }
        ensures no_new { tells self.old → OnErr result
            (LeavesNoNewFile has_new_file failures 1 self.old self.new) }
        ensures renames { tells self.old → rename_count self.new ≡ rename_count self.old }
        ensures time { tells self.old → Elapses (moment self.old) (moment self.new)
            (left_since self.old) (left_since self.new)
            (Now (may_leave self.new) (shown self.old)) }
        ensures failed { tells self.old
            → CountsFailure (failures self.old) (failures self.new) result };

    /// Writes bytes at the end of the new file. After an error the new file may have any bytes.
    /// Whatever comes of it, the file stays as it is.
    fn append_new(&mut self, bytes: &[u8]) -> Result<(), DeviceError>
        ensures tells { tells self.old ↔ tells self.new }
        ensures written { tells self.old → OnOk result
            (new_file self.new ≡ new_file self.old ++ bytes.now) }
        ensures seen { tells self.old → seen self.new ≡ seen self.old }
        ensures shown { tells self.old → shown self.new ≡ shown self.old }
        ensures crash { tells self.old → NothingNew (may_leave self.old) (may_leave self.new) }
        ensures no_new { tells self.old → has_new_file self.new → has_new_file self.old }
        ensures renames { tells self.old → rename_count self.new ≡ rename_count self.old }
        ensures time { tells self.old → Elapses (moment self.old) (moment self.new)
            (left_since self.old) (left_since self.new)
            (Now (may_leave self.new) (shown self.old)) }
        ensures failed { tells self.old
            → CountsFailure (failures self.old) (failures self.new) result };

    /// Makes the new file longer by bytes 0, up to a length. After an error the new file may have
    /// any bytes. Whatever comes of it, the file stays as it is.
    fn grow_new(&mut self, len: u64) -> Result<(), DeviceError>
        requires { tells self.old → length (new_file self.old) ≤ len }
        ensures tells { tells self.old ↔ tells self.new }
        ensures grown { tells self.old → OnOk result (new_file self.new
            ≡ new_file self.old ++ zeros (len - length (new_file self.old))) }
        ensures seen { tells self.old → seen self.new ≡ seen self.old }
        ensures shown { tells self.old → shown self.new ≡ shown self.old }
        ensures crash { tells self.old → NothingNew (may_leave self.old) (may_leave self.new) }
        ensures no_new { tells self.old → has_new_file self.new → has_new_file self.old }
        ensures renames { tells self.old → rename_count self.new ≡ rename_count self.old }
        ensures time { tells self.old → Elapses (moment self.old) (moment self.new)
            (left_since self.old) (left_since self.new)
            (Now (may_leave self.new) (shown self.old)) }
        ensures failed { tells self.old
            → CountsFailure (failures self.old) (failures self.new) result };

    /// Puts all bytes of the new file on the disk, and its length: after `Ok` a crash leaves what
    /// it has. After an error a crash may leave any bytes of it. Whatever comes of it, the file
    /// stays as it is.
    fn sync_new(&mut self) -> Result<(), DeviceError>
        ensures tells { tells self.old ↔ tells self.new }
        ensures new_file { tells self.old → OnOk result
            (new_file self.new ≡ new_file self.old) }
        ensures durable { tells self.old → OnOk result
            (Only (new_file self.old) (may_leave_new self.new)) }
        ensures seen { tells self.old → seen self.new ≡ seen self.old }
        ensures shown { tells self.old → shown self.new ≡ shown self.old }
        ensures crash { tells self.old → NothingNew (may_leave self.old) (may_leave self.new) }
        ensures no_new { tells self.old → has_new_file self.new → has_new_file self.old }
        ensures renames { tells self.old → rename_count self.new ≡ rename_count self.old }
        ensures time { tells self.old → Elapses (moment self.old) (moment self.new)
            (left_since self.old) (left_since self.new)
            (Now (may_leave self.new) (shown self.old)) }
        ensures failed { tells self.old
            → CountsFailure (failures self.old) (failures self.new) result };

    /// Gives the new file the name of the file, in one step: it is the file that is read and
    /// written from then on, and the old one is let go. Until its folder is synced a crash leaves
    /// the old file or the new one, and of the new one what it may leave of its bytes. After `Kept`
    /// the file is as it was: it surely has its name, or another file had it already. After `Lost`
    /// it has its name, or the new one has it: nobody knows which.
    fn rename_new(&mut self) -> Result<(), RenewError>
        ensures tells { tells self.old ↔ tells self.new }
        ensures named { tells self.old → OnOk result (seen self.new ≡ new_file self.old) }
        ensures either { tells self.old → (c : List ℕ) → may_leave self.new c
            → may_leave self.old c ⊎ may_leave_new self.old c }
        ensures once_named { tells self.old → OnOk result
            (NothingNew (may_leave_new self.old) (may_leave_named self.new)) }
        ensures seen { tells self.old → IsErrOf result RenewError.Kept
            → seen self.new ≡ seen self.old }
        ensures crash { tells self.old → IsErrOf result RenewError.Kept
            → NothingNew (may_leave self.old) (may_leave self.new) }
        ensures shown { tells self.old → shown self.new ≡ shown self.old }
        ensures no_new { tells self.old → OnOk result (has_new_file self.new → ⊥) }
        ensures no_new_kept { tells self.old → IsErrOf result RenewError.Kept
            → has_new_file self.new → has_new_file self.old }

        // After `Lost` a new file is there only where the device has failed at least twice.
        ensures no_new_lost { tells self.old → IsErrOf result RenewError.Lost
            → has_new_file self.new → failures self.old + 1 < failures self.new }

        ensures renames { tells self.old
            → OnOk result (rename_count self.old < rename_count self.new) }
        ensures renames_kept { tells self.old → IsErrOf result RenewError.Kept
            → rename_count self.new ≡ rename_count self.old }
        ensures renames_lost { tells self.old → IsErrOf result RenewError.Lost
            → rename_count self.old < rename_count self.new }
        ensures time { tells self.old → Elapses (moment self.old) (moment self.new)
            (left_since self.old) (left_since self.new)
            (Now (may_leave self.new) (shown self.old)) }
        ensures failed { tells self.old
            → CountsFailure (failures self.old) (failures self.new) result };

    /// Puts the name of the file on the disk: after `Ok` a crash leaves what it may leave of the
    /// file that has the name. After an error it leaves what it might have left before.
    fn sync_folder(&mut self) -> Result<(), DeviceError>
        ensures tells { tells self.old ↔ tells self.new }
        ensures durable { tells self.old → OnOk result
            (NothingNew (may_leave_named self.old) (may_leave self.new)) }
        ensures seen { tells self.old → seen self.new ≡ seen self.old }
        ensures shown { tells self.old → shown self.new ≡ shown self.old }
        ensures crash { tells self.old → NothingNew (may_leave self.old) (may_leave self.new) }
        ensures no_new { tells self.old → has_new_file self.new → has_new_file self.old }
        ensures renames { tells self.old → rename_count self.new ≡ rename_count self.old }
        ensures time { tells self.old → Elapses (moment self.old) (moment self.new)
            (left_since self.old) (left_since self.new)
            (Now (may_leave self.new) (shown self.old)) }
        ensures failed { tells self.old
            → CountsFailure (failures self.old) (failures self.new) result };

    /// Removes the new file, if there is one. It is still there only where the device has failed.
    /// The file stays as it is.
    fn remove_new(&mut self)
        ensures tells { tells self.old ↔ tells self.new }
        ensures seen { tells self.old → seen self.new ≡ seen self.old }
        ensures shown { tells self.old → shown self.new ≡ shown self.old }
        ensures crash { tells self.old → NothingNew (may_leave self.old) (may_leave self.new) }
        ensures no_new { tells self.old → has_new_file self.new
            → failures self.old < failures self.new }
        ensures renames { tells self.old → rename_count self.new ≡ rename_count self.old }
        ensures read { tells self.old → cannot_read self.old → cannot_read self.new }
        ensures time { tells self.old → Elapses (moment self.old) (moment self.new)
            (left_since self.old) (left_since self.new)
            (Now (may_leave self.new) (shown self.old)) }
        ensures failures { tells self.old → failures self.old ≤ failures self.new };

    /// This moment is one of those since an earlier one.
    ghost counts_now: { (device : Self) (t : ℕ) (c : Left) → t ≤ moment device
        → Now (may_leave device) (shown device) c → left_since device t c };

    /// A sync leaves nothing that a crash wouldn't leave without it.
    ghost synced_is_left: { (device : Self) → tells device
        → NothingNew (may_leave device) (once_synced device) };

    /// What is read is one of the files that a crash may leave. So is what a process leaves that is
    /// killed between two calls of the device. One that is killed within a call may leave a part of
    /// what the call does.
    ghost seen_is_left: { (device : Self) → tells device
        → ∥ may_leave device (seen device) ∥₁ };

    /// Since this moment there is no other.
    ghost only_now: { (device : Self) (c : Left) → left_since device (moment device) c
        → Now (may_leave device) (shown device) c };
}
