//! A log that is written.
ghost use Rattle.std.specs.Prelude.{◌≡◌, ◌≢◌, ◌↔◌, ◌⊎◌, ◌+◌, ◌++◌, ◌<◌, ◌≤◌, ◌^◌, [], List, ℕ, length, IsOk, IfOk, IfErr, OnOk, OnErr, IsErrOf};
ghost use Rattle.tt_log.specs.Lines.{logged, joined, IsJoined};
ghost use Rattle.tt_log.specs.Device.{Only, LeavesOnly, ShowsFirst, LeavesNoNewFile};

use crate::closing::end_file;
use crate::placing::{ROOM_UNIT, put_in_place};
use crate::{Device, DeviceError, Lines, LogError, RenewError};

/// A log is shorter than this.
pub(crate) const MAX_LEN: u64 = 1 << 60;

/// A log in the file of a device: lines that are on the disk, then bytes 0, at least one.
#[derive(Drop)]
pub struct Log<D> {
    device: D,
    /// How many bytes the lines have, with a line feed behind each.
    end: u64,
    /// The length of the file.
    len: u64,
    /// How many bytes were written into the new file, if one is being made.
    new_end: u64,
    ghost within: { end < len },
    ghost new_within: { new_end < 2 ^ 60 },
}

impl<D: Device> Log<D> {
    ghost use Rattle.tt_log.specs.Log.{IsSettled, IsMaking, length_with_room, Keeps, KeepsFirst, KeepsAnswered, KeepsEither, LeavesUnclean};

    /// A log whose lines end here in a file of this length, with bytes 0 behind them.
    pub(crate) fn new(device: D, end: u64, len: u64) -> Log<D>
        requires { end < len }
        ensures device { result.device ≡ device }
        ensures end { result.end ≡ end }
        ensures len { result.len ≡ len }
    {
        Log {
            device,
            end,
            len,
            new_end: 0,
        }
    }

    /// What the log is kept on.
    pub fn device(&self) -> &D
        ensures { result.now ≡ self.now.device }
    {
        &self.device
    }

    /// Ends the log: cuts the file behind its last line, and syncs that. After `Ok` the file is its
    /// lines and nothing else, and a crash leaves it so: the next process on it knows by this that
    /// all was written well. After an error a crash leaves the same lines. Gives back what the log
    /// is kept on.
    pub fn close(self) -> Result<D, (DeviceError, D)>
        requires { D.tells self.device → IsSettled D.seen D.may_leave self }
        ensures tells { IfOk result (λ device. D.tells self.device ↔ D.tells device) }
        ensures lines { IfOk result (λ device. D.tells self.device
            → IsJoined (D.seen device)) }
        ensures logged { IfOk result (λ device. D.tells self.device
            → logged (D.seen device) ≡ logged (D.seen self.device)) }
        ensures durable { IfOk result (λ device. D.tells self.device
            → Only (D.seen device) (D.may_leave device)) }
        ensures shown { IfOk result (λ device. D.tells self.device
            → D.shown device ≡ D.shown self.device) }
        ensures shown_err { IfErr result (λ e. D.tells self.device
            → D.shown e.1 ≡ D.shown self.device) }

        // A crash at any moment of the call leaves the lines that the log has.
        ensures any_moment { IfOk result (λ device. D.tells self.device
            → LeavesOnly D.moment D.left_since self.device device
            (Keeps (logged (D.seen self.device)) (D.shown self.device))) }
        ensures any_moment_err { IfErr result (λ e. D.tells self.device
            → LeavesOnly D.moment D.left_since self.device e.1
            (Keeps (logged (D.seen self.device)) (D.shown self.device))) }

        // It makes no new file beside the log's own.
        ensures no_new { IfOk result (λ device. D.tells self.device
            → D.has_new_file device → D.has_new_file self.device) }
        ensures no_new_err { IfErr result (λ e. D.tells self.device
            → D.has_new_file e.1 → D.has_new_file self.device) }

        ensures failures { IfOk result (λ device. D.tells self.device
            → D.failures self.device ≤ D.failures device) }
        ensures failed { IfErr result (λ e. D.tells self.device
            → D.failures self.device < D.failures e.1) }
    {
        let mut device = self.device;
        match end_file(&mut device, self.end) {
            Ok(()) => Ok(device),
            Err(error) => Err((error, device)),
        }
    }

    /// Gives back what the log is kept on.
    pub fn into_device(self) -> D
        ensures { result ≡ self.device }
    {
        self.device
    }

    /// Writes lines behind those that are there, and syncs them: after `Ok` a crash leaves them
    /// all. Where there are none, nothing is done. After an error some of the first ones may be
    /// there, or none. A file without room for them is made longer at once by room for many.
    pub fn append(&mut self, lines: &Lines) -> Result<(), LogError>
        requires { D.tells self.old.device → IsSettled D.seen D.may_leave self.old }
        ensures tells { D.tells self.old.device ↔ D.tells self.new.device }
        ensures settled { D.tells self.old.device → OnOk result
            (IsSettled D.seen D.may_leave self.new) }
        ensures logged { D.tells self.old.device → OnOk result
            (logged (D.seen self.new.device) ≡ logged (D.seen self.old.device) ++ lines.now) }
        ensures shown { D.tells self.old.device
            → D.shown self.new.device ≡ D.shown self.old.device }

        // A crash at any moment of the call leaves the lines that were there, and the first few of
        // the new ones.
        ensures any_moment { D.tells self.old.device → LeavesOnly D.moment D.left_since
            self.old.device self.new.device
            (KeepsFirst (logged (D.seen self.old.device)) lines.now (D.shown self.old.device)) }

        // A crash at any moment of the call leaves a file that doesn't look ended. So does a kill
        // between two calls of the device; one within a call may leave a part of what it does.
        ensures unclean { D.tells self.old.device → LeavesOnly D.moment D.left_since
            self.old.device self.new.device LeavesUnclean }

        // It makes no new file beside the log's own.
        ensures no_new { D.tells self.old.device
            → D.has_new_file self.new.device → D.has_new_file self.old.device }

        // It doesn't give up by itself.
        ensures failures { D.tells self.old.device
            → D.failures self.old.device ≤ D.failures self.new.device }
        ensures write { D.tells self.old.device → IsErrOf result LogError.Write
            → D.failures self.old.device < D.failures self.new.device }
        ensures full { IsErrOf result LogError.Full
            → 2 ^ 60 ≤ self.old.end + length (joined lines.now) }
        ensures no_read { IsErrOf result LogError.Read → ⊥ }
        ensures no_hand_over { IsErrOf result LogError.HandOver → ⊥ }
        ensures nothing { lines.now ≡ [] → IsOk result }
        ensures room { OnOk result ((self.new.len ≡ self.old.len)
            ⊎ (self.new.len ≡ length_with_room self.new.end)) }
    {
        let bytes = lines.as_bytes();
        if bytes.is_empty() {
            return Ok(());
        }
        let end = self.make_room(bytes.len() as u64)?;
        self.device.write_at(self.end, bytes)?;
        self.device.sync()?;
        self.end = end;
        Ok(())
    }

    /// Appends lines, and only then hands the answers over. After `HandOver` all lines are logged,
    /// and the first bytes of the answers may be handed over; after any other error none is.
    pub fn hand_over(&mut self, lines: &Lines, answers: &[u8]) -> Result<(), LogError>
        requires { D.tells self.old.device → IsSettled D.seen D.may_leave self.old }
        ensures tells { D.tells self.old.device ↔ D.tells self.new.device }
        ensures settled { D.tells self.old.device → OnOk result
            (IsSettled D.seen D.may_leave self.new) }
        ensures logged { D.tells self.old.device → OnOk result
            (logged (D.seen self.new.device) ≡ logged (D.seen self.old.device) ++ lines.now) }
        ensures shown { D.tells self.old.device → OnOk result
            (D.shown self.new.device ≡ D.shown self.old.device ++ answers.now) }

        // Where a crash finds answers handed over, or the first bytes of them, it leaves all lines.
        ensures any_moment { D.tells self.old.device → LeavesOnly D.moment D.left_since
            self.old.device self.new.device
            (KeepsAnswered (logged (D.seen self.old.device)) lines.now
            (D.shown self.old.device) answers.now) }

        // A crash at any moment of the call leaves a file that doesn't look ended. So does a kill
        // between two calls of the device; one within a call may leave a part of what it does.
        ensures unclean { D.tells self.old.device → LeavesOnly D.moment D.left_since
            self.old.device self.new.device LeavesUnclean }

        ensures first { D.tells self.old.device → ShowsFirst
            (D.shown self.old.device) (D.shown self.new.device) answers.now }

        // Where the file failed, nothing was handed over; where the output failed, all is logged.
        ensures unshown { D.tells self.old.device → IfErr result (λ e. e ≢ LogError.HandOver
            → D.shown self.new.device ≡ D.shown self.old.device) }
        ensures all_logged { D.tells self.old.device → IsErrOf result LogError.HandOver
            → logged (D.seen self.new.device) ≡ logged (D.seen self.old.device) ++ lines.now }
        ensures no_new { D.tells self.old.device
            → D.has_new_file self.new.device → D.has_new_file self.old.device }
        ensures failures { D.tells self.old.device
            → D.failures self.old.device ≤ D.failures self.new.device }
        ensures write { D.tells self.old.device → IsErrOf result LogError.Write
            → D.failures self.old.device < D.failures self.new.device }
        ensures hand_over { D.tells self.old.device → IsErrOf result LogError.HandOver
            → D.failures self.old.device < D.failures self.new.device }
        ensures full { IsErrOf result LogError.Full
            → 2 ^ 60 ≤ self.old.end + length (joined lines.now) }
        ensures no_read { IsErrOf result LogError.Read → ⊥ }

        // Where there are no lines, only the output can fail.
        ensures alone { lines.now ≡ [] → IfErr result (λ e. e ≡ LogError.HandOver) }
    {
        self.append(lines)?;
        let Ok(()) = self.device.hand_over(answers) else {
            return Err(LogError::HandOver);
        };
        Ok(())
    }

    /// Begins to make the log anew: makes an empty new file beside that of the log, which stays as
    /// it is. Lines are then pushed into the new file, and it is taken or removed, before the log
    /// is used further. After an error no lines are to be pushed.
    pub fn begin_new(&mut self) -> Result<(), DeviceError>
        requires { D.tells self.old.device → IsSettled D.seen D.may_leave self.old }
        ensures tells { D.tells self.old.device ↔ D.tells self.new.device }
        ensures settled { D.tells self.old.device → IsSettled D.seen D.may_leave self.new }
        ensures empty { D.tells self.old.device → OnOk result
            (D.new_file self.new.device ≡ []) }
        ensures making { D.tells self.old.device → OnOk result
            (IsMaking D.new_file self.new) }
        ensures seen { D.tells self.old.device
            → D.seen self.new.device ≡ D.seen self.old.device }
        ensures shown { D.tells self.old.device
            → D.shown self.new.device ≡ D.shown self.old.device }

        // A crash at any moment of the call leaves the lines that the log has.
        ensures any_moment { D.tells self.old.device → LeavesOnly D.moment D.left_since
            self.old.device self.new.device
            (Keeps (logged (D.seen self.old.device)) (D.shown self.old.device)) }

        // Where an error leaves a new file that wasn't there, the device has failed at least twice.
        ensures no_new { D.tells self.old.device → OnErr result
            (LeavesNoNewFile D.has_new_file D.failures 1 self.old.device self.new.device) }

        ensures failures { D.tells self.old.device
            → D.failures self.old.device ≤ D.failures self.new.device }
        ensures failed { D.tells self.old.device → OnErr result
            (D.failures self.old.device < D.failures self.new.device) }
    {
        self.device.create_new()?;
        self.new_end = 0;
        Ok(())
    }

    /// Writes lines into the new file, behind those that it has. It is `Write` if the new file
    /// can't be written, and `Full` if it would be longer than 2^60 bytes. The log stays as it is,
    /// and after an error the new file is to be removed.
    pub fn push_new(&mut self, lines: &Lines) -> Result<(), LogError>
        requires settled { D.tells self.old.device → IsSettled D.seen D.may_leave self.old }
        requires making { D.tells self.old.device → IsMaking D.new_file self.old }
        ensures tells { D.tells self.old.device ↔ D.tells self.new.device }
        ensures settled { D.tells self.old.device → IsSettled D.seen D.may_leave self.new }
        ensures pushed { D.tells self.old.device → OnOk result (D.new_file self.new.device
            ≡ D.new_file self.old.device ++ joined lines.now) }
        ensures making { D.tells self.old.device → OnOk result
            (IsMaking D.new_file self.new) }
        ensures seen { D.tells self.old.device
            → D.seen self.new.device ≡ D.seen self.old.device }
        ensures shown { D.tells self.old.device
            → D.shown self.new.device ≡ D.shown self.old.device }

        // A crash at any moment of the call leaves the lines that the log has.
        ensures any_moment { D.tells self.old.device → LeavesOnly D.moment D.left_since
            self.old.device self.new.device
            (Keeps (logged (D.seen self.old.device)) (D.shown self.old.device)) }

        ensures no_new { D.tells self.old.device
            → D.has_new_file self.new.device → D.has_new_file self.old.device }
        ensures failures { D.tells self.old.device
            → D.failures self.old.device ≤ D.failures self.new.device }
        ensures write { D.tells self.old.device → IsErrOf result LogError.Write
            → D.failures self.old.device < D.failures self.new.device }
        ensures full { IsErrOf result LogError.Full
            → 2 ^ 60 ≤ self.old.new_end + length (joined lines.now) }
        ensures no_read { IsErrOf result LogError.Read → ⊥ }
        ensures no_hand_over { IsErrOf result LogError.HandOver → ⊥ }
    {
        let bytes = lines.as_bytes();
        let count = bytes.len() as u64;
        if count >= MAX_LEN - self.new_end {
            return Err(LogError::Full);
        }
        self.device.append_new(bytes)?;
        self.new_end += count;
        Ok(())
    }

    /// Puts the new file in the place of the log's own, once its lines are on the disk, and goes on
    /// there: after `Ok` a crash leaves the new lines. After `Kept` the log goes on as it was, and
    /// the new file is to be removed; after `Lost` the log is not to be used any more.
    pub fn take_new(&mut self) -> Result<(), RenewError>
        requires settled { D.tells self.old.device → IsSettled D.seen D.may_leave self.old }
        requires making { D.tells self.old.device → IsMaking D.new_file self.old }
        requires lines { D.tells self.old.device → IsJoined (D.new_file self.old.device) }
        ensures tells { D.tells self.old.device ↔ D.tells self.new.device }

        // A crash leaves the new file alone, so its name is on the disk.
        ensures settled { D.tells self.old.device → OnOk result
            (IsSettled D.seen D.may_leave self.new) }

        ensures logged { D.tells self.old.device → OnOk result
            (logged (D.seen self.new.device) ≡ logged (D.new_file self.old.device)) }
        ensures shown { D.tells self.old.device
            → D.shown self.new.device ≡ D.shown self.old.device }

        ensures room { OnOk result (self.new.len ≡ length_with_room self.new.end) }

        // A crash at any moment of the call leaves the old lines or the new ones, never a mix.
        ensures any_moment { D.tells self.old.device → LeavesOnly D.moment D.left_since
            self.old.device self.new.device (KeepsEither (logged (D.seen self.old.device))
            (logged (D.new_file self.old.device)) (D.shown self.old.device)) }

        // Neither does it leave a file that looks ended, nor does a kill between two calls of the
        // device.
        ensures unclean { D.tells self.old.device → LeavesOnly D.moment D.left_since
            self.old.device self.new.device LeavesUnclean }

        // Where the old log is kept, a crash leaves its lines.
        ensures kept_settled { D.tells self.old.device → IsErrOf result RenewError.Kept
            → IsSettled D.seen D.may_leave self.new }
        ensures kept_seen { D.tells self.old.device → IsErrOf result RenewError.Kept
            → D.seen self.new.device ≡ D.seen self.old.device }
        ensures kept_any_moment { D.tells self.old.device → IsErrOf result RenewError.Kept
            → LeavesOnly D.moment D.left_since self.old.device self.new.device
            (Keeps (logged (D.seen self.old.device)) (D.shown self.old.device)) }

        // After `Ok` no new file is there. After `Kept` none is there that wasn't. After `Lost` one
        // is there only where the device has failed at least twice.
        ensures no_new { D.tells self.old.device
            → OnOk result (D.has_new_file self.new.device → ⊥) }
        ensures no_new_kept { D.tells self.old.device → IsErrOf result RenewError.Kept
            → D.has_new_file self.new.device → D.has_new_file self.old.device }
        ensures no_new_lost { D.tells self.old.device → IsErrOf result RenewError.Lost
            → D.has_new_file self.new.device
            → D.failures self.old.device + 1 < D.failures self.new.device }

        // It is `Lost` only where the new file may have got the name.
        ensures renames_kept { D.tells self.old.device → IsErrOf result RenewError.Kept
            → D.rename_count self.new.device ≡ D.rename_count self.old.device }
        ensures renames_lost { D.tells self.old.device → IsErrOf result RenewError.Lost
            → D.rename_count self.old.device < D.rename_count self.new.device }

        // It doesn't give up by itself.
        ensures failures { D.tells self.old.device
            → D.failures self.old.device ≤ D.failures self.new.device }
        ensures failed { D.tells self.old.device → OnErr result
            (D.failures self.old.device < D.failures self.new.device) }
    {
        let len = put_in_place(&mut self.device, self.new_end)?;
        self.end = self.new_end;
        self.len = len;
        Ok(())
    }

    /// Gives up the new file, and removes it where that is possible. The log stays as it is.
    pub fn remove_new(&mut self)
        requires { D.tells self.old.device → IsSettled D.seen D.may_leave self.old }
        ensures tells { D.tells self.old.device ↔ D.tells self.new.device }
        ensures settled { D.tells self.old.device → IsSettled D.seen D.may_leave self.new }
        ensures seen { D.tells self.old.device
            → D.seen self.new.device ≡ D.seen self.old.device }
        ensures shown { D.tells self.old.device
            → D.shown self.new.device ≡ D.shown self.old.device }

        // A crash at any moment of the call leaves the lines that the log has.
        ensures any_moment { D.tells self.old.device → LeavesOnly D.moment D.left_since
            self.old.device self.new.device
            (Keeps (logged (D.seen self.old.device)) (D.shown self.old.device)) }

        // A new file is still there only where the device has failed.
        ensures no_new { D.tells self.old.device → D.has_new_file self.new.device
            → D.failures self.old.device < D.failures self.new.device }

        ensures failures { D.tells self.old.device
            → D.failures self.old.device ≤ D.failures self.new.device }
    {
        self.device.remove_new();
    }

    /// Makes the file longer where it has no room for this many further bytes and a byte 0 behind
    /// them. Returns where they are to end.
    fn make_room(&mut self, count: u64) -> Result<u64, LogError>
        requires { D.tells self.old.device → IsSettled D.seen D.may_leave self.old }
        ensures end { IfOk result (λ end. end ≡ self.new.end + count) }
        ensures within { OnOk result (self.new.end + count < self.new.len) }
        ensures room { OnOk result ((self.new.len ≡ self.old.len)
            ⊎ (self.new.len ≡ length_with_room (self.new.end + count))) }
        ensures tells { D.tells self.old.device ↔ D.tells self.new.device }
        ensures settled { D.tells self.old.device → OnOk result
            (IsSettled D.seen D.may_leave self.new) }
        ensures logged { D.tells self.old.device → OnOk result
            (logged (D.seen self.new.device) ≡ logged (D.seen self.old.device)) }
        ensures shown { D.tells self.old.device
            → D.shown self.new.device ≡ D.shown self.old.device }
        ensures any_moment { D.tells self.old.device → LeavesOnly D.moment D.left_since
            self.old.device self.new.device
            (Keeps (logged (D.seen self.old.device)) (D.shown self.old.device)) }
        ensures unclean { D.tells self.old.device → LeavesOnly D.moment D.left_since
            self.old.device self.new.device LeavesUnclean }
        ensures no_new { D.tells self.old.device
            → D.has_new_file self.new.device → D.has_new_file self.old.device }
        ensures failures { D.tells self.old.device
            → D.failures self.old.device ≤ D.failures self.new.device }
        ensures write { D.tells self.old.device → IsErrOf result LogError.Write
            → D.failures self.old.device < D.failures self.new.device }
        ensures full { IsErrOf result LogError.Full → 2 ^ 60 ≤ self.old.end + count }
        ensures no_read { IsErrOf result LogError.Read → ⊥ }
        ensures no_hand_over { IsErrOf result LogError.HandOver → ⊥ }
    {
        if count < self.len - self.end {
            return Ok(self.end + count);
        }
        if self.end >= MAX_LEN || count >= MAX_LEN - self.end {
            return Err(LogError::Full);
        }
        let end = self.end + count;
        let len = (end + 1).next_multiple_of(ROOM_UNIT);
        self.device.grow(len)?;
        self.device.sync()?;
        self.len = len;
        Ok(end)
    }
}
