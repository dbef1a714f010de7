//! A log whose lines are still to be read.
ghost use Rattle.std.specs.Prelude.{◌≡◌, ◌⊎◌, ◌↔◌, ◌+◌, ◌<◌, ◌≤◌, ◌^◌, ◌++◌, [], true, false, length, take, IfOk, IfErr, OnErr};
ghost use Rattle.tt_log.specs.Lines.{text, logged, joined, whole_lines_of, end_behind};
ghost use Rattle.tt_log.specs.Device.{LeavesOnly, LeavesNoNewFile};

use crate::log::MAX_LEN;
use crate::rest::piece_len;
use crate::starting::{add_room, make_anew};
use crate::{Device, DeviceError, Log, LogError};

/// A log as its last writer, or a crash, has left it: its lines are read, piece by piece, before
/// further ones are written.
#[derive(Drop)]
pub struct UnreadLog<D> {
    device: D,
    /// The length of the file.
    len: u64,
    /// How many bytes have been read.
    at: u64,
    /// How many of these the lines have that end in them.
    end: u64,
    /// Whether no further byte is one of a line.
    is_at_end: bool,
    ghost within: { at ≤ len },
    ghost few: { len < 2 ^ 60 },
    ghost ended: { end ≤ at },
}

impl<D: Device> UnreadLog<D> {
    ghost use Rattle.tt_log.specs.Log.{IsSettled, IsAsLeft, KeepsOnceSynced};
    ghost use Rattle.tt_log.specs.Reading.{unread, IsReading};

    /// Opens a log, whose lines are to be read, and leaves its file as it is. It is `Read` if the
    /// length can't be told, or is 2^60 bytes or more; that gives the device back.
    pub fn open(device: D) -> Result<UnreadLog<D>, (LogError, D)>
        ensures device { IfOk result (λ log. log.device ≡ device) }
        ensures reading { IfOk result (λ log. D.tells device → IsReading D.seen log) }
        ensures unread { IfOk result (λ log. D.tells device
            → unread D.seen log ≡ text (D.seen device)) }
        ensures err { IfErr result (λ e. (e.0 ≡ LogError.Read) × (e.1 ≡ device)) }
        ensures read { OnErr result (D.tells device
            → D.cannot_read device ⊎ (2 ^ 60 ≤ length (D.seen device))) }
    {
        match device.length() {
            Ok(len) if len < MAX_LEN => Ok(UnreadLog {
                device,
                len,
                at: 0,
                end: 0,
                is_at_end: false,
            }),
            _ => Err((LogError::Read, device)),
        }
    }

    /// What the log is kept on.
    pub fn device(&self) -> &D
        ensures { result.now ≡ self.now.device }
    {
        &self.device
    }

    /// Gives back what the log is kept on.
    pub fn into_device(self) -> D
        ensures { result ≡ self.device }
    {
        self.device
    }

    /// Puts the next bytes of the lines at the front of a buffer, which isn't empty. Returns how
    /// many: none behind the last one. The bytes behind the last line feed are told, too, and count
    /// for nothing. After an error the log is as before.
    pub fn read(&mut self, buffer: &mut [u8]) -> Result<usize, DeviceError>
        requires reading { D.tells self.old.device → IsReading D.seen self.old }
        ensures reading { D.tells self.old.device → IsReading D.seen self.new }
        ensures device { self.new.device ≡ self.old.device }
        ensures within { IfOk result (λ n. n ≤ length buffer.new) }
        ensures bytes { D.tells self.old.device → IfOk result (λ n.
            take n buffer.new ++ unread D.seen self.new ≡ unread D.seen self.old) }
        ensures end { D.tells self.old.device → IfOk result (λ n. n ≡ 0
            → 0 < length buffer.new → unread D.seen self.new ≡ []) }
        ensures stays { OnErr result (self.new ≡ self.old) }
        ensures failed { D.tells self.old.device
            → OnErr result (D.cannot_read self.old.device) }
    {
        let count = self.next_count(buffer.len());
        if count == 0 {
            return Ok(0);
        }
        let piece = &mut buffer[..count];
        self.device.read_at(self.at, piece)?;
        Ok(self.take_piece(piece))
    }

    /// How many bytes are read next into a buffer of this length.
    fn next_count(&self, most: usize) -> usize
        ensures most { result ≤ most }
        ensures within { self.now.at + result ≤ self.now.len }
        ensures none { result ≡ 0 → 0 < most
            → (self.now.is_at_end ≡ true) ⊎ (self.now.at ≡ self.now.len) }
        ensures some { 0 < result → self.now.is_at_end ≡ false }
    {
        if self.is_at_end {
            return 0;
        }
        piece_len(most, self.len - self.at)
    }

    /// Takes the next bytes of the file. Returns how many of them are bytes of lines.
    fn take_piece(&mut self, piece: &[u8]) -> usize
        requires within { self.old.at + length piece.now ≤ self.old.len }
        ensures taken { result ≡ length (text piece.now) }
        ensures device { self.new.device ≡ self.old.device }
        ensures len { self.new.len ≡ self.old.len }
        ensures at { self.new.at ≡ self.old.at + result }
        ensures end { self.new.end
            ≡ end_behind self.old.end self.old.at (whole_lines_of (text piece.now)) }
        ensures at_end { self.new.is_at_end ≡ true → result < length piece.now }
        ensures going_on { self.new.is_at_end ≡ false → result ≡ length piece.now }
    {
        let Extent { taken, end } = extent_of(piece);
        if end > 0 {
            self.end = self.at + end as u64;
        }
        self.at += taken as u64;
        self.is_at_end = taken < piece.len();
        taken
    }

    /// Ends the reading: makes the log that goes on with the lines that were read, all of them on
    /// the disk. A file that is its lines and nothing else was ended well: it is made longer by
    /// room for further lines, and synced. Any other file isn't trusted, since a part of it may
    /// never have reached the disk: a new file with the same lines takes its place.
    ///
    /// It is `Read` if the lines can't be read once more, with the file as it was, and `Write` if
    /// the file can't be made longer or made anew; either gives the device back, and a crash leaves
    /// what it might have left before, or the same lines. The buffer is used on the way.
    pub fn settle(self, buffer: &mut [u8]) -> Result<Log<D>, (LogError, D)>
        requires some { 0 < length buffer.old }
        requires reading { D.tells self.device → IsReading D.seen self }
        requires read { D.tells self.device → unread D.seen self ≡ [] }
        requires left { D.tells self.device
            → IsAsLeft (D.seen self.device) (D.once_synced self.device) }
        ensures tells { IfOk result (λ log. D.tells self.device ↔ D.tells log.device) }
        ensures settled { IfOk result (λ log. D.tells self.device
            → IsSettled D.seen D.may_leave log) }
        ensures logged { IfOk result (λ log. D.tells self.device
            → logged (D.seen log.device) ≡ logged (D.seen self.device)) }
        ensures shown { IfOk result (λ log. D.tells self.device
            → D.shown log.device ≡ D.shown self.device) }

        // A crash at any moment leaves lines that it might have left before, or the same lines.
        ensures any_moment { IfOk result (λ log. D.tells self.device
            → LeavesOnly D.moment D.left_since self.device log.device
            (KeepsOnceSynced (D.may_leave self.device) (logged (D.seen self.device))
            (D.shown self.device))) }
        ensures any_moment_err { IfErr result (λ e. D.tells self.device
            → LeavesOnly D.moment D.left_since self.device e.1
            (KeepsOnceSynced (D.may_leave self.device) (logged (D.seen self.device))
            (D.shown self.device))) }
        ensures shown_err { IfErr result (λ e. D.tells self.device
            → D.shown e.1 ≡ D.shown self.device) }
        ensures seen_err { IfErr result (λ e. D.tells self.device → e.0 ≡ LogError.Read
            → D.seen e.1 ≡ D.seen self.device) }

        // Where an error leaves a new file that wasn't there, the device has failed: at least once
        // where it is `Read`, and at least twice where it is `Write`. After `Ok` none is there that
        // wasn't.
        ensures no_new { IfOk result (λ log. D.tells self.device
            → D.has_new_file log.device → D.has_new_file self.device) }
        ensures no_new_read { IfErr result (λ e. D.tells self.device → e.0 ≡ LogError.Read
            → LeavesNoNewFile D.has_new_file D.failures 0 self.device e.1) }
        ensures no_new_write { IfErr result (λ e. D.tells self.device → e.0 ≡ LogError.Write
            → LeavesNoNewFile D.has_new_file D.failures 1 self.device e.1) }

        ensures failures { IfOk result (λ log. D.tells self.device
            → D.failures self.device ≤ D.failures log.device) }
        ensures err { IfErr result (λ e. (e.0 ≡ LogError.Read) ⊎ (e.0 ≡ LogError.Write)) }
        ensures read { IfErr result (λ e. D.tells self.device → e.0 ≡ LogError.Read
            → D.cannot_read e.1) }
        ensures write { IfErr result (λ e. D.tells self.device → e.0 ≡ LogError.Write
            → D.failures self.device < D.failures e.1) }
    {
        let UnreadLog {
            device,
            len,
            at: _,
            end,
            is_at_end: _,
        } = self;
        let mut device = device;
        let settled = if end == len {
            add_room(&mut device, end)
        } else {
            make_anew(&mut device, end, buffer)
        };
        match settled {
            Ok(len) => Ok(Log::new(device, end, len)),
            Err(error) => Err((error, device)),
        }
    }
}

/// How many of some bytes stand before the first 0, and how many of these the lines have that end
/// in them, with their line feeds.
#[derive(Clone, Copy)]
pub(crate) struct Extent {
    pub(crate) taken: usize,
    pub(crate) end: usize,
}

/// Looks for lines among some bytes.
pub(crate) fn extent_of(bytes: &[u8]) -> Extent
    ensures taken { result.taken ≡ length (text bytes.now) }
    ensures end { result.end ≡ length (joined (logged bytes.now)) }
    ensures within { result.taken ≤ length bytes.now }
    ensures end_within { result.end ≤ result.taken }
{
    let mut end = 0;
    for (i, byte) in bytes.iter().enumerate() {
        if *byte == 0 {
            return Extent { taken: i, end };
        }
        if *byte == b'\n' {
            end = i + 1;
        }
    }
    Extent {
        taken: bytes.len(),
        end,
    }
}
