//! How a log is made anew, with the lines of a session that has forgotten what lies before a time.
ghost use Rattle.std.specs.Prelude.{◌≡◌, ◌↔◌, ◌∷◌, ◌+◌, ◌<◌, ◌≤◌, [], All, length, take, drop, IsTrue, IfErr, IsErrOf, OnOk};
ghost use Rattle.tt_db.specs.Limits.{usual_limits};
ghost use Rattle.tt_log.specs.Lines.{logged, IsJoined};
ghost use Rattle.tt_log.specs.Device.{LeavesNoNewFile};
ghost use Rattle.tt_log.specs.Log.{IsSettled, IsMaking};
ghost use Rattle.tt_session.specs.LogLines.{line_of_ground, lines_of_ground, stamped_entries, line_of_further, lines_of_further, lines_of_database};
ghost use Rattle.tt_durable.specs.Renewing.{IsPrintable, IsFurtherPrintable, IsReadable, IsWriting, WritesOn, WritesPending, TakesLines, FailsToRenew, FailsToWrite, FailsWriting, failures_by};

use std::alloc::{AllocError, Global};
use tt_answers::{push_ground_line, push_log_opening, push_slot_line};
use tt_commands::{Forgetting, Stamps, Terms};
use tt_db::{Db, Entry, Event, Limits};
use tt_log::{Device, Lines, Log, LogError, RenewError};
use tt_requests::MAX_GROUND_SLOTS;
use tt_session::MANY_BYTES;
use tt_values::Catalog;

/// Why a log isn't made anew.
#[derive(Clone, Copy, Debug, PartialEq, Eq)]
pub(crate) enum RenewFault {
    /// There is no memory for its lines. The log goes on as it was.
    Memory,
    /// The new file can't be made, written, synced or named. The log goes on as it was.
    Kept,
    /// The name of the new file can't be synced: a crash leaves the old log or the new one.
    Lost,
}

impl From<AllocError> for RenewFault {
    ghost use Rattle.tt_durable.specs.declared.log_renewal.RenewFault.TheVariants.{Memory};

    ghost from_gives = { λ _ e. e ≡ Memory };

    fn from(_error: AllocError) -> RenewFault {
        RenewFault::Memory
    }
}

/// Makes a log anew: puts in its place one of a session that goes on with a database which has
/// forgotten what lies before a time.
pub(crate) fn make_anew<D: Device>(
    alloc: Global,
    log: &mut Log<D>,
    forgetting: &Forgetting,
    terms: Terms,
) -> Result<(), RenewFault>
    requires { D.tells log.old.device → IsSettled D.seen D.may_leave log.old }
    ensures ok { OnOk result (D.tells log.old.device
        → TakesLines D.Device log.old log.new
        (lines_of_database forgetting.now.db forgetting.now.numbering
        forgetting.now.stamps terms)) }
    ensures err { IfErr result (λ fault. D.tells log.old.device
        → FailsToRenew fault D.Device log.old log.new
        (lines_of_database forgetting.now.db forgetting.now.numbering
        forgetting.now.stamps terms)) }

    // Where an error leaves a new file that wasn't there, the device has failed at least once more
    // than the error tells.
    ensures no_new { OnOk result (D.tells log.old.device
        → D.has_new_file log.new.device → ⊥) }
    ensures no_new_err { IfErr result (λ fault. D.tells log.old.device
        → LeavesNoNewFile D.has_new_file D.failures (failures_by fault)
        log.old.device log.new.device) }

    ensures readable { OnOk result (IsReadable forgetting.now terms) }
    ensures readable_lost { IsErrOf result RenewFault.Lost
        → IsReadable forgetting.now terms }
    ensures tells { D.tells log.old.device ↔ D.tells log.new.device }
{
    let Ok(()) = log.begin_new() else {
        return Err(RenewFault::Kept);
    };
    match write_new(alloc, log, forgetting, terms) {
        Ok(()) => take_new(log),
        Err(RenewFault::Memory) => {
            log.remove_new();
            Err(RenewFault::Memory)
        }
        // `write_new` names no file, so it is never `Lost`.
        Err(_) => {
            log.remove_new();
            Err(RenewFault::Kept)
        }
    }
}

/// Puts the new file in the place of the log's own.
fn take_new<D: Device>(log: &mut Log<D>) -> Result<(), RenewFault>
    requires settled { D.tells log.old.device → IsSettled D.seen D.may_leave log.old }
    requires making { D.tells log.old.device → IsMaking D.new_file log.old }
    requires lines { D.tells log.old.device → IsJoined (D.new_file log.old.device) }
    ensures ok { OnOk result (D.tells log.old.device
        → TakesLines D.Device log.old log.new (logged (D.new_file log.old.device))) }
    ensures err { IfErr result (λ fault. D.tells log.old.device
        → FailsToRenew fault D.Device log.old log.new (logged (D.new_file log.old.device))) }
    ensures no_new { OnOk result (D.tells log.old.device
        → D.has_new_file log.new.device → ⊥) }
    ensures no_new_err { IfErr result (λ fault. D.tells log.old.device
        → D.has_new_file log.new.device
        → D.failures log.old.device + failures_by fault < D.failures log.new.device) }
    ensures tells { D.tells log.old.device ↔ D.tells log.new.device }
{
    match log.take_new() {
        Ok(()) => Ok(()),
        Err(RenewError::Kept) => {
            log.remove_new();
            Err(RenewFault::Kept)
        }
        Err(RenewError::Lost) => Err(RenewFault::Lost),
    }
}

/// Writes the lines of a log for a database that has forgotten what lies before a time into the new
/// file, which is empty.
fn write_new<D: Device>(
    alloc: Global,
    log: &mut Log<D>,
    forgetting: &Forgetting,
    terms: Terms,
) -> Result<(), RenewFault>
    requires settled { D.tells log.old.device → IsSettled D.seen D.may_leave log.old }
    requires making { D.tells log.old.device → IsMaking D.new_file log.old }
    requires empty { D.tells log.old.device → D.new_file log.old.device ≡ [] }
    ensures ok { OnOk result (D.tells log.old.device
        → IsWriting D.Device log.old log.new []
        (lines_of_database forgetting.now.db forgetting.now.numbering
        forgetting.now.stamps terms)) }
    ensures err { IfErr result (λ fault. D.tells log.old.device
        → FailsToWrite fault D.Device log.old log.new) }
    ensures readable { OnOk result (IsReadable forgetting.now terms) }
    ensures tells { D.tells log.old.device ↔ D.tells log.new.device }
{
    let db = &forgetting.db;
    let limits = db.limits();
    let ground_slots = forgetting.numbering.ground_slots();
    let slots = db.events();
    if !are_told(limits)
        || ground_slots > u64::from(MAX_GROUND_SLOTS)
        || ground_slots > slots
        || forgetting.stamps.len() as u64 > slots - ground_slots
    {
        // No database of a session is like that.
        return Err(RenewFault::Memory);
    }
    let mut lines = Lines::new(alloc);
    let mut text = Vec::new(alloc);
    push_log_opening(
        &mut text,
        db.catalog(),
        limits.keep,
        terms.most_records,
        forgetting.numbering,
    )?;
    push_line(log, &mut lines, &text)?;
    push_ground(log, &mut lines, &mut text, db, ground_slots)?;
    push_slots(
        log,
        &mut lines,
        &mut text,
        db,
        ground_slots,
        &forgetting.stamps,
    )?;
    write_pending(log, &mut lines)
}

/// Whether limits are those that the first line of a log tells: the usual ones, but for how many
/// closed generations are kept.
fn are_told(limits: Limits) -> bool
    ensures { IsTrue result → record usual_limits { keep = limits.keep } ≡ limits }
{
    let usual = Limits::usual();
    limits.slots == usual.slots && limits.events == usual.events && limits.edits == usual.edits
}

/// Adds the lines of the slots of the ground: the first ones of a database.
fn push_ground<D: Device>(
    log: &mut Log<D>,
    lines: &mut Lines,
    text: &mut Vec<u8>,
    db: &Db,
    ground_slots: u64,
) -> Result<(), RenewFault>
    requires within { ground_slots ≤ length db.now.history }
    requires settled { D.tells log.old.device → IsSettled D.seen D.may_leave log.old }
    requires making { D.tells log.old.device → IsMaking D.new_file log.old }
    ensures ok { OnOk result (D.tells log.old.device
        → WritesOn D.Device log.old log.new lines.old lines.new
        (lines_of_ground db.now.catalog (take ground_slots db.now.history))) }
    ensures err { IfErr result (λ fault. D.tells log.old.device
        → FailsWriting fault D.Device log.old log.new lines.old) }
    ensures printable { OnOk result (All IsPrintable (take ground_slots db.now.history)) }
    ensures settled { OnOk result
        (D.tells log.new.device → IsSettled D.seen D.may_leave log.new) }
    ensures making { OnOk result (D.tells log.new.device → IsMaking D.new_file log.new) }
    ensures tells { D.tells log.old.device ↔ D.tells log.new.device }
{
    for place in 0..ground_slots {
        let Some(entry) = db.entry(place + 1) else {
            unreachable!();
        };
        print_ground(text, db.catalog(), entry)?;
        push_line(log, lines, text)?;
    }
    Ok(())
}

/// Adds the lines of the slots of a database behind its ground, with their stamps.
fn push_slots<D: Device>(
    log: &mut Log<D>,
    lines: &mut Lines,
    text: &mut Vec<u8>,
    db: &Db,
    ground_slots: u64,
    stamps: &Stamps,
) -> Result<(), RenewFault>
    requires within { ground_slots ≤ length db.now.history }
    requires settled { D.tells log.old.device → IsSettled D.seen D.may_leave log.old }
    requires making { D.tells log.old.device → IsMaking D.new_file log.old }
    ensures ok { OnOk result (D.tells log.old.device
        → WritesOn D.Device log.old log.new lines.old lines.new (lines_of_further
        db.now.catalog (stamped_entries (drop ground_slots db.now.history) stamps.now))) }
    ensures err { IfErr result (λ fault. D.tells log.old.device
        → FailsWriting fault D.Device log.old log.new lines.old) }
    ensures printable { OnOk result (All IsFurtherPrintable
        (stamped_entries (drop ground_slots db.now.history) stamps.now)) }
    ensures settled { OnOk result
        (D.tells log.new.device → IsSettled D.seen D.may_leave log.new) }
    ensures making { OnOk result (D.tells log.new.device → IsMaking D.new_file log.new) }
    ensures tells { D.tells log.old.device ↔ D.tells log.new.device }
{
    let slots = db.events();
    for place in ground_slots..slots {
        let Some(entry) = db.entry(place + 1) else {
            unreachable!();
        };
        let stamp = stamps.get(place + 1 - ground_slots);
        print_slot(text, db.catalog(), entry, stamp)?;
        push_line(log, lines, text)?;
    }
    Ok(())
}

/// Puts the line of a slot of the ground, by its entry of the history, into a text.
fn print_ground(text: &mut Vec<u8>, catalog: &Catalog, entry: &Entry) -> Result<(), AllocError>
    ensures line { OnOk result (text.new.items ≡ line_of_ground catalog.now entry.now) }
    ensures printable { OnOk result (IsPrintable entry.now) }
{
    text.clear();
    let Event::Write(action) = &entry.event else {
        // A database that has just forgotten has actions alone.
        return Err(AllocError);
    };
    push_ground_line(text, catalog, action)
}

/// Puts the line of a further slot, by its entry of the history and its stamp, into a text.
fn print_slot(
    text: &mut Vec<u8>,
    catalog: &Catalog,
    entry: &Entry,
    stamp: Option<u64>,
) -> Result<(), AllocError>
    ensures line { OnOk result
        (text.new.items ≡ line_of_further catalog.now (entry.now, stamp)) }
    ensures printable { OnOk result (IsFurtherPrintable (entry.now, stamp)) }
{
    text.clear();
    let worker = entry.worker;
    let Event::Write(action) = &entry.event else {
        // A database that has just forgotten has actions alone.
        return Err(AllocError);
    };
    if worker == 0 {
        // Behind the ground no slot is one of it.
        return Err(AllocError);
    }
    push_slot_line(text, catalog, worker, action, stamp)
}

/// Adds a line, and writes those that are pending once they are many bytes.
fn push_line<D: Device>(log: &mut Log<D>, lines: &mut Lines, line: &[u8]) -> Result<(), RenewFault>
    requires settled { D.tells log.old.device → IsSettled D.seen D.may_leave log.old }
    requires making { D.tells log.old.device → IsMaking D.new_file log.old }
    ensures ok { OnOk result (D.tells log.old.device
        → WritesOn D.Device log.old log.new lines.old lines.new (line.now ∷ [])) }
    ensures err { IfErr result (λ fault. D.tells log.old.device
        → FailsWriting fault D.Device log.old log.new lines.old) }
    ensures settled { OnOk result
        (D.tells log.new.device → IsSettled D.seen D.may_leave log.new) }
    ensures making { OnOk result (D.tells log.new.device → IsMaking D.new_file log.new) }
    ensures tells { D.tells log.old.device ↔ D.tells log.new.device }
{
    // A line that is printed has no byte 0 and no line feed, so there is no memory.
    let Ok(()) = lines.push(line) else {
        return Err(RenewFault::Memory);
    };
    if lines.byte_len() < MANY_BYTES {
        return Ok(());
    }
    write_pending(log, lines)
}

/// Writes the lines that are pending into the new file.
fn write_pending<D: Device>(log: &mut Log<D>, lines: &mut Lines) -> Result<(), RenewFault>
    requires settled { D.tells log.old.device → IsSettled D.seen D.may_leave log.old }
    requires making { D.tells log.old.device → IsMaking D.new_file log.old }
    ensures ok { OnOk result (D.tells log.old.device
        → WritesPending D.Device log.old log.new lines.old) }
    ensures lines { OnOk result (lines.new ≡ []) }
    ensures err { IfErr result (λ fault. D.tells log.old.device
        → FailsWriting fault D.Device log.old log.new lines.old) }
    ensures settled { OnOk result
        (D.tells log.new.device → IsSettled D.seen D.may_leave log.new) }
    ensures making { OnOk result (D.tells log.new.device → IsMaking D.new_file log.new) }
    ensures tells { D.tells log.old.device ↔ D.tells log.new.device }
{
    match log.push_new(lines) {
        Ok(()) => {
            lines.clear();
            Ok(())
        }
        Err(LogError::Write) => Err(RenewFault::Kept),
        // No lines in memory have 2^60 bytes.
        Err(_) => Err(RenewFault::Memory),
    }
}
