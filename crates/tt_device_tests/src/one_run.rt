//! A log on a device in memory, from its start to its end.
ghost use Rattle.std.specs.Prelude.{◌≡◌, ◌<◌, ◌++◌, [], length, IfOk, OnOk};
ghost use Rattle.tt_log.specs.Device.{Only};
ghost use Rattle.tt_log.specs.Lines.{logged, joined};
ghost use Rattle.tt_log.specs.Log.{IsAsLeft};
ghost use Rattle.tt_log.specs.Reading.{unread, IsReading};
ghost use Rattle.tt_device_tests.specs.Outcomes.{outcomes, may_leave_of};

use crate::MemoryDevice;
use std::sync::Wait;
use tt_log::{Lines, LogError, UnreadLog};

/// Starts a log on a device, appends lines, and ends the log. After `Ok` the file is the lines that it
/// had and these, nothing else, and a crash leaves it so. The buffer is used on the way.
pub fn append_once<'a, R: Wait>(
    device: MemoryDevice<'a, R>,
    lines: &Lines,
    buffer: &mut [u8],
) -> Result<MemoryDevice<'a, R>, LogError>
    requires some { 0 < length buffer.old }
    requires left { IsAsLeft device.file.items (outcomes device.events.items).once_synced }
    ensures lines { IfOk result (λ d.
        d.file.items ≡ joined (logged device.entry.file.items ++ lines.now)) }
    ensures durable { IfOk result (λ d. Only d.file.items (may_leave_of d.events.items)) }
{
    let mut unread_log = match UnreadLog::open(device) {
        Ok(log) => log,
        Err((error, _)) => return Err(error),
    };
    read_to_end(&mut unread_log, buffer)?;
    let mut log = match unread_log.settle(buffer) {
        Ok(log) => log,
        Err((error, _)) => return Err(error),
    };
    log.append(lines)?;
    match log.close() {
        Ok(device) => Ok(device),
        Err(_) => Err(LogError::Write),
    }
}

/// Reads a log to its end.
fn read_to_end<R: Wait>(
    log: &mut UnreadLog<MemoryDevice<'_, R>>,
    buffer: &mut [u8],
) -> Result<(), LogError>
    requires some { 0 < length buffer.old }
    requires reading { IsReading (λ d. d.file.items) log.old }
    ensures reading { IsReading (λ d. d.file.items) log.new }
    ensures device { log.new.device ≡ log.old.device }
    ensures some { 0 < length buffer.new }
    ensures end { OnOk result (unread (λ d. d.file.items) log.new ≡ []) }
{
    let mut is_more = true;
    while is_more {
        let Ok(count) = log.read(buffer) else {
            return Err(LogError::Read);
        };
        is_more = count > 0;
    }
    Ok(())
}
