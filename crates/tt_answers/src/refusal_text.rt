//! Refusals as they are printed.
ghost use Rattle.std.specs.Prelude.{◌≡◌, ◌++◌, OnOk};
ghost use Rattle.tt_grammar.specs.JsonText.{members_text};
ghost use Rattle.tt_answers.specs.RefusalText.{refused, refused_at, refused_at_time, no_generation, event_refused, read_refused, refusal_members};

use crate::answer::Refusal;
use crate::fault_text::push_out_of_memory;
use crate::told_text::push_told_generation;
use std::alloc::AllocError;
use tt_db::{DbError, ReadError};
use tt_grammar::{cause_of_check, push_decimal, push_named};
use tt_requests::{Numbering, ToldTime};

/// Pushes the members of a refusal.
pub(crate) fn push_refusal(
    out: &mut Vec<u8>,
    numbering: Numbering,
    refusal: Refusal,
) -> Result<(), AllocError>
    ensures { OnOk result (out.new.items
        ≡ out.old.items ++ members_text (refusal_members numbering refusal)) }
{
    match refusal {
        Refusal::Moved { now } => {
            push_refused_at_time(out, "moved", "now", numbering.told_time(now))
        }
        Refusal::Event(error) => push_event_refused(out, numbering, error),
        Refusal::Read(error) => push_read_refused(out, numbering, error),
        Refusal::NoSlot { slot } => push_refused_at_time(out, "no slot", "slot", slot),
        Refusal::RepairOfAnother { worker } => {
            push_refused_at(out, "repair of another", "worker", u64::from(worker))
        }
        Refusal::Forgotten => {
            push_refused_at_time(out, "forgotten", "horizon", numbering.horizon())
        }
        Refusal::Log => push_refused(out, "log"),
        Refusal::AnotherOpening => push_refused(out, "another opening"),
    }
}

/// Pushes why the database refuses an event.
fn push_event_refused(
    out: &mut Vec<u8>,
    numbering: Numbering,
    error: DbError,
) -> Result<(), AllocError>
    ensures { OnOk result (out.new.items
        ≡ out.old.items ++ members_text (event_refused numbering error)) }
{
    match error {
        DbError::Statement(fault) => push_refused(out, cause_of_check(fault)),
        DbError::Repairing => push_refused(out, "repairing"),
        DbError::NotRepairing => push_refused(out, "not repairing"),
        DbError::NotCaughtUp { left } => push_refused_at(out, "not caught up", "left", left),
        DbError::NothingLeft => push_refused(out, "nothing left"),
        DbError::NoSlot { t } => {
            push_refused_at_time(out, "no slot", "slot", numbering.told_time(t))
        }
        DbError::EditTwice { t } => {
            push_refused_at_time(out, "edited twice", "slot", numbering.told_time(t))
        }
        DbError::TooManyEdits => push_refused(out, "too many edits"),
        DbError::Full { limit } => push_refused_at(out, "full", "limit", limit),
        DbError::Memory => push_out_of_memory(out),
    }
}

/// Pushes why the database refuses a read.
fn push_read_refused(
    out: &mut Vec<u8>,
    numbering: Numbering,
    error: ReadError,
) -> Result<(), AllocError>
    ensures { OnOk result (out.new.items
        ≡ out.old.items ++ members_text (read_refused numbering error)) }
{
    match error {
        ReadError::Statement(fault) => push_refused(out, cause_of_check(fault)),
        ReadError::NoReading => push_refused(out, "no reading"),
        ReadError::NotRepairing => push_refused(out, "not repairing"),
        ReadError::NoGeneration { oldest, newest } => {
            push_no_generation(out, numbering, oldest, newest)
        }
        ReadError::Later { now } => {
            push_refused_at_time(out, "later", "now", numbering.told_time(now))
        }
        ReadError::Memory => push_out_of_memory(out),
    }
}

/// Pushes that a generation can't be read.
fn push_no_generation(
    out: &mut Vec<u8>,
    numbering: Numbering,
    oldest: u64,
    newest: u64,
) -> Result<(), AllocError>
    ensures { OnOk result (out.new.items
        ≡ out.old.items ++ members_text (no_generation numbering oldest newest)) }
{
    let oldest = numbering.told_generation(oldest);
    let newest = numbering.told_generation(newest);
    push_told_generation(out, b"\"refused\":\"no generation\",\"oldest\":", oldest)?;
    push_told_generation(out, b",\"newest\":", newest)?;
    Ok(())
}

/// Pushes a refusal without a number.
fn push_refused(out: &mut Vec<u8>, cause: &str) -> Result<(), AllocError>
    ensures { OnOk result (out.new.items ≡ out.old.items ++ members_text (refused cause.now)) }
{
    push_named(out, b"\"refused\":", cause.as_bytes())?;
    Ok(())
}

/// Pushes a refusal with a slot or a time that belongs to it.
fn push_refused_at_time(
    out: &mut Vec<u8>,
    cause: &str,
    name: &str,
    told: ToldTime,
) -> Result<(), AllocError>
    ensures { OnOk result (out.new.items
        ≡ out.old.items ++ members_text (refused_at_time cause.now name.now told)) }
{
    push_refused_at(out, cause, name, told.number)
}

/// Pushes a refusal with a count that belongs to it.
fn push_refused_at(
    out: &mut Vec<u8>,
    cause: &str,
    name: &str,
    number: u64,
) -> Result<(), AllocError>
    ensures { OnOk result (out.new.items
        ≡ out.old.items ++ members_text (refused_at cause.now name.now number)) }
{
    push_named(out, b"\"refused\":", cause.as_bytes())?;
    push_named(out, b",", name.as_bytes())?;
    out.push(b':')?;
    push_decimal(out, number)?;
    Ok(())
}
