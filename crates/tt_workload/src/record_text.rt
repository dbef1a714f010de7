//! The lines of records and of changed replies.
ghost use Rattle.std.specs.Prelude.{◌≡◌, ◌++◌, OnOk, IfOk};
ghost use Rattle.std.specs.List.{flat_map};
ghost use Rattle.std.specs.Fmt.{decimal};
ghost use Rattle.tt_workload.specs.Records.{caller_text, answer_text, reply_at, after_text, text_of_record, line_of_record, lines_of_records, change_text, text_of_change, line_of_change, lines_of_changes, lines_of_would_be_changes};

use crate::json_report::{push_json_change, push_json_record};
use crate::printing::{push_replies, push_reply};
use std::alloc::{AllocError, Global};
use tt_grammar::{push_decimal, push_labelled};
use tt_records::{After, Changed, Record, What};
use tt_values::{Catalog, Reply};

/// The line of a call as it was answered, with its line feed.
pub fn text_of(alloc: Global, answered: &Record) -> Result<Vec<u8>, AllocError>
    ensures { IfOk result (λ text. text.items ≡ text_of_record answered.now) }
{
    let mut out = Vec::new(alloc);
    push_record_text(&mut out, answered)?;
    Ok(out)
}

/// The line of a changed reply, with its line feed.
pub fn text_of_change(alloc: Global, change: &Changed) -> Result<Vec<u8>, AllocError>
    ensures { IfOk result (λ text. text.items ≡ text_of_change change.now) }
{
    let mut out = Vec::new(alloc);
    push_change_text(&mut out, b"changed call ", change)?;
    Ok(out)
}

/// Pushes the lines of records, as JSON or as text. The catalog is that of the database.
pub fn push_records(
    alloc: Global,
    out: &mut Vec<u8>,
    catalog: &Catalog,
    records: &[Record],
    json: bool,
) -> Result<(), AllocError>
    ensures { OnOk result (out.new.items
        ≡ out.old.items ++ lines_of_records json catalog.now records.now) }
{
    for answered in records {
        push_record(alloc, out, catalog, answered, json)?;
    }
    Ok(())
}

/// Pushes the line of a record, as JSON or as text.
pub(crate) fn push_record(
    alloc: Global,
    out: &mut Vec<u8>,
    catalog: &Catalog,
    answered: &Record,
    json: bool,
) -> Result<(), AllocError>
    ensures { OnOk result (out.new.items
        ≡ out.old.items ++ line_of_record json catalog.now answered.now) }
{
    if json {
        push_json_record(alloc, out, catalog, answered)
    } else {
        push_record_text(out, answered)
    }
}

/// Pushes the line of a record as text.
fn push_record_text(out: &mut Vec<u8>, answered: &Record) -> Result<(), AllocError>
    ensures { OnOk result (out.new.items ≡ out.old.items ++ text_of_record answered.now) }
{
    push_caller(out, answered.call, answered.worker)?;
    push_answer(out, &answered.what)?;
    out.push(b'\n')?;
    Ok(())
}

/// Pushes the start of a call's line.
fn push_caller(out: &mut Vec<u8>, number: u64, worker: u32) -> Result<(), AllocError>
    ensures { OnOk result (out.new.items ≡ out.old.items ++ caller_text number worker) }
{
    out.extend_from_slice(b"call ")?;
    push_decimal(out, number)?;
    out.extend_from_slice(b" worker ")?;
    push_decimal(out, u64::from(worker))?;
    Ok(())
}

/// Pushes the rest of a call's line.
fn push_answer(out: &mut Vec<u8>, what: &What) -> Result<(), AllocError>
    ensures { OnOk result (out.new.items ≡ out.old.items ++ answer_text what.now) }
{
    match what {
        What::Write { slot, replies } => push_written(out, *slot, replies.as_slice())?,
        What::Read { time, reply, .. } => push_reply_at(out, b" time ", *time, reply)?,
        What::Preview { done, reply } => push_reply_at(out, b" preview ", *done, reply)?,
        What::Later { now } => push_labelled(out, b" refused later than ", *now)?,
        What::NotRepairing => out.extend_from_slice(b" refused not repairing")?,
    }
    Ok(())
}

/// Pushes the slot and the replies of an action.
fn push_written(out: &mut Vec<u8>, slot: u64, replies: &[Reply]) -> Result<(), AllocError>
    ensures { OnOk result (out.new.items
        ≡ out.old.items ++ answer_text (What.Write slot replies.now)) }
{
    out.extend_from_slice(b" slot ")?;
    push_decimal(out, slot)?;
    out.push(b' ')?;
    push_replies(out, replies)?;
    Ok(())
}

/// Pushes a labelled time and the reply that is right at it.
fn push_reply_at(
    out: &mut Vec<u8>,
    label: &[u8],
    time: u64,
    reply: &Reply,
) -> Result<(), AllocError>
    ensures { OnOk result (out.new.items
        ≡ out.old.items ++ reply_at label.now time reply.now) }
{
    push_labelled(out, label, time)?;
    out.push(b' ')?;
    push_reply(out, reply)?;
    Ok(())
}

/// Pushes the lines of changed replies of these records, as JSON or as text. The records are those
/// of the first calls, by number.
pub fn push_changes(
    out: &mut Vec<u8>,
    catalog: &Catalog,
    records: &[Record],
    changes: &[Changed],
    json: bool,
) -> Result<(), AllocError>
    ensures { OnOk result (out.new.items
        ≡ out.old.items ++ lines_of_changes json catalog.now records.now changes.now) }
{
    push_changes_behind(out, b"changed call ", catalog, records, changes, json)
}

/// Pushes the lines of replies that a repair would change, as JSON or as text.
pub(crate) fn push_would_be_changes(
    out: &mut Vec<u8>,
    catalog: &Catalog,
    records: &[Record],
    changes: &[Changed],
    json: bool,
) -> Result<(), AllocError>
    ensures { OnOk result (out.new.items
        ≡ out.old.items ++ lines_of_would_be_changes json catalog.now records.now changes.now) }
{
    push_changes_behind(out, b"would change call ", catalog, records, changes, json)
}

/// Pushes the lines of changed replies, each of which as text begins with a label.
fn push_changes_behind(
    out: &mut Vec<u8>,
    label: &[u8],
    catalog: &Catalog,
    records: &[Record],
    changes: &[Changed],
    json: bool,
) -> Result<(), AllocError>
    ensures { OnOk result (out.new.items ≡ out.old.items
        ++ flat_map (line_of_change json catalog.now records.now label.now) changes.now) }
{
    for change in changes {
        push_change(out, label, catalog, records, change, json)?;
    }
    Ok(())
}

/// Pushes the line of a changed reply, which as text begins with a label.
fn push_change(
    out: &mut Vec<u8>,
    label: &[u8],
    catalog: &Catalog,
    records: &[Record],
    change: &Changed,
    json: bool,
) -> Result<(), AllocError>
    ensures { OnOk result (out.new.items ≡ out.old.items
        ++ line_of_change json catalog.now records.now label.now change.now) }
{
    if json {
        push_json_change(out, catalog, records, change)
    } else {
        push_change_text(out, label, change)
    }
}

/// Pushes the line of a changed reply as text, which begins with a label.
fn push_change_text(out: &mut Vec<u8>, label: &[u8], change: &Changed) -> Result<(), AllocError>
    ensures { OnOk result (out.new.items
        ≡ out.old.items ++ change_text label.now change.now) }
{
    push_labelled(out, label, change.call)?;
    out.push(b' ')?;
    push_replies(out, change.before.as_slice())?;
    out.extend_from_slice(b" -> ")?;
    push_after(out, &change.after)?;
    out.push(b'\n')?;
    Ok(())
}

/// Pushes what stands in the place of replies.
fn push_after(out: &mut Vec<u8>, after: &After) -> Result<(), AllocError>
    ensures { OnOk result (out.new.items ≡ out.old.items ++ after_text after.now) }
{
    match after {
        After::Cancelled => out.extend_from_slice(b"cancelled")?,
        After::Replies(replies) => push_replies(out, replies.as_slice())?,
    }
    Ok(())
}
