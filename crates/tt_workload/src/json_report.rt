//! The lines of a report as JSON. Where memory runs out, `out` may end with a prefix of a line.
ghost use Rattle.std.specs.Prelude.{◌≡◌, ◌++◌, OnOk, IfOk, None};
ghost use Rattle.tt_generations.specs.SlotCauses.{cause_told};
ghost use Rattle.tt_generations.specs.RowChanges.{change_told};
ghost use Rattle.tt_db.specs.Pages.{rows_in};
ghost use Rattle.tt_grammar.specs.JsonText.{members_text};
ghost use Rattle.tt_answers.specs.AnswerText.{rows_text};
ghost use Rattle.tt_workload.specs.JsonReport.{page_of, answer_of_session, json_of_record, json_of_repair, json_of_trial, json_of_redone, place_of_call, json_of_change, json_of_diff, table_members, json_of_table, json_of_closed, json_of_end};

use std::alloc::{AllocError, Global};
use tt_answers::{
    Answer, CauseEntry, ChangeEntry, Place, Refusal, RowPage, SlotCause, push_call,
    push_cause_entry, push_change, push_finished, push_row_change, push_rows, push_trial_counts,
};
use tt_db::{Cause, ReadError, RowChange};
use tt_grammar::{push_labelled, push_named};
use tt_records::{After, Changed, Record, What};
use tt_requests::Numbering;
use tt_values::{Catalog, Items, Reply};

/// All rows of a reply, which shares them.
fn page_of(alloc: Global, reply: &Reply) -> Result<RowPage, AllocError>
    ensures { IfOk result (λ page. page ≡ page_of reply.now) }
{
    let rows = match reply {
        Reply::Rows(rows) => rows.clone()?,
        _ => Items::new(alloc, Vec::new(alloc))?,
    };
    Ok(RowPage { rows, more: None })
}

/// What a session answers to such a call.
fn answer_of_session(alloc: Global, what: &What) -> Result<Answer, AllocError>
    ensures { IfOk result (λ answer. answer ≡ answer_of_session what.now) }
{
    match what {
        What::Write { slot, replies } => {
            let replies = replies.clone()?;
            Ok(Answer::Written {
                slot: *slot,
                replies,
            })
        }
        What::Read { time, reply, .. } => {
            let page = page_of(alloc, reply)?;
            Ok(Answer::Selected { time: *time, page })
        }
        What::Preview { done, reply } => {
            let page = page_of(alloc, reply)?;
            Ok(Answer::Previewed { done: *done, page })
        }
        What::Later { now } => {
            let error = ReadError::Later { now: *now };
            Ok(Answer::Refused(Refusal::Read(error)))
        }
        What::NotRepairing => Ok(Answer::Refused(Refusal::Read(ReadError::NotRepairing))),
    }
}

/// Pushes the line of a record.
pub(crate) fn push_json_record(
    alloc: Global,
    out: &mut Vec<u8>,
    catalog: &Catalog,
    answered: &Record,
) -> Result<(), AllocError>
    ensures { OnOk result (out.new.items
        ≡ out.old.items ++ json_of_record catalog.now answered.now) }
{
    let answer = answer_of_session(alloc, &answered.what)?;
    let worker = Some(answered.worker);
    push_call(
        out,
        catalog,
        Numbering::new(),
        answered.call,
        worker,
        &answer,
    )
}

/// Pushes the line of a repair.
pub(crate) fn push_json_repair(
    out: &mut Vec<u8>,
    generation: u64,
    slots: u64,
    rerun: u64,
) -> Result<(), AllocError>
    ensures { OnOk result (out.new.items
        ≡ out.old.items ++ json_of_repair generation slots rerun) }
{
    out.push(b'{')?;
    push_finished(out, Numbering::new(), generation, slots, rerun)?;
    out.extend_from_slice(b"}\n")?;
    Ok(())
}

/// Pushes the line of a repair that is tried.
pub(crate) fn push_json_trial(out: &mut Vec<u8>, rerun: u64, slots: u64) -> Result<(), AllocError>
    ensures { OnOk result (out.new.items ≡ out.old.items ++ json_of_trial rerun slots) }
{
    out.push(b'{')?;
    push_trial_counts(out, Numbering::new(), slots, rerun)?;
    out.extend_from_slice(b"}\n")?;
    Ok(())
}

/// Pushes the line of a re-executed slot with its cause.
pub(crate) fn push_json_redone(
    out: &mut Vec<u8>,
    catalog: &Catalog,
    slot: u64,
    cause: Cause<'_>,
) -> Result<(), AllocError>
    ensures { OnOk result (out.new.items
        ≡ out.old.items ++ json_of_redone catalog.now slot (cause_told cause.entry)) }
{
    let cause = SlotCause::of(cause)?;
    push_cause_entry(out, catalog, Numbering::new(), &CauseEntry { slot, cause })?;
    out.push(b'\n')?;
    Ok(())
}

/// Where the call of a number stands, by its record: None where it stands nowhere.
fn place_of_call(records: &[Record], number: u64) -> Option<Place>
    ensures { result ≡ place_of_call records.now number }
{
    let position = number.saturating_sub(1);
    match records.get(position as usize) {
        Some(record) => Place::of(&record.what),
        None => None,
    }
}

/// A changed reply at its place, which shares what it holds.
fn entry_of(place: Place, change: &Changed) -> Result<ChangeEntry, AllocError>
    ensures { IfOk result (λ entry. entry ≡ record {
      worker = None;
      place = place;
      change = change.now;
      asked = None;
    }) }
{
    let before = change.before.clone()?;
    let after = copy_of_after(&change.after)?;
    let change = Changed {
        call: change.call,
        before,
        after,
    };
    Ok(ChangeEntry {
        worker: None,
        place,
        change,
        asked: None,
    })
}

/// A copy of what stands in the place of replies, which shares these.
fn copy_of_after(after: &After) -> Result<After, AllocError>
    ensures { IfOk result (λ copy. copy ≡ after.now) }
{
    match after {
        After::Cancelled => Ok(After::Cancelled),
        After::Replies(replies) => {
            let replies = replies.clone()?;
            Ok(After::Replies(replies))
        }
    }
}

/// Pushes the line of a changed reply of one of these records.
pub(crate) fn push_json_change(
    out: &mut Vec<u8>,
    catalog: &Catalog,
    records: &[Record],
    change: &Changed,
) -> Result<(), AllocError>
    ensures { OnOk result (out.new.items
        ≡ out.old.items ++ json_of_change catalog.now records.now change.now) }
{
    if let Some(place) = place_of_call(records, change.call) {
        let entry = entry_of(place, change)?;
        push_change(out, catalog, Numbering::new(), &entry)?;
        out.push(b'\n')?;
    }
    Ok(())
}

/// Pushes the line of a row that differs.
pub(crate) fn push_json_diff(
    out: &mut Vec<u8>,
    catalog: &Catalog,
    table: u16,
    change: &RowChange,
) -> Result<(), AllocError>
    ensures { OnOk result (out.new.items
        ≡ out.old.items ++ json_of_diff catalog.now table (change_told change.now)) }
{
    push_row_change(out, catalog, table, change)?;
    out.push(b'\n')?;
    Ok(())
}

/// Pushes a table and its rows as members, the first of them behind a label.
fn push_table_members(
    out: &mut Vec<u8>,
    label: &[u8],
    name: &str,
    rows: &Reply,
) -> Result<(), AllocError>
    ensures { OnOk result (out.new.items
        ≡ out.old.items ++ (label.now ++ members_text (table_members name.now rows.now))) }
{
    out.extend_from_slice(label)?;
    push_named(out, b"\"table\":", name.as_bytes())?;
    out.extend_from_slice(b",\"rows\":")?;
    push_rows_of(out, rows)?;
    Ok(())
}

/// Pushes the rows of a reply as an array.
fn push_rows_of(out: &mut Vec<u8>, reply: &Reply) -> Result<(), AllocError>
    ensures { OnOk result (out.new.items ≡ out.old.items ++ rows_text (rows_in reply.now)) }
{
    match reply {
        Reply::Rows(rows) => push_rows(out, rows.as_slice()),
        _ => push_rows(out, &[]),
    }
}

/// Pushes the line of a table.
pub(crate) fn push_json_table(out: &mut Vec<u8>, name: &str, rows: &Reply) -> Result<(), AllocError>
    ensures { OnOk result (out.new.items ≡ out.old.items ++ json_of_table name.now rows.now) }
{
    push_table_members(out, b"{", name, rows)?;
    out.extend_from_slice(b"}\n")?;
    Ok(())
}

/// Pushes the line of a table of a closed generation.
pub(crate) fn push_json_closed(
    out: &mut Vec<u8>,
    generation: u64,
    time: u64,
    name: &str,
    rows: &Reply,
) -> Result<(), AllocError>
    ensures { OnOk result (out.new.items
        ≡ out.old.items ++ json_of_closed generation time name.now rows.now) }
{
    push_labelled(out, b"{\"closed\":", generation)?;
    push_labelled(out, b",\"time\":", time)?;
    push_table_members(out, b",", name, rows)?;
    out.extend_from_slice(b"}\n")?;
    Ok(())
}

/// Pushes the last line.
pub(crate) fn push_json_end(out: &mut Vec<u8>, generation: u64, time: u64) -> Result<(), AllocError>
    ensures { OnOk result (out.new.items ≡ out.old.items ++ json_of_end generation time) }
{
    push_labelled(out, b"{\"generation\":", generation)?;
    push_labelled(out, b",\"time\":", time)?;
    out.extend_from_slice(b"}\n")?;
    Ok(())
}
