//! The lines of answers.
ghost use Rattle.std.specs.Prelude.{◌≡◌, ◌++◌, map, codes, OnOk};
ghost use Rattle.std.specs.List.{flat_map};
ghost use Rattle.std.specs.Option.{option_map};
ghost use Rattle.std.specs.Fmt.{decimal};
ghost use Rattle.tt_requests.specs.Numbers.{told_time};
ghost use Rattle.tt_grammar.specs.JsonText.{further_item, member_text, members_text, text_or_null};
ghost use Rattle.tt_answers.specs.AnswerText.{progress_members, repair_text, horizon_members, status_members, more_members, page_members, written_members, finished_members, slots_members, changes_members, causes_members, differences_members, outcome_members, trial_count_members, trial_members, declared_members, answer_members, opening_text, worker_call_text};

use crate::answer::{
    Answer, CauseEntry, ChangeEntry, DiffEntry, RepairStatus, RowPage, SlotEntry, Status,
};
use crate::cause_text::push_causes;
use crate::diff_text::push_diff;
use crate::fault_text::{push_fault, push_out_of_memory};
use crate::refusal_text::push_refusal;
use crate::reply_text::{push_replies, push_rows};
use crate::slot_text::{push_changes, push_slots, push_worker};
use crate::told_text::{push_told_generation, push_told_time};
use std::alloc::{AllocError, Global};
use tt_db::Progress;
use tt_grammar::{NEWEST_SESSION_VERSION, push_flag, push_labelled, push_tables};
use tt_requests::{Numbering, ToldTime};
use tt_values::{Catalog, Reply};

/// Pushes the line of an answer to an opening, its numbers told by the numbering. Where memory runs
/// out, `out` may end with a prefix of it.
pub fn push_opening(
    alloc: Global,
    out: &mut Vec<u8>,
    numbering: Numbering,
    answer: &Answer,
) -> Result<(), AllocError>
    ensures { OnOk result (out.new.items ≡ out.old.items ++ opening_text numbering answer.now) }
{
    let catalog = Catalog::new(alloc);
    out.push(b'{')?;
    push_answer(out, &catalog, numbering, answer)?;
    out.extend_from_slice(b"}\n")?;
    Ok(())
}

/// Pushes the line of an answer to a call, by its number, and by the worker that made it where that
/// is given. The catalog is that of the database, whose numbers are told by the numbering. Where
/// memory runs out, `out` may end with a prefix of the line.
pub fn push_call(
    out: &mut Vec<u8>,
    catalog: &Catalog,
    numbering: Numbering,
    call: u64,
    worker: Option<u32>,
    answer: &Answer,
) -> Result<(), AllocError>
    ensures { OnOk result (out.new.items ≡ out.old.items
        ++ worker_call_text catalog.now numbering call worker answer.now) }
{
    push_labelled(out, b"{\"call\":", call)?;
    push_worker(out, worker)?;
    out.push(b',')?;
    push_answer(out, catalog, numbering, answer)?;
    out.extend_from_slice(b"}\n")?;
    Ok(())
}

/// Pushes the members of an answer, without its call.
fn push_answer(
    out: &mut Vec<u8>,
    catalog: &Catalog,
    numbering: Numbering,
    answer: &Answer,
) -> Result<(), AllocError>
    ensures { OnOk result (out.new.items
        ≡ out.old.items ++ members_text (answer_members catalog.now numbering answer.now)) }
{
    match answer {
        Answer::Standing(status) => push_status(out, numbering, status),
        Answer::Written { slot, replies } => {
            push_written(out, numbering, *slot, replies.as_slice())
        }
        Answer::Selected { time, page } => {
            push_page(out, b"\"time\":", numbering.told_time(*time), page)
        }
        Answer::Previewed { done, page } => {
            push_page(out, b"\"done\":", numbering.told_time(*done), page)
        }
        Answer::Repairing(progress) => push_progress(out, numbering, *progress),
        Answer::Finished {
            generation,
            slots,
            rerun,
        } => push_finished(out, numbering, *generation, *slots, *rerun),
        Answer::Slots { time, slots } => {
            push_slots_at(out, catalog, numbering, *time, slots.as_slice())
        }
        Answer::Changes {
            from,
            changes,
            more,
        } => push_changes_from(out, catalog, numbering, *from, changes.as_slice(), *more),
        Answer::Causes { done, redone, more } => {
            push_causes_of(out, catalog, numbering, *done, redone.as_slice(), *more)
        }
        Answer::Differences { done, diff, more } => {
            push_differences_of(out, catalog, numbering, *done, diff.as_slice(), *more)
        }
        Answer::Trial {
            slots,
            rerun,
            redone,
            changed,
            diff,
        } => {
            push_trial_counts(out, numbering, *slots, *rerun)?;
            push_outcome(
                out,
                catalog,
                numbering,
                redone.as_slice(),
                changed.as_slice(),
                diff.as_slice(),
            )
        }
        Answer::Declared { keep, records } => push_declared(out, catalog, *keep, *records),
        Answer::Faulty(fault) => push_fault(out, fault),
        Answer::Refused(refusal) => push_refusal(out, numbering, *refusal),
        Answer::OutOfMemory => push_out_of_memory(out),
    }
}

/// Pushes how the database stands.
fn push_status(out: &mut Vec<u8>, numbering: Numbering, status: &Status) -> Result<(), AllocError>
    ensures { OnOk result (out.new.items
        ≡ out.old.items ++ members_text (status_members numbering status.now)) }
{
    push_told_time(out, b"\"time\":", numbering.told_time(status.time))?;
    push_told_generation(
        out,
        b",\"generation\":",
        numbering.told_generation(status.generation),
    )?;
    push_told_generation(
        out,
        b",\"oldest\":",
        numbering.told_generation(status.oldest),
    )?;
    push_labelled(out, b",\"entries\":", status.entries)?;
    out.extend_from_slice(b",\"repair\":")?;
    push_repair(out, numbering, status.repair)?;
    push_horizon(out, numbering)?;
    Ok(())
}

/// Pushes how a repair stands as an object, or null where none is under way.
fn push_repair(
    out: &mut Vec<u8>,
    numbering: Numbering,
    repair: Option<RepairStatus>,
) -> Result<(), AllocError>
    ensures { OnOk result (out.new.items
        ≡ out.old.items ++ text_or_null (option_map (repair_text numbering) repair)) }
{
    let Some(repair) = repair else {
        return out.extend_from_slice(b"null");
    };
    out.push(b'{')?;
    push_progress(out, numbering, repair.progress)?;
    push_labelled(out, b",\"worker\":", u64::from(repair.worker))?;
    out.push(b'}')?;
    Ok(())
}

/// Pushes how far a repair is.
fn push_progress(
    out: &mut Vec<u8>,
    numbering: Numbering,
    progress: Progress,
) -> Result<(), AllocError>
    ensures { OnOk result (out.new.items
        ≡ out.old.items ++ members_text (progress_members numbering progress)) }
{
    push_told_time(out, b"\"done\":", numbering.told_time(progress.done))?;
    push_labelled(out, b",\"left\":", progress.left)?;
    push_labelled(out, b",\"rerun\":", progress.rerun)?;
    Ok(())
}

/// Pushes the time that was last forgotten up to, where something was forgotten.
fn push_horizon(out: &mut Vec<u8>, numbering: Numbering) -> Result<(), AllocError>
    ensures { OnOk result (out.new.items ≡ out.old.items
        ++ flat_map further_item (map member_text (horizon_members numbering))) }
{
    let horizon = numbering.horizon();
    if horizon.number != 0 {
        push_told_time(out, b",\"horizon\":", horizon)?;
    }
    Ok(())
}

/// Pushes the slot of an action, and the replies to its writes.
fn push_written(
    out: &mut Vec<u8>,
    numbering: Numbering,
    slot: u64,
    replies: &[Reply],
) -> Result<(), AllocError>
    ensures { OnOk result (out.new.items ≡ out.old.items
        ++ members_text (written_members numbering slot replies.now)) }
{
    push_told_time(out, b"\"slot\":", numbering.told_time(slot))?;
    out.extend_from_slice(b",\"replies\":")?;
    push_replies(out, replies)?;
    Ok(())
}

/// Pushes a labelled time, and rows that are read.
fn push_page(
    out: &mut Vec<u8>,
    label: &[u8],
    told: ToldTime,
    page: &RowPage,
) -> Result<(), AllocError>
    ensures { OnOk result (out.new.items ≡ out.old.items ++ (label.now ++ (decimal told.number
        ++ flat_map further_item (map member_text (page_members page.now))))) }
{
    push_told_time(out, label, told)?;
    out.extend_from_slice(b",\"rows\":")?;
    push_rows(out, page.rows.as_slice())?;
    push_more(out, page.more)?;
    Ok(())
}

/// Pushes whether more follow, if that is told.
fn push_more(out: &mut Vec<u8>, more: Option<bool>) -> Result<(), AllocError>
    ensures { OnOk result (out.new.items
        ≡ out.old.items ++ flat_map further_item (map member_text (more_members more))) }
{
    if let Some(more) = more {
        out.extend_from_slice(b",\"more\":")?;
        push_flag(out, more)?;
    }
    Ok(())
}

/// Pushes the generation that is now current, how many slots it has, and how many of them were
/// re-executed, as members.
pub fn push_finished(
    out: &mut Vec<u8>,
    numbering: Numbering,
    generation: u64,
    slots: u64,
    rerun: u64,
) -> Result<(), AllocError>
    ensures { OnOk result (out.new.items ≡ out.old.items
        ++ members_text (finished_members numbering generation slots rerun)) }
{
    push_told_generation(
        out,
        b"\"generation\":",
        numbering.told_generation(generation),
    )?;
    push_told_time(out, b",\"slots\":", numbering.told_time(slots))?;
    push_labelled(out, b",\"rerun\":", rerun)?;
    Ok(())
}

/// Pushes the current time, and slots.
fn push_slots_at(
    out: &mut Vec<u8>,
    catalog: &Catalog,
    numbering: Numbering,
    time: u64,
    slots: &[SlotEntry],
) -> Result<(), AllocError>
    ensures { OnOk result (out.new.items ≡ out.old.items
        ++ members_text (slots_members catalog.now numbering time slots.now)) }
{
    push_told_time(out, b"\"time\":", numbering.told_time(time))?;
    out.extend_from_slice(b",\"slots\":")?;
    push_slots(out, catalog, numbering, slots)?;
    Ok(())
}

/// Pushes the call of the first record that is kept, and changed replies.
fn push_changes_from(
    out: &mut Vec<u8>,
    catalog: &Catalog,
    numbering: Numbering,
    from: u64,
    changes: &[ChangeEntry],
    more: Option<bool>,
) -> Result<(), AllocError>
    ensures { OnOk result (out.new.items ≡ out.old.items
        ++ members_text (changes_members catalog.now numbering from changes.now more)) }
{
    push_labelled(out, b"\"from\":", from)?;
    out.extend_from_slice(b",\"changed\":")?;
    push_changes(out, catalog, numbering, changes)?;
    push_more(out, more)?;
    Ok(())
}

/// Pushes how many slots a repair has done, and those of them that it re-executed.
fn push_causes_of(
    out: &mut Vec<u8>,
    catalog: &Catalog,
    numbering: Numbering,
    done: u64,
    redone: &[CauseEntry],
    more: Option<bool>,
) -> Result<(), AllocError>
    ensures { OnOk result (out.new.items ≡ out.old.items
        ++ members_text (causes_members catalog.now numbering done redone.now more)) }
{
    push_told_time(out, b"\"done\":", numbering.told_time(done))?;
    out.extend_from_slice(b",\"redone\":")?;
    push_causes(out, catalog, numbering, redone)?;
    push_more(out, more)?;
    Ok(())
}

/// Pushes how many slots a repair has done, and the rows that differ between the generations then.
fn push_differences_of(
    out: &mut Vec<u8>,
    catalog: &Catalog,
    numbering: Numbering,
    done: u64,
    diff: &[DiffEntry],
    more: Option<bool>,
) -> Result<(), AllocError>
    ensures { OnOk result (out.new.items ≡ out.old.items
        ++ members_text (differences_members catalog.now numbering done diff.now more)) }
{
    push_told_time(out, b"\"done\":", numbering.told_time(done))?;
    out.extend_from_slice(b",\"diff\":")?;
    push_diff(out, catalog, diff)?;
    push_more(out, more)?;
    Ok(())
}

/// Pushes how many slots there are, and how many of them a repair would re-execute, as members.
pub fn push_trial_counts(
    out: &mut Vec<u8>,
    numbering: Numbering,
    slots: u64,
    rerun: u64,
) -> Result<(), AllocError>
    ensures { OnOk result (out.new.items
        ≡ out.old.items ++ members_text (trial_count_members numbering slots rerun)) }
{
    push_told_time(out, b"\"slots\":", numbering.told_time(slots))?;
    push_labelled(out, b",\"rerun\":", rerun)?;
    Ok(())
}

/// Pushes what a repair would re-execute, the replies that it would change, and the rows that would
/// differ, each behind a comma.
fn push_outcome(
    out: &mut Vec<u8>,
    catalog: &Catalog,
    numbering: Numbering,
    redone: &[CauseEntry],
    changed: &[ChangeEntry],
    diff: &[DiffEntry],
) -> Result<(), AllocError>
    ensures { OnOk result (out.new.items ≡ out.old.items ++ flat_map further_item (map member_text
        (outcome_members catalog.now numbering redone.now changed.now diff.now))) }
{
    out.extend_from_slice(b",\"redone\":")?;
    push_causes(out, catalog, numbering, redone)?;
    out.extend_from_slice(b",\"changed\":")?;
    push_changes(out, catalog, numbering, changed)?;
    out.extend_from_slice(b",\"diff\":")?;
    push_diff(out, catalog, diff)?;
    Ok(())
}

/// Pushes the newest version of sessions, the tables, and how much is kept.
pub(crate) fn push_declared(
    out: &mut Vec<u8>,
    catalog: &Catalog,
    keep: u32,
    records: u32,
) -> Result<(), AllocError>
    ensures { OnOk result (out.new.items ≡ out.old.items
        ++ members_text (declared_members catalog.now keep records)) }
{
    push_labelled(out, b"\"version\":", u64::from(NEWEST_SESSION_VERSION))?;
    out.extend_from_slice(b",\"tables\":")?;
    push_tables(out, catalog)?;
    push_labelled(out, b",\"keep\":", u64::from(keep))?;
    push_labelled(out, b",\"records\":", u64::from(records))?;
    Ok(())
}
