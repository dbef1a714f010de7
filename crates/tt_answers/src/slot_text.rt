//! Slots and changed replies as they are printed.
ghost use Rattle.std.specs.Prelude.{◌≡◌, ◌++◌, map, OnOk};
ghost use Rattle.std.specs.List.{flat_map};
ghost use Rattle.tt_grammar.specs.JsonText.{further_item, array_text, member_text};
ghost use Rattle.tt_answers.specs.AnswerText.{asked_members, stamp_members, slot_text, place_member, after_text, worker_members, reply_change_members, select_members, asked_for_members, change_text};

use crate::answer::{AskedFor, ChangeEntry, Place, SlotEntry};
use crate::reply_text::{push_replies, push_replies_or_null};
use crate::told_text::push_told_time;
use std::alloc::AllocError;
use tt_grammar::{
    push_action, push_action_or_null, push_equals, push_labelled, push_named, push_named_action,
    table_name,
};
use tt_records::{After, Changed};
use tt_requests::Numbering;
use tt_values::{Action, Catalog, Select};

/// Pushes slots as an array.
pub(crate) fn push_slots(
    out: &mut Vec<u8>,
    catalog: &Catalog,
    numbering: Numbering,
    slots: &[SlotEntry],
) -> Result<(), AllocError>
    ensures { OnOk result (out.new.items
        ≡ out.old.items ++ array_text (map (slot_text catalog.now numbering) slots.now)) }
{
    let [first, further @ ..] = slots else {
        return out.extend_from_slice(b"[]");
    };
    out.push(b'[')?;
    push_slot(out, catalog, numbering, first)?;
    push_further_slots(out, catalog, numbering, further)?;
    out.push(b']')?;
    Ok(())
}

/// Pushes further slots, each behind a comma.
fn push_further_slots(
    out: &mut Vec<u8>,
    catalog: &Catalog,
    numbering: Numbering,
    slots: &[SlotEntry],
) -> Result<(), AllocError>
    ensures { OnOk result (out.new.items ≡ out.old.items
        ++ flat_map further_item (map (slot_text catalog.now numbering) slots.now)) }
{
    for slot in slots {
        out.push(b',')?;
        push_slot(out, catalog, numbering, slot)?;
    }
    Ok(())
}

/// Pushes a slot.
fn push_slot(
    out: &mut Vec<u8>,
    catalog: &Catalog,
    numbering: Numbering,
    entry: &SlotEntry,
) -> Result<(), AllocError>
    ensures { OnOk result (out.new.items
        ≡ out.old.items ++ slot_text catalog.now numbering entry.now) }
{
    push_told_time(out, b"{\"slot\":", numbering.told_time(entry.number))?;
    push_labelled(out, b",\"worker\":", u64::from(entry.worker))?;
    push_stamp(out, entry.stamp)?;
    out.push(b',')?;
    push_action_or_null(out, catalog, &entry.slot.action)?;
    out.extend_from_slice(b",\"replies\":")?;
    push_replies_or_null(out, &entry.slot.replies)?;
    push_asked(out, catalog, &entry.asked)?;
    out.push(b'}')?;
    Ok(())
}

/// Pushes a stamp, if there is one, behind a comma.
pub(crate) fn push_stamp(out: &mut Vec<u8>, stamp: Option<u64>) -> Result<(), AllocError>
    ensures { OnOk result (out.new.items
        ≡ out.old.items ++ flat_map further_item (map member_text (stamp_members stamp))) }
{
    if let Some(stamp) = stamp {
        push_labelled(out, b",\"stamp\":", stamp)?;
    }
    Ok(())
}

/// Pushes the action that was asked for, if that is told.
fn push_asked(
    out: &mut Vec<u8>,
    catalog: &Catalog,
    asked: &Option<Action>,
) -> Result<(), AllocError>
    ensures { OnOk result (out.new.items ≡ out.old.items
        ++ flat_map further_item (map member_text (asked_members catalog.now asked.now))) }
{
    if let Some(action) = asked {
        out.push(b',')?;
        push_named_action(out, "asked", "asked_whole", catalog, action)?;
    }
    Ok(())
}

/// Pushes changed replies as an array.
pub(crate) fn push_changes(
    out: &mut Vec<u8>,
    catalog: &Catalog,
    numbering: Numbering,
    changes: &[ChangeEntry],
) -> Result<(), AllocError>
    ensures { OnOk result (out.new.items
        ≡ out.old.items ++ array_text (map (change_text catalog.now numbering) changes.now)) }
{
    let [first, further @ ..] = changes else {
        return out.extend_from_slice(b"[]");
    };
    out.push(b'[')?;
    push_change(out, catalog, numbering, first)?;
    push_further_changes(out, catalog, numbering, further)?;
    out.push(b']')?;
    Ok(())
}

/// Pushes further changed replies, each behind a comma.
fn push_further_changes(
    out: &mut Vec<u8>,
    catalog: &Catalog,
    numbering: Numbering,
    changes: &[ChangeEntry],
) -> Result<(), AllocError>
    ensures { OnOk result (out.new.items ≡ out.old.items
        ++ flat_map further_item (map (change_text catalog.now numbering) changes.now)) }
{
    for change in changes {
        out.push(b',')?;
        push_change(out, catalog, numbering, change)?;
    }
    Ok(())
}

/// Pushes a changed reply.
pub fn push_change(
    out: &mut Vec<u8>,
    catalog: &Catalog,
    numbering: Numbering,
    entry: &ChangeEntry,
) -> Result<(), AllocError>
    ensures { OnOk result (out.new.items
        ≡ out.old.items ++ change_text catalog.now numbering entry.now) }
{
    push_labelled(out, b"{\"call\":", entry.change.call)?;
    push_worker(out, entry.worker)?;
    push_place(out, numbering, entry.place)?;
    push_reply_change(out, &entry.change)?;
    push_asked_for(out, catalog, &entry.asked)?;
    out.push(b'}')?;
    Ok(())
}

/// Pushes the worker of a call, if that is told.
pub(crate) fn push_worker(out: &mut Vec<u8>, worker: Option<u32>) -> Result<(), AllocError>
    ensures { OnOk result (out.new.items
        ≡ out.old.items ++ flat_map further_item (map member_text (worker_members worker))) }
{
    if let Some(worker) = worker {
        push_labelled(out, b",\"worker\":", u64::from(worker))?;
    }
    Ok(())
}

/// Pushes the replies before and after, behind a comma.
fn push_reply_change(out: &mut Vec<u8>, change: &Changed) -> Result<(), AllocError>
    ensures { OnOk result (out.new.items ≡ out.old.items
        ++ flat_map further_item (map member_text (reply_change_members change.now))) }
{
    out.extend_from_slice(b",\"before\":")?;
    push_replies(out, change.before.as_slice())?;
    out.extend_from_slice(b",\"after\":")?;
    push_after(out, &change.after)?;
    Ok(())
}

/// Pushes what a call asked for, if that is told.
fn push_asked_for(
    out: &mut Vec<u8>,
    catalog: &Catalog,
    asked: &Option<AskedFor>,
) -> Result<(), AllocError>
    ensures { OnOk result (out.new.items ≡ out.old.items
        ++ flat_map further_item (map member_text (asked_for_members catalog.now asked.now))) }
{
    match asked {
        None => Ok(()),
        Some(AskedFor::Action(action)) => {
            out.push(b',')?;
            push_action(out, catalog, action)
        }
        Some(AskedFor::Select(select)) => push_select(out, catalog, select),
    }
}

/// Pushes the table and the conditions of a select, each behind a comma.
fn push_select(out: &mut Vec<u8>, catalog: &Catalog, select: &Select) -> Result<(), AllocError>
    ensures { OnOk result (out.new.items ≡ out.old.items
        ++ flat_map further_item (map member_text (select_members catalog.now select.now))) }
{
    push_named(
        out,
        b",\"select\":",
        table_name(catalog, select.table).as_bytes(),
    )?;
    out.extend_from_slice(b",\"where\":")?;
    push_equals(out, catalog, select.table, select.equals.as_slice())?;
    Ok(())
}

/// Pushes a slot or a time, behind a comma.
fn push_place(out: &mut Vec<u8>, numbering: Numbering, place: Place) -> Result<(), AllocError>
    ensures { OnOk result (out.new.items
        ≡ out.old.items ++ further_item (member_text (place_member numbering place))) }
{
    match place {
        Place::Slot(slot) => push_told_time(out, b",\"slot\":", numbering.told_time(slot)),
        Place::Time(time) => push_told_time(out, b",\"time\":", numbering.told_time(time)),
    }
}

/// Pushes what stands in the place of replies.
fn push_after(out: &mut Vec<u8>, after: &After) -> Result<(), AllocError>
    ensures { OnOk result (out.new.items ≡ out.old.items ++ after_text after.now) }
{
    match after {
        After::Cancelled => out.extend_from_slice(b"\"cancelled\""),
        After::Replies(replies) => push_replies(out, replies.as_slice()),
    }
}
