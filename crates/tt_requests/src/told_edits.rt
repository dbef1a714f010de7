//! The edits that a repair begins with, by the numbers of the database.
ghost use Rattle.std.specs.Prelude.{◌≡◌, map, IfOk};
ghost use Rattle.tt_requests.specs.ToldEdits.{told_slot, is_there, missing_slot, own_edit};

use crate::numbering::Numbering;
use crate::told::ToldTime;
use std::alloc::{AllocError, Global};
use tt_repair_laws::Edit;
use tt_values::Items;

/// The slot of an edit, as it is told.
fn told_slot(edit: &Edit) -> ToldTime
    ensures { result ≡ told_slot edit.now }
{
    ToldTime {
        number: edit.number(),
    }
}

/// Whether a slot as it is told is there: behind the horizon, and no later than now.
fn is_there(numbering: Numbering, now: u64, slot: ToldTime) -> bool
    ensures { result ≡ is_there numbering now slot }
{
    numbering.is_behind_horizon(slot) && !(numbering.told_time(now).number < slot.number)
}

/// The slot, as it is told, of the first edit whose slot isn't there, if there is one.
pub fn missing_slot(numbering: Numbering, now: u64, edits: &[Edit]) -> Option<ToldTime>
    ensures { result ≡ missing_slot numbering now edits.now }
{
    for edit in edits {
        let slot = told_slot(edit);
        if !is_there(numbering, now, slot) {
            return Some(slot);
        }
    }
    None
}

/// The same edit, of a slot as the database numbers it.
fn own_edit(numbering: Numbering, edit: &Edit) -> Result<Edit, AllocError>
    ensures { IfOk result (λ own. own ≡ own_edit numbering edit.now) }
{
    match edit {
        Edit::Cancel(number) => {
            let slot = numbering.own_time(ToldTime { number: *number });
            Ok(Edit::Cancel(slot))
        }
        Edit::Replace(number, action) => {
            let slot = numbering.own_time(ToldTime { number: *number });
            let action = action.clone()?;
            Ok(Edit::Replace(slot, action))
        }
    }
}

/// The same edits, of slots as the database numbers them.
pub fn own_edits(
    alloc: Global,
    numbering: Numbering,
    edits: &[Edit],
) -> Result<Items<Edit>, AllocError>
    ensures { IfOk result (λ own. own ≡ map (own_edit numbering) edits.now) }
{
    let mut own = Vec::with_capacity(alloc, edits.len())?;
    for edit in edits {
        own.push(own_edit(numbering, edit)?)?;
    }
    Items::new(alloc, own)
}
