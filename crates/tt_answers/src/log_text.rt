//! The lines of a log that is made anew, without their line feeds. Where memory runs out, `out` may
//! end with a prefix of a line.
ghost use Rattle.std.specs.Prelude.{◌≡◌, ◌++◌, OnOk};
ghost use Rattle.tt_grammar.specs.ReadBack.{IsStorableAction};
ghost use Rattle.tt_answers.specs.LogText.{log_opening_line, ground_line, slot_line};

use crate::answer_text::push_declared;
use crate::slot_text::push_stamp;
use crate::told_text::{push_told_generation, push_told_time};
use std::alloc::AllocError;
use tt_grammar::{push_action, push_labelled};
use tt_requests::Numbering;
use tt_values::{Action, Catalog};

/// Pushes the first line of a log that is made anew: the newest version of sessions, the tables, how
/// much is kept, and the ground.
pub fn push_log_opening(
    out: &mut Vec<u8>,
    catalog: &Catalog,
    keep: u32,
    records: u32,
    numbering: Numbering,
) -> Result<(), AllocError>
    ensures { OnOk result (out.new.items
        ≡ out.old.items ++ log_opening_line catalog.now keep records numbering) }
{
    out.push(b'{')?;
    push_declared(out, catalog, keep, records)?;
    push_told_time(out, b",\"ground\":{\"time\":", numbering.horizon())?;
    push_told_generation(out, b",\"generation\":", numbering.generation())?;
    push_labelled(out, b",\"slots\":", numbering.ground_slots())?;
    out.extend_from_slice(b"}}")?;
    Ok(())
}

/// Pushes the line of a slot of the ground, by its action.
pub fn push_ground_line(
    out: &mut Vec<u8>,
    catalog: &Catalog,
    action: &Action,
) -> Result<(), AllocError>
    ensures text { OnOk result (out.new.items
        ≡ out.old.items ++ ground_line catalog.now action.now) }
    ensures storable { OnOk result (IsStorableAction action.now) }
{
    out.push(b'{')?;
    push_action(out, catalog, action)?;
    out.push(b'}')?;
    Ok(())
}

/// Pushes the line of a further slot, by its worker, its action and its stamp.
pub fn push_slot_line(
    out: &mut Vec<u8>,
    catalog: &Catalog,
    worker: u32,
    action: &Action,
    stamp: Option<u64>,
) -> Result<(), AllocError>
    ensures text { OnOk result (out.new.items
        ≡ out.old.items ++ slot_line catalog.now worker action.now stamp) }
    ensures storable { OnOk result (IsStorableAction action.now) }
{
    push_labelled(out, b"{\"worker\":", u64::from(worker))?;
    out.push(b',')?;
    push_action(out, catalog, action)?;
    push_stamp(out, stamp)?;
    out.push(b'}')?;
    Ok(())
}
