//! Why a list of edits is refused.
ghost use Rattle.std.specs.Prelude.{◌≡◌, ◌==◌, [], ◌++◌, length};
ghost use Rattle.std.specs.List.{list_any};
ghost use Rattle.tt_repair_laws.specs.Edits.{slot_number};
ghost use Rattle.tt_db.specs.State.{edits_fault, missing_slot, slot_edited_twice};

use tt_generations::Edit;
use tt_values::{Catalog, CheckError, check_action};

/// The fault of the first edit whose action has one. Allocates nothing.
pub(crate) fn edits_fault(catalog: &Catalog, edits: &[Edit]) -> Option<CheckError>
    ensures { result ≡ edits_fault catalog.now edits.now }
{
    for edit in edits {
        if let Edit::Replace(_, action) = edit {
            if let Err(fault) = check_action(catalog, action) {
                return Some(fault);
            }
        }
    }
    None
}

/// The slot of the first edit whose slot isn't among this number of slots. Allocates nothing.
pub(crate) fn missing_slot(slots: u64, edits: &[Edit]) -> Option<u64>
    ensures { result ≡ missing_slot slots edits.now }
{
    for edit in edits {
        let number = edit.number();
        if number == 0 || number > slots {
            return Some(number);
        }
    }
    None
}

/// The slot of the first edit whose slot an earlier edit has. Allocates nothing, so it compares
/// each edit with those before it.
pub(crate) fn slot_edited_twice(edits: &[Edit]) -> Option<u64>
    ensures { result ≡ slot_edited_twice [] edits.now }
{
    for position in 0..edits.len() {
        let number = edits[position].number();
        if has_slot(&edits[..position], number) {
            return Some(number);
        }
    }
    None
}

fn has_slot(edits: &[Edit], number: u64) -> bool
    ensures { result ≡ list_any (λ e. number == slot_number e) edits.now }
{
    edits.iter().any(|edit| number == edit.number())
}
