//! The edits of a repair, by the numbers of their slots.
ghost use Rattle.std.specs.Prelude.{◌≡◌, ◌≤◌, IfOk};
ghost use Rattle.std.specs.List.{All};
ghost use Rattle.tt_repair_laws.specs.Edits.{slot_number, replacement_of};
ghost use Rattle.tt_generations.specs.Limits.{max_slots};
ghost use Rattle.tt_generations.specs.EditsByNumber.{HasEdits};

use std::alloc::{AllocError, Global};
use tt_pages::{Kept, PagedMap};
use tt_repair_laws::Edit;
use tt_values::Action;

/// The action that an edit puts into its slot, or none where it cancels the slot.
#[derive(Drop)]
pub(crate) struct Replacement {
    pub(crate) action: Option<Action>,
}

impl Kept for Replacement {
    fn kept(&self) -> Result<Self, AllocError> {
        match &self.action {
            Some(action) => Ok(Replacement {
                action: Some(action.clone()?),
            }),
            None => Ok(Replacement { action: None }),
        }
    }
}

/// The replacements of edits by the numbers of their slots. Where several edits name one slot, the
/// first counts.
pub(crate) fn replacements_of(
    alloc: Global,
    edits: &[Edit],
) -> Result<PagedMap<Replacement>, AllocError>
    requires { All (λ e. slot_number e ≤ max_slots) edits.now }
    ensures { IfOk result (λ map. HasEdits map edits.now) }
{
    let mut replacements = PagedMap::new(alloc);
    let mut left = edits.len();
    while left > 0 {
        left -= 1;
        let edit = &edits[left];
        let replacement = replacement_of(edit)?;
        replacements.put(edit.number() as i64, replacement)?;
    }
    Ok(replacements)
}

fn replacement_of(edit: &Edit) -> Result<Replacement, AllocError>
    ensures { IfOk result (λ r. r.action ≡ replacement_of edit.now) }
{
    let action = match edit {
        Edit::Cancel(_) => None,
        Edit::Replace(_, action) => Some(action.clone()?),
    };
    Ok(Replacement { action })
}
