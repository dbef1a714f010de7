ghost use Rattle.std.specs.Prelude.{◌≡◌, map};

use crate::slot::{KeptSlot, Slot};
use std::marker::Model;
use tt_pages::LogIter;

/// An iterator over slots with their replies, in their order.
#[derive(Drop)]
pub struct Slots<'a> {
    kept: LogIter<'a, KeptSlot>,
}

impl<'a> Model for Slots<'a> {
    ghost use Rattle.std.specs.Prelude.{List, map};
    ghost use Rattle.tt_generations.specs.declared.slot.Slot.{Slot};

    ghost Value = { List Slot };

    ghost view = { λ left. map (λ k. k.slot) left.kept };
}

impl<'a> Slots<'a> {
    /// The slots of what is kept, in the same order.
    pub(crate) fn of(kept: LogIter<'a, KeptSlot>) -> Self
        ensures { result ≡ map (λ k. k.slot) kept.entry }
    {
        Slots { kept }
    }
}

impl<'a> Iterator for Slots<'a> {
    ghost use Rattle.std.specs.Iterator.{YieldsFirstRef, item_count};

    type Item = &'a Slot;

    ghost next_gives = { YieldsFirstRef (λ left. left) };

    ghost remaining = { item_count (λ left. left) };

    fn next(&mut self) -> Option<&'a Slot> {
        let kept = self.kept.next()?;
        Some(&kept.slot)
    }
}
