//! The slots of a database, beside records that name most of them in their order.
ghost use Rattle.std.specs.Prelude.{◌≡◌};
ghost use Rattle.std.specs.Option.{option_copied};
ghost use Rattle.tt_generations.specs.KeptSlots.{slot_at};
ghost use Rattle.tt_db.specs.Database.{state_of};

use std::marker::Model;
use tt_db::{Db, Slot, Slots};

/// A database whose slots are asked for by their numbers, as [`change_of`](crate::change_of) does
/// for the records of writes. The slot behind the last one that was asked for is at hand, and any
/// other has to be looked up, so records are best compared in the order of their calls. Contracts
/// see the database.
#[derive(Drop)]
pub struct SlotsInOrder<'a> {
    db: &'a Db,
    /// How many slots lie before those that are left.
    passed: u64,
    left: Slots<'a>,
}

impl<'a> Model for SlotsInOrder<'a> {
    ghost use Rattle.tt_generations.specs.SlotsAfter.{AreSlotsAfter};
    ghost use Rattle.tt_db.specs.Database.{Database, state_of};

    ghost Value = { Database };

    ghost view = { λ s. s.db.now };

    ghost invariant = { λ s. AreSlotsAfter s.passed (state_of s.db.now).slots s.left };
}

impl<'a> SlotsInOrder<'a> {
    /// The slots of a database, before the first one.
    pub fn new(db: &'a Db) -> Self
        ensures { result ≡ db.now }
    {
        SlotsInOrder {
            db,
            passed: 0,
            left: db.slots_after(0),
        }
    }

    /// The database.
    pub fn db(&self) -> &'a Db
        ensures { result.now ≡ self.now }
    {
        self.db
    }

    /// The slot of a number, counted from 1, in the current generation.
    pub(crate) fn slot(&mut self, number: u64) -> Option<&'a Slot>
        ensures slot { option_copied result ≡ slot_at (state_of self.old).slots number }
        ensures database { self.new ≡ self.old }
    {
        let before = number.checked_sub(1)?;
        if before != self.passed {
            self.left = self.db.slots_after(before);
        }
        self.passed = number;
        self.left.next()
    }
}
