//! The stamps of slots.
ghost use Rattle.std.specs.Prelude.{◌≡◌, [], drop, length, take, IfOk, OnOk, OnErr};
ghost use Rattle.std.specs.Option.{option_flatten};
ghost use Rattle.tt_db.specs.Database.{nth_item};
ghost use Rattle.tt_commands.specs.Session.{stamps_with};
ghost use Rattle.tt_commands.specs.Stamps.{EndsStamped};

use std::alloc::{AllocError, Global};
use std::marker::Model;

/// The stamps of the slots behind the ground, up to the last one that has a stamp. Places are those
/// behind the ground, from 1.
#[derive(Drop)]
pub struct Stamps {
    stamps: Vec<Option<u64>>,
}

impl Model for Stamps {
    ghost use Rattle.std.specs.Prelude.{ℕ, List, Option};
    ghost use Rattle.tt_commands.specs.Stamps.{EndsStamped};

    ghost Value = { List (Option ℕ) };

    ghost view = { λ s. s.stamps.items };

    ghost invariant = { λ s. EndsStamped s.stamps.items };
}

impl Stamps {
    /// No stamps. Takes no memory.
    pub(crate) fn new(alloc: Global) -> Stamps
        ensures { result ≡ [] }
    {
        Stamps {
            stamps: Vec::new(alloc),
        }
    }

    /// Adds the stamp of a further slot. The slots between have none. Where memory runs out, the
    /// stamps stay as they are.
    pub(crate) fn put(&mut self, place: u64, stamp: u64) -> Result<(), AllocError>
        ensures ok { OnOk result (self.new ≡ stamps_with self.old place stamp) }
        ensures err { OnErr result (self.new ≡ self.old) }
    {
        let before = (place.saturating_sub(1) as usize).max(self.stamps.len());
        self.stamps
            .reserve(before.saturating_add(1) - self.stamps.len())?;
        self.stamps.resize(before, None)?;
        self.stamps.push_reserved(Some(stamp));
        Ok(())
    }

    /// Keeps the stamps of the first places, at most this many.
    pub(crate) fn truncate(&mut self, count: usize)
        requires { EndsStamped (take count self.old) }
        ensures { self.new ≡ take count self.old }
    {
        self.stamps.truncate(count);
    }

    /// The stamp of the slot at a place, if it has one.
    pub fn get(&self, place: u64) -> Option<u64>
        ensures { result ≡ option_flatten (nth_item self.now place) }
    {
        let before = place.checked_sub(1)?;
        self.stamps.get(before as usize).copied().flatten()
    }

    /// How many places there are, up to the last one whose slot has a stamp.
    pub fn len(&self) -> usize
        ensures value { result ≡ length self.now }
        ensures sound { EndsStamped self.now }
    {
        self.stamps.len()
    }

    /// The stamps without those of this many places.
    pub(crate) fn behind(&self, alloc: Global, count: u64) -> Result<Stamps, AllocError>
        ensures { IfOk result (λ s. s ≡ drop count self.now) }
    {
        let first = (count as usize).min(self.stamps.len());
        let stamps = Vec::from_slice(alloc, &self.stamps[first..])?;
        Ok(Stamps { stamps })
    }
}
