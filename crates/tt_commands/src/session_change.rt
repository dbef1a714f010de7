//! What becomes of a session with an answer, apart from its database.
use crate::stamps::Stamps;
use std::alloc::{AllocError, Global};
use std::marker::Model;
use tt_db::Db;
use tt_records::Record;
use tt_requests::Numbering;

/// What becomes of a session once the answer to a request is made.
#[derive(Drop)]
pub enum SessionChange {
    /// The record of the call and the stamp of its slot are kept, if there are any.
    Latest {
        record: Option<Record>,
        stamped: Option<StampedSlot>,
    },
    /// The session goes on with a database that has forgotten what lies before a time.
    Forgetting(BoxedForgetting),
}

/// A slot that has a stamp.
#[derive(Clone, Copy, Debug, PartialEq, Eq)]
pub struct StampedSlot {
    /// The number of the slot, by the numbers of the database.
    pub slot: u64,
    pub stamp: u64,
}

/// A database that has forgotten what lies before a time, and how a session goes on with it.
#[derive(Drop)]
pub struct Forgetting {
    /// The database.
    pub db: Db,
    /// The time, by the numbers of the database that hadn't forgotten.
    pub time: u64,
    /// How many slots of the database are the ground.
    pub ground_slots: u64,
    /// How the numbers of the database are told.
    pub numbering: Numbering,
    /// The stamps of the slots behind the ground.
    pub stamps: Stamps,
}

impl Model for Forgetting {
    ghost use Rattle.std.specs.Prelude.{◌≡◌, ◌≤◌, []};
    ghost use Rattle.tt_horizon.specs.GroundEntries.{HasGround};
    ghost use Rattle.tt_commands.specs.Session.{Forgetting};
    ghost use Rattle.tt_commands.specs.Sound.{IsSound};

    ghost Value = { Forgetting };

    ghost view = { λ f. record {
      db = f.db;
      time = f.time;
      ground_slots = f.ground_slots;
      numbering = f.numbering;
      stamps = f.stamps;
    } };

    ghost invariant = { λ f. IsSound f.db f.numbering [] 0 × (f.ground_slots ≤ f.time)
        × HasGround f.db f.ground_slots × (f.numbering.ground_slots ≡ f.ground_slots) };
}

/// A forgetting in a block of its own: without one, what becomes of a session is small to move.
/// Contracts see the forgetting.
#[derive(Drop)]
pub struct BoxedForgetting {
    forgetting: Box<Forgetting>,
}

impl Model for BoxedForgetting {
    ghost use Rattle.tt_commands.specs.Session.{Forgetting};

    ghost Value = { Forgetting };

    ghost view = { λ b. b.forgetting.value };
}

impl BoxedForgetting {
    ghost use Rattle.std.specs.Prelude.{◌≡◌, IfOk};

    /// Puts a forgetting into a block.
    pub(crate) fn new(alloc: Global, forgetting: Forgetting) -> Result<BoxedForgetting, AllocError>
        ensures { IfOk result (λ b. b ≡ forgetting) }
    {
        let forgetting = Box::new(alloc, forgetting)?;
        Ok(BoxedForgetting { forgetting })
    }

    /// The forgetting.
    pub fn get(&self) -> &Forgetting
        ensures { result.now ≡ self.now }
    {
        &self.forgetting
    }

    /// The forgetting itself. Its block is given back.
    pub fn into_inner(self) -> Forgetting
        ensures { result ≡ self }
    {
        let BoxedForgetting { forgetting } = self;
        Box::into_inner(forgetting)
    }
}
