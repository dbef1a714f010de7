//! How a session tells the numbers of its database.
ghost use Rattle.std.specs.Prelude.{◌≡◌, ◌≤◌, ◌<◌, ◌^◌, ◌-◌, nat_lt, ◌==◌};

use crate::told::{ToldGeneration, ToldTime};
use std::marker::Model;

/// A horizon, and a generation in which a session forgets, are below this number.
pub const NUMBER_LIMIT: u64 = 1 << 63;

/// How a session tells the slots, times and generations of its database. When the session forgets
/// what lies before a time, its database begins anew with the ground, and its own numbers do; those
/// that are told go on.
#[derive(Clone, Copy, Debug)]
pub struct Numbering {
    /// The time that was last forgotten up to, as it is told; 0 at first.
    horizon: u64,
    /// How many slots of the database are the ground; 0 at first.
    ground_slots: u64,
    /// The generation of the last forgetting, as it is told; 0 at first.
    generations: u64,
}

impl Model for Numbering {
    ghost use Rattle.tt_requests.specs.Numbers.{Numbering, IsNumbering};

    ghost Value = { Numbering };

    ghost view = { λ n. record {
      horizon = n.horizon;
      ground_slots = n.ground_slots;
      generations = n.generations;
    } };

    ghost inverse = { λ n. record {
      horizon = n.horizon;
      ground_slots = n.ground_slots;
      generations = n.generations;
    } };

    ghost invariant = { λ n. IsNumbering (record {
      horizon = n.horizon;
      ground_slots = n.ground_slots;
      generations = n.generations;
    }) };
}

impl Numbering {
    ghost use Rattle.tt_requests.specs.Numbers.{nothing_forgotten, told_time, own_time, is_forgotten_time, is_behind_horizon, told_generation, own_generation, number_limit, IsNumbering};

    /// The numbering of a session that has forgotten nothing.
    pub const fn new() -> Numbering
        ensures { result ≡ nothing_forgotten }
    {
        Numbering {
            horizon: 0,
            ground_slots: 0,
            generations: 0,
        }
    }

    /// The numbering after what lies before a time was forgotten in a generation, both as they are
    /// told. The first `ground_slots` slots of the database are the ground.
    pub fn behind(time: ToldTime, ground_slots: u64, generation: ToldGeneration) -> Numbering
        requires within { ground_slots ≤ time.number }
        requires time { time.number < number_limit }
        requires generation { generation.number < number_limit }
        ensures { result ≡ record {
          horizon = time.number;
          ground_slots = ground_slots;
          generations = generation.number;
        } }
    {
        Numbering {
            horizon: time.number,
            ground_slots,
            generations: generation.number,
        }
    }

    /// The time that was last forgotten up to; 0 where nothing was forgotten.
    pub fn horizon(&self) -> ToldTime
        ensures value { result ≡ record { number = self.now.horizon } }
        ensures sound { IsNumbering self.now }
    {
        ToldTime {
            number: self.horizon,
        }
    }

    /// How many slots of the database are the ground.
    pub fn ground_slots(&self) -> u64
        ensures { result ≡ self.now.ground_slots }
    {
        self.ground_slots
    }

    /// The generation of the last forgetting; 0 where nothing was forgotten.
    pub fn generation(&self) -> ToldGeneration
        ensures { result ≡ record { number = self.now.generations } }
    {
        ToldGeneration {
            number: self.generations,
        }
    }

    /// How a slot of the database, or a time, is told.
    pub fn told_time(&self, own: u64) -> ToldTime
        ensures { result ≡ told_time self.now own }
    {
        ToldTime {
            number: own.saturating_add(self.horizon - self.ground_slots),
        }
    }

    /// The slot of the database, or the time, that is told as this. Of one that lies before the
    /// horizon nothing is meant.
    pub fn own_time(&self, told: ToldTime) -> u64
        ensures { result ≡ own_time self.now told }
    {
        told.number.saturating_sub(self.horizon - self.ground_slots)
    }

    /// Whether a time lies before the horizon.
    pub fn is_forgotten_time(&self, told: ToldTime) -> bool
        ensures { result ≡ is_forgotten_time self.now told }
    {
        told.number < self.horizon
    }

    /// Whether a slot lies behind the horizon.
    pub fn is_behind_horizon(&self, told: ToldTime) -> bool
        ensures { result ≡ is_behind_horizon self.now told }
    {
        self.horizon < told.number
    }

    /// How a generation of the database is told.
    pub fn told_generation(&self, own: u64) -> ToldGeneration
        ensures { result ≡ told_generation self.now own }
    {
        ToldGeneration {
            number: own.saturating_add(self.generations),
        }
    }

    /// The generation of the database that is told as this; None for one before the last
    /// forgetting.
    pub fn own_generation(&self, told: ToldGeneration) -> Option<u64>
        ensures { result ≡ own_generation self.now told }
    {
        told.number.checked_sub(self.generations)
    }
}
