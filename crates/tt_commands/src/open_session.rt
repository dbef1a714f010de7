//! A session that is open.
ghost use Rattle.std.specs.Prelude.{◌≡◌, ◌+◌, ◌<◌, ◌≤◌, ◌-◌, ◌^◌, true, false, drop, length, OnOk, OnErr, IfOk};
ghost use Rattle.tt_requests.specs.Opening.{max_keep, max_records};
ghost use Rattle.tt_commands.specs.Session.{counted, opened, stamp_of, terms_of, with_database, with_latest_if, with_stamp_if};
ghost use Rattle.tt_commands.specs.Changes.{forgotten_by, with_change};
ghost use Rattle.tt_commands.specs.Invariants.{IsOpenSession};
ghost use Rattle.tt_commands.specs.Session.{reopened_by, with_most_records};
ghost use Rattle.tt_commands.specs.Grounds.{opened_on};

mod advancing;

use crate::records::Records;
use crate::session_change::{BoxedForgetting, Forgetting, SessionChange, StampedSlot};
use crate::stamps::Stamps;
use crate::terms::Terms;
use std::alloc::{AllocError, Global};
use std::marker::Model;
use tt_db::{Db, Limits};
use tt_records::Record;
use tt_requests::{LogOpening, Numbering, Opening};

/// A session that is open: its database, how its numbers are told, the stamps of its slots, and the
/// records of its last calls.
pub struct OpenSession {
    alloc: Global,
    db: Db,
    numbering: Numbering,
    stamps: Stamps,
    records: Records,
    /// How many records are kept at most.
    most_records: u32,
    /// How many calls there were.
    calls: u64,
    /// Whether an opening was accepted since the session was made or read back.
    has_opening: bool,
}

impl Model for OpenSession {
    ghost use Rattle.tt_commands.specs.Session.{OpenSession};
    ghost use Rattle.tt_commands.specs.Sound.{IsSound};

    ghost Value = { OpenSession };

    ghost view = { λ s. record {
      database = s.db;
      numbering = s.numbering;
      stamps = s.stamps;
      records = s.records;
      most_records = s.most_records;
      calls = s.calls;
      has_opening = s.has_opening;
    } };

    ghost invariant = { λ s. IsSound s.db s.numbering s.records s.most_records };
}

// Written out, so that each place that lets a session go calls one function.
impl Drop for OpenSession {
    fn drop(self) {
        let OpenSession {
            alloc: _,
            db: _,
            numbering: _,
            stamps: _,
            records: _,
            most_records: _,
            calls: _,
            has_opening: _,
        } = self;
    }
}

impl OpenSession {
    /// The session that an opening asks for, before its first call. Takes no memory.
    pub fn new(alloc: Global, opening: Opening) -> OpenSession
        requires keep { opening.keep ≤ max_keep }
        requires records { opening.records ≤ max_records }
        ensures { result ≡ opened opening }
    {
        let Opening {
            catalog,
            keep,
            records,
        } = opening;
        let limits = Limits {
            keep,
            ..Limits::usual()
        };
        let db = Db::new(alloc, catalog.into_arc(), limits);
        // For the proof: the catalog is sound, and the history is legal.
        let _ = (db.catalog().len(), db.events());
        OpenSession {
            alloc,
            db,
            numbering: Numbering::new(),
            stamps: Stamps::new(alloc),
            records: Records::new(alloc),
            most_records: records,
            calls: 0,
            has_opening: true,
        }
    }

    /// The session that the opening of a log opens, before its ground is laid. Takes no memory.
    pub fn on_ground(alloc: Global, log: LogOpening) -> OpenSession
        requires keep { log.opening.keep ≤ max_keep }
        requires records { log.opening.records ≤ max_records }
        ensures { result ≡ opened_on log }
    {
        let LogOpening { opening, numbering } = log;
        let mut session = OpenSession::new(alloc, opening);
        session.numbering = numbering;
        session
    }

    /// The allocator of what the session makes.
    pub fn alloc(&self) -> Global {
        self.alloc
    }

    /// The database. The session is sound: the history is legal, there is room in it for the end of
    /// a repair that is under way, and no more records are kept than may be.
    pub fn db(&self) -> &Db
        ensures value { result.now ≡ self.now.database }
        ensures sound { IsOpenSession self.now }
    {
        &self.db
    }

    /// How the slots, times and generations of the database are told.
    pub fn numbering(&self) -> Numbering
        ensures { result ≡ self.now.numbering }
    {
        self.numbering
    }

    /// The stamp of a slot of the database, if it is behind the ground and has one.
    pub fn stamp_of(&self, slot: u64) -> Option<u64>
        ensures { result ≡ stamp_of self.now slot }
    {
        self.stamps.get(self.place_of(slot))
    }

    /// The place of a slot of the database behind the ground, from 1, and 0 if it isn't behind it.
    fn place_of(&self, slot: u64) -> u64
        ensures { result ≡ slot - self.now.numbering.ground_slots }
    {
        slot.saturating_sub(self.numbering.ground_slots())
    }

    /// The stamps of the slots behind a time of the database.
    pub(crate) fn stamps_behind(&self, time: u64) -> Result<Stamps, AllocError>
        ensures { IfOk result (λ stamps.
            stamps ≡ drop (time - self.now.numbering.ground_slots) self.now.stamps) }
    {
        self.stamps.behind(self.alloc, self.place_of(time))
    }

    /// The records of the last calls.
    pub(crate) fn records(&self) -> &Records
        ensures { result.now ≡ self.now.records }
    {
        &self.records
    }

    /// Takes an opening that asks for what the session has. The first one since the session was
    /// read back says how many records are kept.
    pub fn take_opening(&mut self, opening: &Opening)
        requires { opening.now.records ≤ max_records }
        ensures { self.new ≡ reopened_by self.old opening.now }
    {
        if !self.has_opening {
            self.keep_at_most(opening.records);
            self.has_opening = true;
        }
    }

    /// No opening was accepted since the session was read back.
    pub fn await_opening(&mut self)
        ensures { self.new ≡ record self.old { has_opening = false } }
    {
        self.has_opening = false;
    }

    /// Keeps no more records than this from now on.
    fn keep_at_most(&mut self, most: u32)
        requires { most ≤ max_records }
        ensures { self.new ≡ with_most_records self.old most }
    {
        self.records.keep_last(most as usize);
        self.most_records = most;
    }

    /// What the opening of the session has asked for, beside its database.
    pub fn terms(&self) -> Terms
        ensures terms { result ≡ terms_of self.now }
        ensures few { result.most_records ≤ max_records }
    {
        Terms {
            most_records: self.most_records,
        }
    }

    /// How many calls there were.
    pub fn calls(&self) -> u64
        ensures { result ≡ self.now.calls }
    {
        self.calls
    }

    /// Counts a call, and returns its number. Takes no memory.
    pub fn count_call(&mut self) -> u64
        requires { self.old.calls < 2 ^ 64 - 1 }
        ensures call { result ≡ self.old.calls + 1 }
        ensures session { self.new ≡ counted self.old }
    {
        self.calls += 1;
        self.calls
    }

    /// Takes back the last call that was counted. Takes no memory.
    pub fn take_back_call(&mut self)
        requires { 0 < self.old.calls }
        ensures { self.new ≡ record self.old { calls = self.old.calls - 1 } }
    {
        self.calls -= 1;
    }

    /// Carries out what becomes of the session with an answer. Where memory runs out, the session
    /// is as before.
    pub fn change(&mut self, change: SessionChange) -> Result<(), AllocError>
        ensures session { OnOk result (self.new ≡ with_change self.old change) }
        ensures stays { OnErr result (self.new ≡ self.old) }
    {
        match change {
            SessionChange::Latest { record, stamped } => self.keep(record, stamped),
            SessionChange::Forgetting(forgetting) => {
                self.go_on_behind(forgetting);
                Ok(())
            }
        }
    }

    /// Keeps the record of the last call and the stamp of its slot, if there are any. Where memory
    /// runs out, the session is as before.
    fn keep(
        &mut self,
        latest: Option<Record>,
        stamped: Option<StampedSlot>,
    ) -> Result<(), AllocError>
        ensures session { OnOk result
            (self.new ≡ with_stamp_if (with_latest_if self.old latest) stamped) }
        ensures stays { OnErr result (self.new ≡ self.old) }
    {
        let Some(StampedSlot { slot, stamp }) = stamped else {
            return self.keep_record(latest);
        };
        let place = self.place_of(slot);
        let len = self.stamps.len();
        self.stamps.put(place, stamp)?;
        let kept = self.keep_record(latest);
        if kept.is_err() {
            self.stamps.truncate(len);
        }
        kept
    }

    /// Keeps the record of the last call, if there is one. Where memory runs out, the session is as
    /// before.
    fn keep_record(&mut self, latest: Option<Record>) -> Result<(), AllocError>
        ensures session { OnOk result (self.new ≡ with_latest_if self.old latest) }
        ensures stays { OnErr result (self.new ≡ self.old) }
    {
        match latest {
            Some(latest) => self.records.put(latest, self.most_records as usize),
            None => Ok(()),
        }
    }

    /// Goes on with a database that has forgotten what lies before a time.
    pub fn go_on_behind(&mut self, forgetting: BoxedForgetting)
        ensures { self.new ≡ forgotten_by self.old forgetting }
    {
        let Forgetting {
            db,
            time,
            ground_slots,
            numbering,
            stamps,
        } = forgetting.into_inner();
        self.records.forget_before(time, ground_slots);
        self.db = db;
        self.numbering = numbering;
        self.stamps = stamps;
    }

    /// Goes on with another database, with which the session is sound. Takes no memory.
    pub fn set_database(&mut self, db: Db)
        requires { IsOpenSession (with_database self.old db) }
        ensures { self.new ≡ with_database self.old db }
    {
        self.db = db;
    }
}
