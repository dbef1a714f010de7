//! The repair that a request asks about: the one under way, or one that closed a generation.
ghost use Rattle.std.specs.Prelude.{◌≡◌, Ok, map, option_map, IfOk};
ghost use Rattle.tt_generations.specs.SlotCauses.{cause_told};
ghost use Rattle.tt_generations.specs.RowChanges.{change_told};
ghost use Rattle.tt_db.specs.Differences.{ArePage};
ghost use Rattle.tt_commands.specs.AskedRepairs.{closing, asked_repair, done_by, cause_by, next_redone_by};
ghost use Rattle.tt_commands.specs.DiffEntries.{differences_by};

use crate::open_session::OpenSession;
use crate::reading::last_time_in;
use crate::told_requests::no_generation;
use std::alloc::AllocError;
use tt_answers::Refusal;
use tt_db::{Cause, Db, FirstChanges, ReadError, RowChange};
use tt_requests::ToldGeneration;
use tt_values::Items;

/// A repair that a request asks about.
#[derive(Clone, Copy)]
pub(crate) enum AskedRepair {
    /// The one under way.
    UnderWay,
    /// The one that closed this generation of the database, which is kept.
    Closing(u64),
}

impl AskedRepair {
    /// The repair that closed a generation as it is told; the one under way where none is told.
    pub(crate) fn of(
        session: &OpenSession,
        generation: Option<ToldGeneration>,
    ) -> Result<AskedRepair, Refusal>
        ensures { result ≡ asked_repair session.now generation }
    {
        match generation {
            Some(generation) => match session.numbering().own_generation(generation) {
                Some(number) => AskedRepair::closing(session, number),
                None => Err(no_generation(session)),
            },
            None if session.db().is_repairing() => Ok(AskedRepair::UnderWay),
            None => Err(Refusal::Read(ReadError::NotRepairing)),
        }
    }

    /// The repair that closed a generation of the database, which has to be kept.
    fn closing(session: &OpenSession, number: u64) -> Result<AskedRepair, Refusal>
        ensures { result ≡ closing session.now number }
    {
        let db = session.db();
        if number != db.generation() && db.last_time(number).is_some() {
            Ok(AskedRepair::Closing(number))
        } else {
            Err(no_generation(session))
        }
    }

    /// How many slots it has done. One that closed a generation did all of its slots.
    pub(crate) fn done(self, db: &Db) -> u64
        ensures { result ≡ done_by db.now self }
    {
        match self {
            AskedRepair::UnderWay => db.slots_done(),
            AskedRepair::Closing(number) => last_time_in(db, number),
        }
    }

    /// Why it re-executed the slot of a number of the database, if it did. Takes no memory.
    pub(crate) fn cause<'a>(self, db: &'a Db, number: u64) -> Option<Cause<'a>>
        ensures { option_map cause_told result ≡ cause_by db.now self number }
    {
        match self {
            AskedRepair::UnderWay => db.cause(number),
            AskedRepair::Closing(generation) => db.cause_in(generation, number),
        }
    }

    /// The number of the first slot behind one that it re-executed. Takes no memory, and time
    /// logarithmic in the number of re-executed slots.
    pub(crate) fn next_redone(self, db: &Db, before: u64) -> Option<u64>
        ensures { result ≡ next_redone_by db.now self before }
    {
        // For the proof: no more slots are done than there are.
        let _ = db.slots_left();
        match self {
            AskedRepair::UnderWay => db.next_redone(before),
            AskedRepair::Closing(generation) => db.next_redone_in(generation, before),
        }
    }

    /// The rows of a table that differ between the generations at the last slot that it has done,
    /// by rising key. The table and the repair have to be there.
    pub(crate) fn diff(self, db: &Db, table: u16) -> Result<Items<RowChange>, AllocError>
        ensures { IfOk result (λ changes.
            map change_told changes ≡ differences_by db.now self table) }
    {
        match self {
            AskedRepair::UnderWay => unrefused(db.diff(table)),
            AskedRepair::Closing(generation) => unrefused(db.diff_in(generation, table)),
        }
    }

    /// Of those rows, the ones with greater keys than `after`, if that is given: the first `most`
    /// of them, and whether more follow.
    pub(crate) fn diff_page(
        self,
        db: &Db,
        table: u16,
        after: Option<i64>,
        most: u32,
    ) -> Result<FirstChanges, AllocError>
        ensures { IfOk result (λ page.
            ArePage after most (differences_by db.now self table) page) }
    {
        match self {
            AskedRepair::UnderWay => unrefused(db.diff_page(table, after, most)),
            AskedRepair::Closing(generation) => {
                unrefused(db.diff_page_in(generation, table, after, most))
            }
        }
    }
}

/// What a read returned that isn't refused: where it returned nothing, there was no memory.
fn unrefused<T: Drop>(read: Result<T, ReadError>) -> Result<T, AllocError>
    ensures { IfOk result (λ value. read ≡ Ok value) }
{
    match read {
        Ok(value) => Ok(value),
        Err(_) => Err(AllocError),
    }
}
