//! What a database is made again from.
ghost use Rattle.std.specs.Prelude.{◌≡◌, ◌++◌, ◌∷◌, ◌≤◌, [], List, length, drop, OnOk, OnErr, IfOk};
ghost use Rattle.tt_db.specs.declared.event.Entry.{Entry};
ghost use Rattle.tt_session.specs.Recovery.{with_entries, ComesFrom};

use std::alloc::{AllocError, Global};
use std::marker::Model;
use tt_db::{Db, Entry};

/// A checkpoint with more entries than this is taken anew. So the pages that it shares with the
/// database that goes on are copied seldom, and few entries are carried out again.
const MAX_ENTRIES: u64 = 1024;

/// A database as it was some entries before, and these entries: what it has become can be made
/// again from both. Contracts see the database that they lead to.
#[derive(Drop)]
pub(crate) struct Checkpoint {
    db: Db,
    entries: Vec<Entry>,
}

impl Model for Checkpoint {
    ghost use Rattle.tt_db.specs.Database.{Database};
    ghost use Rattle.tt_session.specs.Recovery.{with_entries};

    ghost Value = { Database };

    ghost view = { λ c. with_entries c.db c.entries.items };
}

impl Checkpoint {
    /// A checkpoint of a database. Copies no entry and no row.
    pub(crate) fn of(alloc: Global, db: &Db) -> Result<Checkpoint, AllocError>
        ensures { IfOk result (λ checkpoint. checkpoint ≡ db.now) }
    {
        Ok(Checkpoint {
            db: db.share()?,
            entries: Vec::new(alloc),
        })
    }

    /// Catches up with what the database has become. Where memory runs out, the checkpoint may
    /// have caught up with a part of that.
    pub(crate) fn catch_up(&mut self, alloc: Global, db: &Db) -> Result<(), AllocError>
        requires { ComesFrom self.old db.now }
        ensures ok { OnOk result (self.new ≡ db.now) }
        ensures part { ComesFrom self.new db.now }
    {
        let count = db.events();
        let known_count = self.db.events() + self.entries.len() as u64;
        if count - self.db.events() <= MAX_ENTRIES {
            return push_entries(&mut self.entries, db, known_count);
        }
        *self = Checkpoint::of(alloc, db)?;
        Ok(())
    }

    /// The database that this leads to.
    pub(crate) fn database(&self) -> Result<Db, AllocError>
        ensures { IfOk result (λ db. db ≡ self.now) }
    {
        let mut db = self.db.share()?;
        carry_out(&mut db, &self.entries)?;
        Ok(db)
    }
}

/// Adds the entries of a database behind the first `known_count`. Where memory runs out, some of
/// the first ones may be added.
fn push_entries(entries: &mut Vec<Entry>, db: &Db, known_count: u64) -> Result<(), AllocError>
    requires { known_count ≤ length db.now.history }
    ensures ok { OnOk result
        (entries.new.items ≡ entries.old.items ++ drop known_count db.now.history) }
    ensures part { (rest : List Entry)
        × (entries.new.items ++ rest ≡ entries.old.items ++ drop known_count db.now.history) }
{
    for place in known_count..db.events() {
        let Some(entry) = db.entry(place + 1) else {
            unreachable!();
        };
        push_copy(entries, entry)?;
    }
    Ok(())
}

/// Adds a copy of an entry. Where memory runs out, there is no further one.
fn push_copy(entries: &mut Vec<Entry>, entry: &Entry) -> Result<(), AllocError>
    ensures ok { OnOk result (entries.new.items ≡ entries.old.items ++ entry.now ∷ []) }
    ensures err { OnErr result (entries.new.items ≡ entries.old.items) }
{
    entries.push(entry.clone()?)?;
    Ok(())
}

/// Carries out entries that a database accepted once, behind those that were before them. Without
/// memory nothing is promised of the database.
fn carry_out(db: &mut Db, entries: &[Entry]) -> Result<(), AllocError>
    ensures { OnOk result (db.new ≡ with_entries db.old entries.now) }
{
    for entry in entries {
        let copy = entry.clone()?;
        // None is refused again, so an error is want of memory.
        let Ok(_) = db.advance(copy) else {
            return Err(AllocError);
        };
    }
    Ok(())
}
