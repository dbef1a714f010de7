//! The ground of a database: its rows at a time, inserted into a database that had none.
ghost use Rattle.std.specs.Prelude.{◌≡◌, [], ◌∷◌, true, map, IfOk, OnOk};
ghost use Rattle.tt_values.specs.Action.{action_of};
ghost use Rattle.tt_db.specs.Database.{with_entry, current_of_db};
ghost use Rattle.tt_horizon.specs.Ground.{inserts_of};
ghost use Rattle.tt_horizon.specs.GroundEntries.{is_of_ground, IsGround};
ghost use Rattle.tt_horizon.specs.Laying.{ground_entry, database_of_ground, AddsWrites, with_last};

use crate::laying::lay;
use std::alloc::{AllocError, Global};
use std::mem;
use tt_db::Db;
use tt_values::{Action, Items, Reply, Row, Select, Write};

/// How many writes an action of the ground has, but for the last one.
const GROUND_WRITES: usize = 16;

/// A database that is being laid, and the inserts that wait for its next action.
#[derive(Drop)]
struct Ground {
    alloc: Global,
    db: Db,
    waiting: Vec<Write>,
}

/// A database of the rows that another one has at a time, with its catalog and its limits. The two
/// share the values of the rows.
pub(crate) fn database_of_rows(alloc: Global, db: &Db, time: u64) -> Result<Db, AllocError>
    ensures rows { IfOk result (λ next. next ≡ database_of_ground db.now time) }
    ensures ground { IfOk result (λ next. IsGround next) }
{
    let emptied = db.emptied()?;
    let waiting = Vec::with_capacity(alloc, GROUND_WRITES)?;
    let mut ground = Ground {
        alloc,
        db: emptied,
        waiting,
    };
    let tables = db.catalog().len() as u16;
    for table in 0..tables {
        ground.add_table(db, table, time)?;
    }
    ground.finished()
}

impl Ground {
    /// Adds the rows that a table of a database has at a time.
    fn add_table(&mut self, db: &Db, table: u16, time: u64) -> Result<(), AllocError>
        ensures { OnOk result
            (AddsWrites self.old self.new (inserts_of table (current_of_db db.now time table))) }
    {
        let shared = rows_at(self.alloc, db, table, time)?;
        let rows = shared.as_slice();
        for row in rows {
            let row = row.copy()?;
            self.add(Write::Insert { table, row })?;
        }
        Ok(())
    }

    /// Adds a write. It waits until an action is full.
    fn add(&mut self, write: Write) -> Result<(), AllocError>
        ensures { OnOk result (AddsWrites self.old self.new (write ∷ [])) }
    {
        self.waiting.push(write)?;
        if self.waiting.len() == GROUND_WRITES {
            self.carry_out_waiting()?;
        }
        Ok(())
    }

    /// Carries out the writes that wait, as one action.
    fn carry_out_waiting(&mut self) -> Result<(), AllocError>
        ensures db { OnOk result (self.new.db
            ≡ with_entry self.old.db (ground_entry self.old.waiting.items)) }
        ensures ground { OnOk result
            (is_of_ground self.old.db (action_of self.old.waiting.items) ≡ true) }
        ensures waiting { OnOk result (self.new.waiting.items ≡ []) }
    {
        let none = Vec::with_capacity(self.alloc, GROUND_WRITES)?;
        let waiting = mem::replace(&mut self.waiting, none);
        let writes = Items::new(self.alloc, waiting)?;
        lay(&mut self.db, Action::of(writes))?;
        Ok(())
    }

    /// The database, with the writes that still wait as its last action.
    fn finished(self) -> Result<Db, AllocError>
        ensures last { IfOk result (λ db. db ≡ with_last self.db self.waiting.items) }
        ensures ground { IfOk result (λ db. IsGround self.db → IsGround db) }
    {
        let mut ground = self;
        if ground.waiting.is_empty() {
            return Ok(ground.db);
        }
        ground.carry_out_waiting()?;
        Ok(ground.db)
    }
}

/// The rows of a table at a time, by rising key.
fn rows_at(alloc: Global, db: &Db, table: u16, time: u64) -> Result<Items<Row>, AllocError>
    ensures { IfOk result (λ rows. rows ≡ map (λ e. e.1) (current_of_db db.now time table)) }
{
    let all = Select::all(alloc, table)?;
    match db.select_at(&all, time) {
        Ok(Reply::Rows(rows)) => Ok(rows),
        // The select has no fault, and the time isn't later than now, so there is no memory.
        _ => Err(AllocError),
    }
}
