ghost use Rattle.std.specs.Prelude.{◌≡◌, OnOk};
ghost use Rattle.tt_db.specs.Database.{with_entry};
ghost use Rattle.tt_horizon.specs.Forgetting.{entry_of};

use std::alloc::AllocError;
use tt_db::Db;
use tt_values::Action;

/// Carries out an action of a worker, where a database doesn't refuse it. Without memory nothing is
/// promised of the database.
pub(crate) fn carry_out(db: &mut Db, worker: u32, action: Action) -> Result<(), AllocError>
    ensures { OnOk result (db.new ≡ with_entry db.old (entry_of worker action)) }
{
    match db.write(worker, action) {
        Ok(_) => Ok(()),
        // It isn't refused, so there is no memory.
        Err(_) => Err(AllocError),
    }
}
