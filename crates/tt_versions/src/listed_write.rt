ghost use Rattle.std.specs.Prelude.{◌≡◌, OnOk};
ghost use Rattle.std.specs.List.{All};
ghost use Rattle.tt_versions.specs.Versions.{last_row};
ghost use Rattle.tt_versions.specs.Lineage.{with_write_on};
ghost use Rattle.tt_versions.specs.Index.{ListsCurrent, MovesWrite, StartsBy, FitsWrite};

use crate::index::Index;
use crate::lineage::Lineage;
use crate::row_change::RowChange;
use crate::row_write::RowWrite;
use crate::side::Side;
use std::alloc::AllocError;
use tt_pages::ModifyWith;

/// A row with a key, or none, is written, and listed in the index of the table.
#[derive(Drop)]
pub(crate) struct ListedWrite {
    pub(crate) key: i64,
    /// No version starts after this time.
    pub(crate) latest: u64,
    pub(crate) write: RowWrite,
}

impl ModifyWith<Lineage, Index> for ListedWrite {
    ghost fits = { λ listed. FitsWrite listed.key listed.latest };

    ghost after = { λ listed. with_write_on listed.write.side listed.write.row listed.write.time };

    ghost moves = { λ listed lineage.
        MovesWrite listed.write.side listed.key lineage listed.write.row };

    fn apply(&mut self, lineage: &mut Lineage, index: &mut Index) -> Result<(), AllocError> {
        list_row(index, lineage, self.latest, self.key, &self.write)?;
        lineage.write(RowWrite {
            side: self.write.side,
            row: self.write.row.take(),
            time: self.write.time,
        })
    }
}

/// Lists the row of a write in the index, if there is one. The lineage is the one that is to get
/// it, whose versions start by this time.
fn list_row(
    index: &mut Index,
    lineage: &Lineage,
    latest: u64,
    key: i64,
    write: &RowWrite,
) -> Result<(), AllocError>
    requires current { All (ListsCurrent key (last_row lineage.now.current)) index.old.columns }
    requires starts { StartsBy latest lineage.now }
    ensures { OnOk result
        (MovesWrite write.now.side key lineage.now write.now.row index.old index.new) }
{
    let current = lineage.at(latest, Side::Current);
    let row = write.row.as_ref();
    match write.side {
        Side::Current => {
            let (old, new) = (current, row);
            index.change_row(key, RowChange::Current { old, new })
        }
        Side::Next => index.change_row(key, RowChange::Next { current, next: row }),
    }
}
