ghost use Rattle.tt_versions.specs.Lineage.{unsplit};

use crate::lineage::Lineage;
use crate::side::Side;
use std::alloc::AllocError;
use tt_pages::Modify;

/// Both sides of a row show what this one shows.
#[derive(Drop)]
pub(crate) struct Unsplit {
    pub(crate) side: Side,
}

impl Modify<Lineage> for Unsplit {
    ghost after = { λ change. unsplit change.side };

    fn apply(self, lineage: &mut Lineage) -> Result<(), AllocError> {
        lineage.unsplit(self.side)
    }
}
