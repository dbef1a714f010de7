ghost use Rattle.tt_versions.specs.Lineage.{split_back};

use crate::lineage::Lineage;
use std::alloc::AllocError;
use tt_pages::Modify;

/// A row gets a next side of its own, rolled back to before the time.
#[derive(Drop)]
pub(crate) struct SplitBack {
    pub(crate) time: u64,
}

impl Modify<Lineage> for SplitBack {
    ghost after = { λ change. split_back change.time };

    fn apply(self, lineage: &mut Lineage) -> Result<(), AllocError> {
        lineage.split_back(self.time)
    }
}
