// Calls that return a changed copy and leave the map as it was. They are part of the public
// surface, and nothing in the libraries above calls them.
ghost use Rattle.std.specs.Prelude.{◌≡◌, IfOk};
ghost use Rattle.std.specs.Ordering.{int_cmp};
ghost use Rattle.std.specs.FinMap.Entries.{put};
ghost use Rattle.tt_pages.specs.MapEntries.{entries_without};

use super::PagedMap;
use crate::kept::Kept;
use std::alloc::AllocError;

impl<V: Kept + Drop> PagedMap<V> {
    /// The map with this value at the key. This map stays as it is.
    pub fn with(&self, key: i64, value: V) -> Result<Self, AllocError>
        ensures { IfOk result (λ map. map ≡ put int_cmp key value self.now) }
    {
        let mut map = self.share()?;
        map.put(key, value)?;
        Ok(map)
    }

    /// The map without the key: an equal one if the key is absent. This map stays as it is.
    pub fn without(&self, key: i64) -> Result<Self, AllocError>
        ensures { IfOk result (λ map. map ≡ entries_without key self.now) }
    {
        let mut map = self.share()?;
        map.remove(key)?;
        Ok(map)
    }
}
