//! Maps by the positions of tables or of columns.
ghost use Rattle.std.specs.Prelude.{◌≡◌, pos, OnOk};
ghost use Rattle.std.specs.Option.{unwrap_or, option_copied};
ghost use Rattle.std.specs.Ordering.{int_cmp};
ghost use Rattle.std.specs.FinMap.Entries.{find, put};

use std::alloc::AllocError;
use tt_pages::{Kept, Modify, PagedMap};

pub(crate) fn value_at<V>(map: &PagedMap<V>, position: u16) -> Option<&V>
    ensures { option_copied result ≡ find int_cmp (pos position) map.now }
{
    map.get(i64::from(position))
}

/// Changes the value at a position in place. Where the map has none, it gets the empty one, changed.
pub(crate) fn change_at<V: Kept + Drop, M: Modify<V>>(
    map: &mut PagedMap<V>,
    position: u16,
    empty: V,
    change: M,
) -> Result<(), AllocError>
    ensures { OnOk result (
        let value = M.after change (unwrap_or (find int_cmp (pos position) map.old) empty) in
        map.new ≡ put int_cmp (pos position) value map.old) }
{
    match value_at(map, position) {
        Some(_) => map.change(i64::from(position), change),
        None => {
            let mut value = empty;
            change.apply(&mut value)?;
            map.put(i64::from(position), value)
        }
    }
}
