// A page of a map: a list of entries in ascending key order.
ghost use Rattle.std.specs.Prelude.{◌≡◌, ◌++◌, is_some, IsTrue, IfOk, IfErr, OnOk, OnErr};
ghost use Rattle.std.specs.Option.{is_none};
ghost use Rattle.std.specs.Option.{option_copied};
ghost use Rattle.std.specs.Ordering.{int_cmp};
ghost use Rattle.std.specs.FinMap.Entries.{find, put, is_sorted};
ghost use Rattle.tt_pages.specs.MapEntries.{rank_of, entries_without, keys_of, ChangesAt, StaysWithout, FitsAt, MovesAt, KeptUnless, IsPlaceOf, IsGapFor};

use crate::kept::Kept;
use crate::modify::ModifyWith;
use std::alloc::{AllocError, Global};

// The most entries of a page, and the most branches of a fork.
pub(super) const MAX_WIDTH: usize = 16;

// The fewest entries or branches of a node below a fork.
pub(super) const MIN_WIDTH: usize = 4;

pub(super) type Page<V> = Vec<(i64, V)>;

// The number of entries before the key's place, which are those with smaller keys. The search
// begins at the end, where keys that are inserted in ascending order belong, and passes over four
// entries at a time as long as it can.
pub(super) fn rank_in<V>(page: &[(i64, V)], key: &i64) -> usize
    requires { IsTrue (is_sorted int_cmp page.now) }
    ensures { result ≡ rank_of key.now page.now }
{
    let mut rank = page.len();
    while rank >= 4 && !key.cmp(&page[rank - 4].0).is_gt() {
        rank -= 4;
    }
    while rank > 0 && !key.cmp(&page[rank - 1].0).is_gt() {
        rank -= 1;
    }
    rank
}

// The place of the key, or as an error the place at which to insert it.
fn place_in<V>(page: &[(i64, V)], key: &i64) -> Result<usize, usize>
    requires { IsTrue (is_sorted int_cmp page.now) }
    ensures present { IfOk result (IsPlaceOf key.now page.now) }
    ensures absent { IfErr result (IsGapFor key.now page.now) }
{
    let rank = rank_in(page, key);
    if rank < page.len() && key.cmp(&page[rank].0).is_eq() {
        Ok(rank)
    } else {
        Err(rank)
    }
}

pub(super) fn get_in<'a, V>(page: &'a [(i64, V)], key: &i64) -> Option<&'a V>
    requires { IsTrue (is_sorted int_cmp page.now) }
    ensures { option_copied result ≡ find int_cmp key.now page.now }
{
    match place_in(page, key) {
        Ok(at) => Some(&page[at].1),
        Err(_) => None,
    }
}

// Sets the value at the key, and inserts an entry if there is none. Returns whether the key is new.
pub(super) fn put_in<V: Drop>(page: &mut Page<V>, key: &i64, value: V) -> Result<bool, AllocError>
    requires { IsTrue (is_sorted int_cmp page.old.items) }
    ensures ok { OnOk result (page.new.items ≡ put int_cmp key.now value page.old.items) }
    ensures is_new { IfOk result (λ is_new.
        is_new ≡ is_none (find int_cmp key.now page.old.items)) }
    ensures err { OnErr result (page.new.items ≡ page.old.items) }
{
    match place_in(page, key) {
        Ok(at) => {
            page[at].1 = value;
            Ok(false)
        }
        Err(at) => {
            page.insert(at, entry_of(key, value))?;
            Ok(true)
        }
    }
}

fn entry_of<V>(key: &i64, value: V) -> (i64, V)
    ensures { result ≡ (key.now, value) }
{
    let key = *key;
    (key, value)
}

// Changes the value at a key of the page and the context, if there is a value. Returns whether
// there is. After an error nothing is promised about the value and the context.
pub(super) fn change_in<V, C, M: ModifyWith<V, C>>(
    page: &mut Page<V>,
    key: &i64,
    change: &mut M,
    context: &mut C,
) -> Result<bool, AllocError>
    requires sorted { IsTrue (is_sorted int_cmp page.old.items) }
    requires fits { FitsAt key.now (M.fits change.old) page.old.items context.old }
    ensures keys { keys_of page.new.items ≡ keys_of page.old.items }
    ensures ok { OnOk result
        (ChangesAt key.now (M.after change.old) page.old.items page.new.items) }
    ensures stays { OnOk result (StaysWithout key.now page.old.items page.new.items) }
    ensures found { IfOk result
        (λ found. found ≡ is_some (find int_cmp key.now page.old.items)) }
    ensures moves { OnOk result
        (MovesAt key.now (M.moves change.old) page.old.items context.old context.new) }
    ensures kept { IfOk result
        (λ found. KeptUnless found change.old change.new context.old context.new) }
{
    match place_in(page, key) {
        Ok(at) => {
            change.apply(&mut page[at].1, context)?;
            Ok(true)
        }
        Err(_) => Ok(false),
    }
}

pub(super) fn remove_in<V: Drop>(page: &mut Page<V>, key: &i64)
    requires { IsTrue (is_sorted int_cmp page.old.items) }
    ensures { page.new.items ≡ entries_without key.now page.old.items }
{
    if let Ok(at) = place_in(page, key) {
        drop(page.remove(at));
    }
}

// A copy of the entries, in a page with room for `MAX_WIDTH`.
pub(super) fn copy_of<V: Kept + Drop>(
    alloc: Global,
    entries: &[(i64, V)],
) -> Result<Page<V>, AllocError>
    ensures { IfOk result (λ page. page.items ≡ entries.now) }
{
    let mut page = Vec::with_capacity(alloc, MAX_WIDTH)?;
    add_copies(&mut page, entries)?;
    Ok(page)
}

pub(super) fn add_copies<V: Kept + Drop>(
    page: &mut Page<V>,
    entries: &[(i64, V)],
) -> Result<(), AllocError>
    ensures { OnOk result (page.new.items ≡ page.old.items ++ entries.now) }
{
    for (key, value) in entries {
        page.push((*key, value.kept()?))?;
    }
    Ok(())
}
