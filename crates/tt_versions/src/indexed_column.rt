ghost use Rattle.std.specs.Prelude.{◌≡◌, [], ℤ, IsTrue, IfOk, IfSome, OnOk, None, slice_get};
ghost use Rattle.std.specs.Option.{option_copied};
ghost use Rattle.std.specs.Ordering.{int_cmp};
ghost use Rattle.std.specs.FinMap.Entries.{put};
ghost use Rattle.tt_pages.specs.MapEntries.{entries_without};
ghost use Rattle.tt_versions.specs.Index.{has_key, has_now, keys_under, past_keys, digest_at, ListsCurrent, HasNoPast, FitsChange, MovesKey, PutsKey, DropsKey, LeavesDigest, ComesToDigest};
ghost use Rattle.tt_versions.specs.RowChange.{current_after, other_after};

use crate::keys::Keys;
use crate::reach::Reach;
use crate::row_change::RowChange;
use std::alloc::{AllocError, Global};
use tt_pages::{Modify, PagedMap};
use tt_values::{Row, Same, digest};

/// A set of keys.
pub(crate) type KeySet = PagedMap<()>;

/// A column by whose values rows can be found.
#[derive(Debug, Drop)]
pub(crate) struct IndexedColumn {
    pub(crate) position: u16,
    /// By digest, the keys of the current rows that have a value with that digest.
    pub(crate) current: PagedMap<KeySet>,
    /// By digest, the keys of other rows that had a value with that digest at some time, or have it
    /// on the next side.
    pub(crate) past: PagedMap<KeySet>,
}

impl IndexedColumn {
    pub(crate) fn new(alloc: Global, position: u16) -> IndexedColumn
        ensures current { result.current ≡ [] }
        ensures past { result.past ≡ [] }
    {
        IndexedColumn {
            position,
            current: PagedMap::new(alloc),
            past: PagedMap::new(alloc),
        }
    }

    /// Another owner of the same sets.
    pub(crate) fn share(&self) -> Result<IndexedColumn, AllocError>
        ensures { IfOk result (λ c. c ≡ self.now) }
    {
        let current = self.current.share()?;
        let past = self.past.share()?;
        Ok(IndexedColumn {
            position: self.position,
            current,
            past,
        })
    }

    /// No keys.
    pub(crate) fn clear(&mut self, alloc: Global)
        ensures current { self.new.current ≡ [] }
        ensures past { self.new.past ≡ [] }
    {
        self.current = PagedMap::new(alloc);
        self.past = PagedMap::new(alloc);
    }

    /// Lists the row with a key as it is after a change. Without memory nothing is promised of the
    /// column.
    pub(crate) fn change_row(
        &mut self,
        alloc: Global,
        key: i64,
        change: RowChange<'_>,
    ) -> Result<(), AllocError>
        requires { FitsChange change key self.old }
        ensures { OnOk result (MovesKey key
            (digest_at self.old.position (current_after change.entry))
            (digest_at self.old.position (other_after change.entry)) self.old self.new) }
    {
        match change {
            RowChange::First { row } => self.add_row(alloc, key, row),
            RowChange::Current { old, new } => self.replace_row(alloc, key, old, new),
            RowChange::Next { current, next } => self.add_next_row(alloc, key, current, next),
        }
    }

    /// Lists a row whose key the column doesn't have.
    fn add_row(&mut self, alloc: Global, key: i64, row: Option<&Row>) -> Result<(), AllocError>
        requires current { ListsCurrent key None self.old }
        requires past { HasNoPast key self.old }
        ensures { OnOk result (MovesKey key
            (digest_at self.old.position (option_copied row.entry)) None self.old self.new) }
    {
        match digest_in(self.position, row) {
            Some(digest) => put_key(alloc, &mut self.current, digest, key),
            None => Ok(()),
        }
    }

    /// The current row with a key becomes another one.
    fn replace_row(
        &mut self,
        alloc: Global,
        key: i64,
        old: Option<&Row>,
        new: Option<&Row>,
    ) -> Result<(), AllocError>
        requires { ListsCurrent key (option_copied old) self.old }
        ensures { OnOk result (MovesKey key (digest_at self.old.position (option_copied new.entry))
            (digest_at self.old.position (option_copied old.entry)) self.old self.new) }
    {
        if have_same_value(self.position, old, new) {
            return Ok(());
        }
        let from = digest_in(self.position, old);
        let to = digest_in(self.position, new);
        if from == to {
            return Ok(());
        }
        self.leave(alloc, key, from)?;
        self.come(alloc, key, to)
    }

    /// The current row with a key has a value with this digest no more, if one is given.
    fn leave(&mut self, alloc: Global, key: i64, from: Option<i64>) -> Result<(), AllocError>
        requires { IfSome from (λ digest. IsTrue (has_now self.old digest key)) }
        ensures { OnOk result (LeavesDigest key from self.old self.new) }
    {
        let Some(digest) = from else {
            return Ok(());
        };
        drop_key(&mut self.current, digest, key)?;
        put_key(alloc, &mut self.past, digest, key)
    }

    /// The current row with a key has a value with this digest now, if one is given.
    fn come(&mut self, alloc: Global, key: i64, to: Option<i64>) -> Result<(), AllocError>
        ensures { OnOk result (ComesToDigest key to self.old self.new) }
    {
        let Some(digest) = to else {
            return Ok(());
        };
        drop_if_there(&mut self.past, digest, key)?;
        put_key(alloc, &mut self.current, digest, key)
    }

    /// Lists a row of the next side, beside the current row with its key.
    fn add_next_row(
        &mut self,
        alloc: Global,
        key: i64,
        current: Option<&Row>,
        next: Option<&Row>,
    ) -> Result<(), AllocError>
        requires { ListsCurrent key (option_copied current) self.old }
        ensures { OnOk result (MovesKey key
            (digest_at self.old.position (option_copied current.entry))
            (digest_at self.old.position (option_copied next.entry)) self.old self.new) }
    {
        if have_same_value(self.position, current, next) {
            return Ok(());
        }
        let Some(digest) = digest_in(self.position, next) else {
            return Ok(());
        };
        if has_key_under(&self.past, digest, key) {
            return Ok(());
        }
        if has_key_under(&self.current, digest, key) {
            return Ok(());
        }
        put_key(alloc, &mut self.past, digest, key)
    }

    /// The keys of the rows with a digest that a search reads. The other ones are the empty set.
    pub(crate) fn keys_under<'a>(&'a self, digest: i64, reach: Reach, empty: &'a KeySet) -> Keys<'a>
        requires { empty.now ≡ [] }
        ensures current { result.current.now ≡ keys_under digest self.now.current }
        ensures past { result.past.now ≡ past_keys reach digest self.now }
    {
        let past = match reach {
            Reach::Latest => empty,
            Reach::Any => set_under(&self.past, digest, empty),
        };
        Keys {
            current: set_under(&self.current, digest, empty),
            past,
        }
    }
}

/// Whether two rows have the same value at a position. False where one isn't there, or has none.
fn have_same_value(position: u16, old: Option<&Row>, new: Option<&Row>) -> bool
    ensures { IsTrue result → digest_at position (option_copied old.entry)
        ≡ digest_at position (option_copied new.entry) }
{
    let Some(old) = old else {
        return false;
    };
    let Some(new) = new else {
        return false;
    };
    same_value(position, old, new)
}

/// Whether both rows have the same value at a position. False where one has none there.
#[tactic(auto, using(crate::proofs::IndexLemmas::equal_values))]
fn same_value(position: u16, old: &Row, new: &Row) -> bool
    ensures { IsTrue result
        → slice_get old.now.values position ≡ slice_get new.now.values position }
{
    let Some(old) = old.values.get(usize::from(position)) else {
        return false;
    };
    let Some(new) = new.values.get(usize::from(position)) else {
        return false;
    };
    old.is_same(new)
}

/// The digest of the value that a row has at a position, if there is a row that has one.
fn digest_in(position: u16, row: Option<&Row>) -> Option<i64>
    ensures { result ≡ digest_at position (option_copied row.entry) }
{
    let value = row?.values.get(usize::from(position))?;
    Some(digest(value))
}

/// The set under a digest, or the empty one.
fn set_under<'a>(sets: &'a PagedMap<KeySet>, digest: i64, empty: &'a KeySet) -> &'a KeySet
    requires { empty.now ≡ [] }
    ensures { result.now ≡ keys_under digest sets.now }
{
    match sets.get(digest) {
        Some(keys) => keys,
        None => empty,
    }
}

/// A set of keys gets one more.
#[derive(Drop)]
struct KeyPut {
    key: i64,
}

impl Modify<KeySet> for KeyPut {
    ghost after = { λ change. put int_cmp change.key tt };

    fn apply(self, keys: &mut KeySet) -> Result<(), AllocError> {
        keys.put(self.key, ())
    }
}

/// A set of keys loses one.
#[derive(Drop)]
struct KeyRemoved {
    key: i64,
}

impl Modify<KeySet> for KeyRemoved {
    ghost after = { λ change. entries_without change.key };

    fn apply(self, keys: &mut KeySet) -> Result<(), AllocError> {
        keys.remove(self.key)
    }
}

/// Puts a key into the set under a digest.
fn put_key(
    alloc: Global,
    sets: &mut PagedMap<KeySet>,
    digest: i64,
    key: i64,
) -> Result<(), AllocError>
    ensures { OnOk result (PutsKey digest key sets.old sets.new) }
{
    if sets.change_if_there(digest, KeyPut { key })? {
        return Ok(());
    }
    let mut keys = PagedMap::new(alloc);
    keys.put(key, ())?;
    sets.put(digest, keys)
}

/// Removes a key from the set under a digest. The set stays, even if it's empty.
fn drop_key(sets: &mut PagedMap<KeySet>, digest: i64, key: i64) -> Result<(), AllocError>
    requires { IsTrue (has_key (keys_under digest sets.old) key) }
    ensures { OnOk result (DropsKey digest key sets.old sets.new) }
{
    sets.change(digest, KeyRemoved { key })
}

/// Removes a key from the set under a digest, if it's there.
fn drop_if_there(sets: &mut PagedMap<KeySet>, digest: i64, key: i64) -> Result<(), AllocError>
    ensures { OnOk result (DropsKey digest key sets.old sets.new) }
{
    if !has_key_under(sets, digest, key) {
        return Ok(());
    }
    drop_key(sets, digest, key)
}

/// Whether the set under a digest has a key.
fn has_key_under(sets: &PagedMap<KeySet>, digest: i64, key: i64) -> bool
    ensures { result ≡ has_key (keys_under digest sets.now) key }
{
    match sets.get(digest) {
        Some(keys) => keys.get(key).is_some(),
        None => false,
    }
}
