ghost use Rattle.std.specs.Prelude.{◌≡◌, not, is_some, OnOk};

use std::alloc::{AllocError, Global};
use tt_pages::{Kept, Modify, PagedMap};

/// The dirty keys of a table.
#[derive(Debug, Drop)]
pub(crate) struct DirtyKeys {
    /// The number with which the first of them got dirty. Without keys it says nothing.
    since: u64,
    /// The number with which each got dirty first, by key.
    numbers: PagedMap<u64>,
}

impl DirtyKeys {
    ghost use Rattle.tt_parts.specs.Sets.{is_filled, no_keys, key_since, first_since, with_key};

    pub(crate) fn new(alloc: Global) -> DirtyKeys
        ensures { result ≡ no_keys }
    {
        DirtyKeys {
            since: 0,
            numbers: PagedMap::new(alloc),
        }
    }

    pub(crate) fn is_empty(&self) -> bool
        ensures { result ≡ not (is_filled self.now.numbers) }
    {
        self.numbers.is_empty()
    }

    pub(crate) fn has(&self, key: i64) -> bool
        ensures { result ≡ is_some (key_since self.now key) }
    {
        self.numbers.get(key).is_some()
    }

    /// The number of a key.
    pub(crate) fn since(&self, key: i64) -> Option<u64>
        ensures { result ≡ key_since self.now key }
    {
        self.numbers.get(key).copied()
    }

    /// The number of the first key, if there is a key.
    pub(crate) fn first_since(&self) -> Option<u64>
        ensures { result ≡ first_since self.now }
    {
        if self.is_empty() {
            None
        } else {
            Some(self.since)
        }
    }

    /// Gives a key this number, whether it is there or not.
    fn put(&mut self, key: i64, number: u64) -> Result<(), AllocError>
        ensures { OnOk result (self.new ≡ with_key key number self.old) }
    {
        if self.numbers.is_empty() {
            self.since = number;
        }
        self.numbers.put(key, number)
    }
}

/// Another owner of the same keys.
impl Kept for DirtyKeys {
    fn kept(&self) -> Result<Self, AllocError> {
        let numbers = self.numbers.share()?;
        Ok(DirtyKeys {
            since: self.since,
            numbers,
        })
    }
}

/// A key of a table gets a number.
#[derive(Drop)]
pub(crate) struct PutKey {
    pub(crate) key: i64,
    pub(crate) number: u64,
}

impl Modify<DirtyKeys> for PutKey {
    ghost use Rattle.tt_parts.specs.Sets.{with_key};

    ghost after = { λ change. with_key change.key change.number };

    fn apply(self, keys: &mut DirtyKeys) -> Result<(), AllocError> {
        keys.put(self.key, self.number)
    }
}
