ghost use Rattle.std.specs.Prelude.{◌≡◌, [], ◌∷◌, ◌++◌, IfOk};

use std::alloc::{AllocError, Global};
use std::marker::Model;
use tt_pages::Kept;
use tt_values::{Few, Items, Same, Value};

/// The value of a dirty partition, and the number with which the partition got dirty first.
#[derive(Debug, Drop)]
pub(crate) struct DirtyValue {
    pub(crate) value: Value,
    pub(crate) since: u64,
}

impl DirtyValue {
    fn copy(&self) -> Result<DirtyValue, AllocError>
        ensures { IfOk result (λ copy. copy ≡ self.now) }
    {
        let value = self.value.copy()?;
        Ok(DirtyValue {
            value,
            since: self.since,
        })
    }
}

/// Values with one digest, mostly a single one. Owners share them.
#[derive(Debug, Drop)]
pub(crate) struct SameDigest {
    values: Items<DirtyValue>,
}

impl Model for SameDigest {
    ghost use Rattle.std.specs.Prelude.{List};
    ghost use Rattle.tt_parts.specs.declared.same_digest.DirtyValue.{DirtyValue};

    ghost Value = { List DirtyValue };

    ghost view = { λ s. s.values };
}

impl SameDigest {
    ghost use Rattle.tt_parts.specs.Sets.{since_among};

    pub(crate) fn of(alloc: Global, value: DirtyValue) -> Result<SameDigest, AllocError>
        ensures { IfOk result (λ values. values ≡ value ∷ []) }
    {
        let values = Items::of(alloc, [value])?;
        Ok(SameDigest { values })
    }

    /// These values and one more.
    pub(crate) fn with(&self, alloc: Global, value: DirtyValue) -> Result<SameDigest, AllocError>
        ensures { IfOk result (λ values. values ≡ self.now ++ value ∷ []) }
    {
        let mut values = Few::new(alloc);
        for other in self.values.as_slice() {
            values.push(other.copy()?)?;
        }
        values.push(value)?;
        let values = values.into_items()?;
        Ok(SameDigest { values })
    }

    /// The number of a value, if it is there.
    pub(crate) fn since(&self, value: &Value) -> Option<u64>
        ensures { result ≡ since_among self.now value.now }
    {
        for other in self.values.as_slice() {
            if value.is_same(&other.value) {
                return Some(other.since);
            }
        }
        None
    }
}

/// Another owner of the same values.
impl Kept for SameDigest {
    fn kept(&self) -> Result<Self, AllocError> {
        let values = self.values.clone()?;
        Ok(SameDigest { values })
    }
}
