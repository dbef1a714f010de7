//! The keys that comparisons leave.
ghost use Rattle.std.specs.Prelude.{◌≡◌, ◌&&◌, ℤ, Some, IsTrue};
ghost use Rattle.tt_values.specs.declared.row.Row.{Row};
ghost use Rattle.tt_values.specs.Row.{first_int};
ghost use Rattle.tt_values.specs.Matches.{holds};
ghost use Rattle.tt_values.specs.Comparison.{compares};
ghost use Rattle.tt_versions.specs.Pages.{is_after};
ghost use Rattle.tt_versions.specs.KeyRange.{is_before, is_within, leaves, leaves_key, HasKeysOf, IsNarrowest, NarrowsTo};

use tt_values::{Comparison, Equal, Value};

/// The keys between two bounds, without the bounds. Either may be missing.
#[derive(Clone, Copy, Debug)]
pub(crate) struct KeyRange {
    pub(crate) after: Option<i64>,
    before: Option<i64>,
}

impl KeyRange {
    /// All keys.
    pub(crate) fn all() -> KeyRange
        ensures { (key : ℤ) → IsTrue (is_within result key) }
    {
        KeyRange {
            after: None,
            before: None,
        }
    }

    /// The keys that comparisons of the first column with ints leave: those by order, since `Is`
    /// and `IsNot` leave all.
    pub(crate) fn of(equals: &[Equal]) -> KeyRange
        ensures has { HasKeysOf result equals.now }
        ensures narrowest { IsNarrowest result equals.now }
    {
        let mut range = KeyRange::all();
        for equal in equals {
            range = range.narrowed(equal);
        }
        range
    }

    /// Whether the key lies before the upper bound.
    pub(crate) fn is_before(&self, key: i64) -> bool
        ensures { result ≡ is_before self.now.before key }
    {
        match self.before {
            Some(high) => key < high,
            None => true,
        }
    }

    /// Its keys that are greater than `after`, if that is given.
    pub(crate) fn starting_after(self, after: Option<i64>) -> KeyRange
        ensures start { (key : ℤ) →
            is_after result.after key ≡ (is_after self.after key && is_after after key) }
        ensures end { result.before ≡ self.before }
    {
        KeyRange {
            after: later(self.after, after),
            before: self.before,
        }
    }

    /// Its keys that are less than `before`, if that is given.
    fn ending_before(self, before: Option<i64>) -> KeyRange
        ensures start { result.after ≡ self.after }
        ensures end { (key : ℤ) →
            is_before result.before key ≡ (is_before self.before key && is_before before key) }
    {
        KeyRange {
            after: self.after,
            before: earlier(self.before, before),
        }
    }

    /// Its keys that a condition leaves.
    fn narrowed(self, equal: &Equal) -> KeyRange
        ensures has { (key : ℤ) (row : Row) → first_int row.values ≡ Some key
            → IsTrue (holds equal.now row) → IsTrue (is_within self key)
            → IsTrue (is_within result key) }
        ensures narrow { NarrowsTo self (leaves_key equal.now) result }
    {
        if equal.column != 0 {
            return self;
        }
        match &equal.value {
            Value::Int(bound) => self.compared(equal.how, *bound),
            Value::Text(_) => self,
        }
    }

    /// Its keys that compare so with an int.
    fn compared(self, how: Comparison, bound: i64) -> KeyRange
        ensures has { (key : ℤ) → IsTrue (compares how (Value.Int bound) (Value.Int key))
            → IsTrue (is_within self key) → IsTrue (is_within result key) }
        ensures narrow { NarrowsTo self (leaves how (Value.Int bound)) result }
    {
        match how {
            Comparison::Above => self.starting_after(Some(bound)),
            Comparison::AtLeast => self.starting_after(bound.checked_sub(1)),
            Comparison::Below => self.ending_before(Some(bound)),
            Comparison::AtMost => self.ending_before(bound.checked_add(1)),
            Comparison::Is | Comparison::IsNot => self,
        }
    }
}

/// The greater of two lower bounds, either of which may be missing.
fn later(first: Option<i64>, second: Option<i64>) -> Option<i64>
    ensures { (key : ℤ) → is_after result key ≡ (is_after first key && is_after second key) }
{
    match (first, second) {
        (Some(low), Some(other)) => Some(low.max(other)),
        (Some(low), None) | (None, Some(low)) => Some(low),
        (None, None) => None,
    }
}

/// The less of two upper bounds, either of which may be missing.
fn earlier(first: Option<i64>, second: Option<i64>) -> Option<i64>
    ensures { (key : ℤ) → is_before result key
        ≡ (is_before first key && is_before second key) }
{
    match (first, second) {
        (Some(high), Some(other)) => Some(high.min(other)),
        (Some(high), None) | (None, Some(high)) => Some(high),
        (None, None) => None,
    }
}
