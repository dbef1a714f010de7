ghost use Rattle.std.specs.Prelude.{◌≡◌};
ghost use Rattle.tt_values.specs.Comparison.{compares, is_equality};

use crate::same::Same;
use crate::value::Value;

/// How the value of a row compares with that of a condition. Ints compare as numbers, and texts by
/// their bytes. Of two values of different kinds only `IsNot` holds.
#[derive(Clone, Copy, Debug, PartialEq, Eq)]
pub enum Comparison {
    /// The row's value is the same.
    Is,
    /// The row's value is another.
    IsNot,
    /// The row's value is less.
    Below,
    /// The row's value is less or the same.
    AtMost,
    /// The row's value is greater.
    Above,
    /// The row's value is greater or the same.
    AtLeast,
}

impl Comparison {
    /// Whether the value `found` compares so with `value`. Allocates nothing.
    pub fn holds(self, value: &Value, found: &Value) -> bool
        ensures { result ≡ compares self value.now found.now }
    {
        match self {
            Comparison::Is => value.is_same(found),
            Comparison::IsNot => !value.is_same(found),
            Comparison::Below => found.is_less(value),
            Comparison::AtMost => found.is_less(value) || value.is_same(found),
            Comparison::Above => value.is_less(found),
            Comparison::AtLeast => value.is_less(found) || value.is_same(found),
        }
    }

    pub(crate) fn is_equality(self) -> bool
        ensures { result ≡ is_equality self }
    {
        match self {
            Comparison::Is => true,
            Comparison::IsNot
            | Comparison::Below
            | Comparison::AtMost
            | Comparison::Above
            | Comparison::AtLeast => false,
        }
    }
}
