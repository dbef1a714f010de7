//! Whether values, rows, statements, actions and replies are the same.
ghost use Rattle.std.specs.Prelude.{◌≡◌};
ghost use Rattle.std.specs.List.{list_all, zip};
ghost use Rattle.tt_values.specs.Same.{are_same_by};

use crate::action::Action;
use crate::comparison::Comparison;
use crate::reply::Reply;
use crate::row::Row;
use crate::statement::{Change, Equal, Write};
use crate::value::Value;

/// What can be compared without taking memory. The laws `same_replies_are_equal`,
/// `same_writes_are_equal` and `same_actions_are_equal` say that two are the same exactly where
/// they are equal.
pub trait Same {
    ghost use Rattle.std.specs.Prelude.{Bool};

    /// Whether two are the same.
    ghost same: { Self → Self → Bool };

    /// Whether both are the same. Takes no memory.
    fn is_same(&self, other: &Self) -> bool
        ensures { result ≡ same self.now other.now };
}

/// Whether two lists are as long as one another, and the same item by item. Takes no memory.
pub fn are_same<T: Same>(first: &[T], second: &[T]) -> bool
    ensures { result ≡ are_same_by T.same first.now second.now }
{
    first.len() == second.len() && are_same_pairwise(first, second)
}

fn are_same_pairwise<T: Same>(first: &[T], second: &[T]) -> bool
    ensures { result ≡ list_all (λ p. T.same p.0 p.1) (zip first.now second.now) }
{
    first
        .iter()
        .zip(second)
        .all(|(one, other)| one.is_same(other))
}

/// Of the same kind, and the same number or text.
impl Same for Value {
    ghost use Rattle.tt_values.specs.Value.{is_same};

    ghost same = { is_same };

    fn is_same(&self, other: &Value) -> bool {
        match (self, other) {
            (Value::Int(int), Value::Int(other)) => int == other,
            (Value::Text(text), Value::Text(other)) => text == other,
            (Value::Int(_), Value::Text(_)) | (Value::Text(_), Value::Int(_)) => false,
        }
    }
}

/// The same values.
impl Same for Row {
    ghost use Rattle.tt_values.specs.Same.{is_same_row};

    ghost same = { is_same_row };

    fn is_same(&self, other: &Row) -> bool {
        are_same(self.values.as_slice(), other.values.as_slice())
    }
}

/// The same reply, with the same count or the same rows.
impl Same for Reply {
    ghost use Rattle.tt_values.specs.Same.{is_same_reply};

    ghost same = { is_same_reply };

    fn is_same(&self, other: &Reply) -> bool {
        match (self, other) {
            (Reply::Inserted, Reply::Inserted) => true,
            (Reply::Duplicate, Reply::Duplicate) => true,
            (Reply::Updated(one), Reply::Updated(other)) => one == other,
            (Reply::Deleted(one), Reply::Deleted(other)) => one == other,
            (Reply::Rows(one), Reply::Rows(other)) => are_same(one.as_slice(), other.as_slice()),
            _ => false,
        }
    }
}

/// The same comparison.
impl Same for Comparison {
    ghost use Rattle.tt_values.specs.Same.{is_same_comparison};

    ghost same = { is_same_comparison };

    fn is_same(&self, other: &Comparison) -> bool {
        matches!(
            (self, other),
            (Comparison::Is, Comparison::Is)
                | (Comparison::IsNot, Comparison::IsNot)
                | (Comparison::Below, Comparison::Below)
                | (Comparison::AtMost, Comparison::AtMost)
                | (Comparison::Above, Comparison::Above)
                | (Comparison::AtLeast, Comparison::AtLeast)
        )
    }
}

/// The same comparison of the same column with the same value.
impl Same for Equal {
    ghost use Rattle.tt_values.specs.Same.{is_same_equal};

    ghost same = { is_same_equal };

    fn is_same(&self, other: &Equal) -> bool {
        self.column == other.column
            && self.how.is_same(&other.how)
            && self.value.is_same(&other.value)
    }
}

/// The same change of the same column.
impl Same for Change {
    ghost use Rattle.tt_values.specs.Same.{is_same_change};

    ghost same = { is_same_change };

    fn is_same(&self, other: &Change) -> bool {
        match (self, other) {
            (
                Change::Set { column, value },
                Change::Set {
                    column: other,
                    value: other_value,
                },
            ) => column == other && value.is_same(other_value),
            (
                Change::Add { column, by },
                Change::Add {
                    column: other,
                    by: other_by,
                },
            ) => column == other && by == other_by,
            (Change::Set { .. }, Change::Add { .. }) | (Change::Add { .. }, Change::Set { .. }) => {
                false
            }
        }
    }
}

/// The same statement on the same table.
impl Same for Write {
    ghost use Rattle.tt_values.specs.Same.{is_same_write};

    ghost same = { is_same_write };

    fn is_same(&self, other: &Write) -> bool {
        match (self, other) {
            (
                Write::Insert { table, row },
                Write::Insert {
                    table: other,
                    row: other_row,
                },
            ) => table == other && row.is_same(other_row),
            (
                Write::Update {
                    table,
                    changes,
                    equals,
                },
                Write::Update {
                    table: other,
                    changes: other_changes,
                    equals: other_equals,
                },
            ) => {
                table == other
                    && are_same(changes.as_slice(), other_changes.as_slice())
                    && are_same(equals.as_slice(), other_equals.as_slice())
            }
            (
                Write::Delete { table, equals },
                Write::Delete {
                    table: other,
                    equals: other_equals,
                },
            ) => table == other && are_same(equals.as_slice(), other_equals.as_slice()),
            _ => false,
        }
    }
}

/// The same writes, and both whole or neither.
impl Same for Action {
    ghost use Rattle.tt_values.specs.Same.{is_same_action};

    ghost same = { is_same_action };

    fn is_same(&self, other: &Action) -> bool {
        self.whole == other.whole && are_same(self.writes.as_slice(), other.writes.as_slice())
    }
}
