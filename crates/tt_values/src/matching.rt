ghost use Rattle.std.specs.Prelude.{◌≡◌};
ghost use Rattle.tt_values.specs.Matches.{holds, matches};

use crate::row::Row;
use crate::statement::Equal;

/// Whether every condition holds in the row. One on a column past the end of the row doesn't.
pub fn matches(equals: &[Equal], row: &Row) -> bool
    ensures { result ≡ matches equals.now row.now }
{
    equals.iter().all(|equal| holds(equal, row))
}

fn holds(equal: &Equal, row: &Row) -> bool
    ensures { result ≡ holds equal.now row.now }
{
    match row.values.get(usize::from(equal.column)) {
        Some(value) => equal.how.holds(&equal.value, value),
        None => false,
    }
}
