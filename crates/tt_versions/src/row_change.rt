ghost use Rattle.std.specs.Prelude.{◌≡◌};
ghost use Rattle.std.specs.Option.{option_copied};
ghost use Rattle.tt_versions.specs.RowChange.{listed_by};

use tt_values::Row;

/// How the row with a key changes. A row that is none isn't there.
#[derive(Clone, Copy)]
pub(crate) enum RowChange<'a> {
    /// It is written for the first time.
    First {
        row: Option<&'a Row>,
    },
    /// The current row becomes another one.
    Current {
        old: Option<&'a Row>,
        new: Option<&'a Row>,
    },
    /// A row is written on the next side alone, beside the current one.
    Next {
        current: Option<&'a Row>,
        next: Option<&'a Row>,
    },
}

impl<'a> RowChange<'a> {
    /// The row that is written.
    pub(crate) fn row(self) -> Option<&'a Row>
        ensures { option_copied result ≡ listed_by self.entry }
    {
        match self {
            RowChange::First { row } => row,
            RowChange::Current { old: _, new } => new,
            RowChange::Next { current: _, next } => next,
        }
    }
}
