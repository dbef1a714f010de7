//! The texts of the faults of a catalog, of a statement and of an action.
ghost use Rattle.std.specs.Prelude.{◌≡◌};
ghost use Rattle.tt_grammar.specs.Causes.{cause_of_catalog, cause_of_check};

use tt_values::{CatalogError, CheckError};

/// Why a table is refused. Running out of memory isn't a fault of the document.
pub(crate) fn cause_of_catalog(error: CatalogError) -> &'static str
    ensures { result.now ≡ cause_of_catalog error }
{
    match error {
        CatalogError::BadName => "bad name",
        CatalogError::SameTable => "table named twice",
        CatalogError::NoColumns => "no columns",
        CatalogError::KeyNotInt => "first column is not int",
        CatalogError::SameColumn => "column named twice",
        CatalogError::TooMany => "too many tables or columns",
        CatalogError::Memory => "out of memory",
    }
}

/// Why a statement or an action is refused.
pub fn cause_of_check(error: CheckError) -> &'static str
    ensures { result.now ≡ cause_of_check error }
{
    match error {
        CheckError::NoTable => "no such table",
        CheckError::NoColumn => "no such column",
        CheckError::WrongKind => "value of the wrong kind",
        CheckError::WrongWidth => "row of the wrong width",
        CheckError::TextTooLong => "text too long",
        CheckError::SetsKey => "key set by an update",
        CheckError::SameColumnTwice => "column changed twice",
        CheckError::TooManyEquals => "too many equalities",
        CheckError::TooManyWrites => "too many writes",
    }
}
