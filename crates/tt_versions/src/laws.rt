//! Laws of the definitions that the contracts of this crate use. Each is the contract of a
//! function without a body.
ghost use Rattle.tt_versions.specs.Laws.{EmptyTableShowsNoRows, EmptyTableSplitsNothing, WholeRowsShowTheSame};

/// A table without lineages has no row on either side, at any time.
pub fn an_empty_table_shows_no_rows()
    ensures { EmptyTableShowsNoRows }
{}

/// A table without lineages has no split row.
pub fn an_empty_table_splits_nothing()
    ensures { EmptyTableSplitsNothing }
{}

/// A row that isn't split shows the same on both sides.
pub fn a_whole_row_shows_the_same_on_both_sides()
    ensures { WholeRowsShowTheSame }
{}
