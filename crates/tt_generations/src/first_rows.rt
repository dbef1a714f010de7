use tt_values::{Items, Row};

/// The first of some rows, and whether more follow.
#[derive(Debug, PartialEq, Drop)]
pub struct FirstRows {
    pub rows: Items<Row>,
    pub more: bool,
}
