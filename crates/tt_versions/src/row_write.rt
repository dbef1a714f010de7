use crate::side::Side;
use tt_values::Row;

/// The row with a key, or none, is written at a time on a side.
#[derive(Drop)]
pub(crate) struct RowWrite {
    pub(crate) side: Side,
    pub(crate) row: Option<Row>,
    pub(crate) time: u64,
}
