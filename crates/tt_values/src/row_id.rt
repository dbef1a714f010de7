/// A row: the position of its table, and its key.
#[derive(Clone, Copy, Debug, PartialEq, Eq)]
pub struct RowId {
    pub table: u16,
    pub key: i64,
}
