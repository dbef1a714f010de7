use tt_values::Value;

/// Why a repair re-executed a slot. All but the first name what got dirty, and the number of the
/// slot that it got dirty with, which was re-executed, too. Tables and columns go by position,
/// from 0.
#[derive(Clone, Copy, Debug, PartialEq)]
pub enum Cause<'a> {
    /// The repair edits the slot.
    Edited,
    /// The slot touched this row.
    Wrote {
        table: u16,
        key: i64,
        since: u64,
    },
    /// One of its writes inserts the key of this row, or has an equality with it.
    Names {
        table: u16,
        key: i64,
        since: u64,
    },
    /// One of its writes reads the rows that have this value in the column.
    Reads {
        table: u16,
        column: u16,
        value: &'a Value,
        since: u64,
    },
    /// One of its writes reads all of this table.
    Scans {
        table: u16,
        since: u64,
    },
}
