use crate::items::Items;
use crate::row::Row;
use std::alloc::AllocError;

/// The reply to a statement.
#[derive(Debug, PartialEq, Drop)]
pub enum Reply {
    /// The insert added its row.
    Inserted,
    /// There was a row with the key of the insert, which added nothing.
    Duplicate,
    /// The update matched this many rows.
    Updated(u32),
    /// The delete removed this many rows.
    Deleted(u32),
    /// The rows that match the select, in ascending order of their keys.
    Rows(Items<Row>),
}

impl Clone for Reply {
    ghost use Rattle.std.specs.Prelude.{◌≡◌};

    ghost is_clone = { λ source copy. copy ≡ source };

    fn clone(&self) -> Result<Self, AllocError> {
        match self {
            Reply::Inserted => Ok(Reply::Inserted),
            Reply::Duplicate => Ok(Reply::Duplicate),
            Reply::Updated(count) => Ok(Reply::Updated(*count)),
            Reply::Deleted(count) => Ok(Reply::Deleted(*count)),
            Reply::Rows(rows) => {
                let rows = rows.clone()?;
                Ok(Reply::Rows(rows))
            }
        }
    }
}
