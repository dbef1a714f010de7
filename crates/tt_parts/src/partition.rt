use std::alloc::AllocError;
use tt_values::{Items, Value};

/// The rows of a table that have a value in a column. Tables and columns go by position, from 0.
#[derive(Debug, PartialEq, Drop)]
pub struct Partition {
    pub table: u16,
    pub column: u16,
    pub value: Value,
}

/// What a statement reads.
#[derive(Debug, PartialEq, Drop)]
pub enum Reads {
    /// The whole table: no equality of the statement is on a partition column.
    All { table: u16 },
    /// The rows that lie in each of these partitions: one for each equality on a partition column,
    /// in the order of the equalities.
    Equated(Items<Partition>),
}

impl Clone for Partition {
    ghost use Rattle.std.specs.Prelude.{◌≡◌};

    ghost is_clone = { λ source copy. copy ≡ source };

    fn clone(&self) -> Result<Self, AllocError> {
        let value = self.value.copy()?;
        Ok(Partition {
            table: self.table,
            column: self.column,
            value,
        })
    }
}

impl Clone for Reads {
    ghost use Rattle.std.specs.Prelude.{◌≡◌};

    ghost is_clone = { λ source copy. copy ≡ source };

    fn clone(&self) -> Result<Self, AllocError> {
        match self {
            Reads::All { table } => Ok(Reads::All { table: *table }),
            Reads::Equated(partitions) => {
                let partitions = partitions.clone()?;
                Ok(Reads::Equated(partitions))
            }
        }
    }
}
