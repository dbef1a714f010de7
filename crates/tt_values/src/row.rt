ghost use Rattle.std.specs.Prelude.{◌≡◌, Some, IsSome, IfOk};

use crate::items::Items;
use crate::value::Value;
use std::alloc::{AllocError, Global};

/// A row: a value for each column of its table. The first value is its key.
#[derive(Clone, Debug, PartialEq, Drop)]
pub struct Row {
    pub values: Items<Value>,
}

impl Row {
    ghost use Rattle.tt_values.specs.Row.{first_int};

    /// A row of these values.
    pub fn of<const N: usize>(alloc: Global, values: [Value; N]) -> Result<Row, AllocError>
        ensures { IfOk result (λ row. row.values ≡ values.entry) }
    {
        let values = Items::of(alloc, values)?;
        Ok(Row { values })
    }

    /// The key, which identifies the row in its table.
    pub fn key(&self) -> i64
        requires { IsSome (first_int self.now.values) }
        ensures { first_int self.now.values ≡ Some result }
    {
        match self.values.as_slice() {
            [Value::Int(key), ..] => *key,
            _ => unreachable!(),
        }
    }

    /// An equal row, which shares its values with this one.
    #[inline(always)]
    pub fn copy(&self) -> Result<Row, AllocError>
        ensures { IfOk result (λ copy. copy ≡ self.now) }
    {
        let values = self.values.clone()?;
        Ok(Row { values })
    }
}
