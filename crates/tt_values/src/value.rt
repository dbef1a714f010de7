ghost use Rattle.std.specs.Prelude.{◌≡◌, IfOk};

use crate::text::Text;
use std::alloc::{AllocError, Global};

/// The kind of values that a column has.
#[derive(Clone, Copy, Debug, PartialEq, Eq)]
pub enum Kind {
    Int,
    Text,
}

/// One value of a row.
#[derive(Clone, Debug, PartialEq, Drop)]
pub enum Value {
    Int(i64),
    Text(Text),
}

impl Value {
    ghost use Rattle.tt_values.specs.Value.{is_less, is_of_kind};

    /// A value of kind Text, with a copy of this text.
    pub fn text(alloc: Global, text: &str) -> Result<Value, AllocError>
        ensures { IfOk result (λ value. value ≡ Value.Text text.now) }
    {
        Ok(Value::Text(Text::copied(alloc, text)?))
    }

    pub fn is_of_kind(&self, kind: Kind) -> bool
        ensures { result ≡ is_of_kind kind self.now }
    {
        match (kind, self) {
            (Kind::Int, Value::Int(_)) | (Kind::Text, Value::Text(_)) => true,
            (Kind::Int, Value::Text(_)) | (Kind::Text, Value::Int(_)) => false,
        }
    }

    /// Whether this value is less than one of its kind: an int as a number, a text by its bytes.
    /// Of two kinds none is less. Allocates nothing.
    pub fn is_less(&self, other: &Value) -> bool
        ensures { result ≡ is_less self.now other.now }
    {
        match (self, other) {
            (Value::Int(int), Value::Int(other)) => int < other,
            (Value::Text(text), Value::Text(other)) => text.as_str() < other.as_str(),
            (Value::Int(_), Value::Text(_)) | (Value::Text(_), Value::Int(_)) => false,
        }
    }

    /// An equal value, which shares its text with this one.
    pub fn copy(&self) -> Result<Value, AllocError>
        ensures { IfOk result (λ copy. copy ≡ self.now) }
    {
        self.clone()
    }
}
