//! The sizes of types, for code that is proved of every type.
ghost use Rattle.std.specs.Prelude.{◌≡◌, ℕ};
ghost use Rattle.std.specs.Mem.{type_size};
ghost use prog.Memory.{capped};

use std::mem::size_of;

/// A type with a size, in bytes, that clauses can name. Every type is one.
pub(crate) trait Measured {
    ghost bytes: { ℕ };

    /// Does nothing; a proof learns by it what `bytes` is.
    fn measured()
        ensures { bytes ≡ type_size Self.row };
}

impl<T> Measured for T {
    ghost bytes = { type_size T.row };

    fn measured() {}
}

/// The size of a type in bytes.
pub(crate) fn bytes_of<T>() -> usize
    ensures { result ≡ capped (type_size T.row) }
{
    size_of::<T>()
}
