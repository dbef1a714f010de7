//! Flags and members as JSON has them. Where memory runs out, `out` may end with a prefix
//! of a text.
ghost use Rattle.std.specs.Prelude.{◌≡◌, ◌++◌, OnOk};
ghost use Rattle.tt_grammar.specs.Quoting.{quoted};
ghost use Rattle.tt_grammar.specs.JsonText.{flag_text};

use crate::quoting::push_quoted;
use std::alloc::AllocError;

/// Pushes a text in quotes behind its label.
pub fn push_named(out: &mut Vec<u8>, label: &[u8], text: &[u8]) -> Result<(), AllocError>
    ensures { OnOk result (out.new.items ≡ out.old.items ++ (label.now ++ quoted text.now)) }
{
    out.extend_from_slice(label)?;
    push_quoted(out, text)?;
    Ok(())
}

/// Pushes true or false.
pub fn push_flag(out: &mut Vec<u8>, flag: bool) -> Result<(), AllocError>
    ensures { OnOk result (out.new.items ≡ out.old.items ++ flag_text flag) }
{
    if flag {
        out.extend_from_slice(b"true")?;
    } else {
        out.extend_from_slice(b"false")?;
    }
    Ok(())
}
