//! Slots, times and generations as they are printed. Other numbers are counts, which
//! `push_labelled` prints.
ghost use Rattle.std.specs.Prelude.{◌≡◌, ◌++◌, OnOk};
ghost use Rattle.std.specs.Fmt.{decimal};

use std::alloc::AllocError;
use tt_grammar::push_labelled;
use tt_requests::{ToldGeneration, ToldTime};

/// Pushes a slot or a time, as it is told, behind its label.
pub(crate) fn push_told_time(
    out: &mut Vec<u8>,
    label: &[u8],
    told: ToldTime,
) -> Result<(), AllocError>
    ensures { OnOk result (out.new.items ≡ out.old.items ++ (label.now ++ decimal told.number)) }
{
    push_labelled(out, label, told.number)
}

/// Pushes the number of a generation, as it is told, behind its label.
pub(crate) fn push_told_generation(
    out: &mut Vec<u8>,
    label: &[u8],
    told: ToldGeneration,
) -> Result<(), AllocError>
    ensures { OnOk result (out.new.items ≡ out.old.items ++ (label.now ++ decimal told.number)) }
{
    push_labelled(out, label, told.number)
}
