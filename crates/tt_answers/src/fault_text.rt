//! Faults as they are printed.
ghost use Rattle.std.specs.Prelude.{◌≡◌, ◌++◌, OnOk};
ghost use Rattle.tt_grammar.specs.JsonText.{members_text};
ghost use Rattle.tt_answers.specs.RefusalText.{out_of_memory, fault_members_at, fault_members};

use std::alloc::AllocError;
use tt_grammar::{DocFault, push_named};

/// Pushes the members of a fault.
pub(crate) fn push_fault(out: &mut Vec<u8>, fault: &DocFault) -> Result<(), AllocError>
    ensures { OnOk result (out.new.items
        ≡ out.old.items ++ members_text (fault_members fault.now)) }
{
    match fault {
        DocFault::At { path, cause } => {
            push_fault_at(out, path.as_str().as_bytes(), cause.as_str().as_bytes())
        }
        DocFault::Memory => push_out_of_memory(out),
    }
}

/// Pushes the members of a fault, by its path and its cause.
fn push_fault_at(out: &mut Vec<u8>, path: &[u8], cause: &[u8]) -> Result<(), AllocError>
    ensures { OnOk result (out.new.items
        ≡ out.old.items ++ members_text (fault_members_at path.now cause.now)) }
{
    push_named(out, b"\"fault\":{\"path\":", path)?;
    push_named(out, b",\"cause\":", cause)?;
    out.push(b'}')?;
    Ok(())
}

/// Pushes the members that say that there was no memory.
pub(crate) fn push_out_of_memory(out: &mut Vec<u8>) -> Result<(), AllocError>
    ensures { OnOk result (out.new.items ≡ out.old.items ++ members_text out_of_memory) }
{
    out.extend_from_slice(b"\"refused\":\"memory\"")?;
    Ok(())
}
