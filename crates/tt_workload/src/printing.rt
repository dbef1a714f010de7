//! Replies as they are printed. Where memory runs out, `out` may end with a prefix of a text.
ghost use Rattle.std.specs.Prelude.{◌≡◌, ◌++◌, OnOk};
ghost use Rattle.std.specs.List.{flat_map};
ghost use Rattle.tt_workload.specs.Printing.{spaced_row, reply_text, further_reply, replies_text};

use std::alloc::AllocError;
use tt_grammar::{push_decimal, push_labelled, push_row};
use tt_values::{Reply, Row};

fn push_spaced_rows(out: &mut Vec<u8>, rows: &[Row]) -> Result<(), AllocError>
    ensures { OnOk result (out.new.items ≡ out.old.items ++ flat_map spaced_row rows.now) }
{
    for row in rows {
        out.push(b' ')?;
        push_row(out, row)?;
    }
    Ok(())
}

/// Pushes a reply.
pub(crate) fn push_reply(out: &mut Vec<u8>, reply: &Reply) -> Result<(), AllocError>
    ensures { OnOk result (out.new.items ≡ out.old.items ++ reply_text reply.now) }
{
    match reply {
        Reply::Inserted => out.extend_from_slice(b"inserted")?,
        Reply::Duplicate => out.extend_from_slice(b"duplicate")?,
        Reply::Updated(count) => push_labelled(out, b"updated ", u64::from(*count))?,
        Reply::Deleted(count) => push_labelled(out, b"deleted ", u64::from(*count))?,
        Reply::Rows(rows) => {
            out.extend_from_slice(b"rows ")?;
            push_decimal(out, rows.len() as u64)?;
            push_spaced_rows(out, rows.as_slice())?;
        }
    }
    Ok(())
}

/// Pushes the replies to an action.
pub(crate) fn push_replies(out: &mut Vec<u8>, replies: &[Reply]) -> Result<(), AllocError>
    ensures { OnOk result (out.new.items ≡ out.old.items ++ replies_text replies.now) }
{
    match replies {
        [first, further @ ..] => {
            push_reply(out, first)?;
            push_further_replies(out, further)?;
        }
        [] => out.extend_from_slice(b"nothing")?,
    }
    Ok(())
}

fn push_further_replies(out: &mut Vec<u8>, replies: &[Reply]) -> Result<(), AllocError>
    ensures { OnOk result (out.new.items ≡ out.old.items ++ flat_map further_reply replies.now) }
{
    for reply in replies {
        out.extend_from_slice(b", ")?;
        push_reply(out, reply)?;
    }
    Ok(())
}
