//! Rows and replies as they are printed.
ghost use Rattle.std.specs.Prelude.{◌≡◌, ◌==◌, ◌&&◌, [], ◌∷◌, ◌++◌, map, length, codes, OnOk};
ghost use Rattle.std.specs.Fmt.{decimal};
ghost use Rattle.tt_grammar.specs.Printing.{row_text};
ghost use Rattle.tt_grammar.specs.JsonText.{further_item, items_text, items_at, text_or_null};
ghost use Rattle.tt_answers.specs.AnswerText.{reply_items, replies_text, rows_text};
ghost use Rattle.std.specs.Option.{option_map};
ghost use Rattle.std.specs.List.{flat_map};

use std::alloc::AllocError;
use tt_grammar::{push_decimal, push_row};
use tt_values::{Items, Reply, Row};

/// Pushes rows as an array.
pub fn push_rows(out: &mut Vec<u8>, rows: &[Row]) -> Result<(), AllocError>
    ensures { OnOk result (out.new.items ≡ out.old.items ++ rows_text rows.now) }
{
    out.push(b'[')?;
    push_row_items(out, rows)?;
    out.push(b']')?;
    Ok(())
}

/// Pushes rows with commas between them.
fn push_row_items(out: &mut Vec<u8>, rows: &[Row]) -> Result<(), AllocError>
    ensures { OnOk result (out.new.items ≡ out.old.items ++ items_text (map row_text rows.now)) }
{
    if let [first, further @ ..] = rows {
        push_row(out, first)?;
        push_further_rows(out, further)?;
    }
    Ok(())
}

/// Pushes further rows, each behind a comma.
fn push_further_rows(out: &mut Vec<u8>, rows: &[Row]) -> Result<(), AllocError>
    ensures { OnOk result (out.new.items
        ≡ out.old.items ++ flat_map further_item (map row_text rows.now)) }
{
    for row in rows {
        out.push(b',')?;
        push_row(out, row)?;
    }
    Ok(())
}

/// Pushes the replies to an action, or the rows of a select, as an array.
pub(crate) fn push_replies(out: &mut Vec<u8>, replies: &[Reply]) -> Result<(), AllocError>
    ensures { OnOk result (out.new.items ≡ out.old.items ++ replies_text replies.now) }
{
    out.push(b'[')?;
    push_reply_items(out, replies)?;
    out.push(b']')?;
    Ok(())
}

/// Pushes the items of replies, with commas between them.
fn push_reply_items(out: &mut Vec<u8>, replies: &[Reply]) -> Result<(), AllocError>
    ensures { OnOk result (out.new.items
        ≡ out.old.items ++ items_text (flat_map reply_items replies.now)) }
{
    let mut is_first = true;
    for reply in replies {
        push_reply(out, is_first, reply)?;
        is_first = is_still_first(is_first, reply);
    }
    Ok(())
}

/// Whether what comes after a reply is still the first item of an array: there was none before it,
/// and it has no rows.
fn is_still_first(is_first: bool, reply: &Reply) -> bool
    ensures { result ≡ (is_first && (length (reply_items reply.now) == 0)) }
{
    match reply {
        Reply::Rows(rows) => is_first && rows.is_empty(),
        Reply::Inserted | Reply::Duplicate | Reply::Updated(_) | Reply::Deleted(_) => false,
    }
}

/// Pushes a reply as items of an array: its first ones, or further ones.
fn push_reply(out: &mut Vec<u8>, is_first: bool, reply: &Reply) -> Result<(), AllocError>
    ensures { OnOk result (out.new.items
        ≡ out.old.items ++ items_at is_first (reply_items reply.now)) }
{
    match reply {
        Reply::Inserted => push_item(out, is_first, b"\"inserted\""),
        Reply::Duplicate => push_item(out, is_first, b"\"duplicate\""),
        Reply::Updated(count) => push_count(out, is_first, b"{\"updated\":", *count),
        Reply::Deleted(count) => push_count(out, is_first, b"{\"deleted\":", *count),
        Reply::Rows(rows) => push_rows_at(out, is_first, rows.as_slice()),
    }
}

/// Pushes an item of an array: its first one, or a further one.
fn push_item(out: &mut Vec<u8>, is_first: bool, item: &[u8]) -> Result<(), AllocError>
    ensures { OnOk result (out.new.items ≡ out.old.items ++ items_at is_first (item.now ∷ [])) }
{
    if !is_first {
        out.push(b',')?;
    }
    out.extend_from_slice(item)?;
    Ok(())
}

/// Pushes an object with a number, behind its label, as an item of an array.
fn push_count(out: &mut Vec<u8>, is_first: bool, label: &[u8], count: u32) -> Result<(), AllocError>
    ensures { OnOk result (out.new.items ≡ out.old.items
        ++ items_at is_first ((label.now ++ (decimal count ++ codes "}")) ∷ [])) }
{
    push_item(out, is_first, label)?;
    push_decimal(out, u64::from(count))?;
    out.push(b'}')?;
    Ok(())
}

/// Pushes rows as items of an array: its first ones, or further ones.
fn push_rows_at(out: &mut Vec<u8>, is_first: bool, rows: &[Row]) -> Result<(), AllocError>
    ensures { OnOk result (out.new.items
        ≡ out.old.items ++ items_at is_first (map row_text rows.now)) }
{
    if is_first {
        push_row_items(out, rows)
    } else {
        push_further_rows(out, rows)
    }
}

/// Pushes the replies to an action, or null where there are none.
pub(crate) fn push_replies_or_null(
    out: &mut Vec<u8>,
    replies: &Option<Items<Reply>>,
) -> Result<(), AllocError>
    ensures { OnOk result (out.new.items
        ≡ out.old.items ++ text_or_null (option_map replies_text replies.now)) }
{
    match replies {
        Some(replies) => push_replies(out, replies.as_slice()),
        None => out.extend_from_slice(b"null"),
    }
}
