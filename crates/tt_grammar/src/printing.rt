//! Numbers, values and rows as they are printed. Where memory runs out, `out` may end with a prefix
//! of a text.
ghost use Rattle.std.specs.Prelude.{◌≡◌, ◌++◌, All, OnOk};
ghost use Rattle.std.specs.Fmt.{decimal, signed_decimal};
ghost use Rattle.std.specs.List.{flat_map};
ghost use Rattle.tt_grammar.specs.Printing.{value_text, further_value, values_text, row_text};
ghost use Rattle.tt_grammar.specs.ReadBack.{IsStorable};

use crate::quoting::push_quoted;
use itoa::Buffer;
use std::alloc::AllocError;
use tt_values::{Row, Value};

/// Pushes a number in decimal digits.
pub fn push_decimal(out: &mut Vec<u8>, number: u64) -> Result<(), AllocError>
    ensures { OnOk result (out.new.items ≡ out.old.items ++ decimal number) }
{
    let mut digits = Buffer::new();
    out.extend_from_slice(digits.format(number).as_bytes())
}

/// Pushes a number behind its label.
pub fn push_labelled(out: &mut Vec<u8>, label: &[u8], number: u64) -> Result<(), AllocError>
    ensures { OnOk result (out.new.items ≡ out.old.items ++ (label.now ++ decimal number)) }
{
    out.extend_from_slice(label)?;
    push_decimal(out, number)?;
    Ok(())
}

/// Pushes an Int in decimal digits, behind a minus sign where it is negative.
pub fn push_int(out: &mut Vec<u8>, number: i64) -> Result<(), AllocError>
    ensures { OnOk result (out.new.items ≡ out.old.items ++ signed_decimal number) }
{
    let mut digits = Buffer::new();
    out.extend_from_slice(digits.format(number).as_bytes())
}

/// Pushes a value: an Int by its digits, a Text in quotes.
pub fn push_value(out: &mut Vec<u8>, value: &Value) -> Result<(), AllocError>
    ensures text { OnOk result (out.new.items ≡ out.old.items ++ value_text value.now) }
    ensures storable { OnOk result (IsStorable value.now) }
{
    match value {
        Value::Int(number) => push_int(out, *number)?,
        Value::Text(text) => push_quoted(out, text.as_str().as_bytes())?,
    }
    Ok(())
}

fn push_values(out: &mut Vec<u8>, values: &[Value]) -> Result<(), AllocError>
    ensures text { OnOk result (out.new.items ≡ out.old.items ++ values_text values.now) }
    ensures storable { OnOk result (All IsStorable values.now) }
{
    if let [first, further @ ..] = values {
        push_value(out, first)?;
        push_further(out, further)?;
    }
    Ok(())
}

fn push_further(out: &mut Vec<u8>, values: &[Value]) -> Result<(), AllocError>
    ensures text { OnOk result (out.new.items
        ≡ out.old.items ++ flat_map further_value values.now) }
    ensures storable { OnOk result (All IsStorable values.now) }
{
    for value in values {
        out.push(b',')?;
        push_value(out, value)?;
    }
    Ok(())
}

/// Pushes a row: its values in brackets.
pub fn push_row(out: &mut Vec<u8>, row: &Row) -> Result<(), AllocError>
    ensures text { OnOk result (out.new.items ≡ out.old.items ++ row_text row.now) }
    ensures storable { OnOk result (All IsStorable row.now.values) }
{
    out.push(b'[')?;
    push_values(out, row.values.as_slice())?;
    out.push(b']')?;
    Ok(())
}
