//! Texts as they are printed, in double quotes.
ghost use Rattle.std.specs.Prelude.{◌≡◌, ◌+◌, ◌<◌, ◌++◌, OnOk, IfOk, string_bytes};
ghost use Rattle.std.specs.List.{flat_map};
ghost use Rattle.tt_grammar.specs.Quoting.{letter_of, hex_digit, escape, quoted};

use std::alloc::{AllocError, Global};

/// The letter that stands for a byte after a backslash.
fn letter_of(byte: u8) -> Option<u8>
    ensures { result ≡ letter_of byte }
{
    match byte {
        b'"' => Some(b'"'),
        b'\\' => Some(b'\\'),
        8 => Some(b'b'),
        b'\t' => Some(b't'),
        b'\n' => Some(b'n'),
        12 => Some(b'f'),
        b'\r' => Some(b'r'),
        _ => None,
    }
}

fn hex_digit(digit: u8) -> u8
    requires { digit < 16 }
    ensures { result ≡ hex_digit digit }
{
    if digit < 10 {
        b'0' + digit
    } else {
        b'a' - 10 + digit
    }
}

fn push_escape(out: &mut Vec<u8>, byte: u8) -> Result<(), AllocError>
    ensures { OnOk result (out.new.items ≡ out.old.items ++ escape byte) }
{
    if let Some(letter) = letter_of(byte) {
        out.extend_from_slice(&[b'\\', letter])?;
    } else if byte < 32 {
        out.extend_from_slice(&[
            b'\\',
            b'u',
            b'0',
            b'0',
            hex_digit(byte / 16),
            hex_digit(byte % 16),
        ])?;
    } else {
        out.push(byte)?;
    }
    Ok(())
}

/// Pushes a text in double quotes, its bytes escaped as in JSON. After an error `out`
/// ends in a prefix of it.
pub fn push_quoted(out: &mut Vec<u8>, text: &[u8]) -> Result<(), AllocError>
    ensures { OnOk result (out.new.items ≡ out.old.items ++ quoted text.now) }
{
    out.push(b'"')?;
    for byte in text {
        push_escape(out, *byte)?;
    }
    out.push(b'"')?;
    Ok(())
}

/// As [`push_quoted`], as a text of its own.
pub fn quoted_text(alloc: Global, text: &str) -> Result<String, AllocError>
    ensures { IfOk result (λ s. string_bytes s ≡ quoted text.now) }
{
    let mut bytes = Vec::new(alloc);
    push_quoted(&mut bytes, text.as_bytes())?;
    Ok(String::from_utf8(bytes).unwrap())
}
