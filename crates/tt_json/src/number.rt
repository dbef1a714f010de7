//! The number that a token of JSON writes, as serde_json reads it.
ghost use Rattle.std.specs.Prelude.{◌≡◌, ◌<◌, ◌≤◌, ◌==◌, length, slice_index, IsTrue, Some, None, option_map, true, false, option_and_then};
ghost use Rattle.std.specs.Option.{SomeIff};
ghost use Rattle.std.specs.Str.Parse.{digits_value, IsNumeral};
ghost use Rattle.fast_float.specs.Text.{scan};
ghost use Rattle.serde_json.specs.Find.{as_i64, as_u64, of_float};
ghost use Rattle.serde_json.specs.Read.{number_of, number_from, float_of};
ghost use Rattle.tt_json.specs.Number.{number_view};

use fast_float::Numeral;

/// An integer of 64 bits, or a finite float.
#[derive(Clone, Copy, Drop)]
pub(crate) enum Number {
    Unsigned(u64),
    Negative(i64),
    Float(f64),
}

/// The number that a text writes, where it's in range.
#[inline(always)]
pub(crate) fn number_of(text: &str) -> Option<Number>
    ensures { option_map number_view result ≡ number_of text.now }
{
    let bytes = text.as_bytes();
    if has_minus(bytes) {
        after_minus(&bytes[1..])
    } else {
        without_minus(bytes)
    }
}

#[inline(always)]
fn without_minus(bytes: &[u8]) -> Option<Number>
    ensures { option_map number_view result ≡ number_from false (scan bytes.now) }
{
    match few_digits(bytes) {
        Some(n) => Some(Number::Unsigned(n)),
        None => any_number(false, bytes),
    }
}

#[inline(always)]
fn after_minus(bytes: &[u8]) -> Option<Number>
    ensures { option_map number_view result ≡ number_from true (scan bytes.now) }
{
    match few_digits(bytes) {
        Some(n) if n > 0 => Some(Number::Negative(-(n as i64))),
        _ => any_number(true, bytes),
    }
}

/// The number that 1 to 18 digits write, and `None` for any other text.
#[inline(always)]
#[tactic(auto, using(std::proofs::lemmas::Str::Parse::digit_at))]
fn few_digits(bytes: &[u8]) -> Option<u64>
    ensures { SomeIff result (IsNumeral 10 bytes.now × (length bytes.now ≤ 18))
        (digits_value 10 bytes.now) }
{
    if bytes.is_empty() || bytes.len() > 18 {
        return None;
    }
    let mut value = 0;
    for &byte in bytes {
        let digit = u64::from(byte).wrapping_sub(b'0' as u64);
        if digit > 9 {
            return None;
        }
        value = value * 10 + digit;
    }
    Some(value)
}

/// The number that any text writes, after a minus or without one. It stands apart, so that few
/// digits are read without saving registers for it.
#[inline(never)]
fn any_number(minus: bool, bytes: &[u8]) -> Option<Number>
    ensures { option_map number_view result ≡ number_from minus (scan bytes.now) }
{
    let numeral = Numeral::scan(bytes);
    if minus {
        negative(&numeral)
    } else {
        unsigned(&numeral)
    }
}

#[inline(always)]
fn unsigned(numeral: &Numeral<'_>) -> Option<Number>
    ensures { option_map number_view result ≡ number_from false numeral.now }
{
    match numeral.to_u64() {
        Some(n) => Some(Number::Unsigned(n)),
        None => nearest(false, numeral),
    }
}

#[inline(always)]
fn negative(numeral: &Numeral<'_>) -> Option<Number>
    ensures { option_map number_view result ≡ number_from true numeral.now }
{
    if let Some(n) = numeral.to_i64(true) {
        if n < 0 {
            return Some(Number::Negative(n));
        }
    }
    nearest(true, numeral)
}

#[inline(always)]
fn nearest(negative: bool, numeral: &Numeral<'_>) -> Option<Number>
    ensures { option_map number_view result ≡ float_of negative numeral.now }
{
    let x = numeral.to_float::<f64>(negative);
    if x.is_finite() {
        Some(Number::Float(x))
    } else {
        None
    }
}

#[inline(always)]
fn has_minus(bytes: &[u8]) -> bool
    ensures value { result ≡ (slice_index bytes.now 0 == 45) }
    ensures len { IsTrue result → 0 < length bytes.now }
{
    !bytes.is_empty() && bytes[0] == b'-'
}
