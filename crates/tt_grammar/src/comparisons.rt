//! Reading and printing of how conditions compare.
ghost use Rattle.std.specs.Prelude.{◌≡◌};
ghost use Rattle.tt_grammar.specs.Comparisons.{comparison_named, comparison, before_value};

use crate::decoder::{Decoder, OUT_OF_RANGE, text};
use crate::fault::DocFault;
use std::alloc::Global;
use tt_json::JsonValue;
use tt_values::Comparison;

/// How a condition compares, by its sign.
#[derive(Drop)]
pub(crate) struct ComparisonDecoder;

impl Decoder for ComparisonDecoder {
    type Output = Comparison;

    ghost meaning = { λ _. comparison };

    fn decode<V: JsonValue>(&self, alloc: Global, value: &V) -> Result<Comparison, DocFault> {
        let sign = text(alloc, value)?;
        match comparison_named(sign) {
            Some(how) => Ok(how),
            None => Err(DocFault::here(alloc, OUT_OF_RANGE)),
        }
    }
}

fn comparison_named(sign: &str) -> Option<Comparison>
    ensures { result ≡ comparison_named sign.now }
{
    match sign {
        "=" => Some(Comparison::Is),
        "!=" => Some(Comparison::IsNot),
        "<" => Some(Comparison::Below),
        "<=" => Some(Comparison::AtMost),
        ">" => Some(Comparison::Above),
        ">=" => Some(Comparison::AtLeast),
        _ => None,
    }
}

/// What is printed between the column of a condition and its value: the sign, unless the condition
/// is an equality, and the commas.
pub(crate) fn before_value(how: Comparison) -> &'static [u8]
    ensures { result.now ≡ before_value how }
{
    match how {
        Comparison::Is => b",",
        Comparison::IsNot => b",\"!=\",",
        Comparison::Below => b",\"<\",",
        Comparison::AtMost => b",\"<=\",",
        Comparison::Above => b",\">\",",
        Comparison::AtLeast => b",\">=\",",
    }
}
