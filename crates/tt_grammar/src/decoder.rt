//! Reading of JSON values.
ghost use Rattle.std.specs.Prelude.{◌≡◌, ◌++◌, Result, codes, option_map};
ghost use Rattle.serde_json.specs.Data.{Data};
ghost use Rattle.tt_grammar.specs.declared.fault.DocFault.{DocFault};
ghost use Rattle.tt_grammar.specs.Fault.{Gives, GivesViewed, IsFault, fault_here, with_path, member_path, item_path};
ghost use Rattle.tt_grammar.specs.Decoder.{object, text, int, flag, count, count_within, array, has, member, read_member, optional};

use crate::fault::DocFault;
use std::alloc::Global;
use tt_json::JsonValue;
use tt_values::Text;

/// Why a value is refused that isn't of the wanted type.
pub const WRONG_TYPE: &str = "wrong type";

/// Why a value is refused that is of the wanted type, but isn't one of those that are taken.
pub const OUT_OF_RANGE: &str = "out of range";

/// Reads the JSON values that stand for one kind of thing in the grammar.
pub trait Decoder: Drop {
    /// What a value stands for.
    type Output;

    /// What a value means, or its first fault.
    ghost meaning: { Self → Data → Result Self.Output DocFault };

    /// The meaning of a value, or its first fault, whose path begins at the value.
    fn decode<V: JsonValue>(&self, alloc: Global, value: &V) -> Result<Self::Output, DocFault>
        ensures { Gives result (meaning self.now (V.json value.now)) };
}

/// Refuses a value that isn't an object.
pub fn object<V: JsonValue>(alloc: Global, value: &V) -> Result<(), DocFault>
    ensures { Gives result (object (V.json value.now)) }
{
    if !value.is_object() {
        return Err(DocFault::here(alloc, WRONG_TYPE));
    }
    Ok(())
}

/// The text that the value is.
pub fn text<V: JsonValue>(alloc: Global, value: &V) -> Result<&str, DocFault>
    ensures { GivesViewed (λ s. s.now) result (text (V.json value.now)) }
{
    match value.as_str() {
        Some(text) => Ok(text),
        None => Err(DocFault::here(alloc, WRONG_TYPE)),
    }
}

/// The count that the value is.
pub fn count<V: JsonValue>(alloc: Global, value: &V) -> Result<u64, DocFault>
    ensures { Gives result (count (V.json value.now)) }
{
    match value.as_u64() {
        Some(count) => Ok(count),
        None => Err(DocFault::here(alloc, WRONG_TYPE)),
    }
}

/// The items of the array that the value is.
pub fn array<V: JsonValue>(alloc: Global, value: &V) -> Result<V::Items, DocFault>
    ensures { GivesViewed V.left result (array (V.json value.now)) }
{
    match value.items() {
        Some(items) => Ok(items),
        None => Err(DocFault::here(alloc, WRONG_TYPE)),
    }
}

/// Whether an object has a member.
pub fn has<V: JsonValue>(object: &V, name: &str) -> bool
    ensures { result ≡ has name.now (V.json object.now) }
{
    object.get(name).is_some()
}

/// The meaning of a member that must be there.
pub fn member<D: Decoder, V: JsonValue>(
    alloc: Global,
    object: &V,
    name: &str,
    decoder: &D,
) -> Result<D::Output, DocFault>
    ensures { Gives result (member name.now (D.meaning decoder.now) (V.json object.now)) }
{
    found_member(alloc, object.get(name), name, decoder)
}

/// The meaning of a member that must be there, once it has been looked for.
pub(crate) fn found_member<D: Decoder, V: JsonValue>(
    alloc: Global,
    found: Option<V>,
    name: &str,
    decoder: &D,
) -> Result<D::Output, DocFault>
    ensures { Gives result
        (read_member name.now (D.meaning decoder.now) (option_map V.json found)) }
{
    match found {
        Some(value) => member_value(alloc, &value, name, decoder),
        None => Err(missing(alloc, name)),
    }
}

/// The meaning of a member that may be left out.
pub fn optional<D: Decoder, V: JsonValue>(
    alloc: Global,
    object: &V,
    name: &str,
    decoder: &D,
) -> Result<Option<D::Output>, DocFault>
    ensures { Gives result (optional name.now (D.meaning decoder.now) (V.json object.now)) }
{
    match object.get(name) {
        Some(value) => {
            let meaning = member_value(alloc, &value, name, decoder)?;
            Ok(Some(meaning))
        }
        None => Ok(None),
    }
}

fn member_value<D: Decoder, V: JsonValue>(
    alloc: Global,
    value: &V,
    name: &str,
    decoder: &D,
) -> Result<D::Output, DocFault>
    ensures { Gives result
        (with_path (member_path name.now) (D.meaning decoder.now (V.json value.now))) }
{
    match decoder.decode(alloc, value) {
        Ok(meaning) => Ok(meaning),
        Err(fault) => Err(fault.in_member(alloc, name)),
    }
}

/// The meaning of an item of an array.
pub fn item<D: Decoder, V: JsonValue>(
    alloc: Global,
    index: usize,
    value: &V,
    decoder: &D,
) -> Result<D::Output, DocFault>
    ensures { Gives result
        (with_path (item_path index) (D.meaning decoder.now (V.json value.now))) }
{
    match decoder.decode(alloc, value) {
        Ok(meaning) => Ok(meaning),
        Err(fault) => Err(fault.in_item(alloc, index)),
    }
}

fn missing(alloc: Global, name: &str) -> DocFault
    ensures { IsFault result (fault_here (codes "missing member " ++ name.now)) }
{
    DocFault::because(alloc, format!(in alloc; "missing member {name}"))
}

/// A text, copied.
#[derive(Drop)]
pub struct TextDecoder;

impl Decoder for TextDecoder {
    type Output = Text;

    ghost meaning = { λ _. text };

    fn decode<V: JsonValue>(&self, alloc: Global, value: &V) -> Result<Text, DocFault> {
        let text = text(alloc, value)?;
        let text = Text::copied(alloc, text)?;
        Ok(text)
    }
}

/// True or false.
#[derive(Drop)]
pub struct FlagDecoder;

impl Decoder for FlagDecoder {
    type Output = bool;

    ghost meaning = { λ _. flag };

    fn decode<V: JsonValue>(&self, alloc: Global, value: &V) -> Result<bool, DocFault> {
        match value.as_bool() {
            Some(flag) => Ok(flag),
            None => Err(DocFault::here(alloc, WRONG_TYPE)),
        }
    }
}

/// An Int.
#[derive(Drop)]
pub struct IntDecoder;

impl Decoder for IntDecoder {
    type Output = i64;

    ghost meaning = { λ _. int };

    fn decode<V: JsonValue>(&self, alloc: Global, value: &V) -> Result<i64, DocFault> {
        match value.as_i64() {
            Some(number) => Ok(number),
            None => Err(DocFault::here(alloc, WRONG_TYPE)),
        }
    }
}

/// Any count.
#[derive(Drop)]
pub struct AnyCountDecoder;

impl Decoder for AnyCountDecoder {
    type Output = u64;

    ghost meaning = { λ _. count };

    fn decode<V: JsonValue>(&self, alloc: Global, value: &V) -> Result<u64, DocFault> {
        let count = count(alloc, value)?;
        Ok(count)
    }
}

/// A count within bounds.
#[derive(Drop)]
pub struct CountDecoder {
    /// The least count.
    pub min: u32,
    /// The greatest count.
    pub max: u32,
}

impl Decoder for CountDecoder {
    type Output = u32;

    ghost meaning = { λ c. count_within c.min c.max };

    fn decode<V: JsonValue>(&self, alloc: Global, value: &V) -> Result<u32, DocFault> {
        let count = count(alloc, value)?;
        if count < u64::from(self.min) || count > u64::from(self.max) {
            return Err(DocFault::here(alloc, OUT_OF_RANGE));
        }
        Ok(count as u32)
    }
}
