//! The values of serde_json.
ghost use Rattle.std.specs.Prelude.{◌≡◌, [], ◌∷◌, ◌++◌, not, map, find, string_bytes};
ghost use Rattle.std.specs.BTreeMap.{keys, IsOrdered};
ghost use Rattle.std.specs.List.{list_any};
ghost use Rattle.std.specs.Option.{option_copied};
ghost use Rattle.std.specs.Str.{bytes_eq};
ghost use Rattle.std.specs.String.{string_cmp};
ghost use Rattle.serde_json.specs.View.{view};
ghost use Rattle.tt_json.specs.Value.{is_among, least_unknown};

use crate::names::{is_either, is_known};
use crate::value::{Found, JsonValue};
use serde_json::{Map, Value};

/// The items of an array that are left.
#[derive(Drop)]
pub struct TreeItems<'a> {
    items: &'a [Value],
}

impl<'a> JsonValue for &'a Value {
    type Items = TreeItems<'a>;

    ghost json = { λ value. view value.now };

    ghost left = { λ l. map view l.items.now };

    fn get(&self, name: &str) -> Option<&'a Value> {
        Value::get(*self, name)
    }

    fn is_object(&self) -> bool {
        Value::is_object(*self)
    }

    fn as_str(&self) -> Option<&str> {
        Value::as_str(*self)
    }

    fn as_bool(&self) -> Option<bool> {
        Value::as_bool(*self)
    }

    fn as_i64(&self) -> Option<i64> {
        Value::as_i64(*self)
    }

    fn as_u64(&self) -> Option<u64> {
        Value::as_u64(*self)
    }

    fn items(&self) -> Option<TreeItems<'a>> {
        match Value::as_array(*self) {
            Some(items) => Some(TreeItems {
                items: items.as_slice(),
            }),
            None => None,
        }
    }

    fn count(items: &TreeItems<'a>) -> usize {
        items.items.len()
    }

    fn next_item(items: &mut TreeItems<'a>) -> Option<&'a Value> {
        let (first, rest) = items.items.split_first()?;
        items.items = rest;
        Some(first)
    }

    /// The members are sorted by their names, so the least unknown name is the first.
    fn least_unknown(&self, known: &[&str]) -> Option<&str> {
        let members = Value::as_object(*self)?;
        let name = first_unknown(members, known)?;
        Some(name.as_str())
    }

    fn find_two(&self, first: &str, second: &str, known: &[&str]) -> Found<'_, &'a Value> {
        Found {
            first: Value::get(*self, first),
            second: Value::get(*self, second),
            unknown: least_of_others(*self, first, second, known),
        }
    }
}

/// The least name of an object's members that's neither one of these two nor a known one. It's the
/// first one, as those are sorted by their names.
fn least_of_others<'a>(
    value: &'a Value,
    first: &str,
    second: &str,
    known: &[&str],
) -> Option<&'a str>
    ensures { option_copied result
        ≡ least_unknown
        (is_among (map (λ k. k.now) known.now ++ first.now ∷ second.now ∷ []))
        (view value.now) }
{
    let members = value.as_object()?;
    let name = first_other(members, first, second, known)?;
    Some(name.as_str())
}

fn first_other<'a>(
    members: &'a Map<String, Value>,
    first: &str,
    second: &str,
    known: &[&str],
) -> Option<&'a String>
    ensures first { option_copied result
        ≡ find
        (λ name. not (is_among
        (map (λ k. k.now) known.now ++ first.now ∷ second.now ∷ [])
        (string_bytes name)))
        (keys members.now) }
    ensures ordered { IsOrdered string_cmp members.now }
{
    members
        .keys()
        .find(|name| !is_either(name.as_str(), first, second, known))
}

fn first_unknown<'a>(members: &'a Map<String, Value>, known: &[&str]) -> Option<&'a String>
    ensures first { option_copied result
        ≡ find (λ name. not (list_any (λ k. bytes_eq (string_bytes name) k.now) known.now))
        (keys members.now) }
    ensures ordered { IsOrdered string_cmp members.now }
{
    members.keys().find(|name| !is_known(known, name.as_str()))
}
