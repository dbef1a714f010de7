//! What a JSON value can be asked for.
ghost use Rattle.std.specs.Prelude.{◌≡◌, ◌∷◌, ◌++◌, [], false, map, List, MatchOption, is_some, length, option_map, option_and_then};
ghost use Rattle.std.specs.List.{list_any};
ghost use Rattle.std.specs.Option.{option_copied};
ghost use Rattle.std.specs.Str.{bytes_eq};
ghost use Rattle.serde_json.specs.Data.{Data};
ghost use Rattle.serde_json.specs.Find.{get, as_str, as_bool, as_number, as_array, as_object, as_i64, as_u64};
ghost use Rattle.tt_json.specs.Value.{list_of, is_among, least_unknown};

/// Two members of an object, and the name of one that isn't known.
#[derive(Drop)]
pub struct Found<'a, V> {
    pub first: Option<V>,
    pub second: Option<V>,
    pub unknown: Option<&'a str>,
}

/// A JSON value that is read.
pub trait JsonValue: Sized + Drop {
    /// The items of an array that are left.
    type Items: Drop;

    /// The value, as serde_json's definitions have it.
    ghost json: { Self → Data };

    /// The values of the items that are left.
    ghost left: { Self.Items → List Data };

    /// The member of an object, by its name.
    fn get(&self, name: &str) -> Option<Self>
        ensures { option_map json result ≡ get name.now (json self.now) };

    fn is_object(&self) -> bool
        ensures { result ≡ is_some (as_object (json self.now)) };

    fn as_str(&self) -> Option<&str>
        ensures { option_map (λ s. s.now) result ≡ as_str (json self.now) };

    fn as_bool(&self) -> Option<bool>
        ensures { result ≡ as_bool (json self.now) };

    fn as_i64(&self) -> Option<i64>
        ensures { result ≡ option_and_then as_i64 (as_number (json self.now)) };

    fn as_u64(&self) -> Option<u64>
        ensures { result ≡ option_and_then as_u64 (as_number (json self.now)) };

    /// The items of an array.
    fn items(&self) -> Option<Self::Items>
        ensures { option_map left result ≡ option_map list_of (as_array (json self.now)) };

    /// The number of items that are left.
    fn count(items: &Self::Items) -> usize
        ensures { result ≡ length (left items.now) };

    /// Takes the first of the items that are left.
    fn next_item(items: &mut Self::Items) -> Option<Self>
        ensures { MatchOption result (left items.old ≡ [])
            (λ value. left items.old ≡ json value ∷ left items.new) };

    /// The least name of an object's members that isn't one of these.
    fn least_unknown(&self, known: &[&str]) -> Option<&str>
        ensures { option_copied result
            ≡ least_unknown (λ name. list_any (λ k. bytes_eq name k.now) known.now)
            (json self.now) };

    /// Two members of an object, by their names, and the least name of its members that's neither
    /// one of these two nor one of the known ones. The members are gone over once.
    fn find_two(&self, first: &str, second: &str, known: &[&str]) -> Found<'_, Self>
        requires { bytes_eq first.now second.now ≡ false }
        ensures first { option_map json result.first ≡ get first.now (json self.now) }
        ensures second { option_map json result.second ≡ get second.now (json self.now) }
        ensures unknown { option_copied result.unknown
            ≡ least_unknown
            (is_among (map (λ k. k.now) known.now ++ first.now ∷ second.now ∷ []))
            (json self.now) };
}
