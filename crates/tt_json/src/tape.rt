//! A text on a tape, read as serde_json reads it.
ghost use Rattle.std.specs.Prelude.{◌≡◌, ◌≢◌, ◌<◌, [], ◌∷◌, ◌++◌, false, not, filter, map, length, Some, None, Err, IfOk, OnOk, IsSomeAnd, OnSome, MatchOption, option_map, option_and_then, List, is_some};
ghost use Rattle.std.specs.List.{list_any};
ghost use Rattle.std.specs.Option.{option_copied};
ghost use Rattle.std.specs.Str.{bytes_eq};
ghost use Rattle.json.specs.Json.{document};
ghost use Rattle.json.specs.Strict.{HasUniqueKeys};
ghost use Rattle.json.specs.Tape.{node_token};
ghost use Rattle.json.specs.Token.{Token};
ghost use Rattle.serde_json.specs.Read.{read};
ghost use Rattle.serde_json.specs.Data as serde;
ghost use Rattle.serde_json.specs.Find.{as_number, get_member};
ghost use Rattle.tt_json.specs.Fit.{tokens_fit};
ghost use Rattle.tt_json.specs.Number.{number_view};
ghost use Rattle.tt_json.specs.Value.{items_in, is_among, member_names, lesser, least};
ghost use Rattle.tt_json.specs.Tape.{value_at, items_at, IsValue, AreItems, AreMembers, AreAllMembers};
ghost use Rattle.tt_json.specs.Text.{json_of_text};

use crate::names::{is_known, is_name};
use crate::number::{Number, number_of};
use crate::value::{Found, JsonValue};
use json::{Element, Error, MAX_LEN, Members, Node, Scratch, Tape};
use std::alloc::Allocator;
use std::marker::Model;

const MAX_DEPTH: usize = 127;

/// Reads a text onto a tape. `Invalid` means that serde_json refuses the text. The tape is made of
/// `buffer`, and `scratch` holds the texts that were written with escapes.
pub fn parse<'a, S: Allocator, A: Allocator>(
    text: &'a str,
    scratch: &'a mut Scratch<S>,
    buffer: Vec<Node<'a>, A>,
) -> Result<Tape<'a, A>, Error>
    ensures value { IfOk result (λ tape. IsValue tape) }
    ensures ok { IfOk result (λ tape. read text.now ≡ Some (value_at tape)) }
    ensures invalid { result ≡ Err Error.Invalid → read text.now ≡ None }
    ensures too_long { result ≡ Err Error.TooLong → MAX_LEN < length text.now }
    ensures never_duplicate { result ≢ Err Error.DuplicateKey }
{
    match Tape::parse(text, scratch, buffer) {
        Ok(tape) => if fits(tape.nodes()) {
            Ok(tape)
        } else {
            Err(Error::Invalid)
        },
        Err(error) => Err(error),
    }
}

/// As [`parse`], but takes only texts in which no object names a member twice. `DuplicateKey` means
/// that the text is JSON and an object of it names a member twice; serde_json may refuse it all the
/// same, as one that nests too deep. `Invalid` means only that serde_json refuses the text: an
/// object may name a member twice in it, too.
pub fn parse_strict<'a, S: Allocator, A: Allocator>(
    text: &'a str,
    scratch: &'a mut Scratch<S>,
    buffer: Vec<Node<'a>, A>,
) -> Result<Tape<'a, A>, Error>
    ensures value { IfOk result (λ tape. IsValue tape) }
    ensures ok { IfOk result (λ tape. read text.now ≡ Some (value_at tape)) }
    ensures unique { OnOk result (IsSomeAnd (json_of_text text.now) HasUniqueKeys) }
    ensures invalid { result ≡ Err Error.Invalid → read text.now ≡ None }
    ensures duplicate { result ≡ Err Error.DuplicateKey
        → IsSomeAnd (document text.now) (λ j. ¬ HasUniqueKeys j) }
    ensures too_long { result ≡ Err Error.TooLong → MAX_LEN < length text.now }
{
    match Tape::parse_strict(text, scratch, buffer) {
        Ok(tape) => if fits(tape.nodes()) {
            Ok(tape)
        } else {
            Err(Error::Invalid)
        },
        Err(error) => Err(error),
    }
}

/// Whether serde_json takes what these nodes hold.
fn fits(nodes: &[Node<'_>]) -> bool
    ensures { result ≡ tokens_fit 0 (map node_token nodes.now) }
{
    let mut depth = 0;
    for node in nodes {
        let Some(after) = depth_after(depth, node) else {
            return false;
        };
        depth = after;
    }
    true
}

/// The depth after a node, where it fits.
#[inline(always)]
fn depth_after(depth: usize, node: &Node<'_>) -> Option<usize>
    ensures { MatchOption result
        ((ts : List Token) → tokens_fit depth (node_token node.now ∷ ts) ≡ false)
        (λ after. (ts : List Token)
        → tokens_fit depth (node_token node.now ∷ ts) ≡ tokens_fit after ts) }
{
    match *node {
        Node::Object(_) | Node::Array(_) => if depth < MAX_DEPTH {
            Some(depth + 1)
        } else {
            None
        },
        Node::EndObject | Node::EndArray => Some(depth.saturating_sub(1)),
        Node::Number(text) => match number_of(text) {
            Some(_) => Some(depth),
            None => None,
        },
        _ => Some(depth),
    }
}

/// A value on a tape.
#[derive(Drop)]
pub struct TapeValue<'t, 'a> {
    element: Element<'t, 'a>,
}

impl<'t, 'a> Model for TapeValue<'t, 'a> {
    ghost use Rattle.std.specs.Prelude.{List};
    ghost use Rattle.json.specs.Token.{Token, tokens_code};

    ghost Value = { List Token };

    ghost coded = { tokens_code };

    ghost use Rattle.tt_json.specs.Tape.{IsValue};

    ghost view = { λ a. a.element };

    ghost invariant = { λ a. IsValue a.element };
}

/// The value that a tape holds.
pub fn root<'t, 'a, A: Allocator>(tape: &'t Tape<'a, A>) -> TapeValue<'t, 'a>
    requires { IsValue tape.now }
    ensures { result ≡ tape.now }
{
    TapeValue {
        element: tape.root(),
    }
}

/// The items of an array that are left.
#[derive(Drop)]
pub struct TapeItems<'t, 'a> {
    items: json::Items<'t, 'a>,
    count: usize,
}

impl<'t, 'a> Model for TapeItems<'t, 'a> {
    ghost use Rattle.std.specs.Prelude.{◌≡◌, List, length};
    ghost use Rattle.json.specs.Token.{Token, tokens_code};

    ghost Value = { List Token };

    ghost coded = { tokens_code };

    ghost use Rattle.tt_json.specs.Tape.{AreItems, items_at};

    ghost view = { λ a. a.items };

    ghost invariant = { λ a. AreItems a.items × (a.count ≡ length (items_at a.items)) };
}

impl<'t, 'a> JsonValue for TapeValue<'t, 'a> {
    type Items = TapeItems<'t, 'a>;

    ghost json = { value_at };

    ghost left = { items_at };

    fn get(&self, name: &str) -> Option<TapeValue<'t, 'a>> {
        match self.element.members() {
            Some(members) => find(members, name),
            None => None,
        }
    }

    fn is_object(&self) -> bool {
        match self.element.members() {
            Some(_) => true,
            None => false,
        }
    }

    fn as_str(&self) -> Option<&str> {
        self.element.as_str()
    }

    fn as_bool(&self) -> Option<bool> {
        self.element.as_bool()
    }

    fn as_i64(&self) -> Option<i64> {
        match self.as_number() {
            Some(Number::Unsigned(n)) => if n <= i64::MAX as u64 {
                Some(n as i64)
            } else {
                None
            },
            Some(Number::Negative(n)) => Some(n),
            _ => None,
        }
    }

    fn as_u64(&self) -> Option<u64> {
        match self.as_number() {
            Some(Number::Unsigned(n)) => Some(n),
            _ => None,
        }
    }

    fn items(&self) -> Option<TapeItems<'t, 'a>> {
        match self.element.items() {
            Some(items) => Some(TapeItems {
                items,
                count: self.item_count(),
            }),
            None => None,
        }
    }

    fn count(items: &TapeItems<'t, 'a>) -> usize {
        items.len()
    }

    fn next_item(items: &mut TapeItems<'t, 'a>) -> Option<TapeValue<'t, 'a>> {
        items.next()
    }

    fn least_unknown(&self, known: &[&str]) -> Option<&str> {
        match self.element.members() {
            Some(members) => least_unknown(members, known),
            None => None,
        }
    }

    #[inline(always)]
    fn find_two(&self, first: &str, second: &str, known: &[&str]) -> Found<'_, TapeValue<'t, 'a>> {
        match self.element.members() {
            Some(members) => find_two(members, first, second, known),
            None => Found {
                first: None,
                second: None,
                unknown: None,
            },
        }
    }
}

impl<'t, 'a> TapeValue<'t, 'a> {
    fn as_number(&self) -> Option<Number>
        ensures { option_map number_view result ≡ as_number (value_at self.now) }
    {
        match self.element.as_number() {
            Some(text) => number_of(text),
            None => None,
        }
    }

    /// The number of items of an array. Another value has none.
    fn item_count(&self) -> usize
        ensures { result ≡ length (items_in (value_at self.now)) }
    {
        match self.element.items() {
            Some(items) => count(items),
            None => 0,
        }
    }
}

impl<'t, 'a> TapeItems<'t, 'a> {
    fn len(&self) -> usize
        ensures { result ≡ length (items_at self.now) }
    {
        self.count
    }

    fn next(&mut self) -> Option<TapeValue<'t, 'a>>
        ensures value { MatchOption result (items_at self.old ≡ [])
            (λ x. items_at self.old ≡ value_at x ∷ items_at self.new) }
        ensures shorter { OnSome result (length self.new < length self.old) }
    {
        match self.items.next() {
            Some(element) => {
                self.count = self.count.saturating_sub(1);
                Some(TapeValue { element })
            }
            None => None,
        }
    }
}

/// The number of items from one on.
fn count(items: json::Items<'_, '_>) -> usize
    requires { AreItems items }
    ensures { result ≡ length (items_at items.entry) }
{
    let mut items = items;
    let mut count: usize = 0;
    while let Some(_) = items.next() {
        count += 1;
    }
    count
}

/// The least name of these members that isn't one of the known ones.
fn least_unknown<'a>(members: Members<'_, 'a>, known: &[&str]) -> Option<&'a str>
    ensures { (ms : serde.Members) → AreMembers members.entry serde.no_members ms
        → option_copied result
        ≡ least (filter (λ name. not (list_any (λ k. bytes_eq name k.now) known.now))
        (member_names ms)) }
{
    let mut members = members;
    let mut least = None;
    while let Some((name, _)) = members.next() {
        if !is_known(known, name) {
            least = Some(lesser(name, least));
        }
    }
    least
}

/// The last of these members with a name.
#[inline(always)]
fn find<'t, 'a>(members: Members<'t, 'a>, wanted: &str) -> Option<TapeValue<'t, 'a>>
    requires { AreAllMembers members }
    ensures { (ms : serde.Members) → AreMembers members.entry serde.no_members ms
        → option_map value_at result ≡ get_member wanted.now ms }
{
    let mut members = members;
    let mut found = None;
    while let Some((name, element)) = members.next() {
        if is_name(name, wanted) {
            found = Some(TapeValue { element });
        }
    }
    found
}

/// Two of these members, each the last of its name, and the least name that's neither one of these
/// two nor one of the known ones.
#[inline(always)]
fn find_two<'t, 'a>(
    members: Members<'t, 'a>,
    first: &str,
    second: &str,
    known: &[&str],
) -> Found<'a, TapeValue<'t, 'a>>
    requires are { AreAllMembers members }
    requires apart { bytes_eq first.now second.now ≡ false }
    ensures first { (ms : serde.Members) → AreMembers members.entry serde.no_members ms
        → option_map value_at result.first ≡ get_member first.now ms }
    ensures second { (ms : serde.Members) → AreMembers members.entry serde.no_members ms
        → option_map value_at result.second ≡ get_member second.now ms }
    ensures unknown { (ms : serde.Members) → AreMembers members.entry serde.no_members ms
        → option_copied result.unknown
        ≡ least (filter
        (λ name. not (is_among
        (map (λ k. k.now) known.now ++ first.now ∷ second.now ∷ [])
        name))
        (member_names ms)) }
{
    let mut members = members;
    let mut found_first = None;
    let mut found_second = None;
    let mut unknown = None;
    while let Some((name, element)) = members.next() {
        if is_name(name, first) {
            found_first = Some(TapeValue { element });
        } else if is_name(name, second) {
            found_second = Some(TapeValue { element });
        } else if !is_known(known, name) {
            unknown = Some(lesser(name, unknown));
        }
    }
    Found {
        first: found_first,
        second: found_second,
        unknown,
    }
}

/// The lesser of two names, by their bytes.
fn lesser<'a>(name: &'a str, other: Option<&'a str>) -> &'a str
    ensures { result.now ≡ lesser name.now (option_copied other.entry) }
{
    match other {
        Some(other) => if name <= other { name } else { other },
        None => name,
    }
}
