//! The kinds of requests, each named by a member.
use json::{Members, Tape};
use std::alloc::Global;
use tt_grammar::DocFault;

const NO_KIND: &str =
    "missing one of insert, update, delete, select, preview, do, begin, step, finish, abort, status, slots, changes, tables, why, diff, would, forget";

/// Each kind with the member that names it, in the order in which they are looked for.
static KINDS: [(&str, RequestKind); 18] = [
    ("insert", RequestKind::Insert),
    ("update", RequestKind::Update),
    ("delete", RequestKind::Delete),
    ("select", RequestKind::Select),
    ("preview", RequestKind::Preview),
    ("do", RequestKind::Do),
    ("begin", RequestKind::Begin),
    ("step", RequestKind::Step),
    ("finish", RequestKind::Finish),
    ("abort", RequestKind::Abort),
    ("status", RequestKind::Status),
    ("slots", RequestKind::Slots),
    ("changes", RequestKind::Changes),
    ("tables", RequestKind::Tables),
    ("why", RequestKind::Why),
    ("diff", RequestKind::Diff),
    ("would", RequestKind::Would),
    ("forget", RequestKind::Forget),
];

/// The kind of a request.
#[derive(Clone, Copy, Debug, PartialEq, Eq)]
pub(crate) enum RequestKind {
    Insert,
    Update,
    Delete,
    Select,
    Preview,
    Do,
    Begin,
    Step,
    Finish,
    Abort,
    Status,
    Slots,
    Changes,
    Tables,
    Why,
    Diff,
    Would,
    Forget,
}

impl RequestKind {
    ghost use Rattle.std.specs.Prelude.{◌≡◌, ◌≤◌, ℕ, Bool, List, length, map, take, is_some, position};
    ghost use Rattle.std.specs.Str.{bytes_eq};
    ghost use Rattle.std.specs.List.{position_or_len};
    ghost use Rattle.serde_json.specs.Data as serde;
    ghost use Rattle.serde_json.specs.Find.{get_member};
    ghost use Rattle.tt_json.specs.Tape.{IsValue, AreMembers, value_at};
    ghost use Rattle.tt_grammar.specs.Fault.{Gives};
    ghost use Rattle.tt_requests.specs.Kinds.{kinds, first_of, first_kind, kind_of};

    /// The first kind that an object has a member of. Where it has none, the fault lists all kinds.
    pub(crate) fn of(alloc: Global, tape: &Tape<'_>) -> Result<RequestKind, DocFault>
        requires { IsValue tape.now }
        ensures { Gives result (kind_of (value_at tape.now)) }
    {
        match RequestKind::find(tape) {
            Some(kind) => Ok(kind),
            None => Err(DocFault::here(alloc, NO_KIND)),
        }
    }

    /// The first kind that an object has a member of. Its members are gone over at most once.
    fn find(tape: &Tape<'_>) -> Option<RequestKind>
        requires { IsValue tape.now }
        ensures { result ≡ first_kind (value_at tape.now) }
    {
        let place = RequestKind::first_place(tape.root().members()?);
        RequestKind::kind_at(&KINDS, place)
    }

    /// The kind at a place of a table.
    fn kind_at(table: &[(&str, RequestKind)], place: usize) -> Option<RequestKind>
        ensures { (is_there : List ℕ → Bool)
            → place ≡ position_or_len (λ kind. is_there kind.0.now) table.now
            → result ≡ first_of is_there (map (λ kind. (kind.0.now, kind.1)) table.now) }
    {
        let (_, kind) = table.get(place)?;
        Some(*kind)
    }

    /// The place in the table of the first kind that is among these members, or else its length.
    /// Each name is compared only with the kinds before the first one found.
    fn first_place(members: Members<'_, '_>) -> usize
        ensures { (ms : serde.Members) → AreMembers members.entry serde.no_members ms
            → result ≡ position_or_len (λ kind. is_some (get_member kind.0 ms)) kinds }
    {
        let mut members = members;
        let mut first = KINDS.len();
        while let Some((name, _)) = members.next() {
            match RequestKind::place_before(first, name) {
                Some(0) => return 0,
                Some(place) => first = place,
                None => {}
            }
        }
        first
    }

    /// The place of the kind with this name, if it comes before the place `end` of the table.
    fn place_before(end: usize, name: &str) -> Option<usize>
        requires { end ≤ length kinds }
        ensures { result ≡ position (λ kind. bytes_eq name.now kind.0) (take end kinds) }
    {
        KINDS[..end].iter().position(|kind| name == kind.0)
    }
}
