//! Names of members.
ghost use Rattle.std.specs.Prelude.{◌≡◌, [], ◌∷◌, ◌++◌, map};
ghost use Rattle.std.specs.List.{list_any};
ghost use Rattle.std.specs.Str.{bytes_eq};
ghost use Rattle.tt_json.specs.Value.{is_among};

/// Whether a name is this one.
#[inline(always)]
pub(crate) fn is_name(name: &str, wanted: &str) -> bool
    ensures { result ≡ bytes_eq name.now wanted.now }
{
    are_same(name.as_bytes(), wanted.as_bytes())
}

/// Whether both are the same bytes. Names are short, and most that differ do so in their length or
/// in their first byte, so they are compared byte by byte.
#[inline(always)]
fn are_same(name: &[u8], wanted: &[u8]) -> bool
    ensures { result ≡ bytes_eq name.now wanted.now }
{
    if name.len() != wanted.len() {
        return false;
    }
    for at in 0..name.len() {
        if name[at] != wanted[at] {
            return false;
        }
    }
    true
}

/// Whether a name is one of the known ones.
pub(crate) fn is_known(known: &[&str], name: &str) -> bool
    ensures { result ≡ list_any (λ k. bytes_eq name.now k.now) known.now }
{
    known.iter().any(|known| is_name(name, known))
}

/// Whether a name is known, or one of two.
#[tactic(auto, using(crate::proofs::FindLemmas::among))]
pub(crate) fn is_either(name: &str, first: &str, second: &str, known: &[&str]) -> bool
    ensures { result
        ≡ is_among (map (λ k. k.now) known.now ++ first.now ∷ second.now ∷ []) name.now }
{
    is_known(known, name) || is_name(name, first) || is_name(name, second)
}
