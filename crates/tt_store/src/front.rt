//! The one history of a store, and the beginnings of it that were seen.
ghost use Rattle.std.specs.Prelude.{◌≡◌, [], length, MatchBool, IsTrue};
ghost use mathlib.Core.List.{IsPrefix};
ghost use Rattle.logbook.specs.Pages.{Book};
ghost use Rattle.tt_store.specs.Rules.{head_of};

use logbook::{Gain, Offer, Plain, Play, Rule, Seen, Start, Word};
use std::marker::Model;
use tt_db::{Db, Entry};

/// A batch of entries. Contracts see it as a list, of any length.
type Batch = [Entry; 0];

/// The rule of the book that keeps the history.
pub(crate) struct Law;

impl Rule<Batch, u64> for Law {
    ghost use Rattle.std.specs.Prelude.{[]};
    ghost use base.Fml.{ftrue};
    ghost use Rattle.tt_store.specs.Rules.{IsKept};

    ghost holds = { λ cells log. IsKept cells log };

    ghost first = { [] };

    ghost hinted = { λ n log. Unit {0} };

    ghost shows = { λ log. [] };

    ghost keeps = { λ names log. ftrue };

    ghost moves = { λ ask before after answer. Unit {0} };
}

/// Callers trade nothing.
struct Nothing;

impl Gain<Batch, u64> for Nothing {
    ghost use base.Fml.{ftrue};

    ghost after = { λ names about answer. ftrue };
}

/// The step by which the history becomes that of a database.
struct Grow;

impl Play<Batch, u64> for Grow {
    ghost use Rattle.tt_store.specs.Rules.{Becomes};

    ghost then = { Becomes };
}

impl Plain<Db, Batch, u64> for Grow {
    ghost use Rattle.std.specs.Prelude.{None};

    ghost ask = { λ db. db.history };

    ghost state = { λ db. None };
}

/// The word that all threads share: how many entries the history has.
#[derive(Drop)]
pub(crate) struct Head {
    word: Word<Batch, u64, Law>,
}

impl Model for Head {
    ghost use Rattle.std.specs.Prelude.{◌≡◌};
    ghost use Rattle.logbook.specs.Pages.{Book};
    ghost use Rattle.tt_store.specs.Rules.{head_of};

    ghost Value = { Book };

    ghost view = { λ h. h.word.book };

    ghost invariant = { λ h. h.word ≡ head_of h.word.book };
}

/// A beginning of the history that was seen.
#[derive(Drop)]
pub(crate) struct Front {
    entries: u64,
    seen: Seen<Batch, u64, Law>,
}

impl Model for Front {
    ghost use Rattle.std.specs.Prelude.{◌≡◌, length};
    ghost use Rattle.tt_store.specs.History.{Beginning, joined};

    ghost Value = { Beginning };

    ghost view = { λ f. record { book = f.seen.book; entries = joined f.seen.log } };

    ghost invariant = { λ f. f.entries ≡ length (joined f.seen.log) };
}

impl Front {
    /// A new history without entries, and its beginning.
    pub(crate) fn open() -> (Head, Front)
        ensures empty { result.1.entries ≡ [] }
        ensures book { result.0 ≡ result.1.book }
    {
        let (seen, mut first, _second) = Seen::open(Start::alone(), 0, 0);
        let word = Word::tracked(0, &mut first);
        (Head { word }, Front { entries: 0, seen })
    }

    /// How many entries it has.
    pub(crate) fn len(&self) -> u64
        ensures { result ≡ length self.now.entries }
    {
        self.entries
    }

    /// A copy.
    pub(crate) fn share(&self) -> Front
        ensures { result ≡ self.now }
    {
        Front {
            entries: self.entries,
            seen: self.seen.again(),
        }
    }

    /// Whether the other one begins with this one. If not, this one begins with the other.
    pub(crate) fn begins(&self, other: &Front) -> bool
        requires { other.now.book ≡ self.now.book }
        ensures { MatchBool result (IsPrefix self.now.entries other.now.entries)
            (IsPrefix other.now.entries self.now.entries) }
    {
        let mut both = self.seen.again();
        both.learn(&other.seen);
        self.entries <= other.entries
    }

    /// Makes the history that of the database, where all of it was seen. Says whether it did:
    /// otherwise the history is longer, and was seen.
    pub(crate) fn grow(&mut self, head: &Head, db: &Db) -> bool
        requires book { head.now ≡ self.old.book }
        requires longer { IsPrefix self.old.entries db.now.history }
        ensures book { self.new.book ≡ self.old.book }
        ensures grown { IsTrue result → self.new.entries ≡ db.now.history }
        ensures seen { IsPrefix self.old.entries self.new.entries }
    {
        let mut offer: Offer<Batch, u64, Law, Nothing> = self.seen.plain::<Nothing, Db, Grow>(db);
        let mut pen = self.seen.no_pen();
        let before = self.entries;
        let after = db.events();
        let found = head
            .word
            .compare_exchange::<Grow, Nothing>(before, after, &mut self.seen, &mut offer, &mut pen);
        self.entries = if found == before { after } else { found };
        found == before
    }
}
