//! Where the answers of a session go.
ghost use Rattle.std.specs.Prelude.{◌++◌, ℕ, List, IfOk, OnOk, OnErr};
ghost use Rattle.tt_session.specs.declared.session.Session.{Session};
ghost use Rattle.tt_session.specs.Answering.{LineRead};
ghost use Rattle.tt_lines.specs.Running.{AnswersKept};
ghost use Rattle.tt_lines.specs.Anew.{Forgets, Renews, StopsRenewing};

use std::alloc::Global;
use std::io::Write;
use tt_commands::{Forgetting, Terms};
use tt_log::Lines;
use tt_streams::{MAX_RETRIES, write_text};

/// An outlet has failed: it may have taken some of what was handed over, or nothing.
#[derive(Clone, Copy, Debug)]
pub struct OutletError;

/// What has become of a log that was to be made anew.
#[derive(Clone, Copy, Debug)]
pub enum Renewal {
    /// It is made anew, and the answer is handed over.
    MadeAnew,
    /// It couldn't be made anew, and goes on as it was. The refusal is handed over.
    Refused,
    /// There is no memory for it. It goes on as it was, and nothing is handed over.
    OutOfMemory,
}

/// What a log that is made anew is to have, and what is handed over then.
#[derive(Clone, Copy)]
pub struct Forgotten<'a> {
    /// How the session goes on.
    pub forgetting: &'a Forgetting,
    /// What its opening has asked for.
    pub terms: Terms,
    /// The answer.
    pub text: &'a [u8],
    /// What is handed over in its place where the log can't be made anew.
    pub refusal: &'a [u8],
}

/// Where the answers of a session go. An outlet with a log keeps the lines that change the database
/// before it hands the answers over.
pub trait Outlet {
    /// That it has a log.
    ghost has_log: { Type 0 };

    /// That it hasn't failed.
    ghost is_ready: { Self → Type 0 };

    /// From one state to another, the answers to lines that a session has read were handed over.
    ghost handed: { Self → Self → Session → List LineRead → Type 0 };

    /// The same, but that it has failed before it had all of them.
    ghost stopped: { Self → Self → Session → List LineRead → Type 0 };

    /// Hands over answers, behind those that were handed over before, and logs the lines of them
    /// that are to be logged.
    fn hand_over(&mut self, lines: &Lines, text: &[u8]) -> Result<(), OutletError>
        requires { is_ready self.old }
        ensures ready { OnOk result (is_ready self.new) }
        ensures handed { OnOk result ((first : Self) (start : Session) (over kept : List LineRead)
            → handed first self.old start over
            → AnswersKept has_log start over kept lines.now text.now
            → handed first self.new start (over ++ kept)) }
        ensures stopped { OnErr result ((first : Self) (start : Session)
            (over kept more : List LineRead) → handed first self.old start over
            → AnswersKept has_log start over kept lines.now text.now
            → stopped first self.new start ((over ++ kept) ++ more)) };

    /// Makes the log anew, if there is one, with the lines of a session that has forgotten what
    /// lies before a time, and only then hands over the answer. All earlier answers are handed
    /// over.
    fn hand_over_anew(
        &mut self,
        alloc: Global,
        forgotten: &Forgotten<'_>,
    ) -> Result<Renewal, OutletError>
        requires { is_ready self.old }
        ensures ready { OnOk result (is_ready self.new) }
        ensures renewed { IfOk result (λ renewal. (first : Self) (start : Session)
            (over : List LineRead) (line : List ℕ) → handed first self.old start over
            → Forgets start over line forgotten.now.forgetting.now forgotten.now.terms
            forgotten.now.text.now forgotten.now.refusal.now
            → Renews handed first self.new start over line renewal) }
        ensures stopped { OnErr result ((first : Self) (start : Session)
            (over : List LineRead) (line : List ℕ) → handed first self.old start over
            → Forgets start over line forgotten.now.forgetting.now forgotten.now.terms
            forgotten.now.text.now forgotten.now.refusal.now
            → StopsRenewing stopped first self.new start over line) };
}

// A writer has no log.
impl<W: Write> Outlet for W {
    ghost use Rattle.tt_lines.specs.Writes.{Writes, WritesPrefix};

    ghost has_log = { ⊥ };

    ghost is_ready = { λ _. Unit {0} };

    ghost handed = { λ before after start reads.
        Writes (W.contents before) (W.contents after) start reads };

    ghost stopped = { λ before after start reads.
        WritesPrefix (W.contents before) (W.contents after) start reads };

    fn hand_over(&mut self, _lines: &Lines, text: &[u8]) -> Result<(), OutletError> {
        let mut retries = MAX_RETRIES;
        match write_text(self, text, &mut retries) {
            Ok(()) => Ok(()),
            Err(_) => Err(OutletError),
        }
    }

    fn hand_over_anew(
        &mut self,
        _alloc: Global,
        forgotten: &Forgotten<'_>,
    ) -> Result<Renewal, OutletError> {
        let mut retries = MAX_RETRIES;
        match write_text(self, forgotten.text, &mut retries) {
            Ok(()) => Ok(Renewal::MadeAnew),
            Err(_) => Err(OutletError),
        }
    }
}
