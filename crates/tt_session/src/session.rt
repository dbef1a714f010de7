//! A session: not open yet, or open.
ghost use Rattle.std.specs.Prelude.{◌≡◌, ◌+◌, ◌<◌, ◌≤◌, ◌-◌, ◌^◌, ◌++◌, length, OnOk, OnErr, IfOk, IfErr, IfSome};
ghost use Rattle.tt_requests.specs.LineValue.{value_of_line};
ghost use Rattle.tt_requests.specs.Opening.{max_records, opening_of};
ghost use Rattle.tt_answers.specs.AnswerText.{opening_text};

use crate::lost_line::LostLine;
use crate::pending_lines::PendingLines;
use crate::ready_to_forget::{ReadyToForget, forget_at_once};
use crate::recoverable_session::RecoverableSession;
use crate::short_answer::ShortAnswer;
use crate::together::{self, Extent};
use crate::workspace::{Workspace, append};
use std::alloc::{AllocError, Global};
use tt_answers::{Answer, push_opening};
use tt_commands::{BoxedForgetting, OpenSession, Terms, status_of};
use tt_grammar::DocFault;
use tt_requests::{ForgetRequest, Numbering, Opening, is_passed_over};

/// A session: a database that is opened by a line, and answers each further line.
#[derive(Drop)]
pub enum Session {
    /// No line has opened it yet.
    NotOpen,
    /// It holds a database.
    Open(RecoverableSession),
}

impl Session {
    ghost use Rattle.tt_session.specs.Run.{turn_with_memory, turn_without_memory, turn_of_long_line, calls_of};
    ghost use Rattle.tt_session.specs.ShortAnswers.{short_text};
    ghost use Rattle.tt_session.specs.Together.{IsLostAs, is_opening_lost, AnswersFront};
    ghost use Rattle.tt_session.specs.ForgetTurns.{AnswersLine, turn_of_forget, Prepares};
    ghost use Rattle.tt_commands.specs.Changes.{forgotten_by};
    ghost use Rattle.tt_commands.specs.Session.{OpenSession, terms_of, counted};
    ghost use Rattle.tt_session.specs.declared.session.Session.TheVariants.{Open};

    /// How many calls there were.
    pub fn calls(&self) -> u64
        ensures { result ≡ calls_of self.now }
    {
        match self {
            Session::NotOpen => 0,
            Session::Open(session) => session.calls(),
        }
    }

    /// Answers a line: pushes the text of its answer, which is empty where the line is passed over,
    /// and becomes the session after it. Where memory runs out, the session and the text are as
    /// before, and it is returned what was lost, which
    /// [`answer_without_memory`](Session::answer_without_memory) answers.
    pub fn answer(&mut self, alloc: Global, out: &mut Vec<u8>, line: &[u8]) -> Result<(), LostLine>
        requires { calls_of self.old < 2 ^ 64 - 1 }
        ensures text { OnOk result (out.new.items
            ≡ out.old.items ++ (turn_with_memory self.old line.now).text) }
        ensures session { OnOk result
            (self.new ≡ (turn_with_memory self.old line.now).session) }
        ensures calls { calls_of self.new ≤ calls_of self.old + 1 }
        ensures lost { IfErr result (λ lost. IsLostAs lost line.now) }
        ensures text_stays { OnErr result (out.new.items ≡ out.old.items) }
        ensures session_stays { OnErr result (self.new ≡ self.old) }
    {
        let mut workspace = Workspace::new(alloc, false);
        match self.answer_line(alloc, out, line, &mut workspace)? {
            Some(request) => {
                self.forget_at_once(out, request)?;
                Ok(())
            }
            None => Ok(()),
        }
    }

    /// As [`answer`](Session::answer), for a caller that keeps the workspace from line to line, and
    /// the line with it if it is to be logged. A request to forget is returned, and nothing is done
    /// for it.
    pub fn answer_line(
        &mut self,
        alloc: Global,
        out: &mut Vec<u8>,
        line: &[u8],
        workspace: &mut Workspace,
    ) -> Result<Option<ForgetRequest>, LostLine>
        requires { calls_of self.old < 2 ^ 64 - 1 }
        ensures answered { IfOk result (AnswersLine self.old self.new line.now
            out.old.items out.new.items workspace.old.lines workspace.new.lines) }
        ensures calls { calls_of self.new ≤ calls_of self.old + 1 }
        ensures returned { IfOk result (λ asked. IfSome asked (λ _.
            self.new ≡ self.old)) }
        ensures lost { IfErr result (λ lost. IsLostAs lost line.now) }
        ensures text_stays { OnErr result (out.new.items ≡ out.old.items) }
        ensures session_stays { OnErr result (self.new ≡ self.old) }
        ensures lines_stay { OnErr result (workspace.new.lines ≡ workspace.old.lines) }
    {
        if is_passed_over(line) {
            return Ok(None);
        }
        match self {
            Session::Open(session) => together::answer_line(session, out, line, workspace),
            Session::NotOpen => {
                *self = open(alloc, out, line, &mut workspace.lines)?;
                Ok(None)
            }
        }
    }

    /// Answers a request to forget, where there is no log. Where memory runs out, the session and
    /// the text are as before.
    fn forget_at_once(
        &mut self,
        out: &mut Vec<u8>,
        request: ForgetRequest,
    ) -> Result<(), AllocError>
        requires calls { calls_of self.old < 2 ^ 64 - 1 }
        ensures text { (session : OpenSession) → self.old ≡ Open session → OnOk result
            (out.new.items ≡ out.old.items ++ (turn_of_forget (counted session) request).text) }
        ensures session { (session : OpenSession) → self.old ≡ Open session → OnOk result
            (self.new ≡ (turn_of_forget (counted session) request).session) }
        ensures calls { calls_of self.new ≤ calls_of self.old + 1 }
        ensures text_stays { OnErr result (out.new.items ≡ out.old.items) }
        ensures session_stays { OnErr result (self.new ≡ self.old) }
    {
        match self {
            Session::Open(session) => forget_at_once(session, out, request),
            Session::NotOpen => Ok(()),
        }
    }

    /// Answers a request to forget, as a call, if it is refused or nothing is left to forget; else
    /// it is returned how the session is to go on. Where memory runs out, the session and what the
    /// text is added to are as before.
    pub fn prepare_to_forget(
        &mut self,
        out: &mut Vec<u8>,
        request: ForgetRequest,
    ) -> Result<Option<ReadyToForget>, AllocError>
        requires calls { calls_of self.old < 2 ^ 64 - 1 }
        ensures prepared { (session : OpenSession) → self.old ≡ Open session → IfOk result
            (Prepares (counted session) request out.old.items out.new.items) }
        ensures session { (session : OpenSession) → self.old ≡ Open session
            → OnOk result (self.new ≡ Open (counted session)) }
        ensures calls { calls_of self.new ≤ calls_of self.old + 1 }
        ensures session_stays { OnErr result (self.new ≡ self.old) }
        ensures text_stays { OnErr result (out.new.items ≡ out.old.items) }
    {
        match self {
            Session::Open(session) => session.prepare_to_forget(out, request),
            Session::NotOpen => Ok(None),
        }
    }

    /// Goes on behind a time, if the session is open.
    pub fn go_on_behind(&mut self, forgetting: BoxedForgetting)
        ensures session { (session : OpenSession) → self.old ≡ Open session
            → self.new ≡ Open (forgotten_by session forgetting) }
        ensures calls { calls_of self.new ≡ calls_of self.old }
    {
        if let Session::Open(session) = self {
            session.go_on_behind(forgetting);
        }
    }

    /// What the opening of the session has asked for.
    pub fn terms(&self) -> Terms
        ensures terms { (session : OpenSession) → self.now ≡ Open session
            → result ≡ terms_of session }
        ensures few { result.most_records ≤ max_records }
    {
        match self {
            Session::NotOpen => Terms { most_records: 0 },
            Session::Open(session) => session.terms(),
        }
    }

    /// Answers the lines that some bytes begin with, together, where the session is open: pushes
    /// their text, and becomes the session after them. What it doesn't take is to be answered line
    /// by line.
    pub fn answer_lines(
        &mut self,
        out: &mut Vec<u8>,
        bytes: &[u8],
        workspace: &mut Workspace,
    ) -> Extent
        requires { calls_of self.old + length bytes.now < 2 ^ 64 - 1 }
        ensures { AnswersFront bytes.now result.taken self.old self.new
            out.old.items out.new.items workspace.old.lines workspace.new.lines }
    {
        match self {
            Session::NotOpen => Extent::of(0),
            Session::Open(session) => together::answer_lines(session, out, bytes, workspace),
        }
    }

    /// Returns the answer to a line for which there is no memory. It is counted as a call, where
    /// the session is open, unless it was lost as an opening. Takes no memory.
    pub fn answer_without_memory(&mut self, lost: LostLine) -> ShortAnswer
        requires { calls_of self.old < 2 ^ 64 - 1 }
        ensures text { short_text result
            ≡ (turn_without_memory (is_opening_lost lost) self.old).text }
        ensures session { self.new
            ≡ (turn_without_memory (is_opening_lost lost) self.old).session }
        ensures calls { calls_of self.new ≤ calls_of self.old + 1 }
    {
        match self {
            Session::NotOpen => ShortAnswer::OpeningOutOfMemory,
            Session::Open(session) => match lost {
                LostLine::Opening => ShortAnswer::OpeningOutOfMemory,
                LostLine::Request => ShortAnswer::CallOutOfMemory(session.count_call()),
            },
        }
    }

    /// Counts a line that is longer than lines may be as a call, where the session is open, and
    /// returns its answer. Takes no memory.
    pub fn answer_too_long(&mut self) -> ShortAnswer
        requires { calls_of self.old < 2 ^ 64 - 1 }
        ensures text { short_text result ≡ (turn_of_long_line self.old).text }
        ensures session { self.new ≡ (turn_of_long_line self.old).session }
        ensures calls { calls_of self.new ≤ calls_of self.old + 1 }
    {
        match self {
            Session::NotOpen => ShortAnswer::OpeningTooLong,
            Session::Open(session) => ShortAnswer::CallTooLong(session.count_call()),
        }
    }
}

ghost use Rattle.tt_session.specs.Run.{turn_by_opening, calls_of};
ghost use Rattle.tt_session.specs.Logged.{logged_by, with_lines};
ghost use Rattle.tt_session.specs.declared.session.Session.TheVariants.{NotOpen};
ghost use Rattle.tt_session.specs.Run.{begun};

/// Answers a line that is an opening, and keeps it if it is to be logged. Returns the session after
/// it, which isn't open after a fault. Where memory runs out, the text and the lines are as before.
fn open(
    alloc: Global,
    out: &mut Vec<u8>,
    line: &[u8],
    lines: &mut PendingLines,
) -> Result<Session, AllocError>
    ensures text { OnOk result (out.new.items ≡ out.old.items
        ++ (turn_by_opening (opening_of (value_of_line line.now))).text) }
    ensures session { IfOk result (λ s.
        s ≡ (turn_by_opening (opening_of (value_of_line line.now))).session) }
    ensures calls { IfOk result (λ s. calls_of s ≡ 0) }
    ensures lines { IfOk result (λ s.
        lines.new ≡ with_lines lines.old (logged_by NotOpen s line.now)) }
    ensures text_stays { OnErr result (out.new.items ≡ out.old.items) }
    ensures lines_stay { OnErr result (lines.new ≡ lines.old) }
{
    let before = out.len();
    match open_or_stay(alloc, out, line)? {
        Some(session) => match lines.push(line) {
            Ok(()) => Ok(Session::Open(RecoverableSession::new(session))),
            Err(AllocError) => {
                out.truncate(before);
                Err(AllocError)
            }
        },
        None => Ok(Session::NotOpen),
    }
}

/// Answers a line that is an opening. Returns the session that it opens, if it has no fault.
pub fn open_or_stay(
    alloc: Global,
    out: &mut Vec<u8>,
    line: &[u8],
) -> Result<Option<OpenSession>, AllocError>
    ensures text { OnOk result (out.new.items ≡ out.old.items
        ++ (turn_by_opening (opening_of (value_of_line line.now))).text) }
    ensures session { IfOk result (λ opened. begun opened
        ≡ (turn_by_opening (opening_of (value_of_line line.now))).session) }
    ensures calls { IfOk result (λ opened. calls_of (begun opened) ≡ 0) }
    ensures text_stays { OnErr result (out.new.items ≡ out.old.items) }
{
    match Opening::from_line(alloc, line) {
        Ok(opening) => {
            let session = OpenSession::new(alloc, opening);
            let status = status_of(session.db());
            push_opening_answer(alloc, out, session.numbering(), &Answer::Standing(status))?;
            Ok(Some(session))
        }
        Err(DocFault::Memory) => Err(AllocError),
        Err(fault) => {
            push_opening_answer(alloc, out, Numbering::new(), &Answer::Faulty(fault))?;
            Ok(None)
        }
    }
}

/// Adds the text of an answer to an opening.
pub(crate) fn push_opening_answer(
    alloc: Global,
    out: &mut Vec<u8>,
    numbering: Numbering,
    answer: &Answer,
) -> Result<(), AllocError>
    ensures text { OnOk result
        (out.new.items ≡ out.old.items ++ opening_text numbering answer.now) }
    ensures text_stays { OnErr result (out.new.items ≡ out.old.items) }
{
    let mut text = Vec::new(alloc);
    push_opening(alloc, &mut text, numbering, answer)?;
    append(out, &mut text)
}
