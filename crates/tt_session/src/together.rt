//! Lines of an open session: one, or several that have come together.
ghost use Rattle.std.specs.Prelude.{◌≡◌, ◌+◌, ◌-◌, ◌≤◌, ◌<◌, ◌^◌, false, length, IfOk, IfErr, IfSome, OnOk, OnErr};
ghost use Rattle.tt_session.specs.declared.session.Session.TheVariants.{Open};
ghost use Rattle.tt_requests.specs.LineValue.{value_of_line};
ghost use Rattle.tt_requests.specs.SessionLine.{is_opening};
ghost use Rattle.tt_commands.specs.Session.{request_in};
ghost use Rattle.tt_requests.specs.Lines.{is_passed_over};
ghost use Rattle.tt_session.specs.ForgetTurns.{AnswersLine};
ghost use Rattle.tt_session.specs.Together.{IsLostAs, AnswersFront};

use crate::first_line::{FirstLine, RequestLine};
use crate::lost_line::LostLine;
use crate::recoverable_session::RecoverableSession;
use crate::workspace::{Workspace, is_much};
use std::alloc::AllocError;
use tt_grammar::DocFault;
use tt_requests::{ForgetRequest, Request, SessionLine, asks_to_forget, forget_request};

/// How far the lines that some bytes begin with were answered together.
#[derive(Clone, Copy)]
pub struct Extent {
    /// How many bytes these lines have, with their line feeds.
    pub taken: usize,
    /// Whether memory ran out for lines behind them: these are to be answered one by one.
    pub is_out_of_memory: bool,
}

impl Extent {
    /// Lines with this many bytes, behind which memory didn't run out.
    pub fn of(taken: usize) -> Extent
        ensures { result ≡ record { taken = taken; is_out_of_memory = false } }
    {
        Extent {
            taken,
            is_out_of_memory: false,
        }
    }
}

/// Answers the lines that some bytes begin with, up to one that isn't whole or finds no memory,
/// or until much is kept.
pub(crate) fn answer_lines(
    session: &mut RecoverableSession,
    out: &mut Vec<u8>,
    bytes: &[u8],
    workspace: &mut Workspace,
) -> Extent
    requires { session.old.calls + length bytes.now < 2 ^ 64 - 1 }
    ensures { AnswersFront bytes.now result.taken (Open session.old) (Open session.new)
        out.old.items out.new.items workspace.old.lines workspace.new.lines }
{
    let mut taken = 0;
    while taken < bytes.len() && !is_much(out.len(), &workspace.lines) {
        match answer_first(session, out, &bytes[taken..], workspace) {
            Ok(0) => return Extent::of(taken),
            Ok(count) => taken += count,
            Err(AllocError) => {
                return Extent {
                    taken,
                    is_out_of_memory: true,
                };
            }
        }
    }
    Extent::of(taken)
}

/// Answers the first line. Returns how many bytes were taken: none where it isn't whole, or is an
/// opening or a request to forget. Where memory runs out, the session, the text and the lines to
/// log are as before.
fn answer_first(
    session: &mut RecoverableSession,
    out: &mut Vec<u8>,
    bytes: &[u8],
    workspace: &mut Workspace,
) -> Result<usize, AllocError>
    requires { session.old.calls < 2 ^ 64 - 1 }
    ensures answered { IfOk result (λ count. AnswersFront bytes.now count
        (Open session.old) (Open session.new) out.old.items out.new.items
        workspace.old.lines workspace.new.lines) }
    ensures session_stays { OnErr result (session.new ≡ session.old) }
    ensures text_stays { OnErr result (out.new.items ≡ out.old.items) }
    ensures lines_stay { OnErr result (workspace.new.lines ≡ workspace.old.lines) }
{
    match FirstLine::of(session, bytes, &mut workspace.scratch)? {
        FirstLine::NotWhole | FirstLine::Opening => Ok(0),
        FirstLine::PassedOver(len) => Ok(len),
        FirstLine::Read(RequestLine { asked, len }) => {
            if asks_to_forget(&asked) {
                return Ok(0);
            }
            session.answer(out, asked, &bytes[..len - 1], workspace)?;
            Ok(len)
        }
    }
}

/// Answers a line, as an opening or as a call: adds the text of the answer, goes on as that
/// leaves the session, and keeps the line if it is to be logged. A request to forget is
/// returned, and nothing is done for it. Where memory runs out, the session, the text and the
/// lines to log are as before.
pub(crate) fn answer_line(
    session: &mut RecoverableSession,
    out: &mut Vec<u8>,
    line: &[u8],
    workspace: &mut Workspace,
) -> Result<Option<ForgetRequest>, LostLine>
    requires calls { session.old.calls < 2 ^ 64 - 1 }
    requires told { is_passed_over line.now ≡ false }
    ensures answered { IfOk result (AnswersLine (Open session.old) (Open session.new) line.now
        out.old.items out.new.items workspace.old.lines workspace.new.lines) }
    ensures calls { OnOk result (session.new.calls ≤ session.old.calls + 1) }
    ensures returned { IfOk result (λ asked. IfSome asked (λ _.
        Open session.new ≡ Open session.old)) }
    ensures lost { IfErr result (λ lost. IsLostAs lost line.now) }
    ensures text_stays { OnErr result (out.new.items ≡ out.old.items) }
    ensures session_stays { OnErr result (session.new ≡ session.old) }
    ensures lines_stay { OnErr result (workspace.new.lines ≡ workspace.old.lines) }
{
    match session.read(line, &mut workspace.scratch)? {
        SessionLine::Opening => match session.reopen(out, line) {
            Ok(()) => Ok(None),
            Err(AllocError) => Err(LostLine::Opening),
        },
        SessionLine::Request(asked) => {
            let request = answer_request(session, out, asked, line, workspace)?;
            Ok(request)
        }
    }
}

/// Answers what a line asks, or its fault, as a call, and keeps the line if it is to be logged.
/// A request to forget is returned, and nothing is done for it. Where memory runs out, the
/// session, the text and the lines to log are as before.
fn answer_request(
    session: &mut RecoverableSession,
    out: &mut Vec<u8>,
    asked: Result<Request, DocFault>,
    line: &[u8],
    workspace: &mut Workspace,
) -> Result<Option<ForgetRequest>, AllocError>
    requires calls { session.old.calls < 2 ^ 64 - 1 }
    requires told { is_passed_over line.now ≡ false }
    requires no_opening { is_opening (value_of_line line.now) ≡ false }
    requires asks { asked ≡ request_in session.old (value_of_line line.now) }
    ensures answered { IfOk result (AnswersLine (Open session.old) (Open session.new) line.now
        out.old.items out.new.items workspace.old.lines workspace.new.lines) }
    ensures calls { OnOk result (session.new.calls ≤ session.old.calls + 1) }
    ensures returned { IfOk result (λ asked. IfSome asked (λ _.
        Open session.new ≡ Open session.old)) }
    ensures text_stays { OnErr result (out.new.items ≡ out.old.items) }
    ensures session_stays { OnErr result (session.new ≡ session.old) }
    ensures lines_stay { OnErr result (workspace.new.lines ≡ workspace.old.lines) }
{
    match forget_request(&asked) {
        Some(request) => Ok(Some(request)),
        None => {
            session.answer(out, asked, line, workspace)?;
            Ok(None)
        }
    }
}
