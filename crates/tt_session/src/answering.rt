//! What an open session answers to one line.
ghost use Rattle.std.specs.Prelude.{◌≡◌, ◌+◌, ◌<◌, ◌-◌, ◌^◌, ◌++◌, true, OnOk, OnErr, IfOk};
ghost use Rattle.tt_commands.specs.Changes.{with_change};
ghost use Rattle.tt_answers.specs.AnswerText.{call_text};
ghost use Rattle.tt_session.specs.declared.session.Session.TheVariants.{Open};
ghost use Rattle.tt_commands.specs.Session.{counted, with_database};
ghost use Rattle.tt_requests.specs.Asked.{asks_read_only};
ghost use Rattle.tt_session.specs.Run.{turn_by_request, turn_of_answer};

use crate::workspace::append;
use std::alloc::AllocError;
use tt_answers::{Answer, push_call};
use tt_commands::{Failure, OpenSession, Response, SessionChange, outcome_of_request};
use tt_grammar::DocFault;
use tt_requests::Request;

/// Answers what a line asks, or its fault, as a call: pushes the text of the answer, and goes on as
/// the call leaves the session. Where memory runs out, nothing is promised of either.
pub fn answer_in_place(
    session: &mut OpenSession,
    text: &mut Vec<u8>,
    asked: Result<Request, DocFault>,
) -> Result<(), AllocError>
    requires { session.old.calls < 2 ^ 64 - 1 }
    ensures text { OnOk result (text.new.items
        ≡ text.old.items ++ (turn_by_request (counted session.old) asked).text) }
    ensures session { OnOk result
        (Open session.new ≡ (turn_by_request (counted session.old) asked).session) }
    ensures calls { OnOk result (session.new.calls ≡ session.old.calls + 1) }
{
    session.count_call();
    let change = carry_out_asked(session, text, asked)?;
    session.change(change)
}

/// Answers what a line asks, or its fault, as a call: adds the text of the answer, which is made in
/// `text`, and goes on as the call leaves the session. Where memory runs out, what the text is added
/// to is as before, and so is the session but for its database; that, too, if what is asked is
/// read-only.
pub(crate) fn answer_call(
    session: &mut OpenSession,
    out: &mut Vec<u8>,
    text: &mut Vec<u8>,
    asked: Result<Request, DocFault>,
) -> Result<(), AllocError>
    requires { session.old.calls < 2 ^ 64 - 1 }
    ensures text { OnOk result (out.new.items
        ≡ out.old.items ++ (turn_by_request (counted session.old) asked).text) }
    ensures session { OnOk result
        (Open session.new ≡ (turn_by_request (counted session.old) asked).session) }
    ensures calls { OnOk result (session.new.calls ≡ session.old.calls + 1) }
    ensures reads { asks_read_only asked ≡ true → OnOk result
        (session.new.database ≡ session.old.database) }
    ensures told { asks_read_only asked ≡ true → OnOk result
        (session.new.numbering ≡ session.old.numbering) }
    ensures text_stays { OnErr result (out.new.items ≡ out.old.items) }
    ensures rest { OnErr result
        (session.new ≡ with_database session.old session.new.database) }
    ensures reads_stay { asks_read_only asked ≡ true → OnErr result
        (session.new ≡ session.old) }
{
    session.count_call();
    match answer_counted(session, out, text, asked) {
        Ok(()) => Ok(()),
        Err(AllocError) => {
            session.take_back_call();
            Err(AllocError)
        }
    }
}

/// Answers what a line asks, whose call is counted already. Where memory runs out, what the text is
/// added to is as before, and so is the session but for its database; that, too, if what is asked
/// is read-only.
fn answer_counted(
    session: &mut OpenSession,
    out: &mut Vec<u8>,
    text: &mut Vec<u8>,
    asked: Result<Request, DocFault>,
) -> Result<(), AllocError>
    ensures text { OnOk result
        (out.new.items ≡ out.old.items ++ (turn_by_request session.old asked).text) }
    ensures session { OnOk result
        (Open session.new ≡ (turn_by_request session.old asked).session) }
    ensures calls { OnOk result (session.new.calls ≡ session.old.calls) }
    ensures reads { asks_read_only asked ≡ true → OnOk result
        (session.new.database ≡ session.old.database) }
    ensures told { asks_read_only asked ≡ true → OnOk result
        (session.new.numbering ≡ session.old.numbering) }
    ensures text_stays { OnErr result (out.new.items ≡ out.old.items) }
    ensures rest { OnErr result
        (session.new ≡ with_database session.old session.new.database) }
    ensures reads_stay { asks_read_only asked ≡ true → OnErr result
        (session.new ≡ session.old) }
{
    text.clear();
    let change = carry_out_asked(session, text, asked)?;
    let before = out.len();
    append(out, text)?;
    match session.change(change) {
        Ok(()) => Ok(()),
        Err(AllocError) => {
            out.truncate(before);
            Err(AllocError)
        }
    }
}

/// Carries out what a line asks, whose call is counted already, and pushes the text of the answer.
/// Returns what becomes of the session then. Where memory runs out, nothing is promised of the text,
/// nor of the database, unless what is asked is read-only.
fn carry_out_asked(
    session: &mut OpenSession,
    text: &mut Vec<u8>,
    asked: Result<Request, DocFault>,
) -> Result<SessionChange, AllocError>
    ensures text { OnOk result
        (text.new.items ≡ text.old.items ++ (turn_by_request session.old asked).text) }
    ensures session { IfOk result (λ change.
        Open (with_change session.new change) ≡ (turn_by_request session.old asked).session) }
    ensures rest { session.new ≡ with_database session.old session.new.database }
    ensures reads { asks_read_only asked ≡ true → session.new ≡ session.old }
{
    let request = match asked {
        Ok(request) => request,
        Err(fault) => {
            push_answer(session, text, &Answer::Faulty(fault))?;
            return Ok(SessionChange::Latest {
                record: None,
                stamped: None,
            });
        }
    };
    match outcome_of_request(session, request) {
        Ok(Response { answer, change }) => {
            push_answer_behind(session, text, &change, &answer)?;
            Ok(change)
        }
        Err(Failure::Refused(refusal)) => {
            push_answer(session, text, &Answer::Refused(refusal))?;
            Ok(SessionChange::Latest {
                record: None,
                stamped: None,
            })
        }
        Err(Failure::Memory) => Err(AllocError),
    }
}

/// Pushes the text of an answer to the last call, by what becomes of the session with it.
fn push_answer_behind(
    session: &OpenSession,
    text: &mut Vec<u8>,
    change: &SessionChange,
    answer: &Answer,
) -> Result<(), AllocError>
    ensures { OnOk result (text.new.items ≡ text.old.items
        ++ (turn_of_answer (with_change session.now change.now) answer.now).text) }
{
    match change {
        SessionChange::Latest { .. } => push_answer(session, text, answer),
        SessionChange::Forgetting(forgetting) => {
            let behind = forgetting.get();
            push_call(
                text,
                behind.db.catalog(),
                behind.numbering,
                session.calls(),
                None,
                answer,
            )
        }
    }
}

/// Pushes the text of an answer to the last call.
pub(crate) fn push_answer(
    session: &OpenSession,
    text: &mut Vec<u8>,
    answer: &Answer,
) -> Result<(), AllocError>
    ensures { OnOk result (text.new.items ≡ text.old.items ++ call_text
        session.now.database.catalog session.now.numbering session.now.calls answer.now) }
{
    push_call(
        text,
        session.db().catalog(),
        session.numbering(),
        session.calls(),
        None,
        answer,
    )
}
