//! A request to forget what lies before a time, up to where the session goes on behind it.
ghost use Rattle.std.specs.Prelude.{◌≡◌, ◌++◌, ◌+◌, ◌-◌, ◌<◌, ◌^◌, IfOk, OnOk, OnErr};
ghost use Rattle.tt_session.specs.declared.session.Session.TheVariants.{Open};
ghost use Rattle.tt_commands.specs.Session.{counted};
ghost use Rattle.tt_session.specs.ForgetTurns.{turn_of_forget, TurnsForget, Prepares};

use crate::answering::push_answer;
use crate::recoverable_session::RecoverableSession;
use crate::workspace::append;
use std::alloc::AllocError;
use tt_answers::{Answer, push_call};
use tt_commands::{BoxedForgetting, Failure, OpenSession, outcome_of_forget};
use tt_requests::ForgetRequest;

/// How a session goes on that forgets what lies before a time, and the text of its answer.
#[derive(Drop)]
pub struct ReadyToForget {
    /// How the session goes on.
    pub forgetting: BoxedForgetting,
    /// The text of the answer.
    pub text: Vec<u8>,
}

/// Answers a request to forget, as a call: adds the text of the answer, if it is refused or nothing
/// is left to forget; else it is returned how the session is to go on. Where memory runs out, the
/// session and what the text is added to are as before.
pub(crate) fn prepare_to_forget(
    session: &mut OpenSession,
    out: &mut Vec<u8>,
    request: ForgetRequest,
) -> Result<Option<ReadyToForget>, AllocError>
    requires { session.old.calls < 2 ^ 64 - 1 }
    ensures prepared { IfOk result
        (Prepares (counted session.old) request out.old.items out.new.items) }
    ensures session { OnOk result (session.new ≡ counted session.old) }
    ensures session_stays { OnErr result (session.new ≡ session.old) }
    ensures text_stays { OnErr result (out.new.items ≡ out.old.items) }
{
    session.count_call();
    match prepare_counted(session, out, request) {
        Ok(ready) => Ok(ready),
        Err(AllocError) => {
            session.take_back_call();
            Err(AllocError)
        }
    }
}

/// Answers a request to forget, whose call is counted already.
fn prepare_counted(
    session: &OpenSession,
    out: &mut Vec<u8>,
    request: ForgetRequest,
) -> Result<Option<ReadyToForget>, AllocError>
    ensures prepared { IfOk result
        (Prepares session.now request out.old.items out.new.items) }
    ensures text_stays { OnErr result (out.new.items ≡ out.old.items) }
{
    let (mut text, forgetting) = answer_to_forget(session, request)?;
    match forgetting {
        Some(forgetting) => Ok(Some(ReadyToForget { forgetting, text })),
        None => {
            append(out, &mut text)?;
            Ok(None)
        }
    }
}

/// The text of the answer to a request to forget, and how the session goes on if it does.
fn answer_to_forget(
    session: &OpenSession,
    request: ForgetRequest,
) -> Result<(Vec<u8>, Option<BoxedForgetting>), AllocError>
    ensures { IfOk result (λ r.
        TurnsForget session.now (turn_of_forget session.now request) r.0.items r.1) }
{
    let mut text = Vec::new(session.alloc());
    let (answer, forgetting) = match outcome_of_forget(session, request) {
        Ok(outcome) => outcome,
        Err(Failure::Refused(refusal)) => (Answer::Refused(refusal), None),
        Err(Failure::Memory) => return Err(AllocError),
    };
    match &forgetting {
        Some(forgetting) => {
            let behind = forgetting.get();
            let catalog = behind.db.catalog();
            push_call(
                &mut text,
                catalog,
                behind.numbering,
                session.calls(),
                None,
                &answer,
            )?;
        }
        None => push_answer(session, &mut text, &answer)?,
    }
    Ok((text, forgetting))
}

/// Answers a request to forget, as a call, where there is no log: adds the text of the answer, and
/// goes on behind the time. Where memory runs out, the session and what the text is added to are as
/// before.
pub(crate) fn forget_at_once(
    session: &mut RecoverableSession,
    out: &mut Vec<u8>,
    request: ForgetRequest,
) -> Result<(), AllocError>
    requires { session.old.calls < 2 ^ 64 - 1 }
    ensures text { OnOk result (out.new.items
        ≡ out.old.items ++ (turn_of_forget (counted session.old) request).text) }
    ensures session { OnOk result
        (Open session.new ≡ (turn_of_forget (counted session.old) request).session) }
    ensures calls { OnOk result (session.new.calls ≡ session.old.calls + 1) }
    ensures session_stays { OnErr result (session.new ≡ session.old) }
    ensures text_stays { OnErr result (out.new.items ≡ out.old.items) }
{
    let Some(ready) = session.prepare_to_forget(out, request)? else {
        return Ok(());
    };
    let ReadyToForget {
        forgetting,
        mut text,
    } = ready;
    match append(out, &mut text) {
        Ok(()) => {
            session.go_on_behind(forgetting);
            Ok(())
        }
        Err(AllocError) => {
            session.take_back_call();
            Err(AllocError)
        }
    }
}
