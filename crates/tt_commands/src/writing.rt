//! Actions.
ghost use Rattle.std.specs.Prelude.{◌≡◌, ◌≢◌, Some, IfOk, IfErr};
ghost use Rattle.tt_commands.specs.Answers.{Becomes};
ghost use Rattle.tt_commands.specs.Session.{with_database};
ghost use Rattle.tt_commands.specs.Commands.{stamped, write};

use crate::failure::Failure;
use crate::open_session::OpenSession;
use crate::response::Response;
use crate::session_change::{SessionChange, StampedSlot};
use std::alloc::AllocError;
use tt_answers::Answer;
use tt_db::WriteOutcome;
use tt_records::{Record, What};
use tt_values::{Action, Items, Reply};

/// A slot and its stamp, if it has one.
fn stamped(slot: u64, stamp: Option<u64>) -> Option<StampedSlot>
    ensures { result ≡ stamped slot stamp }
{
    let stamp = stamp?;
    Some(StampedSlot { slot, stamp })
}

/// The answer to an action of a worker that took a slot, its record, and the stamp of the slot.
fn written(
    call: u64,
    worker: u32,
    slot: u64,
    replies: Items<Reply>,
    stamp: Option<u64>,
) -> Result<Response, AllocError>
    ensures { IfOk result (λ response. response ≡ record {
      answer = Answer.Written slot replies;
      change = SessionChange.Latest
          (Some (record { call = call; worker = worker; what = What.Write slot replies }))
          (stamped slot stamp);
    }) }
{
    let latest = Record {
        call,
        worker,
        what: What::Write {
            slot,
            replies: replies.clone()?,
        },
    };
    Ok(Response {
        answer: Answer::Written { slot, replies },
        change: SessionChange::Latest {
            record: Some(latest),
            stamped: stamped(slot, stamp),
        },
    })
}

/// An action takes the next slot: its replies are told, and recorded, and its stamp is kept.
pub(crate) fn write(
    session: &mut OpenSession,
    worker: u32,
    action: Action,
    stamp: Option<u64>,
) -> Result<Response, Failure>
    ensures becomes { Becomes session.new result (write session.old worker action stamp) }
    ensures stays { IfErr result (λ f. f ≢ Failure.Memory → session.new ≡ session.old) }
    ensures rest { session.new ≡ with_database session.old session.new.database }
{
    let WriteOutcome { slot, replies } = session.write(worker, action)?;
    let response = written(session.calls(), worker, slot, replies, stamp)?;
    Ok(response)
}
