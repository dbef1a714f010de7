use crate::session_change::SessionChange;
use tt_answers::Answer;

/// What a request that is carried out gets: its answer, and what becomes of the session then.
#[derive(Drop)]
pub struct Response {
    /// The answer.
    pub answer: Answer,
    /// What becomes of the session, apart from its database.
    pub change: SessionChange,
}

impl Response {
    ghost use Rattle.std.specs.Prelude.{◌≡◌, None};

    /// An answer of which no record is kept.
    pub(crate) fn unrecorded(answer: Answer) -> Response
        ensures { result ≡ record { answer = answer; change = SessionChange.Latest None None } }
    {
        Response {
            answer,
            change: SessionChange::Latest {
                record: None,
                stamped: None,
            },
        }
    }
}
