//! Lines that an open session answers, and keeps for the log if they change the database.
ghost use Rattle.std.specs.Prelude.{◌≡◌, ◌+◌, ◌<◌, ◌-◌, ◌^◌, ◌++◌, OnOk, OnErr};
ghost use Rattle.tt_session.specs.declared.session.Session.TheVariants.{Open};
ghost use Rattle.tt_commands.specs.Session.{counted};
ghost use Rattle.tt_session.specs.Run.{turn_by_request};
ghost use Rattle.tt_session.specs.Logged.{logged_by, with_lines};
ghost use Rattle.tt_session.specs.Extents.{extent_of, is_same_extent};

use crate::answering::answer_in_place;
use crate::workspace::Workspace;
use std::alloc::AllocError;
use tt_commands::OpenSession;
use tt_grammar::DocFault;
use tt_requests::Request;

/// How far a session is.
#[derive(Clone, Copy)]
pub struct SessionExtent {
    /// How many entries the history has.
    pub events: u64,
    /// The time that was last forgotten up to, as it is told.
    pub horizon: u64,
}

impl SessionExtent {
    /// How far a session is.
    pub fn of(session: &OpenSession) -> SessionExtent
        ensures { result ≡ extent_of session.now }
    {
        SessionExtent {
            events: session.db().events(),
            horizon: session.numbering().horizon().number,
        }
    }

    /// Whether a session is as far: its database is the same.
    pub fn is_of(&self, session: &OpenSession) -> bool
        ensures { result ≡ is_same_extent (extent_of session.now) self.now }
    {
        session.db().events() == self.events && session.numbering().horizon().number == self.horizon
    }
}
