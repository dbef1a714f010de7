//! An open session that outlives a change for which there is no memory.
ghost use Rattle.std.specs.Prelude.{◌≡◌, ◌+◌, ◌<◌, ◌≤◌, ◌-◌, ◌^◌, ◌++◌, false, Some, OnOk, OnErr, IfOk, IfSome};
ghost use Rattle.tt_requests.specs.Opening.{max_records, opening_of};
ghost use Rattle.tt_requests.specs.LineValue.{value_of_line};
ghost use Rattle.tt_requests.specs.SessionLine.{session_line_of};
ghost use Rattle.tt_grammar.specs.Version.{newest_version};
ghost use Rattle.tt_commands.specs.Session.{counted, terms_of};
ghost use Rattle.tt_commands.specs.Changes.{forgotten_by};
ghost use Rattle.tt_commands.specs.Invariants.{IsOpenSession};
ghost use Rattle.tt_requests.specs.Asked.{asks_to_forget};
ghost use Rattle.tt_session.specs.declared.session.Session.TheVariants.{Open};
ghost use Rattle.tt_session.specs.ForgetTurns.{Prepares};
ghost use Rattle.tt_session.specs.Logged.{logged_by, with_lines};
ghost use Rattle.tt_session.specs.Recovery.{ComesFrom, recovered_session, IsRecoverable};
ghost use Rattle.tt_session.specs.Run.{turn_by_request, turn_by_reopening};

use crate::answering::answer_call;
use crate::checkpoint::Checkpoint;
use crate::first_line::read_line;
use crate::logging::SessionExtent;
use crate::ready_to_forget::{ReadyToForget, prepare_to_forget};
use crate::reopening::reopen;
use crate::workspace::Workspace;
use std::alloc::{AllocError, Global};
use std::marker::Model;
use tt_commands::{BoxedForgetting, OpenSession, Terms};
use tt_db::Db;
use tt_grammar::DocFault;
use tt_json::Scratch;
use tt_requests::{ForgetRequest, Request, SessionLine, asks_read_only};

/// An open session that outlives a change for which there is no memory. Requests change its
/// database in place. Where memory runs out in the midst of that, the database is lost, and made
/// again from a checkpoint before the next request. Contracts see the open session.
pub struct RecoverableSession {
    parts: Parts,
}

/// The parts of a session, which needn't fit each other while a request is carried out.
#[derive(Drop)]
struct Parts {
    session: OpenSession,
    /// Leads to an earlier database of the session, or to its database where that is lost.
    checkpoint: Option<Checkpoint>,
    /// Whether the database is lost.
    is_lost: bool,
}

// Written out, so that each place that lets a session go calls one function.
impl Drop for RecoverableSession {
    fn drop(self) {
        let RecoverableSession { parts: _ } = self;
    }
}

impl Model for RecoverableSession {
    ghost use Rattle.tt_commands.specs.Session.{OpenSession};
    ghost use Rattle.tt_session.specs.Recovery.{recovered_session, IsRecoverable};

    ghost Value = { OpenSession };

    ghost view = { λ r. recovered_session r.parts.session r.parts.checkpoint r.parts.is_lost };

    ghost invariant = { λ r.
        IsRecoverable r.parts.session r.parts.checkpoint r.parts.is_lost };
}

impl RecoverableSession {
    /// A session without a checkpoint yet. Takes no memory.
    pub fn new(session: OpenSession) -> RecoverableSession
        ensures { result ≡ session }
    {
        RecoverableSession {
            parts: Parts {
                session,
                checkpoint: None,
                is_lost: false,
            },
        }
    }

    /// How many calls there were.
    pub fn calls(&self) -> u64
        ensures { result ≡ self.now.calls }
    {
        self.parts.session.calls()
    }

    /// What the opening of the session has asked for, beside its database.
    pub fn terms(&self) -> Terms
        ensures terms { result ≡ terms_of self.now }
        ensures few { result.most_records ≤ max_records }
    {
        self.parts.session.terms()
    }

    /// Counts a call, and returns its number. Takes no memory.
    pub fn count_call(&mut self) -> u64
        requires { self.old.calls < 2 ^ 64 - 1 }
        ensures call { result ≡ self.old.calls + 1 }
        ensures session { self.new ≡ counted self.old }
    {
        self.parts.session.count_call()
    }

    /// What a line is to the session: an opening, or what it asks for, or its first fault.
    pub(crate) fn read(
        &mut self,
        line: &[u8],
        scratch: &mut Scratch,
    ) -> Result<SessionLine, AllocError>
        ensures line { IfOk result (λ told. told ≡ session_line_of newest_version
            self.old.database.catalog (value_of_line line.now)) }
        ensures stays { self.new ≡ self.old }
    {
        self.parts.recover()?;
        read_line(&self.parts.session, line, scratch)
    }

    /// Answers what a line asks, or its fault, as a call: adds the text of the answer, goes on as
    /// the call leaves the session, and keeps the line if it is to be logged. Where memory runs
    /// out, the session, the text and the lines to log are as before.
    pub(crate) fn answer(
        &mut self,
        out: &mut Vec<u8>,
        asked: Result<Request, DocFault>,
        line: &[u8],
        workspace: &mut Workspace,
    ) -> Result<(), AllocError>
        requires calls { self.old.calls < 2 ^ 64 - 1 }
        requires plain { asks_to_forget asked ≡ false }
        ensures text { OnOk result (out.new.items
            ≡ out.old.items ++ (turn_by_request (counted self.old) asked).text) }
        ensures session { OnOk result
            (Open self.new ≡ (turn_by_request (counted self.old) asked).session) }
        ensures calls { OnOk result (self.new.calls ≡ self.old.calls + 1) }
        ensures lines { OnOk result (workspace.new.lines ≡ with_lines workspace.old.lines
            (logged_by (Open self.old) (Open self.new) line.now)) }
        ensures text_stays { OnErr result (out.new.items ≡ out.old.items) }
        ensures session_stays { OnErr result (self.new ≡ self.old) }
        ensures lines_stay { OnErr result (workspace.new.lines ≡ workspace.old.lines) }
    {
        self.parts.recover()?;
        if asks_read_only(&asked) {
            return answer_call(&mut self.parts.session, out, &mut workspace.text, asked);
        }
        self.parts.take_checkpoint()?;
        self.parts.write(out, asked, line, workspace)
    }

    /// Answers a line that is an opening: adds the text of the answer, which is none of a call.
    /// Where memory runs out, the session and the text are as before.
    pub(crate) fn reopen(&mut self, out: &mut Vec<u8>, line: &[u8]) -> Result<(), AllocError>
        ensures text { OnOk result (out.new.items ≡ out.old.items
            ++ (turn_by_reopening self.old (opening_of (value_of_line line.now))).text) }
        ensures session { OnOk result (Open self.new
            ≡ (turn_by_reopening self.old (opening_of (value_of_line line.now))).session) }
        ensures calls { self.new.calls ≡ self.old.calls }
        ensures text_stays { OnErr result (out.new.items ≡ out.old.items) }
        ensures session_stays { OnErr result (self.new ≡ self.old) }
    {
        self.parts.recover()?;
        reopen(&mut self.parts.session, out, line)
    }

    /// Answers a request to forget, as a call: adds the text of the answer, if it is refused or
    /// nothing is left to forget; else it is returned how the session is to go on. Where memory
    /// runs out, the session and what the text is added to are as before.
    pub(crate) fn prepare_to_forget(
        &mut self,
        out: &mut Vec<u8>,
        request: ForgetRequest,
    ) -> Result<Option<ReadyToForget>, AllocError>
        requires { self.old.calls < 2 ^ 64 - 1 }
        ensures prepared { IfOk result
            (Prepares (counted self.old) request out.old.items out.new.items) }
        ensures session { OnOk result (self.new ≡ counted self.old) }
        ensures session_stays { OnErr result (self.new ≡ self.old) }
        ensures text_stays { OnErr result (out.new.items ≡ out.old.items) }
    {
        self.parts.recover()?;
        prepare_to_forget(&mut self.parts.session, out, request)
    }

    /// Goes on with a database that has forgotten what lies before a time. Takes no memory.
    pub(crate) fn go_on_behind(&mut self, forgetting: BoxedForgetting)
        ensures { self.new ≡ forgotten_by self.old forgetting }
    {
        self.parts.session.go_on_behind(forgetting);
        self.parts.checkpoint = None;
        self.parts.is_lost = false;
    }

    /// Takes back the last call that was counted. Takes no memory.
    pub(crate) fn take_back_call(&mut self)
        requires { 0 < self.old.calls }
        ensures { self.new ≡ record self.old { calls = self.old.calls - 1 } }
    {
        self.parts.session.take_back_call();
    }
}

impl Parts {
    /// Makes the database again, if it is lost. Where memory runs out, it stays lost.
    fn recover(&mut self) -> Result<(), AllocError>
        requires { IsRecoverable self.old.session self.old.checkpoint self.old.is_lost }
        ensures there { OnOk result (self.new.is_lost ≡ false) }
        ensures session { OnOk result (self.new.session
            ≡ recovered_session self.old.session self.old.checkpoint self.old.is_lost) }
        ensures recoverable { IsRecoverable self.new.session self.new.checkpoint self.new.is_lost }
        ensures stays { OnErr result (self.new ≡ self.old) }
    {
        if !self.is_lost {
            return Ok(());
        }
        if let Some(checkpoint) = &self.checkpoint {
            let db = checkpoint.database()?;
            self.session.set_database(db);
        }
        self.is_lost = false;
        Ok(())
    }

    /// Makes the checkpoint lead to the database, which isn't lost.
    fn take_checkpoint(&mut self) -> Result<(), AllocError>
        requires there { self.old.is_lost ≡ false }
        requires recoverable { IsRecoverable self.old.session self.old.checkpoint self.old.is_lost }
        ensures session { self.new.session ≡ self.old.session }
        ensures there { self.new.is_lost ≡ false }
        ensures checkpoint { OnOk result (self.new.checkpoint ≡ Some self.old.session.database) }
        ensures sound { IsOpenSession self.old.session }
        ensures recoverable { IsRecoverable self.new.session self.new.checkpoint self.new.is_lost }
    {
        let alloc = self.session.alloc();
        catch_up(&mut self.checkpoint, alloc, self.session.db())
    }

    /// Answers what a line asks that may change the database, to which the checkpoint leads. Where
    /// memory runs out, the database is lost, and the text and the lines to log are as before.
    fn write(
        &mut self,
        out: &mut Vec<u8>,
        asked: Result<Request, DocFault>,
        line: &[u8],
        workspace: &mut Workspace,
    ) -> Result<(), AllocError>
        requires calls { self.old.session.calls < 2 ^ 64 - 1 }
        requires plain { asks_to_forget asked ≡ false }
        requires there { self.old.is_lost ≡ false }
        requires checkpoint { self.old.checkpoint ≡ Some self.old.session.database }
        requires sound { IsOpenSession self.old.session }
        ensures text { OnOk result (out.new.items
            ≡ out.old.items ++ (turn_by_request (counted self.old.session) asked).text) }
        ensures session { OnOk result (Open self.new.session
            ≡ (turn_by_request (counted self.old.session) asked).session) }
        ensures calls { OnOk result (self.new.session.calls ≡ self.old.session.calls + 1) }
        ensures lines { OnOk result (workspace.new.lines ≡ with_lines workspace.old.lines
            (logged_by (Open self.old.session) (Open self.new.session) line.now)) }
        ensures there { OnOk result (self.new.is_lost ≡ false) }
        ensures text_stays { OnErr result (out.new.items ≡ out.old.items) }
        ensures session_stays { OnErr result (recovered_session self.new.session self.new.checkpoint
            self.new.is_lost ≡ self.old.session) }
        ensures lines_stay { OnErr result (workspace.new.lines ≡ workspace.old.lines) }
        ensures recoverable { IsRecoverable self.new.session self.new.checkpoint self.new.is_lost }
    {
        let mark = workspace.lines.byte_len();
        workspace.lines.push(line)?;
        let extent = SessionExtent::of(&self.session);
        let answered = answer_call(&mut self.session, out, &mut workspace.text, asked);
        self.is_lost = answered.is_err();
        if self.is_lost || extent.is_of(&self.session) {
            workspace.lines.truncate(mark);
        }
        answered
    }
}

/// Makes a checkpoint lead to a database, or makes one. Where memory runs out, it leads to an
/// earlier database.
fn catch_up(checkpoint: &mut Option<Checkpoint>, alloc: Global, db: &Db) -> Result<(), AllocError>
    requires { IfSome checkpoint.old (λ earlier. ComesFrom earlier db.now) }
    ensures ok { OnOk result (checkpoint.new ≡ Some db.now) }
    ensures part { IfSome checkpoint.new (λ earlier. ComesFrom earlier db.now) }
{
    match checkpoint {
        Some(checkpoint) => checkpoint.catch_up(alloc, db),
        None => {
            *checkpoint = Some(Checkpoint::of(alloc, db)?);
            Ok(())
        }
    }
}
