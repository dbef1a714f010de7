//! A session that is read back from its log.
ghost use Rattle.std.specs.Prelude.{◌≡◌, ◌⊎◌, ◌+◌, ◌-◌, ◌<◌, ◌≤◌, ◌^◌, ◌++◌, ◌∷◌, [], ℕ, List, Some, None, true, false, length, if◌then◌else◌, IfOk, IfErr, OnOk, IsErrOf};
ghost use Rattle.tt_log.specs.Lines.{text, logged};
ghost use Rattle.tt_log.specs.Reading.{unread, IsReading};
ghost use Rattle.tt_requests.specs.Lines.{is_passed_over};
ghost use Rattle.tt_session.specs.Changing.{changes_database};
ghost use Rattle.tt_session.specs.Run.{begun, calls_of};
ghost use Rattle.tt_durable.specs.Restoring.{laid_by, repeated, restored, Restores, IsNoLine};
ghost use Rattle.tt_durable.specs.RestoringRun.{IsRestoring, FailsIn, IsNextOrNot, OpensBy};
ghost use Rattle.tt_session.specs.declared.session.Session.TheVariants.{Open};

use std::alloc::{AllocError, Global};
use tt_commands::OpenSession;
use tt_grammar::DocFault;
use tt_json::Scratch;
use tt_lines::{Line, MAX_TOTAL};
use tt_log::{Device, UnreadLog};
use tt_requests::{LogOpening, SessionLine, ground_action_from_line, is_passed_over};
use tt_session::{
    RecoverableSession, Session, SessionExtent, answer_in_place, first_feed, open_or_stay,
    read_line,
};

/// Why a log isn't read back.
#[derive(Clone, Copy, Debug, PartialEq, Eq)]
pub(crate) enum RestoreFault {
    /// The file can't be read.
    Read,
    /// The line of this number, counted from 1, is none that a session logs.
    Line(u64),
    /// There is no memory for it.
    Memory,
}

impl From<AllocError> for RestoreFault {
    ghost use Rattle.tt_durable.specs.declared.restoring.RestoreFault.TheVariants.{Memory};

    ghost from_gives = { λ _ e. e ≡ Memory };

    fn from(_error: AllocError) -> RestoreFault {
        RestoreFault::Memory
    }
}

/// Reads the session back whose log this is.
pub(crate) fn restore<D: Device>(
    alloc: Global,
    log: &mut UnreadLog<D>,
    buffer: &mut [u8],
) -> Result<Session, RestoreFault>
    requires some { 0 < length buffer.old }
    requires few { length buffer.old ≤ 65536 }
    requires reading { D.tells log.old.device → IsReading D.seen log.old }
    requires unread { D.tells log.old.device
        → unread D.seen log.old ≡ text (D.seen log.old.device) }
    ensures reading { D.tells log.old.device → IsReading D.seen log.new }
    ensures device { log.new.device ≡ log.old.device }
    ensures whole { D.tells log.old.device → OnOk result (unread D.seen log.new ≡ []) }
    ensures restores { IfOk result (λ session. D.tells log.old.device
        → Restores (logged (D.seen log.old.device)) session) }
    ensures calls { IfOk result (λ session. calls_of session < 2 ^ 64 - 65537) }
    ensures line { IfErr result (λ e. (n : ℕ) → e ≡ RestoreFault.Line n
        → D.tells log.old.device → IsNoLine (logged (D.seen log.old.device)) n) }
    ensures read { IsErrOf result RestoreFault.Read → D.tells log.old.device
        → D.cannot_read log.old.device ⊎ (2 ^ 60 ≤ length (D.seen log.old.device)) }
{
    let mut restoring = Restoring::new(alloc);
    let mut total = 0;
    while total < MAX_TOTAL {
        let Ok(count) = log.read(buffer) else {
            return Err(RestoreFault::Read);
        };
        if count == 0 {
            return restoring.finish();
        }
        if let Err(fault) = restoring.take(&buffer[..count]) {
            return Err(fault);
        }
        total += count as u64;
    }
    Err(RestoreFault::Read)
}

/// A session that is being read back.
#[derive(Drop)]
pub(crate) struct Restoring {
    alloc: Global,
    session: Option<OpenSession>,
    /// How many slots of the ground are still to come.
    ground_left: u64,
    line: Line,
    /// How many lines there were.
    count: u64,
    scratch: Scratch,
    /// The answer to the last line, which nobody gets.
    text: Vec<u8>,
}

impl Restoring {
    /// Nothing is read yet.
    fn new(alloc: Global) -> Restoring
        ensures restoring { IsRestoring [] result }
        ensures calls { calls_of (begun result.session) ≡ 0 }
        ensures count { result.count ≡ 0 }
    {
        Restoring {
            alloc,
            session: None,
            ground_left: 0,
            line: Line::new(alloc),
            count: 0,
            scratch: Scratch::new(alloc),
            text: Vec::new(alloc),
        }
    }

    /// The session that was read back, once all lines are read.
    fn finish(self) -> Result<Session, RestoreFault>
        requires { self.count < 2 ^ 64 - 1 }
        ensures session { IfOk result (λ session. session ≡ restored (begun self.session)) }
        ensures whole { OnOk result (self.ground_left ≡ 0) }
        ensures line { IfErr result (λ e.
            (e ≡ RestoreFault.Line (self.count + 1)) × (0 < self.ground_left)) }
        ensures no_read { IsErrOf result RestoreFault.Read → ⊥ }
    {
        let Restoring {
            alloc: _,
            session,
            ground_left,
            line: _,
            count,
            scratch: _,
            text: _,
        } = self;
        if ground_left > 0 {
            return Err(RestoreFault::Line(count + 1));
        }
        match session {
            Some(mut session) => {
                session.await_opening();
                Ok(Session::Open(RecoverableSession::new(session)))
            }
            None => Ok(Session::NotOpen),
        }
    }

    /// Takes further bytes, and repeats the lines that end in them.
    fn take(&mut self, bytes: &[u8]) -> Result<(), RestoreFault>
        requires calls { calls_of (begun self.old.session) + length bytes.now < 2 ^ 64 - 1 }
        requires count { self.old.count + length bytes.now < 2 ^ 64 - 1 }
        ensures ok { OnOk result ((given : List ℕ) → IsRestoring given self.old
            → IsRestoring (given ++ bytes.now) self.new) }
        ensures err { IfErr result (λ e. (given : List ℕ) → IsRestoring given self.old
            → FailsIn (given ++ bytes.now) e) }
        ensures no_read { IsErrOf result RestoreFault.Read → ⊥ }
        ensures calls { OnOk result (calls_of (begun self.new.session)
            ≤ calls_of (begun self.old.session) + length bytes.now) }
        ensures count { OnOk result (self.new.count ≤ self.old.count + length bytes.now) }
    {
        let mut from = 0;
        while from < bytes.len() {
            let rest = &bytes[from..];
            let Some(end) = first_feed(rest) else {
                self.line.extend(rest);
                return Ok(());
            };
            self.line.extend(&rest[..end]);
            if let Err(fault) = self.end_line() {
                return Err(fault);
            }
            from += end + 1;
        }
        Ok(())
    }

    /// Repeats the line whose end has been read, and begins the next one.
    fn end_line(&mut self) -> Result<(), RestoreFault>
        requires calls { calls_of (begun self.old.session) < 2 ^ 64 - 1 }
        requires count { self.old.count < 2 ^ 64 - 1 }
        ensures ok { OnOk result ((given : List ℕ) → IsRestoring given self.old
            → IsRestoring (given ++ 10 ∷ []) self.new) }
        ensures err { IfErr result (λ e. (given : List ℕ) → IsRestoring given self.old
            → FailsIn (given ++ 10 ∷ []) e) }
        ensures no_read { IsErrOf result RestoreFault.Read → ⊥ }
        ensures calls { OnOk result
            (calls_of (begun self.new.session) ≤ calls_of (begun self.old.session) + 1) }
        ensures count { OnOk result (self.new.count ≡ self.old.count + 1) }
    {
        self.count += 1;
        if self.line.is_too_long() {
            return Err(RestoreFault::Line(self.count));
        }
        let Some(line) = self.line.bytes() else {
            return Err(RestoreFault::Memory);
        };
        self.text.clear();
        let (session, left) = (&mut self.session, &mut self.ground_left);
        let (text, scratch) = (&mut self.text, &mut self.scratch);
        if !read_next(self.alloc, session, left, line, text, scratch)? {
            return Err(RestoreFault::Line(self.count));
        }
        self.line.clear();
        Ok(())
    }
}

/// Reads the next line of a log in place. Returns whether it can be the next one. Where memory runs
/// out, nothing is promised of the session.
fn read_next(
    alloc: Global,
    session: &mut Option<OpenSession>,
    ground_left: &mut u64,
    line: &[u8],
    text: &mut Vec<u8>,
    scratch: &mut Scratch,
) -> Result<bool, AllocError>
    requires { calls_of (begun session.old) < 2 ^ 64 - 1 }
    ensures next { IfOk result (λ is_next. IsNextOrNot is_next (begun session.old)
        ground_left.old line.now (begun session.new) ground_left.new) }
    ensures calls { OnOk result
        (calls_of (begun session.new) ≤ calls_of (begun session.old) + 1) }
{
    match session {
        Some(open) => {
            if *ground_left > 0 {
                let is_laid = lay_line(alloc, open, line, scratch)?;
                *ground_left -= 1;
                return Ok(is_laid);
            }
            if is_passed_over(line) {
                return Ok(false);
            }
            repeat(open, line, text, scratch)
        }
        None => {
            let opened = open_log(alloc, line, text)?;
            let is_open = opened.is_some();
            if let Some(
                OpenLog {
                    session: open,
                    ground_slots,
                },
            ) = opened
            {
                *session = Some(open);
                *ground_left = ground_slots;
            }
            Ok(is_open)
        }
    }
}

/// Lays the ground that a line of a log tells. Returns whether it is one of a ground. Where memory
/// runs out, or it isn't, nothing is promised of the session.
fn lay_line(
    alloc: Global,
    session: &mut OpenSession,
    line: &[u8],
    scratch: &mut Scratch,
) -> Result<bool, AllocError>
    ensures laid { IfOk result (λ is_laid. laid_by session.old line.now
        ≡ (if is_laid then Some session.new else None)) }
    ensures calls { OnOk result (session.new.calls ≡ session.old.calls) }
{
    match ground_action_from_line(alloc, session.db().catalog(), line, scratch) {
        Ok(action) => session.lay(action),
        Err(DocFault::Memory) => Err(AllocError),
        Err(_) => Ok(false),
    }
}

/// Answers a line, which isn't passed over, in place, if it is a request. Returns whether it
/// changes the database. Where it doesn't, or memory runs out, nothing is promised of the session.
fn repeat(
    session: &mut OpenSession,
    line: &[u8],
    text: &mut Vec<u8>,
    scratch: &mut Scratch,
) -> Result<bool, AllocError>
    requires calls { session.old.calls < 2 ^ 64 - 1 }
    requires told { is_passed_over line.now ≡ false }
    ensures session { IfOk result (λ made. made ≡ true
        → Open session.new ≡ repeated (Open session.old) line.now) }
    ensures made { IfOk result (λ made. made
        ≡ changes_database (Open session.old) (repeated (Open session.old) line.now)) }
    ensures calls { OnOk result (session.new.calls ≤ session.old.calls + 1) }
{
    let asked = match read_line(session, line, scratch)? {
        SessionLine::Request(asked) => asked,
        SessionLine::Opening => return Ok(false),
    };
    let extent = SessionExtent::of(session);
    answer_in_place(session, text, asked)?;
    Ok(!extent.is_of(session))
}

/// A session that the first line of a log opens.
#[derive(Drop)]
struct OpenLog {
    session: OpenSession,
    /// How many slots of the ground are to follow.
    ground_slots: u64,
}

/// Opens a session by the first line of a log, with a ground or without one; None if it is no
/// opening.
fn open_log(alloc: Global, line: &[u8], text: &mut Vec<u8>) -> Result<Option<OpenLog>, AllocError>
    ensures { IfOk result (λ opened. OpensBy line.now opened) }
{
    if !is_passed_over(line) {
        if let Some(session) = open_or_stay(alloc, text, line)? {
            return Ok(Some(OpenLog {
                session,
                ground_slots: 0,
            }));
        }
    }
    match LogOpening::from_line(alloc, line) {
        Ok(opening) => {
            let ground_slots = opening.numbering.ground_slots();
            let session = OpenSession::on_ground(alloc, opening);
            Ok(Some(OpenLog {
                session,
                ground_slots,
            }))
        }
        Err(DocFault::Memory) => Err(AllocError),
        Err(_) => Ok(None),
    }
}
