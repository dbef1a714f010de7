//! A session between a reader and an outlet.
ghost use Rattle.std.specs.Prelude.{◌≡◌, ◌+◌, ◌-◌, ◌^◌, ◌<◌, ◌≤◌, ◌++◌, ◌∷◌, [], ℕ, List, true, false, length, take, IfOk, IfErr, IfSome, OnOk, OnErr, Some, None, if◌then◌else◌};
ghost use Rattle.std.specs.Io.{ReadsAtMost};
ghost use Rattle.std.specs.Io.KnownBytes.{Consumes, IsAtEnd, Keeps};
ghost use Rattle.tt_requests.specs.Lines.{is_too_long, is_passed_over};
ghost use Rattle.tt_session.specs.declared.session.Session.{Session};
ghost use Rattle.tt_lines.specs.Lines.{HasBytes};
ghost use Rattle.tt_session.specs.Run.{calls_of};
ghost use Rattle.tt_session.specs.ShortAnswers.{short_text};
ghost use Rattle.tt_session.specs.ForgetTurns.{AsksToForget};
ghost use Rattle.tt_lines.specs.Anew.{ForgetsOne, StopsForgetting};
ghost use Rattle.tt_session.specs.PendingLines.{no_lines};
ghost use Rattle.tt_lines.specs.Running.{Rests, Takes, StopsIn, AnswersInMemory, AnswersOne, StopsAt, HandsOver, StopsBetween, StandsOn, HandsOverShort, StopsInShort, Halts};
ghost use Rattle.tt_session.specs.Together.{IsLostAs, AnswersFront};
ghost use Rattle.tt_lines.specs.Ends.{AnswersAll, EndsEarly, HandsOverAll, Fails, Ends, StopsLast};

use crate::line::Line;
use crate::outlet::{Forgotten, Outlet, Renewal};
use std::alloc::{AllocError, Global};
use std::io::{Read, Write};
use tt_requests::ForgetRequest;
use tt_session::{
    Extent, LostLine, MANY_BYTES, ReadyToForget, Session, ShortAnswer, Workspace, first_feed,
    is_much,
};
use tt_streams::{MAX_RETRIES, read_once};

/// As many bytes are read at once.
pub const BUFFER_BYTES: usize = 65_536;

/// The largest number of bytes after which more are read, so that calls can be counted.
pub const MAX_TOTAL: u64 = u64::MAX - 65_537;

/// Why a session ended before its input.
#[derive(Clone, Copy, Debug, PartialEq, Eq)]
pub enum SessionFault {
    /// The reader failed, or was interrupted too often.
    Read,
    /// The writer failed, took no byte, or was interrupted too often.
    Write,
    /// There was no memory to begin with.
    Memory,
}

impl From<AllocError> for SessionFault {
    ghost use Rattle.tt_lines.specs.declared.run.SessionFault.TheVariants.{Memory};

    ghost from_gives = { λ _ e. e ≡ Memory };

    fn from(_error: AllocError) -> SessionFault {
        SessionFault::Memory
    }
}

/// Answers the lines of a reader, one after another, until its end. The answers to the lines that
/// have been read are handed to the writer before more is read.
pub fn run_session<R: Read, W: Write>(
    alloc: Global,
    reader: &mut R,
    writer: &mut W,
) -> Result<(), SessionFault>
    ensures ok { OnOk result (AnswersAll (R.remaining reader.old) (R.remaining reader.new)
        (W.contents writer.old) (W.contents writer.new)) }
    ensures fault { IfErr result (λ fault. EndsEarly fault
        (R.remaining reader.old) (R.remaining reader.new)
        (W.contents writer.old) (W.contents writer.new)) }
{
    run_session_to_end(alloc, reader, writer)?;
    Ok(())
}

/// What a session leaves in memory. A program that ends then may leave it to the system, since
/// releasing it piece by piece takes long.
#[derive(Drop)]
pub struct SessionEnd {
    _session: Session,
}

/// As [`run_session`], and hands over what the session leaves.
pub fn run_session_to_end<R: Read, W: Write>(
    alloc: Global,
    reader: &mut R,
    writer: &mut W,
) -> Result<SessionEnd, SessionFault>
    ensures ok { OnOk result (AnswersAll (R.remaining reader.old) (R.remaining reader.new)
        (W.contents writer.old) (W.contents writer.new)) }
    ensures fault { IfErr result (λ fault. EndsEarly fault
        (R.remaining reader.old) (R.remaining reader.new)
        (W.contents writer.old) (W.contents writer.new)) }
{
    let mut zeros = vec![in alloc; 0; BUFFER_BYTES]?;
    let buffer = zeros.as_mut_slice();
    match serve_session(alloc, Session::NotOpen, false, reader, writer, buffer) {
        Ok(end) => Ok(end),
        Err(fault) => Err(fault),
    }
}

/// Goes on with a session, whose answers go to an outlet with a log or without one: answers the
/// lines of a reader until its end. Hands over what the session leaves.
pub fn serve_session<R: Read, O: Outlet>(
    alloc: Global,
    session: Session,
    has_log: bool,
    reader: &mut R,
    outlet: &mut O,
    buffer: &mut [u8],
) -> Result<SessionEnd, SessionFault>
    requires some { 0 < length buffer.old }
    requires few { length buffer.old ≤ 65536 }
    requires calls { calls_of session < 2 ^ 64 - 65537 }
    requires log { O.has_log → has_log ≡ true }
    requires ready { O.is_ready outlet.old }
    ensures ok { OnOk result ((first : O) → O.handed first outlet.old session []
        → HandsOverAll (R.remaining reader.old) (R.remaining reader.new)
        (O.handed first outlet.new session)) }
    ensures ready { OnOk result (O.is_ready outlet.new) }
    ensures fault { IfErr result (λ e. (first : O) → O.handed first outlet.old session []
        → Fails e (R.remaining reader.old) (R.remaining reader.new)
        (O.handed first outlet.new session) (O.stopped first outlet.new session)) }
{
    let mut run = Run::new(alloc, session, has_log);
    match run.serve(reader, outlet, buffer) {
        Ok(()) => Ok(run.into_end()),
        Err(fault) => Err(fault),
    }
}

/// A session between its reader and its outlet.
#[derive(Drop)]
struct Run {
    alloc: Global,
    session: Session,
    line: Line,
    /// Answers that aren't handed over yet.
    out: Vec<u8>,
    /// How many interrupted reads the line still survives.
    retries: u32,
    workspace: Workspace,
}

impl Run {
    /// A session that goes on, where there is a log or there is none. Takes no memory.
    fn new(alloc: Global, session: Session, has_log: bool) -> Run
        ensures session { result.session ≡ session }
        ensures line { HasBytes result.line [] }
        ensures out { result.out.items ≡ [] }
        ensures lines { result.workspace.lines ≡ (if has_log then Some [] else None) }
    {
        Run {
            alloc,
            session,
            line: Line::new(alloc),
            out: Vec::new(alloc),
            retries: MAX_RETRIES,
            workspace: Workspace::new(alloc, has_log),
        }
    }

    /// What the session leaves in memory.
    fn into_end(self) -> SessionEnd {
        SessionEnd {
            _session: self.session,
        }
    }

    /// Answers the lines of a reader, until its end.
    fn serve<R: Read, O: Outlet>(
        &mut self,
        reader: &mut R,
        outlet: &mut O,
        buffer: &mut [u8],
    ) -> Result<(), SessionFault>
        requires some { 0 < length buffer.old }
        requires few { length buffer.old ≤ 65536 }
        requires calls { calls_of self.old.session < 2 ^ 64 - 65537 }
        requires ready { O.is_ready outlet.old }
        ensures ok { OnOk result ((first : O) (start : Session)
            → Rests O.handed O.has_log first outlet.old start [] self.old
            → HandsOverAll (R.remaining reader.old) (R.remaining reader.new)
            (O.handed first outlet.new start)) }
        ensures ready { OnOk result (O.is_ready outlet.new) }
        ensures fault { IfErr result (λ e. (first : O) (start : Session)
            → Rests O.handed O.has_log first outlet.old start [] self.old
            → Fails e (R.remaining reader.old) (R.remaining reader.new)
            (O.handed first outlet.new start) (O.stopped first outlet.new start)) }
    {
        let mut total = self.session.calls();
        while total < MAX_TOTAL {
            let Ok(count) = self.read(reader, buffer) else {
                return Err(SessionFault::Read);
            };
            if count == 0 {
                return self.end(outlet);
            }
            let Ok(()) = self.answer_lines(outlet, &buffer[..count]) else {
                return Err(SessionFault::Write);
            };
            total += count as u64;
        }
        Err(SessionFault::Read)
    }

    /// Takes further bytes, and answers the lines that end in them: their answers are handed over.
    fn answer_lines<O: Outlet>(&mut self, outlet: &mut O, bytes: &[u8]) -> Result<(), SessionFault>
        requires calls { calls_of self.old.session + length bytes.now < 2 ^ 64 - 1 }
        requires ready { O.is_ready outlet.old }
        ensures ready { OnOk result (O.is_ready outlet.new) }
        ensures ok { OnOk result ((first : O) (start : Session) (given : List ℕ)
            → Rests O.handed O.has_log first outlet.old start given self.old
            → Rests O.handed O.has_log first outlet.new start (given ++ bytes.now) self.new) }
        ensures err { OnErr result ((first : O) (start : Session) (given : List ℕ)
            → Rests O.handed O.has_log first outlet.old start given self.old
            → Halts O.stopped first outlet.new start (given ++ bytes.now)) }
        ensures fault { IfErr result (λ e. e ≡ SessionFault.Write) }
        ensures calls { OnOk result
            (calls_of self.new.session ≤ calls_of self.old.session + length bytes.now) }
    {
        self.take(outlet, bytes)?;
        self.hand_over(outlet)
    }

    /// Reads once more, and again where it's interrupted, as long as there are retries.
    fn read<R: Read>(&mut self, reader: &mut R, buffer: &mut [u8]) -> Result<usize, SessionFault>
        ensures bound { ReadsAtMost result buffer.new }
        ensures consumed { IfOk result (λ n.
            Consumes (R.remaining reader.old) (R.remaining reader.new) (take n buffer.new)) }
        ensures end { IfOk result (λ n.
            n ≡ 0 → 0 < length buffer.old → IsAtEnd (R.remaining reader.new)) }
        ensures unchanged { OnErr result
            (Keeps (R.remaining reader.old) (R.remaining reader.new)) }
        ensures fault { IfErr result (λ e. e ≡ SessionFault.Read) }
        ensures session { self.new.session ≡ self.old.session }
        ensures line { self.new.line ≡ self.old.line }
        ensures out { self.new.out.items ≡ self.old.out.items }
        ensures lines { self.new.workspace.lines ≡ self.old.workspace.lines }
    {
        match read_once(reader, buffer, &mut self.retries) {
            Ok(count) => Ok(count),
            Err(_) => Err(SessionFault::Read),
        }
    }

    /// Takes further bytes, and answers the lines that end in them.
    fn take<O: Outlet>(&mut self, outlet: &mut O, bytes: &[u8]) -> Result<(), SessionFault>
        requires calls { calls_of self.old.session + length bytes.now < 2 ^ 64 - 1 }
        requires ready { O.is_ready outlet.old }
        ensures ready { OnOk result (O.is_ready outlet.new) }
        ensures ok { OnOk result
            (Takes O.handed O.has_log outlet.old outlet.new bytes.now self.old self.new) }
        ensures err { OnErr result
            (StopsIn O.handed O.stopped O.has_log outlet.old outlet.new bytes.now self.old) }
        ensures fault { IfErr result (λ e. e ≡ SessionFault.Write) }
        ensures calls { OnOk result
            (calls_of self.new.session ≤ calls_of self.old.session + length bytes.now) }
    {
        let mut from = 0;
        let mut is_out_of_memory = false;
        while from < bytes.len() {
            let extent = self.take_some(outlet, &bytes[from..], is_out_of_memory)?;
            from += extent.taken;
            is_out_of_memory = extent.is_out_of_memory;
        }
        Ok(())
    }

    /// Takes the first of some bytes: lines that are answered together, unless memory ran out
    /// before, and then one line or the beginning of one.
    fn take_some<O: Outlet>(
        &mut self,
        outlet: &mut O,
        bytes: &[u8],
        is_out_of_memory: bool,
    ) -> Result<Extent, SessionFault>
        requires calls { calls_of self.old.session + length bytes.now < 2 ^ 64 - 1 }
        requires ready { O.is_ready outlet.old }
        ensures ready { OnOk result (O.is_ready outlet.new) }
        ensures within { IfOk result (λ extent. extent.taken ≤ length bytes.now) }
        ensures some { IfOk result (λ extent. 0 < length bytes.now → 0 < extent.taken) }
        ensures ok { IfOk result (λ extent. Takes O.handed O.has_log outlet.old outlet.new
            (take extent.taken bytes.now) self.old self.new) }
        ensures err { OnErr result
            (StopsIn O.handed O.stopped O.has_log outlet.old outlet.new bytes.now self.old) }
        ensures fault { IfErr result (λ e. e ≡ SessionFault.Write) }
        ensures calls { IfOk result (λ extent.
            calls_of self.new.session ≤ calls_of self.old.session + extent.taken) }
    {
        if is_out_of_memory {
            let taken = self.take_line(outlet, bytes)?;
            return Ok(Extent {
                taken,
                is_out_of_memory,
            });
        }
        let extent = self.take_together(outlet, bytes)?;
        if extent.taken == bytes.len() {
            return Ok(extent);
        }
        let more = self.take_line(outlet, &bytes[extent.taken..])?;
        Ok(Extent {
            taken: extent.taken + more,
            is_out_of_memory: extent.is_out_of_memory,
        })
    }

    /// Answers the lines that some bytes begin with together, where no line has begun before them.
    fn take_together<O: Outlet>(
        &mut self,
        outlet: &mut O,
        bytes: &[u8],
    ) -> Result<Extent, SessionFault>
        requires calls { calls_of self.old.session + length bytes.now < 2 ^ 64 - 1 }
        requires ready { O.is_ready outlet.old }
        ensures ready { OnOk result (O.is_ready outlet.new) }
        ensures within { IfOk result (λ extent. extent.taken ≤ length bytes.now) }
        ensures ok { IfOk result (λ extent. Takes O.handed O.has_log outlet.old outlet.new
            (take extent.taken bytes.now) self.old self.new) }
        ensures err { OnErr result
            (StopsIn O.handed O.stopped O.has_log outlet.old outlet.new bytes.now self.old) }
        ensures fault { IfErr result (λ e. e ≡ SessionFault.Write) }
        ensures calls { IfOk result (λ extent.
            calls_of self.new.session ≤ calls_of self.old.session + extent.taken) }
    {
        if !self.line.is_empty() {
            return Ok(Extent::of(0));
        }
        let extent = self.answer_together(bytes);
        self.hand_over_much(outlet)?;
        Ok(extent)
    }

    /// Answers the lines that some bytes begin with together.
    fn answer_together(&mut self, bytes: &[u8]) -> Extent
        requires { calls_of self.old.session + length bytes.now < 2 ^ 64 - 1 }
        ensures answered { AnswersFront bytes.now result.taken self.old.session self.new.session
            self.old.out.items self.new.out.items
            self.old.workspace.lines self.new.workspace.lines }
        ensures line { self.new.line ≡ self.old.line }
    {
        let extent = self
            .session
            .answer_lines(&mut self.out, bytes, &mut self.workspace);
        if extent.taken > 0 {
            self.retries = MAX_RETRIES;
        }
        if extent.is_out_of_memory {
            self.workspace.release(self.alloc);
        }
        extent
    }

    /// Takes the bytes up to the first line feed, and answers the line that ends in it. Where there
    /// is no line feed, the bytes are kept. Returns how many were taken.
    fn take_line<O: Outlet>(&mut self, outlet: &mut O, bytes: &[u8]) -> Result<usize, SessionFault>
        requires calls { calls_of self.old.session + length bytes.now < 2 ^ 64 - 1 }
        requires ready { O.is_ready outlet.old }
        ensures ready { OnOk result (O.is_ready outlet.new) }
        ensures within { IfOk result (λ n. n ≤ length bytes.now) }
        ensures some { IfOk result (λ n. 0 < length bytes.now → 0 < n) }
        ensures ok { IfOk result (λ n. Takes O.handed O.has_log outlet.old outlet.new
            (take n bytes.now) self.old self.new) }
        ensures err { OnErr result
            (StopsIn O.handed O.stopped O.has_log outlet.old outlet.new bytes.now self.old) }
        ensures fault { IfErr result (λ e. e ≡ SessionFault.Write) }
        ensures calls { IfOk result (λ n.
            calls_of self.new.session ≤ calls_of self.old.session + n) }
    {
        let Some(end) = first_feed(bytes) else {
            self.extend_line(bytes);
            return Ok(bytes.len());
        };
        self.extend_line(&bytes[..end]);
        self.answer_line(outlet)?;
        Ok(end + 1)
    }

    /// Adds further bytes of the line.
    fn extend_line(&mut self, more: &[u8])
        ensures line { (bytes : List ℕ) → HasBytes self.old.line bytes
            → HasBytes self.new.line (bytes ++ more.now) }
        ensures session { self.new.session ≡ self.old.session }
        ensures out { self.new.out.items ≡ self.old.out.items }
        ensures lines { self.new.workspace.lines ≡ self.old.workspace.lines }
    {
        self.line.extend(more);
    }

    /// Answers the line whose end has been read, and begins the next one.
    fn answer_line<O: Outlet>(&mut self, outlet: &mut O) -> Result<(), SessionFault>
        requires calls { calls_of self.old.session < 2 ^ 64 - 1 }
        requires ready { O.is_ready outlet.old }
        ensures ready { OnOk result (O.is_ready outlet.new) }
        ensures ok { OnOk result
            (Takes O.handed O.has_log outlet.old outlet.new (10 ∷ []) self.old self.new) }
        ensures err { OnErr result
            (StopsIn O.handed O.stopped O.has_log outlet.old outlet.new (10 ∷ []) self.old) }
        ensures fault { IfErr result (λ e. e ≡ SessionFault.Write) }
        ensures calls { calls_of self.new.session ≤ calls_of self.old.session + 1 }
    {
        self.answer_request(outlet)?;
        self.begin_line();
        self.hand_over_much(outlet)
    }

    /// Hands over the answers so far, where they and the lines to log are many bytes.
    fn hand_over_much<O: Outlet>(&mut self, outlet: &mut O) -> Result<(), SessionFault>
        requires { O.is_ready outlet.old }
        ensures ready { OnOk result (O.is_ready outlet.new) }
        ensures stands { OnOk result
            (StandsOn O.handed O.has_log outlet.old outlet.new self.old self.new) }
        ensures err { OnErr result
            (StopsBetween O.handed O.stopped O.has_log outlet.old outlet.new self.old) }
        ensures session { self.new.session ≡ self.old.session }
        ensures line { self.new.line ≡ self.old.line }
        ensures fault { IfErr result (λ e. e ≡ SessionFault.Write) }
    {
        if !is_much(self.out.len(), &self.workspace.lines) {
            return Ok(());
        }
        self.hand_over(outlet)
    }

    /// Begins the next line.
    fn begin_line(&mut self)
        ensures line { HasBytes self.new.line [] }
        ensures session { self.new.session ≡ self.old.session }
        ensures out { self.new.out.items ≡ self.old.out.items }
        ensures lines { self.new.workspace.lines ≡ self.old.workspace.lines }
    {
        self.line.clear();
        self.retries = MAX_RETRIES;
    }

    /// Answers the line whose end has been read, unless it is passed over.
    fn answer_request<O: Outlet>(&mut self, outlet: &mut O) -> Result<(), SessionFault>
        requires calls { calls_of self.old.session < 2 ^ 64 - 1 }
        requires ready { O.is_ready outlet.old }
        ensures ready { OnOk result (O.is_ready outlet.new) }
        ensures ok { OnOk result
            (AnswersOne O.handed O.has_log outlet.old outlet.new self.old self.new) }
        ensures err { OnErr result
            (StopsAt O.handed O.stopped O.has_log outlet.old outlet.new self.old) }
        ensures fault { IfErr result (λ e. e ≡ SessionFault.Write) }
        ensures calls { calls_of self.new.session ≤ calls_of self.old.session + 1 }
    {
        if self.line.is_passed_over() {
            return Ok(());
        }
        if self.line.is_too_long() {
            let answer = self.session.answer_too_long();
            return self.hand_over_short(outlet, &answer);
        }
        match self.answer_with_memory() {
            Ok(None) => Ok(()),
            Ok(Some(request)) => self.answer_to_forget(outlet, request),
            Err(lost) => self.answer_without_memory(outlet, lost),
        }
    }

    /// Answers the line as one for which there is no memory, once all answers that are kept are
    /// handed over.
    fn answer_without_memory<O: Outlet>(
        &mut self,
        outlet: &mut O,
        lost: LostLine,
    ) -> Result<(), SessionFault>
        requires calls { calls_of self.old.session < 2 ^ 64 - 1 }
        requires ready { O.is_ready outlet.old }
        requires some { (bytes : List ℕ) → HasBytes self.old.line bytes
            → (is_too_long bytes ≡ false) × (is_passed_over bytes ≡ false)
            × IsLostAs lost bytes }
        ensures ready { OnOk result (O.is_ready outlet.new) }
        ensures ok { OnOk result
            (AnswersOne O.handed O.has_log outlet.old outlet.new self.old self.new) }
        ensures err { OnErr result
            (StopsAt O.handed O.stopped O.has_log outlet.old outlet.new self.old) }
        ensures fault { IfErr result (λ e. e ≡ SessionFault.Write) }
        ensures calls { calls_of self.new.session ≤ calls_of self.old.session + 1 }
    {
        self.workspace.release(self.alloc);
        let answer = self.session.answer_without_memory(lost);
        self.hand_over_short(outlet, &answer)
    }

    /// Answers the line, which asks to forget what lies before a time. Where there is something to
    /// forget, all answers that are kept are handed over before the log is made anew.
    fn answer_to_forget<O: Outlet>(
        &mut self,
        outlet: &mut O,
        request: ForgetRequest,
    ) -> Result<(), SessionFault>
        requires calls { calls_of self.old.session < 2 ^ 64 - 1 }
        requires ready { O.is_ready outlet.old }
        requires asks { (bytes : List ℕ) → HasBytes self.old.line bytes
            → AsksToForget self.old.session bytes request }
        ensures ready { OnOk result (O.is_ready outlet.new) }
        ensures ok { OnOk result
            (AnswersOne O.handed O.has_log outlet.old outlet.new self.old self.new) }
        ensures err { OnErr result
            (StopsAt O.handed O.stopped O.has_log outlet.old outlet.new self.old) }
        ensures fault { IfErr result (λ e. e ≡ SessionFault.Write) }
        ensures calls { calls_of self.new.session ≤ calls_of self.old.session + 1 }
    {
        match self.session.prepare_to_forget(&mut self.out, request) {
            Ok(None) => Ok(()),
            Ok(Some(ready)) => {
                self.hand_over(outlet)?;
                self.make_log_anew(outlet, ready)
            }
            Err(AllocError) => self.answer_without_memory(outlet, LostLine::Request),
        }
    }

    /// Makes the log anew, and only then answers the line, whose call is counted, and goes on
    /// behind the time. All earlier answers are handed over.
    fn make_log_anew<O: Outlet>(
        &mut self,
        outlet: &mut O,
        ready: ReadyToForget,
    ) -> Result<(), SessionFault>
        requires { O.is_ready outlet.old }
        ensures ready { OnOk result (O.is_ready outlet.new) }
        ensures ok { OnOk result (ForgetsOne O.handed O.has_log outlet.old outlet.new
            self.old self.new ready) }
        ensures err { OnErr result
            (StopsForgetting O.handed O.stopped O.has_log outlet.old outlet.new self.old ready) }
        ensures fault { IfErr result (λ e. e ≡ SessionFault.Write) }
        ensures calls { calls_of self.new.session ≡ calls_of self.old.session }
    {
        let call = self.session.calls();
        let refusal = ShortAnswer::CallWithoutLog(call).text();
        let ReadyToForget { forgetting, text } = ready;
        let forgotten = Forgotten {
            forgetting: forgetting.get(),
            terms: self.session.terms(),
            text: text.as_slice(),
            refusal: refusal.as_str().as_bytes(),
        };
        match outlet.hand_over_anew(self.alloc, &forgotten) {
            Ok(Renewal::MadeAnew) => {
                self.session.go_on_behind(forgetting);
                Ok(())
            }
            Ok(Renewal::Refused) => Ok(()),
            Ok(Renewal::OutOfMemory) => {
                self.hand_over_short(outlet, &ShortAnswer::CallOutOfMemory(call))
            }
            Err(_) => Err(SessionFault::Write),
        }
    }

    /// Answers the line, where there is memory for it. A request to forget is returned, and nothing
    /// is done for it.
    fn answer_with_memory(&mut self) -> Result<Option<ForgetRequest>, LostLine>
        requires { calls_of self.old.session < 2 ^ 64 - 1 }
        ensures answered { IfOk result (AnswersInMemory self.old self.new) }
        ensures calls { calls_of self.new.session ≤ calls_of self.old.session + 1 }
        ensures returned { IfOk result (λ asked. IfSome asked (λ _.
            self.new.session ≡ self.old.session)) }
        ensures lost { IfErr result (λ lost. (bytes : List ℕ) → HasBytes self.old.line bytes
            → is_too_long bytes ≡ false → IsLostAs lost bytes) }
        ensures line { self.new.line ≡ self.old.line }
        ensures text_stays { OnErr result (self.new.out.items ≡ self.old.out.items) }
        ensures session_stays { OnErr result (self.new.session ≡ self.old.session) }
        ensures lines_stay { OnErr result
            (self.new.workspace.lines ≡ self.old.workspace.lines) }
    {
        match self.line.bytes() {
            Some(line) => {
                self.session
                    .answer_line(self.alloc, &mut self.out, line, &mut self.workspace)
            }
            None => Err(LostLine::Request),
        }
    }

    /// Hands over the answers so far, and then a short one.
    fn hand_over_short<O: Outlet>(
        &mut self,
        outlet: &mut O,
        answer: &ShortAnswer,
    ) -> Result<(), SessionFault>
        requires { O.is_ready outlet.old }
        ensures ready { OnOk result (O.is_ready outlet.new) }
        ensures ok { OnOk result (HandsOverShort O.handed O.has_log outlet.old outlet.new self.old
            (short_text answer.now)) }
        ensures err { OnErr result (StopsInShort O.handed O.stopped O.has_log
            outlet.old outlet.new self.old (short_text answer.now)) }
        ensures out { OnOk result (self.new.out.items ≡ []) }
        ensures lines { OnOk result
            (self.new.workspace.lines ≡ no_lines self.old.workspace.lines) }
        ensures session { self.new.session ≡ self.old.session }
        ensures fault { IfErr result (λ e. e ≡ SessionFault.Write) }
    {
        self.hand_over(outlet)?;
        let text = answer.text();
        match outlet.hand_over(self.workspace.lines.lines(), text.as_str().as_bytes()) {
            Ok(()) => Ok(()),
            Err(_) => Err(SessionFault::Write),
        }
    }

    /// Forgets the answers that are handed over, and gives the memory of very long ones back.
    fn clear_out(&mut self)
        ensures out { self.new.out.items ≡ [] }
        ensures lines { self.new.workspace.lines ≡ no_lines self.old.workspace.lines }
        ensures session { self.new.session ≡ self.old.session }
        ensures line { self.new.line ≡ self.old.line }
    {
        self.workspace.lines.clear();
        if self.out.capacity() > 2 * MANY_BYTES {
            self.out = Vec::new(self.alloc);
        } else {
            self.out.clear();
        }
    }

    /// Answers the bytes after the last line feed, if there are any, and hands over all answers.
    fn end<O: Outlet>(&mut self, outlet: &mut O) -> Result<(), SessionFault>
        requires calls { calls_of self.old.session < 2 ^ 64 - 1 }
        requires ready { O.is_ready outlet.old }
        ensures ok { OnOk result (Ends O.handed O.has_log outlet.old outlet.new self.old) }
        ensures ready { OnOk result (O.is_ready outlet.new) }
        ensures err { OnErr result
            (StopsLast O.handed O.stopped O.has_log outlet.old outlet.new self.old) }
        ensures fault { IfErr result (λ e. e ≡ SessionFault.Write) }
    {
        if self.line.is_empty() {
            return self.hand_over(outlet);
        }
        self.answer_request(outlet)?;
        self.hand_over(outlet)
    }

    /// Hands over the answers that aren't handed over yet, and logs the lines that are to be
    /// logged.
    fn hand_over<O: Outlet>(&mut self, outlet: &mut O) -> Result<(), SessionFault>
        requires { O.is_ready outlet.old }
        ensures ready { OnOk result (O.is_ready outlet.new) }
        ensures ok { OnOk result
            (HandsOver O.handed O.has_log outlet.old outlet.new self.old) }
        ensures err { OnErr result
            (StopsBetween O.handed O.stopped O.has_log outlet.old outlet.new self.old) }
        ensures out { OnOk result (self.new.out.items ≡ []) }
        ensures lines { OnOk result
            (self.new.workspace.lines ≡ no_lines self.old.workspace.lines) }
        ensures session { self.new.session ≡ self.old.session }
        ensures line { self.new.line ≡ self.old.line }
        ensures fault { IfErr result (λ e. e ≡ SessionFault.Write) }
    {
        match outlet.hand_over(self.workspace.lines.lines(), self.out.as_slice()) {
            Ok(()) => {
                self.clear_out();
                Ok(())
            }
            Err(_) => Err(SessionFault::Write),
        }
    }
}
