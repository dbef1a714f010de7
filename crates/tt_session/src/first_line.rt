//! The first line of some bytes, and what it is.
ghost use Rattle.std.specs.Prelude.{◌≡◌, true, IfOk, MatchOption};
ghost use Rattle.tt_requests.specs.LineValue.{value_of_line};
ghost use Rattle.tt_grammar.specs.Version.{newest_version};
ghost use Rattle.tt_requests.specs.SessionLine.{session_line_of};
ghost use Rattle.tt_session.specs.Feeds.{has_no_feed, HasFirstFeed};
ghost use Rattle.tt_session.specs.Together.{IsFirstLine};

use crate::recoverable_session::RecoverableSession;
use memchr::memchr;
use std::alloc::AllocError;
use tt_commands::OpenSession;
use tt_grammar::DocFault;
use tt_grammar::decoding::Version;
use tt_json::Scratch;
use tt_requests::{Request, SessionLine, is_passed_over};

/// A line that is a request: what it asks for, or its first fault.
#[derive(Drop)]
pub(crate) struct RequestLine {
    pub(crate) asked: Result<Request, DocFault>,
    /// How many bytes the line has, with its line feed.
    pub(crate) len: usize,
}

/// The first line of some bytes.
#[derive(Drop)]
pub(crate) enum FirstLine {
    /// Its line feed isn't there yet.
    NotWhole,
    /// It gets no answer. With its line feed it has this many bytes.
    PassedOver(usize),
    /// It is an opening.
    Opening,
    /// It is a request.
    Read(RequestLine),
}

impl FirstLine {
    /// Reads the first line of some bytes, for a session.
    pub(crate) fn of(
        session: &mut RecoverableSession,
        bytes: &[u8],
        scratch: &mut Scratch,
    ) -> Result<FirstLine, AllocError>
        ensures line { IfOk result (IsFirstLine session.old.database.catalog bytes.now) }
        ensures stays { session.new ≡ session.old }
    {
        let Some(end) = first_feed(bytes) else {
            return Ok(FirstLine::NotWhole);
        };
        let line = &bytes[..end];
        if is_passed_over(line) {
            return Ok(FirstLine::PassedOver(end + 1));
        }
        match session.read(line, scratch)? {
            SessionLine::Opening => Ok(FirstLine::Opening),
            SessionLine::Request(asked) => Ok(FirstLine::Read(RequestLine {
                asked,
                len: end + 1,
            })),
        }
    }
}

/// What a line is to a session: an opening, or what it asks for, or its first fault.
pub fn read_line(
    session: &OpenSession,
    line: &[u8],
    scratch: &mut Scratch,
) -> Result<SessionLine, AllocError>
    ensures { IfOk result (λ told. told
        ≡ session_line_of newest_version session.now.database.catalog (value_of_line line.now)) }
{
    let version = Version::newest();
    let catalog = session.db().catalog();
    SessionLine::from_line_with(session.alloc(), version, catalog, line, scratch)
}

/// Where the first line feed is.
pub fn first_feed(bytes: &[u8]) -> Option<usize>
    ensures { MatchOption result (has_no_feed bytes.now ≡ true) (HasFirstFeed bytes.now) }
{
    memchr(b'\n', bytes)
}
