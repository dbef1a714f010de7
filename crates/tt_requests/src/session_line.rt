//! What a line of an open session is.
ghost use Rattle.std.specs.Prelude.{◌≡◌, ◌≢◌, Ok, Err, IfOk, OnOk};
ghost use Rattle.tt_json.specs.Tape.{IsValue, value_at};
ghost use Rattle.tt_grammar.specs.Fault.{Gives};
ghost use Rattle.tt_requests.specs.Requests.{request_of};
ghost use Rattle.tt_requests.specs.SessionLine.{session_line_of};

use crate::line_value::parse_line;
use crate::request::{Request, request_from_tape};
use json::Tape;
use std::alloc::{AllocError, Global};
use tt_grammar::DocFault;
use tt_grammar::decoding::{Version, has};
use tt_json::{Scratch, root};
use tt_values::Catalog;

/// What a line of an open session is.
#[derive(Debug, Drop)]
pub enum SessionLine {
    /// An opening: an object that has a version. [`Opening::from_line`](crate::Opening::from_line)
    /// judges it.
    Opening,
    /// A request, or the first fault of the line.
    Request(Result<Request, DocFault>),
}

impl SessionLine {
    ghost use Rattle.tt_requests.specs.LineValue.{value_of_line};

    /// What a line is, by a version of the grammar and with these tables: an opening, or else the
    /// request that it spells, or its first fault: that the line is too long; or else that it isn't
    /// JSON; or else that an object names a member twice; or else the one of its JSON value. What
    /// `scratch` held doesn't matter. It grows to the longest line. Where memory runs out, the line
    /// is no opening, or it isn't known whether it is one.
    pub fn from_line_with(
        alloc: Global,
        version: Version,
        catalog: &Catalog,
        line: &[u8],
        scratch: &mut Scratch,
    ) -> Result<SessionLine, AllocError>
        ensures { IfOk result (λ told.
            told ≡ session_line_of version catalog.now (value_of_line line.now)) }
    {
        match parse_line(alloc, line, scratch) {
            Ok(tape) => from_tape(alloc, version, catalog, &tape),
            Err(fault) => faulty(fault.in_document(alloc)),
        }
    }
}

/// No request has a version, so it is looked for where there is a fault alone.
#[tactic(auto, using(crate::proofs::SessionLineLemmas::requests_have_no_version))]
fn from_tape(
    alloc: Global,
    version: Version,
    catalog: &Catalog,
    tape: &Tape<'_>,
) -> Result<SessionLine, AllocError>
    requires { IsValue tape.now }
    ensures { IfOk result (λ told.
        told ≡ session_line_of version catalog.now (Ok (value_at tape.now))) }
{
    match request_from_tape(alloc, version, catalog, tape) {
        Ok(request) => Ok(SessionLine::Request(Ok(request))),
        Err(fault) => {
            if has(&root(tape), "version") {
                return Ok(SessionLine::Opening);
            }
            faulty(fault)
        }
    }
}

/// A line that has this fault.
fn faulty(fault: DocFault) -> Result<SessionLine, AllocError>
    ensures told { IfOk result (λ told. told ≡ SessionLine.Request (Err fault)) }
    ensures known { OnOk result (fault ≢ DocFault.Memory) }
{
    match fault {
        DocFault::Memory => Err(AllocError),
        fault => Ok(SessionLine::Request(Err(fault))),
    }
}
