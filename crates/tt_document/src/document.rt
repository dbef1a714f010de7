use crate::reading::from_members;
use serde_json::Value;
use std::alloc::Global;
use tt_grammar::{DocFault, OwnedItems, parse_text};
use tt_json::{JsonValue, Scratch, root};
use tt_repair_laws::Edit;
use tt_values::{Action, Catalog, Items, Select, Shared};

/// A workload: the tables, and the calls that the workers make.
#[derive(Debug, Drop)]
pub struct Document {
    pub catalog: Shared<Catalog>,
    /// The number of workers, from 1 to [`MAX_WORKERS`](crate::MAX_WORKERS).
    pub workers: u32,
    /// At most [`MAX_CALLS`](crate::MAX_CALLS).
    pub calls: OwnedItems<Call>,
    /// The repair of these calls, if there is one.
    pub repair: Option<Plan>,
}

/// A repair of the calls of a document.
#[derive(Debug, Drop)]
pub struct Plan {
    /// The edits, which name calls by their numbers, from 1: at most
    /// [`MAX_EDITS`](crate::MAX_EDITS), each of a different call, which asks for an action.
    pub edits: Items<Edit>,
    /// The calls that are made while the repair is under way: at most
    /// [`MAX_CALLS`](crate::MAX_CALLS).
    pub meanwhile: OwnedItems<Call>,
}

impl Document {
    ghost use Rattle.std.specs.Prelude.{◌≡◌, Ok, IfOk, IfErr};
    ghost use Rattle.serde_json.specs.View.{view};
    ghost use Rattle.tt_grammar.specs.Fault.{FailsWith};
    ghost use Rattle.tt_document.specs.Document.{document_of, document_of_text, IsValidDocument};

    /// The document that a JSON value spells, or its first fault. Memory can run out before the
    /// fault is met.
    pub fn from_value(alloc: Global, value: &Value) -> Result<Document, DocFault>
        ensures ok { IfOk result (λ document. document_of (view value.now) ≡ Ok document) }
        ensures valid { IfOk result IsValidDocument }
        ensures fault { IfErr result (λ fault. FailsWith fault (document_of (view value.now))) }
    {
        Document::from_json(alloc, &value)
    }

    /// The document that a text spells, or its first fault: that it isn't JSON; or else that an
    /// object names a member twice; or else the one of its JSON value. Memory can run out before
    /// the fault is met, as it does for a text of 4 GiB. The text's JSON is read on a tape, which
    /// is let go with the call.
    pub fn from_text(alloc: Global, text: &str) -> Result<Document, DocFault>
        ensures ok { IfOk result (λ document. document_of_text text.now ≡ Ok document) }
        ensures valid { IfOk result IsValidDocument }
        ensures fault { IfErr result (λ fault. FailsWith fault (document_of_text text.now)) }
    {
        let mut scratch = Scratch::new(alloc);
        match parse_text(alloc, text, &mut scratch) {
            Ok(tape) => Document::from_json(alloc, &root(&tape)),
            Err(fault) => Err(fault.in_document(alloc)),
        }
    }

    /// As [`from_value`](Document::from_value), of any JSON value.
    fn from_json<V: JsonValue>(alloc: Global, value: &V) -> Result<Document, DocFault>
        ensures ok { IfOk result (λ document. document_of (V.json value.now) ≡ Ok document) }
        ensures valid { IfOk result IsValidDocument }
        ensures fault { IfErr result (λ fault. FailsWith fault (document_of (V.json value.now))) }
    {
        match from_members(alloc, value) {
            Ok(document) => Ok(document),
            Err(fault) => Err(fault.in_document(alloc)),
        }
    }
}

/// One call, and the number of the worker that makes it, from 1.
#[derive(Debug, PartialEq, Drop)]
pub struct Call {
    pub worker: u32,
    pub ask: Ask,
}

/// What a call asks for.
#[derive(Debug, PartialEq, Drop)]
pub enum Ask {
    /// An action: at most [`MAX_WRITES`](tt_values::MAX_WRITES) writes, carried out in order as
    /// one slot.
    Write(Action),
    /// Rows of a table: as they were at a time, or as they are now where none is given.
    Read { select: Select, at: Option<u64> },
    /// Rows of a table in the next generation, at the last slot that the repair has done.
    Preview(Select),
}
