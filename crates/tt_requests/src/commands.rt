//! Reading of commands, each by its kind.
ghost use Rattle.std.specs.Prelude.{Ok};
ghost use Rattle.tt_json.specs.Tape.{IsValue, value_at};
ghost use Rattle.tt_grammar.specs.Fault.{Gives};
ghost use Rattle.tt_requests.specs.Requests.{one_write, several_writes, begin, step, end_of_repair, finish, abort, why, diff, would, forget, only_true, bare, command_of, command};

use crate::MAX_STEPS;
use crate::edits::EditsDecoder;
use crate::kinds::RequestKind;
use crate::questions::{WORKER, changes, slots};
use crate::reads::{diff_page, preview, read, slot_page};
use crate::request::{Command, ToldEdits};
use crate::told::{ToldGenerationDecoder, ToldTimeDecoder};
use json::Tape;
use std::alloc::Global;
use tt_grammar::DocFault;
use tt_grammar::decoding::{
    Context, CountDecoder, Decoder, FlagDecoder, OUT_OF_RANGE, Version, action, action_of_one,
    delete, insert, member, no_members_but, optional, stamp, update,
};
use tt_json::{JsonValue, root};
use tt_values::{Catalog, Write};

const STEPS: CountDecoder = CountDecoder {
    min: 1,
    max: MAX_STEPS,
};

/// The command of an object, by the first of its kinds.
pub(crate) fn command(
    alloc: Global,
    version: Version,
    catalog: &Catalog,
    tape: &Tape<'_>,
) -> Result<Command, DocFault>
    requires { IsValue tape.now }
    ensures { Gives result (command version catalog.now (value_at tape.now)) }
{
    let kind = RequestKind::of(alloc, tape)?;
    command_of(alloc, version, catalog, kind, &root(tape))
}

/// The command of an object of this kind.
#[tactic(auto, unfolding(crate::specs::Requests::one_write))]
fn command_of<V: JsonValue>(
    alloc: Global,
    version: Version,
    catalog: &Catalog,
    kind: RequestKind,
    value: &V,
) -> Result<Command, DocFault>
    ensures { Gives result (command_of version catalog.now kind (V.json value.now)) }
{
    match kind {
        RequestKind::Insert => {
            let write = insert(alloc, catalog, Context::WriteRequest, value)?;
            one_write(alloc, write, value)
        }
        RequestKind::Update => {
            let write = update(alloc, version, catalog, Context::WriteRequest, value)?;
            one_write(alloc, write, value)
        }
        RequestKind::Delete => {
            let write = delete(alloc, version, catalog, Context::WriteRequest, value)?;
            one_write(alloc, write, value)
        }
        RequestKind::Select => read(alloc, version, catalog, value),
        RequestKind::Preview => preview(alloc, version, catalog, value),
        RequestKind::Do => several_writes(alloc, version, catalog, value),
        RequestKind::Begin => begin(alloc, version, catalog, value),
        RequestKind::Step => step(alloc, value),
        RequestKind::Finish => finish(alloc, value),
        RequestKind::Abort => abort(alloc, value),
        RequestKind::Status => bare(alloc, "status", Command::Status, value),
        RequestKind::Slots => slots(alloc, catalog, value),
        RequestKind::Changes => changes(alloc, value),
        RequestKind::Tables => bare(alloc, "tables", Command::Tables, value),
        RequestKind::Why => why(alloc, value),
        RequestKind::Diff => diff(alloc, catalog, value),
        RequestKind::Would => would(alloc, version, catalog, value),
        RequestKind::Forget => forget(alloc, value),
    }
}

/// A write of its own, as an action of one, which isn't whole, and its stamp.
#[tactic(auto, unfolding(crate::specs::Requests::one_write))]
fn one_write<V: JsonValue>(alloc: Global, write: Write, value: &V) -> Result<Command, DocFault>
    ensures { Gives result (one_write (Ok write) (V.json value.now)) }
{
    let action = action_of_one(alloc, write)?;
    let stamp = stamp(alloc, value)?;
    Ok(Command::Write { action, stamp })
}

#[tactic(auto, unfolding(crate::specs::Requests::several_writes))]
fn several_writes<V: JsonValue>(
    alloc: Global,
    version: Version,
    catalog: &Catalog,
    value: &V,
) -> Result<Command, DocFault>
    ensures { Gives result (several_writes version catalog.now (V.json value.now)) }
{
    let action = action(alloc, version, catalog, Context::WriteRequest, value)?;
    let stamp = stamp(alloc, value)?;
    Ok(Command::Write { action, stamp })
}

#[tactic(auto, unfolding(crate::specs::Requests::begin))]
fn begin<V: JsonValue>(
    alloc: Global,
    version: Version,
    catalog: &Catalog,
    value: &V,
) -> Result<Command, DocFault>
    ensures { Gives result (begin version catalog.now (V.json value.now)) }
{
    let edits = member(alloc, value, "begin", &EditsDecoder { version, catalog })?;
    no_members_but(alloc, value, &["if", "worker", "begin"])?;
    Ok(Command::Begin(ToldEdits { edits }))
}

#[tactic(auto, unfolding(crate::specs::Requests::step))]
fn step<V: JsonValue>(alloc: Global, value: &V) -> Result<Command, DocFault>
    ensures { Gives result (step (V.json value.now)) }
{
    let most = member(alloc, value, "step", &STEPS)?;
    let of = optional(alloc, value, "of", &WORKER)?;
    no_members_but(alloc, value, &["if", "worker", "of", "step"])?;
    Ok(Command::Step { most, of })
}

#[tactic(auto, unfolding(crate::specs::Requests::finish))]
fn finish<V: JsonValue>(alloc: Global, value: &V) -> Result<Command, DocFault>
    ensures { Gives result (finish (V.json value.now)) }
{
    let of = end_of_repair(alloc, "finish", value)?;
    Ok(Command::Finish { of })
}

#[tactic(auto, unfolding(crate::specs::Requests::abort))]
fn abort<V: JsonValue>(alloc: Global, value: &V) -> Result<Command, DocFault>
    ensures { Gives result (abort (V.json value.now)) }
{
    let of = end_of_repair(alloc, "abort", value)?;
    Ok(Command::Abort { of })
}

/// The end of a repair by this name: the worker that has to have begun it, where one is given.
#[tactic(auto, unfolding(crate::specs::Requests::end_of_repair))]
fn end_of_repair<V: JsonValue>(
    alloc: Global,
    name: &str,
    value: &V,
) -> Result<Option<u32>, DocFault>
    ensures { Gives result (end_of_repair name.now (V.json value.now)) }
{
    member(alloc, value, name, &OnlyTrueDecoder)?;
    let of = optional(alloc, value, "of", &WORKER)?;
    no_members_but(alloc, value, &["if", "worker", "of", name])?;
    Ok(of)
}

#[tactic(auto, unfolding(crate::specs::Requests::why))]
fn why<V: JsonValue>(alloc: Global, value: &V) -> Result<Command, DocFault>
    ensures { Gives result (why (V.json value.now)) }
{
    member(alloc, value, "why", &OnlyTrueDecoder)?;
    let generation = optional(alloc, value, "in", &ToldGenerationDecoder)?;
    let page = slot_page(alloc, value)?;
    no_members_but(
        alloc,
        value,
        &["if", "worker", "after", "in", "most", "why"],
    )?;
    Ok(Command::Why { generation, page })
}

#[tactic(auto, unfolding(crate::specs::Requests::diff))]
fn diff<V: JsonValue>(alloc: Global, catalog: &Catalog, value: &V) -> Result<Command, DocFault>
    ensures { Gives result (diff catalog.now (V.json value.now)) }
{
    member(alloc, value, "diff", &OnlyTrueDecoder)?;
    let generation = optional(alloc, value, "in", &ToldGenerationDecoder)?;
    let page = diff_page(alloc, catalog, value)?;
    no_members_but(
        alloc,
        value,
        &["if", "worker", "after", "diff", "in", "most"],
    )?;
    Ok(Command::Diff { generation, page })
}

#[tactic(auto, unfolding(crate::specs::Requests::would))]
fn would<V: JsonValue>(
    alloc: Global,
    version: Version,
    catalog: &Catalog,
    value: &V,
) -> Result<Command, DocFault>
    ensures { Gives result (would version catalog.now (V.json value.now)) }
{
    let edits = member(alloc, value, "would", &EditsDecoder { version, catalog })?;
    no_members_but(alloc, value, &["if", "worker", "would"])?;
    Ok(Command::Would(ToldEdits { edits }))
}

#[tactic(auto, unfolding(crate::specs::Requests::forget))]
fn forget<V: JsonValue>(alloc: Global, value: &V) -> Result<Command, DocFault>
    ensures { Gives result (forget (V.json value.now)) }
{
    let time = member(alloc, value, "forget", &ToldTimeDecoder)?;
    no_members_but(alloc, value, &["if", "worker", "forget"])?;
    Ok(Command::Forget(time))
}

/// A command with nothing but its name.
#[tactic(auto, unfolding(crate::specs::Requests::bare))]
fn bare<V: JsonValue>(
    alloc: Global,
    name: &str,
    command: Command,
    value: &V,
) -> Result<Command, DocFault>
    ensures { Gives result (bare name.now command (V.json value.now)) }
{
    member(alloc, value, name, &OnlyTrueDecoder)?;
    no_members_but(alloc, value, &["if", "worker", name])?;
    Ok(command)
}

/// The value true, and not false.
#[derive(Drop)]
struct OnlyTrueDecoder;

impl Decoder for OnlyTrueDecoder {
    type Output = ();

    ghost meaning = { λ _. only_true };

    #[tactic(auto, unfolding(crate::specs::Requests::only_true))]
    fn decode<V: JsonValue>(&self, alloc: Global, value: &V) -> Result<(), DocFault> {
        let flag = FlagDecoder.decode(alloc, value)?;
        if !flag {
            return Err(DocFault::here(alloc, OUT_OF_RANGE));
        }
        Ok(())
    }
}
