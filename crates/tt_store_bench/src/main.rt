//! Measures a store: one worker writes without pause, and others read rows by key beside it.
#![tactic(auto)]

ghost use Rattle.std.specs.Prelude.{◌≡◌};
ghost use Rattle.std.specs.Arc.{arc_value};
ghost use Rattle.tt_db.specs.Limits.{usual_limits};
ghost use Rattle.tt_store.specs.Published.{RuleIsMembership};

use accounts::catalog;
use error::BenchError;
use measurement::measure;
use plan::{Plan, plan_of};
use results::Results;
use std::alloc::Global;
use std::marker::Brand;
use std::rt::{Clock, Env};
use std::sync::{Arc, Wait};
use std::thread::Threads;
use std::{env, io};
use tt_store::Opened;

mod accounts;
mod clock;
mod error;
mod measurement;
mod plan;
mod reader;
mod results;
mod writer;

fn main(rt: HostRuntime) -> io::Result<()> {
    let words: Vec<String> = env::args(&rt)?.collect(rt.alloc())?;
    match plan_of(words.as_slice()) {
        Some(plan) => report(&rt, run(&rt, rt.alloc(), plan)),
        None => println!(rt; "usage: tt_store_bench READERS SECONDS ROWS"),
    }
}

fn report(rt: &impl Print, results: Result<Results, BenchError>) -> io::Result<()> {
    match results {
        Ok(results) => results.print(rt),
        Err(error) => println!(rt; "the measurement has failed: {error}"),
    }
}

/// Measures a store of its own.
fn run(
    rt: &(impl Threads + Wait + Clock + Sync),
    alloc: Global,
    plan: Plan,
) -> Result<Results, BenchError> {
    let catalog = Arc::new(alloc, catalog(alloc)?)?;
    let opened = Opened::new(plan.readers.saturating_add(1));
    measure::<Brand, _>(rt, alloc, opened, catalog, plan)
}
