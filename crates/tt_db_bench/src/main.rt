//! Calls of a database, by `Db::apply` or by `Db::advanced`, for tools that count what they cost.
#![tactic(auto)]

use calls::make_calls;
use error::BenchError;
use plan::{Mode, plan_of};
use std::{env, io};

mod accounts;
mod calls;
mod error;
mod plan;

fn main(rt: HostRuntime) -> io::Result<()> {
    let words: Vec<String> = env::args(&rt)?.collect(rt.alloc())?;
    match plan_of(words.as_slice()) {
        Some(plan) => report(&rt, plan.mode, make_calls(rt.alloc(), plan)),
        None => println!(rt; "usage: tt_db_bench MODE ROWS"),
    }
}

fn report(rt: &impl Print, mode: Mode, slots: Result<u64, BenchError>) -> io::Result<()> {
    match slots {
        Ok(slots) => println!(rt; "{} {slots}", mode.name()),
        Err(error) => println!(rt; "the calls have failed: {error}"),
    }
}
