//! The program `timetravel`.
#![tactic(auto)]

use carrying_out::carry_out_words;
use ending::Ending;
use std::rt::Env;
use std::{env, io};

mod carrying_out;
mod command_line;
mod ending;
mod log_fault;
mod log_file;
mod logging;
mod messages;
mod running;
mod status;

fn main(rt: HostRuntime) -> Ending {
    let mut reader = rt.reader();
    let mut writer = io::writer(&rt);
    carry_out_words(&rt, words_of(&rt), &mut reader, &mut writer)
}

/// The words of the command line, the program's name first.
fn words_of(rt: &(impl Env + AllocGlobal)) -> io::Result<Vec<String>> {
    let words = env::args(rt)?.collect(rt.alloc())?;
    Ok(words)
}
