//! What the program does for a command line. The clauses speak of the bytes of a reader and a
//! writer where these are known; those of the standard streams aren't.
ghost use Rattle.std.specs.Prelude.{◌≡◌, IfOk, IfErr, OnErr, IfSome, map, string_bytes};
ghost use Rattle.std.specs.Result.{ForOk};
ghost use Rattle.std.specs.IoError.{error_kind};
ghost use Rattle.std.specs.Io.KnownBytes.{Keeps};
ghost use Rattle.clap.specs.Words.{kind_of};
ghost use Rattle.tt_workload.specs.Ends.{max_bytes_read, ConsumesAtMost};
ghost use Rattle.tt_workload.specs.Options.{AreWithin};
ghost use Rattle.tt_cli.specs.CommandLine.{options_of};
ghost use Rattle.tt_cli.specs.Ending.{IsEndingOfUsage, ending_of_words};
ghost use Rattle.tt_cli.specs.CarryingOut.{EndsBy, IsEndingBy, CarriesOut};

use crate::command_line::{Cli, command_of};
use crate::ending::Ending;
use crate::logging::{answer_on_file, print_log};
use crate::messages::{print_outcome, print_usage, print_words_fault};
use crate::running::{answer_lines, replay, run_in_threads};
use std::fs::{File, Files};
use std::io;
use std::io::{Read, Write};
use std::sync::Wait;
use std::thread::Threads;

/// Carries out the words of a command line, the program's name first: runs the document of the
/// reader, and writes its report, or answers the reader's lines. Where the words couldn't be read,
/// are faulty or ask for help, this is printed, and nothing is read.
pub fn carry_out_words<R: Read, W: Write>(
    rt: &(impl Print + Eprint + AllocGlobal + Threads + Wait + Sync + Files<File = File>),
    words: io::Result<Vec<String>>,
    reader: &mut R,
    writer: &mut W,
) -> Ending
    ensures words { IfOk words (λ words. CarriesOut (map string_bytes words.items)
        (R.remaining reader.old) (R.remaining reader.new)
        (W.contents writer.old) (W.contents writer.new) result) }
    ensures no_words { IfErr words (λ error. result ≡ ending_of_words (error_kind error)) }
    ensures unread { OnErr words (Keeps (R.remaining reader.old) (R.remaining reader.new)) }
    ensures unwritten { OnErr words (Keeps (W.contents writer.old) (W.contents writer.new)) }
{
    match words {
        Ok(words) => {
            let asked = command_of(rt.alloc(), words.as_slice());
            carry_out(rt, asked, reader, writer)
        }
        Err(error) => print_words_fault(rt, &error),
    }
}

/// Carries out what a command line asks for. If it gives no command, nothing is read. Of a command
/// on a log nothing is said but how the program may end.
pub fn carry_out<R: Read, W: Write>(
    rt: &(impl Print + Eprint + AllocGlobal + Threads + Wait + Sync + Files<File = File>),
    asked: Result<Cli<'_>, clap::Error>,
    reader: &mut R,
    writer: &mut W,
) -> Ending
    requires options { ForOk asked (λ cli. IfSome (options_of cli) AreWithin) }
    ensures run { IfOk asked.entry (λ cli.
        EndsBy cli (R.remaining reader.old) (R.remaining reader.new)
        (W.contents writer.old) (W.contents writer.new) result) }
    ensures kind { IfOk asked.entry (λ cli. IsEndingBy cli result) }
    ensures limit { IfOk asked.entry (λ cli. IfSome (options_of cli) (λ _.
        ConsumesAtMost max_bytes_read (R.remaining reader.old) (R.remaining reader.new))) }
    ensures usage { IfErr asked.entry (λ error. IsEndingOfUsage (kind_of error) result) }
    ensures unread { OnErr asked.entry (Keeps (R.remaining reader.old) (R.remaining reader.new)) }
    ensures unwritten { OnErr asked.entry (Keeps (W.contents writer.old) (W.contents writer.new)) }
{
    match asked {
        Ok(cli) => carry_out_command(rt, cli, reader, writer),
        Err(error) => print_usage(rt, &error),
    }
}

/// Carries out a command.
pub fn carry_out_command<R: Read, W: Write>(
    rt: &(impl Print + Eprint + AllocGlobal + Threads + Wait + Sync + Files<File = File>),
    cli: Cli<'_>,
    reader: &mut R,
    writer: &mut W,
) -> Ending
    requires options { IfSome (options_of cli) AreWithin }
    ensures run { EndsBy cli.entry (R.remaining reader.old) (R.remaining reader.new)
        (W.contents writer.old) (W.contents writer.new) result }
    ensures kind { IsEndingBy cli.entry result }
    ensures limit { IfSome (options_of cli.entry) (λ _. ConsumesAtMost max_bytes_read
        (R.remaining reader.old) (R.remaining reader.new)) }
{
    match cli {
        Cli::Replay(options) => {
            let outcome = replay(rt.alloc(), reader, writer, &options);
            print_outcome(rt, outcome)
        }
        Cli::Run(options) => {
            let outcome = run_in_threads(rt, rt.alloc(), reader, writer, &options);
            print_outcome(rt, outcome)
        }
        Cli::Session => print_outcome(rt, answer_lines(rt.alloc(), reader, writer)),
        Cli::LoggedSession { path, must_exist } => {
            answer_on_file(rt, path, must_exist, reader, writer)
        }
        Cli::Log(path) => print_log(rt, path, writer),
    }
}
