//! The command line.
ghost use Rattle.std.specs.Prelude.{◌≡◌, IfOk, IfSome, map, string_bytes};
ghost use Rattle.clap.specs.Words.{FailsBy, app_of, kind_of, rule_of};
ghost use Rattle.clap.specs.declared.error.kind.ErrorKind.TheVariants.{MissingRequiredArgument};
ghost use Rattle.tt_cli.specs.CommandLine.{IsCommandOf, IsBatchOf, IsRoundsOf, IsClosedOf, IsWhyOf, IsDiffOf, IsJsonOf, IsDryOf};
ghost use Rattle.tt_cli.specs.CommandLine.{batch, rounds, closed, why, diff, json, dry, replay, run};
ghost use Rattle.tt_cli.specs.CommandLine.{log_option, existing, log_argument, session, log};
ghost use Rattle.tt_cli.specs.CommandLine.{program, command_line, fault_of_words, options_of};
ghost use Rattle.tt_workload.specs.Options.{AreWithin};

use clap::error::ErrorKind;
use clap::{Arg, ArgAction, Command, Error};
use std::alloc::{AllocError, Global};
use tt_workload::Options;

const VERSION: &str = "0.1.0";

const ABOUT: &str =
    "A time-travel database: runs a workload and prints its report, or answers line by line";

const DOCUMENT: &str =
    r#"The workload is a JSON document on standard input. It declares tables and lists the calls
that workers make, in order:

  {"version":3,
   "tables":[{"name":"acct","columns":[
     {"name":"id","kind":"int"},
     {"name":"owner","kind":"text","partition":true},
     {"name":"bal","kind":"int"}]}],
   "workers":1,
   "calls":[
     {"worker":1,"insert":"acct","row":[1,"ann",10]},
     {"worker":1,"update":"acct","change":[["add","bal",5]],"where":[["id",1]]},
     {"worker":1,"select":"acct","where":[["owner","ann"]]},
     {"worker":1,"select":"acct","where":[["owner","ann"]],"at":1},
     {"worker":1,"delete":"acct","where":[]},
     {"worker":1,"do":[
       {"insert":"acct","row":[1,"ann",10]},
       {"insert":"acct","row":[2,"bob",20]}],"whole":true}],
   "repair":{"edits":[{"cancel":2}]}}

A condition is [COLUMN,VALUE], or [COLUMN,HOW,VALUE] with one of = != < <= > >= as HOW, in quotes.
The second select reads the rows as they were at time 1, after the first write. The last call makes
two writes as one action: they take one slot and one time. It is whole: if one of them had no effect
(an insert of a key that is there, an update or delete that matches no row), it would write nothing.
The repair has one edit, which cancels call 2, the update. An edit is {"cancel":N} or
{"replace":N,"by":WRITE}, where WRITE is an insert, an update, a delete or a "do" as above, without
"worker", which is made in place of call N.
`run` makes the calls of each worker in a thread of its own, in the worker's order, and then the
repair beside the calls of its member "meanwhile".
The report goes to standard output: a line for each call, one for the repair and for each reply
that it has changed, one for each table, and a last line. With --why, one for each slot that the
repair has redone, with its cause, follows the repair's own. With --diff, one for each row that it
has changed follows the changed replies: what the row was, and what it is. With --closed, one for
each table of each closed generation that is kept follows these: its rows at that generation's last
time. With --dry, `replay` gives the repair up before its switch, and tells what it would change.
With --json, the same lines are printed as JSON, one object each, as a session tells them.
`session` reads no such document, but requests: see `timetravel session --help`. `log` reads the log
of a session."#;

const LINES: &str =
    r#"Standard input is JSON, one text a line. The first line opens a database; each further line is a
request, and is answered by one line on standard output before another is waited for:

  {"version":4,"tables":[{"name":"acct","columns":[{"name":"id","kind":"int"},{"name":"bal","kind":"int"}]}]}
  {"insert":"acct","row":[1,100]}
  {"update":"acct","change":[["set","bal",0]],"where":[]}
  {"select":"acct","where":[["id",1]]}
  {"select":"acct","where":[["id",1]],"at":1}
  {"begin":[{"cancel":2}]}
  {"step":2}
  {"preview":"acct","where":[]}
  {"finish":true}
  {"changes":"now"}
  {"status":true}

The members of a write or a select are those of a document. A write is answered with the number of
its slot, and edits name slots: here the repair cancels slot 2, the update, and `changes` then lists
the answers that would be others now. There are also requests of the kinds delete, do, abort, slots,
tables, why, which tells why a repair re-executed slots, diff, which tells the rows that differ,
would, which tells what a repair would come to, and forget, which makes room again: see
docs/SESSION.md.
The database ends with the input. With --log FILE it is kept in FILE, which is made where there is
none: a request that changes it is on the disk before it is answered, so the next session on FILE
has all that was answered, after a crash, too. It is open from its start, and an opening with the
same tables and `keep` is answered with what is there. With --existing, too, nothing is made: where
FILE isn't there, or has no line, the session ends with status 1."#;

const ABOUT_LOG: &str =
    r#"What a session with --log FILE has logged: the line that opened it, and that of each request that
changed its database, in order. FILE stays as it is, and a session may go on with it
meanwhile. How many lines there are, and how many bytes they have, goes to standard error, and
whether something else follows them, as a crash leaves it of lines that were being written."#;

/// What the command line asks for.
#[derive(Clone, Copy)]
pub enum Cli<'a> {
    /// A run of the document in one thread.
    Replay(Options),
    /// A run of the document with each worker in a thread of its own.
    Run(Options),
    /// A session in memory, which answers line by line.
    Session,
    /// A session on a log.
    LoggedSession {
        /// The path of the log's file.
        path: &'a str,
        /// Whether there must be a log, so that none is made.
        must_exist: bool,
    },
    /// What the log in the file with this path has.
    Log(&'a str),
}

/// Reads the words of the command line, the program's name first. An error is a fault of usage,
/// help or the version that was asked for, or out of memory. It is a fault of usage, too, to give
/// `--existing` without `--log`.
pub fn command_of<'a>(alloc: Global, words: &'a [String]) -> Result<Cli<'a>, Error>
    ensures kinds { FailsBy (fault_of_words (map string_bytes words.entry.now)) result }
    ensures command { IfOk result (IsCommandOf (map string_bytes words.entry.now)) }
    ensures within { IfOk result (λ cli. IfSome (options_of cli) AreWithin) }
    ensures batch { IfOk result (λ cli. IfSome (options_of cli) (λ options.
        IsBatchOf (map string_bytes words.entry.now) options.batch)) }
    ensures closed { IfOk result (λ cli. IfSome (options_of cli) (λ options.
        IsClosedOf (map string_bytes words.entry.now) options.closed)) }
    ensures why { IfOk result (λ cli. IfSome (options_of cli) (λ options.
        IsWhyOf (map string_bytes words.entry.now) options.why)) }
    ensures diff { IfOk result (λ cli. IfSome (options_of cli) (λ options.
        IsDiffOf (map string_bytes words.entry.now) options.diff)) }
    ensures json { IfOk result (λ cli. IfSome (options_of cli) (λ options.
        IsJsonOf (map string_bytes words.entry.now) options.json)) }
    ensures dry { IfOk result (λ cli. IfSome (options_of cli) (λ options.
        IsDryOf (map string_bytes words.entry.now) options.dry)) }
    ensures rounds { IfOk result (λ cli. IfSome (options_of cli) (λ options.
        IsRoundsOf (map string_bytes words.entry.now) options.rounds)) }
{
    let command = command(alloc)?;
    let matches = command.try_get_matches_from(words)?;
    let Some((name, given)) = matches.subcommand() else {
        unreachable!()
    };
    if name == "session" {
        let must_exist = given.get_flag("existing");
        if let Some(path) = given.get_str("log") {
            return Ok(Cli::LoggedSession { path, must_exist });
        }
        if must_exist {
            return Err(missing_log(alloc)?);
        }
        return Ok(Cli::Session);
    }
    if name == "log" {
        let Some(path) = given.get_str("file") else {
            unreachable!()
        };
        return Ok(Cli::Log(path));
    }
    let Some(batch) = given.get_one::<u32>("batch") else {
        unreachable!()
    };
    let rounds = given
        .get_one::<u32>("rounds")
        .unwrap_or(Options::usual().rounds);
    let closed = given.get_flag("closed");
    let why = given.get_flag("why");
    let diff = given.get_flag("diff");
    let json = given.get_flag("json");
    let dry = given.get_flag("dry");
    let options = Options {
        batch,
        rounds,
        closed,
        why,
        diff,
        dry,
        json,
    };
    if name == "run" {
        return Ok(Cli::Run(options));
    }
    Ok(Cli::Replay(options))
}

/// The fault of `--existing` without `--log`.
fn missing_log(alloc: Global) -> Result<Error, AllocError>
    ensures { IfOk result (λ error. kind_of error ≡ MissingRequiredArgument) }
{
    let mut session = session(alloc)?.bin_name("timetravel session")?;
    session.error(
        ErrorKind::MissingRequiredArgument,
        "the following required arguments were not provided:\n  --log <FILE>",
    )
}

/// The program's command, with its subcommands.
fn command<'a>(alloc: Global) -> Result<Command<'a>, AllocError>
    ensures { IfOk result (λ command. app_of command ≡ command_line) }
{
    program(alloc)?
        .subcommand(replay(alloc)?)?
        .subcommand(run(alloc)?)?
        .subcommand(session(alloc)?)?
        .subcommand(log(alloc)?)
}

/// The program's command, without its subcommands.
fn program<'a>(alloc: Global) -> Result<Command<'a>, AllocError>
    ensures { IfOk result (λ command. app_of command ≡ program) }
{
    Ok(
        Command::new(alloc, "timetravel")
            .bin_name("timetravel")?
            .version(VERSION)
            .about(ABOUT)
            .after_help(DOCUMENT)
            .subcommand_required(true),
    )
}

/// The subcommand that runs the calls in one thread.
fn replay<'a>(alloc: Global) -> Result<Command<'a>, AllocError>
    ensures { IfOk result (λ command. app_of command ≡ replay) }
{
    Command::new(alloc, "replay")
        .about("Runs the calls one after another, in one thread")
        .after_help(DOCUMENT)
        .arg(batch(alloc))?
        .arg(closed(alloc))?
        .arg(why(alloc))?
        .arg(diff(alloc))?
        .arg(json(alloc))?
        .arg(dry(alloc))
}

/// The subcommand that runs the calls of each worker in a thread of its own.
fn run<'a>(alloc: Global) -> Result<Command<'a>, AllocError>
    ensures { IfOk result (λ command. app_of command ≡ run) }
{
    Command::new(alloc, "run")
        .about("Runs the calls of each worker in a thread of its own, and the repair beside them")
        .after_help(DOCUMENT)
        .arg(batch(alloc))?
        .arg(rounds(alloc))?
        .arg(closed(alloc))?
        .arg(why(alloc))?
        .arg(diff(alloc))?
        .arg(json(alloc))
}

/// The subcommand that answers line by line.
fn session<'a>(alloc: Global) -> Result<Command<'a>, AllocError>
    ensures { IfOk result (λ command. app_of command ≡ session) }
{
    Command::new(alloc, "session")
        .about("Holds a live database, and answers each line of standard input")
        .after_help(LINES)
        .arg(log_option(alloc))?
        .arg(existing(alloc))
}

/// The subcommand that prints a log.
fn log<'a>(alloc: Global) -> Result<Command<'a>, AllocError>
    ensures { IfOk result (λ command. app_of command ≡ log) }
{
    Command::new(alloc, "log")
        .about("Prints the lines that a session with --log FILE has logged")
        .after_help(ABOUT_LOG)
        .arg(log_argument(alloc))
}

/// The option `--batch`.
fn batch<'a>(alloc: Global) -> Arg<'a>
    ensures { rule_of result ≡ batch }
{
    Arg::new(alloc, "batch")
        .long("batch")
        .action(ArgAction::Set)
        .value_name("N")
        .value_parser(clap::value_parser!(u32).range(1..=10_000))
        .default_value("16")
        .help("The most steps of a repair that are done at once, 1 to 10,000")
}

/// The option `--rounds`.
fn rounds<'a>(alloc: Global) -> Arg<'a>
    ensures { rule_of result ≡ rounds }
{
    Arg::new(alloc, "rounds")
        .long("rounds")
        .action(ArgAction::Set)
        .value_name("N")
        .value_parser(clap::value_parser!(u32).range(0..=1_000))
        .default_value("8")
        .help("The most rounds of catching up before a repair is finished, 0 to 1,000")
}

/// The option `--log`.
fn log_option<'a>(alloc: Global) -> Arg<'a>
    ensures { rule_of result ≡ log_option }
{
    Arg::new(alloc, "log")
        .long("log")
        .action(ArgAction::Set)
        .value_name("FILE")
        .help("Keeps the database in FILE, and goes on with what is there")
}

/// The option `--existing`.
fn existing<'a>(alloc: Global) -> Arg<'a>
    ensures { rule_of result ≡ existing }
{
    Arg::new(alloc, "existing")
        .long("existing")
        .action(ArgAction::SetTrue)
        .help("Makes no database: ends with status 1 unless FILE has one (with --log)")
}

/// The argument `FILE` of `log`.
fn log_argument<'a>(alloc: Global) -> Arg<'a>
    ensures { rule_of result ≡ log_argument }
{
    Arg::new(alloc, "file")
        .action(ArgAction::Set)
        .required(true)
        .value_name("FILE")
        .help("The log of a session")
}

/// The option `--closed`.
fn closed<'a>(alloc: Global) -> Arg<'a>
    ensures { rule_of result ≡ closed }
{
    Arg::new(alloc, "closed")
        .long("closed")
        .action(ArgAction::SetTrue)
        .help("Prints, for each closed generation that is kept, every table at its last time")
}

/// The option `--why`.
fn why<'a>(alloc: Global) -> Arg<'a>
    ensures { rule_of result ≡ why }
{
    Arg::new(alloc, "why")
        .long("why")
        .action(ArgAction::SetTrue)
        .help("Prints, for each slot that the repair has redone, what has caused that")
}

/// The option `--diff`.
fn diff<'a>(alloc: Global) -> Arg<'a>
    ensures { rule_of result ≡ diff }
{
    Arg::new(alloc, "diff")
        .long("diff")
        .action(ArgAction::SetTrue)
        .help("Prints each row that the repair has changed, as it was and as it is")
}

/// The option `--json`.
fn json<'a>(alloc: Global) -> Arg<'a>
    ensures { rule_of result ≡ json }
{
    Arg::new(alloc, "json")
        .long("json")
        .action(ArgAction::SetTrue)
        .help("Prints the report as JSON, one object a line")
}

/// The option `--dry`.
fn dry<'a>(alloc: Global) -> Arg<'a>
    ensures { rule_of result ≡ dry }
{
    Arg::new(alloc, "dry")
        .long("dry")
        .action(ArgAction::SetTrue)
        .help("Gives the repair up before its switch, and prints what it would change")
}
