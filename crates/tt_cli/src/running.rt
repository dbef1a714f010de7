//! What the commands do: the two runs of a document, in threads and in one thread, and a session in
//! memory.
ghost use Rattle.std.specs.Prelude.{◌≡◌, ◌≢◌, IfOk, IfErr, IfSome, OnOk};
ghost use Rattle.std.specs.Io.KnownBytes.{Keeps};
ghost use Rattle.tt_document.specs.Document.{IsValidDocument};
ghost use Rattle.tt_lines.specs.Ends.{AnswersAll};
ghost use Rattle.tt_workload.specs.Ends.{max_bytes_read, ConsumesAtMost};
ghost use Rattle.tt_workload.specs.Options.{AreWithin};
ghost use Rattle.tt_workload.specs.Run.{WritesReport, EndsEarly, IsFaultOfRun};
ghost use Rattle.tt_workers.specs.Faults.{IsStoreFault};
ghost use Rattle.tt_cli.specs.Running.{IsTextOfRun, WritesSomeReport, EndsRunEarly};
ghost use Rattle.tt_cli.specs.Running.{EndsSessionEarly, fault_of_session, IsFaultOfThreads};

use std::alloc::Global;
use std::io::{Read, Write};
use std::sync::Wait;
use std::thread::Threads;
use tt_lines::{SessionFault, run_session_to_end};
use tt_store::NoGate;
use tt_workers::{run_workers, text_of_report};
use tt_workload::{Document, Options, RunFault, read_document, run_to_end, write_text};

/// Runs the document of a reader in threads, and writes its report.
pub fn run_in_threads<R: Read, W: Write>(
    rt: &(impl Threads + Wait + Sync),
    alloc: Global,
    reader: &mut R,
    writer: &mut W,
    options: &Options,
) -> Result<(), RunFault>
    requires options { AreWithin options.now }

    // Of a reader and a writer whose bytes are known.
    ensures ok { OnOk result (IfSome (R.remaining reader.old) (λ xs.
        WritesSomeReport options.now xs (W.contents writer.old) (W.contents writer.new))) }
    ensures err { IfErr result (λ e. IfSome (R.remaining reader.old) (λ xs.
        EndsRunEarly options.now e xs (W.contents writer.old) (W.contents writer.new))) }
    ensures unchanged { IfErr result (λ e.
        e ≢ RunFault.Write → Keeps (W.contents writer.old) (W.contents writer.new)) }
    ensures limit { ConsumesAtMost max_bytes_read
        (R.remaining reader.old) (R.remaining reader.new) }

    // Of any reader and writer.
    ensures kind { IfErr result IsFaultOfThreads }
{
    let document = read_document(alloc, reader)?;
    let text = text_of_run(rt, alloc, &document, options)?;
    write_text(writer, text.as_slice())
}

/// The text of the report of a run of a document in threads.
fn text_of_run(
    rt: &(impl Threads + Wait + Sync),
    alloc: Global,
    document: &Document,
    options: &Options,
) -> Result<Vec<u8>, RunFault>
    requires valid { IsValidDocument document.now }
    requires options { AreWithin options.now }
    ensures text { IfOk result (λ text.
        IsTextOfRun options.now document.now text.items) }
    ensures fault { IfErr result IsStoreFault }
{
    let report = run_workers(rt, alloc, document, options, NoGate)?;
    text_of_report(alloc, &report, options)
}

/// Runs the document of a reader in one thread, and writes its report.
pub fn replay<R: Read, W: Write>(
    alloc: Global,
    reader: &mut R,
    writer: &mut W,
    options: &Options,
) -> Result<(), RunFault>
    requires options { AreWithin options.now }

    // Of a reader and a writer whose bytes are known.
    ensures ok { OnOk result (IfSome (R.remaining reader.old) (λ xs.
        WritesReport options.now xs (W.contents writer.old) (W.contents writer.new))) }
    ensures err { IfErr result (λ e. IfSome (R.remaining reader.old) (λ xs.
        EndsEarly options.now e xs (W.contents writer.old) (W.contents writer.new))) }
    ensures unchanged { IfErr result (λ e.
        e ≢ RunFault.Write → Keeps (W.contents writer.old) (W.contents writer.new)) }
    ensures limit { ConsumesAtMost max_bytes_read
        (R.remaining reader.old) (R.remaining reader.new) }

    // Of any reader and writer.
    ensures kind { IfErr result IsFaultOfRun }
{
    let end = run_to_end(alloc, reader, writer, options)?;
    leak(alloc, end);
    Ok(())
}

/// Leaks the memory of a run or a session: releasing it piece by piece takes long, and the system
/// takes it back as a whole when the program ends.
pub fn leak<T: Drop>(alloc: Global, end: T) {
    if let Ok(last) = Box::new(alloc, end) {
        let _ = Box::leak(last);
    }
}

/// Answers the lines of a reader, until its end.
pub fn answer_lines<R: Read, W: Write>(
    alloc: Global,
    reader: &mut R,
    writer: &mut W,
) -> Result<(), RunFault>
    ensures ok { OnOk result (AnswersAll (R.remaining reader.old) (R.remaining reader.new)
        (W.contents writer.old) (W.contents writer.new)) }
    ensures err { IfErr result (λ e.
        EndsSessionEarly e (R.remaining reader.old) (R.remaining reader.new)
        (W.contents writer.old) (W.contents writer.new)) }
{
    match run_session_to_end(alloc, reader, writer) {
        Ok(end) => {
            leak(alloc, end);
            Ok(())
        }
        Err(fault) => Err(fault_of_session(fault)),
    }
}

/// The fault of a session, as that of a run.
fn fault_of_session(fault: SessionFault) -> RunFault
    ensures { result ≡ fault_of_session fault }
{
    match fault {
        SessionFault::Read => RunFault::Read,
        SessionFault::Write => RunFault::Write,
        SessionFault::Memory => RunFault::Memory,
    }
}
