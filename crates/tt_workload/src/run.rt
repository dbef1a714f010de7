//! Runs of a workload, from the document that is read to the report that is written.
ghost use Rattle.std.specs.Prelude.{◌≡◌, ◌≢◌, IfOk, IfErr, IfSome, OnOk};
ghost use Rattle.std.specs.Io.KnownBytes.{Appends, Keeps};
ghost use Rattle.tt_streams.specs.Writing.{AppendsPrefix};
ghost use Rattle.tt_workload.specs.Ends.{max_bytes_read, ConsumesAtMost};
ghost use Rattle.tt_workload.specs.Options.{AreWithin};
ghost use Rattle.tt_workload.specs.Run.{LeavesDatabase, IsLeftByDocument, WritesReport, EndsEarly, IsFaultOfRun};

use crate::ends::{read_document, write_text};
use crate::options::Options;
use crate::report::report_of;
use crate::run_fault::RunFault;
use std::alloc::Global;
use std::io::{Read, Write};
use tt_db::Db;

/// Reads a document, runs its calls one after another, and writes their report. Nothing is written
/// before the whole report is known.
pub fn run_alone<R: Read, W: Write>(
    alloc: Global,
    reader: &mut R,
    writer: &mut W,
    options: &Options,
) -> Result<(), RunFault>
    requires options { AreWithin options.now }

    // Of a reader and a writer whose bytes are known.
    ensures ok { OnOk result (IfSome (R.remaining reader.old) (λ xs.
        WritesReport options.now xs (W.contents writer.old) (W.contents writer.new))) }
    ensures err { IfErr result (λ e. IfSome (R.remaining reader.old) (λ xs.
        EndsEarly options.now e xs (W.contents writer.old) (W.contents writer.new))) }
    ensures unchanged { IfErr result (λ e.
        e ≢ RunFault.Write → Keeps (W.contents writer.old) (W.contents writer.new)) }
    ensures limit { ConsumesAtMost max_bytes_read
        (R.remaining reader.old) (R.remaining reader.new) }

    // Of any reader and writer.
    ensures kind { IfErr result IsFaultOfRun }
{
    run_to_end(alloc, reader, writer, options)?;
    Ok(())
}

/// What a run leaves in memory: the last database. A program that ends then may leave it to the
/// system, since releasing it piece by piece takes long.
#[derive(Drop)]
pub struct RunEnd {
    /// The database after the calls.
    pub db: Db,
}

/// As [`run_alone`], and hands over what the run leaves.
pub fn run_to_end<R: Read, W: Write>(
    alloc: Global,
    reader: &mut R,
    writer: &mut W,
    options: &Options,
) -> Result<RunEnd, RunFault>
    requires options { AreWithin options.now }

    // Of a reader and a writer whose bytes are known.
    ensures ok { OnOk result (IfSome (R.remaining reader.old) (λ xs.
        WritesReport options.now xs (W.contents writer.old) (W.contents writer.new))) }
    ensures database { IfOk result (λ end. IfSome (R.remaining reader.old) (λ xs.
        LeavesDatabase options.now xs end.db)) }
    ensures err { IfErr result (λ e. IfSome (R.remaining reader.old) (λ xs.
        EndsEarly options.now e xs (W.contents writer.old) (W.contents writer.new))) }
    ensures unchanged { IfErr result (λ e.
        e ≢ RunFault.Write → Keeps (W.contents writer.old) (W.contents writer.new)) }
    ensures limit { ConsumesAtMost max_bytes_read
        (R.remaining reader.old) (R.remaining reader.new) }

    // Of any reader and writer.
    ensures left { IfOk result (λ end. IsLeftByDocument options.now end.db) }
    ensures kind { IfErr result IsFaultOfRun }
{
    let document = read_document(alloc, reader)?;
    let (report, db) = report_of(alloc, document, options)?;
    write_report(writer, &report, RunEnd { db })
}

/// Writes a report, and returns what the run leaves.
fn write_report<W: Write>(writer: &mut W, report: &[u8], end: RunEnd) -> Result<RunEnd, RunFault>
    ensures ok { OnOk result (Appends (W.contents writer.old) (W.contents writer.new) report.now) }
    ensures database { IfOk result (λ left. left.db ≡ end.db) }
    ensures prefix { AppendsPrefix (W.contents writer.old) (W.contents writer.new) report.now }
    ensures err { IfErr result (λ e. e ≡ RunFault.Write) }
{
    write_text(writer, report)?;
    Ok(end)
}
