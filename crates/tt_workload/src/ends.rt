//! The two ends of a run: the document that is read, and the text that is written.
ghost use Rattle.std.specs.Prelude.{◌≡◌, Ok, Some, IfOk, IfErr, IfSome, OnOk};
ghost use Rattle.std.specs.Io.KnownBytes.{Appends, Consumes};
ghost use Rattle.tt_streams.specs.Writing.{AppendsPrefix};
ghost use Rattle.tt_grammar.specs.Fault.{FailsWith};
ghost use Rattle.tt_document.specs.Document.{IsValidDocument};
ghost use Rattle.tt_workload.specs.Ends.{max_bytes_read, bytes_read, document_of_bytes, ConsumesAtMost, ReadsDocument, EndsReading, HasText, IsReadingFault, IsReaderFault};

use crate::run_fault::RunFault;
use std::alloc::Global;
use std::io::{Read, Write};
use tt_document::{DocFault, Document};
use tt_grammar::decoding::{NOT_JSON, TOO_LONG};
use tt_streams::{MAX_RETRIES, read_once};

const MAX_DOCUMENT_BYTES: usize = 16_777_216;

const MAX_BYTES_READ: usize = MAX_DOCUMENT_BYTES + 1;

const BUFFER_BYTES: usize = 65_536;

/// Reads a document from a reader, to its end. A longer document than 16,777,216 bytes is refused
/// after one byte more. An interrupted read is tried again, 1,000 times at most in one call.
pub fn read_document<R: Read>(alloc: Global, reader: &mut R) -> Result<Document, RunFault>
    // Of a reader whose bytes are known.
    ensures ok { IfOk result (λ d. IfSome (R.remaining reader.old) (λ xs. ReadsDocument xs d)) }
    ensures fault { IfErr result (λ e. IfSome (R.remaining reader.old) (λ xs. EndsReading xs e)) }
    ensures consumed { OnOk result (IfSome (R.remaining reader.old) (λ xs.
        Consumes (Some xs) (R.remaining reader.new) (bytes_read xs))) }
    ensures limit { ConsumesAtMost max_bytes_read
        (R.remaining reader.old) (R.remaining reader.new) }

    // Of any reader.
    ensures text { IfOk result HasText }
    ensures valid { IfOk result IsValidDocument }
    ensures kind { IfErr result IsReadingFault }
{
    let bytes = read_bytes(alloc, reader)?;
    let document = document_from(alloc, &bytes)?;
    Ok(document)
}

/// The document that the bytes spell.
#[tactic(auto, using(crate::proofs::EndsLemmas::document_cases))]
fn document_from(alloc: Global, bytes: &[u8]) -> Result<Document, DocFault>
    ensures ok { IfOk result (λ document. document_of_bytes bytes.now ≡ Ok document) }
    ensures valid { IfOk result IsValidDocument }
    ensures fault { IfErr result (λ fault. FailsWith fault (document_of_bytes bytes.now)) }
{
    if bytes.len() > MAX_DOCUMENT_BYTES {
        return Err(DocFault::of_document(alloc, TOO_LONG));
    }
    match str::from_utf8(bytes) {
        Ok(text) => Document::from_text(alloc, text),
        Err(_) => Err(DocFault::of_document(alloc, NOT_JSON)),
    }
}

/// What the reader has left, or the first bytes of it, one more than a document may have.
fn read_bytes<R: Read>(alloc: Global, reader: &mut R) -> Result<Vec<u8>, RunFault>
    ensures ok { IfOk result (λ bytes.
        IfSome (R.remaining reader.old) (λ xs. bytes.items ≡ bytes_read xs)) }
    ensures consumed { IfOk result (λ bytes.
        Consumes (R.remaining reader.old) (R.remaining reader.new) bytes.items) }
    ensures fault { IfErr result IsReaderFault }
    ensures limit { ConsumesAtMost max_bytes_read
        (R.remaining reader.old) (R.remaining reader.new) }
{
    let mut bytes = Vec::new(alloc);
    let mut zeros = vec![in alloc; 0; BUFFER_BYTES]?;
    let buffer = zeros.as_mut_slice();
    let mut retries = MAX_RETRIES;
    while bytes.len() < MAX_BYTES_READ {
        let room = buffer.len().min(MAX_BYTES_READ - bytes.len());
        let count = read_once(reader, &mut buffer[..room], &mut retries)?;
        bytes.extend_from_slice(&buffer[..count])?;
        if count == 0 {
            return Ok(bytes);
        }
    }
    Ok(bytes)
}

/// Writes a text, and flushes the writer. After a fault a prefix of the text is written.
/// An interrupted write is tried again, 1,000 times at most in one call. Needs no memory.
pub fn write_text<W: Write>(writer: &mut W, text: &[u8]) -> Result<(), RunFault>
    // Of a writer whose bytes are known.
    ensures ok { OnOk result (Appends (W.contents writer.old) (W.contents writer.new) text.now) }
    ensures prefix { AppendsPrefix (W.contents writer.old) (W.contents writer.new) text.now }

    // Of any writer.
    ensures err { IfErr result (λ e. e ≡ RunFault.Write) }
{
    let mut retries = MAX_RETRIES;
    tt_streams::write_text(writer, text, &mut retries)?;
    Ok(())
}
