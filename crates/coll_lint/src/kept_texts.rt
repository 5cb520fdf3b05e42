//! A text is read whole, and kept in memory.

ghost use Rattle.std.specs.Prelude.{◌≡◌, ◌<◌, ◌≤◌, ◌++◌, [], false, vec_len, length, IfOk, IfErr, OnOk};
ghost use Rattle.std.specs.Io.KnownBytes.{IsAtEnd};
ghost use Rattle.coll_bench.specs.BatchReading.{starved_in};
ghost use Rattle.coll_lint.specs.KeptTexts.{CountsReads, IsTextOf, KeepsPart, StopsReading, most_text_bytes, read_failed as failed_read};

use coll_faults::{Fault, RunFault};
use coll_lex::{LexFault, ReadStop, Source};
use std::alloc::{AllocError, Global};

/// Most bytes of a text that is kept, 256 MiB. A longer one is refused as lack of memory.
pub const MOST_TEXT_BYTES: usize = 268_435_456;

// Bytes that are read at once.
const BUFFER_BYTES: usize = 65_536;

// Most reads of a text: a device may give one byte at a time, and the last read finds the end.
const MOST_READS: usize = MOST_TEXT_BYTES + 1;

/// Reads the text of an input whole.
///
/// A read that fails is the answer, and so is lack of memory, or a text that is longer; both come from no line.
pub fn keep_text<R: Source>(
    alloc: Global,
    input: usize,
    source: &mut R,
) -> Result<Vec<u8>, RunFault>
    ensures text { IfOk result (λ kept. IsTextOf (R.left source.old) kept.items) }
    ensures most { IfOk result (λ kept. length kept.items ≤ most_text_bytes) }
    ensures fault { IfErr result (λ ended. StopsReading input ended) }
    ensures reads { CountsReads (R.failed source.old) (R.failed source.new) result }
{
    let Ok(mut buffer) = zero_bytes(alloc, BUFFER_BYTES) else {
        return Err(no_memory(input));
    };
    let mut kept = Vec::new(alloc);
    let read = keep_all(input, source, buffer.as_mut_slice(), &mut kept);
    drop(buffer);
    match read {
        Ok(()) => Ok(kept),
        Err(ended) => {
            drop(kept);
            Err(ended)
        }
    }
}

// Puts all bytes of an input behind those that are kept.
fn keep_all<R: Source>(
    input: usize,
    source: &mut R,
    buffer: &mut [u8],
    kept: &mut Vec<u8>,
) -> Result<(), RunFault>
    requires room { 0 < length buffer.old }
    requires none { kept.old.items ≡ [] }
    ensures text { OnOk result (IsTextOf (R.left source.old) kept.new.items) }
    ensures most { OnOk result (length kept.new.items ≤ most_text_bytes) }
    ensures fault { IfErr result (λ ended. StopsReading input ended) }
    ensures reads { CountsReads (R.failed source.old) (R.failed source.new) result }
{
    'reads: for _ in 0..MOST_READS {
        match read_part(input, source, buffer, kept) {
            Ok(true) => {}
            Ok(false) => return Ok(()),
            Err(ended) => return Err(ended),
        }
    }
    Err(no_memory(input))
}

// Puts the bytes of one read behind those that are kept, and answers whether there were any.
fn read_part<R: Source>(
    input: usize,
    source: &mut R,
    buffer: &mut [u8],
    kept: &mut Vec<u8>,
) -> Result<bool, RunFault>
    requires room { 0 < length buffer.old }
    ensures part { IfOk result (λ more. KeepsPart (R.left source.old) (R.left source.new) kept.old.items kept.new.items) }
    ensures most { OnOk result (length kept.old.items ≤ most_text_bytes → length kept.new.items ≤ most_text_bytes) }
    ensures end { IfOk result (λ more. more ≡ false → IsAtEnd (R.left source.new)) }
    ensures fault { IfErr result (λ ended. StopsReading input ended) }
    ensures reads { CountsReads (R.failed source.old) (R.failed source.new) result }
{
    match source.read(buffer) {
        Ok(0) => Ok(false),
        Ok(count) => match keep_part(input, &buffer[..count], kept) {
            Ok(()) => Ok(true),
            Err(ended) => Err(ended),
        },
        Err(_) => Err(read_failed(input)),
    }
}

// Puts bytes behind those that are kept, unless they would be too many.
fn keep_part(input: usize, part: &[u8], kept: &mut Vec<u8>) -> Result<(), RunFault>
    ensures kept { OnOk result (kept.new.items ≡ kept.old.items ++ part.now) }
    ensures most { OnOk result (length kept.new.items ≤ most_text_bytes) }
    ensures fault { IfErr result (λ ended. ended ≡ starved_in input) }
{
    if kept.len() > MOST_TEXT_BYTES || part.len() > MOST_TEXT_BYTES - kept.len() {
        return Err(no_memory(input));
    }
    match kept.extend_from_slice(part) {
        Ok(()) => Ok(()),
        Err(_) => Err(no_memory(input)),
    }
}

// So many bytes, for a buffer.
fn zero_bytes(alloc: Global, count: usize) -> Result<Vec<u8>, AllocError>
    ensures { IfOk result (λ bytes. vec_len bytes ≡ count) }
{
    vec![in alloc; 0; count]
}

// A read of an input failed.
fn read_failed(input: usize) -> RunFault
    ensures { result ≡ failed_read input }
{
    RunFault {
        input,
        line: 0,
        fault: Fault::Read(ReadStop::ReadFault),
    }
}

/// Memory was refused to an input, for no line of it.
pub(crate) fn no_memory(input: usize) -> RunFault
    ensures { result ≡ starved_in input }
{
    RunFault {
        input,
        line: 0,
        fault: Fault::Lex(LexFault::OutOfMemory),
    }
}
