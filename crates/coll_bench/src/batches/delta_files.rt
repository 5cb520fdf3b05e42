//! A delta file is read line by line, and each statement is put at once to what takes them.
//!
//! No history is kept: whoever keeps more of a file than its reader and the table gives up that a file of any length is read in the
//! memory of its longest block.

ghost use Rattle.std.specs.Prelude.{◌≡◌, ◌++◌, ℕ, List, option_map, option_to_list, IfSome, IfErr, OnOk, Ok, None, Some};
ghost use Rattle.coll_devices.specs.LineReading.{no_line};
ghost use Rattle.coll_requests.specs.DeltaReading.{delta_end, first_delta};
ghost use Rattle.coll_requests.specs.declared.delta_files.StatementAt.{StatementAt};
ghost use Rattle.coll_syntax.specs.Proper.{IsProper};
ghost use Rattle.coll_bench.specs.BatchOutcome.{delta_fault_in, rewritten, statements_of};
ghost use Rattle.coll_bench.specs.BatchReading.{ReadsDelta, CountsDelta, WritesNone, FailsAs, IsNumberOf, LeadsOver};
ghost use Rattle.coll_bench.specs.BatchReading.{IsFaultNumber, line_taken, starved_in, stopped_in};
ghost use Rattle.coll_bench.specs.BatchRuns.{ending_of};

use super::taking::TakesStatements;
use coll_devices::{LineReader, ReadStop, Source};
use coll_faults::{Fault, RunFault};
use coll_lex::LexFault;
use coll_requests::{DeltaFault, DeltaReader, StatementAt};
use std::alloc::Global;

/// Rewrites a table by a delta file, which is the input with this number: each statement is put to what takes them as soon as it was
/// read whole.
///
/// Nothing behind the end of the category is looked at. The first fault met is the answer, with its line (of a refused block that of
/// its `reorder-after`). A read that fails has line 0, unless the lines read whole before it are at fault already.
pub fn read_delta<R: Source, T: TakesStatements>(
    alloc: Global,
    input: usize,
    taker: &mut T,
    delta: &mut R,
) -> Result<(), RunFault>
    ensures file { ReadsDelta input (T.table taker.old) (T.table taker.new) (R.left delta.old) (R.left delta.new) result }
    ensures reaches { OnOk result ((text : List ℕ) → R.left delta.old ≡ Some text → T.Reaches taker.old (statements_of text) taker.new) }
    ensures input { IfErr result (λ ended. ended.input ≡ input) }
    ensures writes { IfErr result (λ ended. WritesNone ended) }
    ensures reads { CountsDelta (R.failed delta.old) (R.failed delta.new) result }
{
    match DeltaReader::new(alloc) {
        Ok(file) => read_text(alloc, input, taker, file, delta),
        Err(_) => Err(no_memory(input)),
    }
}

// Rewrites a table by the text of a delta file, of which no line was handed in yet.
fn read_text<R: Source, T: TakesStatements>(
    alloc: Global,
    input: usize,
    taker: &mut T,
    file: DeltaReader,
    delta: &mut R,
) -> Result<(), RunFault>
    requires { file ≡ first_delta }
    ensures file { ReadsDelta input (T.table taker.old) (T.table taker.new) (R.left delta.old) (R.left delta.new) result }
    ensures reaches { OnOk result ((text : List ℕ) → R.left delta.old ≡ Some text → T.Reaches taker.old (statements_of text) taker.new) }
    ensures input { IfErr result (λ ended. ended.input ≡ input) }
    ensures writes { IfErr result (λ ended. WritesNone ended) }
    ensures reads { CountsDelta (R.failed delta.old) (R.failed delta.new) result }
{
    match LineReader::new(alloc) {
        Ok(mut reader) => {
            let answer = read_lines(input, taker, file, &mut reader, delta);
            drop(reader);
            answer
        }
        Err(_) => {
            drop(file);
            Err(no_memory(input))
        }
    }
}

// Rewrites a table by the lines of a delta file, of which none was read yet.
fn read_lines<R: Source, T: TakesStatements>(
    input: usize,
    taker: &mut T,
    mut file: DeltaReader,
    reader: &mut LineReader,
    delta: &mut R,
) -> Result<(), RunFault>
    requires file { file ≡ first_delta }
    requires reader { reader.old ≡ no_line }
    ensures file { ReadsDelta input (T.table taker.old) (T.table taker.new) (R.left delta.old) (R.left delta.new) result }
    ensures reaches { OnOk result ((text : List ℕ) → R.left delta.old ≡ Some text → T.Reaches taker.old (statements_of text) taker.new) }
    ensures input { IfErr result (λ ended. ended.input ≡ input) }
    ensures writes { IfErr result (λ ended. WritesNone ended) }
    ensures reads { CountsDelta (R.failed delta.old) (R.failed delta.new) result }
{
    'lines: loop {
        match reader.advance(delta) {
            Ok(true) => {
                if let Err(ended) = take_line(input, taker, &mut file, reader.line()) {
                    drop(file);
                    return Err(ended);
                }
            }
            Ok(false) => return end_file(input, file),
            Err(stop) => {
                let number = file.next_number();
                drop(file);
                return Err(stop_fault(input, number, stop));
            }
        }
        if file.finished() {
            drop(file);
            return Ok(());
        }
    }
}

// Hands a line in, and rewrites the table by the statement that it completes. A line may be at fault behind that statement, and the
// fault is then stored.
fn take_line<T: TakesStatements>(
    input: usize,
    taker: &mut T,
    file: &mut DeltaReader,
    line: &[u8],
) -> Result<(), RunFault>
    ensures ok { OnOk result (line_taken input (T.table taker.old) file.old line.now ≡ Ok (T.table taker.new, file.new)) }
    ensures reaches { OnOk result (LeadsOver T.Reaches taker.old taker.new file.old line.now file.new) }
    ensures err { IfErr result (λ ended. FailsAs (ending_of ended) (line_taken input (T.table taker.old) file.old line.now) ended) }
    ensures number { file.old.fault ≡ None → IfErr result (λ ended. IsFaultNumber file.old line.now ended.line) }
    ensures input { IfErr result (λ ended. ended.input ≡ input) }
{
    match file.line(line) {
        Ok(given) => {
            // Not `?`: behind its conversion this exit would need a lemma.
            if let Err(ended) = put_if(input, taker, given) {
                return Err(ended);
            }
        }
        Err(fault) => return Err(delta_fault(input, fault)),
    }
    match file.fault() {
        Some(fault) => Err(delta_fault(input, fault)),
        None => Ok(()),
    }
}

// Rewrites the table by a statement, if there is one.
#[tactic(auto, unfolding(crate::specs::BatchOutcome::rewritten))]
fn put_if<T: TakesStatements>(
    input: usize,
    taker: &mut T,
    given: Option<StatementAt>,
) -> Result<(), RunFault>
    requires proper { IfSome given (λ at. IsProper at.statement) }
    ensures ok { OnOk result (rewritten input (T.table taker.old) (option_to_list given) ≡ Ok (T.table taker.new)) }
    ensures reaches { OnOk result ((start : T) (before : List StatementAt) → T.Reaches start before taker.old
        → T.Reaches start (before ++ option_to_list given) taker.new) }
    ensures err { IfErr result (λ ended. FailsAs (ending_of ended) (rewritten input (T.table taker.old) (option_to_list given)) ended) }
    ensures number { IfErr result (λ ended. IsNumberOf (option_to_list given) ended.line) }
    ensures input { IfErr result (λ ended. ended.input ≡ input) }
{
    match given {
        Some(at) => taker.put(input, &at),
        None => Ok(()),
    }
}

// Ends a file whose lines were all handed in.
fn end_file(input: usize, file: DeltaReader) -> Result<(), RunFault>
    ensures ok { OnOk result (delta_end file ≡ None) }
    ensures err { IfErr result (λ ended. option_map (delta_fault_in input) (delta_end file) ≡ Some ended) }
{
    match file.finish() {
        Ok(()) => Ok(()),
        Err(fault) => Err(delta_fault(input, fault)),
    }
}

// A fault of a delta file, as that of a run.
fn delta_fault(input: usize, fault: DeltaFault) -> RunFault
    ensures { result ≡ delta_fault_in input fault }
{
    RunFault {
        input,
        line: fault.line,
        fault: Fault::from(fault),
    }
}

// The fault that is answered where the reader stops before the line with this number.
fn stop_fault(input: usize, number: u32, stop: ReadStop) -> RunFault
    ensures { result ≡ stopped_in input number stop }
{
    match stop {
        ReadStop::LineTooLong => RunFault {
            input,
            line: number,
            fault: Fault::Lex(LexFault::LineTooLong),
        },
        ReadStop::ReadFault => RunFault {
            input,
            line: 0,
            fault: Fault::Read(ReadStop::ReadFault),
        },
    }
}

// The fault of an input for which memory was refused before its first line.
fn no_memory(input: usize) -> RunFault
    ensures { result ≡ starved_in input }
{
    RunFault {
        input,
        line: 0,
        fault: Fault::Lex(LexFault::OutOfMemory),
    }
}
