//! The words of an input are read, each with its key.
//!
//! The lines are cut as everywhere; the first that is too long, one too many, or not UTF-8 is the answer, and then no word is handed
//! out.

ghost use Rattle.std.specs.Prelude.{◌≡◌, ◌≤◌, ◌+◌, [], chars, false, length, IfOk, IfErr, OnOk};
ghost use Rattle.coll_devices.specs.LineReading.{no_line};
ghost use Rattle.coll_devices.specs.Limits.{most_line_bytes};
ghost use Rattle.coll_lex.specs.Limits.{most_lines};
ghost use Rattle.coll_nodes.specs.TableLayout.{collation};
ghost use Rattle.coll_ranks.specs.Ranks.{AreRanksOf};
ghost use Rattle.coll_key.specs.KeyLimits.{is_too_long};
ghost use Rattle.coll_bench.specs.BatchOutcome.{fault_in};
ghost use Rattle.coll_bench.specs.BatchReading.{FailsAs, WritesNone, stopped_in};
ghost use Rattle.coll_bench.specs.BatchRuns.{ending_of};
ghost use Rattle.coll_word_lists.specs.KeyedWords.{AreKeyed};
ghost use Rattle.coll_faults.specs.declared.faults.Fault.TheVariants.{Lex};
ghost use Rattle.coll_lex.specs.declared.faults.LexFault.TheVariants.{OutOfMemory};
ghost use Rattle.coll_word_lists.specs.WordReading.{AreWordsOf, ReadingFails, CountsReading, PutsWord, TakesLine, word_key};
ghost use Rattle.coll_word_lists.specs.Words.{line_word, unless_long};

use crate::words::Word;
use coll_devices::{LineReader, ReadStop, Source, without_return};
use coll_faults::{Fault, RunFault};
use coll_key::Ranks;
use coll_lex::{LexFault, MOST_LINES};
use coll_table::Table;
use std::alloc::Global;
use std::str;

/// Reads the words of an input, one a line, each with its key by a table.
///
/// The first line at fault is the answer, with its number. A read that fails has line 0, unless a line read whole before it is at
/// fault. Memory is refused with the number of a line, or with 0 before the first.
pub fn read_words<R: Source>(
    alloc: Global,
    table: &Table,
    input: &mut R,
) -> Result<Vec<Word>, RunFault>
    ensures words { IfOk result (λ words. AreWordsOf (R.left input.old) words.items) }
    ensures fault { IfErr result (λ ended. ReadingFails (R.left input.old) (R.left input.new) ended) }
    ensures keyed { IfOk result (λ words. AreKeyed (collation table.now) words.items) }
    ensures input { IfErr result (λ ended. ended.input ≡ 0) }
    ensures writes { IfErr result (λ ended. WritesNone ended) }
    ensures reads { CountsReading (R.failed input.old) (R.failed input.new) result }
{
    match Ranks::new(alloc, table) {
        Ok(ranks) => {
            let read = read_by_ranks(alloc, table, &ranks, input);
            drop(ranks);
            read
        }
        Err(_) => Err(no_memory(0)),
    }
}

// Reads the words of an input, by the ranks of the table.
fn read_by_ranks<R: Source>(
    alloc: Global,
    table: &Table,
    ranks: &Ranks,
    input: &mut R,
) -> Result<Vec<Word>, RunFault>
    requires { AreRanksOf ranks.now (collation table.now) }
    ensures words { IfOk result (λ words. AreWordsOf (R.left input.old) words.items) }
    ensures fault { IfErr result (λ ended. ReadingFails (R.left input.old) (R.left input.new) ended) }
    ensures keyed { IfOk result (λ words. AreKeyed (collation table.now) words.items) }
    ensures input { IfErr result (λ ended. ended.input ≡ 0) }
    ensures writes { IfErr result (λ ended. WritesNone ended) }
    ensures reads { CountsReading (R.failed input.old) (R.failed input.new) result }
{
    match LineReader::new(alloc) {
        Ok(mut reader) => {
            let mut words = Vec::new(alloc);
            let read = read_lines(alloc, table, ranks, &mut reader, input, &mut words);
            drop(reader);
            match read {
                Ok(()) => Ok(words),
                Err(ended) => {
                    drop(words);
                    Err(ended)
                }
            }
        }
        Err(_) => Err(no_memory(0)),
    }
}

// Reads the lines of an input, of which none was read yet, and puts the word of each where there are none.
fn read_lines<R: Source>(
    alloc: Global,
    table: &Table,
    ranks: &Ranks,
    reader: &mut LineReader,
    input: &mut R,
    words: &mut Vec<Word>,
) -> Result<(), RunFault>
    requires ranks { AreRanksOf ranks.now (collation table.now) }
    requires reader { reader.old ≡ no_line }
    requires none { words.old.items ≡ [] }
    ensures words { OnOk result (AreWordsOf (R.left input.old) words.new.items) }
    ensures fault { IfErr result (λ ended. ReadingFails (R.left input.old) (R.left input.new) ended) }
    ensures keyed { OnOk result (AreKeyed (collation table.now) words.new.items) }
    ensures input { IfErr result (λ ended. ended.input ≡ 0) }
    ensures writes { IfErr result (λ ended. WritesNone ended) }
    ensures reads { CountsReading (R.failed input.old) (R.failed input.new) result }
{
    'lines: loop {
        match reader.advance(input) {
            Ok(true) => {
                // Not `?`: behind its conversion this exit would need a lemma.
                if let Err(ended) = take_line(alloc, table, ranks, reader.line(), words) {
                    return Err(ended);
                }
            }
            Ok(false) => return Ok(()),
            Err(stop) => return Err(stop_fault(next_number(words.len()), stop)),
        }
    }
}

// Puts the word of a line behind those of the lines before it.
fn take_line(
    alloc: Global,
    table: &Table,
    ranks: &Ranks,
    line: &[u8],
    words: &mut Vec<Word>,
) -> Result<(), RunFault>
    requires ranks { AreRanksOf ranks.now (collation table.now) }
    requires short { length line.now ≤ most_line_bytes }
    requires few { length words.old.items ≤ most_lines }
    ensures ok { OnOk result (TakesLine (word_key (collation table.now)) words.old.items line.now words.new.items) }
    ensures room { OnOk result (length words.new.items ≤ most_lines) }
    ensures err { IfErr result (λ ended. FailsAs (ending_of ended) (line_word (length words.old.items) line.now) ended) }
    ensures number { IfErr result (λ ended. ended.line ≡ length words.old.items + 1) }
    ensures input { IfErr result (λ ended. ended.input ≡ 0) }
{
    let number = next_number(words.len());
    if number > MOST_LINES {
        return Err(fault_at(number, Fault::Lex(LexFault::TooManyLines)));
    }
    match str::from_utf8(without_return(line)) {
        Ok(text) => put_word(alloc, table, ranks, number, text, words),
        Err(_) => Err(fault_at(number, Fault::Lex(LexFault::NotUtf8))),
    }
}

// Puts a word behind others, that of the line with this number, with its key by a table.
fn put_word(
    alloc: Global,
    table: &Table,
    ranks: &Ranks,
    number: u32,
    text: &str,
    words: &mut Vec<Word>,
) -> Result<(), RunFault>
    requires { AreRanksOf ranks.now (collation table.now) }
    ensures ok { OnOk result (PutsWord (word_key (collation table.now)) words.old.items (chars text.now) words.new.items) }
    ensures short { OnOk result (is_too_long (chars text.now) ≡ false) }
    ensures err { IfErr result (λ ended. FailsAs (ending_of ended) (unless_long number (chars text.now)) ended) }
    ensures number { IfErr result (λ ended. ended.line ≡ number) }
    ensures input { IfErr result (λ ended. ended.input ≡ 0) }
{
    match Word::new(alloc, table, ranks, text) {
        Ok(word) => match words.push(word) {
            Ok(()) => Ok(()),
            Err(_) => Err(no_memory(number)),
        },
        Err(fault) => Err(fault_at(number, Fault::Key(fault))),
    }
}

/// The number of the line behind this many.
pub(crate) fn next_number(words: usize) -> u32
    requires { words ≤ most_lines }
    ensures { result ≡ words + 1 }
{
    words as u32 + 1
}

/// The fault that is answered where the reader stops before the line with this number.
pub(crate) fn stop_fault(number: u32, stop: ReadStop) -> RunFault
    ensures { result ≡ stopped_in 0 number stop }
{
    match stop {
        ReadStop::LineTooLong => fault_at(number, Fault::Lex(LexFault::LineTooLong)),
        ReadStop::ReadFault => fault_at(0, Fault::Read(ReadStop::ReadFault)),
    }
}

/// Lack of memory at the line with this number, or at none.
pub fn no_memory(number: u32) -> RunFault
    ensures { result ≡ fault_in 0 number (Lex OutOfMemory) }
{
    fault_at(number, Fault::Lex(LexFault::OutOfMemory))
}

/// A fault at the line with this number, or at none.
pub fn fault_at(line: u32, fault: Fault) -> RunFault
    ensures { result ≡ fault_in 0 line fault }
{
    RunFault {
        input: 0,
        line,
        fault,
    }
}
