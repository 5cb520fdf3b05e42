//! Words that are read before it is known what their keys are made by.
//!
//! Where words are few beside the table, or have few characters, their keys are made by the places of its entries alone, and no ranks
//! of the whole table are made; but that is known only once all are read. So they are read here without keys, as `reading` reads them
//! with keys, and each gets its key afterwards. Where the texts are put is told by `taking_texts`.

ghost use Rattle.std.specs.Prelude.{◌≡◌, ◌≤◌, ◌+◌, ◌++◌, ◌∷◌, [], chars, length, false, IfOk, IfErr, OnOk};
ghost use Rattle.coll_devices.specs.LineReading.{no_line};
ghost use Rattle.coll_devices.specs.Limits.{most_line_bytes};
ghost use Rattle.coll_lex.specs.Limits.{most_lines};
ghost use Rattle.coll_key.specs.KeyLimits.{is_too_long};
ghost use Rattle.coll_bench.specs.BatchReading.{FailsAs, WritesNone};
ghost use Rattle.coll_bench.specs.BatchRuns.{ending_of};
ghost use Rattle.coll_word_lists.specs.WordReading.{CountsReading, ReadingFails};
ghost use Rattle.coll_word_lists.specs.WordTexts.{AreTextsOf, TakesText};
ghost use Rattle.coll_word_lists.specs.Words.{line_word, unless_long};

use crate::reading::{fault_at, next_number, no_memory, stop_fault};
use crate::stored_texts::StoredTexts;
use crate::taking_texts::TakesTexts;
use crate::words::Word;
use coll_devices::{LineReader, Source, without_return};
use coll_faults::{Fault, RunFault};
use coll_key::{EntryNumbers, KeyFault, is_too_long, key_of_text};
use coll_lex::{LexFault, MOST_LINES, TextBuf};
use coll_table::Table;
use std::alloc::{AllocError, Global};
use std::str;

impl Word {
    ghost use Rattle.std.specs.Prelude.{◌≢◌, true};
    ghost use Rattle.coll_nodes.specs.NodeNumbers.{AreNumbersOf};
    ghost use Rattle.coll_nodes.specs.TableLayout.{collation};
    ghost use Rattle.coll_key.specs.declared.key_faults.KeyFault.TheVariants.{OutOfMemory};
    ghost use Rattle.coll_word_lists.specs.KeyedWords.{IsKeyed};

    /// The word of a text, with its key by a table whose entries are numbered, in new memory: the same as `Word::new` makes.
    ///
    /// The numbers must be those of the table as it stands. For many words, ranks serve better.
    pub fn by_numbers(
        alloc: Global,
        table: &Table,
        numbers: &EntryNumbers,
        text: &str,
    ) -> Result<Word, KeyFault>
        requires { AreNumbersOf numbers.now table.now.layout }
        ensures text { IfOk result (λ word. word.text ≡ chars text.now) }
        ensures key { IfOk result (λ word. IsKeyed (collation table.now) word) }
        ensures short { IfOk result (λ _. is_too_long (chars text.now) ≡ false) }
        ensures err { IfErr result (λ fault. fault ≢ OutOfMemory → is_too_long (chars text.now) ≡ true) }
    {
        let key = key_of_text(alloc, table, numbers, text)?;
        let word = Word::with_key(alloc, &key, text)?;
        Ok(word)
    }
}

/// Reads the words of an input, one a line, without keys.
///
/// The first line at fault is the answer, with its number, as where `read_words` reads them. A read that fails has line 0, unless a
/// line read whole before it is at fault. Memory is refused with the number of a line, or with 0 before the first.
pub fn read_texts<R: Source>(alloc: Global, input: &mut R) -> Result<Vec<TextBuf>, RunFault>
    ensures texts { IfOk result (λ texts. AreTextsOf (R.left input.old) texts.items) }
    ensures fault { IfErr result (λ ended. ReadingFails (R.left input.old) (R.left input.new) ended) }
    ensures input { IfErr result (λ ended. ended.input ≡ 0) }
    ensures writes { IfErr result (λ ended. WritesNone ended) }
    ensures reads { CountsReading (R.failed input.old) (R.failed input.new) result }
{
    let mut texts = Vec::new(alloc);
    match read_into(alloc, input, &mut texts) {
        Ok(()) => Ok(texts),
        Err(ended) => {
            drop(texts);
            Err(ended)
        }
    }
}

/// Reads the words of an input, in the same way, into a store of them all.
pub fn read_stored_texts<R: Source>(alloc: Global, input: &mut R) -> Result<StoredTexts, RunFault>
    ensures texts { IfOk result (λ texts. AreTextsOf (R.left input.old) texts) }
    ensures fault { IfErr result (λ ended. ReadingFails (R.left input.old) (R.left input.new) ended) }
    ensures input { IfErr result (λ ended. ended.input ≡ 0) }
    ensures writes { IfErr result (λ ended. WritesNone ended) }
    ensures reads { CountsReading (R.failed input.old) (R.failed input.new) result }
{
    let mut texts = StoredTexts::new(alloc);
    match read_into(alloc, input, &mut texts) {
        Ok(()) => Ok(texts),
        Err(ended) => {
            drop(texts);
            Err(ended)
        }
    }
}

// Reads the words of an input, and puts their texts where there are none.
fn read_into<R: Source, L: TakesTexts>(
    alloc: Global,
    input: &mut R,
    texts: &mut L,
) -> Result<(), RunFault>
    requires { L.texts texts.old ≡ [] }
    ensures texts { OnOk result (AreTextsOf (R.left input.old) (L.texts texts.new)) }
    ensures fault { IfErr result (λ ended. ReadingFails (R.left input.old) (R.left input.new) ended) }
    ensures input { IfErr result (λ ended. ended.input ≡ 0) }
    ensures writes { IfErr result (λ ended. WritesNone ended) }
    ensures reads { CountsReading (R.failed input.old) (R.failed input.new) result }
{
    match LineReader::new(alloc) {
        Ok(mut reader) => {
            let read = read_lines(alloc, &mut reader, input, texts);
            drop(reader);
            read
        }
        Err(_) => Err(no_memory(0)),
    }
}

// Reads the lines of an input, of which none was read yet, and puts the text of each where there are none.
fn read_lines<R: Source, L: TakesTexts>(
    alloc: Global,
    reader: &mut LineReader,
    input: &mut R,
    texts: &mut L,
) -> Result<(), RunFault>
    requires reader { reader.old ≡ no_line }
    requires none { L.texts texts.old ≡ [] }
    ensures texts { OnOk result (AreTextsOf (R.left input.old) (L.texts texts.new)) }
    ensures fault { IfErr result (λ ended. ReadingFails (R.left input.old) (R.left input.new) ended) }
    ensures input { IfErr result (λ ended. ended.input ≡ 0) }
    ensures writes { IfErr result (λ ended. WritesNone ended) }
    ensures reads { CountsReading (R.failed input.old) (R.failed input.new) result }
{
    'lines: loop {
        match reader.advance(input) {
            Ok(true) => {
                // Not `?`: behind its conversion this exit would need a lemma.
                if let Err(ended) = take_line(alloc, reader.line(), texts) {
                    return Err(ended);
                }
            }
            Ok(false) => return Ok(()),
            Err(stop) => return Err(stop_fault(next_number(texts.count()), stop)),
        }
    }
}

// Puts the text of a line behind those of the lines before it.
fn take_line<L: TakesTexts>(alloc: Global, line: &[u8], texts: &mut L) -> Result<(), RunFault>
    requires short { length line.now ≤ most_line_bytes }
    requires few { length (L.texts texts.old) ≤ most_lines }
    ensures ok { OnOk result (TakesText (L.texts texts.old) line.now (L.texts texts.new)) }
    ensures room { OnOk result (length (L.texts texts.new) ≤ most_lines) }
    ensures err { IfErr result (λ ended. FailsAs (ending_of ended) (line_word (length (L.texts texts.old)) line.now) ended) }
    ensures number { IfErr result (λ ended. ended.line ≡ length (L.texts texts.old) + 1) }
    ensures input { IfErr result (λ ended. ended.input ≡ 0) }
{
    let number = next_number(texts.count());
    if number > MOST_LINES {
        return Err(fault_at(number, Fault::Lex(LexFault::TooManyLines)));
    }
    match str::from_utf8(without_return(line)) {
        Ok(text) => put_text(alloc, number, text, texts),
        Err(_) => Err(fault_at(number, Fault::Lex(LexFault::NotUtf8))),
    }
}

// Puts a text behind others, that of the line with this number, unless it is too long to have a key.
fn put_text<L: TakesTexts>(
    alloc: Global,
    number: u32,
    text: &str,
    texts: &mut L,
) -> Result<(), RunFault>
    ensures ok { OnOk result (L.texts texts.new ≡ L.texts texts.old ++ chars text.now ∷ []) }
    ensures short { OnOk result (is_too_long (chars text.now) ≡ false) }
    ensures err { IfErr result (λ ended. FailsAs (ending_of ended) (unless_long number (chars text.now)) ended) }
    ensures number { IfErr result (λ ended. ended.line ≡ number) }
    ensures input { IfErr result (λ ended. ended.input ≡ 0) }
{
    if is_too_long(text) {
        return Err(fault_at(number, Fault::Key(KeyFault::TextTooLong)));
    }
    match texts.put(alloc, text) {
        Ok(()) => Ok(()),
        Err(_) => Err(no_memory(number)),
    }
}

impl TakesTexts for Vec<TextBuf> {
    ghost texts = { λ texts. texts.items };

    fn count(&self) -> usize {
        self.len()
    }

    fn put(&mut self, alloc: Global, text: &str) -> Result<(), AllocError> {
        let copy = TextBuf::copied(alloc, text)?;
        self.push(copy)?;
        Ok(())
    }
}
