//! The words of an input are sorted, and written.
//!
//! `sort_lines` carries the theorem of a sort (`SortRuns`). All lines are read before the first byte is written, and nothing is
//! written where one is at fault. Words are sorted by the first level of their keys, and those that this doesn't tell apart by the whole
//! keys.

ghost use Rattle.std.specs.Prelude.{◌≡◌, IfErr, IfOk};
ghost use Rattle.coll_nodes.specs.TableLayout.{collation};
ghost use Rattle.coll_bench.specs.Serving.{CountsWrites, ReadsNone};
ghost use Rattle.coll_words.specs.FirstKeys.{AreFirstKeyed};
ghost use Rattle.coll_word_lists.specs.KeyedWords.{texts_of};
ghost use Rattle.coll_words.specs.SortKeys.{Give};
ghost use Rattle.coll_word_lists.specs.SortRuns.{SortRuns, WritesSorted};
ghost use Rattle.coll_word_lists.specs.SortedWords.{AreSorted};
ghost use Rattle.coll_word_lists.specs.WordReading.{CountsReading};

use crate::lent_words::{LentWord, sort_lent_words, write_lent_words};
use crate::sort_keys::SortKeys;
use crate::stored_words::StoredWords;
use crate::tied_words::sort_ties;
use coll_devices::{Sink, Source, WriteStop};
use coll_faults::{Fault, RunFault};
use coll_key::KeyFault;
use coll_table::Table;
use coll_word_lists::{StoredTexts, fault_at, no_memory, read_stored_texts};
use std::alloc::Global;

/// Reads the lines of an input, and writes them in the order of a table, each with a line feed. Lines that compare equal stay in the
/// order in which they came.
///
/// A carriage return at the end is no part of a line. The first line that is too long, one too many, or not UTF-8 is the answer, with
/// its number, and then nothing is written. A read or a write that fails, and lack of memory behind the lines, have line 0; a
/// write that fails leaves a prefix of the output.
pub fn sort_lines<R: Source, W: Sink>(
    alloc: Global,
    table: &Table,
    input: &mut R,
    output: &mut W,
) -> Result<(), RunFault>
    ensures run { SortRuns (collation table.now) (R.left input.old) (R.left input.new) (W.taken output.old) (W.taken output.new) result }
    ensures input { IfErr result (λ ended. ended.input ≡ 0) }
    ensures reads { CountsReading (R.failed input.old) (R.failed input.new) result }
    ensures writes { CountsWrites (W.failed output.old) (W.failed output.new) result }
{
    match read_stored_texts(alloc, input) {
        Ok(texts) => {
            let wrote = sort_texts(alloc, table, &texts, output);
            drop(texts);
            wrote
        }
        Err(ended) => Err(ended),
    }
}

// Sorts the words with these texts, and writes them.
fn sort_texts<W: Sink>(
    alloc: Global,
    table: &Table,
    texts: &StoredTexts,
    output: &mut W,
) -> Result<(), RunFault>
    ensures run { WritesSorted (collation table.now) texts.now (W.taken output.old) (W.taken output.new) result }
    ensures input { IfErr result (λ ended. ended.input ≡ 0) }
    ensures reads { IfErr result (λ ended. ReadsNone ended) }
    ensures writes { CountsWrites (W.failed output.old) (W.failed output.new) result }
{
    match SortKeys::of(alloc, table, texts) {
        Ok(by) => {
            let wrote = sort_by(alloc, table, &by, texts, output);
            drop(by);
            wrote
        }
        Err(_) => Err(no_memory(0)),
    }
}

// The same, by what gives the words their keys.
fn sort_by<W: Sink>(
    alloc: Global,
    table: &Table,
    by: &SortKeys,
    texts: &StoredTexts,
    output: &mut W,
) -> Result<(), RunFault>
    requires { Give table.now by.now }
    ensures run { WritesSorted (collation table.now) texts.now (W.taken output.old) (W.taken output.new) result }
    ensures input { IfErr result (λ ended. ended.input ≡ 0) }
    ensures reads { IfErr result (λ ended. ReadsNone ended) }
    ensures writes { CountsWrites (W.failed output.old) (W.failed output.new) result }
{
    match StoredWords::keyed(alloc, table, by, texts) {
        Ok(words) => {
            let wrote = write_sorted(alloc, table, by, &words, output);
            drop(words);
            wrote
        }
        // For lack of memory: no line is long enough to have a word without a key.
        Err(_) => Err(no_memory(0)),
    }
}

// Sorts words, and writes them.
fn write_sorted<W: Sink>(
    alloc: Global,
    table: &Table,
    by: &SortKeys,
    words: &StoredWords<'_>,
    output: &mut W,
) -> Result<(), RunFault>
    requires by { Give table.now by.now }
    requires keyed { AreFirstKeyed (collation table.now) words.now }
    ensures run { WritesSorted (collation table.now) (texts_of words.now) (W.taken output.old) (W.taken output.new) result }
    ensures input { IfErr result (λ ended. ended.input ≡ 0) }
    ensures reads { IfErr result (λ ended. ReadsNone ended) }
    ensures writes { CountsWrites (W.failed output.old) (W.failed output.new) result }
{
    match sorted(alloc, table, by, words) {
        Ok(lent) => {
            let wrote = write_lent_words(&lent, output);
            drop(lent);
            match wrote {
                Ok(()) => Ok(()),
                Err(_) => Err(fault_at(0, Fault::Write(WriteStop::WriteFault))),
            }
        }
        // For lack of memory: no line is long enough to have a word without a key.
        Err(_) => Err(no_memory(0)),
    }
}

// Lends words in their order.
fn sorted<'a>(
    alloc: Global,
    table: &Table,
    by: &SortKeys,
    words: &'a StoredWords<'_>,
) -> Result<Vec<LentWord<'a>>, KeyFault>
    requires by { Give table.now by.now }
    requires keyed { AreFirstKeyed (collation table.now) words.now }
    ensures { IfOk result (λ lent. AreSorted (collation table.now) (texts_of words.now) (texts_of lent.items)) }
{
    table.lemma_well_formed();
    let mut lent = words.lend(alloc)?;
    sort_lent_words(&mut lent)?;
    sort_ties(alloc, table, by, &mut lent)?;
    Ok(lent)
}
