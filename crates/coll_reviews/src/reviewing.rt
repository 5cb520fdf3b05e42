//! A delta file is reviewed over the words of an input.
//!
//! `review_words` carries the theorem of a review (`ReviewRuns`). The words are read first, then the delta file, statement by
//! statement; what is told is kept in memory, and written once the whole file was put to the table.

ghost use Rattle.std.specs.Prelude.{◌≡◌, ◌≤◌, map, IfErr, IfOk, IfSome};
ghost use Rattle.coll_devices.specs.Devices.{Sends};
ghost use Rattle.coll_nodes.specs.TableLayout.{collation};
ghost use Rattle.coll_bench.specs.BatchReading.{WritesNone, starved_in};
ghost use Rattle.coll_bench.specs.Serving.{CountsWrites, write_failed};
ghost use Rattle.coll_reviews.specs.KeptWords.{kept_line};
ghost use Rattle.coll_reviews.specs.ReviewRuns.{CountsReadingOf, ReviewRuns};
ghost use Rattle.coll_reviews.specs.ReviewSteps.{ListsWordsOf, SortsLines, SortsListed, WritesReview, review_bytes};
ghost use Rattle.coll_word_lists.specs.WordReading.{CountsReading, ReadingFails};

use crate::listed_words::listed;
use crate::numbered_words::{KeptWord, KeyedLine, kept_words, numbered, sort_numbered};
use crate::progress::{Progress, WatchedReview};
use crate::reviews::Review;
use coll_bench::{Fault, RunFault, read_delta};
use coll_devices::{Sink, Source, WriteStop};
use coll_lex::LexFault;
use coll_table::Table;
use coll_word_lists::{Word, read_words};
use std::alloc::Global;

// The number of the delta file among the inputs, the first of which is the table.
const DELTA: usize = 1;

// The number of the words.
const WORDS: usize = 2;

/// Puts the statements of a delta file to a table one by one, and tells of each what it did to the words of an input.
///
/// The words are sorted by the table, and again behind each statement; words that are equal stay in the order of their lines. Of a
/// statement its line in a history is told, how many pairs of neighbours are neighbours no longer, and the first five new pairs; and
/// last how many statements and words there are. The words are read first, as input 2, and the first line at fault is the answer,
/// as for `sort_lines`; then the delta file, as input 1, as a batch reads it. Where either is at fault, a read fails or memory is
/// refused, nothing is written. A write that fails has input 0, and leaves a prefix of the output. `progress` is told behind each
/// statement how many were put.
pub fn review_words<D: Source, R: Source, W: Sink, P: Progress + Drop>(
    alloc: Global,
    table: Table,
    delta: &mut D,
    words: &mut R,
    output: &mut W,
    progress: P,
) -> Result<(), RunFault>
    ensures run { ReviewRuns (collation table) (D.left delta.old) (D.left delta.new) (R.left words.old) (R.left words.new)
        (W.taken output.old) (W.taken output.new) result }
    ensures input { IfErr result (λ ended. ended.input ≤ 2) }
    ensures delta_reads { CountsReadingOf 1 (D.failed delta.old) (D.failed delta.new) result }
    ensures words_reads { CountsReadingOf 2 (R.failed words.old) (R.failed words.new) result }
    ensures writes { CountsWrites (W.failed output.old) (W.failed output.new) result }
{
    match list_words(alloc, &table, words) {
        Ok(kept) => match listed(alloc, &kept) {
            Ok(list) => {
                let review = Review::new(alloc, table, list);
                let mut watched = WatchedReview { review, progress };
                let told = review_delta(alloc, &mut watched, delta, output);
                drop(watched);
                told
            }
            Err(_) => {
                drop(table);
                Err(no_memory())
            }
        },
        Err(ended) => {
            drop(table);
            Err(ended)
        }
    }
}

// Reads the words of an input, and sorts them by a table.
fn list_words<R: Source>(
    alloc: Global,
    table: &Table,
    input: &mut R,
) -> Result<Vec<KeptWord>, RunFault>
    ensures words { IfOk result (λ kept. ListsWordsOf (collation table.now) (R.left input.old) (map kept_line kept.items)) }
    ensures fault { IfErr result (λ ended. ReadingFails (R.left input.old) (R.left input.new) (record ended { input = 0 })) }
    ensures input { IfErr result (λ ended. ended.input ≡ 2) }
    ensures writes { IfErr result (λ ended. WritesNone ended) }
    ensures reads { CountsReading (R.failed input.old) (R.failed input.new) result }
{
    table.lemma_well_formed();
    match read_words(alloc, table, input) {
        Ok(words) => match sorted_list(alloc, words) {
            Some(kept) => Ok(kept),
            None => Err(no_memory()),
        },
        Err(ended) => Err(RunFault {
            input: WORDS,
            line: ended.line,
            fault: ended.fault,
        }),
    }
}

// The texts of words with the numbers of their lines, sorted by their keys; nothing where memory is refused.
fn sorted_list(alloc: Global, words: Vec<Word>) -> Option<Vec<KeptWord>>
    ensures { IfSome result (λ kept. SortsListed words.items (map kept_line kept.items)) }
{
    match numbered(alloc, words) {
        Ok(mut list) => {
            let kept = sorted_words(alloc, &mut list);
            drop(list);
            kept
        }
        Err(_) => None,
    }
}

// The texts of words that are sorted by their keys; nothing where memory is refused.
fn sorted_words(alloc: Global, list: &mut Vec<KeyedLine>) -> Option<Vec<KeptWord>>
    ensures { IfSome result (λ kept. SortsLines list.old.items (map kept_line kept.items)) }
{
    match sort_numbered(list) {
        Ok(()) => match kept_words(alloc, list) {
            Ok(kept) => Some(kept),
            Err(_) => None,
        },
        Err(_) => None,
    }
}

// Puts the statements of a delta file, and writes what is told of them.
fn review_delta<D: Source, W: Sink, P: Progress + Drop>(
    alloc: Global,
    watched: &mut WatchedReview<'_, P>,
    delta: &mut D,
    output: &mut W,
) -> Result<(), RunFault>
    ensures run { WritesReview watched.old.review (D.left delta.old) (D.left delta.new) (W.taken output.old) (W.taken output.new) result }
    ensures input { IfErr result (λ ended. ended.input ≤ 1) }
    ensures reads { CountsReadingOf 1 (D.failed delta.old) (D.failed delta.new) result }
    ensures writes { CountsWrites (W.failed output.old) (W.failed output.new) result }
{
    match read_delta(alloc, DELTA, watched, delta) {
        Ok(()) => write_review(&watched.review, output),
        Err(ended) => Err(ended),
    }
}

// Writes what a review told.
fn write_review<W: Sink>(review: &Review<'_>, output: &mut W) -> Result<(), RunFault>
    ensures sent { Sends (W.taken output.old) (W.taken output.new) (review_bytes review.now) result }
    ensures fault { IfErr result (λ ended. ended ≡ write_failed) }
    ensures writes { CountsWrites (W.failed output.old) (W.failed output.new) result }
{
    match review.write(output) {
        Ok(()) => Ok(()),
        Err(_) => Err(RunFault {
            input: 0,
            line: 0,
            fault: Fault::Write(WriteStop::WriteFault),
        }),
    }
}

// Lack of memory behind the lines of the words.
fn no_memory() -> RunFault
    ensures { result ≡ starved_in 2 }
{
    RunFault {
        input: WORDS,
        line: 0,
        fault: Fault::Lex(LexFault::OutOfMemory),
    }
}
