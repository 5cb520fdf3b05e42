//! Words that tie by what they were sorted by first, sorted by their whole keys.
//!
//! Of words that are sorted by the first level alone few stand beside one that it doesn't tell apart. Of these the whole keys are made,
//! those of one run after another, and given up behind it. Words with one and the same text need none.
//!
//! The simple form is to sort all words by whole keys, as `sorted_run` sorts those of one run; both have the clause `AreSorted`.

ghost use Rattle.std.specs.Prelude.{◌≡◌, ◌≢◌, ◌<◌, ◌≤◌, ◌-◌, ◌⊎◌, chars, length, true, slice_index_or, IfOk, IfErr, OnOk};
ghost use Rattle.std.specs.List.Sorted.{IsSortedBy};
ghost use Rattle.std.specs.Str.{IsUtf8};
ghost use Rattle.coll_nodes.specs.TableLayout.{collation};
ghost use Rattle.coll_word_lists.specs.KeyedWords.{AreKeyed, has_less_key, texts_of};
ghost use Rattle.coll_words.specs.LentWords.{AreLedFirst};
ghost use Rattle.coll_words.specs.SortKeys.{Give};
ghost use Rattle.coll_word_lists.specs.SortedWords.{AreSorted};
ghost use Rattle.coll_words.specs.TiedWords.{AreAlike, EndsRun};

use crate::lent_words::LentWord;
use crate::sort_keys::SortKeys;
use coll_key::KeyFault;
use coll_table::Table;
use coll_word_lists::{packed_key, text_of};
use std::alloc::Global;
use std::marker::Model;

/// A text with its whole key.
#[derive(Drop)]
struct TiedWord<'a> {
    // The text, in UTF-8.
    text: &'a [u8],
    // The key, packed.
    key: Vec<u32>,
}

impl<'a> Model for TiedWord<'a> {
    ghost use Rattle.std.specs.Prelude.{chars};
    ghost use Rattle.std.specs.Str.{IsUtf8};
    ghost use Rattle.coll_word_lists.specs.KeyedWords.{KeyedWord};

    ghost Value = { KeyedWord };

    ghost view = { λ w. record { text = chars w.text.now; key = w.key.items } };

    ghost invariant = { λ w. IsUtf8 w.text.now };
}

impl<'a> TiedWord<'a> {
    ghost use Rattle.coll_word_lists.specs.KeyedWords.{IsKeyed};

    // A text with its key by a table, in new memory.
    fn new(
        alloc: Global,
        table: &Table,
        by: &SortKeys,
        text: &'a [u8],
    ) -> Result<TiedWord<'a>, KeyFault>
        requires by { Give table.now by.now }
        requires utf8 { IsUtf8 text.now }
        ensures text { IfOk result (λ word. word.text ≡ chars text.now) }
        ensures key { IfOk result (λ word. IsKeyed (collation table.now) word) }
    {
        let numbers = by.key(alloc, table, text_of(text))?;
        let key = packed_key(alloc, &numbers)?;
        Ok(TiedWord { text, key })
    }
}

/// Sorts words, which are sorted by what they are sorted by first, by a table.
///
/// The keys must be by the table as it stands.
pub(crate) fn sort_ties(
    alloc: Global,
    table: &Table,
    by: &SortKeys,
    words: &mut [LentWord<'_>],
) -> Result<(), KeyFault>
    requires by { Give table.now by.now }
    requires led { AreLedFirst (collation table.now) words.old }
    requires sorted { IsSortedBy has_less_key words.old }
    ensures { OnOk result (AreSorted (collation table.now) (texts_of words.old) (texts_of words.new)) }
{
    table.lemma_well_formed();
    let mut start = 0;
    'runs: while start < words.len() {
        let end = run_end(words, start);
        // Not `?`: behind its conversion this exit would need a lemma.
        if let Err(fault) = sort_run(alloc, table, by, &mut words[start..end]) {
            return Err(fault);
        }
        start = end;
    }
    Ok(())
}

// Where a run of words ends that begins at a place: where the next word has a greater key.
fn run_end(words: &[LentWord<'_>], start: usize) -> usize
    requires { start < length words.now }
    ensures behind { start < result }
    ensures within { result ≤ length words.now }
    ensures ends { EndsRun words.now result }
{
    let mut end = start + 1;
    'words: while end < words.len() {
        if words[end - 1].order(&words[end]).is_lt() {
            return end;
        }
        end += 1;
    }
    end
}

// Sorts the words of a run by a table.
fn sort_run(
    alloc: Global,
    table: &Table,
    by: &SortKeys,
    run: &mut [LentWord<'_>],
) -> Result<(), KeyFault>
    requires { Give table.now by.now }
    ensures { OnOk result (AreSorted (collation table.now) (texts_of run.old) (texts_of run.new)) }
{
    table.lemma_well_formed();
    if are_same(run) {
        return Ok(());
    }
    match sorted_run(alloc, table, by, run) {
        Ok(tied) => {
            put_texts(run, &tied);
            drop(tied);
            Ok(())
        }
        Err(fault) => Err(fault),
    }
}

// Whether all words have the same text.
fn are_same(words: &[LentWord<'_>]) -> bool
    ensures { result ≡ true → AreAlike (texts_of words.now) }
{
    let mut place = 1;
    'words: while place < words.len() {
        if words[place - 1].text() != words[place].text() {
            return false;
        }
        place += 1;
    }
    true
}

// The texts of words, with their keys by a table, sorted by these. Those with equal keys keep their order.
fn sorted_run<'a>(
    alloc: Global,
    table: &Table,
    by: &SortKeys,
    run: &[LentWord<'a>],
) -> Result<Vec<TiedWord<'a>>, KeyFault>
    requires { Give table.now by.now }
    ensures { IfOk result (λ tied. AreSorted (collation table.now) (texts_of run.now) (texts_of tied.items)) }
{
    table.lemma_well_formed();
    let mut tied = tied_words(alloc, table, by, run)?;
    tied.sort_by(|word, other| word.key.cmp(&other.key))?;
    Ok(tied)
}

// The texts of words, with their keys by a table.
fn tied_words<'a>(
    alloc: Global,
    table: &Table,
    by: &SortKeys,
    run: &[LentWord<'a>],
) -> Result<Vec<TiedWord<'a>>, KeyFault>
    requires { Give table.now by.now }
    ensures texts { IfOk result (λ tied. texts_of tied.items ≡ texts_of run.now) }
    ensures keyed { IfOk result (λ tied. AreKeyed (collation table.now) tied.items) }
{
    let mut tied = Vec::with_capacity(alloc, run.len())?;
    for word in run {
        let word = TiedWord::new(alloc, table, by, word.text())?;
        tied.push(word)?;
    }
    Ok(tied)
}

// Gives words the texts of others, in their order.
fn put_texts<'a>(words: &mut [LentWord<'a>], tied: &[TiedWord<'a>])
    requires { length words.old ≡ length tied.now }
    ensures { texts_of words.new ≡ texts_of tied.now }
{
    let mut place = 0;
    for word in words.iter_mut() {
        let other = &tied[place];
        word.put_text(other.text);
        place += 1;
    }
}
