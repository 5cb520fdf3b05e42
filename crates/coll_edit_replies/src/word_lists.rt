//! A list of words in the order now, those marked whose neighbours the last statement changed.
//!
//! `write_words` carries what is said of it (`ListsWords`). The words are put in order by the table before the last statement that
//! remains, and each is told which words stand beside it; then they are put in order by the table now, and a word is marked where
//! others stand beside it. Where no statement remains both tables are the same, and so are both orders: the words are put in order
//! once. Words that compare equal stay in the order of their lines, in both orders. What their keys are made by is told by `word_keys`,
//! and what is kept beside a word by `ToldLists`.

ghost use Rattle.std.specs.Prelude.{◌≡◌, ◌++◌, ◌∷◌, [], chars, drop, length, IfErr, IfOk, OnOk};
ghost use Rattle.std.specs.List.Sorted.{IsPermutation, IsSorted};
ghost use Rattle.coll_devices.specs.Devices.{Sends, Writes};
ghost use Rattle.coll_devices.specs.PhysicalLines.{line_feed};
ghost use Rattle.coll_nodes.specs.Table.{Collation};
ghost use Rattle.coll_nodes.specs.TableLayout.{collation};
ghost use Rattle.coll_history.specs.Histories.{table_now};
ghost use Rattle.coll_bench.specs.Serving.{block_of, history_of, lexer_of, write_failed as failed_write};
ghost use Rattle.coll_word_lists.specs.NumberedWords.{line_order, numbered_from};
ghost use Rattle.coll_edit_replies.specs.ToldLists.{AreKeyedLines, AreLinesOf, AreListedBy, IsSortedAnew, IsToldFrom, ListsAnew, ListsWordsOf, PutsWord};
ghost use Rattle.coll_edit_replies.specs.ToldLists.{all_numbered, has_others, list_bytes, marked_lines, told, without_keys};
ghost use Rattle.coll_edit_replies.specs.WordKeys.{Serves};
ghost use Rattle.coll_edit_replies.specs.WordLists.{IsStarved, ListingFails, ListsWords, first_line, mark, table_before};

use crate::replies::write_count;
use crate::word_keys::{WordKeys, are_few, looks_for};
use coll_bench::{Fault, RunFault, RunState, write_failed};
use coll_devices::{Sink, Source, WriteStop};
use coll_key::KeyFault;
use coll_lex::{LexFault, TextBuf};
use coll_table::Table;
use coll_texts::{Piece, write_pieces};
use coll_word_lists::{Word, read_texts};
use std::alloc::{AllocError, Global};

// A word of a list.
#[derive(Drop)]
struct ListedWord {
    // The number of its line, from 1.
    line: usize,
    // The line of the word that stood before it, or 0.
    before: usize,
    // The line of the word that stood behind it, or 0.
    behind: usize,
    // The word, with its key.
    word: Word,
}

/// Writes the words of an input in the order now, each behind a mark where the last statement changed what stands beside it, and how
/// many they are, and flushes them. Where a line is at fault, a read fails or memory is refused, nothing is written.
pub fn write_words<R: Source, W: Sink>(
    alloc: Global,
    run: &mut RunState,
    input: &mut R,
    out: &mut W,
) -> Result<(), RunFault>
    ensures listed { ListsWords (history_of run.old) (R.left input.old) (R.left input.new) (W.taken out.old) (W.taken out.new) result }
    ensures history { history_of run.new ≡ history_of run.old }
    ensures block { block_of run.new ≡ block_of run.old }
    ensures parser { lexer_of run.new ≡ lexer_of run.old }
{
    match list_words(alloc, run, input) {
        Ok(list) => {
            let wrote = write_list(out, &list);
            drop(list);
            wrote
        }
        Err(ended) => Err(ended),
    }
}

// The words of an input in the order now, each with what stood beside it before the last statement.
fn list_words<R: Source>(
    alloc: Global,
    run: &mut RunState,
    input: &mut R,
) -> Result<Vec<ListedWord>, RunFault>
    ensures words { IfOk result (λ list. ListsWordsOf (history_of run.old) (R.left input.old) list.items) }
    ensures fault { IfErr result (λ ended. ListingFails (R.left input.old) (R.left input.new) ended) }
    ensures history { history_of run.new ≡ history_of run.old }
    ensures block { block_of run.new ≡ block_of run.old }
    ensures parser { lexer_of run.new ≡ lexer_of run.old }
{
    // Where no statement remains, the table now is that before it.
    let changed = run.session().remaining_len() != 0;
    match read_before(alloc, run, input) {
        Ok(list) => list_anew(alloc, run, changed, list),
        Err(ended) => Err(ended),
    }
}

// The words of an input, with keys by the table before the last statement that remains, if one does.
fn read_before<R: Source>(
    alloc: Global,
    run: &mut RunState,
    input: &mut R,
) -> Result<Vec<ListedWord>, RunFault>
    ensures lines { IfOk result (λ list. AreLinesOf (R.left input.old) list.items) }
    ensures keyed { IfOk result (λ list. AreListedBy (table_before (history_of run.old)) list.items) }
    ensures fault { IfErr result (λ ended. ListingFails (R.left input.old) (R.left input.new) ended) }
    ensures history { history_of run.new ≡ history_of run.old }
    ensures block { block_of run.new ≡ block_of run.old }
    ensures parser { lexer_of run.new ≡ lexer_of run.old }
{
    match run.undo() {
        Ok(_) => {
            let read = read_keyed(alloc, run, input);
            let _ = run.redo();
            read
        }
        Err(_) => read_keyed(alloc, run, input),
    }
}

// The words of an input, with keys by the table of a session.
fn read_keyed<R: Source>(
    alloc: Global,
    run: &mut RunState,
    input: &mut R,
) -> Result<Vec<ListedWord>, RunFault>
    ensures lines { IfOk result (λ list. AreLinesOf (R.left input.old) list.items) }
    ensures keyed { IfOk result (λ list. AreListedBy (table_now (history_of run.old)) list.items) }
    ensures fault { IfErr result (λ ended. ListingFails (R.left input.old) (R.left input.new) ended) }
    ensures unchanged { run.new ≡ run.old }
{
    match read_texts(alloc, input) {
        Ok(texts) => {
            let looks = looks_for_texts(&texts);
            match make_ready(run, looks) {
                Ok(()) => keyed_by(alloc, run, looks, texts),
                Err(_) => {
                    drop(texts);
                    Err(no_memory(0))
                }
            }
        }
        Err(ended) => Err(ended),
    }
}

// Gives the entries of a session's table their places, where keys are looked up for so many characters by them.
fn make_ready(run: &mut RunState, looks: usize) -> Result<(), AllocError>
    ensures { run.new ≡ run.old }
{
    if !are_few(run.session().table(), looks) {
        return Ok(());
    }
    run.give_places(looks)
}

// Texts as words with keys by the table of a session, whose entries have their places where that serves.
fn keyed_by(
    alloc: Global,
    run: &RunState,
    looks: usize,
    texts: Vec<TextBuf>,
) -> Result<Vec<ListedWord>, RunFault>
    ensures lines { IfOk result (λ list. all_numbered list.items ≡ numbered_from 1 texts.items) }
    ensures keyed { IfOk result (λ list. AreListedBy (table_now (history_of run.now)) list.items) }
    ensures fault { IfErr result (λ ended. IsStarved ended) }
{
    let table = run.session().table();
    match WordKeys::new(alloc, table, run.places(), looks) {
        Ok(keys) => {
            let list = listed(alloc, table, &keys, texts);
            drop(keys);
            list
        }
        Err(_) => {
            drop(texts);
            Err(no_memory(0))
        }
    }
}

// How many characters the keys of texts are looked up for.
fn looks_for_texts(texts: &[TextBuf]) -> usize {
    let mut looks = 0usize;
    for text in texts {
        looks = looks.saturating_add(looks_for(text.get()));
    }
    looks
}

// Texts as words with the numbers of their lines, from 1.
fn listed(
    alloc: Global,
    table: &Table,
    keys: &WordKeys<'_>,
    texts: Vec<TextBuf>,
) -> Result<Vec<ListedWord>, RunFault>
    requires { Serves keys.now table.now }
    ensures lines { IfOk result (λ list. all_numbered list.items ≡ numbered_from 1 texts.items) }
    ensures keyed { IfOk result (λ list. AreListedBy (collation table.now) list.items) }
    ensures fault { IfErr result (λ ended. IsStarved ended) }
{
    table.lemma_well_formed();
    let mut list = Vec::new(alloc);
    for text in texts {
        let put = put_word(alloc, table, keys, text.get(), &mut list);
        drop(text);
        if let Err(ended) = put {
            return Err(ended);
        }
    }
    Ok(list)
}

// Puts the word of a line behind those of the lines before it. It has a key, unless memory is refused: no line is long enough to have
// a word without one.
fn put_word(
    alloc: Global,
    table: &Table,
    keys: &WordKeys<'_>,
    text: &str,
    list: &mut Vec<ListedWord>,
) -> Result<(), RunFault>
    requires { Serves keys.now table.now }
    ensures put { OnOk result (PutsWord (collation table.now) (chars text.now) list.old.items list.new.items) }
    ensures fault { IfErr result (λ ended. IsStarved ended) }
{
    let line = list.len() + 1;
    match keys.word(alloc, table, text) {
        Ok(word) => {
            let listed = ListedWord {
                line,
                before: 0,
                behind: 0,
                word,
            };
            match list.push(listed) {
                Ok(()) => Ok(()),
                Err(_) => Err(no_memory(line)),
            }
        }
        Err(_) => Err(no_memory(line)),
    }
}

// Words with keys by the table before, in the order now, each with what stood beside it before. Both tables are the same unless a
// statement has changed one.
fn list_anew(
    alloc: Global,
    run: &mut RunState,
    changed: bool,
    words: Vec<ListedWord>,
) -> Result<Vec<ListedWord>, RunFault>
    ensures listed { IfOk result (λ list. ListsAnew (table_now (history_of run.old)) changed words.items list.items) }
    ensures fault { IfErr result (λ ended. IsStarved ended) }
    ensures unchanged { run.new ≡ run.old }
{
    let mut list = words;
    match sort_both(alloc, run, changed, &mut list) {
        Ok(()) => Ok(list),
        // For lack of memory: each word has a key.
        Err(_) => {
            drop(list);
            Err(no_memory(0))
        }
    }
}

// Sorts a list with keys by the table before, tells its words what stands beside them, and sorts it anew where the table has changed.
fn sort_both(
    alloc: Global,
    run: &mut RunState,
    changed: bool,
    list: &mut Vec<ListedWord>,
) -> Result<(), KeyFault>
    ensures listed { OnOk result (ListsAnew (table_now (history_of run.old)) changed list.old.items list.new.items) }
    ensures unchanged { run.new ≡ run.old }
{
    sort_told(list)?;
    if !changed {
        return Ok(());
    }
    let looks = looks_for_words(list);
    make_ready(run, looks)?;
    sort_anew(alloc, run, looks, list)
}

// Sorts a list by its keys, and tells its words what stands beside them.
fn sort_told(list: &mut Vec<ListedWord>) -> Result<(), AllocError>
    ensures { OnOk result (IsToldFrom list.old.items list.new.items) }
{
    sort_listed(list)?;
    tell(list);
    Ok(())
}

// Gives the words of a list keys by the table now, and sorts it by these.
fn sort_anew(
    alloc: Global,
    run: &RunState,
    looks: usize,
    list: &mut Vec<ListedWord>,
) -> Result<(), KeyFault>
    ensures { OnOk result (IsSortedAnew (table_now (history_of run.now)) list.old.items list.new.items) }
{
    let table = run.session().table();
    table.lemma_well_formed();
    let keys = WordKeys::new(alloc, table, run.places(), looks)?;
    let keyed = key_anew(alloc, table, &keys, list);
    drop(keys);
    keyed?;
    sort_listed(list)?;
    Ok(())
}

// How many characters the keys of a list are looked up for.
fn looks_for_words(list: &[ListedWord]) -> usize {
    let mut looks = 0usize;
    for listed in list {
        looks = looks.saturating_add(looks_for(listed.word.text()));
    }
    looks
}

// Sorts a list by its keys, and words with the same by their lines.
fn sort_listed(list: &mut Vec<ListedWord>) -> Result<(), AllocError>
    ensures same { IsPermutation list.old.items list.new.items }
    ensures sorted { OnOk result ((table : Collation) → AreListedBy table list.old.items
        → IsSorted (line_order table) (all_numbered list.new.items)) }
{
    list.sort_by(|listed, other| {
        listed
            .word
            .order(&other.word)
            .then(listed.line.cmp(&other.line))
    })?;
    Ok(())
}

// Tells each word of a list which ones stand beside it.
fn tell(list: &mut [ListedWord])
    ensures told { list.new ≡ told 0 list.old }
    ensures len { length list.new ≡ length list.old }
{
    let mut before = 0;
    for place in 0..list.len() {
        let behind = line_at(list, place + 1);
        let listed = &mut list[place];
        listed.before = before;
        listed.behind = behind;
        before = listed.line;
    }
}

// Gives each word of a list its key by a table.
fn key_anew(
    alloc: Global,
    table: &Table,
    keys: &WordKeys<'_>,
    list: &mut [ListedWord],
) -> Result<(), KeyFault>
    requires { Serves keys.now table.now }
    ensures same { OnOk result (without_keys list.new ≡ without_keys list.old) }
    ensures keyed { OnOk result (AreKeyedLines (collation table.now) list.new) }
    ensures len { length list.new ≡ length list.old }
{
    for listed in list.iter_mut() {
        match keys.word(alloc, table, listed.word.text()) {
            Ok(word) => drop(std::mem::replace(&mut listed.word, word)),
            Err(fault) => return Err(fault),
        }
    }
    Ok(())
}

// Writes a list of words, and how many they are.
fn write_list<W: Sink>(out: &mut W, list: &[ListedWord]) -> Result<(), RunFault>
    ensures sent { Sends (W.taken out.old) (W.taken out.new) (list_bytes list.now) result }
    ensures fault { IfErr result (λ ended. ended ≡ failed_write) }
{
    if let Err(stop) = write_marked_words(out, list) {
        return Err(write_failed(stop));
    }
    match write_count(out, b"words", list.len() as u64) {
        Ok(()) => Ok(()),
        Err(stop) => Err(write_failed(stop)),
    }
}

// Writes words, each behind its mark.
fn write_marked_words<W: Sink>(out: &mut W, list: &[ListedWord]) -> Result<(), WriteStop>
    ensures { Writes (W.taken out.old) (W.taken out.new) (W.failed out.old) (W.failed out.new) (marked_lines 0 list.now) result }
{
    let mut before = 0;
    let mut left = list;
    while let Some((listed, later)) = left.split_first() {
        let marked = has_others(listed, before, line_at(later, 0));
        // Not `?`: behind its conversion this exit would need a lemma.
        if let Err(stop) = write_behind(out, mark(marked), listed.word.text()) {
            return Err(stop);
        }
        before = listed.line;
        left = later;
    }
    Ok(())
}

// Whether other words stand beside a word than those that it was told.
fn has_others(listed: &ListedWord, before: usize, behind: usize) -> bool
    ensures { result ≡ has_others listed.now before behind }
{
    listed.before != before || listed.behind != behind
}

// The line of the word at a place, or 0 where there is none.
fn line_at(list: &[ListedWord], place: usize) -> usize
    ensures { result ≡ first_line (all_numbered (drop place list.now)) }
{
    match list.get(place) {
        Some(listed) => listed.line,
        None => 0,
    }
}

// Writes a word behind its mark, and a line feed.
fn write_behind<'a, W: Sink>(out: &mut W, mark: &'a [u8], word: &'a str) -> Result<(), WriteStop>
    ensures { Writes (W.taken out.old) (W.taken out.new) (W.failed out.old) (W.failed out.new)
        (mark.now ++ (word.now ++ line_feed ∷ [])) result }
{
    write_pieces(
        out,
        &[
            Piece::Bytes(mark),
            Piece::Bytes(word.as_bytes()),
            Piece::Bytes(b"\n"),
        ],
    )
}

// What stands before a word.
fn mark(marked: bool) -> &'static [u8]
    ensures { result.now ≡ mark marked }
{
    if marked { b"* " } else { b"  " }
}

// Lack of memory at a line, or at none: no input has so many lines that one has no number here.
fn no_memory(line: usize) -> RunFault
    ensures { IsStarved result }
{
    RunFault {
        input: 0,
        line: u32::try_from(line).unwrap_or(0),
        fault: Fault::Lex(LexFault::OutOfMemory),
    }
}
