//! The words of a review, with the numbers of their lines.
//!
//! They are read with their keys, numbered, and sorted once. Behind that a review asks for no key of most of them, so their texts alone
//! are kept, where they stay, in the order of the first table: a list of the words (`listed_words`) lends them, and since statements
//! move few words far, who goes along the list goes along memory.

ghost use Rattle.std.specs.Prelude.{◌≡◌, map, IfOk, OnOk};
ghost use Rattle.std.specs.List.Sorted.{IsPermutation, IsSorted};
ghost use Rattle.coll_nodes.specs.Table.{Collation};
ghost use Rattle.coll_nodes.specs.WellFormed.{IsWellFormed};
ghost use Rattle.coll_word_lists.specs.KeyedWords.{texts_of};
ghost use Rattle.coll_reviews.specs.KeptWords.{AreLinesByKeys, keyed_line, kept_line};
ghost use Rattle.coll_word_lists.specs.NumberedWords.{line_order, numbered_from};

use coll_lex::TextBuf;
use coll_word_lists::Word;
use std::alloc::{AllocError, Global};

/// A word with its key, and the number of its line.
#[derive(Drop)]
pub(crate) struct KeyedLine {
    /// The number of its line, from 1.
    pub line: usize,
    /// The word, with its key by a table.
    pub word: Word,
}

/// The text of a word, and the number of its line.
#[derive(Drop)]
pub(crate) struct KeptWord {
    /// The number of its line, from 1.
    pub line: usize,
    /// Its text.
    pub text: TextBuf,
}

/// Words with the numbers of their lines, from 1.
pub(crate) fn numbered(alloc: Global, words: Vec<Word>) -> Result<Vec<KeyedLine>, AllocError>
    ensures lines { IfOk result (λ list. map keyed_line list.items ≡ numbered_from 1 (texts_of words.items)) }
    ensures words { IfOk result (λ list. map (λ keyed. keyed.word) list.items ≡ words.items) }
{
    let mut list = Vec::with_capacity(alloc, words.len())?;
    for word in words {
        let line = list.len() + 1;
        list.push_reserved(KeyedLine { line, word });
    }
    Ok(list)
}

/// Sorts words by their keys, and words with the same by their lines. Where memory is refused, the list keeps its words.
pub(crate) fn sort_numbered(list: &mut Vec<KeyedLine>) -> Result<(), AllocError>
    ensures same { IsPermutation list.old.items list.new.items }
    ensures sorted { OnOk result ((table : Collation) → IsWellFormed table → AreLinesByKeys table list.old.items
        → IsSorted (line_order table) (map keyed_line list.new.items)) }
{
    list.sort_by(|keyed, other| {
        keyed
            .word
            .order(&other.word)
            .then(keyed.line.cmp(&other.line))
    })?;
    Ok(())
}

/// The texts of words with their lines, in the same order, in new memory.
pub(crate) fn kept_words(alloc: Global, list: &[KeyedLine]) -> Result<Vec<KeptWord>, AllocError>
    ensures { IfOk result (λ kept. map kept_line kept.items ≡ map keyed_line list.now) }
{
    let mut kept = Vec::with_capacity(alloc, list.len())?;
    for keyed in list {
        let text = TextBuf::copied(alloc, keyed.word.text())?;
        let line = keyed.line;
        kept.push(KeptWord { line, text })?;
    }
    Ok(kept)
}
