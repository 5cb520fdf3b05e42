//! What the keys of a list of words are made by.
//!
//! The ranks of a whole table are made in one pass over its entries, and then serve each word at once. Where the words have few
//! characters beside the entries, these only have to have their places, which a session mostly keeps, and each word looks up what it
//! asks for and no more. How many are few may change: the words are the same.
//!
//! Keys by ranks are the simple form; `ListsWords` is the clause of both, and checkers/listed_words.py compares them.

ghost use Rattle.std.specs.Prelude.{◌≡◌, ◌≢◌, chars, true, IfErr, IfOk, IfSome};
ghost use Rattle.coll_nodes.specs.NodeNumbers.{AreNumbersOf};
ghost use Rattle.coll_nodes.specs.TableLayout.{collation};
ghost use Rattle.coll_key.specs.KeyLimits.{is_too_long};
ghost use Rattle.coll_key.specs.declared.key_faults.KeyFault.TheVariants.{OutOfMemory};
ghost use Rattle.coll_word_lists.specs.KeyedWords.{IsKeyed};
ghost use Rattle.coll_edit_replies.specs.WordKeys.{Serves};

use coll_key::{EntryNumbers, KeyFault, Ranks};
use coll_table::Table;
use coll_word_lists::Word;
use std::alloc::{AllocError, Global};

// For so many entries of the table words may have one character: it is looked up in some half of the time that their ranks take.
const ENTRIES_A_CHARACTER: usize = 16;

// As long as so many characters a word takes by itself, also one that has none: what UNDEFINED weighs is looked up for it.
const CHARACTERS_A_WORD: usize = 8;

/// What the keys of words are made by.
#[derive(Drop)]
pub enum WordKeys<'a> {
    /// The places of the table's entries.
    ByNumbers(&'a EntryNumbers),
    /// The ranks of the whole table.
    ByRanks(Ranks),
}

impl<'a> WordKeys<'a> {
    /// What the keys of words are made by in a table, where so many characters are looked up for them: the places of its entries, if
    /// they are given and the characters are few.
    pub fn new(
        alloc: Global,
        table: &Table,
        places: Option<&'a EntryNumbers>,
        characters: usize,
    ) -> Result<WordKeys<'a>, AllocError>
        requires { IfSome places (λ numbers. AreNumbersOf numbers.now table.now.layout) }
        ensures { IfOk result (λ keys. Serves keys table.now) }
    {
        if let Some(places) = places {
            if are_few(table, characters) {
                return Ok(WordKeys::ByNumbers(places));
            }
        }
        let ranks = Ranks::new(alloc, table)?;
        Ok(WordKeys::ByRanks(ranks))
    }

    /// The word of a text, with its key by the table.
    pub fn word(&self, alloc: Global, table: &Table, text: &str) -> Result<Word, KeyFault>
        requires { Serves self.now table.now }
        ensures text { IfOk result (λ word. word.text ≡ chars text.now) }
        ensures key { IfOk result (λ word. IsKeyed (collation table.now) word) }
        ensures err { IfErr result (λ fault. fault ≢ OutOfMemory → is_too_long (chars text.now) ≡ true) }
    {
        match self {
            WordKeys::ByNumbers(numbers) => Word::by_numbers(alloc, table, numbers, text),
            WordKeys::ByRanks(ranks) => Word::new(alloc, table, ranks, text),
        }
    }
}

/// How many characters are looked up for the key of a word, and what it takes by itself as such.
pub fn looks_for(text: &str) -> usize {
    text.chars().count().saturating_add(CHARACTERS_A_WORD)
}

/// Whether so many characters are few beside a table, so that the places of its entries serve.
pub fn are_few(table: &Table, characters: usize) -> bool {
    characters <= table.len() / ENTRIES_A_CHARACTER
}
