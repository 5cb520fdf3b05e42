//! What gives the words of a sort their keys.
//!
//! Words have few characters, however many they are, and few strings in them may be collating elements: what these weigh serves, so that the
//! table's entries are only numbered. Where they are many, the ranks of the whole table are made.

ghost use Rattle.std.specs.Prelude.{◌≡◌, ◌++◌, chars, IfOk, IfSome};
ghost use Rattle.coll_nodes.specs.TableLayout.{collation};
ghost use Rattle.coll_key.specs.SortKey.{key_of};
ghost use Rattle.coll_words.specs.FirstKeys.{packed_first_key};
ghost use Rattle.coll_words.specs.LetterKeys.{AreLetterKeys};
ghost use Rattle.coll_words.specs.SortKeys.{Give};

use crate::first_keys::{begins_plainly, with_first_key};
use crate::letter_keys::LetterKeys;
use crate::text_letters::pieces_of_texts;
use coll_key::{KeyFault, Ranks, is_too_long, key};
use coll_letters::{ElementMarks, most_letters};
use coll_table::Table;
use coll_word_lists::StoredTexts;
use std::alloc::{AllocError, Global};

// For each text and each entry of the table so many strings of texts may be looked at where elements may begin.
const LOOKS_A_TEXT: usize = 4;

/// What gives keys by one table as it stood when it was made.
#[derive(Drop)]
pub(crate) enum SortKeys {
    /// The ranks of the whole table.
    ByRanks(Ranks),
    /// What the characters of the words and strings in them weigh.
    ByLetters(LetterKeys),
}

impl SortKeys {
    /// What gives the words with these texts their keys by a table, in new memory.
    pub fn of(alloc: Global, table: &Table, texts: &StoredTexts) -> Result<SortKeys, AllocError>
        ensures { IfOk result (Give table.now) }
    {
        if let Some(letters) = letter_keys_of(alloc, table, texts)? {
            return Ok(SortKeys::ByLetters(letters));
        }
        let ranks = Ranks::new(alloc, table)?;
        Ok(SortKeys::ByRanks(ranks))
    }

    /// Puts what a text is sorted by first behind other keys, packed.
    pub fn with_first_key(
        &self,
        alloc: Global,
        table: &Table,
        keys: Vec<u32>,
        text: &str,
    ) -> Result<Vec<u32>, KeyFault>
        requires { Give table.now self.now }
        ensures { IfOk result (λ with. with.items ≡ keys.items ++ packed_first_key (collation table.now) (chars text.now)) }
    {
        match self {
            SortKeys::ByRanks(ranks) => with_first_key(alloc, table, ranks, keys, text),
            SortKeys::ByLetters(letters) => {
                if is_too_long(text) {
                    return Err(KeyFault::TextTooLong);
                }
                let with = letters.with_first_key(alloc, table, keys, text)?;
                Ok(with)
            }
        }
    }

    /// The sort key of a text.
    pub fn key(&self, alloc: Global, table: &Table, text: &str) -> Result<Vec<u64>, KeyFault>
        requires { Give table.now self.now }
        ensures { IfOk result (λ key. key.items ≡ key_of (collation table.now) (chars text.now)) }
    {
        match self {
            SortKeys::ByRanks(ranks) => key(alloc, table, ranks, text),
            SortKeys::ByLetters(letters) => letters.key(alloc, table, text),
        }
    }
}

// What the characters of texts and strings in them weigh in a table, where that serves.
fn letter_keys_of(
    alloc: Global,
    table: &Table,
    texts: &StoredTexts,
) -> Result<Option<LetterKeys>, AllocError>
    ensures { IfOk result (λ found. IfSome found (AreLetterKeys table.now)) }
{
    if !begins_plainly(table.rules()) {
        return Ok(None);
    }
    let marks = ElementMarks::of(alloc, table)?;
    let looks = table
        .len()
        .saturating_add(texts.len())
        .saturating_mul(LOOKS_A_TEXT);
    match pieces_of_texts(alloc, texts, &marks, most_letters(table), looks)? {
        Some(pieces) => {
            let keys = LetterKeys::new(alloc, table, pieces, marks)?;
            Ok(Some(keys))
        }
        None => Ok(None),
    }
}
