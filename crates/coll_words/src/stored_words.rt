//! Words with what they are sorted by first, over texts that stay elsewhere.
//!
//! A word by itself (`Word` of `coll_word_lists`) has memory of its own for its key, and for a long text. Here all texts stand one behind
//! another (`StoredTexts`), and so do all keys, and a word is where its own begin and end: so many words ask for hardly more blocks than
//! one, and take less. A key is what `sort_keys` gives, right where it stays; `lent_words` has the sort.

ghost use Rattle.std.specs.Prelude.{◌≡◌, [], IfOk, IfSome};
ghost use Rattle.coll_nodes.specs.TableLayout.{collation};
ghost use Rattle.coll_words.specs.FirstKeys.{AreFirstKeyed};
ghost use Rattle.coll_word_lists.specs.KeyedWords.{texts_of};
ghost use Rattle.coll_words.specs.LentWords.{AreLent, IsLent};
ghost use Rattle.coll_words.specs.SortKeys.{Give};
ghost use Rattle.coll_word_lists.specs.StoredTexts.{AreTextPlaces, texts_at};
ghost use Rattle.coll_words.specs.StoredWords.{ArePlaces, IsPlace, word_at, words_at};

use crate::key_leads::LeadDigits;
use crate::lent_words::LentWord;
use crate::sort_keys::SortKeys;
use coll_key::KeyFault;
use coll_table::Table;
use coll_word_lists::{StoredTexts, TextPlace, text_of};
use std::alloc::{AllocError, Global};
use std::marker::Model;

/// Where the text and the key of a word stand.
#[derive(Clone, Copy)]
struct WordPlace {
    text: usize,
    text_end: usize,
    key: usize,
    key_end: usize,
}

/// Words with what they are sorted by first.
#[derive(Drop)]
pub(crate) struct StoredWords<'a> {
    // The texts, in UTF-8.
    texts: &'a [u8],
    // The keys, packed.
    keys: Vec<u32>,
    places: Vec<WordPlace>,
}

impl<'a> Model for StoredWords<'a> {
    ghost use Rattle.std.specs.Prelude.{List};
    ghost use Rattle.coll_word_lists.specs.KeyedWords.{KeyedWord};
    ghost use Rattle.coll_words.specs.LentWords.{AreLent, IsLent};
    ghost use Rattle.coll_words.specs.StoredWords.{ArePlaces, words_at};

    ghost Value = { List KeyedWord };

    ghost view = { λ s. words_at s.texts.now s.keys.items s.places.items };

    ghost invariant = { λ s. ArePlaces s.texts.now s.keys.items s.places.items };
}

impl<'a> StoredWords<'a> {
    /// The words with these texts, with what they are sorted by first by a table, in new memory for the keys.
    pub fn keyed(
        alloc: Global,
        table: &Table,
        by: &SortKeys,
        texts: &'a StoredTexts,
    ) -> Result<StoredWords<'a>, KeyFault>
        requires { Give table.now by.now }
        ensures texts { IfOk result (λ words. texts_of words ≡ texts.now) }
        ensures keyed { IfOk result (λ words. AreFirstKeyed (collation table.now) words) }
    {
        let (bytes, places) = texts.parts();
        keyed_at(alloc, table, by, bytes, places)
    }

    /// Lends the words one by one, in a list in new memory, with their leads. Words that are in order as they stand need none.
    pub fn lend(&self, alloc: Global) -> Result<Vec<LentWord<'_>>, AllocError>
        ensures { IfOk result (λ words. AreLent self.now words.items) }
    {
        let keys: &[u32] = &self.keys;
        let places: &[WordPlace] = &self.places;
        if !are_in_order(keys, places) {
            let digits = LeadDigits::of(alloc, keys)?;
            let led = led_at(alloc, &digits, self.texts, keys, places);
            drop(digits);
            if let Some(words) = led? {
                return Ok(words);
            }
        }
        lent_plainly(alloc, self.texts, keys, places)
    }
}

// The words with the texts at places, with what they are sorted by first by a table.
fn keyed_at<'a>(
    alloc: Global,
    table: &Table,
    by: &SortKeys,
    texts: &'a [u8],
    text_places: &[TextPlace],
) -> Result<StoredWords<'a>, KeyFault>
    requires by { Give table.now by.now }
    requires places { AreTextPlaces texts.now text_places.now }
    ensures texts { IfOk result (λ words. texts_of words ≡ texts_at texts.now text_places.now) }
    ensures keyed { IfOk result (λ words. AreFirstKeyed (collation table.now) words) }
{
    let mut keys = Vec::new(alloc);
    let mut places = Vec::with_capacity(alloc, text_places.len())?;
    for place in text_places {
        let key_start = keys.len();
        let text = text_of(&texts[place.start..place.end]);
        keys = by.with_first_key(alloc, table, keys, text)?;
        places.push(WordPlace {
            text: place.start,
            text_end: place.end,
            key: key_start,
            key_end: keys.len(),
        })?;
    }
    Ok(StoredWords {
        texts,
        keys,
        places,
    })
}

// Whether no key is less than the one before it. It is only a guess, which spares the leads.
fn are_in_order(keys: &[u32], places: &[WordPlace]) -> bool {
    let mut last: &[u32] = &[];
    for place in places {
        let Some(key) = keys.get(place.key..place.key_end) else {
            return false;
        };
        if key.cmp(last).is_lt() {
            return false;
        }
        last = key;
    }
    true
}

// Lends the words at places, one by one, in a list in new memory, with the leads of their keys, if each number has a digit.
fn led_at<'a>(
    alloc: Global,
    digits: &LeadDigits,
    texts: &'a [u8],
    keys: &'a [u32],
    places: &[WordPlace],
) -> Result<Option<Vec<LentWord<'a>>>, AllocError>
    requires { ArePlaces texts.now keys.now places.now }
    ensures { IfOk result (λ found. IfSome found (λ words. AreLent (words_at texts.now keys.now places.now) words.items)) }
{
    let mut words = Vec::with_capacity(alloc, places.len())?;
    for place in places {
        match led(digits, texts, keys, place) {
            Some(word) => words.push(word)?,
            None => return Ok(None),
        }
    }
    Ok(Some(words))
}

// Lends the word at a place with the lead of its key, if it has one.
fn led<'a>(
    digits: &LeadDigits,
    texts: &'a [u8],
    keys: &'a [u32],
    place: &WordPlace,
) -> Option<LentWord<'a>>
    requires { IsPlace texts.now keys.now place.now }
    ensures { IfSome result (IsLent digits.now.numbers.items digits.now.base digits.now.count (word_at texts.now keys.now place.now)) }
{
    let key = &keys[place.key..place.key_end];
    let lead = digits.lead(key)?;
    Some(LentWord::new(lead, &texts[place.text..place.text_end], key))
}

// Lends the words at places, one by one, in a list in new memory, with the lead 0.
fn lent_plainly<'a>(
    alloc: Global,
    texts: &'a [u8],
    keys: &'a [u32],
    places: &[WordPlace],
) -> Result<Vec<LentWord<'a>>, AllocError>
    requires { ArePlaces texts.now keys.now places.now }
    ensures { IfOk result (λ words. AreLent (words_at texts.now keys.now places.now) words.items) }
{
    let mut words = Vec::with_capacity(alloc, places.len())?;
    for place in places {
        words.push(lent(texts, keys, place))?;
    }
    Ok(words)
}

// Lends the word at a place with the lead 0.
fn lent<'a>(texts: &'a [u8], keys: &'a [u32], place: &WordPlace) -> LentWord<'a>
    requires { IsPlace texts.now keys.now place.now }
    ensures { IsLent [] 1 0 (word_at texts.now keys.now place.now) result }
{
    LentWord::new(
        0,
        &texts[place.text..place.text_end],
        &keys[place.key..place.key_end],
    )
}
