//! Keys of words by what their characters weigh, for sorts.
//!
//! What words are sorted by first is made along their texts: of each character its number at the first level is kept as it is packed,
//! if it has a single one and no element begins with it, so that it takes one look-up. Else the row of its weights serves, and where an
//! element begins that of its string. What is left of a text at a character without a row goes by the places of the table's entries.
//!
//! The simple form is `first_keys`, by ranks; both give the same (`Give`, `packed_first_key`).

ghost use Rattle.std.specs.Prelude.{◌≡◌, ◌<◌, ◌≤◌, ◌+◌, ◌++◌, ◌∷◌, [], All, chars, false, true, length};
ghost use Rattle.std.specs.Prelude.{vec_len, vec_capacity, IfOk, IfSome};
ghost use Rattle.std.specs.List.{flat_map};
ghost use Rattle.coll_nodes.specs.NodeNumbers.{AreNumbersOf};
ghost use Rattle.coll_nodes.specs.TableLayout.{collation};
ghost use Rattle.coll_elements.specs.Elements.{elements_of};
ghost use Rattle.coll_key.specs.KeyLimits.{is_too_long};
ghost use Rattle.coll_key.specs.SortKey.{key_of};
ghost use Rattle.coll_ranks.specs.LevelWeights.{level_numbers, row_numbers};
ghost use Rattle.coll_ranks.specs.WeightNumbers.{numbers_at};
ghost use Rattle.coll_words.specs.FirstKeys.{begins_plainly, packed_first_key};
ghost use Rattle.coll_words.specs.LetterKeys.{AreLetterKeys, BeginsWithKept, HasLevel, IsLetterKey, IsPacked, ServesTexts};
ghost use Rattle.coll_letters.specs.LetterWeights.{AreLetterWeights, IsLetterRow};
ghost use Rattle.coll_word_lists.specs.PackedKeys.{packed_key};
ghost use Rattle.coll_letters.specs.ElementMarks.{AreMarks};

use crate::first_keys::with_weight;
use coll_elements::CodePoints;
use coll_key::{EntryNumbers, KeyFault, MOST_TEXT_CHARACTERS, key_of_text};
use coll_letters::{
    ElementMarks, LetterRow, LetterWeights, PieceText, number_of, split_first_char,
};
use coll_ranks::{ElementRow, LevelWeights, TextWeights, WeightRanks};
use coll_table::Table;
use coll_word_lists::{short_number, with_room, with_short};
use std::alloc::{AllocError, Global};

/// A character, and what it weighs.
#[derive(Clone, Copy)]
pub(crate) struct LetterKey {
    /// The character.
    pub letter: char,
    /// Its number at the first level, packed, or 0 where that isn't one number, or where an element begins with the character.
    pub number: u32,
    /// Its row.
    pub row: ElementRow,
}

/// The element that a text begins with.
#[derive(Clone, Copy)]
pub(crate) struct FirstKept<'a> {
    /// Its number at the first level, packed, or 0 where that isn't kept.
    pub number: u32,
    /// Its row.
    pub row: ElementRow,
    /// The text behind it.
    pub rest: &'a str,
}

/// What characters and strings weigh, by one table as it stood when they were made.
#[derive(Drop)]
pub(crate) struct LetterKeys {
    // The characters, in the order of their places.
    letters: Vec<LetterKey>,
    // The place of each, from 1.
    places: CodePoints,
    weights: LetterWeights,
    // The places of the table's entries.
    numbers: EntryNumbers,
}

impl LetterKeys {
    /// What these characters and strings weigh, in new memory. The marks are those of the table, whose first level is looked at from the
    /// front and has no positions.
    pub fn new(
        alloc: Global,
        table: &Table,
        letters: PieceText,
        marks: ElementMarks,
    ) -> Result<LetterKeys, AllocError>
        requires letters { ServesTexts letters }
        requires marks { AreMarks (collation table.now) marks }
        requires plain { begins_plainly (collation table.now).rules ≡ true }
        ensures { IfOk result (AreLetterKeys table.now) }
    {
        let mut numbers = EntryNumbers::new(alloc);
        table.number_entries(&mut numbers)?;
        let weights = LetterWeights::new(alloc, table, &numbers, letters.text.as_str(), marks)?;
        let kept = letter_keys(alloc, table, &weights)?;
        Ok(LetterKeys {
            letters: kept,
            places: letters.places,
            weights,
            numbers,
        })
    }

    /// Puts what a text is sorted by first behind other keys, packed.
    pub fn with_first_key(
        &self,
        alloc: Global,
        table: &Table,
        keys: Vec<u32>,
        text: &str,
    ) -> Result<Vec<u32>, AllocError>
        requires keys { AreLetterKeys table.now self.now }
        requires short { is_too_long (chars text.now) ≡ false }
        ensures { IfOk result (λ with. with.items ≡ keys.items ++ packed_first_key (collation table.now) (chars text.now)) }
    {
        let at_first = self.weights.made().weights().at_level(0);
        let mut later = text.len().min(MOST_TEXT_CHARACTERS);
        let mut with = with_room(keys, later)?;
        let mut left = text;
        'letters: while let Some(first) = self.first(table, left) {
            left = first.rest;
            later -= 1;
            with = with_first(table, &self.weights, at_first, with, first, later)?;
        }
        if left.is_empty() {
            return Ok(with);
        }
        with_text(alloc, table, &self.numbers, with, left)
    }

    /// The sort key of a text.
    pub fn key(&self, alloc: Global, table: &Table, text: &str) -> Result<Vec<u64>, KeyFault>
        requires { AreLetterKeys table.now self.now }
        ensures { IfOk result (λ key. key.items ≡ key_of (collation table.now) (chars text.now)) }
    {
        match self.weights.key(alloc, table, &self.places, text)? {
            Some(key) => Ok(key),
            None => key_of_text(alloc, table, &self.numbers, text),
        }
    }

    // The element that a text begins with, unless it has no row. The place of a character is only guessed, so what stands there is looked
    // at.
    #[inline(always)]
    fn first<'a>(&self, table: &Table, text: &'a str) -> Option<FirstKept<'a>>
        requires { AreLetterKeys table.now self.now }
        ensures { IfSome result (BeginsWithKept (collation table.now) self.now.weights.made.weights (chars text.now)) }
    {
        let (letter, rest) = split_first_char(text)?;
        let place = self.places.get(letter).checked_sub(1)? as usize;
        let letters: &[LetterKey] = &self.letters;
        if place < letters.len() {
            let kept = letters[place];
            if kept.letter == letter {
                let (number, row) = (kept.number, kept.row);
                if number > 0 {
                    return Some(FirstKept { number, row, rest });
                }
                if self.weights.marks().is_apart(letter, rest) {
                    return Some(FirstKept { number, row, rest });
                }
                return self.first_looked_up(table, text);
            }
        }
        None
    }

    // The same, where an element may begin with the first character.
    #[inline(never)]
    fn first_looked_up<'a>(&self, table: &Table, text: &'a str) -> Option<FirstKept<'a>>
        requires { AreLetterKeys table.now self.now }
        ensures { IfSome result (BeginsWithKept (collation table.now) self.now.weights.made.weights (chars text.now)) }
    {
        let first = self.weights.first_letter(table, &self.places, text)?;
        Some(FirstKept {
            number: 0,
            row: first.row,
            rest: first.rest,
        })
    }
}

// Puts the numbers of an element at the first level behind others, packed, and leaves room for later ones.
#[inline(always)]
fn with_first(
    _table: &Table,
    _weights: &LetterWeights,
    at_first: LevelWeights<'_>,
    keys: Vec<u32>,
    first: FirstKept<'_>,
    later: usize,
) -> Result<Vec<u32>, AllocError>
    requires packed { IsPacked _weights.now.made.weights first.number first.row }
    requires first { HasLevel (collation _table.now) _weights.now.made.weights at_first }
    requires few { later ≤ 65_536 }
    requires room { vec_len keys + later + 1 ≤ vec_capacity keys }
    ensures numbers { IfOk result (λ with. with.items ≡ keys.items ++ packed_key (row_numbers _weights.now.made.weights 0 first.entry.row)) }
    ensures room { IfOk result (λ with. vec_len with + later ≤ vec_capacity with) }
{
    if first.number > 0 {
        return Ok(with_short(keys, first.number));
    }
    with_weight(
        keys,
        at_first.ranks(first.row),
        at_first.added(first.row),
        later,
    )
}

// Puts the numbers of a text at the first level behind others, packed, by the places of the table's entries.
#[inline(never)]
fn with_text(
    alloc: Global,
    table: &Table,
    numbers: &EntryNumbers,
    keys: Vec<u32>,
    text: &str,
) -> Result<Vec<u32>, AllocError>
    requires numbers { AreNumbersOf numbers.now table.now.layout }
    requires few { length (chars text.now) ≤ 65_536 }
    requires level { 0 < length (collation table.now).rules }
    ensures { IfOk result (λ with. with.items ≡ keys.items
        ++ packed_key (flat_map (numbers_at (collation table.now) 0) (elements_of (collation table.now) (chars text.now)))) }
{
    let made = TextWeights::new(alloc, table, numbers, text)?;
    let weights = made.weights();
    let at_first = weights.at_level(0);
    let mut with = keys;
    for element in made.elements() {
        let row = weights.row(*element);
        with = with_room(with, 1)?;
        with = with_weight(with, at_first.ranks(row), at_first.added(row), 0)?;
    }
    Ok(with)
}

// The characters that have rows, with what they weigh.
fn letter_keys(
    alloc: Global,
    table: &Table,
    weights: &LetterWeights,
) -> Result<Vec<LetterKey>, AllocError>
    requires weights { AreLetterWeights (collation table.now) weights.now }
    requires level { 0 < length (collation table.now).rules }
    ensures { IfOk result (λ letters. All (IsLetterKey (collation table.now) weights.now.made.weights) letters.items) }
{
    let at_first = weights.made().weights().at_level(0);
    let rows = weights.rows();
    let mut letters = Vec::with_capacity(alloc, rows.len())?;
    for kept in rows {
        letters.push(letter_key(table, weights, at_first, *kept))?;
    }
    Ok(letters)
}

// A character that has a row, with what it weighs.
fn letter_key(
    _table: &Table,
    weights: &LetterWeights,
    at_first: LevelWeights<'_>,
    kept: LetterRow,
) -> LetterKey
    requires weights { AreLetterWeights (collation _table.now) weights.now }
    requires row { IsLetterRow (collation _table.now) weights.now.made.weights kept }
    requires first { HasLevel (collation _table.now) weights.now.made.weights at_first }
    ensures { IsLetterKey (collation _table.now) weights.now.made.weights result }
{
    let (letter, row) = (kept.letter, kept.row);
    if weights.marks().begin_without(letter) {
        let number = packed_single(at_first, row);
        return LetterKey {
            letter,
            number,
            row,
        };
    }
    LetterKey {
        letter,
        number: 0,
        row,
    }
}

// What a row is packed as at a level, where that is one number above 0; else 0.
fn packed_single(at_level: LevelWeights<'_>, row: ElementRow) -> u32
    ensures { 0 < result → packed_key (level_numbers at_level.entry row) ≡ result ∷ [] }
{
    match at_level.ranks(row) {
        WeightRanks::Ignored => 0,
        WeightRanks::Single(rank) => match short_number(number_of(rank, at_level.added(row))) {
            Some(short) => short,
            None => 0,
        },
        WeightRanks::Several(_) => 0,
    }
}
