//! What words are compared by: their characters, and the strings in them that may be collating elements, each once.
//!
//! They are gathered once for a list of words, since no statement gives a word another character. Where elements were declared since, the
//! words are gathered anew in which one may begin, eight times in all with the first: those that hold its first two characters in a row, or
//! two that share their mark. Where a word is long by itself, where elements may begin at many of its places, or where characters and strings
//! are many, words are not compared by them: a pair that they leave undecided takes time by the length of both words, whatever they begin
//! with. What is kept here is looked at again wherever it is used, so no contract speaks of it.

use crate::listed_words::ListedWord;
use coll_elements::CodePoints;
use coll_letters::{ElementMarks, PieceText, TextPieces, split_first_char};
use std::alloc::{AllocError, Global};

// A word of more bytes is not compared by its characters.
const MOST_WORD_BYTES: usize = 128;

// Nor is one with more strings that may be elements.
const MOST_WORD_LOOKS: usize = 64;

// How often words are gathered at most: a delta file may declare an element before each other statement.
const MOST_TIMES: u32 = 8;

/// The characters and strings of words, each once, and the place of each character.
#[derive(Drop)]
pub(crate) struct Letters {
    /// The characters and strings, one behind another, or none where something was left out.
    pub text: String,
    /// Of each character its place among them, from 1.
    pub places: CodePoints,
    /// Whether nothing was left out, and no word is long.
    pub all: bool,
    /// Whether a word may hold an element.
    pub joined: bool,
    /// How many elements were declared when they were gathered.
    pub elements: usize,
    /// How often they were gathered.
    pub times: u32,
}

impl Letters {
    /// The characters and strings of the words of a list, no more than so many. The marks tell where an element may stand, and so many
    /// strings may be looked at there.
    pub fn of(
        alloc: Global,
        list: &[ListedWord<'_>],
        marks: &ElementMarks,
        most: usize,
        looks: usize,
    ) -> Result<Letters, AllocError> {
        let mut pieces = TextPieces::new(alloc, most, looks, MOST_WORD_LOOKS);
        let all = add_words(&mut pieces, list, marks)?;
        let joined = pieces.are_joined();
        kept_pieces(alloc, pieces, all, joined, marks, 0)
    }

    /// The same, where elements were declared since these were gathered, which other marks tell of. Those have to be of all words.
    pub fn of_more(
        &self,
        alloc: Global,
        list: &[ListedWord<'_>],
        marks: &ElementMarks,
        since: &ElementMarks,
        most: usize,
        looks: usize,
    ) -> Result<Letters, AllocError> {
        let mut pieces = TextPieces::new(alloc, most, looks, MOST_WORD_LOOKS);
        let all = self.times < MOST_TIMES
            && pieces.add_again(self.text.as_str(), marks)?
            && add_marked_words(&mut pieces, list, marks, since)?;
        let joined = self.joined || pieces.are_joined();
        kept_pieces(alloc, pieces, all, joined, marks, self.times)
    }
}

// What was gathered by these marks, behind so many times before. Where something was left out no pieces are kept.
fn kept_pieces(
    alloc: Global,
    pieces: TextPieces,
    all: bool,
    joined: bool,
    marks: &ElementMarks,
    times: u32,
) -> Result<Letters, AllocError> {
    let PieceText { text, places } = if all {
        pieces.into_text()?
    } else {
        drop(pieces);
        PieceText {
            text: String::new(alloc),
            places: CodePoints::new(alloc),
        }
    };
    Ok(Letters {
        text,
        places,
        all,
        joined,
        elements: marks.count(),
        times: times.saturating_add(1),
    })
}

// Adds the pieces of words, up to one that is long, or for which there is no room, and tells whether there was none.
fn add_words(
    pieces: &mut TextPieces,
    list: &[ListedWord<'_>],
    marks: &ElementMarks,
) -> Result<bool, AllocError> {
    for listed in list {
        if listed.text.len() > MOST_WORD_BYTES || !pieces.add(listed.text, marks)? {
            return Ok(false);
        }
    }
    Ok(true)
}

// Adds the pieces of the words in which an element may begin that other marks tell of, up to one for which there is no room, and tells
// whether there was none.
fn add_marked_words(
    pieces: &mut TextPieces,
    list: &[ListedWord<'_>],
    marks: &ElementMarks,
    since: &ElementMarks,
) -> Result<bool, AllocError> {
    for listed in list {
        if is_marked(since, listed.text) && !pieces.add(listed.text, marks)? {
            return Ok(false);
        }
    }
    Ok(true)
}

// Whether an element that these marks tell of may begin in a text.
fn is_marked(marks: &ElementMarks, text: &str) -> bool {
    let mut left = text;
    'letters: while let Some((letter, rest)) = split_first_char(left) {
        if marks.is_marked_at(letter, rest) {
            return true;
        }
        left = rest;
    }
    false
}
