//! What texts are compared by, gathered from them: their characters, and the strings of collating elements that may stand in them.
//!
//! Each is gathered once, and put behind the others in one text (`into_text`), of which `LetterWeights` makes rows. Where elements may
//! begin in a text each beginning is gathered, up to the most characters that a string has there: whether it is an element's is for the
//! table to say. So nothing that is gathered is trusted, and no contract speaks of it. How many characters the pieces have is bounded,
//! since rows are made of each, and each may be looked up as the beginning of an element.

use crate::element_marks::ElementMarks;
use crate::first_pieces::split_characters;
use crate::letter_weights::split_first_char;
use coll_elements::CodePoints;
use std::alloc::{AllocError, Global};
use std::collections::BTreeSet;

/// What stands behind the characters with which no element begins, behind each other one, and behind each string, so that what stands
/// between two has no element of more characters, but of tables that have U+0000 in one.
pub(crate) const SEPARATOR: char = '\0';

/// The characters of texts and the strings that may be elements in them, each once.
#[derive(Drop)]
pub struct TextPieces {
    alloc: Global,
    // The characters with which no element begins, and of each its place among them, from 1.
    plain: String,
    plain_places: CodePoints,
    plain_count: u32,
    // Those with which one begins, and which of them there are.
    beginning: String,
    are_beginning: CodePoints,
    strings: BTreeSet<String>,
    // How many characters the pieces may have yet, and how many strings may be looked at, in all and in each text.
    room: usize,
    looks: usize,
    looks_a_text: usize,
    // How many were looked at in the text at hand.
    looked: usize,
    joined: bool,
}

/// Characters and strings, one behind another.
#[derive(Drop)]
pub struct PieceText {
    /// The text.
    pub text: String,
    /// Of each character its place among the characters of the text, from 1. That of the separator is the place of one of them.
    pub places: CodePoints,
}

impl TextPieces {
    /// No pieces yet, with room for so many characters. Where elements may begin so many strings may be looked at in all, and so many in
    /// each text. It takes no memory.
    pub fn new(alloc: Global, room: usize, looks: usize, looks_a_text: usize) -> TextPieces {
        TextPieces {
            alloc,
            plain: String::new(alloc),
            plain_places: CodePoints::new(alloc),
            plain_count: 0,
            beginning: String::new(alloc),
            are_beginning: CodePoints::new(alloc),
            strings: BTreeSet::new(alloc),
            room,
            looks,
            looks_a_text,
            looked: 0,
            joined: false,
        }
    }

    /// Whether an element may begin in one of the texts.
    pub fn are_joined(&self) -> bool {
        self.joined
    }

    /// Adds the pieces of a text, and tells whether there was room for them, and there were looks.
    pub fn add(&mut self, text: &str, marks: &ElementMarks) -> Result<bool, AllocError> {
        self.looked = 0;
        let mut left = text;
        'letters: while let Some((letter, rest)) = split_first_char(left) {
            if self.plain_places.get(letter) == 0 && !self.add_other(left, letter, rest, marks)? {
                return Ok(false);
            }
            left = rest;
        }
        Ok(true)
    }

    /// Adds the pieces of a text that others gave (`into_text`), by marks of more elements, and tells whether there was room.
    pub fn add_again(&mut self, pieces: &str, marks: &ElementMarks) -> Result<bool, AllocError> {
        let (letters, others) = match pieces.split_once(SEPARATOR) {
            Some(parts) => parts,
            None => (pieces, ""),
        };
        if !self.add_letters(letters, marks)? {
            return Ok(false);
        }
        for piece in others.split(SEPARATOR) {
            if !self.add_piece(piece, marks)? {
                return Ok(false);
            }
        }
        Ok(true)
    }

    // Adds a character by itself, or a string, and tells whether there was room.
    fn add_piece(&mut self, piece: &str, marks: &ElementMarks) -> Result<bool, AllocError> {
        match piece.chars().count() {
            0 | 1 => self.add_letters(piece, marks),
            count => self.put_string(piece, count),
        }
    }

    // Adds characters, and none of the strings that they make one behind another.
    fn add_letters(&mut self, letters: &str, marks: &ElementMarks) -> Result<bool, AllocError> {
        for letter in letters.chars() {
            if !self.add_letter(letter, marks)? {
                return Ok(false);
            }
        }
        Ok(true)
    }

    // Adds a character that isn't there, or with which an element may begin, and the strings at it, and tells whether there was room.
    #[inline(never)]
    fn add_other(
        &mut self,
        text: &str,
        letter: char,
        rest: &str,
        marks: &ElementMarks,
    ) -> Result<bool, AllocError> {
        if !self.add_letter(letter, marks)? {
            return Ok(false);
        }
        if marks.is_apart(letter, rest) {
            return Ok(true);
        }
        self.joined = true;
        self.add_strings(text, marks.most_at(letter, rest))
    }

    // Adds a character, unless it is there, and tells whether there was room. The separator stands among the pieces anyway.
    fn add_letter(&mut self, letter: char, marks: &ElementMarks) -> Result<bool, AllocError> {
        if letter == SEPARATOR {
            return Ok(true);
        }
        if marks.begin_without(letter) {
            return self.add_plain(letter);
        }
        if self.are_beginning.get(letter) > 0 {
            return Ok(true);
        }
        if !self.take_room(1) {
            return Ok(false);
        }
        self.are_beginning.set(letter, 1)?;
        self.beginning.push(letter)?;
        Ok(true)
    }

    // Adds a character with which no element begins.
    fn add_plain(&mut self, letter: char) -> Result<bool, AllocError> {
        if self.plain_places.get(letter) > 0 {
            return Ok(true);
        }
        if !self.take_room(1) {
            return Ok(false);
        }
        self.plain_count = self.plain_count.saturating_add(1);
        self.plain_places.set(letter, self.plain_count)?;
        self.plain.push(letter)?;
        Ok(true)
    }

    // Takes room for so many characters, if there is any.
    fn take_room(&mut self, count: usize) -> bool {
        match self.room.checked_sub(count) {
            Some(left) => {
                self.room = left;
                true
            }
            None => false,
        }
    }

    // Takes a look at a string, if there is one left for the text at hand, and in all.
    fn take_look(&mut self) -> bool {
        self.looked = self.looked.saturating_add(1);
        match self.looks.checked_sub(1) {
            Some(left) => {
                self.looks = left;
                self.looked <= self.looks_a_text
            }
            None => false,
        }
    }

    // Adds what a text begins with, from two characters up to so many, and tells whether there was room, and each could be looked at.
    fn add_strings(&mut self, text: &str, most: usize) -> Result<bool, AllocError> {
        for beyond in 1..most {
            let Some((string, _)) = split_characters(text, beyond + 1) else {
                return Ok(true);
            };
            if !self.take_look() || !self.put_string(string, beyond + 1)? {
                return Ok(false);
            }
        }
        Ok(true)
    }

    // Puts a string of so many characters, unless it is there, and tells whether there was room.
    fn put_string(&mut self, string: &str, count: usize) -> Result<bool, AllocError> {
        if self.strings.contains(string) {
            return Ok(true);
        }
        if !self.take_room(count) {
            return Ok(false);
        }
        let copy = String::from_str(self.alloc, string)?;
        self.strings.insert(copy)?;
        Ok(true)
    }

    /// The pieces as one text: the characters with which no element begins and a separator, then those with which one does, and then the
    /// strings in their order, each before a separator.
    pub fn into_text(self) -> Result<PieceText, AllocError> {
        let TextPieces {
            alloc: _,
            plain,
            plain_places,
            plain_count,
            beginning,
            are_beginning,
            strings,
            room: _,
            looks: _,
            looks_a_text: _,
            looked: _,
            joined: _,
        } = self;
        drop(are_beginning);
        let mut pieces = PieceText {
            text: plain,
            places: plain_places,
        };
        let place = plain_count.saturating_add(1);
        pieces.text.push(SEPARATOR)?;
        pieces.places.set(SEPARATOR, place)?;
        put_beginning(&mut pieces, beginning.as_str(), place)?;
        put_strings(&mut pieces.text, &strings)?;
        Ok(pieces)
    }
}

// Puts characters with which elements begin behind so many others, each before a separator.
fn put_beginning(pieces: &mut PieceText, letters: &str, count: u32) -> Result<(), AllocError> {
    let mut place = count;
    let mut left = letters;
    'letters: while let Some((letter, rest)) = split_first_char(left) {
        pieces.text.push(letter)?;
        pieces.text.push(SEPARATOR)?;
        pieces.places.set(letter, place.saturating_add(1))?;
        place = place.saturating_add(2);
        left = rest;
    }
    Ok(())
}

// Puts strings behind a text, each before a separator.
fn put_strings(text: &mut String, strings: &BTreeSet<String>) -> Result<(), AllocError> {
    for string in strings.iter() {
        text.push_str(string.as_str())?;
        text.push(SEPARATOR)?;
    }
    Ok(())
}
