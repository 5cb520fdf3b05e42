//! Where in a line what a fault is about is spelled.
//!
//! A line is gone along token by token, by the two characters in force: symbols, words, and within strings each character by itself.
//! An identifier is found where a token spells it, escapes taken away, and what the lexer refuses where it refuses a token by itself.
//! Where nothing is found, the whole line is marked but its indent and the blanks at its end. Of the places nothing is proved but that
//! they stand in the line; tests show them.

ghost use Rattle.coll_refused_lines.specs.SpelledPlaces.{IsPartOf};

use coll_lex::{Chars, Lexer, past_blanks};
use coll_syntax::Id;
use std::str::from_utf8;

/// A part of a line: its bytes from the first place on, and before the second.
#[derive(Clone, Copy)]
pub(crate) struct Place {
    /// Where it begins.
    pub start: usize,
    /// Where it ends.
    pub end: usize,
}

/// What is looked for in a line.
#[derive(Clone, Copy)]
pub(crate) enum Sought<'a> {
    /// The first token that spells this identifier.
    Id(&'a Id),
    /// The first token that begins with this keyword.
    Keyword(&'a str),
    /// The first token.
    FirstToken,
    /// The first token that the lexer refuses by itself with the fault of this number.
    Refused(u8),
    /// The string that is open at its end, with the mark that opens it.
    OpenString,
    /// The first bytes that are no UTF-8.
    NotUtf8,
    /// Its last character, which is one byte.
    LastCharacter,
    /// No part of it.
    WholeLine,
}

/// Where a line has what is looked for; the lexer stands before the line. Where it has none, it is the line without the blanks around it.
pub(crate) fn place_in(lexer: &mut Lexer, line: &[u8], sought: Sought<'_>) -> Place
    ensures { IsPartOf line.now result }
{
    let found = match sought {
        Sought::WholeLine => None,
        Sought::NotUtf8 => place_of_bytes(line),
        Sought::LastCharacter => Some(Place {
            start: line.len().saturating_sub(1),
            end: line.len(),
        }),
        Sought::OpenString => place_of_string(lexer.chars(), line),
        _ => place_of_token(lexer, line, sought),
    };
    match found {
        Some(place) if place.start <= place.end && place.end <= line.len() => place,
        _ => without_blanks(line),
    }
}

// All of a line but the blanks around it.
fn without_blanks(line: &[u8]) -> Place
    ensures { IsPartOf line.now result }
{
    let end = line.trim_ascii_end().len().min(line.len());
    let start = line.len().saturating_sub(past_blanks(line).len());
    Place {
        start: start.min(end),
        end,
    }
}

// The first bytes of a line that are no UTF-8, if there are some.
fn place_of_bytes(line: &[u8]) -> Option<Place> {
    match from_utf8(line) {
        Ok(_) => None,
        Err(error) => {
            let start = error.valid_up_to();
            let end = match error.error_len() {
                Some(count) => start.saturating_add(count),
                None => line.len(),
            };
            Some(Place { start, end })
        }
    }
}

// Where a line has a token that is looked for, if it has one.
fn place_of_token(lexer: &mut Lexer, line: &[u8], sought: Sought<'_>) -> Option<Place> {
    let special = lexer.chars();
    let Ok(text) = from_utf8(line) else {
        return None;
    };
    let mut left = text;
    let mut in_string = false;
    for _ in 0..line.len() {
        let length = token_length(special, in_string, left)?;
        let (token, later) = left.split_at_checked(length)?;
        if is_sought(lexer, token, sought) {
            return Some(Place {
                start: line.len().saturating_sub(left.len()),
                end: line.len().saturating_sub(later.len()),
            });
        }
        in_string = in_string != (token == "\"");
        left = later;
    }
    None
}

// Where the string begins that is open at the end of a line, if one is.
fn place_of_string(special: Chars, line: &[u8]) -> Option<Place> {
    let Ok(text) = from_utf8(line) else {
        return None;
    };
    let mut left = text;
    let mut opened = None;
    for _ in 0..line.len() {
        let Some(length) = token_length(special, opened.is_some(), left) else {
            break;
        };
        let (token, later) = left.split_at_checked(length)?;
        if token == "\"" {
            opened = match opened {
                Some(_) => None,
                None => Some(line.len().saturating_sub(left.len())),
            };
        }
        left = later;
    }
    let start = opened?;
    Some(Place {
        start,
        end: line.len(),
    })
}

// How many bytes the token has that a text begins with, where a blank counts as one. None where no token is left.
fn token_length(special: Chars, in_string: bool, text: &str) -> Option<usize> {
    let first = text.chars().next()?;
    if first == '<' {
        return Some(symbol_length(special.escape, text));
    }
    if in_string {
        return Some(letter_length(special.escape, text));
    }
    if first == special.comment {
        return None;
    }
    if is_alone(first) {
        return Some(first.len_utf8());
    }
    Some(word_length(special, text))
}

// Whether a character is a token, or a blank, outside of words.
fn is_alone(c: char) -> bool {
    matches!(c, ' ' | '\t' | ';' | ',' | '"')
}

// How many bytes the symbol has that a text begins with: all of it, where it isn't closed.
fn symbol_length(escape: char, text: &str) -> usize {
    let mut length = 0usize;
    let mut literal = false;
    for c in text.chars() {
        length = length.saturating_add(c.len_utf8());
        if c == '>' && !literal {
            return length;
        }
        literal = c == escape && !literal;
    }
    length
}

// How many bytes the word has that a text begins with.
fn word_length(special: Chars, text: &str) -> usize {
    let mut length = 0usize;
    let mut literal = false;
    for c in text.chars() {
        if !literal && (is_alone(c) || c == '<' || c == special.comment) {
            return length;
        }
        length = length.saturating_add(c.len_utf8());
        literal = c == special.escape && !literal;
    }
    length
}

// How many bytes the character of a string has that a text begins with, its escape character among them.
fn letter_length(escape: char, text: &str) -> usize {
    let mut length = 0usize;
    for c in text.chars() {
        length = length.saturating_add(c.len_utf8());
        if c != escape || length > c.len_utf8() {
            return length;
        }
    }
    length
}

// Whether a token is one that is looked for.
fn is_sought(lexer: &mut Lexer, token: &str, sought: Sought<'_>) -> bool {
    match sought {
        Sought::Id(id) => spells(lexer.chars().escape, token, id),
        Sought::Keyword(word) => token.starts_with(word),
        Sought::FirstToken => token != " " && token != "\t",
        Sought::Refused(number) => is_refused(lexer, token, number),
        Sought::OpenString | Sought::NotUtf8 | Sought::LastCharacter | Sought::WholeLine => false,
    }
}

// Whether the lexer refuses a token by itself with the fault of this number.
fn is_refused(lexer: &mut Lexer, token: &str, number: u8) -> bool {
    let refused = match lexer.feed(token.as_bytes()) {
        Ok(line) => {
            drop(line);
            false
        }
        Err(fault) => fault.number() == number,
    };
    let _ = lexer.finish();
    refused
}

// Whether a token spells an identifier: a character by its code point, or as it is.
fn spells(escape: char, token: &str, id: &Id) -> bool {
    match id {
        Id::Named(name) => match inside(token) {
            Some(spelled) => is_same_unescaped(escape, spelled, name.get()),
            None => false,
        },
        Id::Char(c) => match inside(token) {
            Some(spelled) => code_point(spelled) == Some(u32::from(*c)),
            None => is_letter(escape, token, *c),
        },
        Id::Undefined => is_same_unescaped(escape, token, "UNDEFINED"),
    }
}

// What stands between the brackets of a symbol.
fn inside(token: &str) -> Option<&str> {
    let behind = token.strip_prefix("<")?;
    behind.strip_suffix(">")
}

// Whether a token is a character, perhaps behind an escape character.
fn is_letter(escape: char, token: &str, c: char) -> bool {
    let mut letters = token.chars();
    let mut first = letters.next();
    if first == Some(escape) {
        first = letters.next();
    }
    first == Some(c) && letters.next().is_none()
}

// The number of a code point, as `U0061`, if a symbol is one.
fn code_point(spelled: &str) -> Option<u32> {
    let digits = spelled.strip_prefix("U")?;
    if digits.len() < 4 || digits.len() > 8 {
        return None;
    }
    let mut number = 0u32;
    for digit in digits.chars() {
        number = number
            .saturating_mul(16)
            .saturating_add(digit.to_digit(16)?);
    }
    Some(number)
}

// Whether what is spelled is a text, escape characters taken away.
fn is_same_unescaped(escape: char, spelled: &str, text: &str) -> bool {
    let mut letters = text.chars();
    let mut literal = false;
    for c in spelled.chars() {
        if c == escape && !literal {
            literal = true;
        } else if letters.next() == Some(c) {
            literal = false;
        } else {
            return false;
        }
    }
    letters.next().is_none()
}
