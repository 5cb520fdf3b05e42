//! How a line is spelled that the grammar refuses, where its words show what it is.
//!
//! What to do by the number of such a fault is said of all lines. Of a line with a keyword it is said here how that line is written; of
//! `%` and `#`, that they begin no comment; of letters that begin a line as a keyword does, how they are declared; of a name that
//! begins a line, or stands among weights, that it has brackets; and of symbols of which one follows another, that they have quotes.
//! A further keyword is a row here.

use crate::foreign_words::foreign_word;
use coll_advice::is_near;
use coll_lex::{Line, Token};
use coll_syntax::is_word;

// The numbers of a line that nothing begins, of an operand that is missing, of one too many, and of one of the wrong kind.
const UNKNOWN_STATEMENT: u8 = 20;

const MISSING_OPERAND: u8 = 21;

const EXTRA_OPERAND: u8 = 22;

const BAD_OPERAND: u8 = 29;

// What to write in place of a weight that is a word.
const NAMED: &str = "write a name between < and >, and part weights by ;";

// What to write in place of a comma among weights.
const SEMICOLON: &str = "part weights by ;, not by a comma";

// What to write in place of symbols among weights of which one follows another.
const QUOTED: &str =
    "part weights by ;, and put several symbols of one weight in quotes, as \"<BASE><TREMA>\"";

// What to write in place of a name that begins a line.
const BRACKETED: &str = "write a name between < and >";

// What is said of a word that is near to the weight which ignores.
const IGNORE_MEANT: &str = "IGNORE is meant?";

// What to write in place of letters that begin a line.
const DECLARED: &str =
    "write a name between < and >; letters that sort as one are declared by collating-element <X> from \"ab\", and placed as <X>";

// What is said of a line that begins with `%`, and of one with `#`.
const NO_COMMENT: &str = "% begins no comment here; behind a line comment_char % it does";

const NO_LONGER: &str =
    "# begins no comment here, since a line comment_char chose another character";

// Weights that are words.
const IGNORED: &str = "IGNORE";

const UNDEFINED: &str = "UNDEFINED";

// Most letters of a word that is no keyword for its length.
const MOST_LETTERS: usize = 3;

// Fewest digits of a name that is spelled by a code point.
const LEAST_DIGITS: usize = 4;

// Each keyword with operands of its own, and how its line is written.
const SPELLED: &[(&str, &str)] = &[
    (
        "collating-symbol",
        "write collating-symbol <X>, with the name between < and >; a character, as <U0061>, isn't declared",
    ),
    (
        "collating-element",
        "write collating-element <X> from \"ab\", with the name between < and >, and the characters in quotes",
    ),
    (
        "symbol-equivalence",
        "write symbol-equivalence <X> <Y>, with both names between < and >",
    ),
    ("script", "write script <N>, with the name between < and >"),
    (
        "section",
        "write section <N>, with the name between < and >",
    ),
    (
        "reorder-after",
        "write reorder-after and one identifier, a character or a name between < and >",
    ),
    (
        "reorder-end",
        "write reorder-end alone, with nothing behind it",
    ),
    (
        "reorder-section-after",
        "write reorder-section-after <S> <T>, with both names between < and >",
    ),
    (
        "copy",
        "write copy \"NAME\", which has no effect here; import-delta follows it",
    ),
    ("order_end", "write order_end alone"),
    ("LC_COLLATE", "write LC_COLLATE alone"),
    ("END", "write END LC_COLLATE"),
];

/// How a line is written that is refused with this number, where that says more than the number.
pub fn advice_on_operands(line: &Line, number: u8) -> Option<&'static str> {
    let tokens = line.tokens.get();
    let (first, operands) = tokens.split_first()?;
    match number {
        UNKNOWN_STATEMENT => advice_on_first(first, tokens),
        MISSING_OPERAND => written_with(first),
        EXTRA_OPERAND => written_with(first)
            .or(advice_on_sign(first))
            .or(advice_on_joined(operands)),
        BAD_OPERAND => written_with(first)
            .or(advice_on_sign(first))
            .or(advice_on_weights(first, operands)),
        _ => None,
    }
}

// How a line is written that begins with this keyword, if it is one.
fn written_with(first: &Token) -> Option<&'static str> {
    let Token::Word(word) = first else {
        return None;
    };
    for (keyword, written) in SPELLED {
        if *keyword == word.get() {
            return Some(*written);
        }
    }
    None
}

// What is said of a line that begins with a sign, as one that is meant as a comment.
fn advice_on_sign(first: &Token) -> Option<&'static str> {
    match first {
        Token::Word(word) if word.get().starts_with('%') => Some(NO_COMMENT),
        Token::Word(word) if word.get().starts_with('#') => Some(NO_LONGER),
        _ => None,
    }
}

// What is said of the first word of a line, where it begins none: of a comment, of letters, and of a name.
fn advice_on_first(first: &Token, tokens: &[Token]) -> Option<&'static str> {
    match first {
        Token::Word(word) if are_letters(word.get().as_bytes()) => match foreign_word(tokens) {
            Some(_) => None,
            None => Some(DECLARED),
        },
        Token::Word(word) if is_of_code_point(word.get().as_bytes()) => Some(BRACKETED),
        _ => advice_on_sign(first),
    }
}

// Whether a word is a capital letter and hexadecimal digits, as names of characters are, and of their symbols in published tables.
fn is_of_code_point(word: &[u8]) -> bool {
    match word {
        [first, digits @ ..] => {
            first.is_ascii_uppercase()
                && digits.len() >= LEAST_DIGITS
                && digits.iter().all(u8::is_ascii_hexdigit)
        }
        _ => false,
    }
}

// Whether a word is of letters that no keyword is: a few, or one of them beyond those of keywords.
fn are_letters(word: &[u8]) -> bool {
    !word.iter().all(u8::is_ascii)
        || (word.len() <= MOST_LETTERS && word.iter().all(u8::is_ascii_alphabetic))
}

// What is said of the first comma among weights, or word of several characters that doesn't ignore; nothing of rules, which commas join.
fn advice_on_weights(first: &Token, operands: &[Token]) -> Option<&'static str> {
    if is_word(first, "order_start") {
        return None;
    }
    for token in operands {
        match token {
            Token::Comma => return Some(SEMICOLON),
            Token::Word(word) if word.get() != IGNORED && word.get().chars().nth(1).is_some() => {
                return advice_on_word(word.get());
            }
            _ => {}
        }
    }
    None
}

// What is said of a symbol directly behind another one among weights.
fn advice_on_joined(operands: &[Token]) -> Option<&'static str> {
    let mut behind_symbol = false;
    for token in operands {
        let is_symbol = matches!(token, Token::Symbol(_) | Token::Char(_));
        if is_symbol && behind_symbol {
            return Some(QUOTED);
        }
        behind_symbol = is_symbol;
    }
    None
}

// What is said of a word among weights: nothing of a range, and of what stands for all that is undefined.
fn advice_on_word(word: &str) -> Option<&'static str> {
    if word.starts_with('.') || word == UNDEFINED {
        return None;
    }
    if is_near(IGNORED, word) {
        return Some(IGNORE_MEANT);
    }
    Some(NAMED)
}
