//! The tokens of a line.
//!
//! These are plain data, which the lexer makes and the grammars above take apart. POSIX.1-2017, 7.3.2, has the
//! lines that they spell. A new kind of token is a new variant here, a case of the definition of tokens in
//! `specs/`, and a move of the scan.

use crate::{ListBuf, TextBuf};

/// The two characters that a text may choose for itself (POSIX.1-2017, 7.3).
#[derive(Clone, Copy, Debug, PartialEq, Eq)]
pub struct Chars {
    /// Begins a comment where no symbol and no string is open. At first `#`.
    pub comment: char,
    /// Makes the next character a literal one, and at a line's end joins the next line. At first `\`.
    pub escape: char,
}

/// A token of a line.
#[derive(Debug, Drop)]
pub enum Token {
    /// A run of characters outside symbols and strings, unescaped. It has at least one.
    Word(TextBuf),
    /// A symbol `<name>`, with its name unescaped.
    Symbol(TextBuf),
    /// A symbol `<Uxxxx>`: the character of that code point.
    Char(char),
    /// A string between quotation marks, perhaps empty.
    Text(ListBuf<Piece>),
    /// `;`
    Semicolon,
    /// `,`
    Comma,
}

/// A piece of a string.
#[derive(Debug, Drop)]
pub enum Piece {
    /// A character, as it stands, escaped, or as `<Uxxxx>`.
    Char(char),
    /// A symbol `<name>`.
    Name(TextBuf),
}

/// A logical line that has a token.
#[derive(Debug, Drop)]
pub struct Line {
    /// The number of its first physical line, from 1.
    pub number: u32,
    /// Its tokens, of which there is at least one.
    pub tokens: ListBuf<Token>,
}
