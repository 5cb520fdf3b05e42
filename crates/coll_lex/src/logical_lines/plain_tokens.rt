//! Lines whose tokens are read where they stand.
//!
//! A line that makes no token is faster by far: who reads it asks for one token after another, and each is lent from the line, as
//! long as it is a symbol or a word with no escape in it, or a semicolon, up to the line's end or its comment. What is none of these
//! is left to `feed`, the simple form, which takes the line from its beginning. What a token is isn't stated here: each is that of the
//! reading (`plain_reading`), proved from the moves of the scan, by which both are joined.

ghost use Rattle.std.specs.Prelude.{◌≡◌, ◌<◌, ◌==◌, ◌||◌, ◌∷◌, ◌++◌, [], ◌+◌, length, false, true, chars, IsTrue, IsUtf8, None, Ok, Some, IfSome, IfNone};
ghost use Rattle.std.specs.Bool.{OnTrue};
ghost use Rattle.std.specs.List.{list_all};
ghost use Rattle.coll_lex.specs.PlainStrings.{piece_in};
ghost use Rattle.coll_lex.specs.PlainTexts.{IsNext, IsOver, IsPlainLine, IsWholeWord, plain_reading, token_in};
ghost use Rattle.coll_lex.specs.Runs.{begins_with_separator, is_keyword_byte};
ghost use Rattle.coll_lex.specs.Tokens.{token_of};

use super::plain_strings::{PlainPiece, symbol_piece};
use super::{Lexer, text_of};
use crate::blanks::is_blank;
use crate::directives::is_no_directive;
use crate::scanning::{
    begins_comment, begins_with_separator, blanks_length, whole_symbol, word_length,
};
use crate::{Chars, MOST_LINES};
use coll_devices::{MOST_LINE_BYTES, without_return};

/// A token that a text begins with, lent where it stands.
#[derive(Clone, Copy)]
pub enum PlainToken<'a> {
    /// A word.
    Word(&'a str),
    /// A symbol that is a name.
    Symbol(&'a str),
    /// A symbol that is a code point.
    Char(char),
    /// `;`
    Semicolon,
}

// The token of a symbol that stands for this.
fn token_of(piece: PlainPiece<'_>) -> PlainToken<'_>
    ensures { token_in result ≡ token_of (piece_in piece.entry) }
{
    match piece {
        PlainPiece::Name(name) => PlainToken::Symbol(name),
        PlainPiece::Char(c) => PlainToken::Char(c),
    }
}

// The word that a text begins with, and what follows it, where that is a separator or nothing.
fn whole_word(special: Chars, text: &str) -> Option<(&str, &str)>
    ensures { IfSome result (λ parts. IsWholeWord special text.now parts.0.now parts.1.now) }
{
    let length = word_length(special, text.as_bytes());
    if length == 0 {
        return None;
    }
    let (word, rest) = text.split_at(length);
    if ends_word(special.escape, rest) {
        Some((word, rest))
    } else {
        None
    }
}

// Whether a character may stand in a keyword.
fn is_in_keyword(c: char) -> bool
    ensures { result ≡ is_keyword_byte c }
{
    ('a' <= c && c <= 'z') || ('A' <= c && c <= 'Z') || c == '-'
}

// What follows a keyword, where a text begins with it.
fn behind_keyword<'a>(word: &[u8], text: &'a str) -> Option<&'a str>
    requires { IsTrue (list_all is_keyword_byte word.now) }
    ensures { IfSome result (λ rest. text.now ≡ word.now ++ rest.now) }
{
    if text.as_bytes().starts_with(word) {
        Some(&text[word.len()..])
    } else {
        None
    }
}

// Whether a word ends before this text.
fn ends_word(escape: char, rest: &str) -> bool
    ensures { result ≡ (length rest.now == 0 || begins_with_separator escape rest.now) }
{
    rest.is_empty() || begins_with_separator(escape, rest.as_bytes())
}

// What follows a keyword, where a text begins with it, and a separator or nothing comes after it.
fn past_keyword<'a>(special: Chars, word: &[u8], text: &'a str) -> Option<&'a str>
    requires word { IsTrue (list_all is_keyword_byte word.now) }
    requires some { 0 < length word.now }
    ensures { IfSome result (λ rest. IsWholeWord special text.now word.now rest.now) }
{
    let rest = behind_keyword(word, text)?;
    if is_in_keyword(special.comment) || is_in_keyword(special.escape) {
        return None;
    }
    if ends_word(special.escape, rest) {
        Some(rest)
    } else {
        None
    }
}

impl Lexer {
    ghost use Rattle.coll_lex.specs.LogicalLines.{dropped};
    ghost use Rattle.coll_lex.specs.Marked.{is_joined};
    ghost use Rattle.coll_lex.specs.declared.tokens.Token.TheVariants.{Word};

    /// The text of a line that is read by `plain_token`, if it begins a logical line and no test refuses it before it is read. Once it
    /// is read to its end, `pass_line` counts it.
    pub fn plain_text<'a>(&self, line: &'a [u8]) -> Option<&'a str>
        ensures plain { IfSome result (λ text. IsPlainLine self.now line.now text.now) }
        ensures alone { IfSome result (λ text. self.now.line ≡ None) }
    {
        if self.open.is_some() || self.count == MOST_LINES || line.len() > MOST_LINE_BYTES {
            return None;
        }
        let bytes = without_return(line);
        if !is_no_directive(self.special, bytes) {
            return None;
        }
        match text_of(bytes) {
            Ok(text) => Some(text),
            Err(_) => None,
        }
    }

    /// The token that a text begins with, and what follows it. None where nothing is left, or where it has to be read otherwise.
    pub fn plain_token<'a>(&self, text: &'a str) -> Option<(PlainToken<'a>, &'a str)>
        ensures { IfSome result (λ next. IsNext self.now.special text.now (token_in next.0) next.1.now) }
    {
        if let Some((name, rest)) = whole_symbol(self.special.escape, text) {
            let piece = symbol_piece(name)?;
            return Some((token_of(piece), rest));
        }
        if !begins_with_separator(self.special.escape, text.as_bytes()) {
            let (word, rest) = whole_word(self.special, text)?;
            return Some((PlainToken::Word(word), rest));
        }
        if text.as_bytes()[0] != b';' {
            return None;
        }
        Some((PlainToken::Semicolon, &text[1..]))
    }

    /// What follows this word, where a text begins with it. None where it doesn't, or where it has to be read otherwise.
    pub fn past_keyword<'a>(&self, word: &[u8], text: &'a str) -> Option<&'a str>
        requires word { IsTrue (list_all is_keyword_byte word.now) }
        requires some { 0 < length word.now }
        ensures { IfSome result (λ rest. IsNext self.now.special text.now (Word (chars word.now)) rest.now) }
    {
        let rest = past_keyword(self.special, word, text)?;
        Some(rest)
    }

    /// Whether nothing is left of a text but blanks, and perhaps a comment. False also where it has to be read otherwise.
    pub fn is_over(&self, text: &str) -> bool
        ensures { OnTrue result (IsOver self.now.special text.now) }
    {
        let bytes = text.as_bytes();
        let blanks = blanks_length(self.special.escape, bytes);
        blanks == bytes.len() || begins_comment(self.special, bytes[blanks])
    }

    /// The text without the blank that it begins with, if it does.
    pub fn past_blank<'a>(&self, text: &'a str) -> &'a str
        ensures reads { plain_reading self.now.special result.now ≡ plain_reading self.now.special text.now }
        ensures ends { is_joined self.now.special.escape (chars result.now) ≡ is_joined self.now.special.escape (chars text.now) }
    {
        if !begins_with_separator(self.special.escape, text.as_bytes()) {
            return text;
        }
        if is_blank(char::from(text.as_bytes()[0])) {
            &text[1..]
        } else {
            text
        }
    }

    /// Counts a line that was read where it stands.
    #[inline(always)]
    pub fn pass_line(&mut self)
        ensures { self.new ≡ dropped self.old }
    {
        self.drop_line();
    }
}
