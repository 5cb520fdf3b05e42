//! Strings whose pieces are read where they stand.
//!
//! The strings of weights are mostly symbols: `"<S0063><S0068>"`. Each piece is lent from the line, as a token is (`plain_tokens`), so
//! that no list of pieces is made. What is no symbol, or has an escape in it, is left to `feed`. What a symbol stands for
//! (`symbol_piece`) is told for tokens too (`plain_token` of `plain_tokens`).

ghost use Rattle.std.specs.Prelude.{◌≡◌, ◌<◌, ◌==◌, ◌∷◌, length, false, true, chars, Ok, IfSome};
ghost use Rattle.std.specs.List.{list_all};
ghost use Rattle.coll_lex.specs.Characters.{quotation_mark};
ghost use Rattle.coll_lex.specs.PlainStrings.{BeginsString, EndsString, IsNextPiece, piece_in};
ghost use Rattle.coll_lex.specs.Runs.{is_graphic};
ghost use Rattle.coll_lex.specs.Tokens.{symbol_of};

use super::Lexer;
use crate::Chars;
use crate::limits::MOST_NAME_CHARS;
use crate::names::code_point;
use crate::scanning::whole_symbol;

/// A piece of a string, lent where it stands.
#[derive(Clone, Copy)]
pub enum PlainPiece<'a> {
    /// A symbol that is a name.
    Name(&'a str),
    /// A symbol that is a code point.
    Char(char),
}

// What a symbol stands for, by the text between its brackets. None where it is at fault.
pub(super) fn symbol_piece(name: &str) -> Option<PlainPiece<'_>>
    requires some { 0 < length name.now }
    requires graphic { list_all is_graphic name.now ≡ true }
    ensures { IfSome result (λ piece. symbol_of (chars name.now) ≡ Ok (piece_in piece)) }
{
    if let Some(number) = code_point(name) {
        let c = char::from_u32(number)?;
        return Some(PlainPiece::Char(c));
    }
    if name.len() > MOST_NAME_CHARS {
        return None;
    }
    Some(PlainPiece::Name(name))
}

// What follows the quotation mark that a text begins with, if it stands for no more.
fn past_mark<'a>(special: Chars, text: &'a str) -> Option<&'a str>
    ensures mark { IfSome result (λ rest. text.now ≡ quotation_mark ∷ rest.now) }
    ensures comment { IfSome result (λ rest. (special.comment == quotation_mark) ≡ false) }
    ensures escape { IfSome result (λ rest. (special.escape == quotation_mark) ≡ false) }
{
    let (first, _) = text.as_bytes().split_first()?;
    if *first != b'"' || special.comment == '"' || special.escape == '"' {
        return None;
    }
    Some(&text[1..])
}

impl Lexer {
    /// What follows the quotation mark that a text begins with: the inside of a string.
    pub fn plain_string<'a>(&self, text: &'a str) -> Option<&'a str>
        ensures { IfSome result (λ inside. BeginsString self.now.special text.now inside.now) }
    {
        let inside = past_mark(self.special, text)?;
        Some(inside)
    }

    /// The piece of a string that stands here, and what follows it. None where the string ends, or where it has to be read otherwise.
    pub fn plain_piece<'a>(&self, text: &'a str) -> Option<(PlainPiece<'a>, &'a str)>
        ensures { IfSome result (λ next. IsNextPiece self.now.special text.now (piece_in next.0) next.1.now) }
    {
        let (name, rest) = whole_symbol(self.special.escape, text)?;
        let piece = symbol_piece(name)?;
        Some((piece, rest))
    }

    /// What follows a string that ends here.
    pub fn past_string<'a>(&self, text: &'a str) -> Option<&'a str>
        ensures { IfSome result (λ rest. EndsString self.now.special text.now rest.now) }
    {
        let rest = past_mark(self.special, text)?;
        Some(rest)
    }
}
