//! Order lines, read token by token where they stand.
//!
//! Nearly all lines of a source are an identifier, alone or with weights that are identifiers, `IGNORE` or strings of symbols, and
//! mostly a comment behind them. Such a line is read from its text, each token lent from there, so that no list of tokens is made and
//! nothing of the comment is looked at. What a line says is what `grammar` says of its tokens; any other line is left to it.
//!
//! The simple form is `grammar`, to which escapes, ranges, ellipses and lines that are no order lines are left; the test `order_lines` of
//! `coll_tests` compares both.

ghost use Rattle.std.specs.Prelude.{◌≡◌, chars};
ghost use Rattle.coll_lex.specs.Marked.{is_joined};
ghost use Rattle.coll_lex.specs.PlainTexts.{plain_reading};

use coll_lex::{Chars, Lexer, ListBuf, PlainToken, TextBuf};
use coll_syntax::{Id, MOST_WEIGHT_IDS, OrderLine, Weight};
use std::alloc::{AllocError, Global};

/// The order line that the text of a line spells, names copied. None where it is another line, or where a token of it isn't lent.
pub(crate) fn plain_order(
    alloc: Global,
    lexer: &Lexer,
    text: &str,
) -> Result<Option<OrderLine>, AllocError> {
    let Some((token, behind)) = lexer.plain_token(past_blanks(lexer, text)) else {
        return Ok(None);
    };
    let Some(id) = plain_id(alloc, token)? else {
        return Ok(None);
    };
    let rest = past_blanks(lexer, behind);
    if lexer.is_over(rest) {
        return Ok(Some(OrderLine { id, weights: None }));
    }
    match plain_weights(alloc, lexer, rest)? {
        Some(weights) => Ok(Some(OrderLine {
            id,
            weights: Some(weights),
        })),
        None => {
            drop(id);
            Ok(None)
        }
    }
}

// The identifier that a symbol is; none for another token.
fn plain_id(alloc: Global, token: PlainToken<'_>) -> Result<Option<Id>, AllocError> {
    match token {
        PlainToken::Symbol(name) => Ok(Some(Id::Named(TextBuf::copied(alloc, name)?))),
        PlainToken::Char(c) => Ok(Some(Id::Char(c))),
        PlainToken::Word(_) | PlainToken::Semicolon => Ok(None),
    }
}

// The text without the blanks that it begins with.
fn past_blanks<'a>(lexer: &Lexer, text: &'a str) -> &'a str
    ensures reads { plain_reading lexer.now.special result.now ≡ plain_reading lexer.now.special text.now }
    ensures ends { is_joined lexer.now.special.escape (chars result.now) ≡ is_joined lexer.now.special.escape (chars text.now) }
{
    let mut rest = text;
    'blanks: for _ in 0..text.len() {
        let behind = lexer.past_blank(rest);
        if behind.len() == rest.len() {
            return rest;
        }
        rest = behind;
    }
    rest
}

// The weights that a text spells up to its end or a comment, with semicolons between them.
fn plain_weights(
    alloc: Global,
    lexer: &Lexer,
    text: &str,
) -> Result<Option<ListBuf<Weight>>, AllocError> {
    let mut weights = Vec::new(alloc);
    let mut rest = text;
    for _ in 0..text.len() {
        let Some((weight, behind)) = plain_weight(alloc, lexer, rest)? else {
            return Ok(None);
        };
        weights.push(weight)?;
        let behind = past_blanks(lexer, behind);
        if lexer.is_over(behind) {
            weights.shrink_to_fit();
            return Ok(Some(ListBuf::new(weights)));
        }
        let Some((PlainToken::Semicolon, later)) = lexer.plain_token(behind) else {
            return Ok(None);
        };
        rest = past_blanks(lexer, later);
    }
    Ok(None)
}

// The weight that a text begins with, and what follows it.
fn plain_weight<'a>(
    alloc: Global,
    lexer: &Lexer,
    text: &'a str,
) -> Result<Option<(Weight, &'a str)>, AllocError> {
    let Some((token, rest)) = lexer.plain_token(text) else {
        return string_weight(alloc, lexer, text);
    };
    if let PlainToken::Word(word) = token {
        return Ok(word_weight(word).map(|weight| (weight, rest)));
    }
    let Some(id) = plain_id(alloc, token)? else {
        return Ok(None);
    };
    let mut ids = Vec::with_capacity(alloc, 1)?;
    ids.push(id)?;
    Ok(Some((Weight::Names(ListBuf::new(ids)), rest)))
}

// The weight that a word spells: `IGNORE`, or `..`, which is the identifier itself.
fn word_weight(word: &str) -> Option<Weight> {
    match word {
        "IGNORE" => Some(Weight::Ignore),
        ".." | "..." | "...." => Some(Weight::Own),
        _ => None,
    }
}

// The weight of the string of symbols that a text begins with, and what follows it; an empty one ignores the entry.
fn string_weight<'a>(
    alloc: Global,
    lexer: &Lexer,
    text: &'a str,
) -> Result<Option<(Weight, &'a str)>, AllocError> {
    let special = lexer.chars();
    let Some(inside) = behind_mark(special, text) else {
        return Ok(None);
    };
    let count = count_symbols(inside);
    if count > MOST_WEIGHT_IDS {
        return Ok(None);
    }
    if let Some(rest) = behind_mark(special, inside) {
        return Ok(Some((Weight::Ignore, rest)));
    }
    let mut ids = Vec::with_capacity(alloc, count)?;
    let mut left = inside;
    for _ in 0..count {
        let Some((token, behind)) = lexer.plain_token(left) else {
            return Ok(None);
        };
        let Some(id) = plain_id(alloc, token)? else {
            return Ok(None);
        };
        ids.push(id)?;
        if let Some(rest) = behind_mark(special, behind) {
            return Ok(Some((Weight::Names(ListBuf::new(ids)), rest)));
        }
        left = behind;
    }
    Ok(None)
}

// What follows the quotation mark that a text begins with, if it does.
fn behind_mark(special: Chars, text: &str) -> Option<&str> {
    if special.comment == '"' || special.escape == '"' {
        return None;
    }
    text.strip_prefix('"')
}

// How many symbols stand before the next quotation mark, at most.
fn count_symbols(text: &str) -> usize {
    text.bytes()
        .take_while(|byte| *byte != b'"')
        .filter(|byte| *byte == b'<')
        .count()
}
