//! What a line is about that says nothing, and is left out.

use coll_lex::{TextBuf, Token};
use coll_source_lines::Lost;
use coll_syntax::{Id, copied_name, id_of};
use std::alloc::{AllocError, Global};

/// What a line that is left out is about: the identifier that it begins with, or else the name behind its word, or that word. Where it
/// begins with a string, it is about the quotation mark.
pub(crate) fn subject_of(alloc: Global, tokens: &[Token]) -> Result<Option<Lost>, AllocError> {
    let Some((first, operands)) = tokens.split_first() else {
        return Ok(None);
    };
    match id_of(alloc, first) {
        Ok(Some(id)) => Ok(Some(Lost::Id(id))),
        Ok(None) => subject_behind(alloc, first, operands),
        Err(error) => Err(error),
    }
}

// What a line is about that begins with no identifier.
fn subject_behind(
    alloc: Global,
    first: &Token,
    operands: &[Token],
) -> Result<Option<Lost>, AllocError> {
    match (first, operands) {
        (Token::Word(_), [Token::Symbol(name), ..]) => {
            Ok(Some(Lost::Id(Id::Named(copied_name(alloc, name)?))))
        }
        _ => {
            let word = TextBuf::copied(alloc, shown(first))?;
            Ok(Some(Lost::Word(word)))
        }
    }
}

// The word of a token, or the mark that it begins with.
fn shown(token: &Token) -> &str {
    match token {
        Token::Word(word) => word.get(),
        Token::Symbol(_) | Token::Char(_) => "<",
        Token::Text(_) => "\"",
        Token::Semicolon => ";",
        Token::Comma => ",",
    }
}
