//! The weights of an order line of a source: operands separated by semicolons.
//!
//! They are those of a table, and the ellipses `..`, `...` and `....`, which are the identifier itself: its own weight. An empty
//! string ignores the entry.

use crate::operands::{Unread, is_ellipsis};
use coll_lex::{ListBuf, Piece, Token};
use coll_syntax::{Id, MOST_WEIGHT_IDS, Weight, copied_name, id_of, is_word};
use std::alloc::{AllocError, Global};

/// The weights that the tokens behind an identifier spell; none where nothing stands there.
pub(crate) fn weights(alloc: Global, tokens: &[Token]) -> Result<Option<ListBuf<Weight>>, Unread> {
    if tokens.is_empty() {
        return Ok(None);
    }
    let mut weights = Vec::new(alloc);
    for operand in tokens.split(|token| matches!(token, Token::Semicolon)) {
        let weight = operand_weight(alloc, operand)?;
        weights.push(weight)?;
    }
    weights.shrink_to_fit();
    Ok(Some(ListBuf::new(weights)))
}

// The weight of one operand, which stands between two semicolons.
fn operand_weight(alloc: Global, operand: &[Token]) -> Result<Weight, Unread> {
    let Some((token, rest)) = operand.split_first() else {
        return Ok(Weight::Own);
    };
    if !rest.is_empty() {
        return Err(Unread::NoLine);
    }
    if is_ellipsis(token) {
        return Ok(Weight::Own);
    }
    if is_word(token, "IGNORE") {
        return Ok(Weight::Ignore);
    }
    match token {
        Token::Text(pieces) => string_weight(alloc, pieces.get()),
        token => one_weight(alloc, token),
    }
}

// The weight of one identifier.
fn one_weight(alloc: Global, token: &Token) -> Result<Weight, Unread> {
    match id_of(alloc, token)? {
        Some(Id::Undefined) | None => Err(Unread::NoLine),
        Some(id) => {
            let mut ids = Vec::with_capacity(alloc, 1)?;
            ids.push(id)?;
            Ok(Weight::Names(ListBuf::new(ids)))
        }
    }
}

// The weight that a string spells: its characters and names, at most as many as a weight may have.
fn string_weight(alloc: Global, pieces: &[Piece]) -> Result<Weight, Unread> {
    if pieces.is_empty() {
        return Ok(Weight::Ignore);
    }
    if pieces.len() > MOST_WEIGHT_IDS {
        return Err(Unread::NoLine);
    }
    let mut ids = Vec::with_capacity(alloc, pieces.len())?;
    for piece in pieces {
        let id = piece_id(alloc, piece)?;
        ids.push(id)?;
    }
    Ok(Weight::Names(ListBuf::new(ids)))
}

// The character or the name of a piece of a string.
fn piece_id(alloc: Global, piece: &Piece) -> Result<Id, AllocError> {
    match piece {
        Piece::Char(c) => Ok(Id::Char(*c)),
        Piece::Name(name) => {
            let name = copied_name(alloc, name)?;
            Ok(Id::Named(name))
        }
    }
}
