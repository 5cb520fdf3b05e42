//! Weights of an order line that are read where they stand, with no list of tokens.
//!
//! A weight is mostly one name or the character itself, and for a few lines a string of names; each is read from the text, and only what
//! is kept of it is made. The simple form is `weight_lists`, to which a line with any other weight is left; both have its definitions:
//! what an operand means is `weight`, and of a table's line of a character `kept_weights`.

ghost use Rattle.std.specs.Prelude.{◌≡◌, ◌<◌, ◌≤◌, [], ◌∷◌, length, chars, Ok, IfOk, IfSome};
ghost use Rattle.coll_lex.specs.PlainStrings.{piece_in};
ghost use Rattle.coll_lex.specs.PlainTexts.{IsReadWhole, plain_reading, token_in};
ghost use Rattle.coll_syntax.specs.PlainWeights.{IsInside, PutsOperand, is_own_char, operand_by, weights_by};
ghost use Rattle.coll_syntax.specs.Weights.{piece_id};

use crate::weight_lists::one_id;
use crate::weights::MOST_WEIGHT_IDS;
use crate::{Id, Weight};
use coll_lex::{Lexer, ListBuf, PlainPiece, PlainToken, TextBuf};
use std::alloc::{AllocError, Global};

/// The weights that a text spells, kept as those of this character, if one is given. None where a token of it has to be read otherwise.
pub(crate) fn plain_weights(
    alloc: Global,
    lexer: &Lexer,
    own: Option<char>,
    text: &str,
) -> Result<Option<ListBuf<Weight>>, AllocError>
    ensures read { IfOk result (λ read. IfSome read (λ weights.
        weights_by own (plain_reading lexer.now.special text.now).tokens ≡ Ok weights)) }
    ensures some { IfOk result (λ read. IfSome read (λ weights. 0 < length (plain_reading lexer.now.special text.now).tokens)) }
    ensures whole { IfOk result (λ read. IfSome read (λ weights. IsReadWhole lexer.now.special text.now)) }
{
    let mut weights = Vec::new(alloc);
    let mut rest = text;
    'operands: loop {
        let Some(behind) = put_weight(alloc, lexer, own, rest, &mut weights)? else {
            return Ok(None);
        };
        if lexer.is_over(behind) {
            weights.shrink_to_fit();
            return Ok(Some(ListBuf::new(weights)));
        }
        let Some((PlainToken::Semicolon, later)) = lexer.plain_token(behind) else {
            return Ok(None);
        };
        rest = later;
    }
}

// Puts the weight that a text begins with at the end of a list, and answers what follows it.
#[inline(always)]
fn put_weight<'a>(
    alloc: Global,
    lexer: &Lexer,
    own: Option<char>,
    text: &'a str,
    weights: &mut Vec<Weight>,
) -> Result<Option<&'a str>, AllocError>
    ensures { IfOk result (λ put. IfSome put (λ rest.
        PutsOperand own lexer.now.special text.now weights.old.items weights.new.items rest.now)) }
{
    if let Some(inside) = lexer.plain_string(text) {
        let Some((weight, behind)) = plain_string(alloc, lexer, inside)? else {
            return Ok(None);
        };
        weights.push(weight)?;
        return Ok(Some(behind));
    }
    if let Some(behind) = lexer.past_keyword(b"IGNORE", text) {
        weights.push(Weight::Ignore)?;
        return Ok(Some(behind));
    }
    let Some((token, behind)) = lexer.plain_token(text) else {
        return Ok(None);
    };
    let Some(weight) = plain_operand(alloc, own, token)? else {
        return Ok(None);
    };
    weights.push(weight)?;
    Ok(Some(behind))
}

// The weight of a string, from its inside, and what follows it. None where it has no piece, or too many.
fn plain_string<'a>(
    alloc: Global,
    lexer: &Lexer,
    inside: &'a str,
) -> Result<Option<(Weight, &'a str)>, AllocError>
    ensures { IfOk result (λ read. IfSome read (λ next. IsInside lexer.now.special inside.now next.0 next.1.now)) }
{
    let mut ids = Vec::with_capacity(alloc, piece_count(lexer, inside))?;
    let mut rest = inside;
    'pieces: loop {
        if let Some(behind) = lexer.past_string(rest) {
            if ids.is_empty() {
                return Ok(None);
            }
            return Ok(Some((Weight::Names(ListBuf::new(ids)), behind)));
        }
        let Some((piece, later)) = lexer.plain_piece(rest) else {
            return Ok(None);
        };
        if ids.len() == MOST_WEIGHT_IDS {
            return Ok(None);
        }
        let id = plain_id(alloc, piece)?;
        ids.push(id)?;
        rest = later;
    }
}

// How many pieces the inside of a string begins with that are read where they stand: no more than a weight may have.
fn piece_count(lexer: &Lexer, inside: &str) -> usize
    ensures { result ≤ 32 }
{
    let mut rest = inside;
    for count in 0..MOST_WEIGHT_IDS {
        let Some((_, later)) = lexer.plain_piece(rest) else {
            return count;
        };
        rest = later;
    }
    MOST_WEIGHT_IDS
}

// The character or the name of a piece of a string. A name is a copy.
fn plain_id(alloc: Global, piece: PlainPiece<'_>) -> Result<Id, AllocError>
    ensures { IfOk result (λ id. id ≡ piece_id (piece_in piece.entry)) }
{
    match piece {
        PlainPiece::Char(c) => Ok(Id::Char(c)),
        PlainPiece::Name(name) => {
            let name = TextBuf::copied(alloc, name)?;
            Ok(Id::Named(name))
        }
    }
}

// The weight of an operand that is this token alone, kept as on the line of this character, if one is given. None where it is none, or a
// word.
fn plain_operand(
    alloc: Global,
    own: Option<char>,
    token: PlainToken<'_>,
) -> Result<Option<Weight>, AllocError>
    ensures { IfOk result (λ read. IfSome read (λ weight. operand_by own (token_in token.entry ∷ []) ≡ Ok weight)) }
{
    match token {
        PlainToken::Symbol(name) => {
            let name = TextBuf::copied(alloc, name)?;
            let weight = one_id(alloc, Id::Named(name))?;
            Ok(Some(weight))
        }
        PlainToken::Char(c) => {
            if is_own_char(own, c) {
                return Ok(Some(Weight::Own));
            }
            let weight = one_id(alloc, Id::Char(c))?;
            Ok(Some(weight))
        }
        PlainToken::Word(_) | PlainToken::Semicolon => Ok(None),
    }
}

// Whether a character is the one of the line, if that is given.
fn is_own_char(own: Option<char>, c: char) -> bool
    ensures { result ≡ is_own_char own c }
{
    match own {
        Some(own) => c == own,
        None => false,
    }
}
