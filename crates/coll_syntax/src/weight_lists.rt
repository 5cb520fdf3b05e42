//! The weights of an order line: operands separated by semicolons.
//!
//! Each call is the definition of its name in `specs/Weights.antt`. The tokens are cut at the semicolons, and the
//! operands are read one after another, each from left to right.

ghost use Rattle.std.specs.Prelude.{◌≡◌, ◌≢◌, Ok, Err, IfOk, IfErr, map};
ghost use Rattle.coll_syntax.specs.KeptLines.{is_only, kept_weights as spelled_kept, kept_operand as spelled_kept_operand};
ghost use Rattle.coll_syntax.specs.Weights.{weights as spelled_weights, operand_weight as spelled_operand};
ghost use Rattle.coll_syntax.specs.Weights.{weight as spelled_weight, string_weight as spelled_string};
ghost use Rattle.coll_syntax.specs.Weights.{left_over as spelled_left_over, begins_operand as spelled_begin};
ghost use Rattle.coll_syntax.specs.Weights.{piece_id as spelled_piece, one_id};
ghost use Rattle.coll_syntax.specs.declared.syntax_faults.SyntaxFault.TheVariants.{OutOfMemory};

use crate::keywords::is_word;
use crate::operands::{char_or_name, copied_name, is_semicolon, only_char};
use crate::weights::MOST_WEIGHT_IDS;
use crate::{Id, SyntaxFault, Weight};
use coll_lex::{ListBuf, Piece, Token};
use std::alloc::{AllocError, Global};

/// The weights that the tokens behind an identifier spell.
pub(crate) fn weights(alloc: Global, tokens: &[Token]) -> Result<ListBuf<Weight>, SyntaxFault>
    ensures ok { IfOk result (λ read. spelled_weights tokens.now ≡ Ok read) }
    ensures err { IfErr result (λ fault. fault ≢ OutOfMemory → spelled_weights tokens.now ≡ Err fault) }
{
    let mut weights = Vec::new(alloc);
    for operand in tokens.split(is_semicolon) {
        let weight = operand_weight(alloc, operand)?;
        weights.push(weight)?;
    }
    weights.shrink_to_fit();
    Ok(ListBuf::new(weights))
}

/// The weights that the tokens behind a character spell. One that names only the character is the entry's own, and takes no memory:
/// most lines that a table has for a script of its own are so.
pub(crate) fn kept_weights(
    alloc: Global,
    own: char,
    tokens: &[Token],
) -> Result<ListBuf<Weight>, SyntaxFault>
    ensures ok { IfOk result (λ read. spelled_kept own tokens.now ≡ Ok read) }
    ensures err { IfErr result (λ fault. fault ≢ OutOfMemory → spelled_kept own tokens.now ≡ Err fault) }
{
    let mut weights = Vec::new(alloc);
    for operand in tokens.split(is_semicolon) {
        let weight = kept_operand(alloc, own, operand)?;
        weights.push(weight)?;
    }
    weights.shrink_to_fit();
    Ok(ListBuf::new(weights))
}

// The weight of one operand of the line of a character.
fn kept_operand(alloc: Global, own: char, operand: &[Token]) -> Result<Weight, SyntaxFault>
    ensures ok { IfOk result (λ read. spelled_kept_operand own operand.now ≡ Ok read) }
    ensures err { IfErr result (λ fault. fault ≢ OutOfMemory → spelled_kept_operand own operand.now ≡ Err fault) }
{
    if !is_only(own, operand) {
        return operand_weight(alloc, operand);
    }
    Ok(Weight::Own)
}

// Whether an operand is the code point of a character, and nothing else.
fn is_only(own: char, operand: &[Token]) -> bool
    ensures { result ≡ is_only own operand.now }
{
    match operand {
        [Token::Char(c)] => *c == own,
        _ => false,
    }
}

// The weight of one operand, which stands between two semicolons.
fn operand_weight(alloc: Global, operand: &[Token]) -> Result<Weight, SyntaxFault>
    ensures ok { IfOk result (λ read. spelled_operand operand.now ≡ Ok read) }
    ensures err { IfErr result (λ fault. fault ≢ OutOfMemory → spelled_operand operand.now ≡ Err fault) }
{
    let Some((token, rest)) = operand.split_first() else {
        return Ok(Weight::Own);
    };
    let read = weight(alloc, token)?;
    let Some((next, _)) = rest.split_first() else {
        return Ok(read);
    };
    Err(left_over(next))
}

// The weight that one token spells.
fn weight(alloc: Global, token: &Token) -> Result<Weight, SyntaxFault>
    ensures ok { IfOk result (λ read. spelled_weight token.now ≡ Ok read) }
    ensures err { IfErr result (λ fault. fault ≢ OutOfMemory → spelled_weight token.now ≡ Err fault) }
{
    if let Token::Text(pieces) = token {
        let weight = string_weight(alloc, pieces.get())?;
        return Ok(weight);
    }
    if is_word(token, "IGNORE") {
        return Ok(Weight::Ignore);
    }
    let Some(id) = char_or_name(alloc, token)? else {
        return Err(SyntaxFault::BadOperand);
    };
    let weight = one_id(alloc, id)?;
    Ok(weight)
}

/// The weight of one identifier.
pub(crate) fn one_id(alloc: Global, id: Id) -> Result<Weight, AllocError>
    ensures { IfOk result (λ weight. weight ≡ one_id id) }
{
    let mut ids = Vec::with_capacity(alloc, 1)?;
    ids.push(id)?;
    Ok(Weight::Names(ListBuf::new(ids)))
}

// The weight that a string spells: its characters and names, 1 to 32.
fn string_weight(alloc: Global, pieces: &[Piece]) -> Result<Weight, SyntaxFault>
    ensures ok { IfOk result (λ read. spelled_string pieces.now ≡ Ok read) }
    ensures err { IfErr result (λ fault. fault ≢ OutOfMemory → spelled_string pieces.now ≡ Err fault) }
{
    if pieces.is_empty() {
        return Err(SyntaxFault::EmptyString);
    }
    if pieces.len() > MOST_WEIGHT_IDS {
        return Err(SyntaxFault::WeightTooLong);
    }
    let ids = piece_ids(alloc, pieces)?;
    Ok(Weight::Names(ids))
}

// The identifiers of the pieces of a string.
fn piece_ids(alloc: Global, pieces: &[Piece]) -> Result<ListBuf<Id>, AllocError>
    ensures { IfOk result (λ ids. ids ≡ map spelled_piece pieces.now) }
{
    let mut ids = Vec::with_capacity(alloc, pieces.len())?;
    for piece in pieces {
        let id = piece_id(alloc, piece)?;
        ids.push(id)?;
    }
    Ok(ListBuf::new(ids))
}

// The character or the name of a piece of a string. A name is a copy, in new memory.
fn piece_id(alloc: Global, piece: &Piece) -> Result<Id, AllocError>
    ensures { IfOk result (λ id. id ≡ spelled_piece piece.now) }
{
    match piece {
        Piece::Char(c) => Ok(Id::Char(*c)),
        Piece::Name(name) => {
            let name = copied_name(alloc, name)?;
            Ok(Id::Named(name))
        }
    }
}

// The fault of a token that stands where a semicolon is wanted.
fn left_over(token: &Token) -> SyntaxFault
    ensures { result ≡ spelled_left_over token.now }
{
    if begins_operand(token) {
        SyntaxFault::ExtraOperand
    } else {
        SyntaxFault::BadOperand
    }
}

// Whether a token could begin an operand.
fn begins_operand(token: &Token) -> bool
    ensures { result ≡ spelled_begin token.now }
{
    if is_word(token, "IGNORE") {
        return true;
    }
    match token {
        Token::Text(_) | Token::Char(_) | Token::Symbol(_) => true,
        Token::Word(word) => only_char(word.get()).is_some(),
        Token::Semicolon | Token::Comma => false,
    }
}
