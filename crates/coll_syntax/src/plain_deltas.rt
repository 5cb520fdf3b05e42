//! Lines of a delta that are read where they stand, with no list of tokens.
//!
//! Nearly all lines of a large delta are order lines of its blocks. Such a line, and one that opens or ends a block, is read from its text,
//! and each token is lent from there. One with a token that isn't lent, one at fault and any other line are left to `parse_delta_line`,
//! the simple form; where one is read here, it says what it says there, by the same definition (`delta_line`).

ghost use Rattle.std.specs.Prelude.{◌≡◌, ◌<◌, length, chars, Some, Ok, IfOk, IfSome, OnErr};
ghost use Rattle.coll_lex.specs.PlainTexts.{IsReadWhole, plain_reading};
ghost use Rattle.coll_lex.specs.declared.tokens.Token.TheVariants.{Word};
ghost use Rattle.coll_syntax.specs.DeltaLines.{delta_line, delta_row};
ghost use Rattle.coll_syntax.specs.Operands.{id_in, only, read_as};
ghost use Rattle.coll_syntax.specs.OrderLines.{weighted};

use crate::plain_weights::plain_weights;
use crate::{DeltaLine, Id, OrderLine};
use coll_lex::{Lexer, PlainToken, TextBuf};
use std::alloc::{AllocError, Global};

/// What a line of a delta says, read from its text. None where it isn't a line of a block, nor one that opens or ends one, or
/// where a token of it isn't lent. Names are copies. Memory is taken only where the text has a token.
pub fn parse_plain_delta(
    alloc: Global,
    lexer: &Lexer,
    text: &str,
) -> Result<Option<DeltaLine>, AllocError>
    ensures read { IfOk result (λ read. IfSome read (λ line. delta_line (plain_reading lexer.now.special text.now).tokens ≡ Ok line)) }
    ensures whole { IfOk result (λ read. IfSome read (λ line. IsReadWhole lexer.now.special text.now)) }
    ensures memory { OnErr result (0 < length (plain_reading lexer.now.special text.now).tokens) }
{
    let Some((token, behind)) = lexer.plain_token(text) else {
        return Ok(None);
    };
    match token {
        PlainToken::Symbol(name) => {
            let name = TextBuf::copied(alloc, name)?;
            plain_order(alloc, lexer, Id::Named(name), behind)
        }
        PlainToken::Char(c) => plain_order(alloc, lexer, Id::Char(c), behind),
        PlainToken::Word(word) => block_limit(alloc, lexer, word, behind),
        PlainToken::Semicolon => Ok(None),
    }
}

// The order line of an identifier, of which this follows.
fn plain_order(
    alloc: Global,
    lexer: &Lexer,
    id: Id,
    behind: &str,
) -> Result<Option<DeltaLine>, AllocError>
    ensures read { IfOk result (λ read. IfSome read (λ line.
        read_as DeltaLine.Order (weighted (Some id) (plain_reading lexer.now.special behind.now).tokens) ≡ Ok line)) }
    ensures whole { IfOk result (λ read. IfSome read (λ line. IsReadWhole lexer.now.special behind.now)) }
{
    if lexer.is_over(behind) {
        return Ok(Some(DeltaLine::Order(OrderLine { id, weights: None })));
    }
    match plain_weights(alloc, lexer, None, lexer.past_blank(behind))? {
        Some(weights) => Ok(Some(DeltaLine::Order(OrderLine {
            id,
            weights: Some(weights),
        }))),
        None => Ok(None),
    }
}

// What a line says that begins with this word, where it opens or ends a block.
fn block_limit(
    alloc: Global,
    lexer: &Lexer,
    word: &str,
    behind: &str,
) -> Result<Option<DeltaLine>, AllocError>
    ensures read { IfOk result (λ read. IfSome read (λ line.
        delta_row (Word (chars word.now)) (plain_reading lexer.now.special behind.now).tokens ≡ Ok line)) }
    ensures whole { IfOk result (λ read. IfSome read (λ line. IsReadWhole lexer.now.special behind.now)) }
{
    if word == "reorder-after" {
        return block_start(alloc, lexer, lexer.past_blank(behind));
    }
    if word == "reorder-end" && lexer.is_over(behind) {
        return Ok(Some(DeltaLine::ReorderEnd));
    }
    Ok(None)
}

// The line that opens a block, from the text of its target.
fn block_start(alloc: Global, lexer: &Lexer, text: &str) -> Result<Option<DeltaLine>, AllocError>
    ensures read { IfOk result (λ read. IfSome read (λ line.
        read_as DeltaLine.ReorderAfter (only id_in (plain_reading lexer.now.special text.now).tokens) ≡ Ok line)) }
    ensures whole { IfOk result (λ read. IfSome read (λ line. IsReadWhole lexer.now.special text.now)) }
{
    let Some((token, behind)) = lexer.plain_token(text) else {
        return Ok(None);
    };
    if !lexer.is_over(behind) {
        return Ok(None);
    }
    match token {
        PlainToken::Symbol(name) => {
            let name = TextBuf::copied(alloc, name)?;
            Ok(Some(DeltaLine::ReorderAfter(Id::Named(name))))
        }
        PlainToken::Char(c) => Ok(Some(DeltaLine::ReorderAfter(Id::Char(c)))),
        PlainToken::Word(_) | PlainToken::Semicolon => Ok(None),
    }
}
