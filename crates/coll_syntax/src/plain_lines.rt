//! Lines of a table that are read where they stand, with no list of tokens.
//!
//! Nearly all lines of a table declare a symbol, place one, or give a character weights that are names, characters, strings of names
//! or `IGNORE`. Such a line is read from its text, and each token is lent from there. Any other line is left to `parse_kept_line`, the
//! simple form, which says what all mean (`kept_line`); the clauses `read` and `whole` join both, and `Loader::take_physical` chooses.

ghost use Rattle.std.specs.Prelude.{◌≡◌, ◌<◌, [], ◌∷◌, ◌++◌, length, chars, Ok, IfOk, IfSome, IsSome, OnErr, IsTrue};
ghost use Rattle.coll_lex.specs.PlainTexts.{IsOver, IsReadWhole, plain_reading};
ghost use Rattle.coll_syntax.specs.KeptLines.{kept_line};
ghost use Rattle.coll_syntax.specs.declared.lines.TableLine.TheVariants.{Order};

use crate::plain_weights::plain_weights;
use crate::{Id, OrderLine, TableLine, Weight};
use coll_lex::{Lexer, ListBuf, PlainToken, TextBuf};
use std::alloc::{AllocError, Global};

/// What a line of a table says, as a loader keeps it, read from its text. None where it isn't the declaration of a symbol, nor the order
/// line of one, nor that of a character with weights, or where a token of it isn't lent. Names are copies. Memory is taken only where
/// the text has a token.
pub fn parse_plain_line(
    alloc: Global,
    lexer: &Lexer,
    text: &str,
) -> Result<Option<TableLine>, AllocError>
    ensures read { IfOk result (λ read. IfSome read (λ line. kept_line (plain_reading lexer.now.special text.now).tokens ≡ Ok line)) }
    ensures whole { IfOk result (λ read. IfSome read (λ line. IsReadWhole lexer.now.special text.now)) }
    ensures memory { OnErr result (0 < length (plain_reading lexer.now.special text.now).tokens) }
{
    let Some(behind) = lexer.past_keyword(b"collating-symbol", text) else {
        return plain_order(alloc, lexer, text);
    };
    let Some((PlainToken::Symbol(name), rest)) = lexer.plain_token(lexer.past_blank(behind)) else {
        return Ok(None);
    };
    match last_name(alloc, lexer, name, rest)? {
        Some(name) => Ok(Some(TableLine::Symbol(name))),
        None => Ok(None),
    }
}

// The order line that a text is, of a symbol or of a character with weights.
fn plain_order(alloc: Global, lexer: &Lexer, text: &str) -> Result<Option<TableLine>, AllocError>
    ensures read { IfOk result (λ read. IfSome read (λ line. kept_line (plain_reading lexer.now.special text.now).tokens ≡ Ok line)) }
    ensures whole { IfOk result (λ read. IfSome read (λ line. IsReadWhole lexer.now.special text.now)) }
    ensures memory { OnErr result (0 < length (plain_reading lexer.now.special text.now).tokens) }
{
    let Some((token, behind)) = lexer.plain_token(text) else {
        return Ok(None);
    };
    match token {
        PlainToken::Symbol(name) => match last_name(alloc, lexer, name, behind)? {
            Some(name) => Ok(Some(order_of(Id::Named(name), None))),
            None => Ok(None),
        },
        PlainToken::Char(own) => {
            match plain_weights(alloc, lexer, Some(own), lexer.past_blank(behind))? {
                Some(weights) => Ok(Some(order_of(Id::Char(own), Some(weights)))),
                None => Ok(None),
            }
        }
        PlainToken::Word(_) | PlainToken::Semicolon => Ok(None),
    }
}

// The order line of an identifier with these weights, if it has any.
fn order_of(id: Id, weights: Option<ListBuf<Weight>>) -> TableLine
    ensures { result ≡ Order (record { id = id; weights = weights }) }
{
    TableLine::Order(OrderLine { id, weights })
}

// A copy of a name, if nothing but a comment stands behind it.
fn last_name(
    alloc: Global,
    lexer: &Lexer,
    name: &str,
    behind: &str,
) -> Result<Option<TextBuf>, AllocError>
    ensures copy { IfOk result (λ last. IfSome last (λ copy. copy ≡ chars name.now)) }
    ensures over { IfOk result (λ last. IfSome last (λ copy. IsOver lexer.now.special behind.now)) }
{
    if !lexer.is_over(behind) {
        return Ok(None);
    }
    let copy = TextBuf::copied(alloc, name)?;
    Ok(Some(copy))
}
