//! The operands that several lines share: an identifier, a name, a pair of names, and the end of a line.
//!
//! Each call is the definition of its name in `specs/Identifier.antt` or `specs/Operands.antt`. What is found is lent
//! where it can be; a call that is handed an allocator takes memory.

ghost use Rattle.std.specs.Prelude.{◌≡◌, ◌≢◌, Ok, Err, IsTrue, IfOk, IfErr, OnErr, chars, nat_lt};
ghost use Rattle.std.specs.List.{list_all};
ghost use Rattle.coll_syntax.specs.Identifier.{id_of as spelled_id, char_or_name as spelled_char_or_name, only_char};
ghost use Rattle.coll_syntax.specs.Operands.{ended, only, name_in, word_in, id_in, string_in};
ghost use Rattle.coll_syntax.specs.Operands.{two_names as spelled_two, is_semicolon as separates};
ghost use Rattle.coll_syntax.specs.TakenMemory.{is_read, is_symbol, begins_with_symbol};
ghost use Rattle.coll_syntax.specs.declared.syntax_faults.SyntaxFault.TheVariants.{OutOfMemory};

use crate::keywords::is_word;
use crate::{Id, SyntaxFault};
use coll_lex::{Piece, TextBuf, Token};
use std::alloc::{AllocError, Global};

/// A copy of a name. A long one takes memory.
pub fn copied_name(alloc: Global, name: &TextBuf) -> Result<TextBuf, AllocError>
    ensures { IfOk result (λ copy. copy ≡ name.now) }
{
    let copy = TextBuf::copied(alloc, name.get())?;
    Ok(copy)
}

/// What is read, where no token is left over; otherwise `ExtraOperand`.
pub fn ended<T: Drop>(read: T, rest: &[Token]) -> Result<T, SyntaxFault>
    ensures { result ≡ ended read rest.now }
{
    if !rest.is_empty() {
        return Err(SyntaxFault::ExtraOperand);
    }
    Ok(read)
}

/// The identifier that a token spells, if it spells one. A name in it is a copy, in new memory.
pub fn id_of(alloc: Global, token: &Token) -> Result<Option<Id>, AllocError>
    ensures ok { IfOk result (λ id. id ≡ spelled_id token.now) }
    ensures memory { OnErr result (IsTrue (is_symbol token.now)) }
{
    if is_word(token, "UNDEFINED") {
        return Ok(Some(Id::Undefined));
    }
    let id = char_or_name(alloc, token)?;
    Ok(id)
}

/// The character or the name that a token spells, if it spells one. A name in it is a copy, in new memory.
pub(crate) fn char_or_name(alloc: Global, token: &Token) -> Result<Option<Id>, AllocError>
    ensures ok { IfOk result (λ id. id ≡ spelled_char_or_name token.now) }
    ensures memory { OnErr result (IsTrue (is_symbol token.now)) }
{
    match token {
        Token::Char(c) => Ok(Some(Id::Char(*c))),
        Token::Symbol(name) => {
            let name = copied_name(alloc, name)?;
            Ok(Some(Id::Named(name)))
        }
        Token::Word(word) => match only_char(word.get()) {
            Some(c) => Ok(Some(Id::Char(c))),
            None => Ok(None),
        },
        _ => Ok(None),
    }
}

/// The one character of a text that has no other.
pub(crate) fn only_char(text: &str) -> Option<char>
    ensures { result ≡ only_char (chars text.now) }
{
    let mut rest = text.chars();
    let first = rest.next()?;
    match rest.next() {
        Some(_) => None,
        None => Some(first),
    }
}

/// Whether a token is a semicolon, which separates operands.
pub(crate) fn is_semicolon(token: &Token) -> bool
    ensures { result ≡ separates token.now }
{
    match token {
        Token::Semicolon => true,
        _ => false,
    }
}

/// The one operand of a line, a symbol: its name.
pub(crate) fn only_name(operands: &[Token]) -> Result<&TextBuf, SyntaxFault>
    ensures ok { IfOk result (λ name. only name_in operands.now ≡ Ok name.now) }
    ensures err { IfErr result (λ fault. only name_in operands.now ≡ Err fault) }
    ensures spared { IfErr result (λ fault. fault ≢ OutOfMemory) }
{
    let Some((operand, rest)) = operands.split_first() else {
        return Err(SyntaxFault::MissingOperand);
    };
    let Token::Symbol(name) = operand else {
        return Err(SyntaxFault::BadOperand);
    };
    ended(name, rest)
}

/// The one operand of a line, a symbol: a copy of its name, in new memory.
pub(crate) fn only_copied_name(alloc: Global, operands: &[Token]) -> Result<TextBuf, SyntaxFault>
    ensures ok { IfOk result (λ name. only name_in operands.now ≡ Ok name) }
    ensures err { IfErr result (λ fault. fault ≢ OutOfMemory → only name_in operands.now ≡ Err fault) }
    ensures memory { IfErr result (λ fault. fault ≡ OutOfMemory → IsTrue (is_read (only name_in operands.now))) }
{
    let name = only_name(operands)?;
    let name = copied_name(alloc, name)?;
    Ok(name)
}

/// The two operands of a line, both symbols: copies of their names, in new memory.
pub(crate) fn two_names(
    alloc: Global,
    operands: &[Token],
) -> Result<(TextBuf, TextBuf), SyntaxFault>
    ensures ok { IfOk result (λ names. spelled_two operands.now ≡ Ok (names.0, names.1)) }
    ensures err { IfErr result (λ fault. fault ≢ OutOfMemory → spelled_two operands.now ≡ Err fault) }
    ensures memory { IfErr result (λ fault. fault ≡ OutOfMemory → IsTrue (is_read (spelled_two operands.now))) }
{
    let Some((operand, rest)) = operands.split_first() else {
        return Err(SyntaxFault::MissingOperand);
    };
    let Token::Symbol(first) = operand else {
        return Err(SyntaxFault::BadOperand);
    };
    let second = only_copied_name(alloc, rest)?;
    let first = copied_name(alloc, first)?;
    Ok((first, second))
}

/// The one operand of a line, an identifier. A name in it is a copy, in new memory.
pub(crate) fn only_id(alloc: Global, operands: &[Token]) -> Result<Id, SyntaxFault>
    ensures ok { IfOk result (λ id. only id_in operands.now ≡ Ok id) }
    ensures err { IfErr result (λ fault. fault ≢ OutOfMemory → only id_in operands.now ≡ Err fault) }
    ensures memory { IfErr result (λ fault. fault ≡ OutOfMemory → IsTrue (begins_with_symbol operands.now)) }
{
    let Some((operand, rest)) = operands.split_first() else {
        return Err(SyntaxFault::MissingOperand);
    };
    let Some(id) = id_of(alloc, operand)? else {
        return Err(SyntaxFault::BadOperand);
    };
    ended(id, rest)
}

/// The one operand of a line, the word that is spelled so.
pub(crate) fn only_word(operands: &[Token], spelling: &str) -> Result<(), SyntaxFault>
    requires { IsTrue (list_all (λ c. nat_lt c 128) spelling.now) }
    ensures word { result ≡ only (word_in spelling.now) operands.now }
    ensures spared { IfErr result (λ fault. fault ≢ OutOfMemory) }
{
    let Some((operand, rest)) = operands.split_first() else {
        return Err(SyntaxFault::MissingOperand);
    };
    if !is_word(operand, spelling) {
        return Err(SyntaxFault::BadOperand);
    }
    ended((), rest)
}

/// The one operand of a line, a string of any content.
pub(crate) fn only_string(operands: &[Token]) -> Result<&[Piece], SyntaxFault>
    ensures ok { IfOk result (λ pieces. only string_in operands.now ≡ Ok pieces.now) }
    ensures err { IfErr result (λ fault. only string_in operands.now ≡ Err fault) }
    ensures spared { IfErr result (λ fault. fault ≢ OutOfMemory) }
{
    let Some((operand, rest)) = operands.split_first() else {
        return Err(SyntaxFault::MissingOperand);
    };
    let Token::Text(pieces) = operand else {
        return Err(SyntaxFault::BadOperand);
    };
    ended(pieces.get(), rest)
}
