//! The operands of `collating-element`: a name, the word `from`, and a string of characters.
//!
//! Each step is a definition of `specs/Elements.antt`. The string is read whole before its length is looked at, since a name in it
//! comes first among its faults. `characters` reads the string of any other line too.

ghost use Rattle.std.specs.Prelude.{◌≡◌, ◌≢◌, [], ◌∷◌, ◌++◌, ◌&&◌, nat_le, Ok, Err, IsTrue, IfOk, IfErr, OnOk, chars, string_bytes};
ghost use Rattle.coll_syntax.specs.Operands.{only, wanted};
ghost use Rattle.coll_syntax.specs.Elements.{element as spelled_element, from_text as spelled_from, text_in};
ghost use Rattle.coll_syntax.specs.Elements.{element_text as spelled_text, characters_of};
ghost use Rattle.coll_syntax.specs.Proper.{is_element_text as may_be_text};
ghost use Rattle.coll_syntax.specs.TakenMemory.{begins_with_symbol};
ghost use Rattle.coll_syntax.specs.declared.syntax_faults.SyntaxFault.TheVariants.{OutOfMemory};

use crate::SyntaxFault;
use crate::keywords::is_word;
use crate::operands::{copied_name, ended};
use coll_lex::{Piece, TextBuf, Token};
use std::alloc::{AllocError, Global};

/// Fewest characters that a collating element stands for.
pub(crate) const LEAST_ELEMENT_CHARS: usize = 2;

/// Most characters that a collating element stands for.
pub const MOST_ELEMENT_CHARS: usize = 16;

const _: () = prove!(LEAST_ELEMENT_CHARS == 2);

const _: () = prove!(MOST_ELEMENT_CHARS == 16);

/// The name of a collating element and its characters, in new memory.
pub(crate) fn element(alloc: Global, operands: &[Token]) -> Result<(TextBuf, TextBuf), SyntaxFault>
    ensures ok { IfOk result (λ read. spelled_element operands.now ≡ Ok (read.0, read.1)) }
    ensures err { IfErr result (λ fault. fault ≢ OutOfMemory → spelled_element operands.now ≡ Err fault) }
    ensures memory { IfErr result (λ fault. fault ≡ OutOfMemory → IsTrue (begins_with_symbol operands.now)) }
{
    let Some((operand, rest)) = operands.split_first() else {
        return Err(SyntaxFault::MissingOperand);
    };
    let Token::Symbol(name) = operand else {
        return Err(SyntaxFault::BadOperand);
    };
    let text = from_text(alloc, rest)?;
    let name = copied_name(alloc, name)?;
    Ok((name, text))
}

// The word `from` and the string.
fn from_text(alloc: Global, operands: &[Token]) -> Result<TextBuf, SyntaxFault>
    ensures ok { IfOk result (λ text. spelled_from operands.now ≡ Ok text) }
    ensures err { IfErr result (λ fault. fault ≢ OutOfMemory → spelled_from operands.now ≡ Err fault) }
{
    let Some((operand, rest)) = operands.split_first() else {
        return Err(SyntaxFault::MissingOperand);
    };
    if !is_word(operand, "from") {
        return Err(SyntaxFault::BadOperand);
    }
    let text = only_text(alloc, rest)?;
    Ok(text)
}

// One operand, the string of a collating element.
fn only_text(alloc: Global, operands: &[Token]) -> Result<TextBuf, SyntaxFault>
    ensures ok { IfOk result (λ text. only text_in operands.now ≡ Ok text) }
    ensures err { IfErr result (λ fault. fault ≢ OutOfMemory → only text_in operands.now ≡ Err fault) }
{
    let Some((operand, rest)) = operands.split_first() else {
        return Err(SyntaxFault::MissingOperand);
    };
    let Token::Text(pieces) = operand else {
        return Err(SyntaxFault::BadOperand);
    };
    let text = element_text(alloc, pieces.get())?;
    ended(text, rest)
}

// The characters that the string of a collating element spells.
fn element_text(alloc: Global, pieces: &[Piece]) -> Result<TextBuf, SyntaxFault>
    ensures ok { IfOk result (λ text. spelled_text pieces.now ≡ Ok text) }
    ensures err { IfErr result (λ fault. fault ≢ OutOfMemory → spelled_text pieces.now ≡ Err fault) }
{
    if pieces.is_empty() {
        return Err(SyntaxFault::EmptyString);
    }
    let text = characters(alloc, pieces)?;
    if pieces.len() < LEAST_ELEMENT_CHARS {
        return Err(SyntaxFault::ElementLength);
    }
    if pieces.len() > MOST_ELEMENT_CHARS {
        return Err(SyntaxFault::ElementLength);
    }
    Ok(text)
}

/// The characters of a string, in new memory. A name among them is `BadOperand`, and memory that is refused `OutOfMemory`.
pub fn characters(alloc: Global, pieces: &[Piece]) -> Result<TextBuf, SyntaxFault>
    ensures ok { IfOk result (λ text. wanted (characters_of pieces.now) ≡ Ok text) }
    ensures err { IfErr result (λ fault. fault ≢ OutOfMemory → wanted (characters_of pieces.now) ≡ Err fault) }
{
    let mut text = String::new(alloc);
    for piece in pieces {
        match piece {
            Piece::Char(c) => push(&mut text, *c)?,
            Piece::Name(_) => return Err(SyntaxFault::BadOperand),
        }
    }
    Ok(TextBuf::new(text))
}

// Puts a character at the end of a text.
fn push(text: &mut String, c: char) -> Result<(), AllocError>
    ensures { OnOk result (chars (string_bytes text.new) ≡ chars (string_bytes text.old) ++ c ∷ []) }
{
    text.push(c)?;
    Ok(())
}

/// Whether a text may be that of a collating element: 2 to 16 characters.
pub(crate) fn is_element_text(text: &str) -> bool
    ensures { result ≡ may_be_text (chars text.now) }
{
    is_element_length(text.chars().count())
}

// Whether a text of so many characters may be that of a collating element.
fn is_element_length(count: usize) -> bool
    ensures { result ≡ (nat_le 2 count && nat_le count 16) }
{
    if count < LEAST_ELEMENT_CHARS {
        return false;
    }
    count <= MOST_ELEMENT_CHARS
}
