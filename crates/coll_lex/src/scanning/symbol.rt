//! The moves inside symbols, and what a symbol stands for once its `>` has been met.
//!
//! What stands between the brackets is decided after unescaping, by the characters alone.

ghost use Rattle.std.specs.Prelude.{◌≡◌, ◌≢◌, ◌<◌, ℕ, [], true, length, chars, Ok, Err, OnOk, IfOk, IfErr};
ghost use Rattle.std.specs.List.{list_all};
ghost use Rattle.coll_lex.specs.Runs.{is_graphic};
ghost use Rattle.coll_lex.specs.Marked.{Plain};
ghost use Rattle.coll_lex.specs.Tokens.{symbol_of, token_of};
ghost use Rattle.coll_lex.specs.declared.faults.LexFault.TheVariants.{OutOfMemory};

use super::{Mode, Scan};
use crate::limits::MOST_NAME_CHARS;
use crate::names::{code_point, has_name_chars};
use crate::{LexFault, Piece, TextBuf, Token};
use std::alloc::Global;

/// What a symbol stands for, by what is between its brackets.
pub(super) fn piece_of(alloc: Global, name: &str) -> Result<Piece, LexFault>
    ensures ok { IfOk result (λ piece. symbol_of (chars name.now) ≡ Ok piece) }
    ensures err { IfErr result (λ fault. fault ≢ OutOfMemory → symbol_of (chars name.now) ≡ Err fault) }
{
    if name.is_empty() {
        return Err(LexFault::EmptySymbol);
    }
    if let Some(number) = code_point(name) {
        let Some(c) = char::from_u32(number) else {
            return Err(LexFault::BadCodePoint);
        };
        return Ok(Piece::Char(c));
    }
    if !has_name_chars(name) {
        return Err(LexFault::BadName);
    }
    let name = TextBuf::copied(alloc, name)?;
    Ok(Piece::Name(name))
}

/// What a symbol stands for, by what is between its brackets: some ASCII, with no blank and no control character. As each byte
/// is a character that a name may have, they aren't looked at again, unless they spell a code point.
#[inline(always)]
pub(super) fn plain_piece(alloc: Global, name: &str) -> Result<Piece, LexFault>
    requires some { 0 < length name.now }
    requires graphic { list_all is_graphic name.now ≡ true }
    ensures ok { IfOk result (λ piece. symbol_of (chars name.now) ≡ Ok piece) }
    ensures err { IfErr result (λ fault. fault ≢ OutOfMemory → symbol_of (chars name.now) ≡ Err fault) }
{
    if let Some(number) = code_point(name) {
        let Some(c) = char::from_u32(number) else {
            return Err(LexFault::BadCodePoint);
        };
        return Ok(Piece::Char(c));
    }
    if name.len() > MOST_NAME_CHARS {
        return Err(LexFault::BadName);
    }
    let name = TextBuf::copied(alloc, name)?;
    Ok(Piece::Name(name))
}

/// The token of a symbol outside strings.
pub(super) fn token_of(piece: Piece) -> Token
    ensures { result ≡ token_of piece }
{
    match piece {
        Piece::Char(c) => Token::Char(c),
        Piece::Name(name) => Token::Symbol(name),
    }
}

impl Scan {
    ghost use Rattle.coll_lex.specs.Scanning.{TakesMark, Refuses};

    /// Reads a character of a symbol outside strings that is not escaped.
    pub(super) fn take_in_symbol(&mut self, c: char) -> Result<(), LexFault>
        requires { self.old.mode ≡ Mode.Symbol }
        ensures ok { OnOk result ((comment : ℕ) → TakesMark comment self.old (Plain c) self.new) }
        ensures err { IfErr result
            (λ fault. fault ≢ OutOfMemory → (comment : ℕ) → Refuses comment self.old (Plain c) fault) }
    {
        if c != '>' {
            self.partial.push(c)?;
            return Ok(());
        }
        let piece = self.end_symbol()?;
        self.tokens.push(token_of(piece))?;
        self.enter(Mode::Plain);
        Ok(())
    }

    /// Reads a character of a symbol in a string that is not escaped.
    pub(super) fn take_in_text_symbol(&mut self, c: char) -> Result<(), LexFault>
        requires { self.old.mode ≡ Mode.SymbolInText }
        ensures ok { OnOk result ((comment : ℕ) → TakesMark comment self.old (Plain c) self.new) }
        ensures err { IfErr result
            (λ fault. fault ≢ OutOfMemory → (comment : ℕ) → Refuses comment self.old (Plain c) fault) }
    {
        if c != '>' {
            self.partial.push(c)?;
            return Ok(());
        }
        let piece = self.end_symbol()?;
        self.pieces.push(piece)?;
        self.enter(Mode::Text);
        Ok(())
    }

    // What the symbol that ends here stands for.
    fn end_symbol(&mut self) -> Result<Piece, LexFault>
        ensures ok { IfOk result (λ piece. symbol_of self.old.partial ≡ Ok piece) }
        ensures err { IfErr result (λ fault. fault ≢ OutOfMemory → symbol_of self.old.partial ≡ Err fault) }
        ensures after { OnOk result (self.new ≡ record self.old { partial = [] }) }
    {
        let piece = piece_of(self.alloc, self.partial.get())?;
        self.partial.clear();
        Ok(piece)
    }
}
