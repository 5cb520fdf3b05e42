//! The moves inside strings.
//!
//! Symbols in strings are in `symbol`. A character with a new meaning in strings is a test here, in the order of the
//! definition.

ghost use Rattle.std.specs.Prelude.{◌≡◌, ◌≢◌, ℕ, OnOk, IfErr};
ghost use Rattle.coll_lex.specs.Marked.{Plain, Literal};
ghost use Rattle.coll_lex.specs.declared.faults.LexFault.TheVariants.{OutOfMemory};

use super::{Mode, Scan, is_constant};
use crate::{LexFault, ListBuf, Piece, Token};
use std::alloc::AllocError;
use std::mem;

impl Scan {
    ghost use Rattle.coll_lex.specs.Scanning.{TakesMark, Refuses};

    /// Reads a character of a string that is not escaped.
    pub(super) fn take_in_text(&mut self, c: char) -> Result<(), AllocError>
        requires { self.old.mode ≡ Mode.Text }
        ensures { OnOk result ((comment : ℕ) → TakesMark comment self.old (Plain c) self.new) }
    {
        if c == '<' {
            self.enter(Mode::SymbolInText);
            return Ok(());
        }
        if c == '"' {
            let pieces = mem::replace(&mut self.pieces, ListBuf::empty(self.alloc));
            self.tokens.push(Token::Text(pieces))?;
            self.enter(Mode::Plain);
            return Ok(());
        }
        self.pieces.push(Piece::Char(c))?;
        Ok(())
    }

    /// Reads an escaped character of a string.
    pub(super) fn take_literal_in_text(&mut self, c: char) -> Result<(), LexFault>
        requires { self.old.mode ≡ Mode.Text }
        ensures ok { OnOk result ((comment : ℕ) → TakesMark comment self.old (Literal c) self.new) }
        ensures err { IfErr result
            (λ fault. fault ≢ OutOfMemory → (comment : ℕ) → Refuses comment self.old (Literal c) fault) }
    {
        if is_constant(c) {
            return Err(LexFault::CharacterConstant);
        }
        self.pieces.push(Piece::Char(c))?;
        Ok(())
    }
}
