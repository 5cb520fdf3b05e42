//! The moves outside symbols and strings: words, separators, and what begins a symbol, a string or a comment.
//!
//! The tests stand in the order of the kinds of characters (`specs/Kinds.antt`), so that nothing need be known of the
//! comment character.

ghost use Rattle.std.specs.Prelude.{◌≡◌, ◌≢◌, ◌<◌, ℕ, [], ◌∷◌, ◌++◌, length, OnOk, OnErr, IfErr};
ghost use Rattle.coll_lex.specs.Marked.{Plain, Literal};
ghost use Rattle.coll_lex.specs.declared.faults.LexFault.TheVariants.{OutOfMemory};

use super::{Mode, Scan, is_constant};
use crate::blanks::is_blank;
use crate::{LexFault, ListBuf, TextBuf, Token};
use std::alloc::AllocError;

impl Scan {
    ghost use Rattle.coll_lex.specs.Scanning.{TakesMark, Refuses, Gathers, word_token};

    /// Reads a character outside symbols and strings that is not escaped.
    pub(super) fn take_outside(&mut self, comment: char, c: char) -> Result<(), AllocError>
        requires { self.old.mode ≡ Mode.Plain }
        ensures ok { OnOk result (TakesMark comment self.old (Plain c) self.new) }
        ensures memory { OnErr result (Gathers comment self.old (Plain c)) }
    {
        if c == '<' {
            self.end_word()?;
            self.enter(Mode::Symbol);
            return Ok(());
        }
        if is_blank(c) {
            self.end_word()?;
            return Ok(());
        }
        if c == ';' {
            self.separate(Token::Semicolon)?;
            return Ok(());
        }
        if c == ',' {
            self.separate(Token::Comma)?;
            return Ok(());
        }
        if c == comment {
            self.end_word()?;
            self.enter(Mode::Comment);
            return Ok(());
        }
        if c == '"' {
            self.begin_text()?;
            return Ok(());
        }
        self.partial.push(c)?;
        Ok(())
    }

    /// Reads an escaped character outside symbols and strings.
    pub(super) fn take_literal_outside(&mut self, c: char) -> Result<(), LexFault>
        requires { self.old.mode ≡ Mode.Plain }
        ensures ok { OnOk result ((comment : ℕ) → TakesMark comment self.old (Literal c) self.new) }
        ensures err { IfErr result
            (λ fault. fault ≢ OutOfMemory → (comment : ℕ) → Refuses comment self.old (Literal c) fault) }
    {
        if is_constant(c) {
            return Err(LexFault::CharacterConstant);
        }
        self.partial.push(c)?;
        Ok(())
    }

    /// Makes a token of the word so far, if one has begun.
    #[inline(always)]
    pub(super) fn end_word(&mut self) -> Result<(), AllocError>
        ensures ok { OnOk result
            (self.new ≡ record self.old { partial = []; tokens = self.old.tokens ++ word_token self.old.partial }) }
        ensures memory { OnErr result (0 < length self.old.partial) }
    {
        if self.partial.is_empty() {
            return Ok(());
        }
        self.make_word()?;
        Ok(())
    }

    // Makes a token of the word so far, which has begun.
    fn make_word(&mut self) -> Result<(), AllocError>
        requires { 0 < length self.old.partial }
        ensures { OnOk result
            (self.new ≡ record self.old { partial = []; tokens = self.old.tokens ++ word_token self.old.partial }) }
    {
        let word = TextBuf::copied(self.alloc, self.partial.get())?;
        self.tokens.push(Token::Word(word))?;
        self.partial.clear();
        Ok(())
    }

    // Ends the word so far, and puts a separator after it.
    fn separate(&mut self, separator: Token) -> Result<(), AllocError>
        ensures { OnOk result
            (self.new ≡ record self.old { partial = []; tokens = (self.old.tokens ++ word_token self.old.partial) ++ separator ∷ [] }) }
    {
        self.end_word()?;
        self.tokens.push(separator)?;
        Ok(())
    }

    // Ends the word so far, and begins a string after it.
    fn begin_text(&mut self) -> Result<(), AllocError>
        ensures { OnOk result
            (self.new ≡ record self.old {
              mode = Mode.Text;
              partial = [];
              pieces = [];
              tokens = self.old.tokens ++ word_token self.old.partial;
            }) }
    {
        self.end_word()?;
        self.pieces = ListBuf::empty(self.alloc);
        self.enter(Mode::Text);
        Ok(())
    }
}
