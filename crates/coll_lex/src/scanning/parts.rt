//! The parts of a physical line that the scan takes at once: whole symbols, words, separators and comments.
//!
//! A symbol with no escape in it, which nearly all are, becomes a token from the slice between its brackets, and is gathered
//! nowhere; so does a word that a separator follows. Another word is put to the one so far as a slice. A comment ends the
//! line, so nothing of it is looked at. All else is read by the moves of the modes, one character after another
//! (`take_chars`), which is the simple form. The clause `TakesPart` joins both, so what a line means is stated there alone.

ghost use Rattle.std.specs.Prelude.{◌≡◌, ◌≢◌, ◌==◌, ◌<◌, ◌≤◌, ◌&&◌, [], true, false, length, take, chars, IsTrue, OnOk, OnErr, IfOk, IfErr};
ghost use Rattle.std.specs.List.{list_all};
ghost use Rattle.coll_lex.specs.Tokens.{symbol_of};
ghost use Rattle.coll_lex.specs.Runs.{GivesSymbol, GivesPiece, TakesRun, is_graphic, is_word_byte, begins_with_separator};
ghost use Rattle.coll_lex.specs.declared.faults.LexFault.TheVariants.{OutOfMemory};

use super::runs::{begins_with_separator, whole_symbol, word_length};
use super::symbol::{plain_piece, token_of};
use super::{Mode, Scan};
use crate::blanks::is_blank;
use crate::{Chars, LexFault, TextBuf, Token};
use std::alloc::AllocError;

impl Scan {
    ghost use Rattle.coll_lex.specs.Scanning.{TakesPart, RefusesPart, GathersPart};

    /// Reads a part of a text, and lends what follows it.
    pub(super) fn take_part<'a>(
        &mut self,
        special: Chars,
        text: &'a str,
    ) -> Result<&'a str, LexFault>
        requires { 0 < length text.now }
        ensures ok { IfOk result (λ rest. TakesPart special self.old text.now self.new rest.now) }
        ensures shorter { IfOk result (λ rest. length rest.now < length text.now) }
        ensures err { IfErr result (λ fault. fault ≢ OutOfMemory → RefusesPart special self.old text.now fault) }
        ensures memory { IfErr result (λ fault. fault ≡ OutOfMemory → GathersPart special self.old text.now) }
    {
        if self.escaped {
            return self.take_chars(special, text);
        }
        match self.mode {
            Mode::Plain => self.take_part_outside(special, text),
            Mode::Symbol => self.take_chars(special, text),
            Mode::Text => self.take_part_in_text(special, text),
            Mode::SymbolInText => self.take_chars(special, text),
            Mode::Comment => Ok(""),
        }
    }

    // Reads a part of a text outside symbols and strings.
    fn take_part_outside<'a>(&mut self, special: Chars, text: &'a str) -> Result<&'a str, LexFault>
        requires some { 0 < length text.now }
        requires outside { self.old.mode ≡ Mode.Plain }
        requires unescaped { self.old.escaped ≡ false }
        ensures ok { IfOk result (λ rest. TakesPart special self.old text.now self.new rest.now) }
        ensures shorter { IfOk result (λ rest. length rest.now < length text.now) }
        ensures err { IfErr result (λ fault. fault ≢ OutOfMemory → RefusesPart special self.old text.now fault) }
        ensures memory { IfErr result (λ fault. fault ≡ OutOfMemory → GathersPart special self.old text.now) }
    {
        if let Some((name, rest)) = whole_symbol(special.escape, text) {
            self.take_symbol(name)?;
            if !begins_with_separator(special.escape, rest.as_bytes()) {
                return Ok(rest);
            }
            let rest = self.take_separator(special, rest)?;
            return Ok(rest);
        }
        let length = word_length(special, text.as_bytes());
        if length == 0 {
            return self.take_other(special, text);
        }
        self.take_word(special, text, length)
    }

    // Reads a separator where no word has begun, or else characters.
    fn take_other<'a>(&mut self, special: Chars, text: &'a str) -> Result<&'a str, LexFault>
        requires some { 0 < length text.now }
        requires outside { self.old.mode ≡ Mode.Plain }
        requires unescaped { self.old.escaped ≡ false }
        ensures ok { IfOk result (λ rest. TakesPart special self.old text.now self.new rest.now) }
        ensures shorter { IfOk result (λ rest. length rest.now < length text.now) }
        ensures err { IfErr result (λ fault. fault ≢ OutOfMemory → RefusesPart special self.old text.now fault) }
        ensures memory { IfErr result (λ fault. fault ≡ OutOfMemory → GathersPart special self.old text.now) }
    {
        if !self.is_whole(special.escape, text) {
            return self.take_chars(special, text);
        }
        let rest = self.take_separator(special, text)?;
        Ok(rest)
    }

    // Reads a word of this many bytes, or a part of one: where a separator follows the whole of it, it becomes a token at once.
    fn take_word<'a>(
        &mut self,
        special: Chars,
        text: &'a str,
        size: usize,
    ) -> Result<&'a str, LexFault>
        requires some { 0 < size }
        requires within { size ≤ length text.now }
        requires plain { list_all (is_word_byte special) (take size text.now) ≡ true }
        requires outside { self.old.mode ≡ Mode.Plain }
        requires unescaped { self.old.escaped ≡ false }
        ensures ok { IfOk result (λ rest. TakesPart special self.old text.now self.new rest.now) }
        ensures shorter { IfOk result (λ rest. length rest.now < length text.now) }
        ensures err { IfErr result (λ fault. fault ≡ OutOfMemory) }
    {
        let (word, rest) = text.split_at(size);
        if !self.is_whole(special.escape, rest) {
            self.partial.push_str(word)?;
            return Ok(rest);
        }
        let token = TextBuf::copied(self.alloc, word)?;
        self.tokens.push(Token::Word(token))?;
        let rest = self.take_separator(special, rest)?;
        Ok(rest)
    }

    // Whether a word that begins and ends here is a whole one: none has begun before it, and a separator follows.
    fn is_whole(&self, escape: char, rest: &str) -> bool
        ensures { result ≡ (length self.now.partial == 0 && begins_with_separator escape rest.now) }
    {
        self.partial.is_empty() && begins_with_separator(escape, rest.as_bytes())
    }

    // Reads the separator that a text begins with, where no word has begun.
    #[inline(always)]
    fn take_separator<'a>(&mut self, special: Chars, text: &'a str) -> Result<&'a str, AllocError>
        requires separator { begins_with_separator special.escape text.now ≡ true }
        requires outside { self.old.mode ≡ Mode.Plain }
        requires unescaped { self.old.escaped ≡ false }
        requires no_word { self.old.partial ≡ [] }
        ensures ok { IfOk result (λ rest. TakesRun special self.old text.now self.new rest.now) }
        ensures shorter { IfOk result (λ rest. length rest.now < length text.now) }
        ensures memory { OnErr result (GathersPart special self.old text.now) }
    {
        let first = text.as_bytes()[0];
        if is_blank(char::from(first)) {
            return Ok(&text[1..]);
        }
        if first == b';' {
            self.tokens.push(Token::Semicolon)?;
            return Ok(&text[1..]);
        }
        self.tokens.push(Token::Comma)?;
        Ok(&text[1..])
    }

    // Reads one character, and those behind it at which no other part can begin.
    fn take_chars<'a>(&mut self, special: Chars, text: &'a str) -> Result<&'a str, LexFault>
        requires { 0 < length text.now }
        ensures ok { IfOk result (λ rest. TakesPart special self.old text.now self.new rest.now) }
        ensures shorter { IfOk result (λ rest. length rest.now < length text.now) }
        ensures err { IfErr result (λ fault. fault ≢ OutOfMemory → RefusesPart special self.old text.now fault) }
        ensures memory { IfErr result (λ fault. fault ≡ OutOfMemory → GathersPart special self.old text.now) }
    {
        let mut rest = text;
        'chars: loop {
            rest = self.take_one(special, rest)?;
            if !self.is_within(rest) {
                return Ok(rest);
            }
        }
    }

    // Whether something stands here, and no part but a character can begin with it.
    #[inline(always)]
    fn is_within(&self, rest: &str) -> bool
        ensures { IsTrue result → 0 < length rest.now }
    {
        let Some((first, _)) = rest.as_bytes().split_first() else {
            return false;
        };
        if self.escaped || *first >= 0x80 {
            return true;
        }
        match self.mode {
            Mode::Plain => false,
            Mode::Symbol => true,
            Mode::Text => *first != b'<',
            Mode::SymbolInText => true,
            Mode::Comment => false,
        }
    }

    // Puts the token of a symbol behind the word so far.
    fn take_symbol(&mut self, name: &str) -> Result<(), LexFault>
        requires some { 0 < length name.now }
        requires graphic { list_all is_graphic name.now ≡ true }
        ensures ok { OnOk result (GivesSymbol self.old (symbol_of (chars name.now)) self.new) }
        ensures err { IfErr result (λ fault. fault ≢ OutOfMemory → symbol_of (chars name.now) ≡ Err fault) }
    {
        self.end_word()?;
        let piece = plain_piece(self.alloc, name)?;
        self.tokens.push(token_of(piece))?;
        Ok(())
    }

    // Reads a part of a string.
    fn take_part_in_text<'a>(&mut self, special: Chars, text: &'a str) -> Result<&'a str, LexFault>
        requires some { 0 < length text.now }
        requires inside { self.old.mode ≡ Mode.Text }
        requires unescaped { self.old.escaped ≡ false }
        ensures ok { IfOk result (λ rest. TakesPart special self.old text.now self.new rest.now) }
        ensures shorter { IfOk result (λ rest. length rest.now < length text.now) }
        ensures err { IfErr result (λ fault. fault ≢ OutOfMemory → RefusesPart special self.old text.now fault) }
        ensures memory { IfErr result (λ fault. fault ≡ OutOfMemory → GathersPart special self.old text.now) }
    {
        if let Some((name, rest)) = whole_symbol(special.escape, text) {
            self.take_piece(name)?;
            return Ok(rest);
        }
        self.take_chars(special, text)
    }

    // Puts the piece of a symbol behind those of the string so far.
    fn take_piece(&mut self, name: &str) -> Result<(), LexFault>
        requires some { 0 < length name.now }
        requires graphic { list_all is_graphic name.now ≡ true }
        ensures ok { OnOk result (GivesPiece self.old (symbol_of (chars name.now)) self.new) }
        ensures err { IfErr result (λ fault. fault ≢ OutOfMemory → symbol_of (chars name.now) ≡ Err fault) }
    {
        let piece = plain_piece(self.alloc, name)?;
        self.pieces.push(piece)?;
        self.enter(Mode::Text);
        Ok(())
    }
}
