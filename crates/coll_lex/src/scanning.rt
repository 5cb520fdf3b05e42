//! The scan of a logical line: one pass over it, physical line by physical line, in five modes.
//!
//! The scan has one state, `Scan`. It reads a line part by part: `parts` takes whole symbols and words as slices,
//! which `runs` finds by their bytes, and what is none of these character by character; of a comment nothing is read. The move for a character is `take`,
//! which first settles whether it is escaped and then hands it to the mode. The other modules below have the moves of the
//! modes: `word` outside symbols and strings, `symbol` inside symbols, `text` inside strings. A new kind of token needs a
//! move in one of them, and perhaps a mode. No contract above this module sees the state: each move is proved to keep what
//! is left to read (`reading_left` in `specs/Scanning.antt`), so a mode with a new field needs its case there.

ghost use Rattle.std.specs.Prelude.{◌≡◌, ◌≢◌, ◌<◌, ℕ, [], length, chars, OnOk, IfOk, IfErr, false, IfErr};
ghost use Rattle.coll_lex.specs.Marked.{Plain, Literal};
ghost use Rattle.coll_lex.specs.Tokens.{is_constant};
ghost use Rattle.coll_lex.specs.declared.faults.LexFault.TheVariants.{OutOfMemory};

mod parts;
mod runs;
mod symbol;
mod text;
mod word;

use crate::buffers::Gathered;
use crate::{Chars, LexFault, ListBuf, Piece, Token};
pub(crate) use runs::{
    begins_comment, begins_with_separator, blanks_length, whole_symbol, word_length,
};
use std::alloc::Global;

/// Where in a line the scan is.
#[derive(Clone, Copy, PartialEq, Eq)]
pub(crate) enum Mode {
    /// Outside symbols and strings, perhaps in a word.
    Plain,
    /// In a symbol, after its `<`.
    Symbol,
    /// In a string, after its `"`.
    Text,
    /// In a symbol in a string.
    SymbolInText,
    /// In a comment, up to the end of the physical line.
    Comment,
}

/// The state of the scan of a logical line.
#[derive(Drop)]
pub(crate) struct Scan {
    // The mode that the next character is met in.
    mode: Mode,
    // Whether the character before was an escape character, so that the next one is literal.
    escaped: bool,
    // The word so far in plain mode, and the name so far in a symbol.
    partial: Gathered,
    // The pieces so far of the string that is open.
    pieces: ListBuf<Piece>,
    // The tokens that are complete.
    tokens: ListBuf<Token>,
    alloc: Global,
}

// `d`, `x` or a digit 0 to 7: with an escape character before it, a character constant.
fn is_constant(c: char) -> bool
    ensures { result ≡ is_constant c }
{
    c == 'd' || c == 'x' || ('0' <= c && c <= '7')
}

impl Scan {
    ghost use Rattle.coll_lex.specs.Scanning.{fresh, goes_on, TakesMark, Refuses, TakesCharacter, RefusesCharacter, TakesLine};
    ghost use Rattle.coll_lex.specs.Scanning.{TakesPart, RefusesPart, GathersPart};
    ghost use Rattle.coll_lex.specs.Scanning.{RefusesLine, Gathers, GathersCharacter, GathersLine, IsInWord, ending};

    /// The scan at the beginning of a logical line. It takes no memory.
    pub(crate) fn new(alloc: Global) -> Scan
        ensures { result ≡ fresh alloc }
    {
        Scan {
            mode: Mode::Plain,
            escaped: false,
            partial: Gathered::empty(alloc),
            pieces: ListBuf::empty(alloc),
            tokens: ListBuf::empty(alloc),
            alloc,
        }
    }

    /// Reads one physical line, up to its end or to the first fault.
    pub(crate) fn take_line(&mut self, special: Chars, line: &str) -> Result<(), LexFault>
        requires { self.old.escaped ≡ false }
        ensures ok { OnOk result (TakesLine special self.old (chars line.now) self.new) }
        ensures err { IfErr result (λ fault. fault ≢ OutOfMemory → RefusesLine special self.old (chars line.now) fault) }
        ensures memory { IfErr result (λ fault. fault ≡ OutOfMemory → GathersLine special self.old (chars line.now)) }
    {
        let mut rest = line;
        'parts: while !rest.is_empty() {
            rest = self.take_part(special, rest)?;
        }
        Ok(())
    }

    /// Whether the physical line that was read last joins the next one: it ends with an escape character, and not
    /// in a comment.
    pub(crate) fn goes_on(&self) -> bool
        ensures { result ≡ goes_on self.now }
    {
        self.escaped && self.mode != Mode::Comment
    }

    /// Goes on in the next physical line.
    pub(crate) fn join(&mut self)
        ensures { self.new ≡ record self.old { escaped = false } }
    {
        self.escaped = false;
    }

    /// Ends the line: its tokens, unless a symbol or a string is open.
    #[inline(always)]
    pub(crate) fn into_tokens(mut self) -> Result<ListBuf<Token>, LexFault>
        ensures ok { IfOk result (λ tokens. ending self ≡ Ok tokens) }
        ensures err { IfErr result (λ fault. fault ≢ OutOfMemory → ending self ≡ Err fault) }
        ensures memory { IfErr result (λ fault. fault ≡ OutOfMemory → IsInWord self) }
    {
        match self.mode {
            Mode::Plain => {
                self.end_word()?;
                Ok(self.tokens)
            }
            Mode::Comment => Ok(self.tokens),
            Mode::Symbol => Err(LexFault::OpenSymbol),
            Mode::SymbolInText => Err(LexFault::OpenSymbol),
            Mode::Text => Err(LexFault::OpenString),
        }
    }

    // Reads one character of a text, and lends what follows it.
    #[inline(always)]
    fn take_one<'a>(&mut self, special: Chars, text: &'a str) -> Result<&'a str, LexFault>
        requires { 0 < length text.now }
        ensures ok { IfOk result (λ rest. TakesPart special self.old text.now self.new rest.now) }
        ensures shorter { IfOk result (λ rest. length rest.now < length text.now) }
        ensures err { IfErr result (λ fault. fault ≢ OutOfMemory → RefusesPart special self.old text.now fault) }
        ensures memory { IfErr result (λ fault. fault ≡ OutOfMemory → GathersPart special self.old text.now) }
    {
        let mut letters = text.chars();
        let Some(c) = letters.next() else {
            return Ok(text);
        };
        self.take(special, c)?;
        Ok(letters.as_str())
    }

    // Reads one character.
    fn take(&mut self, special: Chars, c: char) -> Result<(), LexFault>
        ensures ok { OnOk result (TakesCharacter special self.old c self.new) }
        ensures err { IfErr result (λ fault. fault ≢ OutOfMemory → RefusesCharacter special self.old c fault) }
        ensures memory { IfErr result (λ fault. fault ≡ OutOfMemory → GathersCharacter special self.old c) }
    {
        if self.escaped {
            self.escaped = false;
            self.take_literal(c)?;
            return Ok(());
        }
        if c == special.escape {
            self.escaped = true;
            return Ok(());
        }
        self.take_plain(special.comment, c)?;
        Ok(())
    }

    // Reads a character that is not escaped.
    fn take_plain(&mut self, comment: char, c: char) -> Result<(), LexFault>
        ensures ok { OnOk result (TakesMark comment self.old (Plain c) self.new) }
        ensures err { IfErr result (λ fault. fault ≢ OutOfMemory → Refuses comment self.old (Plain c) fault) }
        ensures memory { IfErr result (λ fault. fault ≡ OutOfMemory → Gathers comment self.old (Plain c)) }
    {
        match self.mode {
            Mode::Plain => self.take_outside(comment, c)?,
            Mode::Symbol => self.take_in_symbol(c)?,
            Mode::Text => self.take_in_text(c)?,
            Mode::SymbolInText => self.take_in_text_symbol(c)?,
            Mode::Comment => {}
        }
        Ok(())
    }

    // Reads a character that is escaped.
    fn take_literal(&mut self, c: char) -> Result<(), LexFault>
        ensures ok { OnOk result ((comment : ℕ) → TakesMark comment self.old (Literal c) self.new) }
        ensures err { IfErr result
            (λ fault. fault ≢ OutOfMemory → (comment : ℕ) → Refuses comment self.old (Literal c) fault) }
        ensures memory { IfErr result (λ fault. fault ≡ OutOfMemory → (comment : ℕ) → Gathers comment self.old (Literal c)) }
    {
        match self.mode {
            Mode::Plain => self.take_literal_outside(c)?,
            Mode::Symbol => self.partial.push(c)?,
            Mode::Text => self.take_literal_in_text(c)?,
            Mode::SymbolInText => self.partial.push(c)?,
            Mode::Comment => {}
        }
        Ok(())
    }

    // Goes on in another mode, with no word or name begun.
    fn enter(&mut self, mode: Mode)
        ensures { self.new ≡ record self.old { mode = mode; partial = [] } }
    {
        self.partial.clear();
        self.mode = mode;
    }
}
