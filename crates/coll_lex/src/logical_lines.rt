//! The lexer: physical lines are handed in one by one, and logical lines come out.
//!
//! A `Lexer` stores its two characters, the count of the lines handed in, and the logical line that is open.
//! Contracts see these as a `LexerState`. Memory is taken in the scan and where a continued line is kept, and nowhere
//! else: whoever takes it elsewhere makes `takes_memory` wider, of which every caller knows.

ghost use Rattle.std.specs.Prelude.{◌≡◌, IsUtf8, IfOk, IfErr};
ghost use Rattle.coll_lex.specs.LogicalLines.{line_of};
ghost use Rattle.coll_lex.specs.Names.{LinesHaveTokens, LexersHoldText};

pub(crate) mod plain_strings;
pub(crate) mod plain_tokens;

use crate::category::begins_category;
use crate::directives::directive;
use crate::scanning::Scan;
use crate::{Chars, EarlyEnd, LexFault, Line, ListBuf, MOST_LINES, Token};
use coll_devices::{MOST_LINE_BYTES, without_return};
use std::alloc::{AllocError, Global};
use std::marker::Model;
use std::str;

// A logical line that goes on in the next physical line.
#[derive(Drop)]
struct Open {
    // The number of its first physical line.
    number: u32,
    // Its physical lines, without their carriage returns.
    lines: Vec<Vec<u8>>,
    // The sum of the lengths handed in, carriage returns included.
    bytes: usize,
    // The scan of these lines.
    scan: Scan,
}

impl Open {
    ghost use Rattle.std.specs.Prelude.{◌≡◌, ◌+◌, ◌≤◌, false, OnOk};
    ghost use Rattle.coll_lex.specs.Lexer.{line_in, empty_line, added};
    ghost use Rattle.coll_devices.specs.Limits.{most_line_bytes};

    // A logical line with no physical line yet, and this scan. It takes no memory.
    fn new(alloc: Global, number: u32, scan: Scan) -> Open
        ensures line { line_in result ≡ empty_line number }
        ensures scan { result.scan ≡ scan }
    {
        Open {
            number,
            lines: Vec::new(alloc),
            bytes: 0,
            scan,
        }
    }

    // Keeps a copy of a physical line that is continued, of which this many bytes were handed in.
    fn keep(&mut self, alloc: Global, bytes: usize, line: &[u8]) -> Result<(), AllocError>
        requires { self.old.bytes + bytes ≤ most_line_bytes }
        ensures line { OnOk result (line_in self.new ≡ added (line_in self.old) line.now bytes) }
        ensures scan { OnOk result (self.new.scan ≡ record self.old.scan { escaped = false }) }
    {
        let copy = Vec::from_slice(alloc, line)?;
        self.lines.push(copy)?;
        self.bytes += bytes;
        self.scan.join();
        Ok(())
    }
}

// The bytes as a text.
fn text_of(bytes: &[u8]) -> Result<&str, LexFault>
    ensures ok { IfOk result (λ text. (text.now ≡ bytes.now) × IsUtf8 bytes.now) }
    ensures err { IfErr result (λ fault. (fault ≡ LexFault.NotUtf8) × ¬ (IsUtf8 bytes.now)) }
{
    match str::from_utf8(bytes) {
        Ok(text) => Ok(text),
        Err(_) => Err(LexFault::NotUtf8),
    }
}

// The line that these tokens make, unless there is none.
fn line_of(number: u32, tokens: ListBuf<Token>) -> Option<Line>
    ensures { result ≡ line_of number tokens }
{
    if tokens.is_empty() {
        return None;
    }
    Some(Line { number, tokens })
}

/// The law of tokens: a logical line that is given, wherever the lexer stands with text in its open line, has a token;
/// no word is empty, each symbol and each name in a string is a name, and all of them are made of characters.
///
/// It does nothing; its contract is the law.
pub fn lines_have_tokens()
    ensures { LinesHaveTokens }
{}

/// The law of open lines: what a lexer keeps of a logical line is text, at the beginning of a text and from there on.
///
/// It does nothing; its contract is the law.
pub fn lexers_hold_text()
    ensures { LexersHoldText }
{}

/// Cuts physical lines into logical lines, and these into tokens.
#[derive(Drop)]
pub struct Lexer {
    special: Chars,
    count: u32,
    open: Option<Open>,
    alloc: Global,
}

impl Model for Lexer {
    ghost use Rattle.coll_lex.specs.LogicalLines.{LexerState};

    ghost Value = { LexerState };

    ghost use Rattle.coll_lex.specs.Lexer.{state_of, IsSoundLexer};

    ghost view = { state_of };

    ghost invariant = { IsSoundLexer };
}

impl Lexer {
    ghost use Rattle.std.specs.Prelude.{◌≡◌, ◌≢◌, ◌+◌, ◌<◌, ◌≤◌, length, Ok, Err, None, Some};
    ghost use Rattle.std.specs.Prelude.{option_map, IsSome, IsTrue, IfSome, IfOk, IfErr, OnOk, OnErr};
    ghost use Rattle.coll_devices.specs.PhysicalLines.{without_return};
    ghost use Rattle.coll_lex.specs.Directives.{directive};
    ghost use Rattle.coll_lex.specs.EarlyEnds.{early_end};
    ghost use Rattle.coll_lex.specs.LogicalLines.{first_state, pending, dropped, line_fault, answer_in, fed_as, fed};
    ghost use Rattle.coll_lex.specs.LogicalLines.{needs_memory, takes_memory, outside, number_of};
    ghost use Rattle.coll_lex.specs.Lexer.{line_in, empty_line, added, IsSoundOpen};
    ghost use Rattle.coll_lex.specs.Names.{AreTokens};
    ghost use Rattle.coll_devices.specs.Limits.{most_line_bytes};
    ghost use Rattle.coll_lex.specs.Limits.{most_lines};
    ghost use Rattle.coll_lex.specs.declared.faults.LexFault.TheVariants.{OutOfMemory, DanglingEscape};

    /// A lexer at the beginning of a text, with the comment character `#` and the escape character `\`.
    ///
    /// It takes no memory today; its callers are ready for one that does.
    pub fn new(alloc: Global) -> Result<Lexer, AllocError>
        ensures { IfOk result (λ lexer. lexer ≡ first_state) }
    {
        Ok(Lexer {
            special: Chars {
                comment: '#',
                escape: '\\',
            },
            count: 0,
            open: None,
            alloc,
        })
    }

    /// The two characters in force.
    pub fn chars(&self) -> Chars
        ensures { result ≡ self.now.special }
    {
        self.special
    }

    /// The number of the logical line that a continuation keeps open, if one does.
    pub fn pending(&self) -> Option<u32>
        ensures { result ≡ pending self.now }
    {
        self.open.as_ref().map(|open| open.number)
    }

    /// The number of the logical line that the next physical line belongs to, which its fault carries: that of the
    /// line that is open, or else one more than the lines handed in. It takes no memory.
    pub fn next_number(&self) -> u32
        ensures number { result ≡ number_of self.now }
        ensures counted { self.now.count ≤ most_lines }
    {
        match &self.open {
            Some(open) => open.number,
            None => self.count + 1,
        }
    }

    /// How a text ends that ends here, before its category does, which has begun or hasn't. It takes no memory.
    pub fn early_end(&self, begun: bool) -> EarlyEnd
        ensures { result ≡ early_end begun self.now }
    {
        match &self.open {
            Some(open) => EarlyEnd::LeftOpen(open.number),
            None if begun => EarlyEnd::WithinCategory(self.count),
            None => EarlyEnd::BeforeCategory(self.count),
        }
    }

    /// Takes one more physical line, without its line feed, and answers the logical line that it ends, if that
    /// has a token.
    ///
    /// The faults are looked for in this order: the bytes of the logical line up to here are more than
    /// `MOST_LINE_BYTES` (carriage returns and escape characters counted), the line comes after `MOST_LINES`
    /// others, it isn't UTF-8, it is a directive at fault, and then the first fault of its logical line from the
    /// left. A fault drops the logical line so far, and the next line handed in begins another.
    ///
    /// Memory is taken for tokens and for a line that is continued. So lack of memory may stand in place of a
    /// logical line, of a line that the next one continues, or of a fault among tokens, and of nothing else: a line
    /// that is too long, one too many, no UTF-8 or a directive, or that has no token, takes none.
    pub fn feed(&mut self, line: &[u8]) -> Result<Option<Line>, LexFault>
        ensures ok { IfOk result (λ answer. fed self.old line.now ≡ Ok (answer, self.new)) }
        ensures tokens { IfOk result (λ answer. IfSome answer (λ line. AreTokens line.tokens)) }
        ensures err { IfErr result (λ fault. fault ≢ OutOfMemory → fed self.old line.now ≡ Err fault) }
        ensures memory { IfErr result (λ fault. fault ≡ OutOfMemory → IsTrue (takes_memory self.old line.now)) }
        ensures dropped { OnErr result (self.new ≡ dropped self.old) }
    {
        match &self.open {
            Some(_) => self.feed_next(line),
            None => self.feed_first(line),
        }
    }

    /// Takes one physical line before the category, and answers whether the category begins with it. Directives
    /// count, and all other bytes are skipped. The line belongs to no logical line, so one that is open is
    /// dropped. It takes no memory.
    #[tactic(auto, unfolding(crate::specs::LogicalLines::outside))]
    pub fn outside(&mut self, line: &[u8]) -> Result<bool, LexFault>
        ensures ok { IfOk result (λ begins. outside self.old line.now ≡ Ok (begins, self.new)) }
        ensures err { IfErr result (λ fault. outside self.old line.now ≡ Err fault) }
        ensures dropped { OnErr result (self.new ≡ dropped self.old) }
    {
        let text = self.count_line(0, line)?;
        match directive(self.special, text) {
            Some(Ok(special)) => {
                self.special = special;
                Ok(false)
            }
            Some(Err(fault)) => Err(fault),
            None => Ok(begins_category(self.special.comment, text)),
        }
    }

    /// Ends the text: a line that a continuation keeps open is at fault, and is dropped. It takes no memory.
    pub fn finish(&mut self) -> Result<(), LexFault>
        ensures ok { OnOk result (pending self.old ≡ None) }
        ensures err { IfErr result (λ fault. (fault ≡ DanglingEscape) × IsSome (pending self.old)) }
        ensures after { self.new ≡ record self.old { line = None } }
    {
        match self.take_open() {
            Some(_) => Err(LexFault::DanglingEscape),
            None => Ok(()),
        }
    }

    // Takes the open line out.
    fn take_open(&mut self) -> Option<Open>
        ensures line { option_map line_in result ≡ self.old.line }
        ensures sound { IfSome result (λ line. IsSoundOpen self.old.special line) }
        ensures after { self.new ≡ record self.old { line = None } }
    {
        self.open.take()
    }

    // Counts a line that leaves no logical line open.
    #[inline(always)]
    fn drop_line(&mut self)
        ensures { self.new ≡ dropped self.old }
    {
        self.close();
        if self.count < MOST_LINES {
            self.count += 1;
        }
    }

    // Drops the line that is open, if one is.
    #[inline(always)]
    fn close(&mut self)
        ensures { self.new ≡ record self.old { line = None } }
    {
        if self.open.is_some() {
            self.open = None;
        }
    }

    // Counts a line that leaves no logical line open, and lends it without its carriage return, unless it is too
    // long with the bytes before it, or one too many.
    #[inline(always)]
    fn count_line<'a>(&mut self, before: usize, line: &'a [u8]) -> Result<&'a [u8], LexFault>
        requires { before ≤ most_line_bytes }
        ensures ok { IfOk result (λ bytes. bytes.now ≡ without_return line.now) }
        ensures passes { OnOk result (line_fault self.old.count (before + length line.now) ≡ None) }
        ensures err { IfErr result (λ fault. line_fault self.old.count (before + length line.now) ≡ Some fault) }
        ensures memory { IfErr result (λ fault. fault ≢ OutOfMemory) }
        ensures room { OnOk result (self.old.count < most_lines) }
        ensures counted { self.new ≡ dropped self.old }
    {
        let is_last = self.count == MOST_LINES;
        self.drop_line();
        if line.len() > MOST_LINE_BYTES - before {
            return Err(LexFault::LineTooLong);
        }
        if is_last {
            return Err(LexFault::TooManyLines);
        }
        Ok(without_return(line))
    }

    // Takes one more physical line of the line that is open.
    fn feed_next(&mut self, line: &[u8]) -> Result<Option<Line>, LexFault>
        requires { IsSome self.old.line }
        ensures ok { IfOk result (λ answer. fed self.old line.now ≡ Ok (answer, self.new)) }
        ensures tokens { IfOk result (λ answer. IfSome answer (λ line. AreTokens line.tokens)) }
        ensures err { IfErr result (λ fault. fault ≢ OutOfMemory → fed self.old line.now ≡ Err fault) }
        ensures memory { IfErr result (λ fault. fault ≡ OutOfMemory → IsTrue (takes_memory self.old line.now)) }
        ensures dropped { OnErr result (self.new ≡ dropped self.old) }
    {
        let Some(open) = self.take_open() else {
            unreachable!();
        };
        let bytes = self.count_line(open.bytes, line)?;
        let text = text_of(bytes)?;
        self.feed_text(open, line.len(), text)
    }

    // Takes the first physical line of a logical line, or a directive.
    fn feed_first(&mut self, line: &[u8]) -> Result<Option<Line>, LexFault>
        requires { self.old.line ≡ None }
        ensures ok { IfOk result (λ answer. fed self.old line.now ≡ Ok (answer, self.new)) }
        ensures tokens { IfOk result (λ answer. IfSome answer (λ line. AreTokens line.tokens)) }
        ensures err { IfErr result (λ fault. fault ≢ OutOfMemory → fed self.old line.now ≡ Err fault) }
        ensures memory { IfErr result (λ fault. fault ≡ OutOfMemory → IsTrue (takes_memory self.old line.now)) }
        ensures dropped { OnErr result (self.new ≡ dropped self.old) }
    {
        let number = self.count + 1;
        let bytes = self.count_line(0, line)?;
        let text = text_of(bytes)?;
        self.feed_apart(number, line.len(), text)
    }

    // Reads a first physical line, which is text: a directive, or one of a logical line.
    fn feed_apart(
        &mut self,
        number: u32,
        bytes: usize,
        line: &str,
    ) -> Result<Option<Line>, LexFault>
        requires alone { self.old.line ≡ None }
        requires short { bytes ≤ most_line_bytes }
        ensures ok { IfOk result (λ answer.
            fed_as self.old (added (empty_line number) line.now bytes) line.now (directive self.old.special line.now)
            ≡ Ok (answer, self.new)) }
        ensures err { IfErr result (λ fault. fault ≢ OutOfMemory
            → fed_as self.old (added (empty_line number) line.now bytes) line.now (directive self.old.special line.now) ≡ Err fault) }
        ensures memory { IfErr result (λ fault. fault ≡ OutOfMemory
            → IsTrue (needs_memory (fed_as self.old (added (empty_line number) line.now bytes) line.now
            (directive self.old.special line.now)))) }
        ensures kept { OnErr result (self.new ≡ self.old) }
    {
        match directive(self.special, line.as_bytes()) {
            Some(Ok(special)) => {
                self.special = special;
                Ok(None)
            }
            Some(Err(fault)) => Err(fault),
            None => self.feed_alone(number, bytes, line),
        }
    }

    // Reads the first physical line of a logical line, which is mostly the whole of it.
    fn feed_alone(
        &mut self,
        number: u32,
        bytes: usize,
        line: &str,
    ) -> Result<Option<Line>, LexFault>
        requires { bytes ≤ most_line_bytes }
        ensures ok { IfOk result (λ answer. answer_in self.old (added (empty_line number) line.now bytes) line.now ≡ Ok (answer, self.new)) }
        ensures err { IfErr result (λ fault. fault ≢ OutOfMemory
            → answer_in self.old (added (empty_line number) line.now bytes) line.now ≡ Err fault) }
        ensures memory { IfErr result (λ fault. fault ≡ OutOfMemory
            → IsTrue (needs_memory (answer_in self.old (added (empty_line number) line.now bytes) line.now))) }
        ensures kept { OnErr result (self.new ≡ self.old) }
    {
        let mut scan = Scan::new(self.alloc);
        scan.take_line(self.special, line)?;
        if !scan.goes_on() {
            let tokens = scan.into_tokens()?;
            return Ok(line_of(number, tokens));
        }
        let mut logical = Open::new(self.alloc, number, scan);
        logical.keep(self.alloc, bytes, line.as_bytes())?;
        self.open = Some(logical);
        Ok(None)
    }

    // Reads one more physical line of a logical line.
    fn feed_text(
        &mut self,
        mut logical: Open,
        bytes: usize,
        line: &str,
    ) -> Result<Option<Line>, LexFault>
        requires sound { IsSoundOpen self.old.special logical }
        requires short { logical.bytes + bytes ≤ most_line_bytes }
        ensures ok { IfOk result (λ answer. answer_in self.old (added (line_in logical) line.now bytes) line.now ≡ Ok (answer, self.new)) }
        ensures err { IfErr result (λ fault. fault ≢ OutOfMemory
            → answer_in self.old (added (line_in logical) line.now bytes) line.now ≡ Err fault) }
        ensures memory { IfErr result (λ fault. fault ≡ OutOfMemory
            → IsTrue (needs_memory (answer_in self.old (added (line_in logical) line.now bytes) line.now))) }
        ensures kept { OnErr result (self.new ≡ self.old) }
    {
        logical.scan.take_line(self.special, line)?;
        if !logical.scan.goes_on() {
            let number = logical.number;
            let tokens = logical.scan.into_tokens()?;
            return Ok(line_of(number, tokens));
        }
        logical.keep(self.alloc, bytes, line.as_bytes())?;
        self.open = Some(logical);
        Ok(None)
    }
}
