//! Parsing the lines of a session or of a delta file.
//!
//! A physical line is handed to the lexer; where it ends a logical line, that line is a command, a line of a delta, or refused. A
//! line of a block that makes no token is read where it stands. What a line is depends on no table and on no block. What is parsed is
//! proper, since the tokens of the lexer are as the grammar asks for.

ghost use Rattle.std.specs.Prelude.{◌≡◌, ◌≤◌, Bool, IfOk, IfErr, IfSome, OnErr, Ok, Err, option_map};
ghost use Rattle.coll_lex.specs.LogicalLines.{pending, number_of, first_line, outside, dropped};
ghost use Rattle.coll_lex.specs.Limits.{most_lines};
ghost use Rattle.coll_lex.specs.Names.{AreTokens};
ghost use Rattle.coll_syntax.specs.DeltaLines.{delta_line};
ghost use Rattle.coll_requests.specs.Commands.{command_of as spelled_command};
ghost use Rattle.coll_requests.specs.SessionLines.{opening_of, fault_parsed, delta_parsed as spelled_delta};
ghost use Rattle.coll_requests.specs.SessionLines.{command_parsed as spelled_command_parsed};
ghost use Rattle.coll_requests.specs.Requests.{stop_of};
ghost use Rattle.coll_requests.specs.Parsing.{Parses, ParsesTokens, ParsesUnlessStarved, no_memory as line_starved};
ghost use Rattle.coll_requests.specs.ProperLines.{IsProperParsed};
ghost use Rattle.coll_syntax.specs.Proper.{IsProperDeltaLine};
ghost use Rattle.coll_requests.specs.declared.session_lines.Opening.{Opening};

use crate::commands::{command_of, is_command};
use crate::request_faults::RequestFault;
use crate::session_lines::{Opening, Parsed, ParsedLine, StandaloneLine};
use coll_devices::without_return;
use coll_lex::{EarlyEnd, LexFault, Lexer, Line, Token, past_blanks};
use coll_syntax::{DeltaLine, Statement, SyntaxFault, parse_delta_line, parse_plain_delta};
use std::alloc::{AllocError, Global};
use std::marker::Model;

/// A logical line that was parsed, and what its first physical line begins with.
#[derive(Drop)]
pub struct Parsing {
    pub(crate) line: ParsedLine,
    pub(crate) opening: Opening,
}

impl Parsing {
    /// The fault at which the session ends, if the line has one.
    pub(crate) fn stop(&self) -> Option<LexFault>
        ensures { result ≡ stop_of self.now.line.parsed }
    {
        match &self.line.parsed {
            Parsed::Stops(fault) => Some(*fault),
            _ => None,
        }
    }
}

/// A lexer that parses the lines of a session or of a delta file, and knows what the logical line that is open begins with.
#[derive(Drop)]
pub struct LineParser {
    lexer: Lexer,
    // What the logical line that is open begins with, where one is.
    opening: Opening,
}

impl Model for LineParser {
    ghost use Rattle.coll_lex.specs.LogicalLines.{LexerState};

    ghost Value = { LexerState };

    ghost use Rattle.coll_requests.specs.Parsing.{OpensAs};

    ghost view = { λ l. l.lexer };

    ghost invariant = { λ l. OpensAs l.lexer l.opening };
}

impl LineParser {
    ghost use Rattle.coll_lex.specs.EarlyEnds.{early_end};
    ghost use Rattle.coll_lex.specs.LogicalLines.{first_state};

    /// A parser at the beginning of a text.
    pub fn new(alloc: Global) -> Result<LineParser, AllocError>
        ensures { IfOk result (λ parser. parser ≡ first_state) }
    {
        let lexer = Lexer::new(alloc)?;
        Ok(LineParser {
            lexer,
            opening: Opening::Neither,
        })
    }

    /// Takes one more physical line, and answers what the logical line is that it ends, if it ends one with a token.
    /// The lines of a session may be commands, those of a delta file may not. Nearly all lines of large blocks are order lines: such a
    /// line is read from its text, and no token is made of it.
    ///
    /// Where memory is refused, the line is a refused one, and the logical line so far is dropped.
    pub(crate) fn parse(&mut self, alloc: Global, commands: bool, line: &[u8]) -> Option<Parsing>
        ensures parsed { (starved : Bool)
            × Parses commands starved self.old self.new line.now (option_map (λ (parsing : Parsing). parsing.line) result) }
        ensures opening { IfSome result (λ parsing. parsing.opening ≡ opening_of (first_line self.old line.now)) }
        ensures number { IfSome result (λ parsing. parsing.line.number ≡ number_of self.old) }
        ensures proper { IfSome result (λ parsing. IsProperParsed parsing.line.parsed) }
    {
        let opening = self.opening_at(line);
        let Some(text) = self.lexer.plain_text(line) else {
            return self.parse_fed(alloc, commands, opening, line);
        };
        match parse_plain_delta(alloc, &self.lexer, text) {
            Ok(Some(read)) => Some(self.passed(opening, accepted(read))),
            Ok(None) => self.parse_fed(alloc, commands, opening, line),
            Err(_) => Some(self.passed(opening, no_memory(opening))),
        }
    }

    // Parses a physical line token by token.
    fn parse_fed(
        &mut self,
        alloc: Global,
        commands: bool,
        opening: Opening,
        line: &[u8],
    ) -> Option<Parsing>
        requires { opening ≡ opening_of (first_line self.old line.now) }
        ensures parsed { (starved : Bool)
            × Parses commands starved self.old self.new line.now (option_map (λ (parsing : Parsing). parsing.line) result) }
        ensures opening { IfSome result (λ parsing. parsing.opening ≡ opening) }
        ensures number { IfSome result (λ parsing. parsing.line.number ≡ number_of self.old) }
        ensures proper { IfSome result (λ parsing. IsProperParsed parsing.line.parsed) }
    {
        let number = self.lexer.next_number();
        match self.lexer.feed(line) {
            Err(fault) => {
                let parsed = refused_by_lexer(opening, fault);
                Some(Parsing {
                    line: ParsedLine { number, parsed },
                    opening,
                })
            }
            Ok(None) => {
                self.opening = opening;
                None
            }
            Ok(Some(line)) => {
                let parsed = tokens_parsed(alloc, commands, opening, &line);
                Some(Parsing {
                    line: ParsedLine { number, parsed },
                    opening,
                })
            }
        }
    }

    // A logical line that was read where it stands, and is counted.
    fn passed(&mut self, opening: Opening, parsed: Parsed) -> Parsing
        ensures line { result ≡ record { line = record { number = number_of self.old; parsed = parsed }; opening = opening } }
        ensures passes { self.new ≡ dropped self.old }
    {
        let number = self.lexer.next_number();
        self.lexer.pass_line();
        Parsing {
            line: ParsedLine { number, parsed },
            opening,
        }
    }

    /// Takes one physical line before the category of a delta file, and answers whether the category begins with it. It takes
    /// no memory.
    pub(crate) fn outside(&mut self, line: &[u8]) -> Result<bool, LexFault>
        ensures ok { IfOk result (λ begins. outside self.old line.now ≡ Ok (begins, self.new)) }
        ensures err { IfErr result (λ fault. outside self.old line.now ≡ Err fault) }
        ensures dropped { OnErr result (self.new ≡ dropped self.old) }
    {
        self.lexer.outside(line)
    }

    /// The number of the logical line that the next physical line belongs to, which its fault carries.
    pub fn next_number(&self) -> u32
        ensures number { result ≡ number_of self.now }
        ensures counted { self.now.count ≤ most_lines }
    {
        self.lexer.next_number()
    }

    /// How a delta file ends that ends here, before its category does, which has begun or hasn't.
    pub(crate) fn early_end(&self, begun: bool) -> EarlyEnd
        ensures { result ≡ early_end begun self.now }
    {
        self.lexer.early_end(begun)
    }

    /// Ends the text, and answers the number of the line that is continued there, if one is, which is dropped.
    pub fn finish(&mut self) -> Option<u32>
        ensures continued { result ≡ pending self.old }
        ensures after { self.new ≡ record self.old { line = None } }
    {
        let continued = self.lexer.pending();
        let _ = self.lexer.finish();
        continued
    }

    // What the logical line begins with that this physical line belongs to.
    fn opening_at(&self, line: &[u8]) -> Opening
        ensures { result ≡ opening_of (first_line self.now line.now) }
    {
        match self.lexer.pending() {
            Some(_) => self.opening,
            None => opening_of(without_return(line)),
        }
    }
}

// What a physical line begins with.
#[tactic(auto, unfolding(crate::specs::SessionLines::opening_of))]
fn opening_of(line: &[u8]) -> Opening
    ensures { result ≡ opening_of line.now }
{
    let text = past_blanks(line);
    if text.starts_with(b"reorder-after") {
        Opening::ReorderAfter
    } else if text.starts_with(b"reorder-end") {
        Opening::ReorderEnd
    } else {
        Opening::Neither
    }
}

// What a line is that the lexer refuses.
fn refused_by_lexer(opening: Opening, fault: LexFault) -> Parsed
    ensures parsed { result ≡ fault_parsed opening fault }
    ensures proper { IsProperParsed result }
{
    match fault {
        LexFault::DanglingEscape => Parsed::Stops(fault),
        _ if fault.ends_text() => Parsed::Stops(fault),
        _ => Parsed::Refused(opening, RequestFault::Lex(fault)),
    }
}

/// A line for which memory was refused.
pub(crate) fn no_memory(opening: Opening) -> Parsed
    ensures { result ≡ line_starved opening }
{
    Parsed::Refused(opening, RequestFault::Lex(LexFault::OutOfMemory))
}

// What a line with tokens is.
#[tactic(auto, unfolding(crate::specs::SessionLines::tokens_parsed))]
fn tokens_parsed(alloc: Global, commands: bool, opening: Opening, line: &Line) -> Parsed
    requires { AreTokens line.now.tokens }
    ensures parsed { ParsesTokens commands opening line.now.tokens result }
    ensures proper { IsProperParsed result }
{
    if let Some((first, arguments)) = line.tokens.get().split_first() {
        if commands && is_command(first) {
            return command_parsed(alloc, opening, first, arguments);
        }
    }
    delta_parsed(alloc, opening, line)
}

// The command of a line, or why it is none.
fn command_parsed(alloc: Global, opening: Opening, word: &Token, arguments: &[Token]) -> Parsed
    ensures parsed { ParsesUnlessStarved opening (spelled_command_parsed (spelled_command word.now arguments.now)) result }
    ensures proper { IsProperParsed result }
{
    match command_of(alloc, word, arguments) {
        Ok(command) => Parsed::Command(command),
        Err(RequestFault::Syntax(SyntaxFault::OutOfMemory)) => no_memory(opening),
        Err(fault) => Parsed::BadCommand(fault),
    }
}

// What a line of a delta is.
fn delta_parsed(alloc: Global, opening: Opening, line: &Line) -> Parsed
    requires { AreTokens line.now.tokens }
    ensures parsed { ParsesUnlessStarved opening (spelled_delta opening (delta_line line.now.tokens)) result }
    ensures proper { IsProperParsed result }
{
    match parse_delta_line(alloc, line) {
        Ok(line) => accepted(line),
        Err(SyntaxFault::OutOfMemory) => no_memory(opening),
        Err(fault) => Parsed::Refused(opening, RequestFault::Syntax(fault)),
    }
}

// What a line of a delta is that the grammar accepts.
fn accepted(line: DeltaLine) -> Parsed
    requires { IsProperDeltaLine line }
    ensures parsed { (opening : Opening) → result ≡ spelled_delta opening (Ok line) }
    ensures proper { IsProperParsed result }
{
    match line {
        DeltaLine::Symbol(name) => Parsed::Standalone(StandaloneLine::Statement(Statement::Symbol(
            name,
        ))),
        DeltaLine::Element { name, text } => {
            Parsed::Standalone(StandaloneLine::Statement(Statement::Element { name, text }))
        }
        DeltaLine::Equivalence { name, symbol } => {
            Parsed::Standalone(StandaloneLine::Statement(Statement::Equivalence { name, symbol }))
        }
        DeltaLine::Script | DeltaLine::Category | DeltaLine::Copy => Parsed::Standalone(
            StandaloneLine::NoEffect,
        ),
        DeltaLine::EndCategory => Parsed::Standalone(StandaloneLine::EndsCategory),
        DeltaLine::ReorderAfter(target) => Parsed::BlockStart(target),
        DeltaLine::ReorderEnd => Parsed::BlockEnd,
        DeltaLine::SectionAfter { moved, after } => {
            Parsed::Standalone(StandaloneLine::Statement(Statement::SectionAfter { moved, after }))
        }
        DeltaLine::Order(line) => Parsed::OrderLine(line),
    }
}
