//! The lines of a kept text are handed on, one after another, also behind those that are refused.
//!
//! What a line means is for its taker to say; here physical lines are cut, joined and lexed, as everywhere. A line that the lexer
//! refuses is told, and the next one begins another logical line. Nothing behind the end of the category is looked at.
//!
//! Where only declarations and other keywords are wanted of a text that is known to have no fault, an order line that begins with a
//! symbol and stands alone is passed over by its first and its last byte, and is only counted (`survey_keywords`).

ghost use Rattle.std.specs.Prelude.{◌≡◌, ◌==◌, ◌<◌, ◌∷◌, [], true, false, length, slice_index, take, All, IfNone, IfOk, IfSome, OnOk};
ghost use Rattle.coll_devices.specs.PhysicalLines.{line_feed, lines_of};
ghost use Rattle.coll_lex.specs.LogicalLines.{number_of};
ghost use Rattle.coll_lex.specs.Names.{AreTokens};
ghost use Rattle.coll_findings.specs.SurveyedLines.{Given, HandsOn, HandsOnAll, Takes, ended_early, first_lines, handed_on, lines_state};
ghost use Rattle.coll_findings.specs.SurveyedLines.{opening_at as stated_opening_at, opening_of as stated_opening};

use coll_lex::{Chars, EarlyEnd, LexFault, Lexer, Line, past_blanks, without_return};
use std::alloc::{AllocError, Global};

/// What the first physical line of a logical line begins with, blanks skipped.
#[derive(Clone, Copy, Drop)]
pub enum Opening {
    /// `reorder-after`: the line opens a block, also where it is refused.
    Block,
    /// `reorder-end`: it ends one.
    BlockEnd,
    /// Neither of them.
    Other,
}

/// What takes the lines of a text, accepted by the lexer or refused.
pub trait TakesLines {
    ghost use Rattle.std.specs.Prelude.{◌≡◌, Bool, List, IfOk, OnOk};
    ghost use Rattle.coll_lex.specs.Names.{AreTokens};
    ghost use Rattle.coll_lex.specs.declared.tokens.Token.{Token};
    ghost use Rattle.coll_findings.specs.SurveyedLines.{Handed, Given, Refused};

    // What is handed on leads from the first value to the second.
    ghost takes: { Self → Handed → Self → Type 0 };

    // Whether a line of these tokens ends the category.
    ghost ends: { List Token → Bool };

    /// Takes a line of the category, and answers whether it ends the category.
    fn take(&mut self, line: &Line, opening: Opening) -> Result<bool, AllocError>
        requires { AreTokens line.now.tokens }
        ensures taken { OnOk result (takes self.old (Given line.now.number opening line.now.tokens) self.new) }
        ensures ended { IfOk result (λ ended. ended ≡ ends line.now.tokens) };

    /// Takes a line that the lexer refuses, or a text that ends in one.
    fn refuse(&mut self, number: u32, opening: Opening, fault: LexFault) -> Result<(), AllocError>
        ensures taken { OnOk result (takes self.old (Refused number opening fault) self.new) };
}

// Where the lines of a text stand.
struct Lines {
    lexer: Lexer,
    // Whether order lines that stand alone are passed over.
    passes: bool,
    // How many lines were passed over, which the lexer hasn't counted.
    passed: u32,
    // Whether the category has begun.
    begun: bool,
    // What the logical line that is open begins with, where one is.
    opening: Opening,
}

// Written out, so that each place that drops it is one call.
impl Drop for Lines {
    fn drop(self) {
        let Lines {
            lexer,
            passes: _,
            passed: _,
            begun: _,
            opening: _,
        } = self;
        drop(lexer);
    }
}

/// Hands on the lines of a text. Where its category doesn't end, the answer is how the text ends.
pub fn survey_lines<T: TakesLines>(
    alloc: Global,
    text: &[u8],
    taker: &mut T,
) -> Result<Option<EarlyEnd>, AllocError>
    ensures taken { OnOk result (Takes T.takes (handed_on T.ends first_lines (lines_of text.now)) taker.old taker.new) }
    ensures ended { IfOk result (λ end. end ≡ ended_early T.ends first_lines (lines_of text.now)) }
{
    let mut lines = Lines::new(alloc, false)?;
    let end = lines.hand_on_all(text, taker);
    drop(lines);
    end
}

/// Hands on the lines of a text without fault, but not all order lines: those that begin with a symbol and are one physical line may be
/// passed over.
pub fn survey_keywords<T: TakesLines>(
    alloc: Global,
    text: &[u8],
    taker: &mut T,
) -> Result<(), AllocError> {
    let mut lines = Lines::new(alloc, true)?;
    let end = lines.hand_on_all(text, taker);
    drop(lines);
    let _ = end?;
    Ok(())
}

/// The first line of a text, without the line feed that ends it, and what stands behind that, unless the text is empty.
pub fn first_line(text: &[u8]) -> Option<(&[u8], &[u8])>
    ensures none { IfNone result (text.now ≡ []) }
    ensures lines { IfSome result (λ cut. lines_of text.now ≡ cut.0.now ∷ lines_of cut.1.now) }
    ensures less { IfSome result (λ cut. length cut.1.now < length text.now) }
{
    if text.is_empty() {
        return None;
    }
    match find_line_feed(text) {
        Some(end) => Some((&text[..end], &text[end + 1..])),
        None => Some((text, &text[text.len()..])),
    }
}

// Where the first line feed of a text stands, if it has one.
fn find_line_feed(text: &[u8]) -> Option<usize>
    ensures none { IfNone result (All (λ byte. (byte == line_feed) ≡ false) text.now) }
    ensures within { IfSome result (λ at. at < length text.now) }
    ensures found { IfSome result (λ at. (slice_index text.now at == line_feed) ≡ true) }
    ensures first { IfSome result (λ at. All (λ byte. (byte == line_feed) ≡ false) (take at text.now)) }
{
    text.iter().position(is_line_feed)
}

// Whether a byte ends a line.
fn is_line_feed(byte: &u8) -> bool
    ensures { result ≡ (byte.now == line_feed) }
{
    *byte == b'\n'
}

// Whether a physical line begins with a symbol, and no escape character at its end continues it.
fn is_lone_order(special: Chars, line: &[u8]) -> bool {
    if special.comment == '<' || special.escape == '<' {
        return false;
    }
    match (past_blanks(line).first(), without_return(line).last()) {
        (Some(b'<'), Some(last)) => last.is_ascii() && char::from(*last) != special.escape,
        _ => false,
    }
}

impl Lines {
    // No line was handed on yet.
    fn new(alloc: Global, passes: bool) -> Result<Lines, AllocError>
        ensures state { IfOk result (λ lines. lines_state lines ≡ first_lines) }
        ensures passes { IfOk result (λ lines. lines.passes ≡ passes) }
        ensures passed { IfOk result (λ lines. lines.passed ≡ 0) }
    {
        Ok(Lines {
            lexer: Lexer::new(alloc)?,
            passes,
            passed: 0,
            begun: false,
            opening: Opening::Other,
        })
    }

    // Hands on the lines of a text. Where its category doesn't end, the answer is how the text ends.
    fn hand_on_all<T: TakesLines>(
        &mut self,
        text: &[u8],
        taker: &mut T,
    ) -> Result<Option<EarlyEnd>, AllocError>
        ensures { self.old.passes ≡ false → self.old.passed ≡ 0 → IfOk result (λ end. HandsOnAll T.takes T.ends (lines_state self.old)
            (lines_of text.now) taker.old taker.new end) }
    {
        let mut left = text;
        'lines: while let Some((line, behind)) = first_line(left) {
            if self.hand_on(line, taker)? {
                return Ok(None);
            }
            left = behind;
        }
        Ok(Some(self.lexer.early_end(self.begun)))
    }

    // Hands on a physical line, unless it is passed over, and answers whether it ends the category.
    fn hand_on<T: TakesLines>(&mut self, line: &[u8], taker: &mut T) -> Result<bool, AllocError>
        ensures { self.old.passes ≡ false → self.old.passed ≡ 0
            → IfOk result (λ ended. HandsOn T.takes T.ends self.old line.now self.new taker.old taker.new ended) }
    {
        if self.is_passed_over(line) {
            self.passed = self.passed.saturating_add(1);
            return Ok(false);
        }
        let number = self.next_number();
        if !self.begun {
            match self.lexer.outside(line) {
                Ok(begins) => self.begun = begins,
                Err(fault) => taker.refuse(number, Opening::Other, fault)?,
            }
            return Ok(false);
        }
        let opening = self.opening_at(line);
        match self.lexer.feed(line) {
            Ok(Some(whole)) => self.hand_on_whole(whole, opening, taker),
            Ok(None) => {
                self.opening = opening;
                Ok(false)
            }
            Err(LexFault::OutOfMemory) => Err(AllocError),
            Err(fault) => {
                taker.refuse(number, opening, fault)?;
                Ok(false)
            }
        }
    }

    // Whether a physical line is passed over.
    fn is_passed_over(&self, line: &[u8]) -> bool
        ensures { self.now.passes ≡ false → result ≡ false }
    {
        self.passes
            && self.begun
            && self.lexer.pending().is_none()
            && is_lone_order(self.lexer.chars(), line)
    }

    // The number of the logical line that the next physical line belongs to.
    fn next_number(&self) -> u32
        ensures { self.now.passed ≡ 0 → result ≡ number_of self.now.lexer }
    {
        self.lexer.next_number().saturating_add(self.passed)
    }

    // Hands on a logical line, with its number among all, and answers whether it ends the category.
    fn hand_on_whole<T: TakesLines>(
        &self,
        whole: Line,
        opening: Opening,
        taker: &mut T,
    ) -> Result<bool, AllocError>
        requires { AreTokens whole.tokens }
        ensures taken { self.now.passed ≡ 0 → OnOk result (T.takes taker.old (Given whole.number opening whole.tokens) taker.new) }
        ensures ended { IfOk result (λ ended. ended ≡ T.ends whole.tokens) }
    {
        let mut line = whole;
        line.number = line.number.saturating_add(self.passed);
        let taken = taker.take(&line, opening);
        drop(line);
        taken
    }

    // What the logical line begins with that a physical line belongs to.
    fn opening_at(&self, line: &[u8]) -> Opening
        ensures { result ≡ stated_opening_at (lines_state self.now) line.now }
    {
        match self.lexer.pending() {
            Some(_) => self.opening,
            None => opening_of(without_return(line)),
        }
    }
}

// What a physical line begins with.
fn opening_of(line: &[u8]) -> Opening
    ensures { result ≡ stated_opening line.now }
{
    let text = past_blanks(line);
    if text.starts_with(b"reorder-after") {
        Opening::Block
    } else if text.starts_with(b"reorder-end") {
        Opening::BlockEnd
    } else {
        Opening::Other
    }
}
