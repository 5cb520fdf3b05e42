//! What is told of a fault that ended a run, below its line: what stands where it is, with a mark, and what to do.
//!
//! A batch answers the first fault of its texts with its line and its number. Here a survey of the text says what the fault is about, and
//! in a block at which line it stands. Where a survey doesn't find the fault all of the line is marked; without a survey so is what the
//! number of the fault tells by itself, and else all.

ghost use Rattle.std.specs.Prelude.{◌≡◌, IfOk, IfSome, None};
ghost use Rattle.coll_devices.specs.Devices.{Writes};
ghost use Rattle.coll_findings.specs.declared.findings.About.TheVariants as about;
ghost use Rattle.coll_refused_lines.specs.RefusedLines.{IsFirstPart, IsOfLine, advice_told, refused_text, shown_told, what_to_do};

use crate::marked_lines::{MarkedLine, marked_line};
use crate::numbered_lines::{lexer_at, line_at};
use crate::spelled_places::{Sought, place_in};
use coll_advice::advice_of;
use coll_devices::{MOST_LINE_BYTES, Sink, WriteStop};
use coll_faults::RunFault;
use coll_findings::{About, FoundFault, Told};
use coll_lint::{found_as, told_of};
use coll_lookups::HashKeys;
use coll_surveys::{survey_delta, survey_table};
use coll_table::Table;
use coll_texts::{Piece, write_pieces};
use std::alloc::{AllocError, Global};

// Which input a survey of a table tells its faults of, and which a survey of a delta file.
const TABLE: usize = 0;

const DELTA: usize = 1;

// The numbers of faults that say themselves which part of a line they are about: bytes, a token that the lexer refuses by itself, a
// string, the escape character at the end, and the first token.
const NOT_UTF8: u8 = 1;

const FIRST_OF_TOKENS: u8 = 2;

const LAST_OF_TOKENS: u8 = 8;

const OPEN_STRING: u8 = 6;

const DANGLING_ESCAPE: u8 = 9;

const UNKNOWN_STATEMENT: u8 = 20;

// The numbers of the faults of the grammar, for which a survey names what a line has first, and not what doesn't fit.
const FIRST_OF_GRAMMAR: u8 = 20;

const LAST_OF_GRAMMAR: u8 = 29;

/// What is told of a fault below its line.
#[derive(Drop)]
pub struct RefusedLine {
    /// The line that it stands at, as it is shown, if it is.
    pub shown: Option<MarkedLine>,
    /// What it is about.
    pub about: About,
    /// What to do.
    pub sentence: &'static str,
}

/// What is told of a fault that a batch answers to the text of a table.
pub fn refused_in_table(
    alloc: Global,
    keys: HashKeys,
    fault: &RunFault,
    text: &[u8],
) -> Result<RefusedLine, AllocError>
    ensures { IfOk result (λ refused. IfSome refused.shown (IsOfLine text.now)) }
{
    let told = told_of(alloc, survey_table(alloc, keys, text)?, text, None)?;
    refused_by(alloc, of_input(TABLE, fault), told, text)
}

/// What is told of a fault that a batch answers to the text of a delta file over this table.
pub fn refused_in_delta(
    alloc: Global,
    keys: HashKeys,
    fault: &RunFault,
    table: Table,
    text: &[u8],
) -> Result<RefusedLine, AllocError>
    ensures { IfOk result (λ refused. IfSome refused.shown (IsOfLine text.now)) }
{
    let told = told_of(alloc, survey_delta(alloc, keys, table, text)?, text, None)?;
    refused_by(alloc, of_input(DELTA, fault), told, text)
}

/// What is told of a fault with this number at a line of a text, of which no survey is made.
pub fn refused_at(
    alloc: Global,
    number: u8,
    line: u32,
    text: &[u8],
) -> Result<RefusedLine, AllocError>
    ensures shown { IfOk result (λ refused. IfSome refused.shown (IsOfLine text.now)) }
    ensures line { IfOk result (λ refused. IfSome refused.shown (λ shown. shown.number ≡ line)) }
    ensures about { IfOk result (λ refused. refused.about ≡ about.Nothing) }
{
    let shown = shown_at(alloc, number, line, &About::Nothing, text)?;
    Ok(RefusedLine {
        shown,
        about: About::Nothing,
        sentence: sentence_of(number),
    })
}

/// What is told of a fault with this number that comes from no line, or from one that isn't there any longer: what to do.
pub fn refused_alone(number: u8) -> RefusedLine
    ensures shown { result.shown ≡ None }
    ensures about { result.about ≡ about.Nothing }
{
    RefusedLine {
        shown: None,
        about: About::Nothing,
        sentence: sentence_of(number),
    }
}

// What to do by the number of a fault.
fn sentence_of(number: u8) -> &'static str {
    match advice_of(number) {
        Some(told) => told.sentence,
        None => "",
    }
}

// A fault, of another input.
fn of_input(input: usize, fault: &RunFault) -> RunFault {
    RunFault {
        input,
        line: fault.line,
        fault: fault.fault,
    }
}

// What is told of a fault of a text, by what a survey of the text tells.
fn refused_by(
    alloc: Global,
    fault: RunFault,
    told: Told,
    text: &[u8],
) -> Result<RefusedLine, AllocError>
    ensures { IfOk result (λ refused. IfSome refused.shown (IsOfLine text.now)) }
{
    let Told {
        mut faults,
        more_faults: _,
        warnings,
    } = told;
    drop(warnings);
    let FoundFault {
        fault,
        line,
        about,
        sentence,
    } = found_as(fault, &mut faults);
    drop(faults);
    match shown_at(alloc, fault.fault.number(), line, &about, text) {
        Ok(shown) => Ok(RefusedLine {
            shown,
            about,
            sentence,
        }),
        Err(error) => {
            drop(about);
            Err(error)
        }
    }
}

// A line of a text, if it has so many, with a mark under what a fault with this number is about.
fn shown_at(
    alloc: Global,
    number: u8,
    line: u32,
    about: &About,
    text: &[u8],
) -> Result<Option<MarkedLine>, AllocError>
    ensures shown { IfOk result (λ shown. IfSome shown (IsOfLine text.now)) }
    ensures line { IfOk result (λ shown. IfSome shown (λ shown. shown.number ≡ line)) }
{
    if line == 0 {
        return Ok(None);
    }
    let Some(bytes) = line_at(text, line) else {
        return Ok(None);
    };
    let mut lexer = lexer_at(alloc, text, line)?;
    let looked = first_part(bytes, MOST_LINE_BYTES);
    let place = place_in(&mut lexer, looked, sought_for(number, about));
    drop(lexer);
    let (before, behind) = looked.split_at(place.start);
    let (marked, after) = behind.split_at(place.end - place.start);
    let shown = marked_line(alloc, line, before, marked, after)?;
    Ok(Some(shown))
}

// All of a line, or so many of its first bytes.
fn first_part(line: &[u8], most: usize) -> &[u8]
    ensures { IsFirstPart most line.now result.now }
{
    if line.len() <= most {
        return line;
    }
    &line[..most]
}

// What a line is looked through for that has a fault with this number, which is about this.
fn sought_for(number: u8, about: &About) -> Sought<'_> {
    match about {
        About::Word(word) => match word.theirs {
            Some(theirs) => Sought::Keyword(theirs),
            None => Sought::FirstToken,
        },
        About::Id { id, .. } => match number {
            FIRST_OF_GRAMMAR..=LAST_OF_GRAMMAR => sought_alone(number),
            _ => Sought::Id(id),
        },
        About::Nothing => sought_alone(number),
    }
}

// What a line is looked through for that has a fault with this number, whatever it is about.
fn sought_alone<'a>(number: u8) -> Sought<'a> {
    match number {
        NOT_UTF8 => Sought::NotUtf8,
        OPEN_STRING => Sought::OpenString,
        FIRST_OF_TOKENS..=LAST_OF_TOKENS => Sought::Refused(number),
        DANGLING_ESCAPE => Sought::LastCharacter,
        UNKNOWN_STATEMENT => Sought::FirstToken,
        _ => Sought::WholeLine,
    }
}

/// Writes what is told of a fault below its line. Where it stops, the device has taken a prefix of that.
#[tactic(auto, unfolding(crate::specs::RefusedLines::refused_text))]
pub fn write_refused<W: Sink>(refused: &RefusedLine, out: &mut W) -> Result<(), WriteStop>
    ensures { Writes (W.taken out.old) (W.taken out.new) (W.failed out.old) (W.failed out.new) (refused_text refused.now) result }
{
    match write_shown(&refused.shown, out) {
        Ok(()) => write_advice(refused.sentence, &refused.about, out),
        Err(stop) => Err(stop),
    }
}

// Writes a line with its mark, if it is shown.
fn write_shown<'a, W: Sink>(shown: &'a Option<MarkedLine>, out: &mut W) -> Result<(), WriteStop>
    ensures { Writes (W.taken out.old) (W.taken out.new) (W.failed out.old) (W.failed out.new) (shown_told shown.now) result }
{
    match shown {
        Some(line) => write_pieces(
            out,
            &[
                Piece::Bytes(b"  "),
                Piece::Number(u64::from(line.number)),
                Piece::Bytes(b" | "),
                Piece::Bytes(line.shown.as_bytes()),
                Piece::Bytes(b"\n"),
                Piece::Bytes(line.margin.as_slice()),
                Piece::Bytes(b"| "),
                Piece::Bytes(line.mark.as_slice()),
                Piece::Bytes(b"\n"),
            ],
        ),
        None => Ok(()),
    }
}

// Writes what to do, by what a fault is about.
fn write_advice<'a, W: Sink>(
    sentence: &'a str,
    about: &'a About,
    out: &mut W,
) -> Result<(), WriteStop>
    ensures { Writes (W.taken out.old) (W.taken out.new) (W.failed out.old) (W.failed out.new) (advice_told sentence.now about.now) result }
{
    match about {
        About::Nothing | About::Id { near: None, .. } => write_alone(sentence, out),
        About::Id {
            near: Some(near),
            ..
        } => write_pieces(
            out,
            &[
                Piece::Bytes(sentence.as_bytes()),
                Piece::Bytes(b"; is "),
                Piece::Symbol(near.get()),
                Piece::Bytes(b" meant?\n"),
            ],
        ),
        About::Word(word) => write_alone(word.ours, out),
    }
}

// Writes what to do.
fn write_alone<'a, W: Sink>(sentence: &'a str, out: &mut W) -> Result<(), WriteStop>
    ensures { Writes (W.taken out.old) (W.taken out.new) (W.failed out.old) (W.failed out.new) (what_to_do sentence.now) result }
{
    write_pieces(
        out,
        &[Piece::Bytes(sentence.as_bytes()), Piece::Bytes(b"\n")],
    )
}
