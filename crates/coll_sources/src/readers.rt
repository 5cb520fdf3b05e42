//! A source is read, text after text.
//!
//! A `SourceReader` reads the text that it wants from a device, to its end. It then reads on in it: line by line, into each text that
//! is copied, and back. Where a text is copied that it has not had, it wants that one, and stops. Each text is wanted once, however
//! often it is copied; all lines together, those of a text that is copied again counted again, are at most as many as a text may have,
//! and have at most `MOST_BYTES` bytes. So texts that copy each other many times over end with the fault of too many lines.
//!
//! Where a tailoring is read, a text that is copied and orders everything is the table that is tailored: it has to be there, and is not
//! read in. Its `copy` is kept as a line (`Tailoring::Base`).
//!
//! Only the category LC_COLLATE is looked at. A line under a condition that doesn't hold counts for nothing, but it has to be a line.
//!
//! What is read stays where it is: the text that is read on in is taken once for all its lines up to the next copy. Most lines of a
//! source are plain order lines, and these are read where they stand (`plain_orders`), without a list of tokens.

ghost use Rattle.std.specs.Prelude.{◌≡◌, IfOk};
ghost use Rattle.coll_lex.specs.Names.{AreTokens};
ghost use Rattle.coll_sources.specs.Readers.{HasTokens};

use crate::bases::orders_everything;
use crate::conditions::{ConditionWord, Conditions, condition_word};
use crate::grammar::said;
use crate::names::{all_names, only_one, put_name};
use crate::operands::Unread;
use crate::plain_orders::plain_order;
use crate::subjects::subject_of;
use crate::texts::{line_at, text_of};
use coll_devices::{LineReader, ReadStop, Source};
use coll_lex::{LexFault, Lexer, Line, MOST_LINES, Piece, TextBuf, Token};
use coll_lookups::HashKeys;
use coll_source_lines::{
    Adjustment, Report, Said, SourceCause, SourceFault, SourceLine, SourcePlace, Tailoring,
};
use coll_syntax::{OrderLine, SyntaxFault, characters, is_word};
use coll_texts::{LoadCause, LoadFault};
use indexmap::IndexSet;
use std::alloc::{AllocError, Global};
use std::marker::Model;

// Most bytes of all lines that are read, line feeds included.
const MOST_BYTES: usize = 67_108_864;

// Of so many of the names that are defined it is known whether a condition asked for them.
const MOST_ASKED: usize = 64;

/// What a source is read as.
#[derive(Clone, Copy, PartialEq, Eq)]
pub enum SourceKind {
    /// It orders everything, with what it copies.
    Table,
    /// It changes a table, which it copies.
    Tailoring,
}

// A text that was handed in.
#[derive(Drop)]
struct Held {
    text: String,
    // Whether it is being read.
    is_open: bool,
    // Whether it is the table that is tailored, and is not read.
    is_base: bool,
}

// A text that is being read.
#[derive(Drop)]
struct Frame {
    // Its number.
    text: usize,
    // Where its next line begins.
    at: usize,
    lexer: Lexer,
    // Whether its category has begun.
    begun: bool,
    conditions: Conditions,
}

// What the next physical line of a text comes to.
#[derive(Drop)]
enum Next {
    // The text has ended.
    Ended,
    // It completes no line that has a token, or one that was read where it stands, which is kept.
    Nothing,
    // It completes a line.
    Whole(Line),
}

// What a line means for its text.
enum Heeded {
    // The category ends.
    Ends,
    // It is a condition, or one around it doesn't hold.
    Passed,
    // It counts.
    Counts,
}

// Where a text is read no further.
#[derive(Clone, Copy)]
enum Halt {
    // The category has ended.
    End,
    // The text of this number is copied here.
    Copy(SourcePlace, usize),
}

// What is done behind the lines of a text.
enum Step {
    // Lines are read, of whichever text.
    Line,
    // A text is wanted.
    Wants,
    // The source has ended.
    Ended,
}

/// Reads a source, and what it copies.
pub struct SourceReader {
    kind: SourceKind,
    // The names of the texts, in the order in which they were wanted.
    names: IndexSet<String, HashKeys>,
    // Those that have been handed in, in the same order.
    texts: Vec<Held>,
    // What has been handed in of the text that is wanted.
    coming: Vec<u8>,
    // Where the text that is wanted is copied; nowhere, if it is the source itself.
    copied_at: Option<SourcePlace>,
    // The texts that are being read, each copied by the one before.
    frames: Vec<Frame>,
    // What is defined: first what was from the start.
    defined: IndexSet<String, HashKeys>,
    // Whether a condition asked for the name at each of the first places there.
    asked: [bool; MOST_ASKED],
    // How many lines have been taken, and how many bytes they have.
    taken: u32,
    bytes: usize,
    lines: Vec<SourceLine>,
    report: Report,
    alloc: Global,
}

// Written out, so that each place that drops a reader is one call.
impl Drop for SourceReader {
    fn drop(self) {
        let SourceReader {
            kind: _,
            names,
            texts,
            coming,
            copied_at: _,
            frames,
            defined,
            asked: _,
            taken: _,
            bytes: _,
            lines,
            report,
            alloc: _,
        } = self;
        drop(names);
        drop(texts);
        drop(coming);
        drop(frames);
        drop(defined);
        drop(lines);
        drop(report);
    }
}

impl Model for SourceReader {
    ghost use Rattle.std.specs.Prelude.{map, string_bytes, vec_len};
    ghost use Rattle.coll_sources.specs.Readers.{ReaderValue};

    ghost Value = { ReaderValue };

    ghost view = { λ r. record {
      names = map string_bytes r.names.keys;
      held = vec_len r.texts;
      defined = map string_bytes r.defined.keys;
      lines = r.lines.items;
      report = r.report;
    } };
}

impl SourceReader {
    ghost use Rattle.std.specs.Prelude.{◌≡◌, ◌∷◌, ℕ, List, [], IfOk, OnOk, option_map, slice_get};
    ghost use Rattle.std.specs.List.{list_any};
    ghost use Rattle.std.specs.Str.{bytes_eq};
    ghost use Rattle.coll_devices.specs.LineReading.{no_line};
    ghost use Rattle.coll_sources.specs.Readers.{ReadsAll, is_defined};
    ghost use Rattle.coll_source_lines.specs.declared.source_faults.SourceCause.TheVariants.{Load};
    ghost use Rattle.coll_texts.specs.declared.load_faults.LoadCause.TheVariants.{ReadFault};

    /// A reader of such a source, which wants the text of this name, where these names are defined.
    pub fn new(
        alloc: Global,
        keys: HashKeys,
        kind: SourceKind,
        source: &str,
        defined: &[&str],
    ) -> Result<SourceReader, AllocError>
        ensures wants { IfOk result (λ reader. reader.names ≡ source.now ∷ []) }
        ensures first { IfOk result (λ reader. reader.held ≡ 0) }
        ensures defined { IfOk result (λ reader. (name : List ℕ)
            → is_defined reader name ≡ list_any (λ word. bytes_eq name word.now) defined.now) }
        ensures nothing { IfOk result (λ reader. reader.lines ≡ []) }
        ensures told { IfOk result (λ reader. reader.report ≡ record { tallies = []; losses = [] }) }
    {
        let names = only_one(alloc, keys, source)?;
        match all_names(alloc, keys, defined) {
            Ok(defined) => Ok(SourceReader {
                kind,
                names,
                texts: Vec::new(alloc),
                coming: Vec::new(alloc),
                copied_at: None,
                frames: Vec::new(alloc),
                defined,
                asked: [false; MOST_ASKED],
                taken: 0,
                bytes: 0,
                lines: Vec::new(alloc),
                report: Report::new(alloc),
                alloc,
            }),
            Err(error) => {
                drop(names);
                Err(error)
            }
        }
    }

    /// The names of the texts, in the order in which they were wanted: a place tells its text by its number here.
    pub fn text_name(&self, text: usize) -> Option<&str>
        ensures { option_map (λ name. name.now) result ≡ slice_get self.now.names text }
    {
        match self.names.get_index(text) {
            Some(name) => Some(name.as_str()),
            None => None,
        }
    }

    /// The name of the text that is wanted, if one is.
    pub fn wanted(&self) -> Option<&str>
        ensures { option_map (λ name. name.now) result ≡ slice_get self.now.names self.now.held }
    {
        self.text_name(self.texts.len())
    }

    /// Whether a name is defined, by the texts read so far or from the start.
    pub fn defines(&self, name: &str) -> bool
        ensures { result ≡ is_defined self.now name.now }
    {
        self.defined.contains(name)
    }

    /// Whether a condition read so far asks for a name that was defined from the start; of more than 64, those behind count as asked for.
    pub fn asks_for(&self, name: &str) -> bool {
        match self.defined.get_index_of(name) {
            Some(place) => match self.asked.get(place) {
                Some(asked) => *asked,
                None => true,
            },
            None => false,
        }
    }

    /// Reads the text that is wanted from a device, to its end, and on: to the end of the source, or to where another text is wanted.
    pub fn take_text<R: Source>(&mut self, input: &mut R) -> Result<(), SourceFault>
        ensures { OnOk result (ReadsAll (R.left input.old) (R.left input.new)) }
    {
        let mut lines = LineReader::new(self.alloc)?;
        let read = self.read_whole(&mut lines, input);
        drop(lines);
        match read {
            Ok(()) => self.end_text(),
            Err(fault) => Err(fault),
        }
    }

    // Reads the text that is wanted, to its end.
    fn read_whole<R: Source>(
        &mut self,
        lines: &mut LineReader,
        input: &mut R,
    ) -> Result<(), SourceFault>
        ensures { OnOk result (lines.old ≡ no_line → ReadsAll (R.left input.old) (R.left input.new)) }
    {
        'reads: for number in 1..=MOST_LINES + 1 {
            match lines.advance(input) {
                Ok(true) => self.line(number, lines.line())?,
                Ok(false) => return Ok(()),
                Err(stop) => return Err(self.stopped(number, stop)),
            }
        }
        Err(
            self.wanted_at(MOST_LINES + 1)
                .lex_fault(LexFault::TooManyLines),
        )
    }

    // A line of the text that is wanted.
    fn wanted_at(&self, line: u32) -> SourcePlace
        ensures { result ≡ record { text = self.now.held; line = line } }
    {
        SourcePlace {
            text: self.texts.len(),
            line,
        }
    }

    // The fault of a reader that stops before a line of the text that is wanted.
    fn stopped(&self, line: u32, stop: ReadStop) -> SourceFault {
        match stop {
            ReadStop::LineTooLong => self.wanted_at(line).lex_fault(LexFault::LineTooLong),
            ReadStop::ReadFault => self.unread(),
        }
    }

    /// The fault where the text that is wanted can't be read.
    pub fn unread(&self) -> SourceFault
        ensures { result ≡ record { place = record { text = self.now.held; line = 0 }; cause = Load ReadFault } }
    {
        self.wanted_at(0).load_fault(LoadCause::ReadFault)
    }

    // Takes the next physical line of the text that is wanted, without its line feed.
    fn line(&mut self, number: u32, line: &[u8]) -> Result<(), SourceFault> {
        if number > MOST_LINES || self.coming.len() >= MOST_BYTES {
            return Err(self.wanted_at(number).lex_fault(LexFault::TooManyLines));
        }
        self.coming.extend_from_slice(line)?;
        self.coming.push(b'\n')?;
        Ok(())
    }

    // The text that is wanted has ended: reads on.
    fn end_text(&mut self) -> Result<(), SourceFault> {
        let number = self.texts.len();
        self.hold()?;
        match self.copied_at.take() {
            Some(place) => self.follow(number, place)?,
            None => self.enter(number)?,
        }
        self.read_on()
    }

    // Puts the text that was wanted behind the others.
    fn hold(&mut self) -> Result<(), SourceFault> {
        let coming = std::mem::replace(&mut self.coming, Vec::new(self.alloc));
        let text = text_of(self.alloc, coming)?;
        match self.is_base(text.as_str()) {
            Ok(is_base) => Ok(
                self.texts.push(Held {
                    text,
                    is_open: false,
                    is_base,
                })?,
            ),
            Err(error) => {
                drop(text);
                Err(SourceFault::from(error))
            }
        }
    }

    // Whether the text that was wanted is the table that is tailored. The source itself never is.
    fn is_base(&self, text: &str) -> Result<bool, AllocError> {
        match (self.kind, self.copied_at) {
            (SourceKind::Tailoring, Some(_)) => orders_everything(self.alloc, text),
            _ => Ok(false),
        }
    }

    // Follows the copy of a text that is there: the text is read next, or it is the table that is tailored, and the copy is kept.
    fn follow(&mut self, text: usize, place: SourcePlace) -> Result<(), SourceFault> {
        if self.texts.get(text).is_some_and(|held| held.is_base) {
            self.report.count(Adjustment::CopyKept, place)?;
            return self.keep_base(text, place);
        }
        self.report.count(Adjustment::CopyInlined, place)?;
        Ok(self.enter(text)?)
    }

    // Keeps the copy of the table that is tailored.
    fn keep_base(&mut self, text: usize, place: SourcePlace) -> Result<(), SourceFault> {
        match self.text_name(text) {
            Some(name) => {
                let name = TextBuf::copied(self.alloc, name)?;
                self.put(place, Said::Tailors(Tailoring::Base(name)))
            }
            None => Ok(()),
        }
    }

    // Puts what a line says behind what all lines before say.
    fn put(&mut self, place: SourcePlace, said: Said) -> Result<(), SourceFault> {
        Ok(self.lines.push(SourceLine { place, said })?)
    }

    /// What the source says, and what is told of it, once no text is wanted any more.
    pub fn into_parts(self) -> (Vec<SourceLine>, Report)
        ensures lines { result.0.items ≡ self.lines }
        ensures report { result.1 ≡ self.report }
    {
        let mut reader = self;
        let lines = std::mem::replace(&mut reader.lines, Vec::new(reader.alloc));
        let report = std::mem::replace(&mut reader.report, Report::new(reader.alloc));
        drop(reader);
        (lines, report)
    }

    // Begins to read a text that is there.
    fn enter(&mut self, text: usize) -> Result<(), AllocError> {
        let lexer = Lexer::new(self.alloc)?;
        self.frames.push(Frame {
            text,
            at: 0,
            lexer,
            begun: false,
            conditions: Conditions::new(self.alloc),
        })?;
        self.mark(text, true);
        Ok(())
    }

    // Notes whether a text is being read.
    fn mark(&mut self, text: usize, is_open: bool) {
        if let Some(held) = self.texts.get_mut(text) {
            held.is_open = is_open;
        }
    }

    // Reads text after text, until one is wanted or the source has ended.
    fn read_on(&mut self) -> Result<(), SourceFault> {
        for _ in 0..u64::MAX {
            match self.step()? {
                Step::Line => {}
                Step::Wants | Step::Ended => return Ok(()),
            }
        }
        Ok(())
    }

    // Reads on in the innermost text.
    fn step(&mut self) -> Result<Step, SourceFault> {
        match self.frames.pop() {
            Some(frame) => self.step_in(frame),
            None => Ok(Step::Ended),
        }
    }

    // Reads on in a text, up to where it halts.
    fn step_in(&mut self, mut frame: Frame) -> Result<Step, SourceFault> {
        match self.read_in(&mut frame) {
            Ok(Halt::End) => {
                drop(frame);
                Ok(Step::Line)
            }
            Ok(Halt::Copy(place, text)) => {
                self.frames.push(frame)?;
                self.copy(place, text)
            }
            Err(fault) => {
                drop(frame);
                Err(fault)
            }
        }
    }

    // Reads line after line of a text, up to where it halts.
    fn read_in(&mut self, frame: &mut Frame) -> Result<Halt, SourceFault> {
        for _ in 0..u64::MAX {
            let next = self.next_in(frame)?;
            if let Some(halt) = self.take_next(frame, next)? {
                return Ok(halt);
            }
        }
        Err(early_end(frame))
    }

    // Takes what the next physical line of a text comes to.
    fn take_next(&mut self, frame: &mut Frame, next: Next) -> Result<Option<Halt>, SourceFault>
        requires { HasTokens next }
    {
        match next {
            Next::Ended => Err(early_end(frame)),
            Next::Nothing => Ok(None),
            Next::Whole(line) => {
                let halt = self.take(frame, &line);
                drop(line);
                halt
            }
        }
    }

    // What the next physical line of a text comes to. It is counted.
    fn next_in(&mut self, frame: &mut Frame) -> Result<Next, SourceFault>
        ensures { IfOk result (λ next. HasTokens next) }
    {
        let Some((line, behind)) = self
            .texts
            .get(frame.text)
            .and_then(|held| line_at(held.text.as_bytes(), frame.at))
        else {
            return Ok(Next::Ended);
        };
        let place = place_in(frame);
        if self.taken >= MOST_LINES || self.bytes >= MOST_BYTES {
            return Err(place.lex_fault(LexFault::TooManyLines));
        }
        self.taken += 1;
        self.bytes = self.bytes.saturating_add(line.len()).saturating_add(1);
        frame.at = behind;
        if frame.begun {
            return within(self.alloc, &mut self.lines, frame, place, line);
        }
        match frame.lexer.outside(line) {
            Ok(begins) => {
                frame.begun = begins;
                Ok(Next::Nothing)
            }
            Err(fault) => Err(place.lex_fault(fault)),
        }
    }

    // Takes a line: a condition, the end of the category, or what counts if its conditions hold.
    fn take(&mut self, frame: &mut Frame, line: &Line) -> Result<Option<Halt>, SourceFault>
        requires { AreTokens line.now.tokens }
    {
        let place = SourcePlace {
            text: frame.text,
            line: line.number,
        };
        match self.heed(frame, place, line.tokens.get())? {
            Heeded::Counts => self.take_counting(place, line),
            Heeded::Passed => Ok(None),
            Heeded::Ends => Ok(Some(Halt::End)),
        }
    }

    // What a line means for its text.
    fn heed(
        &mut self,
        frame: &mut Frame,
        place: SourcePlace,
        tokens: &[Token],
    ) -> Result<Heeded, SourceFault> {
        if ends_category(tokens) {
            frame.conditions.ended()?;
            self.mark(frame.text, false);
            return Ok(Heeded::Ends);
        }
        if self.take_condition(&mut frame.conditions, place, tokens)? {
            return Ok(Heeded::Passed);
        }
        if frame.conditions.count() {
            Ok(Heeded::Counts)
        } else {
            Ok(Heeded::Passed)
        }
    }

    // Takes a line that counts.
    fn take_counting(
        &mut self,
        place: SourcePlace,
        line: &Line,
    ) -> Result<Option<Halt>, SourceFault>
        requires { AreTokens line.now.tokens }
    {
        match copied(line.tokens.get()) {
            Some(pieces) => Ok(Some(Halt::Copy(place, self.text_of_copy(place, pieces)?))),
            None => {
                self.keep(place, line)?;
                Ok(None)
            }
        }
    }

    // Takes a line of a condition, and answers whether it is one. `define` is one as well.
    fn take_condition(
        &mut self,
        conditions: &mut Conditions,
        place: SourcePlace,
        tokens: &[Token],
    ) -> Result<bool, SourceFault> {
        let Some((Token::Word(word), rest)) = tokens.split_first() else {
            return Ok(false);
        };
        match condition_word(word.get()) {
            Some(ConditionWord::Else) => taken_alone(place, rest, conditions.take_else(place)),
            Some(ConditionWord::End) => taken_alone(place, rest, conditions.end(place)),
            Some(ConditionWord::Define) => self.define(conditions, place, only_name(place, rest)),
            Some(ConditionWord::If { defined }) => {
                self.begin_if(conditions, place, only_name(place, rest), defined)
            }
            None => Ok(false),
        }
    }

    // Begins a condition, which holds where a name is defined, or where it isn't, and counts it.
    fn begin_if(
        &mut self,
        conditions: &mut Conditions,
        place: SourcePlace,
        name: Result<&TextBuf, SourceFault>,
        defined: bool,
    ) -> Result<bool, SourceFault> {
        let name = name?.get();
        self.note_asked(name);
        conditions.begin(place, self.defines(name) == defined)?;
        self.report.count(Adjustment::Conditional, place)?;
        Ok(true)
    }

    // Notes that a condition asks for a name.
    fn note_asked(&mut self, name: &str) {
        if let Some(place) = self.defined.get_index_of(name) {
            if let Some(asked) = self.asked.get_mut(place) {
                *asked = true;
            }
        }
    }

    // Defines a name, where lines count, and counts that.
    fn define(
        &mut self,
        conditions: &Conditions,
        place: SourcePlace,
        name: Result<&TextBuf, SourceFault>,
    ) -> Result<bool, SourceFault> {
        let name = name?;
        if conditions.count() {
            put_name(self.alloc, &mut self.defined, name.get())?;
        }
        self.report.count(Adjustment::Conditional, place)?;
        Ok(true)
    }

    // Copies the text of a number: it is followed, or wanted.
    fn copy(&mut self, place: SourcePlace, text: usize) -> Result<Step, SourceFault> {
        if self.texts.get(text).is_some_and(|held| held.is_open) {
            return Err(place.fault(SourceCause::CopyOfItself));
        }
        if text >= self.texts.len() {
            self.copied_at = Some(place);
            return Ok(Step::Wants);
        }
        self.follow(text, place)?;
        Ok(Step::Line)
    }

    // The number of a text that is copied.
    fn text_of_copy(&mut self, place: SourcePlace, pieces: &[Piece]) -> Result<usize, SourceFault> {
        match characters(self.alloc, pieces) {
            Ok(name) => {
                let text = self.text_named(place, name.get());
                drop(name);
                text
            }
            Err(fault) => Err(place.load_fault(LoadCause::from(fault))),
        }
    }

    // The number of the text of a name, which is wanted if it isn't there. It lies in the folder of the source.
    fn text_named(&mut self, place: SourcePlace, name: &str) -> Result<usize, SourceFault> {
        if name.contains('/') {
            return Err(place.fault(SourceCause::CopyElsewhere));
        }
        let (text, _) = self.names.insert_full(String::from_str(self.alloc, name)?)?;
        Ok(text)
    }

    // Keeps what a line says, or tells that it says nothing.
    fn keep(&mut self, place: SourcePlace, line: &Line) -> Result<(), SourceFault>
        requires { AreTokens line.now.tokens }
    {
        match said(self.alloc, line) {
            Ok(said) => self.put(place, said),
            Err(Unread::BadRange) => Err(place.fault(SourceCause::BadRange)),
            Err(Unread::OutOfMemory) => Err(place.load_fault(LoadCause::OutOfMemory)),
            Err(Unread::NoLine) => self.leave_out(place, line.tokens.get()),
        }
    }

    // Tells that a line says nothing.
    fn leave_out(&mut self, place: SourcePlace, tokens: &[Token]) -> Result<(), SourceFault> {
        if let Some(what) = subject_of(self.alloc, tokens)? {
            self.report.lose(Adjustment::Dropped, place, what)?;
        }
        self.put(place, Said::Unread)
    }
}

// Where the next line of a text stands.
fn place_in(frame: &Frame) -> SourcePlace {
    SourcePlace {
        text: frame.text,
        line: frame.lexer.next_number(),
    }
}

// What a physical line of the category comes to: one that counts is read where it stands, if it can be, and is put behind the lines before.
fn within(
    alloc: Global,
    lines: &mut Vec<SourceLine>,
    frame: &mut Frame,
    place: SourcePlace,
    line: &[u8],
) -> Result<Next, SourceFault>
    ensures { IfOk result (λ next. HasTokens next) }
{
    if !frame.conditions.count() {
        return fed(frame, place, line);
    }
    match read_plain(alloc, &frame.lexer, line) {
        Ok(Some(order)) => {
            frame.lexer.pass_line();
            let said = Said::Order(order);
            lines.push(SourceLine { place, said })?;
            Ok(Next::Nothing)
        }
        Ok(None) => fed(frame, place, line),
        Err(_) => Err(place.load_fault(LoadCause::OutOfMemory)),
    }
}

// The order line that a physical line is, if it is read where it stands.
fn read_plain(alloc: Global, lexer: &Lexer, line: &[u8]) -> Result<Option<OrderLine>, AllocError> {
    match lexer.plain_text(line) {
        Some(text) => plain_order(alloc, lexer, text),
        None => Ok(None),
    }
}

// What a physical line of the category comes to, token by token.
fn fed(frame: &mut Frame, place: SourcePlace, line: &[u8]) -> Result<Next, SourceFault>
    ensures { IfOk result (λ next. HasTokens next) }
{
    match frame.lexer.feed(line) {
        Ok(Some(whole)) => Ok(Next::Whole(whole)),
        Ok(None) => Ok(Next::Nothing),
        Err(fault) => Err(place.lex_fault(fault)),
    }
}

// The fault of a text that ends before its category does.
fn early_end(frame: &Frame) -> SourceFault {
    let LoadFault { line, cause } = LoadFault::from(frame.lexer.early_end(frame.begun));
    let text = frame.text;
    SourcePlace { text, line }.load_fault(cause)
}

// The one operand of a line, a word.
fn only_name(place: SourcePlace, operands: &[Token]) -> Result<&TextBuf, SourceFault> {
    match operands {
        [Token::Word(name)] => Ok(name),
        [] => Err(misread(place, SyntaxFault::MissingOperand)),
        [Token::Word(_), ..] => Err(misread(place, SyntaxFault::ExtraOperand)),
        _ => Err(misread(place, SyntaxFault::BadOperand)),
    }
}

// That an `else` or `endif` was taken, whose line has no operands.
fn taken_alone(
    place: SourcePlace,
    operands: &[Token],
    taken: Result<(), SourceFault>,
) -> Result<bool, SourceFault> {
    if !operands.is_empty() {
        return Err(misread(place, SyntaxFault::ExtraOperand));
    }
    match taken {
        Ok(()) => Ok(true),
        Err(fault) => Err(fault),
    }
}

// A fault of the grammar that stands at a line.
fn misread(place: SourcePlace, fault: SyntaxFault) -> SourceFault {
    place.load_fault(LoadCause::Syntax(fault))
}

// Whether a line is `END LC_COLLATE`.
fn ends_category(tokens: &[Token]) -> bool {
    match tokens {
        [end, category] => is_word(end, "END") && is_word(category, "LC_COLLATE"),
        _ => false,
    }
}

// The string of a line `copy "text"`.
fn copied(tokens: &[Token]) -> Option<&[Piece]> {
    match tokens {
        [copy, Token::Text(pieces)] if is_word(copy, "copy") => Some(pieces.get()),
        _ => None,
    }
}
