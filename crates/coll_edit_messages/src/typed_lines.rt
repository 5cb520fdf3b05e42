//! What a typed line is by itself, as soon as it is typed.
//!
//! A session answers an open block where it ends, with the first fault that spoiled it. A person is told of each line at fault once,
//! and at once. So each line is read here as well, by a lexer of its own, which reads what the session's does. What is found is for
//! standard error alone, and changes no reply; where memory is refused, nothing is found. A word that other programs take for `:help`
//! or `:quit` is found here too, a command that is mistyped or has no colon (`commands`), `%`, with which comments of many sources begin,
//! a declared name without its brackets, a keyword of another dialect, and what the reply to a block will say of a line (`doubts`).

ghost use Rattle.coll_lex.specs.Names.{AreTokens};

use crate::commands::{command_meant, form_of};
use crate::doubts::{Doubt, doubt_about};
use coll_findings::{ForeignWord, advice_on_operands, foreign_word};
use coll_lex::{LexFault, Lexer, Line, TextBuf, Token};
use coll_requests::RequestFault;
use coll_syntax::{DeltaLine, MOST_BLOCK_LINES, SyntaxFault, is_word, parse_delta_line};
use coll_table::Table;
use std::alloc::{AllocError, Global};

// What a line is to a block.
#[derive(Clone, Copy)]
enum TypedLine {
    // It has no token.
    Nothing,
    // `reorder-after`, accepted.
    Opening,
    // `reorder-end`, accepted.
    Ending,
    // A command, which a block lets pass.
    Command,
    // An order line.
    Order,
    // `copy` or `script`, which no block takes.
    Idle,
    // A line that spoils a block, by the number of its fault.
    Fault(u8),
}

/// What a line asks for that is asked for otherwise.
#[derive(Clone, Copy)]
pub enum Wish {
    /// Nothing of these.
    Nothing,
    /// The help: `help`, or `?` alone.
    Help,
    /// The end: `quit`, `exit`, or `q` alone.
    End,
    /// The end, by `:quit`, or that something is undone, by `:undo`, which no open block takes.
    Leave,
    /// A comment, by `%`, where that begins none.
    Comment,
    /// What another dialect has a keyword for.
    Foreign(ForeignWord),
    /// This command, which is mistyped or has no colon.
    Command(&'static str),
}

/// A fault of a line that no reply tells where the line is typed.
#[derive(Clone, Copy)]
pub struct LineFault {
    /// Its line in the block, from 1; none for a line that opens a block or ends one.
    pub line: Option<usize>,
    /// Its number.
    pub number: u8,
}

/// The lines that were typed: the last one, and what was told of the block that is open.
#[derive(Drop)]
pub struct TypedLines {
    lexer: Lexer,
    last: TypedLine,
    wish: Wish,
    // The first declared name that the last line has without its brackets, where it may be refused for that.
    name: Option<TextBuf>,
    // How the last line is written, where its fault is one of its operands, or it is a command.
    written: Option<&'static str>,
    // What the reply to the block will say of the last line.
    doubt: Option<Doubt>,
    // Whether a line was refused that was to open a block, and only order lines came between it and the last line; and the same of the
    // line that comes next.
    was_unopened: bool,
    unopened: bool,
    // How many lines the block has, those at fault too.
    lines: usize,
    // The number of the first fault that was told of the block.
    first: Option<u8>,
}

impl TypedLines {
    /// No line yet.
    pub fn new(alloc: Global) -> Result<TypedLines, AllocError> {
        let lexer = Lexer::new(alloc)?;
        Ok(TypedLines {
            lexer,
            last: TypedLine::Nothing,
            wish: Wish::Nothing,
            name: None,
            written: None,
            doubt: None,
            was_unopened: false,
            unopened: false,
            lines: 0,
            first: None,
        })
    }

    /// Reads one more physical line, without its line feed. Names are those of a table. What the reply to a block will say of it is looked
    /// for where a person is asked for lines.
    pub fn read(&mut self, alloc: Global, table: &Table, line: &[u8], prompts: bool) {
        self.last = TypedLine::Nothing;
        self.wish = Wish::Nothing;
        self.written = None;
        drop(self.name.take());
        drop(self.doubt.take());
        self.was_unopened = self.unopened;
        self.read_next(alloc, table, line, prompts);
    }

    // Reads one more physical line, of which nothing was found yet.
    fn read_next(&mut self, alloc: Global, table: &Table, line: &[u8], prompts: bool) {
        match self.lexer.feed(line) {
            Ok(Some(line)) => {
                self.last = line_of(alloc, &line);
                self.wish = wish_of(&line);
                self.unopened = self.is_unopened_behind(&line);
                if may_lack_brackets(self.last, &line) {
                    self.name = bare_name(table, &line);
                }
                self.written = written_of(self.last, &line);
                if prompts {
                    self.doubt = doubt_about(alloc, table, &line);
                }
                drop(line);
            }
            Ok(None) | Err(LexFault::OutOfMemory) => {}
            Err(fault) => self.last = TypedLine::Fault(fault.number()),
        }
    }

    // Whether a line was refused that was to open a block, and only order lines came since, the last line, which is this, included.
    fn is_unopened_behind(&self, line: &Line) -> bool {
        match (self.last, self.wish) {
            (TypedLine::Fault(_), _) if ends_block(line) => false,
            (TypedLine::Fault(_), Wish::Foreign(word)) => {
                word.opens_block() || (self.unopened && !word.ends_block())
            }
            (TypedLine::Fault(_), _) => self.unopened,
            (TypedLine::Order | TypedLine::Nothing, _) => self.unopened,
            _ => false,
        }
    }

    /// What the reply to the block will say of the last line.
    pub fn doubt(&self) -> Option<&Doubt> {
        self.doubt.as_ref()
    }

    /// Whether a line was refused that was to open a block, and only order lines came between it and the last line.
    pub fn is_unopened(&self) -> bool {
        self.was_unopened
    }

    /// What the last line asks for that is asked for otherwise.
    pub fn wish(&self) -> Wish {
        self.wish
    }

    /// The first declared name that the last line has without its brackets, where it may be refused for that.
    pub fn name(&self) -> Option<&str> {
        match &self.name {
            Some(name) => Some(name.get()),
            None => None,
        }
    }

    /// How the last line is written, where it is refused with this number for its operands, or is a command.
    pub fn written(&self, number: u8) -> Option<&'static str> {
        match self.last {
            TypedLine::Fault(fault) if fault == number => self.written,
            TypedLine::Command => self.written,
            _ => None,
        }
    }

    /// Whether the last line may end a block: it opens one or ends one, accepted or refused.
    pub fn may_end_block(&self) -> bool {
        matches!(
            &self.last,
            TypedLine::Opening | TypedLine::Ending | TypedLine::Fault(_)
        )
    }

    /// Whether the last line is an order line that begins with `%`, as one that is meant as a comment.
    pub fn is_with_sign(&self) -> bool {
        matches!((self.last, self.wish), (TypedLine::Order, Wish::Comment))
    }

    /// Whether the last line has no effect outside of a block.
    pub fn is_idle(&self) -> bool {
        matches!(&self.last, TypedLine::Idle)
    }

    /// Whether the first fault that was told of the block has this number.
    pub fn has_told(&self, number: u8) -> bool {
        self.first == Some(number)
    }

    /// The fault of the last line that no reply tells there, if it has one, by whether a block was open before it and is open behind
    /// it, and whether it completed a request.
    pub fn untold(&mut self, was_open: bool, is_open: bool, completes: bool) -> Option<LineFault> {
        let line = match self.last {
            TypedLine::Command => return None,
            line if was_open && !completes => return self.untold_within(line),
            line => line,
        };
        // It opens a block or ends one. Where it ends one that none has spoiled before, the reply tells it.
        let was_spoiled = self.first.is_some();
        self.lines = 0;
        self.first = None;
        match line {
            TypedLine::Fault(number) if is_open => {
                self.first = Some(number);
                Some(LineFault { line: None, number })
            }
            TypedLine::Fault(number) if was_spoiled => Some(LineFault { line: None, number }),
            _ => None,
        }
    }

    // The fault of a line within a block. The first order line too many spoils a block that no other line has spoiled.
    fn untold_within(&mut self, line: TypedLine) -> Option<LineFault> {
        let number = match line {
            TypedLine::Nothing | TypedLine::Opening | TypedLine::Ending | TypedLine::Command => {
                return None;
            }
            TypedLine::Idle => Some(RequestFault::BlockOpen.number()),
            TypedLine::Order if self.first.is_some() || self.lines < MOST_BLOCK_LINES => None,
            TypedLine::Order => Some(SyntaxFault::BlockTooLong.number()),
            TypedLine::Fault(number) => Some(number),
        };
        self.lines = self.lines.saturating_add(1);
        let number = number?;
        if self.first.is_none() {
            self.first = Some(number);
        }
        Some(LineFault {
            line: Some(self.lines),
            number,
        })
    }
}

// What a line with tokens is to a block.
fn line_of(alloc: Global, line: &Line) -> TypedLine
    requires { AreTokens line.now.tokens }
{
    match line.tokens.get().first() {
        Some(Token::Word(word)) if word.get().len() > 1 && word.get().starts_with(':') => {
            return TypedLine::Command;
        }
        _ => {}
    }
    match parse_delta_line(alloc, line) {
        Ok(read) => {
            let typed = match &read {
                DeltaLine::Order(_) => TypedLine::Order,
                DeltaLine::ReorderAfter(_) => TypedLine::Opening,
                DeltaLine::ReorderEnd => TypedLine::Ending,
                DeltaLine::Copy | DeltaLine::Script => TypedLine::Idle,
                _ => TypedLine::Fault(RequestFault::BlockOpen.number()),
            };
            drop(read);
            typed
        }
        Err(SyntaxFault::OutOfMemory) => TypedLine::Nothing,
        Err(fault) => TypedLine::Fault(fault.number()),
    }
}

// How a line is written that is refused for its operands, or is a command.
fn written_of(typed: TypedLine, line: &Line) -> Option<&'static str> {
    match typed {
        TypedLine::Fault(number) => advice_on_operands(line, number),
        TypedLine::Command => form_of(line.tokens.get().first()?),
        _ => None,
    }
}

// What a line asks for that is asked for otherwise.
fn wish_of(line: &Line) -> Wish {
    let tokens = line.tokens.get();
    let Some((word, rest)) = tokens.split_first() else {
        return Wish::Nothing;
    };
    match wish_by(word, rest.is_empty()) {
        Wish::Nothing if has_comment(tokens) => Wish::Comment,
        Wish::Nothing => match foreign_word(tokens) {
            Some(word) => Wish::Foreign(word),
            None => wish_for(command_meant(word)),
        },
        wish => wish,
    }
}

// What a word asks for, which begins a line or stands alone in it. A character alone is an order line elsewhere.
fn wish_by(word: &Token, alone: bool) -> Wish {
    if is_word(word, ":quit") || is_word(word, ":undo") {
        return Wish::Leave;
    }
    if is_word(word, "help") || (alone && is_word(word, "?")) {
        return Wish::Help;
    }
    if is_word(word, "quit") || is_word(word, "exit") || (alone && is_word(word, "q")) {
        return Wish::End;
    }
    Wish::Nothing
}

// What a command that may be meant asks for.
fn wish_for(command: Option<&'static str>) -> Wish {
    match command {
        Some(command) => Wish::Command(command),
        None => Wish::Nothing,
    }
}

// Whether a line may be refused since a name has no brackets: one that the grammar refuses, or `:show`.
fn may_lack_brackets(typed: TypedLine, line: &Line) -> bool {
    match typed {
        TypedLine::Fault(_) => true,
        TypedLine::Command => match line.tokens.get().first() {
            Some(word) => is_word(word, ":show"),
            None => false,
        },
        _ => false,
    }
}

// Whether a line begins as one that ends a block.
fn ends_block(line: &Line) -> bool {
    match line.tokens.get().first() {
        Some(word) => is_word(word, "reorder-end"),
        None => false,
    }
}

// The first word of several characters that is a declared name, or spelled as that of a character; none where memory is refused. One
// character is an identifier without brackets.
fn bare_name(table: &Table, line: &Line) -> Option<TextBuf> {
    for token in line.tokens.get() {
        match token {
            Token::Word(word) if lacks_brackets(table, word.get()) => {
                return word.try_copy().ok();
            }
            _ => {}
        }
    }
    None
}

// Whether a word is an identifier but for its brackets.
fn lacks_brackets(table: &Table, word: &str) -> bool {
    if is_code_point(word.as_bytes()) {
        return true;
    }
    word.chars().nth(1).is_some() && table.resolve(word).is_some()
}

// Whether a word is spelled as the name of a character: `U` and four to eight hexadecimal digits.
fn is_code_point(word: &[u8]) -> bool {
    match word {
        [b'U', digits @ ..] => {
            (4..=8).contains(&digits.len()) && digits.iter().all(u8::is_ascii_hexdigit)
        }
        _ => false,
    }
}

// Whether a word begins as a comment does in many sources.
fn has_comment(tokens: &[Token]) -> bool {
    for token in tokens {
        match token {
            Token::Word(word) if word.get().starts_with('%') => return true,
            _ => {}
        }
    }
    false
}
