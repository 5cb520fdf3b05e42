//! What a line of a session or of a delta file is: plain data, of which the definitions speak.
//!
//! A line of a session whose first token is a word of more than one character that begins with `:` is a command; every
//! other line is one of a delta, or refused. A new command is a new variant of `Command`, its word in `specs/Commands.antt`
//! and in `commands`; a new line of a delta that no block takes is a new variant of `StandaloneLine`, and any other a new variant
//! of `Parsed`.

use crate::request_faults::RequestFault;
use coll_lex::{LexFault, TextBuf};
use coll_syntax::{Id, OrderLine, Statement};

/// A command of a session.
#[derive(Debug, Drop)]
pub enum Command {
    /// `:undo`: takes the last remaining statement back.
    Undo,
    /// `:redo`: puts the statement that was taken back last again.
    Redo,
    /// `:list`: the entries of the table in their order.
    List,
    /// `:print`: the canonical text of the table.
    Print,
    /// `:key "text"`: the sort key of a text.
    Key(TextBuf),
    /// `:compare "text" "text"`: the order of two texts.
    Compare(TextBuf, TextBuf),
    /// `:history`: the statements that remain.
    History,
    /// `:withdraw K`: takes the remaining statement with this number back, and leaves those behind it.
    Withdraw(u32),
    /// `:check`: how many entries, declarations, sections and levels the table has.
    Check,
}

/// What the first physical line of a logical line begins with, blanks skipped, without regard to words or escapes.
#[derive(Clone, Copy, Debug, PartialEq, Eq)]
pub enum Opening {
    /// `reorder-after`, so that the line opens a block even where it is refused.
    ReorderAfter,
    /// `reorder-end`, so that the line ends a block even where it is refused.
    ReorderEnd,
    /// Anything else.
    Neither,
}

/// An accepted line of a delta that no block takes.
#[derive(Drop)]
pub enum StandaloneLine {
    /// A statement of one line, which is no order line: a declaration, or the move of a section.
    Statement(Statement),
    /// `copy`, `script` or `LC_COLLATE`, which have no effect.
    NoEffect,
    /// `END LC_COLLATE`, which has no effect in a session, and ends the category of a delta file.
    EndsCategory,
}

/// What a logical line is.
#[derive(Drop)]
pub enum Parsed {
    /// A line too long, a line too many, or one that is to be continued where the text ends: no line follows.
    Stops(LexFault),
    /// A line that the lexer or the grammar refuses, and what it begins with.
    Refused(Opening, RequestFault),
    /// A command.
    Command(Command),
    /// A command that isn't known, or whose arguments are refused.
    BadCommand(RequestFault),
    /// `reorder-after`, with its target.
    BlockStart(Id),
    /// `reorder-end`.
    BlockEnd,
    /// An order line.
    OrderLine(OrderLine),
    /// A line that no block takes, so that it spoils one that is open.
    Standalone(StandaloneLine),
}

/// A logical line, with its number.
#[derive(Drop)]
pub struct ParsedLine {
    /// The number of its first physical line, from 1.
    pub number: u32,
    /// What it is.
    pub parsed: Parsed,
}
