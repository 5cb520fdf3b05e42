//! What a request changes of the history, and what a person is told of that.
//!
//! A reply to `:undo`, `:redo` or `:withdraw` is a number alone. At a terminal a note behind it tells which statement was taken back or
//! put again: by its line, and a block by its first line and how many it has. What is taken back is no longer lent, so it is kept
//! before; where memory is refused for that, no note is told.

use crate::copies::copied_statement;
use coll_devices::Sink;
use coll_requests::{Command, Request, RequestAt};
use coll_syntax::{Id, Statement};
use coll_texts::{Piece, write_pieces, write_statement};
use std::alloc::Global;

/// What a request asks of the history.
#[derive(Clone, Copy)]
pub enum Asked {
    /// Nothing.
    Nothing,
    /// That a statement is put behind those that remain.
    Statement,
    /// That the last one is taken back.
    Undo,
    /// That the one which was taken back last is put again.
    Redo,
    /// That the one with this number is taken from among the others.
    Withdrawal(u32),
}

/// What a request asks of the history, if there is one.
pub fn asked_of(request: &Option<RequestAt>) -> Asked {
    match request {
        Some(request) => match &request.request {
            Request::Statement(_) => Asked::Statement,
            Request::Command(Command::Undo) => Asked::Undo,
            Request::Command(Command::Redo) => Asked::Redo,
            Request::Command(Command::Withdraw(number)) => Asked::Withdrawal(*number),
            _ => Asked::Nothing,
        },
        None => Asked::Nothing,
    }
}

/// What is told of a statement.
#[derive(Drop)]
pub enum Told {
    /// A block, by its target and the number of its lines.
    Block(Id, usize),
    /// Another one, whole.
    Line(Statement),
}

/// What is told of a statement; nothing where memory is refused.
pub fn told_of(alloc: Global, statement: &Statement) -> Option<Told> {
    match statement {
        Statement::Block { target, lines } => match target.clone() {
            Ok(target) => Some(Told::Block(target, lines.get().len())),
            Err(_) => None,
        },
        statement => match copied_statement(alloc, statement) {
            Ok(copy) => Some(Told::Line(copy)),
            Err(_) => None,
        },
    }
}

/// What became of a statement.
#[derive(Clone, Copy)]
pub enum Change {
    /// It was taken back.
    TakenBack,
    /// It was put again.
    PutAgain,
    /// It was withdrawn, and no `:redo` puts it again.
    Withdrawn,
}

impl Change {
    // The words before the statement.
    fn words(self) -> &'static [u8] {
        match self {
            Change::TakenBack => b"note: taken back: ",
            Change::PutAgain => b"note: put again: ",
            Change::Withdrawn => b"note: withdrawn for good: ",
        }
    }
}

/// Tells what became of a statement.
pub fn tell_statement<'a, M: Sink>(messages: &mut M, change: Change, told: &'a Told) {
    let words = change.words();
    match told {
        Told::Block(target, count) => {
            let lines: &[u8] = if *count == 1 {
                b" line)\n"
            } else {
                b" lines)\n"
            };
            let _ = write_pieces(
                messages,
                &[
                    Piece::Bytes(words),
                    Piece::Bytes(b"reorder-after "),
                    Piece::Id(target),
                    Piece::Bytes(b" .. ("),
                    Piece::Number(*count as u64),
                    Piece::Bytes(lines),
                ],
            );
        }
        Told::Line(statement) => {
            if write_pieces(messages, &[Piece::Bytes(words)]).is_ok() {
                let _ = write_statement(messages, statement);
            }
        }
    }
    let _ = messages.flush();
}
