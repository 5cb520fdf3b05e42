//! The reply to `:history`: a line for each statement that remains, and how many remain and were taken back.
//!
//! A new statement is a case of `write_history_line`, and of `statement_words` of `specs/Replies.antt`.

ghost use Rattle.std.specs.Prelude.{◌++◌, ◌∷◌, [], codes, decimal};
ghost use Rattle.coll_devices.specs.Devices.{Writes};
ghost use Rattle.coll_texts.specs.Pieces.{words_line};
ghost use Rattle.coll_texts.specs.PrintedParts.{id_bytes, symbol_bytes};
ghost use Rattle.coll_bench.specs.Replies.{history_count, history_line, history_lines, history_listing};

use coll_devices::{Sink, WriteStop};
use coll_history::Session;
use coll_lex::TextBuf;
use coll_syntax::{Id, Statement};
use coll_texts::{Piece, write_pieces};

/// Writes the statements that remain, from the first, and how many there are, and were taken back.
#[tactic(auto, unfolding(crate::specs::Replies::history_listing))]
pub(crate) fn write_history<W: Sink>(out: &mut W, session: &Session) -> Result<(), WriteStop>
    ensures { Writes (W.taken out.old) (W.taken out.new) (W.failed out.old) (W.failed out.new)
        (history_listing session.now.history) result }
{
    write_remaining(out, session)?;
    write_count(out, session)
}

// Writes a line for each statement that remains.
fn write_remaining<W: Sink>(out: &mut W, session: &Session) -> Result<(), WriteStop>
    ensures { Writes (W.taken out.old) (W.taken out.new) (W.failed out.old) (W.failed out.new)
        (history_lines 1 session.now.history.remaining) result }
{
    let count = session.remaining_len();
    let mut number = 0u32;
    while number < count {
        number += 1;
        let Some(statement) = session.remaining(number) else {
            unreachable!();
        };
        // Not `?`: behind its conversion this exit would need a lemma.
        if let Err(stop) = write_history_line(out, number, statement) {
            return Err(stop);
        }
    }
    Ok(())
}

/// Writes the line that a statement with its number has in the reply to `:history`. Where it stops, the device has taken a prefix of
/// it.
#[tactic(auto, unfolding(crate::specs::Replies::history_line))]
pub fn write_history_line<W: Sink>(
    out: &mut W,
    number: u32,
    statement: &Statement,
) -> Result<(), WriteStop>
    ensures { Writes (W.taken out.old) (W.taken out.new) (W.failed out.old) (W.failed out.new) (history_line number statement.now) result }
{
    match statement {
        Statement::Symbol(name) => write_name(out, number, b" symbol ", name),
        Statement::Element { name, .. } => write_name(out, number, b" element ", name),
        Statement::Equivalence { name, symbol } => {
            write_names(out, number, b" equivalence ", name, symbol)
        }
        Statement::Block { target, lines } => {
            write_block(out, number, target, lines.get().len())
        }
        Statement::SectionAfter { moved, after } => {
            write_names(out, number, b" section ", moved, after)
        }
        Statement::Reweight(line) => write_reweight(out, number, &line.id),
    }
}

// Writes the line of a number, a word with a space on both sides, and a name.
fn write_name<'a, W: Sink>(
    out: &mut W,
    number: u32,
    word: &'a [u8],
    name: &'a TextBuf,
) -> Result<(), WriteStop>
    ensures { Writes (W.taken out.old) (W.taken out.new) (W.failed out.old) (W.failed out.new)
        (decimal number ++ (word.now ++ words_line (symbol_bytes name.now ∷ []))) result }
{
    write_pieces(
        out,
        &[
            Piece::Number(u64::from(number)),
            Piece::Bytes(word),
            Piece::Symbol(name.get()),
            Piece::Bytes(b"\n"),
        ],
    )
}

// Writes the line of a number, a word with a space on both sides, and two names.
fn write_names<'a, W: Sink>(
    out: &mut W,
    number: u32,
    word: &'a [u8],
    first: &'a TextBuf,
    second: &'a TextBuf,
) -> Result<(), WriteStop>
    ensures { Writes (W.taken out.old) (W.taken out.new) (W.failed out.old) (W.failed out.new)
        (decimal number ++ (word.now ++ words_line (symbol_bytes first.now ∷ symbol_bytes second.now ∷ []))) result }
{
    write_pieces(
        out,
        &[
            Piece::Number(u64::from(number)),
            Piece::Bytes(word),
            Piece::Symbol(first.get()),
            Piece::Bytes(b" "),
            Piece::Symbol(second.get()),
            Piece::Bytes(b"\n"),
        ],
    )
}

// Writes the line of a block: a number, its target, and how many lines it has.
fn write_block<W: Sink>(
    out: &mut W,
    number: u32,
    target: &Id,
    lines: usize,
) -> Result<(), WriteStop>
    ensures { Writes (W.taken out.old) (W.taken out.new) (W.failed out.old) (W.failed out.new)
        (words_line (decimal number ∷ codes "block" ∷ id_bytes target.now ∷ decimal lines ∷ [])) result }
{
    write_pieces(
        out,
        &[
            Piece::Number(u64::from(number)),
            Piece::Bytes(b" block "),
            Piece::Id(target),
            Piece::Bytes(b" "),
            Piece::Number(lines as u64),
            Piece::Bytes(b"\n"),
        ],
    )
}

// Writes the line of a statement that replaces weights: a number, and whose weights they are.
fn write_reweight<W: Sink>(out: &mut W, number: u32, id: &Id) -> Result<(), WriteStop>
    ensures { Writes (W.taken out.old) (W.taken out.new) (W.failed out.old) (W.failed out.new)
        (words_line (decimal number ∷ codes "reweight" ∷ id_bytes id.now ∷ [])) result }
{
    write_pieces(
        out,
        &[
            Piece::Number(u64::from(number)),
            Piece::Bytes(b" reweight "),
            Piece::Id(id),
            Piece::Bytes(b"\n"),
        ],
    )
}

// Writes how many statements remain, and how many were taken back.
#[tactic(auto, unfolding(crate::specs::Replies::history_count))]
fn write_count<W: Sink>(out: &mut W, session: &Session) -> Result<(), WriteStop>
    ensures { Writes (W.taken out.old) (W.taken out.new) (W.failed out.old) (W.failed out.new) (history_count session.now.history) result }
{
    write_pieces(
        out,
        &[
            Piece::Bytes(b"history "),
            Piece::Number(u64::from(session.remaining_len())),
            Piece::Bytes(b" "),
            Piece::Number(u64::from(session.undone_len())),
            Piece::Bytes(b"\n"),
        ],
    )
}
