//! Lines that are written piece by piece.
//!
//! Most lines are a few pieces, one behind another: words, numbers, names. `write_pieces` writes them from a list, so that a line
//! stands where it is written as it stands in its definition. A new kind of piece is a variant of `Piece`, and a case of
//! `write_piece` and of `piece_bytes` (`specs/Pieces.antt`). None of this takes memory.

ghost use Rattle.std.specs.Prelude.{decimal};
ghost use Rattle.std.specs.List.{flat_map};
ghost use Rattle.coll_devices.specs.Devices.{Writes};
ghost use Rattle.coll_texts.specs.Pieces.{piece_bytes};

use crate::spelled_entries::write_id;
use crate::spelled_lines::{write_rule, write_text};
use coll_devices::{Sink, WriteStop, write_bytes};
use coll_lex::write_symbol;
use coll_syntax::{Id, Rule};
use itoa::Buffer;

/// A piece of a line.
#[derive(Clone, Copy)]
pub enum Piece<'a> {
    /// These bytes, as they are.
    Bytes(&'a [u8]),
    /// A number, in decimal digits.
    Number(u64),
    /// A name between `<` and `>`, with `/` before each `>` and `/` in it.
    Symbol(&'a str),
    /// An identifier in its canonical spelling.
    Id(&'a Id),
    /// Each character of a text by its code point.
    Text(&'a str),
    /// A rule: its direction, and `position` where it has that.
    Rule(Rule),
}

/// Writes pieces, one behind another. Where it stops, the device has taken a prefix of them.
pub fn write_pieces<W: Sink>(out: &mut W, pieces: &[Piece<'_>]) -> Result<(), WriteStop>
    ensures { Writes (W.taken out.old) (W.taken out.new) (W.failed out.old) (W.failed out.new) (flat_map piece_bytes pieces.now) result }
{
    for piece in pieces {
        // Not `?`: behind its conversion this exit would need a lemma.
        if let Err(stop) = write_piece(out, *piece) {
            return Err(stop);
        }
    }
    Ok(())
}

// Writes a piece.
fn write_piece<W: Sink>(out: &mut W, piece: Piece<'_>) -> Result<(), WriteStop>
    ensures { Writes (W.taken out.old) (W.taken out.new) (W.failed out.old) (W.failed out.new) (piece_bytes piece.entry) result }
{
    match piece {
        Piece::Bytes(bytes) => write_bytes(out, bytes),
        Piece::Number(number) => write_number(out, number),
        Piece::Symbol(name) => write_symbol(out, name),
        Piece::Id(id) => write_id(out, id),
        Piece::Text(text) => write_text(out, text),
        Piece::Rule(rule) => write_rule(out, rule),
    }
}

/// Writes a number in decimal digits. Where it stops, the device has taken a prefix of them.
pub fn write_number<W: Sink>(out: &mut W, number: u64) -> Result<(), WriteStop>
    ensures { Writes (W.taken out.old) (W.taken out.new) (W.failed out.old) (W.failed out.new) (decimal number) result }
{
    let mut digits = Buffer::new();
    write_bytes(out, digits.format(number).as_bytes())
}
