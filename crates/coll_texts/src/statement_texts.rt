//! The text of a statement, written to a device.
//!
//! A statement is written as its lines (`specs/StatementText.antt`), of which each is spelled as that of a table is. A new statement is
//! a case of `statement_lines` there and of `write_statement` here. None of this takes memory.

ghost use Rattle.std.specs.Prelude.{encode_utf8_all};
ghost use Rattle.std.specs.List.{flat_map};
ghost use Rattle.coll_devices.specs.Devices.{Writes};
ghost use Rattle.coll_texts.specs.CanonicalText.{line_bytes};
ghost use Rattle.coll_texts.specs.StatementText.{given_behind, block_lines, statement_bytes, order_bytes};

use crate::pieces::{Piece, write_pieces};
use crate::spelled_entries::{write_id, write_weights};
use crate::spelled_lines::{write_declaration, write_two_names};
use coll_devices::{Sink, WriteStop, write_bytes};
use coll_lex::ListBuf;
use coll_nodes::DeclaredItem;
use coll_syntax::{Id, OrderLine, Statement, Weight};

/// Writes the lines of a statement, as a delta file has them. It takes no memory.
///
/// Where it stops, the device has taken a prefix of them.
pub fn write_statement<W: Sink>(out: &mut W, statement: &Statement) -> Result<(), WriteStop>
    ensures { Writes (W.taken out.old) (W.taken out.new) (W.failed out.old) (W.failed out.new) (statement_bytes statement.now) result }
{
    match statement {
        Statement::Symbol(name) => write_declaration(out, DeclaredItem::Symbol(name.get())),
        Statement::Element { name, text } => {
            write_declaration(out, DeclaredItem::Element(name.get(), text.get()))
        }
        Statement::Equivalence { name, symbol } => {
            write_declaration(out, DeclaredItem::Equivalence(name.get(), symbol.get()))
        }
        Statement::Block { target, lines } => write_block(out, target, lines.get()),
        Statement::SectionAfter { moved, after } => {
            write_two_names(out, b"reorder-section-after ", moved.get(), after.get())
        }
        Statement::Reweight(line) => write_order_line(out, line),
    }
}

// Writes the lines of a block.
fn write_block<W: Sink>(out: &mut W, target: &Id, lines: &[OrderLine]) -> Result<(), WriteStop>
    ensures { Writes (W.taken out.old) (W.taken out.new) (W.failed out.old) (W.failed out.new)
        (flat_map line_bytes (block_lines target.now lines.now)) result }
{
    write_pieces(
        out,
        &[
            Piece::Bytes(b"reorder-after "),
            Piece::Id(target),
            Piece::Bytes(b"\n"),
        ],
    )?;
    write_order_lines(out, lines)?;
    write_bytes(out, b"reorder-end\n")
}

// Writes order lines.
fn write_order_lines<W: Sink>(out: &mut W, lines: &[OrderLine]) -> Result<(), WriteStop>
    ensures { Writes (W.taken out.old) (W.taken out.new) (W.failed out.old) (W.failed out.new) (flat_map order_bytes lines.now) result }
{
    for line in lines {
        // Not `?`: behind its conversion this exit would need a lemma.
        if let Err(stop) = write_order_line(out, line) {
            return Err(stop);
        }
    }
    Ok(())
}

// Writes an order line.
fn write_order_line<W: Sink>(out: &mut W, line: &OrderLine) -> Result<(), WriteStop>
    ensures { Writes (W.taken out.old) (W.taken out.new) (W.failed out.old) (W.failed out.new) (order_bytes line.now) result }
{
    write_id(out, &line.id)?;
    write_given(out, &line.weights)?;
    write_bytes(out, b"\n")
}

// Writes the weights behind an identifier, if any are given: an entry's own as that of `UNDEFINED`, which is an empty operand.
fn write_given<W: Sink>(out: &mut W, weights: &Option<ListBuf<Weight>>) -> Result<(), WriteStop>
    ensures { Writes (W.taken out.old) (W.taken out.new) (W.failed out.old) (W.failed out.new)
        (encode_utf8_all (given_behind weights.now)) result }
{
    let Some(weights) = weights else {
        return Ok(());
    };
    write_bytes(out, b" ")?;
    write_weights(out, &Id::Undefined, weights.get())
}
