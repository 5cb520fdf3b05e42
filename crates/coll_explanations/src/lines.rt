//! The lines of an explanation.
//!
//! Each line is a list of pieces, or parts one behind another (`specs/Explanations.antt`). None of this takes memory.

ghost use Rattle.std.specs.Prelude.{◌≡◌, ◌++◌, ◌∷◌, [], option_map};
ghost use Rattle.std.specs.List.{flat_map};
ghost use Rattle.coll_devices.specs.Devices.{Writes};
ghost use Rattle.coll_devices.specs.PhysicalLines.{line_feed};
ghost use Rattle.coll_texts.specs.Pieces.{piece_bytes};
ghost use Rattle.coll_key.specs.WrittenKey.{added_word};
ghost use Rattle.coll_bench.specs.Replies.{order_word};
ghost use Rattle.coll_explanations.specs.Explanations.{difference_words, element_word, elements_line, level_line};
ghost use Rattle.coll_explanations.specs.ToldLists.{gap_words, number_words};
ghost use Rattle.coll_explanations.specs.ToldSteps.{apart_of, step_words};

use crate::differences::Difference;
use crate::level_numbers::Step;
use coll_devices::{Sink, WriteStop, write_bytes};
use coll_key::RANK_STEP;
use coll_syntax::{Id, Rule};
use coll_texts::{Piece, write_pieces};
use std::cmp::Ordering;

/// Writes the line of a text's elements, behind its letter.
pub(crate) fn write_elements<W: Sink>(
    out: &mut W,
    letter: &[u8],
    elements: &[Id],
) -> Result<(), WriteStop>
    ensures { Writes (W.taken out.old) (W.taken out.new) (W.failed out.old) (W.failed out.new)
        (elements_line letter.now elements.now) result }
{
    write_bytes(out, letter)?;
    write_each(out, elements)?;
    write_bytes(out, b"\n")
}

// Writes elements, with a space before each.
fn write_each<W: Sink>(out: &mut W, elements: &[Id]) -> Result<(), WriteStop>
    ensures { Writes (W.taken out.old) (W.taken out.new) (W.failed out.old) (W.failed out.new) (flat_map element_word elements.now) result }
{
    for element in elements {
        // Not `?`: behind its conversion this exit would need a lemma.
        if let Err(stop) = write_element(out, element) {
            return Err(stop);
        }
    }
    Ok(())
}

// Writes an element, with a space before it.
fn write_element<W: Sink>(out: &mut W, element: &Id) -> Result<(), WriteStop>
    ensures { Writes (W.taken out.old) (W.taken out.new) (W.failed out.old) (W.failed out.new) (element_word element.now) result }
{
    write_pieces(out, &[Piece::Bytes(b" "), Piece::Id(element)])
}

/// Writes the line of a level, by its number from 1 and its rule.
pub(crate) fn write_level<W: Sink>(
    out: &mut W,
    number: u64,
    rule: Rule,
    difference: Option<Difference<'_>>,
) -> Result<(), WriteStop>
    ensures { Writes (W.taken out.old) (W.taken out.new) (W.failed out.old) (W.failed out.new)
        (level_line number rule (option_map apart_of difference.entry)) result }
{
    write_pieces(
        out,
        &[
            Piece::Bytes(b"level "),
            Piece::Number(number),
            Piece::Bytes(b" "),
            Piece::Rule(rule),
            Piece::Bytes(b" "),
        ],
    )?;
    write_difference(out, difference)
}

// Writes what the line of a level says behind its rule: where two lists differ first, and what stands there in either.
fn write_difference<W: Sink>(
    out: &mut W,
    difference: Option<Difference<'_>>,
) -> Result<(), WriteStop>
    ensures { Writes (W.taken out.old) (W.taken out.new) (W.failed out.old) (W.failed out.new)
        (difference_words (option_map apart_of difference.entry)) result }
{
    let Some(apart) = difference else {
        return write_bytes(out, b"equal\n");
    };
    write_pieces(
        out,
        &[
            Piece::Bytes(b"differs at "),
            Piece::Number(apart.place),
            Piece::Bytes(b": "),
        ],
    )?;
    write_words(out, apart.at_position, apart.step, b", ")?;
    write_words(out, apart.at_position, apart.other, b"\n")
}

// Writes the words for what stands at a place of a list, and what stands behind them.
fn write_words<'a, W: Sink>(
    out: &mut W,
    at_position: bool,
    step: Option<Step<'a>>,
    tail: &'a [u8],
) -> Result<(), WriteStop>
    ensures { Writes (W.taken out.old) (W.taken out.new) (W.failed out.old) (W.failed out.new)
        (step_words at_position step.entry ++ tail.now) result }
{
    match (step, at_position) {
        (None, _) => write_pieces(out, &[Piece::Bytes(b"end"), Piece::Bytes(tail)]),
        (Some(step), true) => write_position(out, step, tail),
        (Some(step), false) => write_number(out, step, tail),
    }
}

// Writes the words of a position, and what stands behind them.
fn write_position<'a, W: Sink>(out: &mut W, step: Step<'a>, tail: &'a [u8]) -> Result<(), WriteStop>
    ensures { Writes (W.taken out.old) (W.taken out.new) (W.failed out.old) (W.failed out.new)
        (gap_words step.entry.position step.entry.element.now ++ tail.now) result }
{
    write_pieces(
        out,
        &[
            Piece::Bytes(b"gap "),
            Piece::Number(step.position),
            Piece::Bytes(b" before "),
            Piece::Id(step.element),
            Piece::Bytes(tail),
        ],
    )
}

// Writes the words of a number, and what stands behind them.
fn write_number<'a, W: Sink>(out: &mut W, step: Step<'a>, tail: &'a [u8]) -> Result<(), WriteStop>
    ensures { Writes (W.taken out.old) (W.taken out.new) (W.failed out.old) (W.failed out.new)
        (number_words step.entry.number step.entry.id.now step.entry.element.now ++ tail.now) result }
{
    let (plus, added) = added_pieces(step.number % RANK_STEP);
    write_pieces(
        out,
        &[
            Piece::Number(step.number / RANK_STEP),
            plus,
            added,
            Piece::Bytes(b" "),
            Piece::Id(step.id),
            Piece::Bytes(b" of "),
            Piece::Id(step.element),
            Piece::Bytes(tail),
        ],
    )
}

// What stands behind a rank: a plus sign and what was added to its number, or nothing.
fn added_pieces<'a>(added: u64) -> (Piece<'a>, Piece<'a>)
    ensures { piece_bytes result.0 ++ piece_bytes result.1 ≡ added_word added }
{
    if added == 0 {
        (Piece::Bytes(b""), Piece::Bytes(b""))
    } else {
        (Piece::Bytes(b"+"), Piece::Number(added))
    }
}

/// Writes the order of two texts.
pub(crate) fn write_order<W: Sink>(out: &mut W, order: Ordering) -> Result<(), WriteStop>
    ensures { Writes (W.taken out.old) (W.taken out.new) (W.failed out.old) (W.failed out.new) (order_word order ++ line_feed ∷ []) result }
{
    write_bytes(
        out,
        match order {
            Ordering::Less => b"less\n",
            Ordering::Equal => b"equal\n",
            Ordering::Greater => b"greater\n",
        },
    )
}
