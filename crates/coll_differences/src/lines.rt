//! The lines that tell what differs between two tables.
//!
//! Each line is a list of pieces, or parts one behind another where it has a list; which line tells what is `specs/Lines.antt`. None of
//! this takes memory.

ghost use Rattle.std.specs.Prelude.{◌≡◌, ◌++◌, chars, count_by};
ghost use Rattle.std.specs.List.{flat_map};
ghost use Rattle.coll_devices.specs.Devices.{Writes};
ghost use Rattle.coll_nodes.specs.WalkItems.{declared_by};
ghost use Rattle.coll_nodes.specs.declared.declarations.Declaration.TheVariants.{Element, Equivalence};
ghost use Rattle.coll_texts.specs.PrintedParts.{symbol_bytes};
ghost use Rattle.coll_differences.specs.Lines.{behind_told, change_told, counts_told, declaration_told, difference_told, differences_told};
ghost use Rattle.coll_differences.specs.Lines.{line_end, mark_told, one_if, rule_word, rules_told, worded};
ghost use Rattle.coll_differences.specs.Lines.{lent_weights_told, weights_told};
ghost use Rattle.coll_differences.specs.Changes.{is_addition, is_move, is_removal};
ghost use Rattle.coll_differences.specs.Orders.{mark_of};

use crate::changes::Change;
use crate::differences::Differences;
use crate::orders::Point;
use coll_devices::{Sink, WriteStop, write_bytes};
use coll_syntax::Rule;
use coll_table::{DeclaredItem, Entry};
use coll_texts::{Piece, write_id, write_pieces, write_weighed};

/// Writes what differs between two tables: a line for each difference, and last a line of counts; or `same`.
///
/// Where it stops, the device has taken a prefix of the lines.
pub fn write_difference<W: Sink>(
    out: &mut W,
    told: &Option<Differences<'_>>,
) -> Result<(), WriteStop>
    ensures { Writes (W.taken out.old) (W.taken out.new) (W.failed out.old) (W.failed out.new) (difference_told told.now) result }
{
    match told {
        None => write_bytes(out, b"same\n"),
        Some(told) => write_differences(out, told),
    }
}

// Writes a line for each difference, and a line of counts.
fn write_differences<W: Sink>(out: &mut W, told: &Differences<'_>) -> Result<(), WriteStop>
    ensures { Writes (W.taken out.old) (W.taken out.new) (W.failed out.old) (W.failed out.new) (differences_told told.now) result }
{
    write_rules(out, told.rules)?;
    write_changes(out, told.declarations.as_slice())?;
    write_changes(out, told.changes.as_slice())?;
    write_all_weights(out, told.weights.as_slice())?;
    write_counts(out, told)
}

// Writes the line of rules, where they are others.
fn write_rules<W: Sink>(out: &mut W, told: Option<&[Rule]>) -> Result<(), WriteStop>
    ensures { Writes (W.taken out.old) (W.taken out.new) (W.failed out.old) (W.failed out.new) (rules_told told.entry) result }
{
    let Some(rules) = told else {
        return Ok(());
    };
    write_bytes(out, b"rules")?;
    write_rule_words(out, rules)?;
    write_bytes(out, b"\n")
}

// Writes rules, with a space before each.
fn write_rule_words<W: Sink>(out: &mut W, rules: &[Rule]) -> Result<(), WriteStop>
    ensures { Writes (W.taken out.old) (W.taken out.new) (W.failed out.old) (W.failed out.new) (flat_map rule_word rules.now) result }
{
    for rule in rules {
        // Not `?`: behind its conversion this exit would need a lemma.
        if let Err(stop) = write_rule_word(out, *rule) {
            return Err(stop);
        }
    }
    Ok(())
}

// Writes a rule, with a space before it.
fn write_rule_word<W: Sink>(out: &mut W, rule: Rule) -> Result<(), WriteStop>
    ensures { Writes (W.taken out.old) (W.taken out.new) (W.failed out.old) (W.failed out.new) (rule_word rule) result }
{
    write_pieces(out, &[Piece::Bytes(b" "), Piece::Rule(rule)])
}

// Writes a line for each change.
fn write_changes<W: Sink>(out: &mut W, changes: &[Change<'_>]) -> Result<(), WriteStop>
    ensures { Writes (W.taken out.old) (W.taken out.new) (W.failed out.old) (W.failed out.new) (flat_map change_told changes.now) result }
{
    for change in changes {
        if let Err(stop) = write_change(out, *change) {
            return Err(stop);
        }
    }
    Ok(())
}

// Writes the line of a change.
fn write_change<W: Sink>(out: &mut W, change: Change<'_>) -> Result<(), WriteStop>
    ensures { Writes (W.taken out.old) (W.taken out.new) (W.failed out.old) (W.failed out.new) (change_told change.entry) result }
{
    match change {
        Change::Removed(point) => write_ended(out, b"removed ", point),
        Change::Added { point, behind } => write_placed(out, b"added ", point, behind),
        Change::Moved { point, behind } => write_placed(out, b"moved ", point, behind),
    }
}

// Writes the line of a point that goes behind another, or first of all.
fn write_placed<W: Sink>(
    out: &mut W,
    word: &[u8],
    point: Point<'_>,
    behind: Option<Point<'_>>,
) -> Result<(), WriteStop>
    ensures { Writes (W.taken out.old) (W.taken out.new) (W.failed out.old) (W.failed out.new)
        (worded word.now (mark_of point.entry) ++ behind_told behind.entry) result }
{
    write_worded(out, word, point)?;
    write_behind(out, behind)
}

// Writes what a point stands behind, and the end of the line.
fn write_behind<W: Sink>(out: &mut W, behind: Option<Point<'_>>) -> Result<(), WriteStop>
    ensures { Writes (W.taken out.old) (W.taken out.new) (W.failed out.old) (W.failed out.new) (behind_told behind.entry) result }
{
    match behind {
        None => write_bytes(out, b" first\n"),
        Some(behind) => write_ended(out, b" behind ", behind),
    }
}

// Writes a point behind a word, and the end of the line.
fn write_ended<W: Sink>(out: &mut W, word: &[u8], point: Point<'_>) -> Result<(), WriteStop>
    ensures { Writes (W.taken out.old) (W.taken out.new) (W.failed out.old) (W.failed out.new)
        (worded word.now (mark_of point.entry) ++ line_end) result }
{
    write_worded(out, word, point)?;
    write_bytes(out, b"\n")
}

// Writes a point behind a word.
fn write_worded<W: Sink>(out: &mut W, word: &[u8], point: Point<'_>) -> Result<(), WriteStop>
    ensures { Writes (W.taken out.old) (W.taken out.new) (W.failed out.old) (W.failed out.new)
        (worded word.now (mark_of point.entry)) result }
{
    write_bytes(out, word)?;
    write_point(out, point)
}

// Writes a point: a declaration, the beginning of a section by its name, or the identifier of an entry.
fn write_point<W: Sink>(out: &mut W, point: Point<'_>) -> Result<(), WriteStop>
    ensures { Writes (W.taken out.old) (W.taken out.new) (W.failed out.old) (W.failed out.new) (mark_told (mark_of point.entry)) result }
{
    match point {
        Point::Declared(item) => write_declaration(out, item),
        Point::Section(name) => write_named(out, b"section ", name),
        Point::Entry(id) => write_id(out, id),
    }
}

// Writes a declaration, as its line in a table.
fn write_declaration<W: Sink>(out: &mut W, item: DeclaredItem<'_>) -> Result<(), WriteStop>
    ensures { Writes (W.taken out.old) (W.taken out.new) (W.failed out.old) (W.failed out.new)
        (declaration_told (declared_by item.entry)) result }
{
    match item {
        DeclaredItem::Symbol(name) => write_named(out, b"collating-symbol ", name),
        DeclaredItem::Element(name, text) => write_element(out, name, text),
        DeclaredItem::Equivalence(name, symbol) => write_second_name(out, name, symbol),
    }
}

// Writes a name between its brackets, behind a word.
fn write_named<'a, W: Sink>(out: &mut W, word: &'a [u8], name: &'a str) -> Result<(), WriteStop>
    ensures { Writes (W.taken out.old) (W.taken out.new) (W.failed out.old) (W.failed out.new)
        (word.now ++ symbol_bytes (chars name.now)) result }
{
    write_pieces(out, &[Piece::Bytes(word), Piece::Symbol(name)])
}

// Writes the declaration of a collating element.
fn write_element<'a, W: Sink>(out: &mut W, name: &'a str, text: &'a str) -> Result<(), WriteStop>
    ensures { Writes (W.taken out.old) (W.taken out.new) (W.failed out.old) (W.failed out.new)
        (declaration_told (Element (chars name.now) (chars text.now))) result }
{
    write_pieces(
        out,
        &[
            Piece::Bytes(b"collating-element "),
            Piece::Symbol(name),
            Piece::Bytes(b" from \""),
            Piece::Text(text),
            Piece::Bytes(b"\""),
        ],
    )
}

// Writes the declaration of a second name.
fn write_second_name<'a, W: Sink>(
    out: &mut W,
    name: &'a str,
    symbol: &'a str,
) -> Result<(), WriteStop>
    ensures { Writes (W.taken out.old) (W.taken out.new) (W.failed out.old) (W.failed out.new)
        (declaration_told (Equivalence (chars name.now) (chars symbol.now))) result }
{
    write_pieces(
        out,
        &[
            Piece::Bytes(b"symbol-equivalence "),
            Piece::Symbol(name),
            Piece::Bytes(b" "),
            Piece::Symbol(symbol),
        ],
    )
}

// Writes a line for each entry with other weights.
fn write_all_weights<W: Sink>(out: &mut W, entries: &[&Entry]) -> Result<(), WriteStop>
    ensures { Writes (W.taken out.old) (W.taken out.new) (W.failed out.old) (W.failed out.new)
        (flat_map lent_weights_told entries.now) result }
{
    for entry in entries {
        if let Err(stop) = write_reweighted(out, entry) {
            return Err(stop);
        }
    }
    Ok(())
}

// Writes the line of an entry with other weights.
fn write_reweighted<W: Sink>(out: &mut W, entry: &Entry) -> Result<(), WriteStop>
    ensures { Writes (W.taken out.old) (W.taken out.new) (W.failed out.old) (W.failed out.new) (weights_told entry.now) result }
{
    write_bytes(out, b"weights ")?;
    write_weighed(out, entry)
}

// Writes the line of counts.
fn write_counts<W: Sink>(out: &mut W, told: &Differences<'_>) -> Result<(), WriteStop>
    ensures { Writes (W.taken out.old) (W.taken out.new) (W.failed out.old) (W.failed out.new) (counts_told told.now) result }
{
    let rules = count_one(told.rules.is_some());
    let changes = told.changes.as_slice();
    write_pieces(
        out,
        &[
            Piece::Bytes(b"differences rules "),
            Piece::Number(rules),
            Piece::Bytes(b" declarations "),
            Piece::Number(told.declarations.len() as u64),
            Piece::Bytes(b" removed "),
            Piece::Number(removals(changes)),
            Piece::Bytes(b" added "),
            Piece::Number(additions(changes)),
            Piece::Bytes(b" moved "),
            Piece::Number(moves(changes)),
            Piece::Bytes(b" weights "),
            Piece::Number(told.weights.len() as u64),
            Piece::Bytes(b"\n"),
        ],
    )
}

// One, if it is so.
fn count_one(is_so: bool) -> u64
    ensures { result ≡ one_if is_so }
{
    if is_so { 1 } else { 0 }
}

// How many points are removed.
fn removals(changes: &[Change<'_>]) -> u64
    ensures { result ≡ count_by is_removal changes.now }
{
    changes
        .iter()
        .filter(|change| matches!(change, Change::Removed(_)))
        .count() as u64
}

// How many points are added.
fn additions(changes: &[Change<'_>]) -> u64
    ensures { result ≡ count_by is_addition changes.now }
{
    changes
        .iter()
        .filter(|change| matches!(change, Change::Added { .. }))
        .count() as u64
}

// How many points are moved.
fn moves(changes: &[Change<'_>]) -> u64
    ensures { result ≡ count_by is_move changes.now }
{
    changes
        .iter()
        .filter(|change| matches!(change, Change::Moved { .. }))
        .count() as u64
}
