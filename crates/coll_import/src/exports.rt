//! What is told of a table that is exported: the collating symbols that stand behind a character.
//!
//! The order that they have is exported as it is; that is why they are told. Whatever else is to be told of an exported table has
//! its definition in `specs/Exports.antt`, and its lines here. None of this takes memory.

ghost use Rattle.std.specs.Prelude.{◌≡◌};
ghost use Rattle.std.specs.List.{flat_map};
ghost use Rattle.coll_devices.specs.Devices.{Writes};
ghost use Rattle.coll_nodes.specs.TableLayout.{collation};
ghost use Rattle.coll_nodes.specs.WalkItems.{visited_by};
ghost use Rattle.coll_import.specs.Exports.{behind_character as stated_behind, behind_line, export_told, if_symbol, visited_told};
ghost use Rattle.coll_import.specs.Exports.{is_character as stated_character, visits_character as visits_stated};

use coll_devices::{Sink, WriteStop};
use coll_nodes::{Walk, WalkItem};
use coll_syntax::Id;
use coll_table::Table;
use coll_texts::{Piece, write_pieces};

/// Writes a line for each collating symbol that stands behind a character, in order: `FILE:0: behind <NAME>`, where FILE is this
/// name.
///
/// Where it stops, the device has taken a prefix of the lines.
pub fn write_symbols_behind<W: Sink>(
    table: &Table,
    file: &str,
    out: &mut W,
) -> Result<(), WriteStop>
    ensures { Writes (W.taken out.old) (W.taken out.new) (W.failed out.old) (W.failed out.new)
        (export_told file.now (collation table.now)) result }
{
    write_symbols(table, file, behind_character(table.walk()), out)
}

// What a walk visits behind the first character.
fn behind_character(walk: Walk<'_>) -> Walk<'_>
    ensures { result ≡ stated_behind walk.entry }
{
    let mut left = walk;
    'skipped: while let Some(item) = left.next() {
        if visits_character(item) {
            return left;
        }
    }
    left
}

// Whether a walk visits the entry of a character.
fn visits_character(item: WalkItem<'_>) -> bool
    ensures { result ≡ visits_stated (visited_by item.entry) }
{
    match item {
        WalkItem::Section(_) => false,
        WalkItem::Entry(entry) => is_character(entry.id()),
    }
}

// Whether an identifier is a character.
fn is_character(id: &Id) -> bool
    ensures { result ≡ stated_character id.now }
{
    match id {
        Id::Char(_) => true,
        Id::Named(_) => false,
        Id::Undefined => false,
    }
}

// Writes a line for each collating symbol that a walk visits.
fn write_symbols<W: Sink>(
    table: &Table,
    file: &str,
    walk: Walk<'_>,
    out: &mut W,
) -> Result<(), WriteStop>
    ensures { Writes (W.taken out.old) (W.taken out.new) (W.failed out.old) (W.failed out.new)
        (flat_map (visited_told file.now (collation table.now).declared) walk.entry) result }
{
    let mut left = walk;
    'symbols: while let Some(item) = left.next() {
        // Not `?`: behind its conversion this exit would need a lemma.
        if let Err(stop) = write_if_visited(table, file, item, out) {
            return Err(stop);
        }
    }
    Ok(())
}

// Writes the line of a collating symbol, if a walk visits one.
fn write_if_visited<W: Sink>(
    table: &Table,
    file: &str,
    item: WalkItem<'_>,
    out: &mut W,
) -> Result<(), WriteStop>
    ensures { Writes (W.taken out.old) (W.taken out.new) (W.failed out.old) (W.failed out.new)
        (visited_told file.now (collation table.now).declared (visited_by item.entry)) result }
{
    match item {
        WalkItem::Section(_) => Ok(()),
        WalkItem::Entry(entry) => write_if_symbol(table, file, entry.id(), out),
    }
}

// Writes the line of an identifier, if it is a collating symbol.
fn write_if_symbol<W: Sink>(
    table: &Table,
    file: &str,
    id: &Id,
    out: &mut W,
) -> Result<(), WriteStop>
    ensures { Writes (W.taken out.old) (W.taken out.new) (W.failed out.old) (W.failed out.new)
        (flat_map (behind_line file.now) (if_symbol (collation table.now).declared id.now)) result }
{
    if table.is_symbol(id) {
        write_behind(file, id, out)
    } else {
        Ok(())
    }
}

// Writes the line of a collating symbol.
fn write_behind<'a, W: Sink>(file: &'a str, id: &'a Id, out: &mut W) -> Result<(), WriteStop>
    ensures { Writes (W.taken out.old) (W.taken out.new) (W.failed out.old) (W.failed out.new) (behind_line file.now id.now) result }
{
    write_pieces(
        out,
        &[
            Piece::Bytes(file.as_bytes()),
            Piece::Bytes(b":0: behind "),
            Piece::Id(id),
            Piece::Bytes(b"\n"),
        ],
    )
}
