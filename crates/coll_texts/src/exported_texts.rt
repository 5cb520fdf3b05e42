//! The text of a table in the form that `localedef` takes, and the law that it is read back.
//!
//! The text is `exported_text` of `specs/ExportedText.antt`. Its lines but those of sections are the canonical ones, and written by
//! the same functions. Another form of sections is a case there first.

ghost use Rattle.std.specs.Prelude.{chars};
ghost use Rattle.std.specs.List.{flat_map};
ghost use Rattle.coll_devices.specs.Devices.{Writes};
ghost use Rattle.coll_nodes.specs.WalkItems.{visited_by};
ghost use Rattle.coll_texts.specs.ExportedText.{ExportedTablesAreReadBack};
ghost use Rattle.coll_texts.specs.ExportedParts.{exported_bytes, next_bytes, noted_bytes, start_bytes, walked_bytes};

use crate::canonical_texts::write_opening;
use crate::pieces::{Piece, write_pieces};
use crate::spelled_entries::write_entry;
use crate::spelled_lines::{write_named, write_rules_ended, write_rules_line};
use coll_devices::{Sink, WriteStop, write_bytes};
use coll_nodes::{Declared, Walk, WalkItem};
use coll_syntax::Rule;

/// Writes the exported text of a table with these rules, that declares this, and of which two walks visit this: one for the names
/// of the sections, and one for the sections. It takes no memory.
///
/// Where it stops, the device has taken a prefix of the text.
pub fn write_exported<W: Sink>(
    out: &mut W,
    rules: &[Rule],
    declared: Declared<'_>,
    names: Walk<'_>,
    walk: Walk<'_>,
) -> Result<(), WriteStop>
    ensures { Writes (W.taken out.old) (W.taken out.new) (W.failed out.old) (W.failed out.new)
        (exported_bytes rules.now declared.entry names.entry walk.entry) result }
{
    write_opening(out, declared)?;
    write_names(out, names)?;
    write_rules_line(out, rules)?;
    write_sections(out, rules, walk)?;
    write_bytes(out, b"order_end\nEND LC_COLLATE\n")
}

// Writes a line for the name of each section that has one.
fn write_names<W: Sink>(out: &mut W, names: Walk<'_>) -> Result<(), WriteStop>
    ensures { Writes (W.taken out.old) (W.taken out.new) (W.failed out.old) (W.failed out.new) (flat_map noted_bytes names.entry) result }
{
    let mut left = names;
    'names: while let Some(item) = left.next() {
        // Not `?`: behind its conversion this exit would need a lemma.
        if let Err(stop) = write_noted(out, item) {
            return Err(stop);
        }
    }
    Ok(())
}

// Writes the line of a section's name. An entry has none.
fn write_noted<W: Sink>(out: &mut W, item: WalkItem<'_>) -> Result<(), WriteStop>
    ensures { Writes (W.taken out.old) (W.taken out.new) (W.failed out.old) (W.failed out.new)
        (noted_bytes (visited_by item.entry)) result }
{
    match item {
        WalkItem::Section(name) => write_named(out, b"script ", name),
        WalkItem::Entry(_) => Ok(()),
    }
}

// Writes each entry, and between the sections the end of one and the line that begins the next.
fn write_sections<W: Sink>(out: &mut W, rules: &[Rule], walk: Walk<'_>) -> Result<(), WriteStop>
    ensures { Writes (W.taken out.old) (W.taken out.new) (W.failed out.old) (W.failed out.new)
        (flat_map (walked_bytes rules.now) walk.entry) result }
{
    let mut left = walk;
    'sections: while let Some(item) = left.next() {
        if let Err(stop) = write_walked(out, rules, item) {
            return Err(stop);
        }
    }
    Ok(())
}

// Writes the lines of what a walk visits.
fn write_walked<W: Sink>(out: &mut W, rules: &[Rule], item: WalkItem<'_>) -> Result<(), WriteStop>
    ensures { Writes (W.taken out.old) (W.taken out.new) (W.failed out.old) (W.failed out.new)
        (walked_bytes rules.now (visited_by item.entry)) result }
{
    match item {
        WalkItem::Section(name) => write_next(out, rules, name),
        WalkItem::Entry(entry) => write_entry(out, entry),
    }
}

// Ends a section, and writes the line that begins the next.
fn write_next<'a, W: Sink>(out: &mut W, rules: &[Rule], name: &'a str) -> Result<(), WriteStop>
    ensures { Writes (W.taken out.old) (W.taken out.new) (W.failed out.old) (W.failed out.new)
        (next_bytes rules.now (chars name.now)) result }
{
    write_start(out, name)?;
    write_rules_ended(out, rules)
}

// Ends a section, and begins the line of the next, up to its rules.
fn write_start<'a, W: Sink>(out: &mut W, name: &'a str) -> Result<(), WriteStop>
    ensures { Writes (W.taken out.old) (W.taken out.new) (W.failed out.old) (W.failed out.new) (start_bytes (chars name.now)) result }
{
    write_pieces(
        out,
        &[
            Piece::Bytes(b"order_end\norder_start "),
            Piece::Symbol(name),
            Piece::Bytes(b";"),
        ],
    )
}

/// The law of exporting: the exported text of a well-formed table is read, by `reads`, as that table.
///
/// It does nothing; its contract is the law.
pub fn exported_tables_are_read_back()
    ensures { ExportedTablesAreReadBack }
{}
