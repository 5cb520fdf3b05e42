//! The canonical text of a table, and the law of printing.
//!
//! The text is `text` of `specs/CanonicalText.antt`: its lines, each with its line feed. A new kind of line, or another spelling,
//! is a case there first.

ghost use Rattle.std.specs.List.{flat_map};
ghost use Rattle.coll_devices.specs.Devices.{Writes};
ghost use Rattle.coll_texts.specs.CanonicalText.{PrintedTablesAreReadBack};
ghost use Rattle.coll_texts.specs.PrintedParts.{declaration_bytes, opening_bytes, table_bytes, visited_bytes};

use crate::spelled_lines::{write_declaration, write_rules_line, write_visited};
use coll_devices::{Sink, WriteStop, write_bytes};
use coll_nodes::{Declared, Walk};
use coll_syntax::Rule;

/// Writes the canonical text of a table with these rules, that declares this, and of which a walk visits this. It takes no memory.
///
/// Where it stops, the device has taken a prefix of the text.
pub fn write_table<W: Sink>(
    out: &mut W,
    rules: &[Rule],
    declared: Declared<'_>,
    walk: Walk<'_>,
) -> Result<(), WriteStop>
    ensures { Writes (W.taken out.old) (W.taken out.new) (W.failed out.old) (W.failed out.new)
        (table_bytes rules.now declared.entry walk.entry) result }
{
    write_opening(out, declared)?;
    write_rules_line(out, rules)?;
    write_walk(out, walk)?;
    write_bytes(out, b"order_end\nEND LC_COLLATE\n")
}

/// Writes the lines before the order: those that open the category, and one for each declaration.
pub(crate) fn write_opening<W: Sink>(out: &mut W, declared: Declared<'_>) -> Result<(), WriteStop>
    ensures { Writes (W.taken out.old) (W.taken out.new) (W.failed out.old) (W.failed out.new) (opening_bytes declared.entry) result }
{
    write_bytes(out, b"comment_char %\nescape_char /\nLC_COLLATE\n")?;
    write_declarations(out, declared)
}

// Writes a line for each declaration.
fn write_declarations<W: Sink>(out: &mut W, declared: Declared<'_>) -> Result<(), WriteStop>
    ensures { Writes (W.taken out.old) (W.taken out.new) (W.failed out.old) (W.failed out.new)
        (flat_map declaration_bytes declared.entry) result }
{
    let mut left = declared;
    'declared: while let Some(item) = left.next() {
        // Not `?`: behind its conversion this exit would need a lemma.
        if let Err(stop) = write_declaration(out, item) {
            return Err(stop);
        }
    }
    Ok(())
}

// Writes a line for each section with a name, and for each entry.
fn write_walk<W: Sink>(out: &mut W, walk: Walk<'_>) -> Result<(), WriteStop>
    ensures { Writes (W.taken out.old) (W.taken out.new) (W.failed out.old) (W.failed out.new) (flat_map visited_bytes walk.entry) result }
{
    let mut left = walk;
    'walk: while let Some(item) = left.next() {
        if let Err(stop) = write_visited(out, item) {
            return Err(stop);
        }
    }
    Ok(())
}

/// The law of printing: the canonical text of a well-formed table is read, by `reads`, as that table.
///
/// It does nothing; its contract is the law.
pub fn printed_tables_are_read_back()
    ensures { PrintedTablesAreReadBack }
{}
