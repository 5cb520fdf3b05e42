//! The lines of declarations, of sections and of the rules, written to a device.
//!
//! The line of a declaration or of a section is written piece by piece (`pieces`); of that of the rules each function writes one
//! part (`specs/PrintedParts.antt`). What is spelled how is `specs/CanonicalText.antt`. None of this takes memory.

ghost use Rattle.std.specs.Prelude.{[], ◌∷◌, ◌++◌, chars, encode_utf8_all, codes};
ghost use Rattle.std.specs.List.{flat_map};
ghost use Rattle.coll_devices.specs.Devices.{Writes};
ghost use Rattle.coll_devices.specs.PhysicalLines.{line_feed};
ghost use Rattle.coll_texts.specs.CanonicalText.{spelled_rule, spelled_joined, rules_line, line_bytes};
ghost use Rattle.coll_texts.specs.PrintedParts.{char_bytes, behind_bytes, declaration_bytes, rules_bytes, visited_bytes};
ghost use Rattle.coll_texts.specs.PrintedParts.{symbol_bytes, element_bytes, names_bytes};
ghost use Rattle.coll_nodes.specs.WalkItems.{visited_by, declared_by};

use crate::pieces::{Piece, write_pieces};
use crate::spelled_entries::write_entry;
use coll_devices::{Sink, WriteStop, write_bytes};
use coll_lex::write_char;
use coll_nodes::{DeclaredItem, WalkItem};
use coll_syntax::Rule;

/// Writes the line of a declaration.
pub(crate) fn write_declaration<W: Sink>(
    out: &mut W,
    item: DeclaredItem<'_>,
) -> Result<(), WriteStop>
    ensures { Writes (W.taken out.old) (W.taken out.new) (W.failed out.old) (W.failed out.new)
        (declaration_bytes (declared_by item.entry)) result }
{
    match item {
        DeclaredItem::Symbol(name) => write_named(out, b"collating-symbol ", name),
        DeclaredItem::Element(name, text) => write_element(out, name, text),
        DeclaredItem::Equivalence(name, symbol) => {
            write_two_names(out, b"symbol-equivalence ", name, symbol)
        }
    }
}

/// Writes the line of what a walk visits: that which begins a section, or that of an entry.
pub(crate) fn write_visited<W: Sink>(out: &mut W, item: WalkItem<'_>) -> Result<(), WriteStop>
    ensures { Writes (W.taken out.old) (W.taken out.new) (W.failed out.old) (W.failed out.new)
        (visited_bytes (visited_by item.entry)) result }
{
    match item {
        WalkItem::Section(name) => write_named(out, b"section ", name),
        WalkItem::Entry(entry) => write_entry(out, entry),
    }
}

/// Writes a line of a word and a name.
pub(crate) fn write_named<'a, W: Sink>(
    out: &mut W,
    word: &'a [u8],
    name: &'a str,
) -> Result<(), WriteStop>
    ensures { Writes (W.taken out.old) (W.taken out.new) (W.failed out.old) (W.failed out.new)
        (word.now ++ (symbol_bytes (chars name.now) ++ line_feed ∷ [])) result }
{
    write_pieces(
        out,
        &[Piece::Bytes(word), Piece::Symbol(name), Piece::Bytes(b"\n")],
    )
}

// Writes the line of a collating element.
fn write_element<'a, W: Sink>(out: &mut W, name: &'a str, text: &'a str) -> Result<(), WriteStop>
    ensures { Writes (W.taken out.old) (W.taken out.new) (W.failed out.old) (W.failed out.new)
        (codes "collating-element " ++ element_bytes (chars name.now) (chars text.now)) result }
{
    write_pieces(
        out,
        &[
            Piece::Bytes(b"collating-element "),
            Piece::Symbol(name),
            Piece::Bytes(b" from \""),
            Piece::Text(text),
            Piece::Bytes(b"\"\n"),
        ],
    )
}

/// Writes a line of a word and two names.
pub(crate) fn write_two_names<'a, W: Sink>(
    out: &mut W,
    word: &'a [u8],
    first: &'a str,
    second: &'a str,
) -> Result<(), WriteStop>
    ensures { Writes (W.taken out.old) (W.taken out.new) (W.failed out.old) (W.failed out.new)
        (word.now ++ names_bytes (chars first.now) (chars second.now)) result }
{
    write_pieces(
        out,
        &[
            Piece::Bytes(word),
            Piece::Symbol(first),
            Piece::Bytes(b" "),
            Piece::Symbol(second),
            Piece::Bytes(b"\n"),
        ],
    )
}

/// Writes each character of a text by its code point.
pub fn write_text<W: Sink>(out: &mut W, text: &str) -> Result<(), WriteStop>
    ensures { Writes (W.taken out.old) (W.taken out.new) (W.failed out.old) (W.failed out.new)
        (flat_map char_bytes (chars text.now)) result }
{
    for c in text.chars() {
        // Not `?`: behind its conversion this exit would need a lemma.
        if let Err(stop) = write_char(out, c) {
            return Err(stop);
        }
    }
    Ok(())
}

/// Writes the line of the rules.
pub(crate) fn write_rules_line<W: Sink>(out: &mut W, rules: &[Rule]) -> Result<(), WriteStop>
    ensures { Writes (W.taken out.old) (W.taken out.new) (W.failed out.old) (W.failed out.new) (line_bytes (rules_line rules.now)) result }
{
    write_bytes(out, b"order_start ")?;
    write_rules_ended(out, rules)
}

/// Writes rules with a semicolon between them, and the line's end.
pub(crate) fn write_rules_ended<W: Sink>(out: &mut W, rules: &[Rule]) -> Result<(), WriteStop>
    ensures { Writes (W.taken out.old) (W.taken out.new) (W.failed out.old) (W.failed out.new) (rules_bytes rules.now) result }
{
    write_rules(out, rules)?;
    write_bytes(out, b"\n")
}

// Writes rules with a semicolon between them.
fn write_rules<W: Sink>(out: &mut W, rules: &[Rule]) -> Result<(), WriteStop>
    ensures { Writes (W.taken out.old) (W.taken out.new) (W.failed out.old) (W.failed out.new)
        (encode_utf8_all (spelled_joined spelled_rule rules.now [])) result }
{
    let Some((first, later)) = rules.split_first() else {
        return Ok(());
    };
    write_rule(out, *first)?;
    write_later_rules(out, later)
}

// Writes rules with a semicolon before each.
fn write_later_rules<W: Sink>(out: &mut W, rules: &[Rule]) -> Result<(), WriteStop>
    ensures { Writes (W.taken out.old) (W.taken out.new) (W.failed out.old) (W.failed out.new)
        (flat_map (behind_bytes spelled_rule) rules.now) result }
{
    for rule in rules {
        if let Err(stop) = write_rule_behind(out, *rule) {
            return Err(stop);
        }
    }
    Ok(())
}

// Writes a semicolon and a rule.
fn write_rule_behind<W: Sink>(out: &mut W, rule: Rule) -> Result<(), WriteStop>
    ensures { Writes (W.taken out.old) (W.taken out.new) (W.failed out.old) (W.failed out.new) (behind_bytes spelled_rule rule) result }
{
    write_bytes(out, b";")?;
    write_rule(out, rule)
}

/// Writes a rule: its direction, and `position` where it has that.
pub(crate) fn write_rule<W: Sink>(out: &mut W, rule: Rule) -> Result<(), WriteStop>
    ensures { Writes (W.taken out.old) (W.taken out.new) (W.failed out.old) (W.failed out.new)
        (encode_utf8_all (spelled_rule rule [])) result }
{
    match (rule.backward, rule.position) {
        (false, false) => write_bytes(out, b"forward"),
        (false, true) => write_bytes(out, b"forward,position"),
        (true, false) => write_bytes(out, b"backward"),
        (true, true) => write_bytes(out, b"backward,position"),
    }
}
