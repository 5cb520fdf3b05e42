//! The lines of entries, written to a device: identifiers and weights in their canonical spellings.
//!
//! Each function writes one part of a line, and a line is one part behind another (`specs/PrintedParts.antt`). What is spelled how
//! is `specs/CanonicalText.antt`. None of this takes memory.

ghost use Rattle.std.specs.Prelude.{◌≡◌, [], encode_utf8_all};
ghost use Rattle.std.specs.List.{flat_map, list_all};
ghost use Rattle.coll_devices.specs.Devices.{Writes};
ghost use Rattle.coll_syntax.specs.Weights.{is_own};
ghost use Rattle.coll_texts.specs.CanonicalText.{spelled_string, spelled_own, spelled_names, spelled_weight};
ghost use Rattle.coll_texts.specs.CanonicalText.{spelled_joined, weights_behind, entry_line, line_bytes};
ghost use Rattle.coll_texts.specs.PrintedParts.{id_bytes, behind_bytes};

use coll_devices::{Sink, WriteStop, write_bytes};
use coll_lex::{write_char, write_symbol};
use coll_nodes::Entry;
use coll_syntax::{Id, Weight};

/// Writes the line of an entry.
pub(crate) fn write_entry<W: Sink>(out: &mut W, entry: &Entry) -> Result<(), WriteStop>
    ensures { Writes (W.taken out.old) (W.taken out.new) (W.failed out.old) (W.failed out.new) (line_bytes (entry_line entry.now)) result }
{
    let id = entry.id();
    write_id(out, id)?;
    write_weights_behind_id(out, id, entry.weights())?;
    write_bytes(out, b"\n")
}

// Writes the weights behind an identifier, unless there are none but its own.
fn write_weights_behind_id<W: Sink>(
    out: &mut W,
    owner: &Id,
    weights: &[Weight],
) -> Result<(), WriteStop>
    ensures { Writes (W.taken out.old) (W.taken out.new) (W.failed out.old) (W.failed out.new)
        (encode_utf8_all (weights_behind owner.now weights.now)) result }
{
    if are_own(weights) {
        return Ok(());
    }
    write_bytes(out, b" ")?;
    write_weights(out, owner, weights)
}

// Whether all of these weights are the entry's own.
fn are_own(weights: &[Weight]) -> bool
    ensures { result ≡ list_all is_own weights.now }
{
    weights.iter().all(|weight| weight.is_own())
}

/// Writes weights with a semicolon between them.
pub(crate) fn write_weights<W: Sink>(
    out: &mut W,
    owner: &Id,
    weights: &[Weight],
) -> Result<(), WriteStop>
    ensures { Writes (W.taken out.old) (W.taken out.new) (W.failed out.old) (W.failed out.new)
        (encode_utf8_all (spelled_joined (spelled_weight owner.now) weights.now [])) result }
{
    let Some((first, later)) = weights.split_first() else {
        return Ok(());
    };
    write_weight(out, owner, first)?;
    write_later_weights(out, owner, later)
}

// Writes weights with a semicolon before each.
fn write_later_weights<W: Sink>(
    out: &mut W,
    owner: &Id,
    weights: &[Weight],
) -> Result<(), WriteStop>
    ensures { Writes (W.taken out.old) (W.taken out.new) (W.failed out.old) (W.failed out.new)
        (flat_map (behind_bytes (spelled_weight owner.now)) weights.now) result }
{
    for weight in weights {
        // Not `?`: behind its conversion this exit would need a lemma.
        if let Err(stop) = write_weight_behind(out, owner, weight) {
            return Err(stop);
        }
    }
    Ok(())
}

// Writes a semicolon and a weight.
fn write_weight_behind<W: Sink>(out: &mut W, owner: &Id, weight: &Weight) -> Result<(), WriteStop>
    ensures { Writes (W.taken out.old) (W.taken out.new) (W.failed out.old) (W.failed out.new)
        (behind_bytes (spelled_weight owner.now) weight.now) result }
{
    write_bytes(out, b";")?;
    write_weight(out, owner, weight)
}

// Writes a weight of the entry of this identifier.
fn write_weight<W: Sink>(out: &mut W, owner: &Id, weight: &Weight) -> Result<(), WriteStop>
    ensures { Writes (W.taken out.old) (W.taken out.new) (W.failed out.old) (W.failed out.new)
        (encode_utf8_all (spelled_weight owner.now weight.now [])) result }
{
    match weight {
        Weight::Ignore => write_bytes(out, b"IGNORE"),
        Weight::Own => write_own(out, owner),
        Weight::Names(ids) => write_names(out, ids.get()),
    }
}

// Writes an entry's own weight, which is nothing for `UNDEFINED`.
fn write_own<W: Sink>(out: &mut W, owner: &Id) -> Result<(), WriteStop>
    ensures { Writes (W.taken out.old) (W.taken out.new) (W.failed out.old) (W.failed out.new)
        (encode_utf8_all (spelled_own owner.now [])) result }
{
    match owner {
        Id::Char(c) => write_char(out, *c),
        Id::Named(name) => write_symbol(out, name.get()),
        Id::Undefined => Ok(()),
    }
}

// Writes a weight that is a list.
fn write_names<W: Sink>(out: &mut W, ids: &[Id]) -> Result<(), WriteStop>
    ensures { Writes (W.taken out.old) (W.taken out.new) (W.failed out.old) (W.failed out.new)
        (encode_utf8_all (spelled_names ids.now [])) result }
{
    match ids {
        [only] => write_id(out, only),
        _ => write_string(out, ids),
    }
}

// Writes a string of identifiers.
fn write_string<W: Sink>(out: &mut W, ids: &[Id]) -> Result<(), WriteStop>
    ensures { Writes (W.taken out.old) (W.taken out.new) (W.failed out.old) (W.failed out.new)
        (encode_utf8_all (spelled_string ids.now [])) result }
{
    write_bytes(out, b"\"")?;
    write_ids(out, ids)?;
    write_bytes(out, b"\"")
}

/// Writes identifiers one behind another.
pub(crate) fn write_ids<W: Sink>(out: &mut W, ids: &[Id]) -> Result<(), WriteStop>
    ensures { Writes (W.taken out.old) (W.taken out.new) (W.failed out.old) (W.failed out.new) (flat_map id_bytes ids.now) result }
{
    for id in ids {
        if let Err(stop) = write_id(out, id) {
            return Err(stop);
        }
    }
    Ok(())
}

/// Writes an identifier in its canonical spelling: a character by its code point, a name between `<` and `>`, or `UNDEFINED`.
///
/// Where it stops, the device has taken a prefix of this.
pub fn write_id<W: Sink>(out: &mut W, id: &Id) -> Result<(), WriteStop>
    ensures { Writes (W.taken out.old) (W.taken out.new) (W.failed out.old) (W.failed out.new) (id_bytes id.now) result }
{
    match id {
        Id::Char(c) => write_char(out, *c),
        Id::Named(name) => write_symbol(out, name.get()),
        Id::Undefined => write_bytes(out, b"UNDEFINED"),
    }
}
