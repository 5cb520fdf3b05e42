//! The weights of an entry, each written out.
//!
//! A table that is printed leaves out what an entry has of itself (`spelled_entries`). Here every weight is written, since a person
//! asks for them (`specs/WeighedEntries.antt`). None of this takes memory.

ghost use Rattle.std.specs.Prelude.{◌++◌, codes};
ghost use Rattle.std.specs.List.{flat_map};
ghost use Rattle.coll_devices.specs.Devices.{Writes};
ghost use Rattle.coll_texts.specs.PrintedParts.{id_bytes};
ghost use Rattle.coll_texts.specs.WeighedEntries.{all_weights, marked_names, marked_weight, weighed_line};

use crate::pieces::{Piece, write_pieces};
use crate::spelled_entries::{write_id, write_ids};
use coll_devices::{Sink, WriteStop, write_bytes};
use coll_nodes::Entry;
use coll_syntax::{Id, Weight};

/// Writes the identifier of an entry, all its weights behind that, and the line's end.
///
/// Where it stops, the device has taken a prefix of this.
pub fn write_weighed<W: Sink>(out: &mut W, entry: &Entry) -> Result<(), WriteStop>
    ensures { Writes (W.taken out.old) (W.taken out.new) (W.failed out.old) (W.failed out.new) (weighed_line entry.now) result }
{
    let id = entry.id();
    write_id(out, id)?;
    write_all_weights(out, id, entry.weights())?;
    write_bytes(out, b"\n")
}

// Writes the weights of the entry of an identifier, with a space before the first and a semicolon before each other.
fn write_all_weights<W: Sink>(out: &mut W, owner: &Id, weights: &[Weight]) -> Result<(), WriteStop>
    ensures { Writes (W.taken out.old) (W.taken out.new) (W.failed out.old) (W.failed out.new) (all_weights owner.now weights.now) result }
{
    let Some((first, later)) = weights.split_first() else {
        return Ok(());
    };
    write_marked_weight(out, b" ", owner, first)?;
    write_further_weights(out, owner, later)
}

// Writes weights with a semicolon before each.
fn write_further_weights<W: Sink>(
    out: &mut W,
    owner: &Id,
    weights: &[Weight],
) -> Result<(), WriteStop>
    ensures { Writes (W.taken out.old) (W.taken out.new) (W.failed out.old) (W.failed out.new)
        (flat_map (marked_weight (codes ";") owner.now) weights.now) result }
{
    for weight in weights {
        // Not `?`: behind its conversion this exit would need a lemma.
        if let Err(stop) = write_marked_weight(out, b";", owner, weight) {
            return Err(stop);
        }
    }
    Ok(())
}

// Writes a weight of the entry of this identifier behind a mark.
fn write_marked_weight<'a, W: Sink>(
    out: &mut W,
    mark: &'a [u8],
    owner: &'a Id,
    weight: &'a Weight,
) -> Result<(), WriteStop>
    ensures { Writes (W.taken out.old) (W.taken out.new) (W.failed out.old) (W.failed out.new)
        (marked_weight mark.now owner.now weight.now) result }
{
    match weight {
        Weight::Ignore => write_pieces(out, &[Piece::Bytes(mark), Piece::Bytes(b"IGNORE")]),
        Weight::Own => write_marked_id(out, mark, owner),
        Weight::Names(ids) => write_marked_names(out, mark, ids.get()),
    }
}

// Writes a list of identifiers behind a mark.
fn write_marked_names<'a, W: Sink>(
    out: &mut W,
    mark: &'a [u8],
    ids: &'a [Id],
) -> Result<(), WriteStop>
    ensures { Writes (W.taken out.old) (W.taken out.new) (W.failed out.old) (W.failed out.new) (marked_names mark.now ids.now) result }
{
    match ids {
        [] => write_pieces(out, &[Piece::Bytes(mark), Piece::Bytes(b"\"\"")]),
        [only] => write_marked_id(out, mark, only),
        _ => write_marked_string(out, mark, ids),
    }
}

// Writes an identifier behind a mark.
fn write_marked_id<'a, W: Sink>(out: &mut W, mark: &'a [u8], id: &'a Id) -> Result<(), WriteStop>
    ensures { Writes (W.taken out.old) (W.taken out.new) (W.failed out.old) (W.failed out.new) (mark.now ++ id_bytes id.now) result }
{
    write_pieces(out, &[Piece::Bytes(mark), Piece::Id(id)])
}

// Writes identifiers between quotation marks, behind a mark.
fn write_marked_string<W: Sink>(out: &mut W, mark: &[u8], ids: &[Id]) -> Result<(), WriteStop>
    ensures { Writes (W.taken out.old) (W.taken out.new) (W.failed out.old) (W.failed out.new)
        (mark.now ++ (codes "\"" ++ (flat_map id_bytes ids.now ++ codes "\""))) result }
{
    write_bytes(out, mark)?;
    write_bytes(out, b"\"")?;
    write_ids(out, ids)?;
    write_bytes(out, b"\"")
}
