//! The compiled listing of a table.
//!
//! The text is `compiled_listing` of `specs/CompiledListing.antt`. Each function writes one part of it, and a line is one part
//! behind another (`specs/ListingParts.antt`). The ranks of weights are read from the compiled ones. None of this takes memory.

ghost use Rattle.std.specs.Prelude.{◌≡◌, ◌<◌, ◌≤◌, ◌+◌, ◌++◌, All, chars, codes, length, IfOk};
ghost use Rattle.std.specs.List.{flat_map};
ghost use Rattle.coll_devices.specs.Devices.{Writes};
ghost use Rattle.coll_nodes.specs.Table.{is_placed};
ghost use Rattle.coll_nodes.specs.TableLayout.{collation};
ghost use Rattle.coll_nodes.specs.WalkItems.{visited_by};
ghost use Rattle.coll_nodes.specs.Walks.{entry_visited, entries_visited};
ghost use Rattle.coll_syntax.specs.declared.identifiers.Id.TheVariants.{Named, Undefined};
ghost use Rattle.coll_key.specs.CompiledListing.{compiled_listing, listing_head, listed_rule, listed_undefined};
ghost use Rattle.coll_key.specs.ListingParts.{spaced_number, weight_bytes, level_bytes, levels_ended, is_star, spelled_with, ranked_line};
ghost use Rattle.coll_key.specs.ListingParts.{line_if_weighted, visited_line, ranked_lines, HasFewWeights, entries_part};
ghost use Rattle.coll_ranks.specs.Ranks.{AreRanksOf};

use coll_devices::{Sink, WriteStop, write_bytes};
use coll_lex::write_char;
use coll_nodes::{Entry, Walk, WalkItem};
use coll_ranks::Ranks;
use coll_syntax::{Id, Rule, Weight};
use coll_table::Table;
use coll_texts::{Piece, write_number, write_pieces, write_text};

/// Writes the compiled listing of a table: its levels, its rules, and for each entry its rank and the ranks of its weights.
///
/// Where it stops, the device has taken a prefix of the listing. The ranks, which have the compiled weights with them, must be those
/// of the table as it stands: after an `apply` or a `flip` that changes it, they are to be made anew.
pub fn write_compiled<W: Sink>(table: &Table, ranks: &Ranks, out: &mut W) -> Result<(), WriteStop>
    requires { AreRanksOf ranks.now (collation table.now) }
    ensures { Writes (W.taken out.old) (W.taken out.new) (W.failed out.old) (W.failed out.new)
        (compiled_listing (collation table.now)) result }
{
    write_head(out, table)?;
    write_body(out, table, ranks)
}

// Writes the lines behind the first.
fn write_body<W: Sink>(out: &mut W, table: &Table, ranks: &Ranks) -> Result<(), WriteStop>
    requires { AreRanksOf ranks.now (collation table.now) }
    ensures { Writes (W.taken out.old) (W.taken out.new) (W.failed out.old) (W.failed out.new)
        (flat_map listed_rule (collation table.now).rules ++ entries_part (collation table.now)) result }
{
    write_rules(out, table.rules())?;
    write_entries(out, table, ranks)
}

// Writes the lines behind the rules.
fn write_entries<W: Sink>(out: &mut W, table: &Table, ranks: &Ranks) -> Result<(), WriteStop>
    requires { AreRanksOf ranks.now (collation table.now) }
    ensures { Writes (W.taken out.old) (W.taken out.new) (W.failed out.old) (W.failed out.new) (entries_part (collation table.now)) result }
{
    table.lemma_well_formed();
    write_walk(out, ranks, table.walk())?;
    write_end(out, table, ranks)
}

// Writes the line of `UNDEFINED` where it isn't placed, and the last line.
fn write_end<W: Sink>(out: &mut W, table: &Table, ranks: &Ranks) -> Result<(), WriteStop>
    requires { AreRanksOf ranks.now (collation table.now) }
    ensures { Writes (W.taken out.old) (W.taken out.new) (W.failed out.old) (W.failed out.new)
        (listed_undefined (collation table.now) ++ codes "end\n") result }
{
    write_unplaced(out, table, ranks)?;
    write_bytes(out, b"end\n")
}

// Writes the line of `UNDEFINED`, where it isn't placed: it stands for itself at each level.
fn write_unplaced<W: Sink>(out: &mut W, table: &Table, ranks: &Ranks) -> Result<(), WriteStop>
    requires { AreRanksOf ranks.now (collation table.now) }
    ensures { Writes (W.taken out.old) (W.taken out.new) (W.failed out.old) (W.failed out.new)
        (listed_undefined (collation table.now)) result }
{
    table.lemma_well_formed();
    if is_undefined_placed(table) {
        return Ok(());
    }
    let rank = ranks.rank(&Id::Undefined).unwrap_or(0);
    let own = [Weight::Own, Weight::Own, Weight::Own, Weight::Own];
    write_line(
        out,
        ranks,
        rank,
        &Id::Undefined,
        &own[..table.rules().len()],
    )
}

// Whether `UNDEFINED` is placed.
#[tactic(auto, using(crate::proofs::ListedLines::placed_if_lent))]
fn is_undefined_placed(table: &Table) -> bool
    ensures { result ≡ is_placed (collation table.now) Undefined }
{
    table.entry(&Id::Undefined).is_some()
}

// Writes a line for each entry on a walk that isn't a symbol.
fn write_walk<W: Sink>(out: &mut W, ranks: &Ranks, walk: Walk<'_>) -> Result<(), WriteStop>
    requires fit { All (HasFewWeights ranks.now.compiled.levels) (entries_visited walk) }
    requires few { length (entries_visited walk) < 1_000_000 }
    ensures { Writes (W.taken out.old) (W.taken out.new) (W.failed out.old) (W.failed out.new)
        (ranked_lines ranks.now 1 (entries_visited walk.entry)) result }
{
    let mut left = walk;
    let mut rank = 1;
    'walk: while let Some(item) = left.next() {
        rank = write_visited(out, ranks, rank, item)?;
    }
    Ok(())
}

// Writes the line of what a walk visits, if it is an entry with this rank, and gives the rank of the next one.
fn write_visited<W: Sink>(
    out: &mut W,
    ranks: &Ranks,
    rank: u32,
    item: WalkItem<'_>,
) -> Result<u32, WriteStop>
    requires fit { All (HasFewWeights ranks.now.compiled.levels) (entry_visited (visited_by item)) }
    requires few { rank ≤ 1_000_000 }
    ensures writes { Writes (W.taken out.old) (W.taken out.new) (W.failed out.old) (W.failed out.new)
        (visited_line ranks.now rank (visited_by item.entry)) result }
    ensures next { IfOk result (λ next. next ≡ rank + length (entry_visited (visited_by item.entry))) }
{
    match item {
        WalkItem::Section(_) => Ok(rank),
        WalkItem::Entry(entry) => {
            write_entry(out, ranks, rank, entry)?;
            Ok(rank + 1)
        }
    }
}

// Writes the line of an entry; a symbol, which alone has no weights, has none.
fn write_entry<W: Sink>(
    out: &mut W,
    ranks: &Ranks,
    rank: u32,
    entry: &Entry,
) -> Result<(), WriteStop>
    requires fit { HasFewWeights ranks.now.compiled.levels entry.now }
    ensures { Writes (W.taken out.old) (W.taken out.new) (W.failed out.old) (W.failed out.new)
        (line_if_weighted ranks.now rank entry.now.id entry.now.weights) result }
{
    if entry.weights().is_empty() {
        return Ok(());
    }
    write_line(out, ranks, rank, entry.id(), entry.weights())
}

// Writes the line of an identifier with this rank and these weights.
fn write_line<W: Sink>(
    out: &mut W,
    ranks: &Ranks,
    rank: u32,
    id: &Id,
    weights: &[Weight],
) -> Result<(), WriteStop>
    requires fit { length weights.now ≤ ranks.now.compiled.levels }
    ensures { Writes (W.taken out.old) (W.taken out.new) (W.failed out.old) (W.failed out.new)
        (ranked_line ranks.now rank id.now weights.now) result }
{
    write_number(out, u64::from(rank))?;
    write_bytes(out, b" ")?;
    write_id(out, ranks, id)?;
    write_levels(out, ranks, rank, id, weights)
}

// Writes the words of all weights, and the line's end.
fn write_levels<W: Sink>(
    out: &mut W,
    ranks: &Ranks,
    rank: u32,
    owner: &Id,
    weights: &[Weight],
) -> Result<(), WriteStop>
    requires fit { length weights.now ≤ ranks.now.compiled.levels }
    ensures { Writes (W.taken out.old) (W.taken out.new) (W.failed out.old) (W.failed out.new)
        (levels_ended ranks.now rank owner.now weights.now) result }
{
    for (level, weight) in weights.iter().enumerate() {
        // Not `?`: behind its conversion this exit would need a lemma.
        if let Err(stop) = write_level(out, owner, weight, ranks.compiled(rank, level)) {
            return Err(stop);
        }
    }
    write_bytes(out, b"\n")
}

// Writes the spelling of an identifier: a character by its code point, an element by those of its string.
fn write_id<W: Sink>(out: &mut W, ranks: &Ranks, id: &Id) -> Result<(), WriteStop>
    ensures { Writes (W.taken out.old) (W.taken out.new) (W.failed out.old) (W.failed out.new) (spelled_with ranks.now id.now) result }
{
    match id {
        Id::Char(c) => write_char(out, *c),
        Id::Named(name) => write_string(out, ranks, name.get()),
        Id::Undefined => write_bytes(out, b"UNDEFINED"),
    }
}

// Writes the string of the element of a name, each character by its code point.
fn write_string<W: Sink>(out: &mut W, ranks: &Ranks, name: &str) -> Result<(), WriteStop>
    ensures { Writes (W.taken out.old) (W.taken out.new) (W.failed out.old) (W.failed out.new)
        (spelled_with ranks.now (Named (chars name.now))) result }
{
    match ranks.string(name) {
        Some(text) => write_text(out, text.get()),
        None => Ok(()),
    }
}

// Writes the first line: the version, the number of levels and that of entries.
fn write_head<W: Sink>(out: &mut W, table: &Table) -> Result<(), WriteStop>
    ensures { Writes (W.taken out.old) (W.taken out.new) (W.failed out.old) (W.failed out.new) (listing_head (collation table.now)) result }
{
    write_pieces(
        out,
        &[
            Piece::Bytes(b"compiled 1 "),
            Piece::Number(table.rules().len() as u64),
            Piece::Bytes(b" "),
            Piece::Number(table.len() as u64),
            Piece::Bytes(b"\n"),
        ],
    )
}

// Writes a line for each rule.
fn write_rules<W: Sink>(out: &mut W, rules: &[Rule]) -> Result<(), WriteStop>
    ensures { Writes (W.taken out.old) (W.taken out.new) (W.failed out.old) (W.failed out.new) (flat_map listed_rule rules.now) result }
{
    for rule in rules {
        if let Err(stop) = write_rule_line(out, *rule) {
            return Err(stop);
        }
    }
    Ok(())
}

// Writes the line of a rule.
fn write_rule_line<W: Sink>(out: &mut W, rule: Rule) -> Result<(), WriteStop>
    ensures { Writes (W.taken out.old) (W.taken out.new) (W.failed out.old) (W.failed out.new) (listed_rule rule) result }
{
    write_pieces(
        out,
        &[
            Piece::Bytes(b"rule "),
            Piece::Rule(rule),
            Piece::Bytes(b"\n"),
        ],
    )
}

// Writes the words of a weight and the end of its level.
fn write_level<W: Sink>(
    out: &mut W,
    owner: &Id,
    weight: &Weight,
    compiled: &[u32],
) -> Result<(), WriteStop>
    ensures { Writes (W.taken out.old) (W.taken out.new) (W.failed out.old) (W.failed out.new)
        (level_bytes (is_star owner.now weight.now) compiled.now) result }
{
    write_weight(out, owner, weight, compiled)?;
    write_bytes(out, b" |")
}

// Writes the words of a weight.
fn write_weight<W: Sink>(
    out: &mut W,
    owner: &Id,
    weight: &Weight,
    compiled: &[u32],
) -> Result<(), WriteStop>
    ensures { Writes (W.taken out.old) (W.taken out.new) (W.failed out.old) (W.failed out.new)
        (weight_bytes (is_star owner.now weight.now) compiled.now) result }
{
    match (owner, weight) {
        (Id::Undefined, Weight::Own) => write_bytes(out, b" *"),
        _ => write_numbers(out, compiled),
    }
}

// Writes numbers, each with a space before it.
fn write_numbers<W: Sink>(out: &mut W, numbers: &[u32]) -> Result<(), WriteStop>
    ensures { Writes (W.taken out.old) (W.taken out.new) (W.failed out.old) (W.failed out.new) (flat_map spaced_number numbers.now) result }
{
    for number in numbers {
        if let Err(stop) = write_spaced_number(out, u64::from(*number)) {
            return Err(stop);
        }
    }
    Ok(())
}

// Writes a space and a number.
fn write_spaced_number<W: Sink>(out: &mut W, number: u64) -> Result<(), WriteStop>
    ensures { Writes (W.taken out.old) (W.taken out.new) (W.failed out.old) (W.failed out.new) (spaced_number number) result }
{
    write_bytes(out, b" ")?;
    write_number(out, number)
}
