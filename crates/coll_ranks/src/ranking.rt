//! Ranks and weights of a table, found on walks through it.
//!
//! Once the entries of the table are numbered, so that it tells each rank itself, one walk gives each character its rank and
//! compiles the weights; names have their ranks by these numbers.

ghost use Rattle.std.specs.Prelude.{◌≡◌, ◌<◌, ◌+◌, ℕ, Some, cond, length, map, replicate, IfOk, OnOk};
ghost use Rattle.std.specs.List.{flat_map};
ghost use Rattle.std.specs.Option.{option_or};
ghost use Rattle.coll_syntax.specs.Identifier.{same_id};
ghost use Rattle.coll_syntax.specs.declared.identifiers.Id.TheVariants.{Char, Undefined};
ghost use Rattle.coll_syntax.specs.declared.weights.Weight.TheVariants.{Own};
ghost use Rattle.coll_syntax.specs.Weights.{is_own};
ghost use Rattle.coll_nodes.specs.Table.{entries_of, ids_of};
ghost use Rattle.coll_nodes.specs.TableLayout.{collation};
ghost use Rattle.coll_nodes.specs.WalkItems.{visited_by};
ghost use Rattle.coll_nodes.specs.Walks.{entry_visited, entries_visited};
ghost use Rattle.coll_nodes.specs.WellFormed.{AreDistinct};
ghost use Rattle.coll_ranks.specs.WeightNumbers.{undefined_weights};
ghost use Rattle.coll_ranks.specs.Ranking.{last_place, AreCharRanksOf, AreIdRanksOf, HasNextRank};
ghost use Rattle.coll_ranks.specs.RankLists.{AddsRow};
ghost use Rattle.coll_elements.specs.Rank.{known_rank};
ghost use Rattle.coll_ranks.specs.Ranks.{rank_of_char, compiled_row_by, compiled_entry, compiled_weights};

use crate::compiled_weights::CompiledWeights;
use crate::id_ranks::IdRanks;
use crate::recent_ranks::RecentRanks;
use crate::table_ranks::TableRanks;
use coll_elements::CodePoints;
use coll_lookups::EntryNumbers;
use coll_nodes::{Walk, WalkItem};
use coll_syntax::{Id, Weight};
use coll_table::Table;
use std::alloc::{AllocError, Global};

/// The ranks of the identifiers of a table, and its compiled weights.
pub(crate) fn ids_and_weights(
    alloc: Global,
    table: &Table,
) -> Result<(IdRanks, CompiledWeights), AllocError>
    ensures ids { IfOk result (λ made. AreIdRanksOf made.0 (collation table.now)) }
    ensures levels { IfOk result (λ made. made.1.levels ≡ length (collation table.now).rules) }
    ensures lists { IfOk result (λ made. made.1.lists ≡ compiled_weights (collation table.now)) }
    ensures own { IfOk result (λ made. made.1.own ≡ map is_own (undefined_weights (collation table.now))) }
{
    let mut numbers = EntryNumbers::new(alloc);
    table.number_entries(&mut numbers)?;
    let ranks = TableRanks::new(table, &numbers);
    let undefined = ranks.known_rank(&Id::Undefined);
    let (characters, weights) = ranked_and_compiled(alloc, table, &ranks)?;
    let names = table.name_places(alloc, numbers)?;
    Ok((IdRanks::new(names, characters, undefined), weights))
}

// The ranks of the characters of a table, and its compiled weights, by the ranks of all identifiers.
fn ranked_and_compiled<'a>(
    alloc: Global,
    table: &'a Table,
    ranks: &'a TableRanks<'a>,
) -> Result<(CodePoints, CompiledWeights), AllocError>
    requires { ranks.now ≡ collation table.now }
    ensures characters { IfOk result (λ made. AreCharRanksOf made.0 (collation table.now)) }
    ensures levels { IfOk result (λ made. made.1.levels ≡ length (collation table.now).rules) }
    ensures lists { IfOk result (λ made. made.1.lists ≡ compiled_weights (collation table.now)) }
    ensures own { IfOk result (λ made. made.1.own ≡ map is_own (undefined_weights (collation table.now))) }
{
    table.lemma_well_formed();
    let mut weights = compiled_undefined(alloc, table, ranks, table.len())?;
    let mut recent = RecentRanks::on_walk(alloc, ranks, table.len())?;
    let characters = put_walk(alloc, &mut weights, &mut recent, table.walk())?;
    Ok((characters, weights))
}

// Puts the compiled weights of each entry on a walk behind others, and gives the ranks of the characters among them.
fn put_walk<'a>(
    alloc: Global,
    weights: &mut CompiledWeights,
    ranks: &mut RecentRanks<'a>,
    walk: Walk<'a>,
) -> Result<CodePoints, AllocError>
    requires few { length (entries_visited walk) < 1_000_000 }
    requires whole { entries_visited walk ≡ entries_of ranks.old }
    requires distinct { AreDistinct same_id (ids_of (entries_of ranks.old)) }
    ensures ranks { IfOk result (λ characters. (c : ℕ) → rank_of_char characters c ≡ last_place 0 (entries_visited walk.entry) (Char c)) }
    ensures rows { OnOk result (AddsRow weights.old weights.new
        (flat_map (compiled_entry (known_rank ranks.old) weights.old.levels) (entries_visited walk.entry))) }
{
    let mut characters = CodePoints::new(alloc);
    let mut left = walk;
    let mut rank = 0;
    'walk: while let Some(item) = left.next() {
        rank = put_visited(&mut characters, weights, ranks, item, rank)?;
    }
    Ok(characters)
}

// Gives what a walk visits next its rank, if it is a character, and puts its compiled weights behind others, if it is an entry;
// and gives the last rank.
fn put_visited<'a>(
    characters: &mut CodePoints,
    weights: &mut CompiledWeights,
    ranks: &mut RecentRanks<'a>,
    item: WalkItem<'a>,
    rank: u32,
) -> Result<u32, AllocError>
    requires few { rank < 1_000_000 }
    requires next { HasNextRank ranks.old rank (visited_by item) }
    ensures count { IfOk result (λ last. last ≡ rank + length (entry_visited (visited_by item.entry))) }
    ensures ranks { OnOk result ((c : ℕ) → rank_of_char characters.new c
        ≡ option_or (last_place rank (entry_visited (visited_by item.entry)) (Char c)) (rank_of_char characters.old c)) }
    ensures rows { OnOk result (AddsRow weights.old weights.new
        (flat_map (compiled_entry (known_rank ranks.old) weights.old.levels) (entry_visited (visited_by item.entry)))) }
    ensures same { ranks.new ≡ ranks.old }
{
    match item {
        WalkItem::Section(_) => Ok(rank),
        WalkItem::Entry(entry) => {
            put_character(characters, entry.id(), rank + 1)?;
            ranks.begin(entry.id(), rank + 1)?;
            weights.push(ranks, entry)?;
            Ok(rank + 1)
        }
    }
}

// Gives an identifier a rank, if it is a character.
fn put_character(characters: &mut CodePoints, id: &Id, rank: u32) -> Result<(), AllocError>
    requires { 0 < rank }
    ensures { OnOk result ((c : ℕ)
        → rank_of_char characters.new c ≡ cond (same_id (Char c) id.now) (Some rank) (rank_of_char characters.old c)) }
{
    match id {
        Id::Char(c) => characters.set(*c, rank),
        Id::Named(_) | Id::Undefined => Ok(()),
    }
}

/// The compiled weights of `UNDEFINED`, with room for those of so many entries.
pub(crate) fn compiled_undefined(
    alloc: Global,
    table: &Table,
    ranks: &TableRanks<'_>,
    entries: usize,
) -> Result<CompiledWeights, AllocError>
    requires few { entries < 1_000_000 }
    ensures levels { IfOk result (λ compiled. compiled.levels ≡ length (collation table.now).rules) }
    ensures lists { IfOk result (λ compiled. compiled.lists ≡ compiled_row_by (known_rank ranks.now) (length (collation table.now).rules)
        Undefined (undefined_weights (collation table.now))) }
    ensures own { IfOk result (λ compiled. compiled.own ≡ map is_own (undefined_weights (collation table.now))) }
{
    table.lemma_well_formed();
    let levels = table.rules().len();
    match table.entry(&Id::Undefined) {
        Some(entry) => CompiledWeights::new(alloc, levels, entries, ranks, entry.weights()),
        None => {
            let own = own_weights(alloc, levels)?;
            CompiledWeights::new(alloc, levels, entries, ranks, &own)
        }
    }
}

// So many weights that are their entry's own.
fn own_weights(alloc: Global, levels: usize) -> Result<Vec<Weight>, AllocError>
    ensures { IfOk result (λ weights. weights.items ≡ replicate levels Own) }
{
    let mut weights = Vec::new(alloc);
    for level in 0..levels {
        weights.push(Weight::Own)?;
    }
    Ok(weights)
}
