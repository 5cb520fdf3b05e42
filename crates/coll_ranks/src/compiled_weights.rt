//! Weights as ranks: for each entry and each level the ranks of its weight.
//!
//! They stand in the order in which weights are put in, level by level, so those of an entry are found by its rank.

ghost use Rattle.std.specs.Prelude.{◌≡◌, ◌<◌, ◌≤◌, ◌+◌, ◌*◌, map, IfOk, OnOk, false, if◌then◌else◌, slice_index_or};
ghost use Rattle.coll_syntax.specs.Weights.{is_own};
ghost use Rattle.coll_syntax.specs.declared.identifiers.Id.TheVariants.{Undefined};
ghost use Rattle.coll_elements.specs.Rank.{known_rank};
ghost use Rattle.coll_ranks.specs.Ranks.{compiled_row_by, compiled_entry};

use crate::level_weights::LevelWeights;
use crate::recent_ranks::RecentRanks;
use crate::table_ranks::TableRanks;
use crate::text_elements::{ElementRow, ElementWeight, TextElement};
use crate::weight_cells::WeightCells;
use coll_nodes::Entry;
use coll_syntax::{Id, Weight};
use std::alloc::{AllocError, Global};
use std::marker::Model;

/// The weights of entries as ranks.
#[derive(Drop)]
pub struct CompiledWeights {
    levels: usize,
    lists: WeightCells,
    // For each level whether `UNDEFINED` stands for itself there.
    own: Vec<bool>,
}

impl Model for CompiledWeights {
    ghost use Rattle.std.specs.Prelude.{◌≤◌};
    ghost use Rattle.coll_ranks.specs.RankLists.{WeightsValue};

    ghost Value = { WeightsValue };

    ghost view = { λ w. record { levels = w.levels; lists = w.lists; own = w.own.items } };

    ghost invariant = { λ w. w.levels ≤ 4 };
}

impl CompiledWeights {
    ghost use Rattle.coll_ranks.specs.RankLists.{AddsRow};
    ghost use Rattle.coll_ranks.specs.LevelWeights.{level_numbers, row_numbers, row_of};
    ghost use Rattle.coll_ranks.specs.Ranks.{compiled_weight, compiled_numbers, added_to, added_at};
    ghost use Rattle.coll_ranks.specs.declared.text_elements.ElementRow.{ElementRow};

    /// The weights of `UNDEFINED` at so many levels, with room for those of so many entries.
    pub(crate) fn new(
        alloc: Global,
        levels: usize,
        entries: usize,
        table: &TableRanks<'_>,
        undefined: &[Weight],
    ) -> Result<CompiledWeights, AllocError>
        requires levels { levels ≤ 4 }
        requires few { entries < 1_000_000 }
        ensures levels { IfOk result (λ compiled. compiled.levels ≡ levels) }
        ensures lists { IfOk result (λ compiled. compiled.lists ≡ compiled_row_by (known_rank table.now) levels Undefined undefined.now) }
        ensures own { IfOk result (λ compiled. compiled.own ≡ map is_own undefined.now) }
    {
        let own = own_levels(alloc, undefined)?;
        let mut lists = WeightCells::with_room(alloc, likely_weights(entries, levels))?;
        let mut ranks = RecentRanks::new(alloc, table);
        lists.push_row(&mut ranks, &Id::Undefined, undefined, levels)?;
        Ok(CompiledWeights { levels, lists, own })
    }

    /// The compiled weight at a level of what has this rank, where 0 is that of what has no entry.
    #[inline(always)]
    pub(crate) fn compiled(&self, rank: u32, level: usize) -> &[u32]
        requires { level < self.now.levels }
        ensures { result.now ≡ compiled_weight self.now rank level }
    {
        self.lists.list(rank as usize * self.levels + level)
    }

    /// The row of an element.
    #[inline(always)]
    pub fn row(&self, element: TextElement) -> ElementRow
        ensures { result ≡ row_of self.now element }
    {
        match element {
            TextElement::Placed(rank) => ElementRow {
                first: rank as usize * self.levels,
                code: 0,
            },
            TextElement::Absent(c) => ElementRow {
                first: 0,
                code: c as u32,
            },
        }
    }

    /// The weights of a level.
    #[inline(always)]
    pub fn at_level(&self, level: usize) -> LevelWeights<'_>
        ensures { (row : ElementRow) → level_numbers result row ≡ row_numbers self.now level row }
    {
        let (cells, long) = self.lists.from_place(level);
        LevelWeights {
            cells,
            long,
            times: self.times(level),
        }
    }

    // How often the code point of a character without an entry is added at a level.
    fn times(&self, level: usize) -> u32
        ensures count { result ≡ (if slice_index_or self.now.own level false then 1 else 0) }
        ensures few { result ≤ 1 }
    {
        if self.is_own(level) { 1 } else { 0 }
    }

    /// What an element weighs at a level.
    #[inline(always)]
    pub fn weight(&self, element: TextElement, level: usize) -> ElementWeight<'_>
        requires { level < self.now.levels }
        ensures { map (added_to result.added) result.ranks.now ≡ compiled_numbers self.now level element }
    {
        match element {
            TextElement::Placed(rank) => ElementWeight {
                ranks: self.compiled(rank, level),
                added: 0,
            },
            TextElement::Absent(c) => ElementWeight {
                ranks: self.compiled(0, level),
                added: self.added(c, level),
            },
        }
    }

    // What is added to the number of a character without an entry.
    fn added(&self, c: char, level: usize) -> u32
        ensures { result ≡ added_at self.now level c }
    {
        if self.is_own(level) { c as u32 } else { 0 }
    }

    // Whether `UNDEFINED` stands for itself at a level.
    fn is_own(&self, level: usize) -> bool
        ensures { result ≡ slice_index_or self.now.own level false }
    {
        match self.own.get(level) {
            Some(own) => *own,
            None => false,
        }
    }

    /// Puts the weights of an entry behind all others, as many as there are levels.
    pub(crate) fn push<'a>(
        &mut self,
        ranks: &mut RecentRanks<'a>,
        entry: &'a Entry,
    ) -> Result<(), AllocError>
        ensures row { OnOk result (AddsRow self.old self.new (compiled_entry (known_rank ranks.old) self.old.levels entry.now)) }
        ensures same { ranks.new ≡ ranks.old }
    {
        self.lists
            .push_row(ranks, entry.id(), entry.weights(), self.levels)?;
        Ok(())
    }
}

// The number of weights of so many entries and of `UNDEFINED`. Where each names one identifier, as most do, there are as many ranks.
fn likely_weights(entries: usize, levels: usize) -> usize
    requires levels { levels ≤ 4 }
    requires few { entries < 1_000_000 }
    ensures { result ≡ (entries + 1) * levels }
{
    (entries + 1) * levels
}

// For each weight whether it is its entry's own.
fn own_levels(alloc: Global, weights: &[Weight]) -> Result<Vec<bool>, AllocError>
    ensures { IfOk result (λ own. own.items ≡ map is_own weights.now) }
{
    weights.iter().map(|weight| weight.is_own()).collect(alloc)
}
