//! The weights of entries as ranks, each in a cell.
//!
//! Most weights are one rank, and some are ignored. Such a weight is told by its cell alone; a list of several ranks stands
//! apart, among the long ones. So the weights of an entry lie together, and a look-up mostly reads one cell.
//!
//! The plain form is `rank_lists`, which keeps each weight as a list, and here the long ones; both have one clause (`compiled_by`).

ghost use Rattle.std.specs.Prelude.{◌≡◌, ◌<◌, ◌++◌, ◌∷◌, [], ℕ, suc, map, drop, IfOk, IfSome, OnOk, slice_index_or};
ghost use Rattle.coll_elements.specs.Rank.{known_rank};
ghost use Rattle.coll_ranks.specs.Ranks.{compiled_by, compiled_row_by};
ghost use Rattle.coll_ranks.specs.WeightCells.{cell_list};
ghost use Rattle.coll_ranks.specs.LevelWeights.{ranks_in};

use crate::rank_lists::RankLists;
use crate::recent_ranks::RecentRanks;
use crate::text_elements::WeightRanks;
use coll_syntax::{Id, Weight};
use std::alloc::{AllocError, Global};
use std::marker::Model;
use std::slice;

/// A weight as ranks.
#[derive(Clone, Copy)]
pub(crate) enum WeightCell {
    /// It is this one.
    Single(u32),
    /// It has none.
    Empty,
    /// They stand at this place among the long lists.
    Long(u32),
}

/// Lists of ranks, most of which have one member.
#[derive(Drop)]
pub(crate) struct WeightCells {
    cells: Vec<WeightCell>,
    long: RankLists,
}

impl Model for WeightCells {
    ghost use Rattle.std.specs.Prelude.{List, ℕ, length, map};
    ghost use Rattle.coll_ranks.specs.WeightCells.{cell_list, AreCells};

    ghost Value = { List (List ℕ) };

    ghost view = { λ w. map (cell_list w.long) w.cells.items };

    ghost invariant = { λ w. AreCells (length w.long) w.cells.items };
}

impl WeightCells {
    /// No lists, with room for so many.
    pub(crate) fn with_room(alloc: Global, lists: usize) -> Result<WeightCells, AllocError>
        ensures { IfOk result (λ made. made ≡ []) }
    {
        let cells = Vec::with_capacity(alloc, lists)?;
        Ok(WeightCells {
            cells,
            long: RankLists::new(alloc),
        })
    }

    /// The list at a place; where there is none it is empty.
    #[inline(always)]
    pub(crate) fn list(&self, place: usize) -> &[u32]
        ensures { result.now ≡ slice_index_or self.now place [] }
    {
        match self.cells.get(place) {
            Some(cell) => list_of(cell, &self.long),
            None => &[],
        }
    }

    /// The cells from a place on, and the long lists.
    #[inline(always)]
    pub(crate) fn from_place(&self, place: usize) -> (&[WeightCell], &RankLists)
        ensures { map (cell_list result.1.now) result.0.now ≡ drop place self.now }
    {
        match self.cells.split_at_checked(place) {
            Some((_, cells)) => (cells, &self.long),
            None => (&[], &self.long),
        }
    }

    /// Puts the weights of an identifier behind all others, as many as there are levels.
    pub(crate) fn push_row<'a>(
        &mut self,
        ranks: &mut RecentRanks<'a>,
        owner: &'a Id,
        weights: &'a [Weight],
        levels: usize,
    ) -> Result<(), AllocError>
        ensures row { OnOk result (self.new ≡ self.old ++ compiled_row_by (known_rank ranks.old) levels owner.now weights.now) }
        ensures same { ranks.new ≡ ranks.old }
    {
        let mut left = weights;
        for level in 0..levels {
            left = self.push_next(ranks, owner, left, level)?;
        }
        Ok(())
    }

    // Puts the first of some weights behind all others, or an empty one where there is none, and gives the later ones.
    fn push_next<'a>(
        &mut self,
        ranks: &mut RecentRanks<'a>,
        owner: &'a Id,
        weights: &'a [Weight],
        level: usize,
    ) -> Result<&'a [Weight], AllocError>
        ensures row { IfOk result (λ later. (count : ℕ) → self.new ++ compiled_row_by (known_rank ranks.old) count owner.now later.now
            ≡ self.old ++ compiled_row_by (known_rank ranks.old) (suc count) owner.now weights.now) }
        ensures same { ranks.new ≡ ranks.old }
    {
        let Some((weight, later)) = weights.split_first() else {
            self.push_empty()?;
            return Ok(weights);
        };
        self.push(ranks, owner, weight, level)?;
        Ok(later)
    }

    // Puts the ranks of a weight at a level behind all others.
    fn push<'a>(
        &mut self,
        ranks: &mut RecentRanks<'a>,
        owner: &'a Id,
        weight: &'a Weight,
        level: usize,
    ) -> Result<(), AllocError>
        ensures list { OnOk result (self.new ≡ self.old ++ compiled_by (known_rank ranks.old) owner.now weight.now ∷ []) }
        ensures same { ranks.new ≡ ranks.old }
    {
        if let Weight::Ignore = weight {
            return self.push_empty();
        }
        match single_id(owner, weight) {
            Some(id) => self.push_single(ranks.known_rank(id, level, 0)),
            None => self.push_long(ranks, owner, weight, level),
        }
    }

    // Puts an empty list behind all others.
    fn push_empty(&mut self) -> Result<(), AllocError>
        ensures { OnOk result (self.new ≡ self.old ++ [] ∷ []) }
    {
        self.cells.push(WeightCell::Empty)?;
        Ok(())
    }

    // Puts a list of this rank alone behind all others.
    fn push_single(&mut self, rank: u32) -> Result<(), AllocError>
        ensures { OnOk result (self.new ≡ self.old ++ (rank ∷ []) ∷ []) }
    {
        self.cells.push(WeightCell::Single(rank))?;
        Ok(())
    }

    // Puts the ranks of a weight behind all others, as a long list. There are places for 4,294,967,295 of these.
    fn push_long<'a>(
        &mut self,
        ranks: &mut RecentRanks<'a>,
        owner: &'a Id,
        weight: &'a Weight,
        level: usize,
    ) -> Result<(), AllocError>
        ensures list { OnOk result (self.new ≡ self.old ++ compiled_by (known_rank ranks.old) owner.now weight.now ∷ []) }
        ensures same { ranks.new ≡ ranks.old }
    {
        let place = self.long.len();
        if place >= 4_294_967_295 {
            return Err(AllocError);
        }
        self.cells.reserve(1)?;
        self.long.push(ranks, owner, weight, level)?;
        self.cells.push_reserved(WeightCell::Long(place as u32));
        Ok(())
    }
}

/// The ranks of the weight in a cell at a place; where there is none there are none.
#[inline(always)]
pub(crate) fn ranks_at<'a>(
    cells: &'a [WeightCell],
    long: &'a RankLists,
    place: usize,
) -> WeightRanks<'a>
    ensures { ranks_in result ≡ slice_index_or (map (cell_list long.now) cells.now) place [] }
{
    match cells.get(place) {
        Some(WeightCell::Single(rank)) => WeightRanks::Single(*rank),
        Some(WeightCell::Long(place)) => WeightRanks::Several(long_list(*place, long)),
        Some(WeightCell::Empty) => WeightRanks::Ignored,
        None => WeightRanks::Ignored,
    }
}

// The list that a cell stands for.
#[inline(always)]
fn list_of<'a>(cell: &'a WeightCell, long: &'a RankLists) -> &'a [u32]
    ensures { result.now ≡ cell_list long.now cell.now }
{
    match cell {
        WeightCell::Empty => &[],
        WeightCell::Single(rank) => slice::from_ref(rank),
        WeightCell::Long(place) => long_list(*place, long),
    }
}

// The long list at a place. It is inlined too, since a call would cost each look-up around it what it has in registers.
#[inline(always)]
fn long_list(place: u32, long: &RankLists) -> &[u32]
    ensures { result.now ≡ slice_index_or long.now place [] }
{
    long.list(place as usize)
}

// What a weight names, if it is one identifier.
fn single_id<'a>(owner: &'a Id, weight: &'a Weight) -> Option<&'a Id>
    ensures { IfSome result (λ id. (rank : Id → ℕ) → compiled_by rank owner.now weight.now ≡ rank id.now ∷ []) }
{
    match weight {
        Weight::Ignore => None,
        Weight::Own => Some(owner),
        Weight::Names(named) => match named.get() {
            [id] => Some(id),
            _ => None,
        },
    }
}
