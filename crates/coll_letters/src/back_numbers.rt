//! The numbers of a text at a level that is looked at from the back, one after another, by the rows of its characters.
//!
//! So two texts are compared at such a level along the rows of both, from the last ones on, and no list of the level is made. The simple
//! form compares these lists, as keys do (`level_list` of `coll_key`), and is what the clause of `order_from_back` says.

ghost use Rattle.std.specs.Prelude.{◌≡◌, ◌<◌, ◌≤◌, ◌∷◌, [], Bool, length, reverse, true, MatchOption};
ghost use Rattle.coll_key.specs.LevelList.{level_list, listed};
ghost use Rattle.coll_key.specs.TextOrder.{list_order};
ghost use Rattle.coll_ranks.specs.LevelWeights.{level_numbers, ranks_in};
ghost use Rattle.coll_letters.specs.BackNumbers.{IsFoundBefore, items_before};

use crate::letter_weights::number_of;
use crate::level_numbers::{PlacedNumber, count_of_gaps, order_of_numbers};
use coll_ranks::{ElementRow, LevelWeights, WeightRanks};
use std::cmp::Ordering;

/// What is left of a text at a level.
#[derive(Clone, Copy)]
pub(crate) struct RowsBefore<'a> {
    /// What is left of the ranks of the character at hand.
    pub ranks: WeightRanks<'a>,
    /// What is added to the number of each.
    pub added: u32,
    /// The rows before it.
    pub rows: &'a [ElementRow],
}

/// How a level that is looked at from the back orders two texts whose elements have these rows.
pub(crate) fn order_from_back(
    at_level: LevelWeights<'_>,
    position: bool,
    rows: &[ElementRow],
    others: &[ElementRow],
) -> Ordering
    requires few { length rows.now ≤ 65_536 }
    requires few_others { length others.now ≤ 65_536 }
    ensures { result ≡ list_order (level_list (record { backward = true; position = position }) (level_numbers at_level.entry) rows.now)
        (level_list (record { backward = true; position = position }) (level_numbers at_level.entry) others.now) }
{
    let mut left = all_rows(rows);
    let mut right = all_rows(others);
    'numbers: loop {
        match (
            number_before(at_level, left),
            number_before(at_level, right),
        ) {
            (Some((first, earlier)), Some((second, others))) => {
                let order = order_of_numbers(position, first, second);
                if order.is_ne() {
                    return order;
                }
                left = earlier;
                right = others;
            }
            (Some(_), None) => return Ordering::Greater,
            (None, Some(_)) => return Ordering::Less,
            (None, None) => return Ordering::Equal,
        }
    }
}

// What is left of a text behind its last character.
fn all_rows(rows: &[ElementRow]) -> RowsBefore<'_>
    ensures ranks { ranks_in result.ranks ≡ [] }
    ensures rows { result.rows.now ≡ rows.now }
{
    RowsBefore {
        ranks: WeightRanks::Ignored,
        added: 0,
        rows,
    }
}

// The last number of what is left of a text, and what is left before it. Ignored weights are passed, and counted.
#[inline(always)]
fn number_before<'a>(
    at_level: LevelWeights<'a>,
    rest: RowsBefore<'a>,
) -> Option<(PlacedNumber, RowsBefore<'a>)>
    requires few { length rest.rows.now ≤ 65_536 }
    ensures { MatchOption result ((position : Bool) → listed position 0 (items_before at_level.entry rest.entry) ≡ [])
        (λ found. IsFoundBefore at_level.entry rest.entry found.0 found.1) }
{
    let mut left = rest;
    let mut gaps = 0;
    'rows: loop {
        if let Some((rank, others)) = split_last_rank(left.ranks) {
            let found = PlacedNumber {
                position: gaps + 1,
                number: number_of(rank, left.added),
            };
            let earlier = RowsBefore {
                ranks: others,
                added: left.added,
                rows: left.rows,
            };
            return Some((found, earlier));
        }
        let (row, rows) = split_last_row(left.rows)?;
        let ranks = at_level.ranks(row);
        gaps += count_of_gaps(ranks);
        left = RowsBefore {
            ranks,
            added: at_level.added(row),
            rows,
        };
    }
}

// The last of ranks, and the others.
#[inline(always)]
fn split_last_rank(ranks: WeightRanks<'_>) -> Option<(u32, WeightRanks<'_>)>
    ensures { MatchOption result (ranks_in ranks.entry ≡ []) (λ last. reverse (ranks_in ranks.entry) ≡ last.0 ∷ reverse (ranks_in last.1)) }
{
    match ranks {
        WeightRanks::Ignored => None,
        WeightRanks::Single(rank) => Some((rank, WeightRanks::Ignored)),
        WeightRanks::Several(ranks) => match ranks {
            [others @ .., last] => Some((*last, WeightRanks::Several(others))),
            _ => None,
        },
    }
}

// The last of rows, and the others.
#[inline(always)]
fn split_last_row(rows: &[ElementRow]) -> Option<(ElementRow, &[ElementRow])>
    ensures { MatchOption result (rows.now ≡ []) (λ last. reverse rows.now ≡ last.0 ∷ reverse last.1.now) }
{
    match rows {
        [others @ .., last] => Some((*last, others)),
        _ => None,
    }
}
