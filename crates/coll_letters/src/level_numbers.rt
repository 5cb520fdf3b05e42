//! The numbers of a text at a level that is looked at from the front, one after another, by the rows of its elements.
//!
//! Where single numbers don't tell the order of two texts, since an ignored weight stands against another one, or against the end of a
//! text, and positions tell, or an element has several numbers or more than one character, the level is gone through so along both. Nothing is kept of them, and
//! it takes no memory: what is left of a text is a list of items (`specs/LevelNumbers.antt`). The simple form compares keys; the clause
//! `order_behind` of `order_by_numbers` joins both.

ghost use Rattle.std.specs.Prelude.{◌≡◌, ◌<◌, ◌≤◌, ◌∷◌, [], ℕ, List, chars, length, IfSome, MatchOption};
ghost use Rattle.std.specs.Ordering.{ordering_then};
ghost use Rattle.coll_nodes.specs.TableLayout.{collation};
ghost use Rattle.coll_key.specs.ForwardNumbers.{gap_count};
ghost use Rattle.coll_key.specs.TextOrder.{list_order};
ghost use Rattle.coll_ranks.specs.LevelWeights.{level_numbers, ranks_in, row_numbers};
ghost use Rattle.coll_ranks.specs.declared.text_elements.ElementRow.{ElementRow};
ghost use Rattle.coll_letters.specs.LetterWeights.{AreLetterWeights, order_behind};
ghost use Rattle.coll_letters.specs.LevelNumbers.{IsNext, placed};

use crate::letter_weights::{LetterWeights, number_of};
use coll_elements::CodePoints;
use coll_key::is_too_long;
use coll_ranks::{LevelWeights, WeightRanks};
use coll_table::Table;
use std::cmp::Ordering;

/// What is left of a text at a level.
#[derive(Clone, Copy)]
pub(crate) struct LevelRest<'a> {
    /// What is left of the ranks of the character at hand.
    pub ranks: WeightRanks<'a>,
    /// What is added to the number of each.
    pub added: u32,
    /// The text behind the character.
    pub text: &'a str,
}

/// A number of a text at a level.
#[derive(Clone, Copy)]
pub(crate) struct PlacedNumber {
    /// One more than the gaps between it and the number before it.
    pub position: u64,
    /// The number.
    pub number: u64,
}

/// What comes next of a text at a level.
#[derive(Clone, Copy)]
pub(crate) enum NextNumber<'a> {
    /// A number, and what is left behind it.
    Found(PlacedNumber, LevelRest<'a>),
    /// No number: the text has ended.
    Ended,
    /// It isn't known, since a character or an element has no row.
    Unknown,
}

/// How a level that is looked at from the front orders two texts, unless one of them has a character or an element without a row, or is
/// too long. It takes no memory.
#[inline(never)]
pub(crate) fn order_by_numbers(
    letters: &LetterWeights,
    table: &Table,
    places: &CodePoints,
    level: usize,
    position: bool,
    text: &str,
    other: &str,
) -> Option<Ordering>
    requires weights { AreLetterWeights (collation table.now) letters.now }
    requires within { level < length (collation table.now).rules }
    ensures { IfSome result (λ order. order ≡ order_behind (collation table.now) level position 0 (chars text.now) (chars other.now)) }
{
    if is_too_long(text) {
        return None;
    }
    if is_too_long(other) {
        return None;
    }
    let at_level = letters.made().weights().at_level(level);
    let mut left = whole_text(text);
    let mut right = whole_text(other);
    'numbers: loop {
        match (
            next_number(letters, table, places, level, at_level, left),
            next_number(letters, table, places, level, at_level, right),
        ) {
            (NextNumber::Found(first, later), NextNumber::Found(second, others)) => {
                let order = order_of_numbers(position, first, second);
                if order.is_ne() {
                    return Some(order);
                }
                left = later;
                right = others;
            }
            (NextNumber::Found(_, _), NextNumber::Ended) => return Some(Ordering::Greater),
            (NextNumber::Ended, NextNumber::Found(_, _)) => return Some(Ordering::Less),
            (NextNumber::Ended, NextNumber::Ended) => return Some(Ordering::Equal),
            _ => return None,
        }
    }
}

// What is left of a text before its first character.
fn whole_text(text: &str) -> LevelRest<'_>
    ensures ranks { ranks_in result.ranks ≡ [] }
    ensures text { result.text.now ≡ text.now }
{
    LevelRest {
        ranks: WeightRanks::Ignored,
        added: 0,
        text,
    }
}

// The next number of what is left of a text. Ignored weights are passed, and counted.
#[inline(always)]
fn next_number<'a>(
    letters: &LetterWeights,
    table: &Table,
    places: &CodePoints,
    level: usize,
    at_level: LevelWeights<'a>,
    rest: LevelRest<'a>,
) -> NextNumber<'a>
    requires weights { AreLetterWeights (collation table.now) letters.now }
    requires within { level < length (collation table.now).rules }
    requires level { (row : ElementRow) → level_numbers at_level row ≡ row_numbers letters.now.made.weights level row }
    requires few { length (chars rest.text.now) ≤ 65_536 }
    ensures { IsNext (collation table.now) level rest.entry result }
{
    let mut left = rest;
    let mut gaps = 0;
    'letters: loop {
        if let Some((rank, others)) = split_first_rank(left.ranks) {
            let found = PlacedNumber {
                position: gaps + 1,
                number: number_of(rank, left.added),
            };
            let later = LevelRest {
                ranks: others,
                added: left.added,
                text: left.text,
            };
            return NextNumber::Found(found, later);
        }
        let Some(first) = letters.first_letter(table, places, left.text) else {
            if left.text.is_empty() {
                return NextNumber::Ended;
            }
            return NextNumber::Unknown;
        };
        let ranks = at_level.ranks(first.row);
        gaps += count_of_gaps(ranks);
        left = LevelRest {
            ranks,
            added: at_level.added(first.row),
            text: first.rest,
        };
    }
}

// The first of ranks, and the others.
#[inline(always)]
fn split_first_rank(ranks: WeightRanks<'_>) -> Option<(u32, WeightRanks<'_>)>
    ensures { MatchOption result (ranks_in ranks.entry ≡ []) (λ first. ranks_in ranks.entry ≡ first.0 ∷ ranks_in first.1) }
{
    match ranks {
        WeightRanks::Ignored => None,
        WeightRanks::Single(rank) => Some((rank, WeightRanks::Ignored)),
        WeightRanks::Several(ranks) => match ranks.split_first() {
            Some((rank, others)) => Some((*rank, WeightRanks::Several(others))),
            None => None,
        },
    }
}

/// How many gaps a character with these ranks is: one where it has none.
#[inline(always)]
pub(crate) fn count_of_gaps(ranks: WeightRanks<'_>) -> u64
    ensures { result ≡ gap_count (ranks_in ranks.entry) }
{
    match ranks {
        WeightRanks::Ignored => 1,
        WeightRanks::Single(_) => 0,
        WeightRanks::Several(ranks) => { if ranks.is_empty() { 1 } else { 0 } }
    }
}

/// The order of two numbers: with `position` that of their positions, and then their own.
#[inline(always)]
pub(crate) fn order_of_numbers(
    position: bool,
    first: PlacedNumber,
    second: PlacedNumber,
) -> Ordering
    ensures { (list later : List ℕ) → list_order (placed position first list) (placed position second later)
        ≡ ordering_then result (list_order list later) }
{
    if position {
        first
            .position
            .cmp(&second.position)
            .then(first.number.cmp(&second.number))
    } else {
        first.number.cmp(&second.number)
    }
}
