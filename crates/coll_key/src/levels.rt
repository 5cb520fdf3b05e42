//! The list of a level, put behind a key.
//!
//! One goes along the rows of the elements of a text in the direction of the level, and counts the gaps between numbers.
//! Direction and `position` are told apart once for a level, and all that each element calls is inlined there, so that the loop
//! stays small. The key is handed on by value, and given back: so where it stands and how long it is are kept in registers along
//! the loop. There is room for one number of each element that is left, with its position, and an element with more numbers makes
//! room for them first: so no number asks for room, and none may be refused.

ghost use Rattle.std.specs.Prelude.{◌≡◌, ◌<◌, ◌≤◌, ◌+◌, ◌*◌, ◌^◌, ◌++◌, ◌∷◌, [], ℕ, List, Option, Some};
ghost use Rattle.std.specs.Prelude.{map, length, vec_len, vec_capacity, IfOk, MatchOption};
ghost use Rattle.coll_key.specs.LevelList.{directed, items_of, listed, level_list, position_of};
ghost use Rattle.coll_ranks.specs.LevelWeights.{row_numbers};
ghost use Rattle.coll_ranks.specs.Ranks.{added_to};

use crate::limits::RANK_STEP;
use coll_ranks::{CompiledWeights, ElementRow, ElementWeight, WeightRanks};
use coll_syntax::Rule;
use std::alloc::AllocError;

/// Puts the list of a level behind a key, and makes room for one number more.
#[inline(always)]
pub(crate) fn with_level(
    key: Vec<u64>,
    weights: &CompiledWeights,
    level: usize,
    rule: Rule,
    rows: &[ElementRow],
) -> Result<Vec<u64>, AllocError>
    requires few { length rows.now ≤ 65_536 }
    ensures list { IfOk result (λ with. with.items ≡ key.items ++ level_list rule (row_numbers weights.now level) rows.now) }
    ensures room { IfOk result (λ with. vec_len with < vec_capacity with) }
{
    let key = with_room(key, rows.len())?;
    match (rule.backward, rule.position) {
        (false, false) => with_rows(key, weights, level, false, false, rows),
        (false, true) => with_rows(key, weights, level, false, true, rows),
        (true, false) => with_rows(key, weights, level, true, false, rows),
        (true, true) => with_rows(key, weights, level, true, true, rows),
    }
}

// A key with room for so many numbers, each with its position, and one more.
#[inline(always)]
fn with_room(key: Vec<u64>, numbers: usize) -> Result<Vec<u64>, AllocError>
    requires { numbers < 2 ^ 62 }
    ensures same { IfOk result (λ with. with.items ≡ key.items) }
    ensures room { IfOk result (λ with. vec_len with + numbers * 2 + 1 ≤ vec_capacity with) }
{
    if key.capacity().saturating_sub(key.len()) > numbers * 2 {
        return Ok(key);
    }
    with_more_room(key, numbers)
}

// The same, where there is less room. It stands apart, so that a key isn't lent where it is made.
#[inline(never)]
fn with_more_room(key: Vec<u64>, numbers: usize) -> Result<Vec<u64>, AllocError>
    requires { numbers < 2 ^ 62 }
    ensures same { IfOk result (λ with. with.items ≡ key.items) }
    ensures room { IfOk result (λ with. vec_len with + numbers * 2 + 1 ≤ vec_capacity with) }
{
    let mut with = key;
    with.reserve(numbers * 2 + 1)?;
    Ok(with)
}

// Puts the numbers of rows behind a key, in a direction.
#[inline(always)]
fn with_rows(
    key: Vec<u64>,
    weights: &CompiledWeights,
    level: usize,
    backward: bool,
    position: bool,
    rows: &[ElementRow],
) -> Result<Vec<u64>, AllocError>
    requires few { length rows.now ≤ 65_536 }
    requires room { vec_len key + length rows.now * 2 + 1 ≤ vec_capacity key }
    ensures list { IfOk result (λ with. with.items
        ≡ key.items ++ level_list (record { backward = backward; position = position }) (row_numbers weights.now level) rows.now) }
    ensures room { IfOk result (λ with. vec_len with < vec_capacity with) }
{
    let at_level = weights.at_level(level);
    let mut with = key;
    let mut left = rows;
    let mut gaps = 0;
    'rows: while let Some((row, later)) = split_towards(left, backward) {
        left = later;
        match at_level.ranks(row) {
            WeightRanks::Ignored => gaps += 1,
            WeightRanks::Single(rank) => {
                let number = number_of(rank, at_level.added(row));
                with = with_number(with, position, gaps, number);
                gaps = 0;
            }
            WeightRanks::Several(ranks) => {
                let added = at_level.added(row);
                let weight = ElementWeight { ranks, added };
                let long = with_long_element(with, weight, backward, position, gaps, later.len())?;
                with = long.0;
                gaps = long.1;
            }
        }
    }
    Ok(with)
}

// Puts the numbers of an element behind a key, with so many gaps before it, and makes room for those of so many later elements;
// gives the gaps behind it too. Few elements have several.
#[inline(always)]
fn with_long_element(
    key: Vec<u64>,
    weight: ElementWeight<'_>,
    backward: bool,
    position: bool,
    gaps: u64,
    later_elements: usize,
) -> Result<(Vec<u64>, u64), AllocError>
    requires few { gaps < 65_536 }
    requires few_later { later_elements ≤ 65_536 }
    ensures few { IfOk result (λ with. with.1 ≤ gaps + 1) }
    ensures numbers { IfOk result (λ with. (later : List (Option ℕ))
        → key.items ++ listed position gaps (items_of (directed backward (map (added_to weight.entry.added) weight.entry.ranks.now))
        ++ later) ≡ with.0.items ++ listed position with.1 later) }
    ensures room { IfOk result (λ with. vec_len with.0 + later_elements * 2 + 1 ≤ vec_capacity with.0) }
{
    let key = with_room(key, weight.ranks.len() + later_elements)?;
    let Some((first, others)) = split_towards(weight.ranks, backward) else {
        return Ok((key, gaps + 1));
    };
    let with = with_number(key, position, gaps, number_of(first, weight.added));
    let whole = with_others(with, others, weight.added, backward, position);
    Ok((whole, 0))
}

// Puts the later numbers of an element behind a key.
#[inline(always)]
fn with_others(key: Vec<u64>, ranks: &[u32], added: u32, backward: bool, position: bool) -> Vec<u64>
    requires room { vec_len key + length ranks.now * 2 ≤ vec_capacity key }
    ensures numbers { (later : List (Option ℕ))
        → key.items ++ listed position 0 (map Some (map (added_to added) (directed backward ranks.now)) ++ later)
        ≡ result.items ++ listed position 0 later }
    ensures capacity { vec_capacity result ≡ vec_capacity key }
    ensures len { vec_len result ≤ vec_len key + length ranks.now * 2 }
{
    let mut with = key;
    let mut left = ranks;
    'others: while let Some((rank, later)) = split_towards(left, backward) {
        with = with_number(with, position, 0, number_of(rank, added));
        left = later;
    }
    with
}

// Puts a number behind a key that has room for it, with `position` behind its position.
#[inline(always)]
fn with_number(key: Vec<u64>, position: bool, gaps: u64, number: u64) -> Vec<u64>
    requires few { gaps < 65_536 }
    requires room { vec_len key + 2 ≤ vec_capacity key }
    ensures numbers { (list : List ℕ) → key.items ++ position_of position gaps ++ number ∷ list ≡ result.items ++ list }
    ensures capacity { vec_capacity result ≡ vec_capacity key }
    ensures len { vec_len result ≤ vec_len key + 2 }
{
    let mut with = key;
    if position {
        with.push_reserved(gaps + 1);
        with.push_reserved(number);
        return with;
    }
    with.push_reserved(number);
    with
}

/// The number of a rank, with what is added to it.
pub(crate) fn number_of(rank: u32, added: u32) -> u64
    ensures { result ≡ added_to added rank }
{
    u64::from(rank) * RANK_STEP + u64::from(added)
}

// The first member of a list in a direction, and the others.
fn split_towards<X: Copy>(list: &[X], backward: bool) -> Option<(X, &[X])>
    ensures { MatchOption result (directed backward list.now ≡ [])
        (λ found. directed backward list.now ≡ found.0 ∷ directed backward found.1.now) }
{
    match (backward, list) {
        (true, [others @ .., last]) => Some((*last, others)),
        (false, [first, others @ ..]) => Some((*first, others)),
        _ => None,
    }
}
