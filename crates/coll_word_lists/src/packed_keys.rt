//! Sort keys in less memory.
//!
//! A number of a key is that of a rank, with a code point added where a character has no entry, or a position, or the 0 behind a
//! level. Nearly all of them fit 32 bits without the room that each rank has for code points; the others are kept as three numbers.
//! Packed keys are compared like keys, as lists of numbers, and have their order.
//!
//! The simple form is the key itself; `packed_keys_are_ordered_alike` joins both.

ghost use Rattle.std.specs.Prelude.{◌≡◌, ◌<◌, ◌≤◌, ◌+◌, [], ◌∷◌, ◌++◌, vec_len, vec_capacity, IfOk, MatchOption};
ghost use Rattle.coll_word_lists.specs.PackedKeys.{packed_number, packed_above, packed_whole, packed_key, PackedKeysAreOrderedAlike};

use coll_key::RANK_STEP;
use std::alloc::{AllocError, Global};

// Ranks below this have a number of their own.
const SHORT_RANKS: u64 = 1_073_741_824;

/// A key, packed.
pub fn packed_key(alloc: Global, key: &[u64]) -> Result<Vec<u32>, AllocError>
    ensures { IfOk result (λ packed. packed.items ≡ packed_key key.now) }
{
    with_packed_key(Vec::new(alloc), key)
}

/// Puts a key, packed, behind other keys.
pub fn with_packed_key(packed: Vec<u32>, key: &[u64]) -> Result<Vec<u32>, AllocError>
    ensures { IfOk result (λ with. with.items ≡ packed.items ++ packed_key key.now) }
{
    let mut with = with_room(packed, key.len())?;
    let mut left = key;
    'numbers: while let Some((number, later)) = left.split_first() {
        left = later;
        with = with_packed(with, *number, later.len())?;
    }
    Ok(with)
}

/// A list with room for so many numbers more.
#[inline(never)]
pub fn with_room(packed: Vec<u32>, numbers: usize) -> Result<Vec<u32>, AllocError>
    ensures same { IfOk result (λ with. with.items ≡ packed.items) }
    ensures room { IfOk result (λ with. vec_len with + numbers ≤ vec_capacity with) }
{
    let mut with = packed;
    with.reserve(numbers)?;
    Ok(with)
}

/// Puts a number of a key behind others, for which there is room as long as it is packed as one, and leaves room for later ones.
#[inline(always)]
pub fn with_packed(packed: Vec<u32>, number: u64, later: usize) -> Result<Vec<u32>, AllocError>
    requires { vec_len packed + later + 1 ≤ vec_capacity packed }
    ensures number { IfOk result (λ with. with.items ≡ packed.items ++ packed_number number) }
    ensures room { IfOk result (λ with. vec_len with + later ≤ vec_capacity with) }
{
    match short_number(number) {
        Some(short) => Ok(with_short(packed, short)),
        None => with_whole(packed, number, later),
    }
}

/// What a number is packed as, where that is one number.
#[inline(always)]
pub fn short_number(number: u64) -> Option<u32>
    ensures { MatchOption result (packed_number number ≡ packed_whole number) (λ short. packed_number number ≡ short ∷ []) }
{
    if number < RANK_STEP {
        return Some(number as u32);
    }
    short_rank(number)
}

// What the number of a rank is packed as, where that is one number.
#[inline(always)]
fn short_rank(number: u64) -> Option<u32>
    ensures { MatchOption result (packed_above number ≡ packed_whole number) (λ short. packed_above number ≡ short ∷ []) }
{
    if number % RANK_STEP == 0 {
        let rank = number / RANK_STEP;
        if rank < SHORT_RANKS {
            return Some((RANK_STEP + 2 * rank) as u32);
        }
    }
    None
}

/// Puts a number behind others, where there is room for it.
#[inline(always)]
pub fn with_short(packed: Vec<u32>, short: u32) -> Vec<u32>
    requires { vec_len packed < vec_capacity packed }
    ensures items { result.items ≡ packed.items ++ short ∷ [] }
    ensures len { vec_len result ≡ vec_len packed + 1 }
    ensures capacity { vec_capacity result ≡ vec_capacity packed }
{
    let mut with = packed;
    with.push_reserved(short);
    with
}

// Puts the number of a rank and more, or of a rank that isn't short, behind others, and makes room for later numbers.
#[inline(never)]
fn with_whole(packed: Vec<u32>, number: u64, later: usize) -> Result<Vec<u32>, AllocError>
    ensures number { IfOk result (λ with. with.items ≡ packed.items ++ packed_whole number) }
    ensures room { IfOk result (λ with. vec_len with + later ≤ vec_capacity with) }
{
    let rank = (number / RANK_STEP).min(SHORT_RANKS);
    let lead = RANK_STEP + 2 * rank + 1;
    let (high, low) = (number / 4_294_967_296, number % 4_294_967_296);
    let mut with = packed;
    with.extend_from_slice(&[lead as u32, high as u32, low as u32])?;
    with.reserve(later)?;
    Ok(with)
}

/// The law of packed keys: they are ordered, as lists of numbers, as the keys are.
///
/// It does nothing; its contract is the law.
pub fn packed_keys_are_ordered_alike()
    ensures { PackedKeysAreOrderedAlike }
{}
