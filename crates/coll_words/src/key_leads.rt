//! What keys begin with, as one number of 64 bits.
//!
//! The words of a list have few different numbers in their keys, some thirty in one script. Each of these gets a digit, in their order,
//! so that the first digits of a key, a dozen of thirty, fit one number: its lead. Where the leads of two keys differ, the keys have the
//! same order, and only of words with one lead the keys are looked at, which is the simple form; `LeadsTo`, over digits that rise as the
//! numbers do, joins both.
//!
//! A key has no lead where one of the numbers that it begins with has no digit (`lead`). No number has one where the keys are few
//! beside the greatest number (`PLACES_A_NUMBER`), and one too great never has (`MOST_PLACES`). Where one key of a list has no lead, all
//! have the lead 0 (`stored_words`), as they have where the words are in order as they stand.

ghost use Rattle.std.specs.Prelude.{◌≡◌, ◌<◌, ◌≤◌, ◌*◌, suc, ℕ, length, true, false, IfSome};
ghost use Rattle.coll_ranks.specs.WeightNumbers.{rank_step};
ghost use Rattle.coll_words.specs.KeyLeads.{AreRising, HasDigit, LeadsTo};

use coll_key::RANK_STEP;
use std::alloc::{AllocError, Global};

// So many numbers, from `RANK_STEP` on, may have a digit. Those of ranks alone are fewer.
const MOST_PLACES: usize = 1_048_576;

// For each number in keys the numbers that may have a digit are no more, or it would take longer to give digits than leads spare.
const PLACES_A_NUMBER: usize = 16;

/// The digits of numbers.
#[derive(Drop)]
pub(crate) struct LeadDigits {
    // The numbers that have a digit, in their order: the first has 1.
    numbers: Vec<u32>,
    // The digit of each number from `RANK_STEP` on, or 0. It is only guessed, so the number of a digit is looked at.
    digits: Vec<u32>,
    // What each digit is less than.
    base: u64,
    // How many digits a lead has.
    count: u32,
    ghost rising: { AreRising numbers.items },
    ghost less: { length numbers.items < base },
}

impl LeadDigits {
    /// The digits of all numbers in keys, or none where the keys are few.
    pub fn of(alloc: Global, keys: &[u32]) -> Result<LeadDigits, AllocError> {
        let mut digits = marks_of(alloc, keys)?;
        let numbers = numbers_of(alloc, &mut digits)?;
        if !are_rising(&numbers) {
            return Ok(LeadDigits::none(alloc));
        }
        let base = numbers.len() as u64 + 1;
        Ok(LeadDigits {
            numbers,
            digits,
            base,
            count: digits_in(base),
        })
    }

    // No digits: each lead is 0.
    fn none(alloc: Global) -> LeadDigits {
        LeadDigits {
            numbers: Vec::new(alloc),
            digits: Vec::new(alloc),
            base: 1,
            count: 0,
        }
    }

    /// The lead of a key, unless a number has no digit.
    pub fn lead(&self, key: &[u32]) -> Option<u64>
        ensures { IfSome result (λ lead. LeadsTo self.now.numbers.items self.now.base self.now.count 0 key.now lead) }
    {
        let mut lead = 0u64;
        let mut left = key;
        let mut room = self.count;
        'digits: while room > 0 {
            let (longer, later) = self.longer(lead, left)?;
            lead = longer;
            left = later;
            room -= 1;
        }
        Some(lead)
    }

    // A lead with one digit more, and the key behind it.
    #[inline(always)]
    fn longer<'a>(&self, lead: u64, key: &'a [u32]) -> Option<(u64, &'a [u32])>
        ensures { IfSome result (λ longer. (room last : ℕ) → LeadsTo self.now.numbers.items self.now.base room longer.0 longer.1.now last
            → LeadsTo self.now.numbers.items self.now.base (suc room) lead key.now last) }
    {
        let scaled = lead.checked_mul(self.base)?;
        match key.split_first() {
            None => Some((scaled, key)),
            Some((number, later)) => {
                if !is_of_rank(*number) {
                    return Some((scaled, &[]));
                }
                let digit = self.digit(*number)?;
                let longer = scaled.checked_add(digit)?;
                Some((longer, later))
            }
        }
    }

    // The digit of a number, if it has one.
    #[inline(always)]
    fn digit(&self, number: u32) -> Option<u64>
        ensures { IfSome result (HasDigit self.now.numbers.items number) }
    {
        let digit = *self
            .digits
            .get((number as usize).checked_sub(RANK_STEP as usize)?)?;
        let place = digit.checked_sub(1)? as usize;
        let numbers: &[u32] = &self.numbers;
        if place < numbers.len() {
            if numbers[place] == number {
                return Some(u64::from(digit));
            }
        }
        None
    }
}

// For each number from `RANK_STEP` on whether it stands in keys; for none where the keys are few beside these numbers.
fn marks_of(alloc: Global, keys: &[u32]) -> Result<Vec<u32>, AllocError> {
    let least = RANK_STEP as u32;
    let mut places = 0;
    for number in keys {
        let place = number.wrapping_sub(least) as usize;
        if place < MOST_PLACES {
            places = places.max(place.saturating_add(1));
        }
    }
    if places / PLACES_A_NUMBER > keys.len() {
        return Ok(Vec::new(alloc));
    }
    let mut marks = vec![in alloc; 0u32; places]?;
    for number in keys {
        if let Some(mark) = marks.get_mut(number.wrapping_sub(least) as usize) {
            *mark = 1;
        }
    }
    Ok(marks)
}

// The numbers that are marked; each mark becomes the digit of its number.
fn numbers_of(alloc: Global, marks: &mut [u32]) -> Result<Vec<u32>, AllocError> {
    let mut numbers = Vec::new(alloc);
    let mut number = RANK_STEP as u32;
    let mut digit = 0u32;
    for mark in marks.iter_mut() {
        if *mark > 0 {
            numbers.push(number)?;
            digit = digit.wrapping_add(1);
            *mark = digit;
        }
        number = number.wrapping_add(1);
    }
    Ok(numbers)
}

// Whether numbers rise, from that of a rank on.
fn are_rising(numbers: &[u32]) -> bool
    ensures { result ≡ true → AreRising numbers.now }
{
    let mut place = 1;
    'numbers: while place < numbers.len() {
        if numbers[place - 1] >= numbers[place] {
            return false;
        }
        place += 1;
    }
    if numbers.is_empty() {
        return true;
    }
    is_of_rank(numbers[0])
}

// Whether a number isn't less than that of a rank.
#[inline(always)]
fn is_of_rank(number: u32) -> bool
    ensures yes { result ≡ true → rank_step ≤ number }
    ensures no { result ≡ false → number < rank_step }
{
    u64::from(number) >= RANK_STEP
}

// How many digits less than this one number of 64 bits has.
fn digits_in(base: u64) -> u32 {
    let mut power = 1u64;
    for count in 0..64 {
        match power.checked_mul(base) {
            Some(next) => power = next,
            None => return count,
        }
    }
    64
}
