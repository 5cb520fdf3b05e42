//! A guess at the order of words, by what their first characters weigh at the first level.
//!
//! Each word gets one number, in which those of its characters stand one behind another, each in as few bits as tell them apart: a
//! list in one script has some 30 different ones, and so the first 25 letters stand in 128 bits. Words are sorted by these numbers
//! without a look at any text. It is a guess: nobody rests on it, since who has words sorted by it compares neighbours behind that
//! (`listed_words`). So no contract speaks of the numbers, but of the words, none of which is lost.
//!
//! The simple form is `listed_keys`. `sort_anew` of `listed_words`, which takes either, has the clause `IsSortedAnew`.

ghost use Rattle.std.specs.List.Sorted.{IsPermutation};

use crate::listed_words::ListedWord;
use coll_elements::CodePoints;
use coll_letters::LetterWeights;
use std::alloc::{AllocError, Global};

// How many bits the number of a word has.
const WORD_BITS: u32 = 128;

/// What characters weigh at the first level, by their places, as bits of a word's number.
#[derive(Drop)]
pub(crate) struct WordFronts<'a> {
    // The places of characters, from 1.
    places: &'a CodePoints,
    // The bits of the character at each place, and none at place 0.
    fronts: Vec<LetterFront>,
}

// The bits of a character: those of each of its numbers, one behind another.
#[derive(Clone, Copy)]
struct LetterFront {
    bits: u128,
    // How many they are.
    count: u32,
}

// Of a character that weighs nothing.
const NOTHING: LetterFront = LetterFront { bits: 0, count: 0 };

impl<'a> WordFronts<'a> {
    /// The bits of characters that have rows.
    pub fn new(
        alloc: Global,
        letters: &LetterWeights,
        places: &'a CodePoints,
    ) -> Result<WordFronts<'a>, AllocError> {
        let mut numbers = Vec::new(alloc);
        for row in letters.rows() {
            letters.put_first_numbers(*row, &mut numbers)?;
        }
        numbers.sort_unstable();
        numbers.dedup();
        let mut fronts = Vec::with_capacity(alloc, letters.rows().len().saturating_add(1))?;
        fronts.push(NOTHING)?;
        let mut own = Vec::new(alloc);
        for row in letters.rows() {
            own.clear();
            letters.put_first_numbers(*row, &mut own)?;
            fronts.push(front_of_numbers(&numbers, &own))?;
        }
        Ok(WordFronts { places, fronts })
    }

    /// Sorts words by their numbers. Words with the same stay in their order.
    pub fn sort(&self, words: &mut Vec<ListedWord<'_>>) -> Result<(), AllocError>
        ensures { IsPermutation words.old.items words.new.items }
    {
        words.sort_by_cached_key(|listed| self.front(listed.text))
    }

    // The number of a word.
    fn front(&self, word: &str) -> u128 {
        let mut front = 0u128;
        let mut free = WORD_BITS;
        for letter in word.chars() {
            let found = match self.fronts.get(self.places.get(letter) as usize) {
                Some(front) => *front,
                None => NOTHING,
            };
            if found.count >= free {
                return front | found.bits.wrapping_shr(found.count.wrapping_sub(free));
            }
            free = free.wrapping_sub(found.count);
            front |= found.bits.wrapping_shl(free);
        }
        front
    }
}

// The bits of numbers, by their places among all.
fn front_of_numbers(all: &[u64], numbers: &[u64]) -> LetterFront {
    let width = usize::BITS.saturating_sub(all.len().leading_zeros());
    let mut front = NOTHING;
    for number in numbers {
        if front.count.saturating_add(width) > WORD_BITS {
            return front;
        }
        let place = match all.binary_search(number) {
            Ok(place) => place,
            Err(place) => place,
        };
        front.bits = front.bits.wrapping_shl(width) | (place as u128).wrapping_add(1);
        front.count = front.count.saturating_add(width);
    }
    front
}
