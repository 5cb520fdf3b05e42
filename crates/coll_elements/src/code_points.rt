//! A number for each character, found by its code point.
//!
//! A `CodePoints` is a list that is as long as its greatest code point needs, and little longer; what it has no number for is 0.
//! So a look-up is one index, and a table of few characters with small code points is small. It has less than 1,116,000 numbers,
//! 4.5 MB.

ghost use Rattle.std.specs.Prelude.{◌≡◌, ◌<◌, ◌^◌, [], ℕ, if◌then◌else◌, ◌==◌, slice_index_or, vec_len, OnOk};

use std::alloc::{AllocError, Global};
use std::marker::Model;

// By how many places the list of numbers grows: so many that the tags and variation selectors, U+E0001 to U+E01EF, take one growth.
const PLACES_AT_ONCE: usize = 1_024;

/// Numbers by code point, one for each character, which is 0 until it is set.
#[derive(Drop)]
pub struct CodePoints {
    numbers: Vec<u32>,
}

impl Model for CodePoints {
    ghost use Rattle.std.specs.Prelude.{List, ℕ};

    ghost Value = { List ℕ };

    ghost view = { λ c. c.numbers.items };
}

impl CodePoints {
    /// No numbers. It takes no memory.
    pub fn new(alloc: Global) -> CodePoints
        ensures { result ≡ [] }
    {
        CodePoints {
            numbers: Vec::new(alloc),
        }
    }

    /// The number of a character, 0 where it has none. It takes no memory.
    #[inline(always)]
    pub fn get(&self, character: char) -> u32
        ensures { result ≡ slice_index_or self.now character 0 }
    {
        match self.numbers.get(character as usize) {
            Some(number) => *number,
            None => 0,
        }
    }

    /// Gives a character a number; all others keep theirs.
    ///
    /// It takes memory where the list isn't long enough, for as many numbers as the code point says, which no clause says. Where
    /// memory is refused, no clause says anything of the numbers.
    pub fn set(&mut self, character: char, number: u32) -> Result<(), AllocError>
        ensures { OnOk result ((c : ℕ) → slice_index_or self.new c 0 ≡ (if c == character then number else slice_index_or self.old c 0)) }
    {
        let place = character as usize;
        make_room(&mut self.numbers, place)?;
        self.numbers[place] = number;
        Ok(())
    }
}

// Makes a list so long that it has this place, and some more. What is new in it is 0.
fn make_room(numbers: &mut Vec<u32>, place: usize) -> Result<(), AllocError>
    requires { place < 2 ^ 32 }
    ensures within { OnOk result (place < vec_len numbers.new) }
    ensures same { OnOk result ((c : ℕ) → slice_index_or numbers.new.items c 0 ≡ slice_index_or numbers.old.items c 0) }
{
    if place < numbers.len() {
        return Ok(());
    }
    numbers.resize(place + PLACES_AT_ONCE, 0)?;
    Ok(())
}
