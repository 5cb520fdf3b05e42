//! Numbers that look random, and are the same in each run.

/// A source of numbers: SplitMix64, by Steele, Lea and Flood.
#[derive(Clone, Copy)]
pub struct Random {
    state: u64,
}

impl Random {
    /// The numbers of a seed.
    pub fn new(seed: u64) -> Random {
        Random { state: seed }
    }

    /// The next number, below another one; 0 below 0.
    pub fn below(&mut self, limit: usize) -> usize {
        if limit == 0 {
            return 0;
        }
        self.state = self.state.wrapping_add(0x9E37_79B9_7F4A_7C15);
        let mut mixed = self.state;
        mixed = (mixed ^ (mixed >> 30)).wrapping_mul(0xBF58_476D_1CE4_E5B9);
        mixed = (mixed ^ (mixed >> 27)).wrapping_mul(0x94D0_49BB_1331_11EB);
        ((mixed ^ (mixed >> 31)) % limit as u64) as usize
    }

    /// Whether something is so that is so in so many of a hundred.
    pub fn is_so(&mut self, of_a_hundred: usize) -> bool {
        self.below(100) < of_a_hundred
    }

    /// One of these words; an empty one of none.
    pub fn one_of<'a>(&mut self, words: &[&'a str]) -> &'a str {
        match words.get(self.below(words.len())) {
            Some(word) => word,
            None => "",
        }
    }
}
