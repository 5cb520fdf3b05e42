//! Numbers that look random, and are the same for the same seed.

ghost use Rattle.std.specs.Prelude.{◌<◌, ◌≤◌, length};

/// A source of numbers: SplitMix64, by Steele, Lea and Flood.
#[derive(Clone, Copy)]
pub(crate) struct Random {
    state: u64,
}

impl Random {
    /// The numbers of a seed, and of a number beside it.
    pub fn new(seed: u64, beside: u64) -> Random {
        let mut random = Random {
            state: seed.wrapping_add(beside.wrapping_mul(0x9E37_79B9)),
        };
        let state = random.number();
        Random {
            state: state.wrapping_add(beside),
        }
    }

    /// The next number.
    pub fn number(&mut self) -> u64 {
        self.state = self.state.wrapping_add(0x9E37_79B9_7F4A_7C15);
        let mut mixed = self.state;
        mixed = (mixed ^ (mixed >> 30)).wrapping_mul(0xBF58_476D_1CE4_E5B9);
        mixed = (mixed ^ (mixed >> 27)).wrapping_mul(0x94D0_49BB_1331_11EB);
        mixed ^ (mixed >> 31)
    }

    /// A number below another one; 0 below 0.
    pub fn below(&mut self, limit: usize) -> usize
        ensures { 0 < limit → result < limit }
    {
        if limit == 0 {
            return 0;
        }
        (self.number() % limit as u64) as usize
    }

    /// A number below another one, the small ones more often.
    pub fn small_below(&mut self, limit: usize) -> usize {
        let some = self.below(limit);
        self.below(some.saturating_add(1))
    }

    /// Whether something is so that is so in so many of a hundred.
    pub fn is_so(&mut self, of_a_hundred: usize) -> bool {
        self.below(100) < of_a_hundred
    }
}
