//! A hasher for short keys: SipHash-1-3, a word at a time.
//!
//! Names are short, and each is one write. So a write is cut into words at once, and nothing is kept between two
//! writes but the four words of the state: a name of at most seven bytes is one word, which ends with their number. Which bytes were
//! written is read back from the words of a write, so no two keys have the same words; the keys are made of `HashKeys`, and as hard
//! to know (`specs/WordHashing.antt`). The simple form is the hasher of `HashKeys`, byte by byte. Which hasher serves a look-up decides how
//! fast it is, and nothing else.

ghost use Rattle.std.specs.Prelude.{◌≡◌};
ghost use Rattle.coll_lookups.specs.WordHashing.{begun, derived, finished, last_word, round, with_word, word_keys, written};

use crate::HashKeys;
use std::hash::{BuildHasher, Hasher};

/// The state of a hash.
#[derive(Clone, Copy)]
pub struct WordHasher {
    v0: u64,
    v1: u64,
    v2: u64,
    v3: u64,
}

/// Two keys for look-ups of short keys, and what each hash under them begins with.
#[derive(Clone, Copy)]
pub struct WordKeys {
    keys: HashKeys,
    begun: WordHasher,
}

impl WordKeys {
    /// Keys made of these.
    pub fn new(keys: HashKeys) -> WordKeys
        ensures { result ≡ word_keys keys }
    {
        let begun = WordHasher::begun(derived_key(&keys, 1), derived_key(&keys, 2));
        WordKeys { keys, begun }
    }

    /// The keys that these are made of.
    pub fn hash_keys(&self) -> HashKeys
        ensures { result ≡ self.now.keys }
    {
        self.keys
    }
}

// A key made of two keys, one for each number.
fn derived_key(keys: &HashKeys, number: u64) -> u64
    ensures { result ≡ derived keys.now number }
{
    let mut hasher = keys.build_hasher();
    hasher.write_u64(number);
    hasher.finish()
}

impl BuildHasher for WordKeys {
    type Hasher = WordHasher;

    ghost build_hasher = { λ k. k.begun };

    fn build_hasher(&self) -> WordHasher {
        self.begun
    }
}

impl WordHasher {
    // What two keys begin with.
    fn begun(first: u64, second: u64) -> WordHasher
        ensures { result ≡ begun first second }
    {
        WordHasher {
            v0: first ^ 0x736f_6d65_7073_6575,
            v1: second ^ 0x646f_7261_6e64_6f6d,
            v2: first ^ 0x6c79_6765_6e65_7261,
            v3: second ^ 0x7465_6462_7974_6573,
        }
    }

    // One round.
    fn round(&mut self)
        ensures { self.new ≡ round self.old }
    {
        self.v0 = self.v0.wrapping_add(self.v1);
        self.v2 = self.v2.wrapping_add(self.v3);
        self.v1 = self.v1.rotate_left(13) ^ self.v0;
        self.v3 = self.v3.rotate_left(16) ^ self.v2;
        self.v0 = self.v0.rotate_left(32);
        self.v2 = self.v2.wrapping_add(self.v1);
        self.v0 = self.v0.wrapping_add(self.v3);
        self.v1 = self.v1.rotate_left(17) ^ self.v2;
        self.v3 = self.v3.rotate_left(21) ^ self.v0;
        self.v2 = self.v2.rotate_left(32);
    }

    // Takes in a word.
    fn take(&mut self, word: u64)
        ensures { self.new ≡ with_word self.old word }
    {
        self.v3 ^= word;
        self.round();
        self.v0 ^= word;
    }
}

impl Hasher for WordHasher {
    ghost write = { written };

    ghost finish = { finished };

    fn write(&mut self, bytes: &[u8]) {
        let mut rest = bytes;
        while let [a, b, c, d, e, f, g, h, later @ ..] = rest {
            self.take(u64::from_le_bytes([*a, *b, *c, *d, *e, *f, *g, *h]));
            rest = later;
        }
        self.take(last_word(rest));
    }

    fn finish(&self) -> u64 {
        let mut last = WordHasher {
            v0: self.v0,
            v1: self.v1,
            v2: self.v2 ^ 0xff,
            v3: self.v3,
        };
        last.round();
        last.round();
        last.round();
        last.v0 ^ last.v1 ^ last.v2 ^ last.v3
    }
}

// The word that ends a write: the bytes left, fewer than eight, and their number.
fn last_word(bytes: &[u8]) -> u64
    ensures { result ≡ last_word bytes.now }
{
    match bytes {
        [] => 0,
        [a] => u64::from_le_bytes([*a, 0, 0, 0, 0, 0, 0, 1]),
        [a, b] => u64::from_le_bytes([*a, *b, 0, 0, 0, 0, 0, 2]),
        [a, b, c] => u64::from_le_bytes([*a, *b, *c, 0, 0, 0, 0, 3]),
        [a, b, c, d] => u64::from_le_bytes([*a, *b, *c, *d, 0, 0, 0, 4]),
        [a, b, c, d, e] => u64::from_le_bytes([*a, *b, *c, *d, *e, 0, 0, 5]),
        [a, b, c, d, e, f] => u64::from_le_bytes([*a, *b, *c, *d, *e, *f, 0, 6]),
        [a, b, c, d, e, f, g, ..] => u64::from_le_bytes([*a, *b, *c, *d, *e, *f, *g, 7]),
    }
}
