//! Keys for look-ups by hash.
//!
//! Whoever writes a text chooses its names. Under a hasher that is the same in every run they could be chosen so that all have one
//! hash, and each look-up would go over all that came before. So names and strings are looked up under keys, which are handed in:
//! where a text can't know them, none can be chosen so. They decide how fast a name is found, and nothing else; the hasher may change.

ghost use Rattle.std.specs.Prelude.{◌≡◌};
ghost use Rattle.coll_lookups.specs.HashKeys.{keyed};

use std::hash::{BuildHasher, DefaultHasher, Hasher};
use std::marker::Model;

/// Two keys, as the hasher that has taken them in.
#[derive(Clone, Copy)]
pub struct HashKeys {
    // What each hash begins with.
    begun: DefaultHasher,
}

impl Model for HashKeys {
    ghost use Rattle.std.specs.declared.hash.DefaultHasher.{DefaultHasher};

    ghost Value = { DefaultHasher };

    ghost view = { λ k. k.begun };

    ghost inverse = { λ d. record { begun = d } };
}

impl HashKeys {
    /// These two keys.
    pub fn new(first: u64, second: u64) -> HashKeys
        ensures { result ≡ keyed first second }
    {
        let mut begun = DefaultHasher::new();
        begun.write_u64(first);
        begun.write_u64(second);
        HashKeys { begun }
    }

    /// Keys that are the same in every run, for texts that one trusts.
    pub fn zeros() -> HashKeys
        ensures { result ≡ keyed 0 0 }
    {
        HashKeys::new(0, 0)
    }
}

impl BuildHasher for HashKeys {
    type Hasher = DefaultHasher;

    ghost build_hasher = { λ k. k };

    fn build_hasher(&self) -> DefaultHasher {
        self.begun
    }
}
