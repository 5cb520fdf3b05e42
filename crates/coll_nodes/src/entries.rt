//! The entries of a table.
//!
//! An entry is plain data: what stands at a place of the order, and how it weighs at each level. Which weights an order line
//! gives it is `entry_of` of `specs/Entries.antt`.

ghost use Rattle.std.specs.Prelude.{◌≡◌};

use coll_lex::ListBuf;
use coll_syntax::{Id, Weight};
use std::alloc::AllocError;

/// A place of a table's order (POSIX.1-2017, 7.3.2.4).
#[derive(Debug)]
pub struct Entry {
    pub(crate) id: Id,
    pub(crate) weights: ListBuf<Weight>,
}

// Written out, so that each place that drops one is one call.
impl Drop for Entry {
    #[inline]
    fn drop(self) {
        let Entry { id, weights } = self;
        drop(id);
        drop(weights);
    }
}

impl Clone for Entry {
    ghost is_clone = { λ entry copy. copy ≡ entry };

    fn clone(&self) -> Result<Entry, AllocError> {
        let Entry { id, weights } = self;
        let id = id.clone()?;
        let weights = weights.clone()?;
        Ok(Entry { id, weights })
    }
}

impl Entry {
    /// An entry with these weights, one for each level of the table; a collating symbol has none.
    pub fn new(id: Id, weights: ListBuf<Weight>) -> Entry
        ensures { result ≡ record { id = id; weights = weights } }
    {
        Entry { id, weights }
    }

    /// What stands there: a character, a name that the table declares, or `UNDEFINED`.
    pub fn id(&self) -> &Id
        ensures { result.now ≡ self.now.id }
    {
        &self.id
    }

    /// Its weights, one for each level of the table; a collating symbol has none.
    pub fn weights(&self) -> &[Weight]
        ensures { result.now ≡ self.now.weights }
    {
        self.weights.get()
    }
}
