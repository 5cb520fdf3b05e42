//! A fault of a statement, and what it is about.
//!
//! It is plain data. A fault that is about more than one identifier has the one that the line at fault has first.

ghost use Rattle.std.specs.Prelude.{◌≡◌};

use coll_syntax::Id;
use coll_table::Refusal;
use std::alloc::AllocError;

/// A fault of a statement: what is wrong, where in its block, and what it is about.
#[derive(Drop)]
pub struct Found {
    /// The order line of a block, from 0; none for the target of a block, for a block as a whole, and outside of blocks.
    pub line: Option<usize>,
    /// What is wrong.
    pub refusal: Refusal,
    /// What it is about, as the statement names it; none where it is about no identifier.
    pub id: Option<Id>,
}

impl Clone for Found {
    ghost is_clone = { λ found copy. copy ≡ found };

    fn clone(&self) -> Result<Found, AllocError> {
        match &self.id {
            Some(id) => {
                let id = id.clone()?;
                Ok(Found {
                    line: self.line,
                    refusal: self.refusal,
                    id: Some(id),
                })
            }
            None => Ok(Found {
                line: self.line,
                refusal: self.refusal,
                id: None,
            }),
        }
    }
}
