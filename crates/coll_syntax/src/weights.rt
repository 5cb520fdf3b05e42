//! What an order line gives an entry at each level.
//!
//! A `Weight` is plain data; which one a token spells is `weight` of `specs/Weights.antt`.

ghost use Rattle.std.specs.Prelude.{◌≡◌};
ghost use Rattle.std.specs.List.{list_all};
ghost use Rattle.coll_syntax.specs.Proper.{is_weight_id};

use crate::Id;
use coll_lex::ListBuf;
use std::alloc::AllocError;

/// Most identifiers of one weight.
pub const MOST_WEIGHT_IDS: usize = 32;

const _: () = prove!(MOST_WEIGHT_IDS == 32);

/// A weight of an entry at one level (POSIX.1-2017, 7.3.2.4).
#[derive(Debug, Drop)]
pub enum Weight {
    /// `IGNORE`: the entry counts for nothing at this level.
    Ignore,
    /// An empty operand: the entry itself.
    Own,
    /// 1 to 32 characters and names. A string of one is that one.
    Names(ListBuf<Id>),
}

impl Clone for Weight {
    ghost is_clone = { λ weight copy. copy ≡ weight };

    fn clone(&self) -> Result<Weight, AllocError> {
        match self {
            Weight::Ignore => Ok(Weight::Ignore),
            Weight::Own => Ok(Weight::Own),
            Weight::Names(ids) => {
                let ids = ids.clone()?;
                Ok(Weight::Names(ids))
            }
        }
    }
}

impl Weight {
    ghost use Rattle.coll_syntax.specs.Proper.{is_proper_weight};
    ghost use Rattle.coll_syntax.specs.Weights.{is_own};

    /// Whether it is its entry's own.
    pub fn is_own(&self) -> bool
        ensures { result ≡ is_own self.now }
    {
        match self {
            Weight::Own => true,
            Weight::Ignore | Weight::Names(_) => false,
        }
    }

    /// Whether a list of identifiers has 1 to 32 of them, without `UNDEFINED`, and its names are names.
    pub(crate) fn is_proper(&self) -> bool
        ensures { result ≡ is_proper_weight self.now }
    {
        let Weight::Names(ids) = self else {
            return true;
        };
        if ids.get().is_empty() {
            return false;
        }
        if ids.get().len() > MOST_WEIGHT_IDS {
            return false;
        }
        are_weight_ids(ids.get())
    }
}

// Whether all of these may stand in a weight.
fn are_weight_ids(ids: &[Id]) -> bool
    ensures { result ≡ list_all is_weight_id ids.now }
{
    ids.iter().all(|id| id.is_weight_id())
}
