//! How far a review got, told while it goes on.
//!
//! What a review writes stands at its end, so whoever waits for it may want to see how many statements were put. What is told so is no
//! part of any contract: it changes nothing but the one to whom it is told.

ghost use Rattle.std.specs.Prelude.{[]};
ghost use Rattle.coll_nodes.specs.TableLayout.{collation};

use crate::reviews::Review;
use coll_bench::{RunFault, TakesStatements};
use coll_requests::StatementAt;

/// Who is told how far a review got.
pub trait Progress {
    /// Takes note that this many statements were put.
    fn put(&mut self, count: u32);
}

/// A review, and who is told how far it got.
#[derive(Drop)]
pub(crate) struct WatchedReview<'a, P: Progress + Drop> {
    /// The review.
    pub review: Review<'a>,
    /// Who is told.
    pub progress: P,
}

impl<'a, P: Progress + Drop> TakesStatements for WatchedReview<'a, P> {
    ghost use Rattle.coll_reviews.specs.ReviewSteps.{LeadsTo};

    ghost table = { λ watched. collation watched.review.table };

    ghost Reaches = { λ start given now. LeadsTo start.review given now.review };

    fn put(&mut self, input: usize, at: &StatementAt) -> Result<(), RunFault> {
        // Not `?`: behind its conversion this exit would need a lemma.
        if let Err(ended) = self.review.put(input, at) {
            return Err(ended);
        }
        self.progress.put(self.review.count());
        Ok(())
    }

    ghost stays = { λ start words lines ordered. ([], (refl, refl), sym (append-nil start.review.told.bytes.items)) };

    ghost use Rattle.std.proofs.Common.{refl, sym, append-nil};
}
