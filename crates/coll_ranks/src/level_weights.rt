//! The weights of one level.
//!
//! A key asks for the weight of one element after another at the same level. What is the same for all is found once: behind which
//! cell those of the level stand, and whether code points are added. So a look-up mostly reads one cell, and is inlined.

ghost use Rattle.std.specs.Prelude.{◌≡◌, ◌≤◌, ◌*◌};

use crate::rank_lists::RankLists;
use crate::text_elements::{ElementRow, WeightRanks};
use crate::weight_cells::{WeightCell, ranks_at};

/// The weights of one level.
#[derive(Clone, Copy)]
pub struct LevelWeights<'a> {
    /// The cells of all weights from the first of the level on.
    pub(crate) cells: &'a [WeightCell],
    pub(crate) long: &'a RankLists,
    /// How often the code point of a character without an entry is added: once where `UNDEFINED` stands for itself, else not at all.
    pub(crate) times: u32,
    ghost at_most_once: { times ≤ 1 },
}

impl<'a> LevelWeights<'a> {
    ghost use Rattle.coll_ranks.specs.LevelWeights.{ranks_in, level_ranks};

    /// The ranks of the weight of an element.
    #[inline(always)]
    pub fn ranks(&self, row: ElementRow) -> WeightRanks<'a>
        ensures { ranks_in result ≡ level_ranks self.now row }
    {
        ranks_at(self.cells, self.long, row.first)
    }

    /// What is added to the number of each.
    #[inline(always)]
    pub fn added(&self, row: ElementRow) -> u32
        ensures { result ≡ self.now.times * row.code }
    {
        self.times * row.code
    }
}
