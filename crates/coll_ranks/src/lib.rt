//! The ranks of a collation table, and the elements of a text by them.
//!
//! `Ranks` is a table, compiled once and asked often: which rank an identifier has, which element a text begins with, and what an
//! element weighs at a level. A way through the crate, each file with its definitions in `specs/`:
//!
//! - `id_ranks`: which rank an identifier has (`Rank` of `coll_elements`, `Ranks`);
//! - `table_ranks`: which rank it has in a table whose entries are numbered (`Rank`), and `recent_ranks`: the same, where some ranks
//!   are kept from one entry to the next (`RecentRanks`);
//! - `text_elements`: the elements that a text is split into (`AlikePrefixes`);
//! - `rank_lists`, `weight_cells` and `compiled_weights`: the weights of all entries as ranks, and what an element
//!   weighs by them (`RankLists`, `WeightCells`, `Ranks`, `WeightNumbers`);
//! - `level_weights`: the same at one level, for element after element (`LevelWeights`);
//! - `text_weights`: the weights of one text, compiled for it alone (`TextWeights`);
//! - `ranks`, and `ranking`: the whole, made of a table (`Ranks`, `Ranking`).
//!
//! Which collating element a text begins with is told by `coll_elements`.
#![tactic(auto)]

mod compiled_weights;
mod id_ranks;
mod level_weights;
mod rank_lists;
mod ranking;
mod ranks;
mod recent_ranks;
mod table_ranks;
mod text_elements;
mod text_weights;
mod weight_cells;

pub use compiled_weights::CompiledWeights;
pub use level_weights::LevelWeights;
pub use ranks::Ranks;
pub use text_elements::{ElementRow, ElementWeight, FirstElement, TextElement, WeightRanks};
pub use text_weights::TextWeights;
