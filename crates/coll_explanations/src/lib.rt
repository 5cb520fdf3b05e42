//! Why two texts compare as they do by a collation table.
//!
//! Of two texts the lists that keys are made of are gone along once more, each number with where it comes from, and what decides is
//! written. A way through the crate, each file with its definitions in `specs/`:
//!
//! - `rank_looks`: what tells ranks, and the order of the texts (`RankLooks`);
//! - `weighing`: the elements of a text with what each number of their weights comes from (`Sources`);
//! - `level_numbers` and `differences`: the numbers of a level, one after another, and the first place where two lists differ
//!   (`ToldLists`, `ToldSteps`);
//! - `lines`: how they are written (`Explanations`);
//! - `explaining`: the whole explanation, and the laws that tie it to keys (`Explaining`, `ExplanationLaws`).
#![tactic(auto)]

mod differences;
mod explaining;
mod level_numbers;
mod lines;
mod rank_looks;
mod weighing;

pub use explaining::{
    explain, explain_by_places, first_differences_are_told, told_levels_decide,
    told_numbers_are_listed,
};
