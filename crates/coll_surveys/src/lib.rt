//! What is wrong with a table or with a delta file, line by line, also behind a fault.
//!
//! A survey judges each line of a text by the lines before it; one that is refused is told and passed over, so that those behind it are
//! judged by as much as possible. What is told of a line is what judging it gives, over what the lines before it left, each fault once
//! (`ToldFaults` of coll_findings, which gathers what is told); the public calls say so of all lines together (`table_faults`,
//! `delta_faults`). No clause says that it is all, and tests show that. It warns of what is said to no purpose, and of what moves and
//! sorts elsewhere. A way through the crate:
//!
//! - `table_surveys`, with `standings` and `table_weights`: a table, line by line (`TableSurveys`, `TableWeights`); `accepted_tables`: one
//!   without fault;
//! - `delta_surveys`, with `open_blocks`: a delta file, statement by statement (`DeltaSurveys`).
#![tactic(auto)]

mod accepted_tables;
mod delta_surveys;
mod open_blocks;
mod standings;
mod table_surveys;
mod table_weights;

pub use accepted_tables::survey_accepted;
pub use delta_surveys::survey_delta;
pub use table_surveys::survey_table;
