//! Published tailorings, made into statements over a table.
//!
//! A tailoring copies a table that orders everything, and changes it by blocks of `reorder-after`. What a `SourceReader` has read of
//! one is made into statements here, which the table that is tailored accepts one after another. What of the source each line became
//! is told, and shown by tests alone. A way through the crate:
//!
//! - `steps`: what a tailoring does, with names by their meaning (`Meanings` of coll_meanings) and ellipses written out;
//! - `blocks`, with `later_weights`: the steps, made into statements;
//! - `accepted_statements`: the statements, put to the table (`Rewriting`, `LineCounts`);
//! - `tailoring`: all of it.
#![tactic(auto)]

mod accepted_statements;
mod blocks;
mod later_weights;
mod steps;
mod tailoring;

pub use tailoring::{Tailored, import_delta};
