//! Published locale sources, read: copies inlined, conditions resolved, and each line taken by what it says.
//!
//! A source of a published locale has what the language of tables leaves out: it copies other sources, has lines under conditions,
//! ranges of names and of characters, and slips. A `SourceReader` is handed one text after another; where a text copies one that it
//! has not had yet, it says which, and goes on once it has that. What it gives is a list of the `SourceLine`s of `coll_source_lines`,
//! each with its place. What becomes of them is for the crates above. A way through the crate:
//!
//! - `texts`: a text as UTF-8, cut into physical lines;
//! - `conditions`: lines that count only where a name is defined;
//! - `bases`: whether a text that a tailoring copies is the table that is tailored;
//! - `operands`, `weights` and `grammar`: the tokens of a line, read into what it says;
//! - `plain_orders`: most order lines, read where they stand;
//! - `subjects`: what a line is about that is left out;
//! - `names`: names that are looked up;
//! - `readers`: text after text, to the end (`Readers`).
//!
//! What a user of readers needs of the crate below is handed on here.
#![tactic(auto)]

mod bases;
mod conditions;
mod grammar;
mod names;
mod operands;
mod plain_orders;
mod readers;
mod subjects;
mod texts;
mod weights;

pub use coll_source_lines::{Report, SourceFault, SourceLine};
pub use readers::{SourceKind, SourceReader};
