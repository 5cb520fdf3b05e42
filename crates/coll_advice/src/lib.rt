//! What a fault is about, and what to do.
//!
//! A table answers a statement that it refuses with one number. Here all that is wrong with the statement is found, line by line, with
//! the identifier that each fault is about; a fault by its number has a name and a sentence that says what to do; and for a name that
//! isn't declared, or that no section has, the nearest one can be looked for. A way through the crate:
//!
//! - `found`: a fault, with its line and its identifier;
//! - `identifiers`: identifiers by their own names, and whether they are known and placed;
//! - `lines`: what is wrong with an order line (`LineFaults`);
//! - `blocks` and `statements`: all faults of a statement, and the first with a refusal (`Faults`);
//! - `sentences` and `spelled_names`: the name and the sentence of each number (`FaultNumbers`), and of what isn't declared what its
//!   spelling shows;
//! - `near_names`, `near_sections`, `edits` and `texts`: the declared name, and the name of a section, that is nearest to another
//!   (`NearNames`); `meant_names`: which of them a fault by its number may be about (`MeantNames`);
//! - `advice_lines`: what is written of a fault behind its number and name (`AdviceLines`).
#![tactic(auto)]

mod advice_lines;
mod blocks;
mod edits;
mod found;
mod identifiers;
mod lines;
mod meant_names;
mod near_names;
mod near_sections;
mod sentences;
mod spelled_names;
mod statements;
mod texts;

pub use advice_lines::write_advice;
pub use found::Found;
pub use identifiers::{copied_own_id, is_placed};
pub use meant_names::{may_be_mistyped, meant_name};
pub use near_names::{is_near, nearest_name};
pub use near_sections::nearest_section;
pub use sentences::{Advice, advice_of};
pub use spelled_names::sentence_for;
pub use statements::{faults_of, subject_of};
