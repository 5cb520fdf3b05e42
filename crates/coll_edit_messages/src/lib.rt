//! What an edit tells a person beside its replies, on standard error: nothing here writes a reply or changes a history.
//!
//! So no theorem of a run speaks of it, and what is told is shown by tests. A way through the crate:
//!
//! - `typed_lines`: what a typed line is by itself, so that its fault is told where it is typed; `commands`: which command is meant, and
//!   how it is written; `doubts`: what is wrong with a line of a block whatever its other lines say;
//! - `messages`: prompts, and the sentence behind a refusal, with `file_reasons`;
//! - `notes`: what is told of a statement that does less than it seems to; `changes`: of one that is taken back or put again, of which `copies` are kept.
#![tactic(auto)]

mod changes;
mod commands;
mod copies;
mod doubts;
mod file_reasons;
mod messages;
mod notes;
mod typed_lines;

pub use changes::{Asked, Change, Told, asked_of, tell_statement, told_of};
pub use copies::copied_statement;
pub use doubts::Doubt;
pub use file_reasons::FileReason;
pub use messages::{Hint, Origin, Unwritten, hint_for, tell_refusal, tell_unwritten, tell_words};
pub use notes::{Note, tell_note, tell_notes};
pub use typed_lines::{LineFault, TypedLines, Wish};
