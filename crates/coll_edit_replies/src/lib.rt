//! What the lines of an edit are answered that ask for nothing but a table, a history and a file of words.
//!
//! Each reply is written over the value that the statements so far give, so nothing here knows of typed lines, and none changes a history.
//! A way through the crate:
//!
//! - `replies`: words that replies share;
//! - `showing`: an entry with its neighbours (`Showing`); `statements`: the statements that remain, as a delta file;
//! - `word_lists`: words in the order now, marked where the last statement changed their neighbours (`WordLists`, `ToldLists`), with
//!   `word_keys`: what they are sorted by (`WordKeys`);
//! - `help`: the lines that may be typed, and what a number means (`Help`).
#![tactic(auto)]

mod help;
mod replies;
mod showing;
mod statements;
mod word_keys;
mod word_lists;

pub use help::{write_help, write_number_help};
pub use replies::{flush, write_count, write_refusal};
pub use showing::write_shown;
pub use statements::write_statements;
pub use word_keys::are_few;
pub use word_lists::write_words;
