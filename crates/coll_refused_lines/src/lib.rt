//! What a terminal shows of the fault that ended a run: the line at which it stands, which part of that is at fault, and what to do.
//!
//! A batch tells a fault by its line and its number alone. Here the text of that input is surveyed, which finds what the fault is about,
//! and in a block its own line. What is shown is told, and decides nothing: whoever can't show it leaves it out. A way through the crate:
//!
//! - `refused_lines`: what is told of the fault, and how it is written (`RefusedLines`);
//! - `numbered_lines`: a line of a text by its number (`NumberedLines`);
//! - `spelled_places`: where in a line something is spelled (`SpelledPlaces`);
//! - `marked_lines`: a line as a terminal shows it, with a mark (`MarkedLines`).
#![tactic(auto)]

mod marked_lines;
mod numbered_lines;
mod refused_lines;
mod spelled_places;

pub use marked_lines::MarkedLine;
pub use refused_lines::{
    RefusedLine, refused_alone, refused_at, refused_in_delta, refused_in_table, write_refused,
};
