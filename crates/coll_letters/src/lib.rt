//! What the characters of texts weigh in a collation table, and the strings in them that are collating elements, and the order of two
//! texts by that alone.
//!
//! No ranks of the whole table are made. A way through the crate, each file with its definitions in `specs/`:
//!
//! - `element_marks`: which characters stand first in the string of an element, and which two (`ElementMarks`); `first_pieces`: with what
//!   element a text begins (`FirstPieces`);
//! - `text_pieces`: the characters and strings of texts, gathered; `piece_rows`: the row of each (`PieceRows`); `string_rows`: how what is
//!   known of a string is found (`StringRows`);
//! - `letter_weights`: what characters and strings weigh, and two texts compared by it (`LetterWeights`), mostly by the single numbers that
//!   characters have at the first level (`first_numbers`, `FirstNumbers`, `FirstOrders`), and else by all that they have at a level
//!   (`level_numbers`, `LevelNumbers`; from the back `back_numbers`, `BackNumbers`), or by what is ignored (`alike_levels`, `AlikeLevels`).
#![tactic(auto)]

mod alike_levels;
mod back_numbers;
mod element_marks;
mod first_numbers;
mod first_pieces;
mod letter_weights;
mod level_numbers;
mod piece_rows;
mod string_rows;
mod text_pieces;

pub use element_marks::ElementMarks;
pub use first_numbers::{FirstOrder, SeenFirst};
pub use letter_weights::{
    FirstLetter, LetterRow, LetterWeights, most_letters, number_of, split_first_char,
};
pub use text_pieces::{PieceText, TextPieces};
