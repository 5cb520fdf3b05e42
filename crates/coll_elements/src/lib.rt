//! The collating elements that a table places, each with its rank, found by what a text begins with.
//!
//! `PlacedElements` are made of a table once and asked often; `split_text` looks up the elements of one text by themselves, where
//! that isn't worth its time. A way through the crate, each file with its definitions in `specs/`:
//!
//! - `table_elements`: the elements of a table, taken from its declarations (`Elements`, `Rank`, `RankedElements`, `TableElements`);
//! - `name_numbers` and `named_elements`: how they are kept, each with its name, in the order of their declarations (`NameMaps`,
//!   `NamedElements`);
//! - `code_points`, `element_order` and `placed_elements`: how the longest that a text begins with is found, in the order of their
//!   strings (`ElementOrder`);
//! - `element_entries`: the elements of one text, each with its entry (`ElementEntries`).
#![tactic(auto)]

mod code_points;
mod element_entries;
mod element_order;
mod name_numbers;
mod named_elements;
mod placed_elements;
mod table_elements;

pub use code_points::CodePoints;
pub use element_entries::{ElementEntry, split_text};
pub use named_elements::FoundElement;
pub use placed_elements::PlacedElements;
pub use table_elements::ranked_elements;
