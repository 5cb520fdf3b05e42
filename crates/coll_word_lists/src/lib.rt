//! The words of an input, one a line: read, kept and written, with their sort keys (`coll_key`) or without.
//!
//! What a sort, a review and a list of words begin with, and what they end with. A way through the crate, each file with its
//! definitions in `specs/`:
//!
//! - `packed_keys`: sort keys in half the memory, in the same order (`PackedKeys`);
//! - `words`: a word with its key, sorted by keys, and written (`KeyedWords`, `LedWords`, `SortedWords`);
//! - `reading`: the words of an input with their keys (`Words`, `WordReading`), and `word_texts`: without keys (`WordTexts`), put into
//!   what `taking_texts` says;
//! - `stored_texts`: many texts in one block of memory (`StoredTexts`).
//!
//! What a sort writes (`SortRuns`), and which number a word has in a list (`NumberedWords`, `Neighbours`), is said here for all of them.
#![tactic(auto)]

mod packed_keys;
mod reading;
mod stored_texts;
mod taking_texts;
mod word_texts;
mod words;

pub use packed_keys::{
    packed_key, packed_keys_are_ordered_alike, short_number, with_packed, with_packed_key,
    with_room, with_short,
};
pub use reading::{fault_at, no_memory, read_words};
pub use stored_texts::{StoredTexts, TextPlace, text_of};
pub use word_texts::{read_stored_texts, read_texts};
pub use words::{Word, sort_by_keys, write_words};
