//! Words, one a line, in the order of a collation table: their sort.
//!
//! The words are all read first, and then get what they are sorted by first, mostly the first level of their keys. So to sort words is
//! to sort lists of numbers: no comparison of a sort looks at the table again, and none can fail. A way through the crate, each file with
//! its definitions in `specs/`:
//!
//! - `sorting`: the words of an input are sorted, and written (`SortRuns` of `coll_word_lists`);
//! - `sort_keys`, what gives what they are sorted by (`SortKeys`): `first_keys` by the ranks of a table (`FirstKeys`), or `letter_keys` by
//!   what their characters, and the elements in them, weigh (`LetterKeys`), which `text_letters` gathers;
//! - `stored_words`, the words with what they are sorted by first (`StoredWords`); `key_leads`, what these keys begin with as one number
//!   (`KeyLeads`); `lent_words`, which are sorted (`LentWords`); and `tied_words`, which are sorted by their whole keys.
//!
//! What a caller needs of words stands here whole: their lists (`coll_word_lists`) and their review (`coll_reviews`) are handed on.
#![tactic(auto)]

mod first_keys;
mod key_leads;
mod lent_words;
mod letter_keys;
mod sort_keys;
mod sorting;
mod stored_words;
mod text_letters;
mod tied_words;

pub use coll_reviews::{Progress, review_words};
pub use coll_word_lists::{
    Word, packed_keys_are_ordered_alike, read_texts, read_words, sort_by_keys, write_words,
};
pub use sorting::sort_lines;
