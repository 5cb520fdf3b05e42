//! Sort keys and comparison of texts by the ranks of a collation table, and the table's compiled listing.
//!
//! It stands on `coll_ranks`, which compiles a table once; `key` and `compare` answer from these `Ranks`, which are handed on here.
//! `key_of_text` and `compare_texts` answer without them, for short texts of a table that changes.
//! A way through the crate, each file with its definitions in `specs/`:
//!
//! - `element_rows` and `levels`: the elements of a text, kept, and the list of a level (`LevelList`);
//! - `forward_numbers`: the numbers of a text at a forward level, one after another (`ForwardNumbers`);
//! - `keys`, `comparison` and `written_keys`: what they are for (`SortKey`, `TextOrder`, `WrittenKey`);
//! - `text_keys`: keys and comparison of short texts, by a table whose entries are numbered;
//! - `row_keys`: keys by rows that a caller keeps (`RowKeys`);
//! - `listing`: the compiled listing (`CompiledListing`, `ListingParts`);
//! - `key_faults` and `limits`: why a text has no key (`KeyFaults`, `KeyLimits`).
#![tactic(auto)]

mod comparison;
mod element_rows;
mod forward_numbers;
mod key_faults;
mod keys;
mod levels;
mod limits;
mod listing;
mod row_keys;
mod text_keys;
mod written_keys;

pub use coll_lookups::EntryNumbers;
pub use coll_ranks::Ranks;
pub use comparison::compare;
pub use key_faults::KeyFault;
pub use keys::{key, keys_are_ordered_as_texts};
pub use limits::{MOST_TEXT_CHARACTERS, RANK_STEP, is_too_long, limits_are_stated};
pub use listing::write_compiled;
pub use row_keys::key_by_rows;
pub use text_keys::{compare_texts, key_of_text};
pub use written_keys::write_key;
