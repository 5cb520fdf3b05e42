//! Look-ups: of nodes by name, by identifier and by text, and of identifiers in a set. Names are found by hash under keys, characters
//! by code point.
//!
//! A look-up says which node of a store of rings a key leads to, and knows nothing of what nodes are or in which ring they stand:
//! whoever has a table keeps its look-ups in step with it. A key that came in stays for good, so that it can lead to a node again
//! without memory. A way through the crate, each file with its definitions in `specs/`:
//!
//! - `hash_keys`: keys, under which no text can choose names that are slow to find (`HashKeys`);
//! - `word_hashing`: a hasher for short keys under keys made of these, a word at a time (`WordHashing`);
//! - `name_keys`, `listed_names` and `node_names`: a name as a key, its place among names, and which node it leads to (`NameKeys`,
//!   `NodeMaps`, `NodeLookUps`);
//! - `char_pages`: which slot a character has (`CharPages`), for nodes by character (`char_nodes`, `CharNodes`) and sets of characters
//!   (`char_sets`, `CharSets`);
//! - `node_ids`: which node an identifier leads to, a name or a character (`NodeLookUps`);
//! - `entry_numbers`: a number for each node (`EntryNumbers`); `name_places`: names with the numbers of their nodes (`NamePlaces`);
//! - `id_sets`, with `names`: which identifiers a block has had, or a source has placed (`IdSets`).
#![tactic(auto)]

mod char_nodes;
mod char_pages;
mod char_sets;
mod entry_numbers;
mod hash_keys;
mod id_sets;
mod listed_names;
mod name_keys;
mod name_places;
mod names;
mod node_ids;
mod node_names;
mod word_hashing;

pub use char_sets::CharSet;
pub use entry_numbers::EntryNumbers;
pub use hash_keys::HashKeys;
pub use id_sets::IdSet;
pub use name_keys::{NameKey, NameText};
pub use name_places::NamePlaces;
pub use node_ids::NodeIds;
pub use node_names::NodeNames;
pub use word_hashing::{WordHasher, WordKeys};
