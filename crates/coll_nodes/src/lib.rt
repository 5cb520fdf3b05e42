//! A table as nodes in rings: what it declares, its sections and their entries.
//!
//! A `Body` keeps what a table is made of. It is read by look-ups and by walks, and changed node by node; which changes a statement
//! makes, and which tables may be read, is for the crates above. A way through the crate, each file with its definitions in
//! `specs/`:
//!
//! - `declarations`, `entries` and `limits`: what a table is made of (`Table`, `Entries`, `WellFormed`, `Limits`, `Placement`);
//! - `contents` and `nodes`: rings of nodes, and what each node is (`TableLayout`, `Bodies`, `Moving`);
//! - `node_keys`: which node has a name, a string or an identifier, by the look-ups of `coll_lookups` (`KeyedNodes`);
//! - `bodies`, `bodies/own_names` and `bodies/linking`: the whole, with its look-ups and `counts`, what names stand for, and what
//!   is put in, moved and taken out (`SoundBodies`, `SoundLayouts`, `BodyInvariant`, `Counting`, `OwnNames`, `Linking`);
//! - `walks` and `visited_nodes`: a body, read in order (`Walks`, `WalkStates`, `WalkItems`); `neighbours` and
//!   `bodies/neighbouring`: what stands beside an entry;
//! - `numbered_rings` and `bodies/numbering`: the places of entries, kept beside a body, and those of names, kept apart from it
//!   (`NodeNumbers`); `bodies/elements`: elements by their strings (`ElementTexts`);
//! - and, for all who judge lines and statements, `Causes`.
#![tactic(auto)]

mod bodies;
mod contents;
mod counts;
mod declarations;
mod entries;
mod limits;
mod neighbours;
mod node_keys;
mod nodes;
mod numbered_rings;
mod visited_nodes;
mod walks;

pub use bodies::Body;
pub use contents::Content;
pub use declarations::Declaration;
pub use entries::Entry;
pub use limits::{MOST_DECLARATIONS, MOST_ENTRIES, MOST_SECTIONS, limits_are_stated};
pub use walks::{Declared, DeclaredItem, Walk, WalkItem};
