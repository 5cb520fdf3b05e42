//! Tables of a collation order, and the statements that rewrite them.
//!
//! A `Table` is read by `load`, or by a `Loader` line by line, and rewritten by `apply`, which gives a `Record` that `flip` turns
//! back. It stands on `coll_nodes`, which keeps what a table is made of, on `coll_texts`, which judges the lines of a table text
//! and spells the canonical one, and on `coll_statements`, which takes a statement by own names; what a user of tables needs of
//! them is handed on here. A way through the crate, each file with its definitions in `specs/`:
//!
//! - `tables`: a table, read, printed and exported;
//! - `loaders` and `loading`: a text, read line by line (`SoundLoaders`, `Loads`);
//! - `deltas`, with `deltas/judging` and `deltas/preparing`, and `refusals`: a statement, judged, prepared and
//!   applied (`OwnStatements`, `Delta`, `Judging`, `Prepared`, `Growth`, `StatementItems`, `Applied`, `Refusals`);
//! - `records`, `turning` and `record_laws`: a statement, taken back and done again (`Turning`, `Record`, `RecordLaws`);
//! - `following`: places of entries, kept beside a table, that follow a record (`Following`).
#![tactic(auto)]

mod deltas;
mod following;
mod loaders;
mod loading;
mod record_laws;
mod records;
mod refusals;
mod tables;
mod turning;

pub use coll_lookups::{EntryNumbers, HashKeys, NamePlaces};
pub use coll_nodes::{Declaration, Declared, DeclaredItem, Entry, Walk, WalkItem};
pub use coll_statements::second_names_are_not_placed;
pub use coll_texts::{
    LoadCause, LoadFault, exported_tables_are_read_back, printed_tables_are_read_back,
};
pub use loaders::{Loader, lines_are_read};
pub use loading::{load, load_keyed, texts_are_well_formed};
pub use record_laws::{
    lemma_records_add_alike, lemma_records_fit_narrower, lemma_records_fit_where_named,
    lemma_records_fit_wider, lemma_records_turn_back, lemma_undone_records_put_in,
    lemma_wider_tables_are_numbered_alike, lemma_wider_tables_read_alike,
};
pub use records::{Item, Record};
pub use refusals::Refusal;
pub use tables::Table;
