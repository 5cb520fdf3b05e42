//! The text of a table, read and printed.
//!
//! A `TableBuilder` takes the lines that `coll_syntax` reads, each judged by those before it, and gives the rules and the body of
//! the table that they say. What is written of a table is its canonical text, or the one that `localedef` takes, and both are read
//! back. A way through the crate, each file with its definitions in `specs/`:
//!
//! - `load_faults`: why a table text is refused (`LoadFaults`);
//! - `body_builder`: a body that grows (`Building`);
//! - `own_weights`: the weights of all entries by own names, where the category ends (`OwnWeights`);
//! - `table_builder`: the lines, judged (`BuilderStates`, `SoundStates`);
//! - `spelled_entries` and `spelled_lines`: how an entry is spelled, and each other line (`CanonicalText`, `PrintedParts`);
//! - `canonical_texts`: the whole text, and the law that a printed table is read back;
//! - `exported_texts`: the text that `localedef` takes, and the same law of it (`ExportedText`, `ExportedParts`);
//! - `statement_texts`: the lines of a statement, as a delta file has them (`StatementText`);
//! - `weighed_entries`: an entry with all its weights written out, for a person (`WeighedEntries`);
//! - `pieces`: lines that are written piece by piece, here and in the crates above (`Pieces`).
//!
//! What a whole text says is defined here as well, for all who speak of it (`Loading`, `Reading`).
#![tactic(auto)]

mod body_builder;
mod canonical_texts;
mod exported_texts;
mod load_faults;
mod own_weights;
mod pieces;
mod spelled_entries;
mod spelled_lines;
mod statement_texts;
mod table_builder;
mod weighed_entries;

pub use canonical_texts::{printed_tables_are_read_back, write_table};
pub use exported_texts::{exported_tables_are_read_back, write_exported};
pub use load_faults::{LoadCause, LoadFault};
pub use pieces::{Piece, write_number, write_pieces};
pub use spelled_entries::write_id;
pub use spelled_lines::write_text;
pub use statement_texts::write_statement;
pub use table_builder::TableBuilder;
pub use weighed_entries::write_weighed;
