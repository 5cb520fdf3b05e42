//! Published locale sources, made into tables.
//!
//! A published source has what the language of tables leaves out. What a `SourceReader` has read of one is put in order here, so that
//! a table says it: what is declared, the sections with their entries, and the weights by what is placed. What the lines mean is for
//! coll_meanings. The table is built by the builder that reads tables, so it is well formed, and it is printed as every table is, so
//! that what is printed loads. What of the source each line became is told, and shown by tests alone. A way through the crate:
//!
//! - `rules`: the rules that the table has;
//! - `orders`: the sections and entries, none placed twice;
//! - `placing`: order line after order line, into these;
//! - `building`, with `proper_lines`: the table, built of all that (`Building`);
//! - `reports`: what is told of it (`ReportText`).
//!
//! And the way back: `exports` has what is told of a table that is exported (`Exports`). The exported text itself is for coll_texts.
#![tactic(auto)]

mod building;
mod exports;
mod orders;
mod placing;
mod proper_lines;
mod reports;
mod rules;

pub use building::import_table;
pub use exports::write_symbols_behind;
pub use reports::{write_report, write_source_fault};
