//! The names of a published source: what each means, and what is declared.
//!
//! What a `SourceReader` has read of a source names symbols, elements and characters. A name means what its first declaration says, or
//! what the table that is tailored says of it; what is made of a source asks here, so this stands once, and nothing here says what becomes
//! of a weight or an order line. A way through the crate:
//!
//! - `source_statements`: what is made of the lines of a source, with its place (`LeftOut`);
//! - `known_names`: what is known of each name, found by hash or at a guess;
//! - `declared_names`: what each name of a source means, and what is declared, over a table or over none; `table_names` asks the table;
//! - `placed`: what an order places, by what was found of it.
#![tactic(auto)]

mod declared_names;
mod known_names;
mod placed;
mod source_statements;
mod table_names;

pub use declared_names::DeclaredNames;
pub use known_names::{KnownNames, NameGuess};
pub use placed::{Found, Placed};
pub use source_statements::{DeclaredRange, SourceStatement, lose_statement, proper_line};
