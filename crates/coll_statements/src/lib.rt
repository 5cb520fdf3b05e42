//! What lines and statements give, before a table judges it: by own names, and with the weights that an entry keeps.
//!
//! A statement may name a symbol by a second name. A table judges and keeps own names alone, so a statement is made one of own
//! names first, by what a body of nodes declares. A way through the crate:
//!
//! - `own_names`: identifiers and weights by own names (`OwnNames` of coll_nodes, `SecondNames`);
//! - `own_statements`: a statement by own names (`OwnStatements`);
//! - `line_weights`: the weights that an entry keeps of those that its line gives (`Entries` of coll_nodes).
#![tactic(auto)]

mod line_weights;
mod own_names;
mod own_statements;

pub use line_weights::{copied_weights, given_len, kept_weights, name_the_same, names_only};
pub use own_names::{names_second, own_weights, second_names_are_not_placed};
pub use own_statements::by_own_names;
