//! The history of a table: statements, each accepted or refused, and what is taken back, put again and withdrawn.
//!
//! A `Session` keeps a table with a record for each statement that was accepted. A way through the crate, each file with its
//! definitions in `specs/`:
//!
//! - `histories`: a table with its history (`Histories`, `Replay`, and of what is kept `Kept`);
//! - `following`: places of entries that are handed over, and follow the table (`Following`);
//! - `withdrawing`: a statement withdrawn from the middle (`Withdrawal`, and of the way there `Withdrawing`);
//! - `laws`: what follows from the definitions (`Laws`);
//! - `history_faults` and `limits`: why a history refuses, and how many statements remain at most (`HistoryFaults`, `Limits`).
#![tactic(auto)]

mod following;
mod histories;
mod history_faults;
mod laws;
mod limits;
mod withdrawing;

pub use histories::Session;
pub use history_faults::BenchFault;
pub use laws::undo_restores;
pub use limits::limits_are_stated;
