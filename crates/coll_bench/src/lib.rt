//! Sessions and batches over a collation table, and what they write.
//!
//! A session: `coll_requests` says which request a physical line completes, if it completes one; the history of `coll_history`
//! judges it, and `replies` answers it. A way through the crate, each file with its definitions in `specs/`:
//!
//! - `kept_ranks` and `ranked_sessions`: ranks and places, kept while the table stays, and a history with them (`Ranked`);
//! - `replies`: the reply to each request (`Replies`, and of a table's listing `Listing`), with `history_reply` for `:history`
//!   and `texts` for `:key` and `:compare`; a batch writes its counts, keys and orders by the same functions;
//! - `serving` for one line and `runs` for a text: a session (`Serving`, `Underway`, `Runs`); who serves more than its lines takes them
//!   one by one (`RunState`);
//! - `batches`: a table and delta files are read, and what is asked of the result is written (`BatchRuns` and those beside it);
//! - `laws`: what follows from these definitions (`Laws`);
//! - `reports`: the line of a fault, and the exit status of the program (`Reports`).
//!
//! What a user needs of the crates below is handed on here.
#![tactic(auto)]

mod batches;
mod kept_ranks;
mod laws;
mod ranked_sessions;
mod replies;
mod reports;
mod runs;
mod serving;

pub use batches::{Batch, TakesStatements, read_delta, read_inputs, run_batch, run_batch_keyed};
pub use coll_faults::{Fault, RunFault};
pub use coll_history::{BenchFault, Session};
pub use laws::{lack_of_memory_shows, refused_lines_change_nothing};
pub use replies::{write_counted, write_history_line, write_told_line};
pub use reports::{exit_status, write_fault};
pub use runs::run_session;
pub use serving::{RunState, write_failed};
