//! The text of a delta file, written, and the law that it is read back.
//!
//! A delta file is written of the copies that it names, which have no effect in it, and of its statements. A way through the crate,
//! each file with its definitions in `specs/`:
//!
//! - `delta_texts`: the whole text (`DeltaText`), and the law that it says just these statements (`ReadBack`);
//! - `writable`: what it can be written of, so that this holds (`Writable`).
//!
//! How a statement is spelled is `StatementText` of `coll_texts`, and how a delta file is read `DeltaFiles` of `coll_requests`.
#![tactic(auto)]

mod delta_texts;
mod writable;

pub use delta_texts::{write_delta, written_deltas_are_read_back};
pub use writable::{is_copy_name, is_writable};
