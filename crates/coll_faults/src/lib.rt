//! The faults of all crates below, as one: each has one number and one name everywhere.
//!
//! `faults`: why a line, a block or a statement was refused, and the fault that ends a run; `specs/Faults.antt` has the numbers and the
//! names. It stands by itself, so that what tells faults, as a survey does, doesn't stand on the runs of sessions and batches.
#![tactic(auto)]

mod faults;

pub use faults::{Fault, RunFault};
