//! Tests of the crates below, through their public calls alone.
//!
//! A module shows each crate: `lines` is of `coll_devices` and `coll_lex`, `ordered_rings` of `coll_order`, `grammar` of `coll_syntax`,
//! `tables` of `coll_table`, `keys` and `texts` of `coll_key`, by ranks and by places, `sessions` and `batches` of `coll_requests` and
//! `coll_bench`, `surveys` of `coll_surveys`, `order_lines` of `coll_sources`, `meanings` of `coll_meanings`, `imports` of `coll_import`,
//! and `faults` of the shown text of the faults of all of them. `writes` is of what any of them writes to a device that fails, and
//! `endless` of readers that never end; `growths` says which of them are run with growths of memory refused. `statements` makes statements
//! of their lines, `devices` has the devices that they use, `long_texts` makes their longest texts, `pieces` writes texts in several forms,
//! `random` has the numbers by which others are made, and `assertions` compares what they are given.
//! Expected values come from POSIX.1-2017 (7.3.2), from ISO/IEC 14651 and from docs/, and never from what a program wrote.
//! `surveys`, `order_lines` and `meanings` alone compare two forms of a thing: the fast one tells what the one that reads all of it tells.
//! What only takes a text and gives one is a run of the program, in tests/runs, unless it is a worked example.
//! What no public call shows is proved, and has no test. The crates below have no tests of their own, since a crate with
//! tests is proved twice.
#![tactic(auto)]

#[cfg(test)]
mod assertions;
#[cfg(test)]
mod batches;
#[cfg(test)]
mod devices;
#[cfg(test)]
mod endless;
#[cfg(test)]
mod faults;
#[cfg(test)]
mod grammar;
#[cfg(test)]
mod growths;
#[cfg(test)]
mod imports;
#[cfg(test)]
mod keys;
#[cfg(test)]
mod lines;
#[cfg(test)]
mod long_texts;
#[cfg(test)]
mod meanings;
#[cfg(test)]
mod order_lines;
#[cfg(test)]
mod ordered_rings;
#[cfg(test)]
mod pieces;
#[cfg(test)]
mod random;
#[cfg(test)]
mod sessions;
#[cfg(test)]
mod statements;
#[cfg(test)]
mod surveys;
#[cfg(test)]
mod tables;
#[cfg(test)]
mod texts;
#[cfg(test)]
mod writes;
