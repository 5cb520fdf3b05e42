//! Sessions: their replies, their ends, and the devices that they are read from and written to.

mod device_faults;
mod histories;
mod statements;
pub mod transcripts;
mod worked;

use crate::tables::examples::loaded_lines;
use coll_bench::{RunFault, run_session};
use coll_lex::{Sink, Source};
use std::alloc::Global;
use std::process::Abort;

/// What a session over a table answers.
pub fn run<R: Source, W: Sink>(
    rt: &impl Abort,
    alloc: Global,
    table: &[&str],
    input: &mut R,
    output: &mut W,
) -> Result<(), RunFault> {
    let table = loaded_lines(alloc, table).expect(rt, "a table");
    run_session(alloc, table, input, output)
}
