//! Batches: what is written for a table and its delta files, or the line that tells the first fault, and the exit status.

pub mod asked;
mod device_faults;
pub mod runs;

use crate::assertions::{assert_same, assert_text};
use crate::devices::{SMALL, Script, ShortReader};
use crate::statements::Lines;
use crate::tables::examples::{BASE_TABLE, Change, push_lines};
use asked::{Asked, assert_told};
use coll_bench::{Batch, RunFault, exit_status, run_batch};
use coll_lex::{Counted, Sink};
use std::alloc::Global;
use std::process::Abort;

/// A delta file that moves an entry of the base table.
pub const C_BEHIND_A: &str =
    "escape_char /\ncomment_char %\nLC_COLLATE\nreorder-after <U0061>\n<U0063>\nreorder-end\nEND LC_COLLATE\n";

/// How an input of a batch is read: of the one with a number by this script, and of the others three bytes at a time.
#[derive(Clone, Copy)]
pub struct InputRead {
    pub input: usize,
    pub script: Script,
}

/// No read that fails.
pub const NONE_FAILS: InputRead = InputRead {
    input: 0,
    script: SMALL,
};

/// What a batch writes.
pub enum Output {
    /// These lines.
    Lines(Lines),
    /// The lines of the base table with a change.
    Base(Change),
}

impl Output {
    /// The text that is written.
    pub fn text(&self, rt: &impl Abort, alloc: Global) -> Vec<u8> {
        let mut text = Vec::new(alloc);
        match self {
            Output::Lines(lines) => push_lines(rt, &mut text, lines),
            Output::Base(change) => change.push(rt, &mut text, BASE_TABLE),
        }
        text
    }
}

// A reader of an input.
fn reader(text: &[u8], input: usize, read: InputRead) -> Counted<ShortReader<'_>> {
    let script = if input == read.input {
        read.script
    } else {
        SMALL
    };
    Counted::new(ShortReader::scripted(text, script))
}

/// What a batch over a table and delta files answers.
pub fn run<W: Sink>(
    rt: &impl Abort,
    alloc: Global,
    batch: Batch,
    table: &[u8],
    deltas: &[&str],
    read: InputRead,
    output: &mut W,
) -> Result<(), RunFault> {
    let mut readers = Vec::new(alloc);
    for (input, text) in (1..).zip(deltas) {
        let delta = reader(text.as_bytes(), input, read);
        readers.push(delta).expect(rt, "room");
    }
    let mut table = reader(table, 0, read);
    run_batch(alloc, batch, &mut table, readers.as_mut_slice(), output)
}

// The status of a run.
fn status(answer: &Result<(), RunFault>) -> u8 {
    match answer {
        Ok(()) => 0,
        Err(ended) => exit_status(&ended.fault),
    }
}

/// The inputs of a batch: the texts of a table and of delta files, and how they are read.
#[derive(Clone, Copy)]
pub struct Inputs<'a> {
    pub table: &'a [u8],
    pub deltas: &'a [&'a str],
    pub read: InputRead,
}

// Asserts what a batch answers and writes: the status, the output, and the line that tells the fault, if there is one.
fn assert_batch(
    rt: &impl Abort,
    alloc: Global,
    asked: &Asked,
    inputs: Inputs<'_>,
    wanted: (u8, &[u8], &str),
) {
    let Inputs {
        table,
        deltas,
        read,
    } = inputs;
    let (wanted_status, wanted_output, line) = wanted;
    let mut output = Vec::new(alloc);
    let mut taken = Counted::new(&mut output);
    let batch = asked.batch(rt, alloc);
    let answer = run(rt, alloc, batch, table, deltas, read, &mut taken);
    drop(taken);
    assert_same(rt, line, status(&answer), wanted_status);
    assert_text(rt, alloc, output.as_slice(), wanted_output);
    assert_told(rt, alloc, answer, line);
}
