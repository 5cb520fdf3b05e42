//! Batches whose inputs fail to be read. That what is written to an output that fails is a prefix, `writes` shows.

use super::asked::Asked;
use super::runs::{BASE_LISTING, PRINTED};
use super::{C_BEHIND_A, InputRead, Inputs, Output, assert_batch};
use crate::devices::{FAILED_READS, Script, Step};
use crate::tables::examples::{BASE_TABLE, text_of};
use std::alloc::Global;
use std::process::Abort;

// A batch, its delta files and its output, and its inputs.
struct Read {
    asked: Asked,
    deltas: &'static [&'static str],
    output: Output,
    inputs: &'static [InputReads],
}

// An input, how many reads give its text to the last line feed, and the line that tells the fault of each.
struct InputReads {
    input: usize,
    reads: usize,
    line: &'static str,
}

impl Read {
    // The inputs, of which one is read by this script.
    fn inputs<'a>(&self, table: &'a [u8], input: usize, script: Script) -> Inputs<'a> {
        Inputs {
            table,
            deltas: self.deltas,
            read: InputRead { input, script },
        }
    }
}

const OF_TABLE: InputReads = InputReads {
    input: 0,
    reads: 147,
    line: "B.txt:0: 67 ReadFault\n",
};

const OF_DELTA: InputReads = InputReads {
    input: 1,
    reads: 33,
    line: "D.txt:0: 67 ReadFault\n",
};

const READS: &[Read] = &[
    Read {
        asked: Asked::Compile,
        deltas: &[],
        output: Output::Lines(BASE_LISTING),
        inputs: &[OF_TABLE],
    },
    Read {
        asked: Asked::Print,
        deltas: &[C_BEHIND_A],
        output: PRINTED,
        inputs: &[OF_TABLE, OF_DELTA],
    },
];

// Asserts that each read of an input is the fault where it fails, and that no further one is made.
fn assert_reads(
    rt: &impl Abort,
    alloc: Global,
    row: &Read,
    of: &InputReads,
    table: &[u8],
    fails: Step,
) {
    for at in 1..=of.reads {
        let inputs = row.inputs(table, of.input, Script::ButFor(at, fails));
        assert_batch(rt, alloc, &row.asked, inputs, (2, b"", of.line));
    }
    let behind = Script::ButFor(of.reads.saturating_add(1), fails);
    let inputs = row.inputs(table, of.input, behind);
    let output = row.output.text(rt, alloc);
    assert_batch(rt, alloc, &row.asked, inputs, (0, &output, ""));
}

fn assert_input(rt: &impl Abort, alloc: Global, row: &Read, of: &InputReads, table: &[u8]) {
    for fails in FAILED_READS {
        assert_reads(rt, alloc, row, of, table, *fails);
    }
}

fn assert_row(rt: &impl Abort, alloc: Global, row: &Read, table: &[u8]) {
    for of in row.inputs {
        assert_input(rt, alloc, row, of, table);
    }
}

#[test]
fn a_read_that_fails_is_the_fault_of_its_input(rt: HostRuntime) {
    let table = text_of(&rt, rt.alloc(), BASE_TABLE);
    for row in READS {
        assert_row(&rt, rt.alloc(), row, &table);
    }
}
