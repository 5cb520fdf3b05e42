//! The lines of standard input are sorted by a table, which delta files may rewrite.

ghost use Rattle.std.specs.Prelude.{◌≡◌, ◌<◌, length, IfErr};

use crate::standard_input::ServesLines;
use crate::{read_table, standard_output};
use coll_bench::{Fault, RunFault};
use coll_lex::{Counted, Sink, WriteStop};
use coll_system::{
    MeteredSink, MeteredSource, ProgressLine, Step, at_no_line, is_output_a_file, line_for,
    standard_input_size,
};
use coll_table::{HashKeys, Table};
use coll_words::sort_lines;
use std::io::Stdin;

/// A sort by the table in the first of some files, rewritten by the others.
#[derive(Drop)]
pub(crate) struct SortBy {
    table: Table,
}

impl ServesLines for SortBy {
    fn begin(
        rt: &HostRuntime,
        line: &ProgressLine<'_>,
        keys: HashKeys,
        files: &[&str],
    ) -> Result<SortBy, RunFault> {
        match read_table(rt, Some(line), keys, files) {
            Ok(table) => Ok(SortBy { table }),
            Err(fault) => Err(fault),
        }
    }

    fn serve(self, rt: &HostRuntime, line: &ProgressLine<'_>) -> Result<(), RunFault> {
        let sorted = sort_standard_input(rt, line, &self.table);
        drop(self);
        sorted
    }
}

// Sorts the lines of standard input by a table, to standard output. What it wrote has left the buffer in the end; where that fails, it is
// the fault.
fn sort_standard_input(
    rt: &HostRuntime,
    line: &ProgressLine<'_>,
    table: &Table,
) -> Result<(), RunFault>
    ensures { IfErr result (λ fault. fault.input ≡ 0) }
{
    match standard_output(rt) {
        Ok(output) => {
            let mut output = MeteredSink::new(output, line, is_output_a_file(rt));
            let mut lines = standard_input(rt, line);
            let sorted = sort_lines(rt.alloc(), table, &mut lines, &mut output);
            drop(lines);
            let flushed = output.flush();
            drop(output);
            match flushed {
                Ok(()) => sorted,
                Err(_) => Err(at_no_line(0, Fault::Write(WriteStop::WriteFault))),
            }
        }
        Err(fault) => Err(fault),
    }
}

// Standard input, whose lines are sorted once all are read.
fn standard_input<'a>(
    rt: &HostRuntime,
    line: &'a ProgressLine<'a>,
) -> MeteredSource<'a, Counted<Stdin>> {
    let input = rt.stdin();
    let line = line_for(&input, Some(line));
    let mut lines = MeteredSource::new(Counted::new(input), line, standard_input_size(rt));
    lines.lead_to(Step::Sorting);
    lines
}
