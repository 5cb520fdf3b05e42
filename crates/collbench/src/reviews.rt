//! The statements of a delta file are put to a table one by one, and what each did to a file of words is told on standard output.
//!
//! All files are read before anything is written, so nothing is written where one has a fault or memory is lacking.

ghost use Rattle.std.specs.Prelude.{◌<◌, ◌≤◌, length, IfErr};

use crate::{Output, read_at, standard_output};
use coll_bench::{Fault, RunFault};
use coll_lex::{ReadStop, Sink, WriteStop};
use coll_reviews::{Progress, review_words};
use coll_system::{Input, MeteredSink, ProgressLine, Step, at_no_line, is_output_a_file, open_all};
use coll_table::{HashKeys, Table};

/// Tells what the statements of a delta file do to words: the first of these files has the table, the second the statements, the
/// third the words.
pub(crate) fn review(rt: &HostRuntime, keys: HashKeys, files: &[&str]) -> Result<(), RunFault>
    requires { 0 < length files.now }
    ensures { IfErr result (λ fault. fault.input < length files.now) }
{
    let line = ProgressLine::new(rt);
    let reviewed = review_by(rt, &line, keys, files);
    line.end();
    reviewed
}

// Tells what the statements of a delta file do to words, and a line how far that got.
fn review_by(
    rt: &HostRuntime,
    line: &ProgressLine<'_>,
    keys: HashKeys,
    files: &[&str],
) -> Result<(), RunFault>
    requires { 0 < length files.now }
    ensures { IfErr result (λ fault. fault.input < length files.now) }
{
    match open_all(rt, Some(line), files) {
        Ok(mut inputs) => review_opened(rt, line, keys, inputs.as_mut_slice()),
        Err(fault) => Err(fault),
    }
}

// Tells what the statements in the second of these inputs do to the words in the third. The command line gives no fewer.
fn review_opened(
    rt: &HostRuntime,
    line: &ProgressLine<'_>,
    keys: HashKeys,
    inputs: &mut [Input<'_>],
) -> Result<(), RunFault>
    requires { 0 < length inputs.old }
    ensures { IfErr result (λ fault. fault.input < length inputs.old) }
{
    if inputs.len() < 3 {
        return Err(at_no_line(0, Fault::Read(ReadStop::ReadFault)));
    }
    match read_at(rt, keys, inputs, 0) {
        Ok(table) => match standard_output(rt) {
            Ok(output) => {
                let mut output = MeteredSink::new(output, line, is_output_a_file(rt));
                review_to(rt, line, table, inputs, &mut output)
            }
            Err(fault) => {
                drop(table);
                Err(fault)
            }
        },
        Err(fault) => Err(fault),
    }
}

// Tells on an output what the statements in the second of these inputs do to a table and the words in the third. What was written has left
// the buffer in the end; where that fails, it is the fault.
fn review_to(
    rt: &HostRuntime,
    line: &ProgressLine<'_>,
    table: Table,
    inputs: &mut [Input<'_>],
    output: &mut MeteredSink<'_, Output>,
) -> Result<(), RunFault>
    requires { 3 ≤ length inputs.old }
    ensures { IfErr result (λ fault. fault.input < length inputs.old) }
{
    let (before, words) = inputs.split_at_mut(2);
    // The statements of the delta file are told, and not its bytes.
    before[1].hush();
    words[0].lead_to(Step::Sorting);
    let told = review_words(
        rt.alloc(),
        table,
        &mut before[1],
        &mut words[0],
        output,
        Statements { line },
    );
    match output.flush() {
        Ok(()) => told,
        Err(_) => Err(at_no_line(0, Fault::Write(WriteStop::WriteFault))),
    }
}

// The line that is told how many statements were put.
#[derive(Clone, Copy)]
struct Statements<'a> {
    line: &'a ProgressLine<'a>,
}

impl Progress for Statements<'_> {
    fn put(&mut self, count: u32) {
        self.line.tell(Step::Statement(count));
    }
}
