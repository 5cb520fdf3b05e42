//! What differs between the tables in two files is told on standard output.
//!
//! Both are read before anything is written, and the differences are found before that too, so nothing is written where a table has a
//! fault or memory is lacking.

ghost use Rattle.std.specs.Prelude.{◌≡◌, ◌<◌, length, IfErr};

use crate::{read_at, standard_output};
use coll_bench::{Fault, RunFault};
use coll_differences::{Differences, difference, write_difference};
use coll_lex::{LexFault, Sink, WriteStop};
use coll_system::{Input, MeteredSink, ProgressLine, Step, at_no_line, is_output_a_file, open_all};
use coll_table::{HashKeys, Table};
use std::process::ExitCode;

/// The exit status where two tables differ.
const DIFFERENT: u8 = 1;

/// Tells what differs between the table in the first of these files and that in the last, and answers the exit status.
pub(crate) fn tell_differences(
    rt: &HostRuntime,
    keys: HashKeys,
    files: &[&str],
) -> Result<ExitCode, RunFault>
    requires { 0 < length files.now }
    ensures { IfErr result (λ fault. fault.input < length files.now) }
{
    let line = ProgressLine::new(rt);
    let told = tell_by(rt, &line, keys, files);
    line.end();
    told
}

// Tells what differs between the table in the first of these files and that in the last, and a line how far that got.
fn tell_by(
    rt: &HostRuntime,
    line: &ProgressLine<'_>,
    keys: HashKeys,
    files: &[&str],
) -> Result<ExitCode, RunFault>
    requires { 0 < length files.now }
    ensures { IfErr result (λ fault. fault.input < length files.now) }
{
    match open_all(rt, Some(line), files) {
        Ok(mut inputs) => tell_between(rt, line, keys, inputs.as_mut_slice()),
        Err(fault) => Err(fault),
    }
}

// Tells what differs between the table in the first of these inputs and that in the last.
fn tell_between(
    rt: &HostRuntime,
    line: &ProgressLine<'_>,
    keys: HashKeys,
    inputs: &mut [Input<'_>],
) -> Result<ExitCode, RunFault>
    requires { 0 < length inputs.old }
    ensures { IfErr result (λ fault. fault.input < length inputs.old) }
{
    let last = inputs.len() - 1;
    match read_at(rt, keys, inputs, 0) {
        Ok(first) => match read_at(rt, keys, inputs, last) {
            Ok(second) => tell_of(rt, line, &first, &second),
            Err(fault) => Err(fault),
        },
        Err(fault) => Err(fault),
    }
}

// Tells what differs between two tables.
fn tell_of(
    rt: &HostRuntime,
    line: &ProgressLine<'_>,
    first: &Table,
    second: &Table,
) -> Result<ExitCode, RunFault>
    ensures { IfErr result (λ fault. fault.input ≡ 0) }
{
    line.begin(Step::Comparing);
    match difference(rt.alloc(), first, second) {
        Ok(told) => tell(rt, line, &told),
        Err(_) => Err(at_no_line(0, Fault::Lex(LexFault::OutOfMemory))),
    }
}

// Writes what differs to standard output, and answers the exit status once all of it has left the buffer.
fn tell(
    rt: &HostRuntime,
    line: &ProgressLine<'_>,
    told: &Option<Differences<'_>>,
) -> Result<ExitCode, RunFault>
    ensures { IfErr result (λ fault. fault.input ≡ 0) }
{
    match standard_output(rt) {
        Ok(output) => {
            let mut output = MeteredSink::new(output, line, is_output_a_file(rt));
            let wrote = write_difference(&mut output, told);
            let flushed = output.flush();
            drop(output);
            if wrote.is_err() || flushed.is_err() {
                return Err(at_no_line(0, Fault::Write(WriteStop::WriteFault)));
            }
            Ok(match told {
                None => ExitCode::SUCCESS,
                Some(_) => ExitCode::from(DIFFERENT),
            })
        }
        Err(fault) => Err(fault),
    }
}
