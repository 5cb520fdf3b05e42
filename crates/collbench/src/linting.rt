//! All that is wrong with a table, or with a delta file for it, is told on standard output.
//!
//! Both files are opened before any is read, and read whole before anything is written. What ends a run before that, a device or lack of
//! memory, is told on standard error as for the other subcommands, with the reason of the system where it gives one.

ghost use Rattle.std.specs.Prelude.{◌≡◌, ◌<◌, length};

use coll_bench::{Fault, RunFault, exit_status};
use coll_lex::{ReadStop, Sink, WriteStop};
use coll_lint::{Progress, keep_text, lint_watched};
use coll_system::{
    MeteredSink, MeteredSource, ProgressLine, Reasoned, ReasonedOutput, Step, at_no_line,
    file_size, is_output_a_file, line_for, reasoned_output, told_reason,
};
use coll_table::HashKeys;
use std::fs::File;
use std::io::ErrorKind;
use std::process::ExitCode;

// The exit status where a text has a fault.
const AT_FAULT: u8 = 1;

// What reading and writing came to: whether there is a fault, or what ended the run, and why.
type Linted = Result<bool, Refused>;

// What ended a run, with the reason of the system where it gave one.
#[derive(Drop)]
struct Refused {
    fault: RunFault,
    reason: Option<ErrorKind>,
}

/// Tells all that is wrong with the table in the first of these files, and with the delta file in the second, if there is one.
pub(crate) fn lint_files(
    rt: &HostRuntime,
    keys: HashKeys,
    files: &[&str],
    names: &[String],
) -> ExitCode
    requires { 0 < length files.now }
{
    let line = ProgressLine::new(rt);
    let linted = open_and_lint(rt, &line, keys, files, names);
    line.end();
    match linted {
        Ok(true) => ExitCode::from(AT_FAULT),
        Ok(false) => ExitCode::SUCCESS,
        Err(refused) => tell_refused(rt, &refused, names),
    }
}

// Tells what ended a run on standard error, and answers the exit status.
fn tell_refused(rt: &HostRuntime, refused: &Refused, names: &[String]) -> ExitCode {
    let name = match names.get(refused.fault.input) {
        Some(name) => name.as_str(),
        None => "-",
    };
    let line = refused.fault.line;
    let fault = refused.fault.fault;
    let _ = match told_reason(refused.reason) {
        Some(words) => eprintln!(rt; "{name}:{line}: {fault}: {words}"),
        None => eprintln!(rt; "{name}:{line}: {fault}"),
    };
    ExitCode::from(exit_status(&fault))
}

// Opens the files and reads them, and tells all that is wrong with them.
fn open_and_lint(
    rt: &HostRuntime,
    line: &ProgressLine<'_>,
    keys: HashKeys,
    files: &[&str],
    names: &[String],
) -> Linted
    requires { 0 < length files.now }
{
    let mut table = open(rt, line, 0, files[0])?;
    match files.get(1) {
        Some(file) => {
            let mut delta = open(rt, line, 1, *file)?;
            let table = keep(rt, 0, &mut table)?;
            let delta = keep(rt, 1, &mut delta)?;
            let (table, delta) = (table.as_slice(), Some(delta.as_slice()));
            lint_to_standard_output(rt, line, keys, table, delta, names)
        }
        None => {
            let table = keep(rt, 0, &mut table)?;
            lint_to_standard_output(rt, line, keys, table.as_slice(), None, names)
        }
    }
}

// A file that is read, with why that fails.
type Opened<'a> = MeteredSource<'a, Reasoned<File>>;

// Opens the file of an input, whose bytes this line is told of.
fn open<'a>(
    rt: &HostRuntime,
    line: &'a ProgressLine<'a>,
    input: usize,
    name: &str,
) -> Result<Opened<'a>, Refused> {
    match File::open(rt, name) {
        Ok(file) => {
            let (line, size) = (line_for(&file, Some(line)), file_size(&file));
            Ok(MeteredSource::new(Reasoned::new(file), line, size))
        }
        Err(error) => Err(Refused {
            fault: at_no_line(input, Fault::Read(ReadStop::ReadFault)),
            reason: Some(error.kind()),
        }),
    }
}

// Reads the file of an input whole.
fn keep(rt: &HostRuntime, input: usize, source: &mut Opened<'_>) -> Result<Vec<u8>, Refused> {
    match keep_text(rt.alloc(), input, source) {
        Ok(text) => Ok(text),
        Err(fault) => Err(Refused {
            fault,
            reason: source.source().reason(),
        }),
    }
}

// Tells all that is wrong with texts on standard output. Where nobody reads that any longer, all is told that is asked for.
fn lint_to_standard_output(
    rt: &HostRuntime,
    line: &ProgressLine<'_>,
    keys: HashKeys,
    table: &[u8],
    delta: Option<&[u8]>,
    names: &[String],
) -> Linted {
    match reasoned_output(rt) {
        Ok(output) => {
            let mut output = MeteredSink::new(output, line, is_output_a_file(rt));
            let told = lint_to(rt, line, keys, table, delta, names, &mut output);
            if output.sink().is_closed() {
                return Ok(false);
            }
            unexplained(told)
        }
        Err(fault) => unexplained(Err(fault)),
    }
}

// Tells all that is wrong with texts. What was written has left the buffer in the end; where that fails, it is the fault.
fn lint_to(
    rt: &HostRuntime,
    line: &ProgressLine<'_>,
    keys: HashKeys,
    table: &[u8],
    delta: Option<&[u8]>,
    names: &[String],
    output: &mut MeteredSink<'_, ReasonedOutput>,
) -> Result<bool, RunFault> {
    let judging = Judging { line };
    let told = lint_watched(rt.alloc(), keys, table, delta, names, output, &judging);
    match output.flush() {
        Ok(()) => told,
        Err(_) => Err(at_no_line(0, Fault::Write(WriteStop::WriteFault))),
    }
}

// What reading and writing came to, without a reason of the system.
fn unexplained(told: Result<bool, RunFault>) -> Linted {
    match told {
        Ok(at_fault) => Ok(at_fault),
        Err(fault) => Err(Refused {
            fault,
            reason: None,
        }),
    }
}

// The line that is told how many bytes of the table were judged.
#[derive(Clone, Copy)]
struct Judging<'a> {
    line: &'a ProgressLine<'a>,
}

impl Progress for Judging<'_> {
    fn judged(&self, bytes: usize, all: usize) {
        self.line.tell(Step::Judging(bytes as u64, all as u64));
    }

    fn surveys(&self) {
        self.line.begin(Step::Surveying);
    }
}
