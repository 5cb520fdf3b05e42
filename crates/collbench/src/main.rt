//! The program: a thin `main` that does what words ask for: batches, sessions, sorts, edits, reviews, lints, explanations, differences and
//! imports.
//!
//! The words are read by `coll_command_line`; `coll_system` draws the keys that names are looked up under, opens what the words name, has
//! why the system refuses a file, and shows how far a run got. `importing` makes tables and delta files of sources, which a batch accepts
//! (`laws`), `explaining` tells why texts compare as they do, `standard_input` is what serves lines, as `sessions`, `words`, which sorts
//! them, and `editing`, which serves a person; `reviews` tells what statements do to words, `differences` compares two tables, `linting`
//! tells all that is wrong with one, and `exports` which symbols of an exported one stand behind a character. Here the runs are started,
//! and their faults are told: a line on standard error, what `refusals` tells below it at a terminal, and the exit status, which stands
//! also where that line can't be written.
#![tactic(auto)]

ghost use Rattle.std.specs.Prelude.{◌<◌, length, vec_len, IfOk, IfErr, ◌≡◌};

mod differences;
mod editing;
mod explaining;
mod exports;
mod importing;
mod laws;
mod linting;
mod refusals;
mod reviews;
mod sessions;
mod standard_input;
mod words;

use coll_bench::{Batch, Fault, RunFault, exit_status, read_inputs, run_batch_keyed, write_fault};
use coll_command_line::{Asked, Task, Unasked, read_command_line};
use coll_edit::Editor;
use coll_lex::{Counted, LexFault, ReadStop, Sink, WriteStop};
use coll_sources::SourceKind;
use coll_system::{Input, ProgressLine, at_no_line, open_all, random_keys};
use coll_table::{HashKeys, Table, load_keyed};
use differences::tell_differences;
use explaining::explain_texts;
use exports::tell_symbols;
use importing::import_source;
use linting::lint_files;
use refusals::{tell_below, tell_sentence};
use reviews::review;
use sessions::SessionOver;
use standard_input::serve_input;
use std::alloc::{AllocError, Global};
use std::env;
use std::io::{BufWriter, ErrorKind, Stdout};
use std::process::ExitCode;
use words::SortBy;

// The exit status where the words of the command line are wrong.
const WRONG_WORDS: u8 = 2;

// The version of the program, and the line of the kit that it is proved with, as `rt version` prints it.
const VERSION: &str = "collbench 0.1.0\nproved with rattle-kit-13f logic dac8208d650f15bf";

// What replies and the output of batches are written to.
type Output = Counted<BufWriter<Stdout>>;

fn main(rt: HostRuntime) -> ExitCode {
    let words = match env::args(&rt) {
        Ok(words) => words,
        Err(error) if error.kind() == ErrorKind::OutOfMemory => return tell_no_memory(&rt),
        Err(_) => return tell_not_text(&rt),
    };
    let Ok(words) = words.collect::<Vec<String>>(rt.alloc()) else {
        return tell_no_memory(&rt);
    };
    match read_command_line(rt.alloc(), words.as_slice()) {
        Ok(request) => obey(&rt, request),
        Err(Unasked::Told(text)) => tell(&rt, &text),
        Err(Unasked::Version) => tell_version(&rt),
        Err(Unasked::OutOfMemory) => tell_no_memory(&rt),
    }
}

// Does what was asked for, under keys of this run, and answers the exit status.
fn obey(rt: &HostRuntime, request: Asked<'_>) -> ExitCode
    requires { 0 < vec_len request.files }
{
    let Asked { task, files } = request;
    let Ok(names) = copied_names(rt.alloc(), files.as_slice()) else {
        return tell_no_memory(rt);
    };
    match random_keys(rt) {
        Ok(keys) => do_task(rt, keys, task, files.as_slice(), names.as_slice()),
        Err(_) => tell_at_start(rt, Fault::Read(ReadStop::ReadFault)),
    }
}

// Does a task on these files, in which names are looked up under these keys, and answers the exit status.
fn do_task(
    rt: &HostRuntime,
    keys: HashKeys,
    task: Task,
    files: &[&str],
    names: &[String],
) -> ExitCode
    requires some { 0 < length files.now }
    requires names { length names.now ≡ length files.now }
{
    match task {
        Task::Batch(batch) => run(rt, keys, batch, files, names),
        Task::Explain(text, other) => {
            status(rt, explain_texts(rt, keys, files, &text, &other), names)
        }
        Task::Sort => serve_input::<SortBy>(rt, keys, files, names),
        Task::Review => status(rt, review(rt, keys, files), names),
        Task::Session => serve_input::<SessionOver>(rt, keys, files, names),
        Task::Lint => lint_files(rt, keys, files, names),
        Task::Edit => serve_input::<Editor>(rt, keys, files, names),
        Task::Differences => match tell_differences(rt, keys, files) {
            Ok(status) => status,
            Err(fault) => tell_fault(rt, &fault, names),
        },
        Task::Import(defined) => {
            import_source(rt, keys, SourceKind::Table, files, names, defined.get())
        }
        Task::ImportDelta(defined) => {
            import_source(rt, keys, SourceKind::Tailoring, files, names, defined.get())
        }
    }
}

// Names of files, in new memory.
fn copied_names(alloc: Global, files: &[&str]) -> Result<Vec<String>, AllocError>
    ensures { IfOk result (λ names. vec_len names ≡ length files.now) }
{
    let mut names = Vec::with_capacity(alloc, files.len())?;
    for file in files {
        names.push(String::from_str(alloc, file)?)?;
    }
    Ok(names)
}

// Runs a batch on these files, and answers the exit status. What is to be told of an exported table is told where all of it was
// written.
fn run(rt: &HostRuntime, keys: HashKeys, batch: Batch, files: &[&str], names: &[String]) -> ExitCode
    requires some { 0 < length files.now }
    requires names { length names.now ≡ length files.now }
{
    let exports = matches!(&batch, Batch::Export);
    match run_on_files(rt, keys, batch, files) {
        Ok(table) => {
            if exports {
                tell_exported(rt, &table, files[0]);
            }
            ExitCode::SUCCESS
        }
        Err(fault) => tell_fault(rt, &fault, names),
    }
}

// Tells which symbols of an exported table stand behind a character. Where they can't be told, the status stays.
fn tell_exported(rt: &HostRuntime, table: &Table, file: &str) {
    match BufWriter::new(rt.alloc(), rt.stderr()) {
        Ok(buffered) => {
            let mut told = Counted::new(buffered);
            tell_symbols(rt.alloc(), table, file, &mut told);
            let _ = told.flush();
        }
        Err(_) => tell_symbols(rt.alloc(), table, file, &mut Counted::new(rt.stderr())),
    }
}

// Runs a batch on the table and the delta files with these names, to standard output.
fn run_on_files(
    rt: &HostRuntime,
    keys: HashKeys,
    batch: Batch,
    files: &[&str],
) -> Result<Table, RunFault>
    requires { 0 < length files.now }
    ensures { IfErr result (λ fault. fault.input < length files.now) }
{
    match open_all(rt, None, files) {
        Ok(mut inputs) => match standard_output(rt) {
            Ok(mut output) => write_batch(rt, keys, batch, inputs.as_mut_slice(), &mut output),
            Err(fault) => Err(fault),
        },
        Err(fault) => Err(fault),
    }
}

// Runs a batch on a table and delta files. What it wrote has left the buffer in the end, whatever ended it: where that fails, it
// is the fault, since what is in the buffer was written before any other fault was met.
fn write_batch(
    rt: &HostRuntime,
    keys: HashKeys,
    batch: Batch,
    inputs: &mut [Input<'_>],
    output: &mut Output,
) -> Result<Table, RunFault>
    requires { 0 < length inputs.old }
    ensures { IfErr result (λ fault. fault.input < length inputs.old) }
{
    let (table, deltas) = inputs.split_at_mut(1);
    let ran = run_batch_keyed(rt.alloc(), keys, batch, &mut table[0], deltas, output);
    match output.flush() {
        Ok(()) => ran,
        Err(_) => Err(at_no_line(0, Fault::Write(WriteStop::WriteFault))),
    }
}

// The table in the first of these files, rewritten by the others. This line is told how many bytes were read, if one is.
fn read_table(
    rt: &HostRuntime,
    line: Option<&ProgressLine<'_>>,
    keys: HashKeys,
    files: &[&str],
) -> Result<Table, RunFault>
    requires { 0 < length files.now }
    ensures { IfErr result (λ fault. fault.input < length files.now) }
{
    match open_all(rt, line, files) {
        Ok(mut inputs) => {
            let (table, deltas) = inputs.as_mut_slice().split_at_mut(1);
            read_inputs(rt.alloc(), keys, &mut table[0], deltas)
        }
        Err(fault) => Err(fault),
    }
}

// The table in one of these inputs.
fn read_at(
    rt: &HostRuntime,
    keys: HashKeys,
    inputs: &mut [Input<'_>],
    place: usize,
) -> Result<Table, RunFault>
    requires { place < length inputs.old }
    ensures { IfErr result (λ fault. fault.input ≡ place) }
{
    match load_keyed(rt.alloc(), keys, &mut inputs[place]) {
        Ok(table) => Ok(table),
        Err(fault) => Err(RunFault {
            input: place,
            line: fault.line,
            fault: Fault::Load(fault),
        }),
    }
}

// Standard output, with a buffer. What a run wrote is flushed before its fault is told, each reply of a session by itself, and where
// that fails, this is the fault. Only after such a fault may the buffer hold bytes when it is dropped: they are the next ones of the
// output, and may still be taken then.
fn standard_output(rt: &HostRuntime) -> Result<Output, RunFault>
    ensures { IfErr result (λ fault. fault.input ≡ 0) }
{
    match BufWriter::new(rt.alloc(), rt.stdout()) {
        Ok(buffered) => Ok(Counted::new(buffered)),
        Err(_) => Err(at_no_line(0, Fault::Lex(LexFault::OutOfMemory))),
    }
}

// The exit status of a run, whose fault is told.
fn status(rt: &HostRuntime, ran: Result<(), RunFault>, names: &[String]) -> ExitCode
    requires { IfErr ran (λ fault. fault.input < length names.now) }
{
    match ran {
        Ok(()) => ExitCode::SUCCESS,
        Err(fault) => tell_fault(rt, &fault, names),
    }
}

// Tells a fault on standard error, at a terminal with what stands there and what to do, and answers the exit status.
fn tell_fault(rt: &HostRuntime, fault: &RunFault, names: &[String]) -> ExitCode
    requires { fault.now.input < length names.now }
{
    let status = tell_fault_line(rt, fault, names);
    tell_below(rt, fault, names);
    status
}

// Tells the line of a fault on standard error, and answers the exit status. Where the line can't be written, the status says what
// happened.
fn tell_fault_line(rt: &HostRuntime, fault: &RunFault, names: &[String]) -> ExitCode
    requires { fault.now.input < length names.now }
{
    let _ = write_fault(fault, names, &mut Counted::new(rt.stderr()));
    ExitCode::from(exit_status(&fault.fault))
}

// Tells that memory was refused before there was an input.
fn tell_no_memory(rt: &HostRuntime) -> ExitCode {
    tell_at_start(rt, Fault::Lex(LexFault::OutOfMemory))
}

// Tells a fault that was met before there was an input.
fn tell_at_start(rt: &HostRuntime, fault: Fault) -> ExitCode {
    let _ = eprintln!(rt; "-:0: {fault}");
    tell_sentence(rt, fault.number());
    ExitCode::from(exit_status(&fault))
}

// Tells that the words aren't text.
fn tell_not_text(rt: &HostRuntime) -> ExitCode {
    let _ = eprintln!(rt; "error: a word of the command line is not UTF-8");
    ExitCode::from(WRONG_WORDS)
}

// Prints the help that was asked for, or what is wrong with the words.
fn tell(rt: &HostRuntime, text: &clap::Error) -> ExitCode {
    let _ = text.print(rt);
    ExitCode::from(if text.use_stderr() { WRONG_WORDS } else { 0 })
}

// Prints the version.
fn tell_version(rt: &HostRuntime) -> ExitCode {
    match println!(rt; "{VERSION}") {
        Ok(()) => ExitCode::SUCCESS,
        Err(_) => tell_at_start(rt, Fault::Write(WriteStop::WriteFault)),
    }
}
