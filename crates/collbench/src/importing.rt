//! A published source is read from files, and the table or the delta file that is made of it is printed.
//!
//! What a source copies lies in its folder. Nothing is written to standard output where there is a fault; what was changed, and the
//! fault, are told on standard error.

ghost use Rattle.std.specs.Prelude.{◌≡◌, ◌<◌, length};
ghost use Rattle.coll_devices.specs.Devices.{CountsErr, Sends};
ghost use Rattle.collbench.specs.MadeTexts.{made_text};

use crate::laws::written_deltas_are_accepted;
use crate::refusals::{tell_below_source, tell_sentence};
use crate::{Output, read_table, tell_fault, tell_no_memory};
use coll_bench::{Fault, exit_status};
use coll_delta_texts::write_delta;
use coll_import::{import_table, write_report, write_source_fault};
use coll_lex::{Counted, Sink, TextBuf, WriteStop};
use coll_source_lines::{Report, SourceFault, SourceLine, SourcePlace};
use coll_sources::{SourceKind, SourceReader};
use coll_system::{
    MeteredSink, MeteredSource, ProgressLine, Step, file_size, is_output_a_file, line_for,
};
use coll_table::{HashKeys, LoadCause, Table};
use coll_tailorings::{Tailored, import_delta};
use std::alloc::{AllocError, Global};
use std::fs::File;
use std::io::BufWriter;
use std::process::ExitCode;

// The name, in a source, that is defined where accents go backward.
const BACKWARD: &str = "DIACRIT_BACKWARD";

// What a source is made into.
#[derive(Drop)]
enum Wanted {
    Table,
    // A delta file for this table.
    Delta(Table),
}

// What was made of a source.
#[derive(Drop)]
enum Made {
    Table(Table),
    Delta(Tailored),
}

impl Wanted {
    // What a source is read as.
    fn kind(&self) -> SourceKind {
        match self {
            Wanted::Table => SourceKind::Table,
            Wanted::Delta(_) => SourceKind::Tailoring,
        }
    }
}

impl Made {
    // Writes its text.
    fn write<W: Sink>(&self, out: &mut W) -> Result<(), WriteStop>
        ensures sent { Sends (W.taken out.old) (W.taken out.new) (made_text self.now) result }
        ensures errors { CountsErr (W.failed out.old) (W.failed out.new) result }
    {
        match self {
            Made::Table(table) => table.print(out),
            Made::Delta(tailored) => {
                // The table that was tailored accepts what is written here.
                written_deltas_are_accepted();
                let (copies, statements) = (
                    tailored.copies.as_slice(),
                    tailored.statements.as_slice(),
                );
                write_delta(out, copies, statements)
            }
        }
    }
}

/// Makes what a source of this kind is for, of the source in the last of these files, where these names are defined, and prints it: a
/// table, or a delta file for the table in the first of these files. The answer is the exit status.
pub(crate) fn import_source(
    rt: &HostRuntime,
    keys: HashKeys,
    kind: SourceKind,
    files: &[&str],
    names: &[String],
    defined: &[TextBuf],
) -> ExitCode
    requires some { 0 < length files.now }
    requires names { length names.now ≡ length files.now }
{
    let line = ProgressLine::new(rt);
    let status = match kind {
        SourceKind::Table => import_from(rt, &line, keys, Wanted::Table, files, defined),
        SourceKind::Tailoring => import_over(rt, &line, keys, files, names, defined),
    };
    line.end();
    status
}

// Reads the table in the first of these files, and makes a delta file for it.
fn import_over(
    rt: &HostRuntime,
    line: &ProgressLine<'_>,
    keys: HashKeys,
    files: &[&str],
    names: &[String],
    defined: &[TextBuf],
) -> ExitCode
    requires some { 0 < length files.now }
    requires names { length names.now ≡ length files.now }
{
    match read_table(rt, Some(line), keys, &files[..1]) {
        Ok(table) => import_from(rt, line, keys, Wanted::Delta(table), files, defined),
        Err(fault) => {
            line.hide();
            tell_fault(rt, &fault, names)
        }
    }
}

// Makes what is wanted of the source in the last of these files, and answers the exit status.
fn import_from(
    rt: &HostRuntime,
    line: &ProgressLine<'_>,
    keys: HashKeys,
    wanted: Wanted,
    files: &[&str],
    defined: &[TextBuf],
) -> ExitCode
    requires { 0 < length files.now }
{
    match import(rt, line, keys, wanted, files[files.len() - 1], defined) {
        Ok(status) => status,
        Err(_) => {
            line.hide();
            tell_no_memory(rt)
        }
    }
}

// Makes what is wanted of a source, where these names are defined, and prints it. The answer is the exit status.
fn import(
    rt: &HostRuntime,
    line: &ProgressLine<'_>,
    keys: HashKeys,
    wanted: Wanted,
    file: &str,
    defined: &[TextBuf],
) -> Result<ExitCode, AllocError> {
    let (folder, base) = folder_of(file);
    match reader_of(rt.alloc(), keys, wanted.kind(), base, defined) {
        Ok(reader) => import_by(rt, line, keys, wanted, reader, folder, defined),
        Err(error) => {
            drop(wanted);
            Err(error)
        }
    }
}

// A reader of the source of this name, where these names are defined.
fn reader_of(
    alloc: Global,
    keys: HashKeys,
    kind: SourceKind,
    base: &str,
    defined: &[TextBuf],
) -> Result<SourceReader, AllocError> {
    let names = lent(alloc, defined)?;
    let reader = SourceReader::new(alloc, keys, kind, base, names.as_slice());
    drop(names);
    reader
}

// Reads a source that lies in this folder, with what it copies, makes what is wanted of it, and prints that.
fn import_by(
    rt: &HostRuntime,
    line: &ProgressLine<'_>,
    keys: HashKeys,
    wanted: Wanted,
    reader: SourceReader,
    folder: &str,
    defined: &[TextBuf],
) -> Result<ExitCode, AllocError> {
    let mut reader = reader;
    let read = read_texts(rt, line, &mut reader, folder);
    if read.is_ok() {
        warn_of_names(rt, line, &wanted, &reader, folder, defined);
    }
    match file_names(rt.alloc(), &reader, folder) {
        Ok(files) => {
            let status = finish(rt, line, keys, wanted, reader, read, files.as_slice());
            drop(files);
            Ok(status)
        }
        Err(error) => {
            drop(wanted);
            drop(reader);
            Err(error)
        }
    }
}

// Warns of each of these names that no condition of a source asks for, since it may be mistyped, and of rules that a table lacks.
// `BACKWARD` says itself what a table is.
fn warn_of_names(
    rt: &HostRuntime,
    line: &ProgressLine<'_>,
    wanted: &Wanted,
    reader: &SourceReader,
    folder: &str,
    defined: &[TextBuf],
) {
    let Some(source) = reader.text_name(0) else {
        return;
    };
    for name in defined {
        let name = name.get();
        if name != BACKWARD && !reader.asks_for(name) {
            line.hide();
            let _ = eprintln!(rt; "{folder}{source}: warning: no ifdef asks for {name}");
        }
    }
    if reader.defines(BACKWARD) && lacks_backward(wanted) {
        let name = BACKWARD;
        line.hide();
        let _ = eprintln!(rt;
            "{folder}{source}: warning: {name} is defined, and TABLE has no rule backward: make it by collbench import with that name"
        );
    }
}

// Whether a source is to change a table of which no rule is backward.
fn lacks_backward(wanted: &Wanted) -> bool {
    let Wanted::Delta(table) = wanted else {
        return false;
    };
    for rule in table.rules() {
        if rule.backward {
            return false;
        }
    }
    true
}

// Prints what is made of a source, or tells the fault with which it was read or made.
fn finish(
    rt: &HostRuntime,
    line: &ProgressLine<'_>,
    keys: HashKeys,
    wanted: Wanted,
    reader: SourceReader,
    read: Result<(), SourceFault>,
    files: &[String],
) -> ExitCode {
    match read {
        Ok(()) => make(rt, line, keys, wanted, reader, files),
        Err(fault) => {
            drop(wanted);
            drop(reader);
            tell(rt, line, &fault, files)
        }
    }
}

// Makes what is wanted of a source that is read, and prints it, or tells the fault.
fn make(
    rt: &HostRuntime,
    line: &ProgressLine<'_>,
    keys: HashKeys,
    wanted: Wanted,
    reader: SourceReader,
    files: &[String],
) -> ExitCode {
    let backward = reader.defines(BACKWARD);
    let (lines, mut report) = reader.into_parts();
    line.begin(Step::Importing);
    let status = match made_of(rt.alloc(), keys, wanted, lines, backward, &mut report) {
        Ok(made) => {
            let status = print(rt, line, &made, &report, files);
            drop(made);
            status
        }
        Err(fault) => tell(rt, line, &fault, files),
    };
    drop(report);
    status
}

// What is wanted of a source, made of its lines.
fn made_of(
    alloc: Global,
    keys: HashKeys,
    wanted: Wanted,
    lines: Vec<SourceLine>,
    backward: bool,
    report: &mut Report,
) -> Result<Made, SourceFault> {
    match wanted {
        Wanted::Table => Ok(Made::Table(import_table(alloc, keys, lines, backward, report)?)),
        Wanted::Delta(mut table) => {
            let made = import_delta(alloc, keys, &mut table, lines, report);
            drop(table);
            Ok(Made::Delta(made?))
        }
    }
}

// The folder of a file, with the last `/`, and its name there.
fn folder_of(file: &str) -> (&str, &str) {
    match file.rfind('/') {
        Some(end) => file.split_at(end + 1),
        None => ("", file),
    }
}

// Texts, lent.
fn lent(alloc: Global, texts: &[TextBuf]) -> Result<Vec<&str>, AllocError> {
    let mut lent = Vec::with_capacity(alloc, texts.len())?;
    for text in texts {
        lent.push(text.get())?;
    }
    Ok(lent)
}

// Reads each text that is wanted.
fn read_texts(
    rt: &HostRuntime,
    line: &ProgressLine<'_>,
    reader: &mut SourceReader,
    folder: &str,
) -> Result<(), SourceFault> {
    for _ in 0..u64::MAX {
        let Some(name) = reader.wanted() else {
            return Ok(());
        };
        let path = format!(in rt.alloc(); "{folder}{name}")?;
        let Ok(file) = File::open(rt, path.as_str()) else {
            return Err(reader.unread());
        };
        let (line, size) = (line_for(&file, Some(line)), file_size(&file));
        reader.take_text(&mut MeteredSource::new(Counted::new(file), line, size))?;
    }
    Ok(())
}

// The names of the files of all texts.
fn file_names(
    alloc: Global,
    reader: &SourceReader,
    folder: &str,
) -> Result<Vec<String>, AllocError> {
    let mut names = Vec::new(alloc);
    for text in 0..usize::MAX {
        let Some(name) = reader.text_name(text) else {
            return Ok(names);
        };
        names.push(format!(in alloc; "{folder}{name}")?)?;
    }
    Ok(names)
}

// Prints what was made, and tells what was changed for it. All memory is taken first.
fn print(
    rt: &HostRuntime,
    line: &ProgressLine<'_>,
    made: &Made,
    report: &Report,
    files: &[String],
) -> ExitCode {
    let (Ok(output), Ok(told)) = (
        BufWriter::new(rt.alloc(), rt.stdout()),
        BufWriter::new(rt.alloc(), rt.stderr()),
    ) else {
        let fault = SourcePlace { text: 0, line: 0 }.load_fault(LoadCause::OutOfMemory);
        return tell(rt, line, &fault, files);
    };
    let output = MeteredSink::new(Counted::new(output), line, is_output_a_file(rt));
    if !write_whole(made, output) {
        return tell_unwritten(rt, files);
    }
    let mut told = Counted::new(told);
    let _ = write_report(&mut told, report, files);
    let _ = told.flush();
    ExitCode::SUCCESS
}

// Tells that the output could not be written, with the name of the source, and answers the exit status.
fn tell_unwritten(rt: &HostRuntime, files: &[String]) -> ExitCode {
    let fault = Fault::Write(WriteStop::WriteFault);
    if let Some(source) = files.first() {
        let _ = eprintln!(rt; "{source}:0: {fault}");
        tell_sentence(rt, fault.number());
    }
    ExitCode::from(exit_status(&fault))
}

// Writes what was made, and answers whether all of it has left the buffer.
fn write_whole(made: &Made, output: MeteredSink<'_, Output>) -> bool {
    let mut output = output;
    let wrote = made.write(&mut output);
    let flushed = output.flush();
    wrote.is_ok() && flushed.is_ok()
}

// Tells a fault, and answers the exit status.
fn tell(
    rt: &HostRuntime,
    line: &ProgressLine<'_>,
    fault: &SourceFault,
    files: &[String],
) -> ExitCode {
    line.hide();
    let _ = write_source_fault(&mut Counted::new(rt.stderr()), fault, files);
    let folder = match files.first() {
        Some(source) => folder_of(source.as_str()).0,
        None => "",
    };
    tell_below_source(rt, fault, files, folder);
    ExitCode::from(match fault.cause.number() {
        67 | 68 => 2,
        _ => 1,
    })
}
