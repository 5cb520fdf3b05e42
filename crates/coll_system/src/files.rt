//! The files that the command line names, and the devices of the program.
//!
//! The files of a task are opened before any is read, so that a wrong name is told at once, but for a source behind its table, its copies,
//! and what an edit names. They are read through a line reader, which has a buffer of its own; sources and texts to lint are read whole.
//! How many bytes a file has is asked for what is told of it alone, and may be unknown.

ghost use Rattle.std.specs.Prelude.{◌≡◌, ◌<◌, length, vec_len, IfErr, IfOk};

use crate::metered::MeteredSource;
use crate::progress::ProgressLine;
use coll_bench::{Fault, RunFault};
use coll_lex::{Counted, LexFault, ReadStop};
use std::alloc::Global;
use std::fs::{File, Metadata};
use std::io::IsTerminal;
use std::{fs, io};

/// A file that is read.
pub type Input<'a> = MeteredSource<'a, Counted<File>>;

// The file that standard input is.
const STANDARD_INPUT: &str = "/dev/stdin";

// The file that standard output is.
const STANDARD_OUTPUT: &str = "/dev/stdout";

/// Opens files, in the order of their names, whose bytes this line is told of, if one is. The fault of one that can't be opened has
/// its place as the number of its input, and no line.
pub fn open_all<'a>(
    rt: &HostRuntime,
    line: Option<&'a ProgressLine<'a>>,
    names: &[&str],
) -> Result<Vec<Input<'a>>, RunFault>
    requires { 0 < length names.now }
    ensures opened { IfOk result (λ inputs. vec_len inputs ≡ length names.now) }
    ensures input { IfErr result (λ fault. fault.input < length names.now) }
{
    let Ok(mut inputs) = Vec::with_capacity(rt.alloc(), names.len()) else {
        return Err(at_no_line(0, Fault::Lex(LexFault::OutOfMemory)));
    };
    for name in names {
        let Ok(file) = File::open(rt, *name) else {
            return Err(at_no_line(inputs.len(), Fault::Read(ReadStop::ReadFault)));
        };
        let (line, size) = (line_for(&file, line), file_size(&file));
        inputs.push_reserved(MeteredSource::new(Counted::new(file), line, size));
    }
    Ok(inputs)
}

/// The line that is told of the bytes of a device. What somebody types stands on the screen, so of that none is told.
pub fn line_for<'a>(
    device: &impl IsTerminal,
    line: Option<&'a ProgressLine<'a>>,
) -> Option<&'a ProgressLine<'a>> {
    if device.is_terminal() {
        return None;
    }
    line
}

/// How many bytes a file has, where that is known.
pub fn file_size(file: &File) -> Option<u64> {
    known_size(file.metadata())
}

/// How many bytes standard input has, where it is a file.
pub fn standard_input_size(rt: &HostRuntime) -> Option<u64> {
    known_size(fs::metadata(rt, STANDARD_INPUT))
}

/// Whether standard output is a file, of which nobody shows on a terminal what is written to it.
pub fn is_output_a_file(rt: &HostRuntime) -> bool {
    match fs::metadata(rt, STANDARD_OUTPUT) {
        Ok(metadata) => metadata.is_file(),
        Err(_) => false,
    }
}

// The size of a file, which a device has not, and a file that the system makes while it is read tells as 0.
fn known_size(metadata: io::Result<Metadata>) -> Option<u64> {
    match metadata {
        Ok(metadata) if metadata.is_file() && metadata.len() > 0 => Some(metadata.len()),
        _ => None,
    }
}

/// A fault of an input that comes from no line.
pub fn at_no_line(input: usize, fault: Fault) -> RunFault
    ensures { result ≡ record { input = input; line = 0; fault = fault } }
{
    RunFault {
        input,
        line: 0,
        fault,
    }
}
