//! What serves the lines of standard input: a session, a sort, and an edit.
//!
//! All files are read first, and a fault of one is told by its name; a fault of the lines, or of what is written for them, is told by
//! the name of standard input.

ghost use Rattle.std.specs.Prelude.{◌≡◌, ◌<◌, length, IfErr};

use crate::{tell_fault, tell_no_memory};
use coll_bench::RunFault;
use coll_system::ProgressLine;
use coll_table::HashKeys;
use std::process::ExitCode;

/// The name of standard input.
pub(crate) const STANDARD_INPUT: &str = "-";

/// What serves the lines of standard input by the table in the first of some files.
pub(crate) trait ServesLines: Drop {
    /// Reads the files with these names.
    fn begin(
        rt: &HostRuntime,
        line: &ProgressLine<'_>,
        keys: HashKeys,
        files: &[&str],
    ) -> Result<Self, RunFault>
        requires { 0 < length files.now }
        ensures { IfErr result (λ fault. fault.input < length files.now) };

    /// Serves the lines.
    fn serve(self, rt: &HostRuntime, line: &ProgressLine<'_>) -> Result<(), RunFault>
        ensures { IfErr result (λ fault. fault.input ≡ 0) };

    /// Tells a fault of one of the files with these names, and answers the exit status.
    fn tell_unserved(rt: &HostRuntime, fault: &RunFault, names: &[String]) -> ExitCode
        requires { fault.now.input < length names.now }
    {
        tell_fault(rt, fault, names)
    }

    /// Tells a fault of the lines, which are an input with one of these names, and answers the exit status.
    fn tell_served(rt: &HostRuntime, fault: &RunFault, names: &[String]) -> ExitCode
        requires { fault.now.input < length names.now }
    {
        tell_fault(rt, fault, names)
    }
}

/// Serves the lines of standard input by the files with these names, and answers the exit status.
pub(crate) fn serve_input<S: ServesLines>(
    rt: &HostRuntime,
    keys: HashKeys,
    files: &[&str],
    names: &[String],
) -> ExitCode
    requires some { 0 < length files.now }
    requires names { length names.now ≡ length files.now }
{
    match String::from_str(rt.alloc(), STANDARD_INPUT) {
        Ok(name) => {
            let line = ProgressLine::new(rt);
            let status = serve_by::<S>(rt, &line, keys, files, names, name);
            line.end();
            status
        }
        Err(_) => tell_no_memory(rt),
    }
}

// Serves the lines of standard input, which has this name, and tells a line how far that got.
fn serve_by<S: ServesLines>(
    rt: &HostRuntime,
    line: &ProgressLine<'_>,
    keys: HashKeys,
    files: &[&str],
    names: &[String],
    name: String,
) -> ExitCode
    requires some { 0 < length files.now }
    requires names { length names.now ≡ length files.now }
{
    match S::begin(rt, line, keys, files) {
        Ok(served) => {
            let ran = served.serve(rt, line);
            line.hide();
            match ran {
                Ok(()) => ExitCode::SUCCESS,
                Err(fault) => S::tell_served(rt, &fault, &[name]),
            }
        }
        Err(fault) => {
            line.hide();
            drop(name);
            S::tell_unserved(rt, &fault, names)
        }
    }
}
