//! A table is edited by a person, over standard input and standard output.
//!
//! Replies go to standard output, and prompts and what refusals say to standard error. Files are those of the system: a file that is
//! read, and a new one that is written.

ghost use Rattle.std.specs.Prelude.{◌≡◌, ◌<◌, length, IfErr};

use crate::refusals::tell_of_lint;
use crate::standard_input::ServesLines;
use crate::{read_at, tell_fault, tell_fault_line};
use coll_bench::{Fault, RunFault};
use coll_edit::{Editor, OpensFiles, Watched, edit_lines};
use coll_edit_messages::FileReason;
use coll_lex::{Counted, LexFault};
use coll_system::{
    Input, ProgressLine, ReasonedOutput, at_no_line, open_all, reason_of, reasoned_output,
};
use coll_table::HashKeys;
use std::fs::File;
use std::io::IsTerminal;
use std::process::ExitCode;

// The files of the system.
#[derive(Drop)]
struct SystemFiles<'a> {
    rt: &'a HostRuntime,
}

impl<'a> OpensFiles for SystemFiles<'a> {
    type Input = Counted<File>;

    type Output = Counted<File>;

    // A folder is opened as a file is, and can't be read.
    fn open(&mut self, name: &str) -> Result<Counted<File>, FileReason> {
        match File::open(self.rt, name) {
            Ok(file) if is_folder(&file) => Err(FileReason::Folder),
            Ok(file) => Ok(Counted::new(file)),
            Err(error) => Err(reason_of(error.kind())),
        }
    }

    // Where a new file isn't found, its folder isn't there.
    fn create(&mut self, name: &str) -> Result<Counted<File>, FileReason> {
        match File::create_new(self.rt, name) {
            Ok(file) => Ok(Counted::new(file)),
            Err(error) => match reason_of(error.kind()) {
                FileReason::Missing if !name.is_empty() => Err(FileReason::NoFolder),
                reason => Err(reason),
            },
        }
    }
}

// Whether a file that was opened is a folder.
fn is_folder(file: &File) -> bool {
    match file.metadata() {
        Ok(metadata) => metadata.is_dir(),
        Err(_) => false,
    }
}

// An edit of the table in the first of some files, whose history begins with the statements of the others.
impl ServesLines for Editor {
    fn begin(
        rt: &HostRuntime,
        _line: &ProgressLine<'_>,
        keys: HashKeys,
        files: &[&str],
    ) -> Result<Editor, RunFault> {
        match open_all(rt, None, files) {
            Ok(mut inputs) => begin_opened(rt, keys, inputs.as_mut_slice()),
            Err(fault) => Err(fault),
        }
    }

    fn serve(mut self, rt: &HostRuntime, _line: &ProgressLine<'_>) -> Result<(), RunFault> {
        let ran = edit_standard_input(rt, &mut self);
        drop(self);
        ran
    }

    // An edit begins with files without fault alone, so what finds all faults is told too.
    fn tell_unserved(rt: &HostRuntime, fault: &RunFault, names: &[String]) -> ExitCode {
        let status = tell_fault(rt, fault, names);
        tell_of_lint(rt, fault);
        status
    }

    // What an edit says beside a fault stands in its replies.
    fn tell_served(rt: &HostRuntime, fault: &RunFault, names: &[String]) -> ExitCode {
        tell_fault_line(rt, fault, names)
    }
}

// An edit of the table in the first of these inputs, behind the statements of the others.
fn begin_opened(
    rt: &HostRuntime,
    keys: HashKeys,
    inputs: &mut [Input<'_>],
) -> Result<Editor, RunFault>
    requires { 0 < length inputs.old }
    ensures { IfErr result (λ fault. fault.input < length inputs.old) }
{
    match read_at(rt, keys, inputs, 0) {
        Ok(table) => match Editor::new(rt.alloc(), table) {
            Ok(mut editor) => match put_deltas(&mut editor, inputs) {
                Ok(()) => Ok(editor),
                Err(fault) => {
                    drop(editor);
                    Err(fault)
                }
            },
            Err(_) => Err(at_no_line(0, Fault::Lex(LexFault::OutOfMemory))),
        },
        Err(fault) => Err(fault),
    }
}

// Puts the statements of the inputs behind the first.
fn put_deltas(editor: &mut Editor, inputs: &mut [Input<'_>]) -> Result<(), RunFault>
    ensures { IfErr result (λ fault. fault.input < length inputs.old) }
{
    for (number, delta) in inputs.iter_mut().enumerate() {
        if number > 0 {
            // Not `?`: behind its conversion this exit would need a lemma.
            if let Err(fault) = editor.put_delta(number, delta) {
                return Err(fault);
            }
        }
    }
    Ok(())
}

// Serves the lines of standard input. Where nobody reads the replies any longer, the edit has ended.
fn edit_standard_input(rt: &HostRuntime, editor: &mut Editor) -> Result<(), RunFault>
    ensures { IfErr result (λ fault. fault.input ≡ 0) }
{
    match reasoned_output(rt) {
        Ok(output) => {
            let mut output = Watched::new(output);
            let ran = edit_to(rt, editor, &mut output);
            if output.device().is_closed() {
                return Ok(());
            }
            ran
        }
        Err(fault) => Err(fault),
    }
}

// Serves the lines of standard input, and writes the replies to an output.
fn edit_to(
    rt: &HostRuntime,
    editor: &mut Editor,
    output: &mut Watched<ReasonedOutput>,
) -> Result<(), RunFault>
    ensures { IfErr result (λ fault. fault.input ≡ 0) }
{
    let mut lines = Counted::new(rt.stdin());
    let mut messages = Counted::new(rt.stderr());
    let mut files = SystemFiles { rt };
    let prompts = rt.stdin().is_terminal();
    edit_lines(
        rt.alloc(),
        editor,
        &mut lines,
        output,
        &mut messages,
        &mut files,
        prompts,
    )
}
