//! The run of an edit: the lines of a source are served one by one, and their replies go to a sink.

ghost use Rattle.std.specs.Prelude.{◌≡◌, true, IfErr};
ghost use Rattle.coll_devices.specs.LineReading.{no_line};
ghost use Rattle.coll_edit.specs.EditRuns.{IsUnserved, LeavesSome, RunsAsSession, RunsUnanswered};
ghost use Rattle.coll_edit.specs.Editing.{has_answered};
ghost use Rattle.coll_edit.specs.Watching.{device_of};

use crate::devices::OpensFiles;
use crate::editors::{Editor, Next};
use crate::watched::Watched;
use coll_bench::{Fault, RunFault};
use coll_devices::{LineReader, Sink, Source};
use coll_lex::LexFault;
use std::alloc::Global;

/// Serves the lines of a source as an edit, and writes the replies to a sink, each flushed; prompts, where they are wanted, and what
/// refusals say go to messages.
pub fn edit_lines<R: Source, W: Sink, M: Sink, F: OpensFiles>(
    alloc: Global,
    editor: &mut Editor,
    input: &mut R,
    output: &mut Watched<W>,
    messages: &mut M,
    files: &mut F,
    prompts: bool,
) -> Result<(), RunFault>
    ensures run { IsUnserved editor.old
        → RunsUnanswered editor.old editor.new (R.left input.old) (R.left input.new) (W.taken (device_of output.old))
        (W.taken (device_of output.new)) result }
    ensures session { IsUnserved editor.old
        → RunsAsSession editor.old (R.left input.old) (R.left input.new) (W.taken (device_of output.old))
        (W.taken (device_of output.new)) result }
    ensures input { IfErr result (λ ended. ended.input ≡ 0) }
{
    match LineReader::new(alloc) {
        Ok(mut reader) => {
            let ran = serve_lines(editor, &mut reader, input, output, messages, files, prompts);
            drop(reader);
            ran
        }
        // Memory was refused before the run began.
        Err(_) => Err(RunFault {
            input: 0,
            line: 0,
            fault: Fault::Lex(LexFault::OutOfMemory),
        }),
    }
}

// Serves the lines of a source, of which none was read yet.
fn serve_lines<R: Source, W: Sink, M: Sink, F: OpensFiles>(
    editor: &mut Editor,
    reader: &mut LineReader,
    input: &mut R,
    output: &mut Watched<W>,
    messages: &mut M,
    files: &mut F,
    prompts: bool,
) -> Result<(), RunFault>
    requires { reader.old ≡ no_line }
    ensures run { IsUnserved editor.old
        → RunsUnanswered editor.old editor.new (R.left input.old) (R.left input.new) (W.taken (device_of output.old))
        (W.taken (device_of output.new)) result }
    ensures left { IsUnserved editor.old → has_answered editor.new ≡ true → LeavesSome (R.left input.old) }
    ensures input { IfErr result (λ ended. ended.input ≡ 0) }
{
    'lines: loop {
        editor.ask(messages, prompts);
        match reader.advance(input) {
            Ok(true) => match editor.serve(reader.line(), output, messages, files, prompts) {
                Ok(Next::Line) => {}
                Ok(Next::End) => return Ok(()),
                Err(ended) => return Err(ended),
            },
            Ok(false) => return editor.finish(output, messages, prompts),
            Err(stop) => return Err(editor.cut_off(stop, output, messages)),
        }
    }
}
