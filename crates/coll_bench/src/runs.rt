//! The run of a session: the lines of a source are served one by one, and their replies go to a sink.
//!
//! `run_session` carries the theorem of the session: what is written is the stated function of what is read. It makes the
//! `RunState`, `serve_text` the reader, and the loop of `serve_lines` hands that one physical line after another; its
//! lemmas put together what each line does, over all that may come later. The state of the run and the reader are dropped by calls,
//! since a check pays for each field of a value at each place that drops it.

ghost use Rattle.std.specs.Prelude.{◌≡◌, true, IfErr};
ghost use Rattle.coll_devices.specs.LineReading.{no_line};
ghost use Rattle.coll_nodes.specs.TableLayout.{collation};
ghost use Rattle.coll_history.specs.Histories.{History};
ghost use Rattle.coll_bench.specs.Serving.{IsAtStart, EndsSession, CountsWrites, IsFlushedAfter, never_ran};
ghost use Rattle.coll_bench.specs.Runs.{Runs, RunsFrom, CountsReads};

use crate::serving::RunState;
use coll_devices::{LineReader, Sink, Source};
use coll_faults::{Fault, RunFault};
use coll_lex::LexFault;
use coll_table::Table;
use std::alloc::Global;

/// Serves the lines of a source as a session over a table, and writes the replies to a sink, each flushed.
///
/// What is written is the stated function of what is read, and nothing else (`Runs`). The run ends with the input, or
/// with the fault that ends it: a line too long or one too many, of which the reply is the last; a read that failed,
/// without a reply; a write that failed; or lack of memory before the first line is read. A line, a block or a
/// statement that is refused has its reply and ends nothing. Whatever the devices tell, no other fault ends a session
/// (`EndsSession`).
pub fn run_session<R: Source, W: Sink>(
    alloc: Global,
    table: Table,
    input: &mut R,
    output: &mut W,
) -> Result<(), RunFault>
    ensures run { Runs (collation table) (R.left input.old) (R.left input.new) (W.taken output.old) (W.taken output.new) result }
    ensures input { IfErr result (λ ended. ended.input ≡ 0) }
    ensures ends { IfErr result (λ ended. EndsSession ended.fault) }
    ensures reads { CountsReads (R.failed input.old) (R.failed input.new) result }
    ensures writes { CountsWrites (W.failed output.old) (W.failed output.new) result }
    ensures flushed { W.flushed output.old ≡ true → IsFlushedAfter (W.flushed output.new) result }
{
    match RunState::new(alloc, table) {
        Ok(mut state) => {
            let ran = serve_text(alloc, &mut state, input, output);
            drop(state);
            ran
        }
        Err(_) => Err(no_memory()),
    }
}

// Serves the text of a source, of which nothing was read yet, from a state of the run in which no line was taken yet.
fn serve_text<R: Source, W: Sink>(
    alloc: Global,
    state: &mut RunState,
    input: &mut R,
    output: &mut W,
) -> Result<(), RunFault>
    ensures run { (start : History) → IsAtStart state.old start
        → RunsFrom start (R.left input.old) (R.left input.new) (W.taken output.old) (W.taken output.new) result }
    ensures input { IfErr result (λ ended. ended.input ≡ 0) }
    ensures ends { IfErr result (λ ended. EndsSession ended.fault) }
    ensures reads { CountsReads (R.failed input.old) (R.failed input.new) result }
    ensures writes { CountsWrites (W.failed output.old) (W.failed output.new) result }
    ensures flushed { W.flushed output.old ≡ true → IsFlushedAfter (W.flushed output.new) result }
{
    match LineReader::new(alloc) {
        Ok(mut reader) => {
            let ran = serve_lines(alloc, state, &mut reader, input, output);
            drop(reader);
            ran
        }
        Err(_) => Err(no_memory()),
    }
}

// Serves the lines of a source, of which none was read yet.
fn serve_lines<R: Source, W: Sink>(
    alloc: Global,
    state: &mut RunState,
    reader: &mut LineReader,
    input: &mut R,
    output: &mut W,
) -> Result<(), RunFault>
    requires { reader.old ≡ no_line }
    ensures run { (start : History) → IsAtStart state.old start
        → RunsFrom start (R.left input.old) (R.left input.new) (W.taken output.old) (W.taken output.new) result }
    ensures input { IfErr result (λ ended. ended.input ≡ 0) }
    ensures ends { IfErr result (λ ended. EndsSession ended.fault) }
    ensures reads { CountsReads (R.failed input.old) (R.failed input.new) result }
    ensures writes { CountsWrites (W.failed output.old) (W.failed output.new) result }
    ensures flushed { W.flushed output.old ≡ true → IsFlushedAfter (W.flushed output.new) result }
{
    'lines: loop {
        match reader.advance(input) {
            Ok(true) => {
                // Not `?`: behind its conversion this exit would need a lemma.
                if let Err(ended) = state.serve(alloc, reader.line(), output) {
                    return Err(ended);
                }
            }
            Ok(false) => return state.finish(output),
            Err(stop) => return Err(state.cut_off(stop, output)),
        }
    }
}

// The fault of a run for which memory was refused before it began.
fn no_memory() -> RunFault
    ensures fault { result ≡ never_ran }
    ensures ends { EndsSession result.fault }
{
    RunFault {
        input: 0,
        line: 0,
        fault: Fault::Lex(LexFault::OutOfMemory),
    }
}
