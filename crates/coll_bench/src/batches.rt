//! A batch: a table is read, rewritten by delta files, and answered from once.
//!
//! `run_batch_keyed` carries the theorem of a batch: what is written and what is answered are stated functions of the texts of its
//! inputs (`BatchRuns` of `specs/BatchRuns.antt`). `inputs` reads the table and the delta files, `delta_files` a single one, whose
//! statements are put to what `taking` says, and `output` writes what the batch asks for. Every input is read before the first byte
//! is written, and no history is kept. A new batch is a new variant of `Batch`, a case of `batch_output`, and of `write_output`.

ghost use Rattle.std.specs.Prelude.{◌≡◌, ◌≤◌, ◌∷◌, length, map, IfErr, IfOk, Ok};
ghost use Rattle.coll_bench.specs.BatchOutcome.{fault_in, texts_of as texts_asked, is_any_too_long as any_too_long};
ghost use Rattle.coll_key.specs.KeyLimits.{is_too_long as too_long};
ghost use Rattle.coll_bench.specs.BatchReading.{AnswersBatch, ReadsInputs};
ghost use Rattle.coll_bench.specs.BatchRuns.{BatchRuns, CountsInputs, without_table};
ghost use Rattle.coll_bench.specs.Serving.{CountsWrites, ReadsNone};

mod delta_files;
mod inputs;
mod output;
mod taking;

use coll_devices::{Sink, Source};
use coll_faults::{Fault, RunFault};
use coll_key::{KeyFault, MOST_TEXT_CHARACTERS};
use coll_lex::{ListBuf, TextBuf};
use coll_lookups::HashKeys;
use coll_table::Table;
pub use delta_files::read_delta;
pub use inputs::read_inputs;
use output::write_output;
use std::alloc::Global;
pub use taking::TakesStatements;

/// What is asked of the table that the inputs of a batch give.
#[derive(Drop)]
pub enum Batch {
    /// How many entries, declarations, sections and levels it has.
    Check,
    /// Its canonical text.
    Print,
    /// Its text in the form that `localedef` takes.
    Export,
    /// Its compiled listing.
    Compile,
    /// The written sort key of each text, one a line, in their order.
    Key(ListBuf<TextBuf>),
    /// The order of two texts: `less`, `equal` or `greater`.
    Compare(TextBuf, TextBuf),
}

/// Runs a batch over texts that one trusts, as `run_batch_keyed` does: what they name is looked up under keys that anyone knows.
pub fn run_batch<R: Source, W: Sink>(
    alloc: Global,
    batch: Batch,
    table: &mut R,
    deltas: &mut [R],
    output: &mut W,
) -> Result<(), RunFault>
    ensures run { BatchRuns batch (R.left table.old) (R.left table.new) (map R.left deltas.old) (map R.left deltas.new) (W.taken output.old)
        (W.taken output.new) result }
    ensures input { IfErr result (λ ended. ended.input ≤ length deltas.old) }
    ensures reads { CountsInputs (R.failed table.old ∷ map R.failed deltas.old) (R.failed table.new ∷ map R.failed deltas.new) result }
    ensures writes { CountsWrites (W.failed output.old) (W.failed output.new) result }
{
    let keys = HashKeys::zeros();
    match run_batch_keyed(alloc, keys, batch, table, deltas, output) {
        Ok(changed) => {
            drop(changed);
            Ok(())
        }
        Err(ended) => Err(ended),
    }
}

/// Reads a table, rewrites it by delta files in their order, writes what is asked of the result, and hands the result on.
///
/// Input 0 is the table, input k the k-th delta file; nothing behind the end of a category is looked at. The first fault met is
/// the answer, with its input and its line (of a refused block that of its `reorder-after`), and then nothing is written. After all
/// inputs were read, a text of more than 65,536 characters is refused, with input 0 and line 0, before anything is written. A
/// write that fails, and lack of memory while keys are written, have input 0 and line 0, and leave a prefix of the output. A read
/// that fails has line 0 and its input, unless the lines read whole before it are at fault already. What the texts name is
/// looked up under these keys: where the texts can't know them, they can't slow the look-ups down.
pub fn run_batch_keyed<R: Source, W: Sink>(
    alloc: Global,
    keys: HashKeys,
    batch: Batch,
    table: &mut R,
    deltas: &mut [R],
    output: &mut W,
) -> Result<Table, RunFault>
    ensures run { BatchRuns batch (R.left table.old) (R.left table.new) (map R.left deltas.old) (map R.left deltas.new) (W.taken output.old)
        (W.taken output.new) (without_table result) }
    ensures table { IfOk result (λ changed. ReadsInputs (R.left table.old) (R.left table.new)
        (map R.left deltas.old) (map R.left deltas.new) (Ok changed)) }
    ensures input { IfErr result (λ ended. ended.input ≤ length deltas.old) }
    ensures reads { CountsInputs (R.failed table.old ∷ map R.failed deltas.old) (R.failed table.new ∷ map R.failed deltas.new) result }
    ensures writes { CountsWrites (W.failed output.old) (W.failed output.new) (without_table result) }
{
    match read_inputs(alloc, keys, table, deltas) {
        Ok(changed) => answer_and_give(alloc, batch, changed, output),
        Err(ended) => {
            drop(batch);
            Err(ended)
        }
    }
}

// Writes what a batch asks for of the table that its inputs gave, and hands the table on.
fn answer_and_give<W: Sink>(
    alloc: Global,
    batch: Batch,
    changed: Table,
    output: &mut W,
) -> Result<Table, RunFault>
    ensures run { AnswersBatch batch changed (W.taken output.old) (W.taken output.new) (without_table result) }
    ensures table { IfOk result (λ given. given ≡ changed) }
    ensures input { IfErr result (λ ended. ended.input ≡ 0) }
    ensures reads { IfErr result (λ ended. ReadsNone ended) }
    ensures writes { CountsWrites (W.failed output.old) (W.failed output.new) (without_table result) }
{
    let answer = answer_batch(alloc, &batch, &changed, output);
    drop(batch);
    match answer {
        Ok(()) => Ok(changed),
        Err(ended) => {
            drop(changed);
            Err(ended)
        }
    }
}

// Writes what a batch asks for of the table that its inputs gave, unless a text is too long.
fn answer_batch<W: Sink>(
    alloc: Global,
    batch: &Batch,
    table: &Table,
    output: &mut W,
) -> Result<(), RunFault>
    ensures run { AnswersBatch batch.now table.now (W.taken output.old) (W.taken output.new) result }
    ensures input { IfErr result (λ ended. ended.input ≡ 0) }
    ensures line { IfErr result (λ ended. ended.line ≡ 0) }
    ensures reads { IfErr result (λ ended. ReadsNone ended) }
    ensures writes { CountsWrites (W.failed output.old) (W.failed output.new) result }
{
    if is_any_too_long(batch) {
        return Err(with_no_line(Fault::Key(KeyFault::TextTooLong)));
    }
    match write_output(alloc, batch, table, output) {
        Ok(()) => Ok(()),
        Err(fault) => Err(with_no_line(fault)),
    }
}

// Whether one of the texts that a batch is about is too long to have a key.
fn is_any_too_long(batch: &Batch) -> bool
    ensures { result ≡ any_too_long (texts_asked batch.now) }
{
    match batch {
        Batch::Key(texts) => texts.get().iter().any(is_too_long),
        Batch::Compare(first, second) => is_too_long(first) || is_too_long(second),
        Batch::Check | Batch::Print | Batch::Export | Batch::Compile => false,
    }
}

// Whether a text is too long to have a key.
fn is_too_long(text: &TextBuf) -> bool
    ensures { result ≡ too_long text.now }
{
    text.get().chars().count() > MOST_TEXT_CHARACTERS
}

// A fault that comes from no line, as which one that comes with the output counts.
fn with_no_line(fault: Fault) -> RunFault
    ensures { result ≡ fault_in 0 0 fault }
{
    RunFault {
        input: 0,
        line: 0,
        fault,
    }
}
