//! The output of a batch, written of a table when all inputs were read.
//!
//! Pieces are written one behind another. Keys alone take memory while they are written, one at a time.

ghost use Rattle.std.specs.Prelude.{◌≡◌, ◌++◌, ◌∷◌, [], false, chars};
ghost use Rattle.std.specs.List.{flat_map};
ghost use Rattle.coll_key.specs.CompiledListing.{compiled_listing};
ghost use Rattle.coll_key.specs.KeyLimits.{is_too_long};
ghost use Rattle.coll_ranks.specs.Ranks.{AreRanksOf};
ghost use Rattle.coll_key.specs.TextOrder.{order_of};
ghost use Rattle.coll_nodes.specs.TableLayout.{collation};
ghost use Rattle.coll_bench.specs.BatchOutcome.{batch_output, texts_of, is_any_too_long, key_line};
ghost use Rattle.coll_bench.specs.BatchWriting.{Outputs, CountsOutput, as_written, starved_key};
ghost use Rattle.coll_texts.specs.CanonicalText.{text};
ghost use Rattle.coll_texts.specs.ExportedText.{exported_text};
ghost use Rattle.coll_bench.specs.Replies.{checked_line, order_word};

use super::Batch;
use crate::replies::{write_checked, write_key_ended, write_order};
use coll_devices::{Sink, WriteStop};
use coll_faults::Fault;
use coll_key::{KeyFault, compare, key, write_compiled};
use coll_lex::TextBuf;
use coll_ranks::Ranks;
use coll_table::Table;
use std::alloc::Global;

/// Writes what a batch asks for. No text is too long. A write that fails, and lack of memory, leave a prefix of it.
#[tactic(auto, unfolding(crate::specs::BatchOutcome::batch_output))]
pub(crate) fn write_output<W: Sink>(
    alloc: Global,
    batch: &Batch,
    table: &Table,
    out: &mut W,
) -> Result<(), Fault>
    requires short { is_any_too_long (texts_of batch.now) ≡ false }
    ensures sent { Outputs (W.taken out.old) (W.taken out.new) (batch_output batch.now (collation table.now)) result }
    ensures errors { CountsOutput (W.failed out.old) (W.failed out.new) result }
{
    match batch {
        Batch::Check => write_counts(table, out),
        Batch::Print => write_text(table, out),
        Batch::Export => write_export(table, out),
        Batch::Compile => write_listing(alloc, table, out),
        Batch::Key(texts) => write_keys(alloc, texts.get(), table, out),
        Batch::Compare(first, second) => write_comparison(alloc, first, second, table, out),
    }
}

// Writes how many entries, declarations, sections and levels a table has.
fn write_counts<W: Sink>(table: &Table, out: &mut W) -> Result<(), Fault>
    ensures sent { Outputs (W.taken out.old) (W.taken out.new) (checked_line (collation table.now)) result }
    ensures errors { CountsOutput (W.failed out.old) (W.failed out.new) result }
{
    written(write_checked(out, table))
}

// Writes the canonical text of a table.
fn write_text<W: Sink>(table: &Table, out: &mut W) -> Result<(), Fault>
    ensures sent { Outputs (W.taken out.old) (W.taken out.new) (text (collation table.now)) result }
    ensures errors { CountsOutput (W.failed out.old) (W.failed out.new) result }
{
    written(table.print(out))
}

// Writes the text of a table in the form that `localedef` takes.
fn write_export<W: Sink>(table: &Table, out: &mut W) -> Result<(), Fault>
    ensures sent { Outputs (W.taken out.old) (W.taken out.new) (exported_text (collation table.now)) result }
    ensures errors { CountsOutput (W.failed out.old) (W.failed out.new) result }
{
    written(table.export(out))
}

// Writes the compiled listing of a table.
fn write_listing<W: Sink>(alloc: Global, table: &Table, out: &mut W) -> Result<(), Fault>
    ensures sent { Outputs (W.taken out.old) (W.taken out.new) (compiled_listing (collation table.now)) result }
    ensures errors { CountsOutput (W.failed out.old) (W.failed out.new) result }
{
    match Ranks::new(alloc, table) {
        Ok(ranks) => {
            let wrote = write_compiled(table, &ranks, out);
            drop(ranks);
            written(wrote)
        }
        Err(_) => Err(no_memory()),
    }
}

// Writes the sort keys of texts, one a line.
fn write_keys<W: Sink>(
    alloc: Global,
    texts: &[TextBuf],
    table: &Table,
    out: &mut W,
) -> Result<(), Fault>
    requires short { is_any_too_long texts.now ≡ false }
    ensures sent { Outputs (W.taken out.old) (W.taken out.new) (flat_map (key_line (collation table.now)) texts.now) result }
    ensures errors { CountsOutput (W.failed out.old) (W.failed out.new) result }
{
    match Ranks::new(alloc, table) {
        Ok(ranks) => {
            let wrote = write_each_key(alloc, texts, table, &ranks, out);
            drop(ranks);
            wrote
        }
        Err(_) => Err(no_memory()),
    }
}

// Writes the sort keys of texts, by the ranks of the table.
fn write_each_key<W: Sink>(
    alloc: Global,
    texts: &[TextBuf],
    table: &Table,
    ranks: &Ranks,
    out: &mut W,
) -> Result<(), Fault>
    requires short { is_any_too_long texts.now ≡ false }
    requires ranks { AreRanksOf ranks.now (collation table.now) }
    ensures sent { Outputs (W.taken out.old) (W.taken out.new) (flat_map (key_line (collation table.now)) texts.now) result }
    ensures errors { CountsOutput (W.failed out.old) (W.failed out.new) result }
{
    for text in texts {
        // Not `?`: behind its conversion this exit would need a lemma.
        if let Err(fault) = write_text_key(alloc, text, table, ranks, out) {
            return Err(fault);
        }
    }
    Ok(())
}

// Writes the sort key of a text, and the line's end.
fn write_text_key<W: Sink>(
    alloc: Global,
    text: &TextBuf,
    table: &Table,
    ranks: &Ranks,
    out: &mut W,
) -> Result<(), Fault>
    requires short { is_too_long text.now ≡ false }
    requires ranks { AreRanksOf ranks.now (collation table.now) }
    ensures sent { Outputs (W.taken out.old) (W.taken out.new) (key_line (collation table.now) text.now) result }
    ensures errors { CountsOutput (W.failed out.old) (W.failed out.new) result }
{
    match key(alloc, table, ranks, text.get()) {
        Ok(key) => {
            let wrote = write_key_ended(out, table.rules(), &key);
            drop(key);
            written(wrote)
        }
        Err(fault) => Err(Fault::Key(fault)),
    }
}

// Writes the order of two texts.
fn write_comparison<W: Sink>(
    alloc: Global,
    first: &TextBuf,
    second: &TextBuf,
    table: &Table,
    out: &mut W,
) -> Result<(), Fault>
    requires short { is_any_too_long (first.now ∷ second.now ∷ []) ≡ false }
    ensures sent { Outputs (W.taken out.old) (W.taken out.new) (order_word (order_of (collation table.now) first.now second.now) ++ 10 ∷ [])
        result }
    ensures errors { CountsOutput (W.failed out.old) (W.failed out.new) result }
{
    match Ranks::new(alloc, table) {
        Ok(ranks) => {
            let wrote = write_order_by(alloc, first, second, table, &ranks, out);
            drop(ranks);
            wrote
        }
        Err(_) => Err(no_memory()),
    }
}

// Writes the order of two texts, by the ranks of the table.
fn write_order_by<W: Sink>(
    alloc: Global,
    first: &TextBuf,
    second: &TextBuf,
    table: &Table,
    ranks: &Ranks,
    out: &mut W,
) -> Result<(), Fault>
    requires short { is_any_too_long (first.now ∷ second.now ∷ []) ≡ false }
    requires ranks { AreRanksOf ranks.now (collation table.now) }
    ensures sent { Outputs (W.taken out.old) (W.taken out.new) (order_word (order_of (collation table.now) first.now second.now) ++ 10 ∷ [])
        result }
    ensures errors { CountsOutput (W.failed out.old) (W.failed out.new) result }
{
    match compare(alloc, table, ranks, first.get(), second.get()) {
        Ok(order) => written(write_order(out, order)),
        Err(fault) => Err(Fault::Key(fault)),
    }
}

// What was written, or the fault of a write.
fn written(wrote: Result<(), WriteStop>) -> Result<(), Fault>
    ensures { result ≡ as_written wrote }
{
    match wrote {
        Ok(()) => Ok(()),
        Err(stop) => Err(Fault::Write(stop)),
    }
}

// The fault of an output for which memory was refused.
fn no_memory() -> Fault
    ensures { result ≡ starved_key }
{
    Fault::Key(KeyFault::OutOfMemory)
}
