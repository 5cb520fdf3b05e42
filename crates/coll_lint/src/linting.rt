//! A table, or a delta file over a table, is linted: all that is wrong with it is told, and not only the first fault.
//!
//! `lint` carries the theorem of a lint (`LintRuns`), and so does `lint_watched`, which tells meanwhile how far it got. The texts are
//! judged as a batch judges them, and its answer decides whether a fault is told, and which one first. What else is told is found by a
//! survey, and no fault is told twice. A table without fault is read once: the table that the batch gives is the one that is surveyed,
//! and a delta file is judged over a copy of it.

ghost use Rattle.std.specs.Prelude.{◌≡◌, ◌∷◌, [], true, Ok, map, string_bytes, option_map, option_to_list, IfOk, IfErr, MatchResult, false};
ghost use Rattle.coll_devices.specs.Devices.{Sends};
ghost use Rattle.coll_bench.specs.BatchOutcome.{after_inputs};
ghost use Rattle.coll_bench.specs.Serving.{write_failed as failed_write};
ghost use Rattle.coll_lint.specs.LintLines.{lint_text};
ghost use Rattle.coll_lint.specs.Lints.{AreGiven, BeginsWith, JudgesTable, JudgesDelta, LintRuns, LintsTexts, is_at_fault};
ghost use Rattle.coll_lint.specs.Lints.{is_of_no_text as of_no_text};
ghost use Rattle.coll_nodes.specs.TableLayout.{collation};
ghost use Rattle.coll_findings.specs.ToldFaults.{AreOnce, told_fault};
ghost use Rattle.coll_surveys.specs.DeltaSurveys.{delta_faults};
ghost use Rattle.coll_surveys.specs.TableWeights.{table_faults};

use crate::first_faults::put_first;
use crate::kept_texts::no_memory;
use crate::lint_lines::write_lint;
use crate::lints::Lint;
use crate::progress::{Nobody, Progress, WatchedText};
use crate::surveyed::told_of;
use coll_bench::{Fault, RunFault, read_delta, read_inputs};
use coll_devices::{Counted, Sink, WriteStop};
use coll_findings::{Surveyed, Told};
use coll_lex::ListBuf;
use coll_lookups::HashKeys;
use coll_surveys::{survey_accepted, survey_delta, survey_table};
use coll_table::Table;
use std::alloc::{AllocError, Global};

/// Writes all that is wrong with the text of a table, and with that of a delta file where one is given. The answer is whether they have
/// a fault.
pub fn lint<W: Sink>(
    alloc: Global,
    keys: HashKeys,
    table: &[u8],
    delta: Option<&[u8]>,
    names: &[String],
    output: &mut W,
) -> Result<bool, RunFault>
    ensures { LintRuns (map string_bytes names.now) table.now (option_to_list (option_map (λ text. text.now) delta.entry))
        (W.taken output.old) (W.taken output.new) result }
{
    lint_watched(alloc, keys, table, delta, names, output, &Nobody)
}

/// Writes all that is wrong with texts, as `lint` does, and tells `progress` how far it got.
pub fn lint_watched<W: Sink, P: Progress>(
    alloc: Global,
    keys: HashKeys,
    table: &[u8],
    delta: Option<&[u8]>,
    names: &[String],
    output: &mut W,
    progress: &P,
) -> Result<bool, RunFault>
    ensures { LintRuns (map string_bytes names.now) table.now (option_to_list (option_map (λ text. text.now) delta.entry))
        (W.taken output.old) (W.taken output.new) result }
{
    match linted(alloc, keys, table, delta, progress) {
        Ok(lint) => {
            let wrote = write_told(&lint, names, output);
            drop(lint);
            wrote
        }
        Err(ended) => Err(ended),
    }
}

// Writes what is told of texts. The answer is whether they have a fault.
fn write_told<W: Sink>(lint: &Lint, names: &[String], output: &mut W) -> Result<bool, RunFault>
    ensures sent { Sends (W.taken output.old) (W.taken output.new) (lint_text (map string_bytes names.now) lint.now) result }
    ensures ok { IfOk result (λ at_fault. at_fault ≡ is_at_fault lint.now) }
    ensures fault { IfErr result (λ ended. ended ≡ failed_write) }
{
    match write_lint(lint, names, output) {
        Ok(()) => Ok(!lint.faults.get().is_empty()),
        Err(_) => Err(write_failed()),
    }
}

/// All that is wrong with the text of a table, and with that of a delta file where one is given.
///
/// The faults are none exactly where a batch over the same texts accepts them, the first one told is the one that it answers, and none is
/// told twice. Where the table is at fault, the delta file isn't looked at. Lack of memory is the answer, and there is no other fault.
pub fn lint_texts(
    alloc: Global,
    keys: HashKeys,
    table: &[u8],
    delta: Option<&[u8]>,
) -> Result<Lint, RunFault>
    ensures { LintsTexts table.now (option_to_list (option_map (λ text. text.now) delta.entry)) result }
{
    linted(alloc, keys, table, delta, &Nobody)
}

// All that is wrong with texts. It is told how much of the table was judged, and when the rest begins.
fn linted<P: Progress>(
    alloc: Global,
    keys: HashKeys,
    table: &[u8],
    delta: Option<&[u8]>,
    progress: &P,
) -> Result<Lint, RunFault>
    ensures { LintsTexts table.now (option_to_list (option_map (λ text. text.now) delta.entry)) result }
{
    match judged(alloc, keys, table, progress) {
        Ok(read) => {
            progress.surveys();
            lint_read(alloc, keys, read, table, delta)
        }
        Err(first) => {
            progress.surveys();
            lint_faulty(alloc, keys, first, table)
        }
    }
}

// What is told of the text of a table that a batch accepts, which gives this table, and of a delta file over it.
fn lint_read(
    alloc: Global,
    keys: HashKeys,
    read: Table,
    table: &[u8],
    delta: Option<&[u8]>,
) -> Result<Lint, RunFault>
    requires { after_inputs table.now [] ≡ Ok (collation read) }
    ensures { LintsTexts table.now (option_to_list (option_map (λ text. text.now) delta.entry)) result }
{
    match delta {
        Some(delta) => lint_over(alloc, keys, read, table, delta),
        None => {
            let surveyed = survey_accepted(alloc, keys, table, read);
            lint_if_accepted(alloc, surveyed, table, None)
        }
    }
}

// What is told of a delta file over a table, which this text gives.
fn lint_over(
    alloc: Global,
    keys: HashKeys,
    read: Table,
    table: &[u8],
    delta: &[u8],
) -> Result<Lint, RunFault>
    requires { after_inputs table.now [] ≡ Ok (collation read) }
    ensures { LintsTexts table.now (delta.now ∷ []) result }
{
    match judged_over(alloc, &read, delta) {
        Ok(()) => {
            let surveyed = survey_delta(alloc, keys, read, delta);
            lint_if_accepted(alloc, surveyed, table, Some(delta))
        }
        Err(first) => lint_faulty_delta(alloc, keys, first, read, table, delta),
    }
}

// What is told of a delta file in which a batch answers this fault first, over this table, if it is a fault of the file.
fn lint_faulty_delta(
    alloc: Global,
    keys: HashKeys,
    first: RunFault,
    read: Table,
    table: &[u8],
    delta: &[u8],
) -> Result<Lint, RunFault>
    ensures text { IfOk result (λ lint. of_no_text first ≡ false) }
    ensures begins { IfOk result (λ lint. BeginsWith first lint.faults) }
    ensures once { IfOk result (λ lint. AreOnce lint.faults) }
    ensures given { IfOk result (λ lint. AreGiven (delta_faults (collation read) delta.now) lint.faults) }
    ensures memory { IfErr result (λ ended. of_no_text ended ≡ true) }
{
    if is_of_no_text(&first) {
        drop(read);
        return Err(first);
    }
    let surveyed = survey_delta(alloc, keys, read, delta);
    lint_if_refused(alloc, first, surveyed, table, Some(delta))
}

// What is told of the text of a table in which a batch answers this fault first, if it is a fault of the text.
fn lint_faulty(
    alloc: Global,
    keys: HashKeys,
    first: RunFault,
    table: &[u8],
) -> Result<Lint, RunFault>
    ensures text { IfOk result (λ lint. of_no_text first ≡ false) }
    ensures begins { IfOk result (λ lint. BeginsWith first lint.faults) }
    ensures once { IfOk result (λ lint. AreOnce lint.faults) }
    ensures given { IfOk result (λ lint. AreGiven (table_faults table.now) lint.faults) }
    ensures memory { IfErr result (λ ended. of_no_text ended ≡ true) }
{
    if is_of_no_text(&first) {
        return Err(first);
    }
    let surveyed = survey_table(alloc, keys, table);
    lint_if_refused(alloc, first, surveyed, table, None)
}

// What is told of texts that a batch accepts, by their survey, unless memory was refused: warnings alone.
fn lint_if_accepted(
    alloc: Global,
    surveyed: Result<Surveyed, AllocError>,
    table: &[u8],
    delta: Option<&[u8]>,
) -> Result<Lint, RunFault>
    requires { IfOk surveyed (λ surveyed. AreOnce surveyed.told.faults.items) }
    ensures none { IfOk result (λ lint. lint.faults ≡ []) }
    ensures memory { IfErr result (λ ended. of_no_text ended ≡ true) }
{
    match surveyed {
        Ok(surveyed) => match told_of(alloc, surveyed, table, delta) {
            Ok(told) => Ok(accepted(alloc, told)),
            Err(_) => Err(no_memory(0)),
        },
        Err(_) => Err(no_memory(0)),
    }
}

// What is told of texts in which a batch answers this fault first, by their survey, unless memory was refused.
fn lint_if_refused(
    alloc: Global,
    first: RunFault,
    surveyed: Result<Surveyed, AllocError>,
    table: &[u8],
    delta: Option<&[u8]>,
) -> Result<Lint, RunFault>
    requires { IfOk surveyed (λ surveyed. AreOnce surveyed.told.faults.items) }
    ensures begins { IfOk result (λ lint. BeginsWith first lint.faults) }
    ensures once { IfOk result (λ lint. AreOnce lint.faults) }
    ensures given { IfOk result (λ lint. MatchResult surveyed (λ surveyed. AreGiven (map told_fault surveyed.told.faults.items) lint.faults) (λ _. ⊥)) }
    ensures memory { IfErr result (λ ended. of_no_text ended ≡ true) }
{
    match surveyed {
        Ok(surveyed) => match refused(alloc, first, surveyed, table, delta) {
            Ok(lint) => Ok(lint),
            Err(_) => Err(no_memory(0)),
        },
        Err(_) => Err(no_memory(0)),
    }
}

// Whether a fault is none of the texts: a read failed, or memory was refused.
fn is_of_no_text(ended: &RunFault) -> bool
    ensures { result ≡ of_no_text ended.now }
{
    let number = ended.fault.number();
    number == 67 || number == 70
}

// What a batch answers to a table, which is the one that it gives.
fn judged<P: Progress>(
    alloc: Global,
    keys: HashKeys,
    table: &[u8],
    progress: &P,
) -> Result<Table, RunFault>
    ensures { JudgesTable table.now result }
{
    let mut source = WatchedText::new(table, progress);
    match read_inputs(alloc, keys, &mut source, &mut []) {
        Ok(read) => Ok(read),
        Err(first) => Err(first),
    }
}

// What a batch answers to a delta file over a table. The file rewrites a copy of it.
fn judged_over(alloc: Global, read: &Table, delta: &[u8]) -> Result<(), RunFault>
    ensures { JudgesDelta (collation read.now) delta.now result }
{
    match read.try_copy(alloc) {
        Ok(mut copy) => {
            let answer = judged_by(alloc, &mut copy, delta);
            drop(copy);
            answer
        }
        Err(_) => Err(no_memory(0)),
    }
}

// What a batch answers to a delta file over a table, which it rewrites.
fn judged_by(alloc: Global, read: &mut Table, delta: &[u8]) -> Result<(), RunFault>
    ensures { JudgesDelta (collation read.old) delta.now result }
{
    let mut source = Counted::new(delta);
    match read_delta(alloc, 1, read, &mut source) {
        Ok(()) => Ok(()),
        Err(first) => Err(first),
    }
}

// What is told of texts that a batch accepts, by their survey.
fn accepted(alloc: Global, told: Told) -> Lint
    ensures { result.faults ≡ [] }
{
    let Told {
        faults,
        more_faults: _,
        warnings,
    } = told;
    drop(faults);
    Lint {
        faults: ListBuf::new(Vec::new(alloc)),
        more_faults: None,
        warnings,
    }
}

// What is told of texts by their survey, and by the fault that a batch answers first.
fn refused(
    alloc: Global,
    first: RunFault,
    surveyed: Surveyed,
    table: &[u8],
    delta: Option<&[u8]>,
) -> Result<Lint, AllocError>
    requires { AreOnce surveyed.told.faults.items }
    ensures begins { IfOk result (λ lint. BeginsWith first lint.faults) }
    ensures once { IfOk result (λ lint. AreOnce lint.faults) }
    ensures given { IfOk result (λ lint. AreGiven (map told_fault surveyed.told.faults.items) lint.faults) }
{
    let Told {
        mut faults,
        more_faults,
        warnings,
    } = told_of(alloc, surveyed, table, delta)?;
    match put_first(first, &mut faults) {
        Ok(()) => Ok(Lint {
            faults: ListBuf::new(faults),
            more_faults,
            warnings,
        }),
        Err(error) => {
            drop(faults);
            drop(warnings);
            Err(error)
        }
    }
}

// A write failed.
fn write_failed() -> RunFault
    ensures { result ≡ failed_write }
{
    RunFault {
        input: 0,
        line: 0,
        fault: Fault::Write(WriteStop::WriteFault),
    }
}
