//! A tailoring, made into statements.
//!
//! All that a tailoring declares is known before its first order line is looked at, and all that it places before its first weight. What
//! the table declares and places isn't copied: the table is asked, so a tailoring costs what its own lines take.

ghost use Rattle.std.specs.Prelude.{◌≡◌, ◌≤◌, All, Ok, IfOk, length};
ghost use Rattle.coll_lex.specs.Limits.{most_lines};
ghost use Rattle.coll_nodes.specs.TableLayout.{collation};
ghost use Rattle.coll_delta_texts.specs.DeltaText.{delta_lines};
ghost use Rattle.coll_delta_texts.specs.Writable.{IsCopyName, IsWritable};
ghost use Rattle.coll_tailorings.specs.Rewriting.{rewritten};

use crate::accepted_statements::put_all;
use crate::blocks::{Blocks, Known};
use crate::steps::{CopyAt, Stepped, Steps};
use coll_delta_texts::is_copy_name;
use coll_lex::TextBuf;
use coll_lookups::HashKeys;
use coll_meanings::TableMeanings;
use coll_source_lines::{Adjustment, Lost, Report, SourceFault, SourceLine};
use coll_source_names::SourceStatement;
use coll_syntax::Statement;
use coll_table::Table;
use std::alloc::Global;

/// What a tailoring is made into.
#[derive(Drop)]
pub struct Tailored {
    /// The names of the texts that order everything and that it copies, each once.
    pub copies: Vec<TextBuf>,
    /// Its statements, which the table that is tailored accepts one after another.
    pub statements: Vec<Statement>,
}

/// The statements of a tailoring, of which these are the lines, in their order. What is changed is told.
///
/// The table is the one that is tailored; it is rewritten by the statements. After a fault it is rewritten by some of them.
pub fn import_delta(
    alloc: Global,
    keys: HashKeys,
    table: &mut Table,
    lines: Vec<SourceLine>,
    report: &mut Report,
) -> Result<Tailored, SourceFault>
    ensures rewritten { IfOk result (λ made. rewritten (collation table.old) made.statements.items ≡ Ok (collation table.new)) }
    ensures writable { IfOk result (λ made. All IsWritable made.statements.items) }
    ensures copies { IfOk result (λ made. All IsCopyName made.copies.items) }
    ensures few { IfOk result (λ made. length (delta_lines made.copies.items made.statements.items) ≤ most_lines) }
{
    let (copies, made) = make(alloc, keys, table, lines, report)?;
    let copies = writable_copies(alloc, copies, report)?;
    let statements = put_all(alloc, table, made, copies.len(), report)?;
    Ok(Tailored { copies, statements })
}

// The names of copies that can be written. Another one is left out, which is told.
fn writable_copies(
    alloc: Global,
    copies: Vec<CopyAt>,
    report: &mut Report,
) -> Result<Vec<TextBuf>, SourceFault>
    ensures { IfOk result (λ kept. All IsCopyName kept.items) }
{
    let mut kept = Vec::new(alloc);
    for copy in copies {
        let CopyAt { place, name } = copy;
        if is_copy_name(&name) {
            kept.push(name)?;
        } else {
            report.lose(Adjustment::Dropped, place, Lost::Word(name))?;
        }
    }
    Ok(kept)
}

// The copies that are kept of a tailoring, and its statements.
fn make(
    alloc: Global,
    keys: HashKeys,
    table: &Table,
    lines: Vec<SourceLine>,
    report: &mut Report,
) -> Result<(Vec<CopyAt>, Vec<SourceStatement>), SourceFault> {
    let said = all_said(alloc, keys, table, lines, report)?;
    all_made(alloc, keys, table.rules().len(), said, report)
}

// What all lines say.
fn all_said<'t>(
    alloc: Global,
    keys: HashKeys,
    table: &'t Table,
    lines: Vec<SourceLine>,
    report: &mut Report,
) -> Result<Stepped<'t>, SourceFault> {
    match all_meanings(alloc, keys, table, lines.as_slice(), report) {
        Ok(meanings) => Steps::new(alloc, keys, meanings).said_by(lines, report),
        Err(fault) => {
            drop(lines);
            Err(fault)
        }
    }
}

// What all names mean.
fn all_meanings<'t>(
    alloc: Global,
    keys: HashKeys,
    table: &'t Table,
    lines: &[SourceLine],
    report: &mut Report,
) -> Result<TableMeanings<'t>, SourceFault> {
    let mut meanings = TableMeanings::new(alloc, keys, table);
    match meanings.take_all(lines, report) {
        Ok(()) => Ok(meanings),
        Err(fault) => {
            drop(meanings);
            Err(fault)
        }
    }
}

// The copies, and the statements that are made of all steps, for so many levels.
fn all_made(
    alloc: Global,
    keys: HashKeys,
    levels: usize,
    said: Stepped<'_>,
    report: &mut Report,
) -> Result<(Vec<CopyAt>, Vec<SourceStatement>), SourceFault> {
    let Stepped {
        mut meanings,
        expected,
        copies,
        steps,
    } = said;
    let made = meanings.take_declared();
    let known = Known {
        meanings,
        expected,
        levels,
    };
    match Blocks::new(alloc, keys, known, made).made_of(steps, report) {
        Ok(made) => Ok((copies, made)),
        Err(fault) => {
            drop(copies);
            Err(fault)
        }
    }
}
