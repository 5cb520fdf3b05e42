//! Statements, put to a table one after another.
//!
//! What is kept is what the table accepted, and nothing else: it was rewritten by these statements, in their order. They can be written
//! as a delta file, and have no more lines there than a text may have. All that this crate promises of a table is shown here; how
//! statements are made may change without a clause here.

ghost use Rattle.std.specs.Prelude.{◌≡◌, ◌≢◌, ◌≤◌, ◌+◌, All, Ok, IfOk, OnOk, IfNone, IfSome, IsSome, length};
ghost use Rattle.coll_lex.specs.Limits.{most_lines};
ghost use Rattle.coll_nodes.specs.TableLayout.{collation};
ghost use Rattle.coll_delta_texts.specs.Writable.{IsWritable};
ghost use Rattle.coll_table.specs.declared.refusals.Refusal.TheVariants.{OutOfMemory};
ghost use Rattle.coll_texts.specs.StatementText.{statement_lines};
ghost use Rattle.coll_tailorings.specs.LineCounts.{line_count as lines_of_all};
ghost use Rattle.coll_tailorings.specs.Rewriting.{Answers, IsPut, LeadsOn, rewritten};

use coll_delta_texts::is_writable;
use coll_lex::{LexFault, MOST_LINES};
use coll_source_lines::{Report, SourceFault, SourcePlace};
use coll_source_names::{SourceStatement, lose_statement};
use coll_syntax::Statement;
use coll_table::{Refusal, Table};
use coll_texts::LoadCause;
use std::alloc::Global;

// The lines of a delta file beside those of copies and statements: its directives, and those that begin and end its category.
const FRAME_LINES: usize = 4;

/// Puts statements to a table, and answers those that it accepted, in their order. Another one is left out, which is told.
///
/// They are those of a delta file with so many copies; one of more lines than a text may have is refused.
pub(crate) fn put_all(
    alloc: Global,
    table: &mut Table,
    made: Vec<SourceStatement>,
    copies: usize,
    report: &mut Report,
) -> Result<Vec<Statement>, SourceFault>
    ensures rewritten { IfOk result (λ kept. rewritten (collation table.old) kept.items ≡ Ok (collation table.new)) }
    ensures writable { IfOk result (λ kept. All IsWritable kept.items) }
    ensures few { IfOk result (λ kept. copies + 4 + lines_of_all kept.items ≤ most_lines) }
{
    if copies > MOST_LINES as usize - FRAME_LINES {
        return Err(too_many(SourcePlace { text: 0, line: 0 }));
    }
    let mut lines = copies + FRAME_LINES;
    let mut kept = Vec::new(alloc);
    for statement in made {
        lines = put(table, &mut kept, lines, statement, report)?;
    }
    Ok(kept)
}

// Puts a statement to a table, and keeps it behind all others where it is accepted. The answer is the number of lines, that of its
// own added where it is kept. One that can't be written, or is refused, is told.
fn put(
    table: &mut Table,
    kept: &mut Vec<Statement>,
    lines: usize,
    made: SourceStatement,
    report: &mut Report,
) -> Result<usize, SourceFault>
    requires few { lines ≤ most_lines }
    ensures rewritten { OnOk result (LeadsOn kept.old.items (collation table.old) kept.new.items (collation table.new)) }
    ensures writable { All IsWritable kept.old.items → OnOk result (All IsWritable kept.new.items) }
    ensures counted { IfOk result (λ after. after + lines_of_all kept.old.items ≡ lines + lines_of_all kept.new.items) }
    ensures few { IfOk result (λ after. after ≤ most_lines) }
{
    let SourceStatement { place, statement } = made;
    match lines_with(table, lines, place, &statement, report) {
        Ok(Some(after)) => {
            kept.push(statement)?;
            Ok(after)
        }
        Ok(None) => {
            drop(statement);
            Ok(lines)
        }
        Err(fault) => {
            drop(statement);
            Err(fault)
        }
    }
}

// The number of lines with those of a statement, where the table accepts it, by which it is rewritten then. One that can't be written,
// or is refused, is told.
fn lines_with(
    table: &mut Table,
    lines: usize,
    place: SourcePlace,
    statement: &Statement,
    report: &mut Report,
) -> Result<Option<usize>, SourceFault>
    requires few { lines ≤ most_lines }
    ensures put { IfOk result (λ with. IsPut with (collation table.old) statement.now (collation table.new)) }
    ensures writable { IfOk result (λ with. IsSome with → IsWritable statement.now) }
    ensures counted { IfOk result (λ with. IfSome with (λ after. after ≡ lines + length (statement_lines statement.now))) }
    ensures few { IfOk result (λ with. IfSome with (λ after. after ≤ most_lines)) }
{
    if !is_writable(statement) {
        lose_statement(place, statement, report)?;
        return Ok(None);
    }
    let after = lines + line_count(statement);
    if after > MOST_LINES as usize {
        return Err(too_many(place));
    }
    if !is_accepted(table, place, statement)? {
        lose_statement(place, statement, report)?;
        return Ok(None);
    }
    Ok(Some(after))
}

// How many lines a statement has.
fn line_count(statement: &Statement) -> usize
    requires { IsWritable statement.now }
    ensures count { result ≡ length (statement_lines statement.now) }
    ensures few { result ≤ 4098 }
{
    match statement {
        Statement::Block { target: _, lines } => lines.get().len() + 2,
        Statement::Symbol(_) => 1,
        Statement::Element { .. } => 1,
        Statement::Equivalence { .. } => 1,
        Statement::SectionAfter { .. } => 1,
        Statement::Reweight(_) => 1,
    }
}

// Whether a table accepts a statement, by which it is rewritten then. A table that is full is a fault.
fn is_accepted(
    table: &mut Table,
    place: SourcePlace,
    statement: &Statement,
) -> Result<bool, SourceFault>
    requires { IsWritable statement.now }
    ensures { IfOk result (λ accepted. Answers accepted (collation table.old) statement.now (collation table.new)) }
{
    match table.apply(statement) {
        Ok(record) => {
            drop(record);
            Ok(true)
        }
        Err(refusal) => match fault_of(refusal) {
            Some(cause) => Err(place.load_fault(cause)),
            None => Ok(false),
        },
    }
}

// The fault that a refusal is, if it says that there is no room or no memory.
fn fault_of(refusal: Refusal) -> Option<LoadCause>
    ensures { IfNone result (refusal ≢ OutOfMemory) }
{
    match refusal {
        Refusal::Full => Some(LoadCause::Full),
        Refusal::OutOfMemory => Some(LoadCause::OutOfMemory),
        Refusal::DeclaredTwice
        | Refusal::NotDeclared
        | Refusal::SymbolWithWeights
        | Refusal::TooManyWeights
        | Refusal::WeightNotPlaced
        | Refusal::StringTwice
        | Refusal::TargetNotPlaced
        | Refusal::TwiceInBlock
        | Refusal::NoSuchSection
        | Refusal::SectionAfterItself
        | Refusal::NotPlaced
        | Refusal::NoWeights
        | Refusal::NotASymbol => None,
    }
}

// The fault of a delta file that would have too many lines.
fn too_many(place: SourcePlace) -> SourceFault {
    place.load_fault(LoadCause::from(LexFault::TooManyLines))
}
