//! Statements that are made of the lines of a source.

ghost use Rattle.std.specs.Prelude.{◌≡◌, ◌++◌, ◌∷◌, [], IfOk, OnErr, OnOk};
ghost use Rattle.coll_source_lines.specs.declared.adjustments.Adjustment.TheVariants.{Dropped};
ghost use Rattle.coll_source_names.specs.LeftOut.{lost_with, name_lost, reweighted, within_limits};

use coll_lex::TextBuf;
use coll_source_lines::{Adjustment, Lost, NameRange, Report, SourceFault, SourcePlace};
use coll_syntax::{Id, OrderLine, Statement};
use std::alloc::AllocError;

/// A statement, and where it comes from.
#[derive(Drop)]
pub struct SourceStatement {
    /// Where it comes from.
    pub place: SourcePlace,
    /// The statement.
    pub statement: Statement,
}

/// A range of names, each of which is declared as a symbol.
#[derive(Drop)]
pub struct DeclaredRange {
    /// Where it comes from.
    pub place: SourcePlace,
    /// The names.
    pub names: NameRange,
    /// How many other declarations stand before it.
    pub before: usize,
}

/// Tells that a statement is left out: what it declares, its target, the section that it moves, or what it gives weights.
pub fn lose_statement(
    place: SourcePlace,
    statement: &Statement,
    report: &mut Report,
) -> Result<(), SourceFault>
    ensures lost { OnOk result (report.new.losses
        ≡ report.old.losses ++ record { place = place; adjustment = Dropped; what = lost_with statement.now } ∷ []) }
    ensures kept { OnErr result (report.new.losses ≡ report.old.losses) }
{
    let what = lost(statement)?;
    report.lose(Adjustment::Dropped, place, what)
}

// What is lost where a statement is left out.
fn lost(statement: &Statement) -> Result<Lost, AllocError>
    ensures { IfOk result (λ what. what ≡ lost_with statement.now) }
{
    match statement {
        Statement::Symbol(name) => lost_name(name),
        Statement::Element { name, text: _ } => lost_name(name),
        Statement::Equivalence { name, symbol: _ } => lost_name(name),
        Statement::Block { target, lines: _ } => Ok(Lost::Id(target.clone()?)),
        Statement::SectionAfter { moved, after: _ } => lost_name(moved),
        Statement::Reweight(line) => Ok(Lost::Id(line.id.clone()?)),
    }
}

// A name that is lost.
fn lost_name(name: &TextBuf) -> Result<Lost, AllocError>
    ensures { IfOk result (λ what. what ≡ name_lost name.now) }
{
    Ok(Lost::Id(Id::Named(name.try_copy()?)))
}

/// An order line that is within the limits of the language; another one is left out, which is told.
pub fn proper_line(
    place: SourcePlace,
    line: OrderLine,
    report: &mut Report,
) -> Result<Option<OrderLine>, SourceFault>
    ensures { IfOk result (λ kept. kept ≡ within_limits line) }
{
    let statement = Statement::Reweight(line);
    if !statement.is_proper() {
        let lost = lose_statement(place, &statement, report);
        drop(statement);
        lost?;
        return Ok(None);
    }
    Ok(line_of(statement))
}

// The order line that a statement has, if it is one.
fn line_of(statement: Statement) -> Option<OrderLine>
    ensures { result ≡ reweighted statement }
{
    match statement {
        Statement::Reweight(line) => Some(line),
        Statement::Symbol(name) => {
            drop(name);
            None
        }
        Statement::Element { name, text } => {
            drop(name);
            drop(text);
            None
        }
        Statement::Equivalence { name, symbol } => {
            drop(name);
            drop(symbol);
            None
        }
        Statement::Block { target, lines } => {
            drop(target);
            drop(lines);
            None
        }
        Statement::SectionAfter { moved, after } => {
            drop(moved);
            drop(after);
            None
        }
    }
}
