//! Copies of statements.
//!
//! Whoever reads a delta file lends each statement, and a history keeps its own. A new statement is a case of `copied_statement`.

ghost use Rattle.std.specs.Prelude.{◌≡◌, IfOk, OnOk, ◌++◌, ◌∷◌, []};

use coll_lex::{ListBuf, TextBuf};
use coll_syntax::{OrderLine, Statement};
use std::alloc::{AllocError, Global};

/// A copy of a statement, in new memory.
pub fn copied_statement(alloc: Global, statement: &Statement) -> Result<Statement, AllocError>
    ensures { IfOk result (λ copy. copy ≡ statement.now) }
{
    match statement {
        Statement::Symbol(name) => Ok(Statement::Symbol(name.try_copy()?)),
        Statement::Element { name, text } => {
            let (name, text) = copied_both(name, text)?;
            Ok(Statement::Element { name, text })
        }
        Statement::Equivalence { name, symbol } => {
            let (name, symbol) = copied_both(name, symbol)?;
            Ok(Statement::Equivalence { name, symbol })
        }
        Statement::Block { target, lines } => {
            let target = target.clone()?;
            let lines = ListBuf::new(copied_lines(alloc, lines.get())?);
            Ok(Statement::Block { target, lines })
        }
        Statement::SectionAfter { moved, after } => {
            let (moved, after) = copied_both(moved, after)?;
            Ok(Statement::SectionAfter { moved, after })
        }
        Statement::Reweight(line) => Ok(Statement::Reweight(copied_line(line)?)),
    }
}

// Copies of two texts.
fn copied_both(first: &TextBuf, second: &TextBuf) -> Result<(TextBuf, TextBuf), AllocError>
    ensures { IfOk result (λ copies. copies ≡ (first.now, second.now)) }
{
    let first = first.try_copy()?;
    let second = second.try_copy()?;
    Ok((first, second))
}

// Copies of order lines.
fn copied_lines(alloc: Global, lines: &[OrderLine]) -> Result<Vec<OrderLine>, AllocError>
    ensures { IfOk result (λ copies. copies.items ≡ lines.now) }
{
    let mut copies = Vec::new(alloc);
    for line in lines {
        put_copy(&mut copies, line)?;
    }
    Ok(copies)
}

// Puts a copy of an order line behind others.
fn put_copy(copies: &mut Vec<OrderLine>, line: &OrderLine) -> Result<(), AllocError>
    ensures { OnOk result (copies.new.items ≡ copies.old.items ++ line.now ∷ []) }
{
    let copy = copied_line(line)?;
    copies.push(copy)?;
    Ok(())
}

// A copy of an order line.
fn copied_line(line: &OrderLine) -> Result<OrderLine, AllocError>
    ensures { IfOk result (λ copy. copy ≡ line.now) }
{
    let id = line.id.clone()?;
    let weights = line.weights.clone()?;
    Ok(OrderLine { id, weights })
}
