//! Statements by own names.
//!
//! A second name in a statement stands for the own name of its symbol (`specs/OwnStatements.antt`). Most statements use none, and
//! stay as they are: only one that does is copied, which is the simple form; the clause `own` says the same of both. A new statement
//! that names what is declared is a case of `by_own_names` and of `uses_second` first.

ghost use Rattle.std.specs.Prelude.{◌≡◌, None, true, false, unwrap_or, option_map, IfOk, OnErr};
ghost use Rattle.std.specs.List.{list_any};
ghost use Rattle.coll_syntax.specs.declared.statements.Statement.TheVariants as statement;
ghost use Rattle.coll_nodes.specs.Entries.{given_weights};
ghost use Rattle.coll_nodes.specs.OwnNames.{names_second, own_weights};
ghost use Rattle.coll_nodes.specs.TableLayout.{declared_at};
ghost use Rattle.coll_statements.specs.OwnStatements.{by_own_names as stated_own, line_uses_second, own_line, own_lines, uses_second};

use crate::own_names::{copied_own_id, is_second, names_second, own_weights, symbol_meant};
use coll_lex::{ListBuf, TextBuf};
use coll_nodes::Body;
use coll_syntax::{Id, OrderLine, Statement, Weight};
use std::alloc::AllocError;

/// A statement by own names, where it uses a second name; one that uses none stays, and none is answered.
///
/// It takes memory for a statement alone that uses a second name.
pub fn by_own_names(body: &Body, statement: &Statement) -> Result<Option<Statement>, AllocError>
    ensures own { IfOk result (λ own. unwrap_or own statement.now ≡ stated_own (declared_at body.now.layout) statement.now) }
    ensures kept { IfOk result (λ own. uses_second (declared_at body.now.layout) statement.now ≡ false → own ≡ None) }
    ensures memory { OnErr result (uses_second (declared_at body.now.layout) statement.now ≡ true) }
{
    match statement {
        Statement::Equivalence { name, symbol } => own_equivalence(body, name, symbol),
        Statement::Block { target, lines } => own_block(body, target, lines.get()),
        Statement::Reweight(line) => own_reweight(body, line),
        _ => Ok(None),
    }
}

// The same of a second name, for a symbol that may be given by a second name itself.
fn own_equivalence(
    body: &Body,
    name: &TextBuf,
    symbol: &TextBuf,
) -> Result<Option<Statement>, AllocError>
    ensures own { IfOk result (λ own. unwrap_or own (statement.Equivalence name.now symbol.now)
        ≡ stated_own (declared_at body.now.layout) (statement.Equivalence name.now symbol.now)) }
    ensures kept { IfOk result (λ own. uses_second (declared_at body.now.layout) (statement.Equivalence name.now symbol.now) ≡ false
        → own ≡ None) }
    ensures memory { OnErr result (uses_second (declared_at body.now.layout) (statement.Equivalence name.now symbol.now) ≡ true) }
{
    match symbol_meant(body, symbol.get()) {
        Some(own) => {
            let symbol = own.try_copy()?;
            let name = name.try_copy()?;
            Ok(Some(Statement::Equivalence { name, symbol }))
        }
        None => Ok(None),
    }
}

// The same of a block.
fn own_block(body: &Body, target: &Id, lines: &[OrderLine]) -> Result<Option<Statement>, AllocError>
    ensures own { IfOk result (λ own. unwrap_or own (statement.Block target.now lines.now)
        ≡ stated_own (declared_at body.now.layout) (statement.Block target.now lines.now)) }
    ensures kept { IfOk result (λ own. uses_second (declared_at body.now.layout) (statement.Block target.now lines.now) ≡ false
        → own ≡ None) }
    ensures memory { OnErr result (uses_second (declared_at body.now.layout) (statement.Block target.now lines.now) ≡ true) }
{
    if !block_uses_second(body, target, lines) {
        return Ok(None);
    }
    let target = copied_own_id(body, target)?;
    let lines = own_lines(body, lines)?;
    Ok(Some(Statement::Block { target, lines }))
}

// The same of an order line outside a block.
fn own_reweight(body: &Body, line: &OrderLine) -> Result<Option<Statement>, AllocError>
    ensures own { IfOk result (λ own. unwrap_or own (statement.Reweight line.now)
        ≡ stated_own (declared_at body.now.layout) (statement.Reweight line.now)) }
    ensures kept { IfOk result (λ own. uses_second (declared_at body.now.layout) (statement.Reweight line.now) ≡ false → own ≡ None) }
    ensures memory { OnErr result (uses_second (declared_at body.now.layout) (statement.Reweight line.now) ≡ true) }
{
    if !line_uses_second(body, line) {
        return Ok(None);
    }
    let line = own_line(body, line)?;
    Ok(Some(Statement::Reweight(line)))
}

// Order lines by own names.
fn own_lines(body: &Body, lines: &[OrderLine]) -> Result<ListBuf<OrderLine>, AllocError>
    ensures { IfOk result (λ own. own ≡ own_lines (declared_at body.now.layout) lines.now) }
{
    let mut own = Vec::with_capacity(body.alloc(), lines.len())?;
    for line in lines {
        own.push(own_line(body, line)?)?;
    }
    Ok(ListBuf::new(own))
}

// An order line by own names.
fn own_line(body: &Body, line: &OrderLine) -> Result<OrderLine, AllocError>
    ensures { IfOk result (λ own. own ≡ own_line (declared_at body.now.layout) line.now) }
{
    let id = copied_own_id(body, &line.id)?;
    let weights = own_given(body, &line.weights)?;
    Ok(OrderLine { id, weights })
}

// The weights that a line gives, if it gives any, by own names.
fn own_given(
    body: &Body,
    given: &Option<ListBuf<Weight>>,
) -> Result<Option<ListBuf<Weight>>, AllocError>
    ensures { IfOk result (λ own. own ≡ option_map (own_weights (declared_at body.now.layout)) given.now) }
{
    let Some(given) = given else {
        return Ok(None);
    };
    let own = own_weights(body, given.get())?;
    Ok(Some(own))
}

// Whether a block uses a second name.
fn block_uses_second(body: &Body, target: &Id, lines: &[OrderLine]) -> bool
    ensures { result ≡ uses_second (declared_at body.now.layout) (statement.Block target.now lines.now) }
{
    is_second(body, target) || lines_use_second(body, lines)
}

// Whether one of these order lines uses a second name.
fn lines_use_second(body: &Body, lines: &[OrderLine]) -> bool
    ensures { result ≡ list_any (line_uses_second (declared_at body.now.layout)) lines.now }
{
    lines.iter().any(|line| line_uses_second(body, line))
}

// Whether an order line uses a second name.
fn line_uses_second(body: &Body, line: &OrderLine) -> bool
    ensures { result ≡ line_uses_second (declared_at body.now.layout) line.now }
{
    is_second(body, &line.id) || given_uses_second(body, &line.weights)
}

// Whether one of the weights that a line gives names something by a second name.
fn given_uses_second(body: &Body, given: &Option<ListBuf<Weight>>) -> bool
    ensures { result ≡ list_any (names_second (declared_at body.now.layout)) (given_weights given.now) }
{
    match given {
        Some(weights) => weights
            .get()
            .iter()
            .any(|weight| names_second(body, weight)),
        None => false,
    }
}
