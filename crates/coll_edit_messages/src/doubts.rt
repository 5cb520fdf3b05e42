//! What is wrong with a line of a block whatever its other lines say.
//!
//! The reply to a block tells it, where the block ends. A person is told of it where the line is typed: that a target has no place, that
//! a name isn't declared, since no line of a block declares one, or that a symbol has weights, or an entry too many. What is found is for
//! standard error alone, and changes no reply; where memory is refused, nothing is found.

ghost use Rattle.coll_lex.specs.Names.{AreTokens};

use coll_advice::{Found, copied_own_id, faults_of};
use coll_lex::{Line, ListBuf};
use coll_syntax::{DeltaLine, Id, OrderLine, Statement, Weight, parse_delta_line};
use coll_table::{Refusal, Table};
use std::alloc::Global;

/// What the reply to a block will tell of a line.
#[derive(Drop)]
pub struct Doubt {
    /// The number of the refusal.
    pub number: u8,
    /// What it is about.
    pub id: Id,
}

/// What is wrong with a line, if it opens a block or may be one of its lines, whatever the other lines say.
pub(crate) fn doubt_about(alloc: Global, table: &Table, line: &Line) -> Option<Doubt>
    requires { AreTokens line.now.tokens }
{
    match parse_delta_line(alloc, line) {
        Ok(DeltaLine::ReorderAfter(target)) => doubt_about_target(alloc, table, target),
        Ok(DeltaLine::Order(order)) => {
            let doubt = doubt_about_order(alloc, table, &order);
            drop(order);
            doubt
        }
        Ok(read) => {
            drop(read);
            None
        }
        Err(_) => None,
    }
}

// What is wrong with a target: what a block has that is put behind it, and is no line's.
fn doubt_about_target(alloc: Global, table: &Table, target: Id) -> Option<Doubt> {
    let block = Statement::Block {
        target,
        lines: ListBuf::new(Vec::new(alloc)),
    };
    let found = found_in(alloc, table, &block);
    drop(block);
    let found = found?;
    let doubt = match found.first() {
        Some(fault) => doubt_of(fault),
        None => None,
    };
    drop(found);
    doubt
}

// What is wrong with a statement; nothing where that can't be told.
fn found_in(alloc: Global, table: &Table, statement: &Statement) -> Option<Vec<Found>> {
    if !statement.is_proper() {
        return None;
    }
    faults_of(alloc, table, statement).ok()
}

// What is told of what was found, if it is about an identifier.
fn doubt_of(found: &Found) -> Option<Doubt> {
    let id = found.id.as_ref()?.clone().ok()?;
    Some(Doubt {
        number: found.refusal.number(),
        id,
    })
}

// What is wrong with an order line: its own name, its weights as they are given, or the first name among them that isn't declared.
fn doubt_about_order(alloc: Global, table: &Table, order: &OrderLine) -> Option<Doubt> {
    if !is_declared(table, &order.id) {
        return refused_for(Refusal::NotDeclared, &order.id);
    }
    let weights = order.weights.as_ref()?.get();
    if is_symbol(alloc, table, &order.id) {
        return refused_for(Refusal::SymbolWithWeights, &order.id);
    }
    if weights.len() > table.rules().len() {
        return refused_for(Refusal::TooManyWeights, &order.id);
    }
    for weight in weights {
        if let Some(id) = undeclared_in(table, weight) {
            return refused_for(Refusal::NotDeclared, id);
        }
    }
    None
}

// Whether an identifier is the name of a symbol, its own or a second one.
fn is_symbol(alloc: Global, table: &Table, id: &Id) -> bool {
    match copied_own_id(alloc, table, id) {
        Ok(own) => {
            let is_symbol = table.is_symbol(&own);
            drop(own);
            is_symbol
        }
        Err(_) => false,
    }
}

// The first name of a weight that isn't declared.
fn undeclared_in<'a>(table: &Table, weight: &'a Weight) -> Option<&'a Id> {
    let Weight::Names(ids) = weight else {
        return None;
    };
    for id in ids.get() {
        if !is_declared(table, id) {
            return Some(id);
        }
    }
    None
}

// Whether an identifier is a declared name, or no name.
fn is_declared(table: &Table, id: &Id) -> bool {
    match id {
        Id::Named(name) => table.resolve(name.get()).is_some(),
        _ => true,
    }
}

// What is told of a line that is refused so for an identifier.
fn refused_for(refusal: Refusal, id: &Id) -> Option<Doubt> {
    let id = id.clone().ok()?;
    Some(Doubt {
        number: refusal.number(),
        id,
    })
}
