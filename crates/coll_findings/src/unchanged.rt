//! Whether a statement leaves a table as it is.
//!
//! Of one that a table took, this is read from its record (`changed_nothing`): each of its items stands where it stood, with the weights
//! that it had. Of one that it will take, it is read from the table (`changes_nothing`). Two lists are gone along by an iterator of the
//! second, and not by `zip`, whose proofs the crate would load for these loops alone.

use coll_syntax::{Id, OrderLine, Statement, Weight};
use coll_table::{Item, Record, Table};

/// Whether a statement, of which this is the record, left the table as it was. A statement that uses a second name may do so unseen.
pub fn changed_nothing(table: &Table, statement: &Statement, record: &Record) -> bool {
    match statement {
        Statement::Block { lines, .. } => kept_lines(table, lines.get(), record.items.get()),
        Statement::Reweight(line) => kept_lines(
            table,
            std::slice::from_ref(line),
            record.items.get(),
        ),
        Statement::SectionAfter { .. } => record.items.get().iter().all(stays),
        Statement::Symbol(_) | Statement::Element { .. } | Statement::Equivalence { .. } => false,
    }
}

/// Whether a statement that a table takes leaves it as it is: each line of a block stands behind the one before it, or behind the target,
/// already, and has the weights that it gives. What is written by a second name is taken for a change, and so is a section that is moved.
pub fn changes_nothing(table: &Table, statement: &Statement) -> bool {
    match statement {
        Statement::Block { target, lines } => stand_behind(table, target, lines.get()),
        Statement::Reweight(line) => has_weights(table, line),
        _ => false,
    }
}

// Whether each line's entry stands directly behind that of the line before, or behind the target, with the weights of its line.
fn stand_behind(table: &Table, target: &Id, lines: &[OrderLine]) -> bool {
    let mut before = target;
    for line in lines {
        if !is_behind(table, before, &line.id) || !has_weights(table, line) {
            return false;
        }
        before = &line.id;
    }
    true
}

// Whether an entry stands directly behind another one in the same section.
fn is_behind(table: &Table, before: &Id, id: &Id) -> bool {
    match table.entry_behind(before) {
        Some(entry) if entry.id().is_same(id) => {
            match (table.section_name(before), table.section_name(id)) {
                (Some(section), Some(other)) => section == other,
                (None, None) => true,
                _ => false,
            }
        }
        _ => false,
    }
}

// Whether the entry of a line has the weights that the line gives. A level without one has the entry itself.
fn has_weights(table: &Table, line: &OrderLine) -> bool {
    let Some(weights) = &line.weights else {
        return true;
    };
    let Some(entry) = table.entry(&line.id) else {
        return false;
    };
    let mut given = weights.get().iter();
    for weight in entry.weights() {
        if !is_given(entry.id(), given.next(), weight) {
            return false;
        }
    }
    true
}

// Whether a weight of an entry is the one that is given, if one is. An entry's own may be spelled as its identifier.
fn is_given(id: &Id, given: Option<&Weight>, weight: &Weight) -> bool {
    let Some(given) = given else {
        return weight.is_own();
    };
    match given {
        Weight::Names(ids) if weight.is_own() => match ids.get() {
            [only] => only.is_same(id),
            _ => false,
        },
        _ => is_same(given, weight),
    }
}

// Whether each line left its entry where it stood, with the weights that it had.
fn kept_lines(table: &Table, lines: &[OrderLine], items: &[Item]) -> bool {
    let mut left = items.iter();
    for line in lines {
        match left.next() {
            Some(item) if stays(item) && keeps_weights(table, &line.id, item) => {}
            Some(_) => return false,
            None => return true,
        }
    }
    true
}

// Whether an item stands where it stood.
fn stays(item: &Item) -> bool {
    match item.new {
        Some(new) => item.old == Some(new),
        None => true,
    }
}

// Whether an item has the weights that it had, where it got some.
fn keeps_weights(table: &Table, id: &Id, item: &Item) -> bool {
    let Some(had) = &item.weights else {
        return true;
    };
    match table.entry(id) {
        Some(entry) => are_same(had.get(), entry.weights()),
        None => false,
    }
}

// Whether two lists of weights are the same.
fn are_same(weights: &[Weight], others: &[Weight]) -> bool {
    if weights.len() != others.len() {
        return false;
    }
    let mut left = others.iter();
    for weight in weights {
        match left.next() {
            Some(other) if is_same(weight, other) => {}
            _ => return false,
        }
    }
    true
}

// Whether two weights are the same.
fn is_same(weight: &Weight, other: &Weight) -> bool {
    match (weight, other) {
        (Weight::Ignore, Weight::Ignore) => true,
        (Weight::Own, Weight::Own) => true,
        (Weight::Names(ids), Weight::Names(others)) => are_same_ids(ids.get(), others.get()),
        _ => false,
    }
}

// Whether two lists of identifiers are the same.
fn are_same_ids(ids: &[Id], others: &[Id]) -> bool {
    if ids.len() != others.len() {
        return false;
    }
    let mut left = others.iter();
    for id in ids {
        match left.next() {
            Some(other) if id.is_same(other) => {}
            _ => return false,
        }
    }
    true
}
