//! A table, shown in short.
//!
//! One line has the rules, one each declaration, one each named section, and one each entry with its weights, as the
//! grammar's tests show them.

use crate::assertions::past;
use crate::grammar::{past_element, past_id, past_named, past_rules, past_two, past_weight};
use coll_table::{DeclaredItem, Entry, Table, WalkItem};
use std::process::Abort;

/// What is left of a wanted text behind what a table is, read by `rules`, `declared` and `walk`.
pub fn past_table<'a>(rt: &impl Abort, wanted: &'a str, table: &Table) -> &'a str {
    let rest = past_rules(rt, past(rt, wanted, "rules"), table.rules());
    let rest = past_declarations(rt, past(rt, rest, "\n"), table);
    past_walk(rt, rest, table)
}

fn past_declarations<'a>(rt: &impl Abort, wanted: &'a str, table: &Table) -> &'a str {
    let mut rest = wanted;
    for item in table.declared() {
        let shown = match item {
            DeclaredItem::Symbol(name) => past_named(rt, rest, "symbol ", name),
            DeclaredItem::Equivalence(name, symbol) => {
                past_two(rt, rest, "equivalence ", name, symbol)
            }
            DeclaredItem::Element(name, text) => past_element(rt, rest, name, text),
        };
        rest = past(rt, shown, "\n");
    }
    rest
}

fn past_walk<'a>(rt: &impl Abort, wanted: &'a str, table: &Table) -> &'a str {
    let mut rest = wanted;
    for item in table.walk() {
        rest = match item {
            WalkItem::Section(name) => past(rt, past_named(rt, rest, "section ", name), "\n"),
            WalkItem::Entry(entry) => past_entry(rt, rest, entry),
        };
    }
    rest
}

/// What is left of a wanted text behind an entry and its weights.
pub fn past_entry<'a>(rt: &impl Abort, wanted: &'a str, entry: &Entry) -> &'a str {
    let mut rest = past_id(rt, wanted, entry.id());
    for weight in entry.weights() {
        rest = past_weight(rt, past(rt, rest, " "), weight);
    }
    past(rt, rest, "\n")
}
