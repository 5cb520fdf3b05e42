//! The grammar of lines: what each line says, or its fault, as the language has it.
//!
//! A table of lines is one constant text. A row has a line, `=>`, and what the line says in short: its keyword and operands, with
//! weights between parentheses, `-` for an entry's own, and `I` for `IGNORE`; or else the name of its fault. A row that begins with
//! `--` says what the rows behind it show. A new kind of line is a row of the tables in `table_lines` and `delta_lines`.

ghost use Rattle.coll_lex.specs.Names.{AreTokens};

mod delta_lines;
mod table_lines;

use crate::assertions::{assert_same, assert_that, past, past_char, past_name};
use coll_lex::{Lexer, Line};
use coll_syntax::{Id, OrderLine, Rule, Weight};
use std::alloc::Global;
use std::process::Abort;

// The one logical line of a text.
fn line_of(rt: &impl Abort, alloc: Global, text: &str) -> Line
    ensures { AreTokens result.tokens }
{
    let mut lexer = Lexer::new(alloc).expect(rt, "a lexer");
    let line = lexer.feed(text.as_bytes()).expect(rt, text);
    drop(lexer);
    line.expect(rt, text)
}

/// Where a line stands.
#[derive(Clone, Copy)]
pub enum Place {
    Table,
    Delta,
}

/// Asserts what each line says in this place.
pub fn assert_rows(rt: &impl Abort, alloc: Global, place: Place, rows: &str) {
    for row in rows.split('\n') {
        match row.split_once(" => ") {
            Some((text, wanted)) => assert_said(rt, alloc, place, text, wanted),
            None => assert_that(rt, row, row.starts_with("--")),
        }
    }
}

// Asserts what the one logical line of a text says in this place.
fn assert_said(rt: &impl Abort, alloc: Global, place: Place, text: &str, wanted: &str) {
    let line = line_of(rt, alloc, text);
    let rest = match place {
        Place::Table => table_lines::past_line(rt, alloc, wanted, &line),
        Place::Delta => delta_lines::past_line(rt, alloc, wanted, &line),
    };
    assert_same(rt, text, rest, "");
    drop(line);
}

/// What is left of a wanted text behind a keyword and a name.
pub fn past_named<'a>(rt: &impl Abort, wanted: &'a str, keyword: &str, name: &str) -> &'a str {
    past_name(rt, past(rt, wanted, keyword), name)
}

/// .. behind a keyword and two names.
pub fn past_two<'a>(
    rt: &impl Abort,
    wanted: &'a str,
    keyword: &str,
    name: &str,
    other: &str,
) -> &'a str {
    let rest = past_named(rt, wanted, keyword, name);
    past_name(rt, past(rt, rest, " "), other)
}

/// .. behind a collating element, with its characters.
pub fn past_element<'a>(rt: &impl Abort, wanted: &'a str, name: &str, text: &str) -> &'a str {
    let rest = past_named(rt, wanted, "element ", name);
    past(rt, past(rt, rest, " "), text)
}

/// What is left of a wanted text behind an identifier: a character as it is, a name between its brackets, or `UNDEFINED`.
pub fn past_id<'a>(rt: &impl Abort, wanted: &'a str, id: &Id) -> &'a str {
    match id {
        Id::Char(c) => past_char(rt, wanted, *c),
        Id::Named(name) => past_name(rt, wanted, name.get()),
        Id::Undefined => past(rt, wanted, "UNDEFINED"),
    }
}

/// What is left of a wanted text behind a weight: `I` for `IGNORE`, `-` for the entry's own, and else identifiers between parentheses.
pub fn past_weight<'a>(rt: &impl Abort, wanted: &'a str, weight: &Weight) -> &'a str {
    let ids = match weight {
        Weight::Ignore => return past(rt, wanted, "I"),
        Weight::Own => return past(rt, wanted, "-"),
        Weight::Names(ids) => ids.get(),
    };
    let mut rest = past(rt, wanted, "(");
    for id in ids {
        rest = past_id(rt, rest, id);
    }
    past(rt, rest, ")")
}

// .. behind an order line, with copies of its identifier and its weights.
fn past_order<'a>(rt: &impl Abort, wanted: &'a str, line: &OrderLine) -> &'a str {
    let copy = line.id.clone().expect(rt, wanted);
    assert_that(rt, wanted, copy.is_same(&line.id));
    let rest = past_id(rt, past(rt, wanted, "order "), &copy);
    drop(copy);
    let Some(weights) = &line.weights else {
        return rest;
    };
    let mut rest = past(rt, rest, " with");
    for weight in weights.get() {
        let copy = weight.clone().expect(rt, wanted);
        rest = past_weight(rt, past(rt, rest, " "), &copy);
        drop(copy);
    }
    rest
}

/// What is left of a wanted text behind rules, each after a blank.
pub fn past_rules<'a>(rt: &impl Abort, wanted: &'a str, rules: &[Rule]) -> &'a str {
    let mut rest = wanted;
    for rule in rules {
        let shown = match (rule.backward, rule.position) {
            (false, false) => " forward",
            (false, true) => " forward,position",
            (true, false) => " backward",
            (true, true) => " backward,position",
        };
        rest = past(rt, rest, shown);
    }
    rest
}
