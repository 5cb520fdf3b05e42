//! Tests of `coll_import`: what lines say that no source has.
//!
//! A reader hands on names alone, and `import_table` takes lines from anyone.

use crate::assertions::{assert_same, assert_text, assert_that};
use crate::meanings::order_line;
use crate::meanings::told::tell_losses;
use crate::tables::examples::id;
use coll_import::import_table;
use coll_source_lines::{Report, SourceLine};
use coll_syntax::Id;
use coll_table::HashKeys;
use std::alloc::Global;
use std::process::Abort;

// The number of an order line, its identifier, and the only name that it has as a weight, if it has one: what is no name, twice, a
// character with a weight that names it, and another character.
const ORDERED: &[(u32, &str, Option<&str>)] = &[
    (1, "a b", None),
    (2, "a b", None),
    (3, "c", Some("a b")),
    (4, "d", None),
];

fn lines(rt: &impl Abort, alloc: Global) -> Vec<SourceLine> {
    let mut lines = Vec::new(alloc);
    for (number, text, weight) in ORDERED {
        let line = order_line(rt, alloc, *number, id(rt, alloc, text), *weight);
        lines.push(line).expect(rt, "a line");
    }
    lines
}

// What is lost: no declaration is put for what is no name; its second line is one too many; and at the end its first line is left out,
// and the line whose weight names it.
const LOST: &str = "1 Dropped<a b>
2 Dropped<a b>
2 PlacedTwice<a b>
1 Dropped<a b>
3 Dropped<U0063>
";

#[test]
fn what_is_no_name_is_placed_once_and_left_out_of_the_table(rt: HostRuntime) {
    let mut report = Report::new(rt.alloc());
    let lines = lines(&rt, rt.alloc());
    let table = import_table(rt.alloc(), HashKeys::zeros(), lines, false, &mut report).expect(
        &rt, "a table",
    );
    let mut told = Vec::new(rt.alloc());
    tell_losses(&rt, report.losses(), &mut told);
    assert_text(&rt, rt.alloc(), &told, LOST.as_bytes());
    assert_same(&rt, "entries", table.len(), 1);
    assert_that(&rt, "d stands", table.entry(&Id::Char('d')).is_some());
    drop(table);
    drop(report);
    drop(told);
}
