//! Tests of `coll_meanings`: names, weights and what is placed are what the simple form makes of them, which keeps each name by itself.
//!
//! The simple form stands in `simple_meanings` and `simple_weights`. The forms of `coll_meanings` are names one by one, ranges that are kept
//! as they are, and a table that is asked (`forms`). All take the same lines, and all that is told of each is written as a text (`told`).
//! Lines are made (`made_sources`), on both sides of each limit that a form has: 64 ranges, names of 16 bytes, as many declarations as a
//! table may have, and the first and the last name of a range.

mod forms;
mod made_sources;
mod simple_meanings;
mod simple_weights;
pub mod told;

use crate::assertions::{assert_same, assert_text};
use crate::random::Random;
use crate::tables::examples::loaded_lines;
use coll_lex::{ListBuf, TextBuf};
use coll_meanings::SourceIds;
use coll_source_lines::{Said, SourceLine, SourcePlace};
use coll_source_names::{Found, Placed};
use coll_syntax::{Id, OrderLine, Weight};
use coll_table::{HashKeys, Table};
use forms::{named_form, simple_form, tailored_form};
use made_sources::{Made, said};
use std::alloc::Global;
use std::process::Abort;
use told::told;

// The table that is tailored.
const TABLE: &[&str] = &[
    "LC_COLLATE",
    "collating-symbol <S1>",
    "collating-symbol <S10>",
    "collating-symbol <a-symbol-of-more-than-sixteen-bytes>",
    "collating-element <E> from \"ab\"",
    "symbol-equivalence <T> <S1>",
    "symbol-equivalence <U> <T>",
    "order_start forward",
    "<S1>",
    "<S10>",
    "<E>",
    "order_end",
    "END LC_COLLATE",
];

// What it places.
const PLACED: &[&str] = &["S1", "S10", "E"];

// What a source declares: of names that the table has, alike and otherwise, and of new ones.
const DECLARED: &[&str] = &[
    "",
    "collating-symbol <S1>\n",
    "collating-symbol <a-symbol-of-more-than-sixteen-bytes>\n",
    "collating-symbol <S0>..<S2>\n",
    "collating-symbol <E>\n",
    "collating-symbol <T>\n",
    "collating-symbol <N>\n",
    "collating-element <E> from \"<U0061><U0062>\"\n",
    "collating-element <E> from \"<U0061><U0063>\"\n",
    "collating-element <N> from \"<U0061><U0062>\"\n",
    "collating-element <N> from \"<U0061><U0063>\"\n",
    "collating-element <M> from \"<U0061><U0063>\"\n",
    "collating-element <N> from \"<U0061>\"\n",
    "collating-element <S1> from \"<U0061><U0063>\"\n",
    "symbol-equivalence <T> <S1>\n",
    "symbol-equivalence <U> <S1>\n",
    "symbol-equivalence <U> <a-symbol-of-more-than-sixteen-bytes>\n",
    "symbol-equivalence <N> <U>\n",
    "symbol-equivalence <M> <N>\n",
    "symbol-equivalence <N> <E>\n",
    "symbol-equivalence <S1> <S1>\n",
];

// The names that are looked at.
const NAMES: &[&str] = &[
    "S0",
    "S1",
    "a-symbol-of-more-than-sixteen-bytes",
    "E",
    "T",
    "U",
    "N",
    "M",
    "no name",
    "",
];

// Order lines of all of them that are names: each is placed, weighed, named alone and in a list, and placed again.
const ORDERED: &str = "order_start forward
<S0> <S1>
<S1> <a-symbol-of-more-than-sixteen-bytes>
<a-symbol-of-more-than-sixteen-bytes> <E>
<E> <T>
<T> <U>
<U> <N>
<N> <M>
<M> <S0>
<U0061> \"<E><T><N>\"
<U0062> \"<S0><S1><U><M>\"
<E> <N>
<T> <M>
<N>
<M> <E>
order_end
";

// An identifier of this name.
fn named(rt: &impl Abort, alloc: Global, name: &str) -> Id {
    Id::Named(TextBuf::copied(alloc, name).expect(rt, "a name"))
}

// Identifiers of these names.
fn all_named(rt: &impl Abort, alloc: Global, names: &[&str]) -> Vec<Id> {
    let mut ids = Vec::new(alloc);
    for name in names {
        ids.push(named(rt, alloc, name)).expect(rt, "names");
    }
    ids
}

// A table, what it places, and the names that are looked at.
#[derive(Drop)]
struct Tailoring {
    table: Table,
    placed: Vec<Id>,
    names: Vec<Id>,
}

// That of these tests.
fn this_tailoring(rt: &impl Abort, alloc: Global) -> Tailoring {
    Tailoring {
        table: loaded_lines(alloc, TABLE).expect(rt, "a table"),
        placed: all_named(rt, alloc, PLACED),
        names: all_named(rt, alloc, NAMES),
    }
}

// Asserts that the same is told of these lines in each form, over a table if one is given.
fn assert_lines(
    rt: &impl Abort,
    alloc: Global,
    over: Option<&Tailoring>,
    lines: &[SourceLine],
    ids: &[Id],
) {
    let (table, placed): (Option<&Table>, &[Id]) = match over {
        Some(over) => (Some(&over.table), &over.placed),
        None => (None, &[]),
    };
    let wanted = told(rt, alloc, simple_form(rt, alloc, table, placed), lines, ids);
    let form = named_form(rt, alloc, table, placed, false);
    let one_by_one = told(rt, alloc, form, lines, ids);
    assert_text(rt, alloc, &one_by_one, &wanted);
    drop(one_by_one);
    let kept = match table {
        Some(table) => told(rt, alloc, tailored_form(alloc, table), lines, ids),
        None => {
            let form = named_form(rt, alloc, None, placed, true);
            told(rt, alloc, form, lines, ids)
        }
    };
    assert_text(rt, alloc, &kept, &wanted);
    drop(kept);
    drop(wanted);
}

// The text of a source of these lines.
fn source(rt: &impl Abort, alloc: Global, parts: &[&str]) -> Vec<u8> {
    let mut text = Vec::new(alloc);
    text.extend_from_slice(b"LC_COLLATE\n").expect(rt, "a text");
    for part in parts {
        text.extend_from_slice(part.as_bytes()).expect(rt, part);
    }
    text.extend_from_slice(b"END LC_COLLATE\n")
        .expect(rt, "a text");
    text
}

// Asserts that the same is told of a source of these declarations, and of order lines behind them.
fn assert_alike(rt: &impl Abort, alloc: Global, over: &Tailoring, first: &str, second: &str) {
    let text = source(rt, alloc, &[first, second, ORDERED]);
    let lines = said(rt, alloc, &text);
    drop(text);
    assert_lines(rt, alloc, None, &lines, &over.names);
    assert_lines(rt, alloc, Some(over), &lines, &over.names);
    drop(lines);
}

// The same of all sources that begin with a declaration.
fn assert_all_behind(rt: &impl Abort, alloc: Global, over: &Tailoring, first: &str) {
    for second in DECLARED {
        assert_alike(rt, alloc, over, first, second);
    }
}

#[test]
fn two_declarations_mean_what_names_kept_one_by_one_do(rt: HostRuntime) {
    let over = this_tailoring(&rt, rt.alloc());
    for first in DECLARED {
        assert_all_behind(&rt, rt.alloc(), &over, first);
    }
    drop(over);
}

// How many sources are made.
const SOURCES: u64 = 60;

/// An order line, whose only weight is this name, if one is given.
pub fn order_line(
    rt: &impl Abort,
    alloc: Global,
    line: u32,
    id: Id,
    weight: Option<&str>,
) -> SourceLine {
    let weights = match weight {
        Some(name) => {
            let mut ids = Vec::new(alloc);
            ids.push(named(rt, alloc, name)).expect(rt, "a name");
            let mut weights = Vec::new(alloc);
            weights
                .push(Weight::Names(ListBuf::new(ids)))
                .expect(rt, "a weight");
            Some(ListBuf::new(weights))
        }
        None => None,
    };
    SourceLine {
        place: SourcePlace { text: 0, line },
        said: Said::Order(OrderLine { id, weights }),
    }
}

// Puts order lines behind others, whose identifiers or weights are no names.
fn push_none(rt: &impl Abort, alloc: Global, lines: &mut Vec<SourceLine>) {
    for name in &["no name", "", "no name", "N"] {
        let id = named(rt, alloc, name);
        let line = order_line(rt, alloc, 1, id, Some("no name"));
        lines.push(line).expect(rt, "a line");
    }
    let line = order_line(rt, alloc, 1, Id::Char('x'), Some("no name"));
    lines.push(line).expect(rt, "a line");
}

// Asserts that the same is told of the source that is made of a seed.
fn assert_made(rt: &impl Abort, alloc: Global, over: &Tailoring, seed: u64) {
    let mut made = Made::new(alloc, seed);
    made.push(rt, b"LC_COLLATE\n");
    made.declarations(rt, 16);
    made.orders(rt, 48);
    made.push(rt, b"END LC_COLLATE\n");
    let text = made.into_text();
    let mut lines = said(rt, alloc, &text);
    drop(text);
    if seed % 4 == 0 {
        push_none(rt, alloc, &mut lines);
    }
    assert_lines(rt, alloc, None, &lines, &over.names);
    assert_lines(rt, alloc, Some(over), &lines, &over.names);
    drop(lines);
}

#[test]
fn made_sources_mean_what_names_kept_one_by_one_do(rt: HostRuntime) {
    let over = this_tailoring(&rt, rt.alloc());
    for seed in 0..SOURCES {
        assert_made(&rt, rt.alloc(), &over, seed);
    }
    drop(over);
}

// The ranges of each source are far from each other.
#[test]
fn as_many_ranges_as_are_kept_and_more_mean_what_names_kept_one_by_one_do(rt: HostRuntime) {
    for count in 62usize..=67 {
        let mut made = Made::new(rt.alloc(), count as u64);
        let mut orders = Made::new(rt.alloc(), 0);
        made.push(&rt, b"LC_COLLATE\n");
        made.far_ranges(&rt, count, &mut orders);
        made.declarations(&rt, 4);
        let orders = orders.into_text();
        made.push(&rt, &orders);
        drop(orders);
        made.push(&rt, b"END LC_COLLATE\n");
        let text = made.into_text();
        let lines = said(&rt, rt.alloc(), &text);
        drop(text);
        assert_lines(&rt, rt.alloc(), None, &lines, &[]);
        drop(lines);
    }
}

// The names that are looked at where a source declares as much as a table may have, or one more.
const OF_FULL: &[&str] = &[
    "N", "M", "S00000", "S1FFFF", "S3FFFE", "S3FFFF", "T00001", "T1FFFF",
];

// Asserts that this is told of lines and of names, with ranges kept as they are or names one by one.
fn assert_named(
    rt: &impl Abort,
    alloc: Global,
    keeps_ranges: bool,
    lines: &[SourceLine],
    ids: &[Id],
    wanted: &[u8],
) {
    let form = named_form(rt, alloc, None, &[], keeps_ranges);
    let given = told(rt, alloc, form, lines, ids);
    assert_text(rt, alloc, &given, wanted);
    drop(given);
}

// Asserts that the same is told of a source with these declarations by each form.
fn assert_full(rt: &impl Abort, alloc: Global, declared: &str) {
    let ids = all_named(rt, alloc, OF_FULL);
    let text = source(rt, alloc, &[declared]);
    let lines = said(rt, alloc, &text);
    drop(text);
    let wanted = told(rt, alloc, simple_form(rt, alloc, None, &[]), &lines, &ids);
    assert_named(rt, alloc, true, &lines, &ids, &wanted);
    assert_named(rt, alloc, false, &lines, &ids, &wanted);
    drop(wanted);
    drop(lines);
    drop(ids);
}

// 262,143 names in a range, one that fits in behind them, and one that doesn't.
const FULL_BY_A_NAME: &str =
    "collating-symbol <S00000>..<S3FFFE>\n<N>\n<S00000>\n<S3FFFE>\n<S3FFFF>\n<M>\n";

#[test]
fn a_name_more_than_a_table_may_have_is_refused_as_names_kept_one_by_one_are(rt: HostRuntime) {
    assert_full(&rt, rt.alloc(), FULL_BY_A_NAME);
}

// 262,144 names, most of them in two ranges, one that is declared already, and one more.
const FULL_BY_A_RANGE: &str = "collating-symbol <S00000>..<S1FFFF>\ncollating-symbol <N>\n\
    collating-symbol <T00001>..<T1FFFF>\ncollating-symbol <T1FFFF>\ncollating-symbol <M>\n<T1FFFF>\n";

#[test]
fn ranges_of_all_names_that_a_table_may_have_mean_what_names_kept_one_by_one_do(rt: HostRuntime) {
    assert_full(&rt, rt.alloc(), FULL_BY_A_RANGE);
}

// A name, and 262,144 in a range, of which the last one is too many, as are all of the range behind it.
const TOO_FULL: &str =
    "collating-symbol <N>\ncollating-symbol <S00000>..<S3FFFF>\ncollating-symbol <T00000>..<T3FFFF>\n";

#[test]
fn a_range_of_a_name_too_many_is_refused_as_names_kept_one_by_one_are(rt: HostRuntime) {
    assert_full(&rt, rt.alloc(), TOO_FULL);
}

// Characters on both sides of where a word of a set ends, and at both ends of all.
const CHARS: &[char] = &[
    '\0',
    '\u{1}',
    '\u{3e}',
    '\u{3f}',
    '\u{40}',
    '\u{41}',
    '\u{7f}',
    '\u{80}',
    '\u{ff}',
    '\u{100}',
    '\u{d7ff}',
    '\u{e000}',
    '\u{ffff}',
    '\u{10000}',
    '\u{10ffbf}',
    '\u{10ffc0}',
    '\u{10ffff}',
];

// Names on both sides of 16 bytes.
const LONG_NAMES: &[&str] = &["S", "a-name-of-16-byt", "a-name-of-17-byte"];

// An identifier, and whether it was put in last, or ever.
#[derive(Drop)]
struct Known {
    id: Id,
    is_there: bool,
    was_placed: bool,
}

// One that was never put in.
fn unknown(id: Id) -> Known {
    Known {
        id,
        is_there: false,
        was_placed: false,
    }
}

// Identifiers of each kind, none of which was put in.
fn all_unknown(rt: &impl Abort, alloc: Global) -> Vec<Known> {
    let mut all = Vec::new(alloc);
    all.push(unknown(Id::Undefined)).expect(rt, "a word");
    for c in CHARS {
        all.push(unknown(Id::Char(*c))).expect(rt, "a character");
    }
    for name in LONG_NAMES {
        let id = named(rt, alloc, name);
        all.push(unknown(id)).expect(rt, "a name");
    }
    all
}

// Puts an identifier in, where it may be.
fn put(rt: &impl Abort, ids: &mut SourceIds, placed: &mut Placed, known: &mut Known) {
    ids.put(&known.id).expect(rt, "an identifier");
    if let Id::Char(c) = &known.id {
        let is_new = placed.put(Found::Char(*c)).expect(rt, "a character");
        assert_same(rt, *c, is_new, !known.was_placed);
    }
    known.is_there = true;
    known.was_placed = true;
}

// Asserts which identifiers are there.
fn assert_there(rt: &impl Abort, ids: &SourceIds, all: &[Known]) {
    for known in all {
        assert_same(rt, "is there", ids.contains(&known.id), known.is_there);
    }
}

// Puts one of these in, or takes it out.
fn change(
    rt: &impl Abort,
    ids: &mut SourceIds,
    placed: &mut Placed,
    random: &mut Random,
    all: &mut [Known],
) {
    let at = random.below(all.len());
    let Some(known) = all.get_mut(at) else {
        return;
    };
    if random.is_so(60) {
        put(rt, ids, placed, known);
    } else {
        ids.take_out(&known.id);
        known.is_there = false;
    }
}

#[test]
fn sets_have_what_was_put_in_and_not_taken_out(rt: HostRuntime) {
    let mut random = Random::new(1);
    let mut ids = SourceIds::new(rt.alloc(), HashKeys::zeros());
    let mut placed = Placed::new(rt.alloc(), HashKeys::zeros());
    let mut all = all_unknown(&rt, rt.alloc());
    for _ in 0..400 {
        change(&rt, &mut ids, &mut placed, &mut random, &mut all);
        assert_there(&rt, &ids, &all);
    }
    drop(all);
    drop(placed);
    drop(ids);
}
