//! Tests of `coll_surveys`: the survey of a table without fault tells what the survey of any table tells of it.
//!
//! The one passes over most order lines unread, and the other reads all. Many texts are made of the same pieces, and those that a load
//! accepts are surveyed both ways.

use crate::assertions::{assert_same, assert_that};
use crate::pieces::{Form, PLAIN};
use crate::tables::examples::loaded;
use coll_findings::{Told, Warned, WarnedKind};
use coll_surveys::{survey_accepted, survey_table};
use coll_syntax::Id;
use coll_table::{HashKeys, Table};
use std::alloc::Global;
use std::process::Abort;

const FORMS: &[Form] = &[
    PLAIN,
    Form {
        head: "comment_char %\nescape_char /\n",
        escape: b'/',
        comment: b'%',
        end: "\r\n",
    },
    Form {
        head: "escape_char %\ncomment_char \\\r\n",
        escape: b'%',
        comment: b'\\',
        end: "\n",
    },
    Form {
        head: "escape_char =\n",
        escape: b'=',
        comment: b'#',
        end: " \n",
    },
];

// What stands before the order.
const DECLARED: &[&str] = &[
    "script @\n<S>\ncollating-symbol @\n<B>\n",
    "script <S>\ncollating-symbol <B>\n",
    "% <B> @\ncollating-element <E> from \"<U0061><U0062>\"\n@\ncollating-symbol <B>\n",
];

// What stands in the order.
const ORDERED: &[&str] = &[
    "",
    "<A>\n",
    " \t<A> \t\n",
    "<A> % behind\n",
    "<A> % behind @\n<B>\n",
    "% <B>\n",
    "% <B> @\n<B>\n",
    "<B>\n",
    "<B>@\n\n",
    "@\n<B>\n",
    "@\n\n<B>\n",
    "<@B>\n",
    "<B>% near\n",
    "<U0061>\n",
    "<U0061> <A>\n",
    "<U0061> @\n<A>\n",
    "<U0061> <U0061>@@\n",
    "<U0061> \"<A>@\n<U0061>\"\n",
    "<U0062> IGNORE@\n\n",
    "<E> <U0061>\n",
    "\n",
    "UNDEFINED\n",
    "a <A>\n",
    "order_end\norder_start forward\n",
];

// What stands behind that in the order.
const BEHIND: &[&str] = &["", "<B>\n", "@\n<B>\n", "script <T>\n"];

// What ends a text, with what is not looked at.
const END: &str = "order_end\nEND LC_COLLATE\n<B> @\nscript <S>\n";

// The name that a warning is about, if it is about one.
fn name_of(warned: &Warned) -> &str {
    match &warned.id {
        Some(Id::Named(name)) => name.get(),
        _ => "",
    }
}

fn assert_kind(rt: &impl Abort, given: &WarnedKind, wanted: &WarnedKind) {
    assert_same(rt, "warnings", given.count, wanted.count);
    assert_same(rt, "the first", given.firsts.len(), wanted.firsts.len());
    for (one, other) in given.firsts.iter().zip(wanted.firsts.iter()) {
        assert_same(rt, "the line", one.line, other.line);
        assert_same(rt, "the name", name_of(one), name_of(other));
    }
}

// Asserts that the same is told of a text without fault. The answer is how many warnings.
fn assert_told(rt: &impl Abort, given: &Told, wanted: &Told) -> u32 {
    assert_same(rt, "faults", given.faults.len(), 0);
    assert_same(rt, "faults of any table", wanted.faults.len(), 0);
    let (given, wanted) = (&given.warnings, &wanted.warnings);
    assert_same(rt, "the input", given.input, wanted.input);
    assert_kind(rt, &given.copies, &wanted.copies);
    assert_kind(rt, &given.scripts, &wanted.scripts);
    assert_kind(rt, &given.symbols, &wanted.symbols);
    assert_kind(rt, &given.elements, &wanted.elements);
    assert_kind(rt, &given.unchanged, &wanted.unchanged);
    assert_kind(rt, &given.elsewhere, &wanted.elsewhere);
    let named = given.symbols.count.saturating_add(given.elements.count);
    given.scripts.count.saturating_add(named)
}

// Asserts that both surveys of a text tell the same, which gives this table. The answer is how many warnings.
fn assert_alike(rt: &impl Abort, alloc: Global, text: &[u8], table: Table) -> u32 {
    let keys = HashKeys::zeros();
    let given = survey_accepted(alloc, keys, text, table).expect(rt, "a survey");
    let wanted = survey_table(alloc, keys, text).expect(rt, "a survey of any table");
    let warned = assert_told(rt, &given.told, &wanted.told);
    drop(given);
    drop(wanted);
    warned
}

// Asserts this of the text of these pieces, if a load accepts it. The answer is how many warnings.
fn assert_if_accepted(rt: &impl Abort, alloc: Global, form: Form, pieces: &[&str]) -> u32 {
    let mut text = Vec::new(alloc);
    text.extend_from_slice(form.head.as_bytes())
        .expect(rt, "a text");
    for piece in pieces {
        form.push(rt, &mut text, piece);
    }
    let warned = match loaded(alloc, &text) {
        Ok(table) => assert_alike(rt, alloc, &text, table),
        Err(_) => 0,
    };
    drop(text);
    warned
}

// The same of all texts with these declarations and this piece of the order.
fn assert_all_behind(
    rt: &impl Abort,
    alloc: Global,
    form: Form,
    declared: &str,
    ordered: &str,
) -> u32 {
    let begin = "LC_COLLATE\ncollating-symbol <A>\n";
    let mut warned: u32 = 0;
    for behind in BEHIND {
        let pieces = [
            begin,
            declared,
            "order_start forward\n",
            ordered,
            behind,
            END,
        ];
        warned = warned.saturating_add(assert_if_accepted(rt, alloc, form, &pieces));
    }
    warned
}

// The same of all texts with these declarations.
fn assert_all_ordered(rt: &impl Abort, alloc: Global, form: Form, declared: &str) -> u32 {
    let mut warned: u32 = 0;
    for ordered in ORDERED {
        warned = warned.saturating_add(assert_all_behind(rt, alloc, form, declared, ordered));
    }
    warned
}

// The same of all texts of a form, some of which have warnings.
fn assert_form(rt: &impl Abort, alloc: Global, form: Form) {
    let mut warned: u32 = 0;
    for declared in DECLARED {
        warned = warned.saturating_add(assert_all_ordered(rt, alloc, form, declared));
    }
    assert_that(rt, form.end, warned > 10);
}

#[test]
fn a_table_without_fault_is_surveyed_as_any_table(rt: HostRuntime) {
    for form in FORMS {
        assert_form(&rt, rt.alloc(), *form);
    }
}
