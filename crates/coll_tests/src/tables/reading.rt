//! Tables as they are read: rules, declarations, sections, entries and weights, their canonical texts, their copies, each entry by
//! its identifier, and the own name of each name.

use crate::assertions::assert_same;
use crate::statements::Lines;
use crate::tables::examples::{
    BASE_TABLE, SECOND_NAMES, SECOND_NAMES_PRINTED, SPELLED_OTHERWISE, TWO_SECTIONS,
    TWO_SECTIONS_PRINTED, assert_printed, id, loaded, loaded_lines, text_of,
};
use crate::tables::shown::{past_entry, past_table};
use std::alloc::Global;
use std::process::Abort;

// The lines of a table, what it is in short, and the lines that it is printed as.
struct Read {
    lines: Lines,
    shown: &'static str,
    printed: Lines,
}

const READ: &[Read] = &[
    Read {
        lines: BASE_TABLE,
        shown: BASE_SHOWN,
        printed: BASE_TABLE,
    },
    Read {
        lines: TWO_SECTIONS,
        shown: TWO_SECTIONS_SHOWN,
        printed: TWO_SECTIONS_PRINTED,
    },
    Read {
        lines: TWO_SECTIONS_PRINTED,
        shown: TWO_SECTIONS_SHOWN,
        printed: TWO_SECTIONS_PRINTED,
    },
    Read {
        lines: SECOND_NAMES,
        shown: SECOND_NAMES_SHOWN,
        printed: SECOND_NAMES_PRINTED,
    },
    Read {
        lines: SECOND_NAMES_PRINTED,
        shown: SECOND_NAMES_SHOWN,
        printed: SECOND_NAMES_PRINTED,
    },
    Read {
        lines: SPELLED_OTHERWISE,
        shown: SPELLINGS_SHOWN,
        printed: SPELLINGS_PRINTED,
    },
    Read {
        lines: SPELLED_WITH_RETURNS,
        shown: SPELLINGS_SHOWN,
        printed: SPELLINGS_PRINTED,
    },
];

const BASE_SHOWN: &str =
    "rules forward backward forward forward,position\nsymbol <BASE>\nsymbol <MIN>\nsymbol <CAP>\n<BASE>\n<MIN>\n<CAP>\n\
        a - (<BASE>) (<MIN>) I\nA (a) (<BASE>) (<CAP>) I\nb - (<BASE>) (<MIN>) I\nc - (<BASE>) (<MIN>) I\nd - (<BASE>) (<MIN>) I\n\
        section <PUNCT>\n- I I I -\n";

const TWO_SECTIONS_SHOWN: &str =
    "rules forward forward,position\nelement <ch> ch\nsection <L>\na - -\nsection <M>\n<ch> - -\nUNDEFINED I -\n";

const SECOND_NAMES_SHOWN: &str =
    "rules forward forward\nsymbol <MIN>\nequivalence <LOW> <MIN>\nequivalence <SMALL> <MIN>\nelement <ch> ch\n\
        equivalence <LATE> <MIN>\n<MIN>\na - (<MIN>)\n<ch> (<MIN>a) (<MIN>)\n";

// The text of other spellings with a carriage return before each line feed.
const SPELLED_WITH_RETURNS: Lines = &[
    "LC_COLLATE            # the defaults stand\r",
    "collating-symbol \\\r",
    "  <S>\r",
    "collating-symbol <a\\>b>\r",
    "order_start forward;\\\r",
    "forward\r",
    "<S>\r",
    "<a\\>b>\r",
    "a  ;<S>   # trailing\r",
    "b \"<S>a\";IGNORE\r",
    "<U\\0041> \"<U0041>\";<a\\>b>\r",
    "order_end\r",
    "END LC_COLLATE\r",
];

const SPELLINGS_SHOWN: &str =
    "rules forward forward\nsymbol <S>\nsymbol <a>b>\n<S>\n<a>b>\na - (<S>)\nb (<S>a) I\nA - (<a>b>)\n";

// The table of other spellings, printed.
const SPELLINGS_PRINTED: Lines = &[
    "comment_char %",
    "escape_char /",
    "LC_COLLATE",
    "collating-symbol <S>",
    "collating-symbol <a/>b>",
    "order_start forward;forward",
    "<S>",
    "<a/>b>",
    "<U0061> <U0061>;<S>",
    "<U0062> \"<S><U0061>\";IGNORE",
    "<U0041> <U0041>;<a/>b>",
    "order_end",
    "END LC_COLLATE",
];

fn assert_read(rt: &impl Abort, alloc: Global, row: &Read) {
    let text = text_of(rt, alloc, row.lines);
    let table = loaded(alloc, &text).expect(rt, row.shown);
    assert_same(rt, "the table", past_table(rt, row.shown, &table), "");
    let printed = text_of(rt, alloc, row.printed);
    assert_printed(rt, alloc, &table, &printed);
    drop(table);
}

#[test]
fn a_table_is_read_and_printed(rt: HostRuntime) {
    for row in READ {
        assert_read(&rt, rt.alloc(), row);
    }
}

// A copy has taken as many steps as its source.
#[test]
fn a_copy_is_the_same_table(rt: HostRuntime) {
    let table = loaded_lines(rt.alloc(), TWO_SECTIONS).expect(&rt, "a table");
    let copy = table.try_copy(rt.alloc()).expect(&rt, "a copy");
    assert_same(&rt, "the steps", copy.steps(), table.steps());
    let rest = past_table(&rt, TWO_SECTIONS_SHOWN, &copy);
    assert_same(&rt, "the table", rest, "");
    drop(copy);
    drop(table);
}

// An identifier, and its entry in the table of two sections.
const ENTRIES: &[(&str, &str)] = &[
    ("a", "a - -\n"),
    ("ch", "<ch> - -\n"),
    ("UNDEFINED", "UNDEFINED I -\n"),
    ("b", ""),
    ("L", ""),
];

// An identifier, and its entry in the table of second names, none of which has an entry of its own.
const OWN_ENTRIES: &[(&str, &str)] = &[
    ("MIN", "<MIN>\n"),
    ("LOW", ""),
    ("LATE", ""),
    ("ch", "<ch> (<MIN>a) (<MIN>)\n"),
];

// Asserts what a table of three entries has for identifiers.
fn assert_entries(rt: &impl Abort, alloc: Global, lines: Lines, entries: &[(&str, &str)]) {
    let table = loaded_lines(alloc, lines).expect(rt, "a table");
    assert_same(rt, "the entries", table.len(), 3);
    for (text, lack) in entries {
        let id = id(rt, alloc, text);
        let rest = match table.entry(&id) {
            Some(entry) => past_entry(rt, lack, entry),
            None => lack,
        };
        assert_same(rt, *text, rest, "");
        drop(id);
    }
    drop(table);
}

#[test]
fn an_entry_is_found_by_its_identifier(rt: HostRuntime) {
    assert_entries(&rt, rt.alloc(), TWO_SECTIONS, ENTRIES);
}

#[test]
fn no_entry_is_found_by_a_second_name(rt: HostRuntime) {
    assert_entries(&rt, rt.alloc(), SECOND_NAMES, OWN_ENTRIES);
}

// A name, and its own name in the table of second names, if it is declared there.
const OWN_NAMES: &[(&str, Option<&str>)] = &[
    ("MIN", Some("MIN")),
    ("ch", Some("ch")),
    ("LOW", Some("MIN")),
    ("SMALL", Some("MIN")),
    ("LATE", Some("MIN")),
    ("X", None),
    ("a", None),
];

#[test]
fn a_second_name_stands_for_the_own_name_of_its_symbol(rt: HostRuntime) {
    let table = loaded_lines(rt.alloc(), SECOND_NAMES).expect(&rt, "a table");
    for (name, own) in OWN_NAMES {
        assert_same(&rt, *name, table.resolve(name), *own);
    }
    drop(table);
}
