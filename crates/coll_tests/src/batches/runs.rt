//! Whole batches over the base table, and what is written for them.

use super::asked::Asked;
use super::{C_BEHIND_A, Inputs, NONE_FAILS, Output, assert_batch};
use crate::statements::Lines;
use crate::tables::examples::{BASE_TABLE, Change, text_of};

/// The base table, compiled.
pub const BASE_LISTING: Lines = &[
    "compiled 1 4 9",
    "rule forward",
    "rule backward",
    "rule forward",
    "rule forward,position",
    "4 <U0061> 4 | 1 | 2 | |",
    "5 <U0041> 4 | 1 | 3 | |",
    "6 <U0062> 6 | 1 | 2 | |",
    "7 <U0063> 7 | 1 | 2 | |",
    "8 <U0064> 8 | 1 | 2 | |",
    "9 <U002D> | | | 9 |",
    "10 UNDEFINED * | * | * | * |",
    "end",
];

// What a batch is asked for, its delta files, and what is written.
const DONE: &[(Asked, &[&str], Output)] = &[
    (Asked::Compile, &[], Output::Lines(BASE_LISTING)),
    (Asked::Print, &[C_BEHIND_A], PRINTED),
    (
        Asked::Key(&[("ab", 1), ("", 1)]),
        &[],
        Output::Lines(&["4 6 | 1 1 | 2 2 | |", "| | | |"]),
    ),
    (
        Asked::Key(&[("c", 1)]),
        &[C_BEHIND_A],
        Output::Lines(&["5 | 1 | 2 | |"]),
    ),
    (
        Asked::Compare(("a", 1), ("A", 1)),
        &[],
        Output::Lines(&["less"]),
    ),
    (
        Asked::Check,
        &[C_BEHIND_A, C_BEHIND_A],
        Output::Lines(&["table entries 9 declared 3 sections 2 levels 4"]),
    ),
    // Lines that get no reply in a session have no effect in a file either, and nothing is looked at behind the category.
    (
        Asked::Key(&[("c", 1)]),
        &[
            "\u{FEFF}\nLC_COLLATE # now\nLC_COLLATE\ncopy \"iso14651_t1\"\nscript <Latn>\nreorder-after <U0061>\n# note\n<U0063>\n\
                reorder-end\nEND LC_COLLATE\nbogus \\\n",
        ],
        Output::Lines(&["5 | 1 | 2 | |"]),
    ),
];

/// The base table as the delta file makes it.
pub const PRINTED: Output = Output::Base(Change {
    first: 12,
    last: 14,
    others: &[
        "<U0063> <U0063>;<BASE>;<MIN>;IGNORE",
        "<U0041> <U0061>;<BASE>;<CAP>;IGNORE",
        "<U0062> <U0062>;<BASE>;<MIN>;IGNORE",
    ],
});

// What a batch is asked for, its delta files, and the line that tells the fault.
const REFUSED: &[(Asked, &[&str], &str)] = &[
    (
        Asked::Print,
        &[
            "escape_char /\ncomment_char %\nLC_COLLATE\nreorder-after <U007A>\n<U0063>\nreorder-end\nEND LC_COLLATE\n",
        ],
        "D.txt:4: 50 TargetNotPlaced\n",
    ),
    (
        Asked::Print,
        &[
            "escape_char /\ncomment_char %\nLC_COLLATE\nreorder-after <U0061>\n<U0063>\nEND LC_COLLATE\n",
        ],
        "D.txt:6: 63 BlockNotEnded\n",
    ),
    (
        Asked::Print,
        &[
            "escape_char /\ncomment_char %\nLC_COLLATE\nreorder-after <U0061>\nbogus\nreorder-end\nEND LC_COLLATE\n",
        ],
        "D.txt:5: 20 UnknownStatement\n",
    ),
    (Asked::Print, &[""], "D.txt:0: 30 NoCategory\n"),
    (
        Asked::Key(&[("a", 1), ("a", 65_537)]),
        &[],
        "B.txt:0: 65 TextTooLong\n",
    ),
    (
        Asked::Compare(("b", 1), ("a", 65_537)),
        &[],
        "B.txt:0: 65 TextTooLong\n",
    ),
];

#[test]
fn a_batch_writes_what_it_is_asked_for(rt: HostRuntime) {
    let table = text_of(&rt, rt.alloc(), BASE_TABLE);
    for (asked, deltas, output) in DONE {
        let output = output.text(&rt, rt.alloc());
        let inputs = Inputs {
            table: &table,
            deltas,
            read: NONE_FAILS,
        };
        assert_batch(&rt, rt.alloc(), asked, inputs, (0, &output, ""));
    }
}

#[test]
fn a_batch_at_fault_writes_nothing(rt: HostRuntime) {
    let table = text_of(&rt, rt.alloc(), BASE_TABLE);
    for (asked, deltas, line) in REFUSED {
        let inputs = Inputs {
            table: &table,
            deltas,
            read: NONE_FAILS,
        };
        assert_batch(&rt, rt.alloc(), asked, inputs, (1, b"", line));
    }
}
