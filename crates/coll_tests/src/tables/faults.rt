//! Tables with one change, and the line and the cause of the fault that each then is.

use crate::assertions::assert_same;
use crate::statements::Lines;
use crate::tables::examples::{BASE_TABLE, Change, SPELLED_OTHERWISE, TWO_SECTIONS, loaded};
use coll_lex::LexFault;
use coll_syntax::SyntaxFault;
use coll_table::{LoadCause, LoadFault};

// The lines of a table, a change of them, and the fault of the changed ones.
struct Changed {
    lines: Lines,
    change: Change,
    fault: LoadFault,
}

const CHANGES: &[Changed] = &[
    Changed {
        lines: BASE_TABLE,
        change: Change {
            first: 1,
            last: 19,
            others: &[],
        },
        fault: LoadFault {
            line: 0,
            cause: LoadCause::NoCategory,
        },
    },
    Changed {
        lines: BASE_TABLE,
        change: Change {
            first: 1,
            last: 19,
            others: &["LC_COLLATE", "END LC_COLLATE"],
        },
        fault: LoadFault {
            line: 2,
            cause: LoadCause::NoRules,
        },
    },
    Changed {
        lines: BASE_TABLE,
        change: Change {
            first: 6,
            last: 6,
            others: &["collating-symbol <MIN>"],
        },
        fault: LoadFault {
            line: 6,
            cause: LoadCause::DeclaredTwice,
        },
    },
    Changed {
        lines: BASE_TABLE,
        change: Change {
            first: 7,
            last: 7,
            others: &["order_start forward,backward;forward"],
        },
        fault: LoadFault {
            line: 7,
            cause: LoadCause::Syntax(SyntaxFault::BadRule),
        },
    },
    Changed {
        lines: BASE_TABLE,
        change: Change {
            first: 7,
            last: 7,
            others: &["order_start forward;forward;forward;forward;forward"],
        },
        fault: LoadFault {
            line: 7,
            cause: LoadCause::Syntax(SyntaxFault::TooManyLevels),
        },
    },
    Changed {
        lines: BASE_TABLE,
        change: Change {
            first: 8,
            last: 8,
            others: &["<UD800>"],
        },
        fault: LoadFault {
            line: 8,
            cause: LoadCause::Lex(LexFault::BadCodePoint),
        },
    },
    Changed {
        lines: BASE_TABLE,
        change: Change {
            first: 8,
            last: 8,
            others: &["<BASE"],
        },
        fault: LoadFault {
            line: 8,
            cause: LoadCause::Lex(LexFault::OpenSymbol),
        },
    },
    Changed {
        lines: BASE_TABLE,
        change: Change {
            first: 8,
            last: 8,
            others: &["<>"],
        },
        fault: LoadFault {
            line: 8,
            cause: LoadCause::Lex(LexFault::EmptySymbol),
        },
    },
    Changed {
        lines: BASE_TABLE,
        change: Change {
            first: 9,
            last: 9,
            others: &["<MIN> IGNORE"],
        },
        fault: LoadFault {
            line: 9,
            cause: LoadCause::SymbolWithWeights,
        },
    },
    Changed {
        lines: BASE_TABLE,
        change: Change {
            first: 13,
            last: 13,
            others: &["<U0062> <U0062>;<X>"],
        },
        fault: LoadFault {
            line: 13,
            cause: LoadCause::NotDeclared,
        },
    },
    Changed {
        lines: BASE_TABLE,
        change: Change {
            first: 13,
            last: 13,
            others: &["<U0062> <U007A>"],
        },
        fault: LoadFault {
            line: 13,
            cause: LoadCause::WeightNotPlaced,
        },
    },
    Changed {
        lines: BASE_TABLE,
        change: Change {
            first: 13,
            last: 13,
            others: &["<U0062> <U0062>;;;;"],
        },
        fault: LoadFault {
            line: 13,
            cause: LoadCause::TooManyWeights,
        },
    },
    Changed {
        lines: BASE_TABLE,
        change: Change {
            first: 13,
            last: 13,
            others: &["<U0062> \"/x41\""],
        },
        fault: LoadFault {
            line: 13,
            cause: LoadCause::Lex(LexFault::CharacterConstant),
        },
    },
    Changed {
        lines: BASE_TABLE,
        change: Change {
            first: 13,
            last: 13,
            others: &["<U0062>..<U0064>"],
        },
        fault: LoadFault {
            line: 13,
            cause: LoadCause::Syntax(SyntaxFault::BadOperand),
        },
    },
    Changed {
        lines: BASE_TABLE,
        change: Change {
            first: 15,
            last: 15,
            others: &["<U0063>"],
        },
        fault: LoadFault {
            line: 15,
            cause: LoadCause::PlacedTwice,
        },
    },
    Changed {
        lines: BASE_TABLE,
        change: Change {
            first: 16,
            last: 16,
            others: &["order_start forward"],
        },
        fault: LoadFault {
            line: 16,
            cause: LoadCause::RulesDiffer,
        },
    },
    Changed {
        lines: BASE_TABLE,
        change: Change {
            first: 16,
            last: 16,
            others: &["section <PUNCT>", "section <PUNCT>"],
        },
        fault: LoadFault {
            line: 17,
            cause: LoadCause::SectionTwice,
        },
    },
    Changed {
        lines: BASE_TABLE,
        change: Change {
            first: 18,
            last: 18,
            others: &[],
        },
        fault: LoadFault {
            line: 18,
            cause: LoadCause::OutsideOrder,
        },
    },
    Changed {
        lines: BASE_TABLE,
        change: Change {
            first: 19,
            last: 19,
            others: &[],
        },
        fault: LoadFault {
            line: 18,
            cause: LoadCause::NoEnd,
        },
    },
    Changed {
        lines: BASE_TABLE,
        change: Change {
            first: 19,
            last: 19,
            others: &["END LC_COLLATE /"],
        },
        fault: LoadFault {
            line: 19,
            cause: LoadCause::Lex(LexFault::DanglingEscape),
        },
    },
    Changed {
        lines: BASE_TABLE,
        change: Change {
            first: 5,
            last: 6,
            others: &[
                "collating-element <p> from \"xy\"",
                "collating-element <q> from \"<U0078>y\"",
            ],
        },
        fault: LoadFault {
            line: 6,
            cause: LoadCause::StringTwice,
        },
    },
    // A second name stands for a symbol, and for no element.
    Changed {
        lines: BASE_TABLE,
        change: Change {
            first: 6,
            last: 6,
            others: &[
                "collating-element <p> from \"xy\"",
                "symbol-equivalence <q> <p>",
            ],
        },
        fault: LoadFault {
            line: 7,
            cause: LoadCause::NotASymbol,
        },
    },
    // An escaped digit makes a name of a code point or none, by the escape character.
    Changed {
        lines: SPELLED_OTHERWISE,
        change: Change {
            first: 11,
            last: 11,
            others: &["<U\\0041> \"<U0041>\";<U/0041>", "<U/0041>"],
        },
        fault: LoadFault {
            line: 12,
            cause: LoadCause::NotDeclared,
        },
    },
    Changed {
        lines: SPELLED_OTHERWISE,
        change: Change {
            first: 11,
            last: 11,
            others: &["<U\\0041> \"<U0041>\";;"],
        },
        fault: LoadFault {
            line: 11,
            cause: LoadCause::TooManyWeights,
        },
    },
    // Rules are given once, and a section begins once.
    Changed {
        lines: TWO_SECTIONS,
        change: Change {
            first: 9,
            last: 9,
            others: &["order_start forward"],
        },
        fault: LoadFault {
            line: 9,
            cause: LoadCause::RulesDiffer,
        },
    },
    Changed {
        lines: TWO_SECTIONS,
        change: Change {
            first: 7,
            last: 7,
            others: &["order_start <L>"],
        },
        fault: LoadFault {
            line: 7,
            cause: LoadCause::SectionTwice,
        },
    },
];

// The lines so changed aren't a table, handed in line by line and as one text.
#[test]
fn each_change_has_its_fault(rt: HostRuntime) {
    for Changed {
        lines,
        change,
        fault,
    } in CHANGES {
        let given = change.loaded(rt.alloc(), lines).err();
        assert_same(&rt, *fault, given, Some(*fault));
        let mut text = Vec::new(rt.alloc());
        change.push(&rt, &mut text, lines);
        let given = loaded(rt.alloc(), &text).err();
        assert_same(&rt, *fault, given, Some(*fault));
    }
}
