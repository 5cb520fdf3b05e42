//! Statements applied to tables and turned back, and the ring steps that it takes.

ghost use Rattle.coll_syntax.specs.Proper.{IsProper};

use crate::assertions::assert_same;
use crate::statements::{Lines, statement_of};
use crate::tables::examples::{BASE_TABLE, SECTIONS_TABLE, assert_printed, printed, rewritten};
use coll_syntax::Statement;
use coll_table::Table;
use std::alloc::Global;
use std::process::Abort;

// A table, statements that it accepts, a further one, and how many ring steps it takes to turn that one back or do it again.
struct Turned {
    table: Lines,
    before: &'static [Lines],
    statement: Lines,
    steps: u32,
}

const TURNED: &[Turned] = &[
    // A block takes two steps for each line whose entry was placed, and one for each other line.
    Turned {
        table: BASE_TABLE,
        before: &[],
        statement: &["reorder-after <U0061>", "<U0063>"],
        steps: 2,
    },
    Turned {
        table: BASE_TABLE,
        before: &[],
        statement: &["reorder-after <U0064>", "<U0061>", "<U0041>"],
        steps: 4,
    },
    Turned {
        table: BASE_TABLE,
        before: &[],
        statement: &["reorder-after <U0061>"],
        steps: 0,
    },
    Turned {
        table: BASE_TABLE,
        before: &[&["collating-element <ch> from \"<U0063><U0068>\""]],
        statement: &["reorder-after <U0063>", "<ch> <ch>;<BASE>;<MIN>;IGNORE"],
        steps: 1,
    },
    Turned {
        table: BASE_TABLE,
        before: &[&["collating-symbol <X>"]],
        statement: &[
            "reorder-after <MIN>",
            "<X>",
            "<U0061> <U0061>;<X>;<MIN>;IGNORE",
        ],
        steps: 3,
    },
    // A declaration takes one step, a section two, wherever it stands, and other weights none.
    Turned {
        table: BASE_TABLE,
        before: &[],
        statement: &["collating-element <ch> from \"<U0063><U0068>\""],
        steps: 1,
    },
    Turned {
        table: BASE_TABLE,
        before: &[],
        statement: &["collating-symbol <X>"],
        steps: 1,
    },
    Turned {
        table: BASE_TABLE,
        before: &[],
        statement: &["symbol-equivalence <LOW> <MIN>"],
        steps: 1,
    },
    // Whatever name an entry is given by, it is the one that stood there.
    Turned {
        table: BASE_TABLE,
        before: &[&["symbol-equivalence <LOW> <MIN>"]],
        statement: &["reorder-after <CAP>", "<LOW>"],
        steps: 2,
    },
    Turned {
        table: SECTIONS_TABLE,
        before: &[],
        statement: &["reorder-section-after <S2> <S1>"],
        steps: 2,
    },
    Turned {
        table: SECTIONS_TABLE,
        before: &[],
        statement: &["reorder-section-after <S1> <S3>"],
        steps: 2,
    },
    Turned {
        table: BASE_TABLE,
        before: &[],
        statement: &["<U0062> <U0063>"],
        steps: 0,
    },
];

// Asserts that a statement is turned back and done again, each by so many ring steps, and what the table is each time.
fn assert_turns(
    rt: &impl Abort,
    alloc: Global,
    table: &mut Table,
    statement: &Statement,
    steps: u32,
)
    requires { IsProper statement.now }
{
    let before = printed(rt, alloc, table);
    let mut record = table.apply(statement).expect(rt, "a record");
    let after = printed(rt, alloc, table);
    let taken = table.steps();
    assert_same(rt, "the steps back", table.flip(&mut record), steps);
    assert_printed(rt, alloc, table, &before);
    assert_same(rt, "the steps", table.flip(&mut record), steps);
    assert_printed(rt, alloc, table, &after);
    let taken = table.steps().wrapping_sub(taken);
    assert_same(rt, "both ways", taken, u64::from(steps).saturating_mul(2));
    drop(record);
}

#[test]
fn a_statement_is_turned_by_the_steps_of_its_own_nodes(rt: HostRuntime) {
    for row in TURNED {
        let mut table = rewritten(&rt, rt.alloc(), row.table, row.before);
        let statement = statement_of(&rt, rt.alloc(), row.statement);
        assert_turns(&rt, rt.alloc(), &mut table, &statement, row.steps);
        drop(statement);
        drop(table);
    }
}
