//! The calls of a session, one after another.
//!
//! Before each statement it is judged alone, and the table is copied, and the copy rewritten: all have to say what the session then
//! does. The growths of these calls are counted, and one that is refused memory is made again (`growths`).

ghost use Rattle.coll_syntax.specs.Proper.{IsProper};

use crate::assertions::{assert_same, assert_text, assert_that};
use crate::growths::{count_growths, count_no_growths, tell_refused};
use crate::statements::{Lines, statement_of};
use crate::tables::examples::{BASE_TABLE, SECTIONS_TABLE, assert_printed, loaded_lines, printed};
use coll_bench::{BenchFault, Session};
use coll_syntax::Statement;
use coll_table::{Refusal, Table};
use std::alloc::Global;
use std::process::Abort;

// A call of a session, and its answer.
enum Call {
    States(Lines, Result<u32, BenchFault>),
    Undo(Result<u32, BenchFault>),
    Redo(Result<u32, BenchFault>),
    Withdraw(u32, Result<u32, BenchFault>),
}

use Call::{Redo, States, Undo, Withdraw};

// Without the block the fourth statement is refused, and without the symbol the second one.
const BLOCK_IS_NEEDED: BenchFault = BenchFault::StillNeeded {
    statement: 4,
    refusal: Refusal::WeightNotPlaced,
};

const SYMBOL_IS_NEEDED: BenchFault = BenchFault::StillNeeded {
    statement: 2,
    refusal: Refusal::NotDeclared,
};

// A table, and the calls of a session over it.
const SESSIONS: &[(Lines, &[Call])] = &[
    (
        BASE_TABLE,
        &[
            States(&["reorder-after <U0061>", "<U0063>"], Ok(1)),
            Undo(Ok(0)),
            Redo(Ok(1)),
            Undo(Ok(0)),
            Undo(Err(BenchFault::NothingToUndo)),
        ],
    ),
    (
        BASE_TABLE,
        &[
            States(&["reorder-after <U0064>", "<U0061>", "<U0041>"], Ok(1)),
            Undo(Ok(0)),
        ],
    ),
    (
        BASE_TABLE,
        &[
            States(&["reorder-after <U0064>", "<U002D>"], Ok(1)),
            Undo(Ok(0)),
        ],
    ),
    (
        BASE_TABLE,
        &[
            States(&["collating-element <ch> from \"<U0063><U0068>\""], Ok(1)),
            States(
                &["reorder-after <U0063>", "<ch> <ch>;<BASE>;<MIN>;IGNORE"],
                Ok(2),
            ),
        ],
    ),
    (
        BASE_TABLE,
        &[States(
            &[
                "reorder-after <U0061>",
                "<U0063>",
                "<U0064>",
                "<U0062> <U0062>;<X>",
            ],
            Err(BenchFault::Table(Refusal::NotDeclared)),
        )],
    ),
    (
        BASE_TABLE,
        &[
            States(&["collating-symbol <X>"], Ok(1)),
            Undo(Ok(0)),
            States(
                &["reorder-after <X>"],
                Err(BenchFault::Table(Refusal::TargetNotPlaced)),
            ),
            Redo(Ok(1)),
            Undo(Ok(0)),
            States(&["collating-symbol <X>"], Ok(1)),
            Redo(Err(BenchFault::NothingToRedo)),
        ],
    ),
    (
        SECTIONS_TABLE,
        &[
            States(&["reorder-section-after <S2> <S1>"], Ok(1)),
            Undo(Ok(0)),
            States(&["reorder-section-after <S1> <S3>"], Ok(1)),
            States(
                &["reorder-section-after <S1> <S1>"],
                Err(BenchFault::Table(Refusal::SectionAfterItself)),
            ),
            States(
                &["reorder-section-after <S1> <Q>"],
                Err(BenchFault::Table(Refusal::NoSuchSection)),
            ),
            Undo(Ok(0)),
        ],
    ),
    (
        BASE_TABLE,
        &[States(&["<U0062> <U0063>"], Ok(1)), Undo(Ok(0))],
    ),
    (
        BASE_TABLE,
        &[
            States(&["symbol-equivalence <LOW> <MIN>"], Ok(1)),
            States(&["symbol-equivalence <SMALL> <LOW>"], Ok(2)),
            States(
                &["symbol-equivalence <LOW> <CAP>"],
                Err(BenchFault::Table(Refusal::DeclaredTwice)),
            ),
            States(
                &["symbol-equivalence <Z> <Q>"],
                Err(BenchFault::Table(Refusal::NotDeclared)),
            ),
            States(
                &["reorder-after <CAP>", "<LOW>", "<MIN>"],
                Err(BenchFault::Table(Refusal::TwiceInBlock)),
            ),
            States(
                &["<LOW> IGNORE"],
                Err(BenchFault::Table(Refusal::SymbolWithWeights)),
            ),
            States(&["reorder-after <CAP>", "<SMALL>"], Ok(3)),
            States(&["<U0062> <U0062>;<LOW>"], Ok(4)),
            Undo(Ok(3)),
            Undo(Ok(2)),
            Undo(Ok(1)),
            Undo(Ok(0)),
            Redo(Ok(1)),
        ],
    ),
    (
        BASE_TABLE,
        &[
            States(&["collating-symbol <X>"], Ok(1)),
            States(&["reorder-after <CAP>", "<X>"], Ok(2)),
            States(&["reorder-after <U0061>", "<U0063>"], Ok(3)),
            States(&["<U0062> <U0062>;<X>"], Ok(4)),
            States(&["collating-symbol <Y>"], Ok(5)),
            Undo(Ok(4)),
            Withdraw(2, Err(BLOCK_IS_NEEDED)),
            Withdraw(1, Err(SYMBOL_IS_NEEDED)),
            Withdraw(0, Err(BenchFault::NoSuchStatement)),
            Withdraw(5, Err(BenchFault::NoSuchStatement)),
            Redo(Ok(5)),
            Undo(Ok(4)),
            Withdraw(3, Ok(3)),
            Redo(Err(BenchFault::NothingToRedo)),
            Undo(Ok(2)),
            Withdraw(2, Ok(1)),
            Redo(Err(BenchFault::NothingToRedo)),
            Withdraw(1, Ok(0)),
            Withdraw(1, Err(BenchFault::NoSuchStatement)),
        ],
    ),
    (
        BASE_TABLE,
        &[
            States(&["collating-element <ch> from \"ch\""], Ok(1)),
            States(
                &["symbol-equivalence <Z> <ch>"],
                Err(BenchFault::Table(Refusal::NotASymbol)),
            ),
        ],
    ),
];

// Asserts what a table answers to a statement that it only judges, and which text it has then.
fn assert_checked<R: Abort + Print>(
    rt: &R,
    alloc: Global,
    table: &Table,
    statement: &Statement,
    answer: Result<(), Refusal>,
    text: &[u8],
)
    requires { IsProper statement.now }
{
    count_growths(rt);
    let mut judged = table.check(statement);
    count_no_growths(rt);
    if judged == Err(Refusal::OutOfMemory) {
        tell_refused(rt);
        assert_printed(rt, alloc, table, text);
        judged = table.check(statement);
    }
    assert_same(rt, "the judgement", judged, answer);
    assert_printed(rt, alloc, table, text);
}

// A copy of a table with this text.
fn copy_of<R: Abort + Print>(rt: &R, alloc: Global, table: &Table, text: &[u8]) -> Table {
    count_growths(rt);
    let copied = table.try_copy(alloc);
    count_no_growths(rt);
    let copy = match copied {
        Ok(copy) => copy,
        Err(_) => {
            tell_refused(rt);
            assert_printed(rt, alloc, table, text);
            table.try_copy(alloc).expect(rt, "a copy")
        }
    };
    assert_printed(rt, alloc, &copy, text);
    copy
}

// Asserts what a table with this text answers to a statement.
fn assert_applied<R: Abort + Print>(
    rt: &R,
    alloc: Global,
    table: &mut Table,
    statement: &Statement,
    answer: Option<Refusal>,
    text: &[u8],
)
    requires { IsProper statement.now }
{
    count_growths(rt);
    let mut refusal = table.apply(statement).err();
    count_no_growths(rt);
    if refusal == Some(Refusal::OutOfMemory) {
        tell_refused(rt);
        assert_printed(rt, alloc, table, text);
        refusal = table.apply(statement).err();
    }
    assert_same(rt, "what is applied", refusal, answer);
}

// Asserts what a table answers to a statement, and what a copy of it does.
fn assert_judged<R: Abort + Print>(
    rt: &R,
    alloc: Global,
    table: &Table,
    lines: &[&str],
    answer: Result<(), Refusal>,
) {
    let text = printed(rt, alloc, table);
    let statement = statement_of(rt, alloc, lines);
    assert_checked(rt, alloc, table, &statement, answer, &text);
    let mut copy = copy_of(rt, alloc, table, &text);
    assert_applied(rt, alloc, &mut copy, &statement, answer.err(), &text);
    drop(copy);
    drop(statement);
}

const NO_MEMORY: Result<u32, BenchFault> = Err(BenchFault::Table(Refusal::OutOfMemory));

// What is wrong with a session, for `checkers/refuse_growths.py` to find.
#[derive(Clone, Copy)]
enum Wrong {
    Nothing,
    // What was taken back is lost before a statement has what memory it needs.
    LosesUndone,
    // An undo takes memory.
    GrowsByUndo,
}

// What a session answers to a statement.
fn counted_statement<R: Abort + Print>(
    rt: &R,
    alloc: Global,
    session: &mut Session,
    lines: &[&str],
    wrong: Wrong,
) -> Result<u32, BenchFault> {
    if let Wrong::LosesUndone = wrong {
        let block = statement_of(rt, alloc, &["reorder-after <U0061>"]);
        assert_that(rt, "a block", session.statement(block).is_ok());
        assert_that(rt, "an undo", session.undo().is_ok());
    }
    let statement = statement_of(rt, alloc, lines);
    count_growths(rt);
    let answer = session.statement(statement);
    count_no_growths(rt);
    answer
}

// What a session answers to an undo.
fn counted_undo<R: Abort + Print>(
    rt: &R,
    alloc: Global,
    session: &mut Session,
    wrong: Wrong,
) -> Result<u32, BenchFault> {
    count_growths(rt);
    let answer = match wrong {
        Wrong::GrowsByUndo if Vec::<u64>::with_capacity(alloc, 1).is_err() => NO_MEMORY,
        _ => session.undo(),
    };
    count_no_growths(rt);
    answer
}

// How a session stands: the text of its table, how many statements remain and were taken back, and the nearest of each.
fn standing(rt: &impl Abort, alloc: Global, session: &Session) -> Vec<u8> {
    let remaining = session.remaining_len();
    let undone = session.undone_len();
    let last = session.remaining(remaining);
    let first = session.undone(1);
    let shown = format!(in alloc; "{remaining} {last:?} {undone} {first:?}").expect(rt, "a text");
    let mut text = printed(rt, alloc, session.table());
    text.extend_from_slice(shown.as_bytes())
        .expect(rt, "a text");
    drop(shown);
    text
}

fn assert_stated<R: Abort + Print>(
    rt: &R,
    alloc: Global,
    session: &mut Session,
    lines: &[&str],
    answer: Result<u32, BenchFault>,
    wrong: Wrong,
) {
    let judged = match answer {
        Err(BenchFault::Table(refusal)) => Err(refusal),
        _ => Ok(()),
    };
    assert_judged(rt, alloc, session.table(), lines, judged);
    let before = standing(rt, alloc, session);
    let mut given = counted_statement(rt, alloc, session, lines, wrong);
    if given == NO_MEMORY {
        tell_refused(rt);
        assert_text(rt, alloc, &standing(rt, alloc, session), &before);
        given = counted_statement(rt, alloc, session, lines, wrong);
    }
    assert_same(rt, "a statement", given, answer);
}

// Asserts what a session answers to a withdrawal. One that is refused leaves it as it stood.
fn assert_withdrawn<R: Abort + Print>(
    rt: &R,
    alloc: Global,
    session: &mut Session,
    number: u32,
    answer: Result<u32, BenchFault>,
) {
    let before = standing(rt, alloc, session);
    count_growths(rt);
    let mut given = session.withdraw(number);
    count_no_growths(rt);
    if given == NO_MEMORY {
        tell_refused(rt);
        assert_text(rt, alloc, &standing(rt, alloc, session), &before);
        given = session.withdraw(number);
    }
    assert_same(rt, "a withdrawal", given, answer);
    if answer.is_err() {
        assert_text(rt, alloc, &standing(rt, alloc, session), &before);
    }
}

// What is taken back or put again takes no memory, so it is never refused for lack of it.
fn assert_call<R: Abort + Print>(
    rt: &R,
    alloc: Global,
    session: &mut Session,
    call: &Call,
    wrong: Wrong,
) {
    match call {
        States(lines, answer) => assert_stated(rt, alloc, session, lines, *answer, wrong),
        Undo(answer) => {
            let given = counted_undo(rt, alloc, session, wrong);
            assert_same(rt, "an undo", given, *answer);
        }
        Redo(answer) => {
            count_growths(rt);
            let given = session.redo();
            count_no_growths(rt);
            assert_same(rt, "a redo", given, *answer);
        }
        Withdraw(number, answer) => assert_withdrawn(rt, alloc, session, *number, *answer),
    }
}

fn assert_calls<R: Abort + Print>(
    rt: &R,
    alloc: Global,
    table: &[&str],
    calls: &[Call],
    wrong: Wrong,
) {
    let table = loaded_lines(alloc, table).expect(rt, "a table");
    let mut session = Session::new(alloc, table);
    for call in calls {
        assert_call(rt, alloc, &mut session, call, wrong);
    }
    drop(session);
}

#[test]
fn a_statement_is_judged_as_it_is_answered(rt: HostRuntime) {
    for (table, calls) in SESSIONS {
        assert_calls(&rt, rt.alloc(), table, calls, Wrong::Nothing);
    }
}

// A statement after another one was taken back.
const AFTER_AN_UNDO: &[Call] = &[
    States(&["collating-symbol <X>"], Ok(1)),
    Undo(Ok(0)),
    States(&["collating-symbol <Y>"], Ok(1)),
];

// These two pass as long as no growth is refused. `checkers/refuse_growths.py` has them fail.
#[test]
fn a_session_may_lose_what_was_taken_back(rt: HostRuntime) {
    assert_calls(
        &rt,
        rt.alloc(),
        BASE_TABLE,
        AFTER_AN_UNDO,
        Wrong::LosesUndone,
    );
}

#[test]
fn a_session_may_grow_by_an_undo(rt: HostRuntime) {
    assert_calls(
        &rt,
        rt.alloc(),
        BASE_TABLE,
        AFTER_AN_UNDO,
        Wrong::GrowsByUndo,
    );
}

// Whether a statement is the declaration of this symbol.
fn declares(statement: Option<&Statement>, symbol: &str) -> bool {
    matches!(statement, Some(Statement::Symbol(name)) if name.get() == symbol)
}

const DECLARATIONS: &[Lines] = &[
    &["collating-symbol <X>"],
    &["collating-symbol <Y>"],
    &["collating-symbol <Z>"],
];

// Asserts how many statements remain and were taken back, and which are the first of each.
fn assert_history(rt: &impl Abort, alloc: Global, session: &mut Session) {
    for lines in DECLARATIONS {
        let answer = session.statement(statement_of(rt, alloc, lines));
        assert_that(rt, "a declaration", answer.is_ok());
    }
    assert_same(rt, "an undo", session.undo(), Ok(2));
    assert_same(rt, "an undo", session.undo(), Ok(1));
    assert_same(rt, "what remains", session.remaining_len(), 1);
    assert_same(rt, "what was taken back", session.undone_len(), 2);
    assert_that(rt, "X remains", declares(session.remaining(1), "X"));
    assert_that(rt, "Y was undone", declares(session.undone(1), "Y"));
    assert_that(rt, "none remains at 0", session.remaining(0).is_none());
    assert_that(rt, "none was undone at 0", session.undone(0).is_none());
    assert_that(rt, "one remains", session.remaining(2).is_none());
    assert_that(rt, "two were undone", session.undone(3).is_none());
}

#[test]
fn the_first_undone_statement_is_redone_next(rt: HostRuntime) {
    let table = loaded_lines(rt.alloc(), BASE_TABLE).expect(&rt, "a table");
    let mut session = Session::new(rt.alloc(), table);
    assert_history(&rt, rt.alloc(), &mut session);
    drop(session);
}
