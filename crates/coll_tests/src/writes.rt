//! Whatever is written, each write and each flush of it fails in turn, or takes no byte, until none is left to fail.
//!
//! What a device has taken where it fails is a prefix of what is written, and it is called no more.

use crate::assertions::{assert_same, assert_that};
use crate::batches::asked::named;
use crate::batches::runs::{BASE_LISTING, PRINTED};
use crate::batches::{C_BEHIND_A, NONE_FAILS, run as run_batch};
use crate::devices::{FAILED_WRITES, Script, ShortWriter, Step};
use crate::sessions::run as run_session;
use crate::sessions::transcripts::Session;
use crate::statements::Lines;
use crate::tables::examples::{BASE_TABLE, loaded_lines, text_of};
use coll_bench::{Batch, Fault, RunFault, write_fault};
use coll_key::{Ranks, key, write_compiled, write_key};
use coll_lex::{Counted, LexFault, Sink, WriteStop};
use coll_table::Table;
use std::alloc::Global;
use std::process::Abort;

// What is written.
#[derive(Clone, Copy)]
enum Written {
    // The base table's canonical text.
    Canonical,
    // Its text in the form of `localedef`.
    Exported,
    // The key of `a-b` by it.
    Key,
    // Its compiled listing.
    Listing,
    // The line of a fault.
    Fault,
    // The replies of a session over it.
    Replies(Session),
    // The output of a batch.
    Compiled,
    // .. with a delta file.
    Printed,
}

type Output<'a> = Counted<&'a mut ShortWriter>;

// The exported text of the base table, line by line.
const EXPORTED: Lines = &[
    "comment_char %",
    "escape_char /",
    "LC_COLLATE",
    "collating-symbol <BASE>",
    "collating-symbol <MIN>",
    "collating-symbol <CAP>",
    "script <PUNCT>",
    "order_start forward;backward;forward;forward,position",
    "<BASE>",
    "<MIN>",
    "<CAP>",
    "<U0061> <U0061>;<BASE>;<MIN>;IGNORE",
    "<U0041> <U0061>;<BASE>;<CAP>;IGNORE",
    "<U0062> <U0062>;<BASE>;<MIN>;IGNORE",
    "<U0063> <U0063>;<BASE>;<MIN>;IGNORE",
    "<U0064> <U0064>;<BASE>;<MIN>;IGNORE",
    "order_end",
    "order_start <PUNCT>;forward;backward;forward;forward,position",
    "<U002D> IGNORE;IGNORE;IGNORE;<U002D>",
    "order_end",
    "END LC_COLLATE",
];

const LONG_LINE: RunFault = RunFault {
    input: 0,
    line: 7,
    fault: Fault::Lex(LexFault::LineTooLong),
};

const WRITE_FAULT: RunFault = RunFault {
    input: 0,
    line: 0,
    fault: Fault::Write(WriteStop::WriteFault),
};

fn write_ranked(
    rt: &impl Abort,
    alloc: Global,
    table: &Table,
    what: Written,
    out: &mut Output,
) -> Result<(), WriteStop> {
    let ranks = Ranks::new(alloc, table).expect(rt, "the ranks");
    let answer = match what {
        Written::Listing => write_compiled(table, &ranks, out),
        _ => {
            let key = key(alloc, table, &ranks, "a-b").expect(rt, "a key");
            let answer = write_key(table.rules(), &key, out);
            drop(key);
            answer
        }
    };
    drop(ranks);
    answer
}

// Writes what a table gives.
fn write_of_table(
    rt: &impl Abort,
    alloc: Global,
    what: Written,
    out: &mut Output,
) -> Result<(), RunFault> {
    let table = loaded_lines(alloc, BASE_TABLE).expect(rt, "a table");
    let answer = match what {
        Written::Canonical => table.print(out),
        Written::Exported => table.export(out),
        _ => write_ranked(rt, alloc, &table, what, out),
    };
    drop(table);
    match answer {
        Ok(()) => Ok(()),
        Err(WriteStop::WriteFault) => Err(WRITE_FAULT),
    }
}

fn write_fault_of(rt: &impl Abort, alloc: Global, out: &mut Output) -> Result<(), RunFault> {
    let names = named(rt, alloc, &["B.txt"]);
    assert_that(rt, "one name", names.len() == 1);
    let answer = write_fault(&LONG_LINE, &names, out);
    drop(names);
    match answer {
        Ok(()) => Ok(()),
        Err(fault) => Err(RunFault {
            fault,
            ..WRITE_FAULT
        }),
    }
}

fn write_replies(
    rt: &impl Abort,
    alloc: Global,
    session: Session,
    out: &mut Output,
) -> Result<(), RunFault> {
    let course = session.course(rt, alloc, 0);
    let mut input = Counted::new(course.text.as_slice());
    let answer = run_session(rt, alloc, BASE_TABLE, &mut input, out);
    drop(course);
    answer
}

fn write_batch(
    rt: &impl Abort,
    alloc: Global,
    batch: Batch,
    deltas: &[&str],
    out: &mut Output,
) -> Result<(), RunFault> {
    let table = text_of(rt, alloc, BASE_TABLE);
    let answer = run_batch(rt, alloc, batch, &table, deltas, NONE_FAILS, out);
    drop(table);
    answer
}

fn write(rt: &impl Abort, alloc: Global, what: Written, out: &mut Output) -> Result<(), RunFault> {
    match what {
        Written::Fault => write_fault_of(rt, alloc, out),
        Written::Replies(session) => write_replies(rt, alloc, session, out),
        Written::Compiled => write_batch(rt, alloc, Batch::Compile, &[], out),
        Written::Printed => write_batch(rt, alloc, Batch::Print, &[C_BEHIND_A], out),
        _ => write_of_table(rt, alloc, what, out),
    }
}

// All that is written.
fn wanted(rt: &impl Abort, alloc: Global, what: Written) -> Vec<u8> {
    match what {
        Written::Canonical => text_of(rt, alloc, BASE_TABLE),
        Written::Exported => text_of(rt, alloc, EXPORTED),
        Written::Key => {
            let mut key = Vec::new(alloc);
            key.extend_from_slice(b"4 6 | 1 1 | 2 2 | @2 9 |")
                .expect(rt, "room");
            key
        }
        Written::Fault => text_of(rt, alloc, &["B.txt:7: 10 LineTooLong"]),
        Written::Replies(session) => session.course(rt, alloc, usize::MAX).replies,
        Written::Printed => PRINTED.text(rt, alloc),
        Written::Listing | Written::Compiled => text_of(rt, alloc, BASE_LISTING),
    }
}

// Whether there is no n-th write or flush that could fail. Asserts that all is written if so, and else a prefix of it, that the
// answer is the fault, and that the device is called no more.
fn is_whole(
    rt: &impl Abort,
    alloc: Global,
    what: Written,
    wanted: &[u8],
    fails: Step,
    at: usize,
) -> bool {
    let script = Script::ButFor(at, fails);
    let mut device = ShortWriter::scripted(Vec::new(alloc), script);
    let mut output = Counted::new(&mut device);
    let answer = write(rt, alloc, what, &mut output);
    let errors = u64::from(answer.is_err());
    assert_same(rt, "the errors", output.errors(), errors);
    drop(output);
    let taken = device.taken.as_slice();
    if answer.is_ok() {
        assert_same(rt, at, taken, wanted);
        return true;
    }
    assert_same(rt, at, answer, Err(WRITE_FAULT));
    assert_that(rt, at, wanted.starts_with(taken));
    assert_same(rt, "the calls", device.calls, at);
    false
}

fn assert_prefixes(rt: &impl Abort, alloc: Global, what: Written) {
    let wanted = wanted(rt, alloc, what);
    for fails in FAILED_WRITES {
        let whole = (1..1_000).find(|at| is_whole(rt, alloc, what, &wanted, *fails, *at));
        assert_that(rt, "a whole run", whole.is_some());
    }
    drop(wanted);
}

const ALL: &[Written] = &[
    Written::Canonical,
    Written::Exported,
    Written::Key,
    Written::Listing,
    Written::Fault,
    Written::Replies(Session::Moved),
    Written::Replies(Session::Element),
    Written::Replies(Session::History),
    Written::Compiled,
    Written::Printed,
];

#[test]
fn a_write_that_fails_leaves_a_prefix(rt: HostRuntime) {
    for what in ALL {
        assert_prefixes(&rt, rt.alloc(), *what);
    }
}
