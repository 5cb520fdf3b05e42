//! Sessions whose reader or writer fails in mid-text. That what is written is then a prefix of the replies, `writes` shows.

use crate::assertions::{assert_same, assert_text, assert_that};
use crate::devices::{FAILED_READS, NarrowWriter, Script, ShortReader, Step};
use crate::sessions::run;
use crate::sessions::transcripts::Session;
use crate::tables::examples::BASE_TABLE;
use coll_bench::{Fault, RunFault};
use coll_lex::{Counted, ReadStop, Source, WriteStop};
use std::alloc::Global;
use std::process::Abort;

const READ_FAULT: RunFault = RunFault {
    input: 0,
    line: 0,
    fault: Fault::Read(ReadStop::ReadFault),
};

// Asserts what a session answers and writes whose n-th read fails, if it comes so far: the replies to the lines that were
// read whole. Each read before gave three bytes. Nothing is read then.
fn assert_read(
    rt: &impl Abort,
    alloc: Global,
    session: Session,
    fails: Step,
    at: usize,
    answer: Result<(), RunFault>,
) {
    let read = at.saturating_sub(1).saturating_mul(3);
    let course = session.course(rt, alloc, read);
    let script = Script::ButFor(at, fails);
    let mut reader = ShortReader::scripted(&course.text, script);
    let mut input = Counted::new(&mut reader);
    let mut output = Vec::new(alloc);
    let mut taken = Counted::new(&mut output);
    let given = run(rt, alloc, BASE_TABLE, &mut input, &mut taken);
    drop(taken);
    assert_same(rt, at, given, answer);
    assert_same(rt, "the errors", input.errors(), u64::from(answer.is_err()));
    drop(input);
    let reads = at.saturating_sub(usize::from(answer.is_ok()));
    assert_same(rt, "the reads", reader.reads, reads);
    assert_text(rt, alloc, output.as_slice(), &course.replies);
}

// Asserts that each of so many reads, of which the last finds the end, ends the session where it fails.
fn assert_reads(rt: &impl Abort, alloc: Global, session: Session, fails: Step, reads: usize) {
    for at in 1..=reads {
        assert_read(rt, alloc, session, fails, at, Err(READ_FAULT));
    }
    let at = reads.saturating_add(1);
    assert_read(rt, alloc, session, fails, at, Ok(()));
}

// Asserts it of a session.
fn assert_session(rt: &impl Abort, alloc: Global, session: Session, reads: usize) {
    for fails in FAILED_READS {
        assert_reads(rt, alloc, session, *fails, reads);
    }
}

// The texts have 67, 140 and 250 bytes, which three bytes a read give, and a further read finds their end.
const READS: &[(Session, usize)] = &[
    (Session::Moved, 24),
    (Session::Element, 48),
    (Session::History, 85),
];

#[test]
fn a_read_that_fails_ends_the_session_without_a_reply(rt: HostRuntime) {
    for (session, reads) in READS {
        assert_session(&rt, rt.alloc(), *session, *reads);
    }
}

// The prefix of the first session up to its first `:undo` and the bytes `:re`, which get no reply.
const CUT: &[u8] = b"reorder-after <U0061>\n<U0063>\nreorder-end\n:undo\n:re";

#[test]
fn a_cut_line_gets_no_reply(rt: HostRuntime) {
    let course = Session::Moved.course(&rt, rt.alloc(), CUT.len());
    assert_that(&rt, "the prefix", course.text.as_slice().starts_with(CUT));
    assert_text(&rt, rt.alloc(), &course.replies, b"ok 1\nundone 0\n");
    drop(course);
}

const WRITE_FAULT: RunFault = RunFault {
    input: 0,
    line: 0,
    fault: Fault::Write(WriteStop::WriteFault),
};

// How many bytes a device takes in all, whether it flushes, and what it then has taken.
const NARROW: &[(usize, bool, &[u8])] = &[(6, true, b"ok 1\nu"), (100, false, b"ok 1\n")];

fn assert_narrow(rt: &impl Abort, alloc: Global, room: usize, flushes: bool, taken: &[u8]) {
    let course = Session::Moved.course(rt, alloc, 0);
    let mut input = Counted::new(course.text.as_slice());
    let mut device = NarrowWriter::new(alloc, room, flushes);
    let mut output = Counted::new(&mut device);
    let answer = run(rt, alloc, BASE_TABLE, &mut input, &mut output);
    drop(output);
    assert_same(rt, "the answer", answer, Err(WRITE_FAULT));
    assert_text(rt, alloc, device.taken.as_slice(), taken);
    drop(course);
}

#[test]
fn a_device_that_is_full_or_fails_to_flush_ends_the_session(rt: HostRuntime) {
    for (room, flushes, taken) in NARROW {
        assert_narrow(&rt, rt.alloc(), *room, *flushes, taken);
    }
}
