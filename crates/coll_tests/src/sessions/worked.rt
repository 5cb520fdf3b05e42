//! Whole sessions over whole tables: the lines, and what is written for them.
//!
//! Devices give and take all at once, and then a few bytes at a time. Sessions that show one refusal after another, and each turn
//! of a block, are runs of the program: tests/runs has them.

use super::statements::{ON_BASE, ON_FIRST, ON_SECTIONS};
use crate::assertions::{assert_same, assert_text};
use crate::devices::{SMALL, Script, ShortReader, ShortWriter, WHOLE};
use crate::sessions::run;
use crate::sessions::transcripts::{Course, course_of};
use crate::statements::Lines;
use crate::tables::examples::{BASE_TABLE, FIRST_TABLE, SECTIONS_TABLE};
use coll_lex::Counted;
use std::alloc::Global;
use std::process::Abort;

// Asserts what a session writes over devices that do what a script says.
fn assert_session(rt: &impl Abort, alloc: Global, table: Lines, course: &Course, script: Script) {
    let mut output = ShortWriter::scripted(Vec::new(alloc), script);
    let mut taken = Counted::new(&mut output);
    let mut input = Counted::new(ShortReader::scripted(&course.text, script));
    let answer = run(rt, alloc, table, &mut input, &mut taken);
    drop(taken);
    assert_same(rt, "the answer", answer, Ok(()));
    assert_text(rt, alloc, output.taken.as_slice(), &course.replies);
}

// Asserts what sessions over a table write.
fn assert_sessions(rt: &impl Abort, alloc: Global, table: Lines, transcripts: &str) {
    for transcript in transcripts.split("\n\n") {
        let course = course_of(rt, alloc, transcript, usize::MAX);
        assert_session(rt, alloc, table, &course, WHOLE);
        assert_session(rt, alloc, table, &course, SMALL);
        drop(course);
    }
}

#[test]
fn each_session_has_its_replies(rt: HostRuntime) {
    assert_sessions(&rt, rt.alloc(), FIRST_TABLE, ON_FIRST);
    assert_sessions(&rt, rt.alloc(), BASE_TABLE, ON_BASE);
    assert_sessions(&rt, rt.alloc(), SECTIONS_TABLE, ON_SECTIONS);
}
