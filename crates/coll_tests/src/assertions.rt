//! Assertions that are functions.
//!
//! `assert_eq!` writes a comparison and two shown values into the function that it stands in, which is then proved with
//! all of it. A call of a function that asserts is proved in no time, so values are compared here, and `what` says which
//! value it is, and in which row of a table. For the same reason a test ends by `expect` where something is refused that
//! it needs, and not by `?`, behind which all that it holds would have to be given up once more.

ghost use Rattle.std.specs.Prelude.{IsTrue};

use std::alloc::Global;
use std::fmt::{Debug, Display};
use std::process::Abort;

/// Asserts that a value is the one that is wanted.
pub fn assert_same<T: PartialEq + Debug + Drop>(
    rt: &impl Abort,
    what: impl Display + Drop,
    given: T,
    wanted: T,
) {
    assert!(rt; given == wanted, "{what}: {given:?} in place of {wanted:?}");
}

/// Asserts that something is so.
pub fn assert_that(rt: &impl Abort, what: impl Display + Drop, holds: bool)
    ensures { IsTrue holds }
{
    assert!(rt; holds, "{what}: it is not so");
}

/// Asserts that bytes are a text, and shows both as texts where they aren't.
pub fn assert_text(rt: &impl Abort, alloc: Global, given: &[u8], wanted: &[u8]) {
    let given = String::from_utf8_lossy(alloc, given).expect(rt, "a text");
    let wanted = String::from_utf8_lossy(alloc, wanted).expect(rt, "a text");
    assert_same(rt, "what is written", given.as_str(), wanted.as_str());
    drop(given);
    drop(wanted);
}

/// What is left of a wanted text behind what is given, which it has to begin with. A test that fails shows what is wanted there.
pub fn past<'a>(rt: &impl Abort, wanted: &'a str, given: &str) -> &'a str {
    wanted.strip_prefix(given).expect(rt, wanted)
}

/// What is left of a wanted text behind a character that is given, which it has to begin with.
pub fn past_char<'a>(rt: &impl Abort, wanted: &'a str, given: char) -> &'a str {
    wanted.strip_prefix(given).expect(rt, wanted)
}

/// What is left of a wanted text behind a name that is given, which it has to begin with, in brackets.
pub fn past_name<'a>(rt: &impl Abort, wanted: &'a str, given: &str) -> &'a str {
    past(rt, past(rt, past(rt, wanted, "<"), given), ">")
}
