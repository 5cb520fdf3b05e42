//! Spellings as they are written, and cut off where a device fails. That they are read back is a paragraph of the tables of
//! `lexing`.

use crate::assertions::{assert_same, assert_that};
use crate::devices::{SMALL, Script, ShortWriter, Step, WHOLE};
use coll_lex::{Counted, Sink, WriteStop, write_bytes, write_char, write_symbol};
use std::alloc::Global;
use std::process::Abort;

// What is written.
enum What {
    Name(&'static str),
    Char(char),
    Bytes(&'static [u8]),
    // Nothing, but the device is flushed.
    Flush,
}

use What::{Bytes, Char, Flush, Name};

// A name of 256 bytes, and a text of 257, with their spellings.
const MOST: &str = "\
     >>>>>>>>>>>>>>>>>>>>>>>>>>>>>>>>>>>>>>>>>>>>>>>>>>>>>>>>>>>>>>>>\
     >>>>>>>>>>>>>>>>>>>>>>>>>>>>>>>>>>>>>>>>>>>>>>>>>>>>>>>>>>>>>>>>\
     >>>>>>>>>>>>>>>>>>>>>>>>>>>>>>>>>>>>>>>>>>>>>>>>>>>>>>>>>>>>>>>>\
     >>>>>>>>>>>>>>>>>>>>>>>>>>>>>>>>>>>>>>>>>>>>>>>>>>>>>>>>>>>>>>>>";

const MOST_SPELLED: &str = "<\
     />/>/>/>/>/>/>/>/>/>/>/>/>/>/>/>/>/>/>/>/>/>/>/>/>/>/>/>/>/>/>/>\
     />/>/>/>/>/>/>/>/>/>/>/>/>/>/>/>/>/>/>/>/>/>/>/>/>/>/>/>/>/>/>/>\
     />/>/>/>/>/>/>/>/>/>/>/>/>/>/>/>/>/>/>/>/>/>/>/>/>/>/>/>/>/>/>/>\
     />/>/>/>/>/>/>/>/>/>/>/>/>/>/>/>/>/>/>/>/>/>/>/>/>/>/>/>/>/>/>/>\
     />/>/>/>/>/>/>/>/>/>/>/>/>/>/>/>/>/>/>/>/>/>/>/>/>/>/>/>/>/>/>/>\
     />/>/>/>/>/>/>/>/>/>/>/>/>/>/>/>/>/>/>/>/>/>/>/>/>/>/>/>/>/>/>/>\
     />/>/>/>/>/>/>/>/>/>/>/>/>/>/>/>/>/>/>/>/>/>/>/>/>/>/>/>/>/>/>/>\
     />/>/>/>/>/>/>/>/>/>/>/>/>/>/>/>/>/>/>/>/>/>/>/>/>/>/>/>/>/>/>/>>";

const LONGER: &str = "\
     aaaaaaaaaaaaaaaaaaaaaaaaaaaaaaaaaaaaaaaaaaaaaaaaaaaaaaaaaaaaaaaa\
     aaaaaaaaaaaaaaaaaaaaaaaaaaaaaaaaaaaaaaaaaaaaaaaaaaaaaaaaaaaaaaaa\
     aaaaaaaaaaaaaaaaaaaaaaaaaaaaaaaaaaaaaaaaaaaaaaaaaaaaaaaaaaaaaaaa\
     aaaaaaaaaaaaaaaaaaaaaaaaaaaaaaaaaaaaaaaaaaaaaaaaaaaaaaaaaaaaaaaa\
     a";

const LONGER_SPELLED: &str = "<\
     aaaaaaaaaaaaaaaaaaaaaaaaaaaaaaaaaaaaaaaaaaaaaaaaaaaaaaaaaaaaaaaa\
     aaaaaaaaaaaaaaaaaaaaaaaaaaaaaaaaaaaaaaaaaaaaaaaaaaaaaaaaaaaaaaaa\
     aaaaaaaaaaaaaaaaaaaaaaaaaaaaaaaaaaaaaaaaaaaaaaaaaaaaaaaaaaaaaaaa\
     aaaaaaaaaaaaaaaaaaaaaaaaaaaaaaaaaaaaaaaaaaaaaaaaaaaaaaaaaaaaaaaa\
     a>";

// What is written to a device that does what its script says, the bytes that it takes, and in how many calls at most. Where the
// device fails, so does the last thing that is written.
const ROWS: &[(Script, &[What], &str, usize)] = &[
    // A name is spelled with its escapes, in one write.
    (WHOLE, &[Name("")], "<>", 1),
    (WHOLE, &[Name("BASE")], "<BASE>", 1),
    (WHOLE, &[Name("a>b")], "<a/>b>", 1),
    (WHOLE, &[Name("/>")], "<///>>", 1),
    (WHOLE, &[Name("a\"%<é")], "<a\"%<é>", 1),
    (WHOLE, &[Name("U61")], "<U61>", 1),
    // A character is spelled by its code point, in one write.
    (WHOLE, &[Char('\0')], "<U0000>", 1),
    (WHOLE, &[Char('a')], "<U0061>", 1),
    (WHOLE, &[Char('%')], "<U0025>", 1),
    (WHOLE, &[Char('/')], "<U002F>", 1),
    (WHOLE, &[Char('\u{e9}')], "<U00E9>", 1),
    (WHOLE, &[Char('\u{ffff}')], "<UFFFF>", 1),
    (WHOLE, &[Char('\u{10000}')], "<U00010000>", 1),
    (WHOLE, &[Char('\u{10abcd}')], "<U0010ABCD>", 1),
    (WHOLE, &[Char('\u{10ffff}')], "<U0010FFFF>", 1),
    // 64 characters of four bytes are the most that a name has; here each byte is one that is escaped.
    (WHOLE, &[Name(MOST)], MOST_SPELLED, 1),
    // Small writes take everything.
    (
        SMALL,
        &[
            Name("one/two>"),
            Char('a'),
            Bytes(b""),
            Bytes(b" and more\n"),
        ],
        "<one//two/>><U0061> and more\n",
        11,
    ),
    // A write that fails stops the writing.
    (Script::ButFor(1, Step::Error), &[Name("one/two>")], "", 1),
    (
        Script::ButFor(2, Step::Error),
        &[Name("one/two>")],
        "<on",
        2,
    ),
    (
        Script::ButFor(3, Step::Error),
        &[Name("one/two>")],
        "<one//",
        3,
    ),
    (
        Script::ButFor(4, Step::Error),
        &[Name("one/two>")],
        "<one//two",
        4,
    ),
    (Script::ButFor(1, Step::Nothing), &[Name("one/two>")], "", 1),
    (
        Script::ButFor(2, Step::Nothing),
        &[Name("one/two>")],
        "<on",
        2,
    ),
    (
        Script::ButFor(3, Step::Nothing),
        &[Name("one/two>")],
        "<one//",
        3,
    ),
    (
        Script::ButFor(4, Step::Nothing),
        &[Name("one/two>")],
        "<one//two",
        4,
    ),
    // A text longer than any name is spelled, in more than one write.
    (SMALL, &[Name(LONGER)], LONGER_SPELLED, 259),
    // A flush that fails is counted, and one before it is none.
    (WHOLE, &[Flush], "", 1),
    (Script::ButFor(2, Step::Error), &[Flush, Flush], "", 2),
];

fn write(out: &mut Counted<&mut ShortWriter>, what: &What) -> Option<WriteStop> {
    match what {
        Name(name) => write_symbol(out, name).err(),
        Char(c) => write_char(out, *c).err(),
        Bytes(bytes) => write_bytes(out, bytes).err(),
        Flush => match out.flush().ok() {
            Some(()) => None,
            None => Some(WriteStop::WriteFault),
        },
    }
}

// Asserts what a device takes, in how many calls at most, and that the last write alone fails where it is to.
fn assert_written(
    rt: &impl Abort,
    alloc: Global,
    script: Script,
    all: &[What],
    taken: &str,
    calls: usize,
) {
    let mut device = ShortWriter::scripted(Vec::new(alloc), script);
    let mut out = Counted::new(&mut device);
    let mut stop = None;
    for what in all {
        stop = write(&mut out, what);
    }
    assert_same(rt, taken, out.errors(), u64::from(stop.is_some()));
    drop(out);
    assert_same(rt, taken, device.taken.as_slice(), taken.as_bytes());
    assert_that(rt, taken, device.calls <= calls);
    let fails = match script {
        Script::ButFor(..) => Some(WriteStop::WriteFault),
        _ => None,
    };
    assert_same(rt, taken, stop, fails);
}

#[test]
fn each_spelling_is_taken(rt: HostRuntime) {
    for (script, all, taken, calls) in ROWS {
        assert_written(&rt, rt.alloc(), *script, all, taken, *calls);
    }
}
