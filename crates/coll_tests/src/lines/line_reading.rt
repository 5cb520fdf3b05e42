//! Lines as a device gives them: cut at line feeds, up to the longest, the end and errors.

use crate::assertions::assert_same;
use crate::devices::{SMALL, Script, ShortReader, Step, WHOLE};
use crate::long_texts::repeated;
use coll_lex::{Counted, LineReader, ReadStop, Source};
use std::alloc::Global;
use std::process::Abort;

// A part so many times, and a rest.
type Text = (&'static [u8], usize, &'static [u8]);

// A part so many times, without its line feed.
type Physical = (&'static [u8], usize);

// A text; the device that gives it; the lines; how many times these are given; and what stops the reader then, if it isn't the end.
type Row = (Text, Script, &'static [Physical], usize, Option<ReadStop>);

// Lines of 2, 1, 0 and 9 bytes, and a last one of 4 that no line feed ends.
const TEXT: Text = (b"", 0, b"ab\nc\n\nlong line\nlast");

const ONE: &[Physical] = &[(b"ab", 1)];

const THREE: &[Physical] = &[(b"ab", 1), (b"c", 1), (b"", 1)];

const FOUR: &[Physical] = &[(b"ab", 1), (b"c", 1), (b"", 1), (b"long line", 1)];

const LINES: &[Physical] = &[
    (b"ab", 1),
    (b"c", 1),
    (b"", 1),
    (b"long line", 1),
    (b"last", 1),
];

const MANY: Text = (b"a line of some bytes\nand another\n", 10_000, b"");

const FAILS: Step = Step::Error;

const FAULT: Option<ReadStop> = Some(ReadStop::ReadFault);

const TOO_LONG: Option<ReadStop> = Some(ReadStop::LineTooLong);

const ROWS: &[Row] = &[
    // Lines are given without their line feeds.
    (TEXT, WHOLE, LINES, 1, None),
    // A text without bytes has no line.
    ((b"", 0, b""), WHOLE, &[], 1, None),
    // A carriage return stays.
    (
        (b"", 0, b"a\r\n\r"),
        WHOLE,
        &[(b"a\r", 1), (b"\r", 1)],
        1,
        None,
    ),
    // The first read that fails, here of reads of three bytes each, is the last one.
    (TEXT, Script::From(1, FAILS), &[], 1, FAULT),
    (TEXT, Script::From(2, FAILS), ONE, 1, FAULT),
    (TEXT, Script::From(3, FAILS), THREE, 1, FAULT),
    (TEXT, Script::From(4, FAILS), THREE, 1, FAULT),
    (TEXT, Script::From(5, FAILS), THREE, 1, FAULT),
    (TEXT, Script::From(6, FAILS), THREE, 1, FAULT),
    (TEXT, Script::From(7, FAILS), FOUR, 1, FAULT),
    (TEXT, Script::From(8, FAILS), FOUR, 1, FAULT),
    // A line of the most bytes is given, whether a line feed ends it or the text.
    ((b"a", 65_536, b"\n"), WHOLE, &[(b"a", 65_536)], 1, None),
    ((b"a", 65_536, b""), WHOLE, &[(b"a", 65_536)], 1, None),
    // A line of one byte more stops the reader.
    ((b"a", 65_536, b"a\nb\n"), WHOLE, &[], 1, TOO_LONG),
    // Lines go on past the end of the buffer.
    (
        MANY,
        SMALL,
        &[(b"a line of some bytes", 1), (b"and another", 1)],
        10_000,
        None,
    ),
];

// Asserts that a reader gives these lines.
fn assert_lines(
    rt: &impl Abort,
    alloc: Global,
    reader: &mut LineReader,
    input: &mut Counted<&mut ShortReader>,
    lines: &[Physical],
) {
    for (part, times) in lines {
        let line = repeated(rt, alloc, b"", part, *times, b"");
        assert_same(rt, "a line", reader.next(input), Ok(Some(line.as_slice())));
        drop(line);
    }
    assert_same(rt, "the errors before", input.errors(), 0);
}

// Asserts that it stays there, has no line, and reads no more.
fn assert_stays(
    rt: &impl Abort,
    reader: &mut LineReader,
    device: &mut ShortReader,
    stop: Option<ReadStop>,
) {
    let reads = device.reads;
    let answer = reader.advance(&mut Counted::new(&mut *device)).err();
    assert_same(rt, "the stop once more", answer, stop);
    assert_same(rt, "the reads", device.reads, reads);
    assert_same(rt, "the line", reader.line(), b"".as_slice());
}

// Asserts that a reader gives the lines of a row, and then comes to the end, or stops. The stop is the only error.
fn assert_row(rt: &impl Abort, alloc: Global, row: &Row) {
    let ((part, times, rest), script, lines, rounds, stop) = row;
    let text = repeated(rt, alloc, b"", part, *times, rest);
    let mut device = ShortReader::scripted(&text, *script);
    let mut input = Counted::new(&mut device);
    let mut reader = LineReader::new(alloc).expect(rt, "a reader");
    for _ in 0..*rounds {
        assert_lines(rt, alloc, &mut reader, &mut input, lines);
    }
    assert_same(rt, "the stop", reader.next(&mut input).err(), *stop);
    let failed = *stop == Some(ReadStop::ReadFault);
    assert_same(rt, "the errors", input.errors(), u64::from(failed));
    drop(input);
    assert_stays(rt, &mut reader, &mut device, *stop);
    drop(reader);
    drop(text);
}

#[test]
fn each_text_has_its_lines(rt: HostRuntime) {
    for row in ROWS {
        assert_row(&rt, rt.alloc(), row);
    }
}
