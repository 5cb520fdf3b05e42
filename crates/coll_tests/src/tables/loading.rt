//! Tables loaded from a reader that fails in mid-text, and from each prefix of a text.

use crate::assertions::{assert_same, assert_text};
use crate::devices::{FAILED_READS, Script, ShortReader, Step};
use crate::tables::examples::{BASE_TABLE, loaded, text_of};
use coll_lex::{Counted, LexFault, Source};
use coll_syntax::SyntaxFault;
use coll_table::{LoadCause, LoadFault, load};
use std::alloc::Global;
use std::process::Abort;

const READ_FAULT: LoadFault = LoadFault {
    line: 0,
    cause: LoadCause::ReadFault,
};

// Asserts the fault of a load whose n-th read fails, if it comes so far, and that nothing is read then.
fn assert_read(
    rt: &impl Abort,
    alloc: Global,
    text: &[u8],
    fails: Step,
    at: usize,
    fault: Option<LoadFault>,
) {
    let mut device = ShortReader::scripted(text, Script::ButFor(at, fails));
    let mut input = Counted::new(&mut device);
    assert_same(rt, at, load(alloc, &mut input).err(), fault);
    assert_same(rt, "the errors", input.errors(), u64::from(fault.is_some()));
    drop(input);
    let reads = at.saturating_sub(usize::from(fault.is_none()));
    assert_same(rt, "the reads", device.reads, reads);
}

// Asserts that each of so many reads, which give a text to its last line feed, is the fault where it fails, and that no
// further one is made.
fn assert_reads(rt: &impl Abort, alloc: Global, text: &[u8], fails: Step, reads: usize) {
    assert_same(rt, "the reads", text.len().div_ceil(3), reads);
    for at in 1..=reads {
        assert_read(rt, alloc, text, fails, at, Some(READ_FAULT));
    }
    assert_read(rt, alloc, text, fails, reads.saturating_add(1), None);
}

#[test]
fn a_read_that_fails_within_the_category_is_the_fault(rt: HostRuntime) {
    let text = text_of(&rt, rt.alloc(), BASE_TABLE);
    for fails in FAILED_READS {
        assert_reads(&rt, rt.alloc(), text.as_slice(), *fails, 147);
    }
}

// The fault of a line that was read whole is answered before the read behind it, and else the read's. The line feed of line
// 2 is the 17th byte, which the sixth read gives.
#[test]
fn a_line_read_whole_decides_before_a_later_read(rt: HostRuntime) {
    let text = b"LC_COLLATE\nbogus\nmore\n";
    let fault = LoadFault {
        line: 2,
        cause: LoadCause::Syntax(SyntaxFault::UnknownStatement),
    };
    let alloc = rt.alloc();
    assert_read(&rt, alloc, text, Step::Error, 6, Some(READ_FAULT));
    let mut input = Counted::new(ShortReader::scripted(text, Script::ButFor(7, Step::Error)));
    assert_same(&rt, "the line", load(alloc, &mut input).err(), Some(fault));
    assert_same(&rt, "the errors", input.errors(), 0);
}

// The base table, and below each byte of a line, its line feed included, the fault of the text that ends with this byte. A blank
// line parts the lines.
const FRONTS: &str = "\
comment_char %
cccccccccccddcc

escape_char /
ccccccccccddcc

LC_COLLATE
cccccccccee

collating-symbol <BASE>
xuuuuuuuuuuuuuummoooooee

collating-symbol <MIN>
xuuuuuuuuuuuuuummooooee

collating-symbol <CAP>
xuuuuuuuuuuuuuummooooee

order_start forward;backward;forward;forward,position
xuuuuuuuuueerrrrrrerrrrrrrrerrrrrrrerrrrrrrerrrrrrrree

<BASE>
oooooee

<MIN>
ooooee

<CAP>
ooooee

<U0061> <U0061>;<BASE>;<MIN>;IGNORE
ooooooeeooooooeeoooooeeooooeeewwwwee

<U0041> <U0061>;<BASE>;<CAP>;IGNORE
ooooooeeooooooeeoooooeeooooeeewwwwee

<U0062> <U0062>;<BASE>;<MIN>;IGNORE
ooooooeeooooooeeoooooeeooooeeewwwwee

<U0063> <U0063>;<BASE>;<MIN>;IGNORE
ooooooeeooooooeeoooooeeooooeeewwwwee

<U0064> <U0064>;<BASE>;<MIN>;IGNORE
ooooooeeooooooeeoooooeeooooeeewwwwee

section <PUNCT>
euuuuummooooooee

<U002D> IGNORE;IGNORE;IGNORE;<U002D>
ooooooeeewwwweeewwwweeewwwweeooooooee

order_end
euuuuuuuee

END LC_COLLATE
xummwwwwwwwww--";

// Asserts that a text that ends in the line of a number has the fault there that a letter stands for, or none.
fn assert_prefix(rt: &impl Abort, alloc: Global, text: &[u8], line: u32, letter: u8) {
    let fault = loaded(alloc, text).err();
    let cause = match letter {
        b'o' => LoadCause::Lex(LexFault::OpenSymbol),
        b'd' => LoadCause::Lex(LexFault::BadCharDirective),
        b'u' => LoadCause::Syntax(SyntaxFault::UnknownStatement),
        b'm' => LoadCause::Syntax(SyntaxFault::MissingOperand),
        b'r' => LoadCause::Syntax(SyntaxFault::BadRule),
        b'w' => LoadCause::Syntax(SyntaxFault::BadOperand),
        b'c' => LoadCause::NoCategory,
        b'x' => LoadCause::OutsideOrder,
        b'e' => LoadCause::NoEnd,
        _ => return assert_same(rt, text.len(), fault, None),
    };
    assert_same(rt, text.len(), fault, Some(LoadFault { line, cause }));
}

// Asserts the fault of each text that ends in a line, which is put behind the lines before it.
fn assert_line(
    rt: &impl Abort,
    alloc: Global,
    text: &mut Vec<u8>,
    number: u32,
    line: &str,
    letters: &str,
) {
    assert_same(rt, line, letters.len(), line.len() + 1);
    for (byte, letter) in line.bytes().zip(letters.bytes()) {
        text.push(byte).expect(rt, "room");
        assert_prefix(rt, alloc, text.as_slice(), number, letter);
    }
    text.push(b'\n').expect(rt, "room");
    let letter = letters.bytes().last().expect(rt, "a letter");
    assert_prefix(rt, alloc, text.as_slice(), number, letter);
}

#[test]
fn each_prefix_of_a_table_has_its_fault(rt: HostRuntime) {
    let mut text = Vec::new(rt.alloc());
    assert_prefix(&rt, rt.alloc(), &text, 0, b'c');
    for (number, row) in (1_u32..).zip(FRONTS.split("\n\n")) {
        let (line, letters) = row.split_once('\n').expect(&rt, "letters below a line");
        assert_line(&rt, rt.alloc(), &mut text, number, line, letters);
    }
    let table = text_of(&rt, rt.alloc(), BASE_TABLE);
    assert_text(&rt, rt.alloc(), &text, &table);
}
