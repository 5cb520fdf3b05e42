//! Readers that never end: a line without an end is too long, and there are too many empty lines.

use crate::assertions::{assert_same, assert_text};
use crate::devices::Endless;
use crate::sessions::run;
use crate::tables::examples::{BASE_TABLE, loaded_lines, text_of};
use coll_bench::{Batch, RunFault, run_batch};
use coll_lex::Counted;
use coll_table::load;
use std::alloc::Global;
use std::process::Abort;

// The byte that a reader gives again and again; the line of the fault, its number, and how a session refuses it.
struct Reader {
    byte: u8,
    line: u32,
    number: u8,
    reply: &'static [u8],
}

const READERS: &[Reader] = &[
    Reader {
        byte: b'a',
        line: 1,
        number: 10,
        reply: b"refused 10 LineTooLong\n",
    },
    Reader {
        byte: b'\n',
        line: 4_194_305,
        number: 12,
        reply: b"refused 12 TooManyLines\n",
    },
];

impl Reader {
    // Opens it, behind a text.
    fn open<'a>(&self, text: &'a [u8]) -> Counted<Endless<'a>> {
        Counted::new(Endless {
            text,
            byte: self.byte,
        })
    }
}

// Asserts the fault of a run.
fn assert_ended(rt: &impl Abort, answer: Result<(), RunFault>, input: usize, reader: &Reader) {
    let ended = answer.err().expect(rt, "a fault");
    let given = (ended.input, ended.line, ended.fault.number());
    let wanted = (input, reader.line, reader.number);
    assert_same(rt, "the input, line and fault of a run", given, wanted);
}

fn assert_session(rt: &impl Abort, alloc: Global, reader: &Reader) {
    let mut output = Vec::new(alloc);
    let mut taken = Counted::new(&mut output);
    let answer = run(rt, alloc, BASE_TABLE, &mut reader.open(b""), &mut taken);
    drop(taken);
    assert_ended(rt, answer, 0, reader);
    assert_text(rt, alloc, output.as_slice(), reader.reply);
}

// Asserts the fault of a batch with this reader behind a text as its table, and as its delta file, and in which of the two it is.
fn assert_batch(rt: &impl Abort, alloc: Global, reader: &Reader, text: &[u8], input: usize) {
    let mut output = Vec::new(alloc);
    let mut taken = Counted::new(&mut output);
    let mut table = reader.open(text);
    let mut deltas = Vec::new(alloc);
    deltas.push(reader.open(b"")).expect(rt, "room");
    let answer = run_batch(
        alloc,
        Batch::Check,
        &mut table,
        deltas.as_mut_slice(),
        &mut taken,
    );
    drop(taken);
    assert_ended(rt, answer, input, reader);
    assert_same(rt, "the output", output.len(), 0);
}

#[test]
fn a_reader_that_never_ends_is_refused(rt: HostRuntime) {
    let table = text_of(&rt, rt.alloc(), BASE_TABLE);
    for reader in READERS {
        let fault = load(rt.alloc(), &mut reader.open(b"")).err();
        let fault = fault.expect(&rt, "a fault");
        assert_same(&rt, "a load's line", fault.line, reader.line);
        assert_same(&rt, "a load's fault", fault.number(), reader.number);
        assert_session(&rt, rt.alloc(), reader);
        assert_batch(&rt, rt.alloc(), reader, b"", 0);
        // A reader isn't read behind the end of a table.
        assert_batch(&rt, rt.alloc(), reader, &table, 1);
    }
}
