//! What a batch is asked for, and how its fault is told.

use crate::assertions::{assert_same, assert_text, assert_that};
use crate::long_texts::repeated_text;
use coll_bench::{Batch, RunFault, write_fault};
use coll_lex::{Counted, ListBuf, TextBuf};
use std::alloc::Global;
use std::process::Abort;

/// A text: a part so many times.
pub type Repeated = (&'static str, usize);

/// What a batch is asked for.
pub enum Asked {
    Check,
    Print,
    Compile,
    Key(&'static [Repeated]),
    Compare(Repeated, Repeated),
}

fn text(rt: &impl Abort, alloc: Global, text: &Repeated) -> TextBuf {
    TextBuf::new(repeated_text(rt, alloc, text.0, text.1))
}

impl Asked {
    /// The batch that asks for this.
    pub fn batch(&self, rt: &impl Abort, alloc: Global) -> Batch {
        match self {
            Asked::Check => Batch::Check,
            Asked::Print => Batch::Print,
            Asked::Compile => Batch::Compile,
            Asked::Key(list) => {
                let mut texts = Vec::new(alloc);
                for one in *list {
                    texts.push(text(rt, alloc, one)).expect(rt, "room");
                }
                Batch::Key(ListBuf::new(texts))
            }
            Asked::Compare(one, other) => {
                Batch::Compare(text(rt, alloc, one), text(rt, alloc, other))
            }
        }
    }
}

// The names of the inputs of a batch.
const NAMES: &[&str] = &["B.txt", "D.txt", "E.txt"];

/// These names, each in memory of its own.
pub fn named(rt: &impl Abort, alloc: Global, texts: &[&str]) -> Vec<String> {
    let mut list = Vec::new(alloc);
    for text in texts {
        let name = String::from_str(alloc, text).expect(rt, text);
        list.push(name).expect(rt, "names");
    }
    list
}

/// Asserts by which line the fault of a batch is told, or that there is none where the line is empty.
pub fn assert_told(rt: &impl Abort, alloc: Global, answer: Result<(), RunFault>, line: &str) {
    let Err(ended) = answer else {
        assert_same(rt, "the fault", line, "");
        return;
    };
    let names = named(rt, alloc, NAMES);
    assert_that(rt, "a named input", ended.input < names.len());
    let mut output = Vec::new(alloc);
    let mut taken = Counted::new(&mut output);
    write_fault(&ended, &names, &mut taken).expect(rt, line);
    drop(taken);
    assert_text(rt, alloc, output.as_slice(), line.as_bytes());
    drop(names);
}
