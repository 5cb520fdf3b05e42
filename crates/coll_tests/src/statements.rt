//! Statements, made of the lines that spell them.

ghost use Rattle.std.specs.Prelude.{IfSome};
ghost use Rattle.coll_syntax.specs.Proper.{IsProper};

use coll_requests::DeltaReader;
use coll_syntax::Statement;
use std::alloc::Global;
use std::process::Abort;

/// Lines of a text, each without its line feed.
pub type Lines = &'static [&'static str];

/// The statement of these lines. Those of a block are written without its `reorder-end`.
pub fn statement_of(rt: &impl Abort, alloc: Global, lines: &[&str]) -> Statement
    ensures { IsProper result }
{
    let mut reader = DeltaReader::new(alloc).expect(rt, "a reader");
    let statement = read(rt, &mut reader, lines);
    drop(reader);
    statement
}

// The statement that the last of these lines completes, or else the end of the block.
fn read(rt: &impl Abort, reader: &mut DeltaReader, lines: &[&str]) -> Statement
    ensures { IsProper result }
{
    let (last, others) = lines.split_last().expect(rt, "a line");
    drop(taken(rt, reader, "LC_COLLATE"));
    for line in others {
        drop(taken(rt, reader, line));
    }
    match taken(rt, reader, last) {
        Some(statement) => statement,
        None => taken(rt, reader, "reorder-end").expect(rt, last),
    }
}

// The statement that a line completes, if it completes one.
fn taken(rt: &impl Abort, reader: &mut DeltaReader, line: &str) -> Option<Statement>
    ensures { IfSome result IsProper }
{
    match reader.line(line.as_bytes()).expect(rt, line) {
        Some(at) => Some(at.statement),
        None => None,
    }
}
