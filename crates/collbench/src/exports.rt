//! What is told of a table that was exported, beside its text: the collating symbols that stand behind a character.
//!
//! A table may have tens of thousands of them. So one alone has the line that `write_symbols_behind` writes for it, and several have
//! one line, as warnings of a lint have: how many they are, and the first five. Where memory is refused for that, each has its line.

use coll_import::write_symbols_behind;
use coll_lex::{Counted, Sink, WriteStop};
use coll_table::Table;
use coll_texts::{Piece, write_pieces};
use std::alloc::Global;
use std::io;
use std::io::Write;

// Most symbols that are named.
const MOST_NAMED: u32 = 5;

// What stands before each symbol in the lines of a file without a name.
const BEFORE_SYMBOL: &[u8] = b":0: behind ";

// A device that keeps the first lines that are written, and counts all.
#[derive(Drop)]
struct FirstLines {
    lines: u32,
    kept: Vec<u8>,
    // Whether memory was refused for a byte of a line that is kept.
    lost: bool,
}

impl FirstLines {
    // A device to which nothing was written yet.
    fn new(alloc: Global) -> FirstLines {
        FirstLines {
            lines: 0,
            kept: Vec::new(alloc),
            lost: false,
        }
    }

    // Takes a byte.
    fn take(&mut self, byte: u8) {
        if self.lines < MOST_NAMED && self.kept.push(byte).is_err() {
            self.lost = true;
        }
        if byte == b'\n' {
            self.lines = self.lines.saturating_add(1);
        }
    }
}

impl Write for FirstLines {
    fn write(&mut self, buf: &[u8]) -> io::Result<usize> {
        for byte in buf {
            self.take(*byte);
        }
        Ok(buf.len())
    }

    fn flush(&mut self) -> io::Result<()> {
        Ok(())
    }
}

/// Tells which symbols of an exported table stand behind a character, by the name of its file. Where it stops, the rest isn't told.
pub(crate) fn tell_symbols<W: Sink>(alloc: Global, table: &Table, file: &str, out: &mut W) {
    let mut firsts = FirstLines::new(alloc);
    let mut counted = Counted::new(&mut firsts);
    let _ = write_symbols_behind(table, "", &mut counted);
    drop(counted);
    if firsts.lines < 2 || firsts.lost {
        let _ = write_symbols_behind(table, file, out);
    } else {
        let _ = write_several(file, &firsts, out);
    }
    drop(firsts);
}

// Writes how many symbols stand behind a character, and the first of them.
fn write_several<W: Sink>(file: &str, firsts: &FirstLines, out: &mut W) -> Result<(), WriteStop> {
    write_pieces(
        out,
        &[
            Piece::Bytes(file.as_bytes()),
            Piece::Bytes(b": behind a character: "),
            Piece::Number(u64::from(firsts.lines)),
            Piece::Bytes(b" symbols, as"),
        ],
    )?;
    for line in firsts.kept.as_slice().split(is_line_feed) {
        if let Some(symbol) = line.strip_prefix(BEFORE_SYMBOL) {
            write_pieces(out, &[Piece::Bytes(b" "), Piece::Bytes(symbol)])?;
        }
    }
    let end: &[u8] = if firsts.lines > MOST_NAMED {
        b" ..\n"
    } else {
        b"\n"
    };
    write_pieces(out, &[Piece::Bytes(end)])
}

// Whether a byte is a line feed.
fn is_line_feed(byte: &u8) -> bool {
    *byte == b'\n'
}
