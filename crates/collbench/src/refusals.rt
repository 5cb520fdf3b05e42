//! What is told of a fault that ended a run, below its line, where standard error is a terminal.
//!
//! The line at fault is shown, with a mark, and what to do. So the files that a fault is about are read once more: regular files alone,
//! since a pipe or a device gives its bytes once, and never standard input. Why a file can't be read the system is asked anew
//! (`reason_for`). Whatever fails here is left out: the line of the fault and the exit status stay what they are without a terminal.
//!
//! Of what a survey doesn't look for more is told here, as an edit tells it: a target or a section that is near, `%` where it begins no
//! comment; of a delta file without its category, that a list of words is none; of a block that isn't ended, where it begins; and of a
//! source that one import refuses, which other one takes it.

use crate::standard_input::STANDARD_INPUT;
use coll_advice::meant_name;
use coll_bench::{Fault, RunFault, read_inputs};
use coll_findings::About;
use coll_lex::{Counted, TextBuf, past_blanks};
use coll_lint::keep_text;
use coll_refused_lines::{
    RefusedLine, refused_alone, refused_at, refused_in_delta, refused_in_table, write_refused,
};
use coll_source_lines::SourceFault;
use coll_system::{random_keys, told_reason};
use coll_table::{HashKeys, LoadCause, Table};
use std::alloc::Global;
use std::fs;
use std::fs::File;
use std::io::{ErrorKind, IsTerminal};

// The number of the fault of a file that can't be opened or read.
const READ_FAULT: u8 = 67;

// The last number of the faults of lines, which are about no identifier.
const LAST_OF_LINES: u8 = 12;

// The numbers of the faults of a target that isn't placed, and of a section that isn't there. A survey looks for names that are near to
// those of its first faults alone.
const TARGET_NOT_PLACED: u8 = 50;

const NO_SUCH_SECTION: u8 = 52;

// The number of the fault of a line that begins with no keyword.
const UNKNOWN_STATEMENT: u8 = 20;

// What a source is to be made into that changes a table.
const TAILORS: &str =
    "a source that changes a table, as by reorder-after, goes through collbench import-delta TABLE SOURCE";

// What a source is to be made into that has an order.
const ORDERS: &str =
    "a source with an order of its own, from order_start, goes through collbench import SOURCE";

// What begins the lines by which a source changes a table.
const REORDER: &[u8] = b"reorder-";

// What begins the line by which a source begins an order.
const ORDER_START: &[u8] = b"order_start";

// What a line says that was meant as a comment, as in an edit.
const NO_COMMENT: &str = "% begins no comment here; behind a line comment_char % it does";

// What a line says of the character that begins comments where no line chooses another.
const NO_LONGER: &str =
    "# begins no comment here, since a line comment_char chose another character";

// What begins a line that chooses the character of comments.
const COMMENT_CHAR: &[u8] = b"comment_char";

// The number of the fault of a text without its category.
const NO_CATEGORY: u8 = 30;

// What to do about a delta file that has none, as a list of words.
const NO_DELTA: &str =
    "a delta file has a line LC_COLLATE before its statements, and END LC_COLLATE behind them; a list of words is none, and collbench sort reads it from standard input";

// The numbers of the faults of a block that is still open.
const BLOCK_OPEN: u8 = 62;

const BLOCK_NOT_ENDED: u8 = 63;

// What begins the line that opens a block.
const REORDER_AFTER: &[u8] = b"reorder-after";

// What is surveyed for a fault.
enum Surveyed {
    Table,
    Delta,
    Nothing,
}

/// Tells below the line of a fault of these files what stands there, and what to do.
pub(crate) fn tell_below(rt: &HostRuntime, fault: &RunFault, names: &[String]) {
    if !rt.stderr().is_terminal() {
        return;
    }
    let number = fault.fault.number();
    match names.get(fault.input) {
        Some(name) if number == READ_FAULT => tell_unread(rt, name.as_str()),
        Some(name) => {
            let refused = refused_in_file(rt, fault, name.as_str(), names);
            tell_refused(rt, number, refused);
            if number == BLOCK_OPEN || number == BLOCK_NOT_ENDED {
                tell_open_block(rt, fault.line, name.as_str());
            }
        }
        None => tell_alone(rt, number),
    }
}

/// Tells below a fault of a text by what others are told.
pub(crate) fn tell_of_lint(rt: &HostRuntime, fault: &RunFault) {
    if fault.line > 0 && rt.stderr().is_terminal() {
        let _ = eprintln!(rt; "collbench lint tells all that is wrong");
    }
}

/// Tells below the line of a fault of these sources what stands there, and what to do. What the first of them copies lies in this folder.
pub(crate) fn tell_below_source(
    rt: &HostRuntime,
    fault: &SourceFault,
    files: &[String],
    folder: &str,
) {
    if !rt.stderr().is_terminal() {
        return;
    }
    let (number, place) = (fault.cause.number(), fault.place);
    match files.get(place.text) {
        Some(name) if number == READ_FAULT && place.text > 0 => {
            tell_missing_copy(rt, name.as_str(), folder)
        }
        Some(name) if number == READ_FAULT => tell_unread(rt, name.as_str()),
        Some(name) => {
            let refused = refused_in_source(rt, number, place.line, name.as_str());
            tell_refused(rt, number, refused);
        }
        None => tell_alone(rt, number),
    }
}

/// Tells below the line of a fault with this number what to do.
pub(crate) fn tell_sentence(rt: &HostRuntime, number: u8) {
    if rt.stderr().is_terminal() {
        tell_alone(rt, number);
    }
}

// Tells what was found of a fault with this number; if nothing was, what to do.
fn tell_refused(rt: &HostRuntime, number: u8, refused: Option<RefusedLine>) {
    match refused {
        Some(refused) => {
            let _ = write_refused(&refused, &mut Counted::new(rt.stderr()));
            drop(refused);
        }
        None => tell_alone(rt, number),
    }
}

// Tells what to do for a fault with this number.
fn tell_alone(rt: &HostRuntime, number: u8) {
    let refused = refused_alone(number);
    let _ = write_refused(&refused, &mut Counted::new(rt.stderr()));
    drop(refused);
}

// Tells why a file can't be read, where the system says it, and what to do.
fn tell_unread(rt: &HostRuntime, name: &str) {
    match reason_for(rt, name) {
        Some(words) => {
            let refused = refused_alone(READ_FAULT);
            let sentence = refused.sentence;
            let _ = eprintln!(rt; "{words}: {sentence}");
            drop(refused);
        }
        None => tell_alone(rt, READ_FAULT),
    }
}

// Tells why what a source copies can't be read, and in which folder it was looked for.
fn tell_missing_copy(rt: &HostRuntime, name: &str, folder: &str) {
    let folder = if folder.is_empty() { "./" } else { folder };
    let words = reason_for(rt, name).unwrap_or("it can't be read");
    let _ = eprintln!(rt;
        "{words}: what a source copies is looked for in the folder of the source, {folder}"
    );
}

// Tells in which line of the file with this name the block begins that is open in the line with this number.
fn tell_open_block(rt: &HostRuntime, number: u32, name: &str) {
    let Some(text) = kept_file(rt, name) else {
        return;
    };
    if let Some(begin) = last_block(text.as_slice(), number) {
        let _ = eprintln!(rt; "the open block begins in line {begin}");
    }
    drop(text);
}

// The number of the last line of a text that opens a block, before the line with this number.
fn last_block(text: &[u8], number: u32) -> Option<u32> {
    let mut begin = None;
    let mut lines = text.split(is_line_feed);
    for before in 1..number {
        if past_blanks(lines.next()?).starts_with(REORDER_AFTER) {
            begin = Some(before);
        }
    }
    begin
}

// Why a file can't be read, where the system says it.
fn reason_for(rt: &HostRuntime, name: &str) -> Option<&'static str> {
    if name == STANDARD_INPUT {
        return None;
    }
    match fs::metadata(rt, name) {
        Ok(metadata) if metadata.is_dir() => told_reason(Some(ErrorKind::IsADirectory)),
        Ok(metadata) if metadata.is_file() => match File::open(rt, name) {
            Ok(_) => None,
            Err(error) => told_reason(Some(error.kind())),
        },
        Ok(_) => None,
        Err(error) => told_reason(Some(error.kind())),
    }
}

// What is told of a fault of the file with this name, which is one of those with these names.
fn refused_in_file(
    rt: &HostRuntime,
    fault: &RunFault,
    name: &str,
    names: &[String],
) -> Option<RefusedLine> {
    if fault.line == 0 {
        return None;
    }
    let text = kept_file(rt, name)?;
    let refused = refused_in_text(rt, fault, text.as_slice(), names);
    drop(text);
    refused
}

// What is told of a fault of a text, which the file has that is its input.
fn refused_in_text(
    rt: &HostRuntime,
    fault: &RunFault,
    text: &[u8],
    names: &[String],
) -> Option<RefusedLine> {
    let Ok(keys) = random_keys(rt) else {
        return None;
    };
    let refused = match surveyed_for(&fault.fault) {
        Surveyed::Table => refused_in_table(rt.alloc(), keys, fault, text),
        Surveyed::Delta => match table_before(rt, keys, fault.input, names) {
            Some(table) => refused_in_delta(rt.alloc(), keys, fault, table, text),
            None => refused_at(rt.alloc(), fault.fault.number(), fault.line, text),
        },
        Surveyed::Nothing => refused_at(rt.alloc(), fault.fault.number(), fault.line, text),
    };
    let mut refused = refused.ok()?;
    if let Some(sentence) = comment_sentence(text, fault.line, fault.fault.number()) {
        refused.sentence = sentence;
    }
    if fault.input > 0 && fault.fault.number() == NO_CATEGORY {
        refused.sentence = NO_DELTA;
    }
    if matches!(fault.fault.number(), TARGET_NOT_PLACED | NO_SUCH_SECTION) {
        if let Some(table) = table_before(rt, keys, fault.input, names) {
            seek_near(rt.alloc(), &table, fault.fault.number(), &mut refused.about);
            drop(table);
        }
    }
    Some(refused)
}

// Gives what a fault with this number is about the name that is nearest to it, as an edit tells it, where one is near.
fn seek_near(alloc: Global, table: &Table, number: u8, about: &mut About) {
    let About::Id { id, near } = about else {
        return;
    };
    if let Some(meant) = meant_name(table, number, id) {
        *near = TextBuf::copied(alloc, meant).ok();
    }
}

// What to do about the line of a text with this number that is refused for what may be meant as a comment: a word that begins with `%`, as an
// edit tells it, or with `#`, where a line before chooses another character for comments.
fn comment_sentence(text: &[u8], number: u32, fault: u8) -> Option<&'static str> {
    if !matches!(fault, 20 | 22 | 29 | 54 | 55) {
        return None;
    }
    let mut begins: &[u8] = b"#";
    let mut lines = text.split(is_line_feed);
    for _ in 1..number {
        if let Some(chosen) = lines.next().and_then(chosen_for_comments) {
            begins = chosen;
        }
    }
    let line = lines.next()?;
    if !begins.starts_with(b"%") && line.split(is_blank).any(begins_with_percent) {
        return Some(NO_COMMENT);
    }
    if !begins.starts_with(b"#") && line.split(is_blank).any(begins_with_hash) {
        return Some(NO_LONGER);
    }
    None
}

// What begins with the character that a line chooses for comments, if it chooses one.
fn chosen_for_comments(line: &[u8]) -> Option<&[u8]> {
    let line = past_blanks(line);
    if !line.starts_with(COMMENT_CHAR) {
        return None;
    }
    let chosen = line.get(COMMENT_CHAR.len()..)?;
    Some(past_blanks(chosen))
}

// Whether a word begins as a comment does in many sources.
fn begins_with_percent(word: &[u8]) -> bool {
    word.starts_with(b"%")
}

// Whether a word begins as a comment does where no line chooses its character.
fn begins_with_hash(word: &[u8]) -> bool {
    word.starts_with(b"#")
}

// Whether a byte parts words.
fn is_blank(byte: &u8) -> bool {
    *byte == b' ' || *byte == b'\t'
}

// Whether a byte parts lines.
fn is_line_feed(byte: &u8) -> bool {
    *byte == b'\n'
}

// What is surveyed for a fault: the table or the delta file that it comes from, where it may be about something in a line.
fn surveyed_for(fault: &Fault) -> Surveyed {
    if fault.number() <= LAST_OF_LINES {
        return Surveyed::Nothing;
    }
    match fault {
        Fault::Load(found) => match found.cause {
            LoadCause::NoCategory | LoadCause::NoEnd => Surveyed::Nothing,
            _ => Surveyed::Table,
        },
        Fault::Syntax(_) | Fault::Table(_) => Surveyed::Delta,
        _ => Surveyed::Nothing,
    }
}

// What is told of a fault with this number at a line of the source in the file with this name.
fn refused_in_source(rt: &HostRuntime, number: u8, line: u32, name: &str) -> Option<RefusedLine> {
    if line == 0 {
        return None;
    }
    let text = kept_file(rt, name)?;
    let refused = refused_at(rt.alloc(), number, line, text.as_slice());
    let import = match number {
        UNKNOWN_STATEMENT => other_import(text.as_slice(), line),
        _ => None,
    };
    drop(text);
    let mut refused = refused.ok()?;
    if let Some(sentence) = import {
        refused.sentence = sentence;
    }
    Some(refused)
}

// Which import takes a source of which another one refuses the line with this number: a line of a tailoring, or of an order.
fn other_import(text: &[u8], number: u32) -> Option<&'static str> {
    let mut lines = text.split(is_line_feed);
    let line = past_blanks(lines.nth((number as usize).saturating_sub(1))?);
    if line.starts_with(REORDER) {
        return Some(TAILORS);
    }
    if line.starts_with(ORDER_START) {
        return Some(ORDERS);
    }
    None
}

// The table in the first of the files with these names, rewritten by those before a delta file.
fn table_before(rt: &HostRuntime, keys: HashKeys, delta: usize, names: &[String]) -> Option<Table> {
    let mut inputs = Vec::new(rt.alloc());
    for name in names.get(..delta)? {
        let file = regular_file(rt, name.as_str())?;
        inputs.push(Counted::new(file)).ok()?;
    }
    read_before(rt, keys, inputs.as_mut_slice())
}

// The table in the first of these inputs, rewritten by the others.
fn read_before(rt: &HostRuntime, keys: HashKeys, inputs: &mut [Counted<File>]) -> Option<Table> {
    if inputs.is_empty() {
        return None;
    }
    let (table, deltas) = inputs.split_at_mut(1);
    read_inputs(rt.alloc(), keys, &mut table[0], deltas).ok()
}

// The text of a regular file.
fn kept_file(rt: &HostRuntime, name: &str) -> Option<Vec<u8>> {
    let file = regular_file(rt, name)?;
    keep_text(rt.alloc(), 0, &mut Counted::new(file)).ok()
}

// A file, opened once more, if it is a regular one.
fn regular_file(rt: &HostRuntime, name: &str) -> Option<File> {
    if name == STANDARD_INPUT {
        return None;
    }
    let metadata = fs::metadata(rt, name).ok()?;
    if !metadata.is_file() {
        return None;
    }
    File::open(rt, name).ok()
}
