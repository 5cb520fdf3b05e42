//! What is told on standard error: a prompt, and the sentence behind a refusal.
//!
//! Replies go to standard output, and what stands here is for a person. A message that can't be written is left out: it ends nothing,
//! and no fault of a session counts it.

use crate::file_reasons::FileReason;
use crate::typed_lines::{TypedLines, Wish};
use coll_advice::{Found, advice_of, meant_name, write_advice};
use coll_devices::{Sink, WriteStop};
use coll_findings::{FOLLOWS_OPENING, ForeignWord};
use coll_syntax::Id;
use coll_table::Table;
use coll_texts::{Piece, write_pieces};

// The numbers of faults of which more is told than their sentence.
const UNKNOWN_STATEMENT: u8 = 20;

const MISSING_OPERAND: u8 = 21;

const EXTRA_OPERAND: u8 = 22;

const BAD_OPERAND: u8 = 29;

const NOT_PLACED: u8 = 54;

const NO_WEIGHTS: u8 = 55;

const BLOCK_OPEN: u8 = 62;

const UNKNOWN_COMMAND: u8 = 64;

const NO_BLOCK: u8 = 69;

/// Tells these words.
pub fn tell_words<M: Sink>(messages: &mut M, words: &[u8]) {
    let _ = write_pieces(messages, &[Piece::Bytes(words)]);
    let _ = messages.flush();
}

/// What of the statements that remain stands in no file.
#[derive(Clone, Copy)]
pub enum Unwritten {
    /// They are those that were read or written last.
    Nothing,
    /// Each of them stands in a file, and there are others in what was read or written last.
    TakenBack,
    /// So many of them stand in no file.
    Statements(u32),
}

impl Unwritten {
    /// Whether nothing of them has to be written.
    pub fn is_nothing(self) -> bool {
        matches!(self, Unwritten::Nothing)
    }
}

/// Tells what of the statements that remain stands in no file, and what may be done while the edit goes on.
pub fn tell_unwritten<M: Sink>(messages: &mut M, unwritten: Unwritten, ended: bool) {
    match (unwritten, ended) {
        (Unwritten::Nothing, _) => return,
        (Unwritten::TakenBack, false) => tell_words(messages, FILE_HAS_MORE),
        (Unwritten::TakenBack, true) => tell_words(messages, FILE_HAD_MORE),
        (Unwritten::Statements(1), false) => tell_counted(messages, 1, ONE_UNWRITTEN),
        (Unwritten::Statements(1), true) => tell_counted(messages, 1, ONE_LOST),
        (Unwritten::Statements(count), false) => tell_counted(messages, count, SOME_UNWRITTEN),
        (Unwritten::Statements(count), true) => tell_counted(messages, count, SOME_LOST),
    }
}

// Tells these words of so many statements.
fn tell_counted<M: Sink>(messages: &mut M, count: u32, said: &[u8]) {
    let _ = write_pieces(
        messages,
        &[
            Piece::Bytes(b"note: "),
            Piece::Number(u64::from(count)),
            Piece::Bytes(said),
        ],
    );
    let _ = messages.flush();
}

const FILE_HAS_MORE: &[u8] =
    b"note: the file that was read or written last has statements that were taken back (:write FILE); another :quit leaves it so\n";

const FILE_HAD_MORE: &[u8] =
    b"note: the file that was read or written last has statements that were taken back\n";

const ONE_UNWRITTEN: &[u8] =
    b" statement stands in no file (:write FILE); another :quit drops it\n";

const SOME_UNWRITTEN: &[u8] =
    b" statements stand in no file (:write FILE); another :quit drops them\n";

const ONE_LOST: &[u8] = b" statement stands in no file, and is lost\n";

const SOME_LOST: &[u8] = b" statements stand in no file, and are lost\n";

/// Where a refusal comes from.
#[derive(Clone, Copy)]
pub enum Origin<'a> {
    /// The line that was replied to.
    Here,
    /// A line of the block that is open, by its number there, from 1.
    Block(usize),
    /// A statement, in which this was found.
    Found(&'a Found),
    /// The line that was replied to, which names this.
    Id(&'a Id),
    /// A line of a file, by the file's name and its number, or 0 for none.
    File(&'a str, u32),
    /// A file that can't be opened, by its name.
    Unopened(&'a str, FileReason),
}

/// What to do, where more is known than the number of a refusal.
#[derive(Clone, Copy)]
pub enum Hint<'a> {
    /// No more is.
    Nothing,
    /// This command is meant.
    Meant(&'static str),
    /// The end was asked for in an open block, or that something is undone.
    OpenBlock,
    /// `%` stands where a comment does in many sources.
    Comment,
    /// The statement with this number needs the one that was to be withdrawn.
    NeededBy(u32),
    /// This declared name is meant, which stands there without its brackets.
    Name(&'a str),
    /// The line begins with this keyword of another dialect.
    Foreign(ForeignWord),
    /// The line was meant for a block, and the line was refused that was to open it.
    Follows,
    /// The line asks for a number that no fault has.
    NoFault,
    /// The line asks what something means that is no number.
    NoNumber,
    /// The line begins with nothing that an edit knows.
    Unknown,
    /// The line has other operands than it has to have: this says how it is written.
    Written(&'static str),
}

/// What to do about a refusal of the line that was typed last, with a number.
pub fn hint_for(typed: &TypedLines, number: u8) -> Hint<'_> {
    match typed.wish() {
        Wish::Help if is_of_word(number) => Hint::Meant(":help"),
        Wish::End if is_of_word(number) => Hint::Meant(":quit"),
        Wish::Leave if number == BLOCK_OPEN => Hint::OpenBlock,
        Wish::Comment if is_of_word(number) => Hint::Comment,
        Wish::Comment if number == EXTRA_OPERAND || number == BAD_OPERAND => Hint::Comment,
        Wish::Foreign(word) if number == UNKNOWN_STATEMENT => Hint::Foreign(word),
        Wish::Command(command) if is_unknown(number) && typed.name().is_none() => Hint::Meant(
            command,
        ),
        _ => hint_by_words(typed, number),
    }
}

// What to do about such a refusal by the names of the line, by how it is written, or since no block was opened.
fn hint_by_words(typed: &TypedLines, number: u8) -> Hint<'_> {
    match typed.name() {
        Some(name) if number == UNKNOWN_STATEMENT || number == BAD_OPERAND => Hint::Name(name),
        _ if typed.is_unopened() && is_of_block(number) => Hint::Follows,
        _ => match typed.written(number) {
            Some(written) if is_of_spelling(number) => Hint::Written(written),
            _ if number == UNKNOWN_STATEMENT => Hint::Unknown,
            _ => Hint::Nothing,
        },
    }
}

// Whether a line is refused for its words.
fn is_of_spelling(number: u8) -> bool {
    matches!(
        number,
        UNKNOWN_STATEMENT | MISSING_OPERAND | EXTRA_OPERAND | BAD_OPERAND
    )
}

// Whether a line is refused as one may be that was meant for a block, where none is open.
fn is_of_block(number: u8) -> bool {
    matches!(number, NOT_PLACED | NO_WEIGHTS | NO_BLOCK)
}

// Whether a line is refused since nothing begins so.
fn is_unknown(number: u8) -> bool {
    number == UNKNOWN_STATEMENT || number == UNKNOWN_COMMAND
}

// Whether a word or a character is refused as what it isn't.
fn is_of_word(number: u8) -> bool {
    number == UNKNOWN_STATEMENT || number == NOT_PLACED || number == NO_WEIGHTS
}

/// Tells what a refusal says, by its number: where it comes from, what it is about, and what to do.
pub fn tell_refusal<M: Sink>(
    messages: &mut M,
    table: &Table,
    number: u8,
    origin: Origin<'_>,
    hint: Hint<'_>,
) {
    let _ = write_told(messages, table, number, origin, hint);
    let _ = messages.flush();
}

// Writes what a refusal says.
fn write_told<M: Sink>(
    messages: &mut M,
    table: &Table,
    number: u8,
    origin: Origin<'_>,
    hint: Hint<'_>,
) -> Result<(), WriteStop> {
    let Some(advice) = advice_of(number) else {
        return Ok(());
    };
    write_origin(messages, origin)?;
    write_pieces(
        messages,
        &[
            Piece::Number(u64::from(number)),
            Piece::Bytes(b" "),
            Piece::Bytes(advice.name.as_bytes()),
        ],
    )?;
    match hint {
        Hint::Nothing => write_advised(messages, table, number, origin),
        Hint::Meant(command) => write_meant(messages, Piece::Bytes(command.as_bytes())),
        Hint::OpenBlock => write_pieces(messages, &[Piece::Bytes(OPEN_BLOCK)]),
        Hint::Comment => write_pieces(messages, &[Piece::Bytes(NO_COMMENT)]),
        Hint::NeededBy(number) => write_needed(messages, number),
        Hint::Name(name) => write_meant(messages, Piece::Symbol(name)),
        Hint::Foreign(word) => write_foreign(messages, word),
        Hint::Follows => write_following(messages, origin),
        Hint::NoFault => write_pieces(messages, &[Piece::Bytes(NO_FAULT)]),
        Hint::NoNumber => write_pieces(messages, &[Piece::Bytes(NO_NUMBER)]),
        Hint::Unknown => write_pieces(messages, &[Piece::Bytes(UNKNOWN)]),
        Hint::Written(written) => write_said(messages, written),
    }
}

// How an open block is left by whoever asks for the end there, or undoes something.
const OPEN_BLOCK: &[u8] =
    b": end the block by reorder-end, and take it back by :undo if the reply is ok; the end of the input, Ctrl-D at a terminal, drops it and ends the edit\n";

// What a line says that was meant as a comment.
const NO_COMMENT: &[u8] = b": % begins no comment here; behind a line comment_char % it does\n";

// What is told of a number that no fault has.
const NO_FAULT: &[u8] = b": no refusal has this number\n";

// What is told of a line that begins with nothing known here.
const UNKNOWN: &[u8] =
    b": look for a mistyped keyword, or a symbol without < and >; :help tells of each line\n";

// What is told of something else than a number.
const NO_NUMBER: &[u8] =
    b": behind :help stands the number of a refusal; :help alone tells of each line\n";

// Writes which command is meant, or which name between its brackets.
fn write_meant<M: Sink>(messages: &mut M, meant: Piece<'_>) -> Result<(), WriteStop> {
    let pieces = [Piece::Bytes(b": is "), meant, Piece::Bytes(b" meant?\n")];
    write_pieces(messages, &pieces)
}

// Writes what to do.
fn write_said<M: Sink>(messages: &mut M, said: &'static str) -> Result<(), WriteStop> {
    let pieces = [
        Piece::Bytes(b": "),
        Piece::Bytes(said.as_bytes()),
        Piece::Bytes(b"\n"),
    ];
    write_pieces(messages, &pieces)
}

// Writes a keyword of another dialect, and what to write instead, as a lint does.
fn write_foreign<M: Sink>(messages: &mut M, word: ForeignWord) -> Result<(), WriteStop> {
    if let Some(theirs) = word.theirs {
        write_pieces(
            messages,
            &[Piece::Bytes(b" "), Piece::Bytes(theirs.as_bytes())],
        )?;
    }
    write_said(messages, word.ours)
}

// Writes what a refusal is about that comes from no line of a block, since none was opened, and that it follows from that.
fn write_following<M: Sink>(messages: &mut M, origin: Origin<'_>) -> Result<(), WriteStop> {
    if let Some(id) = subject(origin) {
        write_pieces(messages, &[Piece::Bytes(b" "), Piece::Id(id)])?;
    }
    write_said(messages, FOLLOWS_OPENING)
}

// Writes which statement needs the one that was to be withdrawn.
fn write_needed<M: Sink>(messages: &mut M, number: u32) -> Result<(), WriteStop> {
    write_pieces(
        messages,
        &[
            Piece::Bytes(b": statement "),
            Piece::Number(u64::from(number)),
            Piece::Bytes(b" needs it: withdraw that one before, by :withdraw "),
            Piece::Number(u64::from(number)),
            Piece::Bytes(b"\n"),
        ],
    )
}

// Writes what a refusal is about, and what its number says to do, or why a file can't be opened.
fn write_advised<M: Sink>(
    messages: &mut M,
    table: &Table,
    number: u8,
    origin: Origin<'_>,
) -> Result<(), WriteStop> {
    if let Origin::Unopened(name, reason) = origin {
        return write_pieces(
            messages,
            &[
                Piece::Bytes(b" "),
                Piece::Bytes(name.as_bytes()),
                Piece::Bytes(b": "),
                Piece::Bytes(reason.words().as_bytes()),
                Piece::Bytes(b"\n"),
            ],
        );
    }
    let id = subject(origin);
    let near = match id {
        Some(id) => meant_name(table, number, id),
        None => None,
    };
    write_advice(messages, number, id, near)
}

// The identifier that a refusal is about, if it is known.
fn subject<'a>(origin: Origin<'a>) -> Option<&'a Id> {
    match origin {
        Origin::Found(found) => found.id.as_ref(),
        Origin::Id(id) => Some(id),
        _ => None,
    }
}

// Writes where a refusal comes from, if that is not the line that was replied to: a line of a block by its number there, from 1.
fn write_origin<M: Sink>(messages: &mut M, origin: Origin<'_>) -> Result<(), WriteStop> {
    let line = match origin {
        Origin::Here | Origin::Id(_) | Origin::Unopened(..) | Origin::File(_, 0) => return Ok(()),
        Origin::File(name, line) => {
            return write_pieces(
                messages,
                &[
                    Piece::Bytes(name.as_bytes()),
                    Piece::Bytes(b":"),
                    Piece::Number(u64::from(line)),
                    Piece::Bytes(b": "),
                ],
            );
        }
        Origin::Block(line) => line,
        Origin::Found(found) => match found.line {
            Some(line) => line.saturating_add(1),
            None => return Ok(()),
        },
    };
    write_pieces(
        messages,
        &[
            Piece::Bytes(b"line "),
            Piece::Number(line as u64),
            Piece::Bytes(b" of the block: "),
        ],
    )
}
