//! What a person is told of a statement that does less than it seems to, accepted or not.
//!
//! Nothing of it is a fault, and no reply tells it: it goes to standard error behind the reply, and changes none. An entry may stand
//! where it doesn't sort (`is_misplaced`): it is told with which weights it does. Where it weighs alike the entry before it but for the
//! letter, that letter's symbol may be moved as well, which takes all along that weigh as the same; others would turn a letter and what
//! varies it round. A symbol, which has no weights, is put behind a symbol. A line may give weights for few levels, and weigh as itself at
//! the others. A statement may leave the table as it is, and `copy` and `script` do. A line may begin with `%`, which begins no comment.
//! A block that another one ends has no `reorder-end`, which may have been forgotten. Where the line was refused that was to open a
//! block, an order line gives weights, and moves nothing. And of a block that is refused, for whichever line, nothing is done.

use crate::messages::tell_words;
use coll_devices::Sink;
use coll_findings::{first_weight, is_misplaced, lacks_weights, lead_of, weighs_as};
use coll_syntax::{Id, OrderLine, Statement, Weight};
use coll_table::{Entry, Table};
use coll_texts::{Piece, write_pieces};

// Of so many lines of a block it is told where their entries sort; of more, how many they are.
const MOST_NOTES: u64 = 5;

/// Tells of a statement that was accepted which lines give weights for few levels, and which entries stand where they don't sort, over
/// the table behind it.
pub fn tell_notes<M: Sink>(messages: &mut M, table: &Table, statement: &Statement) {
    match statement {
        Statement::Block { lines, .. } => {
            tell_lacking(messages, table, lines.get());
            tell_lines(messages, table, lines.get());
        }
        Statement::Reweight(line) => {
            if lacks_weights(table, line) {
                tell_lack(messages, table, None, line);
            }
            if is_misplaced(table, line) {
                tell_misplaced(messages, table, None, &line.id);
            }
        }
        _ => return,
    }
    let _ = messages.flush();
}

// Tells which lines of a block give weights for few levels.
fn tell_lacking<M: Sink>(messages: &mut M, table: &Table, lines: &[OrderLine]) {
    let mut lacking: u64 = 0;
    for (place, line) in lines.iter().enumerate() {
        if lacks_weights(table, line) {
            lacking = lacking.saturating_add(1);
            if lacking <= MOST_NOTES {
                tell_lack(messages, table, Some(place as u64), line);
            }
        }
    }
    tell_others(messages, lacking.saturating_sub(MOST_NOTES));
}

// Tells that a line, behind so many others of its block if it stands in one, gives weights for few of the levels.
fn tell_lack<'a, M: Sink>(
    messages: &mut M,
    table: &Table,
    lines_before: Option<u64>,
    line: &'a OrderLine,
) {
    let Some(weights) = &line.weights else {
        return;
    };
    tell_line(messages, lines_before);
    let _ = write_pieces(
        messages,
        &[
            Piece::Id(&line.id),
            Piece::Bytes(b" has "),
            Piece::Number(weights.get().len() as u64),
            Piece::Bytes(b" of "),
            Piece::Number(table.rules().len() as u64),
            Piece::Bytes(b" weights, and weighs as itself at the other levels\n"),
        ],
    );
}

// Tells which lines of a block have their entries stand where they don't sort.
fn tell_lines<M: Sink>(messages: &mut M, table: &Table, lines: &[OrderLine]) {
    let mut misplaced: u64 = 0;
    for (place, line) in lines.iter().enumerate() {
        if is_misplaced(table, line) {
            misplaced = misplaced.saturating_add(1);
            if misplaced <= MOST_NOTES {
                tell_misplaced(messages, table, Some(place as u64), &line.id);
            }
        }
    }
    tell_others(messages, misplaced.saturating_sub(MOST_NOTES));
}

// Tells that the entry of a line, behind so many others of its block if it stands in one, doesn't sort behind what stands before it, and
// what has it sort there.
fn tell_misplaced<'a, M: Sink>(
    messages: &mut M,
    table: &'a Table,
    lines_before: Option<u64>,
    id: &'a Id,
) {
    let Some(entry) = table.entry(id) else {
        return;
    };
    let Some(before) = lead_of(table, id) else {
        return;
    };
    tell_line(messages, lines_before);
    let _ = write_pieces(
        messages,
        &[
            Piece::Id(id),
            Piece::Bytes(b" weighs as "),
            weight_of(entry),
            Piece::Bytes(b" at the first level, and "),
            Piece::Id(before.id()),
            Piece::Bytes(b" before it as "),
            weight_of(before),
        ],
    );
    if table.is_symbol(id) {
        tell_target(messages, before);
    } else if is_ignored(before) {
        tell_words(messages, NO_PLACE);
    } else {
        tell_weights(messages, table, entry, before);
    }
}

// Tells that something is noted, and of which line of a block, if it is of one.
fn tell_line<M: Sink>(messages: &mut M, lines_before: Option<u64>) {
    let _ = write_pieces(messages, &[Piece::Bytes(b"note: ")]);
    if let Some(lines_before) = lines_before {
        let _ = write_pieces(
            messages,
            &[
                Piece::Bytes(b"line "),
                Piece::Number(lines_before.saturating_add(1)),
                Piece::Bytes(b" of the block: "),
            ],
        );
    }
}

// What is told of an entry behind one that is ignored at the first level.
const NO_PLACE: &[u8] = b", behind which nothing sorts: choose another target
";

// Tells, to the end of the line, that a symbol, which has no weights, is to stand behind what the entry before weighs as.
fn tell_target<'a, M: Sink>(messages: &mut M, before: &'a Entry) {
    let _ = write_pieces(
        messages,
        &[
            Piece::Bytes(b": to sort it here, move it behind "),
            Piece::Id(weighs_as(before)),
            Piece::Bytes(b"\n"),
        ],
    );
}

// Tells, to the end of the line, which weights an entry sorts with behind the one before it; and that what it weighs as may be moved
// behind what that one weighs as, where they differ as two letters do.
fn tell_weights<'a, M: Sink>(
    messages: &mut M,
    table: &'a Table,
    entry: &'a Entry,
    before: &'a Entry,
) {
    let behind = weighs_as(before);
    let _ = write_pieces(
        messages,
        &[
            Piece::Bytes(b": to sort it here, give it weights that begin with "),
            Piece::Id(behind),
            Piece::Bytes(b", or with a symbol of its own put behind "),
            Piece::Id(behind),
        ],
    );
    if differ_by_letter(table, entry, before) {
        let _ = write_pieces(
            messages,
            &[
                Piece::Bytes(b"; or move "),
                Piece::Id(weighs_as(entry)),
                Piece::Bytes(b", with all that weigh so, behind "),
                Piece::Id(behind),
            ],
        );
    }
    let _ = write_pieces(messages, &[Piece::Bytes(b"\n")]);
}

// Whether an entry has the place of another one at the first level, which has its own there, and weighs as the entry before it at
// all other levels.
fn differ_by_letter(table: &Table, entry: &Entry, before: &Entry) -> bool {
    let ([first, levels @ ..], [_, before_levels @ ..]) = (entry.weights(), before.weights()) else {
        return false;
    };
    let Some(letter) = one_name(entry, first) else {
        return false;
    };
    if letter.is_same(entry.id()) || first_weight(table, letter).is_some() {
        return false;
    }
    weigh_alike(entry, levels, before, before_levels)
}

// Whether an entry and another one weigh alike by these weights.
fn weigh_alike(entry: &Entry, weights: &[Weight], other: &Entry, others: &[Weight]) -> bool {
    if weights.len() != others.len() {
        return false;
    }
    for (level, weight) in weights.iter().enumerate() {
        match others.get(level) {
            Some(its) if is_alike(entry, weight, other, its) => {}
            _ => return false,
        }
    }
    true
}

// Whether weights of two entries at a level are both ignored, the same name, or each its entry itself.
fn is_alike(entry: &Entry, weight: &Weight, other: &Entry, its: &Weight) -> bool {
    match (one_name(entry, weight), one_name(other, its)) {
        (Some(name), Some(its_name)) => {
            name.is_same(its_name) || (name.is_same(entry.id()) && its_name.is_same(other.id()))
        }
        (None, None) => matches!((weight, its), (Weight::Ignore, Weight::Ignore)),
        _ => false,
    }
}

// The one identifier that a weight of an entry names, or that it is.
fn one_name<'a>(entry: &'a Entry, weight: &'a Weight) -> Option<&'a Id> {
    match weight {
        Weight::Ignore => None,
        Weight::Own => Some(entry.id()),
        Weight::Names(ids) => match ids.get() {
            [id] => Some(id),
            _ => None,
        },
    }
}

// What an entry weighs as at the first level.
fn weight_of<'a>(entry: &'a Entry) -> Piece<'a> {
    if is_ignored(entry) {
        return Piece::Bytes(b"nothing");
    }
    let weight = weighs_as(entry);
    if weight.is_same(entry.id()) {
        return Piece::Bytes(b"itself");
    }
    Piece::Id(weight)
}

// Whether an entry is ignored at the first level.
fn is_ignored(entry: &Entry) -> bool {
    match entry.weights() {
        [Weight::Ignore, ..] => true,
        _ => false,
    }
}

// Tells that a block has so many lines more of this kind, if it has any.
fn tell_others<M: Sink>(messages: &mut M, others: u64) {
    if others == 0 {
        return;
    }
    let _ = write_pieces(
        messages,
        &[
            Piece::Bytes(b"note: so it is with "),
            Piece::Number(others),
            Piece::Bytes(b" more lines of the block\n"),
        ],
    );
}

/// What is noted of a line, or of a statement as a whole.
#[derive(Clone, Copy)]
pub enum Note {
    /// A block ended without `reorder-end`, since another one begins.
    Unended,
    /// A block was refused, whole.
    Refused,
    /// An order line gave weights where no block was opened.
    Unopened,
    /// An order line begins with `%`.
    PercentSign,
    /// A line has no effect.
    Idle,
    /// A statement leaves the table as it is.
    Unchanged,
}

impl Note {
    // Its line: what a lint warns of is in the words of a lint.
    fn line(self) -> &'static [u8] {
        match self {
            Note::Unended => UNENDED,
            Note::Refused => REFUSED,
            Note::Unopened => UNOPENED,
            Note::PercentSign => PERCENT,
            Note::Idle => IDLE,
            Note::Unchanged => UNCHANGED,
        }
    }
}

/// Tells a note.
pub fn tell_note<M: Sink>(messages: &mut M, note: Note) {
    tell_words(messages, note.line());
}

const UNENDED: &[u8] =
    b"note: the block before has no reorder-end: it ended where this one begins, and the reply is its own\n";

const REFUSED: &[u8] = b"note: nothing of the block was done\n";

const UNOPENED: &[u8] =
    b"note: no block is open, since the line that was to open it was refused: this gave the entry other weights where it stands (:undo takes it back)\n";

const PERCENT: &[u8] =
    b"note: % begins no comment here, but is a character; behind a line comment_char % it does\n";

const IDLE: &[u8] =
    b"note: this line has no effect here: a source with copy goes through collbench import or import-delta\n";

const UNCHANGED: &[u8] = b"note: this changes nothing: the table is so already\n";
