//! What a delta file can be written of, so that it is read back.
//!
//! What the grammar gives can be written, but for order lines with more than four weights. The tests here are for who makes
//! statements in another way; they take no memory.

ghost use Rattle.std.specs.Prelude.{◌≡◌, ◌↔◌, IsTrue, length, chars, nat_lt};
ghost use Rattle.std.specs.List.{list_all};
ghost use Rattle.coll_delta_texts.specs.Writable.{is_writable as passes, is_copy_name as can_name_copy};
ghost use Rattle.coll_delta_texts.specs.Writable.{gives_weights, is_own_alone, is_above_controls, IsWritable, IsCopyName};

use coll_lex::TextBuf;
use coll_syntax::{MOST_LEVELS, OrderLine, Statement, Weight};

// Most characters of the name of a copy that can be written.
const MOST_COPY_CHARS: usize = 4_096;

const _: () = prove!(MOST_COPY_CHARS == 4_096);

/// Whether a statement can be written: it is proper, no order line of it has more than four weights, and none has one alone that is
/// its entry's own. It takes no memory.
pub fn is_writable(statement: &Statement) -> bool
    ensures value { result ≡ passes statement.now }
    ensures tells { IsTrue result ↔ IsWritable statement.now }
{
    can_write(statement)
}

// Whether a statement is proper, and its order lines can give their weights.
fn can_write(statement: &Statement) -> bool
    ensures { result ≡ passes statement.now }
{
    if !statement.is_proper() {
        return false;
    }
    match statement {
        Statement::Symbol(_) => true,
        Statement::Element { .. } => true,
        Statement::Equivalence { .. } => true,
        Statement::Block { lines, .. } => all_can_give(lines.get()),
        Statement::SectionAfter { .. } => true,
        Statement::Reweight(line) => can_give(line),
    }
}

// Whether all of these order lines can give their weights.
fn all_can_give(lines: &[OrderLine]) -> bool
    ensures { result ≡ list_all gives_weights lines.now }
{
    lines.iter().all(|line| can_give(line))
}

// Whether an order line can give its weights.
fn can_give(line: &OrderLine) -> bool
    ensures { result ≡ gives_weights line.now }
{
    let Some(weights) = &line.weights else {
        return true;
    };
    if weights.get().len() > MOST_LEVELS {
        return false;
    }
    !is_alone(weights.get())
}

// Whether these weights are one, and the entry's own.
fn is_alone(weights: &[Weight]) -> bool
    ensures { result ≡ is_own_alone weights.now }
{
    match weights {
        [only] => only.is_own(),
        _ => false,
    }
}

/// Whether this can be written as the name of a copy: at most 4,096 characters, and no control character below the space among them.
/// It takes no memory.
pub fn is_copy_name(name: &TextBuf) -> bool
    ensures value { result ≡ can_name_copy name.now }
    ensures tells { IsTrue result ↔ IsCopyName name.now }
{
    can_copy(name.get())
}

// Whether a text can be the name of a copy.
fn can_copy(text: &str) -> bool
    ensures { result ≡ can_name_copy (chars text.now) }
{
    if is_long(text) {
        return false;
    }
    has_no_control(text)
}

// Whether a text has too many characters for the name of a copy.
fn is_long(text: &str) -> bool
    ensures { result ≡ nat_lt 4096 (length (chars text.now)) }
{
    text.chars().count() > MOST_COPY_CHARS
}

// Whether no control character below the space is in a text.
fn has_no_control(text: &str) -> bool
    ensures { result ≡ list_all is_above_controls (chars text.now) }
{
    text.chars().all(|c| c >= ' ')
}
