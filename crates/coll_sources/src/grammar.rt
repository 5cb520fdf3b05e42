//! What the tokens of a line of a source say.
//!
//! Lines that tables have too are read by the grammar of tables. Sources have more: ranges, ellipses, and elements of one
//! character; and a weight may be an ellipsis (`weights`).

ghost use Rattle.coll_lex.specs.Names.{AreTokens};

use crate::operands::{Unread, is_ellipsis};
use crate::weights::weights;
use coll_lex::{Line, Piece, TextBuf, Token};
use coll_source_lines::{Declaration, Digits, Said, Tailoring, name_range};
use coll_syntax::{
    DeltaLine, OrderLine, TableLine, characters, copied_name, id_of, is_word, parse_delta_line,
    parse_table_line,
};
use std::alloc::Global;

// The words that begin a line which the grammar of deltas reads.
const OF_DELTAS: [&str; 3] = ["reorder-after", "reorder-end", "reorder-section-after"];

// The words that begin a line which the grammar of tables reads.
const OF_TABLES: [&str; 5] = [
    "order_start",
    "order_end",
    "section",
    "script",
    "symbol-equivalence",
];

/// What a line says that is no `copy`, no condition and no end.
pub(crate) fn said(alloc: Global, line: &Line) -> Result<Said, Unread>
    requires { AreTokens line.now.tokens }
{
    let Some((first, rest)) = line.tokens.get().split_first() else {
        return Err(Unread::NoLine);
    };
    if OF_TABLES.iter().any(|word| is_word(first, word)) {
        return of_table(alloc, line);
    }
    if OF_DELTAS.iter().any(|word| is_word(first, word)) {
        return of_delta(alloc, line);
    }
    if is_word(first, "reorder-sections-after") {
        return sections_after(alloc, rest);
    }
    if is_word(first, "reorder-sections-end") {
        return Ok(Said::Tailors(Tailoring::SectionsEnd));
    }
    if is_word(first, "collating-symbol") {
        return symbol(alloc, rest);
    }
    if is_word(first, "collating-element") {
        return element(alloc, rest);
    }
    if is_ellipsis(first) {
        return Ok(Said::Ellipsis(weights(alloc, rest)?));
    }
    order(alloc, first, rest)
}

// What a line says that tables have too.
fn of_table(alloc: Global, line: &Line) -> Result<Said, Unread>
    requires { AreTokens line.now.tokens }
{
    match parse_table_line(alloc, line)? {
        TableLine::OrderStart { section, rules } => Ok(Said::OrderStart { section, rules }),
        TableLine::OrderEnd => Ok(Said::OrderEnd),
        TableLine::Section(name) => Ok(Said::Section(name)),
        TableLine::Script => Ok(Said::Script),
        TableLine::Equivalence { name, symbol } => Ok(Said::Declares(Declaration::Equivalence {
            name,
            symbol,
        })),
        TableLine::Symbol(name) => no_line(name),
        TableLine::Element { name, text } => {
            drop(name);
            no_line(text)
        }
        TableLine::Order(line) => no_line(line),
        TableLine::EndCategory => Err(Unread::NoLine),
    }
}

// What a line says that deltas have too.
fn of_delta(alloc: Global, line: &Line) -> Result<Said, Unread>
    requires { AreTokens line.now.tokens }
{
    match parse_delta_line(alloc, line)? {
        DeltaLine::ReorderAfter(target) => Ok(Said::Tailors(Tailoring::ReorderAfter(target))),
        DeltaLine::ReorderEnd => Ok(Said::Tailors(Tailoring::ReorderEnd)),
        DeltaLine::SectionAfter { moved, after } => Ok(Said::Tailors(Tailoring::SectionAfter {
            moved,
            after,
        })),
        DeltaLine::Symbol(name) => no_line(name),
        DeltaLine::Element { name, text } => {
            drop(name);
            no_line(text)
        }
        DeltaLine::Equivalence { name, symbol } => {
            drop(name);
            no_line(symbol)
        }
        DeltaLine::Order(line) => no_line(line),
        DeltaLine::Script | DeltaLine::Category | DeltaLine::EndCategory | DeltaLine::Copy => {
            Err(Unread::NoLine)
        }
    }
}

// That what was read makes no line here.
fn no_line<T: Drop>(_read: T) -> Result<Said, Unread> {
    Err(Unread::NoLine)
}

// The operand of `reorder-sections-after`: the name of a section.
fn sections_after(alloc: Global, operands: &[Token]) -> Result<Said, Unread> {
    match operands {
        [Token::Symbol(name)] => Ok(Said::Tailors(Tailoring::SectionsAfter(copied_name(
            alloc, name,
        )?))),
        _ => Err(Unread::NoLine),
    }
}

// The operands of `collating-symbol`: a name, or a range of names.
fn symbol(alloc: Global, operands: &[Token]) -> Result<Said, Unread> {
    match operands {
        [Token::Symbol(name)] => Ok(Said::Declares(Declaration::Symbol(copied_name(alloc, name)?))),
        [Token::Symbol(first), dots, Token::Symbol(last)] if is_ellipsis(dots) => {
            match name_range(alloc, first.get(), last.get(), digits_of(dots))? {
                Some(range) => Ok(Said::Declares(Declaration::Symbols(range))),
                None => Err(Unread::BadRange),
            }
        }
        _ => Err(Unread::NoLine),
    }
}

// How the numbers of a range are spelled that has these dots.
fn digits_of(dots: &Token) -> Digits {
    if is_word(dots, "..") {
        Digits::Hexadecimal
    } else {
        Digits::Decimal
    }
}

// The operands of `collating-element`: a name, the word `from`, and a string of characters.
fn element(alloc: Global, operands: &[Token]) -> Result<Said, Unread> {
    match operands {
        [Token::Symbol(name), from, Token::Text(pieces)] if is_word(from, "from") => {
            element_of(alloc, name, pieces.get())
        }
        _ => Err(Unread::NoLine),
    }
}

// The element of this name and string.
fn element_of(alloc: Global, name: &TextBuf, pieces: &[Piece]) -> Result<Said, Unread> {
    if pieces.is_empty() {
        return Err(Unread::NoLine);
    }
    let name = copied_name(alloc, name)?;
    match characters(alloc, pieces) {
        Ok(text) => Ok(Said::Declares(Declaration::Element { name, text })),
        Err(fault) => {
            drop(name);
            Err(Unread::from(fault))
        }
    }
}

// An order line: an identifier or a range of characters, and perhaps weights.
fn order(alloc: Global, first: &Token, rest: &[Token]) -> Result<Said, Unread> {
    if let Some((dots, behind)) = rest.split_first() {
        if let Some((Token::Char(last), operands)) = behind.split_first() {
            if is_ellipsis(dots) {
                return orders(alloc, first, *last, operands);
            }
        }
    }
    let Some(id) = id_of(alloc, first)? else {
        return Err(Unread::NoLine);
    };
    Ok(Said::Order(OrderLine {
        id,
        weights: weights(alloc, rest)?,
    }))
}

// An order line for each character of a range.
fn orders(alloc: Global, first: &Token, last: char, operands: &[Token]) -> Result<Said, Unread> {
    let Token::Char(first) = first else {
        return Err(Unread::NoLine);
    };
    if last < *first {
        return Err(Unread::BadRange);
    }
    Ok(Said::Orders {
        first: *first,
        last,
        weights: weights(alloc, operands)?,
    })
}
