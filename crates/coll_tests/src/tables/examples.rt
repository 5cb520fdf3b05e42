//! Tables, identifiers and statements that several tests use.
//!
//! A function that holds a table ends with a call of `drop`: the proof of that call is std's, and goes through no field of a table.

use crate::assertions::{assert_same, assert_text};
use crate::statements::{Lines, statement_of};
use coll_lex::{Counted, TextBuf};
use coll_syntax::Id;
use coll_table::{LoadFault, Loader, Table, load};
use std::alloc::Global;
use std::process::Abort;

/// A name and three characters, line by line.
pub const FIRST_TABLE: &[&str] = &[
    "LC_COLLATE",
    "collating-symbol <BASE>",
    "order_start forward",
    "<BASE>",
    "<U0061>",
    "<U0062>",
    "<U0063>",
    "order_end",
    "END LC_COLLATE",
];

/// A table of four levels with two sections, line by line.
pub const BASE_TABLE: &[&str] = &[
    "comment_char %",
    "escape_char /",
    "LC_COLLATE",
    "collating-symbol <BASE>",
    "collating-symbol <MIN>",
    "collating-symbol <CAP>",
    "order_start forward;backward;forward;forward,position",
    "<BASE>",
    "<MIN>",
    "<CAP>",
    "<U0061> <U0061>;<BASE>;<MIN>;IGNORE",
    "<U0041> <U0061>;<BASE>;<CAP>;IGNORE",
    "<U0062> <U0062>;<BASE>;<MIN>;IGNORE",
    "<U0063> <U0063>;<BASE>;<MIN>;IGNORE",
    "<U0064> <U0064>;<BASE>;<MIN>;IGNORE",
    "section <PUNCT>",
    "<U002D> IGNORE;IGNORE;IGNORE;<U002D>",
    "order_end",
    "END LC_COLLATE",
];

/// A table of two levels, the second backward, with letters that have accents, line by line.
pub const FRENCH_TABLE: &[&str] = &[
    "comment_char %",
    "escape_char /",
    "LC_COLLATE",
    "collating-symbol <BASE>",
    "collating-symbol <ACUTE>",
    "collating-symbol <CIRC>",
    "order_start forward;backward",
    "<BASE>",
    "<ACUTE>",
    "<CIRC>",
    "<U0063> <U0063>;<BASE>",
    "<U0065> <U0065>;<BASE>",
    "<U00E9> <U0065>;<ACUTE>",
    "<U006F> <U006F>;<BASE>",
    "<U00F4> <U006F>;<CIRC>",
    "<U0074> <U0074>;<BASE>",
    "order_end",
    "END LC_COLLATE",
];

/// What makes both levels of that table forward.
pub const BOTH_FORWARD: Change = Change {
    first: 7,
    last: 7,
    others: &["order_start forward;forward"],
};

/// A table of one level and four sections, line by line.
pub const SECTIONS_TABLE: &[&str] = &[
    "comment_char %",
    "escape_char /",
    "LC_COLLATE",
    "order_start forward",
    "<U0061>",
    "section <S1>",
    "<U0062>",
    "section <S2>",
    "<U0063>",
    "section <S3>",
    "<U0064>",
    "order_end",
    "END LC_COLLATE",
];

/// Sections by `order_start`, one that is empty, rules that are given twice and once left out, weights that are left out or
/// name the entry alone, and UNDEFINED.
pub const TWO_SECTIONS: &[&str] = &[
    "LC_COLLATE",
    "script <Latn>",
    "order_start <L>;forward;position",
    "a a",
    "order_end",
    "collating-element <ch> from \"ch\"",
    "order_start <M>",
    "<ch> \"<ch>\"",
    "order_start forward;forward,position",
    "UNDEFINED IGNORE",
    "order_end",
    "END LC_COLLATE",
];

/// That table, printed.
pub const TWO_SECTIONS_PRINTED: &[&str] = &[
    "comment_char %",
    "escape_char /",
    "LC_COLLATE",
    "collating-element <ch> from \"<U0063><U0068>\"",
    "order_start forward;forward,position",
    "section <L>",
    "<U0061>",
    "section <M>",
    "<ch>",
    "UNDEFINED IGNORE;",
    "order_end",
    "END LC_COLLATE",
];

/// Second names of a symbol: one of the symbol, one of that second name, and one that is declared behind the weight that has it.
pub const SECOND_NAMES: &[&str] = &[
    "LC_COLLATE",
    "collating-symbol <MIN>",
    "symbol-equivalence <LOW> <MIN>",
    "symbol-equivalence <SMALL> <LOW>",
    "collating-element <ch> from \"ch\"",
    "order_start forward;forward",
    "<SMALL>",
    "a ;<LATE>",
    "<ch> \"<LOW>a\";<LOW>",
    "order_end",
    "symbol-equivalence <LATE> <SMALL>",
    "END LC_COLLATE",
];

/// That table, printed.
pub const SECOND_NAMES_PRINTED: &[&str] = &[
    "comment_char %",
    "escape_char /",
    "LC_COLLATE",
    "collating-symbol <MIN>",
    "symbol-equivalence <LOW> <MIN>",
    "symbol-equivalence <SMALL> <MIN>",
    "collating-element <ch> from \"<U0063><U0068>\"",
    "symbol-equivalence <LATE> <MIN>",
    "order_start forward;forward",
    "<MIN>",
    "<U0061> <U0061>;<MIN>",
    "<ch> \"<MIN><U0061>\";<MIN>",
    "order_end",
    "END LC_COLLATE",
];

/// A text that spells what it may in other ways than the canonical ones.
pub const SPELLED_OTHERWISE: &[&str] = &[
    "LC_COLLATE            # the defaults stand",
    "collating-symbol \\",
    "  <S>",
    "collating-symbol <a\\>b>",
    "order_start forward;\\",
    "forward",
    "<S>",
    "<a\\>b>",
    "a  ;<S>   # trailing",
    "b \"<S>a\";IGNORE",
    "<U\\0041> \"<U0041>\";<a\\>b>",
    "order_end",
    "END LC_COLLATE",
];

/// The table that the text is.
pub fn loaded(alloc: Global, text: &[u8]) -> Result<Table, LoadFault> {
    load(alloc, &mut Counted::new(text))
}

// Hands lines to a loader.
fn hand_in(loader: &mut Loader, lines: &[&str]) -> Result<(), LoadFault> {
    for line in lines {
        loader.line(line.as_bytes())?;
    }
    Ok(())
}

/// The table that these lines are.
pub fn loaded_lines(alloc: Global, lines: &[&str]) -> Result<Table, LoadFault> {
    let mut loader = Loader::new(alloc)?;
    // A fault is stored, and answered again at the end.
    let _ = hand_in(&mut loader, lines);
    loader.finish()
}

/// The table of these lines, rewritten by statements.
pub fn rewritten(rt: &impl Abort, alloc: Global, lines: &[&str], statements: &[Lines]) -> Table {
    let mut table = loaded_lines(alloc, lines).expect(rt, "a table");
    for lines in statements {
        rewrite(rt, alloc, &mut table, lines);
    }
    table
}

fn rewrite(rt: &impl Abort, alloc: Global, table: &mut Table, lines: &[&str]) {
    let statement = statement_of(rt, alloc, lines);
    drop(table.apply(&statement).expect(rt, "a record"));
}

/// Asserts that a table's canonical text is this one.
pub fn assert_printed(rt: &impl Abort, alloc: Global, table: &Table, wanted: &[u8]) {
    let text = printed(rt, alloc, table);
    assert_text(rt, alloc, &text, wanted);
}

/// A table's canonical text.
pub fn printed(rt: &impl Abort, alloc: Global, table: &Table) -> Vec<u8> {
    let mut text = Vec::new(alloc);
    table
        .print(&mut Counted::new(&mut text))
        .expect(rt, "a printed table");
    text
}

/// A change of a list of lines: those from a first to a last, counted from 1, and what stands in their place. Where the last
/// is the one before the first, the others stand between the two.
pub struct Change {
    pub first: usize,
    pub last: usize,
    pub others: &'static [&'static str],
}

impl Change {
    // The lines before those that are changed, and those behind them.
    fn kept<'a>(&self, lines: &'a [&'static str]) -> (&'a [&'static str], &'a [&'static str]) {
        let prefix = &lines[..self.first.saturating_sub(1).min(lines.len())];
        (prefix, &lines[self.last.min(lines.len())..])
    }

    /// The table that these lines are once they are changed.
    pub fn loaded(&self, alloc: Global, lines: &[&'static str]) -> Result<Table, LoadFault> {
        let (prefix, rest) = self.kept(lines);
        let mut loader = Loader::new(alloc)?;
        // A fault is stored, and answered again by each later line and at the end.
        let _ = hand_in(&mut loader, prefix);
        let _ = hand_in(&mut loader, self.others);
        let _ = hand_in(&mut loader, rest);
        loader.finish()
    }

    /// The changed lines behind a text.
    pub fn push(&self, rt: &impl Abort, text: &mut Vec<u8>, lines: &[&'static str]) {
        let (prefix, rest) = self.kept(lines);
        push_lines(rt, text, prefix);
        push_lines(rt, text, self.others);
        push_lines(rt, text, rest);
    }
}

/// Lines as one text, each with its line feed.
pub fn text_of(rt: &impl Abort, alloc: Global, lines: &[&str]) -> Vec<u8> {
    let mut text = Vec::new(alloc);
    push_lines(rt, &mut text, lines);
    text
}

/// Lines behind a text, each with its line feed.
pub fn push_lines(rt: &impl Abort, text: &mut Vec<u8>, lines: &[&str]) {
    for line in lines {
        text.extend_from_slice(line.as_bytes()).expect(rt, line);
        text.push(b'\n').expect(rt, line);
    }
}

/// The identifier of a text: a character, `UNDEFINED`, or else a name.
pub fn id(rt: &impl Abort, alloc: Global, text: &str) -> Id {
    let mut characters = text.chars();
    match (characters.next(), characters.next()) {
        (Some(c), None) => Id::Char(c),
        _ if text == "UNDEFINED" => Id::Undefined,
        _ => Id::Named(TextBuf::new(String::from_str(alloc, text).expect(rt, text))),
    }
}
