//! A line of a text as a terminal shows it, of which a part is marked.
//!
//! What a terminal would obey is shown as U+FFFD, and so are bytes that are no UTF-8. A tab goes to the next column that is a multiple
//! of eight, and each other character has one column, also a wide one. Of a long line 200 columns are shown, the mark among them.

ghost use Rattle.std.specs.Prelude.{◌≡◌, ◌≤◌, ◌++◌, length, take, replicate, chars, encode_utf8_all, string_bytes, IfOk, OnOk};
ghost use Rattle.coll_lex.specs.Characters.{space};
ghost use Rattle.coll_refused_lines.specs.MarkedLines.{columns_at, columns_behind, first_shown, margin_below, mark_column, mark_line};
ghost use Rattle.coll_refused_lines.specs.MarkedLines.{marked_columns};
ghost use Rattle.coll_refused_lines.specs.MarkedLines.{shown_line, visible as visible_one, with_bytes};

use itoa::Buffer;
use std::alloc::{AllocError, Global};

// Most columns of a line that is shown.
const MOST_COLUMNS: usize = 200;

// How many columns are shown before a mark, where the line is too long to be shown whole.
const COLUMNS_BEFORE: usize = 20;

// How far the columns are apart to which a tab goes.
const TAB_COLUMNS: usize = 8;

// How many blanks stand around the number of a line.
const MARGIN: usize = 3;

// What stands for a character that a terminal obeys.
const REPLACEMENT: char = '\u{FFFD}';

/// A line as it is shown, and where it is marked.
#[derive(Drop)]
pub struct MarkedLine {
    /// Its number, from 1.
    pub number: u32,
    /// What is shown of it.
    pub shown: String,
    /// The blanks that stand below its number.
    pub margin: Vec<u8>,
    /// What stands below it: blanks, and the mark.
    pub mark: Vec<u8>,
}

/// A line in three parts, of which the second is marked, as it is shown.
#[tactic(auto, unfolding(crate::specs::MarkedLines::shown_line, crate::specs::MarkedLines::mark_line))]
pub(crate) fn marked_line(
    alloc: Global,
    number: u32,
    before: &[u8],
    marked: &[u8],
    after: &[u8],
) -> Result<MarkedLine, AllocError>
    ensures number { IfOk result (λ line. line.number ≡ number) }
    ensures shown { IfOk result (λ line. string_bytes line.shown ≡ shown_line before.now marked.now after.now) }
    ensures margin { IfOk result (λ line. line.margin.items ≡ margin_below number) }
    ensures mark { IfOk result (λ line. line.mark.items ≡ mark_line before.now marked.now after.now) }
{
    let mut columns = Vec::new(alloc);
    put_bytes(alloc, before, &mut columns)?;
    let start = columns.len();
    put_bytes(alloc, marked, &mut columns)?;
    let end = columns.len();
    put_bytes(alloc, after, &mut columns)?;
    let first = first_column(start, columns.len());
    let shown = text_of(alloc, first_columns(&columns[first..], MOST_COLUMNS))?;
    let margin = margin_of(alloc, number)?;
    let mut mark = spaces(alloc, start.saturating_sub(first))?;
    put_mark(marked_length(first, start, end), &mut mark)?;
    Ok(MarkedLine {
        number,
        shown,
        margin,
        mark,
    })
}

// The blanks below the number of a line.
fn margin_of(alloc: Global, number: u32) -> Result<Vec<u8>, AllocError>
    ensures { IfOk result (λ margin. margin.items ≡ margin_below number) }
{
    let mut digits = Buffer::new();
    spaces(alloc, digits.format(number).len() + MARGIN)
}

// So many spaces.
fn spaces(alloc: Global, count: usize) -> Result<Vec<u8>, AllocError>
    ensures { IfOk result (λ spaces. spaces.items ≡ replicate count space) }
{
    vec![in alloc; b' '; count]
}

// Puts a mark of so many columns behind what stands below a line.
fn put_mark(count: usize, below: &mut Vec<u8>) -> Result<(), AllocError>
    ensures { OnOk result (below.new.items ≡ below.old.items ++ replicate count mark_column) }
{
    for _ in 0..count {
        below.push(b'^')?;
    }
    Ok(())
}

// The first column that is shown of so many, where a mark begins behind so many.
fn first_column(start: usize, count: usize) -> usize
    ensures first { result ≡ first_shown start count }
    ensures within { result ≤ count }
{
    if count <= MOST_COLUMNS {
        return 0;
    }
    start
        .saturating_sub(COLUMNS_BEFORE)
        .min(count - MOST_COLUMNS)
}

// How many columns a mark has that begins and ends behind so many, of which the first aren't shown.
fn marked_length(first: usize, start: usize, end: usize) -> usize
    ensures { result ≡ marked_columns first start end }
{
    let room = MOST_COLUMNS.saturating_sub(start.saturating_sub(first));
    end.saturating_sub(start).min(room).max(1)
}

// The first of these columns, so many at most.
fn first_columns(columns: &[char], most: usize) -> &[char]
    ensures { result.now ≡ take most columns.now }
{
    if columns.len() <= most {
        return columns;
    }
    &columns[..most]
}

// The text of columns.
fn text_of(alloc: Global, columns: &[char]) -> Result<String, AllocError>
    ensures { IfOk result (λ text. string_bytes text ≡ encode_utf8_all columns.now) }
{
    let mut text = String::new(alloc);
    for c in columns {
        text.push(*c)?;
    }
    Ok(text)
}

// Puts the columns of bytes behind others.
fn put_bytes(alloc: Global, bytes: &[u8], columns: &mut Vec<char>) -> Result<(), AllocError>
    ensures { OnOk result (columns.new.items ≡ with_bytes columns.old.items bytes.now) }
{
    let text = String::from_utf8_lossy(alloc, bytes)?;
    put_text(text.as_str(), columns)
}

// Puts the columns of a text behind others.
fn put_text(text: &str, columns: &mut Vec<char>) -> Result<(), AllocError>
    ensures { OnOk result (columns.new.items ≡ columns_behind columns.old.items (chars text.now)) }
{
    for c in text.chars() {
        put_char(c, columns)?;
    }
    Ok(())
}

// Puts the columns of a character behind others.
fn put_char(c: char, columns: &mut Vec<char>) -> Result<(), AllocError>
    ensures { OnOk result (columns.new.items ≡ columns.old.items ++ columns_at (length columns.old.items) c) }
{
    if c == '\t' {
        return put_spaces(TAB_COLUMNS - columns.len() % TAB_COLUMNS, columns);
    }
    columns.push(visible(c))?;
    Ok(())
}

// Puts so many spaces behind other columns.
fn put_spaces(count: usize, columns: &mut Vec<char>) -> Result<(), AllocError>
    ensures { OnOk result (columns.new.items ≡ columns.old.items ++ replicate count space) }
{
    for _ in 0..count {
        columns.push(' ')?;
    }
    Ok(())
}

// A character as it is shown: one that a terminal obeys, or shows nothing for, is replaced.
fn visible(c: char) -> char
    ensures { result ≡ visible_one c }
{
    match c {
        '\0'..='\x1F'
        | '\x7F'..='\u{9F}'
        | '\u{61C}'
        | '\u{200B}'..='\u{200F}'
        | '\u{2028}'..='\u{202E}'
        | '\u{2060}'..='\u{206F}'
        | '\u{FEFF}' => REPLACEMENT,
        _ => c,
    }
}
