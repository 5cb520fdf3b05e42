//! The lines that tell what a statement did to the words.

ghost use Rattle.std.specs.Prelude.{◌≡◌, ◌++◌, codes, chars, length, take, encode_utf8_all};
ghost use Rattle.std.specs.List.{flat_map};
ghost use Rattle.coll_devices.specs.Devices.{Writes};
ghost use Rattle.coll_bench.specs.Replies.{history_line};
ghost use Rattle.coll_reviews.specs.ListedWords.{newly_beside, numbered_of};
ghost use Rattle.coll_reviews.specs.ReviewLines.{is_plain as stands_for_itself, joined_line, most_told, parted_line};
ghost use Rattle.coll_reviews.specs.ReviewLines.{quoted_char, review_line};

use crate::listed_words::ListedWord;
use coll_bench::write_history_line;
use coll_devices::{Sink, WriteStop, write_bytes};
use coll_lex::write_char;
use coll_syntax::Statement;
use coll_texts::{Piece, write_pieces};

// How many of the new pairs are told.
const MOST_TOLD: usize = 5;

/// Writes what a statement with its number did to a list of words that was sorted behind it.
pub(crate) fn write_told<W: Sink>(
    out: &mut W,
    number: u32,
    statement: &Statement,
    list: &[ListedWord<'_>],
) -> Result<(), WriteStop>
    ensures { Writes (W.taken out.old) (W.taken out.new) (W.failed out.old) (W.failed out.new)
        (history_line number statement.now
        ++ (parted_line (length (newly_beside list.now)) ++ flat_map joined_line (take most_told (newly_beside list.now)))) result }
{
    write_history_line(out, number, statement)?;
    write_parted(out, new_pairs(list))?;
    write_joined(out, list)
}

/// Writes of a statement with its number that it left all words in their order.
pub(crate) fn write_unmoved<W: Sink>(
    out: &mut W,
    number: u32,
    statement: &Statement,
) -> Result<(), WriteStop>
    ensures { Writes (W.taken out.old) (W.taken out.new) (W.failed out.old) (W.failed out.new)
        (history_line number statement.now ++ parted_line 0) result }
{
    write_history_line(out, number, statement)?;
    write_parted(out, 0)
}

/// Writes how many statements were put, and how many words there are.
pub(crate) fn write_counts<W: Sink>(
    out: &mut W,
    statements: u32,
    words: usize,
) -> Result<(), WriteStop>
    ensures { Writes (W.taken out.old) (W.taken out.new) (W.failed out.old) (W.failed out.new) (review_line statements words) result }
{
    write_pieces(
        out,
        &[
            Piece::Bytes(b"review "),
            Piece::Number(u64::from(statements)),
            Piece::Bytes(b" "),
            Piece::Number(words as u64),
            Piece::Bytes(b"\n"),
        ],
    )
}

// How many pairs of neighbours are new. As many are neighbours no longer.
fn new_pairs(list: &[ListedWord<'_>]) -> usize
    ensures { result ≡ length (newly_beside list.now) }
{
    let mut count = 0;
    for place in 1..list.len() {
        let first = &list[place - 1];
        let second = &list[place];
        if first.line != second.leader {
            count += 1;
        }
    }
    count
}

// Writes how many pairs are neighbours no longer.
fn write_parted<W: Sink>(out: &mut W, count: usize) -> Result<(), WriteStop>
    ensures { Writes (W.taken out.old) (W.taken out.new) (W.failed out.old) (W.failed out.new) (parted_line count) result }
{
    write_pieces(
        out,
        &[
            Piece::Bytes(b"parted "),
            Piece::Number(count as u64),
            Piece::Bytes(b"\n"),
        ],
    )
}

// Writes the first of the pairs that are new.
fn write_joined<W: Sink>(out: &mut W, list: &[ListedWord<'_>]) -> Result<(), WriteStop>
    ensures { Writes (W.taken out.old) (W.taken out.new) (W.failed out.old) (W.failed out.new)
        (flat_map joined_line (take most_told (newly_beside list.now))) result }
{
    let mut left = MOST_TOLD;
    for place in 1..list.len() {
        if left == 0 {
            return Ok(());
        }
        let first = &list[place - 1];
        let second = &list[place];
        if first.line != second.leader {
            // Not `?`: behind its conversion this exit would need a lemma.
            if let Err(stop) = write_pair(out, first, second) {
                return Err(stop);
            }
            left -= 1;
        }
    }
    Ok(())
}

// Writes the line of two words that are neighbours now.
fn write_pair<W: Sink>(
    out: &mut W,
    first: &ListedWord<'_>,
    second: &ListedWord<'_>,
) -> Result<(), WriteStop>
    ensures { Writes (W.taken out.old) (W.taken out.new) (W.failed out.old) (W.failed out.new)
        (joined_line (numbered_of first.now, numbered_of second.now)) result }
{
    write_bytes(out, b"joined \"")?;
    write_quoted(out, first.text)?;
    write_bytes(out, b"\" \"")?;
    write_quoted(out, second.text)?;
    write_bytes(out, b"\"\n")
}

// Writes the characters of a word as those of a string.
fn write_quoted<W: Sink>(out: &mut W, text: &str) -> Result<(), WriteStop>
    ensures { Writes (W.taken out.old) (W.taken out.new) (W.failed out.old) (W.failed out.new)
        (flat_map quoted_char (chars text.now)) result }
{
    for c in text.chars() {
        // Not `?`: behind its conversion this exit would need a lemma.
        if let Err(stop) = write_quoted_char(out, c) {
            return Err(stop);
        }
    }
    Ok(())
}

// Writes a character of a string: itself where it is plain, and else its code point.
fn write_quoted_char<W: Sink>(out: &mut W, c: char) -> Result<(), WriteStop>
    ensures { Writes (W.taken out.old) (W.taken out.new) (W.failed out.old) (W.failed out.new) (quoted_char c) result }
{
    if is_plain(c) {
        let mut buffer = [0u8; 4];
        write_bytes(out, c.encode_utf8(&mut buffer).as_bytes())
    } else {
        write_char(out, c)
    }
}

// Whether a character stands for itself in a string, where the escape character is `/` or `\`.
fn is_plain(c: char) -> bool
    ensures { result ≡ stands_for_itself c }
{
    let code = c as u32;
    !(code < 32 || code == 127 || c == '"' || c == '/' || c == '<' || c == '>' || c == '\\')
}
