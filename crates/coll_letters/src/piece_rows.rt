//! The rows of the elements of a text, of characters and of strings apart.
//!
//! The weights of a text (`TextWeights`) have a row for each of its elements, one after another. Here the text is gone along once more, and
//! each row is kept with its character, or with the string that stands between two separators (`TextPieces`). Where that is no element's
//! this is kept of it: then no text that holds it has to be looked up in the table.

ghost use Rattle.std.specs.Prelude.{◌≡◌, ◌<◌, ℕ, All, chars, length, map, IfOk, IfSome, OnOk};
ghost use Rattle.coll_nodes.specs.Table.{Collation};
ghost use Rattle.coll_nodes.specs.TableLayout.{collation};
ghost use Rattle.coll_ranks.specs.RankLists.{WeightsValue};
ghost use Rattle.coll_ranks.specs.Ranks.{compiled_numbers};
ghost use Rattle.coll_letters.specs.ElementMarks.{AreMarks};
ghost use Rattle.coll_letters.specs.LetterWeights.{IsLetterRow, text_numbers};
ghost use Rattle.coll_letters.specs.PieceRows.{rest_behind, ArePieceRows, IsRowOfPiece};
ghost use Rattle.coll_letters.specs.StringRows.{AreStringRows, IsKnownString};

use crate::element_marks::ElementMarks;
use crate::first_pieces::{FirstPiece, first_piece, split_characters};
use crate::letter_weights::{LetterRow, split_first_char};
use crate::string_rows::{KnownString, StringRows};
use crate::text_pieces::SEPARATOR;
use coll_ranks::{ElementRow, TextWeights};
use coll_table::Table;
use std::alloc::{AllocError, Global};

/// The rows of characters, in the order in which they came, and what is known of strings.
#[derive(Drop)]
pub(crate) struct PieceRows {
    /// The characters with their rows.
    pub letters: Vec<LetterRow>,
    /// The strings.
    pub strings: StringRows,
}

/// The rows of the elements of a text by a table with these marks, of the weights that were made of it.
pub(crate) fn piece_rows(
    alloc: Global,
    table: &Table,
    marks: &ElementMarks,
    made: &TextWeights,
    text: &str,
) -> Result<PieceRows, AllocError>
    requires numbers { (level : ℕ) → level < length (collation table.now).rules
        → map (compiled_numbers made.now.weights level) made.now.elements ≡ text_numbers (collation table.now) level (chars text.now) }
    requires marks { AreMarks (collation table.now) marks.now }
    ensures { IfOk result (ArePieceRows (collation table.now) made.now.weights) }
{
    let weights = made.weights();
    let mut rows = PieceRows {
        letters: Vec::with_capacity(alloc, made.elements().len())?,
        strings: StringRows::new(alloc),
    };
    let mut left = text;
    let mut is_string = false;
    for element in made.elements() {
        let Some(piece) = first_piece(table, marks, left) else {
            return Ok(rows);
        };
        let row = weights.row(*element);
        left = put_piece(alloc, table, &mut rows, left, is_string, piece, row)?;
        is_string = is_separator(piece);
    }
    Ok(rows)
}

// Keeps the row of what a text begins with, where a string begins there what is known of it, and gives the text behind the piece.
fn put_piece<'a>(
    alloc: Global,
    table: &Table,
    rows: &mut PieceRows,
    text: &str,
    is_string: bool,
    piece: FirstPiece<'a>,
    row: ElementRow,
) -> Result<&'a str, AllocError>
    ensures rest { IfOk result (λ rest. rest.now ≡ rest_behind piece.entry) }
    ensures rows { OnOk result ((weights : WeightsValue) → ArePieceRows (collation table.now) weights rows.old
        → IsRowOfPiece (collation table.now) weights piece.entry row → ArePieceRows (collation table.now) weights rows.new) }
{
    put_string(alloc, table, &mut rows.strings, text, is_string, piece, row)?;
    put_letter(&mut rows.letters, piece, row)
}

// Keeps the row of a character with which a text begins, and gives the text behind what it begins with.
fn put_letter<'a>(
    letters: &mut Vec<LetterRow>,
    piece: FirstPiece<'a>,
    row: ElementRow,
) -> Result<&'a str, AllocError>
    ensures rest { IfOk result (λ rest. rest.now ≡ rest_behind piece.entry) }
    ensures letters { OnOk result ((table : Collation) (weights : WeightsValue) → All (IsLetterRow table weights) letters.old.items
        → IsRowOfPiece table weights piece.entry row → All (IsLetterRow table weights) letters.new.items) }
{
    match piece {
        FirstPiece::Letter(letter, rest) => {
            letters.push(LetterRow { letter, row })?;
            Ok(rest)
        }
        FirstPiece::Element(_, rest) => Ok(rest),
    }
}

// Whether a piece stands between strings.
fn is_separator(piece: FirstPiece<'_>) -> bool {
    match piece {
        FirstPiece::Letter(letter, _) => letter == SEPARATOR,
        FirstPiece::Element(_, _) => false,
    }
}

// Keeps what is known of the string that stands before the first separator of a text, where one of two characters or more does: the row
// is that of what the text begins with. Characters that stand alone there are no strings.
fn put_string(
    alloc: Global,
    table: &Table,
    strings: &mut StringRows,
    text: &str,
    is_string: bool,
    piece: FirstPiece<'_>,
    row: ElementRow,
) -> Result<(), AllocError>
    ensures { OnOk result ((weights : WeightsValue) → AreStringRows (collation table.now) weights strings.old
        → IsRowOfPiece (collation table.now) weights piece.entry row → AreStringRows (collation table.now) weights strings.new) }
{
    if !is_string {
        return Ok(());
    }
    let Some(count) = text.chars().position(|letter| letter == SEPARATOR) else {
        return Ok(());
    };
    if count < 2 {
        return Ok(());
    }
    let Some((string, _)) = split_characters(text, count) else {
        return Ok(());
    };
    let Some((first, _)) = split_first_char(string) else {
        return Ok(());
    };
    if let Some(known) = known_string(table, string, piece, row) {
        strings.push(alloc, first, string, known)?;
    }
    Ok(())
}

// What is known of a string, where this is the first piece of the text that begins with it, and its row: none, where it is an element's
// and no such piece.
fn known_string(
    table: &Table,
    string: &str,
    piece: FirstPiece<'_>,
    row: ElementRow,
) -> Option<KnownString>
    ensures { (weights : WeightsValue) → IsRowOfPiece (collation table.now) weights piece.entry row
        → IfSome result (IsKnownString (collation table.now) weights (chars string.now)) }
{
    if let FirstPiece::Element(found, _) = piece {
        if found == string {
            return Some(KnownString::Element(row));
        }
    }
    match table.element_entry(string) {
        Some(_) => None,
        None => Some(KnownString::NoElement),
    }
}
