//! At how many of the first levels two texts are alike, since what one of them has more is ignored there.
//!
//! What tables ignore, an apostrophe or a hyphen, they mostly ignore at all levels but the last. So once the first level told nothing of
//! two texts, such characters are passed at all these levels at once, in place of going along both texts at each. The simple form is to go
//! along at each (`forward_order` of `letter_weights`); the clause `AreAlike` joins both. It takes no memory, and ends at a character that
//! is ignored at the first level alone, since this told nothing already.

ghost use Rattle.std.specs.Prelude.{◌≡◌, ◌<◌, ◌≤◌, [], ℕ, chars, length, true, IfSome};
ghost use Rattle.coll_nodes.specs.TableLayout.{collation};
ghost use Rattle.coll_ranks.specs.LevelWeights.{level_numbers, row_numbers};
ghost use Rattle.coll_letters.specs.AlikeLevels.{AreAlike, IsPassed};
ghost use Rattle.coll_letters.specs.ElementMarks.{IsSameAt};
ghost use Rattle.coll_letters.specs.LetterWeights.{AreLetterWeights};

use crate::letter_weights::{LetterWeights, behind_front, behind_same};
use coll_elements::CodePoints;
use coll_ranks::{ElementRow, LevelWeights, WeightRanks};
use coll_table::Table;

/// Two texts, one of them behind a character.
#[derive(Clone, Copy)]
pub(crate) struct Passed<'a> {
    /// At so many of the first levels the character is ignored.
    pub levels: usize,
    /// What is left of the first text.
    pub first: &'a str,
    /// What is left of the second one.
    pub second: &'a str,
}

/// At how many of the first levels two texts, which both begin with so many of the same bytes, aren't told apart, where these are looked
/// at from the front and without positions; none where it isn't seen.
#[inline(never)]
pub(crate) fn alike_levels(
    letters: &LetterWeights,
    table: &Table,
    places: &CodePoints,
    text: &str,
    other: &str,
    front: usize,
) -> usize
    requires weights { AreLetterWeights (collation table.now) letters.now }
    requires front { (k : ℕ) → k < front → IsSameAt letters.now.marks text.now other.now k }
    ensures { AreAlike (collation table.now) result (chars text.now) (chars other.now) }
{
    let marks = letters.marks();
    let mut levels = table.rules().len();
    let (mut left, mut right) = behind_front(table, marks, text, other, front);
    'letters: loop {
        if left.is_empty() && right.is_empty() {
            return levels;
        }
        let Some(passed) = pass_either(letters, table, places, levels, left, right) else {
            return 0;
        };
        let (next, next_other) = behind_same(table, marks, passed.first, passed.second);
        levels = passed.levels;
        left = next;
        right = next_other;
    }
}

// Two texts behind a character with which one of them begins, and which is ignored at the first two levels, and up to so many.
#[inline(always)]
fn pass_either<'a>(
    letters: &LetterWeights,
    table: &Table,
    places: &CodePoints,
    most: usize,
    left: &'a str,
    right: &'a str,
) -> Option<Passed<'a>>
    requires weights { AreLetterWeights (collation table.now) letters.now }
    requires most { most ≤ length (collation table.now).rules }
    ensures { IfSome result (IsPassed (collation table.now) most (chars left.now) (chars right.now)) }
{
    if let Some(first) = letters.first_letter(table, places, left) {
        let levels = ignored_levels(letters, first.row, most);
        if levels > 1 {
            return Some(Passed {
                levels,
                first: first.rest,
                second: right,
            });
        }
    }
    let second = letters.first_letter(table, places, right)?;
    let levels = ignored_levels(letters, second.row, most);
    if levels < 2 {
        return None;
    }
    Some(Passed {
        levels,
        first: left,
        second: second.rest,
    })
}

// At how many of the first levels a character is ignored, up to so many, by its row.
fn ignored_levels(letters: &LetterWeights, row: ElementRow, most: usize) -> usize
    ensures most { result ≤ most }
    ensures ignored { (level : ℕ) → level < result → row_numbers letters.now.made.weights level row ≡ [] }
{
    let weights = letters.made().weights();
    for level in 0..most {
        if !is_ignored(weights.at_level(level), row) {
            return level;
        }
    }
    most
}

// Whether a character is ignored at a level, by its row.
#[inline(always)]
fn is_ignored(at_level: LevelWeights<'_>, row: ElementRow) -> bool
    ensures { result ≡ true → level_numbers at_level.entry row ≡ [] }
{
    match at_level.ranks(row) {
        WeightRanks::Ignored => true,
        WeightRanks::Single(_) | WeightRanks::Several(_) => false,
    }
}
