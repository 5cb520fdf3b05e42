//! What the characters of words weigh at the first level, as plain numbers.
//!
//! Nearly all pairs of words are told apart by the first two characters in which they differ, and by these at the first level. So of
//! each character its number there is kept, if it has a single one, and two words are compared along these numbers alone: at each
//! character that takes one look-up and no cell of weights. The numbers of ASCII stand in a list by code point: where both words have
//! such characters behind the bytes that they share, these are compared as bytes, and nothing is decoded. What isn't decided so is left
//! to the levels (`letter_weights`), with what was seen: how many bytes they share, and whether this level doesn't tell them apart.
//!
//! The simple form are ranks of the whole table; the clause `order_of` joins both, and checkers/random_reviews.py compares them.

ghost use Rattle.std.specs.Prelude.{◌≡◌, ◌≢◌, ◌<◌, ◌∷◌, [], ℕ, All, chars, length, slice_index_or, true, IfOk, IfSome};
ghost use Rattle.std.specs.Ordering.{is_ne};
ghost use Rattle.coll_nodes.specs.TableLayout.{collation};
ghost use Rattle.coll_ranks.specs.LevelWeights.{level_numbers};
ghost use Rattle.coll_letters.specs.ElementMarks.{AreMarks, IsSameAt};
ghost use Rattle.coll_letters.specs.FirstNumbers.{AreFirstNumbers, AreNumbersByCode, IsFirstNumber, IsNumberAt, IsNumberOf, LooksForward};
ghost use Rattle.coll_letters.specs.FirstOrders.{IsFirstOrder};
ghost use Rattle.coll_letters.specs.LetterWeights.{IsLetterRow, IsStep, IsStepAtEnd, OrdersSo};
ghost use Rattle.coll_letters.specs.declared.first_numbers.FirstOrder.TheVariants.{Untold};

use crate::element_marks::ElementMarks;
use crate::letter_weights::{
    LetterRow, LetterStep, behind_front, behind_same, number_of, split_first_char,
};
use coll_elements::CodePoints;
use coll_ranks::{ElementRow, LevelWeights, TextWeights, WeightRanks};
use coll_table::Table;
use std::alloc::{AllocError, Global};
use std::cmp::Ordering;

/// What was seen of two texts of which single numbers don't tell the order.
#[derive(Clone, Copy)]
pub struct SeenFirst {
    /// Both begin with so many of the same bytes, each a character by itself with which no element begins.
    pub front: usize,
    /// Whether it was seen that the first level doesn't tell them apart.
    pub alike: bool,
}

/// What single numbers of the first level tell of two texts.
#[derive(Clone, Copy)]
pub enum FirstOrder {
    /// Their order.
    Told(Ordering),
    /// No order, but this.
    Untold(SeenFirst),
}

/// A character, and its number at the first level.
#[derive(Clone, Copy)]
pub(crate) struct FirstNumber {
    /// The character.
    pub letter: char,
    /// Its number, or 0 where it has none there, or several.
    pub number: u64,
}

// What stands at the place of characters that have none.
const NOBODY: FirstNumber = FirstNumber {
    letter: '\0',
    number: 0,
};

// How many characters ASCII has.
const ASCII_CHARACTERS: usize = 128;

/// The numbers of characters at the first level, by one table as it stood when they were made.
#[derive(Drop)]
pub(crate) struct FirstNumbers {
    // Those of the characters, by their places from 1.
    numbers: Vec<FirstNumber>,
    // Those of ASCII, by their code points. Of other characters 0 stands there, or nothing.
    ascii: Vec<u64>,
    // Whether the first level is looked at from the front.
    forward: bool,
}

impl FirstNumbers {
    /// The numbers of characters that have these rows, in new memory.
    pub fn new(
        alloc: Global,
        table: &Table,
        made: &TextWeights,
        rows: &[LetterRow],
    ) -> Result<FirstNumbers, AllocError>
        requires { All (IsLetterRow (collation table.now) made.now.weights) rows.now }
        ensures { IfOk result (AreFirstNumbers (collation table.now)) }
    {
        let forward = looks_forward(table);
        let numbers = numbers_of_rows(alloc, table, made, rows)?;
        let ascii = ascii_numbers(alloc, table, &numbers)?;
        Ok(FirstNumbers {
            numbers,
            ascii,
            forward,
        })
    }

    /// The order of two texts, if single numbers of the first level tell it. The marks are those of the table. It takes no memory.
    #[inline(always)]
    pub fn order(
        &self,
        table: &Table,
        places: &CodePoints,
        marks: &ElementMarks,
        text: &str,
        other: &str,
    ) -> FirstOrder
        requires numbers { AreFirstNumbers (collation table.now) self.now }
        requires marks { AreMarks (collation table.now) marks.now }
        ensures { IsFirstOrder (collation table.now) marks.now text.now other.now result }
    {
        if !self.forward {
            return untold(0, false);
        }
        let front = marks.same_front(text, other);
        if let Some(order) = self.order_at(table, marks, text, other, front) {
            return FirstOrder::Told(order);
        }
        if self.is_unnumbered(text, front) || self.is_unnumbered(other, front) {
            return untold(front, false);
        }
        match self.first_order(table, places, marks, text, other, front) {
            Some(order) => {
                if order.is_ne() {
                    return FirstOrder::Told(order);
                }
                untold(front, true)
            }
            None => untold(front, false),
        }
    }

    // The order of two texts, if the numbers of the bytes behind what both begin with tell it, or one of them ends there.
    #[inline(always)]
    fn order_at(
        &self,
        table: &Table,
        marks: &ElementMarks,
        text: &str,
        other: &str,
        front: usize,
    ) -> Option<Ordering>
        requires numbers { AreFirstNumbers (collation table.now) self.now }
        requires marks { AreMarks (collation table.now) marks.now }
        requires level { 0 < length (collation table.now).rules }
        requires front { (k : ℕ) → k < front → IsSameAt marks.now text.now other.now k }
        ensures order { IfSome result (OrdersSo (collation table.now) 0 (chars text.now) (chars other.now)) }
        ensures decides { IfSome result (λ order. is_ne order ≡ true) }
    {
        if front >= text.len() {
            let next = self.number_at(table, marks, other, front);
            if next == 0 {
                return None;
            }
            return Some(Ordering::Less);
        }
        let number = self.number_at(table, marks, text, front);
        if number == 0 {
            return None;
        }
        if front >= other.len() {
            return Some(Ordering::Greater);
        }
        let other_number = self.number_at(table, marks, other, front);
        if other_number == 0 {
            return None;
        }
        let order = number.cmp(&other_number);
        if order.is_ne() {
            return Some(order);
        }
        None
    }

    // The number of the byte at a place, if it is a character by itself with which no element begins, or else 0.
    #[inline(always)]
    fn number_at(&self, _table: &Table, marks: &ElementMarks, text: &str, place: usize) -> u64
        requires { AreFirstNumbers (collation _table.now) self.now }
        ensures { result ≢ 0 → IsNumberAt (collation _table.now) marks.now text.now place result }
    {
        let bytes = text.as_bytes();
        if place >= bytes.len() {
            return 0;
        }
        if !marks.is_apart_at(bytes, place) {
            return 0;
        }
        match self.ascii.get(bytes[place] as usize) {
            Some(number) => *number,
            None => 0,
        }
    }

    // Whether at a place of a text a character of ASCII stands that has no single number, so that numbers tell no order from there on.
    #[inline(always)]
    fn is_unnumbered(&self, text: &str, place: usize) -> bool {
        match text.as_bytes().get(place) {
            Some(byte) => self.ascii.get(*byte as usize) == Some(&0),
            None => false,
        }
    }

    // The order of two texts at the first level, which is looked at from the front, if single numbers tell it. Both begin with as many of
    // the same bytes.
    #[inline(never)]
    fn first_order(
        &self,
        table: &Table,
        places: &CodePoints,
        marks: &ElementMarks,
        text: &str,
        other: &str,
        front: usize,
    ) -> Option<Ordering>
        requires numbers { AreFirstNumbers (collation table.now) self.now }
        requires marks { AreMarks (collation table.now) marks.now }
        requires level { 0 < length (collation table.now).rules }
        requires front { (k : ℕ) → k < front → IsSameAt marks.now text.now other.now k }
        ensures { IfSome result (OrdersSo (collation table.now) 0 (chars text.now) (chars other.now)) }
    {
        let (mut left, mut right) = behind_front(table, marks, text, other, front);
        'letters: loop {
            match self.step(table, places, marks, left, right) {
                LetterStep::Decided(order) => return Some(order),
                LetterStep::Later(later, others) => {
                    let (next, next_other) = behind_same(table, marks, later, others);
                    left = next;
                    right = next_other;
                }
                _ => return None,
            }
        }
    }

    // A step along two texts.
    #[inline(always)]
    fn step<'a>(
        &self,
        table: &Table,
        places: &CodePoints,
        marks: &ElementMarks,
        left: &'a str,
        right: &'a str,
    ) -> LetterStep<'a>
        requires numbers { AreFirstNumbers (collation table.now) self.now }
        requires marks { AreMarks (collation table.now) marks.now }
        requires level { 0 < length (collation table.now).rules }
        ensures { IsStep (collation table.now) 0 true (chars left.now) (chars right.now) result }
    {
        let Some((first, later)) = split_first_char(left) else {
            return self.step_at_end(table, places, marks, right, Ordering::Less);
        };
        let Some((second, others)) = split_first_char(right) else {
            return self.step_at_end(table, places, marks, left, Ordering::Greater);
        };
        if !marks.is_apart(first, later) {
            return LetterStep::Unknown;
        }
        if first == second {
            if marks.is_apart(first, others) {
                return LetterStep::Later(later, others);
            }
            return LetterStep::Unknown;
        }
        if !marks.is_apart(second, others) {
            return LetterStep::Unknown;
        }
        let number = self.number(table, places, first);
        if number == 0 {
            return LetterStep::Unknown;
        }
        let other_number = self.number(table, places, second);
        if other_number == 0 {
            return LetterStep::Unknown;
        }
        let order = number.cmp(&other_number);
        if order.is_ne() {
            return LetterStep::Decided(order);
        }
        LetterStep::Later(later, others)
    }

    // The same where one text has ended: where this one has too, none comes before the other, and where it goes on with a number, the
    // order is this.
    #[inline(always)]
    fn step_at_end<'a>(
        &self,
        table: &Table,
        places: &CodePoints,
        marks: &ElementMarks,
        text: &str,
        order: Ordering,
    ) -> LetterStep<'a>
        requires numbers { AreFirstNumbers (collation table.now) self.now }
        requires marks { AreMarks (collation table.now) marks.now }
        requires level { 0 < length (collation table.now).rules }
        ensures { IsStepAtEnd (collation table.now) 0 true (chars text.now) order result }
    {
        if text.is_empty() {
            return LetterStep::Decided(Ordering::Equal);
        }
        let Some((first, later)) = split_first_char(text) else {
            return LetterStep::Unknown;
        };
        if !marks.is_apart(first, later) {
            return LetterStep::Unknown;
        }
        let number = self.number(table, places, first);
        if number == 0 {
            return LetterStep::Unknown;
        }
        LetterStep::Decided(order)
    }

    // The number of a character, or 0 where no single one is known. Its place is only guessed, so what stands there is looked at.
    #[inline(always)]
    fn number(&self, _table: &Table, places: &CodePoints, letter: char) -> u64
        requires { AreFirstNumbers (collation _table.now) self.now }
        ensures { IsNumberOf (collation _table.now) letter result }
    {
        let place = places.get(letter) as usize;
        let numbers: &[FirstNumber] = &self.numbers;
        if place < numbers.len() {
            let kept = numbers[place];
            if kept.letter == letter {
                return kept.number;
            }
        }
        0
    }
}

// No order, but this was seen.
#[inline(always)]
fn untold(front: usize, alike: bool) -> FirstOrder
    ensures { result ≡ Untold (record { front = front; alike = alike }) }
{
    FirstOrder::Untold(SeenFirst { front, alike })
}

// The numbers of characters that have these rows, behind one that is nobody's.
fn numbers_of_rows(
    alloc: Global,
    _table: &Table,
    made: &TextWeights,
    rows: &[LetterRow],
) -> Result<Vec<FirstNumber>, AllocError>
    requires { All (IsLetterRow (collation _table.now) made.now.weights) rows.now }
    ensures { IfOk result (λ numbers. All (IsFirstNumber (collation _table.now)) numbers.items) }
{
    let weights = made.weights();
    let at_first = weights.at_level(0);
    let mut numbers = Vec::with_capacity(alloc, rows.len().saturating_add(1))?;
    numbers.push(NOBODY)?;
    for kept in rows {
        let number = single_number(at_first, kept.row);
        let letter = kept.letter;
        numbers.push(FirstNumber { letter, number })?;
    }
    Ok(numbers)
}

// The numbers of ASCII, by code point.
fn ascii_numbers(
    alloc: Global,
    _table: &Table,
    numbers: &[FirstNumber],
) -> Result<Vec<u64>, AllocError>
    requires { All (IsFirstNumber (collation _table.now)) numbers.now }
    ensures { IfOk result (λ ascii. AreNumbersByCode (collation _table.now) ascii.items) }
{
    let mut ascii = no_numbers(alloc, ASCII_CHARACTERS)?;
    for kept in numbers {
        put_number(_table, &mut ascii, *kept);
    }
    Ok(ascii)
}

// So many times 0.
fn no_numbers(alloc: Global, count: usize) -> Result<Vec<u64>, AllocError>
    ensures { IfOk result (λ numbers. (c : ℕ) → slice_index_or numbers.items c 0 ≡ 0) }
{
    let mut numbers = Vec::new(alloc);
    numbers.resize(count, 0)?;
    Ok(numbers)
}

// Puts the number of a character into a list by code point, if it has a place there.
fn put_number(_table: &Table, numbers: &mut Vec<u64>, kept: FirstNumber)
    requires kept { IsFirstNumber (collation _table.now) kept }
    requires before { AreNumbersByCode (collation _table.now) numbers.old.items }
    ensures { AreNumbersByCode (collation _table.now) numbers.new.items }
{
    let place = kept.letter as usize;
    if place < numbers.len() {
        numbers[place] = kept.number;
    }
}

// The number of a row, or 0 where it has none, or several.
fn single_number(at_level: LevelWeights<'_>, row: ElementRow) -> u64
    ensures { 0 < result → level_numbers at_level.entry row ≡ result ∷ [] }
{
    match at_level.ranks(row) {
        WeightRanks::Ignored => 0,
        WeightRanks::Single(rank) => number_of(rank, at_level.added(row)),
        WeightRanks::Several(_) => 0,
    }
}

// Whether the first level of a table is looked at from the front.
fn looks_forward(table: &Table) -> bool
    ensures { result ≡ true → LooksForward (collation table.now).rules }
{
    match table.rules().split_first() {
        Some((rule, _)) => !rule.backward,
        None => false,
    }
}
