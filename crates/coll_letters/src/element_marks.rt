//! Where a collating element may stand in a text, by one look at a character and the next one.
//!
//! Of the strings of all elements that are declared the first character is marked, and the first two as a pair, with how many characters
//! the string has. At a character that is marked as no first one, or that makes no marked pair with the next one, no element begins. One
//! that is marked as a whole string begins one always. So most words that hold a character with which an element begins are still known
//! to be their characters alone, since hardly any holds what follows it in the element. Where the pair is marked an element may begin or
//! not (`is_apart`), and has no more characters than its mark says (`most_at`): who asked then looks the text up, in the table
//! (`first_pieces`) or among what is known (`string_rows`). Pairs of which the marks have one place share it, and the greatest mark: a look-up more, and no other answer.
//!
//! The simple form is `longest`, which looks the text up; `AreMarks` joins both.

ghost use Rattle.std.specs.Prelude.{◌≡◌, ◌<◌, ◌≤◌, ℕ, suc, chars, length, true, slice_index_or, OnOk, IfOk};
ghost use Rattle.coll_nodes.specs.TableLayout.{collation};
ghost use Rattle.coll_nodes.specs.WalkItems.{declared_by};
ghost use Rattle.coll_elements.specs.TableElements.{HasString};
ghost use Rattle.coll_letters.specs.ElementMarks.{AreMarks, AreMarked, GoesOnOther, GoesOnOtherAt, IsAloneAt, IsApart, IsLeftAt};
ghost use Rattle.coll_letters.specs.ElementMarks.{IsMostAt, IsSameAt, IsSureAt, KeepMarks, TellsOf, place_of_pair};
ghost use Rattle.coll_letters.specs.ElementMarks.{pair_mark as mark_of_pair};

use crate::letter_weights::split_first_char;
use coll_elements::CodePoints;
use coll_nodes::DeclaredItem;
use coll_table::Table;
use std::alloc::{AllocError, Global};

// The mark of a character with which an element begins.
const BEGINS: u32 = 1;

// The mark of one that is the whole string of an element.
const WHOLE: u32 = 2;

// The first byte that is no character by itself.
const ASCII_END: u8 = 128;

// How many places the marks of pairs have, once there is one.
const PAIRS: usize = 4_096;

/// Which characters stand first in the strings of the elements of a table, which two, and how many characters these strings have.
#[derive(Drop)]
pub struct ElementMarks {
    firsts: CodePoints,
    // The marks of pairs, by their places.
    pairs: Vec<usize>,
    // How many elements are declared.
    count: usize,
}

impl ElementMarks {
    /// The marks of a table, in new memory.
    pub fn of(alloc: Global, table: &Table) -> Result<ElementMarks, AllocError>
        ensures { IfOk result (AreMarks (collation table.now)) }
    {
        table.lemma_well_formed();
        let mut marks = ElementMarks {
            firsts: CodePoints::new(alloc),
            pairs: Vec::new(alloc),
            count: 0,
        };
        let mut left = table.declared();
        'declared: while let Some(item) = left.next() {
            mark_declared(&mut marks, item)?;
        }
        Ok(marks)
    }

    /// The marks of the elements that were declared behind so many others, in new memory.
    pub fn since(alloc: Global, table: &Table, count: usize) -> Result<ElementMarks, AllocError> {
        table.lemma_well_formed();
        let mut marks = ElementMarks {
            firsts: CodePoints::new(alloc),
            pairs: Vec::new(alloc),
            count: 0,
        };
        let mut left = table.declared();
        'declared: while let Some(item) = left.next() {
            mark_behind(&mut marks, item, count)?;
        }
        Ok(marks)
    }

    /// How many elements were declared.
    pub fn count(&self) -> usize {
        self.count
    }

    /// Whether no element begins with a character, whatever follows it.
    #[inline(always)]
    pub fn begin_without(&self, letter: char) -> bool
        ensures { result ≡ true → slice_index_or self.now.firsts letter 0 ≡ 0 }
    {
        self.firsts.get(letter) == 0
    }

    /// Whether no element begins with a character that this text follows.
    #[inline(always)]
    pub fn is_apart(&self, letter: char, rest: &str) -> bool
        ensures { result ≡ true → IsApart self.now letter (chars rest.now) }
    {
        let mark = self.firsts.get(letter);
        if mark == 0 {
            return true;
        }
        if mark >= WHOLE {
            return false;
        }
        self.goes_on_other(letter, rest)
    }

    /// Whether a character is marked as a whole string, or makes a marked pair with the text behind it, whatever it is marked as itself.
    pub fn is_marked_at(&self, letter: char, rest: &str) -> bool {
        self.firsts.get(letter) >= WHOLE || !self.goes_on_other(letter, rest)
    }

    // Whether a character makes no marked pair with what follows it.
    fn goes_on_other(&self, letter: char, rest: &str) -> bool
        ensures { result ≡ true → GoesOnOther self.now letter (chars rest.now) }
    {
        match split_first_char(rest) {
            Some((next, _)) => self.pair_mark(letter, next) == 0,
            None => true,
        }
    }

    /// The most characters that the string of an element has with which a character and the text behind it begin, and at least 1.
    pub fn most_at(&self, letter: char, rest: &str) -> usize
        ensures { IsMostAt self.now letter (chars rest.now) result }
    {
        match split_first_char(rest) {
            Some((next, _)) => self.pair_mark(letter, next).max(1),
            None => 1,
        }
    }

    // The mark of two characters.
    #[inline(always)]
    fn pair_mark(&self, first: char, second: char) -> usize
        ensures { result ≡ mark_of_pair self.now first second }
    {
        match self.pairs.get(pair_place(first, second)) {
            Some(mark) => *mark,
            None => 0,
        }
    }

    /// How many bytes two texts both begin with that are characters by themselves, where no element begins with one of them in either.
    #[inline(always)]
    pub fn same_front(&self, text: &str, other: &str) -> usize
        ensures { (k : ℕ) → k < result → IsSameAt self.now text.now other.now k }
    {
        let bytes = text.as_bytes();
        let others = other.as_bytes();
        let shorter = bytes.len().min(others.len());
        for place in 0..shorter {
            if !self.is_same_at(bytes, others, place) {
                return place;
            }
        }
        shorter
    }

    // Whether two texts have the same byte at a place, which is a character by itself, and with which no element begins in either.
    #[inline(always)]
    fn is_same_at(&self, text: &[u8], other: &[u8], place: usize) -> bool
        requires within { place < length text.now }
        requires other_within { place < length other.now }
        ensures { result ≡ true → IsSameAt self.now text.now other.now place }
    {
        if text[place] != other[place] {
            return false;
        }
        if !self.is_apart_at(text, place) {
            return false;
        }
        self.is_apart_at(other, place)
    }

    /// Whether the byte at a place of a text is a character by itself, and no element begins with it there.
    #[inline(always)]
    pub fn is_apart_at(&self, bytes: &[u8], place: usize) -> bool
        requires { place < length bytes.now }
        ensures { result ≡ true → IsAloneAt self.now bytes.now place }
    {
        let byte = bytes[place];
        if byte >= ASCII_END {
            return false;
        }
        let mark = self.firsts.get(char::from(byte));
        if mark == 0 {
            return true;
        }
        if mark >= WHOLE {
            return false;
        }
        self.goes_on_other_at(bytes, place)
    }

    // Whether a text goes on behind a place with a byte that is a character by itself and makes no marked pair with the one before it, or
    // not at all.
    #[inline(never)]
    fn goes_on_other_at(&self, bytes: &[u8], place: usize) -> bool
        requires { place < length bytes.now }
        ensures { result ≡ true → GoesOnOtherAt self.now bytes.now place }
    {
        let behind = place + 1;
        if behind >= bytes.len() {
            return true;
        }
        let next = bytes[behind];
        if next >= ASCII_END {
            return false;
        }
        self.pair_mark(char::from(bytes[place]), char::from(next)) == 0
    }

    /// How many bytes two texts both begin with that are characters by themselves, where each element that begins with one of them in
    /// either has ended behind these bytes, so that what is left of both tells their order.
    pub(crate) fn sure_front(&self, text: &str, other: &str) -> usize
        ensures { (k : ℕ) → k < result → IsSureAt self.now text.now other.now result k }
    {
        let bytes = text.as_bytes();
        let others = other.as_bytes();
        let mut front = 0;
        let mut left: usize = 0;
        for place in 0..bytes.len().min(others.len()) {
            if bytes[place] != others[place] || bytes[place] >= ASCII_END {
                return front;
            }
            left = left
                .saturating_sub(1)
                .max(self.left_at(bytes, others, place));
            if left == 0 {
                front = place + 1;
            }
        }
        front
    }

    // How many bytes behind a place an element that begins there ends at most, where two texts have the same byte at the place.
    #[inline(always)]
    fn left_at(&self, text: &[u8], other: &[u8], place: usize) -> usize
        requires within { place < length text.now }
        requires other_within { place < length other.now }
        ensures { IsLeftAt self.now text.now other.now place result }
    {
        if self.is_apart_at(text, place) && self.is_apart_at(other, place) {
            return 0;
        }
        self.pair_mark(char::from(text[place]), char::from(next_byte(text, place)))
            .saturating_sub(1)
            .max(1)
    }
}

// The byte behind a place, or 0.
#[inline(always)]
fn next_byte(bytes: &[u8], place: usize) -> u8
    requires { place < length bytes.now }
    ensures { result ≡ slice_index_or bytes.now (suc place) 0 }
{
    match bytes.get(place + 1) {
        Some(byte) => *byte,
        None => 0,
    }
}

// Marks the first two characters of what is declared, where it is an element.
fn mark_declared(marks: &mut ElementMarks, item: DeclaredItem<'_>) -> Result<(), AllocError>
    requires { HasString (declared_by item) }
    ensures kept { OnOk result (KeepMarks marks.old marks.new) }
    ensures told { OnOk result (TellsOf marks.new (declared_by item.entry)) }
{
    match item {
        DeclaredItem::Symbol(_) => Ok(()),
        DeclaredItem::Equivalence(_, _) => Ok(()),
        DeclaredItem::Element(_, text) => {
            marks.count = marks.count.saturating_add(1);
            mark_string(marks, text)
        }
    }
}

// The same, where as many elements were declared before, which are counted.
fn mark_behind(
    marks: &mut ElementMarks,
    item: DeclaredItem<'_>,
    count: usize,
) -> Result<(), AllocError>
    requires { HasString (declared_by item) }
{
    match item {
        DeclaredItem::Element(_, _) if marks.count < count => {
            marks.count = marks.count.saturating_add(1);
            Ok(())
        }
        other => mark_declared(marks, other),
    }
}

// Marks the first two characters of the string of an element.
fn mark_string(marks: &mut ElementMarks, text: &str) -> Result<(), AllocError>
    requires { 0 < length (chars text.now) }
    ensures kept { OnOk result (KeepMarks marks.old marks.new) }
    ensures told { OnOk result (AreMarked marks.new (chars text.now)) }
{
    let Some((first, rest)) = split_first_char(text) else {
        return Ok(());
    };
    let Some((second, _)) = split_first_char(rest) else {
        return raise(&mut marks.firsts, first, WHOLE);
    };
    raise(&mut marks.firsts, first, BEGINS)?;
    let count = text.chars().count();
    raise_pair(&mut marks.pairs, pair_place(first, second), count)?;
    Ok(())
}

// The place of the mark of two characters.
#[inline(always)]
fn pair_place(first: char, second: char) -> usize
    ensures place { result ≡ place_of_pair first second }
    ensures within { result < 4_096 }
{
    (first as usize * 61 + second as usize) % PAIRS
}

// Gives a pair a mark, unless it has a greater one.
fn raise_pair(pairs: &mut Vec<usize>, place: usize, mark: usize) -> Result<(), AllocError>
    requires { place < 4_096 }
    ensures least { OnOk result (mark ≤ slice_index_or pairs.new.items place 0) }
    ensures kept { OnOk result ((k : ℕ) → slice_index_or pairs.old.items k 0 ≤ slice_index_or pairs.new.items k 0) }
{
    make_room(pairs, PAIRS)?;
    pairs[place] = pairs[place].max(mark);
    Ok(())
}

// Makes a list so long, with 0 for what is new.
fn make_room(pairs: &mut Vec<usize>, count: usize) -> Result<(), AllocError>
    ensures long { OnOk result (count ≤ length pairs.new.items) }
    ensures same { OnOk result ((k : ℕ) → slice_index_or pairs.new.items k 0 ≡ slice_index_or pairs.old.items k 0) }
{
    if count <= pairs.len() {
        return Ok(());
    }
    pairs.resize(count, 0)?;
    Ok(())
}

// Gives a character a mark, unless it has a greater one.
fn raise(marks: &mut CodePoints, letter: char, mark: u32) -> Result<(), AllocError>
    ensures least { OnOk result (mark ≤ slice_index_or marks.new letter 0) }
    ensures kept { OnOk result ((c : ℕ) → slice_index_or marks.old c 0 ≤ slice_index_or marks.new c 0) }
{
    let had = marks.get(letter);
    if had >= mark {
        return Ok(());
    }
    marks.set(letter, mark)
}
