//! The elements of a text, and what an element weighs at a level.
//!
//! An element is small and plain, and so is its row, so that a list of them can be kept. What an element is, is found in `Ranks`;
//! what it weighs, in `CompiledWeights`, or level by level in `LevelWeights`.

ghost use Rattle.std.specs.Prelude.{◌≡◌, ℕ, map};

use std::marker::Model;

/// An element of a text: a collating element, or a character.
#[derive(Clone, Copy)]
pub enum TextElement {
    /// What has an entry: its rank.
    Placed(u32),
    /// A character without an entry.
    Absent(char),
}

/// The element that a text begins with.
#[derive(Clone, Copy)]
pub struct FirstElement<'a> {
    /// The element.
    pub element: TextElement,
    /// The number of its characters.
    pub characters: usize,
    /// The text behind it.
    pub rest: &'a str,
}

/// What an element weighs at a level: ranks, and what is added to the number of each.
#[derive(Clone, Copy)]
pub struct ElementWeight<'a> {
    /// The ranks of its weight.
    pub ranks: &'a [u32],
    /// What is added to the number of each.
    pub added: u32,
}

/// An element by where its weights stand among compiled ones. It serves each level.
#[derive(Clone, Copy)]
pub struct ElementRow {
    /// The place of its weight at the first level.
    pub first: usize,
    /// The code point of a character without an entry, which is added where `UNDEFINED` stands for itself. Of others it is 0.
    pub code: u32,
}

/// The ranks of a weight.
#[derive(Clone, Copy)]
pub enum WeightRanks<'a> {
    /// It has none.
    Ignored,
    /// It is this one.
    Single(u32),
    /// It is one of the few that have several.
    Several(&'a [u32]),
}
