//! What is known of strings: the rows of those that are collating elements, and which are none, found by the string.
//!
//! The strings that begin with one character stand one behind another, in their order, if they were put so: a string is sought among them
//! by halves, so many strings that begin alike make no look-up long. What is found is compared with the string that was sought, whatever
//! the order is.

ghost use Rattle.std.specs.Prelude.{chars, IfSome, OnOk};
ghost use Rattle.coll_nodes.specs.Table.{Collation};
ghost use Rattle.coll_ranks.specs.RankLists.{WeightsValue};
ghost use Rattle.coll_letters.specs.StringRows.{AreStringRows, IsKnownString};

use coll_elements::CodePoints;
use coll_lex::TextBuf;
use coll_ranks::ElementRow;
use std::alloc::{AllocError, Global};

/// What is known of a string.
#[derive(Clone, Copy)]
pub(crate) enum KnownString {
    /// It is that of an element that is placed, which has this row.
    Element(ElementRow),
    /// It is that of none.
    NoElement,
}

// A string, and what is known of it.
#[derive(Drop)]
struct StringRow {
    text: TextBuf,
    known: KnownString,
    // Before how many strings the first one stands that begins with the same character.
    begun: u32,
}

/// Strings, and what is known of each.
#[derive(Drop)]
pub(crate) struct StringRows {
    rows: Vec<StringRow>,
    // Of each character the place behind the last string that begins with it.
    ends: CodePoints,
    // How many strings there are.
    count: u32,
}

impl StringRows {
    /// No strings. It takes no memory.
    pub fn new(alloc: Global) -> StringRows
        ensures { (table : Collation) (weights : WeightsValue) → AreStringRows table weights result }
    {
        StringRows {
            rows: Vec::new(alloc),
            ends: CodePoints::new(alloc),
            count: 0,
        }
    }

    /// Puts a string, which begins with this character, and what is known of it behind others.
    pub fn push(
        &mut self,
        alloc: Global,
        first: char,
        string: &str,
        known: KnownString,
    ) -> Result<(), AllocError>
        ensures { OnOk result ((table : Collation) (weights : WeightsValue) → AreStringRows table weights self.old
            → IsKnownString table weights (chars string.now) known → AreStringRows table weights self.new) }
    {
        let text = TextBuf::copied(alloc, string)?;
        let begun = self.begun(first);
        self.rows.push(StringRow { text, known, begun })?;
        self.count = self.count.saturating_add(1);
        self.ends.set(first, self.count)?;
        Ok(())
    }

    // Before how many strings the first one stands that begins with a character.
    fn begun(&self, first: char) -> u32 {
        match self.ends.get(first).checked_sub(1) {
            Some(last) => match self.rows.get(last as usize) {
                Some(kept) => kept.begun,
                None => self.count,
            },
            None => self.count,
        }
    }

    /// What is known of a string that begins with this character, if it was put.
    pub fn known(&self, first: char, string: &str) -> Option<KnownString>
        ensures { (table : Collation) (weights : WeightsValue) → AreStringRows table weights self.now
            → IfSome result (IsKnownString table weights (chars string.now)) }
    {
        let mut low = self.begun(first) as usize;
        let mut high = self.ends.get(first) as usize;
        'halves: while low < high {
            let middle = low + (high - low) / 2;
            let kept = self.rows.get(middle)?;
            let text = kept.text.get();
            if text == string {
                return Some(kept.known);
            }
            if string.cmp(text).is_lt() {
                high = middle;
            } else {
                low = middle + 1;
            }
        }
        None
    }
}
