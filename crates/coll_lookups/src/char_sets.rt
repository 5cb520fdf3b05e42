//! Sets of characters, found by code point.
//!
//! Each range of 128 code points with a character has a page of marks (`char_pages`), 128 bytes, whatever the characters are: at
//! most 1.1 MB, where each range has one.

ghost use Rattle.std.specs.Prelude.{◌≡◌, ◌||◌, ◌&&◌, [], ℕ, nat_eq, not, IfOk, OnOk, OnErr};
ghost use Rattle.std.specs.List.{list_any};

use crate::char_pages::{make_place, place_of};
use std::alloc::{AllocError, Global};
use std::marker::Model;

/// Characters, each once.
#[derive(Drop)]
pub struct CharSet {
    // The number of the page of each range of code points, from 1; 0 for none. Behind the last range that has one there may be none.
    pages: Vec<u16>,
    marks: Vec<bool>,
}

impl Model for CharSet {
    ghost use Rattle.std.specs.Prelude.{List, ℕ, length};
    ghost use Rattle.coll_lookups.specs.CharPages.{ArePages};
    ghost use Rattle.coll_lookups.specs.CharSets.{marked_at};

    ghost Value = { List ℕ };

    ghost view = { λ s. marked_at s.pages.items s.marks.items };

    ghost invariant = { λ s. ArePages s.pages.items (length s.marks.items) };
}

impl CharSet {
    /// No characters. It takes no memory.
    #[tactic(auto, using(crate::proofs::CharPages::no_pages), unfolding(crate::specs::CharSets::marked_below))]
    pub fn new(alloc: Global) -> CharSet
        ensures { result ≡ [] }
    {
        CharSet {
            pages: Vec::new(alloc),
            marks: Vec::new(alloc),
        }
    }

    /// Whether a character is there. It takes no memory.
    #[inline]
    pub fn contains(&self, c: char) -> bool
        ensures { result ≡ list_any (nat_eq c) self.now }
    {
        match place_of(&self.pages, c) {
            Some(place) => self.marks[place],
            None => false,
        }
    }

    /// Puts a character in, and answers whether it wasn't there. One that is there stays. Where memory is refused, nothing has
    /// changed.
    pub fn put(&mut self, c: char) -> Result<bool, AllocError>
        ensures free { IfOk result (λ free. free ≡ not (list_any (nat_eq c) self.old)) }
        ensures ok { OnOk result ((other : ℕ) → list_any (nat_eq other) self.new ≡ (nat_eq other c || list_any (nat_eq other) self.old)) }
        ensures err { OnErr result (self.new ≡ self.old) }
    {
        let place = make_place(&mut self.pages, &mut self.marks, c, false)?;
        let free = !self.marks[place];
        self.marks[place] = true;
        Ok(free)
    }

    /// Takes a character out, if it is there. It takes no memory.
    pub fn take_out(&mut self, c: char)
        ensures { (other : ℕ) → list_any (nat_eq other) self.new ≡ (not (nat_eq other c) && list_any (nat_eq other) self.old) }
    {
        if let Some(place) = place_of(&self.pages, c) {
            self.marks[place] = false;
        }
    }
}
