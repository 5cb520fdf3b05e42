//! The collating elements that a table places, found by what a text begins with.
//!
//! They stand twice: in the order of their declarations, with their names, and in the order of their strings, in which the longest
//! that a text begins with is found in few steps (`element_order`).

ghost use Rattle.std.specs.Prelude.{◌≡◌, ◌<◌, ◌∷◌, [], ℕ, List, None, false, chars, length, option_copied, vec_len, All, IfOk, OnOk};
ghost use Rattle.coll_elements.specs.RankedElements.{RankedElement};
ghost use Rattle.coll_elements.specs.ElementOrder.{IsOrder, AreStringsOf, AreAscending, strings_in};
ghost use Rattle.coll_elements.specs.ElementOrder.{places_in, texts_of, numbers_of, AreNumbered};
ghost use Rattle.coll_elements.specs.NamedElements.{Finds};

use crate::code_points::CodePoints;
use crate::element_order::{OrderedElement, last_begun_with, push_ordered};
use crate::named_elements::{FoundElement, NamedElements};
use coll_lex::TextBuf;
use std::alloc::{AllocError, Global};
use std::marker::Model;

/// The collating elements that are placed, each with its rank, in the order of their declarations.
///
/// They are fewer than 1,000,000, and each has a string with a character. They keep nothing of their table: when it has changed in
/// its declarations or its entries, they are to be made anew.
pub struct PlacedElements {
    named: NamedElements,
    // The same in the order of their strings.
    ordered: Vec<OrderedElement>,
    // For each character, from which place on those stand whose strings begin with it.
    starts: CodePoints,
    // And behind which place none of them stands; 0 where there is none.
    ends: CodePoints,
}

// Written out, so that each place that drops one is one call, with no step for each part.
impl Drop for PlacedElements {
    fn drop(self) {
        let PlacedElements {
            named,
            ordered,
            starts,
            ends,
        } = self;
        drop(named);
        drop(ordered);
        drop(starts);
        drop(ends);
    }
}

impl Model for PlacedElements {
    ghost use Rattle.std.specs.Prelude.{List};
    ghost use Rattle.coll_elements.specs.RankedElements.{RankedElement};
    ghost use Rattle.coll_elements.specs.ElementOrder.{IsOrder, AreStringsOf, strings_in, places_in};

    ghost Value = { List RankedElement };

    ghost view = { λ e. e.named };

    ghost invariant = { λ e. IsOrder e.ordered.items e.starts e.ends
        × AreStringsOf e.named (strings_in e.ordered.items) (places_in e.ordered.items) };
}

impl PlacedElements {
    ghost use Rattle.coll_elements.specs.Elements.{longest};
    ghost use Rattle.coll_elements.specs.RankedElements.{ranked_text, last_string};

    /// Elements, put into the order of their strings.
    pub(crate) fn new(alloc: Global, named: NamedElements) -> Result<PlacedElements, AllocError>
        requires { length named < 1_000_000 }
        ensures { IfOk result (λ placed. placed ≡ named) }
    {
        let mut ordered = Vec::new(alloc);
        let mut starts = CodePoints::new(alloc);
        let mut ends = CodePoints::new(alloc);
        put_in_order(alloc, &named, &mut ordered, &mut starts, &mut ends)?;
        Ok(PlacedElements {
            named,
            ordered,
            starts,
            ends,
        })
    }

    /// The string of the element of a name, if there is one. It takes no memory.
    pub fn string(&self, name: &str) -> Option<&TextBuf>
        ensures { option_copied result ≡ last_string self.now (chars name.now) }
    {
        self.named.string(name)
    }

    /// Whether an element may begin with a character: where it says no, none does. It takes no memory.
    #[inline(always)]
    pub fn may_begin_with(&self, first: char) -> bool
        ensures { (rest : List ℕ) → result ≡ false → longest ranked_text self.now (first ∷ rest) ≡ None }
    {
        self.ends.get(first) > 0
    }

    /// The element with the longest string that a text begins with, if there is one, where this is its first character. It takes no
    /// memory.
    #[inline(always)]
    pub fn longest<'a>(&self, text: &'a str, first: char) -> Option<FoundElement<'a>>
        ensures { (rest : List ℕ) → chars text.now ≡ first ∷ rest
            → Finds (longest ranked_text self.now (chars text.now)) (chars text.now) result }
    {
        if self.may_begin_with(first) {
            self.longest_in_order(text, first)
        } else {
            None
        }
    }

    // The same, found in the order of the strings.
    fn longest_in_order<'a>(&self, text: &'a str, first: char) -> Option<FoundElement<'a>>
        ensures { (rest : List ℕ) → chars text.now ≡ first ∷ rest
            → Finds (longest ranked_text self.now (chars text.now)) (chars text.now) result }
    {
        let among = last_begun_with(&self.ordered, &self.starts, &self.ends, text, first);
        if among == 0 {
            return None;
        }
        let place = self.ordered[among - 1].place();
        self.named.found_at(place, text)
    }
}

// Puts elements into the order of their strings.
fn put_in_order(
    alloc: Global,
    named: &NamedElements,
    ordered: &mut Vec<OrderedElement>,
    starts: &mut CodePoints,
    ends: &mut CodePoints,
) -> Result<(), AllocError>
    requires few { length named.now < 1_000_000 }
    requires none { ordered.old.items ≡ [] }
    requires starts { starts.old ≡ [] }
    requires ends { ends.old ≡ [] }
    ensures order { OnOk result (IsOrder ordered.new.items starts.new ends.new) }
    ensures strings { OnOk result (AreStringsOf named.now (strings_in ordered.new.items) (places_in ordered.new.items)) }
{
    let strings = sorted_strings(alloc, named)?;
    for at in 0..strings.len() {
        let (text, place) = strings[at];
        push_ordered(alloc, ordered, starts, ends, text, place)?;
    }
    Ok(())
}

// The strings of elements in their order, each with the place of its element.
fn sorted_strings<'a>(
    alloc: Global,
    named: &'a NamedElements,
) -> Result<Vec<(&'a str, u32)>, AllocError>
    requires { length named.now < 1_000_000 }
    ensures count { IfOk result (λ strings. vec_len strings ≡ length named.now) }
    ensures ascending { IfOk result (λ strings. AreAscending (texts_of strings.items)) }
    ensures strings { IfOk result (λ strings. AreStringsOf named.now (texts_of strings.items) (numbers_of strings.items)) }
{
    let mut strings = numbered_strings(alloc, named)?;
    strings.sort_unstable();
    Ok(strings)
}

// The strings of elements, each with the place of its element.
fn numbered_strings<'a>(
    alloc: Global,
    named: &'a NamedElements,
) -> Result<Vec<(&'a str, u32)>, AllocError>
    requires { length named.now < 1_000_000 }
    ensures { IfOk result (λ strings. AreNumbered named.now (length named.now) strings.items) }
{
    let mut strings = Vec::new(alloc);
    strings.reserve(named.len())?;
    for place in 0..named.len() {
        strings.push((named.text_at(place), place as u32))?;
    }
    Ok(strings)
}
