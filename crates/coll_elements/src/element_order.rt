//! Placed elements in the order of their strings, so that the longest that a text begins with is found in few steps.
//!
//! All strings that a text begins with stand, in their order, at or before the text, and the last of them is the longest. What
//! stands last at or before the text is found by halves, among the strings with its first character. With each element stands the
//! last one before it that its string begins with; so one goes from there to shorter ones, at most as often as a string has
//! characters, until the text begins with one.
//!
//! The simple form is `split_text`, which looks each beginning of the text up; both have the clause `elements_of`.

ghost use Rattle.std.specs.Prelude.{◌≡◌, ◌<◌, ◌≤◌, ◌++◌, ◌∷◌, ◌==◌, ◌&&◌, [], if◌then◌else◌, ℕ, false, List};
ghost use Rattle.std.specs.Prelude.{slice_index_or, chars, length, vec_len, encode_utf8_all, OnOk};
ghost use Rattle.coll_elements.specs.Elements.{begins_with};
ghost use Rattle.coll_elements.specs.ElementOrder.{first_of};
ghost use Rattle.coll_elements.specs.ElementOrder.{stands_before, string_there, strings_in, places_in, links_in};
ghost use Rattle.coll_elements.specs.ElementOrder.{IsLastBegun, IsOrder, AreAscending, AreLinked};

use crate::code_points::CodePoints;
use coll_lex::TextBuf;
use std::alloc::{AllocError, Global};

/// An element in the order of strings.
#[derive(Drop)]
pub(crate) struct OrderedElement {
    text: TextBuf,
    // Its place in the order of the declarations.
    place: u32,
    // Among how many elements, from the first on, the last that its string begins with is the last; 0 where there is none.
    among: u32,
}

impl OrderedElement {
    /// Its place in the order of the declarations.
    pub(crate) fn place(&self) -> usize
        ensures { result ≡ self.now.place }
    {
        self.place as usize
    }
}

// Among how many elements, from the first on, the last one is the last that a text begins with. None that is looked at stands
// behind the text.
fn last_begun(ordered: &[OrderedElement], among: usize, text: &str) -> usize
    requires within { among ≤ length ordered.now }
    requires ascending { AreAscending (strings_in ordered.now) }
    requires linked { AreLinked (strings_in ordered.now) (links_in ordered.now) }
    requires reached { (place : ℕ) → place < among → stands_before text.now (string_there (strings_in ordered.now) place) ≡ false }
    ensures { IsLastBegun (strings_in ordered.now) text.now among result }
{
    let mut left = among;
    'shorter: while left > 0 {
        let element = &ordered[left - 1];
        if text.starts_with(element.text.get()) {
            return left;
        }
        left = element.among as usize;
    }
    0
}

// Among how many elements, from the first on, the last one is the last between two places that doesn't stand behind a text.
fn count_up_to(ordered: &[OrderedElement], start: usize, end: usize, text: &str) -> usize
    requires order { start ≤ end }
    requires within { end ≤ length ordered.now }
    requires ascending { AreAscending (strings_in ordered.now) }
    ensures from { start ≤ result }
    ensures to { result ≤ end }
    ensures reached { start < result → (place : ℕ) → place < result → stands_before text.now (string_there (strings_in ordered.now) place)
        ≡ false }
    ensures behind { (place : ℕ) → result ≤ place → place < end → begins_with text.now (string_there (strings_in ordered.now) place)
        ≡ false }
{
    let mut low = start;
    let mut high = end;
    'halves: while low < high {
        let middle = low + (high - low) / 2;
        let element = &ordered[middle];
        if text.cmp(element.text.get()).is_lt() {
            high = middle;
        } else {
            low = middle + 1;
        }
    }
    low
}

/// Among how many elements, from the first on, the last one is the last that a text begins with, where this is its first character.
pub(crate) fn last_begun_with(
    ordered: &[OrderedElement],
    starts: &CodePoints,
    ends: &CodePoints,
    text: &str,
    first: char,
) -> usize
    requires { IsOrder ordered.now starts.now ends.now }
    ensures within { result ≤ length ordered.now }
    ensures last { (rest : List ℕ) → chars text.now ≡ first ∷ rest
        → IsLastBegun (strings_in ordered.now) text.now (length ordered.now) result }
{
    let start = starts.get(first) as usize;
    let end = ends.get(first) as usize;
    let among = count_up_to(ordered, start, end, text);
    if among == start {
        return 0;
    }
    last_begun(ordered, among, text)
}

/// Puts an element, whose string stands behind all others, behind them.
pub(crate) fn push_ordered(
    alloc: Global,
    ordered: &mut Vec<OrderedElement>,
    starts: &mut CodePoints,
    ends: &mut CodePoints,
    text: &str,
    place: u32,
) -> Result<(), AllocError>
    requires few { vec_len ordered.old < 1_000_000 }
    requires order { IsOrder ordered.old.items starts.old ends.old }
    requires behind { (place : ℕ) → place < length ordered.old.items
        → stands_before text.now (string_there (strings_in ordered.old.items) place) ≡ false }
    requires some { 0 < length (chars text.now) }
    ensures order { OnOk result (IsOrder ordered.new.items starts.new ends.new) }
    ensures strings { OnOk result (strings_in ordered.new.items ≡ strings_in ordered.old.items ++ text.now ∷ []) }
    ensures places { OnOk result (places_in ordered.new.items ≡ places_in ordered.old.items ++ place ∷ []) }
{
    let place_behind = ordered.len() as u32;
    let among = last_begun(ordered, ordered.len(), text) as u32;
    let first = first_character(text);
    start_at(starts, ends, first, place_behind)?;
    ends.set(first, place_behind + 1)?;
    let text = String::from_str(alloc, text)?;
    ordered.push(OrderedElement {
        text: TextBuf::new(text),
        place,
        among,
    })?;
    Ok(())
}

// Says that the elements that begin with a character start at a place, if there are none yet.
fn start_at(
    starts: &mut CodePoints,
    ends: &CodePoints,
    first: char,
    place: u32,
) -> Result<(), AllocError>
    ensures { OnOk result ((c : ℕ) → slice_index_or starts.new c 0
        ≡ (if (c == first) && (slice_index_or ends.now c 0 == 0) then place else slice_index_or starts.old c 0)) }
{
    if ends.get(first) == 0 {
        starts.set(first, place)
    } else {
        Ok(())
    }
}

// The first character of a text that has one.
fn first_character(text: &str) -> char
    requires { 0 < length (chars text.now) }
    ensures { result ≡ first_of (chars text.now) }
{
    let Some(first) = text.chars().next() else {
        unreachable!();
    };
    first
}
