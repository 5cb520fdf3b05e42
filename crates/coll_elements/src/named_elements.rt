//! The collating elements that a table places, each with its name, in the order of their declarations.

ghost use Rattle.std.specs.Prelude.{◌≡◌, ◌<◌, ◌++◌, ◌∷◌, [], List, chars, length, option_copied, vec_len, IfOk, OnOk};
ghost use Rattle.coll_elements.specs.NamedElements.{AreNamed, elements_in, ranked_element};

use crate::name_numbers::NameNumbers;
use coll_lex::TextBuf;
use coll_lookups::HashKeys;
use std::alloc::{AllocError, Global};
use std::marker::Model;

/// A collating element that is placed.
#[derive(Drop)]
pub(crate) struct PlacedElement {
    name: TextBuf,
    text: TextBuf,
    // The number of characters of its string.
    length: usize,
    rank: u32,
}

/// The collating elements that are placed, in the order of their declarations.
#[derive(Drop)]
pub(crate) struct NamedElements {
    elements: Vec<PlacedElement>,
    // The place of each element among all, by its name.
    places: NameNumbers,
    alloc: Global,
}

/// An element that a text begins with.
#[derive(Clone, Copy)]
pub struct FoundElement<'a> {
    /// Its rank.
    pub rank: u32,
    /// The number of its characters, at least 1.
    pub length: usize,
    /// The text behind it.
    pub rest: &'a str,
}

impl Model for NamedElements {
    ghost use Rattle.std.specs.Prelude.{List};
    ghost use Rattle.coll_elements.specs.RankedElements.{RankedElement};
    ghost use Rattle.coll_elements.specs.NamedElements.{elements_in, AreNamed};

    ghost Value = { List RankedElement };

    ghost view = { λ e. elements_in e.elements.items };

    ghost invariant = { λ e. AreNamed e.elements.items e.places };
}

impl NamedElements {
    ghost use Rattle.std.specs.Prelude.{slice_index_or};
    ghost use Rattle.coll_elements.specs.RankedElements.{RankedElement, last_string};
    ghost use Rattle.coll_elements.specs.ElementOrder.{IsSpelled};
    ghost use Rattle.coll_elements.specs.NamedElements.{ranked_element, Finds, if_begun};

    /// No elements. It takes no memory.
    pub(crate) fn new(alloc: Global, keys: HashKeys) -> NamedElements
        ensures { result ≡ [] }
    {
        NamedElements {
            elements: Vec::new(alloc),
            places: NameNumbers::new(alloc, keys),
            alloc,
        }
    }

    /// How many elements there are.
    pub(crate) fn len(&self) -> usize
        ensures { result ≡ length self.now }
    {
        self.elements.len()
    }

    /// The string of the element of a name, if there is one.
    pub(crate) fn string(&self, name: &str) -> Option<&TextBuf>
        ensures { option_copied result ≡ last_string self.now (chars name.now) }
    {
        let place = self.places.get(name)?;
        let element = self.elements.get(place as usize)?;
        Some(&element.text)
    }

    /// Puts an element, whose string has a character, behind all others.
    pub(crate) fn push(self, name: &str, text: &str, rank: u32) -> Result<NamedElements, AllocError>
        requires some { 0 < length (chars text.now) }
        requires few { length self < 1_000_000 }
        ensures { IfOk result (λ with. with ≡ self ++ ranked_element (chars name.now) (chars text.now) rank ∷ []) }
    {
        let NamedElements {
            mut elements,
            mut places,
            alloc,
        } = self;
        put(alloc, &mut elements, &mut places, name, text, rank)?;
        Ok(NamedElements {
            elements,
            places,
            alloc,
        })
    }

    /// The string of the element at a place.
    pub(crate) fn text_at(&self, place: usize) -> &str
        requires { place < length self.now }
        ensures { (ranked : RankedElement) → ranked ≡ slice_index_or self.now place ranked → IsSpelled ranked result.now }
    {
        self.elements[place].text.get()
    }

    /// The element at a place, if a text begins with it.
    pub(crate) fn found_at<'a>(&self, place: usize, text: &'a str) -> Option<FoundElement<'a>>
        requires { place < length self.now }
        ensures { (ranked : RankedElement) → ranked ≡ slice_index_or self.now place ranked
            → Finds (if_begun (chars text.now) ranked) (chars text.now) result }
    {
        self.elements[place].found_in(text)
    }
}

impl PlacedElement {
    ghost use Rattle.coll_elements.specs.NamedElements.{Finds, if_begun, kept_element, IsKept};

    // An element with its string.
    fn new(alloc: Global, name: &str, text: &str, rank: u32) -> Result<PlacedElement, AllocError>
        ensures { IfOk result (IsKept (chars name.now) (chars text.now) rank) }
    {
        let length = text.chars().count();
        let name = String::from_str(alloc, name)?;
        let text = String::from_str(alloc, text)?;
        Ok(PlacedElement {
            name: TextBuf::new(name),
            text: TextBuf::new(text),
            length,
            rank,
        })
    }

    // This element, if a text begins with it.
    fn found_in<'a>(&self, text: &'a str) -> Option<FoundElement<'a>>
        requires length_is { self.now.length ≡ length self.now.text }
        requires some { 0 < length self.now.text }
        ensures { Finds (if_begun (chars text.now) (kept_element self.now)) (chars text.now) result }
    {
        let rest = text.strip_prefix(self.text.get())?;
        Some(FoundElement {
            rank: self.rank,
            length: self.length,
            rest,
        })
    }
}

// Puts an element, whose string has a character, behind others, to which its name leads.
fn put(
    alloc: Global,
    elements: &mut Vec<PlacedElement>,
    places: &mut NameNumbers,
    name: &str,
    text: &str,
    rank: u32,
) -> Result<(), AllocError>
    requires some { 0 < length (chars text.now) }
    requires few { vec_len elements.old < 1_000_000 }
    ensures named { OnOk result (AreNamed elements.old.items places.old → AreNamed elements.new.items places.new) }
    ensures element { OnOk result (elements_in elements.new.items
        ≡ elements_in elements.old.items ++ ranked_element (chars name.now) (chars text.now) rank ∷ []) }
{
    let place = elements.len() as u32;
    places.set(name, place)?;
    let element = PlacedElement::new(alloc, name, text, rank)?;
    elements.push(element)?;
    Ok(())
}
