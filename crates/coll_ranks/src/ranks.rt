//! The ranks of a table, with its weights compiled.
//!
//! The entries of a table are numbered; then one walk over them gives each character its rank and compiles the weights, which
//! stand as ranks in one list. Names are found in a copy of the table's own look-up, and by it the placed elements have their
//! ranks. A `Ranks` keeps nothing of the table itself, so it is true of each table with the same rules, declarations and sections
//! (`AreRanksOf` of `specs/Ranks.antt`), and of a changed table it isn't.

ghost use Rattle.std.specs.Prelude.{◌≡◌, ◌<◌, ◌≤◌, ◌+◌, ◌∷◌, ℕ, [], chars, length, map};
ghost use Rattle.std.specs.Prelude.{option_copied, Option, None, IfOk, IfSome, MatchOption};
ghost use Rattle.coll_nodes.specs.TableLayout.{collation};
ghost use Rattle.coll_ranks.specs.AlikePrefixes.{BeginAlike};

use crate::compiled_weights::CompiledWeights;
use crate::id_ranks::IdRanks;
use crate::ranking::ids_and_weights;
use crate::text_elements::{FirstElement, TextElement};
use coll_elements::{PlacedElements, ranked_elements};
use coll_lex::TextBuf;
use coll_syntax::Id;
use coll_table::Table;
use std::alloc::{AllocError, Global};
use std::marker::Model;

/// The ranks of a table's identifiers, and its weights as ranks.
///
/// They are those of the table as it stood when they were made, with its rules, declarations, sections and weights. After an `apply`
/// or a `flip` that changes one of these, they are to be made anew before they are handed on with the table.
pub struct Ranks {
    ids: IdRanks,
    elements: PlacedElements,
    weights: CompiledWeights,
}

// Written out, so that each place that drops one is one call, with no step for each part.
impl Drop for Ranks {
    fn drop(self) {
        let Ranks {
            ids,
            elements,
            weights,
        } = self;
        drop(ids);
        drop(elements);
        drop(weights);
    }
}

impl Model for Ranks {
    ghost use Rattle.coll_ranks.specs.Ranks.{RanksValue};

    ghost Value = { RanksValue };

    ghost view = { λ r. record { ids = r.ids; elements = r.elements; compiled = r.weights } };
}

impl Ranks {
    ghost use Rattle.coll_nodes.specs.Table.{Collation};
    ghost use Rattle.coll_elements.specs.Rank.{rank_of};
    ghost use Rattle.coll_elements.specs.RankedElements.{last_string};
    ghost use Rattle.coll_ranks.specs.Ranks.{AreRanksOf, rank_with, element_with, elements_by_ranks, compiled_weight};

    /// The ranks of a table, in new memory.
    pub fn new(alloc: Global, table: &Table) -> Result<Ranks, AllocError>
        ensures { IfOk result (λ ranks. AreRanksOf ranks (collation table.now)) }
    {
        let (ids, weights) = ids_and_weights(alloc, table)?;
        let elements = ranked_elements(alloc, table, ids.names())?;
        Ok(Ranks {
            ids,
            elements,
            weights,
        })
    }

    /// The rank of an identifier: its place in the table, from 1. `UNDEFINED` always has one, which is the last where the table
    /// doesn't place it. It takes no memory.
    pub fn rank(&self, id: &Id) -> Option<u32>
        ensures found { result ≡ rank_with self.now.ids id.now }
        ensures place { (table : Collation) → AreRanksOf self.now table → result ≡ rank_of table id.now }
    {
        self.ids.rank(id)
    }

    /// The element that a text begins with.
    #[inline(always)]
    pub fn first_element<'a>(&self, text: &'a str) -> Option<FirstElement<'a>>
        ensures elements { MatchOption result (elements_by_ranks self.now (chars text.now) ≡ [])
            (λ first. elements_by_ranks self.now (chars text.now) ≡ first.element ∷ elements_by_ranks self.now (chars first.rest.now)) }
        ensures characters { MatchOption result (length (chars text.now) ≡ 0)
            (λ first. length (chars text.now) ≡ first.characters + length (chars first.rest.now)) }
        ensures some { IfSome result (λ first. 0 < first.characters) }
    {
        let mut letters = text.chars();
        let first = letters.next()?;
        // Asked here too, so that most characters have no place for an element made ready.
        if !self.elements.may_begin_with(first) {
            return Some(self.alone(first, letters.as_str()));
        }
        match self.elements.longest(text, first) {
            Some(found) => Some(FirstElement {
                element: TextElement::Placed(found.rank),
                characters: found.length,
                rest: found.rest,
            }),
            None => Some(self.alone(first, letters.as_str())),
        }
    }

    // The element that a character is which stands alone, before this text.
    #[inline(always)]
    fn alone<'a>(&self, first: char, rest: &'a str) -> FirstElement<'a>
        ensures element { result.element ≡ element_with self.now.ids None first }
        ensures characters { result.characters ≡ 1 }
        ensures rest { result.rest.now ≡ rest.now }
    {
        FirstElement {
            element: self.ids.element(first),
            characters: 1,
            rest,
        }
    }

    /// Two texts behind characters that both begin with, and that are elements of each.
    #[inline(always)]
    pub fn past_common<'a, 'b>(&self, text: &'a str, other: &'b str) -> (&'a str, &'b str)
        ensures { BeginAlike (elements_by_ranks self.now (chars text.now)) (elements_by_ranks self.now (chars other.now))
            (elements_by_ranks self.now (chars result.0.now)) (elements_by_ranks self.now (chars result.1.now)) }
    {
        let mut left = text;
        let mut right = other;
        'same: while let Some((later, other_later)) = self.past_same(left, right) {
            left = later;
            right = other_later;
        }
        (left, right)
    }

    // Two texts behind the first character of both, if it is the same and no element may begin with it.
    #[inline(always)]
    fn past_same<'a, 'b>(&self, text: &'a str, other: &'b str) -> Option<(&'a str, &'b str)>
        ensures same { IfSome result (λ later. BeginAlike
            (elements_by_ranks self.now (chars text.now)) (elements_by_ranks self.now (chars other.now))
            (elements_by_ranks self.now (chars later.0.now)) (elements_by_ranks self.now (chars later.1.now))) }
        ensures shorter { IfSome result (λ later. length (chars later.0.now) < length (chars text.now)) }
    {
        let mut letters = text.chars();
        let mut others = other.chars();
        let first = letters.next()?;
        let second = others.next()?;
        if first != second {
            return None;
        }
        if self.elements.may_begin_with(first) {
            return None;
        }
        Some((letters.as_str(), others.as_str()))
    }

    /// The string of the placed element of a name, if there is one.
    pub fn string(&self, name: &str) -> Option<&TextBuf>
        ensures { option_copied result ≡ last_string self.now.elements (chars name.now) }
    {
        self.elements.string(name)
    }

    /// The compiled weights of the table.
    #[inline(always)]
    pub fn weights(&self) -> &CompiledWeights
        ensures { result.now ≡ self.now.compiled }
    {
        &self.weights
    }

    /// The compiled weight at a level of what has this rank.
    pub fn compiled(&self, rank: u32, level: usize) -> &[u32]
        requires { level < self.now.compiled.levels }
        ensures { result.now ≡ compiled_weight self.now.compiled rank level }
    {
        self.weights.compiled(rank, level)
    }
}
