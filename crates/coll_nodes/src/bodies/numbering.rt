//! The places of a body's entries, kept beside it.
//!
//! A caller keeps an `EntryNumbers`, has it filled when the body has changed, and then asks it for places. From numbers that are
//! handed over a `NamePlaces` is made, which needs the body no more.

ghost use Rattle.std.specs.Prelude.{◌≡◌, ◌<◌, length, IfOk, OnOk};

use super::Body;
use crate::numbered_rings::number_sections;
use coll_lookups::{EntryNumbers, NamePlaces};
use coll_syntax::Id;
use std::alloc::{AllocError, Global};

impl Body {
    ghost use Rattle.coll_syntax.specs.Identifier.{same_id};
    ghost use Rattle.coll_nodes.specs.NodeNumbers.{AreNumbersOf, ArePlacesOf};
    ghost use Rattle.coll_nodes.specs.Placement.{place_among};
    ghost use Rattle.coll_nodes.specs.Table.{ids_of, joined_entries};
    ghost use Rattle.coll_nodes.specs.TableLayout.{sections_at};
    ghost use Rattle.coll_nodes.specs.WellFormed.{AreDistinct};

    /// Gives each entry its place, from 1.
    ///
    /// It takes memory for nodes that the numbers have no room for yet, which no clause says. Where memory is refused, nothing is
    /// known of the numbers, and they are to be given anew.
    pub fn number_entries(&self, numbers: &mut EntryNumbers) -> Result<(), AllocError>
        requires few { length (joined_entries (sections_at self.now.layout)) < 1_000_000 }
        requires distinct { AreDistinct same_id (ids_of (joined_entries (sections_at self.now.layout))) }
        ensures { OnOk result (AreNumbersOf numbers.new self.now.layout) }
    {
        self.lemma_layout();
        numbers.begin_anew();
        number_sections(&self.nodes, self.sections, numbers)?;
        Ok(())
    }

    /// The place of an identifier among all entries, from 1, if it has an entry. It takes no memory.
    pub fn entry_number(&self, numbers: &EntryNumbers, id: &Id) -> Option<u32>
        requires { AreNumbersOf numbers.now self.now.layout }
        ensures { result ≡ place_among (joined_entries (sections_at self.now.layout)) id.now }
    {
        match self.keys.placed.find(id) {
            Some(node) => Some(numbers.get(node)),
            None => None,
        }
    }

    /// The places of the names that have entries, kept apart from it: its look-up is copied, and shares the names, and the numbers are
    /// taken over, also where memory is refused.
    pub fn name_places(
        &self,
        alloc: Global,
        numbers: EntryNumbers,
    ) -> Result<NamePlaces, AllocError>
        requires { AreNumbersOf numbers self.now.layout }
        ensures { IfOk result (λ places. ArePlacesOf places self.now.layout) }
    {
        let names = self.keys.placed.copied_names(alloc)?;
        Ok(NamePlaces::new(names, numbers))
    }
}
