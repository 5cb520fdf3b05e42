//! The elements of a table, found on a walk through its declarations.
//!
//! Each declaration is looked at once: an element whose name has a place among the entries is put behind those before it, with this
//! place as its rank. What is found so is then put into the order of strings.

ghost use Rattle.std.specs.Prelude.{◌≡◌, ◌<◌, ◌+◌, ◌++◌, length, map, IfOk};
ghost use Rattle.std.specs.List.{flat_map, All};
ghost use Rattle.coll_lookups.specs.NamePlaces.{place_named};
ghost use Rattle.coll_nodes.specs.TableLayout.{collation};
ghost use Rattle.coll_nodes.specs.WalkItems.{declared_by};
ghost use Rattle.coll_elements.specs.Elements.{elements_placed};
ghost use Rattle.coll_elements.specs.RankedElements.{ranked_in};
ghost use Rattle.coll_elements.specs.TableElements.{AreNameRanksOf, HasString, ranked_declared};

use crate::named_elements::NamedElements;
use crate::placed_elements::PlacedElements;
use coll_lookups::NamePlaces;
use coll_nodes::{Declared, DeclaredItem};
use coll_table::Table;
use std::alloc::{AllocError, Global};

/// The elements of a table that are placed, with their ranks, in new memory, by the places of all names in it.
///
/// They are those of the table as it stands, and stay so when it changes. The places are those that `name_places` of the same table
/// gave, unless it has changed meanwhile.
pub fn ranked_elements(
    alloc: Global,
    table: &Table,
    places: &NamePlaces,
) -> Result<PlacedElements, AllocError>
    requires { AreNameRanksOf places.now (collation table.now) }
    ensures { IfOk result (λ elements. elements ≡ map (ranked_in (collation table.now)) (elements_placed (collation table.now))) }
{
    let named = named_elements(alloc, table, places)?;
    PlacedElements::new(alloc, named)
}

// The elements of a table that are placed, with their names and their ranks.
fn named_elements(
    alloc: Global,
    table: &Table,
    places: &NamePlaces,
) -> Result<NamedElements, AllocError>
    requires { AreNameRanksOf places.now (collation table.now) }
    ensures elements { IfOk result (λ elements. elements ≡ map (ranked_in (collation table.now)) (elements_placed (collation table.now))) }
    ensures few { IfOk result (λ elements. length elements < 1_000_000) }
{
    table.lemma_well_formed();
    put_all(
        NamedElements::new(alloc, table.hash_keys()),
        places,
        table.declared(),
    )
}

// Puts the elements of declarations that have a rank behind others.
fn put_all(
    elements: NamedElements,
    places: &NamePlaces,
    declared: Declared<'_>,
) -> Result<NamedElements, AllocError>
    requires some { All HasString declared }
    requires few { length elements + length declared < 1_000_000 }
    ensures all { IfOk result (λ all. all ≡ elements ++ flat_map (ranked_declared (place_named places.now)) declared.entry) }
    ensures few { IfOk result (λ all. length all < 1_000_000) }
{
    let mut all = elements;
    let mut left = declared;
    'declared: while let Some(item) = left.next() {
        all = put_declared(all, places, item)?;
    }
    Ok(all)
}

// Puts what is declared behind other elements, if it is one that has a rank.
fn put_declared(
    elements: NamedElements,
    places: &NamePlaces,
    item: DeclaredItem<'_>,
) -> Result<NamedElements, AllocError>
    requires some { HasString (declared_by item) }
    requires few { length elements < 1_000_000 }
    ensures { IfOk result (λ with. with ≡ elements ++ ranked_declared (place_named places.now) (declared_by item.entry)) }
{
    match item {
        DeclaredItem::Symbol(_) => Ok(elements),
        DeclaredItem::Equivalence(_, _) => Ok(elements),
        DeclaredItem::Element(name, text) => match places.place(name) {
            Some(rank) => elements.push(name, text, rank),
            None => Ok(elements),
        },
    }
}
