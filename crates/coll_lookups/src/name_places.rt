//! The places of names, kept apart from their table.
//!
//! A `NamePlaces` has a look-up of names, as a copy of that of a table, and the numbers of all nodes that names lead to. So it tells
//! the place of a name, from 1, as the table stood when it was made, also when the table has changed or is gone. How a name is found
//! may change.

ghost use Rattle.std.specs.Prelude.{◌≡◌, chars};

use crate::entry_numbers::EntryNumbers;
use crate::node_names::NodeNames;
use std::marker::Model;

/// The places of names among all entries of a table.
#[derive(Drop)]
pub struct NamePlaces {
    names: NodeNames,
    numbers: EntryNumbers,
}

impl Model for NamePlaces {
    ghost use Rattle.coll_lookups.specs.NamePlaces.{NamePlacesValue};

    ghost Value = { NamePlacesValue };

    ghost view = { λ p. record { names = p.names; numbers = p.numbers } };
}

impl NamePlaces {
    ghost use Rattle.coll_lookups.specs.NamePlaces.{place_named};

    /// The places of names, by the numbers of their nodes. It takes no memory. That these are places is for the caller to know: a
    /// name that leads to a node without a number has place 0.
    pub fn new(names: NodeNames, numbers: EntryNumbers) -> NamePlaces
        ensures { result ≡ record { names = names; numbers = numbers } }
    {
        NamePlaces { names, numbers }
    }

    /// The place of a name among all entries, from 1, if it has an entry. It takes no memory.
    pub fn place(&self, name: &str) -> Option<u32>
        ensures { result ≡ place_named self.now (chars name.now) }
    {
        match self.names.find_text(name) {
            Some(node) => Some(self.numbers.get(node)),
            None => None,
        }
    }
}
