//! Ranks by identifier.
//!
//! An `IdRanks` finds a name by hash, in a copy of the table's own look-up, the names that it once had included, and a character
//! by its code point. A new kind of identifier is a field more.

ghost use Rattle.std.specs.Prelude.{◌≡◌, chars};
ghost use Rattle.coll_syntax.specs.declared.identifiers.Id.TheVariants.{Char, Named};

use crate::text_elements::TextElement;
use coll_elements::CodePoints;
use coll_lookups::NamePlaces;
use coll_syntax::Id;
use std::marker::Model;

/// Ranks by identifier.
#[derive(Drop)]
pub(crate) struct IdRanks {
    names: NamePlaces,
    characters: CodePoints,
    undefined: u32,
}

impl Model for IdRanks {
    ghost use Rattle.coll_ranks.specs.Ranks.{RanksById};

    ghost Value = { RanksById };

    ghost view = { λ i. record { names = i.names; characters = i.characters; undefined = i.undefined } };
}

impl IdRanks {
    ghost use Rattle.coll_ranks.specs.Ranks.{rank_with, character_element};

    /// The ranks of names, of characters, and that of `UNDEFINED`.
    pub(crate) fn new(names: NamePlaces, characters: CodePoints, undefined: u32) -> IdRanks
        ensures { result ≡ record { names = names; characters = characters; undefined = undefined } }
    {
        IdRanks {
            names,
            characters,
            undefined,
        }
    }

    /// The rank of an identifier, if it has one.
    pub(crate) fn rank(&self, id: &Id) -> Option<u32>
        ensures { result ≡ rank_with self.now id.now }
    {
        match id {
            Id::Char(c) => self.rank_of_character(*c),
            Id::Named(name) => self.rank_of_name(name.get()),
            Id::Undefined => Some(self.undefined),
        }
    }

    // The rank of a name, if it has one.
    fn rank_of_name(&self, name: &str) -> Option<u32>
        ensures { result ≡ rank_with self.now (Named (chars name.now)) }
    {
        self.names.place(name)
    }

    /// The places of names, which are their ranks.
    pub(crate) fn names(&self) -> &NamePlaces
        ensures { result.now ≡ self.now.names }
    {
        &self.names
    }

    /// The rank of a character, if it has one.
    pub(crate) fn rank_of_character(&self, c: char) -> Option<u32>
        ensures { result ≡ rank_with self.now (Char c) }
    {
        match self.characters.get(c) {
            0 => None,
            rank => Some(rank),
        }
    }

    /// The element that a character is which stands alone.
    pub(crate) fn element(&self, c: char) -> TextElement
        ensures { result ≡ character_element (rank_with self.now (Char c)) c }
    {
        match self.rank_of_character(c) {
            Some(rank) => TextElement::Placed(rank),
            None => TextElement::Absent(c),
        }
    }
}
