//! Ranks of a table by the places of its entries.
//!
//! A `TableRanks` borrows a table and the places of its entries, which are kept beside it, and tells the rank of an identifier by
//! one look-up in the table. So what is compiled of a table needs no map of ranks of its own.

ghost use Rattle.std.specs.Prelude.{◌≡◌, length};
ghost use Rattle.coll_nodes.specs.NodeNumbers.{AreNumbersOf};
ghost use Rattle.coll_nodes.specs.Table.{entries_of};
ghost use Rattle.coll_nodes.specs.TableLayout.{collation};
ghost use Rattle.coll_elements.specs.Rank.{rank_of, rank_unplaced, known_rank};

use coll_lookups::EntryNumbers;
use coll_syntax::Id;
use coll_table::Table;
use std::marker::Model;

/// The ranks of a table's identifiers.
#[derive(Drop)]
pub(crate) struct TableRanks<'a> {
    table: &'a Table,
    numbers: &'a EntryNumbers,
}

impl<'a> Model for TableRanks<'a> {
    ghost use Rattle.coll_nodes.specs.NodeNumbers.{AreNumbersOf};
    ghost use Rattle.coll_nodes.specs.Table.{Collation};
    ghost use Rattle.coll_nodes.specs.TableLayout.{collation};

    ghost Value = { Collation };

    ghost view = { λ r. collation r.table.now };

    ghost invariant = { λ r. AreNumbersOf r.numbers.now r.table.now.layout };
}

impl<'a> TableRanks<'a> {
    /// The ranks of a table, by the places of its entries.
    pub(crate) fn new(table: &'a Table, numbers: &'a EntryNumbers) -> TableRanks<'a>
        requires { AreNumbersOf numbers.now table.now.layout }
        ensures { result ≡ collation table.now }
    {
        TableRanks { table, numbers }
    }

    /// The rank of an identifier, if it has one. It takes no memory.
    pub(crate) fn rank(&self, id: &Id) -> Option<u32>
        ensures { result ≡ rank_of self.now id.now }
    {
        match self.table.entry_number(self.numbers, id) {
            Some(place) => Some(place),
            None => self.rank_unplaced(id),
        }
    }

    /// The rank of an identifier, and 0 for one that has none. It takes no memory.
    pub(crate) fn known_rank(&self, id: &Id) -> u32
        ensures { result ≡ known_rank self.now id.now }
    {
        self.rank(id).unwrap_or(0)
    }

    // The rank of an identifier without an entry: `UNDEFINED` stands behind all entries.
    fn rank_unplaced(&self, id: &Id) -> Option<u32>
        ensures { result ≡ rank_unplaced (length (entries_of self.now)) id.now }
    {
        self.table.lemma_well_formed();
        match id {
            Id::Undefined => Some(self.table.len() as u32 + 1),
            Id::Char(_) | Id::Named(_) => None,
        }
    }
}
