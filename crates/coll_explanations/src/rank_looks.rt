//! What tells the ranks of a table's identifiers, and the order of two texts.
//!
//! The ranks of a whole table, the simple form, are made in one pass over its entries. Where the texts have few characters beside the
//! entries, these are only numbered, which is a much shorter pass, unless their places are known already, and what is asked for is looked
//! up by itself. How many are few may change: what is told is the same, by the clause `Serves` of both.

ghost use Rattle.std.specs.Prelude.{◌≡◌, ◌≢◌, ◌||◌, chars, length, true, unwrap_or, IfErr, IfOk};
ghost use Rattle.coll_nodes.specs.NodeNumbers.{AreNumbersOf};
ghost use Rattle.coll_nodes.specs.Table.{entries_of};
ghost use Rattle.coll_nodes.specs.TableLayout.{collation};
ghost use Rattle.coll_elements.specs.Rank.{known_rank, rank_unplaced};
ghost use Rattle.coll_key.specs.KeyLimits.{is_too_long};
ghost use Rattle.coll_key.specs.TextOrder.{order_of};
ghost use Rattle.coll_key.specs.declared.key_faults.KeyFault.TheVariants.{OutOfMemory};
ghost use Rattle.coll_explanations.specs.RankLooks.{Serves};

use coll_key::{EntryNumbers, KeyFault, Ranks, compare, compare_texts};
use coll_syntax::Id;
use coll_table::Table;
use std::alloc::{AllocError, Global};
use std::cmp::Ordering;

// For so many entries of the table texts may have one character: it is looked up in some half of the time that their ranks take.
const ENTRIES_A_CHARACTER: usize = 16;

/// What tells ranks and orders by one table as it stands.
#[derive(Drop)]
pub(crate) enum RankLooks<'a> {
    /// The places of the table's entries.
    ByNumbers(&'a EntryNumbers),
    /// The ranks of the whole table.
    ByRanks(Ranks),
}

impl<'a> RankLooks<'a> {
    /// What tells ranks and orders by a table where texts have so many characters. The numbers are given anew, or stay.
    pub fn new(
        alloc: Global,
        table: &Table,
        numbers: &'a mut EntryNumbers,
        characters: usize,
    ) -> Result<RankLooks<'a>, AllocError>
        ensures { IfOk result (λ looks. Serves looks table.now) }
    {
        if are_few(table, characters) {
            table.number_entries(numbers)?;
            return Ok(RankLooks::ByNumbers(numbers));
        }
        let ranks = Ranks::new(alloc, table)?;
        Ok(RankLooks::ByRanks(ranks))
    }

    /// The same where the entries have their places.
    pub fn by_places(
        alloc: Global,
        table: &Table,
        places: &'a EntryNumbers,
        characters: usize,
    ) -> Result<RankLooks<'a>, AllocError>
        requires { AreNumbersOf places.now table.now.layout }
        ensures { IfOk result (λ looks. Serves looks table.now) }
    {
        if are_few(table, characters) {
            return Ok(RankLooks::ByNumbers(places));
        }
        let ranks = Ranks::new(alloc, table)?;
        Ok(RankLooks::ByRanks(ranks))
    }

    /// The order of two texts by the table.
    pub fn compare(
        &self,
        alloc: Global,
        table: &Table,
        text: &str,
        other: &str,
    ) -> Result<Ordering, KeyFault>
        requires { Serves self.now table.now }
        ensures ok { IfOk result (λ order. order ≡ order_of (collation table.now) (chars text.now) (chars other.now)) }
        ensures err { IfErr result (λ fault. fault ≢ OutOfMemory → (is_too_long (chars text.now) || is_too_long (chars other.now)) ≡ true) }
    {
        match self {
            RankLooks::ByNumbers(numbers) => compare_texts(alloc, table, numbers, text, other),
            RankLooks::ByRanks(ranks) => compare(alloc, table, ranks, text, other),
        }
    }

    /// The rank of an identifier, and 0 for one that has none. It takes no memory.
    pub fn known_rank(&self, table: &Table, id: &Id) -> u32
        requires { Serves self.now table.now }
        ensures { result ≡ known_rank (collation table.now) id.now }
    {
        match self {
            RankLooks::ByNumbers(numbers) => match table.entry_number(numbers, id) {
                Some(place) => place,
                None => rank_unplaced(table, id),
            },
            RankLooks::ByRanks(ranks) => ranks.rank(id).unwrap_or(0),
        }
    }
}

// Whether so many characters are few beside a table.
fn are_few(table: &Table, characters: usize) -> bool {
    characters <= table.len() / ENTRIES_A_CHARACTER
}

// The rank of an identifier without an entry, and 0 for one that has none: `UNDEFINED` stands behind all entries.
fn rank_unplaced(table: &Table, id: &Id) -> u32
    ensures { result ≡ unwrap_or (rank_unplaced (length (entries_of (collation table.now))) id.now) 0 }
{
    table.lemma_well_formed();
    match id {
        Id::Undefined => table.len() as u32 + 1,
        Id::Char(_) | Id::Named(_) => 0,
    }
}
