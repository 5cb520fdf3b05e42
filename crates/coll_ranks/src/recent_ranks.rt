//! Ranks of a table, of which some are kept from one entry to the next.
//!
//! Most weights name their own entry, or what the weight of the entry before names at their level, or the entry that stands directly
//! behind that one in the table. So a `RecentRanks` keeps, with its identifier, the rank of the entry that was begun last, and in two
//! slots for each level the last rank that was told there and was not the own one of the entry begun then; and it keeps the identifiers
//! of the entries that were begun in a walk: one after another, from the table's first on. A rank that is kept is told by a comparison
//! of identifiers, and any other is looked up. Which slot is asked, and whether anything is kept at all, is for speed alone; that each
//! rank that is kept is right is the invariant.
//!
//! The simple form is `table_ranks`, which looks each identifier up, as is done here where none that is kept has it; both have one clause
//! (`known_rank`).

ghost use Rattle.std.specs.Prelude.{◌≡◌, Some, IfSome, IfOk};
ghost use Rattle.std.specs.List.{All};
ghost use Rattle.coll_nodes.specs.Table.{Collation};
ghost use Rattle.coll_elements.specs.Rank.{known_rank};
ghost use Rattle.coll_ranks.specs.RecentRanks.{IsRecent, AreFirst};

use crate::table_ranks::TableRanks;
use coll_syntax::Id;
use std::alloc::{AllocError, Global};
use std::marker::Model;

// How many levels have ranks that are kept: as many as a table has at most.
const LEVELS: usize = 4;

// Of each level two ranks are kept: that of the first identifier of a weight, and that of a later one.
const SLOTS: usize = 2 * LEVELS;

/// An identifier with its rank.
#[derive(Clone, Copy)]
pub(crate) struct RecentRank<'a> {
    id: &'a Id,
    rank: u32,
}

/// The ranks of a table's identifiers, of which some are kept.
#[derive(Drop)]
pub(crate) struct RecentRanks<'a> {
    table: &'a TableRanks<'a>,
    // The rank of the entry whose weights are put in.
    owner: Option<RecentRank<'a>>,
    // A slot for the first identifier of a weight at each level, and then one for a later identifier at each: the last rank that was
    // told there, and was not the own one of the entry begun then.
    last: [Option<RecentRank<'a>>; SLOTS],
    // The identifiers of the first entries of the table, in order, as far as a walk has begun them.
    entries: Vec<&'a Id>,
}

impl<'a> Model for RecentRanks<'a> {
    ghost use Rattle.std.specs.List.{All};
    ghost use Rattle.coll_nodes.specs.Table.{Collation};
    ghost use Rattle.coll_ranks.specs.RecentRanks.{IsRecent, AreFirst};

    ghost Value = { Collation };

    ghost view = { λ r. r.table.now };

    ghost invariant = { λ r. IsRecent r.table.now r.owner × All (IsRecent r.table.now) r.last × AreFirst r.table.now r.entries.items };
}

impl<'a> RecentRanks<'a> {
    /// The ranks of a table, of which none is kept yet. It takes no memory.
    pub(crate) fn new(alloc: Global, table: &'a TableRanks<'a>) -> RecentRanks<'a>
        ensures { result ≡ table.now }
    {
        RecentRanks {
            table,
            owner: None,
            last: [None; SLOTS],
            entries: Vec::new(alloc),
        }
    }

    /// The same, with room for the entries of a walk: so many are begun, one after another from the table's first on.
    pub(crate) fn on_walk(
        alloc: Global,
        table: &'a TableRanks<'a>,
        entries: usize,
    ) -> Result<RecentRanks<'a>, AllocError>
        ensures { IfOk result (λ made. made ≡ table.now) }
    {
        let mut made = RecentRanks::new(alloc, table);
        made.entries.reserve(entries)?;
        Ok(made)
    }

    /// Keeps the rank of the entry whose weights come next, and the entry itself where all before it were begun in order, for which
    /// it takes memory where there is no room.
    pub(crate) fn begin(&mut self, id: &'a Id, rank: u32) -> Result<(), AllocError>
        requires { rank ≡ known_rank self.old id.now }
        ensures { self.new ≡ self.old }
    {
        self.owner = Some(RecentRank { id, rank });
        push_next(&mut self.entries, id, rank)
    }

    /// The rank of an identifier in a weight at a level, and 0 for one that has none, where so many stand before it in its weight. It
    /// takes no memory.
    pub(crate) fn known_rank(&mut self, id: &'a Id, level: usize, before: usize) -> u32
        ensures rank { result ≡ known_rank self.old id.now }
        ensures same { self.new ≡ self.old }
    {
        let slot = slot_of(level, before);
        if let Some(rank) = self.recent(id, slot) {
            return rank;
        }
        let rank = match self.following(id, slot) {
            Some(rank) => rank,
            None => self.table.known_rank(id),
        };
        self.keep(id, rank, slot);
        rank
    }

    // The rank of an identifier, if it is kept as that of the entry, or in a slot.
    fn recent(&self, id: &Id, slot: usize) -> Option<u32>
        ensures { IfSome result (λ rank. rank ≡ known_rank self.now id.now) }
    {
        if let Some(rank) = recent_rank(self.owner, id) {
            return Some(rank);
        }
        match self.last.get(slot) {
            Some(kept) => recent_rank(*kept, id),
            None => None,
        }
    }

    // The rank of an identifier, if its entry was begun, and stands directly behind the one whose rank is kept in a slot.
    fn following(&self, id: &Id, slot: usize) -> Option<u32>
        ensures { IfSome result (λ rank. rank ≡ known_rank self.now id.now) }
    {
        let before = rank_kept(&self.last[..], slot)?;
        rank_behind(&self.entries, before, id)
    }

    // Keeps a rank in a slot.
    fn keep(&mut self, id: &'a Id, rank: u32, slot: usize)
        requires { rank ≡ known_rank self.old id.now }
        ensures { self.new ≡ self.old }
    {
        keep_at(&mut self.last[..], RecentRank { id, rank }, slot);
    }
}

// The slot of an identifier in a weight at a level, where so many stand before it. Any answer is right.
fn slot_of(level: usize, before: usize) -> usize {
    if before == 0 {
        level
    } else {
        level.saturating_add(LEVELS)
    }
}

// Puts the identifier of an entry behind those of the entries before it, if all of these are there.
fn push_next<'a>(entries: &mut Vec<&'a Id>, id: &'a Id, rank: u32) -> Result<(), AllocError>
    ensures { (table : Collation) → rank ≡ known_rank table id.now → AreFirst table entries.old.items → AreFirst table entries.new.items }
{
    if rank as usize != entries.len() + 1 {
        return Ok(());
    }
    entries.push(id)?;
    Ok(())
}

// The rank that is kept in a slot, if one is. It is a guess at where to look, so any answer is right.
fn rank_kept(last: &[Option<RecentRank<'_>>], slot: usize) -> Option<u32> {
    match last.get(slot) {
        Some(Some(kept)) => Some(kept.rank),
        _ => None,
    }
}

// The rank of an identifier, if it is that of the entry behind so many others.
fn rank_behind(entries: &[&Id], before: u32, id: &Id) -> Option<u32>
    ensures { IfSome result (λ rank. (table : Collation) → AreFirst table entries.now → rank ≡ known_rank table id.now) }
{
    let entry = *entries.get(before as usize)?;
    if entry.is_same(id) {
        before.checked_add(1)
    } else {
        None
    }
}

// Keeps a rank in a slot, if it is one of these.
fn keep_at<'a>(last: &mut [Option<RecentRank<'a>>], kept: RecentRank<'a>, slot: usize)
    ensures { (table : Collation) → IsRecent table (Some kept.entry) → All (IsRecent table) last.old → All (IsRecent table) last.new }
{
    if slot >= last.len() {
        return;
    }
    last[slot] = Some(kept);
}

// The rank that is kept, if it is that of an identifier.
fn recent_rank(kept: Option<RecentRank<'_>>, id: &Id) -> Option<u32>
    ensures { IfSome result (λ rank. (table : Collation) → IsRecent table kept.entry → rank ≡ known_rank table id.now) }
{
    let recent = kept?;
    if recent.id.is_same(id) {
        return Some(recent.rank);
    }
    None
}
