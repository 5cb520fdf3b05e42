//! Lists of ranks, one behind another.
//!
//! All ranks stand in one list, and a second list has where each ends. So what is looked up is one piece of a list.

ghost use Rattle.std.specs.Prelude.{◌≡◌, ◌<◌, ◌≤◌, ◌-◌, ◌++◌, ◌∷◌, [], length, take, drop, map, IfOk, OnOk, OnErr, slice_index_or};
ghost use Rattle.coll_elements.specs.Rank.{known_rank};
ghost use Rattle.coll_ranks.specs.Ranks.{compiled_by};
ghost use Rattle.coll_ranks.specs.RankLists.{IsLonger};

use crate::recent_ranks::RecentRanks;
use coll_syntax::{Id, Weight};
use std::alloc::{AllocError, Global};
use std::marker::Model;

/// Lists of ranks, one behind another.
#[derive(Drop)]
pub(crate) struct RankLists {
    ranks: Vec<u32>,
    // Where each list ends, which is where the next one begins.
    ends: Vec<usize>,
}

impl Model for RankLists {
    ghost use Rattle.std.specs.Prelude.{List, ℕ};
    ghost use Rattle.coll_ranks.specs.RankLists.{lists_from, AreEnds};

    ghost Value = { List (List ℕ) };

    ghost view = { λ l. lists_from 0 l.ranks.items l.ends.items };

    ghost invariant = { λ l. AreEnds 0 l.ranks.items l.ends.items };
}

impl RankLists {
    /// No lists. It takes no memory.
    pub(crate) fn new(alloc: Global) -> RankLists
        ensures { result ≡ [] }
    {
        RankLists {
            ranks: Vec::new(alloc),
            ends: Vec::new(alloc),
        }
    }

    /// How many lists there are.
    pub(crate) fn len(&self) -> usize
        ensures { result ≡ length self.now }
    {
        self.ends.len()
    }

    /// The list at a place; where there is none it is empty.
    #[inline(always)]
    pub(crate) fn list(&self, place: usize) -> &[u32]
        ensures { result.now ≡ slice_index_or self.now place [] }
    {
        match self.ends.get(place) {
            Some(end) => piece(&self.ranks, start(&self.ends, place), *end),
            None => &[],
        }
    }

    /// Puts the ranks of a weight at a level behind all others.
    pub(crate) fn push<'a>(
        &mut self,
        recent: &mut RecentRanks<'a>,
        owner: &'a Id,
        weight: &'a Weight,
        level: usize,
    ) -> Result<(), AllocError>
        ensures ok { OnOk result (self.new ≡ self.old ++ compiled_by (known_rank recent.old) owner.now weight.now ∷ []) }
        ensures err { OnErr result (self.new ≡ self.old) }
        ensures same { recent.new ≡ recent.old }
    {
        self.ends.reserve(1)?;
        let whole = self.ranks.len();
        match push_weight(&mut self.ranks, recent, owner, weight, level) {
            Ok(()) => {
                self.ends.push_reserved(self.ranks.len());
                Ok(())
            }
            Err(error) => {
                self.ranks.truncate(whole);
                Err(error)
            }
        }
    }
}

// The piece of a list between two places.
fn piece(ranks: &[u32], start: usize, end: usize) -> &[u32]
    requires order { start ≤ end }
    requires within { end ≤ length ranks.now }
    ensures { result.now ≡ take (end - start) (drop start ranks.now) }
{
    let (_, behind) = ranks.split_at(start);
    let (whole, _) = behind.split_at(end - start);
    whole
}

// Where the list at a place begins: where the one before it ends.
fn start(ends: &[usize], place: usize) -> usize
    requires { place < length ends.now }
    ensures { result ≡ slice_index_or (0 ∷ ends.now) place 0 }
{
    if place == 0 { 0 } else { ends[place - 1] }
}

// Puts the ranks of a weight at a level behind others.
fn push_weight<'a>(
    ranks: &mut Vec<u32>,
    recent: &mut RecentRanks<'a>,
    owner: &'a Id,
    weight: &'a Weight,
    level: usize,
) -> Result<(), AllocError>
    ensures ok { OnOk result (ranks.new.items ≡ ranks.old.items ++ compiled_by (known_rank recent.old) owner.now weight.now) }
    ensures err { OnErr result (IsLonger ranks.old.items ranks.new.items) }
    ensures same { recent.new ≡ recent.old }
{
    match weight {
        Weight::Ignore => Ok(()),
        Weight::Own => push_rank(ranks, recent, owner, level, 0),
        Weight::Names(named) => push_named(ranks, recent, named.get(), level),
    }
}

// Puts the ranks of the identifiers of a weight at a level behind others.
fn push_named<'a>(
    ranks: &mut Vec<u32>,
    recent: &mut RecentRanks<'a>,
    named: &'a [Id],
    level: usize,
) -> Result<(), AllocError>
    ensures ok { OnOk result (ranks.new.items ≡ ranks.old.items ++ map (known_rank recent.old) named.now) }
    ensures err { OnErr result (IsLonger ranks.old.items ranks.new.items) }
    ensures same { recent.new ≡ recent.old }
{
    let mut before = 0usize;
    for id in named {
        // Not `?`: behind its conversion this exit would need a lemma.
        if let Err(error) = push_rank(ranks, recent, id, level, before) {
            return Err(error);
        }
        before = before.saturating_add(1);
    }
    Ok(())
}

// Puts the rank of an identifier in a weight at a level behind others, where so many stand before it in the weight.
fn push_rank<'a>(
    ranks: &mut Vec<u32>,
    recent: &mut RecentRanks<'a>,
    id: &'a Id,
    level: usize,
    before: usize,
) -> Result<(), AllocError>
    ensures ok { OnOk result (ranks.new.items ≡ ranks.old.items ++ known_rank recent.old id.now ∷ []) }
    ensures err { OnErr result (IsLonger ranks.old.items ranks.new.items) }
    ensures same { recent.new ≡ recent.old }
{
    ranks.push(recent.known_rank(id, level, before))?;
    Ok(())
}
