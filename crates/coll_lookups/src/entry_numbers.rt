//! A number for each node that is an entry: its place.
//!
//! An `EntryNumbers` tells the number of a node by one look into a list, and knows nothing of a table. Whoever has one walks along
//! the entries and gives each its number; it is kept beside a table. Where one entry goes to another place, the numbers of all
//! between change by one, and none of them is written: the move is kept, and a number is told behind the moves that came after it
//! was given. So a change of a few entries costs no pass over all. Only so many moves are kept; behind these all numbers are to be
//! given anew: those of nodes that stand are written over, nothing is written to the others, whose number, if one is told, nobody
//! goes by, and memory is taken only for nodes that it has no room for yet (`specs/EntryNumbers.antt`). How numbers are kept may
//! change.

ghost use Rattle.std.specs.Prelude.{◌≡◌, ◌<◌, ◌≤◌, ◌+◌, [], ℕ, length, true, false, if◌then◌else◌, slice_index_or, vec_len, OnOk};
ghost use Rattle.coll_order.specs.Lists.{same_node};
ghost use Rattle.coll_order.specs.declared.places.NodeId.{NodeId};
ghost use Rattle.coll_lookups.specs.EntryNumbers.{behind_moves, blank, lowered, moved, number_at, number_of, raised};

use arrayvec::ArrayVec;
use coll_order::NodeId;
use std::alloc::{AllocError, Global};
use std::marker::Model;

// By how many places the list of numbers grows.
const PLACES_AT_ONCE: usize = 64;

// How many moves are kept: telling a number goes by them, and giving all anew costs as much as telling some ten thousand.
const MOST_MOVES: usize = 128;

// A number as it was given, and how many moves there had been by then since ever.
#[derive(Clone, Copy)]
struct Slot {
    number: u32,
    had: u32,
}

// One place that was left, and another that was then taken.
#[derive(Clone, Copy, Default)]
struct Move {
    from: u32,
    to: u32,
}

/// A number for each node that is an entry: the place of the entry, from 1.
#[derive(Drop)]
pub struct EntryNumbers {
    slots: Vec<Slot>,
    moves: ArrayVec<Move, MOST_MOVES>,
    // How many moves there were before those that are kept. A slot that was written before as many is stale.
    before: u32,
}

impl Model for EntryNumbers {
    ghost use Rattle.std.specs.Prelude.{List, ℕ};
    ghost use Rattle.coll_lookups.specs.EntryNumbers.{AreCounted, numbers_of};

    ghost Value = { List ℕ };

    ghost view = { λ n. numbers_of n.before n.moves.items n.slots.items };

    ghost invariant = { λ n. AreCounted n.before n.moves.items n.slots.items };
}

impl EntryNumbers {
    /// No numbers. It takes no memory.
    pub fn new(alloc: Global) -> EntryNumbers
        ensures { result ≡ [] }
    {
        EntryNumbers {
            slots: Vec::new(alloc),
            moves: ArrayVec::new(),
            before: 0,
        }
    }

    /// The number that is kept for a node, behind the moves since it was given; 0 where none was given since all were begun anew. A slot
    /// knows no node: of one that was dropped, and of one that was made in its slot, it is the number that was given last. It takes no
    /// memory.
    pub fn get(&self, node: NodeId) -> u32
        ensures { result ≡ number_at self.now node }
    {
        match self.slots.get(node.number()) {
            Some(slot) => number_in(self.moves.as_slice(), self.before, *slot),
            None => 0,
        }
    }

    /// Gives a node a number, any that fits, and leaves those of other nodes. It takes memory, eight bytes for each slot of a
    /// store of nodes, where the node's slot is behind all that there is room for. Where memory is refused, nothing is said of
    /// the numbers.
    pub fn set(&mut self, node: NodeId, number: u32) -> Result<(), AllocError>
        ensures { OnOk result ((other : NodeId)
            → number_at self.new other ≡ (if same_node other node then number else number_at self.old other)) }
    {
        let place = node.number();
        let had = self.before + self.moves.len() as u32;
        make_room(&mut self.slots, place, had)?;
        self.slots[place] = Slot { number, had };
        Ok(())
    }

    /// Has the numbers follow an entry that leaves one place and then takes another: each number above the first is one less, then
    /// each from the second on is one more, and the entry's node has the second. A place behind all that are told is left, or
    /// taken, by nobody. It takes no memory, and answers `false`, and changes nothing, where there is no room for one move more, where
    /// there were as many since ever as can be counted, or where the node's slot is behind all that there is room for.
    pub fn follow(&mut self, node: NodeId, from: u32, to: u32) -> bool
        requires { 1 ≤ to }
        ensures followed { result ≡ true → (other : NodeId)
            → number_at self.new other ≡ (if same_node other node then to else moved from to (number_at self.old other)) }
        ensures unchanged { result ≡ false → self.new ≡ self.old }
    {
        let place = node.number();
        if place >= self.slots.len() || self.moves.is_full() {
            return false;
        }
        let Some(had) = self.before.checked_add(self.moves.len() as u32 + 1) else {
            return false;
        };
        self.moves.push(Move { from, to });
        self.slots[place] = Slot { number: to, had };
        true
    }

    /// How many moves are kept, by which each number is told: it is seen in time alone, and no clause says it.
    pub fn moves(&self) -> usize {
        self.moves.len()
    }

    /// Whether so many moves more can be kept: it is seen in time alone, and no clause says it.
    pub fn has_room(&self, further: usize) -> bool {
        further <= MOST_MOVES.saturating_sub(self.moves.len())
    }

    /// Makes room for moves, before all numbers are given anew: nothing is known of them until then. It writes no number, takes no
    /// memory, and lets none go.
    pub fn begin_anew(&mut self) {
        self.before += self.moves.len() as u32;
        self.moves.clear();
    }
}

// The number of a slot, where so many moves were before those that are kept.
fn number_in(moves: &[Move], before: u32, slot: Slot) -> u32
    requires { slot.had ≤ before + length moves.now }
    ensures { result ≡ number_of before moves.now slot }
{
    if slot.had < before {
        return 0;
    }
    number_behind(&moves[(slot.had - before) as usize..], slot.number)
}

// A number behind some moves.
fn number_behind(moves: &[Move], number: u32) -> u32
    ensures { result ≡ behind_moves moves.now number }
{
    let mut told = number;
    'moves: for kept in moves {
        told = place_taken(kept.to, place_left(kept.from, told));
    }
    told
}

// A number where a place is left.
fn place_left(from: u32, number: u32) -> u32
    ensures { result ≡ lowered from number }
{
    if from < number { number - 1 } else { number }
}

// A number where a place is taken.
fn place_taken(to: u32, number: u32) -> u32
    ensures { result ≡ raised to number }
{
    if to <= number {
        number.saturating_add(1)
    } else {
        number
    }
}

// Makes a list so long that it has this place, and some more, so that the next ones are mostly there. What is new in it is 0, and has
// had so many moves.
fn make_room(slots: &mut Vec<Slot>, place: usize, had: u32) -> Result<(), AllocError>
    ensures within { OnOk result (place < vec_len slots.new) }
    ensures same { (other : ℕ) → slice_index_or slots.new.items other (blank had) ≡ slice_index_or slots.old.items other (blank had) }
{
    if place < slots.len() {
        return Ok(());
    }
    let Some(wanted) = place.checked_add(PLACES_AT_ONCE) else {
        return Err(AllocError);
    };
    slots.resize(wanted, Slot { number: 0, had })?;
    Ok(())
}
