//! Nodes by character, found by code point.
//!
//! A `CharNodes` says which node a character leads to. A character that leads to none may stay as a key. Each range of 128 code
//! points with a key has a page of slots (`char_pages`), 2 KB, whatever the keys are: at most 17.8 MB, where each range has one.

ghost use Rattle.std.specs.Prelude.{◌≡◌, ◌<◌, ◌≤◌, ◌+◌, ◌%◌, [], ℕ, true, Some, length, slice_index_or, vec_len, IfOk, OnOk, OnErr};
ghost use Rattle.coll_lookups.specs.CharPages.{place_of, ArePages, SameSlots};
ghost use Rattle.coll_lookups.specs.declared.char_nodes.CharSlot.TheVariants.{Free};
ghost use Rattle.coll_lookups.specs.CharNodes.{key_slot, slot_node};

use crate::char_pages::{make_place, place_of};
use coll_order::NodeId;
use std::alloc::{AllocError, Global};
use std::marker::Model;

// What is kept of a character: it is no key, or a key that leads to no node, or to this one.
#[derive(Clone, Copy)]
enum CharSlot {
    Free,
    Kept,
    Led(NodeId),
}

/// Nodes by character. A character that came in stays as a key.
#[derive(Drop)]
pub(crate) struct CharNodes {
    // The number of the page of each range of code points, from 1; 0 for none. Behind the last range that has one there may be none.
    pages: Vec<u16>,
    slots: Vec<CharSlot>,
}

impl Model for CharNodes {
    ghost use Rattle.std.specs.Prelude.{List, ℕ, length};
    ghost use Rattle.coll_lookups.specs.NodeLookUps.{Leading};
    ghost use Rattle.coll_lookups.specs.CharPages.{ArePages};
    ghost use Rattle.coll_lookups.specs.CharNodes.{chars_at};

    ghost Value = { List (Leading ℕ) };

    ghost view = { λ n. chars_at n.pages.items n.slots.items };

    ghost invariant = { λ n. ArePages n.pages.items (length n.slots.items) };
}

impl CharNodes {
    ghost use Rattle.coll_lookups.specs.NodeLookUps.{node_of_char, is_char_key};
    ghost use Rattle.coll_lookups.specs.CharNodes.{SetsChar, AddsCharKey, KeepCharKeys};

    /// No characters. It takes no memory.
    #[tactic(auto, using(crate::proofs::CharPages::no_pages), unfolding(crate::specs::CharNodes::chars_below))]
    pub(crate) fn new(alloc: Global) -> CharNodes
        ensures { result ≡ [] }
    {
        CharNodes {
            pages: Vec::new(alloc),
            slots: Vec::new(alloc),
        }
    }

    /// The node that a character leads to, if it does. It takes no memory.
    pub(crate) fn find(&self, c: char) -> Option<NodeId>
        ensures { result ≡ node_of_char self.now c }
    {
        match place_of(&self.pages, c) {
            Some(place) => node_of(self.slots[place]),
            None => None,
        }
    }

    /// Makes a character a key, and lead to a node, or to none. Answers the node that it led to. Where memory is refused, nothing
    /// has changed.
    pub(crate) fn put(
        &mut self,
        c: char,
        node: Option<NodeId>,
    ) -> Result<Option<NodeId>, AllocError>
        ensures ok { OnOk result (SetsChar self.old self.new c node) }
        ensures keys { OnOk result (AddsCharKey self.old self.new c) }
        ensures led { IfOk result (λ led. led ≡ node_of_char self.old c) }
        ensures err { OnErr result (self.new ≡ self.old) }
    {
        let place = make_place(&mut self.pages, &mut self.slots, c, CharSlot::Free)?;
        let led = node_of(self.slots[place]);
        self.slots[place] = slot_of_key(node);
        Ok(led)
    }

    /// Makes a character that is a key lead to a node, or to none. It takes no memory.
    pub(crate) fn set(&mut self, c: char, node: Option<NodeId>)
        requires { is_char_key self.old c ≡ true }
        ensures set { SetsChar self.old self.new c node }
        ensures keys { KeepCharKeys self.old self.new }
    {
        let Some(place) = place_of(&self.pages, c) else {
            unreachable!();
        };
        self.slots[place] = slot_of_key(node);
    }

    /// A copy, with memory of its own.
    pub(crate) fn try_copy(&self, alloc: Global) -> Result<CharNodes, AllocError>
        ensures { IfOk result (λ copy. copy ≡ self.now) }
    {
        let pages = self.pages.as_slice().to_vec(alloc)?;
        let slots = self.slots.as_slice().to_vec(alloc)?;
        Ok(CharNodes { pages, slots })
    }
}

// The node that a slot leads to.
fn node_of(slot: CharSlot) -> Option<NodeId>
    ensures { result ≡ slot_node slot }
{
    match slot {
        CharSlot::Led(node) => Some(node),
        _ => None,
    }
}

// The slot of a key that leads to a node, or to none.
fn slot_of_key(node: Option<NodeId>) -> CharSlot
    ensures { result ≡ key_slot node }
{
    match node {
        Some(node) => CharSlot::Led(node),
        None => CharSlot::Kept,
    }
}
