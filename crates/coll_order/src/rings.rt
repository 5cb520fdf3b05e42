//! The store of rings, as callers see it.
//!
//! Contracts see a `Rings` as `RingStore` of `specs/Layout.antt`: its layout, and the number of ring steps taken. The
//! layout is read from the links by walking from each head, and the invariant says that the links lead through just
//! these lists, and that the ring of each node and the last place of each ring are stored (`specs/Laid.antt`). So a call
//! writes the few links that it changes, and its proof says which lists they then hold. A new call has to leave links that
//! hold lists, and the ring of each node and the end of each ring stored, and to count a step only if it moves a node.

ghost use Rattle.std.specs.Prelude.{◌≡◌, ◌↔◌, IsTrue, true, None, Some, IfOk, OnOk, OnErr};
ghost use Rattle.coll_order.specs.Changes.{empty_store, with_ring, next_ring, with_node, without_node, unlinked, linked, one_step_more};
ghost use Rattle.coll_order.specs.Layout.{first_of, end_of_ring, next_of, nodes_of, place_of, tag_of, IsLinked, IsLoose, IsNode, IsPlace, IsRing};
ghost use Rattle.coll_order.specs.Lists.{has_node};
ghost use Rattle.coll_order.specs.Sound.{IsSound};

use crate::places::{NodeId, Place, RingId};
use crate::store::{Node, Store};
use std::alloc::{AllocError, Global};
use std::marker::Model;

/// A store of rings: lists of nodes, in which a node is taken out and put in at its neighbours.
///
/// A node carries a tag, and is linked, standing in one ring, or loose. Only `new_ring`, `new_node` and `try_copy`
/// take memory; where it is refused, they answer `AllocError`, and nothing has changed.
#[derive(Drop)]
pub struct Rings {
    store: Store,
    // The ring steps taken, modulo 2 to the power 64.
    steps: u64,
}

impl Model for Rings {
    ghost use Rattle.coll_order.specs.Layout.{RingStore, ring_store_code};

    ghost Value = { RingStore };

    ghost coded = { ring_store_code };

    ghost use Rattle.coll_order.specs.Laid.{layout_at, IsKept};
    ghost use Rattle.coll_order.specs.Stored.{links_of};

    ghost view = { λ r. record { layout = layout_at (links_of r.store); steps = r.steps } };

    ghost invariant = { λ r. IsKept (links_of r.store) };
}

impl Rings {
    /// A store of no rings and no nodes, with no step taken. It takes no memory.
    pub fn new(alloc: Global) -> Rings
        ensures { result ≡ empty_store }
    {
        Rings {
            store: Store::new(alloc),
            steps: 0,
        }
    }

    /// Makes a ring of no nodes, after the rings that are there. A refusal changes nothing.
    pub fn new_ring(&mut self) -> Result<RingId, AllocError>
        ensures ring { IfOk result (λ ring. ring ≡ next_ring self.old.layout) }
        ensures ok { OnOk result (self.new ≡ record self.old { layout = with_ring self.old.layout }) }
        ensures err { OnErr result (self.new ≡ self.old) }
    {
        let ring = self.store.add_ring()?;
        Ok(ring)
    }

    /// Makes a loose node with a tag, under a name that no node has. A refusal changes nothing.
    pub fn new_node(&mut self, tag: usize) -> Result<NodeId, AllocError>
        ensures fresh { IfOk result (λ node. tag_of self.old.layout node ≡ None) }
        ensures ok { IfOk result (λ node. self.new ≡ record self.old { layout = with_node self.old.layout node tag }) }
        ensures loose { IfOk result (λ node. IsLoose self.new.layout node) }
        ensures err { OnErr result (self.new ≡ self.old) }
    {
        let node = self.store.insert(Node {
            tag,
            ring: RingId { index: 0 },
            before: None,
            after: None,
        })?;
        Ok(node)
    }

    /// Takes a linked node out of its ring, and answers what stood directly before it. The node is loose then.
    pub fn unlink(&mut self, node: NodeId) -> Place
        requires linked { IsLinked self.old.layout node }
        ensures place { place_of self.old.layout node ≡ Some result }
        ensures layout { self.new.layout ≡ unlinked self.old.layout node }
        ensures loose { IsLoose self.new.layout node }
        ensures back { IsPlace self.new.layout result }
        ensures steps { self.new.steps ≡ one_step_more self.old.steps }
    {
        let found = self.store.node(node);
        let Some(place) = found.before else {
            unreachable!();
        };
        self.store.join(place, found.after);
        self.store.detach(node);
        self.store.move_end(found.ring, Place::After(node), place);
        self.steps = self.steps.wrapping_add(1);
        place
    }

    /// Puts a loose node directly after a place: as the first of a ring, or after a linked node.
    pub fn link(&mut self, node: NodeId, place: Place)
        requires loose { IsLoose self.old.layout node }
        requires place { IsPlace self.old.layout place }
        ensures layout { self.new.layout ≡ linked self.old.layout node place }
        ensures linked { IsLinked self.new.layout node }
        ensures steps { self.new.steps ≡ one_step_more self.old.steps }
    {
        let ring = self.store.ring(place);
        let after = self.store.next(place);
        self.store.join(place, Some(node));
        self.store.join(Place::After(node), after);
        self.store.set_ring(node, ring);
        self.store.move_end(ring, place, Place::After(node));
        self.steps = self.steps.wrapping_add(1);
    }

    /// The first node of a ring, if it has one.
    pub fn first(&self, ring: RingId) -> Option<NodeId>
        requires ring { IsRing self.now.layout ring }
        ensures { result ≡ first_of self.now.layout ring }
    {
        self.store.next(Place::Head(ring))
    }

    /// The place behind the last node of a ring: after that node, or the head of a ring that has none.
    pub fn end(&self, ring: RingId) -> Place
        requires ring { IsRing self.now.layout ring }
        ensures end { result ≡ end_of_ring self.now.layout ring }
        ensures place { IsPlace self.now.layout result }
    {
        self.store.last(ring)
    }

    /// The node directly after a linked one in its ring, if it isn't the last.
    pub fn next(&self, node: NodeId) -> Option<NodeId>
        requires linked { IsLinked self.now.layout node }
        ensures { result ≡ next_of self.now.layout node }
    {
        self.store.next(Place::After(node))
    }

    /// What stands directly before a linked node.
    pub fn place(&self, node: NodeId) -> Place
        requires linked { IsLinked self.now.layout node }
        ensures place { place_of self.now.layout node ≡ Some result }
        ensures there { IsPlace self.now.layout result }
    {
        match self.store.node(node).before {
            Some(place) => place,
            None => unreachable!(),
        }
    }

    /// The ring in which a linked node stands.
    pub fn ring(&self, node: NodeId) -> RingId
        requires linked { IsLinked self.now.layout node }
        ensures { has_node (nodes_of self.now.layout result) node ≡ true }
    {
        self.store.node(node).ring
    }

    /// The tag of a node.
    pub fn tag(&self, node: NodeId) -> usize
        requires there { IsNode self.now.layout node }
        ensures { tag_of self.now.layout node ≡ Some result }
    {
        self.store.node(node).tag
    }

    /// Gives up a loose node, whose name a later node may get.
    pub fn drop_node(&mut self, node: NodeId)
        requires loose { IsLoose self.old.layout node }
        ensures { self.new ≡ record self.old { layout = without_node self.old.layout node } }
    {
        self.store.remove(node);
    }

    /// The number of ring steps taken, modulo 2 to the power 64: each `unlink` and each `link` is one.
    pub fn steps(&self) -> u64
        ensures { result ≡ self.now.steps }
    {
        self.steps
    }

    /// A copy with the same rings, nodes and tags under the same names, and the same count of steps.
    pub fn try_copy(&self, alloc: Global) -> Result<Rings, AllocError>
        ensures { IfOk result (λ copy. copy ≡ self.now) }
    {
        let store = self.store.try_copy(alloc)?;
        Ok(Rings {
            store,
            steps: self.steps,
        })
    }

    /// Whether a ring is one of this store.
    pub fn is_ring(&self, ring: RingId) -> bool
        ensures { IsTrue result ↔ IsRing self.now.layout ring }
    {
        self.store.has_ring(ring)
    }

    /// Whether a node stands in a ring of this store.
    pub fn is_linked(&self, node: NodeId) -> bool
        ensures { IsTrue result ↔ IsLinked self.now.layout node }
    {
        match self.store.find(node) {
            Some(found) => found.before.is_some(),
            None => false,
        }
    }

    /// Whether a node is one of this store, and stands in no ring.
    pub fn is_loose(&self, node: NodeId) -> bool
        ensures { IsTrue result ↔ IsLoose self.now.layout node }
    {
        match self.store.find(node) {
            Some(found) => found.before.is_none(),
            None => false,
        }
    }

    /// What holds of every layout: no node stands twice, and each that stands in a ring is there.
    ///
    /// It does nothing; its contract hands the fact to callers.
    pub fn lemma_layout(&self)
        ensures { IsSound self.now.layout }
    {
        let _ = &self.steps;
    }
}
