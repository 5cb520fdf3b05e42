//! The nodes with their neighbours, and the head and the last place of each ring.
//!
//! A node knows the place before it, the node after it and its ring; a head is the first node of a ring. A node without a place
//! before it is loose. The calls here write the links of one place or node, the ring of a node or the end of a ring, and say what
//! changes and that nothing else does (`specs/Store.antt`); that the links together are lists is the business of `Rings`. Whoever
//! adds a field to `Node` has to say in each of these contracts that it stays.

ghost use Rattle.std.specs.Prelude.{◌≡◌, ◌∷◌, [], ◌++◌, ◌<◌, length, nat_lt, Some, None, IfOk, OnOk, OnErr};
ghost use Rattle.coll_order.specs.Store.{slot_at, next_at, ring_of, last_at, IsStored, IsStoredIfAny, HasPlace, SetsNext};
ghost use Rattle.coll_order.specs.Store.{SetsBefore, Joins, Detaches, SetsRing, MovesEnd, Inserts, Removes};
ghost use Rattle.coll_order.specs.declared.places.Place.TheVariants.{Head};

use crate::places::{NodeId, Place, RingId};
use slab::Slab;
use std::alloc::{AllocError, Global};

/// A node: its tag, its ring and its two neighbours.
pub(crate) struct Node {
    pub(crate) tag: usize,
    /// The ring in which the node stands. Of a loose node it says nothing.
    pub(crate) ring: RingId,
    /// What stands directly before the node. A loose node has none.
    pub(crate) before: Option<Place>,
    /// The node directly after it, if there is one. A loose node has none.
    pub(crate) after: Option<NodeId>,
}

impl Copy for Node {}

impl Clone for Node {
    ghost is_clone = { λ node copy. copy ≡ node };

    fn clone(&self) -> Result<Node, AllocError> {
        Ok(*self)
    }
}

/// The nodes by their names, and for each ring its first node and the place behind its last.
#[derive(Drop)]
pub(crate) struct Store {
    pub(crate) nodes: Slab<Node>,
    pub(crate) heads: Vec<Option<NodeId>>,
    pub(crate) lasts: Vec<Place>,
}

impl Store {
    ghost use Rattle.coll_order.specs.Stored.{links_of};

    /// A store of no nodes and no rings. It takes no memory.
    pub(crate) fn new(alloc: Global) -> Store
        ensures { links_of result ≡ record { heads = []; lasts = []; slots = [] } }
    {
        Store {
            nodes: Slab::new(alloc),
            heads: Vec::new(alloc),
            lasts: Vec::new(alloc),
        }
    }

    /// A copy of the nodes, the heads and the last places, under the same names.
    pub(crate) fn try_copy(&self, alloc: Global) -> Result<Store, AllocError>
        ensures { IfOk result (λ copy. links_of copy ≡ links_of self.now) }
    {
        let nodes = self.nodes.clone()?;
        let heads = self.heads.as_slice().to_vec(alloc)?;
        let lasts = self.lasts.as_slice().to_vec(alloc)?;
        Ok(Store {
            nodes,
            heads,
            lasts,
        })
    }

    /// Makes a ring of no nodes.
    pub(crate) fn add_ring(&mut self) -> Result<RingId, AllocError>
        ensures ring { IfOk result (λ ring. ring.index ≡ length self.old.heads.items) }
        ensures ok { OnOk result (links_of self.new ≡ record (links_of self.old) {
          heads = self.old.heads.items ++ None ∷ [];
          lasts = self.old.lasts.items ++ Head (record { index = length self.old.heads.items }) ∷ [];
        }) }
        ensures err { OnErr result (links_of self.new ≡ links_of self.old) }
    {
        let ring = RingId {
            index: self.heads.len(),
        };
        self.heads.reserve(1)?;
        self.lasts.push(Place::Head(ring))?;
        self.heads.push_reserved(None);
        Ok(ring)
    }

    /// Puts a node under a name that is free.
    pub(crate) fn insert(&mut self, node: Node) -> Result<NodeId, AllocError>
        ensures ok { IfOk result (λ name. Inserts (links_of self.old) (links_of self.new) name node) }
        ensures err { OnErr result (links_of self.new ≡ links_of self.old) }
    {
        match self.nodes.insert(node) {
            Ok(key) => Ok(NodeId { key }),
            Err(_) => Err(AllocError),
        }
    }

    /// Gives up a node.
    pub(crate) fn remove(&mut self, node: NodeId)
        requires { IsStored (links_of self.old) node }
        ensures { Removes (links_of self.old) (links_of self.new) node }
    {
        self.nodes.remove(node.key);
    }

    /// Whether a ring is there.
    pub(crate) fn has_ring(&self, ring: RingId) -> bool
        ensures { result ≡ nat_lt ring.index (length self.now.heads.items) }
    {
        ring.index < self.heads.len()
    }

    /// The node of this name, if there is one.
    pub(crate) fn find(&self, node: NodeId) -> Option<Node>
        ensures { result ≡ slot_at (links_of self.now) node }
    {
        self.nodes.get(node.key).copied()
    }

    /// The node of this name.
    pub(crate) fn node(&self, node: NodeId) -> Node
        requires { IsStored (links_of self.now) node }
        ensures { slot_at (links_of self.now) node ≡ Some result }
    {
        self.nodes[node.key]
    }

    /// The node directly after a place.
    pub(crate) fn next(&self, place: Place) -> Option<NodeId>
        requires { HasPlace (links_of self.now) place }
        ensures { result ≡ next_at (links_of self.now) place }
    {
        match place {
            Place::Head(ring) => self.heads[ring.index],
            Place::After(node) => self.nodes[node.key].after,
        }
    }

    /// The ring of a place.
    pub(crate) fn ring(&self, place: Place) -> RingId
        requires { HasPlace (links_of self.now) place }
        ensures { ring_of (links_of self.now) place ≡ Some result }
    {
        match place {
            Place::Head(ring) => ring,
            Place::After(node) => self.nodes[node.key].ring,
        }
    }

    /// The place behind the last node of a ring.
    pub(crate) fn last(&self, ring: RingId) -> Place
        requires { ring.index < length self.now.lasts.items }
        ensures { result ≡ last_at (links_of self.now) ring }
    {
        self.lasts[ring.index]
    }

    /// Makes a node stand directly after a place, or none.
    pub(crate) fn join(&mut self, place: Place, after: Option<NodeId>)
        requires place { HasPlace (links_of self.old) place }
        requires after { IsStoredIfAny (links_of self.old) after }
        ensures { Joins (links_of self.old) (links_of self.new) place after }
    {
        self.set_next(place, after);
        if let Some(node) = after {
            self.set_before(node, Some(place));
        }
    }

    /// Takes a node's neighbours away.
    pub(crate) fn detach(&mut self, node: NodeId)
        requires { IsStored (links_of self.old) node }
        ensures { Detaches (links_of self.old) (links_of self.new) node }
    {
        self.set_next(Place::After(node), None);
        self.set_before(node, None);
    }

    /// Writes the ring of a node.
    pub(crate) fn set_ring(&mut self, node: NodeId, ring: RingId)
        requires { IsStored (links_of self.old) node }
        ensures { SetsRing (links_of self.old) (links_of self.new) node ring }
    {
        self.nodes[node.key].ring = ring;
    }

    /// Writes where a ring ends that ended at a place. One that ended elsewhere still does.
    pub(crate) fn move_end(&mut self, ring: RingId, from: Place, to: Place)
        requires { ring.index < length self.old.lasts.items }
        ensures { MovesEnd (links_of self.old) (links_of self.new) ring from to }
    {
        if self.lasts[ring.index] == from {
            self.lasts[ring.index] = to;
        }
    }

    // Writes which node stands directly after a place.
    fn set_next(&mut self, place: Place, after: Option<NodeId>)
        requires { HasPlace (links_of self.old) place }
        ensures { SetsNext (links_of self.old) (links_of self.new) place after }
    {
        match place {
            Place::Head(ring) => self.heads[ring.index] = after,
            Place::After(node) => self.nodes[node.key].after = after,
        }
    }

    // Writes what stands directly before a node.
    fn set_before(&mut self, node: NodeId, before: Option<Place>)
        requires { IsStored (links_of self.old) node }
        ensures { SetsBefore (links_of self.old) (links_of self.new) node before }
    {
        self.nodes[node.key].before = before;
    }
}
