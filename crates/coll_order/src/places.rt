//! The names of rings and nodes, and the places where a node may stand.
//!
//! They are plain numbers, copied freely. Only the store that handed a name out can say what it stands for: each call
//! asks, in its `requires`, that the name is one of its own. A new kind of place is a new case of `Place`, of
//! `specs/Lists.antt`, `specs/Layout.antt` and `specs/Store.antt`, and of `Store::next`, `Store::set_next` and `Store::ring`.

ghost use Rattle.std.specs.Prelude.{◌≡◌};

/// The name of a ring. It stays valid as long as its store.
#[derive(Clone, Copy, Debug, PartialEq, Eq)]
pub struct RingId {
    /// The ring's number, from 0 in the order in which the rings were made.
    pub(crate) index: usize,
}

/// The name of a node. It stays valid until the node is dropped; a later node may then get the same name.
#[derive(Clone, Copy, Debug, PartialEq, Eq)]
pub struct NodeId {
    /// The node's key in the slab.
    pub(crate) key: usize,
}

impl NodeId {
    /// A number for what is kept of nodes beside their store: no other node has it as long as this one is there.
    pub fn number(self) -> usize
        ensures { result ≡ self.key }
    {
        self.key
    }
}

/// What stands directly before a node.
#[derive(Clone, Copy, Debug, PartialEq, Eq)]
pub enum Place {
    /// The node is the first of this ring.
    Head(RingId),
    /// The node stands directly after this one.
    After(NodeId),
}
