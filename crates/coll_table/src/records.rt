//! Records: what undoes a statement that a table accepted, and does it again.
//!
//! A record is plain data, one item for each node that the statement moved, put in, or gave other weights; it names nodes and
//! places, and never keeps an entry's surroundings. When a record fits a table, and what turning makes of it, is said in
//! `specs/Record.antt` over the items of `specs/Turning.antt`. A new statement that changes something else of a table than its
//! rings and weights is a new field of an item.

use coll_lex::ListBuf;
use coll_order::{NodeId, Place};
use coll_syntax::Weight;

/// What a statement did with one node of a table.
#[derive(Drop)]
pub struct Item {
    /// The node: an entry, a section or a declaration.
    pub node: NodeId,
    /// What stood directly before the node, when this item's turn came; none where the statement put the node in.
    pub old: Option<Place>,
    /// What the statement put the node directly after; none where it stays where it is.
    pub new: Option<Place>,
    /// The weights that the next turn gives the node's entry, in exchange for those that it has; none where they stay.
    pub weights: Option<ListBuf<Weight>>,
}

/// What undoes a statement, or does it again.
#[derive(Drop)]
pub struct Record {
    /// Whether the statement is undone.
    pub undone: bool,
    /// What it did, in order: for a block one item for each line, for every other statement one.
    pub items: ListBuf<Item>,
}
