//! Ordered rings: lists of nodes in which a node is taken out and put in at its neighbours.
//!
//! A store, `Rings`, has any number of rings, and nodes that each carry a tag. A node stands in one ring, directly after
//! a `Place`, or is loose. `unlink` answers the place and takes the node out, and `link` puts it back there, so that a
//! change of order is taken back by its neighbours alone, whatever the size of the rings.
//!
//! What a call does is said in the words of lists (`specs/Lists.antt`, `specs/Layout.antt`, `specs/Changes.antt`); how the
//! nodes hold the lists, and how it is known where each ends, is told in `store.rt` and `specs/Laid.antt`, and the laws that
//! callers build on stand in `laws.rt`.
#![tactic(auto)]

mod laws;
mod places;
mod rings;
mod store;

pub use laws::{link_takes_back_unlink, unlink_takes_back_link};
pub use places::{NodeId, Place, RingId};
pub use rings::Rings;
