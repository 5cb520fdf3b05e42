//! What the nodes are that a walk visits.
//!
//! Each call here reads a node that is known to be of a kind: an entry, a section, a declaration.

ghost use Rattle.std.specs.Prelude.{◌≡◌, List, ℕ, Some, None, chars};
ghost use Rattle.coll_order.specs.declared.places.RingId.{RingId};
ghost use Rattle.coll_nodes.specs.TableLayout.{content_of};
ghost use Rattle.coll_nodes.specs.WalkItems.{declared_by};
ghost use Rattle.coll_nodes.specs.declared.contents.Content.TheVariants.{Begun, Placed, Declared};
ghost use Rattle.coll_nodes.specs.declared.declarations.Declaration.{Declaration};
ghost use Rattle.coll_nodes.specs.declared.entries.Entry.{Entry};

use crate::contents::Content;
use crate::nodes::Nodes;
use crate::{Declaration, DeclaredItem, Entry};
use coll_order::{NodeId, RingId};

/// The entry that a node is.
pub(crate) fn entry_of<'a>(nodes: &'a Nodes, node: NodeId) -> &'a Entry
    requires { (entry : Entry) × (content_of nodes.now.layout node ≡ Some (Placed entry)) }
    ensures { content_of nodes.now.layout node ≡ Some (Placed result.now) }
{
    match nodes.content(node) {
        Content::Placed(entry) => entry,
        _ => unreachable!(),
    }
}

/// The name and the ring of the section that a node is.
pub(crate) fn section_of<'a>(nodes: &'a Nodes, node: NodeId) -> (&'a str, RingId)
    requires { (name : List ℕ) × (ring : RingId) × (content_of nodes.now.layout node ≡ Some (Begun (Some name) ring)) }
    ensures { content_of nodes.now.layout node ≡ Some (Begun (Some (chars result.0.now)) result.1) }
{
    match nodes.content(node) {
        Content::Begun {
            name: Some(name),
            ring,
        } => (name.get(), *ring),
        _ => unreachable!(),
    }
}

/// The ring of the first section, which has no name.
pub(crate) fn first_ring(nodes: &Nodes, node: NodeId) -> RingId
    requires { (ring : RingId) × (content_of nodes.now.layout node ≡ Some (Begun None ring)) }
    ensures { content_of nodes.now.layout node ≡ Some (Begun None result) }
{
    match nodes.content(node) {
        Content::Begun { name: None, ring } => *ring,
        _ => unreachable!(),
    }
}

/// What a node that is a declaration declares.
pub(crate) fn declaration_of<'a>(nodes: &'a Nodes, node: NodeId) -> DeclaredItem<'a>
    requires { (declaration : Declaration) × (content_of nodes.now.layout node ≡ Some (Declared declaration)) }
    ensures { content_of nodes.now.layout node ≡ Some (Declared (declared_by result)) }
{
    match nodes.content(node) {
        Content::Declared(Declaration::Symbol(name)) => DeclaredItem::Symbol(name.get()),
        Content::Declared(Declaration::Element { name, text }) => {
            DeclaredItem::Element(name.get(), text.get())
        }
        Content::Declared(Declaration::Equivalence { name, symbol }) => {
            DeclaredItem::Equivalence(name.get(), symbol.get())
        }
        _ => unreachable!(),
    }
}
