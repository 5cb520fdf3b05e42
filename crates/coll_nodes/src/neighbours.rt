//! What stands beside an entry.
//!
//! A node knows what stands before it, what stands behind it, and its ring. So the neighbours of an entry are found without a walk
//! from the first entry on: only where it is the first or the last of its section are the sections gone through, which are few.

ghost use Rattle.std.specs.Prelude.{◌≡◌, ◌<◌, ◌∷◌, ◌++◌, true, List, None, Some, length, IfSome};
ghost use Rattle.coll_order.specs.Layout.{is_in};
ghost use Rattle.coll_order.specs.Lists.{first_in, has_node, next_in};
ghost use Rattle.coll_order.specs.declared.places.NodeId.{NodeId};
ghost use Rattle.coll_nodes.specs.Beside.{last_behind};
ghost use Rattle.coll_nodes.specs.NodeNumbers.{entry_nodes, entry_nodes_of};
ghost use Rattle.coll_nodes.specs.NodesBeside.{before_among, is_asked, node_between, ring_if, section_among};
ghost use Rattle.coll_nodes.specs.SoundBodies.{IsSection, IsShaped};
ghost use Rattle.coll_nodes.specs.TableLayout.{content_of, nodes_in, sections_ring};
ghost use Rattle.coll_nodes.specs.WalkStates.{ComesNext};

use crate::contents::Content;
use crate::nodes::Nodes;
use coll_order::{NodeId, Place, RingId};

/// The node directly before that of an entry, in all sections joined, if it isn't the first.
pub(crate) fn node_before(nodes: &Nodes, sections: RingId, node: NodeId) -> Option<NodeId>
    requires ring { sections ≡ sections_ring }
    requires shaped { IsShaped nodes.now.layout }
    requires linked { is_in nodes.now.layout.rings node ≡ true }
    requires entry { has_node (entry_nodes nodes.now.layout) node ≡ true }
    ensures before { result ≡ node_between None (entry_nodes nodes.now.layout) node }
    ensures linked { IfSome result (λ before. is_in nodes.now.layout.rings before ≡ true) }
{
    nodes.lemma_layout();
    match nodes.place(node) {
        Place::After(other) => Some(other),
        Place::Head(ring) => find_section(nodes, sections, Some(ring)).before,
    }
}

/// The node directly behind that of an entry, in all sections joined, if it isn't the last.
pub(crate) fn node_behind(nodes: &Nodes, sections: RingId, node: NodeId) -> Option<NodeId>
    requires ring { sections ≡ sections_ring }
    requires shaped { IsShaped nodes.now.layout }
    requires linked { is_in nodes.now.layout.rings node ≡ true }
    requires entry { has_node (entry_nodes nodes.now.layout) node ≡ true }
    ensures behind { result ≡ next_in (entry_nodes nodes.now.layout) node }
    ensures linked { IfSome result (λ behind. is_in nodes.now.layout.rings behind ≡ true) }
{
    nodes.lemma_layout();
    let ring = nodes.ring(node);
    if let Some(other) = next_node(nodes, node) {
        return Some(other);
    }
    match find_section(nodes, sections, Some(ring)).section {
        Some(section) => first_behind(nodes, section),
        None => None,
    }
}

/// A section, and what stands before it.
#[derive(Clone, Copy)]
pub(crate) struct FoundSection {
    /// The node of the section, if there is one.
    pub section: Option<NodeId>,
    /// The node of the last entry before it, if there is one.
    pub before: Option<NodeId>,
}

/// The section whose entries stand in a ring. Where none is asked for, that is none, and all entries stand before it.
pub(crate) fn find_section(nodes: &Nodes, sections: RingId, ring: Option<RingId>) -> FoundSection
    requires ring { sections ≡ sections_ring }
    requires shaped { IsShaped nodes.now.layout }
    ensures found { result.section ≡ section_among nodes.now.layout ring (nodes_in nodes.now.layout sections_ring) }
    ensures last { result.before ≡ before_among nodes.now.layout ring None (nodes_in nodes.now.layout sections_ring) }
    ensures section { IfSome result.section (λ section. has_node (nodes_in nodes.now.layout sections_ring) section ≡ true) }
    ensures before { IfSome result.before (λ before. is_in nodes.now.layout.rings before ≡ true) }
{
    nodes.lemma_layout();
    let mut before = None;
    let mut left = nodes.first(sections);
    'sections: while let Some(section) = left {
        let entries = ring_of(nodes, section);
        if is_asked(ring, entries) {
            return FoundSection {
                section: Some(section),
                before,
            };
        }
        before = last_node(nodes, entries, before);
        left = nodes.next(section);
    }
    FoundSection {
        section: None,
        before,
    }
}

// Whether a ring is the one that is asked for.
fn is_asked(ring: Option<RingId>, own: RingId) -> bool
    ensures { result ≡ is_asked ring (Some own) }
{
    match ring {
        Some(ring) => ring == own,
        None => false,
    }
}

// The first node of an entry in the sections behind one.
fn first_behind(nodes: &Nodes, section: NodeId) -> Option<NodeId>
    requires shaped { IsShaped nodes.now.layout }
    requires section { has_node (nodes_in nodes.now.layout sections_ring) section ≡ true }
    ensures first { (prefix later : List NodeId) → nodes_in nodes.now.layout sections_ring ≡ prefix ++ section ∷ later
        → result ≡ first_in (entry_nodes_of nodes.now.layout later) }
    ensures linked { IfSome result (λ first. is_in nodes.now.layout.rings first ≡ true) }
{
    nodes.lemma_layout();
    let mut left = nodes.next(section);
    'sections: while let Some(section) = left {
        if let Some(first) = first_node(nodes, ring_of(nodes, section)) {
            return Some(first);
        }
        left = nodes.next(section);
    }
    None
}

// The ring of the entries of a section.
fn ring_of(nodes: &Nodes, section: NodeId) -> RingId
    requires { IsSection (length nodes.now.layout.rings) (content_of nodes.now.layout section) }
    ensures ring { ring_if (content_of nodes.now.layout section) ≡ Some result }
    ensures there { result.index < length nodes.now.layout.rings }
{
    match nodes.content(section) {
        Content::Begun { ring, .. } => *ring,
        _ => unreachable!(),
    }
}

// The first node of a ring, if it has one.
fn first_node(nodes: &Nodes, ring: RingId) -> Option<NodeId>
    requires { ring.index < length nodes.now.layout.rings }
    ensures first { result ≡ first_in (nodes_in nodes.now.layout ring) }
    ensures linked { IfSome result (λ first. is_in nodes.now.layout.rings first ≡ true) }
{
    nodes.first(ring)
}

// The node directly behind one in its ring, if there is one.
fn next_node(nodes: &Nodes, node: NodeId) -> Option<NodeId>
    requires { is_in nodes.now.layout.rings node ≡ true }
    ensures next { ComesNext nodes.now.layout.rings node result }
    ensures linked { IfSome result (λ next. is_in nodes.now.layout.rings next ≡ true) }
{
    nodes.lemma_layout();
    nodes.next(node)
}

// The last node of a ring, or, where it has none, the one before it.
fn last_node(nodes: &Nodes, ring: RingId, before: Option<NodeId>) -> Option<NodeId>
    requires ring { ring.index < length nodes.now.layout.rings }
    requires before { IfSome before (λ node. is_in nodes.now.layout.rings node ≡ true) }
    ensures last { result ≡ last_behind before (nodes_in nodes.now.layout ring) }
    ensures linked { IfSome result (λ node. is_in nodes.now.layout.rings node ≡ true) }
{
    match nodes.end(ring) {
        Place::After(node) => Some(node),
        Place::Head(_) => before,
    }
}
