//! Nodes in rings, and what each node is.
//!
//! A `Nodes` has the rings, and the content of each node that is there, found by the node's tag. Contracts see the layout that
//! they make (`specs/Bodies.antt`); what may stand in which ring is for `bodies` to know. The way to a content may change.

ghost use Rattle.std.specs.Prelude.{map, ◌≡◌, ◌∷◌, ◌++◌, [], Some, None, IsSome, false, true, length, ◌<◌, IfOk, OnOk, OnErr};
ghost use Rattle.coll_order.specs.Changes.{one_step_more, next_ring, with_node, with_ring};
ghost use Rattle.coll_order.specs.Layout.{is_in, place_from, tag_of};
ghost use Rattle.coll_order.specs.Lists.{first_in, end_of, has_node};
ghost use Rattle.coll_order.specs.declared.places.Place.TheVariants.{Head};

use crate::contents::Content;
use coll_lex::{ListBuf, TextBuf};
use coll_order::{NodeId, Place, RingId, Rings};
use coll_syntax::Weight;
use slab::Slab;
use std::alloc::{AllocError, Global};
use std::marker::Model;

/// Nodes in rings, each with a content.
#[derive(Drop)]
pub(crate) struct Nodes {
    rings: Rings,
    // What each node is, by its tag.
    contents: Slab<Content>,
}

impl Model for Nodes {
    ghost use Rattle.coll_nodes.specs.Bodies.{BodyValue, layout_with, AreMade};

    ghost Value = { BodyValue };

    ghost view = { λ n. record { layout = layout_with n.rings.layout n.contents.slots; steps = n.rings.steps } };

    ghost invariant = { λ n. AreMade n.rings.layout.tags n.contents.slots };
}

// Makes a loose node and a ring of no nodes, or neither.
fn new_node_and_ring(rings: &mut Rings, tag: usize) -> Result<(NodeId, RingId), AllocError>
    ensures fresh { IfOk result (λ made. tag_of rings.old.layout made.0 ≡ None) }
    ensures apart { IfOk result (λ made. is_in rings.old.layout.rings made.0 ≡ false) }
    ensures ring { IfOk result (λ made. made.1 ≡ next_ring rings.old.layout) }
    ensures ok { IfOk result (λ made. rings.new ≡ record rings.old { layout = with_ring (with_node rings.old.layout made.0 tag) }) }
    ensures err { OnErr result (rings.new ≡ rings.old) }
{
    let node = rings.new_node(tag)?;
    match rings.new_ring() {
        Ok(ring) => Ok((node, ring)),
        Err(refusal) => {
            rings.drop_node(node);
            Err(refusal)
        }
    }
}

impl Nodes {
    ghost use Rattle.coll_nodes.specs.Bodies.{empty_body, Makes, MakesSection, IsLooseNode};
    ghost use Rattle.coll_nodes.specs.Bodies.{IsPlaceAmong, IsLaidOut, with_link, without_link};
    ghost use Rattle.coll_order.specs.Sound.{AreDistinct};
    ghost use Rattle.coll_nodes.specs.TableLayout.{MadeNode, content_of, nodes_in};
    ghost use Rattle.coll_nodes.specs.Counting.{AreFew};
    ghost use Rattle.coll_nodes.specs.Linking.{nodes_without};
    ghost use Rattle.coll_nodes.specs.Moving.{exchanged, weighed_nodes};
    ghost use Rattle.coll_nodes.specs.WalkStates.{ComesNext};

    /// No rings and no nodes. It takes no memory.
    pub(crate) fn new(alloc: Global) -> Nodes
        ensures { result ≡ empty_body }
    {
        Nodes {
            rings: Rings::new(alloc),
            contents: Slab::new(alloc),
        }
    }

    /// Makes a ring of no nodes.
    pub(crate) fn new_ring(&mut self) -> Result<RingId, AllocError>
        ensures ring { IfOk result (λ ring. ring.index ≡ length self.old.layout.rings) }
        ensures ok { OnOk result (self.new
            ≡ record self.old { layout = record self.old.layout { rings = self.old.layout.rings ++ [] ∷ [] } }) }
        ensures err { OnErr result (self.new ≡ self.old) }
    {
        let ring = self.rings.new_ring()?;
        Ok(ring)
    }

    /// Makes a loose node.
    pub(crate) fn make(&mut self, content: Content) -> Result<NodeId, AllocError>
        ensures made { IfOk result (λ node. Makes self.old.layout self.new.layout node content) }
        ensures apart { IfOk result (λ node. is_in self.old.layout.rings node ≡ false) }
        ensures dropped { IfOk result (λ node. nodes_without (node ∷ []) self.new.layout.nodes ≡ self.old.layout.nodes) }
        ensures rings { self.new.layout.rings ≡ self.old.layout.rings }
        ensures steps { self.new.steps ≡ self.old.steps }
        ensures err { OnErr result (self.new ≡ self.old) }
    {
        self.contents.reserve(1)?;
        let node = self.rings.new_node(self.contents.vacant_key())?;
        self.contents.insert_reserved(content);
        Ok(node)
    }

    /// Makes a loose node that is a section, and a ring for its entries.
    pub(crate) fn make_section(
        &mut self,
        name: Option<TextBuf>,
    ) -> Result<(NodeId, RingId), AllocError>
        ensures made { IfOk result (λ made. MakesSection self.old.layout self.new.layout name made) }
        ensures steps { self.new.steps ≡ self.old.steps }
        ensures err { OnErr result (self.new ≡ self.old) }
    {
        self.contents.reserve(1)?;
        let (node, ring) = new_node_and_ring(&mut self.rings, self.contents.vacant_key())?;
        self.contents.insert_reserved(Content::Begun { name, ring });
        Ok((node, ring))
    }

    /// Puts a loose node directly after a place.
    pub(crate) fn link(&mut self, node: NodeId, place: Place)
        requires loose { IsLooseNode self.old.layout node }
        requires place { IsPlaceAmong self.old.layout.rings place }
        ensures layout { self.new.layout ≡ with_link self.old.layout node place }
        ensures linked { is_in self.new.layout.rings node ≡ true }
        ensures steps { self.new.steps ≡ one_step_more self.old.steps }
    {
        self.rings.link(node, place);
    }

    /// Takes a linked node out of its ring, and answers what stood directly before it.
    pub(crate) fn unlink(&mut self, node: NodeId) -> Place
        requires linked { is_in self.old.layout.rings node ≡ true }
        ensures place { place_from 0 self.old.layout.rings node ≡ Some result }
        ensures layout { self.new.layout ≡ without_link self.old.layout node }
        ensures loose { IsLooseNode self.new.layout node }
        ensures back { IsPlaceAmong self.new.layout.rings result }
        ensures steps { self.new.steps ≡ one_step_more self.old.steps }
    {
        self.rings.unlink(node)
    }

    /// What a node is.
    pub(crate) fn content(&self, node: NodeId) -> &Content
        requires { IsSome (content_of self.now.layout node) }
        ensures { content_of self.now.layout node ≡ Some result.now }
    {
        let tag = self.rings.tag(node);
        &self.contents[tag]
    }

    /// Exchanges the weights of an entry with these. What isn't an entry, and the weights, then stay.
    pub(crate) fn exchange(&mut self, node: NodeId, weights: &mut ListBuf<Weight>)
        requires made { IsSome (content_of self.old.layout node) }
        ensures nodes { self.new.layout ≡ record self.old.layout { nodes = weighed_nodes node (Some weights.old) self.old.layout.nodes } }
        ensures weights { Some weights.new ≡ exchanged (Some weights.old) (content_of self.old.layout node) }
        ensures steps { self.new.steps ≡ self.old.steps }
    {
        let tag = self.rings.tag(node);
        let Some(content) = self.contents.get_mut(tag) else {
            unreachable!();
        };
        content.exchange(weights);
    }

    /// Drops a loose node and its content. A later node may get its name.
    pub(crate) fn drop_loose(&mut self, node: NodeId)
        requires loose { IsLooseNode self.old.layout node }
        ensures layout { self.new.layout ≡ record self.old.layout { nodes = nodes_without (node ∷ []) self.old.layout.nodes } }
        ensures steps { self.new.steps ≡ self.old.steps }
    {
        let tag = self.rings.tag(node);
        self.rings.drop_node(node);
        self.contents.remove(tag);
    }

    /// The first node of a ring, if it has one.
    pub(crate) fn first(&self, ring: RingId) -> Option<NodeId>
        requires { ring.index < length self.now.layout.rings }
        ensures { result ≡ first_in (nodes_in self.now.layout ring) }
    {
        self.rings.first(ring)
    }

    /// The place behind the last node of a ring: after that node, or the head of a ring that has none.
    pub(crate) fn end(&self, ring: RingId) -> Place
        requires { ring.index < length self.now.layout.rings }
        ensures { result ≡ end_of (Head ring) (nodes_in self.now.layout ring) }
    {
        self.rings.end(ring)
    }

    /// The node directly after a linked one in its ring, if it isn't the last.
    pub(crate) fn next(&self, node: NodeId) -> Option<NodeId>
        requires { is_in self.now.layout.rings node ≡ true }
        ensures { ComesNext self.now.layout.rings node result }
    {
        self.rings.lemma_layout();
        self.rings.next(node)
    }

    /// What stands directly before a linked node.
    pub(crate) fn place(&self, node: NodeId) -> Place
        requires { is_in self.now.layout.rings node ≡ true }
        ensures place { place_from 0 self.now.layout.rings node ≡ Some result }
        ensures there { IsPlaceAmong self.now.layout.rings result }
    {
        self.rings.place(node)
    }

    /// The ring in which a linked node stands.
    pub(crate) fn ring(&self, node: NodeId) -> RingId
        requires { is_in self.now.layout.rings node ≡ true }
        ensures { has_node (nodes_in self.now.layout result) node ≡ true }
    {
        self.rings.ring(node)
    }

    /// The number of ring steps taken, modulo 2 to the power 64.
    pub(crate) fn steps(&self) -> u64
        ensures { result ≡ self.now.steps }
    {
        self.rings.steps()
    }

    /// A copy, in new memory, in which each node has its name.
    pub(crate) fn try_copy(&self, alloc: Global) -> Result<Nodes, AllocError>
        ensures { IfOk result (λ copy. copy ≡ self.now) }
    {
        let Nodes { rings, contents } = self;
        Ok(Nodes {
            rings: rings.try_copy(alloc)?,
            contents: contents.clone()?,
        })
    }

    /// What holds of the nodes of every layout: none has two contents.
    ///
    /// It does nothing; its contract hands the fact to callers.
    pub(crate) fn lemma_named(&self)
        ensures { AreDistinct (map (λ (made : MadeNode). made.node) self.now.layout.nodes) }
    {
        let _ = &self.contents;
    }

    /// What holds of every layout: no node stands twice, and each that stands in a ring is there.
    ///
    /// It does nothing; its contract hands the fact to callers.
    pub(crate) fn lemma_layout(&self)
        ensures { IsLaidOut self.now.layout }
    {
        self.rings.lemma_layout();
    }

    /// There are fewer nodes than a `usize` has numbers.
    ///
    /// It does nothing; its contract hands the fact to callers.
    pub(crate) fn lemma_few(&self)
        ensures { AreFew self.now.layout }
    {
        let _ = self.contents.capacity();
    }
}
