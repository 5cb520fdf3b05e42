//! Nodes of a body that are made, put in, taken out, moved, weighed anew and dropped.
//!
//! A node is made loose, and its keys are reserved with it, so that it can be put in and taken out any number of times without
//! memory; one that stands from the first on is made and put in at once, where its keys are free, with one look-up for a key that
//! is alone (`put_free`), which both asks for it and puts it in. A key that
//! came into a look-up stays for good. Whoever puts a node in or takes it out sets the look-ups with it; a node that is moved
//! keeps them. A section is moved, and never loose.

ghost use Rattle.std.specs.Prelude.{◌≡◌, ◌∷◌, [], Some, None, IsSome, IfSome, IfNone, OnSome, is_some, false, true, IfOk, OnErr, OnOk};
ghost use Rattle.coll_order.specs.Changes.{one_step_more};
ghost use Rattle.coll_order.specs.Layout.{is_in, place_from};

use super::Body;
use crate::contents::Content;
use coll_lex::{ListBuf, TextBuf};
use coll_order::{NodeId, Place, RingId};
use coll_syntax::{Id, Weight};
use std::alloc::AllocError;

impl Body {
    ghost use Rattle.coll_syntax.specs.Identifier.{same_id, same_name};
    ghost use Rattle.coll_nodes.specs.Bodies.{IsLooseNode, Makes, MakesSection, with_link, without_link};
    ghost use Rattle.coll_nodes.specs.Linking.{IsFoundBy, end_of_declarations, nodes_without};
    ghost use Rattle.coll_nodes.specs.SoundBodies.{Adds, ids_in, section_names_in};
    ghost use Rattle.coll_nodes.specs.TableLayout.{content_of};
    ghost use Rattle.coll_nodes.specs.Moving.{is_free, IsPlaceFor, MayBeLoose, Suits, exchanged, weighed_nodes};

    /// The node of an identifier that stands in a section.
    pub fn entry_node(&self, id: &Id) -> Option<NodeId>
        ensures { IsFoundBy same_id ids_in self.now.layout id.now result }
    {
        self.keys.placed.find(id)
    }

    /// The node of a section.
    pub fn section_node(&self, name: &TextBuf) -> Option<NodeId>
        ensures { IsFoundBy same_name section_names_in self.now.layout name.now result }
    {
        self.keys.sections.find(name)
    }

    /// The place behind the last declaration.
    pub fn declared_end(&self) -> Place
        ensures { result ≡ end_of_declarations self.now.layout }
    {
        self.nodes.end(self.declarations)
    }

    /// Makes a loose node, and reserves its keys.
    pub fn make(&mut self, node: Content) -> Result<NodeId, AllocError>
        requires may { MayBeLoose node }
        ensures made { IfOk result (λ made. Makes self.old.layout self.new.layout made node) }
        ensures apart { IfOk result (λ made. is_in self.old.layout.rings made ≡ false) }
        ensures dropped { IfOk result (λ made. nodes_without (made ∷ []) self.new.layout.nodes ≡ self.old.layout.nodes) }
        ensures rings { self.new.layout.rings ≡ self.old.layout.rings }
        ensures steps { self.new.steps ≡ self.old.steps }
        ensures err { OnErr result (self.new ≡ self.old) }
    {
        self.nodes.lemma_layout();
        self.keys.reserve(&node)?;
        self.nodes.make(node)
    }

    /// Makes a loose node that is a section, with a ring for its entries, and reserves its name. It has to be put in.
    pub(super) fn make_section(
        &mut self,
        name: Option<TextBuf>,
    ) -> Result<(NodeId, RingId), AllocError>
        ensures made { IfOk result (λ made. MakesSection self.old.layout self.new.layout name made) }
        ensures steps { self.new.steps ≡ self.old.steps }
        ensures err { OnErr result (self.new ≡ self.old) }
    {
        self.nodes.lemma_layout();
        self.keys.reserve_section(&name)?;
        self.nodes.make_section(name)
    }

    /// Makes a node, and puts it directly after a place, unless a node that stands in a ring has a key of it: then, as where memory is
    /// refused, nothing has changed, and none is answered. Its keys are made and lead to it at once.
    pub(super) fn put_free(
        &mut self,
        content: Content,
        place: Place,
    ) -> Result<Option<NodeId>, AllocError>
        requires may { MayBeLoose content }
        requires fits { IsPlaceFor self.old.layout place content }
        ensures free { IfOk result (λ put. is_some put ≡ is_free self.old.layout content) }
        ensures ok { IfOk result (λ put. IfSome put (λ node. Adds self.old.layout self.new.layout node content place)) }
        ensures steps { IfOk result (λ put. OnSome put (self.new.steps ≡ one_step_more self.old.steps)) }
        ensures taken { IfOk result (λ put. IfNone put (self.new ≡ self.old)) }
        ensures err { OnErr result (self.new ≡ self.old) }
    {
        let made = self.nodes.make(content)?;
        match self.keys.put_free(self.nodes.content(made), made) {
            Ok(true) => {}
            Ok(false) => {
                self.nodes.drop_loose(made);
                return Ok(None);
            }
            Err(refusal) => {
                self.nodes.drop_loose(made);
                return Err(refusal);
            }
        }
        self.nodes.lemma_layout();
        self.nodes.lemma_few();
        self.counts = self.counts.with(self.nodes.content(made));
        self.nodes.link(made, place);
        Ok(Some(made))
    }

    /// Puts a loose node directly after a place.
    pub fn put_in(&mut self, node: NodeId, place: Place)
        requires loose { IsLooseNode self.old.layout node }
        requires suits { Suits self.old.layout node (Some place) }
        ensures layout { self.new.layout ≡ with_link self.old.layout node place }
        ensures steps { self.new.steps ≡ one_step_more self.old.steps }
    {
        self.nodes.lemma_layout();
        self.nodes.lemma_few();
        let content = self.nodes.content(node);
        self.keys.set(content, Some(node));
        self.counts = self.counts.with(content);
        self.nodes.link(node, place);
    }

    /// Takes a node out of its ring, and answers what stood directly before it.
    pub fn take_out(&mut self, node: NodeId) -> Place
        requires linked { is_in self.old.layout.rings node ≡ true }
        requires suits { Suits self.old.layout node None }
        ensures place { place_from 0 self.old.layout.rings node ≡ Some result }
        ensures layout { self.new.layout ≡ without_link self.old.layout node }
        ensures steps { self.new.steps ≡ one_step_more self.old.steps }
    {
        self.nodes.lemma_layout();
        let place = self.nodes.unlink(node);
        let content = self.nodes.content(node);
        self.keys.set(content, None);
        self.counts = self.counts.without(content);
        place
    }

    /// Moves a node directly after a place, and answers what stood directly before it.
    pub fn relink(&mut self, node: NodeId, place: Place) -> Place
        requires linked { is_in self.old.layout.rings node ≡ true }
        requires suits { Suits (without_link self.old.layout node) node (Some place) }
        ensures place { place_from 0 self.old.layout.rings node ≡ Some result }
        ensures layout { self.new.layout ≡ with_link (without_link self.old.layout node) node place }
        ensures steps { self.new.steps ≡ one_step_more (one_step_more self.old.steps) }
    {
        self.nodes.lemma_layout();
        let from = self.nodes.unlink(node);
        self.nodes.link(node, place);
        from
    }

    /// Exchanges the weights of an entry with these. What isn't an entry, and the weights, then stay.
    pub fn exchange(&mut self, node: NodeId, weights: &mut ListBuf<Weight>)
        requires made { IsSome (content_of self.old.layout node) }
        ensures nodes { self.new.layout ≡ record self.old.layout { nodes = weighed_nodes node (Some weights.old) self.old.layout.nodes } }
        ensures weights { Some weights.new ≡ exchanged (Some weights.old) (content_of self.old.layout node) }
        ensures steps { self.new.steps ≡ self.old.steps }
    {
        self.nodes.lemma_layout();
        self.nodes.exchange(node, weights);
    }

    /// Drops a loose node, whose name a later node may get.
    pub fn drop_loose(&mut self, node: NodeId)
        requires loose { IsLooseNode self.old.layout node }
        ensures layout { self.new.layout ≡ record self.old.layout { nodes = nodes_without (node ∷ []) self.old.layout.nodes } }
        ensures steps { self.new.steps ≡ self.old.steps }
    {
        self.nodes.lemma_layout();
        self.nodes.drop_loose(node);
    }
}
