//! Walks through a table: its sections and entries in order, and its declarations in order.
//!
//! A walk lends the nodes of a table and stands at the nodes that come next, so that each step is one look at the rings. What is
//! left of it is a list (`specs/Walks.antt`, read from where it stands by `specs/WalkStates.antt`). A new kind of item is a new
//! variant, and a case of `specs/WalkItems.antt`.

ghost use Rattle.std.specs.Prelude.{◌≡◌};
ghost use Rattle.std.specs.Iterator.{YieldsFirstBy, item_count};
ghost use Rattle.coll_nodes.specs.TableLayout.{sections_ring, declarations_ring, sections_at, declared_at};
ghost use Rattle.coll_nodes.specs.Walks.{visited};
ghost use Rattle.coll_nodes.specs.WalkStates.{HasSections, HasDeclarations};

use crate::Entry;
use crate::bodies::Body;
use crate::nodes::Nodes;
use crate::visited_nodes::{declaration_of, entry_of, first_ring, section_of};
use coll_order::{NodeId, RingId};
use std::marker::Model;

/// What a walk through a table visits.
#[derive(Clone, Copy)]
pub enum WalkItem<'a> {
    /// A section begins: its name. The first section, which has no name, isn't visited.
    Section(&'a str),
    /// An entry.
    Entry(&'a Entry),
}

/// What a table declares.
#[derive(Clone, Copy)]
pub enum DeclaredItem<'a> {
    /// A collating symbol: its name.
    Symbol(&'a str),
    /// A collating element: its name and its string.
    Element(&'a str, &'a str),
    /// A second name, and the own name of its symbol.
    Equivalence(&'a str, &'a str),
}

/// A walk through the sections and entries of a table, in order.
#[derive(Drop)]
pub struct Walk<'a> {
    nodes: &'a Nodes,
    // The ring of the section in which the walk stands.
    ring: RingId,
    // The next entry of that section.
    entry: Option<NodeId>,
    // The next section.
    section: Option<NodeId>,
}

impl<'a> Model for Walk<'a> {
    ghost use Rattle.std.specs.Prelude.{List};
    ghost use Rattle.coll_nodes.specs.Walks.{Visited};
    ghost use Rattle.coll_nodes.specs.WalkStates.{visited_left, IsOnWay};

    ghost Value = { List Visited };

    ghost view = { λ w. visited_left w.nodes.now.layout w.ring w.entry w.section };

    ghost invariant = { λ w. IsOnWay w.nodes.now.layout w.ring w.entry w.section };
}

impl<'a> Walk<'a> {
    /// A walk through the sections of these nodes, which stand in this ring.
    pub(crate) fn new(nodes: &'a Nodes, sections: RingId) -> Walk<'a>
        requires ring { sections ≡ sections_ring }
        requires sections { HasSections nodes.now.layout }
        ensures { result ≡ visited (sections_at nodes.now.layout) }
    {
        nodes.lemma_layout();
        let Some(first) = nodes.first(sections) else {
            unreachable!();
        };
        let ring = first_ring(nodes, first);
        Walk {
            nodes,
            ring,
            entry: nodes.first(ring),
            section: nodes.next(first),
        }
    }
}

impl<'a> Iterator for Walk<'a> {
    type Item = WalkItem<'a>;

    ghost use Rattle.coll_nodes.specs.WalkItems.{visited_by};

    ghost next_gives = { YieldsFirstBy visited_by (λ left. left) };

    ghost remaining = { item_count (λ left. left) };

    fn next(&mut self) -> Option<WalkItem<'a>> {
        if let Some(node) = self.entry {
            self.entry = self.nodes.next(node);
            return Some(WalkItem::Entry(entry_of(self.nodes, node)));
        }
        let node = self.section?;
        let (name, ring) = section_of(self.nodes, node);
        self.section = self.nodes.next(node);
        self.ring = ring;
        self.entry = self.nodes.first(ring);
        Some(WalkItem::Section(name))
    }
}

/// The declarations of a table, in order.
#[derive(Drop)]
pub struct Declared<'a> {
    nodes: &'a Nodes,
    // The next declaration.
    next: Option<NodeId>,
}

impl<'a> Model for Declared<'a> {
    ghost use Rattle.std.specs.Prelude.{List};
    ghost use Rattle.coll_nodes.specs.declared.declarations.Declaration.{Declaration};
    ghost use Rattle.coll_nodes.specs.WalkStates.{declared_left, IsOnWayDeclared};

    ghost Value = { List Declaration };

    ghost view = { λ d. declared_left d.nodes.now.layout d.next };

    ghost invariant = { λ d. IsOnWayDeclared d.nodes.now.layout d.next };
}

impl<'a> Declared<'a> {
    /// A walk through the declarations of these nodes, which stand in this ring.
    pub(crate) fn new(nodes: &'a Nodes, declarations: RingId) -> Declared<'a>
        requires ring { declarations ≡ declarations_ring }
        requires declared { HasDeclarations nodes.now.layout }
        ensures { result ≡ declared_at nodes.now.layout }
    {
        nodes.lemma_layout();
        Declared {
            nodes,
            next: nodes.first(declarations),
        }
    }
}

impl<'a> Iterator for Declared<'a> {
    type Item = DeclaredItem<'a>;

    ghost use Rattle.coll_nodes.specs.WalkItems.{declared_by};

    ghost next_gives = { YieldsFirstBy declared_by (λ left. left) };

    ghost remaining = { item_count (λ left. left) };

    fn next(&mut self) -> Option<DeclaredItem<'a>> {
        let node = self.next?;
        self.next = self.nodes.next(node);
        Some(declaration_of(self.nodes, node))
    }
}

impl Body {
    ghost use Rattle.coll_nodes.specs.SoundBodies.{FirstAloneUnnamed};

    /// A walk through the sections and entries, of which the first section alone has no name.
    pub fn walk(&self) -> Walk<'_>
        requires { FirstAloneUnnamed (sections_at self.now.layout) }
        ensures { result ≡ visited (sections_at self.now.layout) }
    {
        self.lemma_layout();
        Walk::new(self.nodes(), self.sections())
    }

    /// A walk through the declarations.
    pub fn declared(&self) -> Declared<'_>
        ensures { result ≡ declared_at self.now.layout }
    {
        self.lemma_layout();
        Declared::new(self.nodes(), self.declarations())
    }
}
