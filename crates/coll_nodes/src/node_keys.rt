//! Nodes by their keys: a declaration by its name and its string, a section by its name, an entry by its identifier.
//!
//! A `NodeKeys` has a look-up for each kind of key, and reads of a node what it is found by (`specs/KeyedNodes.antt`). A key that
//! came in stays for good, so that its node can be found again, or not any more, without memory. A new kind of key is a look-up
//! more, and a case here.

ghost use Rattle.std.specs.Prelude.{◌≡◌, true, false, not, is_some, Some, IfOk, OnOk, OnErr};
ghost use Rattle.coll_nodes.specs.KeyedNodes.{leads_nowhere, no_keys, HasKeysOf, HasKeyOfSection, KeepsKeys, LeadsAlike, SetsKeys, SetsSection};
ghost use Rattle.coll_nodes.specs.Moving.{MayBeLoose};
ghost use Rattle.coll_nodes.specs.declared.contents.Content.TheVariants as content;
ghost use Rattle.coll_nodes.specs.declared.declarations.Declaration.TheVariants as declaration;
ghost use Rattle.coll_lookups.specs.NodeLookUps.{node_named, AddsNameKey, SetsName};

use crate::Declaration;
use crate::contents::Content;
use coll_lex::TextBuf;
use coll_lookups::{HashKeys, NodeIds, NodeNames};
use coll_order::NodeId;
use std::alloc::{AllocError, Global};

/// Nodes by their keys.
#[derive(Drop)]
pub(crate) struct NodeKeys {
    /// The declarations by their names.
    pub(crate) names: NodeNames,
    /// The collating elements by their strings.
    pub(crate) texts: NodeNames,
    /// The sections by their names.
    pub(crate) sections: NodeNames,
    /// The entries by their identifiers.
    pub(crate) placed: NodeIds,
}

impl NodeKeys {
    /// No keys. It takes memory for what copies share.
    pub(crate) fn new(alloc: Global, keys: HashKeys) -> Result<NodeKeys, AllocError>
        ensures { IfOk result (λ made. made ≡ no_keys) }
    {
        Ok(NodeKeys {
            names: NodeNames::new(alloc, keys)?,
            texts: NodeNames::new(alloc, keys)?,
            sections: NodeNames::new(alloc, keys)?,
            placed: NodeIds::new(alloc, keys)?,
        })
    }

    /// A copy. It shares the keys of look-ups by name, and has new memory for all else.
    pub(crate) fn try_copy(&self, alloc: Global) -> Result<NodeKeys, AllocError>
        ensures { IfOk result (λ copy. copy ≡ self.now) }
    {
        let NodeKeys {
            names,
            texts,
            sections,
            placed,
        } = self;
        Ok(NodeKeys {
            names: names.try_copy(alloc)?,
            texts: texts.try_copy(alloc)?,
            sections: sections.try_copy(alloc)?,
            placed: placed.try_copy(alloc)?,
        })
    }

    /// Makes what a node is found by keys, so that it can be `set`. Each key leads to where it led.
    pub(crate) fn reserve(&mut self, node: &Content) -> Result<(), AllocError>
        ensures leads { LeadsAlike self.old self.new }
        ensures keeps { KeepsKeys self.old self.new }
        ensures keys { OnOk result (HasKeysOf self.new node.now) }
    {
        match node {
            Content::Declared(Declaration::Symbol(name)) => self.names.reserve(name),
            Content::Declared(Declaration::Element { name, text }) => {
                self.names.reserve(name)?;
                self.texts.reserve(text)
            }
            Content::Declared(Declaration::Equivalence { name, .. }) => self.names.reserve(name),
            Content::Begun { name, .. } => self.reserve_section(name),
            Content::Placed(entry) => self.placed.reserve(&entry.id),
        }
    }

    /// Makes the name of a section a key, so that it can be `set`. Each key leads to where it led.
    pub(crate) fn reserve_section(&mut self, name: &Option<TextBuf>) -> Result<(), AllocError>
        ensures leads { LeadsAlike self.old self.new }
        ensures keeps { KeepsKeys self.old self.new }
        ensures keys { OnOk result (HasKeyOfSection self.new name.now) }
    {
        match name {
            Some(name) => self.sections.reserve(name),
            None => Ok(()),
        }
    }

    /// Makes keys of what a node is found by, and lets them lead to it, unless one of them leads to a node: then each leads to where
    /// it led, and so it is where memory is refused. Answers whether none of them led to a node. A key that is alone is asked for
    /// and put in by one look-up.
    pub(crate) fn put_free(&mut self, content: &Content, node: NodeId) -> Result<bool, AllocError>
        requires may { MayBeLoose content.now }
        ensures free { IfOk result (λ free. free ≡ leads_nowhere self.old content.now) }
        ensures ok { IfOk result (λ free. free ≡ true → SetsKeys self.old self.new content.now (Some node)) }
        ensures keys { IfOk result (λ free. free ≡ true → HasKeysOf self.new content.now) }
        ensures keeps { KeepsKeys self.old self.new }
        ensures taken { IfOk result (λ free. free ≡ false → LeadsAlike self.old self.new) }
        ensures err { OnErr result (LeadsAlike self.old self.new) }
    {
        match content {
            Content::Declared(Declaration::Symbol(name)) => self.names.put_free(name, node),
            Content::Declared(Declaration::Element { name, text }) => {
                self.put_element(name, text, node)
            }
            Content::Declared(Declaration::Equivalence { name, .. }) => self.put_name(name, node),
            Content::Begun { .. } => unreachable!(),
            Content::Placed(entry) => self.placed.put_free(&entry.id, node),
        }
    }

    // The same, of an element. It is asked first whether its name and its string are free.
    fn put_element(
        &mut self,
        name: &TextBuf,
        text: &TextBuf,
        node: NodeId,
    ) -> Result<bool, AllocError>
        ensures free { IfOk result (λ free. free ≡ leads_nowhere self.old (content.Declared (declaration.Element name.now text.now))) }
        ensures ok { IfOk result (λ free. free ≡ true → SetsKeys self.old self.new (content.Declared (declaration.Element name.now text.now)) (Some node)) }
        ensures keys { IfOk result (λ free. free ≡ true → HasKeysOf self.new (content.Declared (declaration.Element name.now text.now))) }
        ensures keeps { KeepsKeys self.old self.new }
        ensures taken { IfOk result (λ free. free ≡ false → LeadsAlike self.old self.new) }
        ensures err { OnErr result (LeadsAlike self.old self.new) }
    {
        if self.names.find(name).is_some() || self.texts.find(text).is_some() {
            return Ok(false);
        }
        self.texts.reserve(text)?;
        self.names.put(name, Some(node))?;
        self.texts.set(text, Some(node));
        Ok(true)
    }

    // Makes a name a key that leads to a node, unless it leads to one, which is asked first. Answers whether it led to none.
    fn put_name(&mut self, name: &TextBuf, node: NodeId) -> Result<bool, AllocError>
        ensures free { IfOk result (λ free. free ≡ not (is_some (node_named self.old.names name.now))) }
        ensures ok { IfOk result (λ free. free ≡ true → SetsName self.old.names self.new.names name.now (Some node)) }
        ensures keys { IfOk result (λ free. free ≡ true → AddsNameKey self.old.names self.new.names name.now) }
        ensures others { self.new ≡ record self.old { names = self.new.names } }
        ensures taken { IfOk result (λ free. free ≡ false → self.new ≡ self.old) }
        ensures err { OnErr result (self.new ≡ self.old) }
    {
        if self.names.find(name).is_none() {
            self.names.put(name, Some(node))?;
            return Ok(true);
        }
        Ok(false)
    }

    /// Makes what a node is found by lead to a node, or to none. It takes no memory.
    pub(crate) fn set(&mut self, content: &Content, node: Option<NodeId>)
        requires keys { HasKeysOf self.old content.now }
        ensures set { SetsKeys self.old self.new content.now node }
        ensures keeps { KeepsKeys self.old self.new }
    {
        match content {
            Content::Declared(Declaration::Symbol(name)) => self.names.set(name, node),
            Content::Declared(Declaration::Element { name, text }) => {
                self.names.set(name, node);
                self.texts.set(text, node);
            }
            Content::Declared(Declaration::Equivalence { name, .. }) => self.names.set(name, node),
            Content::Begun { name, .. } => self.set_section(name, node),
            Content::Placed(entry) => self.placed.set(&entry.id, node),
        }
    }

    // Makes the name of a section lead to a node, or to none, if it has one.
    fn set_section(&mut self, name: &Option<TextBuf>, node: Option<NodeId>)
        requires keys { HasKeyOfSection self.old name.now }
        ensures set { SetsSection self.old self.new name.now node }
        ensures keeps { KeepsKeys self.old self.new }
    {
        if let Some(name) = name {
            self.sections.set(name, node);
        }
    }
}
