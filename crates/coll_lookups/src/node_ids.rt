//! Nodes by identifier: names are looked up by hash, characters by code point.
//!
//! A `NodeIds` says which node an identifier leads to: a name by `NodeNames`, a character by `CharNodes`. An identifier that leads
//! to none may stay as a key. A new kind of identifier is a look-up more.

ghost use Rattle.std.specs.Prelude.{◌≡◌, true, not, Some, is_some, unwrap_or, IfOk, OnOk, OnErr};

use crate::HashKeys;
use crate::char_nodes::CharNodes;
use crate::node_names::NodeNames;
use coll_lex::TextBuf;
use coll_order::NodeId;
use coll_syntax::Id;
use std::alloc::{AllocError, Global};
use std::marker::Model;

/// Nodes by identifier. It has as many identifiers as memory has room for, and one that came in stays as a key.
#[derive(Drop)]
pub struct NodeIds {
    names: NodeNames,
    characters: CharNodes,
    undefined: Option<NodeId>,
}

impl Model for NodeIds {
    ghost use Rattle.coll_lookups.specs.NodeLookUps.{NodesById};

    ghost Value = { NodesById };

    ghost view = { λ n. record { names = n.names; characters = n.characters; undefined = n.undefined } };
}

impl NodeIds {
    ghost use Rattle.coll_syntax.specs.declared.identifiers.Id.TheVariants.{Named};
    ghost use Rattle.coll_lookups.specs.NodeLookUps.{no_nodes, node_with, is_id_key, SetsId, AddsIdKey, LeadAlike, KeepIdKeys};

    /// No identifiers. It takes memory for what copies share. Names are looked up under these keys.
    pub fn new(alloc: Global, keys: HashKeys) -> Result<NodeIds, AllocError>
        ensures { IfOk result (λ made. made ≡ no_nodes) }
    {
        let names = NodeNames::new(alloc, keys)?;
        Ok(NodeIds {
            names,
            characters: CharNodes::new(alloc),
            undefined: None,
        })
    }

    /// The node that an identifier leads to, if it does. It takes no memory.
    pub fn find(&self, id: &Id) -> Option<NodeId>
        ensures { result ≡ node_with self.now id.now }
    {
        match id {
            Id::Char(c) => self.characters.find(*c),
            Id::Named(name) => self.find_name(name),
            Id::Undefined => self.undefined,
        }
    }

    /// The node that the identifier of a name leads to, if it does. It takes no memory.
    pub fn find_name(&self, name: &TextBuf) -> Option<NodeId>
        ensures { result ≡ node_with self.now (Named name.now) }
    {
        self.names.find(name)
    }

    /// The node that an identifier leads to, as `find` tells it. A name is looked for at a guess first, which is then the place behind
    /// it, by `NodeNames::find_behind`. It takes no memory.
    pub fn find_behind(&self, id: &Id, guess: &mut usize) -> Option<NodeId>
        ensures { result ≡ node_with self.now id.now }
    {
        match id {
            Id::Named(name) => self.names.find_behind(name.get(), guess),
            _ => self.find(id),
        }
    }

    /// Makes an identifier a key, so that it can be `set`. It leads to where it led. Where memory is refused, nothing has changed.
    pub fn reserve(&mut self, id: &Id) -> Result<(), AllocError>
        ensures ok { OnOk result (LeadAlike self.old self.new) }
        ensures keys { OnOk result (AddsIdKey self.old self.new id.now) }
        ensures err { OnErr result (self.new ≡ self.old) }
    {
        let node = self.find(id);
        self.put(id, node)?;
        Ok(())
    }

    /// Makes an identifier a key, and lead to a node, or to none. Where memory is refused, nothing has changed.
    pub fn put(&mut self, id: &Id, node: Option<NodeId>) -> Result<(), AllocError>
        ensures ok { OnOk result (SetsId self.old self.new id.now node) }
        ensures keys { OnOk result (AddsIdKey self.old self.new id.now) }
        ensures err { OnErr result (self.new ≡ self.old) }
    {
        self.replace(id, node)?;
        Ok(())
    }

    /// Makes an identifier lead to a node, unless it leads to one. Answers whether it led to none: so one look-up both asks whether
    /// it is there and puts it in. One that leads to a node takes memory as any other. Where memory is refused, nothing has changed.
    pub fn put_free(&mut self, id: &Id, node: NodeId) -> Result<bool, AllocError>
        ensures free { IfOk result (λ free. free ≡ not (is_some (node_with self.old id.now))) }
        ensures ok { OnOk result (SetsId self.old self.new id.now (Some (unwrap_or (node_with self.old id.now) node))) }
        ensures keys { OnOk result (AddsIdKey self.old self.new id.now) }
        ensures err { OnErr result (self.new ≡ self.old) }
    {
        match self.replace(id, Some(node))? {
            Some(led) => {
                self.set(id, Some(led));
                Ok(false)
            }
            None => Ok(true),
        }
    }

    // Makes an identifier a key, and lead to a node, or to none. Answers the node that it led to.
    fn replace(&mut self, id: &Id, node: Option<NodeId>) -> Result<Option<NodeId>, AllocError>
        ensures ok { OnOk result (SetsId self.old self.new id.now node) }
        ensures keys { OnOk result (AddsIdKey self.old self.new id.now) }
        ensures led { IfOk result (λ led. led ≡ node_with self.old id.now) }
        ensures err { OnErr result (self.new ≡ self.old) }
    {
        match id {
            Id::Char(c) => {
                let led = self.characters.put(*c, node)?;
                Ok(led)
            }
            Id::Named(name) => {
                let led = self.names.put(name, node)?;
                Ok(led)
            }
            Id::Undefined => {
                let led = self.undefined;
                self.undefined = node;
                Ok(led)
            }
        }
    }

    /// Makes an identifier that is a key lead to a node, or to none. It takes no memory.
    pub fn set(&mut self, id: &Id, node: Option<NodeId>)
        requires { is_id_key self.old id.now ≡ true }
        ensures set { SetsId self.old self.new id.now node }
        ensures keys { KeepIdKeys self.old self.new }
    {
        match id {
            Id::Char(c) => self.characters.set(*c, node),
            Id::Named(name) => self.names.set(name, node),
            Id::Undefined => self.undefined = node,
        }
    }

    /// A copy of the look-up of names. It shares the names, and has new memory for where they lead.
    pub fn copied_names(&self, alloc: Global) -> Result<NodeNames, AllocError>
        ensures { IfOk result (λ names. names ≡ self.now.names) }
    {
        self.names.try_copy(alloc)
    }

    /// A copy. It shares the names, and has new memory for all else.
    pub fn try_copy(&self, alloc: Global) -> Result<NodeIds, AllocError>
        ensures { IfOk result (λ copy. copy ≡ self.now) }
    {
        let NodeIds {
            names,
            characters,
            undefined,
        } = self;
        let names = names.try_copy(alloc)?;
        let characters = characters.try_copy(alloc)?;
        Ok(NodeIds {
            names,
            characters,
            undefined: *undefined,
        })
    }
}
