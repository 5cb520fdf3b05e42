//! Nodes by name, with a look-up by hash.
//!
//! A `NodeNames` says which node a name leads to. A name that leads to none may stay as a key, so that it can lead to a node
//! later without taking memory. Copies share the names until one of them gets a further name. How a name is found, and in which
//! order names are kept, may change.

ghost use Rattle.std.specs.Prelude.{◌≡◌, ◌<◌, ℕ, List, [], true, not, Some, None, is_some, unwrap_or, chars, length, position, slice_index_or};
ghost use Rattle.std.specs.Prelude.{vec_len, vec_capacity, IfOk, OnOk, OnErr};
ghost use Rattle.std.specs.List.{position_or_len};
ghost use Rattle.coll_lookups.specs.NameKeys.{same_bytes};
ghost use Rattle.coll_lookups.specs.NodeMaps.{node_put, with_key};

use crate::listed_names::ListedNames;
use crate::name_keys::NameKey;
use crate::{HashKeys, WordKeys};
use coll_lex::TextBuf;
use coll_order::NodeId;
use std::alloc::{AllocError, Global};
use std::marker::Model;
use std::rc::Rc;

/// Nodes by name. It has as many names as memory has room for, and a name that came in stays as a key.
#[derive(Drop)]
pub struct NodeNames {
    // The names, in the order in which they came in. Copies share them until one of them gets a further name.
    names: Rc<ListedNames>,
    // The node that each of them leads to, if it does.
    nodes: Vec<Option<NodeId>>,
    // No name has more bytes. It isn't made less.
    longest: usize,
    alloc: Global,
}

impl Model for NodeNames {
    ghost use Rattle.std.specs.Prelude.{◌≡◌, List, ℕ, length, zip};
    ghost use Rattle.coll_lookups.specs.NameKeys.{IsReadBack, IsWithin};
    ghost use Rattle.coll_lookups.specs.NodeLookUps.{Leading};
    ghost use Rattle.coll_lookups.specs.NodeMaps.{names_lead, AreKeys};

    ghost Value = { List (Leading (List ℕ)) };

    ghost view = { λ n. names_lead (zip n.names.value n.nodes.items) };

    ghost invariant = { λ n. (length n.names.value ≡ length n.nodes.items)
        × AreKeys IsReadBack (zip n.names.value n.nodes.items)
        × AreKeys (IsWithin n.longest) (zip n.names.value n.nodes.items) };
}

impl NodeNames {
    ghost use Rattle.coll_lookups.specs.NodeLookUps.{node_named, is_name_key, SetsName, AddsNameKey, LeadNamesAlike, KeepNameKeys};

    /// No names. It takes memory for what copies share. Names are looked up under these keys.
    pub fn new(alloc: Global, keys: HashKeys) -> Result<NodeNames, AllocError>
        ensures { IfOk result (λ made. made ≡ []) }
    {
        let names = Rc::new(alloc, ListedNames::new(alloc, WordKeys::new(keys)))?;
        Ok(NodeNames {
            names,
            nodes: Vec::new(alloc),
            longest: 0,
            alloc,
        })
    }

    /// The keys that names are looked up under.
    pub fn hash_keys(&self) -> HashKeys {
        self.names.word_keys().hash_keys()
    }

    /// Where it takes memory.
    pub fn alloc(&self) -> Global {
        self.alloc
    }

    /// The node that a name leads to, if it does. It takes no memory.
    pub fn find(&self, name: &TextBuf) -> Option<NodeId>
        ensures { result ≡ node_named self.now name.now }
    {
        self.find_text(name.get())
    }

    /// The node that a name leads to, by its text. It takes no memory.
    pub fn find_text(&self, name: &str) -> Option<NodeId>
        ensures { result ≡ node_named self.now (chars name.now) }
    {
        match self.names.place(name) {
            Some(place) => self.nodes[place],
            None => None,
        }
    }

    /// The node that a name leads to, by its text, as `find_text` tells it. Names are often asked for in the order in which they came
    /// in, so the name is looked for at a guess first, and there no hash is needed. The guess is then the place behind the name. It
    /// takes no memory.
    pub fn find_behind(&self, name: &str, guess: &mut usize) -> Option<NodeId>
        ensures { result ≡ node_named self.now (chars name.now) }
    {
        match self.names.place_by_guess(name, *guess) {
            Some(place) => {
                *guess = place.wrapping_add(1);
                self.nodes[place]
            }
            None => None,
        }
    }

    /// A number of characters: no name that has more leads to a node. It takes no memory.
    pub fn most_characters(&self) -> usize
        ensures { (name : List ℕ) → result < length name → node_named self.now name ≡ None }
    {
        self.longest
    }

    /// Makes a name a key, so that it can be `set`. It leads to where it led. Where memory is refused, nothing has changed.
    pub fn reserve(&mut self, name: &TextBuf) -> Result<(), AllocError>
        ensures ok { OnOk result (LeadNamesAlike self.old self.new) }
        ensures keys { OnOk result (AddsNameKey self.old self.new name.now) }
        ensures err { OnErr result (self.new ≡ self.old) }
    {
        if let Some(node) = self.put(name, None)? {
            self.set(name, Some(node));
        }
        Ok(())
    }

    /// Makes a name that is a key lead to a node, or to none. It takes no memory.
    pub fn set(&mut self, name: &TextBuf, node: Option<NodeId>)
        requires { is_name_key self.old name.now ≡ true }
        ensures set { SetsName self.old self.new name.now node }
        ensures keys { KeepNameKeys self.old self.new }
    {
        let Some(place) = self.names.place(name.get()) else {
            unreachable!();
        };
        self.nodes[place] = node;
    }

    /// A copy, under the same keys. It shares the names, and has new memory for where they lead.
    pub fn try_copy(&self, alloc: Global) -> Result<NodeNames, AllocError>
        ensures { IfOk result (λ copy. copy ≡ self.now) }
    {
        let NodeNames {
            names,
            nodes,
            longest,
            alloc: _,
        } = self;
        let names = names.clone()?;
        let nodes = nodes.as_slice().to_vec(alloc)?;
        Ok(NodeNames {
            names,
            nodes,
            longest: *longest,
            alloc,
        })
    }

    /// Makes a name a key, and lead to a node, or to none. Answers the node that it led to. Where memory is refused, nothing has
    /// changed.
    pub fn put(
        &mut self,
        name: &TextBuf,
        node: Option<NodeId>,
    ) -> Result<Option<NodeId>, AllocError>
        ensures ok { OnOk result (SetsName self.old self.new name.now node) }
        ensures keys { OnOk result (AddsNameKey self.old self.new name.now) }
        ensures led { IfOk result (λ led. led ≡ node_named self.old name.now) }
        ensures err { OnErr result (self.new ≡ self.old) }
    {
        let key = NameKey::copied(name)?;
        self.nodes.reserve(1)?;
        let place = put_name(&mut self.names, key)?;
        self.longest = self.longest.max(name.get().len());
        Ok(put_node(&mut self.nodes, place, node))
    }

    /// Makes a name lead to a node, unless it leads to one. Answers whether it led to none. So one look-up both asks whether a name
    /// is there and puts it in. A name that leads to a node takes memory as any other. Where memory is refused, nothing has changed.
    pub fn put_free(&mut self, name: &TextBuf, node: NodeId) -> Result<bool, AllocError>
        ensures free { IfOk result (λ free. free ≡ not (is_some (node_named self.old name.now))) }
        ensures ok { OnOk result (SetsName self.old self.new name.now (Some (unwrap_or (node_named self.old name.now) node))) }
        ensures keys { OnOk result (AddsNameKey self.old self.new name.now) }
        ensures err { OnErr result (self.new ≡ self.old) }
    {
        match self.put(name, Some(node))? {
            Some(led) => {
                self.set(name, Some(led));
                Ok(false)
            }
            None => Ok(true),
        }
    }
}

// Puts a name behind all others, if it isn't there yet. Answers its place. Names that are shared are copied for one that is new,
// and for no other.
fn put_name(names: &mut Rc<ListedNames>, key: NameKey) -> Result<usize, AllocError>
    ensures place { IfOk result (λ place. place ≡ position_or_len (same_bytes key) names.old.value) }
    ensures ok { OnOk result (names.new.value ≡ with_key same_bytes names.old.value key) }
    ensures err { OnErr result (names.new.value ≡ names.old.value) }
{
    if let Some(own) = Rc::get_mut(names) {
        return own.put(key);
    }
    match names.place(key.text()) {
        Some(place) => Ok(place),
        None => put_apart(names, key),
    }
}

// The same, with names of one's own from now on.
fn put_apart(names: &mut Rc<ListedNames>, key: NameKey) -> Result<usize, AllocError>
    ensures place { IfOk result (λ place. place ≡ position_or_len (same_bytes key) names.old.value) }
    ensures ok { OnOk result (names.new.value ≡ with_key same_bytes names.old.value key) }
    ensures err { OnErr result (names.new.value ≡ names.old.value) }
{
    let own = Rc::make_mut(names)?;
    let place = own.put(key)?;
    Ok(place)
}

// Puts a node at its place, or behind all others. Answers the node that was there, if one was. It takes no memory.
fn put_node(nodes: &mut Vec<Option<NodeId>>, place: usize, node: Option<NodeId>) -> Option<NodeId>
    requires room { vec_len nodes.old < vec_capacity nodes.old }
    ensures led { result ≡ slice_index_or nodes.old.items place None }
    ensures put { nodes.new.items ≡ node_put nodes.old.items place node }
{
    if place < nodes.len() {
        let led = nodes[place];
        nodes[place] = node;
        led
    } else {
        nodes.push_reserved(node);
        None
    }
}
