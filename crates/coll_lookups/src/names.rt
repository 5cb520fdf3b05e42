//! Sets of names, with a look-up by hash.
//!
//! A `Names` is the list of its names, each once, in no stated order. How a name is found may change.
//! `IdSet` keeps its names in it; names that lead to a node are kept by `node_names`.

ghost use Rattle.std.specs.Prelude.{◌≡◌, [], not, IfOk, OnOk, OnErr, chars};
ghost use Rattle.coll_syntax.specs.Identifier.{has_name};

use crate::{HashKeys, WordKeys};
use coll_lex::TextBuf;
use std::alloc::{AllocError, Global};
use std::collections::HashSet;
use std::marker::Model;

/// Names, each once.
#[derive(Drop)]
pub struct Names {
    names: HashSet<String, WordKeys>,
    alloc: Global,
}

impl Model for Names {
    ghost use Rattle.std.specs.Prelude.{List, ℕ};
    ghost use Rattle.coll_lookups.specs.IdSets.{all_characters_of, AreTexts};

    ghost Value = { List (List ℕ) };

    ghost view = { λ n. all_characters_of n.names.keys };

    ghost invariant = { λ n. AreTexts n.names.keys };
}

impl Names {
    ghost use Rattle.coll_lookups.specs.IdSets.{AddsName};

    /// No names. It takes no memory.
    pub fn new(alloc: Global, keys: HashKeys) -> Names
        ensures { result ≡ [] }
    {
        Names {
            names: HashSet::with_hasher(alloc, WordKeys::new(keys)),
            alloc,
        }
    }

    /// Whether a name is there.
    pub fn contains(&self, name: &TextBuf) -> bool
        ensures { result ≡ has_name self.now name.now }
    {
        self.names.contains(name.get())
    }

    /// Puts a name in, and answers whether it wasn't there. One that is there stays.
    pub fn put_free(&mut self, name: &str) -> Result<bool, AllocError>
        ensures free { IfOk result (λ free. free ≡ not (has_name self.old (chars name.now))) }
        ensures ok { OnOk result (AddsName self.old self.new (chars name.now)) }
        ensures err { OnErr result (self.new ≡ self.old) }
    {
        let text = String::from_str(self.alloc, name)?;
        let free = self.names.insert(text)?;
        Ok(free)
    }
}
