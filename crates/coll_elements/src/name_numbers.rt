//! A number for each name, found by hash: the place of each collating element by its name.

ghost use Rattle.std.specs.Prelude.{◌≡◌, [], ℕ, List, Some, cond, chars, OnOk};
ghost use Rattle.coll_syntax.specs.Identifier.{same_name};

use coll_lookups::HashKeys;
use std::alloc::{AllocError, Global};
use std::collections::HashMap;
use std::marker::Model;

/// Numbers by name.
#[derive(Drop)]
pub(crate) struct NameNumbers {
    numbers: HashMap<String, u32, HashKeys>,
    alloc: Global,
}

impl Model for NameNumbers {
    ghost use Rattle.std.specs.Prelude.{List};
    ghost use Rattle.coll_elements.specs.NameMaps.{NamedNumber, named_numbers, AreKeys, IsText};

    ghost Value = { List NamedNumber };

    ghost view = { λ n. named_numbers n.numbers.entries };

    ghost invariant = { λ n. AreKeys IsText n.numbers.entries };
}

impl NameNumbers {
    ghost use Rattle.coll_elements.specs.NameMaps.{number_named};

    /// No names. It takes no memory.
    pub(crate) fn new(alloc: Global, keys: HashKeys) -> NameNumbers
        ensures { result ≡ [] }
    {
        NameNumbers {
            numbers: HashMap::with_hasher(alloc, keys),
            alloc,
        }
    }

    /// The number of a name, if it has one.
    pub(crate) fn get(&self, name: &str) -> Option<u32>
        ensures { result ≡ number_named self.now (chars name.now) }
    {
        match self.numbers.get(name) {
            Some(number) => Some(*number),
            None => None,
        }
    }

    /// Gives a name a number.
    pub(crate) fn set(&mut self, name: &str, number: u32) -> Result<(), AllocError>
        ensures { OnOk result ((other : List ℕ)
            → number_named self.new other ≡ cond (same_name other (chars name.now)) (Some number) (number_named self.old other)) }
    {
        let text = String::from_str(self.alloc, name)?;
        self.numbers.insert(text, number)?;
        Ok(())
    }
}
