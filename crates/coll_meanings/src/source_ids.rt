//! Sets of the identifiers of a source.
//!
//! Characters are found by code point (`CharSet`), so a tailoring that moves ten thousands of them hashes none. Names are looked up by
//! hash, and a short one takes no memory of its own.

use coll_lookups::{CharSet, HashKeys, NameKey, NameText, WordKeys};
use coll_syntax::Id;
use indexmap::IndexSet;
use std::alloc::{AllocError, Global};

/// Identifiers, each once.
#[derive(Drop)]
pub struct SourceIds {
    names: IndexSet<NameKey, WordKeys>,
    chars: CharSet,
    undefined: bool,
}

impl SourceIds {
    /// No identifiers. It takes no memory.
    pub fn new(alloc: Global, keys: HashKeys) -> SourceIds {
        SourceIds {
            names: IndexSet::with_hasher(alloc, WordKeys::new(keys)),
            chars: CharSet::new(alloc),
            undefined: false,
        }
    }

    /// Whether an identifier is there.
    pub fn contains(&self, id: &Id) -> bool {
        match id {
            Id::Char(c) => self.chars.contains(*c),
            Id::Named(name) => self.names.contains(NameText { text: name.get() }),
            Id::Undefined => self.undefined,
        }
    }

    /// Puts an identifier in. One that is there stays.
    pub fn put(&mut self, id: &Id) -> Result<(), AllocError> {
        match id {
            Id::Char(c) => {
                self.chars.put(*c)?;
            }
            Id::Named(name) => {
                self.names.insert(NameKey::copied(name)?)?;
            }
            Id::Undefined => self.undefined = true,
        }
        Ok(())
    }

    /// Takes an identifier out, if it is there. It takes no memory.
    pub fn take_out(&mut self, id: &Id) {
        match id {
            Id::Char(c) => self.chars.take_out(*c),
            Id::Named(name) => {
                let _ = self.names.swap_remove(NameText { text: name.get() });
            }
            Id::Undefined => self.undefined = false,
        }
    }
}
