//! Sets of identifiers: names are looked up by hash, characters by code point.
//!
//! An `IdSet` is a list of identifiers in no stated order: what a contract says of it is which identifiers it has, and all
//! else may change. It takes memory for its names, and for the pages of its characters. A new kind of identifier is a look-up more.

ghost use Rattle.std.specs.Prelude.{◌≡◌, [], not, IfOk, OnOk, OnErr};
ghost use Rattle.coll_syntax.specs.Identifier.{has_id};
ghost use Rattle.coll_syntax.specs.declared.identifiers.Id.TheVariants.{Char, Named, Undefined};

use crate::HashKeys;
use crate::char_sets::CharSet;
use crate::names::Names;
use coll_lex::TextBuf;
use coll_syntax::Id;
use std::alloc::{AllocError, Global};
use std::marker::Model;

/// Identifiers, each once.
#[derive(Drop)]
pub struct IdSet {
    names: Names,
    chars: CharSet,
    undefined: bool,
}

impl Model for IdSet {
    ghost use Rattle.std.specs.Prelude.{List};
    ghost use Rattle.coll_syntax.specs.declared.identifiers.Id.{Id};
    ghost use Rattle.coll_lookups.specs.IdSets.{ids_in_set};

    ghost Value = { List Id };

    ghost view = { λ p. ids_in_set p.names p.chars p.undefined };
}

impl IdSet {
    ghost use Rattle.coll_lookups.specs.IdSets.{AddsId};

    /// No identifiers. It takes no memory.
    pub fn new(alloc: Global, keys: HashKeys) -> IdSet
        ensures { result ≡ [] }
    {
        IdSet {
            names: Names::new(alloc, keys),
            chars: CharSet::new(alloc),
            undefined: false,
        }
    }

    /// Whether an identifier is there.
    pub fn contains(&self, id: &Id) -> bool
        ensures { result ≡ has_id self.now id.now }
    {
        match id {
            Id::Char(c) => self.chars.contains(*c),
            Id::Named(name) => self.names.contains(name),
            Id::Undefined => self.undefined,
        }
    }

    /// Puts an identifier in. One that is there stays.
    pub fn insert(&mut self, id: &Id) -> Result<(), AllocError>
        ensures ok { OnOk result (AddsId self.old self.new id.now) }
        ensures err { OnErr result (self.new ≡ self.old) }
    {
        self.put_free(id)?;
        Ok(())
    }

    /// Puts an identifier in, and answers whether it wasn't there. One that is there stays.
    pub fn put_free(&mut self, id: &Id) -> Result<bool, AllocError>
        ensures free { IfOk result (λ free. free ≡ not (has_id self.old id.now)) }
        ensures ok { OnOk result (AddsId self.old self.new id.now) }
        ensures err { OnErr result (self.new ≡ self.old) }
    {
        match id {
            Id::Char(c) => self.put_char(*c),
            Id::Named(name) => self.put_name(name),
            Id::Undefined => Ok(self.put_undefined()),
        }
    }

    // The same of a character.
    fn put_char(&mut self, c: char) -> Result<bool, AllocError>
        ensures free { IfOk result (λ free. free ≡ not (has_id self.old (Char c))) }
        ensures ok { OnOk result (AddsId self.old self.new (Char c)) }
        ensures err { OnErr result (self.new ≡ self.old) }
    {
        let free = self.chars.put(c)?;
        Ok(free)
    }

    // The same of a name.
    fn put_name(&mut self, name: &TextBuf) -> Result<bool, AllocError>
        ensures free { IfOk result (λ free. free ≡ not (has_id self.old (Named name.now))) }
        ensures ok { OnOk result (AddsId self.old self.new (Named name.now)) }
        ensures err { OnErr result (self.new ≡ self.old) }
    {
        let free = self.names.put_free(name.get())?;
        Ok(free)
    }

    // The same of the word `UNDEFINED`. It takes no memory.
    fn put_undefined(&mut self) -> bool
        ensures free { result ≡ not (has_id self.old Undefined) }
        ensures ok { AddsId self.old self.new Undefined }
    {
        let free = !self.undefined;
        self.undefined = true;
        free
    }
}
