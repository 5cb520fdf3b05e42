//! What each name of a source means, and what is declared, where no table is asked.
//!
//! The rules are those of `DeclaredNames`. What a table declares may be copied into them. They hold no table, so they outlive it, and
//! may go to another thread.

use coll_lookups::HashKeys;
use coll_source_lines::{Report, SourceFault, SourceLine, SourcePlace};
use coll_source_names::{DeclaredNames, DeclaredRange, Found, NameGuess, SourceStatement};
use coll_syntax::{Id, OrderLine};
use coll_table::Table;
use std::alloc::{AllocError, Global};

/// All names that are declared.
#[derive(Drop)]
pub struct Meanings {
    names: DeclaredNames,
}

impl Meanings {
    /// Nothing is declared yet.
    pub fn new(alloc: Global, keys: HashKeys) -> Meanings {
        Meanings {
            names: DeclaredNames::new(alloc, keys, false),
        }
    }

    /// Nothing is declared yet. Ranges of names are kept as they are, where they can be: `take_ranges` has these, and `take_declared` all
    /// other declarations.
    pub fn keeping_ranges(alloc: Global, keys: HashKeys) -> Meanings {
        Meanings {
            names: DeclaredNames::new(alloc, keys, true),
        }
    }

    /// What is declared is what this table declares.
    pub fn of_table(alloc: Global, keys: HashKeys, table: &Table) -> Result<Meanings, AllocError> {
        let mut meanings = Meanings::new(alloc, keys);
        for item in table.declared() {
            meanings.names.know(item)?;
        }
        Ok(meanings)
    }

    /// What is known of names.
    pub(crate) fn names(&self) -> &DeclaredNames {
        &self.names
    }

    /// What is found of an identifier.
    pub fn found(&self, id: &Id) -> Found {
        self.names.found(id)
    }

    /// What is found of an identifier, as `found` tells it. A name is looked for at a guess first, where it mostly stands if names are
    /// asked for in the order in which they were declared. The guess is then what was declared behind it.
    pub fn found_behind(&self, id: &Id, guess: &mut NameGuess) -> Found {
        self.names.found_behind(id, guess)
    }

    /// Whether an identifier is a symbol's.
    pub fn is_symbol(&self, id: &Id) -> bool {
        self.names.is_symbol(None, id)
    }

    /// What an identifier stands for: itself, or what its name means.
    pub fn resolved(&self, id: Id) -> Result<Id, AllocError> {
        self.names.resolved(None, id)
    }

    /// An order line, whose identifier is what it stands for.
    pub fn meant(&self, line: OrderLine) -> Result<OrderLine, AllocError> {
        self.names.meant(None, line)
    }

    /// Takes the declarations of the source out, in their order.
    pub fn take_declared(&mut self) -> Vec<SourceStatement> {
        self.names.take_declared()
    }

    /// Takes the ranges of names that were kept as they are out, in their order.
    pub fn take_ranges(&mut self) -> Vec<DeclaredRange> {
        self.names.take_ranges()
    }

    /// Takes what these lines declare.
    pub fn take_all(
        &mut self,
        lines: &[SourceLine],
        report: &mut Report,
    ) -> Result<(), SourceFault> {
        self.names.take_all(None, lines, report)
    }

    /// Declares what has an order line and isn't declared, as a symbol.
    pub fn declare_placed(
        &mut self,
        place: SourcePlace,
        id: &Id,
        report: &mut Report,
    ) -> Result<(), SourceFault> {
        self.names.declare_placed(None, place, id, report)
    }
}
