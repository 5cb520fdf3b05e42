//! Names that are declared and never placed.

ghost use Rattle.std.specs.Prelude.{◌≡◌};

use crate::collecting::Collected;
use crate::warnings::Warning;
use coll_lex::TextBuf;
use coll_lookups::{HashKeys, IdSet};
use coll_syntax::Id;
use coll_table::Table;
use std::alloc::{AllocError, Global};

/// A name that a line declares.
#[derive(Drop)]
pub enum DeclaredName {
    /// That of a symbol.
    Symbol(TextBuf),
    /// That of a collating element.
    Element(TextBuf),
}

// A declaration: the number of its line, the name as an identifier, and the warning where that is never placed.
#[derive(Drop)]
struct DeclaredAt {
    line: u32,
    id: Id,
    unplaced: Warning,
}

/// What was declared, and what stood on order lines.
pub struct Declarations {
    // What was declared, in order.
    declared: Vec<DeclaredAt>,
    // The identifiers that order lines had, by own names, also of lines at fault.
    mentioned: IdSet,
}

// Written out, so that each place that drops it is one call.
impl Drop for Declarations {
    fn drop(self) {
        let Declarations {
            declared,
            mentioned,
        } = self;
        drop(declared);
        drop(mentioned);
    }
}

impl Declarations {
    /// Nothing declared yet.
    pub fn new(alloc: Global, keys: HashKeys) -> Declarations {
        Declarations {
            declared: Vec::new(alloc),
            mentioned: IdSet::new(alloc, keys),
        }
    }

    /// Notes a name that a line declares, behind those of the lines before.
    pub fn declare(&mut self, line: u32, name: DeclaredName) -> Result<(), AllocError> {
        let (name, unplaced) = match name {
            DeclaredName::Symbol(name) => (name, Warning::SymbolNeverPlaced),
            DeclaredName::Element(name) => (name, Warning::ElementNeverPlaced),
        };
        self.declared.push(DeclaredAt {
            line,
            id: Id::Named(name),
            unplaced,
        })?;
        Ok(())
    }

    /// Notes the identifier of an order line.
    pub fn mention(&mut self, id: &Id) -> Result<(), AllocError> {
        self.mentioned.insert(id)
    }

    /// Whether an order line had this identifier.
    pub fn has_mentioned(&self, id: &Id) -> bool {
        self.mentioned.contains(id)
    }

    /// Warns of the names that were declared and that neither have an entry nor stood on an order line.
    pub fn warn_of_unplaced(&self, table: &Table, told: &mut Collected) -> Result<(), AllocError>
        ensures { told.new.told.faults ≡ told.old.told.faults }
    {
        for declared in self.declared.as_slice() {
            if table.entry(&declared.id).is_none() && !self.mentioned.contains(&declared.id) {
                told.warn(declared.unplaced, declared.line, Some(&declared.id))?;
            }
        }
        Ok(())
    }
}
