//! What each name of a source means, and what is declared, over a table that it tailors.
//!
//! The rules are those of `DeclaredNames`; here stands the table that is asked.

use coll_lookups::HashKeys;
use coll_source_lines::{Report, SourceFault, SourceLine, SourcePlace};
use coll_source_names::{DeclaredNames, SourceStatement};
use coll_syntax::{Id, OrderLine};
use coll_table::Table;
use std::alloc::{AllocError, Global};

/// All names that are declared, over a table that is tailored.
#[derive(Drop)]
pub struct TableMeanings<'t> {
    table: &'t Table,
    names: DeclaredNames,
}

impl<'t> TableMeanings<'t> {
    /// What is declared is what this table declares.
    pub fn new(alloc: Global, keys: HashKeys, table: &'t Table) -> TableMeanings<'t> {
        TableMeanings {
            table,
            names: DeclaredNames::new(alloc, keys, false),
        }
    }

    /// The table that is asked.
    pub(crate) fn table(&self) -> &'t Table {
        self.table
    }

    /// What is known of names, but for what the table is asked.
    pub(crate) fn names(&self) -> &DeclaredNames {
        &self.names
    }

    /// Whether an identifier is a symbol's.
    pub fn is_symbol(&self, id: &Id) -> bool {
        self.names.is_symbol(Some(self.table), id)
    }

    /// What an identifier stands for: itself, or what its name means.
    pub fn resolved(&self, id: Id) -> Result<Id, AllocError> {
        self.names.resolved(Some(self.table), id)
    }

    /// An order line, whose identifier is what it stands for.
    pub fn meant(&self, line: OrderLine) -> Result<OrderLine, AllocError> {
        self.names.meant(Some(self.table), line)
    }

    /// Takes the declarations of the source out, in their order.
    pub fn take_declared(&mut self) -> Vec<SourceStatement> {
        self.names.take_declared()
    }

    /// Takes what these lines declare.
    pub fn take_all(
        &mut self,
        lines: &[SourceLine],
        report: &mut Report,
    ) -> Result<(), SourceFault> {
        self.names.take_all(Some(self.table), lines, report)
    }

    /// Declares what has an order line and isn't declared, as a symbol.
    pub fn declare_placed(
        &mut self,
        place: SourcePlace,
        id: &Id,
        report: &mut Report,
    ) -> Result<(), SourceFault> {
        self.names
            .declare_placed(Some(self.table), place, id, report)
    }
}
