//! The order of a table that is made of a source: its sections and entries, in their order, no identifier placed twice.

use coll_lex::TextBuf;
use coll_lookups::{HashKeys, WordKeys};
use coll_nodes::{MOST_ENTRIES, MOST_SECTIONS};
use coll_source_lines::{Adjustment, Lost, Report, SourceFault, SourcePlace};
use coll_source_names::{Found, Placed};
use coll_syntax::OrderLine;
use coll_texts::LoadCause;
use indexmap::IndexSet;
use std::alloc::{AllocError, Global};

/// What stands in an order.
#[derive(Drop)]
pub(crate) enum Ordered {
    /// A section begins.
    Section(TextBuf),
    /// An entry.
    Entry(OrderLine),
}

/// What stands in an order, and where it comes from.
#[derive(Drop)]
pub(crate) struct OrderedLine {
    pub(crate) place: SourcePlace,
    pub(crate) ordered: Ordered,
}

/// The order of a table.
#[derive(Drop)]
pub(crate) struct Order {
    lines: Vec<OrderedLine>,
    placed: Placed,
    // The names of the sections that have one.
    sections: IndexSet<String, WordKeys>,
    entries: usize,
    alloc: Global,
}

impl Order {
    /// No section has a name, and there is no entry.
    pub(crate) fn new(alloc: Global, keys: HashKeys) -> Order {
        Order {
            lines: Vec::new(alloc),
            placed: Placed::new(alloc, keys),
            sections: IndexSet::with_hasher(alloc, WordKeys::new(keys)),
            entries: 0,
            alloc,
        }
    }

    /// Whether it has no entry.
    pub(crate) fn is_empty(&self) -> bool {
        self.entries == 0
    }

    /// What stands in it, and what it places.
    pub(crate) fn into_parts(self) -> (Vec<OrderedLine>, Placed) {
        let Order {
            lines,
            placed,
            sections,
            entries: _,
            alloc: _,
        } = self;
        drop(sections);
        (lines, placed)
    }

    /// Begins a section. Where it has no name, or that of another one, it gets one of its own.
    pub(crate) fn begin_section(
        &mut self,
        place: SourcePlace,
        name: Option<TextBuf>,
        report: &mut Report,
    ) -> Result<(), SourceFault> {
        if self.sections.len().saturating_add(1) >= MOST_SECTIONS {
            drop(name);
            return Err(place.load_fault(LoadCause::Full));
        }
        match name {
            Some(name) => self.begin_named(place, name, report),
            None => self.begin_unnamed(place, report),
        }
    }

    // Begins a section of this name, or of one of its own where another section has this.
    fn begin_named(
        &mut self,
        place: SourcePlace,
        name: TextBuf,
        report: &mut Report,
    ) -> Result<(), SourceFault> {
        if self.sections.contains(name.get()) {
            drop(name);
            return self.begin_unnamed(place, report);
        }
        self.put_section(place, name)
    }

    // Begins a section of a name of its own.
    fn begin_unnamed(
        &mut self,
        place: SourcePlace,
        report: &mut Report,
    ) -> Result<(), SourceFault> {
        report.count(Adjustment::SectionNamed, place)?;
        let name = self.free_name()?;
        self.put_section(place, name)
    }

    // Puts a section behind all that stands there.
    fn put_section(&mut self, place: SourcePlace, name: TextBuf) -> Result<(), SourceFault> {
        match self.know_section(name.get()) {
            Ok(()) => Ok(
                self.lines.push(OrderedLine {
                    place,
                    ordered: Ordered::Section(name),
                })?,
            ),
            Err(error) => {
                drop(name);
                Err(SourceFault::from(error))
            }
        }
    }

    // Notes the name of a section.
    fn know_section(&mut self, name: &str) -> Result<(), AllocError> {
        self.sections.insert(String::from_str(self.alloc, name)?)?;
        Ok(())
    }

    // A name that no section has: a number that rises until there is none.
    fn free_name(&self) -> Result<TextBuf, AllocError> {
        let count = self.sections.len().saturating_add(1);
        for more in 0..count {
            let name = format!(in self.alloc; "section-{}", count.saturating_add(more))?;
            if !self.sections.contains(name.as_str()) {
                return Ok(TextBuf::new(name));
            }
        }
        TextBuf::copied(self.alloc, "section")
    }

    /// Puts an entry behind all that stands there, unless its identifier, of which this was found, is placed already.
    pub(crate) fn put(
        &mut self,
        place: SourcePlace,
        line: OrderLine,
        found: Found,
        report: &mut Report,
    ) -> Result<(), SourceFault> {
        match self.placed.put(found) {
            Ok(true) => self.put_entry(place, line),
            Ok(false) => {
                let OrderLine { id, weights } = line;
                drop(weights);
                report.lose(Adjustment::PlacedTwice, place, Lost::Id(id))
            }
            Err(error) => {
                drop(line);
                Err(SourceFault::from(error))
            }
        }
    }

    // Counts an entry, and puts it behind all that stands there.
    fn put_entry(&mut self, place: SourcePlace, line: OrderLine) -> Result<(), SourceFault> {
        if self.entries >= MOST_ENTRIES {
            drop(line);
            return Err(place.load_fault(LoadCause::Full));
        }
        self.lines.push(OrderedLine {
            place,
            ordered: Ordered::Entry(line),
        })?;
        self.entries += 1;
        Ok(())
    }
}
