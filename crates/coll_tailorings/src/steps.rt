//! What a tailoring does, step by step.
//!
//! Each line is taken by what stands before it: an order line stands in a block or outside one, or names a section that is moved.
//! Ellipses are written out, identifiers are what their names mean, and what a block places and nothing declares is declared. After
//! the last line it is known what all blocks place beside the table.

use coll_lex::{LexFault, MOST_LINES, TextBuf};
use coll_lookups::{HashKeys, WordKeys};
use coll_meanings::{Ellipses, OrderLines, SourceIds, TableMeanings, put_line, put_range};
use coll_source_lines::{
    Adjustment, Lost, Report, Said, SourceFault, SourceLine, SourcePlace, Tailoring,
};
use coll_syntax::{Id, OrderLine, SyntaxFault};
use coll_texts::LoadCause;
use indexmap::IndexSet;
use std::alloc::{AllocError, Global};

/// What a tailoring does.
#[derive(Drop)]
pub(crate) enum Step {
    /// `reorder-after`: what follows is placed behind this.
    After(Id),
    /// An order line.
    Order(OrderLine),
    /// `reorder-end`.
    End,
    /// A section is placed behind another one.
    SectionAfter {
        /// The name of the section that is moved.
        moved: TextBuf,
        /// The name of the section that it is placed behind.
        after: TextBuf,
    },
}

/// A step, and where it comes from.
#[derive(Drop)]
pub(crate) struct StepAt {
    pub(crate) place: SourcePlace,
    pub(crate) step: Step,
}

/// The name of a table that is tailored, and where it is copied first.
#[derive(Drop)]
pub(crate) struct CopyAt {
    pub(crate) place: SourcePlace,
    pub(crate) name: TextBuf,
}

/// All that the lines of a tailoring say.
#[derive(Drop)]
pub(crate) struct Stepped<'t> {
    /// What names mean.
    pub(crate) meanings: TableMeanings<'t>,
    /// What all blocks place.
    pub(crate) expected: SourceIds,
    /// The names of the tables that are tailored, each once.
    pub(crate) copies: Vec<CopyAt>,
    /// The steps, in their order.
    pub(crate) steps: Vec<StepAt>,
}

// What a line stands in.
#[derive(Drop)]
enum Within {
    // Nothing.
    Nothing,
    // A block.
    Block,
    // A list of sections, each of which is placed behind the one before, the next one behind this.
    Sections(TextBuf),
}

/// The steps of a tailoring, of which some lines have been taken.
#[derive(Drop)]
pub(crate) struct Steps<'t> {
    said: Stepped<'t>,
    // The names of the tables that are tailored, to be looked up.
    bases: IndexSet<String, WordKeys>,
    within: Within,
    ellipses: Ellipses,
    alloc: Global,
}

impl<'t> Steps<'t> {
    /// No line has been taken, and names mean this.
    pub(crate) fn new(alloc: Global, keys: HashKeys, meanings: TableMeanings<'t>) -> Steps<'t> {
        Steps {
            said: Stepped {
                meanings,
                expected: SourceIds::new(alloc, keys),
                copies: Vec::new(alloc),
                steps: Vec::new(alloc),
            },
            bases: IndexSet::with_hasher(alloc, WordKeys::new(keys)),
            within: Within::Nothing,
            ellipses: Ellipses::new(alloc),
            alloc,
        }
    }

    /// What these lines say. What they declare is known already.
    pub(crate) fn said_by(
        mut self,
        lines: Vec<SourceLine>,
        report: &mut Report,
    ) -> Result<Stepped<'t>, SourceFault> {
        match self.take_all(lines, report) {
            Ok(()) => Ok(self.into_said()),
            Err(fault) => {
                drop(self);
                Err(fault)
            }
        }
    }

    // Takes all lines.
    fn take_all(&mut self, lines: Vec<SourceLine>, report: &mut Report) -> Result<(), SourceFault> {
        for line in lines {
            self.take(line, report)?;
        }
        self.ellipses.leave(report)
    }

    // What the lines taken so far say.
    fn into_said(self) -> Stepped<'t> {
        let Steps {
            said,
            bases,
            within,
            ellipses,
            alloc: _,
        } = self;
        drop(bases);
        drop(within);
        drop(ellipses);
        said
    }

    // Takes a line.
    fn take(&mut self, line: SourceLine, report: &mut Report) -> Result<(), SourceFault> {
        let SourceLine { place, said } = line;
        match said {
            Said::Order(line) => self.order(place, line, report),
            Said::Orders {
                first,
                last,
                weights,
            } => put_range(self, place, first, last, weights, report),
            Said::Ellipsis(weights) => self.ellipses.dots(place, weights, report),
            Said::Tailors(tailoring) => self.tailoring(place, tailoring, report),
            Said::Unread => self.ellipses.leave(report),
            Said::OrderEnd => self.lose(place, "order_end", report),
            Said::Section(name) => self.lose_section(place, name, report),
            Said::OrderStart { section, rules } => {
                drop(section);
                drop(rules);
                Err(place.load_fault(LoadCause::Syntax(SyntaxFault::UnknownStatement)))
            }
            Said::Declares(declaration) => {
                drop(declaration);
                Ok(())
            }
            Said::Script => Ok(()),
        }
    }

    // Takes a line that tailorings alone have.
    fn tailoring(
        &mut self,
        place: SourcePlace,
        tailoring: Tailoring,
        report: &mut Report,
    ) -> Result<(), SourceFault> {
        match tailoring {
            Tailoring::ReorderAfter(target) => self.after(place, target, report),
            Tailoring::ReorderEnd => self.end_block(place, report),
            Tailoring::SectionAfter { moved, after } => {
                self.section_after(place, moved, after, report)
            }
            Tailoring::SectionsAfter(after) => self.sections_after(place, after, report),
            Tailoring::SectionsEnd => self.end_sections(place, report),
            Tailoring::Base(name) => self.base(place, name),
        }
    }

    // `reorder-after`: a block begins, and one that is open ends.
    fn after(
        &mut self,
        place: SourcePlace,
        target: Id,
        report: &mut Report,
    ) -> Result<(), SourceFault> {
        match self.ellipses.leave(report) {
            Ok(()) => {
                self.stand_in(Within::Block);
                let target = self.said.meanings.resolved(target)?;
                self.push(place, Step::After(target))
            }
            Err(fault) => {
                drop(target);
                Err(fault)
            }
        }
    }

    // From now on lines stand in this.
    fn stand_in(&mut self, within: Within) {
        self.within = within;
    }

    // `reorder-end`.
    fn end_block(&mut self, place: SourcePlace, report: &mut Report) -> Result<(), SourceFault> {
        if !self.is_in_block() {
            return self.lose(place, "reorder-end", report);
        }
        self.ellipses.leave(report)?;
        self.stand_in(Within::Nothing);
        self.push(place, Step::End)
    }

    // `reorder-section-after`.
    fn section_after(
        &mut self,
        place: SourcePlace,
        moved: TextBuf,
        after: TextBuf,
        report: &mut Report,
    ) -> Result<(), SourceFault> {
        match self.ellipses.leave(report) {
            Ok(()) => self.push(place, Step::SectionAfter { moved, after }),
            Err(fault) => {
                drop(moved);
                drop(after);
                Err(fault)
            }
        }
    }

    // `reorder-sections-after`: a list of sections begins. A block that is open ends.
    fn sections_after(
        &mut self,
        place: SourcePlace,
        after: TextBuf,
        report: &mut Report,
    ) -> Result<(), SourceFault> {
        match self.end_before_sections(place, report) {
            Ok(()) => {
                self.stand_in(Within::Sections(after));
                Ok(())
            }
            Err(fault) => {
                drop(after);
                Err(fault)
            }
        }
    }

    // Ends a block that is open where a list of sections begins.
    fn end_before_sections(
        &mut self,
        place: SourcePlace,
        report: &mut Report,
    ) -> Result<(), SourceFault> {
        self.ellipses.leave(report)?;
        report.count(Adjustment::SectionsMoved, place)?;
        if self.is_in_block() {
            self.push(place, Step::End)?;
        }
        Ok(())
    }

    // `reorder-sections-end`.
    fn end_sections(&mut self, place: SourcePlace, report: &mut Report) -> Result<(), SourceFault> {
        if !matches!(self.within, Within::Sections(_)) {
            return self.lose(place, "reorder-sections-end", report);
        }
        self.stand_in(Within::Nothing);
        Ok(())
    }

    // Whether a block is open.
    fn is_in_block(&self) -> bool {
        matches!(self.within, Within::Block)
    }

    // `copy` of a table that is tailored. It is kept once.
    fn base(&mut self, place: SourcePlace, name: TextBuf) -> Result<(), SourceFault> {
        match self.know_base(name.get()) {
            Ok(true) => Ok(self.said.copies.push(CopyAt { place, name })?),
            known => {
                drop(name);
                known?;
                Ok(())
            }
        }
    }

    // Notes the name of a table that is tailored, and answers whether it is new.
    fn know_base(&mut self, name: &str) -> Result<bool, AllocError> {
        Ok(self.bases.insert(String::from_str(self.alloc, name)?)?)
    }

    // An order line, or the name of a section that is moved.
    fn order(
        &mut self,
        place: SourcePlace,
        line: OrderLine,
        report: &mut Report,
    ) -> Result<(), SourceFault> {
        match self.section_before() {
            Ok(Some(after)) => {
                let moved = self.section(place, &line, after, report);
                drop(line);
                moved
            }
            Ok(None) => {
                let line = self.said.meanings.meant(line)?;
                put_line(self, place, line, report)
            }
            Err(error) => {
                drop(line);
                Err(SourceFault::from(error))
            }
        }
    }

    // The section that a next one is placed behind, if sections are moved here.
    fn section_before(&self) -> Result<Option<TextBuf>, AllocError> {
        match &self.within {
            Within::Sections(after) => Ok(Some(after.try_copy()?)),
            Within::Nothing | Within::Block => Ok(None),
        }
    }

    // A section that is placed behind the one before.
    fn section(
        &mut self,
        place: SourcePlace,
        line: &OrderLine,
        after: TextBuf,
        report: &mut Report,
    ) -> Result<(), SourceFault> {
        match self.moved_by(line) {
            Ok(Some(moved)) => self.section_after(place, moved, after, report),
            Ok(None) => {
                drop(after);
                report.lose(Adjustment::Dropped, place, Lost::Id(line.id.clone()?))
            }
            Err(error) => {
                drop(after);
                Err(SourceFault::from(error))
            }
        }
    }

    // The section that a line names and no more, behind which the next one is placed.
    fn moved_by(&mut self, line: &OrderLine) -> Result<Option<TextBuf>, AllocError> {
        match (&line.id, &line.weights) {
            (Id::Named(moved), None) => {
                self.stand_in(Within::Sections(moved.try_copy()?));
                Ok(Some(moved.try_copy()?))
            }
            _ => Ok(None),
        }
    }

    // Notes what a block places, and declares it, if it isn't declared.
    fn expect(
        &mut self,
        place: SourcePlace,
        id: &Id,
        report: &mut Report,
    ) -> Result<(), SourceFault> {
        if self.is_in_block() {
            self.said.meanings.declare_placed(place, id, report)?;
            self.said.expected.put(id)?;
        }
        Ok(())
    }

    // Puts a step behind all others, of which there are no more than a text has lines.
    fn push(&mut self, place: SourcePlace, step: Step) -> Result<(), SourceFault> {
        if self.said.steps.len() >= MOST_LINES as usize {
            drop(step);
            return Err(place.load_fault(LoadCause::from(LexFault::TooManyLines)));
        }
        Ok(self.said.steps.push(StepAt { place, step })?)
    }

    // Tells that a line is left out that begins with this word.
    fn lose(
        &mut self,
        place: SourcePlace,
        word: &str,
        report: &mut Report,
    ) -> Result<(), SourceFault> {
        self.ellipses.leave(report)?;
        let what = Lost::Word(TextBuf::copied(self.alloc, word)?);
        report.lose(Adjustment::Dropped, place, what)
    }

    // Tells that a line is left out that begins a section.
    fn lose_section(
        &mut self,
        place: SourcePlace,
        name: TextBuf,
        report: &mut Report,
    ) -> Result<(), SourceFault> {
        match self.ellipses.leave(report) {
            Ok(()) => report.lose(Adjustment::Dropped, place, Lost::Id(Id::Named(name))),
            Err(fault) => {
                drop(name);
                Err(fault)
            }
        }
    }
}

impl OrderLines for Steps<'_> {
    fn ellipses(&mut self) -> &mut Ellipses {
        &mut self.ellipses
    }

    fn put(
        &mut self,
        place: SourcePlace,
        line: OrderLine,
        report: &mut Report,
    ) -> Result<(), SourceFault> {
        match self.expect(place, &line.id, report) {
            Ok(()) => self.push(place, Step::Order(line)),
            Err(fault) => {
                drop(line);
                Err(fault)
            }
        }
    }
}
