//! Order line after order line, into the order of a table.
//!
//! The identifier of a line is looked up once: what is found of it tells what it stands for, whether it is declared, whether it is a
//! symbol, and whether it is placed already.

use crate::orders::Order;
use coll_lex::TextBuf;
use coll_lookups::HashKeys;
use coll_meanings::{
    Ellipses, Meanings, OrderLines, put_before, put_range, without_symbol_weights,
};
use coll_source_lines::{Adjustment, Report, Said, SourceFault, SourceLine, SourcePlace};
use coll_source_names::{Found, NameGuess};
use coll_syntax::{Id, OrderLine, SyntaxFault};
use coll_texts::LoadCause;
use std::alloc::Global;

/// An order that is being put together, line after line.
#[derive(Drop)]
pub(crate) struct Placing {
    meanings: Meanings,
    order: Order,
    // Whether an `order_start` has stood.
    started: bool,
    // Whether an order is open.
    open: bool,
    ellipses: Ellipses,
    // Where the name of the next order line is looked for first: names are mostly placed in the order in which they were declared.
    guess: NameGuess,
}

impl Placing {
    /// Nothing is placed yet, and names mean this.
    pub(crate) fn new(alloc: Global, keys: HashKeys, meanings: Meanings) -> Placing {
        Placing {
            meanings,
            order: Order::new(alloc, keys),
            started: false,
            open: false,
            ellipses: Ellipses::new(alloc),
            guess: NameGuess::new(),
        }
    }

    /// What names mean, and the order that these lines have; those of a source without any order line and without `order_start` have
    /// none. What they declare is known already.
    pub(crate) fn placed(
        mut self,
        lines: Vec<SourceLine>,
        report: &mut Report,
    ) -> Result<(Meanings, Order), SourceFault> {
        match self.take_all(lines, report) {
            Ok(()) => Ok(self.into_parts()),
            Err(fault) => {
                drop(self);
                Err(fault)
            }
        }
    }

    // What names mean, and the order.
    fn into_parts(self) -> (Meanings, Order) {
        let Placing {
            meanings,
            order,
            started: _,
            open: _,
            ellipses,
            guess: _,
        } = self;
        drop(ellipses);
        (meanings, order)
    }

    // Takes all lines.
    fn take_all(&mut self, lines: Vec<SourceLine>, report: &mut Report) -> Result<(), SourceFault> {
        for line in lines {
            self.take(line, report)?;
        }
        self.finish(report)
    }

    // Leaves the last line. A source without any order line and without `order_start` has no rules.
    fn finish(&mut self, report: &mut Report) -> Result<(), SourceFault> {
        self.ellipses.leave(report)?;
        if self.order.is_empty() && !self.started {
            return Err(SourcePlace { text: 0, line: 0 }.load_fault(LoadCause::NoRules));
        }
        Ok(())
    }

    // Takes a line.
    fn take(&mut self, line: SourceLine, report: &mut Report) -> Result<(), SourceFault> {
        let SourceLine { place, said } = line;
        match said {
            Said::OrderStart { section, rules } => {
                drop(rules);
                self.start(place, section, report)
            }
            Said::OrderEnd => self.stop(report),
            Said::Section(name) => self.section(place, name, report),
            Said::Order(line) => self.order(place, line, report),
            Said::Orders {
                first,
                last,
                weights,
            } => put_range(self, place, first, last, weights, report),
            Said::Ellipsis(weights) => self.ellipses.dots(place, weights, report),
            Said::Unread => self.ellipses.leave(report),
            Said::Tailors(tailoring) => {
                drop(tailoring);
                Err(place.load_fault(LoadCause::Syntax(SyntaxFault::UnknownStatement)))
            }
            Said::Declares(declaration) => {
                drop(declaration);
                Ok(())
            }
            Said::Script => Ok(()),
        }
    }

    // `order_start`: a section begins, but where the first one has no name.
    fn start(
        &mut self,
        place: SourcePlace,
        section: Option<TextBuf>,
        report: &mut Report,
    ) -> Result<(), SourceFault> {
        self.ellipses.leave(report)?;
        let is_first = !self.started;
        self.started = true;
        self.open = true;
        if is_first && section.is_none() {
            return Ok(());
        }
        self.order.begin_section(place, section, report)
    }

    // `order_end`.
    fn stop(&mut self, report: &mut Report) -> Result<(), SourceFault> {
        self.ellipses.leave(report)?;
        self.open = false;
        Ok(())
    }

    // `section`: a section begins.
    fn section(
        &mut self,
        place: SourcePlace,
        name: TextBuf,
        report: &mut Report,
    ) -> Result<(), SourceFault> {
        self.ellipses.leave(report)?;
        self.order.begin_section(place, Some(name), report)
    }

    // An order line. An ellipsis before it is written out first.
    fn order(
        &mut self,
        place: SourcePlace,
        line: OrderLine,
        report: &mut Report,
    ) -> Result<(), SourceFault> {
        match self.meanings.found_behind(&line.id, &mut self.guess) {
            Found::Second(_) => {
                let line = self.meanings.meant(line)?;
                let found = self.meanings.found(&line.id);
                self.order_found(place, line, found, report)
            }
            found => self.order_found(place, line, found, report),
        }
    }

    // An order line of an identifier that stands for itself, of which this was found.
    fn order_found(
        &mut self,
        place: SourcePlace,
        line: OrderLine,
        found: Found,
        report: &mut Report,
    ) -> Result<(), SourceFault> {
        match put_before(self, &line.id, report) {
            Ok(()) => self.put_found(place, line, found, report),
            Err(fault) => {
                drop(line);
                Err(fault)
            }
        }
    }

    // Puts an order line of an identifier of which this was found, in an order that is open from now on.
    fn put_found(
        &mut self,
        place: SourcePlace,
        line: OrderLine,
        found: Found,
        report: &mut Report,
    ) -> Result<(), SourceFault> {
        match self.declared(place, &line.id, found, report) {
            Ok(Found::Symbol(number)) => {
                let line = without_symbol_weights(&self.meanings, place, line, report)?;
                self.order.put(place, line, Found::Symbol(number), report)
            }
            Ok(found) => self.order.put(place, line, found, report),
            Err(fault) => {
                drop(line);
                Err(fault)
            }
        }
    }

    // What is found of an identifier, of which this was found, once it is declared: as a symbol, if it is a name that isn't yet; what is no
    // name never is. An order is open from now on.
    fn declared(
        &mut self,
        place: SourcePlace,
        id: &Id,
        found: Found,
        report: &mut Report,
    ) -> Result<Found, SourceFault> {
        if !self.open {
            report.count(Adjustment::OrderStartPut, place)?;
            self.open = true;
        }
        match found {
            Found::Unknown | Found::NoName(_) => {
                self.meanings.declare_placed(place, id, report)?;
                Ok(self.meanings.found(id))
            }
            _ => Ok(found),
        }
    }
}

impl OrderLines for Placing {
    fn ellipses(&mut self) -> &mut Ellipses {
        &mut self.ellipses
    }

    fn put(
        &mut self,
        place: SourcePlace,
        line: OrderLine,
        report: &mut Report,
    ) -> Result<(), SourceFault> {
        let found = self.meanings.found(&line.id);
        self.put_found(place, line, found, report)
    }
}
