//! Ellipses between the order lines of a source: which characters they stand for.
//!
//! An ellipsis stands for each character between that of the line before and that of the line behind, so it is known only once the
//! latter has come. One that has no character on a side is left out.

use coll_lex::{ListBuf, TextBuf};
use coll_source_lines::{Adjustment, Lost, Report, SourceCause, SourceFault, SourcePlace};
use coll_syntax::{Id, OrderLine, Weight};
use std::alloc::{AllocError, Global};

/// Characters one after another, each of which has an order line with the same weights.
#[derive(Drop)]
pub struct Run {
    /// Where they come from.
    pub place: SourcePlace,
    /// The number of the first character.
    pub first: u32,
    /// The number of the last one.
    pub last: u32,
    /// The weights of each.
    pub weights: Option<ListBuf<Weight>>,
}

impl Run {
    /// The order line of a character, by its number; none where that is the number of no character.
    pub fn line(&self, number: u32) -> Result<Option<OrderLine>, AllocError> {
        let Some(c) = char::from_u32(number) else {
            return Ok(None);
        };
        Ok(Some(OrderLine {
            id: Id::Char(c),
            weights: copied_weights(&self.weights)?,
        }))
    }
}

// An ellipsis behind which no order line has stood yet.
#[derive(Drop)]
struct Dots {
    place: SourcePlace,
    weights: Option<ListBuf<Weight>>,
}

/// The last order line of a source, and an ellipsis that stands behind it.
#[derive(Drop)]
pub struct Ellipses {
    // The character of the last order line, if it had one.
    last: Option<char>,
    dots: Option<Dots>,
    alloc: Global,
}

impl Ellipses {
    /// No line has stood yet. It takes no memory.
    pub fn new(alloc: Global) -> Ellipses {
        Ellipses {
            last: None,
            dots: None,
            alloc,
        }
    }

    /// An order line of this identifier follows. The answer is what an ellipsis before it stands for, if there is one.
    pub fn before(&mut self, id: &Id, report: &mut Report) -> Result<Option<Run>, SourceFault> {
        let here = char_of(id);
        let run = self.run_to(here, report)?;
        self.last = here;
        Ok(run)
    }

    /// A range of characters follows. The answer is what an ellipsis before it stands for, if there is one, and the range.
    pub fn range(
        &mut self,
        place: SourcePlace,
        first: char,
        last: char,
        weights: Option<ListBuf<Weight>>,
        report: &mut Report,
    ) -> Result<(Option<Run>, Run), SourceFault> {
        match self.before_range(place, first, report) {
            Ok(before) => {
                self.last = Some(last);
                let range = Run {
                    place,
                    first: u32::from(first),
                    last: u32::from(last),
                    weights,
                };
                Ok((before, range))
            }
            Err(fault) => {
                drop(weights);
                Err(fault)
            }
        }
    }

    // What an ellipsis before a range stands for, if there is one. The range is counted.
    fn before_range(
        &mut self,
        place: SourcePlace,
        first: char,
        report: &mut Report,
    ) -> Result<Option<Run>, SourceFault> {
        let before = self.run_to(Some(first), report)?;
        match report.count(Adjustment::EllipsisExpanded, place) {
            Ok(()) => Ok(before),
            Err(error) => {
                drop(before);
                Err(SourceFault::from(error))
            }
        }
    }

    /// An ellipsis follows, which the next order line decides.
    pub fn dots(
        &mut self,
        place: SourcePlace,
        weights: Option<ListBuf<Weight>>,
        report: &mut Report,
    ) -> Result<(), SourceFault> {
        let last = self.last;
        match self.leave(report) {
            Ok(()) => {
                self.last = last;
                drop(self.dots.replace(Dots { place, weights }));
                Ok(())
            }
            Err(fault) => {
                drop(weights);
                Err(fault)
            }
        }
    }

    /// Something else follows: the line before is left, and so is an ellipsis behind it, which is left out.
    pub fn leave(&mut self, report: &mut Report) -> Result<(), SourceFault> {
        self.last = None;
        match self.dots.take() {
            Some(Dots { place, weights }) => {
                drop(weights);
                let what = Lost::Word(TextBuf::copied(self.alloc, "..")?);
                report.lose(Adjustment::Dropped, place, what)
            }
            None => Ok(()),
        }
    }

    // What an ellipsis stands for that has this character behind it, if there is one.
    fn run_to(
        &mut self,
        here: Option<char>,
        report: &mut Report,
    ) -> Result<Option<Run>, SourceFault> {
        let (Some(last), Some(here)) = (self.last, here) else {
            self.leave(report)?;
            return Ok(None);
        };
        match self.dots.take() {
            Some(dots) => dots.run(last, here, report),
            None => Ok(None),
        }
    }
}

impl Dots {
    // What it stands for between these characters.
    fn run(self, last: char, here: char, report: &mut Report) -> Result<Option<Run>, SourceFault> {
        let Dots { place, weights } = self;
        match count_run(place, last, here, report) {
            Ok(()) => Ok(Some(Run {
                place,
                first: u32::from(last).saturating_add(1),
                last: u32::from(here).saturating_sub(1),
                weights,
            })),
            Err(fault) => {
                drop(weights);
                Err(fault)
            }
        }
    }
}

// Counts an ellipsis between these characters, which has to go forward.
fn count_run(
    place: SourcePlace,
    last: char,
    here: char,
    report: &mut Report,
) -> Result<(), SourceFault> {
    if here <= last {
        return Err(place.fault(SourceCause::BadRange));
    }
    report.count(Adjustment::EllipsisExpanded, place)?;
    Ok(())
}

// The character of an identifier, if it is one.
fn char_of(id: &Id) -> Option<char> {
    match id {
        Id::Char(c) => Some(*c),
        Id::Named(_) | Id::Undefined => None,
    }
}

// A copy of weights.
fn copied_weights(
    weights: &Option<ListBuf<Weight>>,
) -> Result<Option<ListBuf<Weight>>, AllocError> {
    match weights {
        Some(weights) => Ok(Some(weights.clone()?)),
        None => Ok(None),
    }
}
