//! Lines that count only where a name is defined.
//!
//! `ifdef NAME` and `ifndef NAME` begin such lines, `else` turns them round, and `endif` ends them. They may stand in one another.
//! `define NAME` defines one.

use coll_source_lines::{SourceCause, SourceFault, SourcePlace};
use std::alloc::{AllocError, Global};

/// The word that begins a line on what counts.
pub(crate) enum ConditionWord {
    /// `define`: a name is defined.
    Define,
    /// `ifdef` and `ifndef`: lines count from here where a name is defined, or where it isn't.
    If {
        /// Whether it has to be defined.
        defined: bool,
    },
    /// `else`: turns the lines round.
    Else,
    /// `endif`: ends them.
    End,
}

// A condition that is open.
#[derive(Clone, Copy)]
struct Condition {
    // Where it begins.
    place: SourcePlace,
    // Whether the lines around it count.
    around: bool,
    // Whether the lines here count, where those around do.
    holds: bool,
    // Whether its `else` has stood already.
    has_else: bool,
}

/// The conditions that are open in a text, the innermost last.
#[derive(Drop)]
pub(crate) struct Conditions {
    open: Vec<Condition>,
}

impl Conditions {
    /// No condition is open.
    pub(crate) fn new(alloc: Global) -> Conditions {
        Conditions {
            open: Vec::new(alloc),
        }
    }

    /// Whether lines here count.
    pub(crate) fn count(&self) -> bool {
        match self.open.last() {
            Some(condition) => condition.around && condition.holds,
            None => true,
        }
    }

    /// Begins a condition, which holds or doesn't.
    pub(crate) fn begin(&mut self, place: SourcePlace, holds: bool) -> Result<(), AllocError> {
        let around = self.count();
        self.open.push(Condition {
            place,
            around,
            holds,
            has_else: false,
        })?;
        Ok(())
    }

    /// Takes the `else` of the innermost condition.
    pub(crate) fn take_else(&mut self, place: SourcePlace) -> Result<(), SourceFault> {
        match self.open.last_mut() {
            Some(condition) if !condition.has_else => {
                condition.has_else = true;
                condition.holds = !condition.holds;
                Ok(())
            }
            _ => Err(place.fault(SourceCause::NoCondition)),
        }
    }

    /// Ends the innermost condition.
    pub(crate) fn end(&mut self, place: SourcePlace) -> Result<(), SourceFault> {
        match self.open.pop() {
            Some(_) => Ok(()),
            None => Err(place.fault(SourceCause::NoCondition)),
        }
    }

    /// That none is open, where the category ends.
    pub(crate) fn ended(&self) -> Result<(), SourceFault> {
        match self.open.last() {
            Some(condition) => Err(condition.place.fault(SourceCause::ConditionNotEnded)),
            None => Ok(()),
        }
    }
}

/// The word of a line on what counts, if it is one.
pub(crate) fn condition_word(word: &str) -> Option<ConditionWord> {
    match word {
        "define" => Some(ConditionWord::Define),
        "ifdef" => Some(ConditionWord::If { defined: true }),
        "ifndef" => Some(ConditionWord::If { defined: false }),
        "else" => Some(ConditionWord::Else),
        "endif" => Some(ConditionWord::End),
        _ => None,
    }
}
