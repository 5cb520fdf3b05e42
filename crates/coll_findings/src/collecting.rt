//! What is told of a text, as it is gathered.
//!
//! Of one text the first faults are told, up to a limit, in the order in which they are found, and of each kind of warnings how many
//! there are, and the first. No fault is told twice (`AreOnce`): none of one line, and that an identifier isn't declared, or that a
//! weight names it and it has no entry, is told once of it, for all lines.

ghost use Rattle.std.specs.Prelude.{◌≡◌, ◌∷◌, [], reverse, IfOk, IsOk, OnOk};
ghost use Rattle.std.specs.List.{IsDistinct-prop, list_any};
ghost use Rattle.std.specs.Option.{option_map};
ghost use Rattle.coll_findings.specs.GatheredWarnings.{Warns};
ghost use Rattle.coll_findings.specs.ToldFaults.{AreOnce, Tells, are_same, told_fault};

use crate::findings::{About, FoundFault, NOT_DECLARED, WEIGHT_NOT_PLACED};
use crate::warnings::{Warning, Warnings};
use coll_faults::{Fault, RunFault};
use coll_lookups::{HashKeys, IdSet};
use coll_syntax::Id;
use coll_table::Table;
use std::alloc::{AllocError, Global};

// Most faults that are told.
const MOST_TOLD: usize = 1_000;

/// What is told of one input.
#[derive(Drop)]
pub struct Told {
    /// The faults, in the order in which they were found.
    pub faults: Vec<FoundFault>,
    /// The input, if there are more faults than are told.
    pub more_faults: Option<usize>,
    /// The warnings.
    pub warnings: Warnings,
}

/// What a survey gives: what is told, and the table that the lines without fault give, where they give one.
#[derive(Drop)]
pub struct Surveyed {
    /// What is told.
    pub told: Told,
    /// The table.
    pub table: Option<Table>,
}

impl Surveyed {
    /// What is told, without the table.
    pub fn into_told(self) -> Told
        ensures { result ≡ self.told }
    {
        let Surveyed { told, table } = self;
        drop(table);
        told
    }

    /// The same, unless memory was refused to the survey.
    pub fn if_done(self, done: Result<(), AllocError>) -> Result<Surveyed, AllocError>
        ensures surveyed { IfOk result (λ surveyed. surveyed ≡ self) }
        ensures done { OnOk result (IsOk done) }
    {
        match done {
            Ok(()) => Ok(self),
            Err(error) => {
                drop(self);
                Err(error)
            }
        }
    }
}

/// The faults and the warnings of one input, as they are gathered. It isn't dropped, but ends with what is told.
pub struct Collected {
    // Which input it is.
    input: usize,
    // What is told.
    told: Told,
    // What was told as not declared.
    undeclared: IdSet,
    // What was told as named by a weight, and not placed.
    unplaced: IdSet,
    ghost once: { AreOnce told.faults.items } by { IsDistinct-prop are_same told.faults.items },
}

impl Collected {
    /// Nothing told of an input yet.
    pub fn new(alloc: Global, keys: HashKeys, input: usize) -> Collected
        ensures { result.told.faults.items ≡ [] }
    {
        Collected {
            input,
            told: Told {
                faults: Vec::new(alloc),
                more_faults: None,
                warnings: Warnings::none(alloc, input),
            },
            undeclared: IdSet::new(alloc, keys),
            unplaced: IdSet::new(alloc, keys),
        }
    }

    /// What is told, no fault twice.
    pub fn into_told(self) -> Told
        ensures told { result ≡ self.told }
        ensures once { AreOnce result.faults.items }
    {
        let Collected {
            input: _,
            told,
            undeclared,
            unplaced,
        } = self;
        drop(undeclared);
        drop(unplaced);
        told
    }

    /// Tells a fault of a line, which a batch would answer at the line where its statement begins, unless it was told.
    pub fn tell(
        &mut self,
        begins: u32,
        line: u32,
        fault: Fault,
        about: About,
    ) -> Result<(), AllocError>
        ensures { OnOk result (Tells self.old.told.faults.items self.new.told.faults.items
            (record { begins = begins; line = line; fault = fault } ∷ [])) }
    {
        self.tell_saying(begins, line, fault, about, None)
    }

    /// Tells a fault of a line as `tell` does, with this as what to do, where something is said of it.
    pub fn tell_saying(
        &mut self,
        begins: u32,
        line: u32,
        fault: Fault,
        about: About,
        said: Option<&'static str>,
    ) -> Result<(), AllocError>
        ensures { OnOk result (Tells self.old.told.faults.items self.new.told.faults.items
            (record { begins = begins; line = line; fault = fault } ∷ [])) }
    {
        match self.is_new(fault.number(), &about) {
            Ok(true) => {
                let fault = RunFault {
                    input: self.input,
                    line: begins,
                    fault,
                };
                self.push(FoundFault::new(fault, line, about, said))
            }
            Ok(false) => {
                drop(about);
                Ok(())
            }
            Err(error) => {
                drop(about);
                Err(error)
            }
        }
    }

    // Puts a fault behind those that are told, unless it is one of them, where there is room for one more. Behind the first one for which
    // there was none nothing is looked at.
    fn push(&mut self, found: FoundFault) -> Result<(), AllocError>
        ensures { OnOk result (Tells self.old.told.faults.items self.new.told.faults.items (told_fault found ∷ [])) }
    {
        if self.told.more_faults.is_some() || is_told(self.told.faults.as_slice(), &found) {
            drop(found);
            return Ok(());
        }
        if self.told.faults.len() >= MOST_TOLD {
            self.told.more_faults = Some(self.input);
            drop(found);
            return Ok(());
        }
        self.told.faults.push(found)?;
        Ok(())
    }

    /// Warns of a line, and of the name that the warning is about, if it is about one. Those of a kind come in the order of their lines.
    pub fn warn(&mut self, warning: Warning, line: u32, id: Option<&Id>) -> Result<(), AllocError>
        ensures warned { OnOk result (Warns self.old.told.warnings self.new.told.warnings warning
            (record { line = line; id = option_map (λ id. id.now) id.entry })) }
        ensures faults { self.new.told.faults ≡ self.old.told.faults }
    {
        self.told.warnings.add(warning, line, id)
    }

    // Whether a fault that is told by identifiers wasn't told yet of what it is about; from here on it was. This spares a look at all that
    // was told.
    fn is_new(&mut self, number: u8, about: &About) -> Result<bool, AllocError>
        ensures { self.new.told ≡ self.old.told }
    {
        let About::Id { id, .. } = about else {
            return Ok(true);
        };
        match number {
            NOT_DECLARED => put_new(&mut self.undeclared, id),
            WEIGHT_NOT_PLACED => put_new(&mut self.unplaced, id),
            _ => Ok(true),
        }
    }
}

// Whether a fault is one of those that were told. The last ones, of which most are of the same line, are looked at first.
fn is_told(told: &[FoundFault], found: &FoundFault) -> bool
    ensures { result ≡ list_any (are_same found.now) (reverse told.now) }
{
    told.iter().rev().any(|other| found.is_same(other))
}

// Puts an identifier into a set, and answers whether it was not there.
fn put_new(set: &mut IdSet, id: &Id) -> Result<bool, AllocError> {
    if set.contains(id) {
        return Ok(false);
    }
    set.insert(id)?;
    Ok(true)
}
