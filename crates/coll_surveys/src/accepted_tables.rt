//! A table without fault is surveyed: what its text says to no purpose is told.
//!
//! Such a table is there already, built of this text, so no line is judged or put to a builder again. What is told stands on few kinds of
//! lines: `script`, and the declarations of names that have no entry. The order lines, which are most, are passed over unread.
//!
//! The simple form is `survey_table`, which serves where the table has a fault; the test `surveys` of `coll_tests` compares both.

ghost use Rattle.std.specs.Prelude.{◌≡◌, ◌<◌, [], length, IfOk, Some};
ghost use Rattle.coll_texts.specs.BuilderStates.{is_end};
ghost use Rattle.coll_surveys.specs.TableSurveys.{ends_table};
ghost use Rattle.coll_findings.specs.ToldFaults.{AreOnce};

use coll_findings::{
    Collected, Declarations, DeclaredName, Opening, Surveyed, TakesLines, Warning, survey_keywords,
};
use coll_lex::{LexFault, Line};
use coll_lookups::HashKeys;
use coll_syntax::{SyntaxFault, TableLine, parse_table_line};
use coll_table::Table;
use std::alloc::{AllocError, Global};

// A table without fault that is surveyed.
struct AcceptedSurvey {
    alloc: Global,
    told: Collected,
    declarations: Declarations,
    ghost none: { length told.told.faults.items < 1 },
}

/// Surveys a text, which is input 0, that gives this table and has no fault: what is told are the warnings that `survey_table` tells, and
/// no fault.
pub fn survey_accepted(
    alloc: Global,
    keys: HashKeys,
    text: &[u8],
    table: Table,
) -> Result<Surveyed, AllocError>
    ensures once { IfOk result (λ surveyed. AreOnce surveyed.told.faults.items) }
    ensures none { IfOk result (λ surveyed. surveyed.told.faults.items ≡ []) }
    ensures table { IfOk result (λ surveyed. surveyed.table ≡ Some table) }
{
    let mut survey = AcceptedSurvey {
        alloc,
        told: Collected::new(alloc, keys, 0),
        declarations: Declarations::new(alloc, keys),
    };
    let taken = survey.take_all(text, &table);
    survey.over(table).if_done(taken)
}

impl AcceptedSurvey {
    // Takes the lines of a text, and warns of what is never placed in its table.
    fn take_all(&mut self, text: &[u8], table: &Table) -> Result<(), AllocError> {
        survey_keywords(self.alloc, text, self)?;
        self.declarations.warn_of_unplaced(table, &mut self.told)
    }

    // What is told, and a table.
    fn over(self, table: Table) -> Surveyed
        ensures once { AreOnce result.told.faults.items }
        ensures none { result.told.faults.items ≡ [] }
        ensures table { result.table ≡ Some table }
    {
        let AcceptedSurvey {
            alloc: _,
            told,
            declarations,
        } = self;
        drop(declarations);
        Surveyed {
            told: told.into_told(),
            table: Some(table),
        }
    }

    // Takes a line, and answers whether it ends the category.
    fn take_read(&mut self, number: u32, read: TableLine) -> Result<bool, AllocError>
        ensures { IfOk result (λ ended. ended ≡ is_end read) }
    {
        match read {
            TableLine::Symbol(name) => {
                self.declarations
                    .declare(number, DeclaredName::Symbol(name))?;
                Ok(false)
            }
            TableLine::Element { name, text } => {
                drop(text);
                self.declarations
                    .declare(number, DeclaredName::Element(name))?;
                Ok(false)
            }
            other => {
                let ends = self.take_other(number, &other);
                drop(other);
                ends
            }
        }
    }

    // Takes a line that declares no own name, and answers whether it ends the category.
    fn take_other(&mut self, number: u32, read: &TableLine) -> Result<bool, AllocError>
        ensures { IfOk result (λ ended. ended ≡ is_end read.now) }
    {
        match read {
            TableLine::Script => {
                self.told.warn(Warning::ScriptWithoutEffect, number, None)?;
                Ok(false)
            }
            TableLine::EndCategory => Ok(true),
            _ => Ok(false),
        }
    }
}

impl TakesLines for AcceptedSurvey {
    ghost takes = { λ old handed new. Unit {0} };

    ghost ends = { ends_table };

    fn take(&mut self, line: &Line, _opening: Opening) -> Result<bool, AllocError> {
        match parse_table_line(self.alloc, line) {
            Ok(read) => self.take_read(line.number, read),
            Err(SyntaxFault::OutOfMemory) => Err(AllocError),
            Err(_) => Ok(false),
        }
    }

    // There is no fault.
    fn refuse(&mut self, _: u32, _: Opening, _: LexFault) -> Result<(), AllocError> {
        Ok(())
    }
}
