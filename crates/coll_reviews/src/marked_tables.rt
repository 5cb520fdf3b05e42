//! A table under review, with the marks of its elements.
//!
//! Marks tell of what is declared, and to make them is a walk over all declarations; but most statements declare no element. So they are
//! made where words are first compared, and kept until an element is declared. Who compares words takes them out, and puts them back.

ghost use Rattle.std.specs.Prelude.{◌≡◌, Ok, IfErr, IfSome, OnOk};
ghost use Rattle.coll_syntax.specs.Proper.{IsProper};
ghost use Rattle.coll_nodes.specs.TableLayout.{collation};
ghost use Rattle.coll_nodes.specs.WellFormed.{IsWellFormed};
ghost use Rattle.coll_table.specs.Delta.{delta};
ghost use Rattle.coll_bench.specs.BatchOutcome.{judged_at};
ghost use Rattle.coll_bench.specs.BatchReading.{FailsAs};
ghost use Rattle.coll_bench.specs.BatchRuns.{ending_of};
ghost use Rattle.coll_reviews.specs.Declaring.{declares_element as is_element};
ghost use Rattle.coll_letters.specs.ElementMarks.{AreMarks, StayMarks};

use coll_bench::{RunFault, TakesStatements};
use coll_letters::ElementMarks;
use coll_requests::StatementAt;
use coll_syntax::Statement;
use coll_table::Table;
use std::marker::Model;

/// A table, and the marks of its elements, where they are kept.
#[derive(Drop)]
pub(crate) struct MarkedTable {
    table: Table,
    marks: Option<ElementMarks>,
}

impl Model for MarkedTable {
    ghost use Rattle.std.specs.Prelude.{IfSome};
    ghost use Rattle.coll_nodes.specs.TableLayout.{TableValue, collation};
    ghost use Rattle.coll_letters.specs.ElementMarks.{AreMarks};

    ghost Value = { TableValue };

    ghost view = { λ m. m.table };

    ghost invariant = { λ m. IfSome m.marks (AreMarks (collation m.table)) };
}

impl MarkedTable {
    /// A table whose elements weren't marked yet.
    pub fn new(table: Table) -> MarkedTable
        ensures { result ≡ table }
    {
        MarkedTable { table, marks: None }
    }

    /// The table.
    pub fn table(&self) -> &Table
        ensures { result.now ≡ self.now }
    {
        &self.table
    }

    /// Puts a statement of the input with this number to the table.
    pub fn put(&mut self, input: usize, at: &StatementAt) -> Result<(), RunFault>
        requires proper { IsProper at.now.statement }
        ensures ok { OnOk result (judged_at input at.now.line (delta (collation self.old) at.now.statement) ≡ Ok (collation self.new)) }
        ensures err { IfErr result (λ ended. FailsAs (ending_of ended)
            (judged_at input at.now.line (delta (collation self.old) at.now.statement)) ended) }
        ensures number { IfErr result (λ ended. ended.line ≡ at.now.line) }
        ensures input { IfErr result (λ ended. ended.input ≡ input) }
    {
        let marks = self.marks.take();
        if let Err(ended) = self.table.put(input, at) {
            drop(marks);
            return Err(ended);
        }
        self.marks = marks_behind(&at.statement, marks);
        Ok(())
    }

    /// The table holds together.
    pub fn lemma_well_formed(&self)
        ensures well_formed { IsWellFormed (collation self.now) }
    {
        self.table.lemma_well_formed();
    }

    /// Takes the marks of the table out, if they are kept.
    pub fn take_marks(&mut self) -> Option<ElementMarks>
        ensures same { self.new ≡ self.old }
        ensures marks { IfSome result (AreMarks (collation self.old)) }
    {
        self.marks.take()
    }

    /// Keeps the marks of the table, if there are any.
    pub fn keep_marks(&mut self, marks: Option<ElementMarks>)
        requires { IfSome marks (AreMarks (collation self.old)) }
        ensures { self.new ≡ self.old }
    {
        self.marks = marks;
    }
}

// The marks behind a statement, unless it declares an element.
fn marks_behind(statement: &Statement, marks: Option<ElementMarks>) -> Option<ElementMarks>
    ensures { StayMarks statement.now marks result }
{
    if declares_element(statement) {
        drop(marks);
        return None;
    }
    marks
}

// Whether a statement declares an element.
fn declares_element(statement: &Statement) -> bool
    ensures { result ≡ is_element statement.now }
{
    match statement {
        Statement::Symbol(_) => false,
        Statement::Element { .. } => true,
        Statement::Equivalence { .. } => false,
        Statement::Block { .. } => false,
        Statement::SectionAfter { .. } => false,
        Statement::Reweight(_) => false,
    }
}
