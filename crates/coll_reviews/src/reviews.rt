//! A review, statement by statement: the table, the words in its order, and what was told so far.
//!
//! Whether the words are looked at behind a statement is decided by `declares_alone`. A symbol, an element or an equivalence gives a new
//! name alone, so that all texts keep their order, and it is told that none moved. Behind any other statement the words are sorted anew
//! (`sort_anew`).

ghost use Rattle.std.specs.Prelude.{◌≡◌, ◌∷◌, ◌++◌, [], length, zero};
ghost use Rattle.coll_devices.specs.Devices.{Writes};
ghost use Rattle.coll_nodes.specs.TableLayout.{collation};
ghost use Rattle.coll_bench.specs.BatchOutcome.{fault_in};
ghost use Rattle.coll_faults.specs.declared.faults.Fault.TheVariants.{Lex};
ghost use Rattle.coll_lex.specs.declared.faults.LexFault.TheVariants.{OutOfMemory};
ghost use Rattle.coll_reviews.specs.Declaring.{declares_alone as gives_a_name_alone};
ghost use Rattle.coll_reviews.specs.ListedWords.{all_numbered};
ghost use Rattle.coll_reviews.specs.ReviewLines.{review_line};

use crate::kept_bytes::KeptBytes;
use crate::listed_words::{ListedWord, sort_anew};
use crate::marked_tables::MarkedTable;
use crate::review_lines::{write_counts, write_told, write_unmoved};
use crate::word_orders::Looks;
use coll_bench::{Fault, RunFault, TakesStatements};
use coll_devices::{Sink, WriteStop, write_bytes};
use coll_lex::LexFault;
use coll_requests::StatementAt;
use coll_syntax::Statement;
use coll_table::Table;
use std::alloc::Global;

/// Where a review stands.
#[derive(Drop)]
pub(crate) struct Review<'a> {
    alloc: Global,
    table: MarkedTable,
    // The words, in the order of the table.
    list: Vec<ListedWord<'a>>,
    // What the words are compared by.
    looks: Looks,
    // How many statements were put.
    count: u32,
    // What is told of them.
    told: KeptBytes,
}

impl<'a> Review<'a> {
    ghost use Rattle.coll_reviews.specs.ReviewSteps.{standing_of};

    /// A review of these words, which are in the order of the table, before the first statement.
    pub fn new(alloc: Global, table: Table, list: Vec<ListedWord<'a>>) -> Review<'a>
        ensures stands { standing_of result ≡ record { table = collation table; sorted = all_numbered list.entry.items; count = zero } }
        ensures told { result.told.bytes.items ≡ [] }
    {
        Review {
            alloc,
            table: MarkedTable::new(table),
            list,
            looks: Looks::new(alloc),
            count: 0,
            told: KeptBytes::new(alloc),
        }
    }

    /// How many statements were put.
    pub fn count(&self) -> u32
        ensures { result ≡ self.now.count }
    {
        self.count
    }

    /// Writes what is told of the statements, and last a line of counts.
    pub fn write<W: Sink>(&self, out: &mut W) -> Result<(), WriteStop>
        ensures { Writes (W.taken out.old) (W.taken out.new) (W.failed out.old) (W.failed out.new)
            (self.now.told.bytes.items ++ review_line self.now.count (length self.now.list.items)) result }
    {
        write_bytes(out, self.told.bytes())?;
        write_counts(out, self.count, self.list.len())
    }
}

impl<'a> TakesStatements for Review<'a> {
    ghost use Rattle.coll_reviews.specs.ReviewSteps.{LeadsTo};

    ghost table = { λ review. collation review.table };

    ghost Reaches = { LeadsTo };

    fn put(&mut self, input: usize, at: &StatementAt) -> Result<(), RunFault> {
        // A delta file has no more lines than that.
        let Some(number) = self.count.checked_add(1) else {
            return Err(no_memory(input, at.line));
        };
        self.table.lemma_well_formed();
        if let Err(ended) = self.table.put(input, at) {
            return Err(ended);
        }
        self.count = number;
        if declares_alone(&at.statement) {
            return match write_unmoved(&mut self.told, number, &at.statement) {
                Ok(()) => Ok(()),
                Err(_) => Err(no_memory(input, at.line)),
            };
        }
        let mut marks = self.table.take_marks();
        if let Err(_) = sort_anew(
            self.alloc,
            self.table.table(),
            &mut marks,
            &mut self.looks,
            &mut self.list,
        ) {
            return Err(no_memory(input, at.line));
        }
        self.table.keep_marks(marks);
        match write_told(&mut self.told, number, &at.statement, self.list.as_slice()) {
            Ok(()) => Ok(()),
            Err(_) => Err(no_memory(input, at.line)),
        }
    }

    ghost stays = { λ start words lines ordered. ([], (refl, refl), sym (append-nil start.told.bytes.items)) };

    ghost use Rattle.std.proofs.Common.{refl, sym, append-nil};
}

// Whether a statement declares alone, so that all texts keep their order.
fn declares_alone(statement: &Statement) -> bool
    ensures { result ≡ gives_a_name_alone statement.now }
{
    match statement {
        Statement::Symbol(_) => true,
        Statement::Element { .. } => true,
        Statement::Equivalence { .. } => true,
        Statement::Block { .. } => false,
        Statement::SectionAfter { .. } => false,
        Statement::Reweight(_) => false,
    }
}

// Lack of memory at the line of a statement.
fn no_memory(input: usize, line: u32) -> RunFault
    ensures { result ≡ fault_in input line (Lex OutOfMemory) }
{
    RunFault {
        input,
        line,
        fault: Fault::Lex(LexFault::OutOfMemory),
    }
}
