//! What the statements of a delta file are put to.
//!
//! A batch puts them to a table alone. Whoever wants to know more of each statement than the table after it keeps that in a type of
//! their own, and says by `Reaches` what statements do to it.

ghost use Rattle.std.specs.Prelude.{◌≡◌, ◌∷◌, ◌++◌, [], List, IfErr, Ok, OnOk};
ghost use Rattle.coll_syntax.specs.Proper.{IsProper};
ghost use Rattle.coll_table.specs.Delta.{delta as delta_of};
ghost use Rattle.coll_nodes.specs.Table.{Collation};
ghost use Rattle.coll_nodes.specs.TableLayout.{collation};
ghost use Rattle.coll_requests.specs.declared.delta_files.StatementAt.{StatementAt};
ghost use Rattle.coll_bench.specs.BatchOutcome.{judged_at};
ghost use Rattle.coll_bench.specs.BatchReading.{FailsAs};
ghost use Rattle.coll_bench.specs.BatchRuns.{ending_of};

use coll_faults::{Fault, RunFault};
use coll_requests::StatementAt;
use coll_table::Table;

/// What takes the statements of a delta file, one by one. It has a table, which each of them rewrites.
pub trait TakesStatements {
    // The table.
    ghost table: { Self → Collation };

    // What these statements, put one after another, lead to.
    ghost Reaches: { Self → List StatementAt → Self → Type 0 };

    /// Puts a statement of the input with this number to the table.
    ///
    /// A statement that is refused is a fault at its line, and so is lack of memory. After a fault nothing is known of the table.
    fn put(&mut self, input: usize, at: &StatementAt) -> Result<(), RunFault>
        requires proper { IsProper at.now.statement }
        ensures ok { OnOk result (judged_at input at.now.line (delta_of (table self.old) at.now.statement) ≡ Ok (table self.new)) }
        ensures reaches { OnOk result ((start : Self) (before : List StatementAt) → Reaches start before self.old
            → Reaches start (before ++ at.now ∷ []) self.new) }
        ensures err { IfErr result (λ ended.
            FailsAs (ending_of ended) (judged_at input at.now.line (delta_of (table self.old) at.now.statement)) ended) }
        ensures number { IfErr result (λ ended. ended.line ≡ at.now.line) }
        ensures input { IfErr result (λ ended. ended.input ≡ input) };

    // No statement leads to where it began.
    ghost stays: { (start : Self) → Reaches start [] start };
}

impl TakesStatements for Table {
    ghost table = { collation };

    ghost Reaches = { λ start given now. Unit {0} };

    // The record that would take the statement back is dropped.
    fn put(&mut self, input: usize, at: &StatementAt) -> Result<(), RunFault> {
        match self.apply(&at.statement) {
            Ok(_) => Ok(()),
            Err(refusal) => Err(RunFault {
                input,
                line: at.line,
                fault: Fault::Table(refusal),
            }),
        }
    }

    ghost stays = { λ start. tt };
}
