//! The inputs of a batch are read: the table, and then the delta files in their order, each of which rewrites it.

ghost use Rattle.std.specs.Prelude.{◌≡◌, ◌≤◌, ◌<◌, ◌∷◌, length, map, IfErr};
ghost use Rattle.coll_nodes.specs.TableLayout.{collation};
ghost use Rattle.coll_bench.specs.BatchOutcome.{table_fault as fault_of_table};
ghost use Rattle.coll_bench.specs.BatchReading.{ReadsInputs, ReadsDeltas, CountsDeltas, WritesNone};
ghost use Rattle.coll_bench.specs.BatchRuns.{CountsInputs};

use super::delta_files::read_delta;
use coll_devices::Source;
use coll_faults::{Fault, RunFault};
use coll_lookups::HashKeys;
use coll_table::{Table, load_keyed};
use coll_texts::LoadFault;
use std::alloc::Global;

/// Reads a table, and rewrites it by delta files in their order. The answer is the table after all of them, or the first fault met.
///
/// Input 0 is the table, input k the k-th delta file. What the texts name is looked up under these keys.
pub fn read_inputs<R: Source>(
    alloc: Global,
    keys: HashKeys,
    table: &mut R,
    deltas: &mut [R],
) -> Result<Table, RunFault>
    ensures inputs { ReadsInputs (R.left table.old) (R.left table.new) (map R.left deltas.old) (map R.left deltas.new) result }
    ensures input { IfErr result (λ ended. ended.input ≤ length deltas.old) }
    ensures writes { IfErr result (λ ended. WritesNone ended) }
    ensures reads { CountsInputs (R.failed table.old ∷ map R.failed deltas.old) (R.failed table.new ∷ map R.failed deltas.new) result }
{
    match load_keyed(alloc, keys, table) {
        Ok(mut first) => match read_deltas(alloc, &mut first, deltas) {
            Ok(()) => Ok(first),
            Err(ended) => {
                drop(first);
                Err(ended)
            }
        },
        Err(fault) => Err(table_fault(fault)),
    }
}

// Rewrites a table by delta files, in their order.
fn read_deltas<R: Source>(
    alloc: Global,
    table: &mut Table,
    deltas: &mut [R],
) -> Result<(), RunFault>
    ensures inputs { ReadsDeltas (collation table.old) (collation table.new) (map R.left deltas.old) (map R.left deltas.new) result }
    ensures first { IfErr result (λ ended. 0 < ended.input) }
    ensures input { IfErr result (λ ended. ended.input ≤ length deltas.old) }
    ensures writes { IfErr result (λ ended. WritesNone ended) }
    ensures reads { CountsDeltas (map R.failed deltas.old) (map R.failed deltas.new) result }
{
    for (before, delta) in deltas.iter_mut().enumerate() {
        // Not `?`: behind its conversion this exit would need a lemma.
        if let Err(ended) = read_delta(alloc, before + 1, table, delta) {
            return Err(ended);
        }
    }
    Ok(())
}

// A fault of the table, as that of a run.
fn table_fault(fault: LoadFault) -> RunFault
    ensures { result ≡ fault_of_table fault }
{
    RunFault {
        input: 0,
        line: fault.line,
        fault: Fault::Load(fault),
    }
}
