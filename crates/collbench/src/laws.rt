//! What follows from the contracts of an import and of a batch together, as the contract of a function that does nothing.

ghost use Rattle.collbench.specs.WrittenDeltas.{WrittenDeltasAreAccepted};

use coll_delta_texts::written_deltas_are_read_back;

/// The law of imported delta files: what `write_delta` writes of what `import_delta` makes is accepted by the table that is tailored,
/// as a batch reads it, and rewrites it as the import did.
///
/// It does nothing; its contract is the law.
pub(crate) fn written_deltas_are_accepted()
    ensures { WrittenDeltasAreAccepted }
{
    written_deltas_are_read_back();
}
