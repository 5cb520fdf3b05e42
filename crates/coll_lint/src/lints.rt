//! What is told of a table and a delta file. It is plain data.

use coll_findings::{FoundFault, Warnings};
use coll_lex::ListBuf;

/// What is told of a table and a delta file.
#[derive(Drop)]
pub struct Lint {
    /// The faults; the first is that which a batch answers, and the others stand in the order of their lines.
    pub faults: ListBuf<FoundFault>,
    /// The input of which more faults aren't told, if there are more than are told.
    pub more_faults: Option<usize>,
    /// The warnings.
    pub warnings: Warnings,
}
