//! What the lines of a published locale source say, and what is told of them.
//!
//! Whoever reads a source gives its lines as plain data, each with its place; whoever makes a table or a delta file of them tells what
//! was changed or lost, and why a source is refused. Neither needs the other. A way through the crate:
//!
//! - `places` and `source_faults`: where a line stands, and why a source is refused (`SourceFaults`);
//! - `source_lines`: what a line says, with `ranges`: names of which each is the one behind the last (`NameRanges`);
//! - `adjustments`: what is told of what was changed (`Adjustments`, `Reports`).
#![tactic(auto)]

mod adjustments;
mod places;
mod ranges;
mod source_faults;
mod source_lines;

pub use adjustments::{Adjustment, Loss, Lost, Report, Tally, all_adjustments};
pub use places::SourcePlace;
pub use ranges::{Digits, NameRange, name_at, name_range, spell_name, spell_next};
pub use source_faults::{SourceCause, SourceFault};
pub use source_lines::{Declaration, Said, SourceLine, Tailoring};
