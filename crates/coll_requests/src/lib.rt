//! The requests of a session, and the statements of a delta file: what lines ask for, found apart from any table.
//!
//! The way of a line: a physical line is parsed (`parsing`) as what its logical line is (`session_lines`, `commands`,
//! `numerals`), once that is whole; a block takes it (`open_blocks`, `block_builder`), which may complete a request of the
//! session (`requests`). `taking` does this for one physical line of a session, and `delta_files` for those of a delta file;
//! `laws` says what follows from the definitions, `request_faults` and `delta_faults` have the faults, and `limits` says how many
//! lines a block has at most.
#![tactic(auto)]

mod block_builder;
mod commands;
mod delta_faults;
mod delta_files;
mod laws;
mod limits;
mod numerals;
mod open_blocks;
mod parsing;
mod request_faults;
mod requests;
mod session_lines;
mod taking;

pub use delta_faults::{DeltaCause, DeltaFault};
pub use delta_files::{DeltaReader, StatementAt, delta_lines_are_read};
pub use laws::{block_is_one_request, block_left_open_is_refused, request_of_a_block};
pub use limits::limits_are_stated;
pub use open_blocks::OpenBlock;
pub use parsing::LineParser;
pub use request_faults::RequestFault;
pub use requests::{FaultAt, Request, RequestAt};
pub use session_lines::Command;
