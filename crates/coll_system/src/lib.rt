//! What the program asks of the system: files and standard devices, keys that nobody knows, and the screen that a person looks at.
//!
//! Nothing here knows of a table. A way through the crate:
//!
//! - `files`: the files that the command line names, and how large they are; `look_up_keys`: keys for look-ups, new in each run;
//! - `reasons`: a device that keeps why the system refused it, and that reason, in the words of `FileReason` of coll_edit_messages;
//! - `progress`: the line that says how far a run got, where standard error is a terminal; `metered`: the readers and writers that tell
//!   it their bytes.
#![tactic(auto)]

mod files;
mod look_up_keys;
mod metered;
mod progress;
mod reasons;

pub use files::{
    Input, at_no_line, file_size, is_output_a_file, line_for, open_all, standard_input_size,
};
pub use look_up_keys::random_keys;
pub use metered::{MeteredSink, MeteredSource};
pub use progress::{ProgressLine, Step};
pub use reasons::{Reasoned, ReasonedOutput, reason_of, reasoned_output, told_reason};
