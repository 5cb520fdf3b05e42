//! A session for a person: the lines of a session, and lines of its own beside them.
//!
//! Each physical line is first taken as the session of `coll_bench` takes it. Only where that refuses it as an unknown command or for
//! an operand of the wrong kind is it read as a line of `edit`, which stands beside the session and never changes its history. So
//! what is typed has the requests of the session, whatever it is, and only replies to refused ones differ; these replies are those of
//! coll_edit_replies (`OwnReplies`), and what goes to standard error beside them is that of coll_edit_messages. A way through the crate,
//! each file with its definitions in `specs/`:
//!
//! - `own_lines`: the lines that stand beside those of a session (`OwnLines`), in which `#` within a word is kept by `word_signs`
//!   (`WordSigns`);
//! - `watched`: an output that knows which refusal its last reply told (`Watching`);
//! - `devices`: files that are opened by their names;
//! - `stored`: how many statements stand in a file (`Stored`);
//! - `editors`: where an edit stands between two lines, and how it goes on by one (`Editing`);
//! - `runs`: the run of a text (`EditRuns`).
#![tactic(auto)]

mod devices;
mod editors;
mod own_lines;
mod runs;
mod stored;
mod watched;
mod word_signs;

pub use coll_edit_messages::FileReason;
pub use devices::OpensFiles;
pub use editors::Editor;
pub use runs::edit_lines;
pub use watched::Watched;
