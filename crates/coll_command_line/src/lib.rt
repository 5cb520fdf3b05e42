//! The command line: what the words after the program's name ask for, apart from any file.
//!
//! `clap` reads the words, and its texts tell a user what may stand there. A way through the crate, with its definitions in `specs/`:
//!
//! - `subcommands`: the subcommands that work on a table or make one, and their names (`Tasks`);
//! - `tasks`: what each of them does, by the texts given to it (`Tasks`);
//! - `help`: what help says behind the words that may stand there;
//! - `arguments`: the words that each takes, and so what may stand on a command line (`CommandLine`);
//! - `requests`: words are read, and come to a task and to names of files (`Reading`).
//!
//! A new subcommand is a variant of `Subcommand` with its name, a case of `about`, of `taking` and `words_of`, of `task_of` and
//! `task_for`, a place in `SUBCOMMANDS` and in `subcommands`, and an example in `EXAMPLES`; `version` alone takes no table, and is no
//! variant. There is one level of subcommands, and no option but help.
#![tactic(auto)]

mod arguments;
mod help;
mod requests;
mod subcommands;
mod tasks;

pub use requests::{Asked, Unasked, read_command_line};
pub use tasks::Task;
