//! The words that each subcommand takes, as `clap` reads them and as usage shows them.

ghost use Rattle.std.specs.Prelude.{◌≡◌, ◌∷◌, [], codes, IfOk};
ghost use Rattle.clap.specs.Words.{app_of, new_rule, shape_of, with_subcommand};
ghost use Rattle.coll_command_line.specs.CommandLine.{ReadsWord, at_least, command_line, delta_words, name_words, shown, source_alone};
ghost use Rattle.coll_command_line.specs.CommandLine.{subcommands, table_and_delta, table_and_source, table_and_two_texts};
ghost use Rattle.coll_command_line.specs.CommandLine.{table_and_words, table_word, taken_by, taking, two_tables, version_name};
ghost use Rattle.coll_command_line.specs.CommandLine.{wanted, with_each};
ghost use Rattle.coll_command_line.specs.Tasks.{subcommand_name};

use crate::help::{
    ASKED, COPIES, EDITED, EXAMPLES, EXPLAINED, LINES, LINTED, ORDERS, TAILORS, TOLD,
};
use crate::subcommands::{SUBCOMMANDS, Subcommand};
use clap::{Arg, Command};
use std::alloc::{AllocError, Global};

// The names of the words that a subcommand takes, as usage shows them. SOURCE stands behind a TABLE, or in place of one.
pub(crate) const TABLE: &str = "TABLE";

pub(crate) const DELTA: &str = "DELTA";

pub(crate) const WORDS: &str = "WORDS";

pub(crate) const TEXT: &str = "TEXT";

pub(crate) const FIRST: &str = "A";

pub(crate) const SECOND: &str = "B";

// The second of two tables, which usage shows as TABLE too.
pub(crate) const OTHER: &str = "OTHER";

pub(crate) const SOURCE: &str = "SOURCE";

pub(crate) const NAME: &str = "NAME";

/// The name of the subcommand that takes no table.
pub(crate) const VERSION: &str = "version";

/// What may stand on a command line.
pub(crate) fn command<'a>(alloc: Global) -> Result<Command<'a>, AllocError>
    ensures { IfOk result (λ made. app_of made ≡ command_line) }
{
    let command = Command::new(alloc, "collbench")
        .about("A workbench for collation tables in LC_COLLATE source form")
        .after_help(EXAMPLES)
        .subcommand_required(true)
        .arg_required_else_help(true);
    with_all(alloc, command)?.subcommand(version(alloc))
}

// The command with the subcommands that work on a table. Each call hands it on, so that nothing else is held where memory is refused.
fn with_all<'a>(alloc: Global, command: Command<'a>) -> Result<Command<'a>, AllocError>
    ensures { IfOk result (λ made. app_of made ≡ with_each (app_of command.entry) subcommands) }
{
    let mut command = command;
    for subcommand in SUBCOMMANDS {
        command = with(alloc, command, *subcommand)?;
    }
    Ok(command)
}

// The command with a subcommand.
fn with<'a>(
    alloc: Global,
    command: Command<'a>,
    subcommand: Subcommand,
) -> Result<Command<'a>, AllocError>
    ensures { IfOk result (λ made. app_of made ≡ with_subcommand (app_of command.entry) (taken_by subcommand)) }
{
    match taking(alloc, subcommand) {
        Ok(taken) => command.subcommand(taken),
        Err(refused) => Err(refused),
    }
}

// The subcommand that takes no word.
fn version<'a>(alloc: Global) -> Command<'a>
    ensures { shape_of result ≡ taking version_name [] }
{
    Command::new(alloc, VERSION).about("Prints the version, and the prover that it was proved with")
}

// A subcommand with the words that it takes.
fn taking<'a>(alloc: Global, subcommand: Subcommand) -> Result<Command<'a>, AllocError>
    ensures { IfOk result (λ made. shape_of made ≡ taken_by subcommand) }
{
    match subcommand {
        Subcommand::Check
        | Subcommand::Print
        | Subcommand::Export
        | Subcommand::Compile
        | Subcommand::Sort => {
            over_table(alloc, subcommand)?
                .after_help(COPIES)
                .arg(deltas(alloc))
        }
        Subcommand::Key => over_table(alloc, subcommand)?
            .after_help(ASKED)
            .arg(texts(alloc)),
        Subcommand::Compare => Ok(over_two_texts(alloc, subcommand)?.after_help(ASKED)),
        Subcommand::Explain => Ok(over_two_texts(alloc, subcommand)?.after_help(EXPLAINED)),
        Subcommand::Review => over_words(alloc, subcommand),
        Subcommand::Lint => over_one_delta(alloc, subcommand),
        Subcommand::Session => over_table(alloc, subcommand),
        Subcommand::Edit => over_table(alloc, subcommand)?
            .after_help(EDITED)
            .arg(deltas(alloc)),
        Subcommand::Diff => over_two_tables(alloc, subcommand),
        Subcommand::Import => over_source(alloc, subcommand),
        Subcommand::ImportDelta => over_table_and_source(alloc, subcommand),
    }
}

// A subcommand that takes a table.
fn over_table<'a>(alloc: Global, subcommand: Subcommand) -> Result<Command<'a>, AllocError>
    ensures { IfOk result (λ made. shape_of made ≡ taking (subcommand_name subcommand) (table_word ∷ [])) }
{
    let name: &'a str = subcommand.name();
    let about: &'a str = subcommand.about();
    Command::new(alloc, name).about(about).arg(table(alloc))
}

// A subcommand that takes a table and perhaps a delta file.
fn over_one_delta<'a>(alloc: Global, subcommand: Subcommand) -> Result<Command<'a>, AllocError>
    ensures { IfOk result (λ made. shape_of made ≡ taking (subcommand_name subcommand) table_and_delta) }
{
    over_table(alloc, subcommand)?
        .after_help(LINTED)
        .arg(perhaps_delta(alloc))
}

// A subcommand that takes a table and two texts.
fn over_two_texts<'a>(alloc: Global, subcommand: Subcommand) -> Result<Command<'a>, AllocError>
    ensures { IfOk result (λ made. shape_of made ≡ taking (subcommand_name subcommand) table_and_two_texts) }
{
    over_table(alloc, subcommand)?
        .arg(text(alloc, FIRST))?
        .arg(text(alloc, SECOND))
}

// A subcommand that takes a table, a delta file and words.
fn over_words<'a>(alloc: Global, subcommand: Subcommand) -> Result<Command<'a>, AllocError>
    ensures { IfOk result (λ made. shape_of made ≡ taking (subcommand_name subcommand) table_and_words) }
{
    over_table(alloc, subcommand)?
        .after_help(TOLD)
        .arg(delta(alloc))?
        .arg(words(alloc))
}

// A subcommand that takes two tables.
fn over_two_tables<'a>(alloc: Global, subcommand: Subcommand) -> Result<Command<'a>, AllocError>
    ensures { IfOk result (λ made. shape_of made ≡ taking (subcommand_name subcommand) two_tables) }
{
    let command = over_table(alloc, subcommand)?.arg(other_table(alloc))?;
    Ok(command.after_help(LINES))
}

// A subcommand that takes a source.
fn over_source<'a>(alloc: Global, subcommand: Subcommand) -> Result<Command<'a>, AllocError>
    ensures { IfOk result (λ made. shape_of made ≡ taking (subcommand_name subcommand) source_alone) }
{
    let name: &'a str = subcommand.name();
    let about: &'a str = subcommand.about();
    Command::new(alloc, name)
        .about(about)
        .after_help(ORDERS)
        .arg(source(alloc))?
        .arg(names(alloc))
}

// A subcommand that takes a table and a tailoring.
fn over_table_and_source<'a>(
    alloc: Global,
    subcommand: Subcommand,
) -> Result<Command<'a>, AllocError>
    ensures { IfOk result (λ made. shape_of made ≡ taking (subcommand_name subcommand) table_and_source) }
{
    over_table(alloc, subcommand)?
        .after_help(TAILORS)
        .arg(tailoring(alloc))?
        .arg(names(alloc))
}

// A source, which stands in place of a table.
fn source<'a>(alloc: Global) -> Arg<'a>
    ensures { ReadsWord (shown table_word) result }
{
    Arg::new(alloc, TABLE)
        .value_name(SOURCE)
        .required(true)
        .help("The file of a source that orders everything; what it copies lies in the same folder")
}

// A source that changes a table.
fn tailoring<'a>(alloc: Global) -> Arg<'a>
    ensures { ReadsWord (wanted (codes "SOURCE")) result }
{
    Arg::new(alloc, SOURCE).required(true).help(
        "The file of a source that changes the table; what it copies lies in the same folder",
    )
}

// Names that are defined, perhaps none.
fn names<'a>(alloc: Global) -> Arg<'a>
    ensures { ReadsWord name_words result }
{
    Arg::new(alloc, NAME)
        .num_args(0..)
        .help("Names that an ifdef finds defined")
}

// A table.
fn table<'a>(alloc: Global) -> Arg<'a>
    ensures { ReadsWord table_word result }
{
    Arg::new(alloc, TABLE)
        .required(true)
        .help("The file of the table")
}

// A second table.
fn other_table<'a>(alloc: Global) -> Arg<'a>
    ensures { ReadsWord (shown (wanted (codes "OTHER"))) result }
{
    Arg::new(alloc, OTHER)
        .value_name(TABLE)
        .required(true)
        .help("The file of the table that it is compared with")
}

// One delta file.
fn delta<'a>(alloc: Global) -> Arg<'a>
    ensures { ReadsWord (wanted (codes "DELTA")) result }
{
    Arg::new(alloc, DELTA).required(true).help(
        "The file of statements that change the table, one after another",
    )
}

// One delta file, or none.
fn perhaps_delta<'a>(alloc: Global) -> Arg<'a>
    ensures { ReadsWord (new_rule (codes "DELTA")) result }
{
    Arg::new(alloc, DELTA)
        .required(false)
        .help("The file of statements that change the table")
}

// Words.
fn words<'a>(alloc: Global) -> Arg<'a>
    ensures { ReadsWord (wanted (codes "WORDS")) result }
{
    Arg::new(alloc, WORDS)
        .required(true)
        .help("The file of the words, one a line")
}

// Delta files, perhaps none.
fn deltas<'a>(alloc: Global) -> Arg<'a>
    ensures { ReadsWord delta_words result }
{
    Arg::new(alloc, DELTA).num_args(0..).help(
        "Files of statements that change the table, in their order",
    )
}

// One or more texts.
fn texts<'a>(alloc: Global) -> Arg<'a>
    ensures { ReadsWord (at_least 1 (wanted (codes "TEXT"))) result }
{
    Arg::new(alloc, TEXT)
        .required(true)
        .num_args(1..)
        .help("The texts, as they stand")
}

// One text.
fn text<'a>(alloc: Global, name: &'static str) -> Arg<'a>
    ensures { ReadsWord (wanted name.now) result }
{
    Arg::new(alloc, name)
        .required(true)
        .help("A text, as it stands")
}
