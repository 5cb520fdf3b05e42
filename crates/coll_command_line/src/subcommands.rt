//! The subcommands that work on a table or make one: their names, and what help says of each.

ghost use Rattle.std.specs.Prelude.{◌≡◌, ◌≢◌, None, IfSome};
ghost use Rattle.coll_command_line.specs.Tasks.{subcommand_name};
ghost use Rattle.coll_command_line.specs.declared.subcommands.Subcommand.{Subcommand};

/// The subcommands that work on a table or make one, in the order in which help tells them, from what is used first to what is used
/// seldom: tables are made of sources, looked over, tailored, asked by words, compared and written, and last asked by programs.
pub(crate) const SUBCOMMANDS: &[Subcommand] = &[
    Subcommand::Import,
    Subcommand::ImportDelta,
    Subcommand::Check,
    Subcommand::Lint,
    Subcommand::Edit,
    Subcommand::Review,
    Subcommand::Sort,
    Subcommand::Compare,
    Subcommand::Explain,
    Subcommand::Diff,
    Subcommand::Print,
    Subcommand::Export,
    Subcommand::Key,
    Subcommand::Compile,
    Subcommand::Session,
];

/// A subcommand that works on a table, or makes one.
#[derive(Clone, Copy)]
pub enum Subcommand {
    /// Counts what a table has.
    Check,
    /// Prints a table.
    Print,
    /// Prints a table in the form that `localedef` takes.
    Export,
    /// Prints the compiled listing of a table.
    Compile,
    /// Prints the sort keys of texts.
    Key,
    /// Compares two texts.
    Compare,
    /// Tells why two texts compare as they do.
    Explain,
    /// Sorts lines.
    Sort,
    /// Tells what the statements of a delta file do to words.
    Review,
    /// Tells all that is wrong with a table, or with a delta file for it.
    Lint,
    /// Serves a session over a table.
    Session,
    /// Serves a person over a table.
    Edit,
    /// Tells what differs between two tables.
    Diff,
    /// Makes a table of a published source.
    Import,
    /// Makes a delta file for a table of a published tailoring.
    ImportDelta,
}

impl Subcommand {
    /// Its name, as it stands on a command line.
    pub fn name(self) -> &'static str
        ensures { result.now ≡ subcommand_name self }
    {
        match self {
            Subcommand::Check => "check",
            Subcommand::Print => "print",
            Subcommand::Export => "export",
            Subcommand::Compile => "compile",
            Subcommand::Key => "key",
            Subcommand::Compare => "compare",
            Subcommand::Explain => "explain",
            Subcommand::Sort => "sort",
            Subcommand::Review => "review",
            Subcommand::Lint => "lint",
            Subcommand::Session => "session",
            Subcommand::Edit => "edit",
            Subcommand::Diff => "diff",
            Subcommand::Import => "import",
            Subcommand::ImportDelta => "import-delta",
        }
    }

    /// What help says of it.
    pub(crate) fn about(self) -> &'static str {
        match self {
            Subcommand::Check => "Counts the entries, declarations, sections and levels of a table",
            Subcommand::Print => "Prints a table, in a form that can be read again",
            Subcommand::Export => {
                "Prints a table in the form that localedef takes, and tells on standard error of symbols behind a character"
            }
            Subcommand::Compile => {
                "Prints the rank of each entry of a table, and its weights as ranks"
            }
            Subcommand::Key => "Prints the sort key of each text, one a line",
            Subcommand::Compare => "Compares two texts: less, equal or greater",
            Subcommand::Explain => {
                "Tells why two texts compare as they do, level by level up to the one that decides"
            }
            Subcommand::Sort => {
                "Reads lines from standard input, and prints them in the order of a table"
            }
            Subcommand::Review => {
                "Tells what each statement of a delta file does to the order of words"
            }
            Subcommand::Lint => {
                "Tells all faults of a table, or of a delta file for it, and what does less than it seems to; the exit status is 1 where there is a fault"
            }
            Subcommand::Session => {
                "Reads the lines of a session from standard input, and replies to each"
            }
            Subcommand::Edit => "Edits a table with a person, and replies to each line",
            Subcommand::Diff => {
                "Tells what differs between two tables, a line each; the exit status is 1 where anything does"
            }
            Subcommand::Import => {
                "Prints the table of a published locale source, and tells on standard error what was changed"
            }
            Subcommand::ImportDelta => {
                "Prints a delta file of a published tailoring, and tells on standard error what was changed"
            }
        }
    }

    /// The subcommand with this name, if there is one.
    pub fn named(name: &str) -> Option<Subcommand>
        ensures some { IfSome result (λ subcommand. subcommand_name subcommand ≡ name.now) }
        ensures none { result ≡ None → (subcommand : Subcommand) → subcommand_name subcommand ≢ name.now }
    {
        match name {
            "check" => Some(Subcommand::Check),
            "print" => Some(Subcommand::Print),
            "export" => Some(Subcommand::Export),
            "compile" => Some(Subcommand::Compile),
            "key" => Some(Subcommand::Key),
            "compare" => Some(Subcommand::Compare),
            "explain" => Some(Subcommand::Explain),
            "sort" => Some(Subcommand::Sort),
            "review" => Some(Subcommand::Review),
            "lint" => Some(Subcommand::Lint),
            "session" => Some(Subcommand::Session),
            "edit" => Some(Subcommand::Edit),
            "diff" => Some(Subcommand::Diff),
            "import" => Some(Subcommand::Import),
            "import-delta" => Some(Subcommand::ImportDelta),
            _ => None,
        }
    }
}
