//! What a subcommand does with a table or with a source, by the texts given to it.

ghost use Rattle.std.specs.Prelude.{◌≡◌, ◌∷◌, [], map, chars, IfOk};
ghost use Rattle.coll_command_line.specs.Tasks.{explained, task_for};

use crate::subcommands::Subcommand;
use coll_bench::Batch;
use coll_lex::{ListBuf, TextBuf};
use std::alloc::{AllocError, Global};

/// What is done with a table, or with a source.
#[derive(Drop)]
pub enum Task {
    /// It is read, rewritten by delta files, and answered from once.
    Batch(Batch),
    /// It is read, and why these two texts compare as they do by it is told.
    Explain(TextBuf, TextBuf),
    /// It is read, rewritten by delta files, and the lines of standard input are sorted by it.
    Sort,
    /// It is read, then words and a delta file, and what each statement does to the words is told.
    Review,
    /// It is read, and perhaps a delta file, and all that is wrong with them is told.
    Lint,
    /// It is read, and a session over it is served.
    Session,
    /// It is read, rewritten by delta files as the first statements of a history, and a person is served over it.
    Edit,
    /// It is read, then another, and what differs between them is told.
    Differences,
    /// A source is read, where these names are defined, and the table that is made of it is printed.
    Import(ListBuf<TextBuf>),
    /// It is read, then a tailoring, where these names are defined, and the delta file that is made of that is printed.
    ImportDelta(ListBuf<TextBuf>),
}

/// What a subcommand does with a table, by the texts given to it; nothing if they aren't as many as it takes.
pub(crate) fn task_of(
    alloc: Global,
    subcommand: Subcommand,
    texts: &[&str],
) -> Result<Option<Task>, AllocError>
    ensures { IfOk result (λ task. task ≡ task_for subcommand (map (λ text. chars text.now) texts.now)) }
{
    let batch = match (subcommand, texts) {
        (Subcommand::Check, _) => Batch::Check,
        (Subcommand::Print, _) => Batch::Print,
        (Subcommand::Export, _) => Batch::Export,
        (Subcommand::Compile, _) => Batch::Compile,
        (Subcommand::Key, _) => Batch::Key(copied_texts(alloc, texts)?),
        (Subcommand::Compare, [first, second]) => Batch::Compare(
            copied_text(alloc, first)?,
            copied_text(alloc, second)?,
        ),
        (Subcommand::Explain, [first, second]) => return explained(alloc, first, second),
        (Subcommand::Compare | Subcommand::Explain, _) => return Ok(None),
        (Subcommand::Sort, _) => return Ok(Some(Task::Sort)),
        (Subcommand::Review, _) => return Ok(Some(Task::Review)),
        (Subcommand::Lint, _) => return Ok(Some(Task::Lint)),
        (Subcommand::Session, _) => return Ok(Some(Task::Session)),
        (Subcommand::Edit, _) => return Ok(Some(Task::Edit)),
        (Subcommand::Diff, _) => return Ok(Some(Task::Differences)),
        (Subcommand::Import, _) => return Ok(Some(Task::Import(copied_texts(alloc, texts)?))),
        (Subcommand::ImportDelta, _) => return Ok(Some(Task::ImportDelta(copied_texts(
            alloc, texts,
        )?))),
    };
    Ok(Some(Task::Batch(batch)))
}

// The task of explaining two texts.
fn explained(alloc: Global, first: &str, second: &str) -> Result<Option<Task>, AllocError>
    ensures { IfOk result (λ task. task ≡ explained (chars first.now ∷ chars second.now ∷ [])) }
{
    let first = copied_text(alloc, first)?;
    let second = copied_text(alloc, second)?;
    Ok(Some(Task::Explain(first, second)))
}

// Texts, in new memory.
fn copied_texts(alloc: Global, texts: &[&str]) -> Result<ListBuf<TextBuf>, AllocError>
    ensures { IfOk result (λ copies. copies ≡ map (λ text. chars text.now) texts.now) }
{
    let mut copies = Vec::with_capacity(alloc, texts.len())?;
    for text in texts {
        copies.push(copied_text(alloc, text)?)?;
    }
    Ok(ListBuf::new(copies))
}

// A text, in new memory.
fn copied_text(alloc: Global, text: &str) -> Result<TextBuf, AllocError>
    ensures { IfOk result (λ copy. copy ≡ chars text.now) }
{
    Ok(TextBuf::new(String::from_str(alloc, text)?))
}
