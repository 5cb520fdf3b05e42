//! How what a lint tells is written, a line for each fault, and behind them a line for each kind of warnings.

ghost use Rattle.std.specs.Prelude.{◌≡◌, Some, chars, map, string_bytes};
ghost use Rattle.std.specs.List.{flat_map};
ghost use Rattle.coll_devices.specs.Devices.{Writes};
ghost use Rattle.coll_bench.specs.Reports.{named};
ghost use Rattle.coll_lint.specs.LintLines.{about_told, fault_head, faults_text, found_line, lint_text, more_line};
ghost use Rattle.coll_lint.specs.LintLines.{subject_told, word_told};

use crate::lints::Lint;
use crate::warning_lines::write_warnings;
use coll_devices::{Sink, WriteStop};
use coll_findings::{About, ForeignWord, FoundFault};
use coll_syntax::Id;
use coll_texts::{Piece, write_pieces};

/// Writes what is told, each line with the name of its input. Where it stops, the device has taken a prefix of that.
#[tactic(auto, unfolding(crate::specs::LintLines::lint_text))]
pub fn write_lint<W: Sink>(lint: &Lint, names: &[String], out: &mut W) -> Result<(), WriteStop>
    ensures { Writes (W.taken out.old) (W.taken out.new) (W.failed out.old) (W.failed out.new)
        (lint_text (map string_bytes names.now) lint.now) result }
{
    match write_told_faults(lint, names, out) {
        Ok(()) => write_warnings(&lint.warnings, names, out),
        Err(stop) => Err(stop),
    }
}

// Writes the faults that are told, and whether there are more.
fn write_told_faults<W: Sink>(lint: &Lint, names: &[String], out: &mut W) -> Result<(), WriteStop>
    ensures { Writes (W.taken out.old) (W.taken out.new) (W.failed out.old) (W.failed out.new)
        (faults_text (map string_bytes names.now) lint.now) result }
{
    match write_faults(lint.faults.get(), names, out) {
        Ok(()) => write_more(lint.more_faults, names, b": more faults aren't told\n", out),
        Err(stop) => Err(stop),
    }
}

// Writes faults.
fn write_faults<W: Sink>(
    faults: &[FoundFault],
    names: &[String],
    out: &mut W,
) -> Result<(), WriteStop>
    ensures { Writes (W.taken out.old) (W.taken out.new) (W.failed out.old) (W.failed out.new)
        (flat_map (found_line (map string_bytes names.now)) faults.now) result }
{
    for found in faults {
        // Not `?`: behind its conversion this exit would need a lemma.
        if let Err(stop) = write_found(found, names, out) {
            return Err(stop);
        }
    }
    Ok(())
}

// Writes a fault.
fn write_found<W: Sink>(found: &FoundFault, names: &[String], out: &mut W) -> Result<(), WriteStop>
    ensures { Writes (W.taken out.old) (W.taken out.new) (W.failed out.old) (W.failed out.new)
        (found_line (map string_bytes names.now) found.now) result }
{
    match write_head(found, names, out) {
        Ok(()) => write_about(found.sentence, &found.about, out),
        Err(stop) => Err(stop),
    }
}

// Writes where a fault stands, its number and its name.
fn write_head<W: Sink>(found: &FoundFault, names: &[String], out: &mut W) -> Result<(), WriteStop>
    ensures { Writes (W.taken out.old) (W.taken out.new) (W.failed out.old) (W.failed out.new)
        (fault_head (map string_bytes names.now) found.now) result }
{
    write_pieces(
        out,
        &[
            Piece::Bytes(name_of(names, found.fault.input).as_bytes()),
            Piece::Bytes(b":"),
            Piece::Number(u64::from(found.line)),
            Piece::Bytes(b": "),
            Piece::Number(u64::from(found.fault.fault.number())),
            Piece::Bytes(b" "),
            Piece::Bytes(found.fault.fault.name().as_bytes()),
        ],
    )
}

// Writes what a fault is about, what to do, and a line feed.
fn write_about<'a, W: Sink>(
    sentence: &'a str,
    about: &'a About,
    out: &mut W,
) -> Result<(), WriteStop>
    ensures { Writes (W.taken out.old) (W.taken out.new) (W.failed out.old) (W.failed out.new) (about_told sentence.now about.now) result }
{
    match about {
        About::Nothing => write_pieces(
            out,
            &[
                Piece::Bytes(b": "),
                Piece::Bytes(sentence.as_bytes()),
                Piece::Bytes(b"\n"),
            ],
        ),
        About::Id { id, near: None } => write_pieces(
            out,
            &[
                Piece::Bytes(b" "),
                Piece::Id(id),
                Piece::Bytes(b": "),
                Piece::Bytes(sentence.as_bytes()),
                Piece::Bytes(b"\n"),
            ],
        ),
        About::Id {
            id,
            near: Some(near),
        } => write_with_near(sentence, id, near.get(), out),
        About::Word(word) => write_word(word, out),
    }
}

// Writes an identifier, what to do, a name that is near, and a line feed.
fn write_with_near<'a, W: Sink>(
    sentence: &'a str,
    id: &'a Id,
    near: &'a str,
    out: &mut W,
) -> Result<(), WriteStop>
    ensures { Writes (W.taken out.old) (W.taken out.new) (W.failed out.old) (W.failed out.new)
        (subject_told sentence.now id.now (Some (chars near.now))) result }
{
    write_pieces(
        out,
        &[
            Piece::Bytes(b" "),
            Piece::Id(id),
            Piece::Bytes(b": "),
            Piece::Bytes(sentence.as_bytes()),
            Piece::Bytes(b"; is "),
            Piece::Symbol(near),
            Piece::Bytes(b" meant?\n"),
        ],
    )
}

// Writes a keyword of another dialect, if it is one, what to write instead, and a line feed.
fn write_word<W: Sink>(word: &ForeignWord, out: &mut W) -> Result<(), WriteStop>
    ensures { Writes (W.taken out.old) (W.taken out.new) (W.failed out.old) (W.failed out.new) (word_told word.now) result }
{
    match word.theirs {
        Some(theirs) => write_pieces(
            out,
            &[
                Piece::Bytes(b" "),
                Piece::Bytes(theirs.as_bytes()),
                Piece::Bytes(b": "),
                Piece::Bytes(word.ours.as_bytes()),
                Piece::Bytes(b"\n"),
            ],
        ),
        None => write_pieces(
            out,
            &[
                Piece::Bytes(b": "),
                Piece::Bytes(word.ours.as_bytes()),
                Piece::Bytes(b"\n"),
            ],
        ),
    }
}

// Writes that more of an input isn't told, if there is more.
fn write_more<'a, W: Sink>(
    more: Option<usize>,
    names: &'a [String],
    told: &'a [u8],
    out: &mut W,
) -> Result<(), WriteStop>
    ensures { Writes (W.taken out.old) (W.taken out.new) (W.failed out.old) (W.failed out.new)
        (more_line (map string_bytes names.now) told.now more) result }
{
    match more {
        Some(input) => write_pieces(
            out,
            &[
                Piece::Bytes(name_of(names, input).as_bytes()),
                Piece::Bytes(told),
            ],
        ),
        None => Ok(()),
    }
}

/// The name of an input, or no bytes where there is none.
pub(crate) fn name_of(names: &[String], input: usize) -> &str
    ensures { result.now ≡ named (map string_bytes names.now) input }
{
    match names.get(input) {
        Some(name) => name.as_str(),
        None => "",
    }
}
