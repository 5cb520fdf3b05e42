//! How warnings are written: a line for each kind of them in a text.
//!
//! Where a text has one warning of a kind, its line says where it stands; where it has more, how many they are, and which are the first.
//! The words of a new kind stand here, and in `specs/WarningLines.antt`.

ghost use Rattle.std.specs.Prelude.{◌≡◌, ◌++◌, codes, map, string_bytes};
ghost use Rattle.std.specs.List.{flat_map};
ghost use Rattle.coll_devices.specs.Devices.{Writes};
ghost use Rattle.coll_lint.specs.WarningLines.{alone_line, alone_told, counts_lines, firsts_line, firsts_told, line_told, mark_line};
ghost use Rattle.coll_lint.specs.WarningLines.{noun_told, one_of, several_head, several_told};
ghost use Rattle.coll_lint.specs.WarningLines.{line_end as end_of_line, warnings_text};

use crate::counts::with_commas;
use crate::lint_lines::name_of;
use coll_devices::{Sink, WriteStop, write_bytes};
use coll_findings::{Warned, WarnedKind, Warning, Warnings};
use coll_syntax::Id;
use coll_texts::{Piece, write_pieces};

/// What has a line, with the name of its text.
#[derive(Clone, Copy)]
pub(crate) enum KindLine<'a> {
    /// A byte order mark at the beginning, where one stands there.
    Mark(&'a str, bool),
    /// The warnings of a kind, where there are any.
    Kind(&'a str, Warning, &'a WarnedKind),
}

/// Writes warnings, a line for each kind, with the name of its input. Where it stops, the device has taken a prefix of that.
pub(crate) fn write_warnings<W: Sink>(
    warnings: &Warnings,
    names: &[String],
    out: &mut W,
) -> Result<(), WriteStop>
    ensures { Writes (W.taken out.old) (W.taken out.new) (W.failed out.old) (W.failed out.new)
        (warnings_text (map string_bytes names.now) warnings.now) result }
{
    let name = name_of(names, warnings.input);
    write_kinds(
        &[
            KindLine::Mark(name, warnings.mark),
            KindLine::Kind(name, Warning::CopyWithoutEffect, &warnings.copies),
            KindLine::Kind(name, Warning::ScriptWithoutEffect, &warnings.scripts),
            KindLine::Kind(name, Warning::SymbolNeverPlaced, &warnings.symbols),
            KindLine::Kind(name, Warning::ElementNeverPlaced, &warnings.elements),
            KindLine::Kind(name, Warning::ChangesNothing, &warnings.unchanged),
            KindLine::Kind(name, Warning::PercentSign, &warnings.percents),
            KindLine::Kind(name, Warning::LacksWeights, &warnings.lacking),
            KindLine::Kind(name, Warning::SortsElsewhere, &warnings.elsewhere),
            KindLine::Kind(name, Warning::SymbolElsewhere, &warnings.symbols_elsewhere),
            KindLine::Mark(name_of(names, 0), warnings.table_mark),
        ],
        out,
    )
}

// Writes the lines of kinds.
fn write_kinds<W: Sink>(kinds: &[KindLine<'_>], out: &mut W) -> Result<(), WriteStop>
    ensures { Writes (W.taken out.old) (W.taken out.new) (W.failed out.old) (W.failed out.new) (flat_map line_told kinds.now) result }
{
    for kind in kinds {
        // Not `?`: behind its conversion this exit would need a lemma.
        if let Err(stop) = write_line(*kind, out) {
            return Err(stop);
        }
    }
    Ok(())
}

// Writes the line of a mark, or of a kind.
fn write_line<W: Sink>(line: KindLine<'_>, out: &mut W) -> Result<(), WriteStop>
    ensures { Writes (W.taken out.old) (W.taken out.new) (W.failed out.old) (W.failed out.new) (line_told line.entry) result }
{
    match line {
        KindLine::Mark(name, stands) => write_mark(name, stands, out),
        KindLine::Kind(name, warning, kind) => {
            write_kind(name, warning, kind.count, kind.firsts.as_slice(), out)
        }
    }
}

// Writes that a byte order mark stands at the beginning of a text, if one does.
fn write_mark<W: Sink>(name: &str, stands: bool, out: &mut W) -> Result<(), WriteStop>
    ensures { Writes (W.taken out.old) (W.taken out.new) (W.failed out.old) (W.failed out.new) (mark_line name.now stands) result }
{
    if !stands {
        return Ok(());
    }
    write_pieces(
        out,
        &[
            Piece::Bytes(name.as_bytes()),
            Piece::Bytes(
                b":1: warning: a byte order mark stands at the beginning: save the text without it\n",
            ),
        ],
    )
}

// Writes the line of the warnings of a kind, of which these are the first, if there are any.
fn write_kind<W: Sink>(
    name: &str,
    warning: Warning,
    count: u32,
    firsts: &[Warned],
    out: &mut W,
) -> Result<(), WriteStop>
    ensures { Writes (W.taken out.old) (W.taken out.new) (W.failed out.old) (W.failed out.new)
        (firsts_line name.now warning count firsts.now) result }
{
    match firsts {
        [] => Ok(()),
        [only] => write_alone(name, warning, only, out),
        _ => write_several(name, warning, firsts, count, out),
    }
}

// Writes the line of a warning that is the only one of its kind.
fn write_alone<'a, W: Sink>(
    name: &'a str,
    warning: Warning,
    only: &'a Warned,
    out: &mut W,
) -> Result<(), WriteStop>
    ensures { Writes (W.taken out.old) (W.taken out.new) (W.failed out.old) (W.failed out.new)
        (alone_line name.now warning only.now) result }
{
    match &only.id {
        Some(id) => write_pieces(
            out,
            &[
                Piece::Bytes(name.as_bytes()),
                Piece::Bytes(b":"),
                Piece::Number(u64::from(only.line)),
                Piece::Bytes(b": warning: "),
                Piece::Id(id),
                Piece::Bytes(alone(warning)),
            ],
        ),
        None => write_pieces(
            out,
            &[
                Piece::Bytes(name.as_bytes()),
                Piece::Bytes(b":"),
                Piece::Number(u64::from(only.line)),
                Piece::Bytes(b": warning: "),
                Piece::Bytes(alone(warning)),
            ],
        ),
    }
}

// Writes the line of several warnings of a kind, of which these are the first.
fn write_several<W: Sink>(
    name: &str,
    warning: Warning,
    firsts: &[Warned],
    count: u32,
    out: &mut W,
) -> Result<(), WriteStop>
    ensures { Writes (W.taken out.old) (W.taken out.new) (W.failed out.old) (W.failed out.new)
        (several_head name.now warning count ++ firsts_told warning count firsts.now) result }
{
    match write_several_head(name, warning, count, out) {
        Ok(()) => write_firsts(warning, count, firsts, out),
        Err(stop) => Err(stop),
    }
}

// Writes what several warnings of a kind say, how many they are, and what is counted.
fn write_several_head<W: Sink>(
    name: &str,
    warning: Warning,
    count: u32,
    out: &mut W,
) -> Result<(), WriteStop>
    ensures { Writes (W.taken out.old) (W.taken out.new) (W.failed out.old) (W.failed out.new)
        (several_head name.now warning count) result }
{
    let number = with_commas(count);
    write_pieces(
        out,
        &[
            Piece::Bytes(name.as_bytes()),
            Piece::Bytes(b": warning: "),
            Piece::Bytes(several(warning)),
            Piece::Bytes(number.as_slice()),
            Piece::Bytes(noun(warning)),
        ],
    )
}

// Writes the first of so many warnings of a kind, to the end of their line.
fn write_firsts<W: Sink>(
    warning: Warning,
    count: u32,
    firsts: &[Warned],
    out: &mut W,
) -> Result<(), WriteStop>
    ensures { Writes (W.taken out.old) (W.taken out.new) (W.failed out.old) (W.failed out.new)
        (firsts_told warning count firsts.now) result }
{
    for one in firsts {
        // Not `?`: behind its conversion this exit would need a lemma.
        if let Err(stop) = write_one(warning, one.line, &one.id, out) {
            return Err(stop);
        }
    }
    write_bytes(out, line_end(firsts.len(), count))
}

// Writes what stands for one of several warnings of a kind, behind a space.
fn write_one<W: Sink>(
    warning: Warning,
    line: u32,
    id: &Option<Id>,
    out: &mut W,
) -> Result<(), WriteStop>
    ensures { Writes (W.taken out.old) (W.taken out.new) (W.failed out.old) (W.failed out.new)
        (codes " " ++ one_of warning line id.now) result }
{
    match id {
        Some(id) if counts_lines(warning) => write_pieces(
            out,
            &[
                Piece::Bytes(b" "),
                Piece::Id(id),
                Piece::Bytes(b" (line "),
                Piece::Number(u64::from(line)),
                Piece::Bytes(b")"),
            ],
        ),
        Some(id) => write_pieces(out, &[Piece::Bytes(b" "), Piece::Id(id)]),
        None => write_pieces(out, &[Piece::Bytes(b" "), Piece::Number(u64::from(line))]),
    }
}

// Whether warnings of a kind that are about names count lines.
fn counts_lines(warning: Warning) -> bool
    ensures { result ≡ counts_lines warning }
{
    match warning {
        Warning::LacksWeights | Warning::SortsElsewhere | Warning::SymbolElsewhere => true,
        Warning::CopyWithoutEffect
        | Warning::ScriptWithoutEffect
        | Warning::SymbolNeverPlaced
        | Warning::ElementNeverPlaced
        | Warning::ChangesNothing
        | Warning::PercentSign => false,
    }
}

// The end of a line in which so many of a count stand.
fn line_end(told: usize, count: u32) -> &'static [u8]
    ensures { result.now ≡ end_of_line told count }
{
    if told < count as usize {
        b" ..\n"
    } else {
        b"\n"
    }
}

// What a warning says that is the only one of its kind.
fn alone(warning: Warning) -> &'static [u8]
    ensures { result.now ≡ alone_told warning }
{
    match warning {
        Warning::CopyWithoutEffect => {
            b"copy has no effect in a delta file: make one of its source by collbench import-delta, if this isn't one\n"
        }
        Warning::ScriptWithoutEffect => b"script has no effect: leave it out\n",
        Warning::SymbolNeverPlaced | Warning::ElementNeverPlaced => {
            b" is declared and never placed: place it, or drop its declaration\n"
        }
        Warning::ChangesNothing => b"this changes nothing: the table is so already\n",
        Warning::PercentSign => {
            b"% begins no comment here, but is a character; behind a line comment_char % it does\n"
        }
        Warning::LacksWeights => {
            b" lacks weights for more levels than the last, and weighs as itself there: give it one for each level\n"
        }
        Warning::SortsElsewhere => {
            b" doesn't sort where it stands: its first weight is neither that of the entry before it nor directly behind that, so give it weights that begin so, or put the symbol that it weighs as behind that of the entry before\n"
        }
        Warning::SymbolElsewhere => {
            b" doesn't sort where it stands: put it behind the symbol that the entry before it weighs as\n"
        }
    }
}

// What several warnings of a kind say.
fn several(warning: Warning) -> &'static [u8]
    ensures { result.now ≡ several_told warning }
{
    match warning {
        Warning::CopyWithoutEffect => {
            b"copy has no effect in a delta file, make one of its source by collbench import-delta: "
        }
        Warning::ScriptWithoutEffect => b"script has no effect, leave it out: ",
        Warning::SymbolNeverPlaced | Warning::ElementNeverPlaced => b"declared and never placed: ",
        Warning::ChangesNothing => b"this changes nothing, the table is so already: ",
        Warning::PercentSign => {
            b"% begins no comment here, but is a character, behind a line comment_char % it does: "
        }
        Warning::LacksWeights => {
            b"weights lack for more levels than the last, and the entries weigh as themselves there, give them one for each level: "
        }
        Warning::SortsElsewhere => {
            b"entries don't sort where they stand, as their first weights are neither those of the entries before them nor directly behind those, so give them weights that begin so, or put the symbols that they weigh as behind those of the entries before: "
        }
        Warning::SymbolElsewhere => {
            b"symbols don't sort where they stand, put each behind the symbol that the entry before it weighs as: "
        }
    }
}

// What is counted.
fn noun(warning: Warning) -> &'static [u8]
    ensures { result.now ≡ noun_told warning }
{
    match warning {
        Warning::CopyWithoutEffect | Warning::ScriptWithoutEffect | Warning::PercentSign => {
            b" times, in lines"
        }
        Warning::SymbolNeverPlaced => b" symbols, as",
        Warning::ElementNeverPlaced => b" elements, as",
        Warning::ChangesNothing => b" statements, in lines",
        Warning::LacksWeights | Warning::SortsElsewhere | Warning::SymbolElsewhere => b" lines, as",
    }
}
