//! What is told of an import: a line for each kind of change, one for each thing that is lost, and that of a fault.
//!
//! What the lines say is in `specs/ReportText.antt`. None of this takes memory.

ghost use Rattle.std.specs.Prelude.{◌≡◌, map, string_bytes};
ghost use Rattle.std.specs.List.{flat_map};
ghost use Rattle.coll_devices.specs.Devices.{Writes};
ghost use Rattle.coll_texts.specs.Pieces.{piece_bytes};
ghost use Rattle.coll_import.specs.ReportText.{name_told, adjusted_line, told_of, lost_bytes, dropped_line, report_text, fault_line};

use coll_devices::{Sink, WriteStop};
use coll_source_lines::{Adjustment, Loss, Lost, Report, SourceFault, Tally, all_adjustments};
use coll_texts::{Piece, write_pieces};

/// Writes what was changed: for each kind of change the line `FILE:LINE: adjusted NAME COUNT`, with its first place, and then for each
/// thing that is lost the line `FILE:LINE: dropped NAME IDENTIFIER`. The names are those of the texts.
///
/// Where it stops, the device has taken a prefix of the lines.
pub fn write_report<W: Sink>(
    out: &mut W,
    report: &Report,
    names: &[String],
) -> Result<(), WriteStop>
    ensures { Writes (W.taken out.old) (W.taken out.new) (W.failed out.old) (W.failed out.new)
        (report_text (map string_bytes names.now) report.now) result }
{
    write_tallies(out, report, &all_adjustments(), names)?;
    write_losses(out, report.losses(), names)
}

/// Writes the line of a fault: `FILE:LINE: NUMBER NAME`. Where it stops, the device has taken a prefix of it.
pub fn write_source_fault<W: Sink>(
    out: &mut W,
    fault: &SourceFault,
    names: &[String],
) -> Result<(), WriteStop>
    ensures { Writes (W.taken out.old) (W.taken out.new) (W.failed out.old) (W.failed out.new)
        (fault_line (map string_bytes names.now) fault.now) result }
{
    write_pieces(
        out,
        &[
            Piece::Bytes(name_of(names, fault.place.text).as_bytes()),
            Piece::Bytes(b":"),
            Piece::Number(u64::from(fault.place.line)),
            Piece::Bytes(b": "),
            Piece::Number(u64::from(fault.cause.number())),
            Piece::Bytes(b" "),
            Piece::Bytes(fault.cause.name().as_bytes()),
            Piece::Bytes(b"\n"),
        ],
    )
}

// Writes the lines of those among some kinds of change that were made.
fn write_tallies<W: Sink>(
    out: &mut W,
    report: &Report,
    kinds: &[Adjustment],
    names: &[String],
) -> Result<(), WriteStop>
    ensures { Writes (W.taken out.old) (W.taken out.new) (W.failed out.old) (W.failed out.new)
        (flat_map (told_of (map string_bytes names.now) report.now.tallies) kinds.now) result }
{
    for kind in kinds {
        // Not `?`: behind its conversion this exit would need a lemma.
        if let Err(stop) = write_if_made(out, report, *kind, names) {
            return Err(stop);
        }
    }
    Ok(())
}

// Writes the line of a kind of change, if it was made.
fn write_if_made<W: Sink>(
    out: &mut W,
    report: &Report,
    kind: Adjustment,
    names: &[String],
) -> Result<(), WriteStop>
    ensures { Writes (W.taken out.old) (W.taken out.new) (W.failed out.old) (W.failed out.new)
        (told_of (map string_bytes names.now) report.now.tallies kind) result }
{
    match report.tally(kind) {
        Some(tally) => write_tally(out, &tally, names),
        None => Ok(()),
    }
}

// Writes the line of a kind of change.
fn write_tally<W: Sink>(out: &mut W, tally: &Tally, names: &[String]) -> Result<(), WriteStop>
    ensures { Writes (W.taken out.old) (W.taken out.new) (W.failed out.old) (W.failed out.new)
        (adjusted_line (map string_bytes names.now) tally.now) result }
{
    write_pieces(
        out,
        &[
            Piece::Bytes(name_of(names, tally.first.text).as_bytes()),
            Piece::Bytes(b":"),
            Piece::Number(u64::from(tally.first.line)),
            Piece::Bytes(b": adjusted "),
            Piece::Bytes(tally.adjustment.name().as_bytes()),
            Piece::Bytes(b" "),
            Piece::Number(u64::from(tally.count)),
            Piece::Bytes(b"\n"),
        ],
    )
}

// Writes the lines of what is lost.
fn write_losses<W: Sink>(out: &mut W, losses: &[Loss], names: &[String]) -> Result<(), WriteStop>
    ensures { Writes (W.taken out.old) (W.taken out.new) (W.failed out.old) (W.failed out.new)
        (flat_map (dropped_line (map string_bytes names.now)) losses.now) result }
{
    for loss in losses {
        // Not `?`: behind its conversion this exit would need a lemma.
        if let Err(stop) = write_loss(out, loss, names) {
            return Err(stop);
        }
    }
    Ok(())
}

// Writes the line of something that is lost.
fn write_loss<'a, W: Sink>(
    out: &mut W,
    loss: &'a Loss,
    names: &'a [String],
) -> Result<(), WriteStop>
    ensures { Writes (W.taken out.old) (W.taken out.new) (W.failed out.old) (W.failed out.new)
        (dropped_line (map string_bytes names.now) loss.now) result }
{
    write_pieces(
        out,
        &[
            Piece::Bytes(name_of(names, loss.place.text).as_bytes()),
            Piece::Bytes(b":"),
            Piece::Number(u64::from(loss.place.line)),
            Piece::Bytes(b": dropped "),
            Piece::Bytes(loss.adjustment.name().as_bytes()),
            Piece::Bytes(b" "),
            lost_piece(&loss.what),
            Piece::Bytes(b"\n"),
        ],
    )
}

// What is lost, as a piece of its line.
fn lost_piece(what: &Lost) -> Piece<'_>
    ensures { piece_bytes result ≡ lost_bytes what.now }
{
    match what {
        Lost::Id(id) => Piece::Id(id),
        Lost::Word(word) => Piece::Bytes(word.get().as_bytes()),
    }
}

// The name of a text, or `-` where it has none.
fn name_of(names: &[String], text: usize) -> &str
    ensures { result.now ≡ name_told (map string_bytes names.now) text }
{
    match names.get(text) {
        Some(name) => name.as_str(),
        None => "-",
    }
}
