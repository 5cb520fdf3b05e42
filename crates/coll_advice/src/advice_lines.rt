//! What is written of a fault behind its number and name.
//!
//! The identifier that it is about, what to do, and a name that is near: ` <d-z>: declare it with collating-symbol; is <dz> meant?`
//! (`specs/AdviceLines.antt`). The sentence is that of `spelled_names`.

ghost use Rattle.std.specs.Prelude.{option_copied, option_map, chars};
ghost use Rattle.coll_devices.specs.Devices.{CountsErr, Writes};
ghost use Rattle.coll_advice.specs.AdviceLines.{SendsAdvice, advice_line, near_bytes, sentence_bytes, subject_bytes};

use crate::spelled_names::sentence_for;
use coll_devices::{Sink, WriteStop};
use coll_syntax::Id;
use coll_texts::{Piece, write_pieces};

/// Writes what stands behind the number and name of a fault: the identifier that it is about, in its canonical spelling, what to do,
/// the near name, each where there is one, and a line feed. Where it stops, the device has taken a prefix of the line.
pub fn write_advice<W: Sink>(
    out: &mut W,
    number: u8,
    id: Option<&Id>,
    near: Option<&str>,
) -> Result<(), WriteStop>
    ensures sent { SendsAdvice (W.taken out.old) (W.taken out.new) number (option_copied id.entry)
        (option_map (λ name. chars name.now) near.entry) result }
    ensures errors { CountsErr (W.failed out.old) (W.failed out.new) result }
{
    let sentence = sentence_for(number, id);
    write_told(out, sentence, id, near)
}

// Writes what stands behind the number and name of a fault with this sentence, if there is one.
fn write_told<W: Sink>(
    out: &mut W,
    sentence: Option<&str>,
    id: Option<&Id>,
    near: Option<&str>,
) -> Result<(), WriteStop>
    ensures { Writes (W.taken out.old) (W.taken out.new) (W.failed out.old) (W.failed out.new)
        (advice_line (option_copied sentence.entry) (option_copied id.entry) (option_map (λ name. chars name.now) near.entry)) result }
{
    write_subject(out, id)?;
    write_sentence(out, sentence)?;
    write_near(out, near)
}

// Writes the identifier that a fault is about, where it is about one.
fn write_subject<W: Sink>(out: &mut W, id: Option<&Id>) -> Result<(), WriteStop>
    ensures { Writes (W.taken out.old) (W.taken out.new) (W.failed out.old) (W.failed out.new)
        (subject_bytes (option_copied id.entry)) result }
{
    match id {
        Some(id) => write_pieces(out, &[Piece::Bytes(b" "), Piece::Id(id)]),
        None => write_pieces(out, &[]),
    }
}

// Writes what to do, where that is told.
fn write_sentence<W: Sink>(out: &mut W, sentence: Option<&str>) -> Result<(), WriteStop>
    ensures { Writes (W.taken out.old) (W.taken out.new) (W.failed out.old) (W.failed out.new)
        (sentence_bytes (option_copied sentence.entry)) result }
{
    match sentence {
        Some(sentence) => write_pieces(
            out,
            &[Piece::Bytes(b": "), Piece::Bytes(sentence.as_bytes())],
        ),
        None => write_pieces(out, &[]),
    }
}

// Writes the near name, where there is one, and a line feed.
fn write_near<W: Sink>(out: &mut W, near: Option<&str>) -> Result<(), WriteStop>
    ensures { Writes (W.taken out.old) (W.taken out.new) (W.failed out.old) (W.failed out.new)
        (near_bytes (option_map (λ name. chars name.now) near.entry)) result }
{
    match near {
        Some(name) => write_pieces(
            out,
            &[
                Piece::Bytes(b"; is "),
                Piece::Symbol(name),
                Piece::Bytes(b" meant?\n"),
            ],
        ),
        None => write_pieces(out, &[Piece::Bytes(b"\n")]),
    }
}
