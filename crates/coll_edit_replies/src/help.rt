//! What may be typed, and what a fault says, by its number.

ghost use Rattle.std.specs.Prelude.{◌≡◌, true, OnOk};
ghost use Rattle.coll_devices.specs.Devices.{CountsErr, Sends};
ghost use Rattle.coll_edit_replies.specs.Help.{SendsHelp, advised_line};

use crate::replies::{flush, write_refusal};
use coll_advice::advice_of;
use coll_bench::Fault;
use coll_devices::{Sink, WriteStop, write_bytes};
use coll_syntax::SyntaxFault;
use coll_texts::{Piece, write_pieces};

// The lines of the help.
const HELP: &[u8] = b"statements:
  reorder-after ID     opens a block: the lines behind it go directly after ID, one after another
  ID WEIGHT;WEIGHT..   in a block places an entry, outside of one gives it other weights; an empty weight is the entry itself
  reorder-end          ends the block, which is then judged
  collating-symbol <X>
  collating-element <X> from \"ch\"
  symbol-equivalence <X> <Y>
  reorder-section-after <S> <T>
an ID is a character, <U00F6> or \xC3\xB6, a name, <BASE>, or UNDEFINED
what was done:
  :undo  :redo         the last statement is taken back, and put again
  :history             the statements that remain, with their numbers
  :withdraw K          the statement with the number K is taken from among the others, for good
  :delta               the statements that remain, as a delta file
  :write FILE          the same, into a new file
the table:
  :show ID             an entry with its rank, weights and section, and its neighbours
  :key TEXT            the sort key of a text
  :compare TEXT TEXT   less, equal or greater
  :explain TEXT TEXT   why
  :words FILE          the words of a file in order; * where the last statement changed a neighbour
  :check  :list  :print
a TEXT or a FILE with blanks or one of ; , # stands in quotes; a < is written \\<
  :help NUMBER         what a refusal says, and what to do
  :quit                the end; at Ctrl-C what stands in no file is lost
";

/// Writes what may be typed, and flushes it.
pub fn write_help<W: Sink>(out: &mut W) -> Result<(), WriteStop>
    ensures errors { CountsErr (W.failed out.old) (W.failed out.new) result }
    ensures flushed { OnOk result (W.flushed out.new ≡ true) }
{
    write_bytes(out, HELP)?;
    flush(out)
}

/// Writes the name of the fault with a number, and what to do, and flushes them. A number that no fault has is refused.
pub fn write_number_help<W: Sink>(out: &mut W, number: &str) -> Result<(), WriteStop>
    ensures sent { SendsHelp (W.taken out.old) (W.taken out.new) number.now result }
    ensures errors { CountsErr (W.failed out.old) (W.failed out.new) result }
    ensures flushed { OnOk result (W.flushed out.new ≡ true) }
{
    match number.parse::<u8>() {
        Ok(number) => match advice_of(number) {
            Some(advice) => write_advised(out, number, advice.name, advice.sentence),
            None => write_refusal(out, Fault::Syntax(SyntaxFault::BadOperand)),
        },
        Err(_) => write_refusal(out, Fault::Syntax(SyntaxFault::BadOperand)),
    }
}

// Writes a number, the name of its fault, and a sentence.
fn write_advised<'a, W: Sink>(
    out: &mut W,
    number: u8,
    name: &'a str,
    sentence: &'a str,
) -> Result<(), WriteStop>
    ensures sent { Sends (W.taken out.old) (W.taken out.new) (advised_line number name.now sentence.now) result }
    ensures errors { CountsErr (W.failed out.old) (W.failed out.new) result }
    ensures flushed { OnOk result (W.flushed out.new ≡ true) }
{
    write_pieces(
        out,
        &[
            Piece::Number(u64::from(number)),
            Piece::Bytes(b" "),
            Piece::Bytes(name.as_bytes()),
            Piece::Bytes(b": "),
            Piece::Bytes(sentence.as_bytes()),
            Piece::Bytes(b"\n"),
        ],
    )?;
    flush(out)
}
