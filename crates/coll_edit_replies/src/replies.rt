//! What is written of a refusal, and of a count: as a session writes it.

ghost use Rattle.std.specs.Prelude.{◌≡◌, true, codes, OnOk};
ghost use Rattle.std.specs.Io.KnownBytes.{Keeps};
ghost use Rattle.coll_devices.specs.Devices.{CountsErr, Sends};
ghost use Rattle.coll_bench.specs.Replies.{counted_line, told_line};

use coll_bench::{Fault, write_counted, write_told_line};
use coll_devices::{Sink, WriteStop};

/// Writes the reply to what is refused, and flushes it.
pub fn write_refusal<W: Sink>(out: &mut W, fault: Fault) -> Result<(), WriteStop>
    ensures sent { Sends (W.taken out.old) (W.taken out.new) (told_line (codes "refused ") fault) result }
    ensures errors { CountsErr (W.failed out.old) (W.failed out.new) result }
    ensures flushed { OnOk result (W.flushed out.new ≡ true) }
{
    write_told_line(out, fault)?;
    flush(out)
}

/// Writes a word and a count, and flushes them.
pub fn write_count<W: Sink>(out: &mut W, word: &[u8], count: u64) -> Result<(), WriteStop>
    ensures sent { Sends (W.taken out.old) (W.taken out.new) (counted_line word.now count) result }
    ensures errors { CountsErr (W.failed out.old) (W.failed out.new) result }
    ensures flushed { OnOk result (W.flushed out.new ≡ true) }
{
    write_counted(out, word, count)?;
    flush(out)
}

/// Flushes what was written.
pub fn flush<W: Sink>(out: &mut W) -> Result<(), WriteStop>
    ensures sent { Keeps (W.taken out.old) (W.taken out.new) }
    ensures errors { CountsErr (W.failed out.old) (W.failed out.new) result }
    ensures flushed { OnOk result (W.flushed out.new ≡ true) }
{
    match out.flush() {
        Ok(()) => Ok(()),
        Err(_) => Err(WriteStop::WriteFault),
    }
}
