//! The statements that remain, as the text of a delta file.

ghost use Rattle.std.specs.Prelude.{◌≡◌, []};
ghost use Rattle.std.specs.List.{flat_map};
ghost use Rattle.coll_devices.specs.Devices.{Writes};
ghost use Rattle.coll_texts.specs.StatementText.{statement_bytes};
ghost use Rattle.coll_delta_texts.specs.DeltaText.{delta_text};

use coll_bench::Session;
use coll_devices::{Sink, WriteStop, write_bytes};
use coll_texts::write_statement;

/// Writes the statements that remain, as the text of a delta file. It takes no memory.
///
/// Where it stops, the device has taken a prefix of the text.
pub fn write_statements<W: Sink>(out: &mut W, session: &Session) -> Result<(), WriteStop>
    ensures { Writes (W.taken out.old) (W.taken out.new) (W.failed out.old) (W.failed out.new)
        (delta_text [] session.now.history.remaining) result }
{
    write_bytes(out, b"comment_char %\nescape_char /\nLC_COLLATE\n")?;
    write_remaining(out, session)?;
    write_bytes(out, b"END LC_COLLATE\n")
}

// Writes the lines of each statement that remains.
fn write_remaining<W: Sink>(out: &mut W, session: &Session) -> Result<(), WriteStop>
    ensures { Writes (W.taken out.old) (W.taken out.new) (W.failed out.old) (W.failed out.new)
        (flat_map statement_bytes session.now.history.remaining) result }
{
    let count = session.remaining_len();
    let mut number = 0u32;
    while number < count {
        number += 1;
        let Some(statement) = session.remaining(number) else {
            unreachable!();
        };
        // Not `?`: behind its conversion this exit would need a lemma.
        if let Err(stop) = write_statement(out, statement) {
            return Err(stop);
        }
    }
    Ok(())
}
