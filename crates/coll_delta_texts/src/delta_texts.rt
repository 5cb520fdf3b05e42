//! The text of a delta file, written to a device, and the law of its reading.
//!
//! The text is `delta_text` of `specs/DeltaText.antt`: its lines, each with its line feed. A new kind of line is a line there first.
//! None of this takes memory.

ghost use Rattle.std.specs.Prelude.{chars};
ghost use Rattle.std.specs.List.{flat_map};
ghost use Rattle.coll_devices.specs.Devices.{Writes};
ghost use Rattle.coll_texts.specs.StatementText.{statement_bytes};
ghost use Rattle.coll_delta_texts.specs.DeltaText.{delta_text, string_char_bytes, copy_bytes};
ghost use Rattle.coll_delta_texts.specs.ReadBack.{WrittenDeltasAreReadBack};

use coll_devices::{Sink, WriteStop, write_bytes};
use coll_lex::TextBuf;
use coll_syntax::Statement;
use coll_texts::write_statement;

/// Writes a delta file: a line for each copy, in order, and then the lines of each statement, in order. It takes no memory.
///
/// Where it stops, the device has taken a prefix of the text.
pub fn write_delta<W: Sink>(
    out: &mut W,
    copies: &[TextBuf],
    statements: &[Statement],
) -> Result<(), WriteStop>
    ensures { Writes (W.taken out.old) (W.taken out.new) (W.failed out.old) (W.failed out.new)
        (delta_text copies.now statements.now) result }
{
    write_bytes(out, b"comment_char %\nescape_char /\nLC_COLLATE\n")?;
    write_copies(out, copies)?;
    write_statements(out, statements)?;
    write_bytes(out, b"END LC_COLLATE\n")
}

// Writes a line for each copy.
fn write_copies<W: Sink>(out: &mut W, copies: &[TextBuf]) -> Result<(), WriteStop>
    ensures { Writes (W.taken out.old) (W.taken out.new) (W.failed out.old) (W.failed out.new) (flat_map copy_bytes copies.now) result }
{
    for name in copies {
        // Not `?`: behind its conversion this exit would need a lemma.
        if let Err(stop) = write_copy(out, name.get()) {
            return Err(stop);
        }
    }
    Ok(())
}

// Writes the line of a copy.
fn write_copy<W: Sink>(out: &mut W, name: &str) -> Result<(), WriteStop>
    ensures { Writes (W.taken out.old) (W.taken out.new) (W.failed out.old) (W.failed out.new) (copy_bytes (chars name.now)) result }
{
    write_bytes(out, b"copy \"")?;
    write_chars(out, name)?;
    write_bytes(out, b"\"\n")
}

// Writes the characters of a string as they are, with `/` before some.
fn write_chars<W: Sink>(out: &mut W, text: &str) -> Result<(), WriteStop>
    ensures { Writes (W.taken out.old) (W.taken out.new) (W.failed out.old) (W.failed out.new)
        (flat_map string_char_bytes (chars text.now)) result }
{
    for c in text.chars() {
        if let Err(stop) = write_literally(out, c) {
            return Err(stop);
        }
    }
    Ok(())
}

// Writes a character of a string as it is, with `/` before it where it would end the string, begin a symbol or be an escape.
fn write_literally<W: Sink>(out: &mut W, c: char) -> Result<(), WriteStop>
    ensures { Writes (W.taken out.old) (W.taken out.new) (W.failed out.old) (W.failed out.new) (string_char_bytes c) result }
{
    match c {
        '"' => write_bytes(out, b"/\""),
        '<' => write_bytes(out, b"/<"),
        '/' => write_bytes(out, b"//"),
        _ => write_bytes(out, c.encode_utf8(&mut [0; 4]).as_bytes()),
    }
}

// Writes the lines of each statement.
fn write_statements<W: Sink>(out: &mut W, statements: &[Statement]) -> Result<(), WriteStop>
    ensures { Writes (W.taken out.old) (W.taken out.new) (W.failed out.old) (W.failed out.new)
        (flat_map statement_bytes statements.now) result }
{
    for statement in statements {
        if let Err(stop) = write_statement(out, statement) {
            return Err(stop);
        }
    }
    Ok(())
}

/// The law of delta files: what is written of copies and of statements is read, by `delta_requests`, as just these statements, in
/// order, without a fault. The copies and the statements are such as can be written (`is_copy_name`, `is_writable`), and the lines no
/// more than a text may have.
///
/// It does nothing; its contract is the law.
pub fn written_deltas_are_read_back()
    ensures { WrittenDeltasAreReadBack }
{}
