//! The bytes of a physical line: its carriage return.
//!
//! What cuts a text into physical lines is in `line_reading`. What else a line's end may hold is decided here, and in
//! the definition, for all who look at a line's bytes.

ghost use Rattle.std.specs.Prelude.{◌≡◌};
ghost use Rattle.coll_devices.specs.PhysicalLines.{without_return};

/// The line without the carriage return at its end, if it has one.
#[tactic(auto, unfolding(crate::specs::PhysicalLines::without_return))]
pub fn without_return(line: &[u8]) -> &[u8]
    ensures { result.now ≡ without_return line.now }
{
    if !line.is_empty() && line[line.len() - 1] == b'\r' {
        &line[..line.len() - 1]
    } else {
        line
    }
}
