//! The limit of physical lines.
//!
//! The definitions have it as a number, and `limits_are_stated` says that the constant is the same; it is changed in both.

ghost use Rattle.std.specs.Prelude.{◌≡◌};
ghost use Rattle.coll_devices.specs.Limits.{most_line_bytes};

/// Most bytes of a physical line, and of the physical lines of a continued line together.
pub const MOST_LINE_BYTES: usize = 65_536;

/// The limit is the number of the definition: 65,536 bytes.
///
/// It does nothing; its contract says so.
pub fn limits_are_stated()
    ensures line_bytes { MOST_LINE_BYTES ≡ most_line_bytes }
{}
