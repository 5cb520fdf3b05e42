//! The limits of texts and of names.
//!
//! The definitions have these limits as numbers, and `limits_are_stated` says that the constants are the same; a limit
//! is changed in both.

ghost use Rattle.std.specs.Prelude.{◌≡◌};
ghost use Rattle.coll_lex.specs.Limits.{most_lines, most_name_chars};

/// Most physical lines of a text.
pub const MOST_LINES: u32 = 4_194_304;

/// Most characters of a name.
pub(crate) const MOST_NAME_CHARS: usize = 64;

/// The limits are the numbers of the definitions: 4,194,304 lines and 64 characters.
///
/// It does nothing; its contract says so.
pub fn limits_are_stated()
    ensures lines { MOST_LINES ≡ most_lines }
    ensures name_chars { MOST_NAME_CHARS ≡ most_name_chars }
{}
