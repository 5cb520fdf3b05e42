//! The limit of texts, and how far the numbers of two ranks lie apart.
//!
//! The definitions have it as a number, and `limits_are_stated` says that the constant is the same; it is changed in both.

ghost use Rattle.std.specs.Prelude.{◌≡◌, chars};
ghost use Rattle.coll_key.specs.KeyLimits.{is_too_long, most_text_characters};
ghost use Rattle.coll_ranks.specs.WeightNumbers.{rank_step};

/// Most characters of a text that is keyed or compared.
pub const MOST_TEXT_CHARACTERS: usize = 65_536;

/// How far the numbers of two ranks lie apart, which is more than any code point.
pub const RANK_STEP: u64 = 2_097_152;

/// The limit is the number of the definitions, 65,536 characters, and so is the distance of the numbers of two ranks.
///
/// It does nothing; its contract says so.
pub fn limits_are_stated()
    ensures text { MOST_TEXT_CHARACTERS ≡ most_text_characters }
    ensures step { RANK_STEP ≡ rank_step }
{}

/// Whether a text has more characters than a text may have. A text of few bytes needs no count of its characters.
pub fn is_too_long(text: &str) -> bool
    ensures { result ≡ is_too_long (chars text.now) }
{
    if text.len() <= MOST_TEXT_CHARACTERS {
        return false;
    }
    text.chars().count() > MOST_TEXT_CHARACTERS
}
