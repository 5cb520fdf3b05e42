//! Texts are compared by their characters.

ghost use Rattle.std.specs.Prelude.{◌≡◌, chars};
ghost use Rattle.coll_syntax.specs.Identifier.{same_name};

/// Whether two texts have the same characters.
pub(crate) fn is_same_text(text: &str, other: &str) -> bool
    ensures { result ≡ same_name (chars text.now) (chars other.now) }
{
    text == other
}
