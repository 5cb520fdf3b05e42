//! The first element of a text: a character, or the string of a collating element.
//!
//! Where the marks tell that no element begins (`ElementMarks::is_apart`), it is the character, and nothing is looked up. Else the prefixes
//! of the text are looked up in the table, the longest first, from as many characters on as the marks say (`most_at`): the first one that
//! is the string of an element that is placed decides. So where no string that begins with the pair is longer, an element of two characters
//! takes one look-up. Rows are made so (`piece_rows`); where words are compared, what is known of their strings takes the place of these
//! look-ups (`string_rows`).

ghost use Rattle.std.specs.Prelude.{◌≡◌, ◌<◌, ◌++◌, [], ℕ, suc, List, chars, length, IfSome, MatchOption};
ghost use Rattle.coll_nodes.specs.TableLayout.{collation};
ghost use Rattle.coll_letters.specs.ElementMarks.{AreMarks};
ghost use Rattle.coll_letters.specs.FirstPieces.{FindsString, HasNoLongerPrefix, IsFirstPiece, IsSplitAt};

use crate::element_marks::ElementMarks;
use crate::letter_weights::split_first_char;
use coll_nodes::Entry;
use coll_table::Table;

/// The first element of a text, and the text behind it.
#[derive(Clone, Copy)]
pub(crate) enum FirstPiece<'a> {
    /// A character that stands alone.
    Letter(char, &'a str),
    /// The string of an element that is placed.
    Element(&'a str, &'a str),
}

// The string of an element that is placed, its entry, and the text behind it.
#[derive(Clone, Copy)]
struct FoundString<'a, 'b> {
    entry: &'a Entry,
    string: &'b str,
    rest: &'b str,
}

/// The first element of a text by a table with these marks; none where the text is empty. It takes no memory.
pub(crate) fn first_piece<'a>(
    table: &Table,
    marks: &ElementMarks,
    text: &'a str,
) -> Option<FirstPiece<'a>>
    requires { AreMarks (collation table.now) marks.now }
    ensures { MatchOption result (chars text.now ≡ []) (IsFirstPiece (collation table.now) (chars text.now)) }
{
    let (letter, rest) = split_first_char(text)?;
    if marks.is_apart(letter, rest) {
        return Some(FirstPiece::Letter(letter, rest));
    }
    table.lemma_well_formed();
    match longest_string(table, marks.most_at(letter, rest), text) {
        Some(found) => Some(FirstPiece::Element(found.string, found.rest)),
        None => Some(FirstPiece::Letter(letter, rest)),
    }
}

// The longest string of an element that is placed and that a text begins with: none has more characters than this. A string has two
// characters at least, so one alone isn't looked up.
fn longest_string<'a, 'b>(
    table: &'a Table,
    most: usize,
    text: &'b str,
) -> Option<FoundString<'a, 'b>>
    requires { HasNoLongerPrefix (collation table.now) (chars text.now) most }
    ensures { FindsString (collation table.now) (chars text.now) result }
{
    table.lemma_well_formed();
    let mut size = most;
    'sizes: while size > 1 {
        if let Some((string, rest)) = split_characters(text, size) {
            if let Some(entry) = table.element_entry(string) {
                return Some(FoundString {
                    entry,
                    string,
                    rest,
                });
            }
        }
        size -= 1;
    }
    None
}

/// A text cut behind so many characters, if it has as many.
pub(crate) fn split_characters(text: &str, count: usize) -> Option<(&str, &str)>
    ensures { MatchOption result (length (chars text.now) < count) (λ parts. IsSplitAt text.now count parts.0.now parts.1.now) }
{
    let mut rest = text;
    for _passed in 0..count {
        rest = past_first(rest)?;
    }
    Some((before(text, rest), rest))
}

// A text behind its first character.
fn past_first(text: &str) -> Option<&str>
    ensures none { MatchOption result (chars text.now ≡ []) (λ rest. length (chars text.now) ≡ suc (length (chars rest.now))) }
    ensures rest { IfSome result (λ rest. (prefix : List ℕ) × (text.now ≡ prefix ++ rest.now)) }
{
    let mut letters = text.chars();
    letters.next()?;
    Some(letters.as_str())
}

// What of a text stands before its rest.
fn before<'a>(text: &'a str, rest: &str) -> &'a str
    requires { (prefix : List ℕ) × (text.now ≡ prefix ++ rest.now) }
    ensures { chars text.now ≡ chars result.now ++ chars rest.now }
{
    let (prefix, _) = text.split_at(text.len() - rest.len());
    prefix
}
