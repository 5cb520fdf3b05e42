//! The elements of one text, each with its entry.
//!
//! Where the ranks of a whole table aren't worth their time, the elements of a text are looked up one by one: of each prefix of what
//! is left of the text it is asked whether it is the string of an element that is placed, and the longest decides. Such a string
//! has 2 to 16 characters, so at each place at most fifteen prefixes are asked for, and then the character alone.

ghost use Rattle.std.specs.Prelude.{◌≡◌, ◌<◌, ◌+◌, ◌∷◌, ◌++◌, [], ℕ, suc, List, chars, length, IfOk, IfSome, MatchOption};
ghost use Rattle.coll_syntax.specs.declared.identifiers.Id.{Id};
ghost use Rattle.coll_syntax.specs.declared.identifiers.Id.TheVariants.{Char};
ghost use Rattle.coll_nodes.specs.ElementTexts.{element_entry};
ghost use Rattle.coll_nodes.specs.TableLayout.{collation};
ghost use Rattle.coll_elements.specs.Elements.{elements_of};
ghost use Rattle.coll_elements.specs.ElementEntries.{longest_prefix, AreElementsOf, FindsPrefix, HasNoLonger, IsElementOf};

use coll_nodes::Entry;
use coll_syntax::{Id, MOST_ELEMENT_CHARS};
use coll_table::Table;
use std::alloc::{AllocError, Global};

/// An element of a text.
#[derive(Clone, Copy)]
pub enum ElementEntry<'a> {
    /// What has an entry.
    Placed(&'a Entry),
    /// A character without an entry.
    Absent(char),
}

// The entry of an element whose string a text begins with, and the text behind the string.
#[derive(Clone, Copy)]
struct FoundPrefix<'a, 'b> {
    entry: &'a Entry,
    rest: &'b str,
}

/// The elements of a text, in new memory: at each place the longest element that is placed, or else the character that stands there.
///
/// At each place it looks up the prefixes of what is left, from two characters on up to the most that an element's string may have in
/// this table, 16 at most, and the one character where none of them is an element. So where no element was declared it takes one
/// look-up for each character of the text.
pub fn split_text<'a>(
    alloc: Global,
    table: &'a Table,
    text: &str,
) -> Result<Vec<ElementEntry<'a>>, AllocError>
    ensures { IfOk result (λ elements.
        AreElementsOf (collation table.now) (elements_of (collation table.now) (chars text.now)) elements.items) }
{
    let most = most_prefix(table);
    let mut elements = Vec::new(alloc);
    let mut left = text;
    'elements: while let Some((element, rest)) = first_element(table, most, left) {
        elements.push(element)?;
        left = rest;
    }
    Ok(elements)
}

// A number of characters: no element that is placed has a string of more.
fn most_prefix(table: &Table) -> usize
    ensures { HasNoLonger (collation table.now) result }
{
    table.lemma_well_formed();
    table.most_element_characters().min(MOST_ELEMENT_CHARS)
}

// The element that a text begins with, and the text behind it; none where the text is empty. No element has more than so many
// characters.
fn first_element<'a, 'b>(
    table: &'a Table,
    most: usize,
    text: &'b str,
) -> Option<(ElementEntry<'a>, &'b str)>
    requires { HasNoLonger (collation table.now) most }
    ensures none { MatchOption result (chars text.now ≡ []) (λ first. length (chars first.1.now) < length (chars text.now)) }
    ensures element { IfSome result (λ first. (id : Id)
        × (elements_of (collation table.now) (chars text.now) ≡ id ∷ elements_of (collation table.now) (chars first.1.now))
        × IsElementOf (collation table.now) id first.0) }
{
    table.lemma_well_formed();
    let mut letters = text.chars();
    let first = letters.next()?;
    match longest_element(table, most, text) {
        Some(found) => Some((ElementEntry::Placed(found.entry), found.rest)),
        None => Some((character(table, first), letters.as_str())),
    }
}

// A character that stands alone.
fn character(table: &Table, c: char) -> ElementEntry<'_>
    ensures { IsElementOf (collation table.now) (Char c) result }
{
    match table.entry(&Id::Char(c)) {
        Some(entry) => ElementEntry::Placed(entry),
        None => ElementEntry::Absent(c),
    }
}

// The longest element that is placed and that a text begins with, and the text behind its string.
//
// A string of one character is no element's, and neither is one of more than the most that one has, so these aren't asked for.
fn longest_element<'a, 'b>(
    table: &'a Table,
    most: usize,
    text: &'b str,
) -> Option<FoundPrefix<'a, 'b>>
    requires { HasNoLonger (collation table.now) most }
    ensures { FindsPrefix (chars text.now) (longest_prefix (element_entry (collation table.now)) (chars text.now) (length (chars text.now)))
        result }
{
    table.lemma_well_formed();
    let mut longest = None;
    let mut rest = past_first(text)?;
    'prefixes: for _size in 1..most {
        let Some(later) = past_first(rest) else {
            return longest;
        };
        longest = longer_prefix(table, text, later, longest);
        rest = later;
    }
    longest
}

// A text behind its first character.
fn past_first(text: &str) -> Option<&str>
    ensures none { MatchOption result (chars text.now ≡ []) (λ rest. length (chars text.now) ≡ suc (length (chars rest.now))) }
    ensures rest { IfSome result (λ rest. (prefix : List ℕ) × (text.now ≡ prefix ++ rest.now)) }
{
    let mut letters = text.chars();
    letters.next()?;
    Some(letters.as_str())
}

// The element that is what stands before the rest of a text, or else the longest of the shorter ones.
fn longer_prefix<'a, 'b>(
    table: &'a Table,
    text: &'b str,
    rest: &'b str,
    shorter: Option<FoundPrefix<'a, 'b>>,
) -> Option<FoundPrefix<'a, 'b>>
    requires { (prefix : List ℕ) × (text.now ≡ prefix ++ rest.now) }
    ensures { (size : ℕ) → suc size + length (chars rest.now) ≡ length (chars text.now)
        → FindsPrefix (chars text.now) (longest_prefix (element_entry (collation table.now)) (chars text.now) size) shorter.entry
        → FindsPrefix (chars text.now) (longest_prefix (element_entry (collation table.now)) (chars text.now) (suc size)) result }
{
    match table.element_entry(before(text, rest)) {
        Some(entry) => Some(FoundPrefix { entry, rest }),
        None => shorter,
    }
}

// What of a text stands before its rest.
fn before<'a>(text: &'a str, rest: &str) -> &'a str
    requires { (prefix : List ℕ) × (text.now ≡ prefix ++ rest.now) }
    ensures { chars text.now ≡ chars result.now ++ chars rest.now }
{
    let (prefix, _) = text.split_at(text.len() - rest.len());
    prefix
}
