//! The words that begin a line.
//!
//! `keyword_of` looks at the first token once, for tables and deltas alike; each kind of line then takes the keywords of
//! its own. A new keyword is a variant here, and a line in `keyword_of`, here and in `specs/Keywords.antt`.

ghost use Rattle.std.specs.Prelude.{◌≡◌, IsTrue, nat_lt};
ghost use Rattle.std.specs.List.{list_all};
ghost use Rattle.coll_syntax.specs.Identifier.{is_word as spells_word};
ghost use Rattle.coll_syntax.specs.Keywords.{keyword_of as spelled_keyword};

use coll_lex::Token;

/// A word that begins a line of a table or of a delta.
#[derive(Clone, Copy, Debug)]
pub(crate) enum Keyword {
    CollatingSymbol,
    CollatingElement,
    SymbolEquivalence,
    OrderStart,
    OrderEnd,
    Section,
    Script,
    Category,
    End,
    Copy,
    ReorderAfter,
    ReorderEnd,
    ReorderSectionAfter,
}

/// Whether a token is the word that is spelled so, in ASCII.
pub fn is_word(token: &Token, spelling: &str) -> bool
    requires { IsTrue (list_all (λ c. nat_lt c 128) spelling.now) }
    ensures { result ≡ spells_word token.now spelling.now }
{
    match token {
        Token::Word(word) => word.get() == spelling,
        _ => false,
    }
}

/// The keyword that a token spells, if it spells one. What isn't a word is compared with none.
#[tactic(auto, unfolding(crate::specs::Keywords::keyword_of))]
pub(crate) fn keyword_of(token: &Token) -> Option<Keyword>
    ensures { result ≡ spelled_keyword token.now }
{
    match token {
        Token::Word(_) => keyword_spelled(token),
        _ => None,
    }
}

// The keyword that a word spells, if it spells one.
#[tactic(auto, unfolding(crate::specs::Keywords::keyword_of))]
fn keyword_spelled(token: &Token) -> Option<Keyword>
    ensures { result ≡ spelled_keyword token.now }
{
    if is_word(token, "collating-symbol") {
        return Some(Keyword::CollatingSymbol);
    }
    if is_word(token, "collating-element") {
        return Some(Keyword::CollatingElement);
    }
    if is_word(token, "symbol-equivalence") {
        return Some(Keyword::SymbolEquivalence);
    }
    if is_word(token, "order_start") {
        return Some(Keyword::OrderStart);
    }
    if is_word(token, "order_end") {
        return Some(Keyword::OrderEnd);
    }
    if is_word(token, "section") {
        return Some(Keyword::Section);
    }
    if is_word(token, "script") {
        return Some(Keyword::Script);
    }
    if is_word(token, "LC_COLLATE") {
        return Some(Keyword::Category);
    }
    if is_word(token, "END") {
        return Some(Keyword::End);
    }
    if is_word(token, "copy") {
        return Some(Keyword::Copy);
    }
    if is_word(token, "reorder-after") {
        return Some(Keyword::ReorderAfter);
    }
    if is_word(token, "reorder-end") {
        return Some(Keyword::ReorderEnd);
    }
    if is_word(token, "reorder-section-after") {
        return Some(Keyword::ReorderSectionAfter);
    }
    None
}
