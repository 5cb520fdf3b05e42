//! Whether two walks are the same: through what two tables declare, and through their sections and entries.
//!
//! Both walks are gone along at once, up to the first item in which they differ. None of this takes memory.

ghost use Rattle.std.specs.Prelude.{◌≡◌, ◌&&◌, chars};
ghost use Rattle.coll_syntax.specs.Identifier.{same_name};
ghost use Rattle.coll_nodes.specs.WalkItems.{declared_by, visited_by};
ghost use Rattle.coll_differences.specs.Sameness.{same_declaration, same_list, same_visited};

use crate::orders::is_same_text;
use crate::sameness::is_same_entry;
use coll_table::{Declared, DeclaredItem, Walk, WalkItem};

/// Whether two walks visit the same, in order.
pub(crate) fn is_same_walk(walk: Walk<'_>, other: Walk<'_>) -> bool
    ensures { result ≡ same_list same_visited walk.entry other.entry }
{
    let mut left = walk;
    let mut others = other;
    'visited: while let Some(item) = left.next() {
        let Some(other) = others.next() else {
            return false;
        };
        if !is_same_item(item, other) {
            return false;
        }
    }
    others.next().is_none()
}

// Whether two walks visit the same at a step.
fn is_same_item(item: WalkItem<'_>, other: WalkItem<'_>) -> bool
    ensures { result ≡ same_visited (visited_by item.entry) (visited_by other.entry) }
{
    match (item, other) {
        (WalkItem::Section(name), WalkItem::Section(other)) => is_same_text(name, other),
        (WalkItem::Entry(entry), WalkItem::Entry(other)) => is_same_entry(entry, other),
        (WalkItem::Section(_), WalkItem::Entry(_)) => false,
        (WalkItem::Entry(_), WalkItem::Section(_)) => false,
    }
}

/// Whether two tables declare the same, in order.
pub(crate) fn is_same_declared(declared: Declared<'_>, other: Declared<'_>) -> bool
    ensures { result ≡ same_list same_declaration declared.entry other.entry }
{
    let mut left = declared;
    let mut others = other;
    'declared: while let Some(item) = left.next() {
        let Some(other) = others.next() else {
            return false;
        };
        if !is_same_declaration(item, other) {
            return false;
        }
    }
    others.next().is_none()
}

/// Whether two declarations are the same.
pub(crate) fn is_same_declaration(item: DeclaredItem<'_>, other: DeclaredItem<'_>) -> bool
    ensures { result ≡ same_declaration (declared_by item.entry) (declared_by other.entry) }
{
    match (item, other) {
        (DeclaredItem::Symbol(name), DeclaredItem::Symbol(other)) => is_same_text(name, other),
        (DeclaredItem::Element(name, text), DeclaredItem::Element(other, others)) => {
            are_same_texts(name, text, other, others)
        }
        (DeclaredItem::Equivalence(name, symbol), DeclaredItem::Equivalence(other, others)) => {
            are_same_texts(name, symbol, other, others)
        }
        _ => false,
    }
}

// Whether two pairs of texts have the same characters.
fn are_same_texts(name: &str, text: &str, other: &str, others: &str) -> bool
    ensures { result ≡ (same_name (chars name.now) (chars other.now) && same_name (chars text.now) (chars others.now)) }
{
    if !is_same_text(name, other) {
        return false;
    }
    is_same_text(text, others)
}
