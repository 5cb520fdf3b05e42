//! Identifiers and weights by own names.
//!
//! Orders speak of own names alone, so what is given from without is looked up here, once for each name, in what a body of nodes
//! declares (`specs/OwnNames.antt` of coll_nodes): a second name becomes the own name of its symbol, and all else stays. What is
//! lent is looked up first, and only its own name is copied. How much memory a copy takes may change.

ghost use Rattle.std.specs.Prelude.{◌≡◌, chars, map, option_copied, IfOk};
ghost use Rattle.coll_nodes.specs.OwnNames.{declaration_of, is_second, names_second, named_own, own_id, own_weight, own_weights};
ghost use Rattle.coll_nodes.specs.TableLayout.{declared_at};
ghost use Rattle.coll_statements.specs.SecondNames.{SecondNamesAreNotPlaced, symbol_meant};

use coll_lex::{ListBuf, TextBuf};
use coll_nodes::{Body, Declaration};
use coll_syntax::{Id, Weight};
use std::alloc::AllocError;

/// Whether an identifier is a second name.
pub(crate) fn is_second(body: &Body, id: &Id) -> bool
    ensures { result ≡ is_second (declared_at body.now.layout) id.now }
{
    match id {
        Id::Named(name) => body.is_second_name(name),
        _ => false,
    }
}

/// Whether a weight names something by a second name.
pub fn names_second(body: &Body, weight: &Weight) -> bool
    ensures { result ≡ names_second (declared_at body.now.layout) weight.now }
{
    match weight {
        Weight::Names(ids) => ids.get().iter().any(|id| is_second(body, id)),
        _ => false,
    }
}

/// The own name of the symbol that a name is a second name for, if it is one.
pub(crate) fn symbol_meant<'a>(body: &'a Body, name: &str) -> Option<&'a TextBuf>
    ensures { option_copied result ≡ symbol_meant (declaration_of (declared_at body.now.layout) (chars name.now)) }
{
    match body.declaration(name) {
        Some(Declaration::Symbol(_)) => None,
        Some(Declaration::Element { .. }) => None,
        Some(Declaration::Equivalence { symbol, .. }) => Some(symbol),
        None => None,
    }
}

/// An identifier by its own name, in new memory.
pub(crate) fn copied_own_id(body: &Body, id: &Id) -> Result<Id, AllocError>
    ensures { IfOk result (λ own. own ≡ own_id (declared_at body.now.layout) id.now) }
{
    match id {
        Id::Char(c) => Ok(Id::Char(*c)),
        Id::Named(name) => {
            let own = copied_own_name(body, name)?;
            Ok(Id::Named(own))
        }
        Id::Undefined => Ok(Id::Undefined),
    }
}

// The own name of a name, in new memory.
fn copied_own_name(body: &Body, name: &TextBuf) -> Result<TextBuf, AllocError>
    ensures { IfOk result (λ own. own ≡ named_own (declared_at body.now.layout) name.now) }
{
    match symbol_meant(body, name.get()) {
        Some(symbol) => symbol.try_copy(),
        None => name.try_copy(),
    }
}

/// Weights, with the identifiers that they name by their own names, in new memory.
pub fn own_weights(body: &Body, weights: &[Weight]) -> Result<ListBuf<Weight>, AllocError>
    ensures { IfOk result (λ own. own ≡ own_weights (declared_at body.now.layout) weights.now) }
{
    let mut own = Vec::with_capacity(body.alloc(), weights.len())?;
    for weight in weights {
        own.push(own_weight(body, weight)?)?;
    }
    Ok(ListBuf::new(own))
}

// A weight, with the identifiers that it names by their own names, in new memory.
fn own_weight(body: &Body, weight: &Weight) -> Result<Weight, AllocError>
    ensures { IfOk result (λ own. own ≡ own_weight (declared_at body.now.layout) weight.now) }
{
    match weight {
        Weight::Ignore => Ok(Weight::Ignore),
        Weight::Own => Ok(Weight::Own),
        Weight::Names(ids) => {
            let own = own_ids(body, ids.get())?;
            Ok(Weight::Names(own))
        }
    }
}

// Identifiers by their own names, in new memory.
fn own_ids(body: &Body, ids: &[Id]) -> Result<ListBuf<Id>, AllocError>
    ensures { IfOk result (λ own. own ≡ map (own_id (declared_at body.now.layout)) ids.now) }
{
    let mut own = Vec::with_capacity(body.alloc(), ids.len())?;
    for id in ids {
        own.push(copied_own_id(body, id)?)?;
    }
    Ok(ListBuf::new(own))
}

/// The law of second names: in a well-formed table none of them stands in a section, so that none has an entry or a rank.
///
/// It does nothing; its contract is the law.
pub fn second_names_are_not_placed()
    ensures { SecondNamesAreNotPlaced }
{}
