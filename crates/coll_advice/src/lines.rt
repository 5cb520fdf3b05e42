//! What is wrong with an order line: of a block, or outside of one.
//!
//! A line is judged as the table does it, but for the order of what is found: the identifiers in the weights of a line are looked up
//! right behind the line itself, so that each line has one fault at most (`specs/LineFaults.antt`). A new refusal of an order line
//! is a test more, in the place that it has in `Delta.antt` of coll_table.

ghost use Rattle.std.specs.Prelude.{◌≡◌, [], None, Some, IfOk};
ghost use Rattle.std.specs.List.{flat_map};
ghost use Rattle.coll_nodes.specs.Entries.{weight_ids};
ghost use Rattle.coll_nodes.specs.OwnNames.{own_id};
ghost use Rattle.coll_nodes.specs.TableLayout.{collation};
ghost use Rattle.coll_statements.specs.OwnStatements.{own_line};
ghost use Rattle.coll_table.specs.Delta.{line_refusal, reweight_refusal, weights_refusal};
ghost use Rattle.coll_table.specs.Judging.{id_refusal};
ghost use Rattle.coll_advice.specs.LineFaults.{about, ids_fault, ids_in, line_fault, reweight_fault};

use crate::found::Found;
use crate::identifiers::{copied_own_id, is_known, is_placed};
use coll_lookups::IdSet;
use coll_statements::given_len;
use coll_syntax::{Id, OrderLine, Weight};
use coll_table::{Refusal, Table};
use std::alloc::{AllocError, Global};

/// What is wrong with a line of a block, from the identifiers of the target and of the lines before it, and those of all lines.
pub(crate) fn find_at_line(
    alloc: Global,
    table: &Table,
    number: usize,
    before: &IdSet,
    all: &IdSet,
    line: &OrderLine,
) -> Result<Option<Found>, AllocError>
    ensures { IfOk result (λ fault. fault ≡ line_fault (collation table.now) number before.now all.now line.now) }
{
    let own = copied_own_id(alloc, table, &line.id)?;
    let refusal = line_refusal(table, before, &own, line);
    drop(own);
    match refusal {
        Some(refusal) => about(Some(number), &line.id, refusal),
        None => find_in_weights(alloc, table, Some(number), all, line),
    }
}

/// What is wrong with an order line outside of a block.
pub(crate) fn find_at_reweight(
    alloc: Global,
    table: &Table,
    line: &OrderLine,
) -> Result<Option<Found>, AllocError>
    ensures { IfOk result (λ fault. fault ≡ reweight_fault (collation table.now) line.now) }
{
    let own = copied_own_id(alloc, table, &line.id)?;
    let refusal = reweight_refusal(table, &own, line);
    drop(own);
    match refusal {
        Some(refusal) => about(None, &line.id, refusal),
        None => find_in_own_weights(alloc, table, line),
    }
}

// A fault about an identifier, of which a copy is told.
fn about(place: Option<usize>, id: &Id, refusal: Refusal) -> Result<Option<Found>, AllocError>
    ensures { IfOk result (λ fault. fault ≡ about place id.now (Some refusal)) }
{
    let id = id.clone()?;
    Ok(Some(Found {
        line: place,
        refusal,
        id: Some(id),
    }))
}

// Why a line of a block is refused, from its own identifier, and those of the target and of the lines before it.
fn line_refusal(table: &Table, before: &IdSet, own: &Id, line: &OrderLine) -> Option<Refusal>
    requires { own.now ≡ own_id (collation table.now).declared line.now.id }
    ensures { result ≡ line_refusal (collation table.now) before.now (own_line (collation table.now).declared line.now) }
{
    if before.contains(own) {
        return Some(Refusal::TwiceInBlock);
    }
    if !is_known(table, own) {
        return Some(Refusal::NotDeclared);
    }
    weights_refusal(table, own, line)
}

// Why an order line outside of a block is refused, from its own identifier.
fn reweight_refusal(table: &Table, own: &Id, line: &OrderLine) -> Option<Refusal>
    requires { own.now ≡ own_id (collation table.now).declared line.now.id }
    ensures { result ≡ reweight_refusal (collation table.now) (own_line (collation table.now).declared line.now) }
{
    if !is_known(table, own) {
        return Some(Refusal::NotDeclared);
    }
    if !is_placed(table, own) {
        return Some(Refusal::NotPlaced);
    }
    if line.weights.is_none() {
        return Some(Refusal::NoWeights);
    }
    weights_refusal(table, own, line)
}

// Why the number of weights that a line gives is refused, from its own identifier.
fn weights_refusal(table: &Table, own: &Id, line: &OrderLine) -> Option<Refusal>
    requires { own.now ≡ own_id (collation table.now).declared line.now.id }
    ensures { result ≡ weights_refusal (collation table.now) (own_line (collation table.now).declared line.now) None }
{
    if line.weights.is_some() && table.is_symbol(own) {
        return Some(Refusal::SymbolWithWeights);
    }
    if given_len(&line.weights) > table.rules().len() {
        return Some(Refusal::TooManyWeights);
    }
    None
}

// What is wrong with the identifiers in the weights of a line outside of a block.
fn find_in_own_weights(
    alloc: Global,
    table: &Table,
    line: &OrderLine,
) -> Result<Option<Found>, AllocError>
    ensures { IfOk result (λ fault. fault ≡ ids_fault (collation table.now) None [] (ids_in line.now)) }
{
    let none = IdSet::new(alloc, table.hash_keys());
    let found = find_in_weights(alloc, table, None, &none, line);
    drop(none);
    found
}

// What is wrong with the identifiers in the weights of a line, where more is placed.
fn find_in_weights(
    alloc: Global,
    table: &Table,
    place: Option<usize>,
    more: &IdSet,
    line: &OrderLine,
) -> Result<Option<Found>, AllocError>
    ensures { IfOk result (λ fault. fault ≡ ids_fault (collation table.now) place more.now (ids_in line.now)) }
{
    match &line.weights {
        Some(weights) => find_in_given(alloc, table, place, more, weights.get()),
        None => Ok(None),
    }
}

// The same of weights.
fn find_in_given(
    alloc: Global,
    table: &Table,
    place: Option<usize>,
    more: &IdSet,
    weights: &[Weight],
) -> Result<Option<Found>, AllocError>
    ensures { IfOk result (λ fault. fault ≡ ids_fault (collation table.now) place more.now (flat_map weight_ids weights.now)) }
{
    for weight in weights {
        if let Some(found) = find_in_weight(alloc, table, place, more, weight)? {
            return Ok(Some(found));
        }
    }
    Ok(None)
}

// The same of one weight.
fn find_in_weight(
    alloc: Global,
    table: &Table,
    place: Option<usize>,
    more: &IdSet,
    weight: &Weight,
) -> Result<Option<Found>, AllocError>
    ensures { IfOk result (λ fault. fault ≡ ids_fault (collation table.now) place more.now (weight_ids weight.now)) }
{
    match weight {
        Weight::Ignore => Ok(None),
        Weight::Own => Ok(None),
        Weight::Names(ids) => find_in_ids(alloc, table, place, more, ids.get()),
    }
}

// The same of identifiers.
fn find_in_ids(
    alloc: Global,
    table: &Table,
    place: Option<usize>,
    more: &IdSet,
    ids: &[Id],
) -> Result<Option<Found>, AllocError>
    ensures { IfOk result (λ fault. fault ≡ ids_fault (collation table.now) place more.now ids.now) }
{
    for id in ids {
        if let Some(found) = find_at_id(alloc, table, place, more, id)? {
            return Ok(Some(found));
        }
    }
    Ok(None)
}

// What is wrong with an identifier in a weight, where more is placed.
fn find_at_id(
    alloc: Global,
    table: &Table,
    place: Option<usize>,
    more: &IdSet,
    id: &Id,
) -> Result<Option<Found>, AllocError>
    ensures { IfOk result (λ fault.
        fault ≡ about place id.now (id_refusal (collation table.now) more.now (own_id (collation table.now).declared id.now))) }
{
    let own = copied_own_id(alloc, table, id)?;
    let refusal = id_refusal(table, more, &own);
    drop(own);
    match refusal {
        Some(refusal) => about(place, id, refusal),
        None => Ok(None),
    }
}

// Why an identifier may not stand in a weight, where more is placed.
fn id_refusal(table: &Table, more: &IdSet, id: &Id) -> Option<Refusal>
    ensures { result ≡ id_refusal (collation table.now) more.now id.now }
{
    if !is_known(table, id) {
        return Some(Refusal::NotDeclared);
    }
    if is_placed(table, id) {
        return None;
    }
    if more.contains(id) {
        return None;
    }
    Some(Refusal::WeightNotPlaced)
}
