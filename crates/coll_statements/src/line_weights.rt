//! The weights that an entry keeps of those that its order line gives.
//!
//! The list of a line of a table is taken over and not copied; that of a statement, which stays, is copied. A weight that names only the
//! entry becomes its own, without a copy of its list, and its own is put behind at each level that the line leaves out (`kept_weights`
//! of `specs/Entries.antt` of coll_nodes). A new rule on what an entry keeps is a case of `kept_weight` there, and of `keep` and
//! `copied_weight` here.

ghost use Rattle.std.specs.Prelude.{◌≡◌, ◌++◌, ◌-◌, true, length, map, replicate, IfOk, OnOk};
ghost use Rattle.coll_syntax.specs.declared.weights.Weight.TheVariants.{Own};
ghost use Rattle.coll_nodes.specs.Entries.{kept_weight, kept_weights, names_only, given_weights, weight_ids};

use coll_lex::ListBuf;
use coll_syntax::{Id, Weight};
use std::alloc::{AllocError, Global};

/// The number of weights that a line gives.
pub fn given_len(weights: &Option<ListBuf<Weight>>) -> usize
    ensures { result ≡ length (given_weights weights.now) }
{
    match weights {
        Some(weights) => weights.get().len(),
        None => 0,
    }
}

/// The weights that an entry keeps of those that its line gives, with its own at each level behind them.
pub fn kept_weights(
    alloc: Global,
    levels: usize,
    id: &Id,
    given: Option<ListBuf<Weight>>,
) -> Result<ListBuf<Weight>, AllocError>
    ensures { IfOk result (λ weights. weights ≡ kept_weights levels id.now (given_weights given)) }
{
    let mut weights = given_list(alloc, given);
    keep_each(id, &mut weights);
    fill_up(&mut weights, levels)?;
    Ok(ListBuf::new(weights))
}

/// The weights that an entry keeps of these, which its line gives, in new memory, with its own at each level behind them.
pub fn copied_weights(
    alloc: Global,
    levels: usize,
    id: &Id,
    given: &[Weight],
) -> Result<ListBuf<Weight>, AllocError>
    ensures { IfOk result (λ weights. weights ≡ kept_weights levels id.now given.now) }
{
    let mut weights = Vec::with_capacity(alloc, given.len().max(levels))?;
    for weight in given {
        weights.push(copied_weight(id, weight)?)?;
    }
    fill_up(&mut weights, levels)?;
    Ok(ListBuf::new(weights))
}

// A copy of a weight, or the entry's own where that is a list that names only this identifier.
fn copied_weight(id: &Id, weight: &Weight) -> Result<Weight, AllocError>
    ensures { IfOk result (λ copy. copy ≡ kept_weight id.now weight.now) }
{
    if names_only(id, weight) {
        return Ok(Weight::Own);
    }
    weight.clone()
}

// The weights that a line gives, as a list that may grow.
fn given_list(alloc: Global, given: Option<ListBuf<Weight>>) -> Vec<Weight>
    ensures { result.items ≡ given_weights given }
{
    match given {
        Some(weights) => weights.into_items(),
        None => Vec::new(alloc),
    }
}

// Replaces each list that names only this identifier by the entry's own weight.
fn keep_each(id: &Id, weights: &mut [Weight])
    ensures each { weights.new ≡ map (kept_weight id.now) weights.old }
    ensures len { length weights.new ≡ length weights.old }
{
    for weight in weights.iter_mut() {
        keep(id, weight);
    }
}

// Replaces a list that names only this identifier by the entry's own weight.
fn keep(id: &Id, weight: &mut Weight)
    ensures { weight.new ≡ kept_weight id.now weight.old }
{
    if names_only(id, weight) {
        *weight = Weight::Own;
    }
}

/// Whether a weight is a list that names only this identifier.
pub fn names_only(id: &Id, weight: &Weight) -> bool
    ensures { result ≡ names_only id.now weight.now }
{
    let Weight::Names(ids) = weight else {
        return false;
    };
    match ids.get() {
        [only] => id.is_same(only),
        _ => false,
    }
}

/// Whether two weights name one identifier each, and the same.
pub fn name_the_same(weight: &Weight, other: &Weight) -> bool
    ensures { result ≡ true → weight_ids weight.now ≡ weight_ids other.now }
{
    let Weight::Names(ids) = weight else {
        return false;
    };
    match ids.get() {
        [only] => names_only(only, other),
        _ => false,
    }
}

// Puts the entry's own weight at each level behind those that are there.
fn fill_up(weights: &mut Vec<Weight>, levels: usize) -> Result<(), AllocError>
    ensures { OnOk result (weights.new.items ≡ weights.old.items ++ replicate (levels - length weights.old.items) Own) }
{
    while weights.len() < levels {
        weights.push(Weight::Own)?;
    }
    Ok(())
}
