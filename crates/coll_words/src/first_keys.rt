//! What words are sorted by first.
//!
//! Most words differ at the first level, so only this part of their keys is made of all, and packed as it is found: along the elements
//! of a text, with no list of them and none of whole numbers between. It is made so where the level is looked at from the front and
//! has no positions, as mostly; else the whole key serves.
//!
//! The simple form are whole keys; both end in lines that are sorted (`AreSorted`).

ghost use Rattle.std.specs.Prelude.{◌≡◌, ◌≢◌, ◌≤◌, ◌+◌, ◌++◌, chars, map, true, false, vec_len, vec_capacity, IfOk, IfErr};
ghost use Rattle.std.specs.List.{flat_map};
ghost use Rattle.coll_nodes.specs.TableLayout.{collation};
ghost use Rattle.coll_ranks.specs.LevelWeights.{ranks_in};
ghost use Rattle.coll_ranks.specs.Ranks.{AreRanksOf, added_to, compiled_numbers, elements_by_ranks};
ghost use Rattle.coll_key.specs.KeyLimits.{is_too_long};
ghost use Rattle.coll_key.specs.declared.key_faults.KeyFault.TheVariants.{OutOfMemory};
ghost use Rattle.coll_words.specs.FirstKeys.{begins_plainly, packed_first_key};
ghost use Rattle.coll_word_lists.specs.PackedKeys.{packed_key};

use coll_key::{KeyFault, MOST_TEXT_CHARACTERS, RANK_STEP, Ranks, is_too_long, key};
use coll_ranks::WeightRanks;
use coll_syntax::Rule;
use coll_table::Table;
use coll_word_lists::{with_packed, with_packed_key, with_room};
use std::alloc::{AllocError, Global};

/// Puts what a text is sorted by first behind other keys, packed.
///
/// The ranks must be those of the table as it stands.
pub(crate) fn with_first_key(
    alloc: Global,
    table: &Table,
    ranks: &Ranks,
    keys: Vec<u32>,
    text: &str,
) -> Result<Vec<u32>, KeyFault>
    requires { AreRanksOf ranks.now (collation table.now) }
    ensures key { IfOk result (λ with. with.items ≡ keys.items ++ packed_first_key (collation table.now) (chars text.now)) }
    ensures short { IfOk result (λ _. is_too_long (chars text.now) ≡ false) }
    ensures err { IfErr result (λ fault. fault ≢ OutOfMemory → is_too_long (chars text.now) ≡ true) }
{
    if begins_plainly(table.rules()) {
        if is_too_long(text) {
            return Err(KeyFault::TextTooLong);
        }
        table.lemma_well_formed();
        let with = with_first_level(keys, ranks, text)?;
        return Ok(with);
    }
    let numbers = key(alloc, table, ranks, text)?;
    let with = with_packed_key(keys, &numbers)?;
    Ok(with)
}

/// Whether the first level is looked at from the front, and has no positions.
pub(crate) fn begins_plainly(rules: &[Rule]) -> bool
    ensures { result ≡ begins_plainly rules.now }
{
    match rules.first() {
        Some(rule) => !(rule.backward || rule.position),
        None => false,
    }
}

// Puts the numbers of a text at the first level behind other keys, packed.
fn with_first_level(keys: Vec<u32>, ranks: &Ranks, text: &str) -> Result<Vec<u32>, AllocError>
    requires { is_too_long (chars text.now) ≡ false }
    ensures { IfOk result (λ with. with.items ≡ keys.items
        ++ packed_key (flat_map (compiled_numbers ranks.now.compiled 0) (elements_by_ranks ranks.now (chars text.now)))) }
{
    let weights = ranks.weights();
    let first_level = weights.at_level(0);
    let mut later = text.len().min(MOST_TEXT_CHARACTERS);
    let mut with = with_room(keys, later)?;
    let mut left = text;
    'elements: while let Some(first) = ranks.first_element(left) {
        left = first.rest;
        later -= 1;
        let row = weights.row(first.element);
        with = with_weight(with, first_level.ranks(row), first_level.added(row), later)?;
    }
    Ok(with)
}

/// Puts the numbers of a weight behind others, and leaves room for later ones.
#[inline(always)]
pub(crate) fn with_weight(
    keys: Vec<u32>,
    weight: WeightRanks<'_>,
    added: u32,
    later: usize,
) -> Result<Vec<u32>, AllocError>
    requires few { later ≤ 65_536 }
    requires room { vec_len keys + later + 1 ≤ vec_capacity keys }
    ensures numbers { IfOk result (λ with. with.items ≡ keys.items ++ packed_key (map (added_to added) (ranks_in weight.entry))) }
    ensures room { IfOk result (λ with. vec_len with + later ≤ vec_capacity with) }
{
    match weight {
        WeightRanks::Ignored => Ok(keys),
        WeightRanks::Single(rank) => with_packed(keys, number_of(rank, added), later),
        WeightRanks::Several(ranks) => with_several(keys, ranks, added, later),
    }
}

// The same, of a weight with several. Few have them.
#[inline(never)]
fn with_several(
    keys: Vec<u32>,
    ranks: &[u32],
    added: u32,
    later: usize,
) -> Result<Vec<u32>, AllocError>
    requires few { later ≤ 65_536 }
    ensures numbers { IfOk result (λ with. with.items ≡ keys.items ++ packed_key (map (added_to added) ranks.now)) }
    ensures room { IfOk result (λ with. vec_len with + later ≤ vec_capacity with) }
{
    let mut with = with_room(keys, ranks.len() + later)?;
    let mut left = ranks;
    'numbers: while let Some((rank, others)) = left.split_first() {
        left = others;
        with = with_packed(with, number_of(*rank, added), others.len() + later)?;
    }
    Ok(with)
}

// The number of a rank, with what is added to it.
#[inline(always)]
fn number_of(rank: u32, added: u32) -> u64
    ensures { result ≡ added_to added rank }
{
    u64::from(rank) * RANK_STEP + u64::from(added)
}
