//! Comparison of texts.
//!
//! Two texts are compared level by level, number by number, up to the first difference, and no key is formed. A forward level goes
//! over the texts themselves, behind what both begin with; for a backward one the lists of both are made.
//!
//! The simple form compares keys; `keys_are_ordered_as_texts` joins both.

ghost use Rattle.std.specs.Prelude.{◌≡◌, ◌≢◌, ◌<◌, ◌≤◌, ◌||◌, ℕ, List, chars, length, true, false, All, IfOk, IfErr, IsOk};
ghost use Rattle.std.specs.Ordering.{ordering_then};
ghost use Rattle.coll_nodes.specs.TableLayout.{collation};
ghost use Rattle.coll_key.specs.ForwardNumbers.{before};
ghost use Rattle.coll_key.specs.KeyLimits.{is_too_long};
ghost use Rattle.coll_key.specs.LevelList.{level_list, listed};
ghost use Rattle.coll_ranks.specs.Ranks.{AreRanksOf, elements_by_ranks, compiled_numbers};
ghost use Rattle.coll_key.specs.TextOrder.{list_order, order_of, IsForward};
ghost use Rattle.coll_key.specs.declared.key_faults.KeyFault.TheVariants.{TextTooLong, OutOfMemory};

use crate::element_rows::kept_rows;
use crate::forward_numbers::{ForwardNumbers, Step};
use crate::key_faults::KeyFault;
use crate::levels::with_level;
use crate::limits::is_too_long;
use coll_ranks::Ranks;
use coll_syntax::Rule;
use coll_table::Table;
use std::alloc::Global;
use std::cmp::Ordering;

/// The order of two texts by a table.
///
/// Where either has more than `MOST_TEXT_CHARACTERS` characters there is none, also where an earlier character decides. Where no
/// level is `backward` it takes no memory. The ranks must be those of the table as it stands: after an `apply` or a `flip` that
/// changes it, they are to be made anew.
pub fn compare(
    alloc: Global,
    table: &Table,
    ranks: &Ranks,
    text: &str,
    other: &str,
) -> Result<Ordering, KeyFault>
    requires { AreRanksOf ranks.now (collation table.now) }
    ensures ok { IfOk result (λ order. order ≡ order_of (collation table.now) (chars text.now) (chars other.now)) }
    ensures short { IfOk result (λ _. (is_too_long (chars text.now) || is_too_long (chars other.now)) ≡ false) }
    ensures err { IfErr result (λ fault. fault ≢ OutOfMemory → (is_too_long (chars text.now) || is_too_long (chars other.now)) ≡ true) }
    ensures memory { IfErr result (λ fault. fault ≡ OutOfMemory → (is_too_long (chars text.now) || is_too_long (chars other.now)) ≡ false) }
    ensures forward { All IsForward (collation table.now).rules → IfErr result (λ fault. fault ≡ TextTooLong) }
{
    if is_too_long(text) {
        return Err(KeyFault::TextTooLong);
    }
    if is_too_long(other) {
        return Err(KeyFault::TextTooLong);
    }
    table.lemma_well_formed();
    for (level, rule) in table.rules().iter().enumerate() {
        let order = level_order(alloc, ranks, level, *rule, text, other)?;
        if order.is_ne() {
            return Ok(order);
        }
    }
    Ok(Ordering::Equal)
}

// The order of two texts at a level. A forward level takes no memory.
fn level_order(
    alloc: Global,
    ranks: &Ranks,
    level: usize,
    rule: Rule,
    text: &str,
    other: &str,
) -> Result<Ordering, KeyFault>
    requires level { level < ranks.now.compiled.levels }
    requires few { length (elements_by_ranks ranks.now (chars text.now)) ≤ 65_536 }
    requires few_others { length (elements_by_ranks ranks.now (chars other.now)) ≤ 65_536 }
    ensures ok { IfOk result (λ order. order
        ≡ list_order (level_list rule (compiled_numbers ranks.now.compiled level) (elements_by_ranks ranks.now (chars text.now)))
        (level_list rule (compiled_numbers ranks.now.compiled level) (elements_by_ranks ranks.now (chars other.now)))) }
    ensures err { IfErr result (λ fault. fault ≢ OutOfMemory → (is_too_long (chars text.now) || is_too_long (chars other.now)) ≡ true) }
    ensures memory { rule.backward ≡ false → IsOk result }
{
    if rule.backward {
        let numbers = backward_list(alloc, ranks, level, rule, text)?;
        let others = backward_list(alloc, ranks, level, rule, other)?;
        Ok(numbers.cmp(&others))
    } else {
        Ok(forward_order(ranks, level, rule.position, text, other))
    }
}

// The list of a text at a level, in new memory.
fn backward_list(
    alloc: Global,
    ranks: &Ranks,
    level: usize,
    rule: Rule,
    text: &str,
) -> Result<Vec<u64>, KeyFault>
    requires level { level < ranks.now.compiled.levels }
    requires few { length (elements_by_ranks ranks.now (chars text.now)) ≤ 65_536 }
    ensures ok { IfOk result (λ list. list.items
        ≡ level_list rule (compiled_numbers ranks.now.compiled level) (elements_by_ranks ranks.now (chars text.now))) }
    ensures err { IfErr result (λ fault. fault ≢ OutOfMemory → is_too_long (chars text.now) ≡ true) }
{
    let rows = kept_rows(alloc, ranks, text)?;
    let list = with_level(Vec::new(alloc), ranks.weights(), level, rule, &rows)?;
    Ok(list)
}

// The order of two texts at a forward level. It takes no memory.
fn forward_order(ranks: &Ranks, level: usize, position: bool, text: &str, other: &str) -> Ordering
    requires level { level < ranks.now.compiled.levels }
    requires few { length (elements_by_ranks ranks.now (chars text.now)) ≤ 65_536 }
    requires few_others { length (elements_by_ranks ranks.now (chars other.now)) ≤ 65_536 }
    ensures { result ≡ list_order (level_list (record { backward = false; position = position }) (compiled_numbers ranks.now.compiled level)
        (elements_by_ranks ranks.now (chars text.now))) (level_list (record { backward = false; position = position })
        (compiled_numbers ranks.now.compiled level) (elements_by_ranks ranks.now (chars other.now))) }
{
    let (later, later_other) = ranks.past_common(text, other);
    order_along(
        position,
        ForwardNumbers::new(ranks, level, later),
        ForwardNumbers::new(ranks, level, later_other),
    )
}

// The order of the numbers on two ways.
#[inline(always)]
fn order_along(position: bool, left: ForwardNumbers<'_>, right: ForwardNumbers<'_>) -> Ordering
    ensures { result ≡ list_order (listed position 0 left.entry) (listed position 0 right.entry) }
{
    let mut left = left;
    let mut right = right;
    'steps: loop {
        match (left.next(), right.next()) {
            (Some(step), Some(other)) => {
                let order = step_order(position, step, other);
                if order.is_ne() {
                    return order;
                }
            }
            (Some(_), None) => return Ordering::Greater,
            (None, Some(_)) => return Ordering::Less,
            (None, None) => return Ordering::Equal,
        }
    }
}

// The order of two steps: with `position` that of their positions, and then that of their numbers.
fn step_order(position: bool, step: Step, other: Step) -> Ordering
    ensures { (list later : List ℕ) → list_order (before position step list) (before position other later)
        ≡ ordering_then result (list_order list later) }
{
    if position {
        step.position
            .cmp(&other.position)
            .then(step.number.cmp(&other.number))
    } else {
        step.number.cmp(&other.number)
    }
}
