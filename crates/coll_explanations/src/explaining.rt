//! Why two texts compare as they do.
//!
//! `explain` writes the elements of both texts, a line for each level up to the one that decides, and what `compare` says
//! (`specs/Explanations.antt`). The lists of a level are those that keys are made of, each number with where it comes from
//! (`ToldLists`, `Sources`); the laws say so (`ExplanationLaws`).

ghost use Rattle.std.specs.Prelude.{◌≡◌, ◌<◌, ◌≤◌, ◌∷◌, [], chars, false, true, length, map, option_map, IfOk, IfErr, OnOk, OnErr};
ghost use Rattle.coll_devices.specs.Devices.{Sends, Writes};
ghost use Rattle.coll_nodes.specs.NodeNumbers.{AreNumbersOf};
ghost use Rattle.coll_nodes.specs.TableLayout.{collation};
ghost use Rattle.coll_elements.specs.Elements.{elements_of};
ghost use Rattle.coll_key.specs.KeyLimits.{is_too_long};
ghost use Rattle.coll_key.specs.TextOrder.{order_of};
ghost use Rattle.coll_bench.specs.BatchOutcome.{fault_in, is_any_too_long, text_too_long};
ghost use Rattle.coll_bench.specs.Serving.{CountsWrites, ReadsNone, write_failed};
ghost use Rattle.coll_explanations.specs.Explaining.{Explains, WritesWhole, starved};
ghost use Rattle.coll_explanations.specs.ExplanationLaws.{FirstDifferencesAreTold, OrdersAreOfLevels};
ghost use Rattle.coll_explanations.specs.ExplanationLaws.{ToldLevelsDecide, ToldNumbersAreListed};
ghost use Rattle.coll_explanations.specs.Explanations.{apart_at, explanation, explanation_of, level_lines};
ghost use Rattle.coll_explanations.specs.RankLooks.{Serves};
ghost use Rattle.coll_explanations.specs.ToldSteps.{apart_of, id_of};

use crate::differences::{Difference, first_difference};
use crate::level_numbers::LevelNumbers;
use crate::lines::{write_elements, write_level, write_order};
use crate::rank_looks::RankLooks;
use crate::weighing::Weighing;
use coll_bench::{Fault, RunFault};
use coll_devices::{Sink, WriteStop};
use coll_elements::{ElementEntry, split_text};
use coll_key::{EntryNumbers, KeyFault, is_too_long};
use coll_syntax::{Id, Rule};
use coll_table::Table;
use std::alloc::{AllocError, Global};
use std::cmp::Ordering;

/// Writes why two texts compare as they do by a table.
///
/// The first two lines have the elements of the texts; then comes a line for each level up to the first at which their keys differ,
/// which tells the first place of its numbers where they do, and what stands there; and last what `compare` says. A text of more than
/// `MOST_TEXT_CHARACTERS` characters is refused, and so is lack of memory, before anything is written. A write that fails leaves a
/// prefix of the explanation. Each fault has input 0 and line 0.
pub fn explain<W: Sink>(
    alloc: Global,
    table: &Table,
    text: &str,
    other: &str,
    output: &mut W,
) -> Result<(), RunFault>
    ensures run { Explains (collation table.now) (chars text.now) (chars other.now) (W.taken output.old) (W.taken output.new) result }
    ensures input { IfErr result (λ ended. ended.input ≡ 0) }
    ensures reads { IfErr result (λ ended. ReadsNone ended) }
    ensures writes { CountsWrites (W.failed output.old) (W.failed output.new) result }
{
    if let Err(ended) = check_lengths(text, other) {
        return Err(ended);
    }
    let mut numbers = EntryNumbers::new(alloc);
    let looks = RankLooks::new(alloc, table, &mut numbers, characters_in(text, other));
    let explained = explain_with(alloc, table, looks, text, other, output);
    drop(numbers);
    explained
}

/// The same where the places of the table's entries are known: they aren't given anew.
pub fn explain_by_places<W: Sink>(
    alloc: Global,
    table: &Table,
    places: &EntryNumbers,
    text: &str,
    other: &str,
    output: &mut W,
) -> Result<(), RunFault>
    requires { AreNumbersOf places.now table.now.layout }
    ensures run { Explains (collation table.now) (chars text.now) (chars other.now) (W.taken output.old) (W.taken output.new) result }
    ensures input { IfErr result (λ ended. ended.input ≡ 0) }
    ensures reads { IfErr result (λ ended. ReadsNone ended) }
    ensures writes { CountsWrites (W.failed output.old) (W.failed output.new) result }
{
    if let Err(ended) = check_lengths(text, other) {
        return Err(ended);
    }
    let looks = RankLooks::by_places(alloc, table, places, characters_in(text, other));
    explain_with(alloc, table, looks, text, other, output)
}

// The same of texts that aren't too long, by what tells the ranks of the table, unless memory was refused to that.
fn explain_with<W: Sink>(
    alloc: Global,
    table: &Table,
    looks: Result<RankLooks<'_>, AllocError>,
    text: &str,
    other: &str,
    output: &mut W,
) -> Result<(), RunFault>
    requires short { is_any_too_long (chars text.now ∷ chars other.now ∷ []) ≡ false }
    requires looks { IfOk looks (λ looks. Serves looks table.now) }
    ensures run { WritesWhole (explanation (collation table.now) (chars text.now) (chars other.now)) (W.taken output.old)
        (W.taken output.new) result }
    ensures input { IfErr result (λ ended. ended.input ≡ 0) }
    ensures reads { IfErr result (λ ended. ReadsNone ended) }
    ensures writes { CountsWrites (W.failed output.old) (W.failed output.new) result }
{
    match looks {
        Ok(looks) => {
            let explained = explain_by(alloc, table, &looks, text, other, output);
            drop(looks);
            explained
        }
        Err(_) => Err(no_memory()),
    }
}

// Refuses two texts of which one is too long to have a key.
fn check_lengths(text: &str, other: &str) -> Result<(), RunFault>
    ensures short { OnOk result (is_any_too_long (chars text.now ∷ chars other.now ∷ []) ≡ false) }
    ensures long { OnErr result (is_any_too_long (chars text.now ∷ chars other.now ∷ []) ≡ true) }
    ensures fault { IfErr result (λ ended. ended ≡ text_too_long) }
{
    if is_too_long(text) {
        return Err(no_line(Fault::Key(KeyFault::TextTooLong)));
    }
    if is_too_long(other) {
        return Err(no_line(Fault::Key(KeyFault::TextTooLong)));
    }
    Ok(())
}

// How many characters two texts have together.
fn characters_in(text: &str, other: &str) -> usize {
    text.chars().count().saturating_add(other.chars().count())
}

// The same by what tells the ranks of the table.
fn explain_by<W: Sink>(
    alloc: Global,
    table: &Table,
    looks: &RankLooks<'_>,
    text: &str,
    other: &str,
    output: &mut W,
) -> Result<(), RunFault>
    requires short { is_any_too_long (chars text.now ∷ chars other.now ∷ []) ≡ false }
    requires looks { Serves looks.now table.now }
    ensures run { WritesWhole (explanation (collation table.now) (chars text.now) (chars other.now)) (W.taken output.old)
        (W.taken output.new) result }
    ensures input { IfErr result (λ ended. ended.input ≡ 0) }
    ensures reads { IfErr result (λ ended. ReadsNone ended) }
    ensures writes { CountsWrites (W.failed output.old) (W.failed output.new) result }
{
    match compare_both(alloc, table, looks, text, other) {
        Ok(compared) => {
            let wrote = write_compared(table, looks, &compared, output);
            drop(compared);
            wrote
        }
        Err(_) => Err(no_memory()),
    }
}

// Two texts, compared.
#[derive(Drop)]
struct Compared {
    // The elements of the first text, and those of the other.
    elements: Vec<Id>,
    others: Vec<Id>,
    order: Ordering,
}

// The elements of two texts, and their order.
fn compare_both(
    alloc: Global,
    table: &Table,
    looks: &RankLooks<'_>,
    text: &str,
    other: &str,
) -> Result<Compared, KeyFault>
    requires short { is_any_too_long (chars text.now ∷ chars other.now ∷ []) ≡ false }
    requires looks { Serves looks.now table.now }
    ensures elements { IfOk result (λ made. made.elements.items ≡ elements_of (collation table.now) (chars text.now)) }
    ensures others { IfOk result (λ made. made.others.items ≡ elements_of (collation table.now) (chars other.now)) }
    ensures order { IfOk result (λ made. made.order ≡ order_of (collation table.now) (chars text.now) (chars other.now)) }
    ensures few { IfOk result (λ made. length made.elements.items ≤ 65_536) }
    ensures few_others { IfOk result (λ made. length made.others.items ≤ 65_536) }
{
    let order = looks.compare(alloc, table, text, other)?;
    let elements = element_ids(alloc, table, text)?;
    let others = element_ids(alloc, table, other)?;
    Ok(Compared {
        elements,
        others,
        order,
    })
}

// The elements of a text, by their identifiers, in new memory.
fn element_ids(alloc: Global, table: &Table, text: &str) -> Result<Vec<Id>, AllocError>
    requires { is_too_long (chars text.now) ≡ false }
    ensures ids { IfOk result (λ ids. ids.items ≡ elements_of (collation table.now) (chars text.now)) }
    ensures few { IfOk result (λ ids. length ids.items ≤ 65_536) }
{
    let elements = split_text(alloc, table, text)?;
    ids_of(alloc, &elements)
}

// The identifiers of elements, in new memory.
fn ids_of(alloc: Global, elements: &[ElementEntry<'_>]) -> Result<Vec<Id>, AllocError>
    ensures { IfOk result (λ ids. ids.items ≡ map id_of elements.now) }
{
    let mut ids = Vec::with_capacity(alloc, elements.len())?;
    for element in elements {
        ids.push(id_of(*element)?)?;
    }
    Ok(ids)
}

// The identifier of an element, in new memory.
fn id_of(element: ElementEntry<'_>) -> Result<Id, AllocError>
    ensures { IfOk result (λ id. id ≡ id_of element.entry) }
{
    match element {
        ElementEntry::Placed(entry) => entry.id().clone(),
        ElementEntry::Absent(c) => Ok(Id::Char(c)),
    }
}

// Writes the explanation of two texts that were compared.
fn write_compared<'a, W: Sink>(
    table: &'a Table,
    looks: &'a RankLooks<'a>,
    compared: &'a Compared,
    output: &mut W,
) -> Result<(), RunFault>
    requires looks { Serves looks.now table.now }
    requires few { length compared.now.elements.items ≤ 65_536 }
    requires few_others { length compared.now.others.items ≤ 65_536 }
    ensures sent { Sends (W.taken output.old) (W.taken output.new) (explanation_of (collation table.now) compared.now.elements.items
        compared.now.others.items compared.now.order) result }
    ensures fault { IfErr result (λ ended. ended ≡ write_failed) }
    ensures writes { CountsWrites (W.failed output.old) (W.failed output.new) result }
{
    let undefined = Id::Undefined;
    let weighing = Weighing::new(table, looks, &undefined);
    let wrote = write_explanation(output, &weighing, table.rules(), compared);
    drop(weighing);
    drop(undefined);
    match wrote {
        Ok(()) => Ok(()),
        Err(_) => Err(no_line(Fault::Write(WriteStop::WriteFault))),
    }
}

// Writes the lines of an explanation.
fn write_explanation<'a, W: Sink>(
    out: &mut W,
    weighing: &'a Weighing<'a>,
    rules: &[Rule],
    compared: &'a Compared,
) -> Result<(), WriteStop>
    requires rules { rules.now ≡ weighing.now.rules }
    requires few { length compared.now.elements.items ≤ 65_536 }
    requires few_others { length compared.now.others.items ≤ 65_536 }
    ensures { Writes (W.taken out.old) (W.taken out.new) (W.failed out.old) (W.failed out.new)
        (explanation_of weighing.now compared.now.elements.items compared.now.others.items compared.now.order) result }
{
    write_elements(out, b"A", &compared.elements)?;
    write_elements(out, b"B", &compared.others)?;
    write_levels(out, weighing, rules, &compared.elements, &compared.others)?;
    write_order(out, compared.order)
}

// Writes the lines of levels, up to the first that decides.
fn write_levels<'a, W: Sink>(
    out: &mut W,
    weighing: &'a Weighing<'a>,
    rules: &[Rule],
    elements: &'a [Id],
    others: &'a [Id],
) -> Result<(), WriteStop>
    requires rules { rules.now ≡ weighing.now.rules }
    requires few { length elements.now ≤ 65_536 }
    requires few_others { length others.now ≤ 65_536 }
    ensures { Writes (W.taken out.old) (W.taken out.new) (W.failed out.old) (W.failed out.new)
        (level_lines weighing.now 0 rules.now elements.now others.now) result }
{
    for (level, rule) in rules.iter().enumerate() {
        let difference = level_difference(weighing, level, *rule, elements, others);
        // Not `?`: behind its conversion this exit would need a lemma.
        if let Err(stop) = write_level(out, level as u64 + 1, *rule, difference) {
            return Err(stop);
        }
        if difference.is_some() {
            return Ok(());
        }
    }
    Ok(())
}

// Where the lists of two texts with these elements differ first at a level.
fn level_difference<'a>(
    weighing: &'a Weighing<'a>,
    level: usize,
    rule: Rule,
    elements: &'a [Id],
    others: &'a [Id],
) -> Option<Difference<'a>>
    requires level { level < length weighing.now.rules }
    requires few { length elements.now ≤ 65_536 }
    requires few_others { length others.now ≤ 65_536 }
    ensures { option_map apart_of result ≡ apart_at weighing.now level rule elements.now others.now }
{
    first_difference(
        rule.position,
        LevelNumbers::new(weighing, level, rule.backward, elements),
        LevelNumbers::new(weighing, level, rule.backward, others),
    )
}

// Lack of memory.
fn no_memory() -> RunFault
    ensures { result ≡ starved }
{
    no_line(Fault::Key(KeyFault::OutOfMemory))
}

// A fault that comes from no line.
fn no_line(fault: Fault) -> RunFault
    ensures { result ≡ fault_in 0 0 fault }
{
    RunFault {
        input: 0,
        line: 0,
        fault,
    }
}

/// The law of the numbers that are told of a level: without where they come from, they are the list that keys are made of.
///
/// It does nothing; its contract is the law.
pub fn told_numbers_are_listed()
    ensures { ToldNumbersAreListed }
{}

/// The law of what is told of a level: whether its lists are the same, and else the first place at which they differ, and what stands
/// there.
///
/// It does nothing; its contract is the law.
pub fn first_differences_are_told()
    ensures { FirstDifferencesAreTold }
{}

/// The law of the level that decides: the order of two texts is that by all levels, of which one that is told as equal leaves it to
/// those behind it, and one that isn't gives it, by what stands at the place that is told.
///
/// It does nothing; its contract is the law.
pub fn told_levels_decide()
    ensures levels { ToldLevelsDecide }
    ensures order { OrdersAreOfLevels }
{}
