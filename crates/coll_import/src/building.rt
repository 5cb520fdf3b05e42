//! The table of a source, built.
//!
//! All that a source declares is known before the first order line is looked at, and all that it places before the first weight. Then
//! the table is built, line by line, by the builder that reads tables.

ghost use Rattle.std.specs.Prelude.{IfOk, OnOk};
ghost use Rattle.coll_nodes.specs.TableLayout.{collation};
ghost use Rattle.coll_nodes.specs.WellFormed.{IsWellFormed};
ghost use Rattle.coll_texts.specs.BuilderStates.{table_of};
ghost use Rattle.coll_import.specs.Building.{IsEnded};
ghost use Rattle.coll_syntax.specs.Proper.{IsProperTableLine};

use crate::orders::{Order, Ordered, OrderedLine};
use crate::placing::Placing;
use crate::proper_lines::{section_line, table_line};
use crate::rules::common_rules;
use coll_lex::TextBuf;
use coll_lookups::HashKeys;
use coll_meanings::{LastNames, Meanings, PlacedLookUp};
use coll_source_lines::{NameRange, Report, SourceFault, SourceLine, SourcePlace, spell_next};
use coll_source_names::{DeclaredRange, SourceStatement, lose_statement};
use coll_syntax::{Rules, Statement, TableLine};
use coll_table::Table;
use coll_texts::{LoadCause, TableBuilder};
use std::alloc::Global;
use std::vec::IntoIter;

/// The table of a source, of which these are the lines, in their order. What is changed is told.
///
/// Where `backward` is set, rules that go backward are meant, if a section has such.
pub fn import_table(
    alloc: Global,
    keys: HashKeys,
    lines: Vec<SourceLine>,
    backward: bool,
    report: &mut Report,
) -> Result<Table, SourceFault>
    ensures { IfOk result (λ table. IsWellFormed (collation table)) }
{
    let rules = common_rules(alloc, lines.as_slice(), backward, report)?;
    let meanings = all_meanings(alloc, keys, lines.as_slice(), report)?;
    let (meanings, order) = Placing::new(alloc, keys, meanings).placed(lines, report)?;
    let table = build(alloc, keys, rules, meanings, order, report)?;
    table.lemma_well_formed();
    Ok(table)
}

// What all names mean.
fn all_meanings(
    alloc: Global,
    keys: HashKeys,
    lines: &[SourceLine],
    report: &mut Report,
) -> Result<Meanings, SourceFault> {
    let mut meanings = Meanings::keeping_ranges(alloc, keys);
    match meanings.take_all(lines, report) {
        Ok(()) => Ok(meanings),
        Err(fault) => {
            drop(meanings);
            Err(fault)
        }
    }
}

// Builds the table that declares this and has this order.
fn build(
    alloc: Global,
    keys: HashKeys,
    rules: Rules,
    meanings: Meanings,
    order: Order,
    report: &mut Report,
) -> Result<Table, SourceFault> {
    match TableBuilder::new(alloc, keys) {
        Ok(mut builder) => match fill(alloc, &mut builder, rules, meanings, order, report) {
            Ok(()) => Ok(Table::built(builder)),
            Err(fault) => {
                drop(builder);
                Err(fault)
            }
        },
        Err(error) => {
            drop(meanings);
            drop(order);
            Err(SourceFault::from(error))
        }
    }
}

// Puts all lines of a table to a new builder.
fn fill(
    alloc: Global,
    builder: &mut TableBuilder,
    rules: Rules,
    meanings: Meanings,
    order: Order,
    report: &mut Report,
) -> Result<(), SourceFault>
    ensures { OnOk result (IsWellFormed (table_of builder.new)) }
{
    let mut meanings = meanings;
    let levels = rules.get().len();
    let (declared, ranges) = (meanings.take_declared(), meanings.take_ranges());
    match begin_order(alloc, builder, rules, declared, ranges, report) {
        Ok(()) => {
            let filled = fill_order(alloc, builder, levels, &meanings, order, report);
            drop(meanings);
            filled
        }
        Err(fault) => {
            drop(meanings);
            drop(order);
            Err(fault)
        }
    }
}

// Declares all of this, and opens the order.
fn begin_order(
    alloc: Global,
    builder: &mut TableBuilder,
    rules: Rules,
    declared: Vec<SourceStatement>,
    ranges: Vec<DeclaredRange>,
    report: &mut Report,
) -> Result<(), SourceFault> {
    declare_all(alloc, builder, declared, ranges, report)?;
    start(builder, rules)
}

// Puts the lines of an order to a builder, and ends its category.
fn fill_order(
    alloc: Global,
    builder: &mut TableBuilder,
    levels: usize,
    meanings: &Meanings,
    order: Order,
    report: &mut Report,
) -> Result<(), SourceFault>
    ensures { OnOk result (IsWellFormed (table_of builder.new)) }
{
    let (lines, placed) = order.into_parts();
    let look_up = PlacedLookUp {
        meanings,
        placed: &placed,
        levels,
        alloc,
    };
    let put = place_all(builder, &look_up, lines, report);
    drop(placed);
    match put {
        Ok(()) => end(builder),
        Err(fault) => Err(fault),
    }
}

// Declares all of this, each range behind what stands before it.
fn declare_all(
    alloc: Global,
    builder: &mut TableBuilder,
    declared: Vec<SourceStatement>,
    ranges: Vec<DeclaredRange>,
    report: &mut Report,
) -> Result<(), SourceFault> {
    let mut left = declared.into_iter();
    let mut passed = 0usize;
    for DeclaredRange {
        place,
        names,
        before,
    } in ranges {
        declare_some(builder, &mut left, before.saturating_sub(passed), report)?;
        passed = before;
        declare_range(alloc, builder, place, &names, report)?;
    }
    declare_some(builder, &mut left, usize::MAX, report)
}

// Declares so many of these, or all that are left.
fn declare_some(
    builder: &mut TableBuilder,
    left: &mut IntoIter<SourceStatement>,
    count: usize,
    report: &mut Report,
) -> Result<(), SourceFault> {
    for _ in 0..count {
        let Some(SourceStatement { place, statement }) = left.next() else {
            return Ok(());
        };
        put(builder, place, statement, report)?;
    }
    Ok(())
}

// Declares each name of a range as a symbol.
fn declare_range(
    alloc: Global,
    builder: &mut TableBuilder,
    place: SourcePlace,
    names: &NameRange,
    report: &mut Report,
) -> Result<(), SourceFault> {
    let mut room = String::new(alloc);
    for number in names.first..=names.last {
        spell_next(&mut room, names, number)?;
        let name = TextBuf::copied(alloc, room.as_str())?;
        put(builder, place, Statement::Symbol(name), report)?;
    }
    Ok(())
}

// Opens the order.
fn start(builder: &mut TableBuilder, rules: Rules) -> Result<(), SourceFault> {
    let _levels = rules.get().len();
    let line = TableLine::OrderStart {
        section: None,
        rules: Some(rules),
    };
    take(builder, nowhere(), line)?;
    Ok(())
}

// Places all of this.
fn place_all(
    builder: &mut TableBuilder,
    look_up: &PlacedLookUp<'_>,
    lines: Vec<OrderedLine>,
    report: &mut Report,
) -> Result<(), SourceFault> {
    let mut last = LastNames::new(look_up.alloc);
    for OrderedLine { place, ordered } in lines {
        match ordered {
            Ordered::Section(name) => begin(builder, place, name)?,
            Ordered::Entry(line) => {
                let line = look_up.line(place, line, &mut last, report)?;
                put(builder, place, Statement::Reweight(line), report)?;
            }
        }
    }
    Ok(())
}

// Begins a section.
fn begin(builder: &mut TableBuilder, place: SourcePlace, name: TextBuf) -> Result<(), SourceFault> {
    if let Some(line) = section_line(name) {
        take(builder, place, line)?;
    }
    Ok(())
}

// Ends the order and the category.
fn end(builder: &mut TableBuilder) -> Result<(), SourceFault>
    ensures { OnOk result (IsWellFormed (table_of builder.new)) }
{
    take(builder, nowhere(), TableLine::OrderEnd)?;
    match take(builder, nowhere(), TableLine::EndCategory) {
        Ok(true) => Ok(()),
        Ok(false) => Err(nowhere().load_fault(LoadCause::NoEnd)),
        Err(fault) => Err(fault),
    }
}

// Puts what a statement says to a table, or tells that it is left out, since it is beyond the limits.
fn put(
    builder: &mut TableBuilder,
    place: SourcePlace,
    statement: Statement,
    report: &mut Report,
) -> Result<(), SourceFault> {
    if !statement.is_proper() {
        let lost = lose_statement(place, &statement, report);
        drop(statement);
        return lost;
    }
    if let Some(line) = table_line(statement) {
        take(builder, place, line)?;
    }
    Ok(())
}

// Puts a line to a table, and answers whether that ends the category.
fn take(
    builder: &mut TableBuilder,
    place: SourcePlace,
    line: TableLine,
) -> Result<bool, SourceFault>
    requires { IsProperTableLine line }
    ensures { IfOk result (λ ended. IsEnded ended builder.new) }
{
    match builder.take(place.line, line) {
        Ok(ended) => Ok(ended),
        Err(fault) => Err(place.load_fault(fault.cause)),
    }
}

// The place of what comes from no line.
fn nowhere() -> SourcePlace {
    SourcePlace { text: 0, line: 0 }
}
