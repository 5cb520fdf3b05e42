//! What is wrong with a block: with its target, with each of its lines, and with its length.
//!
//! Two sets of identifiers are kept, by own names: those of the target and all lines, which may stand in weights, and those of the
//! target and the lines before the one that is looked at, which may not stand in it again. So a block is gone through twice, line by
//! line, each line with as many look-ups as it has identifiers.

ghost use Rattle.std.specs.Prelude.{◌≡◌, ◌++◌, [], IfOk, OnOk};
ghost use Rattle.coll_lookups.specs.IdSets.{AddsId};
ghost use Rattle.coll_nodes.specs.OwnNames.{own_id};
ghost use Rattle.coll_nodes.specs.Table.{is_placed};
ghost use Rattle.coll_nodes.specs.TableLayout.{collation};
ghost use Rattle.coll_table.specs.Judging.{HaveSame};
ghost use Rattle.coll_advice.specs.Faults.{block_faults, block_ids, block_line_faults, full_faults, listed, target_fault};
ghost use Rattle.coll_advice.specs.LineFaults.{line_fault};

use crate::found::Found;
use crate::identifiers::{copied_own_id, is_placed};
use crate::lines::find_at_line;
use coll_lookups::IdSet;
use coll_syntax::{Id, OrderLine};
use coll_table::{Refusal, Table};
use std::alloc::{AllocError, Global};

/// All faults of a block that a table refuses so.
pub(crate) fn block_faults(
    alloc: Global,
    table: &Table,
    target: &Id,
    lines: &[OrderLine],
    refusal: Refusal,
) -> Result<Vec<Found>, AllocError>
    ensures { IfOk result (λ found. found.items ≡ block_faults (collation table.now) target.now lines.now refusal) }
{
    let mut found = Vec::new(alloc);
    find_at_target(alloc, table, target, &mut found)?;
    find_at_lines(alloc, table, target, lines, &mut found)?;
    find_too_many(refusal, &mut found)?;
    Ok(found)
}

// Finds the fault of a target.
fn find_at_target(
    alloc: Global,
    table: &Table,
    target: &Id,
    found: &mut Vec<Found>,
) -> Result<(), AllocError>
    ensures { OnOk result (found.new.items ≡ found.old.items ++ listed (target_fault (collation table.now) target.now)) }
{
    if stands(alloc, table, target)? {
        return Ok(());
    }
    let id = target.clone()?;
    found.push(Found {
        line: None,
        refusal: Refusal::TargetNotPlaced,
        id: Some(id),
    })?;
    Ok(())
}

// Whether an identifier stands in a table by its own name.
fn stands(alloc: Global, table: &Table, id: &Id) -> Result<bool, AllocError>
    ensures { IfOk result (λ it. it ≡ is_placed (collation table.now) (own_id (collation table.now).declared id.now)) }
{
    let own = copied_own_id(alloc, table, id)?;
    let placed = is_placed(table, &own);
    drop(own);
    Ok(placed)
}

// Finds the faults of the lines of a block.
fn find_at_lines(
    alloc: Global,
    table: &Table,
    target: &Id,
    lines: &[OrderLine],
    found: &mut Vec<Found>,
) -> Result<(), AllocError>
    ensures { OnOk result (found.new.items ≡ found.old.items ++ block_line_faults (collation table.now) target.now lines.now) }
{
    let mut all = IdSet::new(alloc, table.hash_keys());
    let done = find_among(alloc, table, &mut all, target, lines, found);
    drop(all);
    done
}

// The same, with the identifiers of the target and of all lines put in, where there are none yet.
fn find_among(
    alloc: Global,
    table: &Table,
    all: &mut IdSet,
    target: &Id,
    lines: &[OrderLine],
    found: &mut Vec<Found>,
) -> Result<(), AllocError>
    requires { all.old ≡ [] }
    ensures { OnOk result (found.new.items ≡ found.old.items ++ block_line_faults (collation table.now) target.now lines.now) }
{
    insert_all(alloc, table, all, target, lines)?;
    let mut before = IdSet::new(alloc, table.hash_keys());
    let done = find_from_target(alloc, table, &mut before, all, target, lines, found);
    drop(before);
    done
}

// Puts the identifiers of the target and of all lines, by own names, where there are none yet.
fn insert_all(
    alloc: Global,
    table: &Table,
    all: &mut IdSet,
    target: &Id,
    lines: &[OrderLine],
) -> Result<(), AllocError>
    requires { all.old ≡ [] }
    ensures { OnOk result (HaveSame all.new (block_ids (collation table.now) target.now lines.now)) }
{
    insert_own(alloc, table, all, target)?;
    for line in lines {
        insert_own(alloc, table, all, &line.id)?;
    }
    Ok(())
}

// Puts an identifier in by its own name.
fn insert_own(alloc: Global, table: &Table, ids: &mut IdSet, id: &Id) -> Result<(), AllocError>
    ensures { OnOk result (AddsId ids.old ids.new (own_id (collation table.now).declared id.now)) }
{
    let own = copied_own_id(alloc, table, id)?;
    let inserted = ids.insert(&own);
    drop(own);
    inserted
}

// Finds the faults of the lines of a block, and puts the identifiers of the target and of each line in, where there are none yet.
fn find_from_target(
    alloc: Global,
    table: &Table,
    before: &mut IdSet,
    all: &IdSet,
    target: &Id,
    lines: &[OrderLine],
    found: &mut Vec<Found>,
) -> Result<(), AllocError>
    requires none { before.old ≡ [] }
    requires all { HaveSame all.now (block_ids (collation table.now) target.now lines.now) }
    ensures { OnOk result (found.new.items ≡ found.old.items ++ block_line_faults (collation table.now) target.now lines.now) }
{
    insert_own(alloc, table, before, target)?;
    for (number, line) in lines.iter().enumerate() {
        find_next(alloc, table, number, before, all, line, found)?;
        insert_own(alloc, table, before, &line.id)?;
    }
    Ok(())
}

// Finds the fault of a line.
fn find_next(
    alloc: Global,
    table: &Table,
    number: usize,
    before: &IdSet,
    all: &IdSet,
    line: &OrderLine,
    found: &mut Vec<Found>,
) -> Result<(), AllocError>
    ensures { OnOk result (found.new.items ≡ found.old.items
        ++ listed (line_fault (collation table.now) number before.now all.now line.now)) }
{
    match find_at_line(alloc, table, number, before, all, line)? {
        Some(fault) => {
            found.push(fault)?;
            Ok(())
        }
        None => Ok(()),
    }
}

// Finds that a block that is refused so has too many entries.
fn find_too_many(refusal: Refusal, found: &mut Vec<Found>) -> Result<(), AllocError>
    ensures { OnOk result (found.new.items ≡ found.old.items ++ full_faults refusal) }
{
    if refusal.number() == Refusal::Full.number() {
        found.push(Found {
            line: None,
            refusal: Refusal::Full,
            id: None,
        })?;
    }
    Ok(())
}
