//! All faults of a statement.
//!
//! What a table accepts has none. A statement that is no block has one, the refusal of the table, and it is told what that is about
//! (`specs/Faults.antt`); a block has those of `blocks`. A new statement is a case of `refused_faults` first.

ghost use Rattle.std.specs.Prelude.{◌≡◌, ◌≢◌, ◌↔◌, [], IsOk, IsTrue, Err, IfOk, is_some};
ghost use Rattle.coll_lex.specs.Names.{IsName};
ghost use Rattle.coll_syntax.specs.Identifier.{has_name};
ghost use Rattle.coll_syntax.specs.Proper.{IsProper};
ghost use Rattle.coll_syntax.specs.declared.statements.Statement.TheVariants as statement;
ghost use Rattle.coll_nodes.specs.Table.{section_names};
ghost use Rattle.coll_nodes.specs.TableLayout.{collation};
ghost use Rattle.coll_table.specs.Delta.{delta};
ghost use Rattle.coll_table.specs.declared.refusals.Refusal.TheVariants.{OutOfMemory};
ghost use Rattle.coll_advice.specs.Faults.{equivalence_name, fault_named, faults, first_with, refused_faults, section_named};
ghost use Rattle.coll_advice.specs.Faults.{listed};
ghost use Rattle.coll_advice.specs.LineFaults.{reweight_fault};

use crate::blocks::block_faults;
use crate::found::Found;
use crate::lines::find_at_reweight;
use coll_lex::TextBuf;
use coll_syntax::{Id, OrderLine, Statement};
use coll_table::{Refusal, Table};
use std::alloc::{AllocError, Global};

/// All faults of a statement over a table: of a block that of its target first, then at most one for each line, in order, and last that
/// it has too many entries; of any other statement one at most. There is none exactly where the table accepts the statement.
///
/// What the table refuses a statement with is among them. It is the first, but of a block in which a line has a fault in its weights,
/// and a later line one of its own, or the block too many entries: a table looks at the weights last. An identifier is told as the
/// statement names it, and where a name that is declared already, or a string, is declared again, it is the name in the statement.
pub fn faults_of(
    alloc: Global,
    table: &Table,
    statement: &Statement,
) -> Result<Vec<Found>, AllocError>
    requires proper { IsProper statement.now }
    ensures faults { IfOk result (λ found. found.items ≡ faults (collation table.now) statement.now) }
    ensures accepted { IfOk result (λ found. (found.items ≡ []) ↔ IsOk (delta (collation table.now) statement.now)) }
{
    match table.check(statement) {
        Ok(()) => Ok(Vec::new(alloc)),
        Err(refusal) => faults_behind(alloc, table, statement, refusal),
    }
}

// The faults of a statement that was refused so; none are told where memory was refused.
fn faults_behind(
    alloc: Global,
    table: &Table,
    statement: &Statement,
    refusal: Refusal,
) -> Result<Vec<Found>, AllocError>
    requires proper { IsProper statement.now }
    requires refused { refusal ≢ OutOfMemory → delta (collation table.now) statement.now ≡ Err refusal }
    ensures faults { IfOk result (λ found. found.items ≡ faults (collation table.now) statement.now) }
    ensures accepted { IfOk result (λ found. (found.items ≡ []) ↔ IsOk (delta (collation table.now) statement.now)) }
{
    if refusal.number() == Refusal::OutOfMemory.number() {
        return Err(AllocError);
    }
    table.lemma_well_formed();
    let found = refused_faults(alloc, table, statement, refusal)?;
    Ok(found)
}

/// What a statement that was refused is about: the first fault found that has this refusal. It is found where the refusal is that of
/// the table.
pub fn subject_of(
    alloc: Global,
    table: &Table,
    statement: &Statement,
    refusal: Refusal,
) -> Result<Option<Found>, AllocError>
    requires proper { IsProper statement.now }
    ensures first { IfOk result (λ found. found ≡ first_with refusal (faults (collation table.now) statement.now)) }
    ensures told { IfOk result (λ found. delta (collation table.now) statement.now ≡ Err refusal → IsTrue (is_some found)) }
{
    table.lemma_well_formed();
    let found = faults_of(alloc, table, statement)?;
    let copied = first_copied(found.as_slice(), refusal);
    drop(found);
    let subject = copied?;
    Ok(subject)
}

// A copy of the first of these faults that has a refusal.
fn first_copied(found: &[Found], refusal: Refusal) -> Result<Option<Found>, AllocError>
    ensures { IfOk result (λ copy. copy ≡ first_with refusal found.now) }
{
    for fault in found {
        if fault.refusal.number() == refusal.number() {
            let copy = fault.clone()?;
            return Ok(Some(copy));
        }
    }
    Ok(None)
}

// The faults of a statement that is refused so.
fn refused_faults(
    alloc: Global,
    table: &Table,
    statement: &Statement,
    refusal: Refusal,
) -> Result<Vec<Found>, AllocError>
    requires proper { IsProper statement.now }
    ensures { IfOk result (λ found. found.items ≡ refused_faults (collation table.now) statement.now refusal) }
{
    match statement {
        Statement::Symbol(name) => fault_named(alloc, refusal, name),
        Statement::Element { name, .. } => fault_named(alloc, refusal, name),
        Statement::Equivalence { name, symbol } => {
            equivalence_fault(alloc, refusal, name, symbol)
        }
        Statement::Block { target, lines } => {
            block_faults(alloc, table, target, lines.get(), refusal)
        }
        Statement::SectionAfter { moved, after } => {
            section_fault(alloc, table, refusal, moved, after)
        }
        Statement::Reweight(line) => reweight_faults(alloc, table, line),
    }
}

// A fault about a name.
fn fault_named(alloc: Global, refusal: Refusal, name: &TextBuf) -> Result<Vec<Found>, AllocError>
    ensures { IfOk result (λ found. found.items ≡ fault_named refusal name.now) }
{
    let name = name.try_copy()?;
    let mut found = Vec::new(alloc);
    found.push(Found {
        line: None,
        refusal,
        id: Some(Id::Named(name)),
    })?;
    Ok(found)
}

// The fault of a second name.
fn equivalence_fault(
    alloc: Global,
    refusal: Refusal,
    name: &TextBuf,
    symbol: &TextBuf,
) -> Result<Vec<Found>, AllocError>
    ensures { IfOk result (λ found. found.items ≡ fault_named refusal (equivalence_name refusal name.now symbol.now)) }
{
    if refusal.number() == Refusal::NotDeclared.number() {
        return fault_named(alloc, refusal, symbol);
    }
    if refusal.number() == Refusal::NotASymbol.number() {
        return fault_named(alloc, refusal, symbol);
    }
    fault_named(alloc, refusal, name)
}

// The fault of a section that is to be moved.
fn section_fault(
    alloc: Global,
    table: &Table,
    refusal: Refusal,
    moved: &TextBuf,
    after: &TextBuf,
) -> Result<Vec<Found>, AllocError>
    requires proper { IsProper (statement.SectionAfter moved.now after.now) }
    ensures { IfOk result (λ found. found.items
        ≡ fault_named refusal (section_named (collation table.now) refusal moved.now after.now)) }
{
    if refusal.number() == Refusal::NoSuchSection.number() {
        if has_section(table, moved)? {
            return fault_named(alloc, refusal, after);
        }
    }
    fault_named(alloc, refusal, moved)
}

// Whether a section has a name: then a table refuses to move it after itself, and else that it isn't there.
fn has_section(table: &Table, name: &TextBuf) -> Result<bool, AllocError>
    requires proper { IsName name.now }
    ensures { IfOk result (λ has. has ≡ has_name (section_names (collation table.now).sections) name.now) }
{
    let moved = name.try_copy()?;
    let after = name.try_copy()?;
    let twice = Statement::SectionAfter { moved, after };
    let answer = table.check(&twice);
    drop(twice);
    match answer {
        Ok(()) => Ok(true),
        Err(refusal) => Ok(refusal.number() != Refusal::NoSuchSection.number()),
    }
}

// The fault of an order line outside of a block, as a list.
fn reweight_faults(alloc: Global, table: &Table, line: &OrderLine) -> Result<Vec<Found>, AllocError>
    ensures { IfOk result (λ found. found.items ≡ listed (reweight_fault (collation table.now) line.now)) }
{
    let mut found = Vec::new(alloc);
    match find_at_reweight(alloc, table, line)? {
        Some(fault) => {
            found.push(fault)?;
            Ok(found)
        }
        None => Ok(found),
    }
}
