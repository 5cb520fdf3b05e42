//! Names that may be meant: declared ones where a name isn't declared, or a target has no entry, and those of sections where one isn't
//! there.

ghost use Rattle.std.specs.Prelude.{◌≡◌, length, map, OnOk};
ghost use Rattle.coll_lint.specs.Orders.{bare_fault, bare_subject};

use coll_advice::{may_be_mistyped, meant_name};
use coll_findings::{About, FoundFault};
use coll_lex::TextBuf;
use coll_syntax::Id;
use coll_table::Table;
use std::alloc::{AllocError, Global};

// Most faults for which a name is looked for, since each of them takes a look at all names.
const MOST_SOUGHT: usize = 20;

/// Gives the first faults that are about a name which may be mistyped the name that is nearest, where one is near.
pub(crate) fn seek_near_names(
    alloc: Global,
    table: &Table,
    faults: &mut [FoundFault],
) -> Result<(), AllocError>
    ensures same { OnOk result (map bare_fault faults.new ≡ map bare_fault faults.old) }
    ensures len { length faults.new ≡ length faults.old }
{
    let mut sought = 0;
    for found in faults.iter_mut() {
        sought = seek_in_turn(alloc, table, found, sought)?;
    }
    Ok(())
}

// Gives a fault the name that is nearest, where so many were sought for those before it. The answer is how many then were.
fn seek_in_turn(
    alloc: Global,
    table: &Table,
    found: &mut FoundFault,
    sought: usize,
) -> Result<usize, AllocError>
    ensures { OnOk result (bare_fault found.new ≡ bare_fault found.old) }
{
    let number = found.fault.fault.number();
    if sought >= MOST_SOUGHT || !may_be_mistyped(number) {
        return Ok(sought);
    }
    seek_near(alloc, table, number, &mut found.about)?;
    Ok(sought.saturating_add(1))
}

// Gives what a fault with this number is about the name that is nearest, where one is near.
fn seek_near(alloc: Global, table: &Table, number: u8, about: &mut About) -> Result<(), AllocError>
    ensures { OnOk result (bare_subject about.new ≡ bare_subject about.old) }
{
    match about {
        About::Id { id, near } => fill_near(alloc, table, number, id, near),
        About::Nothing | About::Word(_) => Ok(()),
    }
}

// Gives an identifier the name that is nearest, where one is near.
fn fill_near(
    alloc: Global,
    table: &Table,
    number: u8,
    id: &Id,
    near: &mut Option<TextBuf>,
) -> Result<(), AllocError> {
    if let Some(meant) = meant_name(table, number, id) {
        let meant = TextBuf::copied(alloc, meant)?;
        drop(near.replace(meant));
    }
    Ok(())
}
