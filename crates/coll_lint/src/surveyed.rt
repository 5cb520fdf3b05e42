//! What a survey gives, put in order: the faults by their lines, with names that are near, and byte order marks.

ghost use Rattle.std.specs.Prelude.{◌≡◌, IfOk, OnOk};
ghost use Rattle.coll_lint.specs.Orders.{AreRearranged};
ghost use Rattle.coll_findings.specs.ToldFaults.{AreOnce};

use crate::near_names::seek_near_names;
use coll_findings::{Surveyed, Told, Warnings};
use std::alloc::{AllocError, Global};

// The bytes of a byte order mark, in UTF-8.
const MARK: &[u8] = b"\xEF\xBB\xBF";

/// What a survey tells, its faults by the order of the lines, with names that are near to those that aren't declared, and with
/// warnings of byte order marks at the beginning of a table and a delta file. No fault is lost or told twice.
pub fn told_of(
    alloc: Global,
    mut surveyed: Surveyed,
    table: &[u8],
    delta: Option<&[u8]>,
) -> Result<Told, AllocError>
    requires { AreOnce surveyed.told.faults.items }
    ensures order { IfOk result (λ told. AreRearranged surveyed.told.faults.items told.faults.items) }
    ensures once { IfOk result (λ told. AreOnce told.faults.items) }
{
    note_marks(&mut surveyed.told.warnings, table, delta);
    match put_in_order(alloc, &mut surveyed) {
        Ok(()) => Ok(surveyed.into_told()),
        Err(error) => {
            drop(surveyed);
            Err(error)
        }
    }
}

// Puts the faults that are told in the order of the lines, with names that are near. Faults of a line stay in the order in which they
// were found.
fn put_in_order(alloc: Global, surveyed: &mut Surveyed) -> Result<(), AllocError>
    ensures { OnOk result (AreRearranged surveyed.old.told.faults.items surveyed.new.told.faults.items) }
{
    surveyed
        .told
        .faults
        .sort_by(|found, other| found.line.cmp(&other.line))?;
    match &surveyed.table {
        Some(table) => seek_near_names(alloc, table, surveyed.told.faults.as_mut_slice()),
        None => Ok(()),
    }
}

// Notes the byte order mark of the text that was surveyed, which is that of the delta file where one is given, and then that of the table
// beside it.
fn note_marks(warnings: &mut Warnings, table: &[u8], delta: Option<&[u8]>) {
    warnings.mark = delta.unwrap_or(table).starts_with(MARK);
    warnings.table_mark = delta.is_some() && table.starts_with(MARK);
}
