//! Tests that `checkers/refuse_growths.py` runs anew with one growth of memory refused: the first that is counted, then the second, and
//! so on, until none is left to be refused.
//!
//! A test counts the growths of the calls that it shows, and no others. Where such a call answers lack of memory, the test says so,
//! looks whether all stands as it did, and makes the call again, which then has to answer. Tests of `sessions::histories`, of `keys`
//! and of `ordered_rings` do so as well.

use crate::tables::examples::{
    BASE_TABLE, SECOND_NAMES, SECOND_NAMES_PRINTED, TWO_SECTIONS, TWO_SECTIONS_PRINTED,
    assert_printed, loaded, text_of,
};
use coll_table::{LoadCause, LoadFault};
use std::alloc::Global;
use std::process::Abort;

/// From here on growths are counted.
pub fn count_growths<R: Abort + Print>(rt: &R) {
    println!(rt; "growths are counted").expect(rt, "a line");
}

/// From here on growths are counted no more.
pub fn count_no_growths<R: Abort + Print>(rt: &R) {
    println!(rt; "growths go by").expect(rt, "a line");
}

/// Says that a call answered lack of memory.
pub fn tell_refused<R: Abort + Print>(rt: &R) {
    println!(rt; "a growth was refused").expect(rt, "a line");
}

// Asserts as what the table of these lines is printed. A refused load gives none.
fn assert_loads<R: Abort + Print>(rt: &R, alloc: Global, lines: &[&str], printed: &[&str]) {
    let text = text_of(rt, alloc, lines);
    count_growths(rt);
    let loads = loaded(alloc, &text);
    count_no_growths(rt);
    let table = match loads {
        Err(
            LoadFault {
                cause: LoadCause::OutOfMemory,
                ..
            },
        ) => {
            tell_refused(rt);
            loaded(alloc, &text).expect(rt, "a table")
        }
        answer => answer.expect(rt, "a table"),
    };
    let wanted = text_of(rt, alloc, printed);
    assert_printed(rt, alloc, &table, &wanted);
    drop(table);
}

#[test]
fn a_table_is_loaded_with_no_growth_refused(rt: HostRuntime) {
    assert_loads(&rt, rt.alloc(), BASE_TABLE, BASE_TABLE);
    assert_loads(&rt, rt.alloc(), TWO_SECTIONS, TWO_SECTIONS_PRINTED);
    assert_loads(&rt, rt.alloc(), SECOND_NAMES, SECOND_NAMES_PRINTED);
}
