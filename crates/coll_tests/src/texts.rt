//! Tests of keys and orders of texts that are looked up by themselves, by the places of a table's entries. They are those by ranks.

ghost use Rattle.coll_nodes.specs.NodeNumbers.{AreNumbersOf};

use crate::assertions::assert_same;
use crate::growths::{count_growths, count_no_growths, tell_refused};
use crate::keys::{Compared, KEYS, ORDERS};
use crate::tables::examples::{BASE_TABLE, id, loaded_lines};
use coll_key::{EntryNumbers, KeyFault, compare_texts, key_of_text};
use coll_table::Table;
use std::alloc::Global;
use std::cmp::Ordering;
use std::process::Abort;

// An identifier, and its place in the base table, in all sections. What isn't placed has none, UNDEFINED neither.
const PLACES: &[(&str, Option<u32>)] = &[
    ("BASE", Some(1)),
    ("a", Some(4)),
    ("-", Some(9)),
    ("UNDEFINED", None),
    ("z", None),
    ("PUNCT", None),
];

// Gives the entries of a table their numbers, and again where memory is refused.
fn number<R: Abort + Print>(rt: &R, table: &Table, numbers: &mut EntryNumbers)
    ensures { AreNumbersOf numbers.new table.now.layout }
{
    count_growths(rt);
    let numbered = table.number_entries(numbers);
    count_no_growths(rt);
    match numbered {
        Ok(()) => (),
        Err(_) => {
            tell_refused(rt);
            table.number_entries(numbers).expect(rt, "numbers");
        }
    }
}

fn assert_places(rt: &impl Abort, alloc: Global, table: &Table, numbers: &EntryNumbers)
    requires { AreNumbersOf numbers.now table.now.layout }
{
    for (text, place) in PLACES {
        let id = id(rt, alloc, text);
        assert_same(rt, *text, table.entry_number(numbers, &id), *place);
        drop(id);
    }
}

fn assert_key<R: Abort + Print>(
    rt: &R,
    alloc: Global,
    table: &Table,
    numbers: &EntryNumbers,
    text: &str,
    wanted: &[u64],
)
    requires { AreNumbersOf numbers.now table.now.layout }
{
    count_growths(rt);
    let mut made = key_of_text(alloc, table, numbers, text);
    count_no_growths(rt);
    if let Err(KeyFault::OutOfMemory) = made {
        tell_refused(rt);
        made = key_of_text(alloc, table, numbers, text);
    }
    let key = made.expect(rt, "a key");
    assert_same(rt, text, key.as_slice(), wanted);
    drop(key);
}

fn assert_order<R: Abort + Print>(
    rt: &R,
    alloc: Global,
    table: &Table,
    numbers: &EntryNumbers,
    texts: &Compared,
)
    requires { AreNumbersOf numbers.now table.now.layout }
{
    count_growths(rt);
    let mut order = compare_texts(alloc, table, numbers, texts.0, texts.1);
    count_no_growths(rt);
    if order == Err(KeyFault::OutOfMemory) {
        tell_refused(rt);
        order = compare_texts(alloc, table, numbers, texts.0, texts.1);
    }
    assert_same(rt, "the order", order, Ok(texts.2));
}

fn assert_keys_and_orders<R: Abort + Print>(
    rt: &R,
    alloc: Global,
    table: &Table,
    numbers: &EntryNumbers,
)
    requires { AreNumbersOf numbers.now table.now.layout }
{
    for (text, wanted) in KEYS {
        assert_key(rt, alloc, table, numbers, text, wanted);
    }
    for texts in ORDERS {
        assert_order(rt, alloc, table, numbers, texts);
    }
}

#[test]
fn texts_that_are_looked_up_have_the_keys_by_ranks(rt: HostRuntime) {
    let table = loaded_lines(rt.alloc(), BASE_TABLE).expect(&rt, "a table");
    let mut numbers = EntryNumbers::new(rt.alloc());
    number(&rt, &table, &mut numbers);
    assert_places(&rt, rt.alloc(), &table, &numbers);
    assert_keys_and_orders(&rt, rt.alloc(), &table, &numbers);
    drop(numbers);
    drop(table);
}
