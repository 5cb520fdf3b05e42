//! Tests of `coll_key`: what no run of the program shows. Those of `tests/runs/` have the keys of texts, their order, and the
//! compiled listings.

ghost use Rattle.coll_ranks.specs.Ranks.{AreRanksOf};
ghost use Rattle.coll_nodes.specs.TableLayout.{collation};

use crate::assertions::assert_same;
use crate::growths::{count_growths, count_no_growths, tell_refused};
use crate::tables::examples::{
    BASE_TABLE, BOTH_FORWARD, FRENCH_TABLE, SECOND_NAMES, id, loaded_lines,
};
use coll_key::{KeyFault, Ranks, compare, key};
use coll_table::Table;
use std::alloc::Global;
use std::cmp::Ordering;
use std::process::Abort;

// The ranks of a table, which are made again where memory is refused.
fn ranks_of<R: Abort + Print>(rt: &R, alloc: Global, table: &Table) -> Ranks
    ensures { AreRanksOf result (collation table.now) }
{
    count_growths(rt);
    let ranks = Ranks::new(alloc, table);
    count_no_growths(rt);
    match ranks {
        Ok(ranks) => ranks,
        Err(_) => {
            tell_refused(rt);
            Ranks::new(alloc, table).expect(rt, "the ranks")
        }
    }
}

/// Two texts, and their order.
pub(crate) type Compared = (&'static str, &'static str, Ordering);

fn assert_order<R: Abort + Print>(
    rt: &R,
    alloc: Global,
    table: &Table,
    ranks: &Ranks,
    texts: &Compared,
)
    requires { AreRanksOf ranks.now (collation table.now) }
{
    count_growths(rt);
    let mut order = compare(alloc, table, ranks, texts.0, texts.1);
    count_no_growths(rt);
    if order == Err(KeyFault::OutOfMemory) {
        tell_refused(rt);
        order = compare(alloc, table, ranks, texts.0, texts.1);
    }
    assert_same(rt, "the order", order, Ok(texts.2));
}

// Asserts the order of two words by a table. The growths of the comparison alone are counted.
fn assert_order_by<R: Abort + Print>(rt: &R, alloc: Global, table: &Table, texts: &Compared) {
    let ranks = Ranks::new(alloc, table).expect(rt, "the ranks");
    assert_order(rt, alloc, table, &ranks, texts);
    drop(ranks);
}

// `checkers/refuse_growths.py` finds no growth in it that it could refuse.
#[test]
fn a_comparison_at_forward_levels_takes_no_memory(rt: HostRuntime) {
    let table = BOTH_FORWARD.loaded(rt.alloc(), FRENCH_TABLE);
    let table = table.expect(&rt, "a table");
    assert_order_by(&rt, rt.alloc(), &table, &("coté", "côte", Ordering::Less));
    drop(table);
}

// In this one it finds some.
#[test]
fn a_comparison_at_a_backward_level_takes_memory(rt: HostRuntime) {
    let table = loaded_lines(rt.alloc(), FRENCH_TABLE).expect(&rt, "a table");
    assert_order_by(
        &rt,
        rt.alloc(),
        &table,
        &("coté", "côte", Ordering::Greater),
    );
    drop(table);
}

/// Texts, and their keys by the base table, with a zero behind each level. A rank counts 2,097,152.
pub(crate) const KEYS: &[(&str, &[u64])] = &[
    (
        "ab",
        &[
            8_388_608, 12_582_912, 0, 2_097_152, 2_097_152, 0, 4_194_304, 4_194_304, 0, 0,
        ],
    ),
    // The sign is left out but at the last level, where it stands behind one element that has no weight there.
    (
        "a-b",
        &[
            8_388_608, 12_582_912, 0, 2_097_152, 2_097_152, 0, 4_194_304, 4_194_304, 0, 2,
            18_874_368, 0,
        ],
    ),
];

/// Texts, and their orders by the base table.
pub(crate) const ORDERS: &[Compared] = &[
    ("a", "A", Ordering::Less),
    ("ab", "a-b", Ordering::Less),
    ("a", "a", Ordering::Equal),
];

// An identifier, and its rank in the base table: its place in all sections.
const RANKS: &[(&str, Option<u32>)] = &[
    ("BASE", Some(1)),
    ("a", Some(4)),
    ("-", Some(9)),
    ("UNDEFINED", Some(10)),
    ("z", None),
    ("PUNCT", None),
];

// An identifier, and its rank in the table of second names: a symbol has one under its own name alone.
const OWN_RANKS: &[(&str, Option<u32>)] = &[
    ("MIN", Some(1)),
    ("ch", Some(3)),
    ("LOW", None),
    ("LATE", None),
];

fn assert_ranks(rt: &impl Abort, alloc: Global, ranks: &Ranks, wanted: &[(&str, Option<u32>)]) {
    for (text, rank) in wanted {
        let id = id(rt, alloc, text);
        assert_same(rt, *text, ranks.rank(&id), *rank);
        drop(id);
    }
}

fn assert_key<R: Abort + Print>(
    rt: &R,
    alloc: Global,
    table: &Table,
    ranks: &Ranks,
    text: &str,
    numbers: &[u64],
)
    requires { AreRanksOf ranks.now (collation table.now) }
{
    count_growths(rt);
    let mut made = key(alloc, table, ranks, text);
    count_no_growths(rt);
    if let Err(KeyFault::OutOfMemory) = made {
        tell_refused(rt);
        made = key(alloc, table, ranks, text);
    }
    let key = made.expect(rt, "a key");
    assert_same(rt, text, key.as_slice(), numbers);
    drop(key);
}

fn assert_keys_and_orders<R: Abort + Print>(rt: &R, alloc: Global, table: &Table, ranks: &Ranks)
    requires { AreRanksOf ranks.now (collation table.now) }
{
    for (text, numbers) in KEYS {
        assert_key(rt, alloc, table, ranks, text, numbers);
    }
    for texts in ORDERS {
        assert_order(rt, alloc, table, ranks, texts);
    }
}

#[test]
fn keys_and_orders_are_those_of_the_weights(rt: HostRuntime) {
    let table = loaded_lines(rt.alloc(), BASE_TABLE).expect(&rt, "a table");
    let ranks = ranks_of(&rt, rt.alloc(), &table);
    assert_ranks(&rt, rt.alloc(), &ranks, RANKS);
    assert_keys_and_orders(&rt, rt.alloc(), &table, &ranks);
    drop(ranks);
    drop(table);
}

#[test]
fn a_second_name_has_no_rank(rt: HostRuntime) {
    let table = loaded_lines(rt.alloc(), SECOND_NAMES).expect(&rt, "a table");
    let ranks = Ranks::new(rt.alloc(), &table).expect(&rt, "the ranks");
    assert_ranks(&rt, rt.alloc(), &ranks, OWN_RANKS);
    drop(ranks);
    drop(table);
}
