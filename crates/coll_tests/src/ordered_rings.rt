//! Rings of nodes: worked examples.
//!
//! There are two rings and two loose nodes at first. A table has calls, and what is to be seen between them. Each call is made as
//! a caller from outside would: what it asks for is asserted first. A ring is shown as the list of its nodes' tags. The growths
//! of the calls are counted, and one that is refused memory is made again (`growths`).

ghost use Rattle.std.specs.Prelude.{IsTrue, ◌↔◌};
ghost use Rattle.coll_order.specs.Layout.{IsPlace};

use crate::assertions::{assert_same, assert_that};
use crate::growths::{count_growths, count_no_growths, tell_refused};
use coll_order::{NodeId, Place, RingId, Rings};
use std::alloc::Global;
use std::process::Abort;

// One of two rings or nodes.
enum Which {
    First,
    Second,
}

use Which::{First, Second};

enum At {
    Head(Which),
    After(Which),
}

use At::{After, Head};

enum Call {
    Link(Which, At),
    // With the place that is to be answered.
    Unlink(Which, At),
    Drop(Which),
    // A ring has nodes with these tags, in this order, and ends there.
    Shows(Which, &'static [usize], At),
    // So many steps were taken.
    Steps(u64),
}

use Call::{Drop, Link, Shows, Steps, Unlink};

// The names that a store gave out.
#[derive(Clone, Copy)]
struct Names {
    first_ring: RingId,
    second_ring: RingId,
    first_node: NodeId,
    second_node: NodeId,
}

impl Names {
    fn ring(&self, which: &Which) -> RingId {
        match which {
            First => self.first_ring,
            Second => self.second_ring,
        }
    }

    fn node(&self, which: &Which) -> NodeId {
        match which {
            First => self.first_node,
            Second => self.second_node,
        }
    }

    fn place(&self, at: &At) -> Place {
        match at {
            Head(ring) => Place::Head(self.ring(ring)),
            After(node) => Place::After(self.node(node)),
        }
    }
}

fn new_ring<R: Abort + Print>(rt: &R, rings: &mut Rings) -> RingId {
    count_growths(rt);
    let ring = rings.new_ring();
    count_no_growths(rt);
    match ring {
        Ok(ring) => ring,
        Err(_) => {
            tell_refused(rt);
            rings.new_ring().expect(rt, "a ring")
        }
    }
}

fn new_node<R: Abort + Print>(rt: &R, rings: &mut Rings, tag: usize) -> NodeId {
    count_growths(rt);
    let node = rings.new_node(tag);
    count_no_growths(rt);
    match node {
        Ok(node) => node,
        Err(_) => {
            tell_refused(rt);
            rings.new_node(tag).expect(rt, "a node")
        }
    }
}

// Makes two rings, and loose nodes with the tags 7 and 8.
fn make<R: Abort + Print>(rt: &R, rings: &mut Rings) -> Names {
    Names {
        first_ring: new_ring(rt, rings),
        second_ring: new_ring(rt, rings),
        first_node: new_node(rt, rings, 7),
        second_node: new_node(rt, rings, 8),
    }
}

fn is_place(rings: &Rings, place: Place) -> bool
    ensures { IsTrue result ↔ IsPlace rings.now.layout place }
{
    match place {
        Place::Head(ring) => rings.is_ring(ring),
        Place::After(node) => rings.is_linked(node),
    }
}

fn link<R: Abort + Print>(rt: &R, rings: &mut Rings, node: NodeId, place: Place) {
    assert_that(rt, "a loose node", rings.is_loose(node));
    assert_that(rt, "a place", is_place(rings, place));
    count_growths(rt);
    rings.link(node, place);
    count_no_growths(rt);
}

fn unlink<R: Abort + Print>(rt: &R, rings: &mut Rings, node: NodeId) -> Place {
    assert_that(rt, "a linked node", rings.is_linked(node));
    count_growths(rt);
    let place = rings.unlink(node);
    count_no_growths(rt);
    place
}

fn drop_node(rt: &impl Abort, rings: &mut Rings, node: NodeId) {
    assert_that(rt, "a loose node", rings.is_loose(node));
    rings.drop_node(node);
    assert_that(rt, "no node any more", !rings.is_loose(node));
}

fn assert_ring(rt: &impl Abort, rings: &Rings, ring: RingId, tags: &[usize], end: Place) {
    assert_that(rt, "a ring", rings.is_ring(ring));
    assert_same(rt, "its end", rings.end(ring), end);
    let mut here = rings.first(ring);
    for tag in tags {
        let node = here.expect(rt, "a node");
        assert_that(rt, "a linked node", rings.is_linked(node));
        rings.lemma_layout();
        assert_same(rt, "a tag", rings.tag(node), *tag);
        here = rings.next(node);
    }
    assert_same(rt, "after the last", here, None);
}

fn perform<R: Abort + Print>(rt: &R, rings: &mut Rings, names: &Names, call: &Call) {
    match call {
        Link(node, at) => link(rt, rings, names.node(node), names.place(at)),
        Unlink(node, at) => {
            let place = unlink(rt, rings, names.node(node));
            assert_same(rt, "the place", place, names.place(at));
        }
        Drop(node) => drop_node(rt, rings, names.node(node)),
        Shows(ring, tags, end) => {
            assert_ring(rt, rings, names.ring(ring), tags, names.place(end));
        }
        Steps(count) => assert_same(rt, "the steps", rings.steps(), *count),
    }
}

fn perform_all<R: Abort + Print>(rt: &R, rings: &mut Rings, names: &Names, calls: &[Call]) {
    for call in calls {
        perform(rt, rings, names, call);
    }
}

// A node goes from the head behind the other.
const BEHIND_THE_OTHER: &[Call] = &[
    Link(First, Head(First)),
    Link(Second, After(First)),
    Shows(First, &[7, 8], After(Second)),
    Unlink(First, Head(First)),
    Link(First, After(Second)),
    Shows(First, &[8, 7], After(First)),
    Steps(4),
];

// A node goes into another ring, and is dropped.
const INTO_ANOTHER_RING: &[Call] = &[
    Link(First, Head(First)),
    Link(Second, Head(Second)),
    Unlink(First, Head(First)),
    Shows(First, &[], Head(First)),
    Link(First, After(Second)),
    Shows(Second, &[8, 7], After(First)),
    Unlink(First, After(Second)),
    Drop(First),
    Shows(Second, &[8], After(Second)),
    Steps(5),
];

#[test]
fn a_node_goes_behind_another_and_into_another_ring(rt: HostRuntime) {
    for calls in &[BEHIND_THE_OTHER, INTO_ANOTHER_RING] {
        let mut rings = Rings::new(rt.alloc());
        let names = make(&rt, &mut rings);
        perform_all(&rt, &mut rings, &names, calls);
        drop(rings);
    }
}

const LINKED: &[Call] = &[Link(First, Head(First)), Link(Second, After(First))];

const LAST_DROPPED: &[Call] = &[
    Unlink(Second, After(First)),
    Drop(Second),
    Shows(First, &[7], After(First)),
];

const STILL_LINKED: &[Call] = &[Shows(First, &[7, 8], After(Second))];

fn copy_of<R: Abort + Print>(rt: &R, alloc: Global, source: &Rings) -> Rings {
    count_growths(rt);
    let copy = source.try_copy(alloc);
    count_no_growths(rt);
    match copy {
        Ok(copy) => copy,
        Err(_) => {
            tell_refused(rt);
            source.try_copy(alloc).expect(rt, "a copy")
        }
    }
}

#[test]
fn a_copy_and_its_source_change_apart(rt: HostRuntime) {
    let mut source = Rings::new(rt.alloc());
    let names = make(&rt, &mut source);
    perform_all(&rt, &mut source, &names, LINKED);
    let mut copy = copy_of(&rt, rt.alloc(), &source);
    let other = copy.new_ring().expect(&rt, "a ring");
    perform_all(&rt, &mut source, &names, LAST_DROPPED);
    perform_all(&rt, &mut copy, &names, STILL_LINKED);
    assert_that(&rt, "no ring of the source", !source.is_ring(other));
    drop(source);
    drop(copy);
}
