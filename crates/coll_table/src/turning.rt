//! Turning a record: a statement is taken back by its nodes' neighbours alone, or done again.
//!
//! An item is done, or taken back, by linking its node anew and exchanging the weights of its entry with those that the item
//! has (`specs/Turning.antt`). Nothing here takes memory, and no step looks at more than the nodes that the items name. `apply`
//! does the items of a new statement by the same `do_items` by which `flip` does them again.

ghost use Rattle.std.specs.Prelude.{◌≡◌, ◌<◌, ◌≤◌, ◌^◌, IsSome, length, not};
ghost use Rattle.coll_table.specs.Record.{AreLoose, CanTurn, added_nodes, item_added, more_steps};
ghost use Rattle.coll_table.specs.Record.{turned_items, turned_layout, without_loose};
ghost use Rattle.coll_nodes.specs.TableLayout.{content_of};
ghost use Rattle.coll_nodes.specs.Moving.{exchanged, moved_rings, weighed_nodes};
ghost use Rattle.coll_table.specs.Turning.{CanDo, CanGoBack, CanGoOn, CanTurnBack, ItemGoes, item_back, item_on};
ghost use Rattle.coll_table.specs.Turning.{item_steps, items_back, items_on, placed_item, placed_items};
ghost use Rattle.coll_table.specs.Turning.{steps_between, steps_of, turned_back, turned_on, with_exchanged};

use crate::{Item, Record, Table};
use coll_lex::ListBuf;
use coll_nodes::Body;
use coll_order::{NodeId, Place};
use coll_syntax::Weight;

impl Table {
    ghost use Rattle.coll_table.specs.Record.{Fits, IsSame, dropped_nodes, turn, turned, without_nodes};

    /// Undoes the record's statement, or does it again where it is undone. It takes no memory.
    ///
    /// The answer is the number of ring steps taken, which is that of the record's items and by which `steps` rises.
    pub fn flip(&mut self, kept: &mut Record) -> u32
        requires fits { Fits self.old kept.old }
        ensures turned { IsSame self.new (turn self.old kept.old) }
        ensures record { kept.new ≡ turned self.old kept.old }
        ensures fits { Fits self.new kept.new }
        ensures back { IsSame (turn self.new kept.new) self.old }
        ensures count { result ≡ steps_of kept.old.items }
        ensures steps { self.new.steps ≡ more_steps self.old.steps result }
    {
        self.lemma_well_formed();
        turn_record(&mut self.body, kept)
    }

    /// Gives up a record: the nodes that an undone one would put in again are dropped. The table stays, and no step is counted.
    pub fn forget(&mut self, kept: Record)
        requires loose { AreLoose self.old.layout (dropped_nodes kept) }
        ensures { self.new ≡ without_nodes self.old (dropped_nodes kept) }
    {
        self.lemma_well_formed();
        if !kept.undone {
            return;
        }
        drop_added(&mut self.body, kept.items.get());
    }
}

// Turns the items of a record, which is then undone where it was in force, and the other way round.
fn turn_record(body: &mut Body, kept: &mut Record) -> u32
    requires goes { CanTurn kept.old.undone body.old.layout kept.old.items }
    requires few { length kept.old.items ≤ 4096 }
    ensures layout { body.new.layout ≡ turned_layout kept.old.undone body.old.layout kept.old.items }
    ensures undone { kept.new.undone ≡ not kept.old.undone }
    ensures items { kept.new.items ≡ turned_items kept.old.undone body.old.layout kept.old.items }
    ensures count { result ≡ steps_of kept.old.items }
    ensures steps { body.new.steps ≡ more_steps body.old.steps result }
{
    let Record { undone, items } = kept;
    let count = turn_items(body, *undone, items.get_mut());
    *undone = !*undone;
    count
}

// Turns items: those in force are taken back, and undone ones are done. The answer is the number of ring steps.
fn turn_items(body: &mut Body, undone: bool, items: &mut [Item]) -> u32
    requires goes { CanTurn undone body.old.layout items.old }
    requires few { length items.old ≤ 4096 }
    ensures layout { body.new.layout ≡ turned_layout undone body.old.layout items.old }
    ensures items { items.new ≡ turned_items undone body.old.layout items.old }
    ensures len { length items.new ≡ length items.old }
    ensures count { result ≡ steps_of items.old }
    ensures steps { body.new.steps ≡ more_steps body.old.steps result }
{
    if undone {
        return do_items(body, items);
    }
    take_items_back(body, items)
}

/// Takes items back, from the last to the first. The answer is the number of ring steps.
pub(crate) fn take_items_back(body: &mut Body, items: &mut [Item]) -> u32
    requires goes { CanTurnBack body.old.layout items.old }
    requires few { length items.old ≤ 4096 }
    ensures layout { body.new.layout ≡ turned_back body.old.layout items.old }
    ensures items { items.new ≡ items_back body.old.layout items.old }
    ensures len { length items.new ≡ length items.old }
    ensures count { result ≡ steps_of items.old }
    ensures steps { body.new.steps ≡ more_steps body.old.steps result }
{
    lemma_steps(body);
    let mut count = 0;
    for at in (0..items.len()).rev() {
        count += take_back(body, &mut items[at]);
    }
    count
}

/// Does items, from the first to the last. The answer is the number of ring steps.
///
/// An item whose node stands somewhere gets the place where it stood; it may say any place before.
pub(crate) fn do_items(body: &mut Body, items: &mut [Item]) -> u32
    requires goes { CanDo body.old.layout items.old }
    requires few { length items.old ≤ 4096 }
    ensures layout { body.new.layout ≡ turned_on body.old.layout items.old }
    ensures items { items.new ≡ items_on body.old.layout (placed_items body.old.layout items.old) }
    ensures len { length items.new ≡ length items.old }
    ensures count { result ≡ steps_of items.old }
    ensures steps { body.new.steps ≡ more_steps body.old.steps result }
{
    lemma_steps(body);
    let mut count = 0;
    for item in items.iter_mut() {
        count += do_item(body, item);
    }
    count
}

// Takes an item back. The answer is the number of ring steps.
fn take_back(body: &mut Body, item: &mut Item) -> u32
    requires goes { CanGoBack body.old.layout item.now }
    ensures layout { body.new.layout ≡ item_back body.old.layout item.entry.now }
    ensures item { item.exit.now ≡ with_exchanged body.old.layout item.entry.now }
    ensures count { result ≡ item_steps item.entry.now }
    ensures steps { body.new.steps ≡ more_steps body.old.steps result }
{
    body.lemma_layout();
    let Item {
        node,
        old,
        new,
        weights,
    } = item;
    let count = move_back(body, *node, *old, *new);
    exchange_weights(body, *node, weights);
    count
}

// Does an item, which gets the place where its node stood. The answer is the number of ring steps.
fn do_item(body: &mut Body, item: &mut Item) -> u32
    requires goes { CanGoOn body.old.layout (placed_item body.old.layout item.now) }
    ensures layout { body.new.layout ≡ item_on body.old.layout item.entry.now }
    ensures item { item.exit.now ≡ with_exchanged body.old.layout (placed_item body.old.layout item.entry.now) }
    ensures count { result ≡ item_steps item.entry.now }
    ensures steps { body.new.steps ≡ more_steps body.old.steps result }
{
    body.lemma_layout();
    let count = move_on(body, item);
    exchange_weights(body, item.node, &mut item.weights);
    count
}

// Puts a node back where it stood, or takes it out where it stood nowhere; one that was put nowhere stays.
fn move_back(body: &mut Body, node: NodeId, had: Option<Place>, gets: Option<Place>) -> u32
    requires goes { ItemGoes gets had body.old.layout node gets had }
    ensures layout { body.new.layout ≡ record body.old.layout { rings = moved_rings gets body.old.layout.rings node had } }
    ensures count { result ≡ steps_between had gets }
    ensures steps { body.new.steps ≡ more_steps body.old.steps result }
{
    lemma_steps(body);
    let Some(_) = gets else {
        return 0;
    };
    match had {
        Some(place) => {
            body.relink(node, place);
            2
        }
        None => {
            body.take_out(node);
            1
        }
    }
}

// Puts the node of an item where it goes; the item gets the place where it stood.
fn move_on(body: &mut Body, item: &mut Item) -> u32
    requires goes { CanGoOn body.old.layout (placed_item body.old.layout item.now) }
    ensures layout { body.new.layout ≡ record body.old.layout { rings = (item_on body.old.layout item.entry.now).rings } }
    ensures item { item.exit.now ≡ placed_item body.old.layout item.entry.now }
    ensures count { result ≡ item_steps item.entry.now }
    ensures steps { body.new.steps ≡ more_steps body.old.steps result }
{
    lemma_steps(body);
    let Some(place) = item.new else {
        return 0;
    };
    match item.old {
        Some(_) => {
            item.old = Some(body.relink(item.node, place));
            2
        }
        None => {
            body.put_in(item.node, place);
            1
        }
    }
}

// Exchanges the weights of a node with these, if any are given.
fn exchange_weights(body: &mut Body, node: NodeId, weights: &mut Option<ListBuf<Weight>>)
    requires made { IsSome (content_of body.old.layout node) }
    ensures nodes { body.new.layout ≡ record body.old.layout { nodes = weighed_nodes node weights.old body.old.layout.nodes } }
    ensures weights { weights.new ≡ exchanged weights.old (content_of body.old.layout node) }
    ensures steps { body.new.steps ≡ body.old.steps }
{
    if let Some(weights) = weights {
        body.exchange(node, weights);
    }
}

// Drops the nodes that items added.
fn drop_added(body: &mut Body, items: &[Item])
    requires loose { AreLoose body.old.layout (added_nodes items.now) }
    ensures layout { body.new.layout ≡ without_loose body.old.layout (added_nodes items.now) }
    ensures steps { body.new.steps ≡ body.old.steps }
{
    for item in items {
        drop_if_added(body, item);
    }
}

// Drops the node of an item, if the item added it.
fn drop_if_added(body: &mut Body, item: &Item)
    requires loose { AreLoose body.old.layout (item_added item.now) }
    ensures layout { body.new.layout ≡ without_loose body.old.layout (item_added item.now) }
    ensures steps { body.new.steps ≡ body.old.steps }
{
    let Some(_) = item.new else {
        return;
    };
    match item.old {
        Some(_) => {}
        None => body.drop_loose(item.node),
    }
}

// What holds of every count of ring steps: it is below 2 to the power 64.
//
// It does nothing; its contract hands the fact to callers.
fn lemma_steps(body: &Body)
    ensures { body.now.steps < 2 ^ 64 }
{
    let _steps = body.steps();
}
