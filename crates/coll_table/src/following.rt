//! Places of entries that follow a record.
//!
//! Whoever keeps the places of a table's entries beside it has them follow a record that was turned, so that they need not be given
//! anew: each item leaves one place and takes another, and the numbers of all others between change by one, which
//! `EntryNumbers` tells without a write to them. What is looked at are the items, and for each the number of the node before its
//! place: no ring is walked. Where that isn't enough, the places are given up: a section moved, an entry is now the first of
//! its section, or no more moves can be kept. Where giving them anew takes less, nothing is looked at.
//!
//! The simple form is `number_entries`; both have the clause `AreNumbersOf`.

ghost use Rattle.std.specs.Prelude.{◌≡◌, ◌≢◌, ◌<◌, ◌≤◌, ◌+◌, ◌-◌, ◌^◌, ℕ, List, Some, suc, min, true, if◌then◌else◌, IsSome, length};
ghost use Rattle.coll_order.specs.Lists.{same_node};
ghost use Rattle.coll_order.specs.declared.places.NodeId.{NodeId};
ghost use Rattle.coll_lookups.specs.EntryNumbers.{lowered, moved, number_at};
ghost use Rattle.coll_nodes.specs.NodeNumbers.{entry_nodes};
ghost use Rattle.coll_nodes.specs.SoundLayouts.{IsSoundLayout};
ghost use Rattle.coll_nodes.specs.TableLayout.{content_of};
ghost use Rattle.coll_table.specs.Following.{AreNumbered, GoesAmong, ItemGoesAmong, LeavesFrom, NodeGoes, TakesTo};
ghost use Rattle.coll_table.specs.Turning.{CanTurnBack, CanTurnOn, turned_back, turned_on};

use crate::{Item, Record, Table};
use coll_lookups::EntryNumbers;
use coll_nodes::{Body, Content};
use coll_order::{NodeId, Place};

// A place behind all others, which nobody leaves or takes.
const NOWHERE: u32 = u32::MAX;

// For so many entries of the table one character may be looked up by way of one move that the places have followed: giving them
// anew takes some four times as long.
const ENTRIES_A_MOVE: usize = 8;

impl Table {
    ghost use Rattle.coll_nodes.specs.NodeNumbers.{AreNumbersOf};
    ghost use Rattle.coll_table.specs.Record.{Fits, turn};

    /// By way of how many moves places may be told that a look for so many characters asks for. Where there are more, giving the
    /// places anew takes less: it is seen in time alone, and no clause says it.
    pub fn most_moves(&self, characters: usize) -> usize {
        self.len() / ENTRIES_A_MOVE / characters.max(1)
    }

    /// Has the places of entries that were those of the table before a record was turned follow it, and answers whether they are then
    /// those of the table as it stands. It takes no memory, and walks no ring. It looks at nothing where places would be told by way of
    /// more than so many moves, and where the items would go by more moves than there are entries; so it takes less than giving the
    /// places anew.
    pub fn follow(&self, kept: &Record, numbers: &mut EntryNumbers, most_moves: usize) -> bool
        requires fits { Fits self.now kept.now }
        requires numbers { AreNumbersOf numbers.old (turn self.now kept.now).layout }
        ensures { result ≡ true → AreNumbersOf numbers.new self.now.layout }
    {
        let items = kept.items.get();
        if !serves(numbers, items.len(), most_moves, self.len()) {
            return false;
        }
        self.lemma_well_formed();
        if kept.undone {
            return follow_undone(&self.body, items, numbers);
        }
        follow_done(&self.body, items, numbers)
    }
}

// Whether places that follow so many items then serve looks that may go by so many moves, and take less than giving those of so many
// entries anew.
fn serves(numbers: &EntryNumbers, items: usize, most_moves: usize, entries: usize) -> bool {
    let moves = numbers.moves().saturating_add(items);
    numbers.has_room(items) && moves <= most_moves && moves.saturating_mul(items) <= entries
}

// Has places follow items that were done, from the first to the last, as far as that goes.
fn follow_done(body: &Body, items: &[Item], numbers: &mut EntryNumbers) -> bool
    requires goes { CanTurnBack body.now.layout items.now }
    requires sound { IsSoundLayout body.now.layout }
    requires few { length items.now ≤ 4096 }
    requires numbers { AreNumbered numbers.old (entry_nodes (turned_back body.now.layout items.now)) 1_000_000 }
    ensures { result ≡ true → AreNumbered numbers.new (entry_nodes body.now.layout) 1_004_096 }
{
    'items: for item in items {
        if !follow_item(body, numbers, item, item.old, item.new) {
            return false;
        }
    }
    true
}

// Has places follow items that were taken back, from the last to the first, as far as that goes.
fn follow_undone(body: &Body, items: &[Item], numbers: &mut EntryNumbers) -> bool
    requires goes { CanTurnOn body.now.layout items.now }
    requires sound { IsSoundLayout body.now.layout }
    requires few { length items.now ≤ 4096 }
    requires numbers { AreNumbered numbers.old (entry_nodes (turned_on body.now.layout items.now)) 1_000_000 }
    ensures { result ≡ true → AreNumbered numbers.new (entry_nodes body.now.layout) 1_004_096 }
{
    'items: for at in (0..items.len()).rev() {
        let item = &items[at];
        if !follow_item(body, numbers, item, item.new, item.old) {
            return false;
        }
    }
    true
}

// Has places follow an item, whose node stood at one place and stands at another.
fn follow_item(
    body: &Body,
    numbers: &mut EntryNumbers,
    item: &Item,
    had: Option<Place>,
    has: Option<Place>,
) -> bool
    requires made { IsSome (content_of body.now.layout item.now.node) }
    ensures { result ≡ true → (old new : List NodeId) (most : ℕ) → most < 2_000_000
        → ItemGoesAmong item.now.new (content_of body.now.layout item.now.node) had has item.now.node old new
        → AreNumbered numbers.old old most → AreNumbered numbers.new new (suc most) }
{
    let Some(_) = item.new else {
        return true;
    };
    follow_node(body, numbers, item.node, had, has)
}

// Has places follow a node, which stood at one place and stands at another.
fn follow_node(
    body: &Body,
    numbers: &mut EntryNumbers,
    node: NodeId,
    had: Option<Place>,
    has: Option<Place>,
) -> bool
    requires made { IsSome (content_of body.now.layout node) }
    ensures { result ≡ true → (old new : List NodeId) (most : ℕ) → most < 2_000_000
        → NodeGoes (content_of body.now.layout node) had has node old new
        → AreNumbered numbers.old old most → AreNumbered numbers.new new (suc most) }
{
    match body.content(node) {
        Content::Declared(_) => true,
        Content::Begun { .. } => false,
        Content::Placed(_) => follow_entry(numbers, node, had, has),
    }
}

// Has places follow the node of an entry, which stood at one place and stands at another.
fn follow_entry(
    numbers: &mut EntryNumbers,
    node: NodeId,
    had: Option<Place>,
    has: Option<Place>,
) -> bool
    ensures { result ≡ true → (old rest new : List NodeId) (most : ℕ) → most < 2_000_000 → GoesAmong had has node old rest new
        → AreNumbered numbers.old old most → AreNumbered numbers.new new (suc most) }
{
    let from = place_left(numbers, node, had);
    match has {
        None => numbers.follow(node, from, NOWHERE),
        Some(place) => follow_to(numbers, node, from, place),
    }
}

// Has places follow the node of an entry, which left one place and stands at another.
fn follow_to(numbers: &mut EntryNumbers, node: NodeId, from: u32, place: Place) -> bool
    ensures { result ≡ true → (to : ℕ) × TakesTo (Some place) (number_at numbers.old) from to
        × ((other : NodeId) → number_at numbers.new other ≡ (if same_node other node then to else moved from to (number_at numbers.old other))) }
{
    match place {
        Place::Head(_) => false,
        Place::After(other) => {
            let to = place_behind(from, numbers.get(other));
            numbers.follow(node, from, to)
        }
    }
}

// The place that a node leaves.
fn place_left(numbers: &EntryNumbers, node: NodeId, had: Option<Place>) -> u32
    ensures { LeavesFrom had (number_at numbers.now node) result }
{
    match had {
        Some(_) => numbers.get(node),
        None => NOWHERE,
    }
}

// The place behind another, once a place was left.
fn place_behind(from: u32, other: u32) -> u32
    ensures place { result ≡ min (lowered from other + 1) (2 ^ 32 - 1) }
    ensures some { 1 ≤ result }
{
    if from < other {
        return other;
    }
    other.saturating_add(1)
}
