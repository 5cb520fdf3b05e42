//! The numbers of a text at a level, one after another, each with where it comes from.
//!
//! What is left of a way is a list of items in the direction of the level (`specs/ToldSteps.antt`). Nothing is kept of what was
//! passed, so a way takes no memory.

ghost use Rattle.std.specs.Prelude.{◌≡◌, ◌<◌, ◌≤◌, ◌∷◌, [], Bool, length, IfSome, MatchOption};
ghost use Rattle.coll_key.specs.LevelList.{directed};
ghost use Rattle.coll_explanations.specs.Sources.{sources_at};
ghost use Rattle.coll_explanations.specs.ToldLists.{all_items, told_from};
ghost use Rattle.coll_explanations.specs.ToldSteps.{gap_count};

use crate::weighing::{ElementIds, Weighing};
use coll_syntax::Id;
use std::marker::Model;

/// A number of a level, where it stands, and where it comes from.
#[derive(Clone, Copy)]
pub(crate) struct Step<'a> {
    /// One more than the gaps between it and the number before it.
    pub(crate) position: u64,
    /// The number.
    pub(crate) number: u64,
    /// The identifier that has its rank.
    pub(crate) id: &'a Id,
    /// The element that it comes from.
    pub(crate) element: &'a Id,
}

/// The numbers of a text that are to come.
#[derive(Drop)]
pub(crate) struct LevelNumbers<'a> {
    weighing: &'a Weighing<'a>,
    level: usize,
    backward: bool,
    // The elements behind the one at hand.
    elements: &'a [Id],
    // The element at hand, and what is left of it.
    element: &'a Id,
    left: ElementIds<'a>,
}

impl<'a> Model for LevelNumbers<'a> {
    ghost use Rattle.std.specs.Prelude.{◌≤◌, ◌<◌, List, Option, length, map};
    ghost use Rattle.coll_key.specs.LevelList.{directed};
    ghost use Rattle.coll_explanations.specs.Sources.{Source, source, sources_at};
    ghost use Rattle.coll_explanations.specs.ToldSteps.{directed_sources, sources_left};

    ghost Value = { List (Option Source) };

    ghost view = { λ n. sources_left (directed_sources n.backward (sources_at n.weighing.now n.level))
        (map (source n.weighing.now n.left.added n.element.now) (directed n.backward n.left.ids.now))
        (directed n.backward n.elements.now) };

    ghost invariant = { λ n. (n.level < length n.weighing.now.rules) × (length n.elements.now ≤ 65_536) };
}

impl<'a> LevelNumbers<'a> {
    ghost use Rattle.coll_explanations.specs.ToldSteps.{before_told};

    /// The numbers of a text with these elements.
    pub(crate) fn new(
        weighing: &'a Weighing<'a>,
        level: usize,
        backward: bool,
        elements: &'a [Id],
    ) -> LevelNumbers<'a>
        requires level { level < length weighing.now.rules }
        requires few { length elements.now ≤ 65_536 }
        ensures items { result ≡ directed backward (all_items (sources_at weighing.now level) elements.now) }
        ensures few { length result ≤ 2_097_152 }
    {
        LevelNumbers {
            weighing,
            level,
            backward,
            elements,
            element: weighing.undefined(),
            left: ElementIds { ids: &[], added: 0 },
        }
    }

    /// The next number.
    pub(crate) fn next(&mut self) -> Option<Step<'a>>
        ensures step { (position : Bool) → MatchOption result (told_from position 0 self.old ≡ [])
            (λ step. told_from position 0 self.old ≡ before_told position step (told_from position 0 self.new)) }
        ensures shorter { IfSome result (λ _. length self.new < length self.old) }
    {
        let mut gaps = 0;
        'gaps: loop {
            if let Some((id, later)) = split_towards(self.left.ids, self.backward) {
                self.left.ids = later;
                return Some(Step {
                    position: gaps + 1,
                    number: self.weighing.number(id, self.left.added),
                    id,
                    element: self.element,
                });
            }
            let Some((element, later)) = split_towards(self.elements, self.backward) else {
                return None;
            };
            self.elements = later;
            self.element = element;
            self.left = self.weighing.ids(self.level, element);
            gaps += gap_count(self.left.ids);
        }
    }
}

// How many gaps an element is whose numbers come from these identifiers: one where there are none.
fn gap_count(ids: &[Id]) -> u64
    ensures { result ≡ gap_count ids.now }
{
    if ids.is_empty() { 1 } else { 0 }
}

// The first member of a list in a direction, and the others.
fn split_towards(list: &[Id], backward: bool) -> Option<(&Id, &[Id])>
    ensures { MatchOption result (directed backward list.now ≡ [])
        (λ found. directed backward list.now ≡ found.0.now ∷ directed backward found.1.now) }
{
    match (backward, list) {
        (true, [others @ .., last]) => Some((last, others)),
        (false, [first, others @ ..]) => Some((first, others)),
        _ => None,
    }
}
