//! The numbers of a text at a forward level, one after another.
//!
//! A comparison goes along two texts at once, and keeps nothing of them: what is left of a way is a list of items
//! (`specs/ForwardNumbers.antt`).

ghost use Rattle.std.specs.Prelude.{◌≡◌, ◌<◌, ◌≤◌, [], Bool, chars, length, IfSome, MatchOption};
ghost use Rattle.coll_key.specs.ForwardNumbers.{gap_count};
ghost use Rattle.coll_key.specs.LevelList.{items, listed};
ghost use Rattle.coll_ranks.specs.Ranks.{elements_by_ranks, compiled_numbers};

use crate::levels::number_of;
use coll_ranks::{ElementWeight, Ranks};
use std::marker::Model;

/// A number of a level, and where it stands.
#[derive(Clone, Copy)]
pub(crate) struct Step {
    /// One more than the gaps between it and the number before it.
    pub(crate) position: u64,
    /// The number.
    pub(crate) number: u64,
}

/// The numbers of a text that are to come.
#[derive(Drop)]
pub(crate) struct ForwardNumbers<'a> {
    ranks: &'a Ranks,
    level: usize,
    // The text behind the element at hand.
    text: &'a str,
    // What is left of the element at hand.
    weight: ElementWeight<'a>,
}

impl<'a> Model for ForwardNumbers<'a> {
    ghost use Rattle.std.specs.Prelude.{◌≤◌, ◌<◌, List, Option, ℕ, chars, length, map};
    ghost use Rattle.coll_key.specs.ForwardNumbers.{items_left};
    ghost use Rattle.coll_ranks.specs.Ranks.{added_to, elements_by_ranks, compiled_numbers};

    ghost Value = { List (Option ℕ) };

    ghost view = { λ n. items_left (compiled_numbers n.ranks.now.compiled n.level) (map (added_to n.weight.added) n.weight.ranks.now)
        (elements_by_ranks n.ranks.now (chars n.text.now)) };

    ghost invariant = { λ n. (n.level < n.ranks.now.compiled.levels)
        × (length (elements_by_ranks n.ranks.now (chars n.text.now)) ≤ 65_536) };
}

impl<'a> ForwardNumbers<'a> {
    ghost use Rattle.coll_key.specs.ForwardNumbers.{before};

    /// The numbers of a text.
    #[inline(always)]
    pub(crate) fn new(ranks: &'a Ranks, level: usize, text: &'a str) -> ForwardNumbers<'a>
        requires level { level < ranks.now.compiled.levels }
        requires few { length (elements_by_ranks ranks.now (chars text.now)) ≤ 65_536 }
        ensures { result ≡ items (compiled_numbers ranks.now.compiled level) (elements_by_ranks ranks.now (chars text.now)) }
    {
        ForwardNumbers {
            ranks,
            level,
            text,
            weight: ElementWeight {
                ranks: &[],
                added: 0,
            },
        }
    }

    /// The next number, with its position.
    #[inline(always)]
    pub(crate) fn next(&mut self) -> Option<Step>
        ensures step { (position : Bool) → MatchOption result (listed position 0 self.old ≡ [])
            (λ step. listed position 0 self.old ≡ before position step (listed position 0 self.new)) }
        ensures shorter { IfSome result (λ _. length self.new < length self.old) }
    {
        let mut gaps = 0;
        'gaps: loop {
            if let Some((rank, later)) = self.weight.ranks.split_first() {
                self.weight.ranks = later;
                let number = number_of(*rank, self.weight.added);
                return Some(Step {
                    position: gaps + 1,
                    number,
                });
            }
            let Some(first) = self.ranks.first_element(self.text) else {
                return None;
            };
            self.text = first.rest;
            self.weight = self.ranks.weights().weight(first.element, self.level);
            gaps += gap_count(self.weight.ranks);
        }
    }
}

// How many gaps an element with these ranks is: one where it has none.
fn gap_count(ranks: &[u32]) -> u64
    ensures { result ≡ gap_count ranks.now }
{
    if ranks.is_empty() { 1 } else { 0 }
}
