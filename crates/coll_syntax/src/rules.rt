//! How each level of a table is compared.
//!
//! `Rules` holds one to four rules in place, so that it takes no memory; contracts see the list of them. How operands
//! spell them is `rules` of `specs/Rules.antt`.

ghost use Rattle.std.specs.Prelude.{◌≡◌, ◌≤◌, ◌↔◌, IsTrue, length, take, [], ◌∷◌};

use std::marker::Model;

/// Most levels of a table.
pub const MOST_LEVELS: usize = 4;

const _: () = prove!(MOST_LEVELS == 4);

/// How one level is compared (POSIX.1-2017, 7.3.2.3).
#[derive(Clone, Copy, Debug, PartialEq, Eq)]
pub struct Rule {
    /// `backward`: from the end of the text to its start. Otherwise it is `forward`.
    pub backward: bool,
    /// `position`: what is ignored at this level counts by where it stands.
    pub position: bool,
}

/// The rules of a table, one for each level: one to four.
#[derive(Debug)]
pub struct Rules {
    slots: [Rule; MOST_LEVELS],
    levels: usize,
}

// Written out, so that each place that drops rules is one call, with no step for each of them.
impl Drop for Rules {
    #[inline]
    fn drop(self) {
        let Rules {
            slots: _,
            levels: _,
        } = self;
    }
}

impl Model for Rules {
    ghost use Rattle.std.specs.Prelude.{List, take, ◌≤◌};
    ghost use Rattle.coll_syntax.specs.declared.rules.Rule.{Rule};

    ghost Value = { List Rule };

    ghost view = { λ r. take r.levels r.slots };

    ghost invariant = { (λ r. (1 ≤ r.levels) × (r.levels ≤ 4)) };
}

impl Rules {
    /// The rules of a table with one level.
    pub fn one(rule: Rule) -> Rules
        ensures { result ≡ rule ∷ [] }
    {
        Rules {
            slots: [rule; MOST_LEVELS],
            levels: 1,
        }
    }

    /// The rules in the first of these slots, as many as there are levels.
    pub(crate) fn from_slots(slots: [Rule; MOST_LEVELS], levels: usize) -> Rules
        requires some { 1 ≤ levels }
        requires within { levels ≤ 4 }
        ensures { result ≡ take levels slots }
    {
        Rules { slots, levels }
    }

    /// Lends the rules, from the first level on.
    pub fn get(&self) -> &[Rule]
        ensures value { result.now ≡ self.now }
        ensures some { 1 ≤ length self.now }
        ensures within { length self.now ≤ 4 }
    {
        &self.slots[..self.levels]
    }

    /// Whether two tables have the same rules: as many, and the same at each level.
    pub fn is_same(&self, other: &Rules) -> bool
        ensures { IsTrue result ↔ (self.now ≡ other.now) }
    {
        self.get() == other.get()
    }

    /// The same rules once more. It takes no memory.
    pub fn copied(&self) -> Rules
        ensures { result ≡ self.now }
    {
        Rules {
            slots: self.slots,
            levels: self.levels,
        }
    }
}
