//! How many nodes stand in rings, by what they are.

ghost use Rattle.std.specs.Prelude.{◌≡◌};
ghost use Rattle.coll_nodes.specs.Counting.{no_counts, counts_with, HasRoomFor, HasOneOf};

use crate::contents::Content;

/// How many nodes stand in rings, by what they are.
#[derive(Clone, Copy)]
pub(crate) struct Counts {
    /// The number of declarations.
    pub(crate) declarations: usize,
    /// The number of sections.
    pub(crate) sections: usize,
    /// The number of entries, in all sections together.
    pub(crate) entries: usize,
}

impl Counts {
    /// Nothing.
    pub(crate) fn new() -> Counts
        ensures { result ≡ no_counts }
    {
        Counts {
            declarations: 0,
            sections: 0,
            entries: 0,
        }
    }

    /// With one node more.
    pub(crate) fn with(self, node: &Content) -> Counts
        requires room { HasRoomFor node.now self }
        ensures { result ≡ counts_with node.now self }
    {
        let mut counts = self;
        let Counts {
            declarations,
            sections,
            entries,
        } = &mut counts;
        match node {
            Content::Declared(_) => *declarations += 1,
            Content::Begun { .. } => *sections += 1,
            Content::Placed(_) => *entries += 1,
        }
        counts
    }

    /// With one node less.
    pub(crate) fn without(self, node: &Content) -> Counts
        requires one { HasOneOf node.now self }
        ensures { self ≡ counts_with node.now result }
    {
        let mut counts = self;
        match node {
            Content::Declared(_) => counts.declarations -= 1,
            Content::Begun { .. } => counts.sections -= 1,
            Content::Placed(_) => counts.entries -= 1,
        }
        counts
    }
}
