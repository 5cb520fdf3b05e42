//! Where the numbers of an element come from.
//!
//! Each number of an element is that of an identifier's rank: of what its weight names, of the element itself, or of `UNDEFINED`, where
//! a code point is added (`specs/Sources.antt`). So an element's numbers at a level are told by a list of identifiers.

ghost use Rattle.std.specs.Prelude.{◌≡◌, ◌<◌, ◌≤◌, ℕ, length, map, false, option_copied, unwrap_or};
ghost use Rattle.coll_syntax.specs.declared.identifiers.Id.{Id};
ghost use Rattle.coll_syntax.specs.declared.identifiers.Id.TheVariants.{Undefined};
ghost use Rattle.coll_syntax.specs.declared.weights.Weight.TheVariants.{Ignore};
ghost use Rattle.coll_nodes.specs.Table.{Collation, is_placed};
ghost use Rattle.coll_ranks.specs.WeightNumbers.{code_point};
ghost use Rattle.coll_explanations.specs.Sources.{source, weight_sources};

use crate::rank_looks::RankLooks;
use coll_key::RANK_STEP;
use coll_syntax::{Id, Weight};
use coll_table::Table;
use std::marker::Model;
use std::slice;

/// The identifiers that the numbers of an element come from, and what is added to the number of each.
#[derive(Clone, Copy)]
pub(crate) struct ElementIds<'a> {
    pub(crate) ids: &'a [Id],
    pub(crate) added: u32,
}

/// A table with what tells its ranks, by which elements are weighed.
#[derive(Drop)]
pub(crate) struct Weighing<'a> {
    table: &'a Table,
    looks: &'a RankLooks<'a>,
    // The identifier `UNDEFINED`.
    undefined: &'a Id,
}

impl<'a> Model for Weighing<'a> {
    ghost use Rattle.std.specs.Prelude.{◌≡◌};
    ghost use Rattle.coll_syntax.specs.declared.identifiers.Id.TheVariants.{Undefined};
    ghost use Rattle.coll_nodes.specs.Table.{Collation};
    ghost use Rattle.coll_nodes.specs.TableLayout.{collation};
    ghost use Rattle.coll_nodes.specs.WellFormed.{IsWellFormed};
    ghost use Rattle.coll_explanations.specs.RankLooks.{Serves};

    ghost Value = { Collation };

    ghost view = { λ w. collation w.table.now };

    ghost invariant = { λ w. Serves w.looks.now w.table.now × IsWellFormed (collation w.table.now)
        × (w.undefined.now ≡ Undefined) };
}

impl<'a> Weighing<'a> {
    ghost use Rattle.coll_nodes.specs.TableLayout.{collation};
    ghost use Rattle.coll_elements.specs.Rank.{known_rank};
    ghost use Rattle.coll_ranks.specs.Ranks.{added_to};
    ghost use Rattle.coll_explanations.specs.RankLooks.{Serves};
    ghost use Rattle.coll_explanations.specs.Sources.{sources_at};

    /// A table with what tells its ranks, and the identifier `UNDEFINED`.
    pub(crate) fn new(table: &'a Table, looks: &'a RankLooks<'a>, undefined: &'a Id) -> Weighing<'a>
        requires looks { Serves looks.now table.now }
        requires undefined { undefined.now ≡ Undefined }
        ensures { result ≡ collation table.now }
    {
        table.lemma_well_formed();
        Weighing {
            table,
            looks,
            undefined,
        }
    }

    /// Lends the identifier `UNDEFINED`; and no weight of a table has more than 32 identifiers.
    pub(crate) fn undefined(&self) -> &'a Id
        ensures undefined { result.now ≡ Undefined }
        ensures few { (level : ℕ) (element : Id) → length (sources_at self.now level element) ≤ 32 }
    {
        self.undefined
    }

    /// The number of an identifier's rank, with what is added to it.
    pub(crate) fn number(&self, id: &Id, added: u32) -> u64
        ensures { result ≡ added_to added (known_rank self.now id.now) }
    {
        let rank = self.looks.known_rank(self.table, id);
        u64::from(rank) * RANK_STEP + u64::from(added)
    }

    /// The identifiers that the numbers of an element come from at a level.
    pub(crate) fn ids(&self, level: usize, element: &'a Id) -> ElementIds<'a>
        requires { level < length self.now.rules }
        ensures { map (source self.now result.added element.now) result.ids.now ≡ sources_at self.now level element.now }
    {
        match self.table.entry(element) {
            Some(entry) => ids_of(entry.weights().get(level), element, 0),
            None => self.ids_of_undefined(level, element),
        }
    }

    // The same of an element without an entry, which has the weights of `UNDEFINED`.
    fn ids_of_undefined(&self, level: usize, element: &'a Id) -> ElementIds<'a>
        requires level { level < length self.now.rules }
        requires absent { is_placed self.now element.now ≡ false }
        ensures { map (source self.now result.added element.now) result.ids.now ≡ sources_at self.now level element.now }
    {
        let added = code_point(element);
        match self.table.entry(self.undefined) {
            Some(entry) => ids_of(entry.weights().get(level), self.undefined, added),
            None => ElementIds {
                ids: slice::from_ref(self.undefined),
                added,
            },
        }
    }
}

// The identifiers of a weight, if there is one, where `own` is what stands for itself, with this added.
fn ids_of<'a>(weight: Option<&'a Weight>, own: &'a Id, added: u32) -> ElementIds<'a>
    ensures { (table : Collation) (element : Id) → map (source table result.added element) result.ids.now
        ≡ weight_sources table element (source table added element own.now) (unwrap_or (option_copied weight.entry) Ignore) }
{
    match weight {
        Some(Weight::Own) => ElementIds {
            ids: slice::from_ref(own),
            added,
        },
        Some(Weight::Names(ids)) => ElementIds {
            ids: ids.get(),
            added: 0,
        },
        Some(Weight::Ignore) | None => ElementIds { ids: &[], added: 0 },
    }
}

// The code point of a character, and 0 for what is none.
fn code_point(id: &Id) -> u32
    ensures { result ≡ code_point id.now }
{
    match id {
        Id::Char(c) => u32::from(*c),
        Id::Named(_) | Id::Undefined => 0,
    }
}
