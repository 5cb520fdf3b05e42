//! The weights of one text.
//!
//! A `TextWeights` is what a key is made of where the ranks of a whole table aren't worth their time: the elements of one text, and
//! compiled weights that have rows for this text alone. Row 0 is that of what has no entry, as in `Ranks`; each element that has an
//! entry has a row of its own, in the order of the text, also where an entry comes again.

ghost use Rattle.std.specs.Prelude.{◌≡◌, ◌<◌, ◌≤◌, ◌+◌, ◌++◌, ◌∷◌, ℕ, List, chars, length, map, IfOk, OnOk};
ghost use Rattle.std.specs.List.{flat_map};
ghost use Rattle.coll_nodes.specs.NodeNumbers.{AreNumbersOf};
ghost use Rattle.coll_nodes.specs.TableLayout.{collation};
ghost use Rattle.coll_elements.specs.Elements.{elements_of};
ghost use Rattle.coll_elements.specs.Rank.{known_rank};
ghost use Rattle.coll_ranks.specs.RankLists.{AddsRow};
ghost use Rattle.coll_ranks.specs.Ranks.{compiled_numbers};
ghost use Rattle.coll_ranks.specs.TextWeights.{elements_by_rows, element_row};
ghost use Rattle.coll_ranks.specs.WeightNumbers.{numbers_at};
ghost use Rattle.coll_elements.specs.declared.element_entries.ElementEntry.{ElementEntry};

use crate::compiled_weights::CompiledWeights;
use crate::ranking::compiled_undefined;
use crate::recent_ranks::RecentRanks;
use crate::table_ranks::TableRanks;
use crate::text_elements::TextElement;
use coll_elements::{ElementEntry, split_text};
use coll_lookups::EntryNumbers;
use coll_table::Table;
use std::alloc::{AllocError, Global};
use std::marker::Model;

/// The elements of a text, and what they weigh.
///
/// They are those of the table as it stood when they were made.
#[derive(Drop)]
pub struct TextWeights {
    elements: Vec<TextElement>,
    weights: CompiledWeights,
}

impl Model for TextWeights {
    ghost use Rattle.coll_ranks.specs.TextWeights.{TextWeightsValue};

    ghost Value = { TextWeightsValue };

    ghost view = { λ t. record { elements = t.elements.items; weights = t.weights } };
}

impl TextWeights {
    /// The weights of a text by a table whose entries are numbered, in new memory.
    pub fn new(
        alloc: Global,
        table: &Table,
        numbers: &EntryNumbers,
        text: &str,
    ) -> Result<TextWeights, AllocError>
        requires numbers { AreNumbersOf numbers.now table.now.layout }
        requires few { length (chars text.now) ≤ 65_536 }
        ensures levels { IfOk result (λ made. made.weights.levels ≡ length (collation table.now).rules) }
        ensures numbers { IfOk result (λ made. (level : ℕ) → level < length (collation table.now).rules
            → map (compiled_numbers made.weights level) made.elements
            ≡ map (numbers_at (collation table.now) level) (elements_of (collation table.now) (chars text.now))) }
        ensures count { IfOk result (λ made. length made.elements ≤ length (chars text.now)) }
    {
        let elements = split_text(alloc, table, text)?;
        let ranks = TableRanks::new(table, numbers);
        let mut weights = compiled_undefined(alloc, table, &ranks, elements.len())?;
        let mut recent = RecentRanks::new(alloc, &ranks);
        let text_elements = compiled_elements(alloc, &mut weights, &mut recent, &elements)?;
        Ok(TextWeights {
            elements: text_elements,
            weights,
        })
    }

    /// The elements of the text.
    pub fn elements(&self) -> &[TextElement]
        ensures { result.now ≡ self.now.elements }
    {
        &self.elements
    }

    /// The weights of these elements.
    pub fn weights(&self) -> &CompiledWeights
        ensures { result.now ≡ self.now.weights }
    {
        &self.weights
    }
}

// The elements of a text by their rows, where the weights of each are put behind those of `UNDEFINED`.
fn compiled_elements<'a>(
    alloc: Global,
    weights: &mut CompiledWeights,
    ranks: &mut RecentRanks<'a>,
    elements: &[ElementEntry<'a>],
) -> Result<Vec<TextElement>, AllocError>
    requires { length elements.now ≤ 65_536 }
    ensures text_elements { IfOk result (λ text_elements. text_elements.items ≡ elements_by_rows 1 elements.now) }
    ensures rows { OnOk result (AddsRow weights.old weights.new
        (flat_map (element_row (known_rank ranks.old) weights.old.levels) elements.now)) }
{
    let mut text_elements = Vec::with_capacity(alloc, elements.len())?;
    let mut row = 1;
    for element in elements {
        row = push_element(&mut text_elements, weights, ranks, *element, row)?;
    }
    Ok(text_elements)
}

// Puts an element behind others, and if it has an entry its weights too, which are this row; and gives the next row.
fn push_element<'a>(
    text_elements: &mut Vec<TextElement>,
    weights: &mut CompiledWeights,
    ranks: &mut RecentRanks<'a>,
    element: ElementEntry<'a>,
    row: u32,
) -> Result<u32, AllocError>
    requires { row < 1_000_000 }
    ensures few { IfOk result (λ next. next ≤ row + 1) }
    ensures text_elements { IfOk result (λ next. (later : List ElementEntry) → text_elements.new.items ++ elements_by_rows next later
        ≡ text_elements.old.items ++ elements_by_rows row (element.entry ∷ later)) }
    ensures rows { OnOk result (AddsRow weights.old weights.new (element_row (known_rank ranks.old) weights.old.levels element.entry)) }
    ensures same { ranks.new ≡ ranks.old }
{
    match element {
        ElementEntry::Placed(entry) => {
            weights.push(ranks, entry)?;
            text_elements.push(TextElement::Placed(row))?;
            Ok(row + 1)
        }
        ElementEntry::Absent(c) => {
            text_elements.push(TextElement::Absent(c))?;
            Ok(row)
        }
    }
}
