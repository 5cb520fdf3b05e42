//! The weights of an entry, by what is placed and by own names.
//!
//! Weights over a table that is tailored and those over none go by the same rules (`LookUp`); what is handed out for those over none
//! holds nothing of a table. Where all that is placed is known by what was found of it, each identifier is looked up once.
//!
//! What a weight names that is placed nowhere is left out, which is told (`UnplacedInWeight`); a weight of which nothing is placed
//! becomes IGNORE (`mended`).

use crate::meanings::Meanings;
use crate::source_ids::SourceIds;
use crate::table_meanings::TableMeanings;
use coll_lex::ListBuf;
use coll_lookups::IdSet;
use coll_source_lines::{Adjustment, Lost, Report, SourceFault, SourcePlace};
use coll_source_names::{DeclaredNames, Found, NameGuess, Placed};
use coll_syntax::{Id, MOST_WEIGHT_IDS, OrderLine, Weight};
use coll_table::Table;
use std::alloc::{AllocError, Global};

/// What weights are looked up in.
#[derive(Clone, Copy)]
pub struct WeightLookUp<'a> {
    /// What names mean.
    pub meanings: &'a Meanings,
    /// What is placed.
    pub placed: &'a IdSet,
    /// How many weights an entry may have.
    pub levels: usize,
    /// Where weights take memory.
    pub alloc: Global,
}

impl WeightLookUp<'_> {
    /// An order line whose weights name what is placed, and no more than there are levels.
    pub fn line(
        &self,
        place: SourcePlace,
        line: OrderLine,
        report: &mut Report,
    ) -> Result<OrderLine, SourceFault> {
        self.look_up().line(place, line, report)
    }

    /// Whether all that weights name is placed, and stands for nothing else.
    pub fn all_stay(&self, weights: &[Weight]) -> bool {
        self.look_up().all_stay(weights)
    }

    // The same, over no table.
    fn look_up(&self) -> LookUp<InSet<'_, IdSet>> {
        LookUp {
            standing: InSet {
                names: self.meanings.names(),
                table: None,
                placed: self.placed,
            },
            levels: self.levels,
            alloc: self.alloc,
        }
    }
}

/// What weights are looked up in, over a table that is tailored.
#[derive(Clone, Copy)]
pub struct TailoredLookUp<'a, 't> {
    /// What names mean.
    pub meanings: &'a TableMeanings<'t>,
    /// What is placed beside what the table places.
    pub placed: &'a SourceIds,
    /// How many weights an entry may have.
    pub levels: usize,
    /// Where weights take memory.
    pub alloc: Global,
}

impl TailoredLookUp<'_, '_> {
    /// An order line whose weights name what is placed, and no more than there are levels.
    pub fn line(
        &self,
        place: SourcePlace,
        line: OrderLine,
        report: &mut Report,
    ) -> Result<OrderLine, SourceFault> {
        let look_up = self.look_up();
        if look_up.line_stays(&line) {
            return Ok(line);
        }
        look_up.line(place, line, report)
    }

    /// Whether an identifier is placed.
    pub fn is_placed(&self, id: &Id) -> bool {
        self.look_up().standing.is_placed(id)
    }

    /// Whether all that weights name is placed, and stands for nothing else.
    pub fn all_stay(&self, weights: &[Weight]) -> bool {
        self.look_up().all_stay(weights)
    }

    // The same, over the table.
    fn look_up(&self) -> LookUp<InSet<'_, SourceIds>> {
        LookUp {
            standing: InSet {
                names: self.meanings.names(),
                table: Some(self.meanings.table()),
                placed: self.placed,
            },
            levels: self.levels,
            alloc: self.alloc,
        }
    }
}

/// What weights are looked up in, where all that is placed is known by what was found of it.
#[derive(Clone, Copy)]
pub struct PlacedLookUp<'a> {
    /// What names mean.
    pub meanings: &'a Meanings,
    /// What is placed.
    pub placed: &'a Placed,
    /// How many weights an entry may have.
    pub levels: usize,
    /// Where weights take memory.
    pub alloc: Global,
}

impl<'a> PlacedLookUp<'a> {
    /// An order line whose weights name what is placed, and no more than there are levels. A name is looked for first where weights of the
    /// lines before named one last; where these were found is kept there.
    pub fn line(
        &self,
        place: SourcePlace,
        line: OrderLine,
        last: &mut LastNames,
        report: &mut Report,
    ) -> Result<OrderLine, SourceFault> {
        match self.stays(&line, last) {
            Ok(true) => Ok(line),
            Ok(false) => self.look_up().line(place, line, report),
            Err(error) => {
                drop(line);
                Err(SourceFault::from(error))
            }
        }
    }

    // Whether a line has no more weights than there are levels, and all that they name is placed, and stands for nothing else.
    fn stays(&self, line: &OrderLine, last: &mut LastNames) -> Result<bool, AllocError> {
        let Some(weights) = &line.weights else {
            return Ok(true);
        };
        if weights.get().len() > self.levels {
            return Ok(false);
        }
        for (level, weight) in weights.get().iter().enumerate() {
            if !self.weight_stays(level, weight, last)? {
                return Ok(false);
            }
        }
        Ok(true)
    }

    // Whether all that a weight of this level names is placed, and stands for nothing else.
    fn weight_stays(
        &self,
        level: usize,
        weight: &Weight,
        last: &mut LastNames,
    ) -> Result<bool, AllocError> {
        let Weight::Names(ids) = weight else {
            return Ok(true);
        };
        for (at, id) in ids.get().iter().enumerate() {
            if !self.id_stays(place_of(level, at), id, last)? {
                return Ok(false);
            }
        }
        Ok(true)
    }

    // Whether an identifier that a weight names at this place is placed, and stands for nothing else.
    fn id_stays(&self, place: usize, id: &Id, last: &mut LastNames) -> Result<bool, AllocError> {
        let Id::Named(name) = id else {
            return Ok(self.standing().stays(id));
        };
        let known = self.meanings.names().known();
        let mut guess = last.get(place);
        let found = known.found_again(name.get(), &mut guess);
        last.keep(place, guess)?;
        Ok(self.standing().found_stays(found))
    }

    // The same, for any line.
    fn look_up(&self) -> LookUp<ByNumber<'a>> {
        LookUp {
            standing: self.standing(),
            levels: self.levels,
            alloc: self.alloc,
        }
    }

    // What names mean, and what is placed.
    fn standing(&self) -> ByNumber<'a> {
        ByNumber {
            names: self.meanings.names(),
            placed: self.placed,
        }
    }
}

/// Where the names of weights are looked for first: most weights name what those of the line before name, or what was declared behind
/// that.
#[derive(Drop)]
pub struct LastNames {
    // By the place at which weights name them.
    guesses: Vec<NameGuess>,
}

// The place at which a weight of a level names its identifiers, the first of them at 0.
fn place_of(level: usize, at: usize) -> usize {
    level
        .saturating_mul(MOST_WEIGHT_IDS)
        .saturating_add(at.min(MOST_WEIGHT_IDS))
}

impl LastNames {
    /// None has been named. It takes no memory.
    pub fn new(alloc: Global) -> LastNames {
        LastNames {
            guesses: Vec::new(alloc),
        }
    }

    // Where the name at a place is looked for first.
    fn get(&self, place: usize) -> NameGuess {
        match self.guesses.get(place) {
            Some(guess) => *guess,
            None => NameGuess::new(),
        }
    }

    // Keeps where the name at a place was found.
    fn keep(&mut self, place: usize, guess: NameGuess) -> Result<(), AllocError> {
        for _ in self.guesses.len()..=place {
            self.guesses.push(NameGuess::new())?;
        }
        if let Some(last) = self.guesses.get_mut(place) {
            *last = guess;
        }
        Ok(())
    }
}

// What tells of an identifier where it stands.
trait Standing {
    // Whether it is placed.
    fn is_placed(&self, id: &Id) -> bool;

    // Whether it stays as it is: it is placed, and stands for nothing else.
    fn stays(&self, id: &Id) -> bool;

    // What it stands for, in new memory.
    fn resolved(&self, id: &Id) -> Result<Id, AllocError>;
}

// A set of identifiers.
trait Ids {
    // Whether an identifier is there.
    fn has(&self, id: &Id) -> bool;
}

impl Ids for IdSet {
    fn has(&self, id: &Id) -> bool {
        self.contains(id)
    }
}

impl Ids for SourceIds {
    fn has(&self, id: &Id) -> bool {
        self.contains(id)
    }
}

// What names mean, and what is placed beside what a table places, if there is one.
#[derive(Drop)]
struct InSet<'a, S> {
    names: &'a DeclaredNames,
    table: Option<&'a Table>,
    // What is placed beside what the table places.
    placed: &'a S,
}

impl<S> InSet<'_, S> {
    // Whether the table places an identifier.
    fn is_in_table(&self, id: &Id) -> bool {
        match self.table {
            Some(table) => table.entry(id).is_some(),
            None => false,
        }
    }
}

impl<S: Ids> Standing for InSet<'_, S> {
    fn is_placed(&self, id: &Id) -> bool {
        self.placed.has(id) || self.is_in_table(id)
    }

    fn stays(&self, id: &Id) -> bool {
        self.is_placed(id) && self.names.stands_for_itself(self.table, id)
    }

    fn resolved(&self, id: &Id) -> Result<Id, AllocError> {
        self.names.resolved(self.table, id.clone()?)
    }
}

// What names mean over no table, and what is placed.
#[derive(Clone, Copy)]
struct ByNumber<'a> {
    names: &'a DeclaredNames,
    placed: &'a Placed,
}

impl ByNumber<'_> {
    // Whether what was found is placed, and stands for nothing else.
    fn found_stays(&self, found: Found) -> bool {
        match found {
            Found::Second(_) => false,
            found => self.placed.contains(found),
        }
    }
}

impl Standing for ByNumber<'_> {
    fn is_placed(&self, id: &Id) -> bool {
        self.placed.contains(self.names.found(id))
    }

    fn stays(&self, id: &Id) -> bool {
        self.found_stays(self.names.found(id))
    }

    fn resolved(&self, id: &Id) -> Result<Id, AllocError> {
        self.names.resolved(None, id.clone()?)
    }
}

// What weights are looked up in.
#[derive(Drop)]
struct LookUp<S> {
    standing: S,
    levels: usize,
    alloc: Global,
}

impl<S: Standing> LookUp<S> {
    // An order line whose weights name what is placed, and no more than there are levels.
    fn line(
        &self,
        place: SourcePlace,
        line: OrderLine,
        report: &mut Report,
    ) -> Result<OrderLine, SourceFault> {
        let OrderLine { id, weights } = line;
        match weights {
            Some(weights) => self.with_weights(place, id, weights.into_items(), report),
            None => Ok(OrderLine { id, weights: None }),
        }
    }

    // An order line with these weights, which name what is placed then, and are no more than there are levels.
    fn with_weights(
        &self,
        place: SourcePlace,
        id: Id,
        mut weights: Vec<Weight>,
        report: &mut Report,
    ) -> Result<OrderLine, SourceFault> {
        match self.mend_all(place, &id, &mut weights, report) {
            Ok(()) => Ok(OrderLine {
                id,
                weights: Some(ListBuf::new(weights)),
            }),
            Err(fault) => {
                drop(id);
                drop(weights);
                Err(fault)
            }
        }
    }

    // Puts in place of the weights of an entry what they mean, and leaves out those beyond the levels.
    fn mend_all(
        &self,
        place: SourcePlace,
        id: &Id,
        weights: &mut Vec<Weight>,
        report: &mut Report,
    ) -> Result<(), SourceFault> {
        if weights.len() > self.levels {
            report.lose(Adjustment::WeightsBeyondRules, place, Lost::Id(id.clone()?))?;
            weights.truncate(self.levels);
        }
        for weight in weights.iter_mut() {
            self.mend(place, weight, report)?;
        }
        Ok(())
    }

    // Whether a line has no more weights than there are levels, and all that they name is placed, and stands for nothing else.
    fn line_stays(&self, line: &OrderLine) -> bool {
        match &line.weights {
            Some(weights) => weights.get().len() <= self.levels && self.all_stay(weights.get()),
            None => true,
        }
    }

    // Whether all that weights name is placed, and stands for nothing else.
    fn all_stay(&self, weights: &[Weight]) -> bool {
        weights.iter().all(|weight| self.all_named_stay(weight))
    }

    // Whether all that a weight names is placed, and stands for nothing else.
    fn all_named_stay(&self, weight: &Weight) -> bool {
        match weight {
            Weight::Names(ids) => ids.get().iter().all(|id| self.standing.stays(id)),
            Weight::Ignore | Weight::Own => true,
        }
    }

    // Puts in place of a weight what it means, where that is something else.
    fn mend(
        &self,
        place: SourcePlace,
        weight: &mut Weight,
        report: &mut Report,
    ) -> Result<(), SourceFault> {
        if self.all_named_stay(weight) {
            return Ok(());
        }
        let Weight::Names(ids) = weight else {
            return Ok(());
        };
        let mended = self.mended(place, ids.get(), report)?;
        drop(std::mem::replace(weight, mended));
        Ok(())
    }

    // The weight of these identifiers by what they stand for, without those that are placed nowhere; of none it ignores the entry.
    fn mended(
        &self,
        place: SourcePlace,
        ids: &[Id],
        report: &mut Report,
    ) -> Result<Weight, SourceFault> {
        let mut kept = Vec::new(self.alloc);
        for id in ids {
            let id = self.standing.resolved(id)?;
            if self.standing.is_placed(&id) {
                kept.push(id)?;
            } else {
                report.lose(Adjustment::UnplacedInWeight, place, Lost::Id(id))?;
            }
        }
        if kept.is_empty() {
            return Ok(Weight::Ignore);
        }
        Ok(Weight::Names(ListBuf::new(kept)))
    }
}

/// An order line without the weights of a symbol, which has none: these are left out, and this is told.
pub fn without_symbol_weights(
    meanings: &Meanings,
    place: SourcePlace,
    line: OrderLine,
    report: &mut Report,
) -> Result<OrderLine, SourceFault> {
    if line.weights.is_none() || !meanings.is_symbol(&line.id) {
        return Ok(line);
    }
    without_weights(place, line, report)
}

/// The same, where a table is tailored.
pub fn without_weights_of_symbol(
    meanings: &TableMeanings<'_>,
    place: SourcePlace,
    line: OrderLine,
    report: &mut Report,
) -> Result<OrderLine, SourceFault> {
    if line.weights.is_none() || !meanings.is_symbol(&line.id) {
        return Ok(line);
    }
    without_weights(place, line, report)
}

// An order line without its weights, which is told.
fn without_weights(
    place: SourcePlace,
    line: OrderLine,
    report: &mut Report,
) -> Result<OrderLine, SourceFault> {
    let OrderLine { id, weights } = line;
    drop(weights);
    match lose_weights(place, &id, report) {
        Ok(()) => Ok(OrderLine { id, weights: None }),
        Err(fault) => {
            drop(id);
            Err(fault)
        }
    }
}

// Tells that the weights of a symbol are left out.
fn lose_weights(place: SourcePlace, id: &Id, report: &mut Report) -> Result<(), SourceFault> {
    report.lose(Adjustment::SymbolWeights, place, Lost::Id(id.clone()?))
}
