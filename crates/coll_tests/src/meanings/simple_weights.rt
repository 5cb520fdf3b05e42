//! The weights of an entry, by what is placed and by own names: the simple form, with which the weights of `coll_meanings` are compared.

use crate::meanings::simple_meanings::Meanings;
use coll_lex::ListBuf;
use coll_lookups::IdSet;
use coll_source_lines::{Adjustment, Lost, Report, SourceFault, SourcePlace};
use coll_syntax::{Id, OrderLine, Weight};
use std::alloc::Global;

/// What weights are looked up in.
#[derive(Clone, Copy)]
pub struct WeightLookUp<'a> {
    /// What names mean.
    pub meanings: &'a Meanings,
    /// What is placed.
    pub placed: &'a IdSet,
    /// How many weights an entry may have.
    pub levels: usize,
    /// Where weights take memory.
    pub alloc: Global,
}

impl WeightLookUp<'_> {
    /// An order line whose weights name what is placed, and no more than there are levels.
    pub fn line(
        &self,
        place: SourcePlace,
        line: OrderLine,
        report: &mut Report,
    ) -> Result<OrderLine, SourceFault> {
        let OrderLine { id, weights } = line;
        match weights {
            Some(weights) => self.with_weights(place, id, weights.into_items(), report),
            None => Ok(OrderLine { id, weights: None }),
        }
    }

    // An order line with these weights, which name what is placed then, and are no more than there are levels.
    fn with_weights(
        &self,
        place: SourcePlace,
        id: Id,
        mut weights: Vec<Weight>,
        report: &mut Report,
    ) -> Result<OrderLine, SourceFault> {
        match self.mend_all(place, &id, &mut weights, report) {
            Ok(()) => Ok(OrderLine {
                id,
                weights: Some(ListBuf::new(weights)),
            }),
            Err(fault) => {
                drop(id);
                drop(weights);
                Err(fault)
            }
        }
    }

    // Puts in place of the weights of an entry what they mean, and leaves out those beyond the levels.
    fn mend_all(
        &self,
        place: SourcePlace,
        id: &Id,
        weights: &mut Vec<Weight>,
        report: &mut Report,
    ) -> Result<(), SourceFault> {
        if weights.len() > self.levels {
            report.lose(Adjustment::WeightsBeyondRules, place, Lost::Id(id.clone()?))?;
            weights.truncate(self.levels);
        }
        for weight in weights.iter_mut() {
            self.mend(place, weight, report)?;
        }
        Ok(())
    }

    /// Whether all that weights name is placed, and stands for nothing else.
    pub fn all_stay(&self, weights: &[Weight]) -> bool {
        weights.iter().all(|weight| self.all_named_stay(weight))
    }

    // Whether all that a weight names is placed, and stands for nothing else.
    fn all_named_stay(&self, weight: &Weight) -> bool {
        match weight {
            Weight::Names(ids) => ids.get().iter().all(|id| self.stays(id)),
            Weight::Ignore | Weight::Own => true,
        }
    }

    // Puts in place of a weight what it means, where that is something else.
    fn mend(
        &self,
        place: SourcePlace,
        weight: &mut Weight,
        report: &mut Report,
    ) -> Result<(), SourceFault> {
        if self.all_named_stay(weight) {
            return Ok(());
        }
        let Weight::Names(ids) = weight else {
            return Ok(());
        };
        let mended = self.mended(place, ids.get(), report)?;
        drop(std::mem::replace(weight, mended));
        Ok(())
    }

    // Whether an identifier stays as it is: it is placed, and stands for nothing else.
    fn stays(&self, id: &Id) -> bool {
        self.placed.contains(id) && self.meanings.other(id).is_none()
    }

    // The weight of these identifiers by what they stand for, without those that are placed nowhere; of none it ignores the entry.
    fn mended(
        &self,
        place: SourcePlace,
        ids: &[Id],
        report: &mut Report,
    ) -> Result<Weight, SourceFault> {
        let mut kept = Vec::new(self.alloc);
        for id in ids {
            let id = self.meanings.resolved(id.clone()?)?;
            if self.placed.contains(&id) {
                kept.push(id)?;
            } else {
                report.lose(Adjustment::UnplacedInWeight, place, Lost::Id(id))?;
            }
        }
        if kept.is_empty() {
            return Ok(Weight::Ignore);
        }
        Ok(Weight::Names(ListBuf::new(kept)))
    }
}

/// An order line without the weights of a symbol, which has none: these are left out, and this is told.
pub fn without_symbol_weights(
    meanings: &Meanings,
    place: SourcePlace,
    line: OrderLine,
    report: &mut Report,
) -> Result<OrderLine, SourceFault> {
    if line.weights.is_none() || !meanings.is_symbol(&line.id) {
        return Ok(line);
    }
    let OrderLine { id, weights } = line;
    drop(weights);
    match lose_weights(place, &id, report) {
        Ok(()) => Ok(OrderLine { id, weights: None }),
        Err(fault) => {
            drop(id);
            Err(fault)
        }
    }
}

// Tells that the weights of a symbol are left out.
fn lose_weights(place: SourcePlace, id: &Id, report: &mut Report) -> Result<(), SourceFault> {
    report.lose(Adjustment::SymbolWeights, place, Lost::Id(id.clone()?))
}
