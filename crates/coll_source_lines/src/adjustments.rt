//! What is told of what an import changed: how often each kind of change was made, and what was lost.
//!
//! A new kind is a variant of `Adjustment` with its name, and a place in `ADJUSTMENTS`, here and in `specs/Adjustments.antt`.

ghost use Rattle.std.specs.Prelude.{◌≡◌, ◌<◌, length, position, OnOk, OnErr, IfSome};
ghost use Rattle.coll_source_lines.specs.Adjustments.{all_kinds, HasEachKind};
ghost use Rattle.coll_source_lines.specs.Reports.{is_of, earlier_place, one_more, CountsOne};

use crate::{SourceFault, SourcePlace};
use coll_lex::TextBuf;
use coll_syntax::Id;
use coll_texts::LoadCause;
use std::alloc::{AllocError, Global};
use std::marker::Model;

/// A kind of change between a source and what is made of it.
#[derive(Clone, Copy, PartialEq, Eq)]
pub enum Adjustment {
    /// The lines of a text that is copied stand in place of the `copy`.
    CopyInlined,
    /// The `copy` of the table that is tailored is kept, and has no effect.
    CopyKept,
    /// `define`, `ifdef`, `ifndef`, `else` and `endif` are resolved.
    Conditional,
    /// A range of symbols is declared one by one.
    SymbolRange,
    /// Order lines that stand in no order are put into one.
    OrderStartPut,
    /// A section gets the rules that most sections have.
    RulesMadeAlike,
    /// A section without a name, and not the first, gets one.
    SectionNamed,
    /// Each character of an ellipsis gets a line.
    EllipsisExpanded,
    /// The name of an element of one character stands for that character.
    ElementOfOne,
    /// The name of an element whose string another one has stands for that one.
    ElementStringTwice,
    /// The weights of a symbol are left out.
    SymbolWeights,
    /// A name that has an order line, and is not declared, is declared as a symbol.
    UndeclaredDeclared,
    /// A declaration of what the table declares already is left out.
    DeclaredAlready,
    /// A second order line of an identifier is left out.
    PlacedTwice,
    /// Weights that name what only a later block places follow as a statement at the end.
    WeightsLater,
    /// A name that is placed nowhere is left out of a weight.
    UnplacedInWeight,
    /// More weights than there are levels are left out.
    WeightsBeyondRules,
    /// A block that has an identifier twice, or too many lines, is cut in two.
    BlockCut,
    /// What is placed without weights weighs itself.
    OwnWeights,
    /// A block behind what is placed nowhere is left out.
    TargetUnplaced,
    /// The target of a block that is a line of it gets its weights where it stands, or stays as it is.
    OwnTarget,
    /// A block that is open at the end is ended there.
    BlockClosed,
    /// Sections that are moved together are moved one by one.
    SectionsMoved,
    /// A second declaration, what is beyond the limits, and what is no line of the grammar is left out.
    Dropped,
}

// All kinds, in the order in which they are told.
const ADJUSTMENTS: [Adjustment; 24] = [
    Adjustment::CopyInlined,
    Adjustment::CopyKept,
    Adjustment::Conditional,
    Adjustment::SymbolRange,
    Adjustment::OrderStartPut,
    Adjustment::RulesMadeAlike,
    Adjustment::SectionNamed,
    Adjustment::EllipsisExpanded,
    Adjustment::ElementOfOne,
    Adjustment::ElementStringTwice,
    Adjustment::SymbolWeights,
    Adjustment::UndeclaredDeclared,
    Adjustment::DeclaredAlready,
    Adjustment::PlacedTwice,
    Adjustment::WeightsLater,
    Adjustment::UnplacedInWeight,
    Adjustment::WeightsBeyondRules,
    Adjustment::BlockCut,
    Adjustment::OwnWeights,
    Adjustment::TargetUnplaced,
    Adjustment::OwnTarget,
    Adjustment::BlockClosed,
    Adjustment::SectionsMoved,
    Adjustment::Dropped,
];

/// All kinds, in the order in which they are told. It takes no memory.
pub fn all_adjustments() -> [Adjustment; 24]
    ensures listed { result ≡ all_kinds }
    ensures each { HasEachKind all_kinds }
{
    ADJUSTMENTS
}

impl Adjustment {
    ghost use Rattle.std.specs.Prelude.{◌≡◌, ◌≢◌, true, false};
    ghost use Rattle.coll_source_lines.specs.Adjustments.{adjustment_name, same_kind};

    // Whether two kinds are the same.
    fn is_same(self, other: Adjustment) -> bool
        ensures value { result ≡ same_kind self other }
        ensures same { result ≡ true → self ≡ other }
        ensures other { result ≡ false → self ≢ other }
    {
        self == other
    }

    /// The name that a message shows.
    pub fn name(self) -> &'static str
        ensures { result.now ≡ adjustment_name self }
    {
        match self {
            Adjustment::CopyInlined => "CopyInlined",
            Adjustment::CopyKept => "CopyKept",
            Adjustment::Conditional => "Conditional",
            Adjustment::SymbolRange => "SymbolRange",
            Adjustment::OrderStartPut => "OrderStartPut",
            Adjustment::RulesMadeAlike => "RulesMadeAlike",
            Adjustment::SectionNamed => "SectionNamed",
            Adjustment::EllipsisExpanded => "EllipsisExpanded",
            Adjustment::ElementOfOne => "ElementOfOne",
            Adjustment::ElementStringTwice => "ElementStringTwice",
            Adjustment::SymbolWeights => "SymbolWeights",
            Adjustment::UndeclaredDeclared => "UndeclaredDeclared",
            Adjustment::DeclaredAlready => "DeclaredAlready",
            Adjustment::PlacedTwice => "PlacedTwice",
            Adjustment::WeightsLater => "WeightsLater",
            Adjustment::UnplacedInWeight => "UnplacedInWeight",
            Adjustment::WeightsBeyondRules => "WeightsBeyondRules",
            Adjustment::BlockCut => "BlockCut",
            Adjustment::OwnWeights => "OwnWeights",
            Adjustment::TargetUnplaced => "TargetUnplaced",
            Adjustment::OwnTarget => "OwnTarget",
            Adjustment::BlockClosed => "BlockClosed",
            Adjustment::SectionsMoved => "SectionsMoved",
            Adjustment::Dropped => "Dropped",
        }
    }
}

// Most things that an import may lose: a source that loses more is refused.
const MOST_LOSSES: usize = 262_144;

/// How often a kind of change was made, and where first.
#[derive(Clone, Copy)]
pub struct Tally {
    /// The kind.
    pub adjustment: Adjustment,
    /// Where it was made first: the least line of the text in which it was met first.
    pub first: SourcePlace,
    /// How often.
    pub count: u32,
}

/// What was lost.
#[derive(Drop)]
pub enum Lost {
    /// An identifier.
    Id(Id),
    /// A word that begins a line.
    Word(TextBuf),
}

/// Something that a source says, and that what is made of it doesn't.
#[derive(Drop)]
pub struct Loss {
    /// Where it stands.
    pub place: SourcePlace,
    /// What kind of change left it out.
    pub adjustment: Adjustment,
    /// What it is.
    pub what: Lost,
}

/// All that is told of an import.
pub struct Report {
    tallies: Vec<Tally>,
    losses: Vec<Loss>,
}

// Written out, so that each place that drops a report is one call.
impl Drop for Report {
    fn drop(self) {
        let Report { tallies, losses } = self;
        drop(tallies);
        drop(losses);
    }
}

impl Model for Report {
    ghost use Rattle.coll_source_lines.specs.Reports.{ReportValue};

    ghost Value = { ReportValue };

    ghost view = { λ r. record { tallies = r.tallies.items; losses = r.losses.items } };
}

impl Report {
    ghost use Rattle.std.specs.Prelude.{◌≡◌, ◌≢◌, ◌<◌, ◌≤◌, ◌++◌, ◌∷◌, [], length, All, Contains, OnOk, OnErr, IfErr, IfNone, IfSome};
    ghost use Rattle.coll_source_lines.specs.Reports.{tally_of, CountsOne};
    ghost use Rattle.coll_source_lines.specs.declared.source_faults.SourceCause.TheVariants.{Load};
    ghost use Rattle.coll_texts.specs.declared.load_faults.LoadCause.TheVariants.{Full, OutOfMemory};

    /// Nothing is told yet. It takes no memory.
    pub fn new(alloc: Global) -> Report
        ensures { result ≡ record { tallies = []; losses = [] } }
    {
        Report {
            tallies: Vec::new(alloc),
            losses: Vec::new(alloc),
        }
    }

    /// Counts a change.
    pub fn count(&mut self, adjustment: Adjustment, place: SourcePlace) -> Result<(), AllocError>
        ensures counted { OnOk result (CountsOne self.old.tallies self.new.tallies adjustment place) }
        ensures kept { OnErr result (self.new.tallies ≡ self.old.tallies) }
        ensures losses { self.new.losses ≡ self.old.losses }
    {
        count_in(&mut self.tallies, adjustment, place)
    }

    /// Counts a change that loses something. It is refused with `Full` where too much is lost already.
    pub fn lose(
        &mut self,
        adjustment: Adjustment,
        place: SourcePlace,
        what: Lost,
    ) -> Result<(), SourceFault>
        ensures lost { OnOk result (self.new.losses
            ≡ self.old.losses ++ record { place = place; adjustment = adjustment; what = what } ∷ []) }
        ensures counted { OnOk result (CountsOne self.old.tallies self.new.tallies adjustment place) }
        ensures kept { OnErr result (self.new.losses ≡ self.old.losses) }
        ensures room { OnOk result (length self.old.losses < 262_144) }
        ensures full { IfErr result (λ fault. fault.cause ≢ Load OutOfMemory → fault ≡ record { place = place; cause = Load Full }) }
        ensures limit { IfErr result (λ fault. fault.cause ≢ Load OutOfMemory → 262_144 ≤ length self.old.losses) }
    {
        if self.losses.len() >= MOST_LOSSES {
            return Err(place.load_fault(LoadCause::Full));
        }
        self.count(adjustment, place)?;
        self.losses.push(Loss {
            place,
            adjustment,
            what,
        })?;
        Ok(())
    }

    /// How often a kind of change was made, if it was.
    pub fn tally(&self, adjustment: Adjustment) -> Option<Tally>
        ensures tally { result ≡ tally_of self.now.tallies adjustment }
        ensures kind { IfSome result (λ tally. tally.adjustment ≡ adjustment) }
        ensures among { IfSome result (λ tally. Contains self.now.tallies tally) }
        ensures none { IfNone result (All (λ tally. tally.adjustment ≢ adjustment) self.now.tallies) }
    {
        self.tallies
            .iter()
            .find(|tally| tally.adjustment.is_same(adjustment))
            .copied()
    }

    /// What was lost, in the order in which it was met.
    pub fn losses(&self) -> &[Loss]
        ensures { result.now ≡ self.now.losses }
    {
        self.losses.as_slice()
    }
}

// Counts a change among the tallies.
fn count_in(
    tallies: &mut Vec<Tally>,
    changed: Adjustment,
    place: SourcePlace,
) -> Result<(), AllocError>
    ensures counted { OnOk result (CountsOne tallies.old.items tallies.new.items changed place) }
    ensures kept { OnErr result (tallies.new.items ≡ tallies.old.items) }
{
    match place_of(tallies.as_slice(), changed) {
        Some(at) => {
            let tally = tallies[at];
            tallies[at] = next_tally(changed, place, Some(tally));
            Ok(())
        }
        None => {
            tallies.push(next_tally(changed, place, None))?;
            Ok(())
        }
    }
}

// Where the tally of a kind stands.
fn place_of(tallies: &[Tally], kind: Adjustment) -> Option<usize>
    ensures first { result ≡ position (is_of kind) tallies.now }
    ensures within { IfSome result (λ at. at < length tallies.now) }
{
    tallies
        .iter()
        .position(|tally| tally.adjustment.is_same(kind))
}

// The tally of a kind behind one change more.
fn next_tally(kind: Adjustment, place: SourcePlace, before: Option<Tally>) -> Tally
    ensures { result ≡ one_more kind place before }
{
    match before {
        Some(tally) => Tally {
            adjustment: kind,
            first: earlier(tally.first, place),
            count: tally.count.saturating_add(1),
        },
        None => Tally {
            adjustment: kind,
            first: place,
            count: 1,
        },
    }
}

// The place where a change is told: the one that it is told with, or another one of the same text that stands before.
fn earlier(told: SourcePlace, place: SourcePlace) -> SourcePlace
    ensures { result ≡ earlier_place told place }
{
    if place.text == told.text && place.line < told.line {
        place
    } else {
        told
    }
}
