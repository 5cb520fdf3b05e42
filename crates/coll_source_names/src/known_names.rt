//! What is known of each name of a source, and the number that each has.
//!
//! A short name lies in its key, so most take no memory of their own. Names are mostly asked for in the order in which they came in, so
//! who asks for one after another hands a guess on, and a name that stands there is found without a hash.
//!
//! Nearly all symbols of a published table are those of a few ranges. A range none of whose names is known before is kept as it is, so
//! its names take no memory and aren't hashed: whether it has a name is told by the letters and the digits of that. The ranges stand in
//! the order of their names, and no name of one stands between two of another, so a name is looked for in one of them, which is found by
//! halves. The simple form keeps each name by itself, as is done here behind 64 ranges; the test `meanings` of `coll_tests` compares both.

ghost use Rattle.std.specs.Prelude.{◌≡◌, ◌<◌, ◌≤◌, ◌+◌, ◌-◌, ◌^◌, ℕ, min, Some, chars, vec_len, OnOk, OnErr};
ghost use Rattle.std.specs.Bool.{OnTrue};
ghost use Rattle.std.specs.Str.{bytes_eq};
ghost use Rattle.indexmap.specs.IndexMap.{index_of_by};
ghost use Rattle.coll_lookups.specs.NameKeys.{bytes_of};
ghost use Rattle.coll_source_lines.specs.NameRanges.{range_name, HasNumber};

use crate::placed::Found;
use coll_lex::TextBuf;
use coll_lookups::{HashKeys, NameKey, NameText, WordKeys};
use coll_source_lines::NameRange;
use coll_syntax::Id;
use indexmap::{Equivalent, IndexMap};
use std::alloc::{AllocError, Global};

/// What a name means.
#[derive(Drop)]
pub(crate) enum Meaning {
    /// A collating symbol.
    Symbol,
    /// A collating element.
    Element,
    /// Something else: a character, another element, or the symbol of a second name.
    Other(Id),
}

/// What is known of a name.
#[derive(Drop)]
pub(crate) struct Known {
    /// What it means.
    pub(crate) meaning: Meaning,
    /// Whether the table that is tailored declares it, and no line of the source has done so yet.
    pub(crate) by_table: bool,
}

impl Known {
    /// What has declared the name.
    pub(crate) fn taken(&self) -> Taken {
        Taken {
            by_table: self.by_table,
            is_symbol: matches!(self.meaning, Meaning::Symbol),
        }
    }
}

/// What has declared a name.
#[derive(Clone, Copy)]
pub(crate) struct Taken {
    /// Whether the table that is tailored has, and no line of the source.
    pub(crate) by_table: bool,
    /// Whether it is a symbol.
    pub(crate) is_symbol: bool,
}

/// When a declaration is like the one that has declared its name before.
#[derive(Clone, Copy)]
pub(crate) enum Alike {
    /// Where that is a symbol's.
    IfSymbol,
    /// That is known.
    Known(bool),
}

impl Alike {
    /// Whether it is like the one that has declared its name.
    pub(crate) fn is_told_by(self, taken: Taken) -> bool {
        match self {
            Alike::IfSymbol => taken.is_symbol,
            Alike::Known(alike) => alike,
        }
    }
}

// Most ranges that are kept as they are.
const MOST_RANGES: usize = 64;

/// A range of names, with the first and the last of them.
#[derive(Drop)]
pub(crate) struct EndedRange {
    /// The first name.
    pub(crate) first: TextBuf,
    /// The last one.
    pub(crate) last: TextBuf,
    /// All names.
    pub(crate) names: NameRange,
}

// The names of a range, each of them a symbol's, which a line of the source has declared.
#[derive(Drop)]
struct KnownRange {
    range: EndedRange,
    // How many names the ranges have that were put in before it.
    before: usize,
}

impl KnownRange {
    // Which of the names of all ranges this one is, if it is one of these.
    fn place_of(&self, name: &str) -> Option<usize>
        ensures { (number : ℕ) → HasNumber self.now.range.names number → range_name self.now.range.names number ≡ chars name.now
            → result ≡ Some (min (self.now.before + (number - self.now.range.names.first)) (2 ^ 64 - 1)) }
    {
        let names = &self.range.names;
        let number = names.number(name)?;
        Some(
            self.before
                .saturating_add(number.saturating_sub(names.first) as usize),
        )
    }
}

/// Where a name is looked for first.
#[derive(Clone, Copy)]
pub struct NameGuess {
    // Among those that stand alone.
    alone: usize,
    // In this range.
    range: usize,
}

impl NameGuess {
    /// Nothing is guessed yet.
    pub fn new() -> NameGuess {
        NameGuess { alone: 0, range: 0 }
    }
}

/// Names, with what is known of each, in the order in which they came in. One that stands alone has an even number, and one of a range an
/// odd one.
pub struct KnownNames {
    // Those that stand alone.
    names: IndexMap<NameKey, Known, WordKeys>,
    // Ranges that have no name of those that stand alone, in the order of their names: all of one stand before all of the next.
    ranges: Vec<KnownRange>,
    // How many names they have.
    in_ranges: usize,
    // What is known of each of these.
    symbol: Known,
}

// Written out, so that each place that drops one is one call, with no step for each part.
impl Drop for KnownNames {
    fn drop(self) {
        let KnownNames {
            names,
            ranges,
            in_ranges: _,
            symbol,
        } = self;
        drop(names);
        drop(ranges);
        drop(symbol);
    }
}

impl KnownNames {
    /// No names. It takes no memory.
    pub(crate) fn new(alloc: Global, keys: HashKeys) -> KnownNames {
        KnownNames {
            names: IndexMap::with_hasher(alloc, WordKeys::new(keys)),
            ranges: Vec::new(alloc),
            in_ranges: 0,
            symbol: Known {
                meaning: Meaning::Symbol,
                by_table: false,
            },
        }
    }

    /// How many names the ranges have that are kept as they are.
    pub(crate) fn in_ranges(&self) -> usize {
        self.in_ranges
    }

    /// What is known of a name.
    pub(crate) fn get(&self, name: &str) -> Option<&Known> {
        if self.is_in_range(name) {
            return Some(&self.symbol);
        }
        self.names.get(NameText { text: name })
    }

    /// Whether something is known of a name.
    pub(crate) fn contains(&self, name: &str) -> bool {
        self.is_in_range(name) || self.names.contains_key(NameText { text: name })
    }

    /// What is found of a name.
    pub(crate) fn found(&self, name: &str) -> Found {
        let mut guess = NameGuess::new();
        self.found_behind(name, &mut guess)
    }

    /// What is found of a name, as `found` tells it. It is looked for at a guess first, which is what came in behind it then.
    pub(crate) fn found_behind(&self, name: &str, guess: &mut NameGuess) -> Found {
        if let Some(place) = self.place_in_ranges(name, &mut guess.range) {
            return found_in_range(place);
        }
        match place_by_guess(&self.names, name, guess.alone) {
            Some(place) => {
                guess.alone = place.wrapping_add(1);
                self.found_alone(place)
            }
            None => Found::Unknown,
        }
    }

    /// What is found of a name, as `found` tells it. It is looked for at a guess first, and then behind that; the guess is the name then.
    pub fn found_again(&self, name: &str, guess: &mut NameGuess) -> Found {
        if self.is_at(guess.alone, name) {
            return self.found_alone(guess.alone);
        }
        if let Some(place) = self.place_in_ranges(name, &mut guess.range) {
            return found_in_range(place);
        }
        match place_by_guess(&self.names, name, guess.alone.wrapping_add(1)) {
            Some(place) => {
                guess.alone = place;
                self.found_alone(place)
            }
            None => Found::Unknown,
        }
    }

    // What is found of the name that stands alone at this place.
    fn found_alone(&self, place: usize) -> Found {
        let number = place.saturating_mul(2);
        match self.names.get_index(place) {
            Some((_, known)) => match known.meaning {
                Meaning::Symbol => Found::Symbol(number),
                Meaning::Element => Found::Element(number),
                Meaning::Other(_) => Found::Second(number),
            },
            None => Found::Unknown,
        }
    }

    // Whether the name that stands alone at this place is this one.
    fn is_at(&self, place: usize, name: &str) -> bool {
        match self.names.get_index(place) {
            Some((key, _)) => NameText { text: name }.equivalent(key),
            None => false,
        }
    }

    // Whether a name is one of a range.
    fn is_in_range(&self, name: &str) -> bool {
        self.place_in(self.range_near(name), name).is_some()
    }

    // Which of the names of all ranges this one is, if it is one of these. It is looked for in the range of a guess first, which is its
    // range then.
    fn place_in_ranges(&self, name: &str, guess: &mut usize) -> Option<usize> {
        if let Some(place) = self.place_in(*guess, name) {
            return Some(place);
        }
        let range = self.range_near(name);
        let place = self.place_in(range, name)?;
        *guess = range;
        Some(place)
    }

    // The number of the only range that may have a name; none has the number where no range may.
    fn range_near(&self, name: &str) -> usize {
        self.count_up_to(name).wrapping_sub(1)
    }

    // How many ranges begin with a name, or with one that stands before it.
    fn count_up_to(&self, name: &str) -> usize
        ensures { result ≤ vec_len self.now.ranges }
    {
        self.ranges
            .partition_point(|known| !stands_before(name, known.range.first.get()))
    }

    // Which of the names of all ranges this one is, if the range of a number has it.
    fn place_in(&self, range: usize, name: &str) -> Option<usize> {
        self.ranges.get(range)?.place_of(name)
    }

    /// Whether there is room for a range that is kept as it is, if nothing is known of any of its names, and looking for that takes no
    /// longer than to put them in one by one.
    pub(crate) fn has_room_for(&self, names: &NameRange) -> bool
        ensures { OnTrue result (vec_len self.now.ranges < 64) }
    {
        names.is_hexadecimal()
            && self.ranges.len() < MOST_RANGES
            && self.names.len() <= names.count()
    }

    /// Whether nothing is known of any of the names of a range, and none of them stands between two of a range that is kept.
    pub(crate) fn are_unknown(&self, range: &EndedRange) -> bool {
        self.is_apart(range)
            && !self
                .names
                .keys()
                .any(|key| range.names.number(key.text()).is_some())
    }

    // Whether all names of a range stand behind those of one range, and before those of the next.
    fn is_apart(&self, range: &EndedRange) -> bool {
        let at = self.count_up_to(range.first.get());
        let is_behind = match self.ranges.get(at.wrapping_sub(1)) {
            Some(known) => stands_before(known.range.last.get(), range.first.get()),
            None => true,
        };
        let is_before = match self.ranges.get(at) {
            Some(known) => stands_before(range.last.get(), known.range.first.get()),
            None => true,
        };
        is_behind && is_before
    }

    /// Makes each name of a range, of none of which anything is known, that of a symbol.
    pub(crate) fn put_range(&mut self, range: EndedRange) -> Result<(), AllocError>
        ensures ok { OnOk result (self.new.in_ranges ≡ min (self.old.in_ranges + (range.names.last - range.names.first + 1)) (2 ^ 64 - 1)) }
        ensures one { OnOk result (vec_len self.new.ranges ≡ vec_len self.old.ranges + 1) }
        ensures err { OnErr result (self.new.ranges.items ≡ self.old.ranges.items) }
    {
        let at = self.count_up_to(range.first.get());
        let count = range.names.count();
        let before = self.in_ranges;
        self.ranges.insert(at, KnownRange { range, before })?;
        self.in_ranges = before.saturating_add(count);
        Ok(())
    }

    /// Gives a name its meaning.
    pub(crate) fn mean(
        &mut self,
        name: &TextBuf,
        meaning: Meaning,
        by_table: bool,
    ) -> Result<(), AllocError> {
        match NameKey::copied(name) {
            Ok(key) => {
                drop(self.names.insert(key, Known { meaning, by_table })?);
                Ok(())
            }
            Err(error) => {
                drop(meaning);
                Err(error)
            }
        }
    }

    /// Makes a name that of a symbol, unless something is known of it. Answers what has declared it, if anything has; from now on a line
    /// of the source has.
    pub(crate) fn mean_symbol(&mut self, name: &TextBuf) -> Result<Option<Taken>, AllocError> {
        if self.is_in_range(name.get()) {
            return Ok(Some(self.symbol.taken()));
        }
        let symbol = Known {
            meaning: Meaning::Symbol,
            by_table: false,
        };
        let (number, before) = self.names.insert_full(NameKey::copied(name)?, symbol)?;
        match before {
            Some(before) => Ok(Some(self.mean_again(number, before))),
            None => Ok(None),
        }
    }

    // Gives the name of a number the meaning back that it had. Answers what had declared it; from now on a line of the source has.
    fn mean_again(&mut self, number: usize, before: Known) -> Taken {
        let taken = before.taken();
        let Known {
            meaning,
            by_table: _,
        } = before;
        let known = Known {
            meaning,
            by_table: false,
        };
        match self.names.get_index_mut(number) {
            Some(place) => drop(std::mem::replace(place, known)),
            None => drop(known),
        }
        taken
    }

    /// What has declared a name, if something is known of it. From now on a line of the source has.
    pub(crate) fn take_by_source(&mut self, name: &str) -> Option<Taken> {
        if self.is_in_range(name) {
            return Some(self.symbol.taken());
        }
        let known = self.names.get_mut(NameText { text: name })?;
        let taken = known.taken();
        known.by_table = false;
        Some(taken)
    }
}

// Whether a name stands before another one: a shorter one does, and of one length those with less in the first bytes that differ. So the
// names of a range of hexadecimal digits ascend with their numbers.
fn stands_before(name: &str, other: &str) -> bool {
    if name.len() != other.len() {
        return name.len() < other.len();
    }
    name < other
}

// What is found of the name of a range that stands at this place among those of all ranges.
fn found_in_range(place: usize) -> Found {
    Found::Symbol(place.saturating_mul(2).saturating_add(1))
}

// The place of a name, which is looked for at a guess before it is looked up.
fn place_by_guess(
    names: &IndexMap<NameKey, Known, WordKeys>,
    name: &str,
    guess: usize,
) -> Option<usize>
    ensures { result ≡ index_of_by (λ key. bytes_eq name.now (bytes_of key)) names.now }
{
    let text = NameText { text: name };
    if let Some(key) = names.keys().as_slice().get(guess) {
        if text.equivalent(key) {
            return Some(guess);
        }
    }
    names.get_index_of(text)
}
