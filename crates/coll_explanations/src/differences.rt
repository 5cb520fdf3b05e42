//! Where the lists of two texts at a level differ first.
//!
//! One goes along both ways at once, so a level costs one pass over each text, and no list is formed.

ghost use Rattle.std.specs.Prelude.{◌≡◌, ◌≤◌, ◌∷◌, suc, List, length, option_map};
ghost use Rattle.coll_explanations.specs.ToldLists.{Told, first_apart, told_from, told_number};
ghost use Rattle.coll_explanations.specs.ToldSteps.{apart_of, apart_or, before_told, place_behind, source_of};

use crate::level_numbers::{LevelNumbers, Step};

/// Where two lists differ first, and what stands there.
#[derive(Clone, Copy)]
pub(crate) struct Difference<'a> {
    /// The place, from 1.
    pub(crate) place: u64,
    /// Positions stand there, and no numbers.
    pub(crate) at_position: bool,
    /// What stands there in the one list, if it hasn't ended.
    pub(crate) step: Option<Step<'a>>,
    /// What stands there in the other.
    pub(crate) other: Option<Step<'a>>,
}

/// Where the numbers on two ways differ first.
pub(crate) fn first_difference<'a>(
    position: bool,
    numbers: LevelNumbers<'a>,
    others: LevelNumbers<'a>,
) -> Option<Difference<'a>>
    requires { length numbers ≤ 2_097_152 }
    ensures { option_map apart_of result ≡ first_apart 1 (told_from position 0 numbers.entry) (told_from position 0 others.entry) }
{
    let mut numbers = numbers;
    let mut others = others;
    let mut place = 1;
    'steps: loop {
        match (numbers.next(), others.next()) {
            (Some(step), Some(other)) => {
                if let Some(difference) = difference_at(place, position, step, other) {
                    return Some(difference);
                }
                place = place_behind(place, position);
            }
            (None, None) => return None,
            (step, other) => {
                return Some(Difference {
                    place,
                    at_position: position,
                    step,
                    other,
                });
            }
        }
    }
}

// The place behind a number whose first place is this: with `position` it has two, that of its position and its own.
fn place_behind(place: u64, position: bool) -> u64
    requires { place ≤ 4_194_305 }
    ensures { result ≡ place_behind position place }
{
    if position { place + 2 } else { place + 1 }
}

// Whether two steps differ, and where.
fn difference_at<'a>(
    place: u64,
    position: bool,
    step: Step<'a>,
    other: Step<'a>,
) -> Option<Difference<'a>>
    requires { place ≤ 4_194_305 }
    ensures { (list others : List Told) → first_apart place (before_told position step.entry list) (before_told position other.entry others)
        ≡ apart_or (option_map apart_of result) (first_apart (place_behind position place) list others) }
{
    if !position {
        return number_difference(place, step, other);
    }
    if step.position != other.position {
        return Some(Difference {
            place,
            at_position: true,
            step: Some(step),
            other: Some(other),
        });
    }
    number_difference(place + 1, step, other)
}

// Whether the numbers of two steps differ, which stand at this place.
fn number_difference<'a>(place: u64, step: Step<'a>, other: Step<'a>) -> Option<Difference<'a>>
    ensures { (list others : List Told) → first_apart place (told_number (source_of step.entry) ∷ list)
        (told_number (source_of other.entry) ∷ others) ≡ apart_or (option_map apart_of result) (first_apart (suc place) list others) }
{
    if step.number == other.number {
        return None;
    }
    Some(Difference {
        place,
        at_position: false,
        step: Some(step),
        other: Some(other),
    })
}
