//! The written form of sort keys.
//!
//! It is `written_key` of `specs/WrittenKey.antt`: for each level its numbers as ranks, and a bar. None of this takes memory.

ghost use Rattle.std.specs.Prelude.{◌≡◌, ◌++◌, ◌∷◌, [], ◌&&◌, not, true, codes, decimal};
ghost use Rattle.std.specs.List.{flat_map};
ghost use Rattle.coll_lex.specs.Characters.{space};
ghost use Rattle.coll_devices.specs.Devices.{Writes};
ghost use Rattle.coll_key.specs.WrittenKey.{behind_space, joined_by_spaces, before_space, level_words, position_word, number_word};
ghost use Rattle.coll_key.specs.WrittenKey.{word_of, words_of, key_words, first_level, later_levels, written_key, has_key_form};

use crate::limits::RANK_STEP;
use coll_devices::{Sink, WriteStop, write_bytes};
use coll_syntax::Rule;
use coll_texts::{Piece, write_pieces};

/// Writes a sort key, without a line feed behind it.
///
/// The numbers have the form of a key: as many zeros as levels, one of them at the end, and for a level with `position` an even
/// count of numbers. Where it stops, the device has taken a prefix of the written form.
#[tactic(auto, unfolding(crate::specs::WrittenKey::written_key))]
pub fn write_key<W: Sink>(rules: &[Rule], key: &[u64], out: &mut W) -> Result<(), WriteStop>
    requires { has_key_form rules.now key.now ≡ true }
    ensures { Writes (W.taken out.old) (W.taken out.new) (W.failed out.old) (W.failed out.new) (written_key rules.now key.now) result }
{
    let Some((first, later)) = rules.split_first() else {
        return Ok(());
    };
    let (level, left) = split_level(key);
    write_level(out, first.position, level)?;
    write_later_levels(out, later, left)
}

// Writes levels with a space before each.
fn write_later_levels<W: Sink>(out: &mut W, rules: &[Rule], key: &[u64]) -> Result<(), WriteStop>
    ensures { Writes (W.taken out.old) (W.taken out.new) (W.failed out.old) (W.failed out.new)
        (flat_map behind_space (key_words rules.now key.now)) result }
{
    let mut left = key;
    for rule in rules {
        let (level, later) = split_level(left);
        // Not `?`: behind its conversion this exit would need a lemma.
        if let Err(stop) = write_level_behind(out, rule.position, level) {
            return Err(stop);
        }
        left = later;
    }
    Ok(())
}

// Writes a space and a level.
fn write_level_behind<W: Sink>(out: &mut W, position: bool, level: &[u64]) -> Result<(), WriteStop>
    ensures { Writes (W.taken out.old) (W.taken out.new) (W.failed out.old) (W.failed out.new)
        (space ∷ joined_by_spaces (level_words position level.now)) result }
{
    write_bytes(out, b" ")?;
    write_level(out, position, level)
}

// Writes the numbers of a level, and its end.
fn write_level<W: Sink>(out: &mut W, position: bool, level: &[u64]) -> Result<(), WriteStop>
    ensures { Writes (W.taken out.old) (W.taken out.new) (W.failed out.old) (W.failed out.new)
        (joined_by_spaces (level_words position level.now)) result }
{
    write_numbers(out, position, level)?;
    write_bytes(out, b"|")
}

// Writes numbers with a space behind each; with `position` every other one, from the first on, is a position.
fn write_numbers<W: Sink>(out: &mut W, position: bool, numbers: &[u64]) -> Result<(), WriteStop>
    ensures { Writes (W.taken out.old) (W.taken out.new) (W.failed out.old) (W.failed out.new)
        (flat_map before_space (words_of position position numbers.now)) result }
{
    let mut at_position = position;
    for number in numbers {
        if let Err(stop) = write_word(out, at_position, *number) {
            return Err(stop);
        }
        at_position = is_next_position(position, at_position);
    }
    Ok(())
}

// A position stands behind this place.
fn is_next_position(position: bool, at_position: bool) -> bool
    ensures { result ≡ (position && not at_position) }
{
    position && !at_position
}

// Writes a position or a number, and a space behind it.
fn write_word<W: Sink>(out: &mut W, at_position: bool, number: u64) -> Result<(), WriteStop>
    ensures { Writes (W.taken out.old) (W.taken out.new) (W.failed out.old) (W.failed out.new)
        (before_space (word_of at_position number)) result }
{
    if at_position {
        write_position(out, number)
    } else {
        write_ranked(out, number)
    }
}

// Writes a position, and a space behind it.
fn write_position<W: Sink>(out: &mut W, position: u64) -> Result<(), WriteStop>
    ensures { Writes (W.taken out.old) (W.taken out.new) (W.failed out.old) (W.failed out.new)
        (before_space (position_word position)) result }
{
    write_pieces(
        out,
        &[
            Piece::Bytes(b"@"),
            Piece::Number(position),
            Piece::Bytes(b" "),
        ],
    )
}

// Writes a number as its rank and what was added, if something was, and a space behind it.
fn write_ranked<W: Sink>(out: &mut W, number: u64) -> Result<(), WriteStop>
    ensures { Writes (W.taken out.old) (W.taken out.new) (W.failed out.old) (W.failed out.new) (before_space (number_word number)) result }
{
    let rank = number / RANK_STEP;
    match number % RANK_STEP {
        0 => write_pieces(out, &[Piece::Number(rank), Piece::Bytes(b" ")]),
        added => write_added(out, rank, added),
    }
}

// Writes a rank and what was added to its number, and a space behind them.
fn write_added<W: Sink>(out: &mut W, rank: u64, added: u64) -> Result<(), WriteStop>
    ensures { Writes (W.taken out.old) (W.taken out.new) (W.failed out.old) (W.failed out.new)
        (before_space (decimal rank ++ (codes "+" ++ decimal added))) result }
{
    write_pieces(
        out,
        &[
            Piece::Number(rank),
            Piece::Bytes(b"+"),
            Piece::Number(added),
            Piece::Bytes(b" "),
        ],
    )
}

// The numbers before the first 0, and what stands behind it.
fn split_level(key: &[u64]) -> (&[u64], &[u64])
    ensures level { result.0.now ≡ first_level key.now }
    ensures later { result.1.now ≡ later_levels key.now }
{
    for (at, number) in key.iter().enumerate() {
        if *number == 0 {
            return (&key[..at], &key[at + 1..]);
        }
    }
    (key, &[])
}
