//! An entry is shown: its rank, its weights and its section, and three neighbours on each side.
//!
//! What is shown is stated by places in the order of the table (`specs/Showing.antt`). Here neighbours are found by their nodes, and
//! the rank by the places of the entries, where these are known; else the entries before the one that is shown are counted, which is the
//! simple form: the clause `sent` of `write_shown` says the same of both. A character without an entry stands where `UNDEFINED` does, or
//! behind all entries where that has none. Nothing here takes memory.

ghost use Rattle.std.specs.Prelude.{◌≡◌, ◌≤◌, ◌+◌, ◌-◌, ℕ, None, Some, true, chars, codes, length, option_copied, option_map, IfSome, OnOk};
ghost use Rattle.std.specs.List.{flat_map};
ghost use Rattle.coll_devices.specs.Devices.{CountsErr, Sends, Writes};
ghost use Rattle.coll_syntax.specs.declared.identifiers.Id.TheVariants.{Undefined};
ghost use Rattle.coll_nodes.specs.NodeNumbers.{AreNumbersOf};
ghost use Rattle.coll_nodes.specs.Placement.{entry_at, place_among};
ghost use Rattle.coll_nodes.specs.Table.{entries_of};
ghost use Rattle.coll_nodes.specs.TableLayout.{collation};
ghost use Rattle.coll_texts.specs.Pieces.{piece_bytes};
ghost use Rattle.coll_edit_replies.specs.Showing.{around, entry_in, entry_told, line_if, marked_bytes, place_of, place_told, placed_told};
ghost use Rattle.coll_edit_replies.specs.Showing.{absent_told, rank_line, shown, spot_place, IsEntryIn, IsSpot};

use crate::replies::{flush, write_refusal};
use coll_bench::Fault;
use coll_devices::{Sink, WriteStop};
use coll_nodes::{Entry, WalkItem};
use coll_syntax::Id;
use coll_table::{EntryNumbers, Refusal, Table};
use coll_texts::{Piece, write_pieces, write_weighed};

// A place in a table: that of an entry, or the one behind all entries.
#[derive(Clone, Copy)]
struct Spot<'a> {
    // The entry directly before it, if there is one.
    before: Option<&'a Entry>,
    // The entry that stands there, if one does.
    here: Option<&'a Entry>,
    // The entry directly behind it, if there is one.
    behind: Option<&'a Entry>,
    // How many entries stand before it, and one more.
    rank: u64,
    // The name of its section, if it is in one that has a name.
    section: Option<&'a str>,
}

// A line that may be shown: an entry with its rank behind a mark, if there is one.
#[derive(Clone, Copy)]
struct MarkedLine<'a> {
    mark: &'a [u8],
    rank: u64,
    entry: Option<&'a Entry>,
}

/// Writes what `:show` shows of an identifier, and flushes it. The places are those of the table's entries, if they are known.
pub fn write_shown<W: Sink>(
    out: &mut W,
    table: &Table,
    places: Option<&EntryNumbers>,
    id: &Id,
) -> Result<(), WriteStop>
    requires { IfSome places (λ numbers. AreNumbersOf numbers.now table.now.layout) }
    ensures sent { Sends (W.taken out.old) (W.taken out.new) (shown (collation table.now) id.now) result }
    ensures errors { CountsErr (W.failed out.old) (W.failed out.new) result }
    ensures flushed { OnOk result (W.flushed out.new ≡ true) }
{
    match id {
        Id::Char(_) => match table.entry(id) {
            Some(entry) => write_entry(out, table, places, entry),
            None => write_absent(out, table, places, id),
        },
        Id::Named(name) => match table.resolve(name.get()) {
            Some(_) => write_placed(out, table, places, table.entry_of_name(name.get())),
            None => write_refusal(out, Fault::Table(Refusal::NotDeclared)),
        },
        Id::Undefined => write_placed(out, table, places, table.entry(id)),
    }
}

// Writes an entry and those around it, or that there is none.
fn write_placed<W: Sink>(
    out: &mut W,
    table: &Table,
    places: Option<&EntryNumbers>,
    placed: Option<&Entry>,
) -> Result<(), WriteStop>
    requires numbers { IfSome places (λ numbers. AreNumbersOf numbers.now table.now.layout) }
    requires placed { IfSome placed (λ entry. IsEntryIn (entries_of (collation table.now)) entry.now) }
    ensures sent { Sends (W.taken out.old) (W.taken out.new) (placed_told (collation table.now) (option_copied placed.entry)) result }
    ensures errors { CountsErr (W.failed out.old) (W.failed out.new) result }
    ensures flushed { OnOk result (W.flushed out.new ≡ true) }
{
    match placed {
        Some(entry) => write_entry(out, table, places, entry),
        None => write_refusal(out, Fault::Table(Refusal::NotPlaced)),
    }
}

// Writes an entry and those around it.
fn write_entry<W: Sink>(
    out: &mut W,
    table: &Table,
    places: Option<&EntryNumbers>,
    entry: &Entry,
) -> Result<(), WriteStop>
    requires numbers { IfSome places (λ numbers. AreNumbersOf numbers.now table.now.layout) }
    requires entry { IsEntryIn (entries_of (collation table.now)) entry.now }
    ensures sent { Sends (W.taken out.old) (W.taken out.new) (entry_told (collation table.now) entry.now) result }
    ensures errors { CountsErr (W.failed out.old) (W.failed out.new) result }
    ensures flushed { OnOk result (W.flushed out.new ≡ true) }
{
    let spot = spot_of(table, places, entry);
    write_spot(out, table, &[Piece::Bytes(b"shown ")], &spot)
}

// Writes that a character has no entry, and those around the place where it comes.
fn write_absent<W: Sink>(
    out: &mut W,
    table: &Table,
    places: Option<&EntryNumbers>,
    id: &Id,
) -> Result<(), WriteStop>
    requires { IfSome places (λ numbers. AreNumbersOf numbers.now table.now.layout) }
    ensures sent { Sends (W.taken out.old) (W.taken out.new) (absent_told (collation table.now) id.now) result }
    ensures errors { CountsErr (W.failed out.old) (W.failed out.new) result }
    ensures flushed { OnOk result (W.flushed out.new ≡ true) }
{
    let spot = spot_of_absent(table, places);
    let words = [Piece::Bytes(b"absent "), Piece::Id(id), Piece::Bytes(b" ")];
    write_spot(out, table, &words, &spot)
}

// The place of an entry.
fn spot_of<'a>(table: &'a Table, places: Option<&EntryNumbers>, entry: &'a Entry) -> Spot<'a>
    requires numbers { IfSome places (λ numbers. AreNumbersOf numbers.now table.now.layout) }
    requires entry { IsEntryIn (entries_of (collation table.now)) entry.now }
    ensures around { IsSpot (entries_of (collation table.now)) result }
    ensures place { spot_place result ≡ place_of (collation table.now) (Some entry.now) }
{
    table.lemma_well_formed();
    let id = entry.id();
    Spot {
        before: table.entry_before(id),
        here: Some(entry),
        behind: table.entry_behind(id),
        rank: rank_of(table, places, id),
        section: table.section_name(id),
    }
}

// The place where a character without an entry comes: that of `UNDEFINED`, or the one behind all entries.
fn spot_of_absent<'a>(table: &'a Table, places: Option<&EntryNumbers>) -> Spot<'a>
    requires { IfSome places (λ numbers. AreNumbersOf numbers.now table.now.layout) }
    ensures around { IsSpot (entries_of (collation table.now)) result }
    ensures place { spot_place result ≡ place_of (collation table.now) (entry_at (entries_of (collation table.now)) Undefined) }
{
    match table.entry(&Id::Undefined) {
        Some(entry) => spot_of(table, places, entry),
        None => {
            table.lemma_well_formed();
            Spot {
                before: table.last_entry(),
                here: None,
                behind: None,
                rank: table.len() as u64 + 1,
                section: None,
            }
        }
    }
}

// The entry before one, if both are there.
fn entry_before<'a>(table: &'a Table, one: Option<&'a Entry>) -> Option<&'a Entry>
    ensures { (place : ℕ) → place ≤ length (entries_of (collation table.now))
        → option_copied one.entry ≡ entry_in (entries_of (collation table.now)) place
        → option_copied result ≡ entry_in (entries_of (collation table.now)) (place - 1) }
{
    table.lemma_well_formed();
    match one {
        Some(entry) => table.entry_before(entry.id()),
        None => None,
    }
}

// The entry behind one, if both are there.
fn entry_behind<'a>(table: &'a Table, one: Option<&'a Entry>) -> Option<&'a Entry>
    ensures { (place : ℕ) → 1 ≤ place
        → option_copied one.entry ≡ entry_in (entries_of (collation table.now)) place
        → option_copied result ≡ entry_in (entries_of (collation table.now)) (place + 1) }
{
    table.lemma_well_formed();
    match one {
        Some(entry) => table.entry_behind(entry.id()),
        None => None,
    }
}

// The rank of an identifier that has an entry. Where the places aren't known, the entries up to it are counted.
fn rank_of(table: &Table, places: Option<&EntryNumbers>, id: &Id) -> u64
    requires { IfSome places (λ numbers. AreNumbersOf numbers.now table.now.layout) }
    ensures { (place : ℕ) → place_among (entries_of (collation table.now)) id.now ≡ Some place → result ≡ place }
{
    if let Some(places) = places {
        return u64::from(table.entry_number(places, id).unwrap_or(0));
    }
    table.lemma_well_formed();
    let mut before = 0u64;
    let mut left = table.walk();
    'walk: while let Some(item) = left.next() {
        let WalkItem::Entry(entry) = item else {
            continue;
        };
        if entry.id().is_same(id) {
            return before + 1;
        }
        before += 1;
    }
    before
}

// Writes the entries around a place, and last these words, its rank, and its section, if that has a name; and flushes them.
fn write_spot<W: Sink>(
    out: &mut W,
    table: &Table,
    words: &[Piece<'_>],
    spot: &Spot<'_>,
) -> Result<(), WriteStop>
    requires { IsSpot (entries_of (collation table.now)) spot.now }
    ensures sent { Sends (W.taken out.old) (W.taken out.new)
        (place_told (collation table.now) (flat_map piece_bytes words.now) (spot_place spot.now)) result }
    ensures errors { CountsErr (W.failed out.old) (W.failed out.new) result }
    ensures flushed { OnOk result (W.flushed out.new ≡ true) }
{
    write_lines(out, table, words, spot)?;
    flush(out)
}

// Writes the same, and flushes nothing.
fn write_lines<W: Sink>(
    out: &mut W,
    table: &Table,
    words: &[Piece<'_>],
    spot: &Spot<'_>,
) -> Result<(), WriteStop>
    requires { IsSpot (entries_of (collation table.now)) spot.now }
    ensures { Writes (W.taken out.old) (W.taken out.new) (W.failed out.old) (W.failed out.new)
        (place_told (collation table.now) (flat_map piece_bytes words.now) (spot_place spot.now)) result }
{
    // Not `?`: behind its conversion this exit would need a lemma.
    if let Err(stop) = write_around(out, table, spot) {
        return Err(stop);
    }
    match write_pieces(out, words) {
        Ok(()) => write_rank(out, spot.rank, spot.section),
        Err(stop) => Err(stop),
    }
}

// Writes the entries around a place: the three before it, the one that stands there, and the three behind it.
fn write_around<W: Sink>(out: &mut W, table: &Table, spot: &Spot<'_>) -> Result<(), WriteStop>
    requires { IsSpot (entries_of (collation table.now)) spot.now }
    ensures { Writes (W.taken out.old) (W.taken out.new) (W.failed out.old) (W.failed out.new)
        (around (entries_of (collation table.now)) spot.now.rank) result }
{
    table.lemma_well_formed();
    let second = entry_before(table, spot.before);
    let first = entry_before(table, second);
    let next = entry_behind(table, spot.behind);
    let last = entry_behind(table, next);
    write_marked(
        out,
        &[
            beside(spot.rank.saturating_sub(3), first),
            beside(spot.rank.saturating_sub(2), second),
            beside(spot.rank.saturating_sub(1), spot.before),
            MarkedLine {
                mark: b"> ",
                rank: spot.rank,
                entry: spot.here,
            },
            beside(spot.rank + 1, spot.behind),
            beside(spot.rank + 2, next),
            beside(spot.rank + 3, last),
        ],
    )
}

// The line of an entry beside the one that is shown.
fn beside(rank: u64, one: Option<&Entry>) -> MarkedLine<'_>
    ensures { marked_bytes result ≡ line_if (codes "  ") rank (option_copied one.entry) }
{
    MarkedLine {
        mark: b"  ",
        rank,
        entry: one,
    }
}

// Writes lines, one behind another.
fn write_marked<W: Sink>(out: &mut W, lines: &[MarkedLine<'_>]) -> Result<(), WriteStop>
    ensures { Writes (W.taken out.old) (W.taken out.new) (W.failed out.old) (W.failed out.new) (flat_map marked_bytes lines.now) result }
{
    for line in lines {
        // Not `?`: behind its conversion this exit would need a lemma.
        if let Err(stop) = write_line(out, line) {
            return Err(stop);
        }
    }
    Ok(())
}

// Writes a line, if it has an entry.
fn write_line<W: Sink>(out: &mut W, line: &MarkedLine<'_>) -> Result<(), WriteStop>
    ensures { Writes (W.taken out.old) (W.taken out.new) (W.failed out.old) (W.failed out.new) (marked_bytes line.now) result }
{
    let Some(entry) = line.entry else {
        return Ok(());
    };
    let head = [
        Piece::Bytes(line.mark),
        Piece::Number(line.rank),
        Piece::Bytes(b" "),
    ];
    match write_pieces(out, &head) {
        Ok(()) => write_weighed(out, entry),
        Err(stop) => Err(stop),
    }
}

// Writes a rank, and the name of a section, if there is one.
fn write_rank<W: Sink>(out: &mut W, rank: u64, section: Option<&str>) -> Result<(), WriteStop>
    ensures { Writes (W.taken out.old) (W.taken out.new) (W.failed out.old) (W.failed out.new)
        (rank_line rank (option_map (λ name. chars name.now) section.entry)) result }
{
    match section {
        Some(name) => write_pieces(
            out,
            &[
                Piece::Number(rank),
                Piece::Bytes(b" "),
                Piece::Symbol(name),
                Piece::Bytes(b"\n"),
            ],
        ),
        None => write_pieces(out, &[Piece::Number(rank), Piece::Bytes(b"\n")]),
    }
}
