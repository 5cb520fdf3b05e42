//! Which slot a character has, found by code point.
//!
//! Characters that are used stand close together, in a few ranges. So a range of code points gets a page of slots once one of its
//! characters needs one, and a list says which page a range has: a slot is found by two indexes, with no hash. Whoever keeps
//! something for characters has such a list, and one of slots.

ghost use Rattle.std.specs.Prelude.{◌≡◌, ◌<◌, ◌≤◌, ◌+◌, ◌*◌, ◌/◌, ◌^◌, ℕ, Some, length, slice_index_or, slice_set, vec_len, IfOk, OnOk, OnErr};
ghost use Rattle.coll_lookups.specs.CharPages.{page_at, place_of, ArePages, SameSlots};

use std::alloc::AllocError;

// The number of code points in a range, and of slots in a page.
const PAGE: usize = 128;

/// The place of the slot of a character, if it has one.
#[inline]
pub(crate) fn place_of(pages: &[u16], c: char) -> Option<usize>
    ensures { result ≡ place_of pages.now c }
{
    let code = c as usize;
    let Some(page) = pages.get(code / PAGE) else {
        return None;
    };
    if *page == 0 {
        return None;
    }
    Some((usize::from(*page) - 1) * PAGE + code % PAGE)
}

/// The place of the slot of a character, which gets one where it has none. Where memory is refused, each character has the slot that
/// it had.
pub(crate) fn make_place<S: Copy>(
    pages: &mut Vec<u16>,
    slots: &mut Vec<S>,
    c: char,
    free: S,
) -> Result<usize, AllocError>
    requires pages { ArePages pages.old.items (length slots.old.items) }
    requires few { vec_len slots.old < 2 ^ 63 }
    ensures pages { ArePages pages.new.items (length slots.new.items) }
    ensures same { SameSlots free pages.old.items slots.old.items pages.new.items slots.new.items }
    ensures longer { length pages.old.items ≤ length pages.new.items }
    ensures place { IfOk result (λ place. place_of pages.new.items c ≡ Some place) }
    ensures within { IfOk result (λ place. place < vec_len slots.new) }
{
    if let Some(place) = place_of(pages, c) {
        return Ok(place);
    }
    make_range(pages, c)?;
    let size = slots.len();
    add_page(slots, free)?;
    give_page(pages, c, (size / PAGE + 1) as u16);
    Ok(size + c as usize % PAGE)
}

// Makes the list of pages so long that the range of a character may have one. What is new in it is 0.
fn make_range(pages: &mut Vec<u16>, c: char) -> Result<(), AllocError>
    ensures within { OnOk result (c / 128 < vec_len pages.new) }
    ensures same { (range : ℕ) → page_at pages.new.items range ≡ page_at pages.old.items range }
    ensures longer { length pages.old.items ≤ length pages.new.items }
{
    let range = c as usize / PAGE;
    if range < pages.len() {
        return Ok(());
    }
    pages.resize(range + 1, 0)
}

// Puts a page of free slots behind all others.
fn add_page<S: Copy>(slots: &mut Vec<S>, free: S) -> Result<(), AllocError>
    requires { vec_len slots.old < 2 ^ 63 }
    ensures same { (place : ℕ) → slice_index_or slots.new.items place free ≡ slice_index_or slots.old.items place free }
    ensures ok { OnOk result (length slots.new.items ≡ length slots.old.items + 128) }
    ensures err { OnErr result (slots.new.items ≡ slots.old.items) }
{
    slots.resize(slots.len() + PAGE, free)
}

// Gives the range of a character this page.
fn give_page(pages: &mut Vec<u16>, c: char, page: u16)
    requires { c / 128 < vec_len pages.old }
    ensures { pages.new.items ≡ slice_set pages.old.items (c / 128) page }
{
    pages[c as usize / PAGE] = page;
}
