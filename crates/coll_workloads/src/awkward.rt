//! Inputs that are real enough and hard: weights as long as may be, elements that begin alike, and texts with faults.

use crate::random::Random;
use crate::scripts::Alphabet;
use crate::texts::Text;
use std::alloc::{AllocError, Global};

// The first of the letters, and how many there are.
const LETTERS: (u32, u32) = (0x10_80, 200);

// So many letters are in the elements.
const ELEMENT_LETTERS: u32 = 4;

// So many names a weight has.
const NAMES: u32 = 32;

/// How many elements there are in a large table of these.
pub(crate) const ELEMENTS: u32 = 30_000;

/// A table in which weights have as many names as may be, and elements begin alike: so many of them.
pub(crate) fn crowded_table(
    alloc: Global,
    random: &mut Random,
    elements: u32,
) -> Result<Text, AllocError> {
    let mut text = Text::new(alloc, 4_000_000)?;
    text.put(b"comment_char %\nescape_char /\nLC_COLLATE\n")?;
    let first = LETTERS.0 + random.below(200) as u32;
    for number in 0..LETTERS.1 {
        text.put(b"collating-symbol ")?;
        text.put_name(b'W', number)?;
        text.put(b"\n")?;
    }
    declare_crowded(&mut text, first, elements)?;
    text.put(b"order_start forward;backward;forward;forward,position\n")?;
    for number in 0..LETTERS.1 {
        text.put_name(b'W', number)?;
        text.put(b"\n")?;
    }
    place_long_weights(&mut text, random, first)?;
    place_crowded(&mut text, elements)?;
    text.put(b"order_end\nEND LC_COLLATE\n")?;
    Ok(text)
}

// Declares elements of a few letters, which begin alike.
fn declare_crowded(text: &mut Text, first: u32, elements: u32) -> Result<(), AllocError> {
    for number in 0..elements {
        text.put(b"collating-element ")?;
        text.put_name(b'C', number)?;
        text.put(b" from \"")?;
        for _ in 0..number % 7 {
            text.put_code(first)?;
        }
        put_spread(text, first, number)?;
        text.put(b"\"\n")?;
    }
    Ok(())
}

// Puts a number, as eight of a few letters behind another one.
fn put_spread(text: &mut Text, first: u32, number: u32) -> Result<(), AllocError> {
    let mut rest = number;
    text.put_code(first.saturating_add(ELEMENT_LETTERS))?;
    for _ in 0..8 {
        text.put_code(first.saturating_add(rest % ELEMENT_LETTERS))?;
        rest /= ELEMENT_LETTERS;
    }
    Ok(())
}

// Places letters with weights of many names at each level.
fn place_long_weights(text: &mut Text, random: &mut Random, first: u32) -> Result<(), AllocError> {
    for number in 0..LETTERS.1 {
        text.put_code(first.saturating_add(number))?;
        text.put(b" ")?;
        for level in 0..4 {
            if level > 0 {
                text.put(b";")?;
            }
            put_long_weight(text, random)?;
        }
        text.put(b"\n")?;
    }
    Ok(())
}

// Puts a weight of many names.
fn put_long_weight(text: &mut Text, random: &mut Random) -> Result<(), AllocError> {
    text.put(b"\"")?;
    for _ in 0..NAMES {
        text.put_name(b'W', random.below(LETTERS.1 as usize) as u32)?;
    }
    text.put(b"\"")
}

// Places the elements, each with itself as its weight.
fn place_crowded(text: &mut Text, elements: u32) -> Result<(), AllocError> {
    for number in 0..elements {
        text.put_name(b'C', number)?;
        text.put(b";;IGNORE\n")?;
    }
    Ok(())
}

/// So many words of the letters that stand in elements, one a line.
pub(crate) fn crowded_words(
    alloc: Global,
    random: &mut Random,
    count: usize,
) -> Result<Text, AllocError> {
    let mut text = Text::new(alloc, count.saturating_mul(60))?;
    let first = LETTERS.0 + random.below(200) as u32;
    for _ in 0..count {
        for _ in 0..random.small_below(30).saturating_add(5) {
            text.put_char(first.saturating_add(random.below(6) as u32))?;
        }
        text.put(b"\n")?;
    }
    Ok(text)
}

/// A text in which so many bytes are others.
pub(crate) fn with_faults(
    alloc: Global,
    random: &mut Random,
    text: &[u8],
    count: usize,
) -> Result<Vec<u8>, AllocError> {
    let mut bytes = Vec::from_slice(alloc, text)?;
    for _ in 0..count {
        let place = random.below(bytes.len()).saturating_add(200);
        if let Some(byte) = bytes.get_mut(place) {
            if *byte != b'\n' {
                *byte = b'>';
            }
        }
    }
    Ok(bytes)
}

/// Lines of a session that move sections whole, with a look at the table's size behind each.
pub(crate) fn section_lines(
    alloc: Global,
    random: &mut Random,
    alphabet: &Alphabet,
    count: usize,
) -> Result<Text, AllocError> {
    let mut text = Text::new(alloc, count.saturating_mul(80))?;
    for number in 0..count {
        text.put(b"reorder-section-after <")?;
        put_section(&mut text, random, alphabet)?;
        text.put(b"> <HAN>\n")?;
        text.put(if number % 3 == 1 {
            b":undo\n"
        } else {
            b":check\n"
        })?;
    }
    Ok(text)
}

// Puts the name of one of the sections.
fn put_section(
    text: &mut Text,
    random: &mut Random,
    alphabet: &Alphabet,
) -> Result<(), AllocError> {
    let place = random.below(alphabet.parts.len()) & !1;
    match alphabet.parts.get(place) {
        Some(part) => text.put(crate::scripts::script_name(part.script)),
        None => Ok(()),
    }
}
