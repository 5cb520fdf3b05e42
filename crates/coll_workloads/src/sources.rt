//! Sources as locales publish them: ranges of names, ellipses, conditions, and a section for each script.

use crate::random::Random;
use crate::scripts::{
    Alphabet, IDEOGRAPHS, SCRIPTS, TAILS, UNPLACED, script_codes, script_name, shuffled,
};
use crate::tables::{
    declare_elements, declare_marks, place_elements, place_letters, place_marks, place_names,
    place_symbols,
};
use crate::tailorings::put_statements;
use crate::texts::Text;
use std::alloc::{AllocError, Global};

// So many bytes a source has at most, nearly.
const ROOM: usize = 4_500_000;

// What stands before the category of a source.
const HEAD: &[u8] =
    b"comment_char %\nescape_char /\n% A published source\nLC_IDENTIFICATION\ntitle \"A locale\"\n\
END LC_IDENTIFICATION\nLC_COLLATE\n";

/// A source that copies the one named `common`, and orders ideographs behind it.
pub(crate) fn whole_source(alloc: Global, alphabet: &Alphabet) -> Result<Text, AllocError> {
    let last = IDEOGRAPHS
        .0
        .saturating_add(alphabet.ideographs())
        .saturating_sub(1);
    let mut text = Text::new(alloc, 1_000)?;
    text.put(HEAD)?;
    text.put(
        b"copy \"common\"\nscript <HAN>\norder_start <HAN>;forward;forward;forward;forward,position\n",
    )?;
    text.put_code(IDEOGRAPHS.0)?;
    text.put(b" ")?;
    text.put_code(IDEOGRAPHS.0)?;
    text.put(b";IGNORE;IGNORE;IGNORE\n.. ..;IGNORE;IGNORE;IGNORE\n")?;
    text.put_code(last)?;
    text.put(b" ")?;
    text.put_code(last)?;
    text.put(b";IGNORE;IGNORE;IGNORE\norder_end\nEND LC_COLLATE\n")?;
    Ok(text)
}

/// The source that it copies.
pub(crate) fn common_source(
    alloc: Global,
    random: &mut Random,
    alphabet: &Alphabet,
) -> Result<Text, AllocError> {
    let mut text = Text::new(alloc, ROOM)?;
    text.put(HEAD)?;
    put_ranges(alloc, &mut text, random, alphabet)?;
    declare_marks(&mut text)?;
    declare_elements(&mut text, alphabet)?;
    text.put(b"order_start <SPECIAL>;forward;forward;forward;forward,position\n")?;
    place_marks(&mut text)?;
    place_symbols(&mut text, alphabet)?;
    place_names(&mut text, alphabet.tail_prefix, TAILS, alphabet)?;
    text.put(b"order_end\n")?;
    put_sections(&mut text, random, alphabet)?;
    text.put(b"END LC_COLLATE\n")?;
    Ok(text)
}

// Declares symbols by ranges of names.
fn put_ranges(
    alloc: Global,
    text: &mut Text,
    random: &mut Random,
    alphabet: &Alphabet,
) -> Result<(), AllocError> {
    let order = shuffled(alloc, random, SCRIPTS.len())?;
    for script in order.iter() {
        put_range(
            text,
            alphabet.prefix,
            script_codes(*script, alphabet.size),
            alphabet,
        )?;
    }
    put_range(text, alphabet.tail_prefix, TAILS, alphabet)?;
    put_range(text, alphabet.prefix, UNPLACED, alphabet)
}

// Declares the symbols of some code points by a range.
fn put_range(
    text: &mut Text,
    prefix: u8,
    codes: (u32, u32),
    alphabet: &Alphabet,
) -> Result<(), AllocError> {
    let last = codes
        .0
        .saturating_add(codes.1.min(alphabet.size.others))
        .saturating_sub(1);
    text.put(b"collating-symbol ")?;
    text.put_name(prefix, codes.0)?;
    text.put(b"..")?;
    text.put_name(prefix, last)?;
    text.put(b" % a script\n")
}

// Puts a section for each script.
fn put_sections(
    text: &mut Text,
    random: &mut Random,
    alphabet: &Alphabet,
) -> Result<(), AllocError> {
    for part in alphabet.parts.iter() {
        text.put(b"order_start <")?;
        text.put(script_name(part.script))?;
        text.put(b">;forward;forward;forward;forward,position\n")?;
        place_letters(text, random, alphabet, *part)?;
        text.put(b"order_end\n")?;
    }
    text.put(b"order_start <PAIRS>;forward;forward;forward;forward,position\n")?;
    place_elements(text, alphabet)?;
    text.put(b"order_end\n")
}

/// A source that tailors the one named `whole`: so many statements over the letters of two scripts.
pub(crate) fn tailoring_source(
    alloc: Global,
    random: &mut Random,
    alphabet: &Alphabet,
    scripts: (usize, usize),
    statements: usize,
) -> Result<Text, AllocError> {
    let mut text = Text::new(alloc, statements.saturating_mul(160).saturating_add(1_000))?;
    text.put(HEAD)?;
    text.put(b"copy \"whole\"\n% The rules of a locale\n")?;
    put_statements(&mut text, random, alphabet, scripts, statements)?;
    text.put(b"END LC_COLLATE\n")?;
    Ok(text)
}
