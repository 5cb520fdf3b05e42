//! Tables of the shape of a system's common table: symbols are declared and placed, and then characters, each with four weights.

use crate::random::Random;
use crate::scripts::{
    Alphabet, ELEMENT_SCRIPT, Letter, Part, SCRIPTS, Shape, TAILS, UNPLACED, script_codes,
    script_name, shuffled,
};
use crate::texts::Text;
use std::alloc::{AllocError, Global};

// So many bytes a table has at most, nearly.
const ROOM: usize = 7_500_000;

/// How many marks there are beside `BASE`, `MIN` and `CAP`: accents.
pub(crate) const MARKS: u32 = 150;

/// The number of the first mark.
pub(crate) const FIRST_MARK: u32 = 0x300;

/// What the names of marks begin with.
pub(crate) const MARK_PREFIX: u8 = b'M';

// Most letters that begin elements, and most that follow them in one.
const ELEMENT_LETTERS: usize = 31;

const ELEMENT_ENDS: usize = 28;

// What comments are made of.
const WORDS: &[&[u8]] = &[
    b" LETTER",
    b" SMALL",
    b" CAPITAL",
    b" WITH",
    b" SIGN",
    b" ABOVE",
    b" BELOW",
    b" FINAL",
    b" HAH",
    b" KAF",
    b" DOT",
    b" RING",
    b" HOOK",
    b" STROKE",
    b" VOWEL",
    b" YEH",
];

/// The text of a table.
pub(crate) fn table_text(
    alloc: Global,
    random: &mut Random,
    alphabet: &Alphabet,
) -> Result<Text, AllocError> {
    let mut text = Text::new(alloc, ROOM)?;
    text.put(b"comment_char %\nescape_char /\n% A table of many scripts\nLC_COLLATE\n")?;
    declare_marks(&mut text)?;
    declare_scripts(alloc, &mut text, random, alphabet)?;
    declare_names(&mut text, alphabet.tail_prefix, TAILS, alphabet)?;
    declare_names(&mut text, alphabet.prefix, UNPLACED, alphabet)?;
    declare_elements(&mut text, alphabet)?;
    text.put(b"order_start forward;forward;forward;forward,position\n")?;
    place_marks(&mut text)?;
    place_symbols(&mut text, alphabet)?;
    place_names(&mut text, alphabet.tail_prefix, TAILS, alphabet)?;
    place_sections(&mut text, random, alphabet)?;
    place_elements(&mut text, alphabet)?;
    place_ideographs(&mut text, alphabet)?;
    text.put(b"order_end\nEND LC_COLLATE\n")?;
    Ok(text)
}

/// Declares the marks.
pub(crate) fn declare_marks(text: &mut Text) -> Result<(), AllocError> {
    text.put(b"collating-symbol <BASE>\ncollating-symbol <MIN>\ncollating-symbol <CAP>\n")?;
    for mark in 0..MARKS {
        text.put(b"collating-symbol ")?;
        text.put_name(MARK_PREFIX, FIRST_MARK + mark)?;
        text.put(b"\n")?;
    }
    Ok(())
}

// Declares a symbol for each code point of the scripts, script by script.
fn declare_scripts(
    alloc: Global,
    text: &mut Text,
    random: &mut Random,
    alphabet: &Alphabet,
) -> Result<(), AllocError> {
    let order = shuffled(alloc, random, SCRIPTS.len())?;
    for script in order.iter() {
        let codes = script_codes(*script, alphabet.size);
        declare_names(text, alphabet.prefix, codes, alphabet)?;
    }
    Ok(())
}

// Declares a symbol for each of some code points.
fn declare_names(
    text: &mut Text,
    prefix: u8,
    codes: (u32, u32),
    alphabet: &Alphabet,
) -> Result<(), AllocError> {
    for number in 0..codes.1.min(alphabet.size.others) {
        text.put(b"collating-symbol ")?;
        text.put_name(prefix, codes.0.saturating_add(number))?;
        text.put(b"\n")?;
    }
    Ok(())
}

/// Places the marks.
pub(crate) fn place_marks(text: &mut Text) -> Result<(), AllocError> {
    text.put(b"<BASE>\n<MIN>\n<CAP>\n")?;
    for mark in 0..MARKS {
        text.put_name(MARK_PREFIX, FIRST_MARK + mark)?;
        text.put(b"\n")?;
    }
    Ok(())
}

/// Places the symbols of all letters that have one.
pub(crate) fn place_symbols(text: &mut Text, alphabet: &Alphabet) -> Result<(), AllocError> {
    for letter in alphabet.letters.iter() {
        if letter.shape == Shape::Plain {
            text.put_name(alphabet.prefix, letter.code)?;
            text.put(b"\n")?;
        }
    }
    Ok(())
}

/// Places a symbol for each of some code points.
pub(crate) fn place_names(
    text: &mut Text,
    prefix: u8,
    codes: (u32, u32),
    alphabet: &Alphabet,
) -> Result<(), AllocError> {
    for number in 0..codes.1.min(alphabet.size.others) {
        text.put_name(prefix, codes.0.saturating_add(number))?;
        text.put(b"\n")?;
    }
    Ok(())
}

// Places the letters. Each second script begins a section.
fn place_sections(
    text: &mut Text,
    random: &mut Random,
    alphabet: &Alphabet,
) -> Result<(), AllocError> {
    for (number, part) in alphabet.parts.iter().enumerate() {
        if number % 2 == 0 {
            text.put(b"section <")?;
            text.put(script_name(part.script))?;
            text.put(b">\n")?;
        }
        place_letters(text, random, alphabet, *part)?;
    }
    Ok(())
}

/// Places the letters of a script.
pub(crate) fn place_letters(
    text: &mut Text,
    random: &mut Random,
    alphabet: &Alphabet,
    part: Part,
) -> Result<(), AllocError> {
    for letter in alphabet.letters_of(part) {
        put_letter(text, alphabet.prefix, *letter)?;
        put_comment(text, random, script_name(part.script))?;
    }
    Ok(())
}

/// Puts the order line of a letter, without its end.
pub(crate) fn put_letter(text: &mut Text, prefix: u8, letter: Letter) -> Result<(), AllocError> {
    text.put_code(letter.code)?;
    text.put(b" ")?;
    match letter.shape {
        Shape::Plain => put_levels(text, prefix, letter.base, b";<BASE>;<MIN>;")?,
        Shape::Capital => put_levels(text, prefix, letter.base, b";<BASE>;<CAP>;")?,
        Shape::Accented(mark) => put_accented(text, prefix, letter.base, mark)?,
        Shape::Double(second) => put_double(text, prefix, letter.base, second)?,
        Shape::Sign => text.put(b"IGNORE;IGNORE;IGNORE;")?,
    }
    text.put_code(letter.code)
}

// Puts a symbol, and what stands at the next levels.
fn put_levels(text: &mut Text, prefix: u8, base: u32, levels: &[u8]) -> Result<(), AllocError> {
    text.put_name(prefix, base)?;
    text.put(levels)
}

// Puts the first three levels of a letter with an accent: it is a part of the second level.
fn put_accented(text: &mut Text, prefix: u8, base: u32, mark: u32) -> Result<(), AllocError> {
    text.put_name(prefix, base)?;
    text.put(b";\"<BASE>")?;
    text.put_name(MARK_PREFIX, FIRST_MARK.saturating_add(mark))?;
    text.put(b"\";\"<MIN><MIN>\";")
}

// Puts the first three levels of what stands for two letters.
fn put_double(text: &mut Text, prefix: u8, base: u32, second: u32) -> Result<(), AllocError> {
    text.put(b"\"")?;
    text.put_name(prefix, base)?;
    text.put_name(prefix, second)?;
    text.put(b"\";\"<BASE><BASE>\";\"<CAP><MIN>\";")
}

/// Puts a comment, and the end of a line.
pub(crate) fn put_comment(
    text: &mut Text,
    random: &mut Random,
    script: &[u8],
) -> Result<(), AllocError> {
    text.put(b" % ")?;
    text.put(script)?;
    let mut choice = random.number();
    for _ in 0..4 {
        if let Some(word) = WORDS.get((choice % 20) as usize) {
            text.put(*word)?;
        }
        choice /= 20;
    }
    text.put(b"\n")
}

// Puts the name of the element of two letters.
fn put_element_name(text: &mut Text, first: u32, second: u32) -> Result<(), AllocError> {
    text.put(b"<E")?;
    text.put_digits(first, 4)?;
    text.put(b"_")?;
    text.put_digits(second, 4)?;
    text.put(b">")
}

// The letters that begin elements, and those that follow them.
fn element_letters(alphabet: &Alphabet) -> (&[Letter], &[Letter]) {
    let letters = alphabet.script(ELEMENT_SCRIPT);
    let middle = letters.len() / 2;
    let (first, second) = letters.split_at(middle);
    (
        &first[..ELEMENT_LETTERS.min(first.len())],
        &second[..ELEMENT_ENDS.min(second.len())],
    )
}

/// Declares the elements: each two of some letters.
pub(crate) fn declare_elements(text: &mut Text, alphabet: &Alphabet) -> Result<(), AllocError> {
    let (firsts, seconds) = element_letters(alphabet);
    for first in firsts {
        for second in seconds {
            text.put(b"collating-element ")?;
            put_element_name(text, first.code, second.code)?;
            text.put(b" from \"")?;
            text.put_code(first.code)?;
            text.put_code(second.code)?;
            text.put(b"\"\n")?;
        }
    }
    Ok(())
}

/// Places the elements.
pub(crate) fn place_elements(text: &mut Text, alphabet: &Alphabet) -> Result<(), AllocError> {
    let (firsts, seconds) = element_letters(alphabet);
    for first in firsts {
        for second in seconds {
            put_element_name(text, first.code, second.code)?;
            text.put(b" ")?;
            put_double(text, alphabet.prefix, first.base, second.base)?;
            text.put(b"\"")?;
            text.put_code(first.code)?;
            text.put_code(second.code)?;
            text.put(b"\"\n")?;
        }
    }
    Ok(())
}

// Places the ideographs, each with itself as its weight.
fn place_ideographs(text: &mut Text, alphabet: &Alphabet) -> Result<(), AllocError> {
    text.put(b"section <HAN>\n")?;
    for number in 0..alphabet.ideographs() {
        put_ideograph(text, alphabet.ideograph(number))?;
    }
    Ok(())
}

/// Puts the order line of an ideograph.
pub(crate) fn put_ideograph(text: &mut Text, code: u32) -> Result<(), AllocError> {
    text.put_code(code)?;
    text.put(b" ")?;
    text.put_code(code)?;
    text.put(b";IGNORE;IGNORE;IGNORE\n")
}
