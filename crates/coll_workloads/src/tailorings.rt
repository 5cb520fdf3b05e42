//! Delta files, as tailorings of a common table have them, statement by statement.

use crate::random::Random;
use crate::scripts::{Alphabet, Letter, Shape};
use crate::tables::{FIRST_MARK, MARK_PREFIX, MARKS, put_comment, put_ideograph, put_letter};
use crate::texts::Text;
use std::alloc::{AllocError, Global};

// Most lines of a block that moves ideographs.
const BLOCK_LINES: u32 = 4_096;

/// What begins a delta file.
pub(crate) fn put_beginning(text: &mut Text) -> Result<(), AllocError> {
    text.put(b"comment_char %\nescape_char /\nLC_COLLATE\n")
}

/// What ends a delta file.
pub(crate) fn put_ending(text: &mut Text) -> Result<(), AllocError> {
    text.put(b"END LC_COLLATE\n")
}

/// A delta file without statements.
pub(crate) fn no_tailoring(alloc: Global) -> Result<Text, AllocError> {
    let mut text = Text::new(alloc, 100)?;
    put_beginning(&mut text)?;
    put_ending(&mut text)?;
    Ok(text)
}

/// A tailoring of so many statements: new letters of a script stand behind old ones, and letters of it and of another one are put
/// again.
pub(crate) fn tailoring(
    alloc: Global,
    random: &mut Random,
    alphabet: &Alphabet,
    scripts: (usize, usize),
    statements: usize,
) -> Result<Text, AllocError> {
    let mut text = Text::new(alloc, statements.saturating_mul(160))?;
    put_beginning(&mut text)?;
    put_statements(&mut text, random, alphabet, scripts, statements)?;
    put_ending(&mut text)?;
    Ok(text)
}

/// Puts so many statements over the letters of two scripts, the first more often.
pub(crate) fn put_statements(
    text: &mut Text,
    random: &mut Random,
    alphabet: &Alphabet,
    scripts: (usize, usize),
    statements: usize,
) -> Result<(), AllocError> {
    for number in 0..statements {
        let script = if random.is_so(60) {
            scripts.0
        } else {
            scripts.1
        };
        put_statement(text, random, alphabet, alphabet.script(script), number)?;
    }
    Ok(())
}

/// Puts a statement over some letters; of a new letter also its declaration, which is a statement more.
pub(crate) fn put_statement(
    text: &mut Text,
    random: &mut Random,
    alphabet: &Alphabet,
    letters: &[Letter],
    number: usize,
) -> Result<(), AllocError> {
    match random.below(10) {
        0..=2 => put_new_letter(text, random, alphabet, letters, number),
        3..=4 => put_symbol_move(text, random, alphabet, letters),
        5..=7 => {
            let lines = random.small_below(10).saturating_add(1);
            put_block(text, random, alphabet, letters, lines)
        }
        8 => put_reweight(text, random, alphabet, letters),
        _ => put_declaration(text, number),
    }
}

// Declares a symbol.
fn put_declaration(text: &mut Text, number: usize) -> Result<(), AllocError> {
    text.put(b"collating-symbol <new-letter-")?;
    text.put_number(number)?;
    text.put(b">\n")
}

// Declares a symbol, places it behind that of a letter, and weighs letters by it.
fn put_new_letter(
    text: &mut Text,
    random: &mut Random,
    alphabet: &Alphabet,
    letters: &[Letter],
    number: usize,
) -> Result<(), AllocError> {
    let Some(letter) = some_of(random, letters) else {
        return Ok(());
    };
    put_declaration(text, number)?;
    text.put(b"reorder-after ")?;
    text.put_name(alphabet.prefix, letter.base)?;
    text.put(b"\n<new-letter-")?;
    text.put_number(number)?;
    text.put(b">\n")?;
    text.put_code(letter.code)?;
    text.put(b" <new-letter-")?;
    text.put_number(number)?;
    text.put(b">;\"<BASE><BASE>\";\"<MIN><MIN>\";IGNORE % new\nreorder-end\n")
}

// Moves the symbol of a letter behind that of another one.
fn put_symbol_move(
    text: &mut Text,
    random: &mut Random,
    alphabet: &Alphabet,
    letters: &[Letter],
) -> Result<(), AllocError> {
    let (Some(target), Some(moved)) = (some_of(random, letters), some_of(random, letters)) else {
        return Ok(());
    };
    if target.base == moved.base {
        return Ok(());
    }
    text.put(b"reorder-after ")?;
    text.put_name(alphabet.prefix, target.base)?;
    text.put(b"\n")?;
    text.put_name(alphabet.prefix, moved.base)?;
    text.put(b"\nreorder-end\n")
}

// Puts letters that stand one behind another behind a letter before them, with new weights.
fn put_block(
    text: &mut Text,
    random: &mut Random,
    alphabet: &Alphabet,
    letters: &[Letter],
    lines: usize,
) -> Result<(), AllocError> {
    let target = random.below(letters.len());
    let Some((target, later)) = letters[target.min(letters.len())..].split_first() else {
        return Ok(());
    };
    text.put(b"reorder-after ")?;
    text.put_code(target.code)?;
    text.put(b"\n")?;
    for letter in later.iter().take(lines) {
        put_letter(
            text,
            alphabet.prefix,
            accented(*letter, target.base, random),
        )?;
        put_comment(text, random, b"PUT AGAIN")?;
    }
    text.put(b"reorder-end\n")
}

// A letter that is another one with an accent.
fn accented(letter: Letter, base: u32, random: &mut Random) -> Letter {
    Letter {
        code: letter.code,
        base,
        shape: Shape::Accented(random.below(MARKS as usize) as u32),
    }
}

// Gives a letter other weights where it stands.
fn put_reweight(
    text: &mut Text,
    random: &mut Random,
    alphabet: &Alphabet,
    letters: &[Letter],
) -> Result<(), AllocError> {
    let (Some(letter), Some(other)) = (some_of(random, letters), some_of(random, letters)) else {
        return Ok(());
    };
    text.put_code(letter.code)?;
    text.put(b" ")?;
    text.put_name(alphabet.prefix, other.base)?;
    text.put(b";")?;
    text.put_name(
        MARK_PREFIX,
        FIRST_MARK + random.below(MARKS as usize) as u32,
    )?;
    text.put(b";<CAP>;")?;
    text.put_code(letter.code)?;
    text.put(b"\n")
}

/// One of some letters.
pub(crate) fn some_of(random: &mut Random, letters: &[Letter]) -> Option<Letter> {
    letters.get(random.below(letters.len())).copied()
}

/// A tailoring that puts so many ideographs in another order, by strokes, in blocks as long as may be.
pub(crate) fn stroke_tailoring(
    alloc: Global,
    random: &mut Random,
    alphabet: &Alphabet,
    count: u32,
) -> Result<Text, AllocError> {
    let mut text = Text::new(alloc, count as usize * 48 + 1_000)?;
    put_beginning(&mut text)?;
    put_strokes(
        &mut text,
        random,
        alphabet,
        count.min(alphabet.ideographs()),
    )?;
    put_ending(&mut text)?;
    Ok(text)
}

/// Puts the blocks of such a tailoring.
pub(crate) fn put_strokes(
    text: &mut Text,
    random: &mut Random,
    alphabet: &Alphabet,
    count: u32,
) -> Result<(), AllocError> {
    let step = 2 * random.below(3_000) as u32 + 101;
    let mut behind = b"<CAP>\n";
    for number in 0..count {
        if number % BLOCK_LINES == 0 {
            text.put(b"reorder-after ")?;
            text.put(behind)?;
            behind = b"<MIN>\n";
        }
        let turned = (u64::from(number) * u64::from(step))
            % u64::from(alphabet.ideographs().max(1));
        put_ideograph(text, alphabet.ideograph(turned as u32))?;
        if number % BLOCK_LINES == BLOCK_LINES - 1 {
            text.put(b"reorder-end\n")?;
        }
    }
    text.put(b"reorder-end\n")
}
