//! Lines of a session: statements, looks at words behind them, and statements that are taken back.

use crate::random::Random;
use crate::scripts::{Alphabet, Letter};
use crate::tailorings::{put_statement, some_of};
use crate::texts::Text;
use crate::word_lists::Language;
use std::alloc::{AllocError, Global};

// So many bytes a round has at most, nearly.
const ROUND_BYTES: usize = 800;

/// What lines of a session are made of.
#[derive(Clone, Copy)]
pub(crate) struct Matter<'a> {
    /// The letters of all scripts.
    pub alphabet: &'a Alphabet,
    /// The letters that statements are about.
    pub letters: &'a [Letter],
    /// The language of words.
    pub language: &'a Language,
}

/// The lines of so many rounds: in each a statement, and a look or two behind it, or behind what is taken back.
pub(crate) fn session_text(
    alloc: Global,
    random: &mut Random,
    matter: Matter<'_>,
    rounds: usize,
) -> Result<Text, AllocError> {
    let mut text = Text::new(alloc, rounds.saturating_mul(ROUND_BYTES))?;
    text.put(b"comment_char %\nescape_char /\n")?;
    for number in 0..rounds {
        put_round(&mut text, random, matter, number)?;
    }
    text.put(b":check\n:history\n")?;
    Ok(text)
}

/// The lines of so many rounds of an edit, in which entries and lists of words are shown too.
pub(crate) fn edit_text(
    alloc: Global,
    random: &mut Random,
    matter: Matter<'_>,
    rounds: usize,
) -> Result<Text, AllocError> {
    let mut text = Text::new(alloc, rounds.saturating_mul(ROUND_BYTES))?;
    text.put(b"comment_char %\nescape_char /\n")?;
    for number in 0..rounds {
        put_round(&mut text, random, matter, number)?;
        put_show(&mut text, random, matter)?;
        if number % 8 == 5 {
            text.put(b":words list\n")?;
        }
    }
    text.put(b":check\n")?;
    Ok(text)
}

// Puts a statement, looks, and now and then what takes statements back.
fn put_round(
    text: &mut Text,
    random: &mut Random,
    matter: Matter<'_>,
    number: usize,
) -> Result<(), AllocError> {
    put_statement(text, random, matter.alphabet, matter.letters, number)?;
    put_look(text, random, matter, number)?;
    match random.below(8) {
        0 | 1 => {
            text.put(b":undo\n")?;
            put_look(text, random, matter, number)
        }
        2 => {
            text.put(b":undo\n:redo\n")?;
            put_look(text, random, matter, number)
        }
        3 => put_withdrawal(text, random, number),
        _ => Ok(()),
    }
}

// Puts a withdrawal of one of the last statements.
fn put_withdrawal(text: &mut Text, random: &mut Random, number: usize) -> Result<(), AllocError> {
    let back = random.below(20);
    text.put(b":withdraw ")?;
    text.put_number(number.saturating_sub(back) / 2 + 1)?;
    text.put(b"\n")
}

// Puts a look at a word, at two, or at a page of them.
fn put_look(
    text: &mut Text,
    random: &mut Random,
    matter: Matter<'_>,
    number: usize,
) -> Result<(), AllocError> {
    if number % 40 == 39 {
        return put_page(text, random, matter);
    }
    if random.is_so(60) {
        text.put(b":key \"")?;
    } else {
        text.put(b":compare \"")?;
        matter.language.put_usual(text, random)?;
        text.put(b"\" \"")?;
    }
    matter.language.put_usual(text, random)?;
    text.put(b"\"\n")
}

// Puts a look at a page of words.
fn put_page(text: &mut Text, random: &mut Random, matter: Matter<'_>) -> Result<(), AllocError> {
    text.put(b":key \"")?;
    for _ in 0..250 {
        matter.language.put_usual(text, random)?;
        text.put(b" ")?;
    }
    text.put(b"\"\n")
}

// Puts a look at an entry.
fn put_show(text: &mut Text, random: &mut Random, matter: Matter<'_>) -> Result<(), AllocError> {
    if let Some(letter) = some_of(random, matter.letters) {
        text.put(b":show ")?;
        text.put_code(letter.code)?;
        text.put(b"\n")?;
    }
    Ok(())
}
