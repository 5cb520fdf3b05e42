//! Lists of words, as indexes and dictionaries have them: some letters and syllables come often, and so do beginnings.

use crate::random::Random;
use crate::scripts::{Alphabet, Letter};
use crate::texts::Text;
use std::alloc::{AllocError, Global};

// How many syllables a language has.
const SYLLABLES: usize = 700;

// So many letters of a script are in use.
const LETTERS: usize = 60;

// A word is one that was there before so often of a hundred times.
const AGAIN: usize = 4;

/// The letters of a syllable.
type Syllable = [u32; 3];

/// A language, which words are made in.
#[derive(Drop)]
pub(crate) struct Language {
    syllables: Vec<Syllable>,
}

impl Language {
    /// A language of letters of some scripts.
    pub fn new(
        alloc: Global,
        random: &mut Random,
        letters: &[Letter],
        others: &[Letter],
    ) -> Result<Language, AllocError> {
        let mut syllables = Vec::with_capacity(alloc, SYLLABLES)?;
        for _ in 0..SYLLABLES {
            let mut syllable = [0; 3];
            syllable[0] = some_letter(random, letters, others);
            syllable[1] = some_letter(random, letters, letters);
            if random.is_so(50) {
                syllable[2] = some_letter(random, letters, letters);
            }
            syllables.push(syllable)?;
        }
        Ok(Language { syllables })
    }

    /// Puts a word of so many syllables.
    pub fn put_word(
        &self,
        text: &mut Text,
        random: &mut Random,
        syllables: usize,
    ) -> Result<(), AllocError> {
        for _ in 0..syllables {
            if let Some(syllable) = self.syllables.get(random.small_below(SYLLABLES)) {
                put_syllable(text, *syllable)?;
            }
        }
        Ok(())
    }

    /// Puts a word of a usual length.
    pub fn put_usual(&self, text: &mut Text, random: &mut Random) -> Result<(), AllocError> {
        let syllables = 1 + random.below(3) + random.below(3);
        self.put_word(text, random, syllables)
    }

    /// So many words, one a line, some of them more than once.
    pub fn words(
        &self,
        alloc: Global,
        random: &mut Random,
        count: usize,
    ) -> Result<Text, AllocError> {
        let mut text = Text::new(alloc, count.saturating_mul(16))?;
        let mut before = *random;
        for _ in 0..count {
            if random.is_so(AGAIN) {
                self.put_usual(&mut text, &mut before)?;
            } else {
                self.put_usual(&mut text, random)?;
            }
            text.put(b"\n")?;
        }
        Ok(text)
    }

    /// So many lines of many words, some of which begin alike for a long way.
    pub fn lines(
        &self,
        alloc: Global,
        random: &mut Random,
        count: usize,
    ) -> Result<Text, AllocError> {
        let mut text = Text::new(alloc, count.saturating_mul(400))?;
        let mut beginning = *random;
        for number in 0..count {
            if number % 20 == 0 {
                beginning = *random;
            }
            let mut again = beginning;
            self.put_words(&mut text, &mut again, 20)?;
            self.put_words(&mut text, random, 20)?;
            text.put(b"\n")?;
        }
        Ok(text)
    }

    // Puts so many words, with a blank behind each.
    fn put_words(
        &self,
        text: &mut Text,
        random: &mut Random,
        count: usize,
    ) -> Result<(), AllocError> {
        for _ in 0..count {
            self.put_usual(text, random)?;
            text.put(b" ")?;
        }
        Ok(())
    }
}

// Puts the letters of a syllable.
fn put_syllable(text: &mut Text, syllable: Syllable) -> Result<(), AllocError> {
    for letter in &syllable {
        if *letter > 0 {
            text.put_char(*letter)?;
        }
    }
    Ok(())
}

// A letter of the first ones of a script mostly, else of another's.
fn some_letter(random: &mut Random, letters: &[Letter], others: &[Letter]) -> u32 {
    let from = if random.is_so(85) { letters } else { others };
    match from.get(random.below(LETTERS.min(from.len()))) {
        Some(letter) => letter.code,
        None => 0x61,
    }
}

/// So many words of ideographs, one a line.
pub(crate) fn ideograph_words(
    alloc: Global,
    random: &mut Random,
    alphabet: &Alphabet,
    count: usize,
) -> Result<Text, AllocError> {
    let mut text = Text::new(alloc, count.saturating_mul(12))?;
    for _ in 0..count {
        for _ in 0..1 + random.below(4) {
            let number = random.small_below(alphabet.ideographs() as usize);
            text.put_char(alphabet.ideograph((number % 20_902) as u32))?;
        }
        text.put(b"\n")?;
    }
    Ok(text)
}
