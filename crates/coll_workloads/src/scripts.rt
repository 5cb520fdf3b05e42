//! Letters of many scripts, as tables order them: most have a symbol of their own, and others share that of the one before.

use crate::random::Random;
use std::alloc::{AllocError, Global};

/// A script: the name of its section, its first code point, and how many it has.
pub(crate) type Script = (&'static str, u32, u32);

/// The ideographs: the first, and how many there are.
pub(crate) const IDEOGRAPHS: (u32, u32) = (0x4E00, 20_902);

/// The second names of ideographs, which are placed and never weighed: the first, and how many there are.
pub(crate) const TAILS: (u32, u32) = (0x8000, 32_768);

/// The symbols that are declared and stand nowhere: the first, and how many there are.
pub(crate) const UNPLACED: (u32, u32) = (0x2_0000, 15_700);

/// How much there is of what a table has.
#[derive(Clone, Copy)]
pub(crate) struct Size {
    /// Most letters of a script.
    pub script: u32,
    /// Most of the ideographs, of their second names, and of the symbols that stand nowhere.
    pub others: u32,
}

/// As much as the common table of a system has.
pub(crate) const WHOLE: Size = Size {
    script: 100_000,
    others: 100_000,
};

/// Little, for a quick look at whether all goes well.
pub(crate) const LITTLE: Size = Size {
    script: 40,
    others: 100,
};

/// What a letter is beside the one whose symbol it has.
#[derive(Clone, Copy, PartialEq, Eq)]
pub(crate) enum Shape {
    /// It is that letter.
    Plain,
    /// It is its capital.
    Capital,
    /// It has an accent, that with this number.
    Accented(u32),
    /// It stands for two letters, the second of which has this code point.
    Double(u32),
    /// It is a sign, which only the last level tells from others.
    Sign,
}

/// A letter: its code point, and that of the letter whose symbol it has at the first level.
#[derive(Clone, Copy)]
pub(crate) struct Letter {
    /// Its code point.
    pub code: u32,
    /// That of the letter whose symbol it has.
    pub base: u32,
    /// What it is beside that.
    pub shape: Shape,
}

/// Where the letters of a script stand among all.
#[derive(Clone, Copy)]
pub(crate) struct Part {
    /// The number of the script in `SCRIPTS`.
    pub script: usize,
    /// The place of its first letter.
    pub from: usize,
    /// The place behind its last.
    pub to: usize,
}

/// The letters of all scripts, in the order of a table.
#[derive(Drop)]
pub(crate) struct Alphabet {
    /// The letters, script by script.
    pub letters: Vec<Letter>,
    /// The scripts, in their order.
    pub parts: Vec<Part>,
    /// What the names of symbols begin with.
    pub prefix: u8,
    /// What the second names of ideographs begin with.
    pub tail_prefix: u8,
    /// The first of the ideographs, which go on from the last one with the first of all.
    pub first_ideograph: u32,
    /// How much there is.
    pub size: Size,
}

impl Alphabet {
    /// The alphabet of a seed.
    pub fn new(alloc: Global, random: &mut Random, size: Size) -> Result<Alphabet, AllocError> {
        let mut letters = Vec::with_capacity(alloc, 32_768)?;
        let mut parts = Vec::with_capacity(alloc, 64)?;
        let order = shuffled(alloc, random, SCRIPTS.len())?;
        for script in order.iter() {
            let from = letters.len();
            put_script(&mut letters, random, *script, size)?;
            parts.push(Part {
                script: *script,
                from,
                to: letters.len(),
            })?;
        }
        Ok(Alphabet {
            letters,
            parts,
            prefix: name_letter(random, b"SDGKLPQ"),
            tail_prefix: name_letter(random, b"TRVWXYZ"),
            first_ideograph: random.below(IDEOGRAPHS.1 as usize) as u32,
            size,
        })
    }

    /// The letters of the script with this number.
    pub fn script(&self, number: usize) -> &[Letter] {
        for part in self.parts.iter() {
            if part.script == number {
                return self.letters_of(*part);
            }
        }
        &[]
    }

    /// The letters of a part.
    pub fn letters_of(&self, part: Part) -> &[Letter] {
        match self.letters.get(part.from..part.to) {
            Some(letters) => letters,
            None => &[],
        }
    }

    /// The ideograph with a number.
    pub fn ideograph(&self, number: u32) -> u32 {
        IDEOGRAPHS.0 + (self.first_ideograph.saturating_add(number)) % IDEOGRAPHS.1
    }

    /// How many ideographs there are.
    pub fn ideographs(&self) -> u32 {
        IDEOGRAPHS.1.min(self.size.others)
    }
}

/// The name of a script's section.
pub(crate) fn script_name(script: usize) -> &'static [u8] {
    match SCRIPTS.get(script) {
        Some((name, _, _)) => name.as_bytes(),
        None => b"REST",
    }
}

/// The code points of a script.
pub(crate) fn script_codes(script: usize, size: Size) -> (u32, u32) {
    match SCRIPTS.get(script) {
        Some((_, first, count)) => (*first, (*count).min(size.script)),
        None => (0, 0),
    }
}

/// The numbers below a count, in any order.
pub(crate) fn shuffled(
    alloc: Global,
    random: &mut Random,
    count: usize,
) -> Result<Vec<usize>, AllocError> {
    let mut order = Vec::with_capacity(alloc, count)?;
    for place in 0..count {
        order.push(place)?;
        let other = random.below(order.len());
        let last = order.len() - 1;
        order.swap(other, last);
    }
    Ok(order)
}

// One of some letters.
fn name_letter(random: &mut Random, letters: &[u8]) -> u8 {
    match letters.get(random.below(letters.len())) {
        Some(letter) => *letter,
        None => b'N',
    }
}

// Puts the letters of a script behind others: nine of ten of its code points.
fn put_script(
    letters: &mut Vec<Letter>,
    random: &mut Random,
    script: usize,
    size: Size,
) -> Result<(), AllocError> {
    let (first, count) = script_codes(script, size);
    let mut base = None;
    for number in 0..count {
        let code = first.saturating_add(number);
        if base.is_some() && random.is_so(8) {
            continue;
        }
        let letter = next_letter(random, script, code, base);
        base = Some(letter.base);
        letters.push(letter)?;
    }
    Ok(())
}

// A letter behind the one whose symbol it may share.
fn next_letter(random: &mut Random, script: usize, code: u32, before: Option<u32>) -> Letter {
    let Some(before) = before else {
        return plain(code);
    };
    let choice = random.below(100);
    if is_of_signs(script) && choice < 80 {
        return Letter {
            code,
            base: before,
            shape: Shape::Sign,
        };
    }
    let shape = match choice {
        0..=59 => return plain(code),
        60..=79 => Shape::Capital,
        80..=91 => Shape::Accented(random.below(100) as u32),
        _ => Shape::Double(before),
    };
    Letter {
        code,
        base: before,
        shape,
    }
}

// A letter with a symbol of its own.
fn plain(code: u32) -> Letter {
    Letter {
        code,
        base: code,
        shape: Shape::Plain,
    }
}

// Whether a script is one of signs.
fn is_of_signs(script: usize) -> bool {
    script == SIGNS || script == PICTURES
}

/// The numbers of scripts in which words are written, letter by letter.
pub(crate) const WORD_SCRIPTS: [usize; 8] = [0, 2, 4, 5, 6, 8, 22, 24];

/// The number of a script whose letters begin elements.
pub(crate) const ELEMENT_SCRIPT: usize = 9;

// The numbers of the scripts of signs.
const SIGNS: usize = 31;

const PICTURES: usize = 46;

/// The scripts.
pub(crate) const SCRIPTS: &[Script] = &[
    ("LATIN", 0x61, 26),
    ("CAPITALS", 0x41, 26),
    ("ACCENTED", 0xC0, 0x190),
    ("PHONETIC", 0x250, 0x60),
    ("GREC", 0x386, 0x70),
    ("CYRIL", 0x400, 0x130),
    ("ARMENIAN", 0x531, 0x58),
    ("HEBREU", 0x5D0, 27),
    ("ARAB", 0x620, 0xE0),
    ("DEVANAGARI", 0x904, 0x7C),
    ("BENGALI", 0x980, 0x80),
    ("GURUMUKHI", 0xA00, 0x80),
    ("GUJARATI", 0xA80, 0x80),
    ("TAMIL", 0xB80, 0x80),
    ("TELUGU", 0xC00, 0x80),
    ("KANNADA", 0xC80, 0x80),
    ("MALAYALAM", 0xD00, 0x80),
    ("SINHALA", 0xD80, 0x80),
    ("THAI", 0xE00, 0x80),
    ("LAO", 0xE80, 0x80),
    ("TIBETAN", 0xF00, 0x100),
    ("MYANMAR", 0x1000, 0xA0),
    ("GEORGIAN", 0x10A0, 0x60),
    ("JAMO", 0x1100, 0x100),
    ("ETHIOPIC", 0x1200, 0x180),
    ("CHEROKEE", 0x13A0, 0x60),
    ("SYLLABICS", 0x1400, 0x280),
    ("KHMER", 0x1780, 0x80),
    ("MONGOLIAN", 0x1800, 0xB0),
    ("LATINMORE", 0x1E00, 0x100),
    ("GRECMORE", 0x1F00, 0x100),
    ("SIGNS", 0x2190, 0x670),
    ("KANA", 0x3041, 0xBF),
    ("YI", 0xA000, 0x490),
    ("VAI", 0xA500, 0x140),
    ("HANGUL", 0xAC00, 0x2BA4),
    ("ARABFORMS", 0xFB50, 0x2B0),
    ("LINEARB", 0x1_0000, 0x100),
    ("CUNEIFORM", 0x1_2000, 0x4D0),
    ("EGYPTIAN", 0x1_3000, 0x430),
    ("ANATOLIAN", 0x1_4400, 0x247),
    ("BAMUM", 0x1_6800, 0x239),
    ("TANGUT", 0x1_7000, 0x17ED),
    ("SHORTHAND", 0x1_BC00, 0x90),
    ("MUSICAL", 0x1_D000, 0x200),
    ("MATH", 0x1_D400, 0x400),
    ("PICTURES", 0x1_F300, 0x400),
];
