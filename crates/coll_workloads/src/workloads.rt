//! The workloads: each makes its inputs from a seed, does with them what users wait for, and gives a digest of all that came of it.

use crate::awkward::{ELEMENTS, crowded_table, crowded_words, section_lines, with_faults};
use crate::jobs::{Jobs, lines_of};
use crate::random::Random;
use crate::scripts::{Alphabet, ELEMENT_SCRIPT, LITTLE, Size, WHOLE, WORD_SCRIPTS};
use crate::session_lines::{Matter, edit_text, session_text};
use crate::sources::{common_source, tailoring_source, whole_source};
use crate::tables::table_text;
use crate::tailorings::{no_tailoring, stroke_tailoring, tailoring};
use crate::texts::Text;
use crate::word_lists::{Language, ideograph_words};
use coll_bench::Batch;
use coll_lex::ListBuf;
use std::alloc::{AllocError, Global};

/// How large a workload is.
#[derive(Clone, Copy, PartialEq, Eq)]
pub(crate) enum Scale {
    /// As a user has it.
    Full,
    /// So small that it takes no time worth measuring.
    Quick,
}

impl Scale {
    // So many, or a few in a quick run.
    fn count(self, full: usize) -> usize {
        match self {
            Scale::Full => full,
            Scale::Quick => full.min(30),
        }
    }

    // How many elements begin alike.
    fn elements(self) -> u32 {
        match self {
            Scale::Full => ELEMENTS,
            Scale::Quick => 30,
        }
    }

    // How much a table has.
    fn size(self) -> Size {
        match self {
            Scale::Full => WHOLE,
            Scale::Quick => LITTLE,
        }
    }
}

// A script of words, that of words which are rarer, and a script that no word is written in.
#[derive(Clone, Copy)]
struct Scripts {
    words: usize,
    rare: usize,
    unused: usize,
}

impl Scripts {
    // The scripts of a seed.
    fn new(random: &mut Random) -> Scripts {
        let first = random.below(WORD_SCRIPTS.len());
        Scripts {
            words: script_at(first),
            rare: script_at(first + 3),
            unused: script_at(first + 5),
        }
    }
}

// One of the scripts that words are written in.
fn script_at(place: usize) -> usize {
    match WORD_SCRIPTS.get(place % WORD_SCRIPTS.len()) {
        Some(script) => *script,
        None => 0,
    }
}

// A language in the script of words, with letters of the rarer one.
fn language_of(
    alloc: Global,
    random: &mut Random,
    alphabet: &Alphabet,
    scripts: Scripts,
) -> Result<Language, AllocError> {
    let letters = alphabet.script(scripts.words);
    let others = alphabet.script(scripts.rare);
    Language::new(alloc, random, letters, others)
}

/// Tables are loaded, checked with tailorings, compiled, printed and exported.
pub(crate) fn build(jobs: &mut Jobs, seed: u64, scale: Scale) -> Result<(), AllocError> {
    for number in 0..scale.count(9) {
        build_one(jobs, seed, scale, number)?;
    }
    Ok(())
}

// A build of one table.
fn build_one(jobs: &mut Jobs, seed: u64, scale: Scale, number: usize) -> Result<(), AllocError> {
    let alloc = jobs.alloc();
    let mut random = Random::new(seed, number as u64);
    let alphabet = Alphabet::new(alloc, &mut random, scale.size())?;
    let table = table_text(alloc, &mut random, &alphabet)?;
    let scripts = Scripts::new(&mut random);
    let pair = (scripts.words, scripts.rare);
    let few = tailoring(alloc, &mut random, &alphabet, pair, scale.count(12))?;
    match number % 9 {
        0 | 3 | 6 => jobs.batch(Batch::Check, table.bytes(), &[few.bytes()]),
        1 => jobs.batch(Batch::Compile, table.bytes(), &[few.bytes()]),
        2 => jobs.batch(Batch::Print, table.bytes(), &[few.bytes()]),
        4 => jobs.batch(Batch::Export, table.bytes(), &[few.bytes()]),
        5 => {
            let strokes = stroke_tailoring(alloc, &mut random, &alphabet, 20_000)?;
            jobs.batch(Batch::Check, table.bytes(), &[few.bytes(), strokes.bytes()])
        }
        _ => {
            let many = tailoring(alloc, &mut random, &alphabet, pair, scale.count(860))?;
            jobs.batch(Batch::Check, table.bytes(), &[many.bytes()])
        }
    }
}

/// A session, and an edit, of a table: statements, looks behind each, and statements taken back.
pub(crate) fn session(jobs: &mut Jobs, seed: u64, scale: Scale) -> Result<(), AllocError> {
    let alloc = jobs.alloc();
    let none = no_tailoring(alloc)?;
    let mut random = Random::new(seed, 100);
    let alphabet = Alphabet::new(alloc, &mut random, scale.size())?;
    let text = table_text(alloc, &mut random, &alphabet)?;
    let scripts = Scripts::new(&mut random);
    let language = language_of(alloc, &mut random, &alphabet, scripts)?;
    let matter = Matter {
        alphabet: &alphabet,
        letters: alphabet.script(scripts.words),
        language: &language,
    };
    let lines = session_text(alloc, &mut random, matter, scale.count(900))?;
    let edits = edit_text(alloc, &mut random, matter, scale.count(300))?;
    let words = language.words(alloc, &mut random, scale.count(40))?;
    let Some(table) = jobs.table(text.bytes(), none.bytes())? else {
        return Ok(());
    };
    let copy = table.try_copy(alloc)?;
    jobs.session(table, lines.bytes());
    jobs.edit(copy, edits.bytes(), words.bytes())
}

/// Reviews of tailorings over lists of words.
pub(crate) fn review(jobs: &mut Jobs, seed: u64, scale: Scale) -> Result<(), AllocError> {
    let alloc = jobs.alloc();
    let none = no_tailoring(alloc)?;
    let mut random = Random::new(seed, 200);
    let alphabet = Alphabet::new(alloc, &mut random, scale.size())?;
    let text = table_text(alloc, &mut random, &alphabet)?;
    let scripts = Scripts::new(&mut random);
    let language = language_of(alloc, &mut random, &alphabet, scripts)?;
    let words = language.words(alloc, &mut random, scale.count(60_000))?;
    let few = language.words(alloc, &mut random, scale.count(20_000))?;
    let used = (scripts.words, scripts.rare);
    let unused = (scripts.words, scripts.unused);
    let delta = tailoring(alloc, &mut random, &alphabet, used, scale.count(24))?;
    let other = tailoring(alloc, &mut random, &alphabet, unused, scale.count(12))?;
    if let Some(table) = jobs.table(text.bytes(), none.bytes())? {
        let copy = table.try_copy(alloc)?;
        jobs.review(table, delta.bytes(), words.bytes());
        jobs.review(copy, other.bytes(), few.bytes());
    }
    Ok(())
}

/// Lists of words are sorted, and keys written and words compared.
pub(crate) fn sort(jobs: &mut Jobs, seed: u64, scale: Scale) -> Result<(), AllocError> {
    let alloc = jobs.alloc();
    let none = no_tailoring(alloc)?;
    let mut random = Random::new(seed, 300);
    let alphabet = Alphabet::new(alloc, &mut random, scale.size())?;
    let text = table_text(alloc, &mut random, &alphabet)?;
    let Some(table) = jobs.table(text.bytes(), none.bytes())? else {
        return Ok(());
    };
    let scripts = Scripts::new(&mut random);
    let first = language_of(alloc, &mut random, &alphabet, scripts)?;
    sort_words(jobs, &mut random, &table, &first, scale.count(250_000))?;
    let other = Scripts {
        words: scripts.unused,
        ..scripts
    };
    let second = language_of(alloc, &mut random, &alphabet, other)?;
    sort_words(jobs, &mut random, &table, &second, scale.count(100_000))?;
    let lines = second.lines(alloc, &mut random, scale.count(4_000))?;
    jobs.sort(&table, lines.bytes());
    let ideographs = ideograph_words(alloc, &mut random, &alphabet, scale.count(80_000))?;
    jobs.sort(&table, ideographs.bytes());
    let keyed = first.words(alloc, &mut random, scale.count(60_000))?;
    let texts = ListBuf::new(lines_of(alloc, keyed.bytes(), scale.count(60_000))?);
    jobs.batch(Batch::Key(texts), text.bytes(), &[none.bytes()])
}

// Words of a language are sorted.
fn sort_words(
    jobs: &mut Jobs,
    random: &mut Random,
    table: &coll_table::Table,
    language: &Language,
    count: usize,
) -> Result<(), AllocError> {
    let words = language.words(jobs.alloc(), random, count)?;
    jobs.sort(table, words.bytes());
    Ok(())
}

/// Published sources are imported, and tailorings of what comes of them.
pub(crate) fn import(jobs: &mut Jobs, seed: u64, scale: Scale) -> Result<(), AllocError> {
    for number in 0..scale.count(4) {
        import_one(jobs, seed, scale, 400_u64.wrapping_add(number as u64))?;
    }
    Ok(())
}

// An import of a source, and of two tailorings.
fn import_one(jobs: &mut Jobs, seed: u64, scale: Scale, beside: u64) -> Result<(), AllocError> {
    let alloc = jobs.alloc();
    let mut random = Random::new(seed, beside);
    let alphabet = Alphabet::new(alloc, &mut random, scale.size())?;
    let whole = whole_source(alloc, &alphabet)?;
    let common = common_source(alloc, &mut random, &alphabet)?;
    let scripts = Scripts::new(&mut random);
    let pair = (scripts.words, scripts.rare);
    let small = tailoring_source(alloc, &mut random, &alphabet, pair, scale.count(30))?;
    let large = tailoring_source(alloc, &mut random, &alphabet, pair, scale.count(900))?;
    let sources = [("whole", whole.bytes()), ("common", common.bytes())];
    let Some(mut table) = jobs.import(&sources)? else {
        return Ok(());
    };
    let mut copy = table.try_copy(alloc)?;
    tailor(jobs, &mut table, &small, &whole)?;
    tailor(jobs, &mut copy, &large, &whole)
}

// A tailoring of a table is imported, and written as a delta file.
fn tailor(
    jobs: &mut Jobs,
    table: &mut coll_table::Table,
    tailoring: &Text,
    whole: &Text,
) -> Result<(), AllocError> {
    let sources = [("tailoring", tailoring.bytes()), ("whole", whole.bytes())];
    jobs.import_delta(table, &sources)
}

/// What is hard: weights of many names, elements that begin alike, large blocks, faults, and tables that are compared.
pub(crate) fn awkward(jobs: &mut Jobs, seed: u64, scale: Scale) -> Result<(), AllocError> {
    crowded(jobs, seed, scale)?;
    faulty(jobs, seed, scale)?;
    reordered(jobs, seed, scale)
}

// A table of long weights and crowded elements is compiled, and words of its letters are sorted.
fn crowded(jobs: &mut Jobs, seed: u64, scale: Scale) -> Result<(), AllocError> {
    let alloc = jobs.alloc();
    let none = no_tailoring(alloc)?;
    let mut random = Random::new(seed, 500);
    let mut again = random;
    let text = crowded_table(alloc, &mut random, scale.elements())?;
    let words = crowded_words(alloc, &mut again, scale.count(30_000))?;
    jobs.batch(Batch::Compile, text.bytes(), &[none.bytes()])?;
    if let Some(table) = jobs.table(text.bytes(), none.bytes())? {
        jobs.sort(&table, words.bytes());
    }
    Ok(())
}

// Tables and delta files with faults are linted.
fn faulty(jobs: &mut Jobs, seed: u64, scale: Scale) -> Result<(), AllocError> {
    let alloc = jobs.alloc();
    let mut random = Random::new(seed, 600);
    let alphabet = Alphabet::new(alloc, &mut random, scale.size())?;
    let text = table_text(alloc, &mut random, &alphabet)?;
    let scripts = Scripts::new(&mut random);
    let pair = (scripts.words, scripts.rare);
    let delta = tailoring(alloc, &mut random, &alphabet, pair, scale.count(400))?;
    let bad_delta = with_faults(alloc, &mut random, delta.bytes(), 60)?;
    let bad_table = with_faults(alloc, &mut random, text.bytes(), 40)?;
    jobs.lint(text.bytes(), Some(bad_delta.as_slice()))?;
    jobs.lint(bad_table.as_slice(), None)
}

// A table whose ideographs stand in another order is compared with the one before, and its sections are moved; texts of elements are
// sorted.
fn reordered(jobs: &mut Jobs, seed: u64, scale: Scale) -> Result<(), AllocError> {
    let alloc = jobs.alloc();
    let none = no_tailoring(alloc)?;
    let mut random = Random::new(seed, 700);
    let alphabet = Alphabet::new(alloc, &mut random, scale.size())?;
    let text = table_text(alloc, &mut random, &alphabet)?;
    let strokes = stroke_tailoring(alloc, &mut random, &alphabet, 20_000)?;
    let letters = alphabet.script(ELEMENT_SCRIPT);
    let language = Language::new(alloc, &mut random, letters, letters)?;
    let words = language.words(alloc, &mut random, scale.count(40_000))?;
    let moves = section_lines(alloc, &mut random, &alphabet, scale.count(3_000))?;
    let Some(table) = jobs.table(text.bytes(), none.bytes())? else {
        return Ok(());
    };
    let Some(other) = jobs.table(text.bytes(), strokes.bytes())? else {
        return Ok(());
    };
    jobs.diff(&table, &other)?;
    jobs.sort(&other, words.bytes());
    jobs.session(table, moves.bytes());
    Ok(())
}
