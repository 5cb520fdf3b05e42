//! Sources that are made: declarations, ranges of names among them, and order lines that name what is declared, or nearly.
//!
//! They are written by patterns. In a pattern `#` stands for a name that may be declared, `@` for such a name or a character, `$` for the
//! string of an element, `[` and `]` for the first and the last name of a range, and `(` and `)` for those of one whose digits are decimal.

use crate::random::Random;
use coll_lex::Counted;
use coll_source_lines::SourceLine;
use coll_sources::{SourceKind, SourceReader};
use coll_table::HashKeys;
use std::alloc::Global;
use std::process::Abort;

// What names begin with: with two digits behind it a name has up to 19 bytes, and each length around 16. The first three come as often
// as all others.
const FRONTS: &[&str] = &[
    "S",
    "S0",
    "T",
    "S",
    "S0",
    "T",
    "S",
    "s",
    "S:",
    "TWELVE_BYTES",
    "THIRTEEN_BYTE",
    "FOURTEEN_BYTES",
    "FIFTEEN_BYTES__",
    "SEVENTEEN_BYTES__",
];

// Names of the table that may be tailored, and others that stand alone.
const ALONE: &[&str] = &["<S1>", "<E>", "<T>", "<U>", "<N>", "<M>", "<S>", "<S00>"];

// The characters of made lines, on both sides of where a word of a set ends, and at both ends of all.
const CHARS: &[&str] = &[
    "<U0001>",
    "<U003F>",
    "<U0040>",
    "<U0061>",
    "<U0062>",
    "<U007F>",
    "<U0080>",
    "<UD7FF>",
    "<UE000>",
    "<UFFFF>",
    "<U10000>",
    "<U10FFFF>",
];

// Strings of elements.
const STRINGS: &[&str] = &[
    "<U0061>",
    "<U0061><U0062>",
    "<U0061><U0063>",
    "<U0062><U0063><U0064>",
    "abcdefghijklmnop",
    "abcdefghijklmnopq",
];

// Declarations, half of them of ranges.
const DECLARATIONS: &[&str] = &[
    "collating-symbol [..]\n",
    "collating-symbol [..]\n",
    "collating-symbol [..]\n",
    "collating-symbol (...)\n",
    "collating-symbol #\n",
    "collating-symbol #\n",
    "collating-element # from \"$\"\n",
    "symbol-equivalence # #\n",
];

// Weights, most of them a single name.
const WEIGHTS: &[&str] = &[
    "IGNORE",
    "..",
    "\"@@\"",
    "\"@@@@@\"",
    "@",
    "@",
    "@",
    "@",
    "@",
];

/// A source that is being made.
pub struct Made {
    text: Vec<u8>,
    random: Random,
    // What the names begin with that come next, the number of the last one, and whether its digits are in lower case.
    front: &'static str,
    number: usize,
    is_lower: bool,
}

// A digit, in upper or lower case.
fn digit(value: usize, is_lower: bool) -> u8 {
    let digits: &[u8] = if is_lower {
        b"0123456789abcdef"
    } else {
        b"0123456789ABCDEF"
    };
    digits.get(value % 16).copied().unwrap_or(b'0')
}

impl Made {
    /// Nothing is made yet; the rest is the same for the same seed.
    pub fn new(alloc: Global, seed: u64) -> Made {
        Made {
            text: Vec::new(alloc),
            random: Random::new(seed),
            front: "S",
            number: 0,
            is_lower: false,
        }
    }

    /// Puts a text behind what is made.
    pub fn push(&mut self, rt: &impl Abort, text: &[u8]) {
        self.text.extend_from_slice(text).expect(rt, "a text");
    }

    // Puts the name of a number, of two hexadecimal digits, behind what is made.
    fn push_name(&mut self, rt: &impl Abort, number: usize) {
        self.number = number;
        self.text.push(b'<').expect(rt, "a text");
        self.text
            .extend_from_slice(self.front.as_bytes())
            .expect(rt, "a text");
        self.text
            .push(digit(number / 16, self.is_lower))
            .expect(rt, "a text");
        self.text
            .push(digit(number, self.is_lower))
            .expect(rt, "a text");
        self.text.push(b'>').expect(rt, "a text");
    }

    // Puts the first name of a range, below a number, behind what is made.
    fn push_first(&mut self, rt: &impl Abort, limit: usize) {
        self.front = self.random.one_of(FRONTS);
        self.is_lower = self.random.is_so(10);
        let number = self.random.below(limit);
        self.push_name(rt, number);
    }

    // Puts one of these behind what is made.
    fn push_one(&mut self, rt: &impl Abort, words: &[&str]) {
        let word = self.random.one_of(words);
        self.push(rt, word.as_bytes());
    }

    // Puts what a mark of a pattern stands for behind what is made, or the mark itself, where it stands for nothing.
    fn push_mark(&mut self, rt: &impl Abort, mark: u8) {
        match mark {
            b'@' if self.random.is_so(25) => self.push_one(rt, CHARS),
            b'#' | b'@' if self.random.is_so(25) => self.push_one(rt, ALONE),
            b'#' | b'@' => self.push_first(rt, 72),
            b'$' => self.push_one(rt, STRINGS),
            b'[' => self.push_first(rt, 64),
            b']' => {
                self.is_lower = self.random.is_so(20);
                let last = self.number.saturating_add(self.random.below(18));
                self.push_name(rt, last);
            }
            b'(' => self.push_first(rt, 10),
            b')' => {
                let last = self.random.below(10).saturating_add(16);
                self.push_name(rt, last);
            }
            other => self.push(rt, &[other]),
        }
    }

    // Puts one of these patterns behind what is made.
    fn push_pattern(&mut self, rt: &impl Abort, patterns: &[&str]) {
        for mark in self.random.one_of(patterns).as_bytes() {
            self.push_mark(rt, *mark);
        }
    }

    /// So many declarations at most.
    pub fn declarations(&mut self, rt: &impl Abort, most: usize) {
        for _ in 0..self.random.below(most).saturating_add(1) {
            self.push_pattern(rt, DECLARATIONS);
        }
    }

    // An order line, with up to one weight more than there are levels.
    fn order(&mut self, rt: &impl Abort) {
        self.push_pattern(rt, &["@"]);
        if self.random.is_so(70) {
            self.push_pattern(rt, &[" "]);
            for _ in 0..self.random.below(4) {
                self.push_pattern(rt, WEIGHTS);
                self.push(rt, b";");
            }
            self.push_pattern(rt, WEIGHTS);
        }
        self.push(rt, b"\n");
    }

    /// So many order lines.
    pub fn orders(&mut self, rt: &impl Abort, count: usize) {
        for _ in 0..count {
            self.order(rt);
        }
    }

    // Puts a text behind what is made, in which `#` stands for the three digits of a name: two of a number, and one more.
    fn push_far(&mut self, rt: &impl Abort, text: &str, high: usize, low: usize) {
        for mark in text.as_bytes() {
            match *mark {
                b'#' => {
                    self.text.push(digit(high / 16, false)).expect(rt, "a text");
                    self.text.push(digit(high, false)).expect(rt, "a text");
                    self.text.push(digit(low, false)).expect(rt, "a text");
                }
                other => self.text.push(other).expect(rt, "a text"),
            }
        }
    }

    // A range of few names, far from those of other numbers, and order lines of its first and its last name and of those beside them, each
    // of which is also the weight of a character.
    fn far_range(&mut self, rt: &impl Abort, high: usize, orders: &mut Made) {
        let last = self.random.below(4).saturating_add(1);
        self.push_far(rt, "collating-symbol <S#>..", high, 1);
        self.push_far(rt, "<S#>\n", high, last);
        for low in [0, 1, last, last.saturating_add(1)] {
            orders.push_far(rt, "<S#>\n<U4#> <S#>\n", high, low);
        }
    }

    /// So many ranges that are far from each other, in some order; their order lines go to another text.
    pub fn far_ranges(&mut self, rt: &impl Abort, count: usize, orders: &mut Made) {
        for number in 0..count {
            // 89 and 256 have no common divisor, so each range is another one.
            self.far_range(rt, number.wrapping_mul(89), orders);
        }
    }

    /// Ends the text.
    pub fn into_text(self) -> Vec<u8> {
        let Made {
            text,
            random: _,
            front: _,
            number: _,
            is_lower: _,
        } = self;
        text
    }
}

/// What the text of a source says.
pub fn said(rt: &impl Abort, alloc: Global, text: &[u8]) -> Vec<SourceLine> {
    let mut reader = SourceReader::new(
        alloc,
        HashKeys::zeros(),
        SourceKind::Tailoring,
        "source",
        &[],
    )
    .expect(rt, "a reader");
    reader
        .take_text(&mut Counted::new(text))
        .expect(rt, "a source");
    let (lines, report) = reader.into_parts();
    drop(report);
    lines
}
