//! What the lines of a source say.
//!
//! A `Said` is plain data. Copies and conditions aren't among them: the reader has followed those.

use crate::{NameRange, SourcePlace};
use coll_lex::{ListBuf, TextBuf};
use coll_syntax::{Id, OrderLine, Rules, Weight};

/// A line of a source, and where it stands.
#[derive(Drop)]
pub struct SourceLine {
    /// Where it stands.
    pub place: SourcePlace,
    /// What it says.
    pub said: Said,
}

/// What a line of a source says (POSIX.1-2017, 7.3.2, and the sources of published locales).
#[derive(Drop)]
pub enum Said {
    /// It declares something.
    Declares(Declaration),
    /// `order_start`, perhaps with the name of a section, perhaps with rules.
    OrderStart {
        /// The name of the section that begins here, if one does.
        section: Option<TextBuf>,
        /// The rules of the levels, if they are given.
        rules: Option<Rules>,
    },
    /// `order_end`.
    OrderEnd,
    /// `section <N>`: begins a section.
    Section(TextBuf),
    /// An identifier, with or without weights. A weight that is `..` is the identifier itself.
    Order(OrderLine),
    /// `<Uxxxx>..<Uyyyy>`, with or without weights: an order line for each of these characters.
    Orders {
        /// The first character.
        first: char,
        /// The last one.
        last: char,
        /// The weights of each.
        weights: Option<ListBuf<Weight>>,
    },
    /// `..`, with or without weights: an order line for each character between those of the line before and of the line behind.
    Ellipsis(Option<ListBuf<Weight>>),
    /// `script <N>`, which has no effect.
    Script,
    /// It says nothing: it is no line of the grammar, and was left out.
    Unread,
    /// It is a line that tailorings alone have.
    Tailors(Tailoring),
}

/// What a line of a source declares.
#[derive(Drop)]
pub enum Declaration {
    /// `collating-symbol <X>`: declares the name.
    Symbol(TextBuf),
    /// `collating-symbol <X>..<Y>`: declares each name of a range.
    Symbols(NameRange),
    /// `collating-element <X> from "text"`: declares the name, for the text.
    Element {
        /// The name.
        name: TextBuf,
        /// The characters that it stands for, one or more.
        text: TextBuf,
    },
    /// `symbol-equivalence <X> <Y>`: declares the first name as a second name of a symbol.
    Equivalence {
        /// The second name.
        name: TextBuf,
        /// The name of the symbol that it stands for.
        symbol: TextBuf,
    },
}

/// What a line of a tailoring says that other sources don't have.
#[derive(Drop)]
pub enum Tailoring {
    /// `reorder-after <X>`: what follows is placed behind this.
    ReorderAfter(Id),
    /// `reorder-end`.
    ReorderEnd,
    /// `reorder-section-after <S> <T>`: a section is placed behind another.
    SectionAfter {
        /// The name of the section that is moved.
        moved: TextBuf,
        /// The name of the section that it is placed behind.
        after: TextBuf,
    },
    /// `reorder-sections-after <S>`: the sections that follow, a name a line, are placed behind this one.
    SectionsAfter(TextBuf),
    /// `reorder-sections-end`.
    SectionsEnd,
    /// `copy "NAME"` of a text that orders everything, where a tailoring is read: the table that is tailored.
    Base(TextBuf),
}
