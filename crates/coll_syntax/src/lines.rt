//! The lines of tables and of deltas, as they are read.
//!
//! There is a variant for each kind of line. Both types are plain data.

use crate::{Id, OrderLine, Rules};
use coll_lex::TextBuf;

/// A line of a table's category (POSIX.1-2017, 7.3.2).
#[derive(Debug, Drop)]
pub enum TableLine {
    /// `collating-symbol <X>`: declares the name.
    Symbol(TextBuf),
    /// `collating-element <X> from "text"`: declares the name, for the text.
    Element {
        /// The name.
        name: TextBuf,
        /// The characters that it stands for, 2 to 16.
        text: TextBuf,
    },
    /// `symbol-equivalence <X> <Y>`: declares the first name as a second name of a symbol.
    Equivalence {
        /// The second name.
        name: TextBuf,
        /// The name of the symbol that it stands for.
        symbol: TextBuf,
    },
    /// `order_start`, `order_start rules`, `order_start <N>` or `order_start <N>;rules`: opens the order.
    OrderStart {
        /// The name of the section that begins here, if one does.
        section: Option<TextBuf>,
        /// The rules of the levels, if they are given.
        rules: Option<Rules>,
    },
    /// `order_end`: closes the order.
    OrderEnd,
    /// `section <N>`: begins a section.
    Section(TextBuf),
    /// `script <N>`, which has no effect, so its name isn't kept.
    Script,
    /// `END LC_COLLATE`: ends the category.
    EndCategory,
    /// An identifier, with or without weights: places its entry.
    Order(OrderLine),
}

/// A line of a delta: `reorder-after` and `reorder-end` are those of ISO/IEC 14651, category lines, declarations of symbols
/// and of elements, and order lines those of POSIX.1-2017, 7.3 and 7.3.2; the others are the project's own.
#[derive(Debug, Drop)]
pub enum DeltaLine {
    /// `collating-symbol <X>`: declares the name.
    Symbol(TextBuf),
    /// `collating-element <X> from "text"`: declares the name, for the text.
    Element {
        /// The name.
        name: TextBuf,
        /// The characters that it stands for, 2 to 16.
        text: TextBuf,
    },
    /// `symbol-equivalence <X> <Y>`: declares the first name as a second name of a symbol.
    Equivalence {
        /// The second name.
        name: TextBuf,
        /// The name of the symbol that it stands for.
        symbol: TextBuf,
    },
    /// `script <N>`, which has no effect, so its name isn't kept.
    Script,
    /// `LC_COLLATE`, which has no effect.
    Category,
    /// `END LC_COLLATE`: ends the category of a delta file.
    EndCategory,
    /// `copy "text"`, which has no effect, so its string isn't kept.
    Copy,
    /// `reorder-after id`: opens a block.
    ReorderAfter(Id),
    /// `reorder-end`: ends a block.
    ReorderEnd,
    /// `reorder-section-after <S> <T>`: moves a section.
    SectionAfter {
        /// The name of the section that is moved.
        moved: TextBuf,
        /// The name of the section that it is placed after.
        after: TextBuf,
    },
    /// An identifier, with or without weights: in a block, places its entry; elsewhere, replaces its weights.
    Order(OrderLine),
}
