//! The statements of a delta, and the order lines that they are made of.
//!
//! Both are plain data, which the grammar makes and a table judges. Which of them are proper, that is within the limits
//! of the language, is `IsProper` of `specs/Proper.antt`; all that the grammar gives are.

ghost use Rattle.std.specs.Prelude.{◌≡◌, ◌↔◌, ◌&&◌, IsTrue};
ghost use Rattle.std.specs.List.{list_all};
ghost use Rattle.coll_lex.specs.Names.{is_proper_name};
ghost use Rattle.coll_syntax.specs.Proper.{is_proper as passes, is_proper_line, is_proper_weight};

use crate::elements::is_element_text;
use crate::{Id, Weight};
use coll_lex::{ListBuf, TextBuf, is_name};

/// Most lines of a block.
pub const MOST_BLOCK_LINES: usize = 4_096;

const _: () = prove!(MOST_BLOCK_LINES == 4_096);

/// A line of an order (POSIX.1-2017, 7.3.2.4): what stands there, and its weights.
#[derive(Debug, Drop)]
pub struct OrderLine {
    /// What stands at this place of the order.
    pub id: Id,
    /// Its weights, one for each level, perhaps fewer or more; none where nothing stands behind the identifier.
    pub weights: Option<ListBuf<Weight>>,
}

impl OrderLine {
    /// Whether the identifier and the weights are proper, and there is a weight if any are given.
    pub(crate) fn is_proper(&self) -> bool
        ensures { result ≡ is_proper_line self.now }
    {
        if !self.id.is_proper() {
            return false;
        }
        let Some(weights) = &self.weights else {
            return true;
        };
        if weights.get().is_empty() {
            return false;
        }
        are_proper_weights(weights.get())
    }
}

// Whether all of these weights are proper.
fn are_proper_weights(weights: &[Weight]) -> bool
    ensures { result ≡ list_all is_proper_weight weights.now }
{
    weights.iter().all(|weight| weight.is_proper())
}

/// A statement of a delta, which a table accepts whole or refuses whole.
#[derive(Debug, Drop)]
pub enum Statement {
    /// `collating-symbol <X>`: declares the name.
    Symbol(TextBuf),
    /// `collating-element <X> from "text"`: declares the name, for the text.
    Element {
        /// The name.
        name: TextBuf,
        /// The characters that it stands for, 2 to 16.
        text: TextBuf,
    },
    /// `symbol-equivalence <X> <Y>`: declares the first name as a second name of a symbol.
    Equivalence {
        /// The second name.
        name: TextBuf,
        /// The name of the symbol that it stands for.
        symbol: TextBuf,
    },
    /// `reorder-after`, its lines and `reorder-end`: the lines' entries are placed after the target, one after another.
    Block {
        /// The identifier that the first line is placed after.
        target: Id,
        /// The lines, in their order, at most 4,096.
        lines: ListBuf<OrderLine>,
    },
    /// `reorder-section-after <S> <T>`: the section is placed after another.
    SectionAfter {
        /// The name of the section that is moved.
        moved: TextBuf,
        /// The name of the section that it is placed after.
        after: TextBuf,
    },
    /// An order line outside a block, which replaces the weights of a placed entry.
    Reweight(OrderLine),
}

impl Statement {
    ghost use Rattle.coll_syntax.specs.Proper.{IsProper};

    /// Whether the statement is proper: its names are names, the string of an element has 2 to 16 characters, its lists
    /// of weights have 1 to 32 identifiers without `UNDEFINED`, a line with weights has at least one, and a block has
    /// at most 4,096 lines. It takes no memory.
    pub fn is_proper(&self) -> bool
        ensures value { result ≡ passes self.now }
        ensures tells { IsTrue result ↔ IsProper self.now }
    {
        is_proper(self)
    }
}

// Whether the statement is proper, by its kind.
#[tactic(auto, unfolding(crate::specs::Proper::is_proper))]
fn is_proper(statement: &Statement) -> bool
    ensures { result ≡ passes statement.now }
{
    match statement {
        Statement::Symbol(name) => is_name(name.get()),
        Statement::Element { name, text } => {
            if !is_name(name.get()) {
                return false;
            }
            is_element_text(text.get())
        }
        Statement::Equivalence { name, symbol } => are_names(name, symbol),
        Statement::Block { target, lines } => {
            if !target.is_proper() {
                return false;
            }
            if lines.get().len() > MOST_BLOCK_LINES {
                return false;
            }
            are_proper_lines(lines.get())
        }
        Statement::SectionAfter { moved, after } => are_names(moved, after),
        Statement::Reweight(line) => line.is_proper(),
    }
}

// Whether both of these texts are names.
fn are_names(first: &TextBuf, second: &TextBuf) -> bool
    ensures { result ≡ (is_proper_name first.now && is_proper_name second.now) }
{
    if !is_name(first.get()) {
        return false;
    }
    is_name(second.get())
}

// Whether all of these lines are proper.
fn are_proper_lines(lines: &[OrderLine]) -> bool
    ensures { result ≡ list_all is_proper_line lines.now }
{
    lines.iter().all(|line| line.is_proper())
}
