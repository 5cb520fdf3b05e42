//! What differs between two tables, and the lines that tell it.
//!
//! Two tables are the same where their rules, their declarations, and their sections with all entries and weights are, in order. Where
//! they are not, the differences are told: those of the order are points that are taken out of the first table's order and put into
//! it, by which it becomes that of the second, and so are those of what is declared. A way through the crate, each file with its
//! definitions in `specs/`:
//!
//! - `sameness` and `walked_sameness`: whether two tables are the same (`Sameness`);
//! - `orders`: the order of a table, and what it declares, as lists of points (`Orders`);
//! - `places`: which points of one order stand in the other, and `longest`: which may stay, so that few are moved, a guess of which no
//!   contract speaks;
//! - `changes`: the points of the order that are removed, added and moved (`Changes`), and `declarations`: those of what is declared
//!   (`Declarations`);
//! - `weights`: the entries with other weights (`Weights`);
//! - `differences`: all that differs, and `lines`: the lines that tell it (`Differences`).
//!
//! A difference lends what it names of the two tables, so that telling it takes memory for lists alone.
#![tactic(auto)]

mod changes;
mod declarations;
mod differences;
mod lines;
mod longest;
mod orders;
mod places;
mod sameness;
mod walked_sameness;
mod weights;

pub use changes::Change;
pub use differences::{Differences, difference};
pub use lines::write_difference;
pub use orders::Point;
pub use sameness::are_same;
