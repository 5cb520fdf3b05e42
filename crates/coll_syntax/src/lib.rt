//! The grammar of collation tables: what each line of a table and of a delta says (POSIX.1-2017, 7.3.2).
//!
//! A line comes from the lexer as its tokens, and leaves as plain data: it is read from left to right, and the first token that
//! doesn't fit gives the fault. A way through the crate:
//!
//! - `identifiers`, `weights`, `rules`, `statements`, `lines`: what a line says, as data;
//! - `keywords`, `operands`, `elements`, `weight_lists`, `rule_lists`, `order_lines`: the tokens of each part (`weight_lists` says which
//!   weight is IGNORE, an entry itself, or a list of identifiers; `elements` reads the text of a command too, with `characters`);
//! - `table_lines` and `delta_lines`: whole lines (`parse_table_line`, `parse_delta_line`);
//! - `plain_lines` and `plain_deltas`, with `plain_weights`: the same of a line whose tokens are lent where they stand;
//! - `syntax_faults`: why a line says nothing.
//!
//! What a line says is defined in `specs/`: `identifiers` in `Identifier`, `weight_lists` in `Weights`, `rule_lists` in `Rules`, what is
//! proper in `Proper`, and the others in the file of their name. A new kind of line is a variant of `TableLine` or `DeltaLine`, its
//! keyword, its case in `specs/TableLines.antt` or `specs/DeltaLines.antt`, and its arm in the parser.
#![tactic(auto)]

mod delta_lines;
mod elements;
mod identifiers;
mod keywords;
mod lines;
mod operands;
mod order_lines;
mod plain_deltas;
mod plain_lines;
mod plain_weights;
mod rule_lists;
mod rules;
mod statements;
mod syntax_faults;
mod table_lines;
mod weight_lists;
mod weights;

pub use delta_lines::parse_delta_line;
pub use elements::{MOST_ELEMENT_CHARS, characters};
pub use identifiers::Id;
pub use keywords::is_word;
pub use lines::{DeltaLine, TableLine};
pub use operands::{copied_name, ended, id_of};
pub use plain_deltas::parse_plain_delta;
pub use plain_lines::parse_plain_line;
pub use rules::{MOST_LEVELS, Rule, Rules};
pub use statements::{MOST_BLOCK_LINES, OrderLine, Statement};
pub use syntax_faults::SyntaxFault;
pub use table_lines::{parse_kept_line, parse_table_line};
pub use weights::{MOST_WEIGHT_IDS, Weight};
