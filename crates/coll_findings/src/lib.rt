//! What is told of a text whose lines are judged one by one, also behind a fault, and how its lines are handed on for that.
//!
//! Faults are told each once (`ToldFaults`), with what they are about and what to do; what a text says to no purpose is told by kinds. The
//! lines of a text are handed on up to the end of its category, also behind those that the lexer refuses (`SurveyedLines`). What judging a
//! line gives is for coll_surveys. A way through the crate:
//!
//! - `findings`: faults that are told, with `foreign_words`: keywords of other dialects; `operand_advice`: how a line is written that is
//!   refused; `subjects`: what a fault is about;
//! - `warnings`: what a text says to no purpose, by kinds (`GatheredWarnings`); `unplaced`: what is declared and never placed;
//!   `first_weights`: what an entry weighs as at the first level, and what doesn't sort where it stands (`FirstWeights`); `unchanged`:
//!   statements that leave a table as it is; `missing_weights`: lines that give weights for few levels;
//! - `collecting`: what is told, as it is gathered;
//! - `line_surveys`: the lines of a text, handed on one after another.
#![tactic(auto)]

mod collecting;
mod findings;
mod first_weights;
mod foreign_words;
mod line_surveys;
mod missing_weights;
mod operand_advice;
mod subjects;
mod unchanged;
mod unplaced;
mod warnings;

pub use collecting::{Collected, Surveyed, Told};
pub use findings::{About, FoundFault};
pub use first_weights::{first_weight, is_misplaced, lead_of, weighs_as};
pub use foreign_words::{FOLLOWS_OPENING, ForeignWord, foreign_word};
pub use line_surveys::{Opening, TakesLines, first_line, survey_keywords, survey_lines};
pub use missing_weights::lacks_weights;
pub use operand_advice::advice_on_operands;
pub use subjects::{about_found, about_id, refused_subject, table_subject};
pub use unchanged::{changed_nothing, changes_nothing};
pub use unplaced::{Declarations, DeclaredName};
pub use warnings::{Warned, WarnedKind, Warning, Warnings};
