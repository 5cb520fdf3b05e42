//! All that is wrong with a table, or with a tailoring of it, and not only the first fault.
//!
//! A batch answers the first fault of its inputs. Here texts are kept whole, judged as a batch does it, and surveyed: where they are at
//! fault each line that is refused is told and passed over, and where they are not, what is said to no purpose is looked for. A way through
//! the crate:
//!
//! - `kept_texts`: a text, read whole (`KeptTexts`);
//! - `lints`: what is told of texts; `surveyed`: what a survey found, put in order (`Orders`), with `near_names`: declared names that may
//!   be meant;
//! - `first_faults`: the fault that a batch answers is told first;
//! - `lint_lines`: how all is written (`LintLines`), with `warning_lines`: a line for each kind of warnings (`WarningLines`), and
//!   `counts`: numbers with commas (`Counts`);
//! - `linting`: texts are linted, and what is told is written (`Lints`); `progress`: who is told meanwhile how far it got.
#![tactic(auto)]

mod counts;
mod first_faults;
mod kept_texts;
mod lint_lines;
mod linting;
mod lints;
mod near_names;
mod progress;
mod surveyed;
mod warning_lines;

pub use first_faults::found_as;
pub use kept_texts::{MOST_TEXT_BYTES, keep_text};
pub use lint_lines::write_lint;
pub use linting::{lint, lint_texts, lint_watched};
pub use lints::Lint;
pub use progress::Progress;
pub use surveyed::told_of;
