//! What each statement of a delta file does to the order of words.
//!
//! Statements are put to a table one by one, and of each it is told what it did to the words of an input. A way through the crate, each
//! file with its definitions in `specs/`:
//!
//! - `reviewing`: a review of an input (`ReviewRuns`), and how far it got, told by `progress`;
//! - `numbered_words`: the words that are kept (`KeptWords`); `listed_words`: the list of them that is sorted anew (`ListedWords`), by
//!   `staying_words` and `moved_words` as far as its words move (`MovedWords`), by keys that `listed_keys` make (`ListedKeys`), and behind
//!   a guess of `word_fronts` where many do;
//! - `word_orders`: what words are compared by (`WordOrders`): where it serves by what their `letters`, and the elements in them, weigh
//!   (`coll_letters`); `marked_tables` keep beside the table where elements may stand;
//! - `reviews`: where a review stands (`Reviews`, `ReviewSteps`), and which statements move no word (`Declaring`); `review_lines`: what is
//!   told of a statement (`ReviewLines`), which is kept by `kept_bytes`.
#![tactic(auto)]

mod kept_bytes;
mod letters;
mod listed_keys;
mod listed_words;
mod marked_tables;
mod moved_words;
mod numbered_words;
mod progress;
mod review_lines;
mod reviewing;
mod reviews;
mod staying_words;
mod word_fronts;
mod word_orders;

pub use progress::Progress;
pub use reviewing::review_words;
