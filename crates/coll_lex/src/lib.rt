//! The lexer of collation tables: logical lines, tokens, and the spellings written back.
//!
//! Physical lines, as `coll_devices` reads them from a device, are handed to a `Lexer` one by one, and leave it as logical
//! lines with their tokens. A line of symbols and words without an escape makes none: its tokens are lent where they stand,
//! one after another, and then the `Lexer` passes it (`plain_text`, `plain_token`, `pass_line`). The spellings of names and
//! characters go to a device. What a user of lines needs of devices is handed on here. What a part promises stands in its
//! contracts, in the words that `specs/` defines. A module here and a file there with the same name belong together. A way
//! through the crate:
//!
//! - `tokens`, with `buffers`: what a line is made of;
//! - `directives`, `category` and `blanks`: what is recognised by a line's bytes, before any escape is read;
//! - `scanning`, with `names`: the characters of a line, read into tokens (`Marked`, `Kinds`, `Scanning`); in it, `word` says where a
//!   comment begins, `symbol` and `text` what a symbol and a string spell, and `parts` and `runs` what is taken at once;
//! - `logical_lines`: physical lines joined, and their tokens (`LogicalLines`, `Lexer`, with `Limits`);
//! - `plain_tokens` and `plain_strings`, in it: the tokens of a line, and the pieces of a string, read where they stand
//!   (`PlainTexts`, `PlainStrings`);
//! - `early_ends`: how a text ends before its category does (`EarlyEnds`);
//! - `faults`: why a line is refused;
//! - `spelling`: names and characters, written, and read back (`ReadingBack`).
#![tactic(auto)]

mod blanks;
mod buffers;
mod category;
mod directives;
mod early_ends;
mod faults;
mod limits;
mod logical_lines;
mod names;
mod scanning;
mod spelling;
mod tokens;

pub use blanks::past_blanks;
pub use buffers::{ListBuf, TextBuf};
pub use coll_devices::{
    Counted, LineReader, ReadStop, Sink, Source, WriteStop, without_return, write_bytes,
};
pub use early_ends::EarlyEnd;
pub use faults::LexFault;
pub use limits::{MOST_LINES, limits_are_stated};
pub use logical_lines::plain_strings::PlainPiece;
pub use logical_lines::plain_tokens::PlainToken;
pub use logical_lines::{Lexer, lexers_hold_text, lines_have_tokens};
pub use names::is_name;
pub use spelling::{spellings_are_read_back, write_char, write_symbol};
pub use tokens::{Chars, Line, Piece, Token};
