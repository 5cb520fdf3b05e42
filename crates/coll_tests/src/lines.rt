//! Tests of `coll_devices` and `coll_lex`: devices, physical and logical lines, tokens and spellings.

mod lexing;
mod line_reading;
mod spelling;
