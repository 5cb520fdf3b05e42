//! Whether a text orders everything: then it is a table that tailorings stand on, and no tailoring.
//!
//! The physical lines of its category tell it, whatever conditions they stand under: one begins an order, and none changes one.

use coll_devices::without_return;
use coll_lex::{Lexer, past_blanks};
use std::alloc::{AllocError, Global};

// The word of a line that begins an order.
const BEGINS: &[u8] = b"order_start";

// What each word of a line that changes an order begins with.
const CHANGES: &[u8] = b"reorder-";

// The word of the line that ends the category.
const ENDS: &[u8] = b"END";

/// Whether the category of a text has a physical line that begins, blanks skipped, with the word `order_start`, and none that begins
/// with `reorder-`. A text whose category doesn't begin has no such line.
pub(crate) fn orders_everything(alloc: Global, text: &str) -> Result<bool, AllocError> {
    let mut lexer = Lexer::new(alloc)?;
    let orders = begins_an_order(&mut lexer, text);
    drop(lexer);
    Ok(orders)
}

// Whether the category of a text has a line that begins an order, and none that changes one. The lexer has read nothing.
fn begins_an_order(lexer: &mut Lexer, text: &str) -> bool {
    let mut begun = false;
    let mut orders = false;
    for line in text.as_bytes().split(|byte| *byte == b'\n') {
        let words = past_blanks(without_return(line));
        if !begun {
            match lexer.outside(line) {
                Ok(begins) => begun = begins,
                Err(_) => return false,
            }
        } else if words.starts_with(CHANGES) {
            return false;
        } else if begins_with(words, ENDS) {
            return orders;
        } else if begins_with(words, BEGINS) {
            orders = true;
        }
    }
    orders
}

// Whether the first word of a line is this one: no further letter of a word stands behind it.
fn begins_with(line: &[u8], word: &[u8]) -> bool {
    if !line.starts_with(word) {
        return false;
    }
    match line[word.len()..].first() {
        Some(byte) => !(byte.is_ascii_alphanumeric() || *byte == b'_' || *byte == b'-'),
        None => true,
    }
}
