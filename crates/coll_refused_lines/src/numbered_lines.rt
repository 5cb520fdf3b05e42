//! A line of a text by its number, and a lexer that stands before it.

ghost use Rattle.std.specs.Prelude.{IfSome};
ghost use Rattle.coll_refused_lines.specs.NumberedLines.{IsLineAt};

use coll_findings::first_line;
use coll_lex::{Lexer, without_return};
use std::alloc::{AllocError, Global};

/// The line of a text with this number, from 1, without the carriage return at its end, if the text has so many.
pub(crate) fn line_at(text: &[u8], number: u32) -> Option<&[u8]>
    ensures { IfSome result (λ line. IsLineAt text.now number line.now) }
{
    let mut left = text;
    for _ in 0..number.saturating_sub(1) {
        let (_, behind) = first_line(left)?;
        left = behind;
    }
    let (line, _) = first_line(left)?;
    Some(without_return(line))
}

/// A lexer that stands in a text before the line with this number: the directives before it are in force.
pub(crate) fn lexer_at(alloc: Global, text: &[u8], number: u32) -> Result<Lexer, AllocError> {
    let mut lexer = Lexer::new(alloc)?;
    let mut left = text;
    for _ in 1..number {
        let Some((line, behind)) = first_line(left) else {
            break;
        };
        let _ = lexer.outside(line);
        left = behind;
    }
    Ok(lexer)
}
