//! The lines of a delta.
//!
//! The grammar is `delta_line` of `specs/DeltaLines.antt`, by the keyword that the first token spells and the operands
//! after it.

ghost use Rattle.std.specs.Prelude.{◌≡◌, ◌≢◌, Ok, Err, IsTrue, IfOk, IfErr};
ghost use Rattle.coll_syntax.specs.declared.syntax_faults.SyntaxFault.TheVariants.{OutOfMemory};
ghost use Rattle.coll_lex.specs.Names.{AreTokens};
ghost use Rattle.coll_syntax.specs.Keywords.{keyword_of as spelled_keyword};
ghost use Rattle.coll_syntax.specs.TakenMemory.{delta_line_takes_memory, delta_row_takes_memory, delta_keyword_takes_memory};
ghost use Rattle.coll_syntax.specs.DeltaLines.{delta_line, delta_row, keyword_row as spelled_row};
ghost use Rattle.coll_syntax.specs.Proper.{IsProperDeltaLine};

use crate::elements::element;
use crate::keywords::{Keyword, keyword_of};
use crate::operands::{
    ended, only_copied_name, only_id, only_name, only_string, only_word, two_names,
};
use crate::order_lines::order_line;
use crate::{DeltaLine, SyntaxFault};
use coll_lex::{Line, Token};
use std::alloc::Global;

/// What a line of a delta says, read from its tokens. What it gives is proper.
///
/// A token that doesn't fit is the fault of the first such token from the left: 20 for the first token, 21 for one that
/// is wanted and missing, 29 for one of the wrong kind, 22 for one that is left over, and those of strings and
/// weights. The names in the answer are copies, in new memory; 70 where that is refused. A line of which nothing is kept takes
/// none.
#[tactic(auto, unfolding(crate::specs::DeltaLines::delta_line, crate::specs::TakenMemory::delta_line_takes_memory))]
pub fn parse_delta_line(alloc: Global, line: &Line) -> Result<DeltaLine, SyntaxFault>
    requires { AreTokens line.now.tokens }
    ensures ok { IfOk result (λ read. delta_line line.now.tokens ≡ Ok read) }
    ensures err { IfErr result (λ fault. fault ≢ OutOfMemory → delta_line line.now.tokens ≡ Err fault) }
    ensures memory { IfErr result (λ fault. fault ≡ OutOfMemory → IsTrue (delta_line_takes_memory line.now.tokens)) }
    ensures proper { IfOk result IsProperDeltaLine }
{
    let Some((first, rest)) = line.tokens.get().split_first() else {
        return Err(SyntaxFault::UnknownStatement);
    };
    row(alloc, first, rest)
}

// What a line says by its first token and those after it.
fn row(alloc: Global, first: &Token, rest: &[Token]) -> Result<DeltaLine, SyntaxFault>
    ensures ok { IfOk result (λ read. delta_row first.now rest.now ≡ Ok read) }
    ensures err { IfErr result (λ fault. fault ≢ OutOfMemory → delta_row first.now rest.now ≡ Err fault) }
    ensures memory { IfErr result (λ fault. fault ≡ OutOfMemory
        → IsTrue (delta_row_takes_memory (spelled_keyword first.now) first.now rest.now)) }
{
    let Some(keyword) = keyword_of(first) else {
        let line = order_line(alloc, first, rest)?;
        return Ok(DeltaLine::Order(line));
    };
    keyword_row(alloc, keyword, rest)
}

// What a line says by its keyword and its operands.
fn keyword_row(
    alloc: Global,
    keyword: Keyword,
    operands: &[Token],
) -> Result<DeltaLine, SyntaxFault>
    ensures ok { IfOk result (λ read. spelled_row keyword operands.now ≡ Ok read) }
    ensures err { IfErr result (λ fault. fault ≢ OutOfMemory → spelled_row keyword operands.now ≡ Err fault) }
    ensures memory { IfErr result (λ fault. fault ≡ OutOfMemory → IsTrue (delta_keyword_takes_memory keyword operands.now)) }
{
    match keyword {
        Keyword::CollatingSymbol => {
            let name = only_copied_name(alloc, operands)?;
            Ok(DeltaLine::Symbol(name))
        }
        Keyword::CollatingElement => {
            let (name, text) = element(alloc, operands)?;
            Ok(DeltaLine::Element { name, text })
        }
        Keyword::SymbolEquivalence => {
            let (name, symbol) = two_names(alloc, operands)?;
            Ok(DeltaLine::Equivalence { name, symbol })
        }
        Keyword::Script => {
            let _name = only_name(operands)?;
            Ok(DeltaLine::Script)
        }
        Keyword::Category => ended(DeltaLine::Category, operands),
        Keyword::End => {
            only_word(operands, "LC_COLLATE")?;
            Ok(DeltaLine::EndCategory)
        }
        Keyword::Copy => {
            let _pieces = only_string(operands)?;
            Ok(DeltaLine::Copy)
        }
        Keyword::ReorderAfter => {
            let target = only_id(alloc, operands)?;
            Ok(DeltaLine::ReorderAfter(target))
        }
        Keyword::ReorderEnd => ended(DeltaLine::ReorderEnd, operands),
        Keyword::ReorderSectionAfter => {
            let (moved, after) = two_names(alloc, operands)?;
            Ok(DeltaLine::SectionAfter { moved, after })
        }
        _ => Err(SyntaxFault::UnknownStatement),
    }
}
