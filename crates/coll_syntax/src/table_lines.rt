//! The lines of a table.
//!
//! The grammar is `table_line` of `specs/TableLines.antt`, by the keyword that the first token spells and the operands
//! after it.

ghost use Rattle.std.specs.Prelude.{◌≡◌, ◌≢◌, Ok, Err, IsTrue, IfOk, IfErr};
ghost use Rattle.coll_syntax.specs.declared.syntax_faults.SyntaxFault.TheVariants.{OutOfMemory};
ghost use Rattle.coll_syntax.specs.TableLines.{table_line, table_row, keyword_row as spelled_row};
ghost use Rattle.coll_syntax.specs.TableLines.{order_start as spelled_start, section_rules as spelled_section_rules};
ghost use Rattle.coll_syntax.specs.KeptLines.{kept_line, kept_row as spelled_kept_row, kept_order as spelled_kept_order};
ghost use Rattle.coll_lex.specs.Names.{AreTokens};
ghost use Rattle.coll_syntax.specs.Keywords.{keyword_of as spelled_keyword};
ghost use Rattle.coll_syntax.specs.TakenMemory.{table_line_takes_memory, table_row_takes_memory};
ghost use Rattle.coll_syntax.specs.TakenMemory.{table_keyword_takes_memory, begins_with_symbol};
ghost use Rattle.coll_syntax.specs.Proper.{IsProperTableLine};

use crate::elements::element;
use crate::keywords::{Keyword, keyword_of};
use crate::operands::{copied_name, ended, only_copied_name, only_name, only_word, two_names};
use crate::order_lines::order_line;
use crate::rule_lists::rules;
use crate::weight_lists::kept_weights;
use crate::{Id, OrderLine, Rules, SyntaxFault, TableLine};
use coll_lex::{Line, Token};
use std::alloc::Global;

/// What a line of a table says, read from its tokens. What it gives is proper.
///
/// A token that doesn't fit is the fault of the first such token from the left: 20 for the first token, 21 for one that
/// is wanted and missing, 29 for one of the wrong kind, 22 for one that is left over, and those of rules, strings and
/// weights. The names in the answer are copies, in new memory; 70 where that is refused. A line of which nothing is kept takes
/// none.
#[tactic(auto, unfolding(crate::specs::TableLines::table_line, crate::specs::TakenMemory::table_line_takes_memory))]
pub fn parse_table_line(alloc: Global, line: &Line) -> Result<TableLine, SyntaxFault>
    requires { AreTokens line.now.tokens }
    ensures ok { IfOk result (λ read. table_line line.now.tokens ≡ Ok read) }
    ensures err { IfErr result (λ fault. fault ≢ OutOfMemory → table_line line.now.tokens ≡ Err fault) }
    ensures memory { IfErr result (λ fault. fault ≡ OutOfMemory → IsTrue (table_line_takes_memory line.now.tokens)) }
    ensures proper { IfOk result IsProperTableLine }
{
    let Some((first, rest)) = line.tokens.get().split_first() else {
        return Err(SyntaxFault::UnknownStatement);
    };
    row(alloc, first, rest)
}

/// What a line of a table says, as a loader keeps it.
///
/// It is what `parse_table_line` gives, but for order lines whose identifier is a code point: a weight there that names only this
/// character is given as the entry's own, which it becomes in any case. So such a weight takes no memory.
pub fn parse_kept_line(alloc: Global, line: &Line) -> Result<TableLine, SyntaxFault>
    requires { AreTokens line.now.tokens }
    ensures ok { IfOk result (λ read. kept_line line.now.tokens ≡ Ok read) }
    ensures err { IfErr result (λ fault. fault ≢ OutOfMemory → kept_line line.now.tokens ≡ Err fault) }
    ensures proper { IfOk result IsProperTableLine }
{
    let Some((first, rest)) = line.tokens.get().split_first() else {
        return Err(SyntaxFault::UnknownStatement);
    };
    kept_row(alloc, first, rest)
}

// What a line says by its first token and those after it, as a loader keeps it.
fn kept_row(alloc: Global, first: &Token, rest: &[Token]) -> Result<TableLine, SyntaxFault>
    ensures ok { IfOk result (λ read. spelled_kept_row first.now rest.now ≡ Ok read) }
    ensures err { IfErr result (λ fault. fault ≢ OutOfMemory → spelled_kept_row first.now rest.now ≡ Err fault) }
{
    match first {
        Token::Char(own) => kept_order(alloc, *own, rest),
        _ => row(alloc, first, rest),
    }
}

// The order line of a character, with or without weights.
fn kept_order(alloc: Global, own: char, rest: &[Token]) -> Result<TableLine, SyntaxFault>
    ensures ok { IfOk result (λ read. spelled_kept_order own rest.now ≡ Ok read) }
    ensures err { IfErr result (λ fault. fault ≢ OutOfMemory → spelled_kept_order own rest.now ≡ Err fault) }
{
    let id = Id::Char(own);
    if rest.is_empty() {
        return Ok(TableLine::Order(OrderLine { id, weights: None }));
    }
    let weights = kept_weights(alloc, own, rest)?;
    Ok(TableLine::Order(OrderLine {
        id,
        weights: Some(weights),
    }))
}

// What a line says by its first token and those after it.
fn row(alloc: Global, first: &Token, rest: &[Token]) -> Result<TableLine, SyntaxFault>
    ensures ok { IfOk result (λ read. table_row first.now rest.now ≡ Ok read) }
    ensures err { IfErr result (λ fault. fault ≢ OutOfMemory → table_row first.now rest.now ≡ Err fault) }
    ensures memory { IfErr result (λ fault. fault ≡ OutOfMemory
        → IsTrue (table_row_takes_memory (spelled_keyword first.now) first.now rest.now)) }
{
    let Some(keyword) = keyword_of(first) else {
        let line = order_line(alloc, first, rest)?;
        return Ok(TableLine::Order(line));
    };
    keyword_row(alloc, keyword, rest)
}

// What a line says by its keyword and its operands.
fn keyword_row(
    alloc: Global,
    keyword: Keyword,
    operands: &[Token],
) -> Result<TableLine, SyntaxFault>
    ensures ok { IfOk result (λ read. spelled_row keyword operands.now ≡ Ok read) }
    ensures err { IfErr result (λ fault. fault ≢ OutOfMemory → spelled_row keyword operands.now ≡ Err fault) }
    ensures memory { IfErr result (λ fault. fault ≡ OutOfMemory → IsTrue (table_keyword_takes_memory keyword operands.now)) }
{
    match keyword {
        Keyword::CollatingSymbol => {
            let name = only_copied_name(alloc, operands)?;
            Ok(TableLine::Symbol(name))
        }
        Keyword::CollatingElement => {
            let (name, text) = element(alloc, operands)?;
            Ok(TableLine::Element { name, text })
        }
        Keyword::SymbolEquivalence => {
            let (name, symbol) = two_names(alloc, operands)?;
            Ok(TableLine::Equivalence { name, symbol })
        }
        Keyword::OrderStart => order_start(alloc, operands),
        Keyword::OrderEnd => ended(TableLine::OrderEnd, operands),
        Keyword::Section => {
            let name = only_copied_name(alloc, operands)?;
            Ok(TableLine::Section(name))
        }
        Keyword::Script => {
            let _name = only_name(operands)?;
            Ok(TableLine::Script)
        }
        Keyword::End => {
            only_word(operands, "LC_COLLATE")?;
            Ok(TableLine::EndCategory)
        }
        _ => Err(SyntaxFault::UnknownStatement),
    }
}

// The operands of `order_start`.
fn order_start(alloc: Global, operands: &[Token]) -> Result<TableLine, SyntaxFault>
    ensures ok { IfOk result (λ read. spelled_start operands.now ≡ Ok read) }
    ensures err { IfErr result (λ fault. fault ≢ OutOfMemory → spelled_start operands.now ≡ Err fault) }
    ensures memory { IfErr result (λ fault. fault ≡ OutOfMemory → IsTrue (begins_with_symbol operands.now)) }
{
    let Some((operand, rest)) = operands.split_first() else {
        return Ok(TableLine::OrderStart {
            section: None,
            rules: None,
        });
    };
    match operand {
        Token::Symbol(name) => {
            let rules = section_rules(rest)?;
            let name = copied_name(alloc, name)?;
            Ok(TableLine::OrderStart {
                section: Some(name),
                rules,
            })
        }
        Token::Char(_) => Err(SyntaxFault::BadOperand),
        _ => {
            let rules = rules(operands)?;
            Ok(TableLine::OrderStart {
                section: None,
                rules: Some(rules),
            })
        }
    }
}

// What stands behind the name of a section: nothing, or a semicolon and the rules.
fn section_rules(operands: &[Token]) -> Result<Option<Rules>, SyntaxFault>
    ensures ok { IfOk result (λ read. spelled_section_rules operands.now ≡ Ok read) }
    ensures err { IfErr result (λ fault. spelled_section_rules operands.now ≡ Err fault) }
    ensures spared { IfErr result (λ fault. fault ≢ OutOfMemory) }
{
    let Some((operand, rest)) = operands.split_first() else {
        return Ok(None);
    };
    let Token::Semicolon = operand else {
        return Err(SyntaxFault::ExtraOperand);
    };
    let rules = rules(rest)?;
    Ok(Some(rules))
}
