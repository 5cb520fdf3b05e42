//! The rules of `order_start`: operands separated by semicolons, one for each level.
//!
//! Each call is the definition of its name in `specs/Rules.antt`. None of them takes memory.

ghost use Rattle.std.specs.Prelude.{◌≡◌, ◌≢◌, Ok, Err, IfOk, IfErr};
ghost use Rattle.coll_syntax.specs.Rules.{rules as spelled_rules, operand_rule as spelled_operand};
ghost use Rattle.coll_syntax.specs.Rules.{one_directive as rule_of_one, two_directives as rule_of_two};
ghost use Rattle.coll_syntax.specs.Rules.{directive_of as spelled_directive};
ghost use Rattle.coll_syntax.specs.declared.syntax_faults.SyntaxFault.TheVariants.{OutOfMemory};

use crate::keywords::is_word;
use crate::operands::is_semicolon;
use crate::rules::MOST_LEVELS;
use crate::{Rule, Rules, SyntaxFault};
use coll_lex::Token;

/// A word of a rule (POSIX.1-2017, 7.3.2.3).
#[derive(Clone, Copy, Debug)]
pub(crate) enum Directive {
    Forward,
    Backward,
    Position,
}

/// The rules that the tokens behind `order_start` spell.
pub(crate) fn rules(tokens: &[Token]) -> Result<Rules, SyntaxFault>
    ensures ok { IfOk result (λ read. spelled_rules tokens.now ≡ Ok read) }
    ensures err { IfErr result (λ fault. spelled_rules tokens.now ≡ Err fault) }
    ensures spared { IfErr result (λ fault. fault ≢ OutOfMemory) }
{
    let mut slots = [Rule {
        backward: false,
        position: false,
    }; MOST_LEVELS];
    let mut levels = 0;
    for operand in tokens.split(is_semicolon) {
        if levels == MOST_LEVELS {
            return Err(SyntaxFault::TooManyLevels);
        }
        let Some(rule) = operand_rule(operand) else {
            return Err(SyntaxFault::BadRule);
        };
        slots[levels] = rule;
        levels += 1;
    }
    Ok(Rules::from_slots(slots, levels))
}

// The rule of one operand, which stands between two semicolons.
fn operand_rule(operand: &[Token]) -> Option<Rule>
    ensures { result ≡ spelled_operand operand.now }
{
    match operand {
        [word] => one_directive(directive_of(word)),
        [first, Token::Comma, second] => two_directives(directive_of(first), directive_of(second)),
        _ => None,
    }
}

// The rule of one directive. `position` alone means `forward,position`.
fn one_directive(directive: Option<Directive>) -> Option<Rule>
    ensures { result ≡ rule_of_one directive }
{
    match directive? {
        Directive::Forward => Some(Rule {
            backward: false,
            position: false,
        }),
        Directive::Backward => Some(Rule {
            backward: true,
            position: false,
        }),
        Directive::Position => Some(Rule {
            backward: false,
            position: true,
        }),
    }
}

// The rule of two directives: a direction and `position`, in either order.
fn two_directives(first: Option<Directive>, second: Option<Directive>) -> Option<Rule>
    ensures { result ≡ rule_of_two first second }
{
    let backward = match (first?, second?) {
        (Directive::Forward, Directive::Position) => false,
        (Directive::Position, Directive::Forward) => false,
        (Directive::Backward, Directive::Position) => true,
        (Directive::Position, Directive::Backward) => true,
        _ => return None,
    };
    Some(Rule {
        backward,
        position: true,
    })
}

// The directive that a word spells.
fn directive_of(token: &Token) -> Option<Directive>
    ensures { result ≡ spelled_directive token.now }
{
    if is_word(token, "forward") {
        return Some(Directive::Forward);
    }
    if is_word(token, "backward") {
        return Some(Directive::Backward);
    }
    if is_word(token, "position") {
        return Some(Directive::Position);
    }
    None
}
