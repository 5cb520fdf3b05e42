//! Order lines: an identifier, with or without weights.
//!
//! An order line is the definition `order_line` of `specs/OrderLines.antt`.

ghost use Rattle.std.specs.Prelude.{◌≡◌, ◌≢◌, Ok, Err, IsTrue, IfOk, IfErr};
ghost use Rattle.coll_syntax.specs.OrderLines.{order_line as spelled_line};
ghost use Rattle.coll_syntax.specs.TakenMemory.{order_takes_memory};
ghost use Rattle.coll_syntax.specs.declared.syntax_faults.SyntaxFault.TheVariants.{OutOfMemory};

use crate::operands::id_of;
use crate::weight_lists::weights;
use crate::{OrderLine, SyntaxFault};
use coll_lex::Token;
use std::alloc::Global;

/// An identifier, and the weights behind it if there is a token. A first token that is none begins no line.
pub(crate) fn order_line(
    alloc: Global,
    first: &Token,
    rest: &[Token],
) -> Result<OrderLine, SyntaxFault>
    ensures ok { IfOk result (λ line. spelled_line first.now rest.now ≡ Ok line) }
    ensures err { IfErr result (λ fault. fault ≢ OutOfMemory → spelled_line first.now rest.now ≡ Err fault) }
    ensures memory { IfErr result (λ fault. fault ≡ OutOfMemory → IsTrue (order_takes_memory first.now rest.now)) }
{
    let Some(id) = id_of(alloc, first)? else {
        return Err(SyntaxFault::UnknownStatement);
    };
    if rest.is_empty() {
        return Ok(OrderLine { id, weights: None });
    }
    let weights = weights(alloc, rest)?;
    Ok(OrderLine {
        id,
        weights: Some(weights),
    })
}
