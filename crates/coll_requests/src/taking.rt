//! One physical line of a session: it is parsed, and the block takes it.
//!
//! A statement that a line completes is proper, whatever lines came before: the tokens of the lexer are as the grammar asks
//! for, what the grammar gives is proper, and a block that is open keeps a proper statement. So this is a clause of
//! `LineParser::take`, which asks its callers for nothing.

ghost use Rattle.std.specs.Prelude.{◌≡◌, Bool, true, IfOk, IfErr, IfSome};
ghost use Rattle.coll_lex.specs.Faults.{ends_text};
ghost use Rattle.coll_requests.specs.ProperLines.{IsProperRequest};
ghost use Rattle.coll_requests.specs.Taking.{TakesPhysical};

use crate::open_blocks::{OpenBlock, take_line};
use crate::parsing::LineParser;
use crate::requests::RequestAt;
use coll_lex::LexFault;
use std::alloc::Global;

impl LineParser {
    /// Takes one more physical line of a session, without its line feed, with the block that is open, and answers the request
    /// that it completes, if it completes one; or the fault at which the session ends, and then the block that is open stays: a
    /// line too long, or one too many.
    ///
    /// Memory is taken for the line's tokens, for a line that is continued, for what a line says, and for the room of a block.
    /// Where it is refused, the line is a refused one.
    pub fn take(
        &mut self,
        alloc: Global,
        block: &mut Option<OpenBlock>,
        line: &[u8],
    ) -> Result<Option<RequestAt>, LexFault>
        ensures taken { (starved : Bool) × TakesPhysical starved self.old self.new line.now block.old block.new result }
        ensures proper { IfOk result (λ request. IfSome request (λ completed. IsProperRequest completed.request)) }
        ensures ends { IfErr result (λ fault. ends_text fault ≡ true) }
    {
        let Some(parsing) = self.parse(alloc, true, line) else {
            return Ok(None);
        };
        match parsing.stop() {
            Some(fault) => {
                drop(parsing);
                Err(fault)
            }
            None => Ok(take_line(alloc, block, parsing)),
        }
    }
}
