//! The statement of a block that isn't spoiled, while it is built.
//!
//! Its room grows with its lines, and its statement keeps no more of it than they need. What it holds is always a proper
//! statement, so that the statement is one.

ghost use Rattle.std.specs.Prelude.{◌≡◌, ◌<◌, nat_le, length, [], ◌∷◌, ◌++◌, OnOk, OnErr};
ghost use Rattle.coll_syntax.specs.Proper.{IsId, IsProperLine, IsProper};
ghost use Rattle.coll_requests.specs.Limits.{most_block_lines};

use coll_lex::ListBuf;
use coll_syntax::{Id, MOST_BLOCK_LINES, OrderLine, Statement};
use std::alloc::{AllocError, Global};
use std::marker::Model;

/// The statement of a block while it is built: its target and its order lines so far.
#[derive(Drop)]
pub struct BlockBuilder {
    target: Id,
    lines: Vec<OrderLine>,
}

impl Model for BlockBuilder {
    ghost use Rattle.coll_syntax.specs.Proper.{IsProper};
    ghost use Rattle.coll_syntax.specs.declared.statements.Statement.TheVariants as statement;
    ghost use Rattle.coll_requests.specs.BlockParts.{BlockParts};

    ghost Value = { BlockParts };

    ghost view = { λ g. record { target = g.target; lines = g.lines.items } };

    ghost invariant = { λ g. IsProper (statement.Block g.target g.lines.items) };
}

impl BlockBuilder {
    /// The block that a line opens, without lines yet. It takes no memory.
    pub(crate) fn begin(alloc: Global, target: Id) -> BlockBuilder
        requires { IsId target }
        ensures { result ≡ record { target = target; lines = [] } }
    {
        BlockBuilder {
            target,
            lines: Vec::new(alloc),
        }
    }

    /// Whether the block has all the lines that it may have.
    pub(crate) fn is_full(&self) -> bool
        ensures { result ≡ nat_le most_block_lines (length self.now.lines) }
    {
        self.lines.len() >= MOST_BLOCK_LINES
    }

    /// Puts a further line at the end. A growth that is refused leaves the block as it was.
    pub(crate) fn push(&mut self, line: OrderLine) -> Result<(), AllocError>
        requires room { length self.old.lines < most_block_lines }
        requires proper { IsProperLine line }
        ensures ok { OnOk result (self.new ≡ record { target = self.old.target; lines = self.old.lines ++ line ∷ [] }) }
        ensures err { OnErr result (self.new ≡ self.old) }
    {
        self.lines.push(line)?;
        Ok(())
    }

    /// The statement of the whole block. Room that its lines don't need is given back, where this takes no memory that is
    /// refused.
    pub(crate) fn statement(self) -> Statement
        ensures statement { result ≡ Statement.Block self.target self.lines }
        ensures proper { IsProper result }
    {
        let BlockBuilder { target, mut lines } = self;
        lines.shrink_to_fit();
        Statement::Block {
            target,
            lines: ListBuf::new(lines),
        }
    }
}
