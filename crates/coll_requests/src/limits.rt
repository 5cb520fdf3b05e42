//! The limits of blocks.
//!
//! The definitions have each limit as a number, and `limits_are_stated` says that the constant is the same; a limit is
//! changed in both.

ghost use Rattle.std.specs.Prelude.{◌≡◌};
ghost use Rattle.coll_requests.specs.Limits.{most_block_lines};

use coll_syntax::MOST_BLOCK_LINES;

/// The limit is the number of the definitions: 4,096 order lines of a block.
///
/// It does nothing; its contract says so.
pub fn limits_are_stated()
    ensures { MOST_BLOCK_LINES ≡ most_block_lines }
{}
