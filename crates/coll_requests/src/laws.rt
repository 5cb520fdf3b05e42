//! What follows from the definitions of requests, as contracts of functions that do nothing.

ghost use Rattle.coll_requests.specs.Laws.{BlockEnds, BlockEndsRefused, BlockEndsAtNext, BlockLeftOpen, BlockStopped};
ghost use Rattle.coll_requests.specs.Laws.{BlockStates, BlockStarves, BlockBegunRefused, BlockSpoiled};

/// The law of a block: the lines from one that opens it to the next that ends it give the refusals of the commands
/// among them, in order, and then one request.
///
/// The first line is an accepted `reorder-after`, or a refused line that begins with that text. The request is the statement
/// of the target and the order lines, or a refusal: for lack of memory where a line was refused for it, and else with the
/// fault of the first line that spoils the block. A refused line that begins with `reorder-end` is one of the lines of the
/// block that it ends; a line that opens the next block isn't.
pub fn block_is_one_request()
    ensures ended { BlockEnds }
    ensures ended_refused { BlockEndsRefused }
    ensures ended_at_next { BlockEndsAtNext }
{}

/// The law of a block's request, by its lines: the statement of its target and its order lines, where no line is refused and
/// there is none too many; and else the refusal for lack of memory, of its first line, or of the first line that spoils it.
pub fn request_of_a_block()
    ensures states { BlockStates }
    ensures starves { BlockStarves }
    ensures begun_refused { BlockBegunRefused }
    ensures spoiled { BlockSpoiled }
{}

/// The law of a block that no line ends: the refusals of the commands in it, in order, and then, at the end of the
/// text, one refusal of the block; at a line after which no other comes, the last faults.
pub fn block_left_open_is_refused()
    ensures left_open { BlockLeftOpen }
    ensures stopped { BlockStopped }
{}
