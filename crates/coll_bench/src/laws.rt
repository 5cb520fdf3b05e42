//! What follows from the definitions of replies and of a session, as contracts of functions that do nothing.

ghost use Rattle.coll_bench.specs.Laws.{LackShows, LackShowsCut, LackShowsPrefix, LackShowsLast, RefusedChangesNothing};

/// The law of refusals: a request whose reply is `refused NUMBER NAME`, for lack of memory or for another fault, leaves the
/// history, and so the table, what remains, and what was taken back.
///
/// It does nothing; its contract is the law.
pub fn refused_lines_change_nothing()
    ensures { RefusedChangesNothing }
{}

/// The law of a lack of memory: what is written for a text that was served to its end, or to a line too long or one too
/// many, is exactly the stated output, and that line is exactly the stated one, or `refused 70 OutOfMemory` stands in it.
///
/// So a run that ended so, and that wrote no such reply, wrote exactly what is stated for its table and its text, and
/// answered the stated fault. A run that a read fault ended wrote what is stated for the lines read, unless that reply comes
/// whatever lines follow: a block that is open where the text is cut may keep it until it ends. And what a run wrote that a
/// write fault ended is a prefix of what is stated, or of an output in which that reply stands.
pub fn lack_of_memory_shows()
    ensures shows { LackShows }
    ensures shows_last { LackShowsLast }
    ensures shows_cut { LackShowsCut }
    ensures shows_prefix { LackShowsPrefix }
{}
