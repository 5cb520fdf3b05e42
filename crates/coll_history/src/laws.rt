//! What follows from the definitions of a history, as contracts of functions that do nothing.

ghost use Rattle.coll_history.specs.Laws.{UndoRestores};

/// The law of undo: what an accepted statement adds, the undo after it takes back. The table is then the one in which the
/// statement was accepted, with the same entries, order, weights and sections, and what remains is what remained then; a redo
/// puts the statement again.
///
/// It does nothing; its contract is the law.
pub fn undo_restores()
    ensures { UndoRestores }
{}
