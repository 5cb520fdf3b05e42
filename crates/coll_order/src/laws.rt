//! The laws of rings, as contracts of functions that do nothing.
//!
//! They are what a change of order rests on that is taken back by neighbours alone.

ghost use Rattle.coll_order.specs.Laws.{LinkTakesBackUnlink, UnlinkTakesBackLink};

/// A node that is taken out and put back after the place where it stood gives back the layout.
pub fn link_takes_back_unlink()
    ensures { LinkTakesBackUnlink }
{}

/// A loose node that is put after a place stands there, and taken out again it gives back the layout.
pub fn unlink_takes_back_link()
    ensures { UnlinkTakesBackLink }
{}
