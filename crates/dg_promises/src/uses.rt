//! What asks come to, and how far their uses reach.

ghost use Rattle.dg_promises.specs.Uses.{AsksAreAnswered, UsesEnd};

/// In an accepted document each ask is answered: no look-up of a run finds nothing.
pub fn asks_are_answered()
    ensures exact { AsksAreAnswered }
{}

/// In an accepted document what an ask uses is found within 256 uses that follow one another, so
/// that the cells that a report counts are all those that its asks come to.
pub fn uses_end()
    ensures exact { UsesEnd }
{}
