//! What stands behind replies.

ghost use Rattle.dg_promises.specs.Replies.{HeldAreUsed, RepliesAreWhole};

/// In an accepted document an ask uses each cell that its reply holds, by itself or behind others.
pub fn held_are_used()
    ensures exact { HeldAreUsed }
{}

/// In an accepted document the value of a reply is there with the contents of all cells behind it.
pub fn replies_are_whole()
    ensures exact { RepliesAreWhole }
{}
