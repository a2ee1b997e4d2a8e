//! The laws of component classes: where a definition walks at most so many steps, more steps come
//! to nothing new.

ghost use Rattle.dg_decl.specs.Components.{AncestorsAreWalks, ChainsAreWhole, HeadersHaveTheirNumbers, ReachedByShortWalks};
ghost use Rattle.dg_decl.specs.Stages.Components.{ChainsEndAtRoots};
ghost use Rattle.dg_decl.specs.Stages.Dependencies.{BelowByShortWalks};

/// A walk of `includes`, of any length, leads from a seed of a class to a module exactly where one
/// of at most as many steps as the document has items does. So which modules are installed, after
/// Dagger and Hilt, depends on no number.
pub fn reached_by_short_walks()
    ensures exact { ReachedByShortWalks }
{}

/// A walk of parents and dependencies, of any length, leads from one component class to another
/// exactly where one of at most as many steps as there are classes does.
pub fn below_by_short_walks()
    ensures exact { BelowByShortWalks }
{}

/// The ancestors of a class are the classes to which a walk of parents, of any length, leads from
/// its parent; also where the walk meets a cycle.
pub fn ancestors_are_walks()
    ensures exact { AncestorsAreWalks }
{}

/// The chain of a class whose ancestors aren't on a cycle is its whole walk of parents: it ends at
/// a class without a parent.
pub fn chains_are_whole()
    ensures exact { ChainsAreWhole }
{}

/// Where the stage of components finds nothing, the chain of each class ends at a class without a
/// parent.
pub fn chains_end_at_roots()
    ensures exact { ChainsEndAtRoots }
{}

/// The header of a component class has the number of the class: the numbers of classes and their
/// headers name one another.
pub fn headers_have_their_numbers()
    ensures exact { HeadersHaveTheirNumbers }
{}
