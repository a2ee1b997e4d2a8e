//! The laws of the graph: what is reached from entry points are its nodes, and where a definition
//! walks at most so many steps, more steps come to nothing new.

ghost use Rattle.dg_decl.specs.GraphLaws.{CyclesByShortWalks, DepthsAreLongestWalks, EdgesAreNumbered};
ghost use Rattle.dg_decl.specs.GraphLaws.{NodesAreTheReachableOnes, OneListOfNodes};
ghost use Rattle.dg_decl.specs.GraphLaws.{ProductionsByShortWalks, StagesLeaveNoCycle, TargetsAreCandidates};
ghost use Rattle.dg_decl.specs.GraphLaws.{WeightsAddUp};

/// Each node that an entry point or a node needs is among the candidates, so that nothing is lost
/// where nodes are listed.
pub fn targets_are_candidates()
    ensures exact { TargetsAreCandidates }
{}

/// The nodes of a document are exactly those that are reached from its entry points, over walks of
/// any length, and each is listed once.
pub fn nodes_are_the_reachable_ones()
    ensures exact { NodesAreTheReachableOnes }
{}

/// The candidates that are reached, each once and in the order of candidates, are one list: a
/// program that lists them so has no choice.
pub fn one_list_of_nodes()
    ensures exact { OneListOfNodes }
{}

/// The edges of a node by the numbers of nodes are all its edges, in order, each at the number of
/// the node to which it leads.
pub fn edges_are_numbered()
    ensures exact { EdgesAreNumbered }
{}

/// A closed walk of direct edges, of any length, leads from a node to itself exactly where one of
/// at most as many steps as there are candidates does; and so it is with one of direct and called
/// edges that has a called one.
pub fn cycles_by_short_walks()
    ensures exact { CyclesByShortWalks }
{}

/// A walk, of any length, passes a production on to a node exactly where one of at most as many
/// steps as there are candidates does.
pub fn productions_by_short_walks()
    ensures exact { ProductionsByShortWalks }
{}

/// Where the stage of bindings finds nothing, no node lies on a closed walk of direct edges, nor on
/// one of direct and called edges with a called one.
pub fn stages_leave_no_cycle()
    ensures exact { StagesLeaveNoCycle }
{}

/// In a document without cycles the depth of a node is the number of nodes on the longest walk of
/// direct and called edges that begins there.
pub fn depths_are_longest_walks()
    ensures exact { DepthsAreLongestWalks }
{}

/// In a document without cycles the weight of a node is its own size and, for each direct or called
/// edge, the weight of the node to which it leads, or 1 where that is shared; and no other numbers
/// add up so.
pub fn weights_add_up()
    ensures exact { WeightsAddUp }
{}
