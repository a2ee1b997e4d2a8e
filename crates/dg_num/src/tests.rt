ghost use Rattle.std.specs.Prelude.{◌<◌, ◌↔◌, All, IfOk, IsTrue, SomeIndex};
ghost use Rattle.dg_num.specs.Graph.{successors, IsSound};
ghost use Rattle.dg_num.specs.Walks.{IsAcyclic, IsTrueAt};

use crate::{Graph, RankFault, on_cycle, one_weight, ranks, reach, weights};
use std::alloc::Global;
use std::process::Abort;
use std::test::Fail;

/// Whether each edge leads to a node, and there are fewer than 2 ^ 32 nodes.
fn is_sound(graph: &Graph) -> bool
    ensures { IsTrue result → IsSound graph.now }
{
    if graph.next.len() >= 1 << 32 {
        return false;
    }
    for node in 0..graph.next.len() as u32 {
        if !all_below(graph.row(node), graph.next.len()) {
            return false;
        }
    }
    true
}

fn all_below(row: &[u32], count: usize) -> bool
    ensures { IsTrue result ↔ All (λ node. node < count) row.now }
{
    row.iter().all(|node| (*node as usize) < count)
}

/// Whether no node lies on a cycle.
fn is_acyclic(alloc: Global, graph: &Graph) -> Result<bool, Fail>
    requires { IsSound graph.now }
    ensures { IfOk result (λ b. IsTrue b → IsAcyclic (successors graph.now)) }
{
    let marks = on_cycle(alloc, graph)?;
    Ok(!has_mark(&marks))
}

fn has_mark(marks: &[bool]) -> bool
    ensures { IsTrue result ↔ SomeIndex marks.now (IsTrueAt marks.now) }
{
    marks.iter().any(|mark| *mark)
}

fn sound(rt: &impl Abort, next: Vec<Vec<u32>>) -> Graph
    ensures { IsSound result }
{
    let graph = Graph { next };
    assert!(rt; is_sound(&graph));
    graph
}

fn graph_of(rt: &impl Abort, alloc: Global, rows: &[&[u32]]) -> Result<Graph, Fail>
    ensures { IfOk result IsSound }
{
    let mut next = Vec::new(alloc);
    for row in rows {
        next.push(Vec::from_slice(alloc, *row)?)?;
    }
    Ok(sound(rt, next))
}

fn check(
    rt: &impl Abort,
    alloc: Global,
    name: &str,
    rows: &[&[u32]],
    from: &[u32],
    reached: &[bool],
    cyclic: &[bool],
    wanted: Result<&[u32], RankFault>,
) -> Result<(), Fail> {
    let graph = graph_of(rt, alloc, rows)?;
    assert!(rt; all_below(from, graph.next.len()), "{name}");
    assert_eq!(rt;
        reach(alloc, &graph, from)?.as_slice(),
        reached,
        "{name}: reached"
    );
    assert_eq!(rt;
        on_cycle(alloc, &graph)?.as_slice(),
        cyclic,
        "{name}: on a cycle"
    );
    match (ranks(alloc, &graph), wanted) {
        (Ok(found), Ok(wanted)) => assert_eq!(rt; found.as_slice(), wanted, "{name}: ranks"),
        (Err(found), Err(wanted)) => assert_eq!(rt; found, wanted, "{name}: ranks"),
        _ => assert!(rt; false, "{name}: ranks"),
    }
    Ok(())
}

fn cyclic<'a>(node: u32) -> Result<&'a [u32], RankFault> {
    Err(RankFault::Cyclic { node })
}

#[test]
fn plain_graphs(rt: HostRuntime) -> Result<(), Fail> {
    let alloc = rt.alloc();
    let (t, f) = (true, false);
    check(&rt, alloc, "empty", &[], &[], &[], &[], Ok(&[]))?;
    check(&rt, alloc, "one node", &[&[]], &[], &[f], &[f], Ok(&[1]))?;
    check(
        &rt,
        alloc,
        "diamond",
        &[&[1, 2], &[3], &[3], &[]],
        &[0],
        &[t, t, t, t],
        &[f, f, f, f],
        Ok(&[3, 2, 2, 1]),
    )?;
    check(
        &rt,
        alloc,
        "diamond from the side",
        &[&[1, 2], &[3], &[3], &[]],
        &[1],
        &[f, t, f, t],
        &[f, f, f, f],
        Ok(&[3, 2, 2, 1]),
    )?;
    check(
        &rt,
        alloc,
        "chain",
        &[&[1], &[2], &[3], &[]],
        &[2],
        &[f, f, t, t],
        &[f, f, f, f],
        Ok(&[4, 3, 2, 1]),
    )?;
    check(
        &rt,
        alloc,
        "long way and short way",
        &[&[3, 1], &[2], &[3], &[]],
        &[0],
        &[t, t, t, t],
        &[f, f, f, f],
        Ok(&[4, 3, 2, 1]),
    )?;
    Ok(())
}

#[test]
fn many_edges_and_starts(rt: HostRuntime) -> Result<(), Fail> {
    let alloc = rt.alloc();
    let (t, f) = (true, false);
    check(
        &rt,
        alloc,
        "several edges between two nodes",
        &[&[1, 1, 2], &[2, 2], &[]],
        &[0],
        &[t, t, t],
        &[f, f, f],
        Ok(&[3, 2, 1]),
    )?;
    check(
        &rt,
        alloc,
        "nodes that nothing reaches",
        &[&[], &[0], &[0]],
        &[0],
        &[t, f, f],
        &[f, f, f],
        Ok(&[1, 2, 2]),
    )?;
    check(
        &rt,
        alloc,
        "repeated starts",
        &[&[], &[0], &[0]],
        &[1, 1, 2],
        &[t, t, t],
        &[f, f, f],
        Ok(&[1, 2, 2]),
    )?;
    Ok(())
}

#[test]
fn graphs_with_cycles(rt: HostRuntime) -> Result<(), Fail> {
    let alloc = rt.alloc();
    let (t, f) = (true, false);
    check(
        &rt,
        alloc,
        "two cycles joined by a path",
        &[&[1], &[0, 2], &[3], &[4], &[3]],
        &[2],
        &[f, f, t, t, t],
        &[t, t, f, t, t],
        cyclic(0),
    )?;
    check(
        &rt,
        alloc,
        "figure of eight",
        &[&[1], &[2], &[0, 3], &[4], &[2], &[0]],
        &[3],
        &[t, t, t, t, t, f],
        &[t, t, t, t, t, f],
        cyclic(0),
    )?;
    check(
        &rt,
        alloc,
        "self-loop",
        &[&[], &[1], &[1]],
        &[0],
        &[t, f, f],
        &[f, t, f],
        cyclic(1),
    )?;
    check(
        &rt,
        alloc,
        "two edges there and two back",
        &[&[], &[2, 2], &[1, 1]],
        &[2],
        &[f, t, t],
        &[f, t, t],
        cyclic(1),
    )?;
    check(
        &rt,
        alloc,
        "cycle below a path",
        &[&[2], &[2], &[3], &[2], &[4]],
        &[4],
        &[f, f, f, f, t],
        &[f, f, t, t, t],
        cyclic(2),
    )?;
    check(
        &rt,
        alloc,
        "ring",
        &[&[2], &[0], &[1]],
        &[],
        &[f, f, f],
        &[t, t, t],
        cyclic(0),
    )?;
    Ok(())
}

/// Each node leads to the next one, and the last one to the first or to none.
fn chain(rt: &impl Abort, alloc: Global, count: u32, closed: bool) -> Result<Graph, Fail>
    ensures { IfOk result IsSound }
{
    let mut next = Vec::with_capacity(alloc, count as usize)?;
    for node in 0..count {
        let mut row = Vec::new(alloc);
        if node < count - 1 {
            row.push(node + 1)?;
        } else if closed {
            row.push(0)?;
        }
        next.push(row)?;
    }
    Ok(sound(rt, next))
}

/// Node 0 leads to each other node.
fn star(rt: &impl Abort, alloc: Global, count: u32) -> Result<Graph, Fail>
    ensures { IfOk result IsSound }
{
    let mut next = Vec::with_capacity(alloc, count as usize)?;
    for node in 0..count {
        next.push(numbers(alloc, 1, if node == 0 { count } else { 1 })?)?;
    }
    Ok(sound(rt, next))
}

/// Each node leads to each later one.
fn dense(rt: &impl Abort, alloc: Global, count: u32) -> Result<Graph, Fail>
    ensures { IfOk result IsSound }
{
    let mut next = Vec::with_capacity(alloc, count as usize)?;
    for node in 0..count {
        next.push(numbers(alloc, node + 1, count)?)?;
    }
    Ok(sound(rt, next))
}

/// Each node leads to each, itself too.
fn complete(rt: &impl Abort, alloc: Global, count: u32) -> Result<Graph, Fail>
    ensures { IfOk result IsSound }
{
    let mut next = Vec::with_capacity(alloc, count as usize)?;
    for _ in 0..count {
        next.push(numbers(alloc, 0, count)?)?;
    }
    Ok(sound(rt, next))
}

fn numbers(alloc: Global, from: u32, to: u32) -> Result<Vec<u32>, Fail> {
    let mut row = Vec::new(alloc);
    for number in from..to {
        row.push(number)?;
    }
    Ok(row)
}

/// The weights where each node has the size 1 and none is flat.
fn weights_of_ones(
    rt: &impl Abort,
    alloc: Global,
    graph: &Graph,
    limit: u64,
) -> Result<Vec<u64>, Fail>
    requires { IsSound graph.now }
{
    let own = vec![in alloc; 1u64; graph.next.len()]?;
    let flat = vec![in alloc; false; graph.next.len()]?;
    assert!(rt; is_acyclic(alloc, graph)?);
    assert!(rt; limit < 1 << 32);
    Ok(weights(alloc, graph, &own, &flat, limit)?)
}

#[test]
fn long_chain(rt: HostRuntime) -> Result<(), Fail> {
    let alloc = rt.alloc();
    let graph = chain(&rt, alloc, 1_000_000, false)?;
    assert!(rt; graph.next.len() == 1_000_000);
    let reached = reach(alloc, &graph, &[0])?;
    assert!(rt; reached.iter().all(|mark| *mark));
    let cyclic = on_cycle(alloc, &graph)?;
    assert!(rt; cyclic.iter().all(|mark| !*mark));
    let ranks = ranks(alloc, &graph)?;
    for (node, rank) in ranks.iter().enumerate() {
        assert!(rt; node as u64 + *rank as u64 == 1_000_000);
    }
    let weights = weights_of_ones(&rt, alloc, &graph, 4_294_967_295)?;
    for (node, weight) in weights.iter().enumerate() {
        assert!(rt; *weight <= 1_000_000);
        assert!(rt; node as u64 + *weight == 1_000_000);
    }
    Ok(())
}

#[test]
fn long_ring(rt: HostRuntime) -> Result<(), Fail> {
    let alloc = rt.alloc();
    let graph = chain(&rt, alloc, 1_000_000, true)?;
    assert!(rt; graph.next.len() == 1_000_000);
    let reached = reach(alloc, &graph, &[999_999])?;
    assert!(rt; reached.iter().all(|mark| *mark));
    let cyclic = on_cycle(alloc, &graph)?;
    assert!(rt; cyclic.iter().all(|mark| *mark));
    assert!(rt; matches!(ranks(alloc, &graph), Err(RankFault::Cyclic { node: 0 })));
    Ok(())
}

#[test]
fn wide_star(rt: HostRuntime) -> Result<(), Fail> {
    let alloc = rt.alloc();
    let graph = star(&rt, alloc, 1_000_000)?;
    assert!(rt; graph.next.len() == 1_000_000);
    let reached = reach(alloc, &graph, &[0])?;
    assert!(rt; reached.iter().all(|mark| *mark));
    let reached = reach(alloc, &graph, &[7])?;
    for (node, mark) in reached.iter().enumerate() {
        assert!(rt; *mark == (node == 7));
    }
    let cyclic = on_cycle(alloc, &graph)?;
    assert!(rt; cyclic.iter().all(|mark| !*mark));
    let ranks = ranks(alloc, &graph)?;
    for (node, rank) in ranks.iter().enumerate() {
        assert!(rt; *rank == if node == 0 { 2 } else { 1 });
    }
    let weights = weights_of_ones(&rt, alloc, &graph, 4_294_967_295)?;
    for (node, weight) in weights.iter().enumerate() {
        assert!(rt; *weight == if node == 0 { 1_000_000 } else { 1 });
    }
    Ok(())
}

#[test]
fn dense_graph(rt: HostRuntime) -> Result<(), Fail> {
    let alloc = rt.alloc();
    let graph = dense(&rt, alloc, 1_000)?;
    assert!(rt; graph.next.len() == 1_000);
    let reached = reach(alloc, &graph, &[500])?;
    for (node, mark) in reached.iter().enumerate() {
        assert!(rt; *mark == (node >= 500));
    }
    let cyclic = on_cycle(alloc, &graph)?;
    assert!(rt; cyclic.iter().all(|mark| !*mark));
    let ranks = ranks(alloc, &graph)?;
    for (node, rank) in ranks.iter().enumerate() {
        assert!(rt; node as u64 + *rank as u64 == 1_000);
    }
    let weights = weights_of_ones(&rt, alloc, &graph, 4_096)?;
    for (node, weight) in weights.iter().enumerate() {
        assert!(rt; (*weight == 4_097) == (node < 987));
    }
    Ok(())
}

#[test]
fn complete_graph(rt: HostRuntime) -> Result<(), Fail> {
    let alloc = rt.alloc();
    let graph = complete(&rt, alloc, 1_000)?;
    assert!(rt; graph.next.len() == 1_000);
    let reached = reach(alloc, &graph, &[999])?;
    assert!(rt; reached.iter().all(|mark| *mark));
    let cyclic = on_cycle(alloc, &graph)?;
    assert!(rt; cyclic.iter().all(|mark| *mark));
    assert!(rt; matches!(ranks(alloc, &graph), Err(RankFault::Cyclic { node: 0 })));
    Ok(())
}

fn check_weights(
    rt: &impl Abort,
    alloc: Global,
    name: &str,
    rows: &[&[u32]],
    own: &[u64],
    flat: &[bool],
    limit: u64,
    wanted: &[u64],
) -> Result<(), Fail> {
    let graph = graph_of(rt, alloc, rows)?;
    assert!(rt; is_acyclic(alloc, &graph)?, "{name}");
    assert!(rt; own.len() == graph.next.len(), "{name}");
    assert!(rt; flat.len() == graph.next.len(), "{name}");
    assert!(rt; limit < 1 << 32, "{name}");
    let found = weights(alloc, &graph, own, flat, limit)?;
    assert_eq!(rt; found.as_slice(), wanted, "{name}: weights");
    Ok(())
}

#[test]
fn worked_weights(rt: HostRuntime) -> Result<(), Fail> {
    let alloc = rt.alloc();
    let (t, f) = (true, false);
    // Node 0 stands for a constant, and each other for `x + y` of the node before it, taken twice.
    check_weights(
        &rt,
        alloc,
        "doubled chain",
        &[
            &[],
            &[0, 0],
            &[1, 1],
            &[2, 2],
            &[3, 3],
            &[4, 4],
            &[5, 5],
            &[6, 6],
            &[7, 7],
            &[8, 8],
            &[9, 9],
            &[10, 10],
        ],
        &[1, 3, 3, 3, 3, 3, 3, 3, 3, 3, 3, 3],
        &[f, f, f, f, f, f, f, f, f, f, f, f],
        4_096,
        &[1, 5, 13, 29, 61, 125, 253, 509, 1_021, 2_045, 4_093, 4_097],
    )?;
    check_weights(
        &rt,
        alloc,
        "a flat target adds 1 and keeps its own weight",
        &[&[1, 2, 1], &[3], &[3], &[]],
        &[2, 10, 20, 100],
        &[f, t, f, f],
        4_096,
        &[124, 110, 120, 100],
    )?;
    check_weights(&rt, alloc, "no nodes", &[], &[], &[], 4_096, &[])?;
    Ok(())
}

#[test]
fn weights_at_the_limit(rt: HostRuntime) -> Result<(), Fail> {
    let alloc = rt.alloc();
    let (t, f) = (true, false);
    check_weights(
        &rt,
        alloc,
        "own sizes",
        &[&[], &[], &[], &[]],
        &[4_096, 4_097, 4_098, 18_446_744_073_709_551_615],
        &[f, f, f, f],
        4_096,
        &[4_096, 4_097, 4_097, 4_097],
    )?;
    check_weights(
        &rt,
        alloc,
        "sums",
        &[&[], &[0], &[0, 0], &[0, 0, 0], &[3], &[2]],
        &[1, 4_095, 4_095, 4_095, 1, 1],
        &[f, f, f, t, f, f],
        4_096,
        &[1, 4_096, 4_097, 4_097, 2, 4_097],
    )?;
    check_weights(
        &rt,
        alloc,
        "the limit 0",
        &[&[1], &[2], &[]],
        &[0, 0, 0],
        &[f, f, f],
        0,
        &[0, 0, 0],
    )?;
    check_weights(
        &rt,
        alloc,
        "the greatest limit",
        &[&[1], &[2], &[]],
        &[1, 4_294_967_295, 18_446_744_073_709_551_615],
        &[f, f, t],
        4_294_967_295,
        &[4_294_967_296, 4_294_967_296, 4_294_967_296],
    )?;
    Ok(())
}

#[test]
fn one_weight_is_a_call(_rt: HostRuntime) {
    one_weight();
}
