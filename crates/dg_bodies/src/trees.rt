//! Where decision trees end.

ghost use Rattle.std.specs.Prelude.{◌≡◌, ◌≤◌, ℕ, OnOk, Some, Contains, slice_get};
ghost use Rattle.dg_slots.specs.declared.body.NTree.TheVariants as ntree;
ghost use Rattle.dg_value.specs.declared.value.Value.{Value as value_type};
ghost use Rattle.dg_eval.specs.Bodies.{expr_part, tree_part};
ghost use Rattle.dg_eval.specs.Meaning as meaning;
ghost use Rattle.dg_eval.specs.World.{world_of};
ghost use Rattle.dg_requests.specs.Contexts.{AwaitFits};
ghost use Rattle.dg_requests.specs.Depths.{IsBelow};
ghost use Rattle.dg_requests.specs.Results.{CanRun, Ran, ends};
ghost use Rattle.dg_requests.specs.Scopes.{IsFit};
ghost use Rattle.dg_bodies.specs.Counts.{after};
ghost use Rattle.dg_bodies.specs.Sites.{AwaitsFit, seen, run_at};

use crate::counters::{NewsAndCalls, next_call, pass_tree};
use crate::expressions::{condition, expression};
use crate::made::passed;
use crate::params::param;
use crate::site::Site;
use dg_eval::World;
use dg_requests::{Below, Cells, End, InScope, Stop, awaited};
use dg_slots::{NCond, NExpr, NTree, Plan};
use dg_value::{Place, PlaceStep, Value};
use std::alloc::Global;

/// A tree that is an expression ends in its value.
fn leaf<S: InScope, C: Cells, B: Below<C>>(
    alloc: Global,
    site: &Site<'_>,
    e: &NExpr,
    at: &mut NewsAndCalls,
    below: &B,
    depth: u32,
    cells: &mut C,
) -> Result<End, Stop>
    requires fit { IsFit S.scope site.now.plan (world_of S.scope.doc) }
    requires below { IsBelow C.scope C.asked B.can_eval B.eval_gives below.now S.scope depth }
    requires deep { depth ≤ 128 }
    requires same { C.scope cells.old ≡ S.scope }
    requires can { CanRun S.scope (run_at (tree_part (ntree.Leaf e.now)) (seen S.scope depth
        site.now) at.old) }
    ensures ran { Ran S.scope (run_at (tree_part (ntree.Leaf e.now)) (seen S.scope depth site.now)
        at.old) (C.asked cells.old) (C.asked cells.new) (ends result) }
    ensures after { OnOk result (at.new ≡ after (tree_part (ntree.Leaf e.now)) at.old) }
    ensures same { C.scope cells.new ≡ S.scope }
{
    let value = expression::<S, C, B>(alloc, site, e, at, below, depth, cells)?;
    Ok(End::Value(value))
}

/// Where an `await` of a parameter leads.
fn awaited_of<S: InScope, C: Cells, B: Below<C>>(
    alloc: Global,
    site: &Site<'_>,
    world: &World,
    index: u32,
    at: &mut NewsAndCalls,
    below: &B,
    depth: u32,
    cells: &mut C,
) -> Result<End, Stop>
    requires fit { IsFit S.scope site.now.plan (world_of S.scope.doc) }
    requires of_world { world.now ≡ world_of S.scope.doc }
    requires awaits { AwaitsFit S.scope.doc (tree_part (ntree.Await index)).called site.now.params }
    requires below { IsBelow C.scope C.asked B.can_eval B.eval_gives below.now S.scope depth }
    requires deep { depth ≤ 128 }
    requires same { C.scope cells.old ≡ S.scope }
    requires can { CanRun S.scope (run_at (tree_part (ntree.Await index)) (seen S.scope depth
        site.now) at.old) }
    ensures ran { Ran S.scope (run_at (tree_part (ntree.Await index)) (seen S.scope depth site.now)
        at.old) (C.asked cells.old) (C.asked cells.new) (ends result) }
    ensures after { OnOk result (at.new ≡ after (tree_part (ntree.Await index)) at.old) }
    ensures same { C.scope cells.new ≡ S.scope }
{
    let number = next_call(at)?;
    let place = site.place.then_step(PlaceStep::Call(number))?;
    let value = param(alloc, site.params, index)?;
    awaited::<S, C, B>(alloc, site.plan, world, &value, place, below, depth, cells)
}

/// Where the one of two trees ends that a condition chooses. The other isn't evaluated.
#[cycle(trees)]
fn chosen<S: InScope, C: Cells, B: Below<C>>(
    alloc: Global,
    site: &Site<'_>,
    world: &World,
    cond: &NCond,
    yes: &NTree,
    no: &NTree,
    at: &mut NewsAndCalls,
    below: &B,
    depth: u32,
    cells: &mut C,
) -> Result<End, Stop>
    requires fit { IsFit S.scope site.now.plan (world_of S.scope.doc) }
    requires of_world { world.now ≡ world_of S.scope.doc }
    requires awaits { AwaitsFit S.scope.doc (tree_part (ntree.If cond.now yes.now no.now)).called
        site.now.params }
    requires below { IsBelow C.scope C.asked B.can_eval B.eval_gives below.now S.scope depth }
    requires deep { depth ≤ 128 }
    requires same { C.scope cells.old ≡ S.scope }
    requires can { CanRun S.scope (run_at (tree_part (ntree.If cond.now yes.now no.now)) (seen
        S.scope depth site.now) at.old) }
    ensures ran { Ran S.scope (run_at (tree_part (ntree.If cond.now yes.now no.now)) (seen S.scope
        depth site.now) at.old) (C.asked cells.old) (C.asked cells.new) (ends result) }
    ensures after { OnOk result (at.new ≡ after (tree_part (ntree.If cond.now yes.now no.now))
        at.old) }
    ensures same { C.scope cells.new ≡ S.scope }
{
    if condition::<S, C, B>(alloc, site, cond, at, below, depth, cells)? {
        let end = tree::<S, C, B>(alloc, site, world, yes, at, below, depth, cells)?;
        passed(end, pass_tree(no, at))
    } else {
        pass_tree(yes, at)?;
        tree::<S, C, B>(alloc, site, world, no, at, below, depth, cells)
    }
}

/// Where a decision tree ends.
#[cycle(trees)]
fn tree<S: InScope, C: Cells, B: Below<C>>(
    alloc: Global,
    site: &Site<'_>,
    world: &World,
    t: &NTree,
    at: &mut NewsAndCalls,
    below: &B,
    depth: u32,
    cells: &mut C,
) -> Result<End, Stop>
    requires fit { IsFit S.scope site.now.plan (world_of S.scope.doc) }
    requires of_world { world.now ≡ world_of S.scope.doc }
    requires awaits { AwaitsFit S.scope.doc (tree_part t.now).called site.now.params }
    requires below { IsBelow C.scope C.asked B.can_eval B.eval_gives below.now S.scope depth }
    requires deep { depth ≤ 128 }
    requires same { C.scope cells.old ≡ S.scope }
    requires can { CanRun S.scope (run_at (tree_part t.now) (seen S.scope depth site.now) at.old) }
    ensures ran { Ran S.scope (run_at (tree_part t.now) (seen S.scope depth site.now) at.old)
        (C.asked cells.old) (C.asked cells.new) (ends result) }
    ensures after { OnOk result (at.new ≡ after (tree_part t.now) at.old) }
    ensures same { C.scope cells.new ≡ S.scope }
{
    match t {
        NTree::Leaf(e) => leaf::<S, C, B>(alloc, site, e, at, below, depth, cells),
        NTree::Await(index) => {
            awaited_of::<S, C, B>(alloc, site, world, *index, at, below, depth, cells)
        }
        NTree::If { cond, yes, no } => {
            let (yes, no) = (yes.get(), no.get());
            chosen::<S, C, B>(alloc, site, world, cond, yes, no, at, below, depth, cells)
        }
    }
}

/// Where the body of a slot ends, at a place and with these parameters.
pub fn tree_end<S: InScope, C: Cells, B: Below<C>>(
    alloc: Global,
    plan: &Plan,
    world: &World,
    slot: u32,
    place: &Place,
    params: &[Value],
    body: &NTree,
    below: &B,
    depth: u32,
    cells: &mut C,
) -> Result<End, Stop>
    requires fit { IsFit S.scope plan.now world.now }
    requires awaits { (p : ℕ) (v : value_type) → Contains (tree_part body.now).called p
        → slice_get params.now p ≡ Some v → AwaitFits S.scope.doc v }
    requires below { IsBelow C.scope C.asked B.can_eval B.eval_gives below.now S.scope depth }
    requires deep { depth ≤ 128 }
    requires same { C.scope cells.old ≡ S.scope }
    requires can { CanRun S.scope ((tree_part body.now).run (meaning.around S.scope.doc
        (meaning.eval S.scope.doc depth) depth slot place.now params.now) 0 0) }
    ensures ran { Ran S.scope ((tree_part body.now).run (meaning.around S.scope.doc (meaning.eval
        S.scope.doc depth) depth slot place.now params.now) 0 0) (C.asked cells.old) (C.asked
        cells.new) (ends result) }
    ensures same { C.scope cells.new ≡ S.scope }
{
    let site = Site {
        plan,
        slot,
        place,
        params,
    };
    let mut at = NewsAndCalls { news: 0, calls: 0 };
    tree::<S, C, B>(alloc, &site, world, body, &mut at, below, depth, cells)
}
