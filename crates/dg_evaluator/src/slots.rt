//! Where a slot ends, and what it comes to.

ghost use Rattle.std.specs.Prelude.{◌≡◌, ◌≤◌, ◌-◌, suc, Bool, Some, IfOk, IsSome};
ghost use Rattle.dg_slots.specs.declared.plan.Body.TheVariants as body_of;
ghost use Rattle.dg_eval.specs.Meaning as meaning;
ghost use Rattle.dg_requests.specs.Scopes.{IsClosed, IsFit, Asks};
ghost use Rattle.dg_requests.specs.Depths.{IsBelow};
ghost use Rattle.dg_requests.specs.Results.{CanRun, Ran, as_end, ends};
ghost use Rattle.dg_eval.specs.Runs as runs;
ghost use Rattle.dg_evaluator.specs.Answers.{HasBody, HasSet, IsSlotIn, ends_in, outcome_in};
ghost use Rattle.dg_evaluator.specs.Ends.{end_over, end_of_slot, only_over, outcome_of};
ghost use Rattle.dg_evaluator.specs.Sets.{takes_outcomes};

use crate::multi::set;
use crate::outcome::Outcome;
use crate::values::{argument, map_of, only, optional};
use dg_bodies::tree_end;
use dg_eval::World;
use dg_requests::{Below, Cells, Deeper, End, InScope, Stop, content, given, mistyped, slot_in};
use dg_slots::{Body, NTree, Plan, Slot};
use dg_types::{MapKeyVal, Mode, NoMemory};
use dg_value::{Kept, Place, Value};
use std::alloc::Global;
use std::marker::Brand;

/// What the one request of a slot is given.
pub fn only_given<S: InScope, C: Cells, B: Below<C>>(
    alloc: Global,
    plan: &Plan,
    world: &World,
    inst: u32,
    slot: u32,
    place: &Place,
    below: &B,
    depth: u32,
    cells: &mut C,
) -> Result<Value, Stop>
    requires fit { IsFit S.scope plan.now world.now }
    requires below { IsBelow C.scope C.asked B.can_eval B.eval_gives below.now S.scope depth }
    requires deep { depth ≤ 128 }
    requires same { C.scope cells.old ≡ S.scope }
    requires there { IsSome (meaning.node_in S.scope.doc inst slot) }
    requires can { CanRun S.scope
        (only_over S.scope.doc (meaning.eval S.scope.doc depth) inst slot place.now) }
    ensures ran { Ran S.scope
        (only_over S.scope.doc (meaning.eval S.scope.doc depth) inst slot place.now)
        (C.asked cells.old) (C.asked cells.new) result }
    ensures same { C.scope cells.new ≡ S.scope }
{
    let values = given::<S, C, B>(alloc, plan, world, inst, slot, place, below, depth, cells)?;
    only(alloc, values)
}

/// The value of an entry point.
fn entry_value<S: InScope, C: Cells, B: Below<C>>(
    alloc: Global,
    plan: &Plan,
    world: &World,
    inst: u32,
    slot: u32,
    place: &Place,
    below: &B,
    depth: u32,
    cells: &mut C,
) -> Result<Value, Stop>
    requires fit { IsFit S.scope plan.now world.now }
    requires below { IsBelow C.scope C.asked B.can_eval B.eval_gives below.now S.scope depth }
    requires deep { depth ≤ 127 }
    requires same { C.scope cells.old ≡ S.scope }
    requires body { HasBody S.scope.doc inst slot body_of.EntryOf }
    requires can { CanRun S.scope (meaning.eval S.scope.doc (suc depth) inst slot place.now) }
    ensures ran { Ran S.scope (meaning.eval S.scope.doc (suc depth) inst slot place.now)
        (C.asked cells.old) (C.asked cells.new) result }
    ensures same { C.scope cells.new ≡ S.scope }
{
    only_given::<S, C, B>(alloc, plan, world, inst, slot, place, below, depth, cells)
}

/// The value of an optional.
fn optional_value<S: InScope, C: Cells, B: Below<C>>(
    alloc: Global,
    plan: &Plan,
    world: &World,
    inst: u32,
    slot: u32,
    place: &Place,
    below: &B,
    depth: u32,
    cells: &mut C,
) -> Result<Value, Stop>
    requires fit { IsFit S.scope plan.now world.now }
    requires below { IsBelow C.scope C.asked B.can_eval B.eval_gives below.now S.scope depth }
    requires deep { depth ≤ 127 }
    requires same { C.scope cells.old ≡ S.scope }
    requires body { (present : Bool) × HasBody S.scope.doc inst slot (body_of.Opt present) }
    requires can { CanRun S.scope (meaning.eval S.scope.doc (suc depth) inst slot place.now) }
    ensures ran { Ran S.scope (meaning.eval S.scope.doc (suc depth) inst slot place.now)
        (C.asked cells.old) (C.asked cells.new) result }
    ensures same { C.scope cells.new ≡ S.scope }
{
    let values = given::<S, C, B>(alloc, plan, world, inst, slot, place, below, depth, cells)?;
    optional(alloc, values)
}

/// The value of a map.
fn map_value<S: InScope, C: Cells, B: Below<C>>(
    alloc: Global,
    plan: &Plan,
    world: &World,
    inst: u32,
    slot: u32,
    place: &Place,
    keys: &[MapKeyVal],
    below: &B,
    depth: u32,
    cells: &mut C,
) -> Result<Value, Stop>
    requires fit { IsFit S.scope plan.now world.now }
    requires below { IsBelow C.scope C.asked B.can_eval B.eval_gives below.now S.scope depth }
    requires deep { depth ≤ 127 }
    requires same { C.scope cells.old ≡ S.scope }
    requires body { HasBody S.scope.doc inst slot (body_of.Map keys.now) }
    requires can { CanRun S.scope (meaning.eval S.scope.doc (suc depth) inst slot place.now) }
    ensures ran { Ran S.scope (meaning.eval S.scope.doc (suc depth) inst slot place.now)
        (C.asked cells.old) (C.asked cells.new) result }
    ensures same { C.scope cells.new ≡ S.scope }
{
    let values = given::<S, C, B>(alloc, plan, world, inst, slot, place, below, depth, cells)?;
    map_of(alloc, keys, values.as_slice())
}

/// The value of a set. A flag tells which of its contributions give elements.
fn set_value<S: InScope, C: Cells, B: Below<C>>(
    alloc: Global,
    plan: &Plan,
    world: &World,
    inst: u32,
    slot: u32,
    place: &Place,
    of_outcomes: bool,
    flags: &[bool],
    below: &B,
    depth: u32,
    cells: &mut C,
) -> Result<Value, Stop>
    requires fit { IsFit S.scope plan.now world.now }
    requires below { IsBelow C.scope C.asked B.can_eval B.eval_gives below.now S.scope depth }
    requires deep { depth ≤ 127 }
    requires same { C.scope cells.old ≡ S.scope }
    requires body { HasSet S.scope.doc inst slot of_outcomes flags.now }
    requires can { CanRun S.scope (meaning.eval S.scope.doc (suc depth) inst slot place.now) }
    ensures ran { Ran S.scope (meaning.eval S.scope.doc (suc depth) inst slot place.now)
        (C.asked cells.old) (C.asked cells.new) result }
    ensures same { C.scope cells.new ≡ S.scope }
{
    let values = given::<S, C, B>(alloc, plan, world, inst, slot, place, below, depth, cells)?;
    set::<S, C, B>(
        alloc,
        of_outcomes,
        flags,
        values.as_slice(),
        below,
        depth,
        cells,
    )
}

/// Whether a set of what a slot is given is one of outcomes.
fn is_of_outcomes(slot: &Slot) -> bool
    ensures exact { result ≡ takes_outcomes slot.now.inputs }
{
    match slot.inputs.get(0) {
        Some(input) => matches!(input.mode, Mode::Produced),
        None => false,
    }
}

/// A value as an end.
fn value_end(value: Result<Value, Stop>) -> Result<End, Stop>
    ensures exact { ends result ≡ ends_in value }
{
    match value {
        Ok(value) => Ok(End::Value(value)),
        Err(stop) => Err(stop),
    }
}

/// Where a slot ends whose body is run.
fn run_end<S: InScope, C: Cells, B: Below<C>>(
    alloc: Global,
    plan: &Plan,
    world: &World,
    inst: u32,
    slot: u32,
    place: &Place,
    body: &NTree,
    below: &B,
    depth: u32,
    cells: &mut C,
) -> Result<End, Stop>
    requires fit { IsFit S.scope plan.now world.now }
    requires below { IsBelow C.scope C.asked B.can_eval B.eval_gives below.now S.scope depth }
    requires deep { depth ≤ 127 }
    requires same { C.scope cells.old ≡ S.scope }
    requires body { HasBody S.scope.doc inst slot (body_of.Run body.now) }
    requires can { CanRun S.scope
        (end_over S.scope.doc (meaning.eval S.scope.doc depth) depth inst slot place.now) }
    ensures ran { Ran S.scope
        (end_over S.scope.doc (meaning.eval S.scope.doc depth) depth inst slot place.now)
        (C.asked cells.old) (C.asked cells.new) (ends result) }
    ensures same { C.scope cells.new ≡ S.scope }
{
    let values = given::<S, C, B>(alloc, plan, world, inst, slot, place, below, depth, cells)?;
    tree_end::<S, C, B>(
        alloc,
        plan,
        world,
        slot,
        place,
        values.as_slice(),
        body,
        below,
        depth,
        cells,
    )
}

/// Where a slot ends, by its body.
fn body_end<S: InScope, C: Cells, B: Below<C>>(
    alloc: Global,
    plan: &Plan,
    world: &World,
    inst: u32,
    slot: u32,
    place: &Place,
    found: &Slot,
    below: &B,
    depth: u32,
    cells: &mut C,
) -> Result<End, Stop>
    requires fit { IsFit S.scope plan.now world.now }
    requires below { IsBelow C.scope C.asked B.can_eval B.eval_gives below.now S.scope depth }
    requires deep { depth ≤ 127 }
    requires same { C.scope cells.old ≡ S.scope }
    requires slot { IsSlotIn S.scope.doc inst slot found.now }
    requires can { CanRun S.scope
        (end_over S.scope.doc (meaning.eval S.scope.doc depth) depth inst slot place.now) }
    ensures ran { Ran S.scope
        (end_over S.scope.doc (meaning.eval S.scope.doc depth) depth inst slot place.now)
        (C.asked cells.old) (C.asked cells.new) (ends result) }
    ensures same { C.scope cells.new ≡ S.scope }
{
    match &found.body {
        Body::Run(body) => run_end::<S, C, B>(
            alloc, plan, world, inst, slot, place, body, below, depth, cells,
        ),
        Body::Set(flags) => value_end(set_value::<S, C, B>(
            alloc,
            plan,
            world,
            inst,
            slot,
            place,
            is_of_outcomes(found),
            flags.as_slice(),
            below,
            depth,
            cells,
        )),
        Body::Map(keys) => value_end(map_value::<S, C, B>(
            alloc,
            plan,
            world,
            inst,
            slot,
            place,
            keys.as_slice(),
            below,
            depth,
            cells,
        )),
        Body::Opt(_) => value_end(optional_value::<S, C, B>(
            alloc, plan, world, inst, slot, place, below, depth, cells,
        )),
        Body::Arg(index) => value_end(argument(alloc, world, inst, *index)),
        Body::EntryOf => value_end(entry_value::<S, C, B>(
            alloc, plan, world, inst, slot, place, below, depth, cells,
        )),
    }
}

/// Where a slot ends in an instance, at a place.
fn slot_end<S: InScope, C: Cells, B: Below<C>>(
    alloc: Global,
    plan: &Plan,
    world: &World,
    inst: u32,
    slot: u32,
    place: &Place,
    below: &B,
    depth: u32,
    cells: &mut C,
) -> Result<End, Stop>
    requires fit { IsFit S.scope plan.now world.now }
    requires below { IsBelow C.scope C.asked B.can_eval B.eval_gives below.now S.scope depth }
    requires deep { depth ≤ 127 }
    requires same { C.scope cells.old ≡ S.scope }
    requires can { CanRun S.scope
        (end_over S.scope.doc (meaning.eval S.scope.doc depth) depth inst slot place.now) }
    ensures ran { Ran S.scope
        (end_over S.scope.doc (meaning.eval S.scope.doc depth) depth inst slot place.now)
        (C.asked cells.old) (C.asked cells.new) (ends result) }
    ensures same { C.scope cells.new ≡ S.scope }
{
    match slot_in(plan, world, inst, slot) {
        Some(found) => body_end::<S, C, B>(
            alloc, plan, world, inst, slot, place, found, below, depth, cells,
        ),
        None => mistyped(alloc),
    }
}

/// The value at an end. The content of a producer's cell is asked for.
fn value_at<S: InScope, C: Cells, B: Below<C>>(
    alloc: Global,
    end: End,
    below: &B,
    depth: u32,
    cells: &mut C,
) -> Result<Value, Stop>
    requires below { IsBelow C.scope C.asked B.can_eval B.eval_gives below.now S.scope depth }
    requires deep { depth ≤ 128 }
    requires closed { IsClosed S.scope }
    requires same { C.scope cells.old ≡ S.scope }
    requires can { CanRun S.scope (meaning.of_end (meaning.eval S.scope.doc depth) (as_end end)) }
    ensures ran { Ran S.scope (meaning.of_end (meaning.eval S.scope.doc depth) (as_end end))
        (C.asked cells.old) (C.asked cells.new) result }
    ensures same { C.scope cells.new ≡ S.scope }
{
    match end {
        End::Value(value) => Ok(value),
        End::Producer { inst, slot } => {
            content::<S, C, B>(alloc, inst, slot, below, depth, cells)
        }
    }
}

/// The value of a slot in an instance, at a place.
fn value_of<S: InScope, C: Cells, B: Below<C>>(
    alloc: Global,
    plan: &Plan,
    world: &World,
    inst: u32,
    slot: u32,
    place: &Place,
    below: &B,
    depth: u32,
    cells: &mut C,
) -> Result<Value, Stop>
    requires fit { IsFit S.scope plan.now world.now }
    requires below { IsBelow C.scope C.asked B.can_eval B.eval_gives below.now S.scope depth }
    requires deep { depth ≤ 127 }
    requires same { C.scope cells.old ≡ S.scope }
    requires can { CanRun S.scope (meaning.eval S.scope.doc (suc depth) inst slot place.now) }
    ensures ran { Ran S.scope (meaning.eval S.scope.doc (suc depth) inst slot place.now)
        (C.asked cells.old) (C.asked cells.new) result }
    ensures same { C.scope cells.new ≡ S.scope }
{
    let end = slot_end::<S, C, B>(alloc, plan, world, inst, slot, place, below, depth, cells)?;
    value_at::<S, C, B>(alloc, end, below, depth, cells)
}

/// Evaluates a slot in an instance at a place, at a depth.
pub fn eval<S: InScope, C: Cells>(
    alloc: Global,
    plan: &Plan,
    world: &World,
    inst: u32,
    slot: u32,
    place: &Place,
    depth: u32,
    cells: &mut C,
) -> Result<Value, Stop>
    requires fit { IsFit S.scope plan.now world.now }
    requires deep { depth ≤ 128 }
    requires same { C.scope cells.old ≡ S.scope }
    requires can { CanRun S.scope (meaning.eval S.scope.doc depth inst slot place.now) }
    ensures ran { Ran S.scope (meaning.eval S.scope.doc depth inst slot place.now)
        (C.asked cells.old) (C.asked cells.new) result }
    ensures same { C.scope cells.new ≡ S.scope }
{
    let deeper = |i: u32, k: u32, q: Place, c: &mut C| -> Result<Value, Stop>
        requires fit { IsFit S.scope plan.now world.now }
        requires deep { depth ≤ 128 }
        requires some { 1 ≤ depth }
        requires same { C.scope c.old ≡ S.scope }
        requires can { CanRun S.scope (meaning.eval S.scope.doc (depth - 1) i k q) }
        ensures ran { Ran S.scope (meaning.eval S.scope.doc (depth - 1) i k q) (C.asked c.old)
            (C.asked c.new) result }
        ensures same { C.scope c.new ≡ S.scope }
    { eval::<S, C>(alloc, plan, world, i, k, &q, depth - 1, c) };
    let below = Deeper { run: deeper };
    value_of::<S, C, _>(
        alloc,
        plan,
        world,
        inst,
        slot,
        place,
        &below,
        depth - 1,
        cells,
    )
}

/// Where a slot ends in an instance at a place, at a depth that is enough.
fn whole_end<S: InScope, C: Cells>(
    alloc: Global,
    plan: &Plan,
    world: &World,
    inst: u32,
    slot: u32,
    place: &Place,
    cells: &mut C,
) -> Result<End, Stop>
    requires fit { IsFit S.scope plan.now world.now }
    requires same { C.scope cells.old ≡ S.scope }
    requires can { CanRun S.scope (end_of_slot S.scope.doc inst slot place.now) }
    ensures ran { Ran S.scope (end_of_slot S.scope.doc inst slot place.now) (C.asked cells.old)
        (C.asked cells.new) (ends result) }
    ensures same { C.scope cells.new ≡ S.scope }
{
    let deeper = |i: u32, k: u32, q: Place, c: &mut C| -> Result<Value, Stop>
        requires fit { IsFit S.scope plan.now world.now }
        requires same { C.scope c.old ≡ S.scope }
        requires can { CanRun S.scope (meaning.eval S.scope.doc 127 i k q) }
        ensures ran { Ran S.scope (meaning.eval S.scope.doc 127 i k q) (C.asked c.old)
            (C.asked c.new) result }
        ensures same { C.scope c.new ≡ S.scope }
    { eval::<S, C>(alloc, plan, world, i, k, &q, 127, c) };
    let below = Deeper { run: deeper };
    slot_end::<S, C, _>(alloc, plan, world, inst, slot, place, &below, 127, cells)
}

/// An end as what a slot comes to.
fn to_outcome(end: Result<End, Stop>) -> Result<Outcome, NoMemory>
    ensures exact { result ≡ outcome_in (ends end) }
{
    match end {
        Ok(End::Value(value)) => Ok(Outcome::Kept(Kept::Value(value))),
        Ok(End::Producer { inst, slot }) => Ok(Outcome::Forward { inst, slot }),
        Err(Stop::Failed(failure)) => Ok(Outcome::Kept(Kept::Failed(failure))),
        Err(Stop::NoMemory) => Err(NoMemory),
    }
}

/// What a slot comes to in an instance, at a place. The content of the producer's cell in which it
/// may end isn't asked for.
pub fn eval_slot<C: Cells>(
    alloc: Global,
    plan: &Plan,
    world: &World,
    inst: u32,
    slot: u32,
    place: &Place,
    cells: &mut C,
) -> Result<Outcome, NoMemory>
    requires fit { IsFit (C.scope cells.old) plan.now world.now }
    requires can { CanRun (C.scope cells.old)
        (end_of_slot (C.scope cells.old).doc inst slot place.now) }
    ensures exact { IfOk result
        (λ o. outcome_of (end_of_slot (C.scope cells.old).doc inst slot place.now) ≡ Some o) }
    ensures asked { Asks (C.scope cells.old).doc
        (runs.asks_of (end_of_slot (C.scope cells.old).doc inst slot place.now)) (C.asked cells.old)
        (C.asked cells.new) result }
    ensures same { C.scope cells.new ≡ C.scope cells.old }
{
    to_outcome(whole_end::<Brand, C>(alloc, plan, world, inst, slot, place, cells))
}
