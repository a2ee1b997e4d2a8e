//! What requests are given.

ghost use Rattle.std.specs.Prelude.{◌≡◌, ◌≤◌, suc, Some, IsSome, IfOk};
ghost use Rattle.dg_decl.specs.declared.graph.Node.{Node};
ghost use Rattle.dg_value.specs.Places.{then_step};
ghost use Rattle.dg_eval.specs.Runs as runs;
ghost use Rattle.dg_eval.specs.Meaning as meaning;
ghost use Rattle.dg_eval.specs.World.{world_of};
ghost use Rattle.dg_requests.specs.Scopes.{IsFit};
ghost use Rattle.dg_requests.specs.Results.{CanRun, Ran, BecomesOutcome, IsOrLacks, joined};
ghost use Rattle.dg_requests.specs.Contexts.{step_of};
ghost use Rattle.dg_requests.specs.Depths.{IsBelow};

use crate::below::Below;
use crate::cells::Cells;
use crate::context::{Target, slot_in, target_at};
use crate::layers::{InScope, instance, to_keep};
use crate::stop::Stop;
use dg_eval::World;
use dg_slots::{Body, Plan};
use dg_types::{Mode, NoMemory};
use dg_value::{Place, PlaceStep, Shared, Value};
use sqlite_items::Items;
use std::alloc::Global;

/// What became of an evaluation, as a value. A failure of a body isn't passed on.
fn as_outcome(alloc: Global, came: Result<Value, Stop>) -> Result<Value, Stop>
    ensures exact { BecomesOutcome came result }
{
    Ok(Value::Outcome(Shared::new(alloc, to_keep(came)?)?))
}

/// An outcome of what a slot gives, at a place.
fn produced<S: InScope, C: Cells, B: Below<C>>(
    alloc: Global,
    plan: &Plan,
    inst: u32,
    slot: u32,
    place: Place,
    below: &B,
    depth: u32,
    cells: &mut C,
) -> Result<Value, Stop>
    requires fit { IsFit S.scope plan.now (world_of S.scope.doc) }
    requires below { IsBelow C.scope C.asked B.can_eval B.eval_gives below.now S.scope depth }
    requires deep { depth ≤ 128 }
    requires same { C.scope cells.old ≡ S.scope }
    requires can { CanRun S.scope
        (runs.outcome_of
        (meaning.instance S.scope.doc (meaning.eval S.scope.doc depth) inst slot place)) }
    ensures ran { Ran S.scope
        (runs.outcome_of
        (meaning.instance S.scope.doc (meaning.eval S.scope.doc depth) inst slot place))
        (C.asked cells.old) (C.asked cells.new) result }
    ensures same { C.scope cells.new ≡ S.scope }
{
    as_outcome(
        alloc,
        instance::<S, C, B>(alloc, plan, inst, slot, place, below, depth, cells),
    )
}

/// What a request in some mode is given of a slot, at a place. Only a request for an instance or
/// for what a production gives evaluates the slot.
pub fn give<S: InScope, C: Cells, B: Below<C>>(
    alloc: Global,
    plan: &Plan,
    mode: Mode,
    inst: u32,
    slot: u32,
    place: Place,
    below: &B,
    depth: u32,
    cells: &mut C,
) -> Result<Value, Stop>
    requires fit { IsFit S.scope plan.now (world_of S.scope.doc) }
    requires below { IsBelow C.scope C.asked B.can_eval B.eval_gives below.now S.scope depth }
    requires deep { depth ≤ 128 }
    requires same { C.scope cells.old ≡ S.scope }
    requires can { CanRun S.scope
        (meaning.give S.scope.doc (meaning.eval S.scope.doc depth) mode inst slot place) }
    ensures ran { Ran S.scope
        (meaning.give S.scope.doc (meaning.eval S.scope.doc depth) mode inst slot place)
        (C.asked cells.old) (C.asked cells.new) result }
    ensures same { C.scope cells.new ≡ S.scope }
{
    match mode {
        Mode::Instance => {
            instance::<S, C, B>(alloc, plan, inst, slot, place, below, depth, cells)
        }
        Mode::Produced => {
            produced::<S, C, B>(alloc, plan, inst, slot, place, below, depth, cells)
        }
        Mode::Provider | Mode::Producer => Ok(Value::Provider { inst, slot }),
        Mode::ProviderLazy => Ok(Value::ProviderLazy { inst, slot }),
        Mode::Lazy => Ok(Value::Lazy { inst, slot, place }),
    }
}

/// The number of an input, counted from 1. 2^32 inputs take more memory than there is, so one
/// without a number counts as memory that is lacking.
fn number_of(index: usize) -> Result<u32, NoMemory>
    ensures exact { IfOk result (λ m. m ≡ suc index) }
{
    if index < u32::MAX as usize {
        Ok(index as u32 + 1)
    } else {
        Err(NoMemory)
    }
}

/// The step from the place of a slot to that of its input of this number.
fn step_to(body: &Body, number: u32) -> PlaceStep
    ensures exact { result ≡ step_of body.now number }
{
    match body {
        Body::Set(_) => PlaceStep::Elem(number),
        Body::Map(_) => PlaceStep::Elem(number),
        Body::Opt(_) => PlaceStep::Inside,
        _ => PlaceStep::Arg(number),
    }
}

/// The place of the input of this index of a slot.
fn place_of(place: &Place, body: &Body, index: usize) -> Result<Place, NoMemory>
    ensures exact { IfOk result (λ at. at ≡ then_step place.now (step_of body.now (suc index))) }
{
    let number = number_of(index)?;
    Ok(place.then_step(step_to(body, number))?)
}

/// What the input of this index of a slot is given, which leads to this target.
#[tactic(auto, using(crate::proofs::RanLemmas::ran_nothing))]
fn give_input<S: InScope, C: Cells, B: Below<C>>(
    alloc: Global,
    plan: &Plan,
    mode: Mode,
    target: Target,
    place: &Place,
    body: &Body,
    index: usize,
    below: &B,
    depth: u32,
    cells: &mut C,
) -> Result<Value, Stop>
    requires fit { IsFit S.scope plan.now (world_of S.scope.doc) }
    requires below { IsBelow C.scope C.asked B.can_eval B.eval_gives below.now S.scope depth }
    requires deep { depth ≤ 128 }
    requires same { C.scope cells.old ≡ S.scope }
    requires can { CanRun S.scope
        (meaning.give S.scope.doc (meaning.eval S.scope.doc depth) mode target.inst target.slot
        (then_step place.now (step_of body.now (suc index)))) }
    ensures ran { Ran S.scope
        (meaning.give S.scope.doc (meaning.eval S.scope.doc depth) mode target.inst target.slot
        (then_step place.now (step_of body.now (suc index))))
        (C.asked cells.old) (C.asked cells.new) result }
    ensures same { C.scope cells.new ≡ S.scope }
{
    match place_of(place, body, index) {
        Ok(at) => {
            give::<S, C, B>(
                alloc,
                plan,
                mode,
                target.inst,
                target.slot,
                at,
                below,
                depth,
                cells,
            )
        }
        Err(_) => Err(Stop::NoMemory),
    }
}

/// Some values and what is given next: the first failure of a body is that of the whole.
fn and_next(
    so_far: Result<Items<Value>, Stop>,
    next: Result<Value, Stop>,
) -> Result<Items<Value>, Stop>
    ensures exact { IsOrLacks (joined so_far next) result }
{
    match (so_far, next) {
        (Ok(mut values), Ok(value)) => {
            values.push(value)?;
            Ok(values)
        }
        (Err(first), Ok(_)) => Err(first),
        (Err(first), Err(Stop::Failed(_))) => Err(first),
        (_, Err(stop)) => Err(stop),
    }
}

/// What the inputs of a slot are given, in order, at the place of the slot. Each of them is
/// evaluated whatever those before it give, unless memory lacks; the first failure of a body is
/// that of the whole.
pub fn given<S: InScope, C: Cells, B: Below<C>>(
    alloc: Global,
    plan: &Plan,
    world: &World,
    inst: u32,
    slot: u32,
    place: &Place,
    below: &B,
    depth: u32,
    cells: &mut C,
) -> Result<Items<Value>, Stop>
    requires fit { IsFit S.scope plan.now world.now }
    requires below { IsBelow C.scope C.asked B.can_eval B.eval_gives below.now S.scope depth }
    requires deep { depth ≤ 128 }
    requires same { C.scope cells.old ≡ S.scope }
    requires there { IsSome (meaning.node_in S.scope.doc inst slot) }
    requires can { (n : Node) → meaning.node_in S.scope.doc inst slot ≡ Some n
        → CanRun S.scope
        (runs.all
        (meaning.given S.scope.doc (meaning.eval S.scope.doc depth) inst n place.now)) }
    ensures ran { (n : Node) → meaning.node_in S.scope.doc inst slot ≡ Some n
        → Ran S.scope
        (runs.all (meaning.given S.scope.doc (meaning.eval S.scope.doc depth) inst n place.now))
        (C.asked cells.old) (C.asked cells.new) result }
    ensures same { C.scope cells.new ≡ S.scope }
{
    let Some(found) = slot_in(plan, world, inst, slot) else {
        unreachable!();
    };
    let mut so_far = Ok(Items::new(alloc));
    for (index, input) in found.inputs.as_slice().iter().enumerate() {
        let Some(target) = target_at(world, inst, input) else {
            unreachable!();
        };
        let next = give_input::<S, C, B>(
            alloc,
            plan,
            input.mode,
            target,
            place,
            &found.body,
            index,
            below,
            depth,
            cells,
        );
        so_far = and_next(so_far, next);
        if matches!(so_far, Err(Stop::NoMemory)) {
            return Err(Stop::NoMemory);
        }
    }
    so_far
}
