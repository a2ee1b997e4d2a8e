//! What a `get` gives, and where an `await` leads.

ghost use Rattle.std.specs.Prelude.{◌≡◌, ◌≤◌};
ghost use Rattle.dg_value.specs.declared.value.Value.{out-Value};
ghost use Rattle.dg_eval.specs.Runs.{and_then, gives};
ghost use Rattle.dg_eval.specs.Bodies.{value_end};
ghost use Rattle.dg_eval.specs.Meaning as meaning;
ghost use Rattle.dg_eval.specs.World.{world_of};
ghost use Rattle.dg_requests.specs.Scopes.{IsFit};
ghost use Rattle.dg_requests.specs.Results.{CanRun, Ran, ends};
ghost use Rattle.dg_requests.specs.Contexts.{AwaitFits, LeadsOn};
ghost use Rattle.dg_requests.specs.Depths.{IsBelow};

use crate::below::Below;
use crate::cells::Cells;
use crate::context::producer_behind;
use crate::failing::mistyped;
use crate::layers::{InScope, inside_lazy, instance};
use crate::stop::Stop;
use dg_eval::World;
use dg_slots::Plan;
use dg_value::{Place, Value};
use std::alloc::Global;

/// Where a decision tree ends.
#[derive(Drop)]
pub enum End {
    /// In a value.
    Value(Value),
    /// In the cell of this producer, which isn't asked for.
    Producer { inst: u32, slot: u32 },
}

/// What a `get` of a way to a value gives. What is inside a Lazy stands where the Lazy was made,
/// and not where the `get` stands.
pub fn got<S: InScope, C: Cells, B: Below<C>>(
    alloc: Global,
    plan: &Plan,
    value: &Value,
    place: Place,
    below: &B,
    depth: u32,
    cells: &mut C,
) -> Result<Value, Stop>
    requires fit { IsFit S.scope plan.now (world_of S.scope.doc) }
    requires below { IsBelow C.scope C.asked B.can_eval B.eval_gives below.now S.scope depth }
    requires deep { depth ≤ 128 }
    requires same { C.scope cells.old ≡ S.scope }
    requires can { CanRun S.scope
        (meaning.got_at S.scope.doc (meaning.eval S.scope.doc depth) (out-Value value.now) place) }
    ensures ran { Ran S.scope
        (meaning.got_at S.scope.doc (meaning.eval S.scope.doc depth) (out-Value value.now) place)
        (C.asked cells.old) (C.asked cells.new) result }
    ensures same { C.scope cells.new ≡ S.scope }
{
    match value {
        Value::Provider { inst, slot } => {
            instance::<S, C, B>(alloc, plan, *inst, *slot, place, below, depth, cells)
        }
        Value::ProviderLazy { inst, slot } => Ok(Value::Lazy {
            inst: *inst,
            slot: *slot,
            place,
        }),
        Value::Lazy {
            inst,
            slot,
            place: made,
        } => inside_lazy::<S, C, B>(alloc, plan, *inst, *slot, made, below, depth, cells),
        _ => mistyped(alloc),
    }
}

/// An instance of what a slot gives, as an end.
fn ends_in_value<S: InScope, C: Cells, B: Below<C>>(
    alloc: Global,
    plan: &Plan,
    inst: u32,
    slot: u32,
    place: Place,
    below: &B,
    depth: u32,
    cells: &mut C,
) -> Result<End, Stop>
    requires fit { IsFit S.scope plan.now (world_of S.scope.doc) }
    requires below { IsBelow C.scope C.asked B.can_eval B.eval_gives below.now S.scope depth }
    requires deep { depth ≤ 128 }
    requires same { C.scope cells.old ≡ S.scope }
    requires can { CanRun S.scope
        (and_then (meaning.instance S.scope.doc (meaning.eval S.scope.doc depth) inst slot place)
        (λ v. gives (value_end v))) }
    ensures ran { Ran S.scope
        (and_then (meaning.instance S.scope.doc (meaning.eval S.scope.doc depth) inst slot place)
        (λ v. gives (value_end v)))
        (C.asked cells.old) (C.asked cells.new) (ends result) }
    ensures same { C.scope cells.new ≡ S.scope }
{
    match instance::<S, C, B>(alloc, plan, inst, slot, place, below, depth, cells) {
        Ok(value) => Ok(End::Value(value)),
        Err(stop) => Err(stop),
    }
}

/// Where an `await` of a way to a slot leads.
fn awaited_slot<S: InScope, C: Cells, B: Below<C>>(
    alloc: Global,
    plan: &Plan,
    world: &World,
    inst: u32,
    slot: u32,
    place: Place,
    below: &B,
    depth: u32,
    cells: &mut C,
) -> Result<End, Stop>
    requires fit { IsFit S.scope plan.now world.now }
    requires below { IsBelow C.scope C.asked B.can_eval B.eval_gives below.now S.scope depth }
    requires deep { depth ≤ 128 }
    requires same { C.scope cells.old ≡ S.scope }
    requires fits { LeadsOn S.scope.doc inst slot }
    requires can { CanRun S.scope
        (meaning.awaited_slot S.scope.doc (meaning.eval S.scope.doc depth) depth inst slot place) }
    ensures ran { Ran S.scope
        (meaning.awaited_slot S.scope.doc (meaning.eval S.scope.doc depth) depth inst slot place)
        (C.asked cells.old) (C.asked cells.new) (ends result) }
    ensures same { C.scope cells.new ≡ S.scope }
{
    match producer_behind(plan, world, inst, slot) {
        Some(end) => Ok(End::Producer {
            inst: end.inst,
            slot: end.slot,
        }),
        None => ends_in_value::<S, C, B>(alloc, plan, inst, slot, place, below, depth, cells),
    }
}

/// Where an `await` of a value leads: to the cell of the producer, where it is a way to a
/// production, and else to what a `get` gives. No producer is evaluated.
pub fn awaited<S: InScope, C: Cells, B: Below<C>>(
    alloc: Global,
    plan: &Plan,
    world: &World,
    value: &Value,
    place: Place,
    below: &B,
    depth: u32,
    cells: &mut C,
) -> Result<End, Stop>
    requires fit { IsFit S.scope plan.now world.now }
    requires below { IsBelow C.scope C.asked B.can_eval B.eval_gives below.now S.scope depth }
    requires deep { depth ≤ 128 }
    requires same { C.scope cells.old ≡ S.scope }
    requires fits { AwaitFits S.scope.doc value.now }
    requires can { CanRun S.scope
        (meaning.awaited_at S.scope.doc (meaning.eval S.scope.doc depth) depth
        (out-Value value.now) place) }
    ensures ran { Ran S.scope
        (meaning.awaited_at S.scope.doc (meaning.eval S.scope.doc depth) depth
        (out-Value value.now) place)
        (C.asked cells.old) (C.asked cells.new) (ends result) }
    ensures same { C.scope cells.new ≡ S.scope }
{
    match value {
        Value::Provider { inst, slot } => awaited_slot::<S, C, B>(
            alloc, plan, world, *inst, *slot, place, below, depth, cells,
        ),
        _ => mistyped(alloc),
    }
}
