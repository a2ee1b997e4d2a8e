//! What an ask comes to.

ghost use Rattle.std.specs.Prelude.{◌≡◌, suc, Some, IfOk};
ghost use Rattle.std.specs.Option.{option_copied};
ghost use Rattle.dg_value.specs.declared.place.PlaceStep.TheVariants as step_of;
ghost use Rattle.dg_value.specs.declared.value.Value.{out-Value};
ghost use Rattle.dg_value.specs.Places.{then_step};
ghost use Rattle.dg_eval.specs.Asks as spec;
ghost use Rattle.dg_eval.specs.Meaning as meaning;
ghost use Rattle.dg_eval.specs.Operations as operations;
ghost use Rattle.dg_eval.specs.Runs as runs;
ghost use Rattle.dg_eval.specs.World.{world_of};
ghost use Rattle.dg_requests.specs.Scopes.{IsFit, Asks};
ghost use Rattle.dg_requests.specs.Results.{CanRun, Gave, Ran};
ghost use Rattle.dg_requests.specs.Depths.{IsBelow};
ghost use Rattle.dg_evaluator.specs.Answers.{reaches, is_there, reply_in, entry_there, step_run};

use crate::slots::{eval, only_given};
use dg_bodies::{entry_with, field, inside};
use dg_eval::World;
use dg_requests::{Below, Cells, Deeper, InScope, Stop, got, look, mistyped};
use dg_slots::{Ask, PathStep, Plan};
use dg_types::{MapKeyVal, NoMemory};
use dg_value::{Place, PlaceRoot, PlaceStep, Reply, Value};
use std::alloc::Global;
use std::marker::Brand;

/// What the path of an ask has come to.
#[derive(Drop)]
pub enum Reached {
    Value(Value),
    /// A map has no entry of the key that the path names, or an optional on the path is absent.
    Absent,
}

/// A value as what a path has come to.
fn came_to(value: Result<Value, Stop>) -> Result<Reached, Stop>
    ensures exact { reaches result ≡ is_there value }
{
    match value {
        Ok(value) => Ok(Reached::Value(value)),
        Err(stop) => Err(stop),
    }
}

/// A value that may be there.
fn present(value: Option<&Value>) -> Result<Reached, Stop>
    ensures exact { Gave (spec.present (option_copied value.entry)) (reaches result) }
{
    match value {
        Some(value) => Ok(Reached::Value(value.copy()?)),
        None => Ok(Reached::Absent),
    }
}

/// The entry of a map with this key.
fn entry_at(alloc: Global, key: &MapKeyVal, map: &Value) -> Result<Reached, Stop>
    ensures exact { Gave (spec.entry_at key.now (out-Value map.now)) (reaches result) }
{
    match map {
        Value::Map(entries) => present(entry_with(entries.get().as_slice(), key)),
        _ => mistyped(alloc),
    }
}

/// What is inside an optional.
fn inside_of(alloc: Global, optional: &Value) -> Result<Reached, Stop>
    ensures exact { Gave (spec.inside_reached (operations.inside_in optional.now))
        (reaches result) }
{
    match inside(optional) {
        Some(inside) => present(inside),
        None => mistyped(alloc),
    }
}

/// A step from a value that isn't held, at the place of the step.
fn stepped<S: InScope, C: Cells, B: Below<C>>(
    alloc: Global,
    plan: &Plan,
    place: Place,
    step: &PathStep,
    value: &Value,
    below: &B,
    cells: &mut C,
) -> Result<Reached, Stop>
    requires fit { IsFit S.scope plan.now (world_of S.scope.doc) }
    requires below { IsBelow C.scope C.asked B.can_eval B.eval_gives below.now S.scope 128 }
    requires same { C.scope cells.old ≡ S.scope }
    requires can { CanRun S.scope (spec.stepped S.scope.doc place step.now value.now) }
    ensures ran { Ran S.scope (spec.stepped S.scope.doc place step.now value.now)
        (C.asked cells.old) (C.asked cells.new) (reaches result) }
    ensures same { C.scope cells.new ≡ S.scope }
{
    match step {
        PathStep::Field(index) => came_to(field(alloc, *index, value)),
        PathStep::Get => came_to(got::<S, C, B>(alloc, plan, value, place, below, 128, cells)),
        PathStep::At(key) => entry_at(alloc, key, value),
        PathStep::Inside => inside_of(alloc, value),
    }
}

/// The place of the step of this index. A list of 2^32 steps takes more memory than there is, so an
/// index without a number counts as memory that is lacking.
fn step_place(place: &Place, index: usize) -> Result<Place, NoMemory>
    ensures exact { IfOk result (λ at. at ≡ then_step place.now (step_of.Step (suc index))) }
{
    if index < u32::MAX as usize {
        place.then_step(PlaceStep::Step(index as u32 + 1))
    } else {
        Err(NoMemory)
    }
}

/// The step of this index, from a value.
fn step_from<S: InScope, C: Cells, B: Below<C>>(
    alloc: Global,
    plan: &Plan,
    place: &Place,
    index: usize,
    step: &PathStep,
    value: Value,
    below: &B,
    cells: &mut C,
) -> Result<Reached, Stop>
    requires fit { IsFit S.scope plan.now (world_of S.scope.doc) }
    requires below { IsBelow C.scope C.asked B.can_eval B.eval_gives below.now S.scope 128 }
    requires same { C.scope cells.old ≡ S.scope }
    requires can { CanRun S.scope (step_run S.scope.doc place.now (suc index) step.now value) }
    ensures ran { Ran S.scope (step_run S.scope.doc place.now (suc index) step.now value)
        (C.asked cells.old) (C.asked cells.new) (reaches result) }
    ensures same { C.scope cells.new ≡ S.scope }
{
    let seen = look::<S, C, B>(alloc, value, 128, below, 128, cells)?;
    let at = step_place(place, index)?;
    stepped::<S, C, B>(alloc, plan, at, step, &seen, below, cells)
}

/// What the steps of a path come to, from a value on.
fn followed<S: InScope, C: Cells, B: Below<C>>(
    alloc: Global,
    plan: &Plan,
    place: &Place,
    steps: &[PathStep],
    value: Value,
    below: &B,
    cells: &mut C,
) -> Result<Reached, Stop>
    requires fit { IsFit S.scope plan.now (world_of S.scope.doc) }
    requires below { IsBelow C.scope C.asked B.can_eval B.eval_gives below.now S.scope 128 }
    requires same { C.scope cells.old ≡ S.scope }
    requires can { CanRun S.scope (spec.followed S.scope.doc place.now 1 steps.now value) }
    ensures ran { Ran S.scope (spec.followed S.scope.doc place.now 1 steps.now value)
        (C.asked cells.old) (C.asked cells.new) (reaches result) }
    ensures same { C.scope cells.new ≡ S.scope }
{
    let mut value = value;
    for (index, step) in steps.iter().enumerate() {
        match step_from::<S, C, B>(alloc, plan, place, index, step, value, below, cells)? {
            Reached::Value(next) => value = next,
            Reached::Absent => return Ok(Reached::Absent),
        }
    }
    Ok(Reached::Value(value))
}

/// The slot of the entry that an ask asks for, by lists.
fn entry_slot(plan: &Plan, world: &World, ask: &Ask) -> Option<u32>
    ensures exact { result ≡ entry_there plan.now world.now ask.now }
{
    let Some(class) = world.class.get(ask.inst as usize) else {
        return None;
    };
    match plan.entries.get(*class as usize) {
        Some(slots) => slots.get(ask.entry as usize).copied(),
        None => None,
    }
}

/// What the request of an entry is given.
fn requested<S: InScope, C: Cells, B: Below<C>>(
    alloc: Global,
    plan: &Plan,
    world: &World,
    ask: &Ask,
    place: &Place,
    below: &B,
    cells: &mut C,
) -> Result<Value, Stop>
    requires fit { IsFit S.scope plan.now world.now }
    requires below { IsBelow C.scope C.asked B.can_eval B.eval_gives below.now S.scope 128 }
    requires same { C.scope cells.old ≡ S.scope }
    requires can { CanRun S.scope (spec.requested S.scope.doc ask.now place.now) }
    ensures ran { Ran S.scope (spec.requested S.scope.doc ask.now place.now) (C.asked cells.old)
        (C.asked cells.new) result }
    ensures same { C.scope cells.new ≡ S.scope }
{
    match entry_slot(plan, world, ask) {
        Some(slot) => only_given::<S, C, B>(
            alloc, plan, world, ask.inst, slot, place, below, 128, cells,
        ),
        None => mistyped(alloc),
    }
}

/// An ask of this number, over the evaluation of slots.
fn ask_over<S: InScope, C: Cells, B: Below<C>>(
    alloc: Global,
    plan: &Plan,
    world: &World,
    number: u32,
    ask: &Ask,
    below: &B,
    cells: &mut C,
) -> Result<Reached, Stop>
    requires fit { IsFit S.scope plan.now world.now }
    requires below { IsBelow C.scope C.asked B.can_eval B.eval_gives below.now S.scope 128 }
    requires same { C.scope cells.old ≡ S.scope }
    requires can { CanRun S.scope (spec.run_of_ask S.scope.doc number ask.now) }
    ensures ran { Ran S.scope (spec.run_of_ask S.scope.doc number ask.now) (C.asked cells.old)
        (C.asked cells.new) (reaches result) }
    ensures same { C.scope cells.new ≡ S.scope }
{
    let place = Place::at_root(alloc, PlaceRoot::Ask(number));
    let value = requested::<S, C, B>(alloc, plan, world, ask, &place, below, cells)?;
    followed::<S, C, B>(
        alloc,
        plan,
        &place,
        ask.steps.as_slice(),
        value,
        below,
        cells,
    )
}

/// An ask of this number.
fn whole_ask<S: InScope, C: Cells>(
    alloc: Global,
    plan: &Plan,
    world: &World,
    number: u32,
    ask: &Ask,
    cells: &mut C,
) -> Result<Reached, Stop>
    requires fit { IsFit S.scope plan.now world.now }
    requires same { C.scope cells.old ≡ S.scope }
    requires can { CanRun S.scope (spec.run_of_ask S.scope.doc number ask.now) }
    ensures ran { Ran S.scope (spec.run_of_ask S.scope.doc number ask.now) (C.asked cells.old)
        (C.asked cells.new) (reaches result) }
    ensures same { C.scope cells.new ≡ S.scope }
{
    let deeper = |i: u32, k: u32, q: Place, c: &mut C| -> Result<Value, Stop>
        requires fit { IsFit S.scope plan.now world.now }
        requires same { C.scope c.old ≡ S.scope }
        requires can { CanRun S.scope (meaning.eval S.scope.doc 128 i k q) }
        ensures ran { Ran S.scope (meaning.eval S.scope.doc 128 i k q) (C.asked c.old)
            (C.asked c.new) result }
        ensures same { C.scope c.new ≡ S.scope }
    { eval::<S, C>(alloc, plan, world, i, k, &q, 128, c) };
    let below = Deeper { run: deeper };
    ask_over::<S, C, _>(alloc, plan, world, number, ask, &below, cells)
}

/// What a path has come to as the reply to an ask.
fn to_reply(came: Result<Reached, Stop>) -> Result<Reply, NoMemory>
    ensures exact { result ≡ reply_in (reaches came) }
{
    match came {
        Ok(Reached::Value(value)) => Ok(Reply::Value(value)),
        Ok(Reached::Absent) => Ok(Reply::Absent),
        Err(Stop::Failed(failure)) => Ok(Reply::Failed(failure)),
        Err(Stop::NoMemory) => Err(NoMemory),
    }
}

/// What an ask comes to. Asks are numbered in the order of their lines, from 1.
pub fn eval_ask<C: Cells>(
    alloc: Global,
    plan: &Plan,
    world: &World,
    number: u32,
    ask: &Ask,
    cells: &mut C,
) -> Result<Reply, NoMemory>
    requires fit { IsFit (C.scope cells.old) plan.now world.now }
    requires can { CanRun (C.scope cells.old)
        (spec.run_of_ask (C.scope cells.old).doc number ask.now) }
    ensures exact { IfOk result
        (λ r. spec.answer_to (C.scope cells.old).doc number ask.now ≡ Some r) }
    ensures asked { Asks (C.scope cells.old).doc
        (runs.asks_of (spec.run_of_ask (C.scope cells.old).doc number ask.now)) (C.asked cells.old)
        (C.asked cells.new) result }
    ensures same { C.scope cells.new ≡ C.scope cells.old }
{
    to_reply(whole_ask::<Brand, C>(alloc, plan, world, number, ask, cells))
}
