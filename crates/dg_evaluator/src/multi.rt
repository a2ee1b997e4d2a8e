//! Sets of what their contributions are given.

ghost use Rattle.std.specs.Prelude.{◌≡◌, ◌≤◌, [], ◌∷◌, IfOk, map, drop};
ghost use Rattle.dg_value.specs.declared.value.Kept.TheVariants as kept;
ghost use Rattle.dg_value.specs.declared.value.Value.TheVariants as value;
ghost use Rattle.dg_eval.specs.Meaning as meaning;
ghost use Rattle.dg_eval.specs.Operations as spec;
ghost use Rattle.dg_eval.specs.Runs.{gives, and_then};
ghost use Rattle.dg_requests.specs.Scopes.{Scope, IsClosed};
ghost use Rattle.dg_requests.specs.Results.{CanRun, Gave, Ran};
ghost use Rattle.dg_requests.specs.Depths.{IsBelow};
ghost use Rattle.dg_evaluator.specs.Sets.{form_of, outcomes_behind, set_made};

use dg_bodies::{elements, entry_value, set_of};
use dg_requests::{Below, Cells, InScope, Stop, look, mistyped};
use dg_types::NoMemory;
use dg_value::{Kept, Shared, Value};
use sqlite_items::{Items, at};
use std::alloc::Global;

/// Copies of some values.
fn copies(alloc: Global, values: &[Value]) -> Result<Items<Value>, NoMemory>
    ensures exact { IfOk result (λ copies. copies ≡ values.now) }
{
    let mut copies = Items::new(alloc);
    for value in values {
        copies.push(value.copy()?)?;
    }
    Ok(copies)
}

/// An outcome of each of some values.
fn outcomes(alloc: Global, values: &[Value]) -> Result<Items<Value>, NoMemory>
    ensures exact { IfOk result (λ outcomes.
        outcomes ≡ map (λ x. value.Outcome (kept.Value x)) values.now) }
{
    let mut outcomes = Items::new(alloc);
    for value in values {
        outcomes.push(Value::Outcome(Shared::new(alloc, Kept::Value(value.copy()?))?))?;
    }
    Ok(outcomes)
}

/// A list of one value.
fn alone(alloc: Global, value: &Value) -> Result<Items<Value>, NoMemory>
    ensures exact { IfOk result (λ values. values ≡ value.now ∷ []) }
{
    let mut values = Items::new(alloc);
    values.push(value.copy()?)?;
    Ok(values)
}

/// The elements of a set.
fn elements_of(alloc: Global, set: &Value) -> Result<Items<Value>, Stop>
    ensures exact { Gave (spec.elements_in set.now) result }
{
    match elements(set) {
        Some(values) => Ok(copies(alloc, values)?),
        None => mistyped(alloc),
    }
}

/// An outcome of each element of a set.
fn outcomes_of(alloc: Global, set: &Value) -> Result<Items<Value>, Stop>
    ensures exact { Gave (and_then (spec.elements_in set.now)
        (λ vs. gives (map (λ x. value.Outcome (kept.Value x)) vs))) result }
{
    match elements(set) {
        Some(values) => Ok(outcomes(alloc, values)?),
        None => mistyped(alloc),
    }
}

/// The elements of the set behind a value.
fn elements_behind<S: InScope, C: Cells, B: Below<C>>(
    alloc: Global,
    value: Value,
    below: &B,
    depth: u32,
    cells: &mut C,
) -> Result<Items<Value>, Stop>
    requires below { IsBelow C.scope C.asked B.can_eval B.eval_gives below.now S.scope depth }
    requires deep { depth ≤ 128 }
    requires closed { IsClosed S.scope }
    requires same { C.scope cells.old ≡ S.scope }
    requires can { CanRun S.scope
        (and_then (meaning.look (meaning.eval S.scope.doc depth) depth value) spec.elements_in) }
    ensures ran { Ran S.scope
        (and_then (meaning.look (meaning.eval S.scope.doc depth) depth value) spec.elements_in)
        (C.asked cells.old) (C.asked cells.new) result }
    ensures same { C.scope cells.new ≡ S.scope }
{
    let set = look::<S, C, B>(alloc, value, depth, below, depth, cells)?;
    elements_of(alloc, &set)
}

/// An outcome of each element of the set behind a value.
fn outcomes_behind<S: InScope, C: Cells, B: Below<C>>(
    alloc: Global,
    set: Value,
    below: &B,
    depth: u32,
    cells: &mut C,
) -> Result<Items<Value>, Stop>
    requires below { IsBelow C.scope C.asked B.can_eval B.eval_gives below.now S.scope depth }
    requires deep { depth ≤ 128 }
    requires closed { IsClosed S.scope }
    requires same { C.scope cells.old ≡ S.scope }
    requires can { CanRun S.scope
        (outcomes_behind (meaning.look (meaning.eval S.scope.doc depth) depth) set) }
    ensures ran { Ran S.scope
        (outcomes_behind (meaning.look (meaning.eval S.scope.doc depth) depth) set)
        (C.asked cells.old) (C.asked cells.new) result }
    ensures same { C.scope cells.new ≡ S.scope }
{
    let set = look::<S, C, B>(alloc, set, depth, below, depth, cells)?;
    outcomes_of(alloc, &set)
}

/// What a production that gives elements adds to a set of outcomes.
fn outcomes_in<S: InScope, C: Cells, B: Below<C>>(
    alloc: Global,
    value: &Value,
    below: &B,
    depth: u32,
    cells: &mut C,
) -> Result<Items<Value>, Stop>
    requires below { IsBelow C.scope C.asked B.can_eval B.eval_gives below.now S.scope depth }
    requires deep { depth ≤ 128 }
    requires closed { IsClosed S.scope }
    requires same { C.scope cells.old ≡ S.scope }
    requires can { CanRun S.scope
        (meaning.outcomes_in (meaning.look (meaning.eval S.scope.doc depth) depth) value.now) }
    ensures ran { Ran S.scope
        (meaning.outcomes_in (meaning.look (meaning.eval S.scope.doc depth) depth) value.now)
        (C.asked cells.old) (C.asked cells.new) result }
    ensures same { C.scope cells.new ≡ S.scope }
{
    match entry_value(value) {
        Some(set) => outcomes_behind::<S, C, B>(alloc, set.copy()?, below, depth, cells),
        None => Ok(alone(alloc, value)?),
    }
}

/// What a contribution adds to a set of values, or of outcomes.
fn added<S: InScope, C: Cells, B: Below<C>>(
    alloc: Global,
    of_outcomes: bool,
    gives_elements: bool,
    value: &Value,
    below: &B,
    depth: u32,
    cells: &mut C,
) -> Result<Items<Value>, Stop>
    requires below { IsBelow C.scope C.asked B.can_eval B.eval_gives below.now S.scope depth }
    requires deep { depth ≤ 128 }
    requires closed { IsClosed S.scope }
    requires same { C.scope cells.old ≡ S.scope }
    requires can { CanRun S.scope
        (meaning.added_by (form_of of_outcomes)
        (meaning.look (meaning.eval S.scope.doc depth) depth) gives_elements value.now) }
    ensures ran { Ran S.scope
        (meaning.added_by (form_of of_outcomes)
        (meaning.look (meaning.eval S.scope.doc depth) depth) gives_elements value.now)
        (C.asked cells.old) (C.asked cells.new) result }
    ensures same { C.scope cells.new ≡ S.scope }
{
    if !gives_elements {
        Ok(alone(alloc, value)?)
    } else if of_outcomes {
        outcomes_in::<S, C, B>(alloc, value, below, depth, cells)
    } else {
        elements_behind::<S, C, B>(alloc, value.copy()?, below, depth, cells)
    }
}

/// What all contributions add, in order.
fn added_by_all<S: InScope, C: Cells, B: Below<C>>(
    alloc: Global,
    of_outcomes: bool,
    flags: &[bool],
    values: &[Value],
    below: &B,
    depth: u32,
    cells: &mut C,
) -> Result<Items<Value>, Stop>
    requires below { IsBelow C.scope C.asked B.can_eval B.eval_gives below.now S.scope depth }
    requires deep { depth ≤ 128 }
    requires closed { IsClosed S.scope }
    requires same { C.scope cells.old ≡ S.scope }
    requires can { CanRun S.scope
        (meaning.added_by_all (form_of of_outcomes)
        (meaning.look (meaning.eval S.scope.doc depth) depth) flags.now values.now) }
    ensures ran { Ran S.scope
        (meaning.added_by_all (form_of of_outcomes)
        (meaning.look (meaning.eval S.scope.doc depth) depth) flags.now values.now)
        (C.asked cells.old) (C.asked cells.new) result }
    ensures same { C.scope cells.new ≡ S.scope }
{
    let mut all = Items::new(alloc);
    for (index, flag) in flags.iter().enumerate() {
        let Some(value) = at(values, index) else {
            return Ok(all);
        };
        let more = added::<S, C, B>(alloc, of_outcomes, *flag, value, below, depth, cells)?;
        all.append(more)?;
    }
    Ok(all)
}

/// A set of what was added: of equal values the first; outcomes are all kept.
fn set_of_added<S: InScope, C: Cells, B: Below<C>>(
    alloc: Global,
    of_outcomes: bool,
    values: Items<Value>,
    below: &B,
    depth: u32,
    cells: &mut C,
) -> Result<Value, Stop>
    requires below { IsBelow C.scope C.asked B.can_eval B.eval_gives below.now S.scope depth }
    requires deep { depth ≤ 128 }
    requires closed { IsClosed S.scope }
    requires same { C.scope cells.old ≡ S.scope }
    requires can { CanRun S.scope
        (meaning.set_of_added (form_of of_outcomes)
        (meaning.look (meaning.eval S.scope.doc depth) depth) values) }
    ensures ran { Ran S.scope
        (meaning.set_of_added (form_of of_outcomes)
        (meaning.look (meaning.eval S.scope.doc depth) depth) values) (C.asked cells.old)
        (C.asked cells.new) result }
    ensures same { C.scope cells.new ≡ S.scope }
{
    if of_outcomes {
        Ok(Value::Set(Shared::new(alloc, values)?))
    } else {
        set_of::<S, C, B>(alloc, values.as_slice(), below, depth, cells)
    }
}

/// The set of what the contributions add that are given these values. A flag tells which of them
/// give elements.
pub fn set<S: InScope, C: Cells, B: Below<C>>(
    alloc: Global,
    of_outcomes: bool,
    flags: &[bool],
    values: &[Value],
    below: &B,
    depth: u32,
    cells: &mut C,
) -> Result<Value, Stop>
    requires below { IsBelow C.scope C.asked B.can_eval B.eval_gives below.now S.scope depth }
    requires deep { depth ≤ 128 }
    requires closed { IsClosed S.scope }
    requires same { C.scope cells.old ≡ S.scope }
    requires can { CanRun S.scope
        (set_made of_outcomes (meaning.look (meaning.eval S.scope.doc depth) depth) flags.now
        values.now) }
    ensures ran { Ran S.scope
        (set_made of_outcomes (meaning.look (meaning.eval S.scope.doc depth) depth) flags.now
        values.now) (C.asked cells.old) (C.asked cells.new) result }
    ensures same { C.scope cells.new ≡ S.scope }
{
    let added = added_by_all::<S, C, B>(alloc, of_outcomes, flags, values, below, depth, cells)?;
    set_of_added::<S, C, B>(alloc, of_outcomes, added, below, depth, cells)
}
