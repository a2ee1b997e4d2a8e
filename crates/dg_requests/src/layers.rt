//! What stands between slots: contents, instances and looks.

ghost use Rattle.std.specs.Prelude.{◌≡◌, ◌≤◌, [], ◌∷◌};
ghost use Rattle.dg_value.specs.declared.value.Value.{out-Value};
ghost use Rattle.dg_eval.specs.Runs.{cell, lazy as lazy_at, asking};
ghost use Rattle.dg_eval.specs.Asks.{asked_by};
ghost use Rattle.dg_eval.specs.Meaning as meaning;
ghost use Rattle.dg_eval.specs.World.{world_of};
ghost use Rattle.dg_requests.specs.Scopes.{Scope, IsClosed, IsFit, Answers};
ghost use Rattle.dg_requests.specs.Results.{CanRun, Ran, result_of, held_of, held_at};
ghost use Rattle.dg_requests.specs.Depths.{IsBelow};

use crate::below::Below;
use crate::cells::Cells;
use crate::context::is_cell;
use crate::stop::Stop;
use dg_slots::Plan;
use dg_types::NoMemory;
use dg_value::{Kept, Place, PlaceRoot, PlaceStep, Value};
use std::alloc::Global;
use std::marker::Brand;

/// Names the scope that an evaluation leaves as it is throughout.
pub trait InScope {
    ghost scope: { Scope };
}

impl InScope for Brand {
    ghost scope = { record { doc = record { items = []; lines = [] }; may = [] } };
}

/// The result of an evaluation as what is kept.
pub(crate) fn to_keep(result_below: Result<Value, Stop>) -> Result<Kept, NoMemory>
    ensures exact { result_of result ≡ result_below }
{
    match result_below {
        Ok(value) => Ok(Kept::Value(value)),
        Err(Stop::Failed(failure)) => Ok(Kept::Failed(failure)),
        Err(Stop::NoMemory) => Err(NoMemory),
    }
}

/// The result of an evaluation that was kept.
fn from_kept(answer: Result<Kept, NoMemory>) -> Result<Value, Stop>
    ensures exact { result ≡ result_of answer }
{
    match answer {
        Ok(Kept::Value(value)) => Ok(value),
        Ok(Kept::Failed(failure)) => Err(Stop::Failed(failure)),
        Err(NoMemory) => Err(Stop::NoMemory),
    }
}

/// The content of a cell, made by the evaluation below.
fn made_cell<S: InScope, C: Cells, B: Below<C>>(
    alloc: Global,
    inst: u32,
    slot: u32,
    below: &B,
    depth: u32,
    cells: &mut C,
) -> Result<Kept, NoMemory>
    requires below { IsBelow C.scope C.asked B.can_eval B.eval_gives below.now S.scope depth }
    requires deep { depth ≤ 128 }
    requires same { C.scope cells.old ≡ S.scope }
    requires can { CanRun S.scope (meaning.content (meaning.eval S.scope.doc depth) inst slot) }
    ensures exact { Answers (cell inst slot) (asked_by (C.scope cells.old).doc (cell inst slot))
        (C.scope cells.old) (C.scope cells.new) (C.asked cells.old) (C.asked cells.new) result }
{
    let place = Place::at_root(alloc, PlaceRoot::Cell { inst, slot });
    to_keep(below.eval(inst, slot, place, cells))
}

/// The content of the cell of a slot in an instance.
pub fn content<S: InScope, C: Cells, B: Below<C>>(
    alloc: Global,
    inst: u32,
    slot: u32,
    below: &B,
    depth: u32,
    cells: &mut C,
) -> Result<Value, Stop>
    requires below { IsBelow C.scope C.asked B.can_eval B.eval_gives below.now S.scope depth }
    requires deep { depth ≤ 128 }
    requires closed { IsClosed S.scope }
    requires same { C.scope cells.old ≡ S.scope }
    requires can { CanRun S.scope (asking (cell inst slot) (meaning.content (meaning.eval
        S.scope.doc depth) inst slot)) }
    ensures ran { Ran S.scope (asking (cell inst slot) (meaning.content (meaning.eval S.scope.doc
        depth) inst slot)) (C.asked cells.old) (C.asked cells.new) result }
    ensures same { C.scope cells.new ≡ S.scope }
{
    from_kept(cells.kept(
        inst,
        slot,
        |c: &mut C| -> Result<Kept, NoMemory>
            requires below { IsBelow C.scope C.asked B.can_eval B.eval_gives below.now S.scope
                depth }
            requires deep { depth ≤ 128 }
            requires same { C.scope c.old ≡ S.scope }
            requires can { CanRun S.scope (meaning.content (meaning.eval S.scope.doc depth) inst
                slot) }
            ensures exact { Answers (cell inst slot) (asked_by (C.scope c.old).doc (cell inst
                slot)) (C.scope c.old) (C.scope c.new) (C.asked c.old) (C.asked c.new) result }
        { made_cell::<S, C, B>(alloc, inst, slot, below, depth, c) },
    ))
}

/// A result as one whose value is held in this cell.
fn as_held(inst: u32, slot: u32, content: Result<Value, Stop>) -> Result<Value, Stop>
    ensures exact { result ≡ held_of inst slot content }
{
    match content {
        Ok(_) => Ok(Value::Held { inst, slot }),
        Err(stop) => Err(stop),
    }
}

/// The cell of a slot in an instance, whose content is asked for, as a held value.
pub fn held<S: InScope, C: Cells, B: Below<C>>(
    alloc: Global,
    inst: u32,
    slot: u32,
    below: &B,
    depth: u32,
    cells: &mut C,
) -> Result<Value, Stop>
    requires below { IsBelow C.scope C.asked B.can_eval B.eval_gives below.now S.scope depth }
    requires deep { depth ≤ 128 }
    requires closed { IsClosed S.scope }
    requires same { C.scope cells.old ≡ S.scope }
    requires can { CanRun S.scope (meaning.held (meaning.eval S.scope.doc depth) inst slot) }
    ensures ran { Ran S.scope (meaning.held (meaning.eval S.scope.doc depth) inst slot) (C.asked
        cells.old) (C.asked cells.new) result }
    ensures same { C.scope cells.new ≡ S.scope }
{
    as_held(
        inst,
        slot,
        content::<S, C, B>(alloc, inst, slot, below, depth, cells),
    )
}

/// An instance of what a slot gives, at a place.
pub fn instance<S: InScope, C: Cells, B: Below<C>>(
    alloc: Global,
    plan: &Plan,
    inst: u32,
    slot: u32,
    place: Place,
    below: &B,
    depth: u32,
    cells: &mut C,
) -> Result<Value, Stop>
    requires fit { IsFit S.scope plan.now (world_of S.scope.doc) }
    requires below { IsBelow C.scope C.asked B.can_eval B.eval_gives below.now S.scope depth }
    requires deep { depth ≤ 128 }
    requires same { C.scope cells.old ≡ S.scope }
    requires can { CanRun S.scope (meaning.instance S.scope.doc (meaning.eval S.scope.doc depth)
        inst slot place) }
    ensures ran { Ran S.scope (meaning.instance S.scope.doc (meaning.eval S.scope.doc depth) inst
        slot place) (C.asked cells.old) (C.asked cells.new) result }
    ensures same { C.scope cells.new ≡ S.scope }
{
    if is_cell(plan, slot) {
        held::<S, C, B>(alloc, inst, slot, below, depth, cells)
    } else {
        below.eval(inst, slot, place, cells)
    }
}

/// The instance and the slot of the cell that holds a value.
fn held_cell(value: &Value) -> Option<(u32, u32)>
    ensures exact { result ≡ held_at (out-Value value.now) }
{
    match value {
        Value::Held { inst, slot } => Some((*inst, *slot)),
        _ => None,
    }
}

/// The content behind a value, through at most so many cells.
pub fn look<S: InScope, C: Cells, B: Below<C>>(
    alloc: Global,
    value: Value,
    times: u32,
    below: &B,
    depth: u32,
    cells: &mut C,
) -> Result<Value, Stop>
    requires below { IsBelow C.scope C.asked B.can_eval B.eval_gives below.now S.scope depth }
    requires deep { depth ≤ 128 }
    requires closed { IsClosed S.scope }
    requires same { C.scope cells.old ≡ S.scope }
    requires can { CanRun S.scope (meaning.look (meaning.eval S.scope.doc depth) times value) }
    ensures ran { Ran S.scope (meaning.look (meaning.eval S.scope.doc depth) times value) (C.asked
        cells.old) (C.asked cells.new) result }
    ensures same { C.scope cells.new ≡ S.scope }
{
    match held_cell(&value) {
        None => Ok(value),
        Some((inst, slot)) => {
            drop(value);
            let behind = content::<S, C, B>(alloc, inst, slot, below, depth, cells)?;
            look::<S, C, B>(alloc, behind, times - 1, below, depth, cells)
        }
    }
}

/// The content of the Lazy that was made at a place, by the evaluation below.
#[tactic(auto, using(crate::proofs::RanLemmas::ran_nothing))]
fn lazy_content<S: InScope, C: Cells, B: Below<C>>(
    alloc: Global,
    plan: &Plan,
    inst: u32,
    slot: u32,
    place: &Place,
    below: &B,
    depth: u32,
    cells: &mut C,
) -> Result<Value, Stop>
    requires fit { IsFit S.scope plan.now (world_of S.scope.doc) }
    requires below { IsBelow C.scope C.asked B.can_eval B.eval_gives below.now S.scope depth }
    requires deep { depth ≤ 128 }
    requires same { C.scope cells.old ≡ S.scope }
    requires can { CanRun S.scope (meaning.lazy_content S.scope.doc (meaning.eval S.scope.doc
        depth) inst slot place.now) }
    ensures ran { Ran S.scope (meaning.lazy_content S.scope.doc (meaning.eval S.scope.doc depth)
        inst slot place.now) (C.asked cells.old) (C.asked cells.new) result }
    ensures same { C.scope cells.new ≡ S.scope }
{
    match place.then_step(PlaceStep::Inside) {
        Ok(inside) => { instance::<S, C, B>(alloc, plan, inst, slot, inside, below, depth, cells) }
        Err(_) => Err(Stop::NoMemory),
    }
}

/// The content of a Lazy as what is kept.
fn made_lazy<S: InScope, C: Cells, B: Below<C>>(
    alloc: Global,
    plan: &Plan,
    inst: u32,
    slot: u32,
    place: &Place,
    below: &B,
    depth: u32,
    cells: &mut C,
) -> Result<Kept, NoMemory>
    requires fit { IsFit S.scope plan.now (world_of S.scope.doc) }
    requires below { IsBelow C.scope C.asked B.can_eval B.eval_gives below.now S.scope depth }
    requires deep { depth ≤ 128 }
    requires same { C.scope cells.old ≡ S.scope }
    requires can { CanRun S.scope (meaning.lazy_content S.scope.doc (meaning.eval S.scope.doc
        depth) inst slot place.now) }
    ensures exact { Answers (lazy_at inst slot place.now) (asked_by (C.scope cells.old).doc
        (lazy_at inst slot place.now)) (C.scope cells.old) (C.scope cells.new) (C.asked cells.old)
        (C.asked cells.new) result }
{
    to_keep(lazy_content::<S, C, B>(alloc, plan, inst, slot, place, below, depth, cells))
}

/// What is inside a Lazy that was made at a place.
pub fn inside_lazy<S: InScope, C: Cells, B: Below<C>>(
    alloc: Global,
    plan: &Plan,
    inst: u32,
    slot: u32,
    place: &Place,
    below: &B,
    depth: u32,
    cells: &mut C,
) -> Result<Value, Stop>
    requires fit { IsFit S.scope plan.now (world_of S.scope.doc) }
    requires below { IsBelow C.scope C.asked B.can_eval B.eval_gives below.now S.scope depth }
    requires deep { depth ≤ 128 }
    requires same { C.scope cells.old ≡ S.scope }
    requires can { CanRun S.scope (asking (lazy_at inst slot place.now) (meaning.lazy_content
        S.scope.doc (meaning.eval S.scope.doc depth) inst slot place.now)) }
    ensures ran { Ran S.scope (asking (lazy_at inst slot place.now) (meaning.lazy_content
        S.scope.doc (meaning.eval S.scope.doc depth) inst slot place.now)) (C.asked cells.old)
        (C.asked cells.new) result }
    ensures same { C.scope cells.new ≡ S.scope }
{
    from_kept(cells.lazy(
        inst,
        slot,
        place,
        |c: &mut C| -> Result<Kept, NoMemory>
            requires fit { IsFit S.scope plan.now (world_of S.scope.doc) }
            requires below { IsBelow C.scope C.asked B.can_eval B.eval_gives below.now S.scope
                depth }
            requires deep { depth ≤ 128 }
            requires same { C.scope c.old ≡ S.scope }
            requires can { CanRun S.scope (meaning.lazy_content S.scope.doc (meaning.eval
                S.scope.doc depth) inst slot place.now) }
            ensures exact { Answers (lazy_at inst slot place.entry.now) (asked_by (C.scope
                c.old).doc (lazy_at inst slot place.entry.now)) (C.scope c.old) (C.scope c.new)
                (C.asked c.old) (C.asked c.new) result }
        { made_lazy::<S, C, B>(alloc, plan, inst, slot, place, below, depth, c) },
    ))
}
