//! What functions give of their arguments, and functions of parameters by name.

ghost use Rattle.std.specs.Prelude.{◌≡◌, ◌≤◌, OnOk};
ghost use Rattle.std.specs.Option.{option_copied};
ghost use Rattle.dg_decl.specs.declared.expression.ParamCall.TheVariants as by_name;
ghost use Rattle.dg_value.specs.declared.value.Value.{out-Value};
ghost use Rattle.dg_eval.specs.Bodies as bodies;
ghost use Rattle.dg_eval.specs.Meaning as meaning;
ghost use Rattle.dg_eval.specs.Operations as operations_spec;
ghost use Rattle.dg_eval.specs.Operations.{or_mistyped, only_of};
ghost use Rattle.dg_eval.specs.Runs.{and_then};
ghost use Rattle.dg_eval.specs.World.{world_of};
ghost use Rattle.dg_requests.specs.Depths.{IsBelow};
ghost use Rattle.dg_requests.specs.Results.{CanRun, Ran, Gave};
ghost use Rattle.dg_requests.specs.Scopes.{IsFit};
ghost use Rattle.dg_bodies.specs.Counts.{after};
ghost use Rattle.dg_bodies.specs.Sites.{seen, run_at, applied_to};

use crate::counters::{NewsAndCalls, next_call};
use crate::operations;
use crate::params::{param, param_failure, param_value};
use crate::sets::{look_all, set_of, values_in};
use crate::site::Site;
use dg_decl::{CallName, ParamCall};
use dg_requests::{Below, Cells, InScope, Stop, got, look, mistyped};
use dg_value::{PlaceStep, Value};
use std::alloc::Global;

/// What a function of one argument gives of the content behind it.
fn applied_to(alloc: Global, f: CallName, origin: u32, v: &Value) -> Result<Value, Stop>
    ensures exact { Gave (applied_to f origin v.now) result }
{
    match f {
        CallName::TextOf => operations::decimal(alloc, v),
        CallName::Size => operations::size(alloc, v),
        CallName::Fail => operations::fail(alloc, origin, v),
        CallName::Cat => mistyped(alloc),
        CallName::SetOf => mistyped(alloc),
    }
}

/// The one argument of a call.
fn only_of(alloc: Global, values: &[Value]) -> Result<Value, Stop>
    ensures exact { Gave (or_mistyped (only_of values.now)) result }
{
    match values {
        [v] => Ok(v.copy()?),
        _ => mistyped(alloc),
    }
}

/// What a function of one argument gives.
fn of_one<S: InScope, C: Cells, B: Below<C>>(
    alloc: Global,
    site: &Site<'_>,
    f: CallName,
    values: &[Value],
    below: &B,
    depth: u32,
    cells: &mut C,
) -> Result<Value, Stop>
    requires fit { IsFit S.scope site.now.plan (world_of S.scope.doc) }
    requires below { IsBelow C.scope C.asked B.can_eval B.eval_gives below.now S.scope depth }
    requires deep { depth ≤ 128 }
    requires same { C.scope cells.old ≡ S.scope }
    requires can { CanRun S.scope (and_then (and_then (or_mistyped (only_of values.now))
        (meaning.look (meaning.eval S.scope.doc depth) depth)) (applied_to f site.now.slot)) }
    ensures ran { Ran S.scope (and_then (and_then (or_mistyped (only_of values.now)) (meaning.look
        (meaning.eval S.scope.doc depth) depth)) (applied_to f site.now.slot)) (C.asked cells.old)
        (C.asked cells.new) result }
    ensures same { C.scope cells.new ≡ S.scope }
{
    let value = only_of(alloc, values)?;
    let content = look::<S, C, B>(alloc, value, depth, below, depth, cells)?;
    applied_to(alloc, f, site.slot, &content)
}

/// The texts behind some values one behind the other.
fn cat_of<S: InScope, C: Cells, B: Below<C>>(
    alloc: Global,
    site: &Site<'_>,
    values: &[Value],
    below: &B,
    depth: u32,
    cells: &mut C,
) -> Result<Value, Stop>
    requires fit { IsFit S.scope site.now.plan (world_of S.scope.doc) }
    requires below { IsBelow C.scope C.asked B.can_eval B.eval_gives below.now S.scope depth }
    requires deep { depth ≤ 128 }
    requires same { C.scope cells.old ≡ S.scope }
    requires can { CanRun S.scope (and_then (bodies.look_all (seen S.scope depth site.now)
        values.now) (operations_spec.cat_in site.now.slot)) }
    ensures ran { Ran S.scope (and_then (bodies.look_all (seen S.scope depth site.now) values.now)
        (operations_spec.cat_in site.now.slot)) (C.asked cells.old) (C.asked cells.new) result }
    ensures same { C.scope cells.new ≡ S.scope }
{
    let contents = look_all::<S, C, B>(alloc, values, below, depth, cells)?;
    operations::cat(alloc, site.slot, contents.as_slice())
}

/// What a function gives of its arguments.
pub(crate) fn called_with<S: InScope, C: Cells, B: Below<C>>(
    alloc: Global,
    site: &Site<'_>,
    f: CallName,
    values: &[Value],
    below: &B,
    depth: u32,
    cells: &mut C,
) -> Result<Value, Stop>
    requires fit { IsFit S.scope site.now.plan (world_of S.scope.doc) }
    requires below { IsBelow C.scope C.asked B.can_eval B.eval_gives below.now S.scope depth }
    requires deep { depth ≤ 128 }
    requires same { C.scope cells.old ≡ S.scope }
    requires can { CanRun S.scope (bodies.called_with f (seen S.scope depth site.now) values.now) }
    ensures ran { Ran S.scope (bodies.called_with f (seen S.scope depth site.now) values.now)
        (C.asked cells.old) (C.asked cells.new) result }
    ensures same { C.scope cells.new ≡ S.scope }
{
    match f {
        CallName::Cat => cat_of::<S, C, B>(alloc, site, values, below, depth, cells),
        CallName::TextOf => of_one::<S, C, B>(alloc, site, f, values, below, depth, cells),
        CallName::Size => of_one::<S, C, B>(alloc, site, f, values, below, depth, cells),
        CallName::SetOf => set_of::<S, C, B>(alloc, values, below, depth, cells),
        CallName::Fail => of_one::<S, C, B>(alloc, site, f, values, below, depth, cells),
    }
}

/// What a `get` of a parameter gives.
fn got_of<S: InScope, C: Cells, B: Below<C>>(
    alloc: Global,
    site: &Site<'_>,
    index: u32,
    at: &mut NewsAndCalls,
    below: &B,
    depth: u32,
    cells: &mut C,
) -> Result<Value, Stop>
    requires fit { IsFit S.scope site.now.plan (world_of S.scope.doc) }
    requires below { IsBelow C.scope C.asked B.can_eval B.eval_gives below.now S.scope depth }
    requires deep { depth ≤ 128 }
    requires same { C.scope cells.old ≡ S.scope }
    requires can { CanRun S.scope (run_at (bodies.by_param by_name.Get index) (seen S.scope depth
        site.now) at.old) }
    ensures ran { Ran S.scope (run_at (bodies.by_param by_name.Get index) (seen S.scope depth
        site.now) at.old) (C.asked cells.old) (C.asked cells.new) result }
    ensures after { OnOk result (at.new ≡ after (bodies.by_param by_name.Get index) at.old) }
    ensures same { C.scope cells.new ≡ S.scope }
{
    let number = next_call(at)?;
    let place = site.place.then_step(PlaceStep::Call(number))?;
    let value = param(alloc, site.params, index)?;
    got::<S, C, B>(alloc, site.plan, &value, place, below, depth, cells)
}

/// The entries of a parameter that are values.
fn values_of<S: InScope, C: Cells, B: Below<C>>(
    alloc: Global,
    site: &Site<'_>,
    index: u32,
    below: &B,
    depth: u32,
    cells: &mut C,
) -> Result<Value, Stop>
    requires fit { IsFit S.scope site.now.plan (world_of S.scope.doc) }
    requires below { IsBelow C.scope C.asked B.can_eval B.eval_gives below.now S.scope depth }
    requires deep { depth ≤ 128 }
    requires same { C.scope cells.old ≡ S.scope }
    requires can { CanRun S.scope (and_then (meaning.param_in site.now.params index)
        (bodies.values_in (meaning.look (meaning.eval S.scope.doc depth) depth))) }
    ensures ran { Ran S.scope (and_then (meaning.param_in site.now.params index) (bodies.values_in
        (meaning.look (meaning.eval S.scope.doc depth) depth))) (C.asked cells.old) (C.asked
        cells.new) result }
    ensures same { C.scope cells.new ≡ S.scope }
{
    let value = param(alloc, site.params, index)?;
    values_in::<S, C, B>(alloc, &value, below, depth, cells)
}

/// What a function of a parameter gives.
pub(crate) fn by_param<S: InScope, C: Cells, B: Below<C>>(
    alloc: Global,
    site: &Site<'_>,
    f: ParamCall,
    index: u32,
    at: &mut NewsAndCalls,
    below: &B,
    depth: u32,
    cells: &mut C,
) -> Result<Value, Stop>
    requires fit { IsFit S.scope site.now.plan (world_of S.scope.doc) }
    requires below { IsBelow C.scope C.asked B.can_eval B.eval_gives below.now S.scope depth }
    requires deep { depth ≤ 128 }
    requires same { C.scope cells.old ≡ S.scope }
    requires can { CanRun S.scope (run_at (bodies.by_param f index) (seen S.scope depth site.now)
        at.old) }
    ensures ran { Ran S.scope (run_at (bodies.by_param f index) (seen S.scope depth site.now)
        at.old) (C.asked cells.old) (C.asked cells.new) result }
    ensures after { OnOk result (at.new ≡ after (bodies.by_param f index) at.old) }
    ensures same { C.scope cells.new ≡ S.scope }
{
    match f {
        ParamCall::Get => got_of::<S, C, B>(alloc, site, index, at, below, depth, cells),
        ParamCall::Value => param_value(alloc, site.params, index),
        ParamCall::Values => values_of::<S, C, B>(alloc, site, index, below, depth, cells),
        ParamCall::Failure => param_failure(alloc, site.params, index),
    }
}
