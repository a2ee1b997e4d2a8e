//! What expressions and conditions give. Parts are evaluated from left to right, over how many `new`
//! and how many calls stand before them; after a failure these counts mean nothing.

ghost use Rattle.std.specs.Prelude.{◌≡◌, ◌≤◌, OnOk, IfOk, map};
ghost use Rattle.dg_slots.specs.declared.body.NCond.TheVariants as ncond;
ghost use Rattle.dg_slots.specs.declared.body.NExpr.TheVariants as nexpr;
ghost use Rattle.dg_eval.specs.Bodies.{expr_part, cond_part};
ghost use Rattle.dg_eval.specs.Meaning as meaning;
ghost use Rattle.dg_eval.specs.Runs.{and_then};
ghost use Rattle.dg_eval.specs.World.{world_of};
ghost use Rattle.dg_requests.specs.Depths.{IsBelow};
ghost use Rattle.dg_requests.specs.Results.{CanRun, Ran, Gave};
ghost use Rattle.dg_requests.specs.Scopes.{IsFit};
ghost use Rattle.dg_bodies.specs.Counts.{after, row};
ghost use Rattle.dg_bodies.specs.Sites.{seen, run_at, looked_part, pair_part};

use crate::calls::{by_param, called_with};
use crate::counters::{NewsAndCalls, next_new, pass_expression};
use crate::made::{
    equal_of, field_in, int_value, less_of, made_object, paired, passed, sum_of, text_value,
};
use crate::params::{param, param_has, param_inside, param_is_ok};
use crate::site::Site;
use dg_decl::CallName;
use dg_requests::{Below, Cells, InScope, Stop, look};
use dg_slots::{NCond, NExpr};
use dg_value::Value;
use sqlite_items::Items;
use std::alloc::Global;

/// What an expression gives.
#[cycle(parts)]
pub(crate) fn expression<S: InScope, C: Cells, B: Below<C>>(
    alloc: Global,
    site: &Site<'_>,
    e: &NExpr,
    at: &mut NewsAndCalls,
    below: &B,
    depth: u32,
    cells: &mut C,
) -> Result<Value, Stop>
    requires fit { IsFit S.scope site.now.plan (world_of S.scope.doc) }
    requires below { IsBelow C.scope C.asked B.can_eval B.eval_gives below.now S.scope depth }
    requires deep { depth ≤ 128 }
    requires same { C.scope cells.old ≡ S.scope }
    requires can { CanRun S.scope (run_at (expr_part e.now) (seen S.scope depth site.now) at.old) }
    ensures ran { Ran S.scope (run_at (expr_part e.now) (seen S.scope depth site.now) at.old)
        (C.asked cells.old) (C.asked cells.new) result }
    ensures after { OnOk result (at.new ≡ after (expr_part e.now) at.old) }
    ensures same { C.scope cells.new ≡ S.scope }
{
    match e {
        NExpr::Text(text) => Ok(text_value(alloc, text)?),
        NExpr::Int(n) => Ok(int_value(n)),
        NExpr::Param(index) => param(alloc, site.params, *index),
        NExpr::New { class, args } => {
            object::<S, C, B>(
                alloc,
                site,
                *class,
                args.as_slice(),
                at,
                below,
                depth,
                cells,
            )
        }
        NExpr::Field { of, field } => {
            field_of::<S, C, B>(alloc, site, of.get(), *field, at, below, depth, cells)
        }
        NExpr::Sum(a, b) => sum::<S, C, B>(alloc, site, a.get(), b.get(), at, below, depth, cells),
        NExpr::If { cond, yes, no } => {
            chosen::<S, C, B>(
                alloc,
                site,
                cond.get(),
                yes.get(),
                no.get(),
                at,
                below,
                depth,
                cells,
            )
        }
        NExpr::Call { f, args } => {
            called::<S, C, B>(alloc, site, *f, args.as_slice(), at, below, depth, cells)
        }
        NExpr::ByName { f, param } => {
            by_param::<S, C, B>(alloc, site, *f, *param, at, below, depth, cells)
        }
        NExpr::OrElse { param, other } => {
            or_else::<S, C, B>(alloc, site, *param, other.get(), at, below, depth, cells)
        }
    }
}

/// Whether a condition holds.
#[cycle(parts)]
pub(crate) fn condition<S: InScope, C: Cells, B: Below<C>>(
    alloc: Global,
    site: &Site<'_>,
    cond: &NCond,
    at: &mut NewsAndCalls,
    below: &B,
    depth: u32,
    cells: &mut C,
) -> Result<bool, Stop>
    requires fit { IsFit S.scope site.now.plan (world_of S.scope.doc) }
    requires below { IsBelow C.scope C.asked B.can_eval B.eval_gives below.now S.scope depth }
    requires deep { depth ≤ 128 }
    requires same { C.scope cells.old ≡ S.scope }
    requires can { CanRun S.scope (run_at (cond_part cond.now) (seen S.scope depth site.now)
        at.old) }
    ensures ran { Ran S.scope (run_at (cond_part cond.now) (seen S.scope depth site.now) at.old)
        (C.asked cells.old) (C.asked cells.new) result }
    ensures after { OnOk result (at.new ≡ after (cond_part cond.now) at.old) }
    ensures same { C.scope cells.new ≡ S.scope }
{
    match cond {
        NCond::Equal(a, b) => equal::<S, C, B>(
            alloc,
            site,
            a.get(),
            b.get(),
            at,
            below,
            depth,
            cells,
        ),
        NCond::Less(a, b) => less::<S, C, B>(
            alloc,
            site,
            a.get(),
            b.get(),
            at,
            below,
            depth,
            cells,
        ),
        NCond::Has(index) => param_has(alloc, site.params, *index),
        NCond::IsOk(index) => param_is_ok(alloc, site.params, *index),
    }
}

/// The content behind what an expression gives.
#[cycle(parts)]
fn looked<S: InScope, C: Cells, B: Below<C>>(
    alloc: Global,
    site: &Site<'_>,
    e: &NExpr,
    at: &mut NewsAndCalls,
    below: &B,
    depth: u32,
    cells: &mut C,
) -> Result<Value, Stop>
    requires fit { IsFit S.scope site.now.plan (world_of S.scope.doc) }
    requires below { IsBelow C.scope C.asked B.can_eval B.eval_gives below.now S.scope depth }
    requires deep { depth ≤ 128 }
    requires same { C.scope cells.old ≡ S.scope }
    requires can { CanRun S.scope (run_at (looked_part (expr_part e.now)) (seen S.scope depth
        site.now) at.old) }
    ensures ran { Ran S.scope (run_at (looked_part (expr_part e.now)) (seen S.scope depth site.now)
        at.old) (C.asked cells.old) (C.asked cells.new) result }
    ensures after { OnOk result (at.new ≡ after (looked_part (expr_part e.now)) at.old) }
    ensures same { C.scope cells.new ≡ S.scope }
{
    let value = expression::<S, C, B>(alloc, site, e, at, below, depth, cells)?;
    look::<S, C, B>(alloc, value, depth, below, depth, cells)
}

/// The contents behind what two expressions give.
#[cycle(parts)]
fn both<S: InScope, C: Cells, B: Below<C>>(
    alloc: Global,
    site: &Site<'_>,
    a: &NExpr,
    b: &NExpr,
    at: &mut NewsAndCalls,
    below: &B,
    depth: u32,
    cells: &mut C,
) -> Result<(Value, Value), Stop>
    requires fit { IsFit S.scope site.now.plan (world_of S.scope.doc) }
    requires below { IsBelow C.scope C.asked B.can_eval B.eval_gives below.now S.scope depth }
    requires deep { depth ≤ 128 }
    requires same { C.scope cells.old ≡ S.scope }
    requires can { CanRun S.scope (run_at (pair_part (expr_part a.now) (expr_part b.now)) (seen
        S.scope depth site.now) at.old) }
    ensures ran { Ran S.scope (run_at (pair_part (expr_part a.now) (expr_part b.now)) (seen S.scope
        depth site.now) at.old) (C.asked cells.old) (C.asked cells.new) result }
    ensures after { OnOk result (at.new ≡ after (pair_part (expr_part a.now) (expr_part b.now))
        at.old) }
    ensures same { C.scope cells.new ≡ S.scope }
{
    let v = looked::<S, C, B>(alloc, site, a, at, below, depth, cells)?;
    let w = looked::<S, C, B>(alloc, site, b, at, below, depth, cells);
    paired(v, w)
}

/// The sum of two integers.
#[cycle(parts)]
fn sum<S: InScope, C: Cells, B: Below<C>>(
    alloc: Global,
    site: &Site<'_>,
    a: &NExpr,
    b: &NExpr,
    at: &mut NewsAndCalls,
    below: &B,
    depth: u32,
    cells: &mut C,
) -> Result<Value, Stop>
    requires fit { IsFit S.scope site.now.plan (world_of S.scope.doc) }
    requires below { IsBelow C.scope C.asked B.can_eval B.eval_gives below.now S.scope depth }
    requires deep { depth ≤ 128 }
    requires same { C.scope cells.old ≡ S.scope }
    requires can { CanRun S.scope (run_at (expr_part (nexpr.Sum a.now b.now)) (seen S.scope depth
        site.now) at.old) }
    ensures ran { Ran S.scope (run_at (expr_part (nexpr.Sum a.now b.now)) (seen S.scope depth
        site.now) at.old) (C.asked cells.old) (C.asked cells.new) result }
    ensures after { OnOk result (at.new ≡ after (expr_part (nexpr.Sum a.now b.now)) at.old) }
    ensures same { C.scope cells.new ≡ S.scope }
{
    let pair = both::<S, C, B>(alloc, site, a, b, at, below, depth, cells)?;
    sum_of(alloc, site.slot, pair)
}

/// Whether two texts or two integers are equal.
#[cycle(parts)]
fn equal<S: InScope, C: Cells, B: Below<C>>(
    alloc: Global,
    site: &Site<'_>,
    a: &NExpr,
    b: &NExpr,
    at: &mut NewsAndCalls,
    below: &B,
    depth: u32,
    cells: &mut C,
) -> Result<bool, Stop>
    requires fit { IsFit S.scope site.now.plan (world_of S.scope.doc) }
    requires below { IsBelow C.scope C.asked B.can_eval B.eval_gives below.now S.scope depth }
    requires deep { depth ≤ 128 }
    requires same { C.scope cells.old ≡ S.scope }
    requires can { CanRun S.scope (run_at (cond_part (ncond.Equal a.now b.now)) (seen S.scope depth
        site.now) at.old) }
    ensures ran { Ran S.scope (run_at (cond_part (ncond.Equal a.now b.now)) (seen S.scope depth
        site.now) at.old) (C.asked cells.old) (C.asked cells.new) result }
    ensures after { OnOk result (at.new ≡ after (cond_part (ncond.Equal a.now b.now)) at.old) }
    ensures same { C.scope cells.new ≡ S.scope }
{
    let pair = both::<S, C, B>(alloc, site, a, b, at, below, depth, cells)?;
    equal_of(alloc, pair)
}

/// Whether an integer is less than another one.
#[cycle(parts)]
fn less<S: InScope, C: Cells, B: Below<C>>(
    alloc: Global,
    site: &Site<'_>,
    a: &NExpr,
    b: &NExpr,
    at: &mut NewsAndCalls,
    below: &B,
    depth: u32,
    cells: &mut C,
) -> Result<bool, Stop>
    requires fit { IsFit S.scope site.now.plan (world_of S.scope.doc) }
    requires below { IsBelow C.scope C.asked B.can_eval B.eval_gives below.now S.scope depth }
    requires deep { depth ≤ 128 }
    requires same { C.scope cells.old ≡ S.scope }
    requires can { CanRun S.scope (run_at (cond_part (ncond.Less a.now b.now)) (seen S.scope depth
        site.now) at.old) }
    ensures ran { Ran S.scope (run_at (cond_part (ncond.Less a.now b.now)) (seen S.scope depth
        site.now) at.old) (C.asked cells.old) (C.asked cells.new) result }
    ensures after { OnOk result (at.new ≡ after (cond_part (ncond.Less a.now b.now)) at.old) }
    ensures same { C.scope cells.new ≡ S.scope }
{
    let pair = both::<S, C, B>(alloc, site, a, b, at, below, depth, cells)?;
    less_of(alloc, pair)
}

/// The field of this index of an object.
#[cycle(parts)]
fn field_of<S: InScope, C: Cells, B: Below<C>>(
    alloc: Global,
    site: &Site<'_>,
    of: &NExpr,
    field: u32,
    at: &mut NewsAndCalls,
    below: &B,
    depth: u32,
    cells: &mut C,
) -> Result<Value, Stop>
    requires fit { IsFit S.scope site.now.plan (world_of S.scope.doc) }
    requires below { IsBelow C.scope C.asked B.can_eval B.eval_gives below.now S.scope depth }
    requires deep { depth ≤ 128 }
    requires same { C.scope cells.old ≡ S.scope }
    requires can { CanRun S.scope (run_at (expr_part (nexpr.Field of.now field)) (seen S.scope
        depth site.now) at.old) }
    ensures ran { Ran S.scope (run_at (expr_part (nexpr.Field of.now field)) (seen S.scope depth
        site.now) at.old) (C.asked cells.old) (C.asked cells.new) result }
    ensures after { OnOk result (at.new ≡ after (expr_part (nexpr.Field of.now field)) at.old) }
    ensures same { C.scope cells.new ≡ S.scope }
{
    let object = looked::<S, C, B>(alloc, site, of, at, below, depth, cells)?;
    field_in(alloc, field, object)
}

/// What some expressions give, in order.
#[cycle(parts)]
fn arguments<S: InScope, C: Cells, B: Below<C>>(
    alloc: Global,
    site: &Site<'_>,
    args: &[NExpr],
    at: &mut NewsAndCalls,
    below: &B,
    depth: u32,
    cells: &mut C,
) -> Result<Items<Value>, Stop>
    requires fit { IsFit S.scope site.now.plan (world_of S.scope.doc) }
    requires below { IsBelow C.scope C.asked B.can_eval B.eval_gives below.now S.scope depth }
    requires deep { depth ≤ 128 }
    requires same { C.scope cells.old ≡ S.scope }
    requires can { CanRun S.scope (run_at (row (map expr_part args.now)) (seen S.scope depth
        site.now) at.old) }
    ensures ran { Ran S.scope (run_at (row (map expr_part args.now)) (seen S.scope depth site.now)
        at.old) (C.asked cells.old) (C.asked cells.new) result }
    ensures after { OnOk result (at.new ≡ after (row (map expr_part args.now)) at.old) }
    ensures same { C.scope cells.new ≡ S.scope }
{
    let mut values = Items::new(alloc);
    for arg in args {
        values.push(expression::<S, C, B>(alloc, site, arg, at, below, depth, cells)?)?;
    }
    Ok(values)
}

/// An object of a class, from its arguments.
#[cycle(parts)]
fn object<S: InScope, C: Cells, B: Below<C>>(
    alloc: Global,
    site: &Site<'_>,
    class: u32,
    args: &[NExpr],
    at: &mut NewsAndCalls,
    below: &B,
    depth: u32,
    cells: &mut C,
) -> Result<Value, Stop>
    requires fit { IsFit S.scope site.now.plan (world_of S.scope.doc) }
    requires below { IsBelow C.scope C.asked B.can_eval B.eval_gives below.now S.scope depth }
    requires deep { depth ≤ 128 }
    requires same { C.scope cells.old ≡ S.scope }
    requires can { CanRun S.scope (run_at (expr_part (nexpr.New class args.now)) (seen S.scope
        depth site.now) at.old) }
    ensures ran { Ran S.scope (run_at (expr_part (nexpr.New class args.now)) (seen S.scope depth
        site.now) at.old) (C.asked cells.old) (C.asked cells.new) result }
    ensures after { OnOk result (at.new ≡ after (expr_part (nexpr.New class args.now)) at.old) }
    ensures same { C.scope cells.new ≡ S.scope }
{
    let number = next_new(at)?;
    let fields = arguments::<S, C, B>(alloc, site, args, at, below, depth, cells)?;
    Ok(made_object(alloc, class, site.place, number, fields)?)
}

/// Of two expressions the one that a condition chooses. The other isn't evaluated.
#[cycle(parts)]
fn chosen<S: InScope, C: Cells, B: Below<C>>(
    alloc: Global,
    site: &Site<'_>,
    cond: &NCond,
    yes: &NExpr,
    no: &NExpr,
    at: &mut NewsAndCalls,
    below: &B,
    depth: u32,
    cells: &mut C,
) -> Result<Value, Stop>
    requires fit { IsFit S.scope site.now.plan (world_of S.scope.doc) }
    requires below { IsBelow C.scope C.asked B.can_eval B.eval_gives below.now S.scope depth }
    requires deep { depth ≤ 128 }
    requires same { C.scope cells.old ≡ S.scope }
    requires can { CanRun S.scope (run_at (expr_part (nexpr.If cond.now yes.now no.now)) (seen
        S.scope depth site.now) at.old) }
    ensures ran { Ran S.scope (run_at (expr_part (nexpr.If cond.now yes.now no.now)) (seen S.scope
        depth site.now) at.old) (C.asked cells.old) (C.asked cells.new) result }
    ensures after { OnOk result (at.new ≡ after (expr_part (nexpr.If cond.now yes.now no.now))
        at.old) }
    ensures same { C.scope cells.new ≡ S.scope }
{
    if condition::<S, C, B>(alloc, site, cond, at, below, depth, cells)? {
        let value = expression::<S, C, B>(alloc, site, yes, at, below, depth, cells)?;
        passed(value, pass_expression(no, at))
    } else {
        pass_expression(yes, at)?;
        expression::<S, C, B>(alloc, site, no, at, below, depth, cells)
    }
}

/// What a function gives of its arguments.
#[cycle(parts)]
fn called<S: InScope, C: Cells, B: Below<C>>(
    alloc: Global,
    site: &Site<'_>,
    f: CallName,
    args: &[NExpr],
    at: &mut NewsAndCalls,
    below: &B,
    depth: u32,
    cells: &mut C,
) -> Result<Value, Stop>
    requires fit { IsFit S.scope site.now.plan (world_of S.scope.doc) }
    requires below { IsBelow C.scope C.asked B.can_eval B.eval_gives below.now S.scope depth }
    requires deep { depth ≤ 128 }
    requires same { C.scope cells.old ≡ S.scope }
    requires can { CanRun S.scope (run_at (expr_part (nexpr.Call f args.now)) (seen S.scope depth
        site.now) at.old) }
    ensures ran { Ran S.scope (run_at (expr_part (nexpr.Call f args.now)) (seen S.scope depth
        site.now) at.old) (C.asked cells.old) (C.asked cells.new) result }
    ensures after { OnOk result (at.new ≡ after (expr_part (nexpr.Call f args.now)) at.old) }
    ensures same { C.scope cells.new ≡ S.scope }
{
    let values = arguments::<S, C, B>(alloc, site, args, at, below, depth, cells)?;
    called_with::<S, C, B>(alloc, site, f, values.as_slice(), below, depth, cells)
}

/// What is inside an optional, or else what an expression gives.
#[cycle(parts)]
fn or_else<S: InScope, C: Cells, B: Below<C>>(
    alloc: Global,
    site: &Site<'_>,
    param: u32,
    other: &NExpr,
    at: &mut NewsAndCalls,
    below: &B,
    depth: u32,
    cells: &mut C,
) -> Result<Value, Stop>
    requires fit { IsFit S.scope site.now.plan (world_of S.scope.doc) }
    requires below { IsBelow C.scope C.asked B.can_eval B.eval_gives below.now S.scope depth }
    requires deep { depth ≤ 128 }
    requires same { C.scope cells.old ≡ S.scope }
    requires can { CanRun S.scope (run_at (expr_part (nexpr.OrElse param other.now)) (seen S.scope
        depth site.now) at.old) }
    ensures ran { Ran S.scope (run_at (expr_part (nexpr.OrElse param other.now)) (seen S.scope
        depth site.now) at.old) (C.asked cells.old) (C.asked cells.new) result }
    ensures after { OnOk result (at.new ≡ after (expr_part (nexpr.OrElse param other.now)) at.old) }
    ensures same { C.scope cells.new ≡ S.scope }
{
    match param_inside(alloc, site.params, param)? {
        None => expression::<S, C, B>(alloc, site, other, at, below, depth, cells),
        Some(inside) => passed(inside, pass_expression(other, at)),
    }
}
