//! Where a body is evaluated.

use dg_slots::Plan;
use dg_value::{Place, Value};
use std::marker::Model;

/// The slot whose body is evaluated, its place and its parameters.
#[derive(Drop)]
pub(crate) struct Site<'a> {
    pub plan: &'a Plan,
    pub slot: u32,
    pub place: &'a Place,
    pub params: &'a [Value],
}

impl<'a> Model for Site<'a> {
    ghost use Rattle.std.specs.Coded.{codes};
    ghost use Rattle.dg_slots.specs.contracts.body.NTree as tree;
    ghost use Rattle.dg_slots.specs.contracts.body.NExpr as expr;
    ghost use Rattle.dg_slots.specs.contracts.body.NCond as cond;
    ghost use Rattle.dg_value.specs.contracts.value.Kept as kept;
    ghost use Rattle.dg_value.specs.contracts.value.Value as value;
    ghost use Rattle.dg_bodies.specs.Sites as sites;

    ghost Value = { sites.Site };

    ghost coded = { Prim.hlevel (
      codes,
      tree.the_row.coded,
      expr.the_row.coded,
      cond.the_row.coded,
      value.the_row.coded,
      kept.the_row.coded,
    ) };

    ghost view = { λ s. record {
      plan = s.plan.now;
      slot = s.slot;
      place = s.place.now;
      params = s.params.now;
    } };
}
