//! The parameters of a body.

ghost use Rattle.std.specs.Prelude.{◌≡◌};
ghost use Rattle.dg_eval.specs.Meaning.{param_in};
ghost use Rattle.dg_eval.specs.Operations as spec;
ghost use Rattle.dg_eval.specs.Runs.{and_then};
ghost use Rattle.dg_requests.specs.Results.{Gave};

use crate::operations;
use crate::parts::inside;
use dg_requests::{Stop, mistyped};
use dg_value::Value;
use std::alloc::Global;

/// The value of a parameter.
pub(crate) fn param(alloc: Global, params: &[Value], index: u32) -> Result<Value, Stop>
    ensures exact { Gave (param_in params.now index) result }
{
    match params.get(index as usize) {
        Some(value) => Ok(value.copy()?),
        None => mistyped(alloc),
    }
}

/// The value of the production that a parameter is, or its failure.
#[tactic(auto, using(crate::proofs::ParamLemmas::known))]
pub(crate) fn param_value(alloc: Global, params: &[Value], index: u32) -> Result<Value, Stop>
    ensures exact { Gave (and_then (param_in params.now index) spec.value_in) result }
{
    match params.get(index as usize) {
        Some(value) => operations::value(alloc, value),
        None => mistyped(alloc),
    }
}

/// The message of the production that a parameter is, where it failed.
#[tactic(auto, using(crate::proofs::ParamLemmas::known))]
pub(crate) fn param_failure(alloc: Global, params: &[Value], index: u32) -> Result<Value, Stop>
    ensures exact { Gave (and_then (param_in params.now index) spec.failure_in) result }
{
    match params.get(index as usize) {
        Some(value) => operations::failure(alloc, value),
        None => mistyped(alloc),
    }
}

/// Whether the production that a parameter is gave a value.
#[tactic(auto, using(crate::proofs::ParamLemmas::known))]
pub(crate) fn param_is_ok(alloc: Global, params: &[Value], index: u32) -> Result<bool, Stop>
    ensures exact { Gave (and_then (param_in params.now index) spec.is_ok_in) result }
{
    match params.get(index as usize) {
        Some(value) => operations::is_ok(alloc, value),
        None => mistyped(alloc),
    }
}

/// Whether the optional that a parameter is is present.
#[tactic(auto, using(crate::proofs::ParamLemmas::known))]
pub(crate) fn param_has(alloc: Global, params: &[Value], index: u32) -> Result<bool, Stop>
    ensures exact { Gave (and_then (param_in params.now index) spec.has_in) result }
{
    match params.get(index as usize) {
        Some(value) => operations::has(alloc, value),
        None => mistyped(alloc),
    }
}

/// What is inside an optional.
fn inside_of(alloc: Global, value: &Value) -> Result<Option<Value>, Stop>
    ensures exact { Gave (spec.or_mistyped (spec.inside_in value.now)) result }
{
    match inside(value) {
        Some(Some(inside)) => Ok(Some(inside.copy()?)),
        Some(None) => Ok(None),
        None => mistyped(alloc),
    }
}

/// What is inside the optional that a parameter is.
#[tactic(auto, using(crate::proofs::ParamLemmas::known))]
pub(crate) fn param_inside(
    alloc: Global,
    params: &[Value],
    index: u32,
) -> Result<Option<Value>, Stop>
    ensures exact { Gave (and_then (param_in params.now index)
        (λ v. spec.or_mistyped (spec.inside_in v))) result }
{
    match params.get(index as usize) {
        Some(value) => inside_of(alloc, value),
        None => mistyped(alloc),
    }
}
