//! What is made of the values that a slot is given, where nothing more is asked for.

ghost use Rattle.std.specs.Prelude.{◌≡◌, IfOk};
ghost use Rattle.dg_decl.specs.declared.document.Doc.{Doc};
ghost use Rattle.dg_slots.specs.declared.plan.Plan.{Plan};
ghost use Rattle.dg_value.specs.declared.value.Value.TheVariants as value;
ghost use Rattle.dg_eval.specs.Meaning as meaning;
ghost use Rattle.dg_eval.specs.Operations as spec;
ghost use Rattle.dg_eval.specs.Runs.{gives};
ghost use Rattle.dg_eval.specs.World as worlds;
ghost use Rattle.dg_requests.specs.Contexts.{IsContextOf};
ghost use Rattle.dg_requests.specs.Results.{Gave};

use dg_eval::World;
use dg_requests::{Stop, bound_value, mistyped};
use dg_types::{MapKeyVal, NoMemory};
use dg_value::{Shared, Value};
use sqlite_items::{Items, at};
use std::alloc::Global;

/// The value of a bound argument.
pub fn argument(alloc: Global, world: &World, inst: u32, index: u32) -> Result<Value, Stop>
    ensures exact { (doc : Doc) (plan : Plan) → IsContextOf doc plan world.now
        → Gave (spec.or_mistyped (worlds.bound_value doc inst index)) result }
{
    match bound_value(world, inst, index) {
        Some(value) => Ok(value.copy()?),
        None => mistyped(alloc),
    }
}

/// The one value that is given.
pub fn only(alloc: Global, values: Items<Value>) -> Result<Value, Stop>
    ensures exact { Gave (spec.or_mistyped (spec.only_of values)) result }
{
    let mut values = values;
    if values.len() == 1 {
        Ok(values.remove(0))
    } else {
        mistyped(alloc)
    }
}

/// The optional of what its inside is given.
pub fn optional(alloc: Global, values: Items<Value>) -> Result<Value, Stop>
    ensures exact { Gave (meaning.optional_of values) result }
{
    let mut values = values;
    if values.is_empty() {
        Ok(Value::Opt(None))
    } else {
        Ok(Value::Opt(Some(Shared::new(alloc, values.remove(0))?)))
    }
}

/// The entries of a map: each key with its value.
fn entries(
    alloc: Global,
    keys: &[MapKeyVal],
    values: &[Value],
) -> Result<Items<(MapKeyVal, Value)>, NoMemory>
    ensures exact { IfOk result (λ entries. entries ≡ meaning.pairs keys.now values.now) }
{
    let mut entries = Items::new(alloc);
    for (index, key) in keys.iter().enumerate() {
        let Some(value) = at(values, index) else {
            return Ok(entries);
        };
        entries.push((key.clone()?, value.copy()?))?;
    }
    Ok(entries)
}

/// A map of some values, with the key of each.
pub fn map_of(alloc: Global, keys: &[MapKeyVal], values: &[Value]) -> Result<Value, Stop>
    ensures exact { Gave (gives (value.Map (meaning.pairs keys.now values.now))) result }
{
    Ok(Value::Map(Shared::new(alloc, entries(alloc, keys, values)?)?))
}
