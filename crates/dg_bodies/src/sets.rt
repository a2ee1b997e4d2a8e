//! Sets of values.

ghost use Rattle.std.specs.Prelude.{◌≡◌, ◌≤◌, [], IfOk, map};
ghost use Rattle.std.specs.List.{filter_map};
ghost use Rattle.dg_value.specs.declared.value.Value.{out-Value};
ghost use Rattle.dg_value.specs.declared.value.Value.TheVariants as value;
ghost use Rattle.dg_eval.specs.Bodies as bodies;
ghost use Rattle.dg_eval.specs.Meaning as meaning;
ghost use Rattle.dg_eval.specs.Operations as operations_spec;
ghost use Rattle.dg_eval.specs.Runs.{in_order};
ghost use Rattle.dg_requests.specs.Scopes.{IsClosed};
ghost use Rattle.dg_requests.specs.Results.{CanRun, Ran, Gave};
ghost use Rattle.dg_requests.specs.Depths.{IsBelow};
ghost use Rattle.dg_bodies.specs.ElementKeys.{kept_by};
ghost use Rattle.dg_bodies.specs.Elements as spec;
ghost use Rattle.dg_bodies.specs.Elements.{listed};

use crate::element_key::{ElementKey, is_first};
use crate::parts::{elements, entry_value};
use dg_requests::{Below, Cells, InScope, Stop, look, mistyped};
use dg_types::{MapKeyVal, NoMemory};
use dg_value::{Shared, Value};
use indexmap::IndexSet;
use sqlite_items::Items;
use std::alloc::Global;

/// The content behind each of some values.
pub(crate) fn look_all<S: InScope, C: Cells, B: Below<C>>(
    alloc: Global,
    values: &[Value],
    below: &B,
    depth: u32,
    cells: &mut C,
) -> Result<Vec<Value>, Stop>
    requires below { IsBelow C.scope C.asked B.can_eval B.eval_gives below.now S.scope depth }
    requires deep { depth ≤ 128 }
    requires closed { IsClosed S.scope }
    requires same { C.scope cells.old ≡ S.scope }
    requires can { CanRun S.scope (in_order (map (meaning.look (meaning.eval S.scope.doc depth)
        depth) values.now)) }
    ensures ran { Ran S.scope (in_order (map (meaning.look (meaning.eval S.scope.doc depth) depth)
        values.now)) (C.asked cells.old) (C.asked cells.new) (listed result) }
    ensures same { C.scope cells.new ≡ S.scope }
{
    let mut contents = Vec::new(alloc);
    for value in values {
        let value = value.copy()?;
        contents.push(look::<S, C, B>(alloc, value, depth, below, depth, cells)?)?;
    }
    Ok(contents)
}

/// Copies of some values.
fn copies(alloc: Global, values: &[Value]) -> Result<Vec<Value>, NoMemory>
    ensures exact { IfOk result (λ copies. copies.items ≡ values.now) }
{
    let mut copies = Vec::new(alloc);
    for value in values {
        copies.push(value.copy()?)?;
    }
    Ok(copies)
}

/// Puts the first two values, where there are two, in each other's place.
#[tactic(auto, using(crate::proofs::ElementLemmas::changed_places))]
fn change_places(values: &mut Vec<Value>)
    ensures exact { values.new.items ≡ spec.as_looked_at values.old.items }
{
    if values.len() > 1 {
        values.swap(0, 1);
    }
}

/// Copies of the values in the order in which they are looked at.
fn as_looked_at(alloc: Global, values: &[Value]) -> Result<Vec<Value>, NoMemory>
    ensures exact { IfOk result (λ copies. copies.items ≡ spec.as_looked_at values.now) }
{
    let mut copies = copies(alloc, values)?;
    change_places(&mut copies);
    Ok(copies)
}

/// Of some values with the content behind each, those whose content is equal to none that was noted
/// before it.
fn not_noted(
    alloc: Global,
    values: &[Value],
    contents: &[Value],
    noted: &mut IndexSet<ElementKey>,
) -> Result<Items<Value>, NoMemory>
    ensures exact { IfOk result (λ kept.
        kept ≡ kept_by [] noted.old.keys values.now contents.now) }
{
    let mut kept = Items::new(alloc);
    for (i, value) in values.iter().enumerate() {
        let Some(content) = contents.get(i) else {
            return Ok(kept);
        };
        if is_first(alloc, content, noted)? {
            kept.push(value.copy()?)?;
        }
    }
    Ok(kept)
}

/// Of some values with the content behind each, those whose content is equal to none of a value
/// that was kept before. To look at one takes the time of hashing its content, as a rule.
fn distinct(alloc: Global, values: &[Value], contents: &[Value]) -> Result<Items<Value>, NoMemory>
    ensures exact { IfOk result (λ kept. kept ≡ spec.kept_of [] [] values.now contents.now) }
{
    let mut noted = IndexSet::new(alloc);
    let kept = not_noted(alloc, values, contents, &mut noted)?;
    Ok(kept)
}

/// A set of the values as they are.
fn short_set(alloc: Global, values: &[Value]) -> Result<Value, NoMemory>
    ensures exact { IfOk result (λ set. set ≡ value.Set values.now) }
{
    let elements = Items::from_vec(copies(alloc, values)?);
    Ok(Value::Set(Shared::new(alloc, elements)?))
}

/// The set of some values by the contents behind them, in the order in which they were looked at.
pub(crate) fn set_from(
    alloc: Global,
    values: &[Value],
    contents: Vec<Value>,
) -> Result<Value, NoMemory>
    ensures exact { IfOk result (λ set. set
        ≡ value.Set (spec.kept_of [] [] values.now (spec.as_looked_at contents.items))) }
{
    let mut contents = contents;
    change_places(&mut contents);
    let elements = distinct(alloc, values, contents.as_slice())?;
    Ok(Value::Set(Shared::new(alloc, elements)?))
}

/// The set of some values: of values with equal contents behind them the first is kept. Each is
/// looked at once, where there are two or more.
pub fn set_of<S: InScope, C: Cells, B: Below<C>>(
    alloc: Global,
    values: &[Value],
    below: &B,
    depth: u32,
    cells: &mut C,
) -> Result<Value, Stop>
    requires below { IsBelow C.scope C.asked B.can_eval B.eval_gives below.now S.scope depth }
    requires deep { depth ≤ 128 }
    requires closed { IsClosed S.scope }
    requires same { C.scope cells.old ≡ S.scope }
    requires can { CanRun S.scope (bodies.set_of (meaning.look (meaning.eval S.scope.doc depth)
        depth) values.now) }
    ensures ran { Ran S.scope (bodies.set_of (meaning.look (meaning.eval S.scope.doc depth) depth)
        values.now) (C.asked cells.old) (C.asked cells.new) result }
    ensures same { C.scope cells.new ≡ S.scope }
{
    if values.len() < 2 {
        return Ok(short_set(alloc, values)?);
    }
    let order = as_looked_at(alloc, values)?;
    let contents = look_all::<S, C, B>(alloc, order.as_slice(), below, depth, cells)?;
    Ok(set_from(alloc, values, contents)?)
}

/// The values among the entries of a set.
fn entry_values(alloc: Global, entries: &[Value]) -> Result<Vec<Value>, NoMemory>
    ensures exact { IfOk result (λ values. values.items
        ≡ filter_map operations_spec.entry_value entries.now) }
{
    let mut values = Vec::new(alloc);
    for entry in entries {
        if let Some(value) = entry_value(entry) {
            values.push(value.copy()?)?;
        }
    }
    Ok(values)
}

/// The entry of a map with its value, if it is one.
fn keyed(alloc: Global, entry: &(MapKeyVal, Value)) -> Result<Option<(MapKeyVal, Value)>, NoMemory>
    ensures exact { IfOk result (λ o. o ≡ operations_spec.keyed entry.now) }
{
    match entry_value(&entry.1) {
        Some(value) => Ok(Some((entry.0.copy(alloc)?, value.copy()?))),
        None => Ok(None),
    }
}

/// The entries of a map that are values.
fn keyed_entries(
    alloc: Global,
    entries: &[(MapKeyVal, Value)],
) -> Result<Items<(MapKeyVal, Value)>, NoMemory>
    ensures exact { IfOk result (λ values. values ≡ filter_map operations_spec.keyed entries.now) }
{
    let mut values = Items::new(alloc);
    for entry in entries {
        if let Some(value) = keyed(alloc, entry)? {
            values.push(value)?;
        }
    }
    Ok(values)
}

/// The entries of a map that are values, where a value is one.
fn keyed_at(alloc: Global, v: &Value) -> Result<Value, Stop>
    ensures exact { Gave (spec.keyed_at (out-Value v.now)) result }
{
    match v {
        Value::Map(entries) => {
            let values = keyed_entries(alloc, entries.get().as_slice())?;
            Ok(Value::Map(Shared::new(alloc, values)?))
        }
        _ => mistyped(alloc),
    }
}

/// The entries of a set or map that are values: in a set, of equal ones the first.
pub(crate) fn values_in<S: InScope, C: Cells, B: Below<C>>(
    alloc: Global,
    v: &Value,
    below: &B,
    depth: u32,
    cells: &mut C,
) -> Result<Value, Stop>
    requires below { IsBelow C.scope C.asked B.can_eval B.eval_gives below.now S.scope depth }
    requires deep { depth ≤ 128 }
    requires closed { IsClosed S.scope }
    requires same { C.scope cells.old ≡ S.scope }
    requires can { CanRun S.scope (bodies.values_in (meaning.look (meaning.eval S.scope.doc depth)
        depth) v.now) }
    ensures ran { Ran S.scope (bodies.values_in (meaning.look (meaning.eval S.scope.doc depth)
        depth) v.now) (C.asked cells.old) (C.asked cells.new) result }
    ensures same { C.scope cells.new ≡ S.scope }
{
    match elements(v) {
        Some(entries) => {
            let values = entry_values(alloc, entries)?;
            set_of::<S, C, B>(alloc, values.as_slice(), below, depth, cells)
        }
        None => keyed_at(alloc, v),
    }
}
