//! The parts of values.

ghost use Rattle.std.specs.Prelude.{◌≡◌, option_map};
ghost use Rattle.std.specs.Option.{option_copied};
ghost use Rattle.dg_value.specs.declared.value.Value.{out-Value};
ghost use Rattle.dg_eval.specs.Operations as spec;

use dg_types::{MapKeyVal, Text};
use dg_value::{Kept, Value};

/// The integer that a value is.
pub fn integer(value: &Value) -> Option<i64>
    ensures exact { result ≡ spec.int_in value.now }
{
    match value {
        Value::Int(n) => Some(*n),
        _ => None,
    }
}

/// The text that a value is.
pub fn text(value: &Value) -> Option<&Text>
    ensures exact { option_copied result ≡ spec.text_in value.now }
{
    match value {
        Value::Text(t) => Some(t.get()),
        _ => None,
    }
}

/// The field of this index of an object.
pub fn field(value: &Value, index: u32) -> Option<&Value>
    ensures exact { option_copied result ≡ spec.field_at index (out-Value value.now) }
{
    match value {
        Value::Object { fields, .. } => fields.get().get(index as usize),
        _ => None,
    }
}

/// The elements of a set.
pub fn elements(value: &Value) -> Option<&[Value]>
    ensures exact { option_copied result ≡ spec.elements_at (out-Value value.now) }
{
    match value {
        Value::Set(elements) => Some(elements.get().as_slice()),
        _ => None,
    }
}

/// What became of a production.
pub fn production(value: &Value) -> Option<&Kept>
    ensures exact { option_copied result ≡ spec.kept_in value.now }
{
    match value {
        Value::Outcome(kept) => Some(kept.get()),
        _ => None,
    }
}

/// What is inside an optional, if it is present.
pub fn inside(value: &Value) -> Option<Option<&Value>>
    ensures exact { option_map (λ o. option_copied o) result ≡ spec.inside_in value.now }
{
    match value {
        Value::Opt(None) => Some(None),
        Value::Opt(Some(inside)) => Some(Some(inside.get())),
        _ => None,
    }
}

/// The value of a production that gave one.
pub fn value_if(kept: &Kept) -> Option<&Value>
    ensures exact { option_copied result ≡ spec.value_if kept.now }
{
    match kept {
        Kept::Value(value) => Some(value),
        Kept::Failed(_) => None,
    }
}

/// The value of an entry that is one.
pub fn entry_value(value: &Value) -> Option<&Value>
    ensures exact { option_copied result ≡ spec.entry_value value.now }
{
    match production(value) {
        Some(kept) => value_if(kept),
        None => None,
    }
}

/// The value of a map's entry with this key.
#[tactic(auto, unfolding(dg_types::specs::Equality::same_map_key))]
pub fn entry_with<'a>(entries: &'a [(MapKeyVal, Value)], key: &MapKeyVal) -> Option<&'a Value>
    ensures exact { option_copied result ≡ spec.entry_of key.now entries.now }
{
    for entry in entries {
        if entry.0 == *key {
            return Some(&entry.1);
        }
    }
    None
}
