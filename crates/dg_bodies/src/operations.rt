//! What bodies do with values that aren't held.

ghost use Rattle.std.specs.Prelude.{◌≡◌, IfOk};
ghost use Rattle.dg_value.specs.declared.value.Value.{out-Value};
ghost use Rattle.dg_eval.specs.Operations as spec;
ghost use Rattle.dg_requests.specs.Results.{Gave};

use crate::parts;
use dg_requests::{Stop, failed, mistyped};
use dg_types::{NoMemory, Text};
use dg_value::{Failure, Kept, Shared, Value};
use itoa::Buffer;
use std::alloc::Global;

/// The sum of two integers.
pub fn sum(alloc: Global, origin: u32, v: &Value, w: &Value) -> Result<Value, Stop>
    ensures exact { Gave (spec.sum_in origin v.now w.now) result }
{
    match (parts::integer(v), parts::integer(w)) {
        (Some(a), Some(b)) => match a.checked_add(b) {
            Some(sum) => Ok(Value::Int(sum)),
            None => failed(alloc, origin, b"overflow"),
        },
        _ => mistyped(alloc),
    }
}

/// Whether the one integer is less than the other.
pub fn less(alloc: Global, v: &Value, w: &Value) -> Result<bool, Stop>
    ensures exact { Gave (spec.less_in v.now w.now) result }
{
    match (parts::integer(v), parts::integer(w)) {
        (Some(a), Some(b)) => Ok(a < b),
        _ => mistyped(alloc),
    }
}

/// Whether two texts or two integers are equal.
pub fn equal(alloc: Global, v: &Value, w: &Value) -> Result<bool, Stop>
    ensures exact { Gave (spec.equal_in v.now w.now) result }
{
    match (v, w) {
        (Value::Text(a), Value::Text(b)) => Ok(a.get() == b.get()),
        (Value::Int(a), Value::Int(b)) => Ok(a == b),
        _ => mistyped(alloc),
    }
}

/// An integer in decimal.
pub fn decimal(alloc: Global, v: &Value) -> Result<Value, Stop>
    ensures exact { Gave (spec.decimal_of (spec.int_in v.now)) result }
{
    match parts::integer(v) {
        Some(n) => {
            let mut buffer = Buffer::new();
            let text = Text::from_slice(alloc, buffer.format(n).as_bytes())?;
            Ok(Value::Text(Shared::new(alloc, text)?))
        }
        None => mistyped(alloc),
    }
}

/// The failure of a body with a text as its message.
pub fn fail(alloc: Global, origin: u32, v: &Value) -> Result<Value, Stop>
    ensures exact { Gave (spec.fail_of origin (spec.text_in v.now)) result }
{
    match v {
        Value::Text(message) => Err(Stop::Failed(Failure {
            origin,
            message: message.share()?,
        })),
        _ => mistyped(alloc),
    }
}

/// A text that isn't too long.
fn text_within(alloc: Global, origin: u32, bytes: Vec<u8>) -> Result<Value, Stop>
    ensures exact { Gave (spec.text_within origin bytes.items) result }
{
    if bytes.len() > 4096 {
        return failed(alloc, origin, b"text too long");
    }
    Ok(Value::Text(Shared::new(alloc, Text::from_vec(bytes))?))
}

/// Some texts one behind the other.
pub fn cat(alloc: Global, origin: u32, values: &[Value]) -> Result<Value, Stop>
    ensures exact { Gave (spec.cat_in origin values.now) result }
{
    let mut bytes = Vec::new(alloc);
    for value in values {
        match parts::text(value) {
            Some(text) => bytes.extend_from_slice(text.as_slice())?,
            None => return mistyped(alloc),
        }
    }
    text_within(alloc, origin, bytes)
}

/// How many bytes a text, elements a set or entries a map has.
pub fn size(alloc: Global, v: &Value) -> Result<Value, Stop>
    ensures exact { Gave (spec.size_at (out-Value v.now)) result }
{
    match v {
        Value::Text(text) => Ok(Value::Int(text.get().as_slice().len() as i64)),
        Value::Set(elements) => Ok(Value::Int(elements.get().as_slice().len() as i64)),
        Value::Map(entries) => Ok(Value::Int(entries.get().as_slice().len() as i64)),
        _ => mistyped(alloc),
    }
}

/// The field of this index of an object.
pub fn field(alloc: Global, index: u32, v: &Value) -> Result<Value, Stop>
    ensures exact { Gave (spec.field_in index v.now) result }
{
    match parts::field(v, index) {
        Some(field) => Ok(field.copy()?),
        None => mistyped(alloc),
    }
}

/// What a production gave, or its failure.
fn value_of_kept(kept: &Kept) -> Result<Value, Stop>
    ensures exact { Gave (spec.value_of_kept kept.now) result }
{
    match kept {
        Kept::Value(value) => Ok(value.copy()?),
        Kept::Failed(failure) => Err(Stop::Failed(failure.copy()?)),
    }
}

/// The value of a production, or its failure.
pub fn value(alloc: Global, v: &Value) -> Result<Value, Stop>
    ensures exact { Gave (spec.value_in v.now) result }
{
    match parts::production(v) {
        Some(kept) => value_of_kept(kept),
        None => mistyped(alloc),
    }
}

/// The message of a production that failed, and no bytes of one that gave a value.
fn message_of(alloc: Global, kept: &Kept) -> Result<Shared<Text>, NoMemory>
    ensures exact { IfOk result (λ text. text ≡ spec.message_of kept.now) }
{
    match kept {
        Kept::Value(_) => Shared::new(alloc, Text::from_vec(Vec::new(alloc))),
        Kept::Failed(failure) => failure.message.share(),
    }
}

/// The message of a production that failed, and no bytes of one that gave a value.
pub fn failure(alloc: Global, v: &Value) -> Result<Value, Stop>
    ensures exact { Gave (spec.failure_in v.now) result }
{
    match parts::production(v) {
        Some(kept) => Ok(Value::Text(message_of(alloc, kept)?)),
        None => mistyped(alloc),
    }
}

/// Whether a production gave a value.
pub fn is_ok(alloc: Global, v: &Value) -> Result<bool, Stop>
    ensures exact { Gave (spec.is_ok_in v.now) result }
{
    match parts::production(v) {
        Some(kept) => Ok(parts::value_if(kept).is_some()),
        None => mistyped(alloc),
    }
}

/// Whether an optional is present.
pub fn has(alloc: Global, v: &Value) -> Result<bool, Stop>
    ensures exact { Gave (spec.has_in v.now) result }
{
    match parts::inside(v) {
        Some(inside) => Ok(inside.is_some()),
        None => mistyped(alloc),
    }
}
