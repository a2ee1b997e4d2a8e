//! What is made of values that parts of a body gave. Each function takes its values, so that none is
//! left where an evaluation stops.

ghost use Rattle.std.specs.Prelude.{◌≡◌, IfOk};
ghost use Rattle.dg_value.specs.declared.place.PlaceStep.TheVariants as step;
ghost use Rattle.dg_value.specs.declared.value.Value.TheVariants as value;
ghost use Rattle.dg_value.specs.Places.{then_step};
ghost use Rattle.dg_eval.specs.Operations as spec;
ghost use Rattle.dg_requests.specs.Results.{Gave};
ghost use Rattle.dg_bodies.specs.Made.{pair_with, when_counted};

use crate::operations;
use dg_requests::Stop;
use dg_types::{NoMemory, Text};
use dg_value::{Place, PlaceStep, Shared, Value};
use sqlite_items::Items;
use std::alloc::Global;

/// A text as a value.
pub(crate) fn text_value(alloc: Global, text: &Text) -> Result<Value, NoMemory>
    ensures exact { IfOk result (λ v. v ≡ value.Text text.now) }
{
    Ok(Value::Text(Shared::new(alloc, text.copy(alloc)?)?))
}

/// An integer as a value.
pub(crate) fn int_value(n: &i64) -> Value
    ensures exact { result ≡ value.Int n.now }
{
    Value::Int(*n)
}

/// A value and another one, unless that stopped.
pub(crate) fn paired(v: Value, second: Result<Value, Stop>) -> Result<(Value, Value), Stop>
    ensures exact { result ≡ pair_with v second }
{
    match second {
        Ok(w) => Ok((v, w)),
        Err(stop) => Err(stop),
    }
}

/// A value, where what wasn't evaluated was counted.
pub(crate) fn passed<T: Drop>(v: T, counted: Result<(), NoMemory>) -> Result<T, Stop>
    ensures exact { result ≡ when_counted v counted }
{
    match counted {
        Ok(()) => Ok(v),
        Err(NoMemory) => Err(Stop::NoMemory),
    }
}

/// The sum of two integers.
pub(crate) fn sum_of(alloc: Global, origin: u32, pair: (Value, Value)) -> Result<Value, Stop>
    ensures exact { Gave (spec.sum_in origin pair.0 pair.1) result }
{
    operations::sum(alloc, origin, &pair.0, &pair.1)
}

/// Whether two texts or two integers are equal.
pub(crate) fn equal_of(alloc: Global, pair: (Value, Value)) -> Result<bool, Stop>
    ensures exact { Gave (spec.equal_in pair.0 pair.1) result }
{
    operations::equal(alloc, &pair.0, &pair.1)
}

/// Whether the first of two integers is less.
pub(crate) fn less_of(alloc: Global, pair: (Value, Value)) -> Result<bool, Stop>
    ensures exact { Gave (spec.less_in pair.0 pair.1) result }
{
    operations::less(alloc, &pair.0, &pair.1)
}

/// The field of this index of an object.
pub(crate) fn field_in(alloc: Global, index: u32, object: Value) -> Result<Value, Stop>
    ensures exact { Gave (spec.field_in index object) result }
{
    operations::field(alloc, index, &object)
}

/// The object that the `new` of this number makes at a place, with these fields.
pub(crate) fn made_object(
    alloc: Global,
    class: u32,
    place: &Place,
    number: u32,
    fields: Items<Value>,
) -> Result<Value, NoMemory>
    ensures exact { IfOk result (λ v. v
        ≡ value.Object class (then_step place.now (step.New number)) fields) }
{
    let fields = Shared::new(alloc, fields)?;
    let ident = place.then_step(PlaceStep::New(number))?;
    Ok(Value::Object {
        class,
        ident,
        fields,
    })
}
