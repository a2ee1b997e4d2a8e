use crate::operations::{cat, sum};
use crate::parts::{elements, integer, text};
use crate::sets::set_from;
use dg_requests::Stop;
use dg_types::{NoMemory, Text};
use dg_value::{Shared, Value};
use std::alloc::Global;
use std::test::Fail;

/// Some, where the body of slot 7 failed with this message.
fn fails_with(stop: &Stop, message: &[u8]) -> Option<()> {
    match stop {
        Stop::Failed(failure) if failure.origin == 7 && failure.message.get().is(message) => {
            Some(())
        }
        _ => None,
    }
}

/// What the sum of two integers is in the body of slot 7, or None where it is too large.
fn summed(alloc: Global, a: i64, b: i64) -> Result<Option<i64>, Fail> {
    match sum(alloc, 7, &Value::Int(a), &Value::Int(b)) {
        Ok(v) => Ok(Some(integer(&v).ok_or("no integer")?)),
        Err(stop) => {
            fails_with(&stop, b"overflow").ok_or("another stop")?;
            Ok(None)
        }
    }
}

#[test]
fn a_sum_has_64_bits(rt: HostRuntime) -> Result<(), Fail> {
    assert!(rt; summed(rt.alloc(), i64::MAX - 1, 1)? == Some(i64::MAX));
    assert!(rt; summed(rt.alloc(), i64::MAX, 1)?.is_none());
    assert!(rt; summed(rt.alloc(), i64::MIN + 1, -1)? == Some(i64::MIN));
    assert!(rt; summed(rt.alloc(), i64::MIN, -1)?.is_none());
    Ok(())
}

/// A text of so many equal bytes.
fn text_of(alloc: Global, length: usize) -> Result<Value, NoMemory> {
    let mut bytes = Vec::new(alloc);
    for _ in 0..length {
        bytes.push(b'a')?;
    }
    Ok(Value::Text(Shared::new(alloc, Text::from_vec(bytes))?))
}

/// How long two texts of these lengths are together, or None where that is too long.
fn joined(alloc: Global, first: usize, second: usize) -> Result<Option<usize>, Fail> {
    let mut texts = Vec::new(alloc);
    texts.push(text_of(alloc, first)?)?;
    texts.push(text_of(alloc, second)?)?;
    match cat(alloc, 7, texts.as_slice()) {
        Ok(v) => Ok(Some(text(&v).ok_or("no text")?.as_slice().len())),
        Err(stop) => {
            fails_with(&stop, b"text too long").ok_or("another stop")?;
            Ok(None)
        }
    }
}

#[test]
fn a_text_has_4096_bytes_at_most(rt: HostRuntime) -> Result<(), Fail> {
    assert!(rt; joined(rt.alloc(), 4095, 1)? == Some(4096));
    assert!(rt; joined(rt.alloc(), 4096, 1)?.is_none());
    Ok(())
}

fn ints(alloc: Global, numbers: &[i64]) -> Result<Vec<Value>, NoMemory> {
    let mut values = Vec::new(alloc);
    for n in numbers {
        values.push(Value::Int(*n))?;
    }
    Ok(values)
}

#[test]
fn of_equal_values_the_first_is_kept(rt: HostRuntime) -> Result<(), Fail> {
    let values = ints(rt.alloc(), &[1, 2, 3, 4])?;
    let contents = ints(rt.alloc(), &[6, 5, 6, 5])?;
    let set = set_from(rt.alloc(), values.as_slice(), contents)?;
    let kept = elements(&set).ok_or("no set")?;
    assert!(rt; kept.len() == 2);
    assert!(rt; integer(&kept[0]) == Some(1) && integer(&kept[1]) == Some(2));
    Ok(())
}
