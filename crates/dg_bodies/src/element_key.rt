//! What elements of a set are told apart by.

ghost use Rattle.std.specs.Prelude.{◌≡◌, not, IfOk, OnOk};
ghost use Rattle.dg_bodies.specs.ElementKeys as spec;

use dg_types::{NoMemory, Text};
use dg_value::{Place, Value};
use indexmap::IndexSet;
use std::alloc::Global;

/// What elements are told apart by: a text, an integer, or the identity of an object.
#[derive(Drop, PartialEq, Eq, Hash)]
pub(crate) enum ElementKey {
    Text(Text),
    Int(i64),
    Object(Place),
}

/// What a content is told apart by, where it may be equal to another one.
fn key_of(alloc: Global, content: &Value) -> Result<Option<ElementKey>, NoMemory>
    ensures exact { IfOk result (λ key. key ≡ spec.key_of content.now) }
{
    match content {
        Value::Text(text) => Ok(Some(ElementKey::Text(text.get().copy(alloc)?))),
        Value::Int(n) => Ok(Some(ElementKey::Int(*n))),
        Value::Object { ident, .. } => Ok(Some(ElementKey::Object(ident.copy()?))),
        _ => Ok(None),
    }
}

/// Notes a key, and tells whether it wasn't noted before.
#[tactic(auto, unfolding(crate::specs::ElementKeys::same_key))]
fn note(key: ElementKey, noted: &mut IndexSet<ElementKey>) -> Result<bool, NoMemory>
    ensures exact { IfOk result (λ first. first ≡ not (spec.is_among key noted.old.keys)) }
    ensures noted { OnOk result (noted.new.keys ≡ spec.with_key key noted.old.keys) }
{
    let (_, is_new) = noted.insert_full(key)?;
    Ok(is_new)
}

/// Whether no content that was noted is equal to this one. It is noted then.
pub(crate) fn is_first(
    alloc: Global,
    content: &Value,
    noted: &mut IndexSet<ElementKey>,
) -> Result<bool, NoMemory>
    ensures exact { IfOk result (λ first.
        first ≡ not (spec.is_noted (spec.key_of content.now) noted.old.keys)) }
    ensures noted { OnOk result (noted.new.keys
        ≡ spec.with_noted (spec.key_of content.now) noted.old.keys) }
{
    match key_of(alloc, content)? {
        Some(key) => note(key, noted),
        None => Ok(true),
    }
}
