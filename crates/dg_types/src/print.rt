ghost use Rattle.std.specs.Prelude.{◌≡◌, ◌++◌, IfOk, OnOk};
ghost use Rattle.dg_types.specs.Texts as spec;
ghost use Rattle.dg_types.specs.Requests.{shape_of_base, shape_of_kind, shape_in, shape_of_core};

use crate::key::{Base, Core, Inner, Key, MapKeyVal, MapKind};
use crate::memory::NoMemory;
use crate::shape::{Qualifier, Shape, TypeUse};
use itoa::Buffer;
use std::alloc::Global;

fn push_escaped(out: &mut Vec<u8>, b: u8) -> Result<(), NoMemory>
    ensures exact { OnOk result (out.new.items ≡ out.old.items ++ spec.escaped b) }
{
    if b == b'"' || b == b'\\' {
        out.push(b'\\')?;
    }
    out.push(b)?;
    Ok(())
}

/// Writes a text in quotes behind `out`. After a refusal a part may stand there.
#[tactic(auto, unfolding(crate::specs::Texts::quoted))]
pub fn push_quoted(out: &mut Vec<u8>, text: &[u8]) -> Result<(), NoMemory>
    ensures exact { OnOk result (out.new.items ≡ out.old.items ++ spec.quoted text.now) }
{
    out.push(b'"')?;
    for b in text {
        push_escaped(out, *b)?;
    }
    out.push(b'"')?;
    Ok(())
}

/// Writes an integer in decimal behind `out`.
fn push_integer(out: &mut Vec<u8>, n: i64) -> Result<(), NoMemory>
    ensures exact { OnOk result (out.new.items ≡ out.old.items ++ spec.decimal_of n) }
{
    let mut buffer = Buffer::new();
    out.extend_from_slice(buffer.format(n).as_bytes())?;
    Ok(())
}

/// Writes the key of an entry of a map behind `out`: a text in quotes, or an integer in decimal.
/// After a refusal a part may stand there.
#[tactic(auto, unfolding(crate::specs::Texts::map_key_text))]
pub fn push_map_key_text(out: &mut Vec<u8>, key: &MapKeyVal) -> Result<(), NoMemory>
    ensures exact { OnOk result (out.new.items ≡ out.old.items ++ spec.map_key_text key.now) }
{
    match key {
        MapKeyVal::Text(text) => push_quoted(out, text.as_slice()),
        MapKeyVal::Int(n) => push_integer(out, *n),
    }
}

/// Writes a type behind `out`, as a document spells it without spaces. After a refusal a part may
/// stand there.
#[tactic(auto, unfolding(crate::specs::Texts::shape_text))]
pub fn push_shape_text(out: &mut Vec<u8>, shape: &Shape) -> Result<(), NoMemory>
    ensures exact { OnOk result (out.new.items ≡ out.old.items ++ spec.shape_text shape.now) }
{
    match shape {
        Shape::Text => return Ok(out.extend_from_slice(b"Text")?),
        Shape::Int => return Ok(out.extend_from_slice(b"Int")?),
        Shape::Named(name) => return Ok(out.extend_from_slice(name.as_slice())?),
        Shape::Map(keys, values) => {
            out.extend_from_slice(b"Map<")?;
            push_shape_text(out, keys.get())?;
            out.push(b',')?;
            push_shape_text(out, values.get())?;
        }
        Shape::Set(of) => {
            out.extend_from_slice(b"Set<")?;
            push_shape_text(out, of.get())?;
        }
        Shape::Optional(of) => {
            out.extend_from_slice(b"Optional<")?;
            push_shape_text(out, of.get())?;
        }
        Shape::Provider(of) => {
            out.extend_from_slice(b"Provider<")?;
            push_shape_text(out, of.get())?;
        }
        Shape::Lazy(of) => {
            out.extend_from_slice(b"Lazy<")?;
            push_shape_text(out, of.get())?;
        }
        Shape::Producer(of) => {
            out.extend_from_slice(b"Producer<")?;
            push_shape_text(out, of.get())?;
        }
        Shape::Produced(of) => {
            out.extend_from_slice(b"Produced<")?;
            push_shape_text(out, of.get())?;
        }
    }
    out.push(b'>')?;
    Ok(())
}

/// Writes a qualifier behind `out`.
#[tactic(auto, unfolding(crate::specs::Texts::qualifier_text))]
fn push_qualifier(out: &mut Vec<u8>, qualifier: &Qualifier) -> Result<(), NoMemory>
    ensures exact { OnOk result (out.new.items ≡ out.old.items
        ++ spec.qualifier_text qualifier.now) }
{
    out.push(b'@')?;
    out.extend_from_slice(qualifier.name.as_slice())?;
    match &qualifier.member {
        None => {}
        Some(text) => {
            out.push(b'(')?;
            push_quoted(out, text.as_slice())?;
            out.push(b')')?;
        }
    }
    Ok(())
}

/// Writes a qualifier behind `out` and a space, if there is one.
#[tactic(auto, unfolding(crate::specs::Texts::qualified))]
fn push_qualified(out: &mut Vec<u8>, qualifier: &Option<Qualifier>) -> Result<(), NoMemory>
    ensures exact { OnOk result (out.new.items ≡ out.old.items ++ spec.qualified qualifier.now) }
{
    match qualifier {
        None => Ok(()),
        Some(qualifier) => {
            push_qualifier(out, qualifier)?;
            out.push(b' ')?;
            Ok(())
        }
    }
}

/// Writes a type with its qualifier behind `out`. After a refusal a part may stand there.
#[tactic(auto, unfolding(crate::specs::Texts::use_text))]
pub fn push_use_text(out: &mut Vec<u8>, asked: &TypeUse) -> Result<(), NoMemory>
    ensures exact { OnOk result (out.new.items ≡ out.old.items ++ spec.use_text asked.now) }
{
    push_qualified(out, &asked.qualifier)?;
    push_shape_text(out, &asked.shape)
}

#[tactic(auto, using(crate::proofs::ShapeLemmas::shape_texts))]
fn push_base(out: &mut Vec<u8>, base: &Base) -> Result<(), NoMemory>
    ensures exact { OnOk result (out.new.items ≡ out.old.items
        ++ spec.shape_text (shape_of_base base.now)) }
{
    match base {
        Base::Text => Ok(out.extend_from_slice(b"Text")?),
        Base::Int => Ok(out.extend_from_slice(b"Int")?),
        Base::Named(name) => Ok(out.extend_from_slice(name.as_slice())?),
    }
}

#[tactic(auto, using(crate::proofs::ShapeLemmas::shape_texts))]
fn push_kind(out: &mut Vec<u8>, kind: MapKind) -> Result<(), NoMemory>
    ensures exact { OnOk result (out.new.items ≡ out.old.items
        ++ spec.shape_text (shape_of_kind kind)) }
{
    match kind {
        MapKind::Text => Ok(out.extend_from_slice(b"Text")?),
        MapKind::Int => Ok(out.extend_from_slice(b"Int")?),
    }
}

/// Writes the type that a constructor makes of a base type.
fn push_applied(out: &mut Vec<u8>, constructor: &[u8], base: &Base) -> Result<(), NoMemory>
    ensures exact { OnOk result (out.new.items ≡ out.old.items
        ++ spec.applied constructor.now (spec.shape_text (shape_of_base base.now))) }
{
    out.extend_from_slice(constructor)?;
    out.push(b'<')?;
    push_base(out, base)?;
    out.push(b'>')?;
    Ok(())
}

#[tactic(auto, using(crate::proofs::ShapeLemmas::shape_texts))]
fn push_held(out: &mut Vec<u8>, base: &Base, form: Inner) -> Result<(), NoMemory>
    ensures exact { OnOk result (out.new.items ≡ out.old.items
        ++ spec.shape_text (shape_in form (shape_of_base base.now))) }
{
    match form {
        Inner::Plain => push_base(out, base),
        Inner::Provider => push_applied(out, b"Provider", base),
        Inner::Lazy => push_applied(out, b"Lazy", base),
        Inner::ProviderLazy => {
            out.extend_from_slice(b"Provider<")?;
            push_applied(out, b"Lazy", base)?;
            out.push(b'>')?;
            Ok(())
        }
        Inner::Produced => push_applied(out, b"Produced", base),
    }
}

#[tactic(auto, using(crate::proofs::ShapeLemmas::shape_texts), unfolding(crate::specs::Requests::shape_of_core))]
fn push_core(out: &mut Vec<u8>, core: &Core) -> Result<(), NoMemory>
    ensures exact { OnOk result (out.new.items ≡ out.old.items
        ++ spec.shape_text (shape_of_core core.now)) }
{
    match core {
        Core::One(base) => push_base(out, base),
        Core::Set(base, form) => {
            out.extend_from_slice(b"Set<")?;
            push_held(out, base, *form)?;
            out.push(b'>')?;
            Ok(())
        }
        Core::Map(kind, base, form) => {
            out.extend_from_slice(b"Map<")?;
            push_kind(out, *kind)?;
            out.push(b',')?;
            push_held(out, base, *form)?;
            out.push(b'>')?;
            Ok(())
        }
        Core::Optional(base, form) => {
            out.extend_from_slice(b"Optional<")?;
            push_held(out, base, *form)?;
            out.push(b'>')?;
            Ok(())
        }
    }
}

/// Writes a key behind `out`, as `key_text` does. After a refusal a part may stand there.
#[tactic(auto, unfolding(crate::specs::Texts::key_text, crate::specs::Texts::use_text, crate::specs::Requests::use_of_key))]
pub fn push_key_text(out: &mut Vec<u8>, key: &Key) -> Result<(), NoMemory>
    ensures exact { OnOk result (out.new.items ≡ out.old.items ++ spec.key_text key.now) }
{
    push_qualified(out, &key.qualifier)?;
    push_core(out, &key.core)
}

/// A key as diagnostics print it: the qualifier and a space, if there is one, and the type without
/// spaces. A text in a qualifier is in quotes, with `\` before each `"` and `\`.
pub fn key_text(alloc: Global, key: &Key) -> Result<Vec<u8>, NoMemory>
    ensures exact { IfOk result (λ text. text.items ≡ spec.key_text key.now) }
{
    let mut out = Vec::new(alloc);
    push_key_text(&mut out, key)?;
    Ok(out)
}

/// A type without spaces, as diagnostics print it.
pub fn shape_text(alloc: Global, shape: &Shape) -> Result<Vec<u8>, NoMemory>
    ensures exact { IfOk result (λ text. text.items ≡ spec.shape_text shape.now) }
{
    let mut out = Vec::new(alloc);
    push_shape_text(&mut out, shape)?;
    Ok(out)
}

/// The key of an entry of a map, as it is printed: a text in quotes, or an integer in decimal.
pub fn map_key_text(alloc: Global, key: &MapKeyVal) -> Result<Vec<u8>, NoMemory>
    ensures exact { IfOk result (λ text. text.items ≡ spec.map_key_text key.now) }
{
    let mut out = Vec::new(alloc);
    push_map_key_text(&mut out, key)?;
    Ok(out)
}
