//! How a value is written.

ghost use Rattle.std.specs.Prelude.{◌≡◌, IfOk, OnOk, is_some, slice_get};
ghost use Rattle.dg_eval.specs.Report.{value_fields};
ghost use Rattle.dg_report.specs.Output as spec;
ghost use Rattle.dg_report.specs.Shown as shown;

use crate::classes::ClassNames;
use crate::output::Output;
use dg_types::{MapKeyVal, NoMemory};
use dg_value::{Contents, Kept, Place, Shared, Value};

/// Appends a value, through at most so many cells. An object that appeared before isn't entered.
#[cycle(values)]
#[tactic(auto, using(crate::proofs::ShownLemmas::value_forms))]
pub(crate) fn push_value<C: Contents>(
    names: &ClassNames<'_>,
    cells: &C,
    left: u32,
    v: &Value,
    out: &mut Output,
) -> Result<(), NoMemory>
    ensures exact { OnOk result (out.new
        ≡ shown.with_value names.now (C.content cells.now) left out.old v.now) }
    ensures kept { out.new.before ≡ out.old.before }
{
    match v {
        Value::Text(text) => out.push_quoted(text.get().as_slice()),
        Value::Int(n) => out.push_integer(*n),
        Value::Object {
            class,
            ident,
            fields,
        } => push_object(
            names,
            cells,
            left,
            *class,
            ident,
            fields.get().as_slice(),
            out,
        ),
        Value::Held { inst, slot } => push_cell(names, cells, left, *inst, *slot, out),
        Value::Set(elements) => push_set(names, cells, left, elements.get().as_slice(), out),
        Value::Map(entries) => push_map(names, cells, left, entries.get().as_slice(), out),
        Value::Provider { .. } => out.push(b"Provider"),
        Value::ProviderLazy { .. } => out.push(b"Provider"),
        Value::Lazy { .. } => out.push(b"Lazy"),
        Value::Opt(inside) => push_inside(names, cells, left, inside, out),
        Value::Outcome(kept) => push_kept(names, cells, left, kept.get(), out),
    }
}

/// Appends an object: with its fields, where it is new.
#[cycle(values)]
fn push_object<C: Contents>(
    names: &ClassNames<'_>,
    cells: &C,
    left: u32,
    class: u32,
    ident: &Place,
    fields: &[Value],
    out: &mut Output,
) -> Result<(), NoMemory>
    ensures exact { OnOk result (out.new ≡ spec.with_object names.now
        (λ o. spec.with_fields (shown.with_value names.now (C.content cells.now) left)
        (value_fields names.now class) 0 o fields.now) class ident.now out.old) }
    ensures kept { out.new.before ≡ out.old.before }
{
    out.push(names.name(class))?;
    out.push(b"#")?;
    if out.push_number(ident)? {
        out.push(b"{")?;
        push_fields(names, cells, left, class, fields, out)?;
        out.push(b"}")?;
    }
    Ok(())
}

/// Appends the name of the field of this index of a class and what stands around it, and tells
/// whether there is one.
fn push_field_name(
    names: &ClassNames<'_>,
    class: u32,
    index: usize,
    out: &mut Output,
) -> Result<bool, NoMemory>
    ensures exact { OnOk result (out.new ≡ spec.with_name_of
        (slice_get (value_fields names.now class) index) index out.old) }
    ensures there { IfOk result (λ there. there
        ≡ is_some (slice_get (value_fields names.now class) index)) }
    ensures kept { out.new.before ≡ out.old.before }
{
    match names.field(class, index) {
        Some(name) => {
            out.push_comma(index)?;
            out.push(name)?;
            out.push(b"=")?;
            Ok(true)
        }
        None => Ok(false),
    }
}

/// Appends the fields of an object, each behind its name.
#[cycle(values)]
fn push_fields<C: Contents>(
    names: &ClassNames<'_>,
    cells: &C,
    left: u32,
    class: u32,
    fields: &[Value],
    out: &mut Output,
) -> Result<(), NoMemory>
    ensures exact { OnOk result (out.new ≡ spec.with_fields
        (shown.with_value names.now (C.content cells.now) left) (value_fields names.now class) 0
        out.old fields.now) }
    ensures kept { out.new.before ≡ out.old.before }
{
    for (index, field) in fields.iter().enumerate() {
        if !push_field_name(names, class, index, out)? {
            return Ok(());
        }
        push_value(names, cells, left, field, out)?;
    }
    Ok(())
}

/// Appends a set.
#[cycle(values)]
fn push_set<C: Contents>(
    names: &ClassNames<'_>,
    cells: &C,
    left: u32,
    elements: &[Value],
    out: &mut Output,
) -> Result<(), NoMemory>
    ensures exact { OnOk result (out.new ≡ spec.with_set
        (shown.with_value names.now (C.content cells.now) left) out.old elements.now) }
    ensures kept { out.new.before ≡ out.old.before }
{
    out.push(b"[")?;
    for (index, element) in elements.iter().enumerate() {
        out.push_comma(index)?;
        push_value(names, cells, left, element, out)?;
    }
    out.push(b"]")
}

/// Appends a map.
#[cycle(values)]
fn push_map<C: Contents>(
    names: &ClassNames<'_>,
    cells: &C,
    left: u32,
    entries: &[(MapKeyVal, Value)],
    out: &mut Output,
) -> Result<(), NoMemory>
    ensures exact { OnOk result (out.new ≡ spec.with_map
        (shown.with_value names.now (C.content cells.now) left) out.old entries.now) }
    ensures kept { out.new.before ≡ out.old.before }
{
    out.push(b"{")?;
    for (index, entry) in entries.iter().enumerate() {
        out.push_comma(index)?;
        out.push_key(&entry.0)?;
        out.push(b":")?;
        push_value(names, cells, left, &entry.1, out)?;
    }
    out.push(b"}")
}

/// Appends an optional.
#[cycle(values)]
fn push_inside<C: Contents>(
    names: &ClassNames<'_>,
    cells: &C,
    left: u32,
    inside: &Option<Shared<Value>>,
    out: &mut Output,
) -> Result<(), NoMemory>
    ensures exact { OnOk result (out.new ≡ spec.with_inside
        (shown.with_value names.now (C.content cells.now) left) out.old inside.now) }
    ensures kept { out.new.before ≡ out.old.before }
{
    match inside {
        None => out.push(b"none"),
        Some(inside) => {
            out.push(b"some(")?;
            push_value(names, cells, left, inside.get(), out)?;
            out.push(b")")
        }
    }
}

/// Appends the content of a cell, through at most so many cells.
#[cycle(values)]
fn push_cell<C: Contents>(
    names: &ClassNames<'_>,
    cells: &C,
    left: u32,
    inst: u32,
    slot: u32,
    out: &mut Output,
) -> Result<(), NoMemory>
    ensures exact { OnOk result (out.new
        ≡ shown.with_cell names.now (C.content cells.now) left inst slot out.old) }
    ensures kept { out.new.before ≡ out.old.before }
{
    if left == 0 {
        return Ok(());
    }
    match cells.kept(inst, slot) {
        Some(kept) => push_kept(names, cells, left - 1, kept, out),
        None => Ok(()),
    }
}

/// Appends what a cell keeps: a value, or the message of a failure.
#[cycle(values)]
#[tactic(auto, using(crate::proofs::ShownLemmas::kept_forms))]
fn push_kept<C: Contents>(
    names: &ClassNames<'_>,
    cells: &C,
    left: u32,
    kept: &Kept,
    out: &mut Output,
) -> Result<(), NoMemory>
    ensures exact { OnOk result (out.new
        ≡ shown.with_kept names.now (C.content cells.now) left out.old kept.now) }
    ensures kept { out.new.before ≡ out.old.before }
{
    match kept {
        Kept::Value(value) => push_value(names, cells, left, value, out),
        Kept::Failed(failure) => out.push_quoted(failure.message.get().as_slice()),
    }
}
