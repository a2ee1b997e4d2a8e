//! The lines of the document, each appended to one list of bytes.

ghost use Rattle.std.specs.Prelude.{◌≡◌, ◌+◌, ◌≤◌, ◌++◌, ◌∷◌, [], IfOk, OnOk, decimal, length, map};
ghost use Rattle.std.specs.List.{range_with_len};
ghost use Rattle.dg_gen.specs.Document as spec;

use crate::memory::NoMemory;
use itoa::Buffer;
use std::alloc::Global;

/// The number of the last integer that has a scope.
const LAST_SCOPED: u32 = 63;

/// How many instances are opened.
const INSTANCES: u32 = 16;

/// How many entry points the component has.
const ENTRIES: u32 = 3;

fn push_decimal(out: &mut Vec<u8>, n: u32) -> Result<(), NoMemory>
    ensures exact { OnOk result (out.new.items ≡ out.old.items ++ decimal n) }
{
    let mut buffer = Buffer::new();
    out.extend_from_slice(buffer.format(n).as_bytes())?;
    Ok(())
}

fn push_line(out: &mut Vec<u8>, text: &[u8]) -> Result<(), NoMemory>
    ensures exact { OnOk result (spec.Adds out.old.items (text.now ∷ []) out.new.items) }
{
    out.extend_from_slice(text)?;
    out.push(b'\n')?;
    Ok(())
}

/// Adds a line in which a number stands between two texts.
fn push_numbered(out: &mut Vec<u8>, head: &[u8], n: u32, tail: &[u8]) -> Result<(), NoMemory>
    ensures exact { OnOk result (spec.Adds out.old.items
        ((head.now ++ decimal n ++ tail.now) ∷ []) out.new.items) }
{
    out.extend_from_slice(head)?;
    push_decimal(out, n)?;
    push_line(out, tail)
}

fn push_scoped(out: &mut Vec<u8>, number: u32) -> Result<(), NoMemory>
    requires { 1 ≤ number }
    ensures exact { OnOk result (spec.Adds out.old.items
        (spec.scoped_line number ∷ []) out.new.items) }
{
    out.extend_from_slice(b"  @G provides s")?;
    push_decimal(out, number)?;
    out.extend_from_slice(b"(a: @Named(\"")?;
    push_decimal(out, number - 1)?;
    out.extend_from_slice(b"\") Int) : @Named(\"")?;
    push_decimal(out, number)?;
    push_line(out, b"\") Int = a + 1")
}

fn push_all_scoped(out: &mut Vec<u8>) -> Result<(), NoMemory>
    ensures exact { OnOk result (spec.Adds out.old.items
        (map spec.scoped_line (range_with_len 1 spec.last_scoped)) out.new.items) }
{
    for before in 0..LAST_SCOPED {
        push_scoped(out, before + 1)?;
    }
    Ok(())
}

fn push_producers(out: &mut Vec<u8>) -> Result<(), NoMemory>
    ensures exact { OnOk result (spec.Adds out.old.items spec.producer_lines out.new.items) }
{
    push_numbered(
        out,
        b"  produces q0(a: @Named(\"",
        LAST_SCOPED,
        b"\") Int) : @Named(\"q0\") Int = a + 1",
    )?;
    push_line(out, b"  produces q1() : @Named(\"q1\") Int = fail(\"q\")")?;
    out.extend_from_slice(
        b"  produces q2(a: @Named(\"q0\") Int, b: @Named(\"q1\") Produced<Int>)",
    )?;
    push_line(out, b" : @Named(\"q2\") Int = if ok(b) then a else a + 1")
}

fn push_module(out: &mut Vec<u8>) -> Result<(), NoMemory>
    ensures exact { OnOk result (spec.Adds out.old.items spec.module_lines out.new.items) }
{
    push_line(out, b"scope G")?;
    push_line(out, b"module Gm {")?;
    push_line(out, b"  @G provides s0() : @Named(\"0\") Int = 1")?;
    push_all_scoped(out)?;
    push_producers(out)?;
    push_line(out, b"}")
}

fn push_component(out: &mut Vec<u8>) -> Result<(), NoMemory>
    ensures exact { OnOk result (spec.Adds out.old.items spec.component_lines out.new.items) }
{
    push_line(out, b"@G component Root modules Gm {")?;
    push_numbered(out, b"  entry e0 : @Named(\"", LAST_SCOPED, b"\") Int")?;
    push_line(out, b"  entry e1 : @Named(\"q2\") Int")?;
    push_line(out, b"  entry e2 : @Named(\"q1\") Int")?;
    push_line(out, b"}")
}

fn push_opens(out: &mut Vec<u8>) -> Result<(), NoMemory>
    ensures exact { OnOk result (spec.Adds out.old.items
        (map spec.open_line (range_with_len 0 spec.instance_count)) out.new.items) }
{
    for instance in 0..INSTANCES {
        push_numbered(out, b"open i", instance, b" : Root")?;
    }
    Ok(())
}

/// Adds the ask that has this many before it.
fn push_ask(out: &mut Vec<u8>, before: u32) -> Result<(), NoMemory>
    ensures exact { OnOk result (spec.Adds out.old.items
        (spec.ask_line (before + 1) ∷ []) out.new.items) }
{
    out.extend_from_slice(b"ask i")?;
    push_decimal(out, before % INSTANCES)?;
    out.extend_from_slice(b".e")?;
    push_decimal(out, before % ENTRIES)?;
    out.push(b'\n')?;
    Ok(())
}

fn push_asks(out: &mut Vec<u8>, n: u32) -> Result<(), NoMemory>
    ensures exact { OnOk result (spec.Adds out.old.items
        (map spec.ask_line (range_with_len 1 n)) out.new.items) }
{
    for before in 0..n {
        push_ask(out, before)?;
    }
    Ok(())
}

/// The document with this many asks, 1 to 20,000: a module with a chain of integers that have a
/// scope and with three producers, one of which fails; a component with an entry point for each
/// end of them; sixteen instances; and asks that take the instances and the entry points in turn.
/// The text is this project's own load, in canonical form. Time and memory grow with its length.
pub fn generate(alloc: Global, n: u32) -> Result<Vec<u8>, NoMemory>
    requires at_least_one { 1 ≤ n }
    requires within { n ≤ spec.ask_limit }
    ensures exact { IfOk result (λ text. text.items ≡ spec.document n) }
{
    let mut out = Vec::new(alloc);
    push_module(&mut out)?;
    push_component(&mut out)?;
    push_opens(&mut out)?;
    push_asks(&mut out, n)?;
    Ok(out)
}

/// A law: the lines of the document are those of its integers with a scope, its entry points, its
/// instances and its asks, and nine more: the scope, the first lines of the module and of the
/// component, the integer on which the others rest, three producers and two ends of blocks.
pub fn lines_of_generated(n: u32)
    ensures exact { length (spec.lines n)
        ≡ spec.last_scoped + spec.entry_count + spec.instance_count + n + 9 }
{}
