//! How a plan is written.

ghost use Rattle.std.specs.Prelude.{◌≡◌, ◌<◌, ◌^◌, ◌++◌, ◌∷◌, [], suc, IfOk, OnOk, decimal, length};
ghost use Rattle.dg_decl.specs.Components.{class_count};
ghost use Rattle.dg_decl.specs.Graph as graph;
ghost use Rattle.dg_plan.specs.Counted.{head_text, text_of_need, texts_from};
ghost use Rattle.dg_plan.specs.PlanLines as lines;
ghost use Rattle.dg_plan.specs.PlanLines.{plan_lines};

use crate::cells::cell_of;
use crate::inputs::input_of;
use crate::numbers::Numbers;
use dg_decl::{BindGraph, Node, NodeKind};
use dg_deps::{Dependencies, Dependency};
use dg_sites::Sites;
use dg_slots::{CellKind, Input};
use dg_types::{Mode, NoMemory};
use itoa::Buffer;
use std::alloc::Global;

/// The letter of a mode.
fn letter_of(mode: Mode) -> u8
    ensures exact { result ∷ [] ≡ lines.letter_of mode }
{
    match mode {
        Mode::Instance => b'i',
        Mode::Provider => b'p',
        Mode::Lazy => b'l',
        Mode::ProviderLazy => b'q',
        Mode::Produced => b'd',
        Mode::Producer => b'a',
    }
}

/// Appends a number in decimal.
fn push_decimal(number: usize, text: &mut Vec<u8>) -> Result<(), NoMemory>
    ensures exact { OnOk result (text.new.items ≡ text.old.items ++ decimal number) }
{
    let mut buffer = Buffer::new();
    text.extend_from_slice(buffer.format(number).as_bytes())?;
    Ok(())
}

/// Appends how an input is named: by its parameter; of a set or map by the number of its
/// contribution, counted from 1; of others not at all.
fn push_input_name(
    kind: &NodeKind,
    number: usize,
    d: &Dependency<'_>,
    text: &mut Vec<u8>,
) -> Result<(), NoMemory>
    ensures exact { OnOk result
        (text.new.items ≡ text.old.items ++ lines.input_name kind.now number d.now) }
{
    if matches!(kind, NodeKind::Multi(_)) {
        return push_decimal(number, text);
    }
    match d.param {
        Some(name) => {
            text.extend_from_slice(name.as_slice())?;
            Ok(())
        }
        None => Ok(()),
    }
}

/// Appends an input.
fn push_input(
    kind: &NodeKind,
    number: usize,
    d: &Dependency<'_>,
    input: Input,
    text: &mut Vec<u8>,
) -> Result<(), NoMemory>
    ensures exact { OnOk result
        (text.new.items ≡ text.old.items ++ lines.input_text kind.now number d.now input) }
{
    text.push(b' ')?;
    push_input_name(kind, number, d, text)?;
    text.push(b'=')?;
    text.push(letter_of(input.mode))?;
    text.push(b':')?;
    push_decimal(input.slot as usize, text)
}

/// The number of an index, counted from 1. A list of 2^32 members takes more memory than there is,
/// so an index without a number counts as memory that is lacking.
fn number_at(index: usize) -> Result<usize, NoMemory>
    ensures exact { IfOk result (λ number. number ≡ suc index) }
{
    if index < u32::MAX as usize {
        Ok(index + 1)
    } else {
        Err(NoMemory)
    }
}

/// Appends the input for a dependency of this place, where the slot has one.
fn push_need(
    alloc: Global,
    dependencies: &Dependencies<'_>,
    numbers: &Numbers,
    node: &Node,
    index: usize,
    d: &Dependency<'_>,
    text: &mut Vec<u8>,
) -> Result<(), NoMemory>
    requires numbers { numbers.now ≡ graph.nodes dependencies.now }
    ensures exact { OnOk result (text.new.items
        ≡ text.old.items ++ text_of_need dependencies.now node.now index d.now) }
{
    let number = number_at(index)?;
    match input_of(alloc, dependencies, numbers, node, d)? {
        Some(input) => push_input(&node.kind, number, d, input, text),
        None => Ok(()),
    }
}

/// Appends the inputs for the dependencies of a node, in order.
fn push_needs(
    alloc: Global,
    dependencies: &Dependencies<'_>,
    numbers: &Numbers,
    node: &Node,
    needed: &[Dependency<'_>],
    text: &mut Vec<u8>,
) -> Result<(), NoMemory>
    requires numbers { numbers.now ≡ graph.nodes dependencies.now }
    ensures exact { OnOk result (text.new.items ≡ text.old.items
        ++ texts_from (text_of_need dependencies.now node.now) 0 needed.now) }
{
    for (index, d) in needed.iter().enumerate() {
        push_need(alloc, dependencies, numbers, node, index, d, text)?;
    }
    Ok(())
}

/// Appends whether a slot has a cell.
fn push_cell(cell: CellKind, text: &mut Vec<u8>) -> Result<(), NoMemory>
    ensures exact { OnOk result (text.new.items ≡ text.old.items ++ lines.cell_text cell) }
{
    match cell {
        CellKind::Plain => Ok(()),
        CellKind::Scoped => Ok(text.extend_from_slice(b" cell")?),
        CellKind::Producing => Ok(text.extend_from_slice(b" cell")?),
    }
}

/// Appends the number of a slot, its site, and whether it has a cell.
fn push_head(
    sites: &Sites<'_>,
    number: usize,
    node: &Node,
    cell: CellKind,
    text: &mut Vec<u8>,
) -> Result<(), NoMemory>
    ensures exact { OnOk result (text.new.items
        ≡ text.old.items ++ head_text sites.now number node.now cell) }
{
    push_decimal(number, text)?;
    text.push(b' ')?;
    sites.push_site_of_node(node, text)?;
    push_cell(cell, text)
}

/// Appends the line of a slot.
fn push_line(
    alloc: Global,
    dependencies: &Dependencies<'_>,
    sites: &Sites<'_>,
    numbers: &Numbers,
    number: usize,
    node: &Node,
    text: &mut Vec<u8>,
) -> Result<(), NoMemory>
    requires class { node.now.class < class_count dependencies.now }
    requires sites { sites.now ≡ dependencies.now }
    requires numbers { numbers.now ≡ graph.nodes dependencies.now }
    ensures exact { OnOk result (text.new.items
        ≡ text.old.items ++ lines.plan_line dependencies.now number node.now) }
{
    push_head(sites, number, node, cell_of(dependencies.doc(), node), text)?;
    let needed = dependencies.of_node(alloc, node)?;
    push_needs(alloc, dependencies, numbers, node, needed.as_slice(), text)?;
    text.push(b'\n')?;
    Ok(())
}

/// Appends the lines of the slots, in order.
fn push_lines(
    alloc: Global,
    dependencies: &Dependencies<'_>,
    numbers: &Numbers,
    nodes: &[Node],
    text: &mut Vec<u8>,
) -> Result<(), NoMemory>
    requires nodes { nodes.now ≡ graph.nodes dependencies.now }
    requires numbers { numbers.now ≡ graph.nodes dependencies.now }
    ensures exact { OnOk result (text.new.items
        ≡ text.old.items ++ texts_from (lines.plan_line dependencies.now) 0 nodes.now) }
{
    let sites = Sites::of(alloc, dependencies.doc(), dependencies.tree())?;
    for (index, node) in nodes.iter().enumerate() {
        push_line(alloc, dependencies, &sites, numbers, index, node, text)?;
    }
    Ok(())
}

/// The lines of a plan, one for each slot.
pub fn plan_text(
    alloc: Global,
    dependencies: &Dependencies<'_>,
    g: &BindGraph,
) -> Result<Vec<u8>, NoMemory>
    requires nodes { g.now.nodes ≡ graph.nodes dependencies.now }
    requires few { length g.now.nodes < 2 ^ 32 }
    ensures exact { IfOk result (λ text. text.items ≡ plan_lines dependencies.now) }
{
    let nodes = g.nodes.as_slice();
    let numbers = Numbers::of(alloc, nodes)?;
    let mut text = Vec::new(alloc);
    push_lines(alloc, dependencies, &numbers, nodes, &mut text)?;
    Ok(text)
}
