//! Walks of direct edges to producers.

ghost use Rattle.std.specs.Prelude.{◌≡◌, [], suc, map, ℕ, Some, IfOk, OnOk, option_map};
ghost use Rattle.dg_decl.specs.declared.document.Doc.{Doc};
ghost use Rattle.dg_decl.specs.declared.graph.Node.{Node};
ghost use Rattle.dg_decl.specs.Graph.{Dependency};
ghost use Rattle.dg_slots.specs.declared.plan.Plan.{Plan as plan_type};
ghost use Rattle.dg_eval.specs.Meaning.{node_in, enough};
ghost use Rattle.dg_requests.specs.Contexts.{IsContextOf, IsInputFor, WalksAreShort, as_look};
ghost use Rattle.dg_exec.specs.Jobs as jobs;
ghost use Rattle.dg_exec.specs.Modes as modes;
ghost use Rattle.dg_exec.specs.Tables as tables;
ghost use Rattle.dg_exec.specs.Walks as spec;

use crate::cells::{CellName, add, has};
use dg_eval::World;
use dg_requests::{Target, slot_in, target_at};
use dg_slots::{CellKind, Input, Plan};
use dg_types::{Mode, NoMemory};
use indexmap::IndexSet;
use std::alloc::Global;

/// Whether a request in this mode is evaluated before the one that makes it.
fn is_direct(mode: Mode) -> bool
    ensures exact { result ≡ modes.is_direct mode }
{
    matches!(mode, Mode::Instance | Mode::Produced)
}

/// Where an input of a slot leads, where it is a direct edge.
fn direct_target(world: &World, inst: u32, input: &Input) -> Option<Target>
    ensures exact { (doc : Doc) (plan : plan_type) → IsContextOf doc plan world.now
        → (k m : ℕ) (n : Node) (d : Dependency) → IsInputFor doc inst k m n d input.now
        → option_map as_look result ≡ spec.direct_target doc inst n d }
{
    if is_direct(input.mode) {
        target_at(world, inst, input)
    } else {
        None
    }
}

/// Whether the slot of this number is a producer, by lists.
fn is_producing(plan: &Plan, slot: u32) -> bool
    ensures exact { result ≡ spec.is_producing_at plan.now.slots slot }
{
    match plan.slots.get(slot as usize) {
        Some(found) => matches!(found.cell, CellKind::Producing),
        None => false,
    }
}

/// Adds the cells of producers to which walks lead that come to this slot: its own, where it is a
/// producer, and else those behind it. They are found already, where it is done.
#[cycle(walks)]
fn follow(
    plan: &Plan,
    world: &World,
    at: Target,
    depth: u32,
    found: &mut IndexSet<CellName>,
    done: &mut IndexSet<CellName>,
) -> Result<(), NoMemory>
    ensures exact { OnOk result ((doc : Doc) → IsContextOf doc plan.now world.now → (n : Node)
        → node_in doc at.inst at.slot ≡ Some n → WalksAreShort doc depth n
        → spec.Walked doc (jobs.led_to doc (jobs.reached doc enough) (as_look at))
        found.old.keys done.old.keys found.new.keys done.new.keys) }
{
    let cell = CellName {
        inst: at.inst,
        slot: at.slot,
    };
    if is_producing(plan, at.slot) {
        add(found, cell)?;
        return Ok(());
    }
    if depth == 0 {
        return Ok(());
    }
    if has(done, cell) {
        return Ok(());
    }
    reach(plan, world, at.inst, at.slot, depth - 1, found, done)?;
    add(done, cell)?;
    Ok(())
}

/// Adds the cells of producers to which walks come that begin with this input of a slot, where it
/// is a direct edge.
#[cycle(walks)]
fn enter(
    plan: &Plan,
    world: &World,
    inst: u32,
    input: &Input,
    depth: u32,
    found: &mut IndexSet<CellName>,
    done: &mut IndexSet<CellName>,
) -> Result<(), NoMemory>
    ensures exact { OnOk result ((doc : Doc) → IsContextOf doc plan.now world.now → (k m : ℕ)
        → (n : Node) (d : Dependency) → IsInputFor doc inst k m n d input.now
        → WalksAreShort doc (suc depth) n
        → spec.Walked doc (jobs.reached_by doc (jobs.reached doc enough) inst n d)
        found.old.keys done.old.keys found.new.keys done.new.keys) }
{
    let Some(at) = direct_target(world, inst, input) else {
        return Ok(());
    };
    follow(plan, world, at, depth, found, done)?;
    Ok(())
}

/// Adds the cells of producers to which walks from a slot come first. No walk from it has more than
/// so many edges.
#[cycle(walks)]
fn reach(
    plan: &Plan,
    world: &World,
    inst: u32,
    slot: u32,
    depth: u32,
    found: &mut IndexSet<CellName>,
    done: &mut IndexSet<CellName>,
) -> Result<(), NoMemory>
    ensures exact { OnOk result ((doc : Doc) → IsContextOf doc plan.now world.now → (n : Node)
        → node_in doc inst slot ≡ Some n → WalksAreShort doc (suc depth) n
        → spec.Walked doc (jobs.reached doc enough inst n)
        found.old.keys done.old.keys found.new.keys done.new.keys) }
{
    let Some(here) = slot_in(plan, world, inst, slot) else {
        return Ok(());
    };
    for input in here.inputs.as_slice() {
        enter(plan, world, inst, input, depth, found, done)?;
    }
    Ok(())
}

/// The cells of producers to which walks from a slot come first, each once.
pub(crate) fn reached(
    alloc: Global,
    plan: &Plan,
    world: &World,
    inst: u32,
    slot: u32,
) -> Result<IndexSet<CellName>, NoMemory>
    ensures exact { IfOk result (λ found. (doc : Doc) → IsContextOf doc plan.now world.now
        → (n : Node) → node_in doc inst slot ≡ Some n
        → found.keys ≡ tables.with_cells [] (map tables.as_name (jobs.reached doc enough inst n))) }
{
    let mut found = IndexSet::new(alloc);
    let mut done = IndexSet::new(alloc);
    reach(plan, world, inst, slot, 128, &mut found, &mut done)?;
    Ok(found)
}
