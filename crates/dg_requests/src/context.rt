//! What is looked up by number, in the plan of a document and its world.

ghost use Rattle.std.specs.Prelude.{
  ◌≡◌,
  ◌<◌,
  ℕ,
  true,
  false,
  Option,
  Some,
  IsSome,
  option_map,
  option_and_then,
  slice_get,
};
ghost use Rattle.std.specs.Option.{option_copied, option_map_or};
ghost use Rattle.dg_decl.specs.declared.document.Doc.{Doc};
ghost use Rattle.dg_decl.specs.declared.graph.Node.{Node};
ghost use Rattle.dg_decl.specs.Components.{walk};
ghost use Rattle.dg_decl.specs.Graph.{Dependency};
ghost use Rattle.dg_decl.specs.Sizes.{is_entry, is_production};
ghost use Rattle.dg_slots.specs.declared.plan.Plan.{Plan as plan_type};
ghost use Rattle.dg_slots.specs.Plans.{slot_of};
ghost use Rattle.dg_eval.specs.declared.world.World.{World as world_type};
ghost use Rattle.dg_eval.specs.World as spec;
ghost use Rattle.dg_eval.specs.Meaning as meaning;
ghost use Rattle.dg_requests.specs.Contexts.{
  IsContextOf,
  IsInputFor,
  as_look,
  slot_there,
  is_kept_at,
  value_at,
  counted_at,
  parent_at,
  is_producing,
  gives_first_param,
  as_instance,
  passed_by,
  IsBound,
  WalksAreShort,
  IsBehind,
};

use dg_eval::World;
use dg_slots::{Body, CellKind, Input, NExpr, NTree, Plan, Slot};
use dg_types::Mode;
use dg_value::Value;

/// A slot in an instance, by their numbers.
#[derive(Clone, Copy)]
pub struct Target {
    pub inst: u32,
    pub slot: u32,
}

/// The slot of this number, where the instance of this number is one of its class, by lists.
fn slot_of_class<'a>(plan: &'a Plan, world: &World, inst: u32, slot: u32) -> Option<&'a Slot>
    ensures exact { option_copied result ≡ slot_there plan.now.slots world.now.class inst slot }
{
    let Some(found) = plan.slots.get(slot as usize) else {
        return None;
    };
    let Some(class) = world.class.get(inst as usize) else {
        return None;
    };
    if *class == found.class {
        Some(found)
    } else {
        None
    }
}

/// The slot of this number, where the instance of this number is one of its class.
pub fn slot_in<'a>(plan: &'a Plan, world: &World, inst: u32, slot: u32) -> Option<&'a Slot>
    ensures exact { (doc : Doc) → IsContextOf doc plan.now world.now
        → option_copied result ≡ option_map (slot_of doc) (meaning.node_in doc inst slot) }
{
    slot_of_class(plan, world, inst, slot)
}

/// Whether the slot of this number keeps its value, by lists.
fn keeps(plan: &Plan, slot: u32) -> bool
    ensures exact { result ≡ is_kept_at plan.now.slots slot }
{
    match plan.slots.get(slot as usize) {
        Some(found) => !matches!(found.cell, CellKind::Plain),
        None => false,
    }
}

/// Whether the slot of this number keeps its value.
pub fn is_cell(plan: &Plan, slot: u32) -> bool
    ensures exact { (doc : Doc) (world : world_type) → IsContextOf doc plan.now world
        → result ≡ meaning.is_cell doc slot }
{
    keeps(plan, slot)
}

/// The value of the bound argument of this index of an instance, by lists.
fn bound_at<'a>(world: &'a World, inst: u32, index: u32) -> Option<&'a Value>
    ensures exact { option_copied result ≡ value_at world.now.bound inst index }
{
    match world.bound.get(inst as usize) {
        Some(values) => values.get(index as usize),
        None => None,
    }
}

/// The value of the bound argument of this index of an instance.
pub fn bound_value<'a>(world: &'a World, inst: u32, index: u32) -> Option<&'a Value>
    ensures exact { (doc : Doc) (plan : plan_type) → IsContextOf doc plan world.now
        → option_copied result ≡ spec.bound_value doc inst index }
{
    bound_at(world, inst, index)
}

/// The number of the instance in which an instance was opened.
fn parent_of(world: &World, inst: u32) -> Option<u32>
    ensures exact { result ≡ parent_at world.now.parent inst }
{
    match world.parent.get(inst as usize) {
        Some(parent) => *parent,
        None => None,
    }
}

/// The instance so many parents up from another one.
fn parent_up(world: &World, inst: u32, level: u32) -> Option<u32>
    ensures exact { (steps : ℕ) → level < steps
        → result ≡ slice_get (walk (parent_at world.now.parent) steps (Some inst)) level }
{
    let mut at = inst;
    for step in 0..level {
        let _ = step;
        match parent_of(world, at) {
            Some(parent) => at = parent,
            None => return None,
        }
    }
    Some(at)
}

/// The instance to which an instance is tied for a dependency of its class.
fn tied_to(world: &World, inst: u32, dep: u32) -> Option<u32>
    ensures exact { result
        ≡ option_and_then (λ insts. slice_get insts dep) (slice_get world.now.deps inst) }
{
    match world.deps.get(inst as usize) {
        Some(insts) => insts.get(dep as usize).copied(),
        None => None,
    }
}

/// The instance from which the levels of an input are counted.
fn counted_from(world: &World, inst: u32, dep: Option<u32>) -> Option<u32>
    ensures exact { result ≡ counted_at world.now.deps inst dep }
{
    match dep {
        Some(dep) => tied_to(world, inst, dep),
        None => Some(inst),
    }
}

/// Where an input of a slot leads, in an instance of the slot's class.
pub fn target_at(world: &World, inst: u32, input: &Input) -> Option<Target>
    ensures exact { (doc : Doc) (plan : plan_type) → IsContextOf doc plan world.now
        → (k m : ℕ) (n : Node) (d : Dependency) → IsInputFor doc inst k m n d input.now
        → option_map as_look result ≡ meaning.target_of doc inst n d }
    ensures found { (doc : Doc) (plan : plan_type) → IsContextOf doc plan world.now
        → (k m : ℕ) (n : Node) (d : Dependency) → IsInputFor doc inst k m n d input.now
        → IsSome result }
{
    match counted_from(world, inst, input.dep) {
        Some(from) => match parent_up(world, from, input.level) {
            Some(inst) => Some(Target {
                inst,
                slot: input.slot,
            }),
            None => None,
        },
        None => None,
    }
}

/// Whether a slot is a producer.
fn is_producer(slot: &Slot) -> bool
    ensures exact { result ≡ is_producing slot.now.cell }
{
    matches!(slot.cell, CellKind::Producing)
}

/// Whether a body gives its first parameter.
fn gives_parameter(body: &Body) -> bool
    ensures exact { result ≡ gives_first_param body.now }
{
    match body {
        Body::Run(NTree::Leaf(NExpr::Param(param))) => *param == 0,
        _ => false,
    }
}

/// The first input of a slot, where it asks for an instance.
fn first_instance(slot: &Slot) -> Option<&Input>
    ensures exact { option_copied result
        ≡ option_and_then as_instance (slice_get slot.now.inputs 0) }
{
    match slot.inputs.get(0) {
        Some(input) => match input.mode {
            Mode::Instance => Some(input),
            _ => None,
        },
        None => None,
    }
}

/// The input that a slot passes on: its first, where it gives that alone.
fn passed_input(slot: &Slot) -> Option<&Input>
    ensures exact { option_copied result ≡ passed_by slot.now }
{
    if matches!(slot.cell, CellKind::Plain) && gives_parameter(&slot.body) {
        first_instance(slot)
    } else {
        None
    }
}

/// The producer behind a slot from which no walk has more than so many nodes.
fn producer_within(plan: &Plan, world: &World, at: Target, steps: u32) -> Option<Target>
    ensures exact { (doc : Doc) → IsContextOf doc plan.now world.now → (n : Node)
        → meaning.node_in doc at.inst at.slot ≡ Some n → WalksAreShort doc steps n
        → (is_production doc n ≡ true → IsBound n.kind) → IsBehind doc at.inst at.slot n result }
{
    let Some(slot) = slot_in(plan, world, at.inst, at.slot) else {
        return None;
    };
    if is_producer(slot) {
        return Some(at);
    }
    if steps == 0 {
        return None;
    }
    let Some(input) = passed_input(slot) else {
        return None;
    };
    let Some(next) = target_at(world, at.inst, input) else {
        return None;
    };
    producer_within(plan, world, next, steps - 1)
}

/// The producer to which an `await` of a slot leads, where the slot is a production: none else.
pub fn producer_behind(plan: &Plan, world: &World, inst: u32, slot: u32) -> Option<Target>
    ensures exact { (doc : Doc) → IsContextOf doc plan.now world.now → (n : Node)
        → meaning.node_in doc inst slot ≡ Some n → is_entry n ≡ false
        → (is_production doc n ≡ true → IsBound n.kind) → IsBehind doc inst slot n result }
{
    producer_within(plan, world, Target { inst, slot }, 128)
}
