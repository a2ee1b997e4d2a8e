//! The instances that a document opens, by number.

ghost use Rattle.std.specs.Prelude.{◌≡◌, IfOk, option_and_then};
ghost use Rattle.std.specs.List.{filter_map};
ghost use Rattle.dg_slots.specs.Sessions as sessions;

use crate::arguments::given_for;
use crate::numbered::{Numbers, numbered_expr};
use crate::scene::Scene;
use dg_compdep::Instances;
use dg_decl::{Bound, Item, OpenArg};
use dg_names::Statement;
use dg_slots::{Inst, NExpr};
use dg_types::{Name, NoMemory};
use sqlite_items::Items;
use std::alloc::Global;

/// The argument that is given for a bound argument, by numbers.
fn argument_for<'a>(
    alloc: Global,
    numbers: &Numbers<'_, 'a>,
    args: &'a [OpenArg],
    bound: &Bound,
) -> Result<Option<NExpr>, NoMemory>
    ensures exact { IfOk result (λ argument. argument
        ≡ sessions.argument_for numbers.now args.now bound.now) }
{
    match given_for(args, bound.name.as_slice()) {
        Some(arg) => Ok(Some(numbered_expr(alloc, numbers, &[], &arg.value)?)),
        None => Ok(None),
    }
}

/// The arguments in the order of bound arguments.
fn arguments_for<'a>(
    alloc: Global,
    numbers: &Numbers<'_, 'a>,
    args: &'a [OpenArg],
    bounds: &[Bound],
) -> Result<Items<NExpr>, NoMemory>
    ensures exact { IfOk result (λ list. list
        ≡ filter_map (sessions.argument_for numbers.now args.now) bounds.now) }
{
    let mut list = Items::new(alloc);
    for bound in bounds {
        if let Some(argument) = argument_for(alloc, numbers, args, bound)? {
            list.push(argument)?;
        }
    }
    Ok(list)
}

/// The number of the instance of a name that is opened before a statement, where there is a name.
fn instance_of_named(
    instances: &Instances<'_, '_>,
    s: &Statement<'_>,
    name: &Option<Name>,
) -> Option<u32>
    ensures exact { result
        ≡ option_and_then (sessions.instance_before instances.now s.now) name.now }
{
    match name {
        Some(name) => instances.before(s, name.as_slice()),
        None => None,
    }
}

/// The instance that a statement opens.
#[tactic(auto, unfolding(dg_slots::specs::Sessions::inst_of))]
fn inst_of<'a>(
    alloc: Global,
    scene: &Scene<'a>,
    instances: &Instances<'_, '_>,
    numbers: &Numbers<'_, 'a>,
    s: &Statement<'a>,
) -> Result<Option<Inst>, NoMemory>
    requires instances { instances.now ≡ scene.now }
    requires numbers { numbers.now ≡ scene.now }
    ensures exact { IfOk result (λ inst. inst ≡ sessions.inst_of scene.now s.now) }
{
    let Item::OpenLine {
        class,
        parent,
        args,
        ..
    } = s.item
    else {
        return Ok(None);
    };
    let Some(class) = scene.names().class_named(class.as_slice()) else {
        return Ok(None);
    };
    let bound = arguments_for(alloc, numbers, args.as_slice(), scene.bounds(class))?;
    let parent = instance_of_named(instances, s, parent);
    Ok(Some(Inst {
        class,
        parent,
        bound,
    }))
}

/// The instances, in the order of their lines.
#[tactic(auto, unfolding(dg_slots::specs::Sessions::insts_of))]
pub(crate) fn insts_of<'a>(
    alloc: Global,
    scene: &Scene<'a>,
    instances: &Instances<'_, '_>,
    numbers: &Numbers<'_, 'a>,
) -> Result<Items<Inst>, NoMemory>
    requires instances { instances.now ≡ scene.now }
    requires numbers { numbers.now ≡ scene.now }
    ensures exact { IfOk result (λ list. list ≡ sessions.insts_of scene.now) }
{
    let mut list = Items::new(alloc);
    for s in scene.names().statements() {
        if let Some(inst) = inst_of(alloc, scene, instances, numbers, s)? {
            list.push(inst)?;
        }
    }
    Ok(list)
}
