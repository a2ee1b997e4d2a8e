//! What a document asks, by number.

ghost use Rattle.std.specs.Prelude.{◌≡◌, [], IfOk, option_and_then};
ghost use Rattle.std.specs.Option.{option_map_or};
ghost use Rattle.dg_decl.specs.Names as declared;
ghost use Rattle.dg_decl.specs.Stages.Session as stage;
ghost use Rattle.dg_slots.specs.Sessions as sessions;

use crate::entries::{asked_entry, type_of_entry};
use crate::numbered::{Numbers, as_number};
use crate::paths::Spot;
use crate::scene::Scene;
use dg_compdep::{Instances, class_of_instance};
use dg_decl::{AskStep, Item};
use dg_names::Statement;
use dg_slots::{Ask, PathStep};
use dg_types::{NoMemory, Shape};
use sqlite_items::Items;
use std::alloc::Global;

/// A step from a value of a type by number.
fn numbered_step(
    alloc: Global,
    numbers: &Numbers<'_, '_>,
    spot: &Spot<'_>,
    step: &AskStep,
) -> Result<PathStep, NoMemory>
    ensures exact { IfOk result (λ n. n ≡ sessions.numbered_step numbers.now spot.now step.now) }
{
    match step {
        AskStep::Field(field) => {
            let field = numbers.field_number(spot.class_of_object(), field.as_slice())?;
            Ok(PathStep::Field(field))
        }
        AskStep::Get => Ok(PathStep::Get),
        AskStep::Inside => Ok(PathStep::Inside),
        AskStep::At(key) => Ok(PathStep::At(key.copy(alloc)?)),
    }
}

/// The steps from a value of a type, up to the first that doesn't fit.
fn path_from<'a>(
    alloc: Global,
    numbers: &Numbers<'_, 'a>,
    shape: &'a Shape,
    steps: &[AskStep],
) -> Result<Items<PathStep>, NoMemory>
    ensures exact { IfOk result (λ list. list
        ≡ sessions.path_from numbers.now shape.now steps.now) }
{
    let mut list = Items::new(alloc);
    let mut spot = Spot::whole(shape);
    for step in steps {
        list.push(numbered_step(alloc, numbers, &spot, step)?)?;
        match spot.behind(numbers.names(), step) {
            Some(next) => spot = next,
            None => return Ok(list),
        }
    }
    Ok(list)
}

/// The steps of an `ask` line from the value of an entry.
fn path_of_entry<'a>(
    alloc: Global,
    numbers: &Numbers<'_, 'a>,
    entry: &'a Item,
    steps: &[AskStep],
) -> Result<Items<PathStep>, NoMemory>
    ensures exact { IfOk result (λ list. list ≡ option_map_or
        (λ u. sessions.path_from numbers.now u.shape steps.now) (declared.result_of entry.now) []) }
{
    match type_of_entry(entry) {
        Some(shape) => Ok(path_from(alloc, numbers, shape, steps)?),
        None => Ok(Items::new(alloc)),
    }
}

/// The steps of an `ask` line from the value of the entry that it asks for.
fn path_of<'a>(
    alloc: Global,
    scene: &Scene<'a>,
    numbers: &Numbers<'_, 'a>,
    s: &Statement<'_>,
    inst: &[u8],
    entry: &[u8],
    steps: &[AskStep],
) -> Result<Items<PathStep>, NoMemory>
    requires numbers { numbers.now ≡ scene.now }
    ensures exact { IfOk result (λ list. list
        ≡ sessions.path_of scene.now s.now inst.now entry.now steps.now) }
{
    match asked_entry(scene, s, inst, entry) {
        Some(item) => Ok(path_of_entry(alloc, numbers, item, steps)?),
        None => Ok(Items::new(alloc)),
    }
}

/// The place of the entry of a name among those of the class of an instance.
fn place_of(scene: &Scene<'_>, s: &Statement<'_>, inst: &[u8], entry: &[u8]) -> Option<usize>
    ensures exact { result ≡ option_and_then (λ c. sessions.entry_place scene.now c entry.now)
        (stage.class_of_instance scene.now s.now inst.now) }
{
    match class_of_instance(scene.names(), s, inst) {
        Some(class) => scene.entry_place(class, entry),
        None => None,
    }
}

/// What a statement asks.
#[tactic(auto, unfolding(dg_slots::specs::Sessions::ask_of))]
fn ask_of<'a>(
    alloc: Global,
    scene: &Scene<'a>,
    instances: &Instances<'_, '_>,
    numbers: &Numbers<'_, 'a>,
    s: &Statement<'a>,
) -> Result<Option<Ask>, NoMemory>
    requires instances { instances.now ≡ scene.now }
    requires numbers { numbers.now ≡ scene.now }
    ensures exact { IfOk result (λ ask. ask ≡ sessions.ask_of scene.now s.now) }
{
    let Item::AskLine { inst, entry, steps } = s.item else {
        return Ok(None);
    };
    let Some(number) = instances.before(s, inst.as_slice()) else {
        return Ok(None);
    };
    let Some(place) = place_of(scene, s, inst.as_slice(), entry.as_slice()) else {
        return Ok(None);
    };
    let place = as_number(place)?;
    let steps = path_of(
        alloc,
        scene,
        numbers,
        s,
        inst.as_slice(),
        entry.as_slice(),
        steps.as_slice(),
    )?;
    Ok(Some(Ask {
        inst: number,
        entry: place,
        steps,
    }))
}

/// The asks, in the order of their lines.
#[tactic(auto, unfolding(dg_slots::specs::Sessions::asks_of))]
pub(crate) fn asks_of<'a>(
    alloc: Global,
    scene: &Scene<'a>,
    instances: &Instances<'_, '_>,
    numbers: &Numbers<'_, 'a>,
) -> Result<Items<Ask>, NoMemory>
    requires instances { instances.now ≡ scene.now }
    requires numbers { numbers.now ≡ scene.now }
    ensures exact { IfOk result (λ list. list ≡ sessions.asks_of scene.now) }
{
    let mut list = Items::new(alloc);
    for s in scene.names().statements() {
        if let Some(ask) = ask_of(alloc, scene, instances, numbers, s)? {
            list.push(ask)?;
        }
    }
    Ok(list)
}
