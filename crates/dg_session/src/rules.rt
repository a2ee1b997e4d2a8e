//! The rules on `open` and `ask` lines.

ghost use Rattle.std.specs.Prelude.{◌≡◌, ◌++◌, [], ◌∷◌, option_and_then, option_map, option_to_list, IfOk, OnOk, decimal};
ghost use Rattle.dg_decl.specs.Names as declared;
ghost use Rattle.dg_decl.specs.Stages.Session as stage;
ghost use Rattle.dg_decl.specs.Stages.Session.{session_stage};

use crate::arguments::{bounds_of, first_wrong};
use crate::entries::{asked_entry, type_of_entry};
use crate::opened::{class_of_named, fits_parent, is_unknown, named_instance};
use crate::paths::first_misfit;
use crate::scene::Scene;
use dg_compdep::at_line;
use dg_decl::{AskStep, Item, Rule, Violation};
use dg_names::{Names, Statement};
use dg_types::{NoMemory, Text};
use itoa::Buffer;
use std::alloc::Global;

/// An instance name was not opened on an earlier line.
#[tactic(auto, unfolding(dg_decl::specs::Stages::Session::unknown_instance))]
fn unknown_instance(
    alloc: Global,
    scene: &Scene<'_>,
    s: &Statement<'_>,
) -> Result<Option<Violation>, NoMemory>
    ensures exact { IfOk result (λ v. option_to_list v ≡ stage.unknown_instance scene.now s.now) }
{
    let Some(name) = named_instance(s) else {
        return Ok(None);
    };
    if is_unknown(scene.names(), s, name) {
        Ok(Some(at_line(alloc, Rule::UnknownInstance, s, name.as_slice())?))
    } else {
        Ok(None)
    }
}

/// `in` is missing though the class has a parent, stands there though it has none, or names an
/// instance of another class.
#[tactic(auto, unfolding(dg_decl::specs::Stages::Session::wrong_parent))]
fn wrong_parent(
    alloc: Global,
    scene: &Scene<'_>,
    s: &Statement<'_>,
) -> Result<Option<Violation>, NoMemory>
    ensures exact { IfOk result (λ v. option_to_list v ≡ stage.wrong_parent scene.now s.now) }
{
    let Item::OpenLine { class, parent, .. } = s.item else {
        return Ok(None);
    };
    let wanted = scene.parent_of_named(class.as_slice());
    let given = class_of_named(scene.names(), s, parent);
    if fits_parent(wanted, given) {
        Ok(None)
    } else {
        Ok(Some(at_line(alloc, Rule::WrongParent, s, class.as_slice())?))
    }
}

/// An argument is unknown, repeated, of another type, or missing.
#[tactic(auto, unfolding(dg_decl::specs::Stages::Session::bad_argument))]
fn bad_argument<'a>(
    alloc: Global,
    scene: &Scene<'a>,
    s: &Statement<'a>,
) -> Result<Option<Violation>, NoMemory>
    ensures exact { IfOk result (λ v. option_to_list v ≡ stage.bad_argument scene.now s.now) }
{
    let Item::OpenLine { class, args, .. } = s.item else {
        return Ok(None);
    };
    let bounds = bounds_of(scene, class.as_slice());
    match first_wrong(scene.type_names(), bounds, args.as_slice()) {
        Some(name) => Ok(Some(at_line(alloc, Rule::BadArgument, s, name.as_slice())?)),
        None => Ok(None),
    }
}

/// The instance's class has no such entry.
#[tactic(auto, unfolding(dg_decl::specs::Stages::Session::unknown_entry))]
fn unknown_entry(
    alloc: Global,
    scene: &Scene<'_>,
    s: &Statement<'_>,
) -> Result<Option<Violation>, NoMemory>
    ensures exact { IfOk result (λ v. option_to_list v ≡ stage.unknown_entry scene.now s.now) }
{
    let Item::AskLine { inst, entry, .. } = s.item else {
        return Ok(None);
    };
    match asked_entry(scene, s, inst.as_slice(), entry.as_slice()) {
        Some(_) => Ok(None),
        None => Ok(Some(at_line(alloc, Rule::UnknownEntry, s, entry.as_slice())?)),
    }
}

/// A number in decimal.
fn decimal_text(alloc: Global, number: usize) -> Result<Text, NoMemory>
    ensures exact { IfOk result (λ text. text ≡ decimal number) }
{
    let mut buffer = Buffer::new();
    Text::from_slice(alloc, buffer.format(number).as_bytes())
}

/// The number of the first step from an entry that doesn't fit the type before it.
fn misfit<'a>(names: &Names<'a>, entry: &'a Item, steps: &[AskStep]) -> Option<usize>
    ensures exact { result
        ≡ option_and_then (λ u. stage.first_misfit names.now 1 u.shape steps.now)
        (declared.result_of entry.now) }
{
    match type_of_entry(entry) {
        Some(shape) => first_misfit(names, shape, steps),
        None => None,
    }
}

/// The number of the first step of an `ask` line that doesn't fit.
fn asked_misfit(
    scene: &Scene<'_>,
    s: &Statement<'_>,
    inst: &[u8],
    entry: &[u8],
    steps: &[AskStep],
) -> Option<usize>
    ensures exact { result ≡ option_and_then (λ i. option_and_then
        (λ u. stage.first_misfit scene.now 1 u.shape steps.now) (declared.result_of i))
        (stage.asked_entry scene.now s.now inst.now entry.now) }
{
    match asked_entry(scene, s, inst, entry) {
        Some(item) => misfit(scene.names(), item, steps),
        None => None,
    }
}

/// A step doesn't fit the type before it.
#[tactic(auto, unfolding(dg_decl::specs::Stages::Session::bad_path))]
fn bad_path(
    alloc: Global,
    scene: &Scene<'_>,
    s: &Statement<'_>,
) -> Result<Option<Violation>, NoMemory>
    ensures exact { IfOk result (λ v. option_to_list v ≡ stage.bad_path scene.now s.now) }
{
    let Item::AskLine { inst, entry, steps } = s.item else {
        return Ok(None);
    };
    match asked_misfit(
        scene,
        s,
        inst.as_slice(),
        entry.as_slice(),
        steps.as_slice(),
    ) {
        Some(number) => {
            let detail = decimal_text(alloc, number)?;
            Ok(Some(at_line(alloc, Rule::BadPath, s, detail.as_slice())?))
        }
        None => Ok(None),
    }
}

/// The first rule that an `open` line breaks behind that on unknown instances.
fn open_line_at<'a>(
    alloc: Global,
    scene: &Scene<'a>,
    s: &Statement<'a>,
) -> Result<Option<Violation>, NoMemory>
    ensures exact { IfOk result (λ v. option_to_list v ≡ stage.first_broken
        (stage.wrong_parent scene.now s.now ∷ stage.bad_argument scene.now s.now ∷ [])) }
{
    if let Some(wrong) = wrong_parent(alloc, scene, s)? {
        return Ok(Some(wrong));
    }
    Ok(bad_argument(alloc, scene, s)?)
}

/// The first rule that an `ask` line breaks behind that on unknown instances.
fn ask_line_at(
    alloc: Global,
    scene: &Scene<'_>,
    s: &Statement<'_>,
) -> Result<Option<Violation>, NoMemory>
    ensures exact { IfOk result (λ v. option_to_list v ≡ stage.first_broken
        (stage.unknown_entry scene.now s.now ∷ stage.bad_path scene.now s.now ∷ [])) }
{
    if let Some(unknown) = unknown_entry(alloc, scene, s)? {
        return Ok(Some(unknown));
    }
    Ok(bad_path(alloc, scene, s)?)
}

/// The first rule that a line breaks.
#[tactic(auto, unfolding(dg_decl::specs::Stages::Session::session_at))]
fn session_at<'a>(
    alloc: Global,
    scene: &Scene<'a>,
    s: &Statement<'a>,
) -> Result<Option<Violation>, NoMemory>
    ensures exact { IfOk result (λ v. option_to_list v ≡ stage.session_at scene.now s.now) }
{
    if let Some(unknown) = unknown_instance(alloc, scene, s)? {
        return Ok(Some(unknown));
    }
    if let Some(broken) = open_line_at(alloc, scene, s)? {
        return Ok(Some(broken));
    }
    Ok(ask_line_at(alloc, scene, s)?)
}

/// Appends what a line breaks.
fn push_broken<'a>(
    alloc: Global,
    scene: &Scene<'a>,
    s: &Statement<'a>,
    broken: &mut Vec<Violation>,
) -> Result<(), NoMemory>
    ensures exact { OnOk result
        (broken.new.items ≡ broken.old.items ++ stage.session_at scene.now s.now) }
{
    match session_at(alloc, scene, s)? {
        Some(violation) => Ok(broken.push(violation)?),
        None => Ok(()),
    }
}

/// What a document breaks in the stage of the session, in the order of lines.
#[tactic(auto, unfolding(dg_decl::specs::Stages::Session::session_stage))]
pub(crate) fn broken_lines<'a>(alloc: Global, scene: &Scene<'a>) -> Result<Vec<Violation>, NoMemory>
    ensures exact { IfOk result (λ broken. broken.items ≡ session_stage scene.now) }
{
    let mut broken = Vec::new(alloc);
    for s in scene.names().statements() {
        push_broken(alloc, scene, s, &mut broken)?;
    }
    Ok(broken)
}
