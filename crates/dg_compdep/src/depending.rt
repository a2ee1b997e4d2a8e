ghost use Rattle.std.specs.Prelude.{◌≡◌, ◌++◌, ◌<◌, [], ◌∷◌, IfOk, OnOk, if◌then◌else◌};
ghost use Rattle.dg_decl.specs.Bounds.{IsBounded};
ghost use Rattle.dg_decl.specs.Components.{class_count, component_classes};
ghost use Rattle.dg_decl.specs.Stages.Names.{names_stage};
ghost use Rattle.dg_decl.specs.Stages.Types.{types_stage};
ghost use Rattle.dg_decl.specs.Stages.Components.{components_stage};
ghost use Rattle.dg_decl.specs.Stages.Dependencies as stage;
ghost use Rattle.dg_decl.specs.Stages.Dependencies.{dependencies_stage};
ghost use Rattle.dg_compdep.specs.Dependencies as spec;

use crate::classes::{Classes, class_around};
use crate::line::at_line;
use crate::named::Named;
use dg_decl::{CompTree, Doc, Item, Rule, Violation};
use dg_names::{Names, Statement};
use dg_types::{Name, NoMemory};
use std::alloc::Global;

/// What a document breaks in the stage of dependencies, in the order of lines.
#[tactic(auto, unfolding(dg_decl::specs::Stages::Dependencies::dependencies_stage))]
pub fn depends(alloc: Global, d: &Doc, t: &CompTree) -> Result<Vec<Violation>, NoMemory>
    requires bounded { IsBounded d.now }
    requires names { names_stage d.now ≡ [] }
    requires types { types_stage d.now ≡ [] }
    requires components { components_stage d.now ≡ [] }
    requires classes { t.now.classes ≡ component_classes d.now }
    ensures exact { IfOk result (λ broken. broken.items ≡ dependencies_stage d.now) }
{
    let classes = Classes::of(alloc, d, t)?;
    let mut named = Named::new(alloc);
    let mut broken = Vec::new(alloc);
    for s in classes.names().statements() {
        bad_depends_on(alloc, &classes, s, &mut named, &mut broken)?;
    }
    Ok(broken)
}

/// Appends what a statement breaks, and notes the dependency that it names.
#[tactic(auto, unfolding(dg_decl::specs::Stages::Dependencies::bad_depends_on))]
fn bad_depends_on(
    alloc: Global,
    classes: &Classes<'_>,
    s: &Statement<'_>,
    named: &mut Named,
    broken: &mut Vec<Violation>,
) -> Result<(), NoMemory>
    requires named { spec.HasNamed classes.now s.now.index named.old }
    ensures exact { OnOk result
        (broken.new.items ≡ broken.old.items ++ stage.bad_depends_on classes.now s.now) }
    ensures named { OnOk result
        (spec.AreBoth named.old (spec.named_by classes.now s.now) named.new) }
{
    let Some(class) = class_around(classes.names(), s) else {
        return Ok(());
    };
    let Item::DependsOn { name } = s.item else {
        return Ok(());
    };
    let again = note(classes.names(), s, class, name, named)?;
    if classes.has_parent(class) || again || leads_back(classes, class, name) {
        broken.push(at_line(alloc, Rule::BadDependsOn, s, name.as_slice())?)?;
    }
    Ok(())
}

/// Notes a dependency that a statement names, where it stands in the block of the class. Tells
/// whether the class had named it before.
fn note(
    names: &Names<'_>,
    s: &Statement<'_>,
    class: u32,
    name: &Name,
    named: &mut Named,
) -> Result<bool, NoMemory>
    ensures exact { IfOk result (λ again. again ≡ spec.has_pair named.old class name.now) }
    ensures named { OnOk result (spec.AreBoth named.old
        (if spec.is_own names.now s.now class then (class, name.now) ∷ [] else []) named.new) }
{
    if is_own(names, s, class) {
        named.note(class, name.as_slice())
    } else {
        named.has(class, name.as_slice())
    }
}

/// Whether a statement stands in the block of the header of a class.
fn is_own(names: &Names<'_>, s: &Statement<'_>, class: u32) -> bool
    ensures exact { result ≡ spec.is_own names.now s.now class }
{
    match (names.header_of(class), s.block) {
        (Some(header), Some(block)) => block == header,
        _ => false,
    }
}

/// Whether a walk leads back from the class of this name to a class.
fn leads_back(classes: &Classes<'_>, class: u32, name: &Name) -> bool
    requires class { class < class_count classes.now }
    ensures exact { result ≡ stage.leads_back classes.now class name.now }
{
    match classes.names().class_named(name.as_slice()) {
        Some(named) => classes.is_below(named, class),
        None => false,
    }
}
