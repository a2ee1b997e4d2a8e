//! The rules on `link` lines, and that no dependency is left untied.

ghost use Rattle.std.specs.Prelude.{◌≡◌, ◌++◌, map, not, is_none, option_map, option_to_list, IfOk, OnOk};
ghost use Rattle.std.specs.List.{filter, find};
ghost use Rattle.dg_decl.specs.Components as components;
ghost use Rattle.dg_decl.specs.Stages.Links as stage;
ghost use Rattle.dg_decl.specs.Stages.Links.{links_stage};
ghost use Rattle.dg_decl.specs.Stages.Names as names;
ghost use Rattle.dg_decl.specs.Stages.Session as session;

use crate::line::at_line;
use crate::opened::{class_of_instance, class_opened, opened_before};
use crate::tied::Tied;
use dg_decl::{Item, Rule, Violation};
use dg_names::{Names, Statement};
use dg_types::{Name, NoMemory};
use std::alloc::Global;

/// Whether an instance wasn't opened before a statement.
fn is_unknown(names: &Names<'_>, s: &Statement<'_>, name: &Name) -> bool
    ensures exact { result ≡ is_none (session.opened_before names.now s.now name.now) }
{
    match opened_before(names, s, name.as_slice()) {
        Some(_) => false,
        None => true,
    }
}

/// The first end of a `link` line that wasn't opened on an earlier line: `from`, else `to`.
fn unknown_end<'a>(names: &Names<'_>, s: &Statement<'a>) -> Option<&'a Name>
    ensures exact { option_to_list (option_map (λ n. n.now) result) ≡ session.first_of
        (filter (λ n. is_none (session.opened_before names.now s.now n)) (stage.ends s.now.item)) }
{
    let Item::Link { from, to } = s.item else {
        return None;
    };
    if is_unknown(names, s, from) {
        return Some(from);
    }
    if is_unknown(names, s, to) {
        return Some(to);
    }
    None
}

/// An end of a `link` line wasn't opened on an earlier line.
#[tactic(auto, unfolding(dg_decl::specs::Stages::Links::unknown_linked))]
fn unknown_linked(
    alloc: Global,
    tied: &Tied<'_>,
    s: &Statement<'_>,
) -> Result<Option<Violation>, NoMemory>
    ensures exact { IfOk result (λ v. option_to_list v ≡ stage.unknown_linked tied.now s.now) }
{
    match unknown_end(tied.names(), s) {
        Some(name) => Ok(Some(at_line(alloc, Rule::UnknownLinked, s, name.as_slice())?)),
        None => Ok(None),
    }
}

/// The class of `to` is no dependency of the class of `from`, or an earlier line ties `from` to an
/// instance of that class.
#[tactic(auto, unfolding(dg_decl::specs::Stages::Links::wrong_dependency))]
fn wrong_dependency(
    alloc: Global,
    tied: &Tied<'_>,
    s: &Statement<'_>,
) -> Result<Option<Violation>, NoMemory>
    ensures exact { IfOk result (λ v. option_to_list v ≡ stage.wrong_dependency tied.now s.now) }
{
    let Item::Link { to, .. } = s.item else {
        return Ok(None);
    };
    if tied.ties_anew(s)? {
        return Ok(None);
    }
    match class_of_instance(tied.names(), s, to.as_slice()) {
        Some(class) => Ok(Some(at_line(
            alloc,
            Rule::WrongDependency,
            s,
            tied.classes().name_of(class),
        )?)),
        None => Ok(None),
    }
}

/// The first of some classes to none of whose instances a line ties an instance.
fn first_untied(tied: &Tied<'_>, from: &[u8], deps: &[u32]) -> Result<Option<u32>, NoMemory>
    ensures exact { IfOk result (λ dep. dep ≡ find (λ d. not (stage.is_tied tied.now from.now d))
        deps.now) }
{
    for dep in deps {
        if !tied.is_tied(from, *dep)? {
            return Ok(Some(*dep));
        }
    }
    Ok(None)
}

/// The name of the instance that a statement opens.
fn instance_name<'a>(s: &Statement<'a>) -> Option<&'a Name>
    ensures exact { option_map (λ n. n.now) result ≡ names.instance_name s.now.item }
{
    match s.item {
        Item::OpenLine { name, .. } => Some(name),
        _ => None,
    }
}

/// The first dependency of the instance that a statement opens to which no line ties it.
fn untied(tied: &Tied<'_>, s: &Statement<'_>) -> Result<Option<u32>, NoMemory>
    ensures exact { IfOk result (λ dep. option_to_list (option_map
        (components.class_name tied.now) dep) ≡ session.first_of
        (map (components.class_name tied.now) (stage.untied tied.now s.now))) }
{
    let Some(name) = instance_name(s) else {
        return Ok(None);
    };
    match class_opened(tied.names(), s) {
        Some(class) => Ok(first_untied(tied, name.as_slice(), tied.classes().deps(class))?),
        None => Ok(None),
    }
}

/// An `open` line of a class with a dependency to which no line ties the instance.
#[tactic(auto, unfolding(dg_decl::specs::Stages::Links::missing_link))]
fn missing_link(
    alloc: Global,
    tied: &Tied<'_>,
    s: &Statement<'_>,
) -> Result<Option<Violation>, NoMemory>
    ensures exact { IfOk result (λ v. option_to_list v ≡ stage.missing_link tied.now s.now) }
{
    match untied(tied, s)? {
        Some(dep) => Ok(Some(at_line(alloc, Rule::MissingLink, s, tied.classes().name_of(dep))?)),
        None => Ok(None),
    }
}

/// The first rule that a line breaks.
#[tactic(auto, unfolding(dg_decl::specs::Stages::Links::links_at))]
fn links_at(
    alloc: Global,
    tied: &Tied<'_>,
    s: &Statement<'_>,
) -> Result<Option<Violation>, NoMemory>
    ensures exact { IfOk result (λ v. option_to_list v ≡ stage.links_at tied.now s.now) }
{
    if let Some(unknown) = unknown_linked(alloc, tied, s)? {
        return Ok(Some(unknown));
    }
    if let Some(wrong) = wrong_dependency(alloc, tied, s)? {
        return Ok(Some(wrong));
    }
    missing_link(alloc, tied, s)
}

/// Appends what a line breaks.
fn push_broken(
    alloc: Global,
    tied: &Tied<'_>,
    s: &Statement<'_>,
    broken: &mut Vec<Violation>,
) -> Result<(), NoMemory>
    ensures exact { OnOk result
        (broken.new.items ≡ broken.old.items ++ stage.links_at tied.now s.now) }
{
    match links_at(alloc, tied, s)? {
        Some(violation) => Ok(broken.push(violation)?),
        None => Ok(()),
    }
}

/// What a document breaks in the stage of links, in the order of lines.
#[tactic(auto, unfolding(dg_decl::specs::Stages::Links::links_stage))]
pub(crate) fn broken_links(alloc: Global, tied: &Tied<'_>) -> Result<Vec<Violation>, NoMemory>
    ensures exact { IfOk result (λ broken. broken.items ≡ links_stage tied.now) }
{
    let mut broken = Vec::new(alloc);
    for s in tied.names().statements() {
        push_broken(alloc, tied, s, &mut broken)?;
    }
    Ok(broken)
}
