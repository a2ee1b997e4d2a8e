//! The names that a line mentions, each judged where it stands.

ghost use Rattle.std.specs.Prelude.{◌≡◌, ◌++◌, OnOk};
ghost use Rattle.dg_decl.specs.Stages.Names as spec;
ghost use Rattle.dg_typing.specs.NamesJudged.{judged};
ghost use Rattle.dg_typing.specs.NamesLines as lines;

use super::expressions::{in_args, in_expr, in_tree};
use super::mentions::{in_params, in_use, mention, of_each, of_some};
use super::wanted::Wanted;
use dg_decl::{Item, Violation};
use dg_names::{Names, Statement};
use dg_types::NoMemory;
use std::alloc::Global;

/// The names that a line outside blocks mentions.
#[tactic(auto, using(crate::proofs::NamesJudged::two_more, crate::proofs::NamesJudged::adds_none), unfolding(crate::specs::NamesLines::outer_mentions))]
fn outer_mentions(
    alloc: Global,
    names: &Names<'_>,
    s: &Statement<'_>,
    out: &mut Vec<Violation>,
) -> Result<(), NoMemory>
    ensures exact { OnOk result (out.new.items ≡ out.old.items
        ++ judged names.now s.now (lines.outer_mentions s.now.item)) }
{
    match s.item {
        Item::Class {
            scope,
            params,
            interfaces,
            ..
        } => {
            of_some(alloc, names, s, Wanted::Scope, scope, out)?;
            in_params(alloc, names, s, params.as_slice(), out)?;
            of_each(
                alloc,
                names,
                s,
                Wanted::Interface,
                interfaces.as_slice(),
                out,
            )
        }
        Item::Module {
            install,
            includes,
            ..
        } => {
            of_some(alloc, names, s, Wanted::InstallTarget, install, out)?;
            of_each(alloc, names, s, Wanted::Module, includes.as_slice(), out)
        }
        Item::TestModule {
            install,
            replaces,
            includes,
            ..
        } => {
            mention(alloc, names, s, Wanted::InstallTarget, install, out)?;
            of_each(alloc, names, s, Wanted::Module, replaces.as_slice(), out)?;
            of_each(alloc, names, s, Wanted::Module, includes.as_slice(), out)
        }
        Item::Component {
            scopes,
            parent,
            modules,
            ..
        } => {
            of_each(alloc, names, s, Wanted::Scope, scopes.as_slice(), out)?;
            of_some(alloc, names, s, Wanted::Component, parent, out)?;
            of_each(alloc, names, s, Wanted::Module, modules.as_slice(), out)
        }
        Item::DefineComponent { scopes, parent, .. } => {
            of_each(alloc, names, s, Wanted::Scope, scopes.as_slice(), out)?;
            mention(alloc, names, s, Wanted::InstallTarget, parent, out)
        }
        Item::EntryPoint { install, .. } => {
            mention(alloc, names, s, Wanted::InstallTarget, install, out)
        }
        Item::OpenLine { class, args, .. } => {
            mention(alloc, names, s, Wanted::ComponentClass, class, out)?;
            in_args(alloc, names, s, args.as_slice(), out)
        }
        _ => Ok(()),
    }
}

/// The names that a line in a block mentions.
#[tactic(auto, using(crate::proofs::NamesJudged::two_more, crate::proofs::NamesJudged::adds_none), unfolding(crate::specs::NamesLines::block_mentions))]
fn block_mentions(
    alloc: Global,
    names: &Names<'_>,
    s: &Statement<'_>,
    out: &mut Vec<Violation>,
) -> Result<(), NoMemory>
    ensures exact { OnOk result (out.new.items ≡ out.old.items
        ++ judged names.now s.now (lines.block_mentions s.now.item)) }
{
    match s.item {
        Item::Provides {
            scope,
            params,
            result,
            body,
            ..
        } => {
            of_some(alloc, names, s, Wanted::Scope, scope, out)?;
            in_params(alloc, names, s, params.as_slice(), out)?;
            in_use(alloc, names, s, result, out)?;
            in_expr(alloc, names, s, body, out)
        }
        Item::Binds {
            scope,
            param,
            result,
            ..
        } => {
            of_some(alloc, names, s, Wanted::Scope, scope, out)?;
            in_use(alloc, names, s, &param.shape, out)?;
            in_use(alloc, names, s, result, out)
        }
        Item::Produces {
            params,
            result,
            body,
            ..
        } => {
            in_params(alloc, names, s, params.as_slice(), out)?;
            in_use(alloc, names, s, result, out)?;
            in_tree(alloc, names, s, body, out)
        }
        Item::OptionalOf { result, .. }
        | Item::Multibinds { result, .. }
        | Item::BindsInstance { result, .. }
        | Item::Entry { result, .. } => in_use(alloc, names, s, result, out),
        Item::DependsOn { name } => mention(alloc, names, s, Wanted::ComponentClass, name, out),
        _ => Ok(()),
    }
}

/// Adds each mention of a statement that has no declaration of the kind that it wants.
pub fn unknown_name(
    alloc: Global,
    names: &Names<'_>,
    s: &Statement<'_>,
    out: &mut Vec<Violation>,
) -> Result<(), NoMemory>
    ensures exact { OnOk result (out.new.items ≡ out.old.items
        ++ spec.unknown_name names.now s.now) }
{
    outer_mentions(alloc, names, s, out)?;
    block_mentions(alloc, names, s, out)?;
    Ok(())
}
