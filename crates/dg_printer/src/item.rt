//! The line of an item.

ghost use Rattle.std.specs.Prelude.{◌≡◌, OnOk};
ghost use Rattle.dg_decl.specs.Canonical.{item_tokens};
ghost use Rattle.dg_printer.specs.Output as spec;
ghost use Rattle.dg_decl.specs.declared.item.Item.TheVariants as form;

use crate::clause::{
    push_clause, push_inject, push_install, push_mark, push_open_args, push_optional,
    push_optional_install, push_scope, push_scopes, push_steps,
};
use crate::expression::{push_expression, push_tree};
use crate::line::Line;
use crate::shape::{push_params, push_result};
use dg_decl::{AskStep, Expr, Item, Mark, OpenArg, Param, Tree};
use dg_types::{Name, NoMemory, TypeUse};

#[tactic(auto, unfolding(dg_decl::specs::Canonical::item_tokens))]
fn push_qualifier_line(line: &mut Line, name: &Name, member: bool) -> Result<(), NoMemory>
    ensures exact { OnOk result (line.new
        ≡ spec.pushed line.old (item_tokens (form.QualifierLine name.now member))) }
{
    line.push_keyword(b"qualifier", name)?;
    if member {
        line.push(b"(")?;
        line.push(b"Text")?;
        line.push(b")")?;
    }
    Ok(())
}

#[tactic(auto, using(crate::proofs::ItemLemmas::class_line))]
fn push_class(
    line: &mut Line,
    inject: bool,
    scope: &Option<Name>,
    name: &Name,
    params: &[Param],
    interfaces: &[Name],
) -> Result<(), NoMemory>
    ensures exact { OnOk result (line.new ≡ spec.pushed line.old
        (item_tokens (form.Class inject scope.now name.now params.now interfaces.now))) }
{
    push_inject(line, inject)?;
    push_scope(line, scope)?;
    line.push_keyword(b"class", name)?;
    push_params(line, params)?;
    push_clause(line, b":", interfaces)
}

#[tactic(auto, using(crate::proofs::ItemLemmas::module_line))]
fn push_module(
    line: &mut Line,
    install: &Option<Name>,
    name: &Name,
    includes: &[Name],
) -> Result<(), NoMemory>
    ensures exact { OnOk result (line.new ≡ spec.pushed line.old
        (item_tokens (form.Module install.now name.now includes.now))) }
{
    push_optional_install(line, install)?;
    line.push_keyword(b"module", name)?;
    push_clause(line, b"includes", includes)?;
    line.push(b"{")
}

#[tactic(auto, using(crate::proofs::ItemLemmas::test_module_line))]
fn push_test_module(
    line: &mut Line,
    install: &Name,
    name: &Name,
    replaces: &[Name],
    includes: &[Name],
) -> Result<(), NoMemory>
    ensures exact { OnOk result (line.new ≡ spec.pushed line.old
        (item_tokens (form.TestModule install.now name.now replaces.now includes.now))) }
{
    push_install(line, b"TestInstallIn", install)?;
    line.push_keyword(b"module", name)?;
    push_clause(line, b"replaces", replaces)?;
    push_clause(line, b"includes", includes)?;
    line.push(b"{")
}

#[tactic(auto, using(crate::proofs::ItemLemmas::component_line))]
fn push_component(
    line: &mut Line,
    scopes: &[Name],
    name: &Name,
    parent: &Option<Name>,
    modules: &[Name],
) -> Result<(), NoMemory>
    ensures exact { OnOk result (line.new ≡ spec.pushed line.old
        (item_tokens (form.Component scopes.now name.now parent.now modules.now))) }
{
    push_scopes(line, scopes)?;
    line.push_keyword(b"component", name)?;
    push_optional(line, b"in", parent)?;
    push_clause(line, b"modules", modules)?;
    line.push(b"{")
}

#[tactic(auto, using(crate::proofs::ItemLemmas::define_component_line))]
fn push_define_component(
    line: &mut Line,
    scopes: &[Name],
    name: &Name,
    parent: &Name,
) -> Result<(), NoMemory>
    ensures exact { OnOk result (line.new ≡ spec.pushed line.old
        (item_tokens (form.DefineComponent scopes.now name.now parent.now))) }
{
    push_scopes(line, scopes)?;
    line.push_keyword(b"defineComponent", name)?;
    line.push_keyword(b"in", parent)?;
    line.push(b"{")
}

#[tactic(auto, using(crate::proofs::ItemLemmas::entry_point_line))]
fn push_entry_point(line: &mut Line, install: &Name, name: &Name) -> Result<(), NoMemory>
    ensures exact { OnOk result (line.new
        ≡ spec.pushed line.old (item_tokens (form.EntryPoint install.now name.now))) }
{
    push_install(line, b"InstallIn", install)?;
    line.push_keyword(b"entryPoint", name)?;
    line.push(b"{")
}

/// Appends what the line of a module member begins with: its mark and scope, its keyword and name,
/// its parameters and its result.
fn push_head(
    line: &mut Line,
    mark: &Option<Mark>,
    scope: &Option<Name>,
    word: &[u8],
    name: &Name,
    params: &[Param],
    asked: &TypeUse,
) -> Result<(), NoMemory>
    ensures exact { OnOk result (line.new
        ≡ spec.with_head line.old mark.now scope.now word.now name.now params.now asked.now) }
{
    push_mark(line, mark)?;
    push_scope(line, scope)?;
    line.push_keyword(word, name)?;
    push_params(line, params)?;
    push_result(line, asked)
}

#[tactic(auto, using(crate::proofs::ItemLemmas::provides_line))]
fn push_provides(
    line: &mut Line,
    mark: &Option<Mark>,
    scope: &Option<Name>,
    name: &Name,
    params: &[Param],
    asked: &TypeUse,
    body: &Expr,
) -> Result<(), NoMemory>
    ensures exact { OnOk result (line.new ≡ spec.pushed line.old (item_tokens
        (form.Provides mark.now scope.now name.now params.now asked.now body.now))) }
{
    push_head(line, mark, scope, b"provides", name, params, asked)?;
    line.push(b"=")?;
    push_expression(line, body)
}

#[tactic(auto, using(crate::proofs::ItemLemmas::binds_line))]
fn push_binds(
    line: &mut Line,
    mark: &Option<Mark>,
    scope: &Option<Name>,
    name: &Name,
    param: &Param,
    asked: &TypeUse,
) -> Result<(), NoMemory>
    ensures exact { OnOk result (line.new ≡ spec.pushed line.old
        (item_tokens (form.Binds mark.now scope.now name.now param.now asked.now))) }
{
    push_head(
        line,
        mark,
        scope,
        b"binds",
        name,
        std::slice::from_ref(param),
        asked,
    )
}

#[tactic(auto, using(crate::proofs::ItemLemmas::produces_line))]
fn push_produces(
    line: &mut Line,
    mark: &Option<Mark>,
    name: &Name,
    params: &[Param],
    asked: &TypeUse,
    body: &Tree,
) -> Result<(), NoMemory>
    ensures exact { OnOk result (line.new ≡ spec.pushed line.old
        (item_tokens (form.Produces mark.now name.now params.now asked.now body.now))) }
{
    push_head(line, mark, &None, b"produces", name, params, asked)?;
    line.push(b"=")?;
    push_tree(line, body)
}

/// Appends a keyword, a name and `: USE`.
fn push_typed(line: &mut Line, word: &[u8], name: &Name, asked: &TypeUse) -> Result<(), NoMemory>
    ensures exact { OnOk result (line.new
        ≡ spec.with_typed line.old word.now name.now asked.now) }
{
    line.push_keyword(word, name)?;
    push_result(line, asked)
}

#[tactic(auto, using(crate::proofs::ItemLemmas::open_line))]
fn push_open(
    line: &mut Line,
    name: &Name,
    class: &Name,
    parent: &Option<Name>,
    args: &[OpenArg],
) -> Result<(), NoMemory>
    ensures exact { OnOk result (line.new ≡ spec.pushed line.old
        (item_tokens (form.OpenLine name.now class.now parent.now args.now))) }
{
    line.push_keyword(b"open", name)?;
    line.push(b":")?;
    line.push(class.as_slice())?;
    push_optional(line, b"in", parent)?;
    push_open_args(line, args)
}

#[tactic(auto, using(crate::proofs::ItemLemmas::ask_line))]
fn push_ask(line: &mut Line, inst: &Name, entry: &Name, steps: &[AskStep]) -> Result<(), NoMemory>
    ensures exact { OnOk result (line.new ≡ spec.pushed line.old
        (item_tokens (form.AskLine inst.now entry.now steps.now))) }
{
    line.push_keyword(b"ask", inst)?;
    line.push(b".")?;
    line.push(entry.as_slice())?;
    push_steps(line, steps)
}

#[tactic(auto, using(crate::proofs::ItemLemmas::link_line))]
fn push_link(line: &mut Line, from: &Name, to: &Name) -> Result<(), NoMemory>
    ensures exact { OnOk result (line.new
        ≡ spec.pushed line.old (item_tokens (form.Link from.now to.now))) }
{
    line.push_keyword(b"link", from)?;
    line.push_keyword(b"to", to)
}

/// Appends the tokens of an item.
#[tactic(auto, using(crate::proofs::ItemLemmas::item_lines))]
pub fn push_item(line: &mut Line, item: &Item) -> Result<(), NoMemory>
    ensures exact { OnOk result (line.new ≡ spec.pushed line.old (item_tokens item.now)) }
{
    match item {
        Item::QualifierLine { name, member } => push_qualifier_line(line, name, *member),
        Item::ScopeLine { name } => line.push_keyword(b"scope", name),
        Item::Interface { name } => line.push_keyword(b"interface", name),
        Item::Class {
            inject,
            scope,
            name,
            params,
            interfaces,
        } => push_class(
            line,
            *inject,
            scope,
            name,
            params.as_slice(),
            interfaces.as_slice(),
        ),
        Item::Module {
            install,
            name,
            includes,
        } => push_module(line, install, name, includes.as_slice()),
        Item::TestModule {
            install,
            name,
            replaces,
            includes,
        } => push_test_module(
            line,
            install,
            name,
            replaces.as_slice(),
            includes.as_slice(),
        ),
        Item::Component {
            scopes,
            name,
            parent,
            modules,
        } => push_component(line, scopes.as_slice(), name, parent, modules.as_slice()),
        Item::DefineComponent {
            scopes,
            name,
            parent,
        } => push_define_component(line, scopes.as_slice(), name, parent),
        Item::EntryPoint { install, name } => push_entry_point(line, install, name),
        Item::Provides {
            mark,
            scope,
            name,
            params,
            result,
            body,
        } => push_provides(line, mark, scope, name, params.as_slice(), result, body),
        Item::Binds {
            mark,
            scope,
            name,
            param,
            result,
        } => push_binds(line, mark, scope, name, param, result),
        Item::Produces {
            mark,
            name,
            params,
            result,
            body,
        } => push_produces(line, mark, name, params.as_slice(), result, body),
        Item::OptionalOf { name, result } => push_typed(line, b"bindsOptionalOf", name, result),
        Item::Multibinds { name, result } => push_typed(line, b"multibinds", name, result),
        Item::BindsInstance { name, result } => push_typed(line, b"bindsInstance", name, result),
        Item::DependsOn { name } => line.push_keyword(b"dependsOn", name),
        Item::Entry { name, result } => push_typed(line, b"entry", name, result),
        Item::End => line.push(b"}"),
        Item::OpenLine {
            name,
            class,
            parent,
            args,
        } => push_open(line, name, class, parent, args.as_slice()),
        Item::Link { from, to } => push_link(line, from, to),
        Item::AskLine { inst, entry, steps } => push_ask(line, inst, entry, steps.as_slice()),
    }
}
