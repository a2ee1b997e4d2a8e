//! What a mention of a name may stand for.

ghost use Rattle.std.specs.Prelude.{◌≡◌, ◌||◌};
ghost use Rattle.dg_lex.specs.Bytes.{is_among};
ghost use Rattle.dg_hilt.specs.Names as predefined;
ghost use Rattle.dg_hilt.specs.Table as hilt;
ghost use Rattle.dg_decl.specs.Stages.Names as stage;
ghost use Rattle.dg_typing.specs.NamesWanted as spec;

use dg_decl::{Item, Param};
use dg_hilt::{class_of, default_class, is_scope_name};
use dg_names::Names;

/// What a mention wants its name to be.
#[derive(Clone, Copy)]
pub enum Wanted {
    Scope,
    Qualifier,
    QualifierWithMember,
    /// A class or an interface.
    Type,
    Interface,
    Class,
    Module,
    /// A class of a `component` line.
    Component,
    /// One of Hilt's components, or a class of a `defineComponent` line.
    InstallTarget,
    /// Any component class.
    ComponentClass,
}

/// Whether the name is that of one of Hilt's scopes.
fn is_hilt_scope(name: &[u8]) -> bool
    ensures exact { result ≡ is_among name.now predefined.scope_names }
{
    is_scope_name(name)
}

/// Whether the name is that of one of Hilt's components.
fn is_hilt_component(name: &[u8]) -> bool
    ensures exact { result ≡ is_among name.now hilt.hilt_names }
{
    class_of(name).is_some()
}

/// Whether the name is that of a class whose objects Hilt's components have bound.
fn is_default_class(name: &[u8]) -> bool
    ensures exact { result ≡ is_among name.now hilt.default_classes }
{
    default_class(name).is_some()
}

/// Whether the name is that of the predefined qualifier.
fn is_named(name: &[u8]) -> bool
    ensures exact { result ≡ is_among name.now predefined.qualifier_names }
{
    name == b"Named".as_slice()
}

/// Whether a name is predefined as what is wanted.
fn is_predefined_as(wanted: Wanted, name: &[u8]) -> bool
    ensures exact { result ≡ spec.is_predefined_as wanted name.now }
{
    match wanted {
        Wanted::Scope => is_hilt_scope(name),
        Wanted::QualifierWithMember => is_named(name),
        Wanted::Type | Wanted::Class => is_default_class(name),
        Wanted::InstallTarget | Wanted::ComponentClass => is_hilt_component(name),
        Wanted::Qualifier | Wanted::Interface | Wanted::Module | Wanted::Component => false,
    }
}

/// Whether an item is of the kind that is wanted.
fn is_of_kind(wanted: Wanted, item: &Item) -> bool
    ensures exact { result ≡ spec.is_of_kind wanted item.now }
{
    match item {
        Item::ScopeLine { .. } => matches!(wanted, Wanted::Scope),
        Item::QualifierLine { member, .. } => {
            if *member {
                matches!(wanted, Wanted::QualifierWithMember)
            } else {
                matches!(wanted, Wanted::Qualifier)
            }
        }
        Item::Interface { .. } => matches!(wanted, Wanted::Interface | Wanted::Type),
        Item::Class { .. } => matches!(wanted, Wanted::Class | Wanted::Type),
        Item::Module { .. } | Item::TestModule { .. } => matches!(wanted, Wanted::Module),
        Item::Component { .. } => matches!(wanted, Wanted::Component | Wanted::ComponentClass),
        Item::DefineComponent { .. } => {
            matches!(wanted, Wanted::InstallTarget | Wanted::ComponentClass)
        }
        _ => false,
    }
}

/// Whether the first declaration of a name is of the kind that is wanted.
fn is_declared_as(names: &Names<'_>, wanted: Wanted, name: &[u8]) -> bool
    ensures exact { result ≡ stage.is_declared_as (spec.is_of_kind wanted) names.now name.now }
{
    match names.declaration(name) {
        Some(statement) => is_of_kind(wanted, statement.item),
        None => false,
    }
}

/// Whether a name stands for what is wanted.
pub fn is_known(names: &Names<'_>, wanted: Wanted, name: &[u8]) -> bool
    ensures exact { result ≡ (spec.is_predefined_as wanted name.now
        || stage.is_declared_as (spec.is_of_kind wanted) names.now name.now) }
{
    is_predefined_as(wanted, name) || is_declared_as(names, wanted, name)
}

/// Whether the name is that of a parameter.
pub fn is_param(params: &[Param], name: &[u8]) -> bool
    ensures exact { result ≡ spec.is_param params.now name.now }
{
    params.iter().any(|p| p.name.as_slice() == name)
}
